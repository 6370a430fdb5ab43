// What a segment has taken in so far.
ghost use Rattle.std.specs.Prelude.{◌≡◌};
ghost use Rattle.outline.specs.Directions.{same};
ghost use Rattle.segments.specs.States.{mark_of, is_control, lowered, raised, on_reach, span, short, opened, taken, extent, taller, merged, is_round};
ghost use Rattle.segments.specs.Segments.{segment_of};

use crate::measures::{AxisPoint, Coordinate, Position};
use crate::tables::Segment;
use outline::{Direction, PointKind};

// A segment whose points on the curve span less than this part of the em may be round.
const FLAT_PART: u16 = 14;

// An end of a segment: a coordinate, and the kind of the point that first gave it.
#[derive(Clone, Copy)]
pub struct Mark {
    pub at: Coordinate,
    pub kind: PointKind,
}

// The coordinates of the points on the curve, from the least to the greatest.
#[derive(Clone, Copy)]
pub struct Reach {
    pub low: Coordinate,
    pub high: Coordinate,
}

#[derive(Clone, Copy)]
pub struct State {
    pub dir: Direction,
    pub first: u16,
    pub last: u16,
    pub least: Position,
    pub greatest: Position,
    pub low: Mark,
    pub high: Mark,
    pub reach: Option<Reach>,
}

impl From<AxisPoint> for Mark {
    ghost from_gives = { λ point mark. mark ≡ mark_of point };

    fn from(point: AxisPoint) -> Mark {
        Mark {
            at: point.coordinate,
            kind: point.kind,
        }
    }
}

impl Mark {
    fn is_control(self) -> bool
        ensures { result ≡ is_control self }
    {
        self.kind == PointKind::Control
    }

    // The lower of two ends, the earlier where they agree. Tests, since `min_by_key` and `max_by_key` break a tie each its own way.
    fn lower(self, later: Mark) -> Mark
        ensures { result ≡ lowered self later }
    {
        if later.at < self.at { later } else { self }
    }

    // The higher of two ends, the earlier where they agree.
    fn higher(self, later: Mark) -> Mark
        ensures { result ≡ raised self later }
    {
        if self.at < later.at { later } else { self }
    }
}

impl Reach {
    // The reach with one more point, which counts only on the curve. A match, since it shows the three cases as they are.
    fn take_in(reach: Option<Reach>, point: AxisPoint) -> Option<Reach>
        ensures { result ≡ on_reach reach point }
    {
        let at = point.coordinate;
        match (reach, point.kind) {
            (_, PointKind::Control) => reach,
            (None, PointKind::OnCurve) => Some(Reach { low: at, high: at }),
            (Some(known), PointKind::OnCurve) => Some(Reach {
                low: known.low.min(at),
                high: known.high.max(at),
            }),
        }
    }

    fn span(self) -> u16
        ensures { result ≡ span self }
    {
        self.low.gap(self.high)
    }
}

impl State {
    // A segment that begins at the point of index `at`.
    pub fn open(at: u16, point: AxisPoint) -> State
        ensures { result ≡ opened at point }
    {
        let mark = Mark::from(point);
        State {
            dir: point.out_dir,
            first: at,
            last: at,
            least: point.position,
            greatest: point.position,
            low: mark,
            high: mark,
            reach: Reach::take_in(None, point),
        }
    }

    // Whether the segment goes on past a point.
    pub fn goes_on(self, point: AxisPoint) -> bool
        ensures { result ≡ same point.out_dir self.dir }
    {
        point.out_dir == self.dir
    }

    // The same with one more point.
    pub fn take_in(self, at: u16, point: AxisPoint) -> State
        ensures { result ≡ taken self at point }
    {
        let mark = Mark::from(point);
        State {
            last: at,
            least: self.least.min(point.position),
            greatest: self.greatest.max(point.position),
            low: self.low.lower(mark),
            high: self.high.higher(mark),
            reach: Reach::take_in(self.reach, point),
            ..self
        }
    }

    // The height of the segment: from the least coordinate to the greatest.
    fn extent(self) -> u16
        ensures { result ≡ extent self }
    {
        self.low.at.gap(self.high.at)
    }

    // The earlier of two neighbours if its height is greater, else the later.
    fn taller(self, later: State) -> State
        ensures { result ≡ taller self later }
    {
        if self.extent() > later.extent() {
            self
        } else {
            later
        }
    }

    // The survivor of two neighbours, with the later's last point and the positions of both.
    pub fn merge(self, later: State) -> State
        ensures { result ≡ merged self later }
    {
        State {
            last: later.last,
            least: self.least.min(later.least),
            greatest: self.greatest.max(later.greatest),
            ..self.taller(later)
        }
    }

    // Whether the points on the curve span less than a fourteenth of the em, as no points do.
    fn is_flat(self, units: u16) -> bool
        ensures { result ≡ short units self.reach }
    {
        self.reach
            .is_none_or(|reach| reach.span() < units / FLAT_PART)
    }

    fn is_round(self, units: u16) -> bool
        ensures { result ≡ is_round units self }
    {
        (self.low.is_control() || self.high.is_control()) && self.is_flat(units)
    }

    pub fn segment(self, units: u16) -> Segment
        ensures { result ≡ segment_of units self }
    {
        Segment {
            dir: self.dir,
            pos: self.least.middle(self.greatest),
            delta: self.least.half_gap(self.greatest),
            min_coord: self.low.at,
            max_coord: self.high.at,
            height: self.extent(),
            round: self.is_round(units),
            first: self.first,
            last: self.last,
            ..Segment::blank()
        }
    }
}
