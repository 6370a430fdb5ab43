// Segments as they close, written into the caller's table.
ghost use Rattle.std.specs.Prelude.{◌≡◌, ◌+◌, ◌<◌, ◌≤◌, true, false, map, length};
ghost use Rattle.std.specs.Option.{option_len};

use crate::faults::BuildFault;
use crate::measures::{AxisPoint, Dimension};
use crate::starts::find_start;
use crate::states::State;
use crate::tables::Segment;
use outline::Point;

// No segment opens while more than this many are held.
const MOST_HELD: usize = 1000;

// The table with the segments that are held at its front, and how far the walk round a contour has come:
// the contour's latest segment that closed, and the one that the walk is inside of.
#[derive(Drop)]
pub struct Filling<'t> {
    table: &'t mut [Segment],
    held: usize,
    units: u16,
    dim: Dimension,
    latest: Option<State>,
    inside: Option<State>,
    ghost long: { 1001 ≤ length table.now },
    ghost few: { held + option_len inside ≤ 1001 },
    ghost listed: { option_len latest ≤ held },
}

impl<'t> Filling<'t> {
    ghost use Rattle.segments.specs.Building.{walked, visits_of, lone_built, built_of};
    ghost use Rattle.segments.specs.Fillings.{Starts, Closes, Opened, Moves, Met, Passed, BuiltAs};
    ghost use Rattle.segments.specs.Measures.{seen};
    ghost use Rattle.segments.specs.Walks.{met, moved};

    // Nothing is held yet.
    pub fn new(table: &'t mut [Segment], dim: Dimension, units: u16) -> Filling<'t>
        requires { 1001 ≤ length table.old }
        ensures { Starts dim units table.entry result }
    {
        Filling {
            table,
            held: 0,
            units,
            dim,
            latest: None,
            inside: None,
        }
    }

    pub fn held(&self) -> usize
        ensures value { result ≡ self.now.held }
        ensures few { result ≤ 1001 }
    {
        self.held
    }

    // The open segment closes as `state`: it joins the latest one if it begins at that one's last point.
    fn close(&mut self, state: State)
        requires { self.old.held < 1001 }
        ensures { Closes self.old self.new state }
    {
        let (kept, place) = match self.latest {
            Some(latest) if latest.last == state.first => (latest.merge(state), self.held - 1),
            _ => (state, self.held),
        };
        self.inside = None;
        self.table[place] = kept.segment(self.units);
        self.held = place + 1;
        self.latest = Some(kept);
    }

    // A segment opens, unless too many are held.
    fn begin(&mut self, state: State) -> Result<(), BuildFault>
        ensures { Opened self.old self.new state result }
    {
        if self.held > MOST_HELD {
            return Err(BuildFault::TooManySegments);
        }
        self.inside = Some(state);
        Ok(())
    }

    // Between segments, a point opens one if it is left along the axis line.
    fn enter(&mut self, at: u16, point: AxisPoint) -> Result<(), BuildFault>
        requires { self.old.inside ≡ None }
        ensures { Met self.old self.new (met self.old.dim None at point false) result }
    {
        if self.dim.holds(point.out_dir) {
            self.begin(State::open(at, point))
        } else {
            Ok(())
        }
    }

    // The walk meets its next point.
    fn meet(&mut self, at: usize, point: &Point) -> Result<(), BuildFault>
        requires { at < 65536 }
        ensures { Met self.old self.new (moved self.old.dim self.old.inside at (seen self.old.dim point.now) false) result }
    {
        let index = at as u16;
        let point = self.dim.read(point);
        let inside = self.inside;
        match inside {
            None => self.enter(index, point),
            Some(state) if state.goes_on(point) => {
                self.inside = Some(state.take_in(index, point));
                Ok(())
            }
            Some(state) => {
                self.close(state.take_in(index, point));
                self.enter(index, point)
            }
        }
    }

    // The walk ends at its last point.
    fn finish(&mut self, at: usize, point: &Point)
        requires { at < 65536 }
        ensures { Moves self.old self.new (moved self.old.dim self.old.inside at (seen self.old.dim point.now) true) }
    {
        if let Some(state) = self.inside {
            self.close(state.take_in(at as u16, self.dim.read(point)));
        }
    }

    // The walk meets the points of a part of a contour, the first of which has the index `first`.
    fn pass(&mut self, points: &[Point], first: usize) -> Result<(), BuildFault>
        requires { first + length points.now ≤ 65536 }
        ensures { Passed self.old self.new first points.now result }
    {
        for (i, point) in points.iter().enumerate() {
            self.meet(first + i, point)?;
        }
        Ok(())
    }

    // The walk round a contour, from its beginning back to that point.
    fn go_round(&mut self, points: &[Point], first: usize) -> Result<(), BuildFault>
        requires points { 0 < length points.now }
        requires first { first + length points.now ≤ 65536 }
        requires outside { self.old.inside ≡ None }
        requires none { self.old.latest ≡ None }
        ensures { BuiltAs self.old self.new (walked self.old.dim first (visits_of self.old.dim (map (seen self.old.dim) points.now))) result }
    {
        let start = find_start(points, self.dim);
        let (before, after) = points.split_at(start);
        self.pass(after, first + start)?;
        self.pass(before, first)?;
        self.finish(first + start, &points[start]);
        Ok(())
    }

    // A contour of one point: its segment has that point's direction, which is None, and is round if the point is a control.
    fn build_lone(&mut self, point: &Point, first: usize) -> Result<(), BuildFault>
        requires first { first < 65536 }
        requires none { self.old.latest ≡ None }
        ensures { BuiltAs self.old self.new (lone_built first (seen self.old.dim point.now)) result }
    {
        let state = State::open(first as u16, self.dim.read(point));
        self.begin(state)?;
        self.close(state);
        Ok(())
    }

    // The segments of a contour whose first point has the index `first`.
    pub fn build(&mut self, points: &[Point], first: usize) -> Result<(), BuildFault>
        requires { first + length points.now ≤ 65536 }
        ensures { BuiltAs self.old self.new (built_of self.old.dim first (map (seen self.old.dim) points.now)) result }
    {
        self.latest = None;
        self.inside = None;
        match points {
            [] => Ok(()),
            [only] => self.build_lone(only, first),
            _ => self.go_round(points, first),
        }
    }
}
