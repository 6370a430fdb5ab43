// Points as they are read along an axis. Positions and coordinates are wrapped apart, so that neither meets the other.
ghost use Rattle.std.specs.Prelude.{◌≡◌};
ghost use Rattle.segments.specs.Measures.{seen, on_line, middle, half_gap, gap};

use outline::{Direction, Point, PointKind};

// The axis along which an outline is read.
#[derive(Debug, Clone, Copy, PartialEq, Eq)]
pub enum Dimension {
    Horizontal,
    Vertical,
}

// What is measured across a segment: x on the Horizontal axis, y on the Vertical.
#[derive(Debug, Clone, Copy, PartialEq, Eq, PartialOrd, Ord)]
pub struct Position(pub i16);

// What is measured along a segment: y on the Horizontal axis, x on the Vertical.
#[derive(Debug, Clone, Copy, PartialEq, Eq, PartialOrd, Ord)]
pub struct Coordinate(pub i16);

// What a reading asks of a point's record.
#[derive(Clone, Copy)]
pub struct AxisPoint {
    pub position: Position,
    pub coordinate: Coordinate,
    pub kind: PointKind,
    pub out_dir: Direction,
}

impl Dimension {
    // Whether a direction lies on the axis line.
    pub(crate) fn holds(self, dir: Direction) -> bool
        ensures { result ≡ on_line self dir }
    {
        match (self, dir) {
            (Dimension::Horizontal, Direction::Up | Direction::Down) => true,
            (Dimension::Vertical, Direction::Right | Direction::Left) => true,
            _ => false,
        }
    }

    // The one place where the axis decides which of x and y is which.
    pub(crate) fn read(self, point: &Point) -> AxisPoint
        ensures { result ≡ seen self point.now }
    {
        let (position, coordinate) = match self {
            Dimension::Horizontal => (Position(point.x), Coordinate(point.y)),
            Dimension::Vertical => (Position(point.y), Coordinate(point.x)),
        };
        AxisPoint {
            position,
            coordinate,
            kind: point.flags.kind,
            out_dir: point.out_dir,
        }
    }
}

impl Position {
    // Half the sum, rounded down.
    pub(crate) fn middle(self, other: Position) -> Position
        ensures { result ≡ middle self other }
    {
        Position(((self.0 as i32 + other.0 as i32) >> 1) as i16)
    }

    // Half of how far `other` lies above, rounded down.
    pub(crate) fn half_gap(self, other: Position) -> i16
        ensures { result ≡ half_gap self other }
    {
        ((other.0 as i32 - self.0 as i32) >> 1) as i16
    }
}

impl Coordinate {
    // How far apart the two are.
    pub(crate) fn gap(self, other: Coordinate) -> u16
        ensures { result ≡ gap self other }
    {
        other.0.abs_diff(self.0)
    }
}
