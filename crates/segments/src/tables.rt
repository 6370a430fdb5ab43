// A segment as a table holds it.
ghost use Rattle.std.specs.Prelude.{◌≡◌};
ghost use Rattle.segments.specs.Segments.{blank};

use crate::measures::{Coordinate, Position};
use outline::Direction;

// The score of a segment that has no partner: a number and no Option, since it is compared and printed as any other.
pub const NO_SCORE: u32 = 32000;

#[derive(Debug, Clone, Copy, PartialEq, Eq)]
pub struct Segment {
    pub dir: Direction,
    pub pos: Position,
    pub delta: i16,
    pub min_coord: Coordinate,
    pub max_coord: Coordinate,
    // of any two coordinates, so that no invariant is needed
    pub height: u16,
    pub round: bool,
    pub score: u32,
    // indices into the table, as the caller lends it and no memory is taken
    pub link: Option<u16>,
    pub serif: Option<u16>,
    // indices of points
    pub first: u16,
    pub last: u16,
}

impl Segment {
    // An entry that holds no segment.
    pub fn blank() -> Segment
        ensures { result ≡ blank }
    {
        Segment {
            dir: Direction::None,
            pos: Position(0),
            delta: 0,
            min_coord: Coordinate(0),
            max_coord: Coordinate(0),
            height: 0,
            round: false,
            score: NO_SCORE,
            link: None,
            serif: None,
            first: 0,
            last: 0,
        }
    }
}
