// The direction of the segments that begin a stem.
ghost use Rattle.std.specs.Prelude.{◌≡◌};
ghost use Rattle.segments.specs.Majors.{major};

use crate::measures::Dimension;
use outline::{Direction, Orientation};

// The major direction of an axis. An outline without orientation is read as a clockwise one.
pub fn major_direction(dim: Dimension, orientation: Option<Orientation>) -> Direction
    ensures { result ≡ major dim orientation }
{
    match (dim, orientation) {
        (Dimension::Horizontal, Some(Orientation::CounterClockwise)) => Direction::Down,
        (Dimension::Vertical, Some(Orientation::CounterClockwise)) => Direction::Right,
        (Dimension::Horizontal, _) => Direction::Up,
        (Dimension::Vertical, _) => Direction::Left,
    }
}
