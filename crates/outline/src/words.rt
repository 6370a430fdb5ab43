// The words of a direction, and of the area inside an outline.
ghost use Rattle.std.specs.Prelude.{◌≡◌, ◌≤◌, length, IsAscii, Some};
ghost use Rattle.outline.specs.Words.{area_word, direction_word};

use crate::directions::Direction;
use crate::orientations::Orientation;
use std::fmt;

impl Direction {
    pub fn word(self) -> &'static str
        ensures value { result.now ≡ direction_word self }
        ensures bound { length result.now ≤ 5 }
        ensures ascii { IsAscii result.now }
    {
        match self {
            Direction::None => "none",
            Direction::Right => "right",
            Direction::Left => "left",
            Direction::Up => "up",
            Direction::Down => "down",
        }
    }
}

impl fmt::Display for Direction {
    ghost output = { λ d. Some (direction_word d) };

    fn fmt<W: fmt::Write>(&self, f: &mut fmt::Formatter<W>) -> fmt::Result {
        f.pad(self.word())
    }
}

// The sign of the area that an outline goes round.
pub fn area_word(orientation: Option<Orientation>) -> &'static str
    ensures value { result.now ≡ area_word orientation }
    ensures len { length result.now ≡ 1 }
    ensures ascii { IsAscii result.now }
{
    match orientation {
        Some(Orientation::CounterClockwise) => "+",
        Some(Orientation::Clockwise) => "-",
        None => "0",
    }
}
