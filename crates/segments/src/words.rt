// The word of a dimension.
ghost use Rattle.std.specs.Prelude.{◌≡◌, length, IsAscii, Some};
ghost use Rattle.segments.specs.Words.{axis_word};

use crate::measures::Dimension;
use std::fmt;

impl Dimension {
    pub fn word(self) -> &'static str
        ensures value { result.now ≡ axis_word self }
        ensures len { length result.now ≡ 1 }
        ensures ascii { IsAscii result.now }
    {
        match self {
            Dimension::Horizontal => "H",
            Dimension::Vertical => "V",
        }
    }
}

impl fmt::Display for Dimension {
    ghost output = { λ d. Some (axis_word d) };

    fn fmt<W: fmt::Write>(&self, f: &mut fmt::Formatter<W>) -> fmt::Result {
        f.pad(self.word())
    }
}
