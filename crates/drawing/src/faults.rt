// Why an edit is refused.
ghost use Rattle.std.specs.Prelude.{◌≡◌};
ghost use Rattle.drawing.specs.Faults.{number};
ghost use Rattle.drawing.specs.declared.faults.EditFault.TheVariants.{Source as FromSource};

use unscaled::SourceFault;

#[derive(Clone, Copy)]
pub enum EditFault {
    NoContour,
    NoPoint,
    NoPoints,
    TooManyPoints,
    OutOfRange,
    // a second contour where a source's only one is wanted
    SecondContour,
    TooManyContours,
    Source(SourceFault),
}

impl EditFault {
    // The number of the refusal; a source's fault keeps its own. By a match: two share 15, and one has the number of what it holds.
    pub fn number(&self) -> u8
        ensures { result ≡ number self.now }
    {
        match self {
            EditFault::NoContour => 10,
            EditFault::NoPoint => 11,
            EditFault::NoPoints => 12,
            EditFault::TooManyPoints => 13,
            EditFault::OutOfRange => 14,
            EditFault::SecondContour => 15,
            EditFault::TooManyContours => 15,
            EditFault::Source(fault) => fault.number(),
        }
    }
}

// A source's fault comes up whole.
impl From<SourceFault> for EditFault {
    ghost from_gives = { λ fault r. r ≡ FromSource fault };

    fn from(fault: SourceFault) -> EditFault {
        EditFault::Source(fault)
    }
}
