// Why a reading is refused.
ghost use Rattle.std.specs.Prelude.{◌≡◌};
ghost use Rattle.segments.specs.Faults.{number};

#[derive(Debug, Clone, Copy, PartialEq, Eq)]
pub enum BuildFault {
    TooManySegments = 17,
}

impl BuildFault {
    // The number of the refusal.
    pub fn number(self) -> u8
        ensures { result ≡ number self }
    {
        self as u8
    }
}
