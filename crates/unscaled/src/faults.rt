// What a source finds wrong with an entry.
ghost use Rattle.std.specs.Prelude.{◌≡◌};
ghost use Rattle.unscaled.specs.Faults.{number, origin, raised};

#[derive(Debug, Clone, Copy, PartialEq, Eq)]
pub enum FaultReason {
    PastCount = 7,
    MovedOut = 8,
    UnknownKind = 9,
}

// Why, at which entry, and how many placements stand above the fault's origin (255 for any more).
#[derive(Debug, Clone, Copy, PartialEq, Eq)]
pub struct SourceFault {
    pub reason: FaultReason,
    pub index: usize,
    pub placements: u8,
}

impl SourceFault {
    // A fault where it arises: no placement stands above it.
    pub fn new(reason: FaultReason, index: usize) -> SourceFault
        ensures { result ≡ origin reason index }
    {
        SourceFault {
            reason,
            index,
            placements: 0,
        }
    }

    // The fault as a placement above passes it on.
    pub fn raise(self) -> SourceFault
        ensures { result ≡ raised self }
    {
        SourceFault {
            placements: self.placements.saturating_add(1),
            ..self
        }
    }

    // The number of the refusal.
    pub fn number(&self) -> u8
        ensures { result ≡ number self.now.reason }
    {
        self.reason as u8
    }
}
