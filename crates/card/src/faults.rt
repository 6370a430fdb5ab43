// Why a line of the card is refused.
ghost use Rattle.std.specs.Prelude.{◌≡◌};
ghost use Rattle.card.specs.Faults.{number};

#[derive(Clone, Copy)]
pub enum CardFault {
    // under 96 bytes
    BufferTooShort = 18,
}

impl CardFault {
    // The number of the refusal.
    pub fn number(self) -> u8
        ensures { result ≡ number self }
    {
        self as u8
    }
}
