// Why a record has no card.
ghost use Rattle.std.specs.Prelude.{◌≡◌};
ghost use Rattle.record_card.specs.Refusals.{number};
ghost use Rattle.record_card.specs.declared.refusals.Refusal.TheVariants.{Record as OfRecord, Edit as OfEdit, Read as OfRead};
ghost use Rattle.record_card.specs.declared.refusals.NoCard.TheVariants.{Refused as NotGranted, Memory as NoMemory};

use drawing::EditFault;
use reading::ReadFault;
use std::alloc::AllocError;
use unscaled::RecordFault;

// The first check that fails: of the record, of placing its points, of reading its segments.
#[derive(Clone, Copy)]
pub enum Refusal {
    Record(RecordFault),
    Edit(EditFault),
    Read(ReadFault),
}

impl Refusal {
    // The number that is printed. By a match: each has the number of what it holds.
    pub fn number(&self) -> u8
        ensures { result ≡ number self.now }
    {
        match self {
            Refusal::Record(fault) => fault.number(),
            Refusal::Edit(fault) => fault.number(),
            Refusal::Read(fault) => fault.number(),
        }
    }
}

impl From<RecordFault> for Refusal {
    ghost from_gives = { λ fault r. r ≡ OfRecord fault };

    fn from(fault: RecordFault) -> Refusal {
        Refusal::Record(fault)
    }
}

impl From<EditFault> for Refusal {
    ghost from_gives = { λ fault r. r ≡ OfEdit fault };

    fn from(fault: EditFault) -> Refusal {
        Refusal::Edit(fault)
    }
}

impl From<ReadFault> for Refusal {
    ghost from_gives = { λ fault r. r ≡ OfRead fault };

    fn from(fault: ReadFault) -> Refusal {
        Refusal::Read(fault)
    }
}

// A refusal, or want of memory.
#[derive(Clone, Copy)]
pub enum NoCard {
    Refused(Refusal),
    Memory(AllocError),
}

impl From<RecordFault> for NoCard {
    ghost from_gives = { λ fault r. r ≡ NotGranted (OfRecord fault) };

    fn from(fault: RecordFault) -> NoCard {
        NoCard::from(Refusal::from(fault))
    }
}

impl From<EditFault> for NoCard {
    ghost from_gives = { λ fault r. r ≡ NotGranted (OfEdit fault) };

    fn from(fault: EditFault) -> NoCard {
        NoCard::from(Refusal::from(fault))
    }
}

impl From<ReadFault> for NoCard {
    ghost from_gives = { λ fault r. r ≡ NotGranted (OfRead fault) };

    fn from(fault: ReadFault) -> NoCard {
        NoCard::from(Refusal::from(fault))
    }
}

impl From<Refusal> for NoCard {
    ghost from_gives = { λ refusal r. r ≡ NotGranted refusal };

    fn from(refusal: Refusal) -> NoCard {
        NoCard::Refused(refusal)
    }
}

impl From<AllocError> for NoCard {
    ghost from_gives = { λ e r. r ≡ NoMemory e };

    fn from(e: AllocError) -> NoCard {
        NoCard::Memory(e)
    }
}
