// Why a reading is refused.
ghost use Rattle.std.specs.Prelude.{◌≡◌};
ghost use Rattle.reading.specs.Faults.{read_number};
ghost use Rattle.reading.specs.declared.faults.ReadFault.TheVariants.{Build as FromBuild};

use segments::BuildFault;

#[derive(Clone, Copy)]
pub enum ReadFault {
    TableTooShort,
    Build(BuildFault),
}

impl ReadFault {
    // The number of the refusal. By a match: one has the number of what it holds.
    pub fn number(&self) -> u8
        ensures { result ≡ read_number self.now }
    {
        match self {
            ReadFault::TableTooShort => 16,
            ReadFault::Build(fault) => fault.number(),
        }
    }
}

impl From<BuildFault> for ReadFault {
    ghost from_gives = { λ fault r. r ≡ FromBuild fault };

    fn from(fault: BuildFault) -> ReadFault {
        ReadFault::Build(fault)
    }
}
