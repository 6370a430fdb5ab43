// The header of a drawing record.
ghost use Rattle.std.specs.Prelude.{◌≡◌, if◌then◌else◌, Ok, Err, nat_lt};
ghost use Rattle.unscaled.specs.Corners.{flat_of};
ghost use Rattle.unscaled.specs.Faults.{record_number};
ghost use Rattle.unscaled.specs.declared.headers.RecordFault.TheVariants.{Settings as OfSettings, UnknownCorner};
ghost use Rattle.unscaled.specs.Records.{corner_of, header, told};

use crate::records::POINT_BYTES;
use outline::{Aot, CornerRule, Jit, Settings, SettingsFault};

const VERSION: u8 = 1;

// What stands before the bytes that the length counts: the version, and the length itself.
const UNCOUNTED: usize = 3;

// The corner rule that a record asks for, and itself a rule.
#[derive(Debug, Clone, Copy, PartialEq, Eq)]
pub enum CornerCode {
    Jit,
    Aot,
}

impl CornerRule for CornerCode {
    ghost flat = { flat_of };

    fn is_flat(&self, in_x: i32, in_y: i32, out_x: i32, out_y: i32) -> bool {
        match self {
            CornerCode::Jit => Jit.is_flat(in_x, in_y, out_x, out_y),
            CornerCode::Aot => Aot.is_flat(in_x, in_y, out_x, out_y),
        }
    }
}

// Why bytes are no drawing record.
#[derive(Debug, Clone, Copy, PartialEq, Eq)]
pub enum RecordFault {
    TooShort,
    UnknownVersion,
    WrongLength,
    PartialPoint,
    UnknownCorner,
    Settings(SettingsFault),
}

impl RecordFault {
    // The number of the refusal.
    pub fn number(&self) -> u8
        ensures { result ≡ record_number self.now }
    {
        // By a match: two refusals share 5, and one has the number of what it holds.
        match self {
            RecordFault::TooShort => 3,
            RecordFault::UnknownVersion => 4,
            RecordFault::WrongLength => 5,
            RecordFault::PartialPoint => 5,
            RecordFault::UnknownCorner => 6,
            RecordFault::Settings(fault) => fault.number(),
        }
    }
}

impl From<SettingsFault> for RecordFault {
    ghost from_gives = { λ fault r. r ≡ OfSettings fault };

    fn from(refused: SettingsFault) -> RecordFault {
        RecordFault::Settings(refused)
    }
}

// What a record says before its points. It holds no bytes: the points are `RecordPoints::of_record`.
#[derive(Clone, Copy)]
pub struct Header {
    pub settings: Settings,
    pub corner: CornerCode,
}

impl TryFrom<u8> for CornerCode {
    type Error = RecordFault;

    ghost try_from_gives = { λ code r. r ≡ (if nat_lt 1 code then Err UnknownCorner else Ok (corner_of code)) };

    fn try_from(code: u8) -> Result<CornerCode, RecordFault> {
        match code {
            0 => Ok(CornerCode::Jit),
            1 => Ok(CornerCode::Aot),
            _ => Err(RecordFault::UnknownCorner),
        }
    }
}

impl Header {
    // The header of a record, or why the bytes are none. All bytes are looked at: their number must be the length told.
    pub fn read(bytes: &[u8]) -> Result<Header, RecordFault>
        ensures { told result ≡ header bytes.now }
    {
        let [version, lh, ll, uh, ul, wh, wl, code, points @ ..] = bytes else {
            return Err(RecordFault::TooShort);
        };
        if *version != VERSION {
            return Err(RecordFault::UnknownVersion);
        }
        if usize::from(u16::from_be_bytes([*lh, *ll])) + UNCOUNTED != bytes.len() {
            return Err(RecordFault::WrongLength);
        }
        if points.len() % POINT_BYTES != 0 {
            return Err(RecordFault::PartialPoint);
        }
        let corner = CornerCode::try_from(*code)?;
        let units = u16::from_be_bytes([*uh, *ul]);
        let width = u16::from_be_bytes([*wh, *wl]);
        let settings = Settings::new(units, width)?;
        Ok(Header { settings, corner })
    }
}
