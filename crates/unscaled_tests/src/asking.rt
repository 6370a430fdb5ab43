// Asking a source, with its fault as the caller's own.
ghost use Rattle.std.specs.Prelude.{◌≡◌, slice_index_or};
ghost use Rattle.unscaled.specs.Entries.{past_count};
ghost use Rattle.unscaled.specs.Records.{header};
ghost use Rattle.unscaled_tests.specs.declared.asking.Refusal.TheVariants.{Record as OfRecord, Source as OfSource};
ghost use Rattle.unscaled_tests.specs.Asking.{asked, Read};

use outline::Settings;
use unscaled::{Header, RecordFault, Source, SourceFault, UnscaledPoint};

#[derive(Clone, Copy)]
pub enum Refusal {
    Record(RecordFault),
    Source(SourceFault),
}

impl From<RecordFault> for Refusal {
    ghost from_gives = { λ fault r. r ≡ OfRecord fault };

    fn from(fault: RecordFault) -> Refusal {
        Refusal::Record(fault)
    }
}

impl From<SourceFault> for Refusal {
    ghost from_gives = { λ fault r. r ≡ OfSource fault };

    fn from(fault: SourceFault) -> Refusal {
        Refusal::Source(fault)
    }
}

// The entry at the index; its fault comes up whole.
pub fn point_at<S: Source>(source: &S, index: usize) -> Result<UnscaledPoint, Refusal>
    ensures { result ≡ asked (slice_index_or (S.Source.list source.now) index (past_count (S.Source.placed source.now) index)) }
{
    let point = source.entry(index)?;
    Ok(point)
}

// The settings of a record; its refusal comes up whole.
pub fn settings_of(bytes: &[u8]) -> Result<Settings, Refusal>
    ensures { Read result (header bytes.now) }
{
    let header = Header::read(bytes)?;
    Ok(header.settings)
}
