// The points of a drawing record as a source.
ghost use Rattle.std.specs.Prelude.{◌≡◌, slice_index};
ghost use Rattle.unscaled.specs.Records.{body, entry_of, entries};

use crate::faults::{FaultReason, SourceFault};
use crate::points::UnscaledPoint;
use crate::sources::Source;
use outline::PointKind;

const HEADER_BYTES: usize = 8;

pub(crate) const POINT_BYTES: usize = 5;

// The bytes of a record's points, lent.
#[derive(Clone, Copy)]
pub struct RecordPoints<'a> {
    bytes: &'a [u8],
}

impl<'a> RecordPoints<'a> {
    // The points in these bytes, five bytes each; fewer than five at the end are none.
    pub fn new(bytes: &'a [u8]) -> RecordPoints<'a>
        ensures { result.bytes.now ≡ bytes.now }
    {
        RecordPoints { bytes }
    }

    // The points after a record's header; none where the record is shorter than that.
    pub fn of_record(record: &'a [u8]) -> RecordPoints<'a>
        ensures { result.bytes.now ≡ body «record».now }
    {
        match record.split_at_checked(HEADER_BYTES) {
            Some((_, points)) => RecordPoints { bytes: points },
            None => RecordPoints { bytes: &[] },
        }
    }
}

// The point that these bytes make, or a fault at the index where the kind is unknown.
fn point_of(index: usize, bytes: [u8; POINT_BYTES]) -> Result<UnscaledPoint, SourceFault>
    ensures { result ≡ entry_of index (slice_index bytes 0) (slice_index bytes 1) (slice_index bytes 2) (slice_index bytes 3) (slice_index bytes 4) }
{
    let [xh, xl, yh, yl, kind] = bytes;
    let (kind, is_contour_start) = match kind {
        0 => (PointKind::Control, false),
        1 => (PointKind::OnCurve, false),
        2 => (PointKind::Control, true),
        3 => (PointKind::OnCurve, true),
        _ => return Err(SourceFault::new(FaultReason::UnknownKind, index)),
    };
    Ok(UnscaledPoint {
        x: i32::from(i16::from_be_bytes([xh, xl])),
        y: i32::from(i16::from_be_bytes([yh, yl])),
        kind,
        is_contour_start,
    })
}

impl Source for RecordPoints<'_> {
    ghost list = { λ p. entries p.bytes.now };

    ghost placed = { λ _. 0 };

    #[tactic(auto, using(crate::proofs::Bytes::length_entries))]
    fn count(&self) -> usize {
        self.bytes.len() / POINT_BYTES
    }

    fn entry(&self, index: usize) -> Result<UnscaledPoint, SourceFault> {
        let (points, _) = self.bytes.as_chunks::<POINT_BYTES>();
        match points.get(index) {
            Some(bytes) => point_of(index, *bytes),
            None => Err(SourceFault::new(FaultReason::PastCount, index)),
        }
    }
}
