// A table of points as a source.
ghost use Rattle.std.specs.Prelude.{◌≡◌, map, Ok};

use crate::faults::{FaultReason, SourceFault};
use crate::points::UnscaledPoint;
use crate::sources::Source;

// Points in their order, lent.
#[derive(Clone, Copy)]
pub struct PointTable<'a> {
    points: &'a [UnscaledPoint],
}

impl<'a> PointTable<'a> {
    pub fn new(points: &'a [UnscaledPoint]) -> PointTable<'a>
        ensures { result.points.now ≡ points.now }
    {
        PointTable { points }
    }
}

impl Source for PointTable<'_> {
    ghost list = { λ t. map Ok t.points.now };

    ghost placed = { λ _. 0 };

    fn count(&self) -> usize {
        self.points.len()
    }

    fn entry(&self, index: usize) -> Result<UnscaledPoint, SourceFault> {
        let past = SourceFault::new(FaultReason::PastCount, index);
        self.points.get(index).copied().ok_or(past)
    }
}
