// A source of points: a list of entries, each a point or a fault.
ghost use Rattle.std.specs.Prelude.{◌≡◌, ℕ, List, length, slice_index_or};
ghost use Rattle.unscaled.specs.Entries.{Entry, past_count, Tells};

use crate::faults::SourceFault;
use crate::points::UnscaledPoint;

pub trait Source {
    // The entries, in their order.
    ghost list: { Self → List Entry };

    // How many placements the source itself stands for, 255 for any more.
    ghost placed: { Self → ℕ };

    // How many entries there are.
    fn count(&self) -> usize
        ensures { result ≡ length (list self.now) };

    // The entry at the index, or a fault from the count on.
    fn entry(&self, index: usize) -> Result<UnscaledPoint, SourceFault>
        ensures value { result ≡ slice_index_or (list self.now) index (past_count (placed self.now) index) }
        ensures fault { Tells (placed self.now) index result };
}
