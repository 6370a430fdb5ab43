// A source moved as a whole.
ghost use Rattle.std.specs.Prelude.{◌≡◌, ◌+ℤ◌, if◌then◌else◌, Some, None, Ok};
ghost use Rattle.unscaled.specs.Faults.{one_more};
ghost use Rattle.unscaled.specs.Placements.{in_range, moved, placed_list};

use crate::faults::{FaultReason, SourceFault};
use crate::points::UnscaledPoint;
use crate::sources::Source;
use outline::LIMIT;

// The source below, each of its points moved by `dx` and `dy`.
#[derive(Drop)]
pub struct Placement<S> {
    pub below: S,
    pub dx: i32,
    pub dy: i32,
}

// One number of a point, moved; none where that is out of range. The sum of 64 bits never wraps.
fn shifted(from: i32, by: i32) -> Option<i32>
    ensures { result ≡ (if in_range (from +ℤ by) then Some (from +ℤ by) else None) }
{
    let sum = from as i64 + by as i64;
    if sum.unsigned_abs() <= LIMIT as u64 {
        Some(sum as i32)
    } else {
        None
    }
}

// The point moved, or a fault at its index where that is out of range.
fn move_point(
    point: UnscaledPoint,
    dx: i32,
    dy: i32,
    index: usize,
) -> Result<UnscaledPoint, SourceFault>
    ensures { result ≡ moved dx dy index (Ok point) }
{
    match (shifted(point.x, dx), shifted(point.y, dy)) {
        (Some(x), Some(y)) => Ok(UnscaledPoint { x, y, ..point }),
        _ => Err(SourceFault::new(FaultReason::MovedOut, index)),
    }
}

impl<S: Source> Source for Placement<S> {
    ghost list = { λ p. placed_list p.dx p.dy (S.Source.list p.below) };

    ghost placed = { λ p. one_more (S.Source.placed p.below) };

    #[tactic(auto, using(crate::proofs::Moves::length_mapped))]
    fn count(&self) -> usize {
        self.below.count()
    }

    fn entry(&self, index: usize) -> Result<UnscaledPoint, SourceFault> {
        let point = self.below.entry(index).map_err(SourceFault::raise)?;
        move_point(point, self.dx, self.dy, index)
    }
}
