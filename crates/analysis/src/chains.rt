// What the two passes over a contour's points work on.
ghost use Rattle.std.specs.Prelude.{◌≡◌, length, slice_index_or, EachIndex};
ghost use Rattle.walk.specs.Marks.{blank};
ghost use Rattle.analysis.specs.Passes.{Linked};

use outline::DrawnPoint;
use walk::Mark;

// A contour's points and their marks, whose u and v are points of the contour.
#[derive(Drop)]
pub struct Chain<'a> {
    pub points: &'a [DrawnPoint],
    pub marks: &'a mut [Mark],
    ghost marks_len: { length marks.now ≡ length points.now },
    ghost linked: { EachIndex marks.now (λ k. Linked (length points.now) (slice_index_or marks.now k blank)) },
}
