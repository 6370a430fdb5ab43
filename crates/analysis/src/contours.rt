// The analysis of one contour.
ghost use Rattle.std.specs.Prelude.{◌≡◌, ◌+◌, ◌<◌, ◌≤◌, map, length, replicate};
ghost use Rattle.outline.specs.Units.{near_limit};
ghost use Rattle.walk.specs.Marks.{blank};
ghost use Rattle.analysis.specs.Records.{analysed, shifted};

use crate::chains::Chain;
use outline::{CornerRule, DrawnPoint, Point, Settings};
use walk::{Leg, Mark, compute_directions};

fn clear_marks(marks: &mut [Mark])
    ensures { marks.new ≡ replicate (length marks.old) blank }
{
    marks.fill(Mark::default());
}

// The records of one contour, whose first point has the index `base` in the outline.
// `legs` and `marks` are working room for as many points or more: lent, since the analysis takes no memory.
pub fn analyze_contour<R: CornerRule>(
    rule: &R,
    settings: &Settings,
    base: usize,
    points: &[DrawnPoint],
    legs: &mut [Leg],
    marks: &mut [Mark],
    out: &mut [Point],
)
    requires points_nonzero { (0 < length points.now) × (base + length points.now ≤ 2048) }
    requires legs_len { (length points.now ≤ length legs.old) × ((length points.now ≤ length marks.old) × (length out.old ≡ length points.now)) }
    ensures value { out.new ≡ analysed (R.flat rule.now) (near_limit settings.now.units) base points.now }
    ensures alone { out.new ≡ map (shifted base) (analysed (R.flat rule.now) (near_limit settings.now.units) 0 points.now) }
{
    let n = points.len();
    let marks = &mut marks[..n];
    clear_marks(marks);
    compute_directions(settings, points, &mut legs[..n], marks);
    let mut chain = Chain { points, marks };
    chain.simplify_topology();
    chain.check_remaining_weak_points(rule);
    chain.write_records(settings.near_limit(), base, out);
}
