// Where the walk round a contour starts.
ghost use Rattle.std.specs.Prelude.{◌≡◌, ◌^◌, ◌<◌, ◌≤◌, length};
ghost use Rattle.outline.specs.Units.{near_limit};
ghost use Rattle.walk.specs.Starts.{is_short, start_of};

use crate::steps::{next_of, step_at};
use outline::{DrawnPoint, Settings};

// Whether the walk steps back over the step that leaves point `i`: |dx| + |dy| < 2 N - 1, where N may be 0.
fn is_short(points: &[DrawnPoint], near_limit: u32, i: usize) -> bool
    requires { (i < length points.now) × (near_limit ≤ 2 ^ 16) }
    ensures { result ≡ is_short near_limit points.now i }
{
    step_at(points, i).taxicab_length() + 1 < 2 * near_limit
}

// Steps back from the first point while the steps are short, but never on to the first point again.
pub fn find_start(settings: &Settings, points: &[DrawnPoint]) -> usize
    requires { 0 < length points.now }
    ensures value { result ≡ start_of (near_limit settings.now.units) points.now }
    ensures bound { result < length points.now }
{
    let near_limit = settings.near_limit();
    let before = (1..points.len())
        .rfind(|i| !is_short(points, near_limit, *i))
        .unwrap_or(0);
    next_of(points.len(), before)
}
