// Sums of steps round a contour.
ghost use Rattle.std.specs.Prelude.{◌≡◌, ◌^◌, ◌<◌, ◌≤◌, length};
ghost use Rattle.outline.specs.Units.{near_limit};
ghost use Rattle.walk.specs.Steps.{steps_from, no_step, taxicab};
ghost use Rattle.walk.specs.Legs.{leg_of, rest_of, cuts, in_sum, spread, no_leg};

use crate::steps::{Step, next_of, step_at};
use outline::{Direction, DrawnPoint, Settings};

// A step's part in a sum of steps: the sum's direction, which the steps within it have too, and whether the step ends it.
#[derive(Clone, Copy, Default)]
pub struct Leg {
    pub dir: Direction,
    pub end: bool,
}

impl Leg {
    // The leg of a step in a sum of direction `dir`.
    fn in_sum(self, dir: Direction) -> Leg
        ensures { result ≡ in_sum dir self }
    {
        if self.end {
            self
        } else {
            Leg { dir, end: false }
        }
    }
}

// What becomes of a sum: the leg of its last step, and the sum to go on with.
fn cut(sum: Step, near_limit: u32) -> (Leg, Step)
    requires { taxicab sum ≤ 2 ^ 18 }
    ensures leg { result.0 ≡ leg_of near_limit sum }
    ensures rest { result.1 ≡ rest_of near_limit sum }
    ensures bound { taxicab result.1 ≤ near_limit }
{
    if sum.taxicab_length() < near_limit {
        (Leg::default(), sum)
    } else {
        let dir = Direction::new(sum.dx, sum.dy);
        (Leg { dir, end: true }, Step::default())
    }
}

// Adds up the steps from `start` on, once round the contour.
pub fn cut_steps(settings: &Settings, points: &[DrawnPoint], start: usize, legs: &mut [Leg])
    requires { (start < length points.now) × (length legs.old ≡ length points.now) }
    ensures { legs.new ≡ cuts (near_limit settings.now.units) no_step (steps_from points.now start (length points.now)) }
{
    let near_limit = settings.near_limit();
    let mut sum = Step::default();
    // goes round beside the legs: a chain of two ranges says the same in more words
    let mut at = start;
    for leg in legs.iter_mut() {
        let (found, rest) = cut(sum.add(step_at(points, at)), near_limit);
        *leg = found;
        sum = rest;
        at = next_of(points.len(), at);
    }
}

// Gives each step the direction of its sum, from the last step back.
pub fn spread_directions(legs: &mut [Leg])
    ensures { legs.new ≡ spread legs.old }
{
    let mut dir = Direction::None;
    // by index: of what `iter_mut().rev()` wrote, a proof knows the length alone
    for k in (0..legs.len()).rev() {
        let leg = legs[k].in_sum(dir);
        legs[k] = leg;
        dir = leg.dir;
    }
}
