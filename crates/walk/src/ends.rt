// The walk as a whole.
ghost use Rattle.std.specs.Prelude.{◌≡◌, ◌<◌, length};
ghost use Rattle.outline.specs.Units.{near_limit};
ghost use Rattle.walk.specs.Ends.{WalkedRound, SumsAreVectors};
ghost use Rattle.walk.specs.Marks.{walked};

use crate::legs::{Leg, cut_steps, spread_directions};
use crate::marks::{Mark, deal_legs};
use crate::starts::find_start;
use outline::{DrawnPoint, Settings};

// Finds the directions, the weak points and the chain of ends of a contour; `legs` is working room.
pub fn compute_directions(
    settings: &Settings,
    points: &[DrawnPoint],
    legs: &mut [Leg],
    marks: &mut [Mark],
)
    requires { (0 < length points.now) × ((length legs.old ≡ length points.now) × (length marks.old ≡ length points.now)) }
    ensures value { marks.new ≡ walked (near_limit settings.now.units) points.now marks.old }
    ensures round { WalkedRound (near_limit settings.now.units) points.now marks.new }
    ensures vectors { SumsAreVectors points.now }
{
    let start = find_start(settings, points);
    cut_steps(settings, points, start, legs);
    spread_directions(legs);
    deal_legs(legs, start, marks);
}
