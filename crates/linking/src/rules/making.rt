// Making a rule of settings.
ghost use Rattle.std.specs.Prelude.{◌≡◌, ◌≤◌};
ghost use Rattle.linking.specs.Reverse.{reverse};
ghost use Rattle.linking.specs.Rules.{rule_by, overlap_threshold, length_weight};

use super::Rule;
use outline::{Direction, Settings};

// The em that the constants below are told for.
const STANDARD_EM: u32 = 2048;

const OVERLAP_UNITS: u32 = 8;

const WEIGHT_UNITS: u32 = 6000;

fn least_overlap(units: u16) -> u16
    requires { units ≤ 16384 }
    ensures { result ≡ overlap_threshold units }
{
    (OVERLAP_UNITS * units as u32 / STANDARD_EM).max(1) as u16
}

fn overlap_weight(units: u16) -> u16
    requires { units ≤ 16384 }
    ensures { result ≡ length_weight units }
{
    (WEIGHT_UNITS * units as u32 / STANDARD_EM) as u16
}

// The other way along a direction's line; None has no other. A match, which shows each as it is.
fn reversed(dir: Direction) -> Direction
    ensures { result ≡ reverse dir }
{
    match dir {
        Direction::None => Direction::None,
        Direction::Right => Direction::Left,
        Direction::Left => Direction::Right,
        Direction::Up => Direction::Down,
        Direction::Down => Direction::Up,
    }
}

impl Rule {
    pub fn new(settings: &Settings, major: Direction) -> Rule
        ensures { result ≡ rule_by settings.now major }
    {
        let units = settings.units();
        let threshold = least_overlap(units);
        let weight = overlap_weight(units);
        Rule {
            threshold,
            weight,
            width: settings.width(),
            major,
            minor: reversed(major),
        }
    }
}
