// Which two segments are partners, and at what score.
ghost use Rattle.std.specs.Prelude.{◌≡◌, ◌≤◌};
ghost use Rattle.linking.specs.Rules.{away, overlap as spec_overlap, demerit as spec_demerit, faces as spec_faces, pair_score};

use crate::rules::Rule;
use outline::Direction;
use segments::{NO_SCORE, Segment};

// A distance equal to the standard stem width, in the steps that demerits are counted by.
const ONE_WIDTH: u32 = 1024;

const MAX_EXCESS: u32 = 10000;

const EXCESS_SCALE: u32 = 3000;

// How far `to` is beyond `from`, or 0.
fn gap(from: i16, to: i16) -> u32
    ensures value { result ≡ away to from }
    ensures bound { result ≤ 65535 }
{
    (to as i32 - from as i32).max(0) as u32
}

fn overlap(a: &Segment, b: &Segment) -> u32
    ensures { result ≡ spec_overlap a.now b.now }
{
    let least = a.min_coord.0.max(b.min_coord.0);
    let greatest = a.max_coord.0.min(b.max_coord.0);
    gap(least, greatest)
}

// What a distance costs: nothing up to the standard width, and then the square of what is beyond it.
fn demerit(width: u16, distance: u32) -> u32
    requires { distance ≤ 65535 }
    ensures value { result ≡ spec_demerit width distance }
    ensures bound { result ≤ 65535 }
{
    if width == 0 {
        return distance;
    }
    let excess = (ONE_WIDTH * distance / width as u32).saturating_sub(ONE_WIDTH);
    if excess > MAX_EXCESS {
        NO_SCORE
    } else {
        excess * excess / EXCESS_SCALE
    }
}

impl Rule {
    // Whether a is of the major direction, and b of the opposite one at a greater position.
    fn faces(&self, a: &Segment, b: &Segment) -> bool
        ensures { result ≡ spec_faces self.now a.now b.now }
    {
        a.dir == self.major && b.dir != Direction::None && b.dir == self.minor && a.pos < b.pos
    }

    // The score of a with b, if they are partners.
    pub fn score(&self, a: &Segment, b: &Segment) -> Option<u32>
        ensures { result ≡ pair_score self.now a.now b.now }
    {
        if !self.faces(a, b) {
            return None;
        }
        let overlap = overlap(a, b);
        if overlap < self.threshold as u32 {
            return None;
        }
        Some(demerit(self.width, gap(a.pos.0, b.pos.0)) + self.weight as u32 / overlap)
    }
}
