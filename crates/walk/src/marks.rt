// The working marks of a contour's points.
ghost use Rattle.std.specs.Prelude.{◌≡◌, ◌<◌, length};
ghost use Rattle.walk.specs.Marks.{join, stepped, last_end, dealt, dealt_all};

use crate::legs::Leg;
use crate::steps::next_of;
use outline::Direction;

// What the analysis finds of a point; u and v are the indices of the next and the previous end, which a point
// that turns weak keeps. Indices and no boxes, since the analysis takes no memory.
#[derive(Clone, Copy, Default)]
pub struct Mark {
    pub weak: bool,
    pub in_dir: Direction,
    pub out_dir: Direction,
    pub u: usize,
    pub v: usize,
}

// Point `a` takes `b` as its u, and point `b` takes `a` as its v.
pub fn join_ends(marks: &mut [Mark], a: usize, b: usize)
    requires { (a < length marks.old) × (b < length marks.old) }
    ensures { marks.new ≡ join a b marks.old }
{
    marks[a].u = b;
    marks[b].v = a;
}

fn write_step(marks: &mut [Mark], from: usize, to: usize, leg: Leg)
    requires { (from < length marks.old) × (to < length marks.old) }
    ensures { marks.new ≡ stepped from to leg marks.old }
{
    marks[from].out_dir = leg.dir;
    marks[to].in_dir = leg.dir;
    marks[to].weak = !leg.end;
}

// Writes one step, and answers the last end after it.
fn deal_leg(marks: &mut [Mark], last: usize, from: usize, to: usize, leg: Leg) -> usize
    requires { (last < length marks.old) × ((from < length marks.old) × (to < length marks.old)) }
    ensures value { result ≡ last_end last to leg }
    ensures after { marks.new ≡ dealt last from to leg marks.old }
{
    write_step(marks, from, to, leg);
    if leg.end {
        join_ends(marks, last, to);
        to
    } else {
        last
    }
}

// After the last end comes the start again. A start that is itself the last end gets itself as u and v.
fn close_chain(marks: &mut [Mark], last: usize, start: usize)
    requires { (last < length marks.old) × (start < length marks.old) }
    ensures { marks.new ≡ join last start marks.old }
{
    join_ends(marks, last, start);
}

// Writes directions, weak marks and the chain of ends, once round the contour from `start`.
pub fn deal_legs(legs: &[Leg], start: usize, marks: &mut [Mark])
    requires { start < length marks.old }
    ensures { marks.new ≡ dealt_all (length marks.old) start start start legs.now marks.old }
{
    let n = marks.len();
    // goes round beside the legs, as when they were made
    let mut at = start;
    let mut last = start;
    for leg in legs {
        let to = next_of(n, at);
        last = deal_leg(marks, last, at, to, *leg);
        at = to;
    }
    close_chain(marks, last, start);
}
