// Steps from point to point, in font units.
ghost use Rattle.std.specs.Prelude.{◌≡◌, ◌^◌, ◌<◌, ◌≤◌, length, ◌+ℤ◌, ◌-ℤ◌, unsigned_abs};
ghost use Rattle.walk.specs.Steps.{following, step_of, leaving, plus, taxicab};

use outline::DrawnPoint;

// From one point to another.
#[derive(Clone, Copy, Default)]
pub struct Step {
    pub dx: i32,
    pub dy: i32,
}

// The index after `i`, round a contour of `n` points.
pub fn next_of(n: usize, i: usize) -> usize
    requires { i < n }
    ensures value { result ≡ following n i }
    ensures bound { result < n }
{
    if i + 1 < n { i + 1 } else { 0 }
}

impl Step {
    pub fn between(p: DrawnPoint, q: DrawnPoint) -> Step
        ensures value { result ≡ step_of p q }
        ensures bound { (unsigned_abs result.dx ≤ 65535) × (unsigned_abs result.dy ≤ 65535) }
    {
        Step {
            dx: i32::from(q.x) - i32::from(p.x),
            dy: i32::from(q.y) - i32::from(p.y),
        }
    }

    pub(crate) fn add(self, step: Step) -> Step
        requires { (taxicab self ≤ 2 ^ 16) × ((unsigned_abs step.dx ≤ 2 ^ 16) × (unsigned_abs step.dy ≤ 2 ^ 16)) }
        ensures value { result ≡ plus self step }
        ensures bound { taxicab result ≤ 2 ^ 18 }
    {
        Step {
            dx: self.dx + step.dx,
            dy: self.dy + step.dy,
        }
    }

    // |dx| + |dy|
    pub fn taxicab_length(self) -> u32
        requires { taxicab self ≤ 2 ^ 18 }
        ensures { result ≡ taxicab self }
    {
        self.dx.unsigned_abs() + self.dy.unsigned_abs()
    }
}

// The step that leaves point `i` of a contour.
pub fn step_at(points: &[DrawnPoint], i: usize) -> Step
    requires { i < length points.now }
    ensures value { result ≡ leaving points.now i }
    ensures bound { (unsigned_abs result.dx ≤ 65535) × (unsigned_abs result.dy ≤ 65535) }
{
    Step::between(points[i], points[next_of(points.len(), i)])
}
