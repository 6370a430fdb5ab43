// The records of a contour's points.
ghost use Rattle.std.specs.Prelude.{◌≡◌, ◌+◌, ◌<◌, ◌≤◌, length};
ghost use Rattle.analysis.specs.Records.{preceding, is_near, record_at, records};

use crate::chains::Chain;
use outline::{Point, PointFlags};
use walk::{next_of, step_at};

// The index before `i`, round a contour of `n` points: the other way than `next_of`, and with no division either.
fn prev_of(n: usize, i: usize) -> usize
    requires { i < n }
    ensures value { result ≡ preceding n i }
    ensures bound { result < n }
{
    if i > 0 { i - 1 } else { n - 1 }
}

// The index in the outline of point `i` of a contour whose first point has the index `base`.
fn index_at(base: usize, i: usize) -> u16
    requires { base + i < 2048 }
    ensures { result ≡ base + i }
{
    (base + i) as u16
}

impl Chain<'_> {
    fn is_near(&self, near_limit: u32, i: usize) -> bool
        requires { i < length self.now.points.now }
        ensures { result ≡ is_near near_limit self.now.points.now i }
    {
        step_at(self.points, i).taxicab_length() < near_limit
    }

    fn record_at(&self, near_limit: u32, base: usize, i: usize) -> Point
        requires { (i < length self.now.points.now) × (base + length self.now.points.now ≤ 2048) }
        ensures { result ≡ record_at near_limit base self.now.points.now self.now.marks.now i }
    {
        let point = self.points[i];
        let mark = self.marks[i];
        let near = self.is_near(near_limit, i);
        Point {
            flags: PointFlags {
                kind: point.kind,
                near,
                weak_interpolation: mark.weak,
            },
            x: point.x,
            y: point.y,
            in_dir: mark.in_dir,
            out_dir: mark.out_dir,
            next_ix: index_at(base, next_of(self.points.len(), i)),
            prev_ix: index_at(base, prev_of(self.points.len(), i)),
        }
    }

    pub fn write_records(&self, near_limit: u32, base: usize, out: &mut [Point])
        requires { (length out.old ≡ length self.now.points.now) × (base + length self.now.points.now ≤ 2048) }
        ensures { out.new ≡ records near_limit base self.now.points.now self.now.marks.now }
    {
        for (i, record) in out.iter_mut().enumerate() {
            *record = self.record_at(near_limit, base, i);
        }
    }
}
