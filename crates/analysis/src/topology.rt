// The first pass: points that lie on the way between their neighbours turn weak.
ghost use Rattle.std.specs.Prelude.{◌≡◌, ◌<◌, length, slice_index_or};
ghost use Rattle.walk.specs.Marks.{blank};
ghost use Rattle.analysis.specs.Passes.{same_sign, same_quadrant, is_open, is_straight, simplified_at, simplified};

use crate::bends::is_undirected;
use crate::chains::Chain;
use walk::{Mark, Step};

// Both negative, or both not.
fn same_sign(a: i32, b: i32) -> bool
    ensures { result ≡ same_sign a b }
{
    (a < 0) == (b < 0)
}

fn same_quadrant(s: Step, t: Step) -> bool
    ensures { result ≡ same_quadrant s t }
{
    same_sign(s.dx, t.dx) && same_sign(s.dy, t.dy)
}

fn is_open(mark: Mark) -> bool
    ensures { result ≡ is_open mark }
{
    !mark.weak && is_undirected(mark)
}

impl Chain<'_> {
    // Whether point `i` lies on the way from its point v to its point u.
    fn is_straight(&self, i: usize) -> bool
        requires { i < length self.now.points.now }
        ensures { result ≡ is_straight self.now.points.now i (slice_index_or self.now.marks.now i blank) }
    {
        if is_open(self.marks[i]) {
            let (came, goes) = self.vectors(i);
            same_quadrant(came, goes)
        } else {
            false
        }
    }

    fn simplify_at(&mut self, i: usize)
        requires { i < length self.old.points.now }
        ensures marks { self.new.marks.now ≡ simplified_at self.old.points.now i self.old.marks.now }
        ensures points { self.new.points.now ≡ self.old.points.now }
    {
        if self.is_straight(i) {
            self.bypass(i);
        }
    }

    pub fn simplify_topology(&mut self)
        ensures marks { self.new.marks.now ≡ simplified self.old.points.now self.old.marks.now }
        ensures points { self.new.points.now ≡ self.old.points.now }
    {
        // by index: a step writes the marks of a point's neighbours too
        for i in 0..self.points.len() {
            self.simplify_at(i);
        }
    }
}
