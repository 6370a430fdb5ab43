// What both passes over a contour's points share: a point's two vectors, and passing it by.
ghost use Rattle.std.specs.Prelude.{◌≡◌, ◌<◌, length, slice_index_or};
ghost use Rattle.walk.specs.Marks.{blank};
ghost use Rattle.analysis.specs.Passes.{inward, outward, undirected, bypass};

use crate::chains::Chain;
use outline::Direction;
use walk::{Mark, Step, join_ends};

pub fn is_undirected(mark: Mark) -> bool
    ensures { result ≡ undirected mark }
{
    mark.in_dir == Direction::None && mark.out_dir == Direction::None
}

impl Chain<'_> {
    // The vectors from the point v of point `i`, and to its point u.
    pub fn vectors(&self, i: usize) -> (Step, Step)
        requires { i < length self.now.points.now }
        ensures came { result.0 ≡ inward self.now.points.now i (slice_index_or self.now.marks.now i blank) }
        ensures goes { result.1 ≡ outward self.now.points.now i (slice_index_or self.now.marks.now i blank) }
    {
        let mark = self.marks[i];
        (
            Step::between(self.points[mark.v], self.points[i]),
            Step::between(self.points[i], self.points[mark.u]),
        )
    }

    // Point `i` turns weak, and the points before and after it are joined.
    pub fn bypass(&mut self, i: usize)
        requires { i < length self.old.points.now }
        ensures marks { self.new.marks.now ≡ bypass i (slice_index_or self.old.marks.now i blank) self.old.marks.now }
        ensures points { self.new.points.now ≡ self.old.points.now }
    {
        let mark = self.marks[i];
        self.marks[i].weak = true;
        join_ends(self.marks, mark.v, mark.u);
    }
}
