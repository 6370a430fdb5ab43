// Contours of other drawings, put one after another.
ghost use Rattle.std.specs.Prelude.{◌≡◌, ◌+◌, ◌-◌, ◌<◌, ◌≤◌, true, [], ◌∷◌, ◌++◌, length, take, drop, vec_len, slice_index_or, slice_set};
ghost use Rattle.std.specs.List.{between};
ghost use Rattle.analysis.specs.Outlines.{point_count};
ghost use Rattle.drawing.specs.Books.{book};
ghost use Rattle.drawing.specs.Ranges.{all_inside, is_inside};

use super::Drawing;
use outline::{Contour, DrawnPoint};

impl Drawing {
    fn append_contour(&mut self, more: &[DrawnPoint])
        requires some { 0 < length more.now }
        requires inside { all_inside more.now ≡ true }
        requires points { vec_len self.old.points + length more.now ≤ 2048 }
        requires contours { vec_len self.old.contours < 128 }
        ensures { book self.new ≡ book self.old ++ more.now ∷ [] }
    {
        let first = self.points.len();
        let end = first + more.len();
        self.contours.push_reserved(Contour { first, end });
        // there is room for them
        let _ = self.points.extend_from_slice(more);
    }

    // Adds contour `k` of another drawing at the end.
    fn append_one(&mut self, other: &Drawing, k: usize)
        requires there { k < length (book other.now) }
        requires points { point_count (book self.old) + length (slice_index_or (book other.now) k []) ≤ 2048 }
        requires contours { length (book self.old) < 128 }
        ensures { book self.new ≡ book self.old ++ slice_index_or (book other.now) k [] ∷ [] }
    {
        self.append_contour(other.contour_points(k));
    }

    // Adds the contours of another drawing at the end, from contour `from` up to, and without, contour `to`.
    pub fn append(&mut self, other: &Drawing, from: usize, to: usize)
        requires forward { from ≤ to }
        requires there { to ≤ length (book other.now) }
        requires points { point_count (book self.old) + point_count (between from to (book other.now)) ≤ 2048 }
        requires contours { length (book self.old) + (to - from) ≤ 128 }
        ensures { book self.new ≡ book self.old ++ between from to (book other.now) }
    {
        // by index, as `contour_points` takes one: over a slice of contours, each would be cut out here again
        for k in from..to {
            self.append_one(other, k);
        }
    }

    // The contours of `old`, with those of `new` in the place of contour `k`.
    pub fn splice(&mut self, old: &Drawing, k: usize, new: &Drawing)
        requires there { k < length (book old.now) }
        requires points { (point_count (book old.now) - length (slice_index_or (book old.now) k [])) + point_count (book new.now) ≤ 2048 }
        requires contours { length (book old.now) + length (book new.now) ≤ 129 }
        ensures { book self.new ≡ (take k (book old.now) ++ book new.now) ++ drop (k + 1) (book old.now) }
    {
        self.clear();
        self.append(old, 0, k);
        self.append(new, 0, new.contour_count());
        self.append(old, k + 1, old.contour_count());
    }

    // Puts another point in the place of point `j` of contour `k`.
    pub fn set_point(&mut self, k: usize, j: usize, point: DrawnPoint)
        requires there { k < length (book self.old) }
        requires within { j < length (slice_index_or (book self.old) k []) }
        requires inside { is_inside point ≡ true }
        ensures book { book self.new ≡ slice_set (book self.old) k (slice_set (slice_index_or (book self.old) k []) j point) }
        ensures len { vec_len self.new.points ≡ vec_len self.old.points }
    {
        let i = self.contours[k].first + j;
        self.points[i] = point;
    }
}
