// Asking what is drawn.
ghost use Rattle.std.specs.Prelude.{◌≡◌, ◌+◌, ◌<◌, ◌≤◌, [], length, vec_len, slice_index_or};
ghost use Rattle.outline.specs.Units.{near_limit};
ghost use Rattle.analysis.specs.Areas.{orientation_of, total_area};
ghost use Rattle.analysis.specs.Outlines.{point_count, first_of, points_of, outline_records};
ghost use Rattle.drawing.specs.Books.{book};

use super::Drawing;
use analysis::{Leg, Mark, analyze_outline, compute_orientation};
use outline::{Contour, CornerRule, DrawnPoint, Orientation, Point, Settings};

impl Drawing {
    pub fn points(&self) -> &[DrawnPoint]
        ensures value { result.now ≡ self.now.points.items }
        ensures len { length result.now ≡ vec_len self.now.points }
        ensures few { length result.now ≤ 2048 }
    {
        self.points.as_slice()
    }

    pub fn contours(&self) -> &[Contour]
        ensures value { result.now ≡ self.now.contours.items }
        ensures few { length result.now ≤ 128 }
    {
        self.contours.as_slice()
    }

    pub fn point_count(&self) -> usize
        ensures value { result ≡ point_count (book self.now) }
        ensures few { result ≤ 2048 }
    {
        self.points.len()
    }

    pub fn contour_count(&self) -> usize
        ensures value { result ≡ length (book self.now) }
        ensures few { result ≤ 128 }
    {
        self.contours.len()
    }

    // Where contour `k` lies among the points.
    pub fn contour(&self, k: usize) -> Contour
        requires { k < length (book self.now) }
        ensures first { result.first ≡ first_of (book self.now) k }
        ensures end { result.end ≡ first_of (book self.now) k + length (slice_index_or (book self.now) k []) }
        ensures some { result.first < result.end }
        ensures within { result.end ≤ vec_len self.now.points }
        ensures points { points_of self.now.points.items result ≡ slice_index_or (book self.now) k [] }
    {
        self.contours[k]
    }

    // The points of contour `k`.
    pub fn contour_points(&self, k: usize) -> &[DrawnPoint]
        requires { k < length (book self.now) }
        ensures { result.now ≡ slice_index_or (book self.now) k [] }
    {
        self.contour(k).slice(self.points())
    }

    // The way round that the contours are drawn.
    pub fn orientation(&self) -> Option<Orientation>
        ensures { result ≡ orientation_of (total_area (book self.now)) }
    {
        compute_orientation(self.points(), self.contours())
    }

    // Writes the records of the points; `legs` and `marks` are lent room.
    pub fn analyze<R: CornerRule>(
        &self,
        rule: &R,
        settings: &Settings,
        legs: &mut [Leg],
        marks: &mut [Mark],
        out: &mut [Point],
    )
        requires legs { point_count (book self.now) ≤ length legs.old }
        requires marks { point_count (book self.now) ≤ length marks.old }
        requires out { length out.old ≡ point_count (book self.now) }
        ensures { out.new ≡ outline_records (R.CornerRule.flat rule.now) (near_limit settings.now.units) 0 (book self.now) }
    {
        analyze_outline(
            rule,
            settings,
            self.points(),
            self.contours(),
            legs,
            marks,
            out,
        );
    }
}
