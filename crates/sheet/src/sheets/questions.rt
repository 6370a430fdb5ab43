// Questions: they change nothing.
ghost use Rattle.std.specs.Prelude.{◌≡◌, length};
ghost use Rattle.std.specs.List.{slice_get};
ghost use Rattle.outline.specs.Units.{near_limit};
ghost use Rattle.analysis.specs.Outlines.{point_count, outline_records};
ghost use Rattle.sheet.specs.Book.{spans};
ghost use Rattle.sheet.specs.Sheets.{contours_of, records_of, spans_of, Oriented, Analysed};

use super::Sheet;
use outline::{Contour, CornerRule, Orientation, Point, Settings};

impl<R: CornerRule> Sheet<R> {
    pub fn settings(&self) -> Settings
        ensures { result ≡ self.now.settings }
    {
        self.settings
    }

    pub fn rule(&self) -> &R
        ensures { result.now ≡ self.now.rule }
    {
        &self.rule
    }

    pub fn point_count(&self) -> usize
        ensures { result ≡ point_count (contours_of self.now) }
    {
        self.drawing.point_count()
    }

    pub fn contour_count(&self) -> usize
        ensures { result ≡ length (contours_of self.now) }
    {
        self.drawing.contour_count()
    }

    // Where the contours lie among the points.
    pub fn contours(&self) -> &[Contour]
        ensures held { result.now ≡ spans_of self.now }
        ensures value { result.now ≡ spans 0 (contours_of self.now) }
    {
        self.drawing.contours()
    }

    // Where contour `k` lies among the points; past the last there is none.
    pub fn contour(&self, k: usize) -> Option<Contour>
        ensures { result ≡ slice_get (spans 0 (contours_of self.now)) k }
    {
        self.contours().get(k).copied()
    }

    // The records of the points.
    pub fn points(&self) -> &[Point]
        ensures held { result.now ≡ records_of self.now }
        ensures value { Analysed R.CornerRule.flat self.now → result.now ≡ outline_records (R.CornerRule.flat self.now.rule) (near_limit self.now.settings.units) 0 (contours_of self.now) }
    {
        self.records.points()
    }

    // The record of point `i`; past the last there is none.
    pub fn point(&self, i: usize) -> Option<Point>
        ensures held { result ≡ slice_get (records_of self.now) i }
        ensures value { Analysed R.CornerRule.flat self.now → result ≡ slice_get (outline_records (R.CornerRule.flat self.now.rule) (near_limit self.now.settings.units) 0 (contours_of self.now)) i }
    {
        self.points().get(i).copied()
    }

    // The way round that the contours are drawn.
    pub fn orientation(&self) -> Option<Orientation>
        ensures { Oriented self.now result }
    {
        self.drawing.orientation()
    }
}
