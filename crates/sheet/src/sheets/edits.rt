// Edits. Each is prepared aside and changes the sheet only when nothing can refuse it any more.
ghost use Rattle.std.specs.Prelude.{◌≡◌, ℕ, ◌<◌, true, length, IfOk, Ok};
ghost use Rattle.drawing.specs.Placing.{admitted};
ghost use Rattle.drawing.specs.Ranges.{is_inside};
ghost use Rattle.sheet.specs.Book.{placing, replacing, dropping, moving, clearing, moved_to};
ghost use Rattle.sheet.specs.Sheets.{Edits};

use super::Sheet;
use drawing::{ContourLimit, EditFault, admit};
use outline::{CornerRule, DrawnPoint};
use unscaled::{Source, UnscaledPoint};

// Point `j` at x and y; its kind stays.
fn moved_point(points: &[DrawnPoint], j: usize, x: i32, y: i32) -> Result<DrawnPoint, EditFault>
    requires { j < length points.now }
    ensures value { result ≡ admitted (moved_to points.now j x y) }
    ensures inside { IfOk result (λ q. is_inside q ≡ true) }
{
    admit(UnscaledPoint {
        x,
        y,
        kind: points[j].kind,
        is_contour_start: false,
    })
}

impl<R: CornerRule> Sheet<R> {
    // Adds a source's contours at the end. The first point opens one, marked or not.
    pub fn place<S: Source>(&mut self, source: &S) -> Result<(), EditFault>
        ensures { Edits R.CornerRule.flat self.old (placing (S.Source.list source.now)) result self.new }
    {
        let held = self.drawing.point_count();
        let limit = ContourLimit::beside(self.drawing.contour_count());
        self.taken.take(source, held, limit)?;
        let count = self.taken.contour_count();
        self.drawing.append(&self.taken, 0, count);
        self.records
            .analyze(&self.rule, &self.settings, &self.drawing);
        Ok(())
    }

    // Puts a source's only contour in the place of contour `k`.
    pub fn replace<S: Source>(&mut self, k: usize, source: &S) -> Result<(), EditFault>
        ensures { Edits R.CornerRule.flat self.old (replacing k (S.Source.list source.now)) result self.new }
    {
        if k >= self.drawing.contour_count() {
            return Err(EditFault::NoContour);
        }
        let held = self.drawing.point_count() - self.drawing.contour_points(k).len();
        self.taken.take(source, held, ContourLimit::one())?;
        self.next.splice(&self.drawing, k, &self.taken);
        self.turn_to_next();
        Ok(())
    }

    // Removes contour `k`.
    pub fn drop_contour(&mut self, k: usize) -> Result<(), EditFault>
        ensures { Edits R.CornerRule.flat self.old (dropping k) result self.new }
    {
        if k >= self.drawing.contour_count() {
            return Err(EditFault::NoContour);
        }
        self.taken.clear();
        self.next.splice(&self.drawing, k, &self.taken);
        self.turn_to_next();
        Ok(())
    }

    // Gives point `j` of contour `k` new x and y.
    pub fn move_point(&mut self, k: usize, j: usize, x: i32, y: i32) -> Result<(), EditFault>
        ensures { Edits R.CornerRule.flat self.old (moving k j x y) result self.new }
    {
        if k >= self.drawing.contour_count() {
            return Err(EditFault::NoContour);
        }
        let points = self.drawing.contour_points(k);
        if j >= points.len() {
            return Err(EditFault::NoPoint);
        }
        let moved = moved_point(points, j, x, y)?;
        self.drawing.set_point(k, j, moved);
        self.records
            .analyze_contour(&self.rule, &self.settings, &self.drawing, k);
        Ok(())
    }

    // Removes every contour.
    pub fn clear(&mut self)
        ensures { Edits R.CornerRule.flat self.old clearing (Ok tt) self.new }
    {
        self.drawing.clear();
        self.records.clear();
    }
}
