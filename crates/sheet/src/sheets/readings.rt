// Readings: they change nothing but the lent table.
ghost use Rattle.std.specs.Prelude.{◌≡◌, ◌≤◌, Bool, length, ℤ, IfOk};
ghost use Rattle.outline.specs.Units.{near_limit};
ghost use Rattle.analysis.specs.Areas.{orientation_of, total_area};
ghost use Rattle.analysis.specs.Outlines.{outline_records};
ghost use Rattle.segments.specs.Majors.{major};
ghost use Rattle.segments.specs.Readings.{Inside};
ghost use Rattle.reading.specs.Readings.{Builds, Reads};
ghost use Rattle.reading.specs.Stored.{Linked};
ghost use Rattle.sheet.specs.Sheets.{contours_of, records_of, spans_of, Buildings, Readings};

use super::Sheet;
use outline::{CornerRule, Direction, Orientation};
use reading::{Outline, ReadFault};
use segments::{Dimension, Segment, TABLE_LEN};

impl<R: CornerRule> Sheet<R> {
    // What a reading goes over. The orientation comes from the caller, since it costs a pass over the points.
    fn outline(&self, orientation: Option<Orientation>) -> Outline<'_>
        ensures points { result.points.now ≡ records_of self.now }
        ensures contours { result.contours.now ≡ spans_of self.now }
        ensures few { length result.points.now ≤ 2048 }
        ensures inside { Inside (length result.points.now) result.contours.now }
        ensures settings { result.settings.now ≡ self.now.settings }
        ensures orientation { result.orientation ≡ orientation }
    {
        Outline {
            points: self.records.points(),
            contours: self.drawing.contours(),
            settings: &self.settings,
            orientation,
        }
    }

    // The direction that linking starts from along an axis.
    pub fn major_direction(&self, dim: Dimension) -> Direction
        ensures { result ≡ major dim (orientation_of (total_area (contours_of self.now))) }
    {
        self.outline(self.orientation()).major_direction(dim)
    }

    // Writes the segments along an axis into the table, not linked yet, blank entries after them, and answers how many.
    pub fn build(&self, dim: Dimension, table: &mut [Segment]) -> Result<usize, ReadFault>
        ensures building { Buildings R.CornerRule.flat self.now dim table.old result table.new }
        ensures alone { (F : ℤ → ℤ → ℤ → ℤ → Bool) → records_of self.now ≡ outline_records F (near_limit self.now.settings.units) 0 (contours_of self.now) → Builds F self.now.settings.units dim (contours_of self.now) table.old result table.new }
        ensures few { IfOk result (λ n. (n ≤ 1001) × (n ≤ length table.new)) }
    {
        // what is only built has no use for an orientation
        self.outline(None).build(dim, table)
    }

    // Writes the linked segments along an axis into the table, blank entries after them, and answers how many.
    pub fn read(&self, dim: Dimension, table: &mut [Segment]) -> Result<usize, ReadFault>
        ensures reading { Readings R.CornerRule.flat self.now dim table.old result table.new }
        ensures stored { 1001 ≤ length table.old → Linked dim self.now.settings (orientation_of (total_area (contours_of self.now))) (records_of self.now) (spans_of self.now) table.old table.new result }
        ensures alone { (F : ℤ → ℤ → ℤ → ℤ → Bool) → records_of self.now ≡ outline_records F (near_limit self.now.settings.units) 0 (contours_of self.now) → Reads F self.now.settings.units self.now.settings.width dim (contours_of self.now) table.old result table.new }
        ensures few { IfOk result (λ n. (n ≤ 1001) × (n ≤ length table.new)) }
    {
        // refused before the orientation is asked for
        if table.len() < TABLE_LEN {
            return Err(ReadFault::TableTooShort);
        }
        self.outline(self.orientation()).read(dim, table)
    }
}
