// The segments of an outline along an axis, written into the caller's table.
ghost use Rattle.std.specs.Prelude.{◌≡◌, ◌<◌, ◌≤◌, Bool, List, length, ℤ, IfOk, Err};
ghost use Rattle.outline.specs.declared.points.DrawnPoint.{DrawnPoint};
ghost use Rattle.outline.specs.Units.{near_limit};
ghost use Rattle.analysis.specs.Areas.{orientation_of, total_area};
ghost use Rattle.analysis.specs.Outlines.{Tiles, cut_out, outline_records};
ghost use Rattle.segments.specs.Majors.{major};
ghost use Rattle.segments.specs.Readings.{Inside};
ghost use Rattle.linking.specs.Laws.{Linking};
ghost use Rattle.linking.specs.Links.{linked_table};
ghost use Rattle.linking.specs.Rules.{rule_by};
ghost use Rattle.reading.specs.Laws.{Mutual};
ghost use Rattle.reading.specs.Readings.{Builds, Reads};
ghost use Rattle.reading.specs.Stored.{Built, Linked};
ghost use Rattle.reading.specs.declared.faults.ReadFault.TheVariants.{TableTooShort};

use crate::faults::ReadFault;
use linking::link_segments;
use outline::{Contour, Direction, Orientation, Point, Settings};
use segments::{Dimension, Segment, TABLE_LEN, build_segments, major_direction};

// An analysed outline, lent: the records of its points, where its contours lie among them, and the way round that they are drawn.
#[derive(Clone, Copy)]
pub struct Outline<'a> {
    pub points: &'a [Point],
    pub contours: &'a [Contour],
    pub settings: &'a Settings,
    pub orientation: Option<Orientation>,
}

impl Outline<'_> {
    // The direction that linking starts from along an axis.
    pub fn major_direction(&self, dim: Dimension) -> Direction
        ensures { result ≡ major dim self.now.orientation }
    {
        major_direction(dim, self.orientation)
    }

    // Writes the segments along an axis into the table, not linked yet, with blank entries after them, and answers how many.
    // A table that is too short is left as it was; one in which too many segments open is left blank.
    pub fn build(&self, dim: Dimension, table: &mut [Segment]) -> Result<usize, ReadFault>
        requires points { length self.now.points.now ≤ 65536 }
        requires contours { Inside (length self.now.points.now) self.now.contours.now }
        ensures short { length table.old < 1001 → (result ≡ Err TableTooShort) × (table.new ≡ table.old) }
        ensures stored { 1001 ≤ length table.old → Built dim self.now.settings.now.units self.now.points.now self.now.contours.now table.old table.new result }
        ensures drawn { (flat : ℤ → ℤ → ℤ → ℤ → Bool) (ps : List DrawnPoint) → Tiles 0 (length ps) self.now.contours.now → self.now.points.now ≡ outline_records flat (near_limit self.now.settings.now.units) 0 (cut_out self.now.contours.now ps) → Builds flat self.now.settings.now.units dim (cut_out self.now.contours.now ps) table.old result table.new }
        ensures few { IfOk result (λ n. (n ≤ 1001) × (n ≤ length table.new)) }
    {
        if table.len() < TABLE_LEN {
            return Err(ReadFault::TableTooShort);
        }
        let count = build_segments(self.points, self.contours, dim, self.settings, table)?;
        Ok(count)
    }

    // Links the first `count` entries, from the axis's major direction.
    fn link(&self, dim: Dimension, table: &mut [Segment], count: usize)
        requires { (count ≤ length table.old) × (count ≤ 1001) }
        ensures table { table.new ≡ linked_table (rule_by self.now.settings.now (major dim self.now.orientation)) count table.old }
        ensures linking { Linking (rule_by self.now.settings.now (major dim self.now.orientation)) count table.old table.new }
    {
        link_segments(table, count, self.settings, self.major_direction(dim));
    }

    // The same, and links them.
    pub fn read(&self, dim: Dimension, table: &mut [Segment]) -> Result<usize, ReadFault>
        requires points { length self.now.points.now ≤ 65536 }
        requires contours { Inside (length self.now.points.now) self.now.contours.now }
        ensures short { length table.old < 1001 → (result ≡ Err TableTooShort) × (table.new ≡ table.old) }
        ensures stored { 1001 ≤ length table.old → Linked dim self.now.settings.now self.now.orientation self.now.points.now self.now.contours.now table.old table.new result }
        ensures drawn { (flat : ℤ → ℤ → ℤ → ℤ → Bool) (ps : List DrawnPoint) → Tiles 0 (length ps) self.now.contours.now → self.now.points.now ≡ outline_records flat (near_limit self.now.settings.now.units) 0 (cut_out self.now.contours.now ps) → self.now.orientation ≡ orientation_of (total_area (cut_out self.now.contours.now ps)) → Reads flat self.now.settings.now.units self.now.settings.now.width dim (cut_out self.now.contours.now ps) table.old result table.new }
        ensures stems { IfOk result (λ n. Mutual (rule_by self.now.settings.now (major dim self.now.orientation)) n table.new) }
        ensures few { IfOk result (λ n. (n ≤ 1001) × (n ≤ length table.new)) }
    {
        let count = self.build(dim, table)?;
        self.link(dim, table, count);
        Ok(count)
    }
}
