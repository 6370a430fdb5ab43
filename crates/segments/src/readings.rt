// All segments of an outline along one axis, written into the caller's table.
ghost use Rattle.std.specs.Prelude.{◌≡◌, ◌-◌, ◌≤◌, ◌++◌, length, take};
ghost use Rattle.segments.specs.Laws.{Within};
ghost use Rattle.segments.specs.Readings.{Inside, blanks, Filled, Read};
ghost use Rattle.segments.specs.Refusals.{Justly};

use crate::faults::BuildFault;
use crate::fillings::Filling;
use crate::measures::Dimension;
use crate::tables::Segment;
use outline::{Contour, Point, Settings};

// A table of this many entries has room for every reading that is granted.
pub const TABLE_LEN: usize = 1001;

// Blanks the entries from place `from` on.
fn blank_from(table: &mut [Segment], from: usize)
    requires { from ≤ length table.old }
    ensures { table.new ≡ take from table.old ++ blanks (length table.old - from) }
{
    table[from..].fill(Segment::blank());
}

// The segments of all contours, from the first entry on.
fn fill(
    points: &[Point],
    contours: &[Contour],
    dim: Dimension,
    units: u16,
    table: &mut [Segment],
) -> Result<usize, BuildFault>
    requires points { length points.now ≤ 65536 }
    requires contours { Inside (length points.now) contours.now }
    requires table { 1001 ≤ length table.old }
    ensures { Filled dim units points.now contours.now table.old table.new result }
{
    let mut filling = Filling::new(table, dim, units);
    for contour in contours {
        filling.build(contour.slice(points), contour.first)?;
    }
    Ok(filling.held())
}

// Writes the unlinked segments of an outline into the table, with blank entries after them, and answers how many.
// A refusal leaves a blank table.
pub fn build_segments(
    points: &[Point],
    contours: &[Contour],
    dim: Dimension,
    settings: &Settings,
    table: &mut [Segment],
) -> Result<usize, BuildFault>
    requires points { length points.now ≤ 65536 }
    requires contours { Inside (length points.now) contours.now }
    requires table { 1001 ≤ length table.old }
    ensures read { Read dim settings.now.units points.now contours.now table.old table.new result }
    ensures justly { Justly dim settings.now.units points.now contours.now result }
    ensures within { Within contours.now table.new result }
{
    let filled = fill(points, contours, dim, settings.units(), table);
    blank_from(table, filled.unwrap_or(0));
    filled
}
