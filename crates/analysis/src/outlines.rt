// The analysis of a list of contours. `rule` and `settings` stay two, as a sheet's own promises name each.
// Points and contours are lent apart, since the struct that holds both, a `Drawing`, lies above.
ghost use Rattle.std.specs.Prelude.{◌≡◌, ◌<◌, ◌≤◌, length};
ghost use Rattle.outline.specs.Units.{near_limit};
ghost use Rattle.analysis.specs.Outlines.{Tiles, cut_out, outline_records, replaced, StandAlone};

use crate::contours::analyze_contour;
use outline::{Contour, CornerRule, DrawnPoint, Point, Settings};
use walk::{Leg, Mark};

// Writes the records of one contour at its place among the outline's; `legs` and `marks` are lent room.
pub fn analyze_span<R: CornerRule>(
    rule: &R,
    settings: &Settings,
    points: &[DrawnPoint],
    contour: Contour,
    legs: &mut [Leg],
    marks: &mut [Mark],
    out: &mut [Point],
)
    requires first_lt_end { (contour.first < contour.end) × ((contour.end ≤ length points.now) × (length points.now ≤ 2048)) }
    requires legs_len { (length points.now ≤ length legs.old) × ((length points.now ≤ length marks.old) × (length out.old ≡ length points.now)) }
    ensures { out.new ≡ replaced (R.flat rule.now) (near_limit settings.now.units) contour points.now out.old }
{
    let first = contour.first;
    let end = contour.end;
    analyze_contour(
        rule,
        settings,
        first,
        contour.slice(points),
        legs,
        marks,
        &mut out[first..end],
    );
}

// The records of an outline's contours, each at its place; `legs` and `marks` are lent room.
pub fn analyze_outline<R: CornerRule>(
    rule: &R,
    settings: &Settings,
    points: &[DrawnPoint],
    contours: &[Contour],
    legs: &mut [Leg],
    marks: &mut [Mark],
    out: &mut [Point],
)
    requires tiles { (Tiles 0 (length points.now) contours.now) × (length points.now ≤ 2048) }
    requires legs_len { (length points.now ≤ length legs.old) × ((length points.now ≤ length marks.old) × (length out.old ≡ length points.now)) }
    ensures value { out.new ≡ outline_records (R.flat rule.now) (near_limit settings.now.units) 0 (cut_out contours.now points.now) }
    ensures alone { StandAlone (R.flat rule.now) (near_limit settings.now.units) contours.now points.now out.new }
{
    for contour in contours {
        analyze_span(rule, settings, points, *contour, legs, marks, out);
    }
}
