// A sheet that was worked on, held to a clean one with the same contours: what went before must not tell.
use crate::plays::play_line;
use anyhow::anyhow;
use outline::{Contour, Point};
use sheet::Sheet;
use std::alloc::{AllocError, Global};
use telling::{Tally, sheet_text};
use unscaled::{CornerCode, PointTable, UnscaledPoint};

// Calls that both sheets are put to, one after the other.
const FURTHER: [&str; 9] = [
    "read H 1001",
    "move 0 0 -20 300",
    "replace 1 table 0,0,3;90,0,1;90,400,1;45,410,0;0,400,1",
    "drop 2",
    "place record 00640000030258000001025802bc01006402bc01 5,-5",
    "move 1 1 4 16384",
    "read V 1050",
    "replace 0 record 00640000030258000003",
    "read H 1001",
];

// A point as it would be drawn again. No From: that it opens no contour is this comparison's choice.
fn redrawn(point: &Point) -> UnscaledPoint {
    UnscaledPoint {
        x: i32::from(point.x),
        y: i32::from(point.y),
        kind: point.flags.kind,
        is_contour_start: false,
    }
}

fn contour_points(
    heap: Global,
    sheet: &Sheet<CornerCode>,
    contour: Contour,
) -> Result<Vec<UnscaledPoint>, AllocError> {
    let points = sheet.points().get(contour.first..contour.end);
    points.unwrap_or(&[]).iter().map(redrawn).collect(heap)
}

// A clean sheet of the same settings and rule, with each contour placed by itself.
fn redraw(heap: Global, sheet: &Sheet<CornerCode>) -> anyhow::Result<Sheet<CornerCode>> {
    let mut clean = Sheet::new(heap, sheet.settings(), *sheet.rule())?;
    for contour in sheet.contours() {
        let points = contour_points(heap, sheet, *contour)?;
        if clean.place(&PointTable::new(points.as_slice())).is_err() {
            return Err(anyhow!("a sheet's own contour is refused"));
        }
    }
    Ok(clean)
}

// Compares a worked sheet with a clean one: their texts, and then all that further calls answer.
pub fn compare_clean(
    heap: Global,
    worked: &mut Sheet<CornerCode>,
    tally: &mut Tally,
) -> anyhow::Result<()> {
    let mut clean = redraw(heap, worked)?;
    let expected = sheet_text(heap, &clean)?;
    let own = sheet_text(heap, worked)?;
    tally.compare(expected.as_str(), own.as_str())?;
    for line in FURTHER {
        let expected = play_line(heap, &mut clean, line)?;
        let own = play_line(heap, worked, line)?;
        tally.compare(expected.text.as_str(), own.text.as_str())?;
    }
    Ok(())
}
