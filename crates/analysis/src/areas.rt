// The area that contours enclose, twice, with its sign, and the way round that they are drawn.
ghost use Rattle.std.specs.Prelude.{◌≡◌, ◌*◌, ◌^◌, ◌<◌, ◌≤◌, length, unsigned_abs};
ghost use Rattle.analysis.specs.Outlines.{Tiles, cut_out};
ghost use Rattle.analysis.specs.Areas.{term, contour_area, total_area, orientation_of};

use outline::{Contour, DrawnPoint, Orientation};

// (y - y') (x + x'), for a point and the point before it.
fn area_term(prev: DrawnPoint, point: DrawnPoint) -> i64
    ensures value { result ≡ term prev.x prev.y point.x point.y }
    ensures bound { unsigned_abs result ≤ 2 ^ 32 }
{
    (i64::from(point.y) - i64::from(prev.y)) * (i64::from(point.x) + i64::from(prev.x))
}

// The terms of a contour, whose first point follows its last.
fn contour_area(points: &[DrawnPoint]) -> i64
    requires { (0 < length points.now) × (length points.now ≤ 2048) }
    ensures value { result ≡ contour_area points.now }
    ensures bound { unsigned_abs result ≤ 2 ^ 32 * length points.now }
{
    let mut prev = points[points.len() - 1];
    let mut area = 0;
    for point in points {
        area += area_term(prev, *point);
        prev = *point;
    }
    area
}

fn orientation_of(area: i64) -> Option<Orientation>
    ensures { result ≡ orientation_of area }
{
    if area > 0 {
        Some(Orientation::CounterClockwise)
    } else if area < 0 {
        Some(Orientation::Clockwise)
    } else {
        None
    }
}

// The way round that the contours are drawn; None where the sum of their terms is 0.
pub fn compute_orientation(points: &[DrawnPoint], contours: &[Contour]) -> Option<Orientation>
    requires { (Tiles 0 (length points.now) contours.now) × (length points.now ≤ 2048) }
    ensures { result ≡ orientation_of (total_area (cut_out contours.now points.now)) }
{
    let mut area = 0;
    for contour in contours {
        area += contour_area(contour.slice(points));
    }
    orientation_of(area)
}
