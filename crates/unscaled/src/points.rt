// A point of a drawing, in font units.
use outline::PointKind;

#[derive(Debug, Clone, Copy, PartialEq, Eq)]
pub struct UnscaledPoint {
    pub x: i32,
    pub y: i32,
    pub kind: PointKind,
    pub is_contour_start: bool,
}
