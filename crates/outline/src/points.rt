// Points of an outline, in font units.
use crate::directions::Direction;

#[derive(Debug, Clone, Copy, PartialEq, Eq, Default)]
pub enum PointKind {
    #[default]
    Control,
    OnCurve,
}

// A point as it is drawn. Both numbers of a point that was placed lie in -16,383 to 16,383.
#[derive(Debug, Clone, Copy, PartialEq, Eq)]
pub struct DrawnPoint {
    pub x: i16,
    pub y: i16,
    pub kind: PointKind,
}

// A point's kind, and the two marks that the analysis sets.
#[derive(Debug, Clone, Copy, PartialEq, Eq, Default)]
pub struct PointFlags {
    pub kind: PointKind,
    pub near: bool,
    pub weak_interpolation: bool,
}

// A point's record: what was drawn, and what the analysis of its contour found.
// The neighbours are indices into the whole outline, as a record is copied out and takes no memory.
#[derive(Debug, Clone, Copy, PartialEq, Eq, Default)]
pub struct Point {
    pub flags: PointFlags,
    pub x: i16,
    pub y: i16,
    pub in_dir: Direction,
    pub out_dir: Direction,
    pub next_ix: u16,
    pub prev_ix: u16,
}
