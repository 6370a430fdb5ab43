// How much a sheet holds, and how far from 0.

pub const MOST_POINTS: usize = 2048;

pub const MOST_CONTOURS: usize = 128;

// Both numbers of a placed point lie in -LIMIT to LIMIT.
pub const LIMIT: i32 = 16383;
