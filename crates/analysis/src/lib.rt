// The analysis of contours: the record of each point, and the way round that the contours are drawn.
#![tactic(auto)]

mod areas;
mod bends;
mod chains;
mod contours;
mod outlines;
mod records;
mod topology;
mod verdicts;

pub use areas::compute_orientation;
pub use contours::analyze_contour;
pub use outlines::{analyze_outline, analyze_span};
pub use walk::{Leg, Mark};
