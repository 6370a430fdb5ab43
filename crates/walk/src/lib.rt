// The walk round one contour: its steps are added up, and each sum that is long enough gives a direction.
#![tactic(auto)]

mod ends;
mod legs;
mod marks;
mod starts;
mod steps;

pub use ends::compute_directions;
pub use legs::Leg;
pub use marks::{Mark, join_ends};
pub use steps::{Step, next_of, step_at};
