// Segments of an outline along one axis.
#![tactic(auto)]

mod faults;
mod fillings;
mod laws;
mod majors;
mod measures;
mod readings;
mod starts;
mod states;
mod tables;
mod words;

pub use faults::BuildFault;
pub use laws::{contours_stand_alone, segments_stand, tried_stands};
pub use majors::major_direction;
pub use measures::{Coordinate, Dimension, Position};
pub use readings::{TABLE_LEN, build_segments};
pub use tables::{NO_SCORE, Segment};
