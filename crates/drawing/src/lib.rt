// What is drawn on a sheet: its contours, taken from sources of points, and the records of its points.
#![tactic(auto)]

mod drawings;
mod faults;
mod limits;
mod records;

pub use drawings::Drawing;
pub use drawings::taking::admit;
pub use faults::EditFault;
pub use limits::ContourLimit;
pub use records::Records;
