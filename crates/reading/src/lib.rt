// Reading the segments of an analysed outline along an axis: built, and then linked.
#![tactic(auto)]

mod faults;
mod outlines;

pub use faults::ReadFault;
pub use outlines::Outline;
