// Scoring and linking the segments of a table, in place.
#![tactic(auto)]

mod choices;
mod linker;
mod partners;
mod rules;
mod stems;

pub use linker::{LinkFault, link, link_segments, tried_stands};
