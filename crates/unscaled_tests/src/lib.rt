// A caller of sources with an error enum of its own, and examples of sources and records.
#![tactic(auto)]

mod asking;

pub use asking::{Refusal, point_at, settings_of};

#[cfg(test)]
mod tests;
