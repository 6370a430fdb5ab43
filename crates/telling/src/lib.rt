// What stored texts are held to: the text of a sheet, with every value that it holds and that is read from it.
#![tactic(auto)]

mod digits;
mod lines;
mod tallies;
mod texts;
mod words;

pub use digits::from_hex;
pub use tallies::Tally;
pub use texts::{built_sheet_text, point_text, push_segments, sheet_text};
pub use words::OrDash;
