// The text of a stem card: a head, a line for each segment of both axes, and the count of stems.
#![tactic(auto)]

mod faults;
mod lines;
mod rows;
mod stems;
mod texts;

pub use faults::CardFault;
pub use rows::card_line;
pub use stems::stem_count;
pub use texts::{Card, refused_into, refused_text};
