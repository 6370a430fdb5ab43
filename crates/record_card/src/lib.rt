// The card of a drawing record: from its bytes to what is printed of them.
#![tactic(auto)]

mod asking;
mod records;
mod refusals;
mod rooms;

pub use asking::{read_card, stem_card};
pub use refusals::{NoCard, Refusal};
pub use rooms::CardRoom;
