// A sheet: one glyph while it is edited, with the records and readings of what it holds now.
#![tactic(auto)]

mod laws;
mod rooms;
mod sheets;

pub use laws::laws_stand;
pub use rooms::SheetRoom;
pub use sheets::Sheet;
