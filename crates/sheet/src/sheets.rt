// A sheet holds one glyph while it is edited. What is drawn is the truth; the records follow from it, the settings and the rule.
ghost use Rattle.std.specs.Prelude.{◌≡◌, vec_len};

use drawing::{Drawing, Records};
use outline::Settings;

// All room is reserved when the sheet is made: no edit and no reading wants memory.
// That the records follow is a clause of the calls: as an invariant it would put R's meaning into each definition over sheets.
#[derive(Drop)]
pub struct Sheet<R> {
    settings: Settings,
    rule: R,
    drawing: Drawing,
    // what an edit takes from a source, until nothing can refuse it any more
    taken: Drawing,
    // what an edit makes of the drawing, before the two change places
    next: Drawing,
    records: Records,
    ghost counted: { vec_len records.points ≡ vec_len drawing.points },
}

pub mod edits;
pub mod making;
pub mod questions;
pub mod readings;
mod turning;
