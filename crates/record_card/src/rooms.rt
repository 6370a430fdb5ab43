// All the memory that a card can want.
ghost use Rattle.std.specs.Prelude.{◌≡◌, ◌≤◌, vec_len, string_capacity};

use segments::{Segment, TABLE_LEN};
use sheet::SheetRoom;
use std::alloc::{AllocError, Global};

// A line has at most this many bytes.
const LINE_BYTES: usize = 96;

// A line for each entry of two tables, the first line and the last.
const CARD_BYTES: usize = 192384;

// Room for the readings of both axes, and for the text of a card.
#[derive(Drop)]
pub(crate) struct ReadingRoom {
    pub(crate) horizontal: Vec<Segment>,
    pub(crate) vertical: Vec<Segment>,
    pub(crate) text: String,
    ghost horizontal_long: { vec_len horizontal ≡ 1001 },
    ghost vertical_long: { vec_len vertical ≡ 1001 },
    ghost text_room: { 192384 ≤ string_capacity text },
}

impl ReadingRoom {
    fn new(heap: Global) -> Result<ReadingRoom, AllocError> {
        let horizontal = vec![in heap; Segment::blank(); TABLE_LEN]?;
        let vertical = vec![in heap; Segment::blank(); TABLE_LEN]?;
        let text = String::with_capacity(heap, CARD_BYTES)?;
        Ok(ReadingRoom {
            horizontal,
            vertical,
            text,
        })
    }
}

#[derive(Drop)]
pub struct CardRoom {
    pub(crate) sheet: SheetRoom,
    pub(crate) readings: ReadingRoom,
    pub(crate) refusal: String,
    ghost refusal_room: { 96 ≤ string_capacity refusal },
}

impl CardRoom {
    // This call alone can want memory.
    pub fn new(heap: Global) -> Result<CardRoom, AllocError> {
        let sheet = SheetRoom::new(heap)?;
        let readings = ReadingRoom::new(heap)?;
        let refusal = String::with_capacity(heap, LINE_BYTES)?;
        Ok(CardRoom {
            sheet,
            readings,
            refusal,
        })
    }
}
