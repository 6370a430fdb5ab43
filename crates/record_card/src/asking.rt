// The card of a record in memory that is asked for. A record that is refused for its points wants that of one drawing.
ghost use Rattle.std.specs.Prelude.{◌≡◌, [], drop, IfOk, string_bytes};
ghost use Rattle.unscaled.specs.Records.{entries};
ghost use Rattle.drawing.specs.Books.{book};
ghost use Rattle.sheet.specs.Book.{placing, outcome};
ghost use Rattle.record_card.specs.Agreements.{Agrees};
ghost use Rattle.record_card.specs.Printed.{of_edit, record_card, printed};

use crate::refusals::NoCard;
use crate::rooms::CardRoom;
use card::refused_text;
use drawing::Drawing;
use std::alloc::{AllocError, Global};
use unscaled::{Header, RecordPoints};

// The record's points, drawn as on an empty sheet.
fn record_drawing(heap: Global, bytes: &[u8]) -> Result<Drawing, NoCard>
    ensures { Agrees result book (of_edit (outcome [] (placing (entries (drop 8 bytes.now))))) }
{
    let mut drawing = Drawing::new(heap)?;
    drawing.draw(&RecordPoints::of_record(bytes))?;
    Ok(drawing)
}

// The card of a record, or why it has none.
pub fn read_card(heap: Global, bytes: &[u8]) -> Result<String, NoCard>
    ensures { Agrees result string_bytes (record_card bytes.now) }
{
    Header::read(bytes)?;
    // for its refusal alone: what is drawn goes before a card's memory is asked for
    record_drawing(heap, bytes)?;
    let card = CardRoom::new(heap)?.read_card(bytes)?;
    // as long as the text: the room's string has room for any card
    let text = String::from_str(heap, card.as_str())?;
    Ok(text)
}

// The card of a record, or the text of its refusal.
pub fn stem_card(heap: Global, bytes: &[u8]) -> Result<String, AllocError>
    ensures { IfOk result (λ s. string_bytes s ≡ printed bytes.now) }
{
    match read_card(heap, bytes) {
        Ok(text) => Ok(text),
        Err(NoCard::Refused(refusal)) => refused_text(heap, refusal.number()),
        Err(NoCard::Memory(e)) => Err(e),
    }
}
