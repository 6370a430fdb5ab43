// The text of a record: every value that the library finds in it.
use card::refused_text;
use drawing::Drawing;
use sheet::{Sheet, SheetRoom};
use std::alloc::{AllocError, Global};
use std::io;
use telling::built_sheet_text;
use unscaled::{CornerCode, Header, RecordPoints};

// Tells one record after another, each on a sheet in the room of the one before it.
#[derive(Drop)]
pub struct Teller {
    room: Option<SheetRoom>,
}

impl Teller {
    pub fn new() -> Teller {
        Teller { room: None }
    }

    fn take_room(&mut self, heap: Global) -> Result<SheetRoom, AllocError> {
        match self.room.take() {
            Some(room) => Ok(room),
            None => SheetRoom::new(heap),
        }
    }

    // The text of a sheet on which the record's points were placed, or of the record's refusal.
    pub fn record_text(&mut self, heap: Global, bytes: &[u8]) -> io::Result<String> {
        let header = match Header::read(bytes) {
            Ok(header) => header,
            Err(fault) => return Ok(refused_text(heap, fault.number())?),
        };
        // a record that is refused for its points wants no sheet
        let mut drawing = Drawing::new(heap)?;
        if let Err(fault) = drawing.draw(&RecordPoints::of_record(bytes)) {
            return Ok(refused_text(heap, fault.number())?);
        }
        let room = self.take_room(heap)?;
        let mut sheet = Sheet::in_room(room, header.settings, header.corner);
        let text = placed_text(heap, &mut sheet, bytes)?;
        self.room = Some(sheet.into_room());
        Ok(text)
    }
}

// The text of the sheet once the record's points were placed, or of their refusal.
fn placed_text(heap: Global, sheet: &mut Sheet<CornerCode>, bytes: &[u8]) -> io::Result<String> {
    match sheet.place(&RecordPoints::of_record(bytes)) {
        Ok(()) => built_sheet_text(heap, sheet),
        Err(fault) => Ok(refused_text(heap, fault.number())?),
    }
}
