// From the bytes of a drawing record to what is printed of them, in room that is there.
ghost use Rattle.std.specs.Prelude.{◌≡◌, ◌≤◌, length, drop, string_bytes, string_capacity};
ghost use Rattle.unscaled.specs.Records.{entries};
ghost use Rattle.card.specs.Cards.{card_text, refused_words};
ghost use Rattle.card.specs.Lines.{line_of};
ghost use Rattle.sheet.specs.Sheets.{contours_of, terms, Analysed, Fresh};
ghost use Rattle.record_card.specs.Refusals.{number};
ghost use Rattle.record_card.specs.Printed.{read_by, contours_card, points_card, record_card, printed};

use crate::refusals::Refusal;
use crate::rooms::{CardRoom, ReadingRoom};
use card::{Card, refused_into};
use outline::CornerRule;
use segments::{Dimension, Segment};
use sheet::{Sheet, SheetRoom};
use unscaled::{Header, RecordPoints};

// The text of a card, where there is room for it.
fn text_in(room: String, card: &Card<'_>) -> String
    requires horizontal { length card.now.horizontal.now ≤ 1001 }
    requires vertical { length card.now.vertical.now ≤ 1001 }
    requires room { 192384 ≤ string_capacity room }
    ensures { string_bytes result ≡ card_text card.now }
{
    match card.text_into(room) {
        Ok(text) => text,
        Err(_) => unreachable(),
    }
}

// The text of a refusal, where there is room for it.
fn refusal_in(room: String, refusal: Refusal) -> String
    requires { 96 ≤ string_capacity room }
    ensures { string_bytes result ≡ line_of (refused_words (number refusal)) }
{
    match refused_into(room, refusal.number()) {
        Ok(text) => text,
        Err(_) => unreachable(),
    }
}

// The card of a sheet. Both axes are read before any text is made.
fn sheet_card<R: CornerRule>(
    sheet: &Sheet<R>,
    horizontal: &mut [Segment],
    vertical: &mut [Segment],
    text: String,
) -> Result<String, Refusal>
    requires horizontal { length horizontal.old ≡ 1001 }
    requires vertical { length vertical.old ≡ 1001 }
    requires text { 192384 ≤ string_capacity text }
    ensures { Analysed R.CornerRule.flat sheet.now → read_by string_bytes result ≡ contours_card (terms R.CornerRule.flat sheet.now) (contours_of sheet.now) }
{
    let across = sheet.read(Dimension::Horizontal, horizontal)?;
    let along = sheet.read(Dimension::Vertical, vertical)?;
    let card = Card {
        points: sheet.point_count(),
        contours: sheet.contour_count(),
        orientation: sheet.orientation(),
        horizontal: &horizontal[..across],
        vertical: &vertical[..along],
    };
    Ok(text_in(text, &card))
}

impl ReadingRoom {
    // The card of a sheet.
    fn card<R: CornerRule>(self, sheet: &Sheet<R>) -> Result<String, Refusal>
        ensures { Analysed R.CornerRule.flat sheet.now → read_by string_bytes result ≡ contours_card (terms R.CornerRule.flat sheet.now) (contours_of sheet.now) }
    {
        let ReadingRoom {
            mut horizontal,
            mut vertical,
            text,
        } = self;
        sheet_card(sheet, &mut horizontal, &mut vertical, text)
    }
}

// The card of a record's points, placed on an empty sheet.
fn place_card<R: CornerRule + Drop>(
    sheet: Sheet<R>,
    readings: ReadingRoom,
    bytes: &[u8],
) -> Result<String, Refusal>
    ensures { Fresh R.CornerRule.flat sheet → read_by string_bytes result ≡ points_card (terms R.CornerRule.flat sheet) (entries (drop 8 bytes.now)) }
{
    let mut sheet = sheet;
    sheet.place(&RecordPoints::of_record(bytes))?;
    readings.card(&sheet)
}

// The card of a record.
fn card_of(room: SheetRoom, readings: ReadingRoom, bytes: &[u8]) -> Result<String, Refusal>
    ensures { read_by string_bytes result ≡ record_card bytes.now }
{
    let header = Header::read(bytes)?;
    let sheet = Sheet::in_room(room, header.settings, header.corner);
    place_card(sheet, readings, bytes)
}

impl CardRoom {
    // The card of a record, or why it has none.
    pub fn read_card(self, bytes: &[u8]) -> Result<String, Refusal>
        ensures { read_by string_bytes result ≡ record_card bytes.now }
    {
        let CardRoom {
            sheet,
            readings,
            refusal: _,
        } = self;
        card_of(sheet, readings, bytes)
    }

    // The card of a record, or the text of its refusal.
    pub fn stem_card(self, bytes: &[u8]) -> String
        ensures { string_bytes result ≡ printed bytes.now }
    {
        let CardRoom {
            sheet,
            readings,
            refusal,
        } = self;
        match card_of(sheet, readings, bytes) {
            Ok(text) => text,
            Err(fault) => refusal_in(refusal, fault),
        }
    }
}
