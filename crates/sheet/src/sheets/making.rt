// Making a sheet.
ghost use Rattle.std.specs.Prelude.{◌≡◌, IfOk};
ghost use Rattle.sheet.specs.Alone.{ContoursAlone};
ghost use Rattle.sheet.specs.Laws.{History, LinksMutual};
ghost use Rattle.drawing.specs.Books.{book};
ghost use Rattle.sheet.specs.Sheets.{contours_of, Analysed, Fresh};

use super::Sheet;
use crate::rooms::SheetRoom;
use drawing::{Drawing, Records};
use outline::{CornerRule, Settings};
use std::alloc::{AllocError, Global};

impl<R: CornerRule> Sheet<R> {
    // An empty sheet, with room for all that it may ever hold: this call alone can want memory.
    // Whatever is done with the sheet afterwards, the laws hold.
    pub fn new(heap: Global, settings: Settings, rule: R) -> Result<Sheet<R>, AllocError>
    where
        R: Drop,
        ensures settings { IfOk result (λ s. s.settings ≡ settings) }
        ensures rule { IfOk result (λ s. s.rule ≡ rule) }
        ensures fresh { IfOk result (λ s. Fresh R.CornerRule.flat s) }
        ensures history { IfOk result (λ s. History R.CornerRule.flat R.CornerRule.flat s) }
        ensures stems { IfOk result (λ s. LinksMutual R.CornerRule.flat s) }
        ensures alone { IfOk result (λ s. ContoursAlone R.CornerRule.flat R.CornerRule.flat s) }
    {
        let room = SheetRoom::new(heap)?;
        Ok(Sheet::in_room(room, settings, rule))
    }

    // A sheet that holds what is drawn already: this call alone can want memory.
    pub fn from_drawing(
        heap: Global,
        settings: Settings,
        rule: R,
        drawing: Drawing,
    ) -> Result<Sheet<R>, AllocError>
    where
        R: Drop,
        ensures settings { IfOk result (λ s. s.settings ≡ settings) }
        ensures rule { IfOk result (λ s. s.rule ≡ rule) }
        ensures drawn { IfOk result (λ s. contours_of s ≡ book drawing) }
        ensures analysed { IfOk result (λ s. Analysed R.CornerRule.flat s) }
    {
        let taken = Drawing::new(heap)?;
        let next = Drawing::new(heap)?;
        let mut records = Records::new(heap)?;
        records.analyze(&rule, &settings, &drawing);
        Ok(Sheet {
            settings,
            rule,
            drawing,
            taken,
            next,
            records,
        })
    }

    // An empty sheet in room that is there already: this cannot fail.
    pub fn in_room(room: SheetRoom, settings: Settings, rule: R) -> Sheet<R>
        ensures settings { result.settings ≡ settings }
        ensures rule { result.rule ≡ rule }
        ensures fresh { Fresh R.CornerRule.flat result }
        ensures history { History R.CornerRule.flat R.CornerRule.flat result }
        ensures stems { LinksMutual R.CornerRule.flat result }
        ensures alone { ContoursAlone R.CornerRule.flat R.CornerRule.flat result }
    {
        let SheetRoom {
            drawing,
            taken,
            next,
            records,
        } = room;
        Sheet {
            settings,
            rule,
            drawing,
            taken,
            next,
            records,
        }
    }

    // The room of a sheet, for another one. What was drawn goes.
    pub fn into_room(self) -> SheetRoom
    where
        R: Drop,
    {
        let Sheet {
            settings: _,
            rule: _,
            mut drawing,
            taken,
            next,
            mut records,
        } = self;
        drawing.clear();
        records.clear();
        SheetRoom {
            drawing,
            taken,
            next,
            records,
        }
    }
}
