// What an edit made takes the drawing's place.
ghost use Rattle.std.specs.Prelude.{◌≡◌};
ghost use Rattle.drawing.specs.Books.{book};
ghost use Rattle.sheet.specs.Sheets.{contours_of, Analysed};

use super::Sheet;
use outline::CornerRule;
use std::mem;

impl<R: CornerRule> Sheet<R> {
    // Turns to the drawing that was made, with its records.
    pub(crate) fn turn_to_next(&mut self)
        ensures draws { contours_of self.new ≡ book self.old.next }
        ensures analysed { Analysed R.CornerRule.flat self.new }
        ensures settings { self.new.settings ≡ self.old.settings }
        ensures rule { self.new.rule ≡ self.old.rule }
    {
        mem::swap(&mut self.drawing, &mut self.next);
        self.records
            .analyze(&self.rule, &self.settings, &self.drawing);
    }
}
