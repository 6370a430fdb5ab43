// How many calls there were, what became of them, and how many texts differ.
ghost use Rattle.std.specs.Prelude.{◌≡◌, ◌+◌, ◌-◌, ◌^◌, min};

use crate::answers::Outcome;
use std::fmt;

#[derive(Clone, Copy, Default)]
pub struct Counts {
    calls: u64,
    granted: u64,
    refused: u64,
    asked: u64,
    differences: u64,
}

impl Counts {
    pub fn add_call(&mut self, outcome: Outcome)
        ensures counted { self.new.calls ≡ min (self.old.calls + 1) (2 ^ 64 - 1) }
        ensures differences { self.new.differences ≡ self.old.differences }
    {
        self.calls = self.calls.saturating_add(1);
        match outcome {
            Outcome::Granted => self.granted = self.granted.saturating_add(1),
            Outcome::Refused => self.refused = self.refused.saturating_add(1),
            Outcome::Asked => self.asked = self.asked.saturating_add(1),
        }
    }

    pub fn add_differences(&mut self, differences: u64)
        ensures { self.new.differences ≡ min (self.old.differences + differences) (2 ^ 64 - 1) }
    {
        self.differences = self.differences.saturating_add(differences);
    }

    // No difference in the sum says that there was none in either.
    pub fn add_day(&mut self, day: &Counts)
        ensures counted { self.new.calls ≡ min (self.old.calls + day.now.calls) (2 ^ 64 - 1) }
        ensures clean { self.new.differences ≡ 0 → (self.old.differences ≡ 0) × (day.now.differences ≡ 0) }
    {
        self.calls = self.calls.saturating_add(day.calls);
        self.granted = self.granted.saturating_add(day.granted);
        self.refused = self.refused.saturating_add(day.refused);
        self.asked = self.asked.saturating_add(day.asked);
        self.differences = self.differences.saturating_add(day.differences);
    }
}

impl fmt::Display for Counts {
    fn fmt<W: fmt::Write>(&self, f: &mut fmt::Formatter<W>) -> fmt::Result {
        write!(
            f,
            "{} calls, {} granted, {} refused, {} asked, {} differences",
            self.calls, self.granted, self.refused, self.asked, self.differences
        )
    }
}
