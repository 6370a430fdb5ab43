// Stored texts compared with the library's own, and what came of it.
ghost use Rattle.std.specs.Prelude.{◌≡◌, ◌+◌, ◌-◌, ◌^◌, min, string_bytes, OnOk};

use itertools::Itertools;
use std::alloc::Global;
use std::io;

// Differing lines are shown up to this many.
const MOST_SHOWN: u64 = 20;

// The lines that differ: how many, and the text of the first of them, which calls what is compared by a noun.
#[derive(Drop)]
struct Differing {
    noun: &'static str,
    lines: u64,
    text: String,
}

impl Differing {
    fn show(&mut self, place: u64, expected: &str, own: &str) -> io::Result<()> {
        self.lines = self.lines.saturating_add(1);
        if self.lines <= MOST_SHOWN {
            let noun = self.noun;
            writeln!(
                self.text,
                "{noun} {place}: expected {expected:?}, own {own:?}"
            )?;
        }
        Ok(())
    }

    // A line that one text lacks is held to the empty line.
    fn show_texts(&mut self, place: u64, expected: &str, own: &str) -> io::Result<()> {
        for pair in expected.lines().zip_longest(own.lines()) {
            // an own line that the expected text lacks differs, even an empty one
            let is_own_alone = !pair.has_left();
            let (line, own_line) = pair.or_default();
            if is_own_alone || line != own_line {
                self.show(place, line, own_line)?;
            }
        }
        Ok(())
    }
}

// How many texts were compared, and how many of them differ.
#[derive(Drop)]
pub struct Tally {
    compared: u64,
    differences: u64,
    differing: Differing,
}

impl Tally {
    // Lines that differ are shown with a noun for what is compared, as `text`, and its number.
    pub fn new(heap: Global, noun: &'static str) -> Tally
        ensures { result.differences ≡ 0 }
    {
        Tally {
            compared: 0,
            differences: 0,
            differing: Differing {
                noun,
                lines: 0,
                text: String::new(heap),
            },
        }
    }

    // Compares two texts. A difference is counted exactly where they differ, so that none in the end says
    // that all were equal.
    pub fn compare(&mut self, expected: &str, own: &str) -> io::Result<()>
        ensures counted { self.new.compared ≡ min (self.old.compared + 1) (2 ^ 64 - 1) }
        ensures equal { expected.now ≡ own.now → self.new.differences ≡ self.old.differences }
        ensures clean { OnOk result (self.new.differences ≡ 0 → (self.old.differences ≡ 0) × (expected.now ≡ own.now)) }
    {
        self.compared = self.compared.saturating_add(1);
        if expected != own {
            self.differences = self.differences.saturating_add(1);
            self.differing.show_texts(self.compared, expected, own)?;
        }
        Ok(())
    }

    pub fn compared(&self) -> u64
        ensures { result ≡ self.now.compared }
    {
        self.compared
    }

    pub fn differences(&self) -> u64
        ensures { result ≡ self.now.differences }
    {
        self.differences
    }

    // A line for each line that differs, the first of them.
    pub fn differing_lines(&self) -> &str
        ensures { result.now ≡ string_bytes self.now.differing.text }
    {
        self.differing.text.as_str()
    }
}
