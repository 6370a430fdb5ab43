// Stored records: a line `record` with the bytes as hexadecimal digits, the lines of the answer, and a
// line `end`.
ghost use Rattle.std.specs.Prelude.{◌≡◌, ◌+◌, ◌-◌, ◌^◌, min, string_bytes, OnOk};

use crate::texts::Teller;
use std::alloc::Global;
use std::io;
use telling::{Tally, from_hex};

// The record that is being read, and its answer so far.
#[derive(Drop)]
pub struct Stored {
    teller: Teller,
    bytes: Vec<u8>,
    answer: String,
}

impl Stored {
    pub fn new(heap: Global) -> Stored {
        Stored {
            teller: Teller::new(),
            bytes: Vec::new(heap),
            answer: String::new(heap),
        }
    }

    // Holds the answer to the library's own. A difference is counted exactly where they differ, so that none in the
    // end says that all were equal.
    fn compare(&self, own: &str, tally: &mut Tally) -> io::Result<()>
        ensures counted { tally.new.compared ≡ min (tally.old.compared + 1) (2 ^ 64 - 1) }
        ensures equal { string_bytes self.now.answer ≡ own.now → tally.new.differences ≡ tally.old.differences }
        ensures clean { OnOk result (tally.new.differences ≡ 0 → (tally.old.differences ≡ 0) × (string_bytes self.now.answer ≡ own.now)) }
    {
        tally.compare(self.answer.as_str(), own)
    }

    // Takes in the next line; at a record's end, the answer is compared with the library's own.
    pub fn take_line(&mut self, heap: Global, line: &str, tally: &mut Tally) -> io::Result<()> {
        if let Some(digits) = line.strip_prefix("record ") {
            self.bytes = from_hex(heap, digits.as_bytes())?;
            self.answer.clear();
        } else if line == "end" {
            let own = self.teller.record_text(heap, self.bytes.as_slice())?;
            self.compare(own.as_str(), tally)?;
        } else {
            self.answer.push_str(line)?;
            self.answer.push_str("\n")?;
        }
        Ok(())
    }
}
