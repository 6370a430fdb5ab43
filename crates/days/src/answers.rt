// What a call answers.
use crate::digests::Digest;
use drawing::EditFault;
use sheet::Sheet;
use std::alloc::{AllocError, Global};
use std::io;
use telling::sheet_text;
use unscaled::CornerCode;

#[derive(Clone, Copy)]
pub enum Outcome {
    Granted,
    Refused,
    Asked,
}

// What became of a call, and the words that tell it.
#[derive(Drop)]
pub struct Answer {
    pub outcome: Outcome,
    pub text: String,
}

// A refusal's number; a source's fault is told whole.
fn refusal_text(heap: Global, fault: EditFault) -> Result<String, AllocError> {
    let number = fault.number();
    match fault {
        EditFault::Source(entry) => {
            let index = entry.index;
            let placements = entry.placements;
            format!(in heap; "{number} at {index} under {placements}")
        }
        _ => format!(in heap; "{number}"),
    }
}

impl Answer {
    pub fn of_edit(heap: Global, done: Result<(), EditFault>) -> anyhow::Result<Answer> {
        let (outcome, text) = match done {
            Ok(()) => (Outcome::Granted, String::from_str(heap, "ok")?),
            Err(fault) => (Outcome::Refused, refusal_text(heap, fault)?),
        };
        Ok(Answer { outcome, text })
    }

    // Of a question: what was found, if anything was.
    pub fn of_question(heap: Global, found: Option<String>) -> Result<Answer, AllocError> {
        let text = match found {
            Some(text) => text,
            None => String::from_str(heap, "none")?,
        };
        Ok(Answer {
            outcome: Outcome::Asked,
            text,
        })
    }

    // Adds the digest of the sheet's whole text.
    pub fn tell_sheet(&mut self, heap: Global, sheet: &Sheet<CornerCode>) -> io::Result<()> {
        let whole = sheet_text(heap, sheet)?;
        let digest = Digest::of(whole.as_str());
        write!(self.text, " sheet {digest}")?;
        Ok(())
    }
}
