// What is printed after all records were compared.
ghost use Rattle.std.specs.Prelude.{◌≡◌, ◌++◌, IfOk, string_bytes};
ghost use Rattle.replay.specs.Counts.{counts};

use std::alloc::{AllocError, Global};
use telling::Tally;

fn counts_line(heap: Global, records: u64, differences: u64) -> Result<String, AllocError>
    ensures { IfOk result (λ line. string_bytes line ≡ counts records differences) }
{
    format!(in heap; "{records} records, {differences} differences\n")
}

// The differing lines, and then the counts.
pub fn report(heap: Global, tally: &Tally) -> Result<String, AllocError>
    ensures { IfOk result (λ text. string_bytes text ≡ string_bytes tally.now.differing.text ++ counts tally.now.compared tally.now.differences) }
{
    let mut text = String::from_str(heap, tally.differing_lines())?;
    let counts = counts_line(heap, tally.compared(), tally.differences())?;
    text.push_str(counts.as_str())?;
    Ok(text)
}
