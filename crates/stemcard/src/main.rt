// Reads a drawing record from standard input and prints its stem card, or why it has none.
#![tactic(auto)]

use record_card::stem_card;
use std::io;
use std::io::Read;

const MOST_BYTES: u64 = 16384;

fn main(rt: HostRuntime) -> io::Result<()> {
    let heap = rt.alloc();
    let mut bytes = Vec::new(heap);
    rt.stdin().take(MOST_BYTES).read_to_end(&mut bytes)?;
    let text = stem_card(heap, bytes.as_slice())?;
    rt.print(text)
}
