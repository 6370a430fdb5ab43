// Runs stored drawing records, and compares every value with the answers stored beside them.
#![tactic(auto)]

mod reports;
mod stored;
mod texts;

use reports::report;
use std::io::{BufRead, BufReader};
use std::{env, io};
use stored::Stored;
use telling::{Tally, from_hex};
use texts::Teller;

// Whether the program is asked to print answers, rather than to compare stored ones.
fn asks_to_print(rt: &HostRuntime) -> io::Result<bool> {
    Ok(env::args(rt)?.any(|word| word.as_str() == "--print"))
}

// Prints the answer to each line of hexadecimal digits.
fn print_answers(rt: &HostRuntime) -> io::Result<()> {
    let heap = rt.alloc();
    let mut teller = Teller::new();
    for line in BufReader::new(heap, rt.stdin())?.lines(heap) {
        let bytes = from_hex(heap, line?.as_bytes())?;
        let mut text = teller.record_text(heap, bytes.as_slice())?;
        text.push_str("end\n")?;
        rt.print(text)?;
    }
    Ok(())
}

fn compare_answers(rt: &HostRuntime) -> io::Result<()> {
    let heap = rt.alloc();
    let mut stored = Stored::new(heap);
    let mut tally = Tally::new(heap, "record");
    for line in BufReader::new(heap, rt.stdin())?.lines(heap) {
        stored.take_line(heap, line?.as_str(), &mut tally)?;
    }
    rt.print(report(heap, &tally)?)
}

fn main(rt: HostRuntime) -> io::Result<()> {
    if asks_to_print(&rt)? {
        print_answers(&rt)
    } else {
        compare_answers(&rt)
    }
}
