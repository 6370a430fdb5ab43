// Plays stored days of calls, each on a sheet of its own, and compares every answer with the one stored beside it.
#![tactic(auto)]

mod answers;
mod calls;
mod clean;
mod counts;
mod digests;
mod plays;
mod points;
mod stored;
mod tables;

use counts::Counts;
use std::io::{BufRead, BufReader};
use stored::{DayPlayed, play_stored};

// The lines that differ, and then the day's counts.
fn print_day(rt: &HostRuntime, number: u64, played: &DayPlayed) -> anyhow::Result<()> {
    rt.print(played.differing.as_str())?;
    let counts = &played.counts;
    println!(rt; "day {number}: {counts}")?;
    Ok(())
}

fn play_all(rt: &HostRuntime) -> anyhow::Result<()> {
    let heap = rt.alloc();
    let mut lines = Vec::new(heap);
    let mut days = 0u64;
    let mut total = Counts::default();
    for line in BufReader::new(heap, rt.stdin())?.lines(heap) {
        let line = line?;
        let ends_day = line.starts_with("end ");
        lines.push(line)?;
        if ends_day {
            let played = play_stored(heap, lines.as_slice())?;
            days = days.saturating_add(1);
            print_day(rt, days, &played)?;
            total.add_day(&played.counts);
            lines.clear();
        }
    }
    println!(rt; "{days} days: {total}")?;
    Ok(())
}

fn main(rt: HostRuntime) -> anyhow::Result<()> {
    play_all(&rt)
}
