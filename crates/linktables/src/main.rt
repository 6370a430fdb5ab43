// Reads tables of segments, one to a line, links each and prints the score, link and serif of its entries.
//
// A line has the units, the width and the major direction and then, for each entry, its direction,
// position, least and greatest coordinate. A table that is refused prints `refused` and the number.
#![tactic(auto)]

use anyhow::anyhow;
use linking::link;
use outline::Direction;
use segments::{Coordinate, Position, Segment};
use std::alloc::{AllocError, Global};
use std::io::{BufRead, BufReader};
use telling::OrDash;

// A word of no direction is None, so there is nothing to parse that can fail.
fn direction(word: &str) -> Direction {
    match word {
        "right" => Direction::Right,
        "left" => Direction::Left,
        "up" => Direction::Up,
        "down" => Direction::Down,
        _ => Direction::None,
    }
}

// An entry with a score, a link and a serif that linking has to erase.
fn stale_entry(dir: Direction, pos: i16, least: i16, greatest: i16) -> Segment {
    Segment {
        dir,
        pos: Position(pos),
        min_coord: Coordinate(least),
        max_coord: Coordinate(greatest),
        score: 5,
        link: Some(7),
        serif: Some(9),
        ..Segment::blank()
    }
}

fn read_entry(words: &[&str; 4]) -> anyhow::Result<Segment> {
    let [dir, pos, least, greatest] = words;
    Ok(stale_entry(
        direction(dir),
        pos.parse()?,
        least.parse()?,
        greatest.parse()?,
    ))
}

fn read_entries(heap: Global, words: &[&str]) -> anyhow::Result<Vec<Segment>> {
    let (entries, _) = words.as_chunks::<4>();
    entries.iter().map(read_entry).try_collect(heap)
}

fn linked_text(heap: Global, table: &[Segment]) -> Result<String, AllocError> {
    let mut text = String::new(heap);
    for segment in table {
        let score = segment.score;
        let link = OrDash(segment.link);
        let serif = OrDash(segment.serif);
        write!(text, "{score} {link} {serif} ")?;
    }
    Ok(text)
}

fn link_line(heap: Global, line: &str) -> anyhow::Result<String> {
    let words: Vec<&str> = line.split_whitespace().collect(heap)?;
    let [units, width, major, entries @ ..] = words.as_slice() else {
        return Err(anyhow!("a line begins with units, width and direction"));
    };
    let mut table = read_entries(heap, entries)?;
    let n = table.len();
    match link(
        table.as_mut_slice(),
        n,
        units.parse()?,
        width.parse()?,
        direction(major),
    ) {
        Ok(()) => Ok(linked_text(heap, table.as_slice())?),
        Err(fault) => {
            let number = fault.number();
            Ok(format!(in heap; "refused {number}")?)
        }
    }
}

fn main(rt: HostRuntime) -> anyhow::Result<()> {
    let heap = rt.alloc();
    for line in BufReader::new(heap, rt.stdin())?.lines(heap) {
        let text = link_line(heap, line?.as_str())?;
        rt.println(text)?;
    }
    Ok(())
}
