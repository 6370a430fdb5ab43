// The table that a reading is lent, and what stands in it afterwards.
use outline::Direction;
use segments::{Coordinate, Dimension, Position, Segment};
use std::alloc::Global;
use std::io;
use telling::push_segments;

// What a table is filled with before a reading, in no field as a reading leaves a blank entry.
pub fn stale_entry() -> Segment {
    Segment {
        dir: Direction::Left,
        pos: Position(-7),
        delta: 5,
        min_coord: Coordinate(-31),
        max_coord: Coordinate(-30),
        height: 1,
        round: true,
        score: 77,
        link: Some(900),
        serif: Some(901),
        first: 902,
        last: 903,
    }
}

// What the entries after the segments are.
fn rest_word(rest: &[Segment]) -> &'static str {
    // made once: not for each entry that is looked at
    let blank = Segment::blank();
    let stale = stale_entry();
    if rest.iter().all(|entry| *entry == blank) {
        "blank"
    } else if rest.iter().all(|entry| *entry == stale) {
        "stale"
    } else {
        "mixed"
    }
}

// The text of a whole table: its segments, and how many entries come after them.
pub fn table_text(
    heap: Global,
    dimension: Dimension,
    segments: &[Segment],
    rest: &[Segment],
) -> io::Result<String> {
    let mut out = String::new(heap);
    push_segments(&mut out, dimension, segments)?;
    let word = rest_word(rest);
    let entries = rest.len();
    writeln!(out, "{word} {entries}")?;
    Ok(out)
}
