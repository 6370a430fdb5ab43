// The calls of a day, as they are stored.
use crate::points::{StoredSource, read_source};
use anyhow::anyhow;
use segments::Dimension;
use std::alloc::Global;

#[derive(Drop)]
pub enum Call {
    Place(StoredSource),
    Replace(usize, StoredSource),
    Drop(usize),
    Move(PointMove),
    Clear,
    // with the length of the table that is lent
    Read(Dimension, usize),
    AskPoint(usize),
    AskContour(usize),
}

// Where point j of contour k is moved.
#[derive(Clone, Copy)]
pub struct PointMove {
    pub k: usize,
    pub j: usize,
    pub x: i32,
    pub y: i32,
}

// A `match`: the words are this program's, and stand here where it reads them.
fn read_dimension(word: &str) -> anyhow::Result<Dimension> {
    match word {
        "H" => Ok(Dimension::Horizontal),
        "V" => Ok(Dimension::Vertical),
        _ => Err(anyhow!("an axis is H or V")),
    }
}

fn read_move(words: &[&str]) -> anyhow::Result<PointMove> {
    let [k, j, x, y] = words else {
        return Err(anyhow!("a move has four numbers"));
    };
    Ok(PointMove {
        k: k.parse()?,
        j: j.parse()?,
        x: x.parse()?,
        y: y.parse()?,
    })
}

// The calls that name a source.
fn read_placing(heap: Global, verb: &str, words: &[&str]) -> anyhow::Result<Call> {
    match (verb, words) {
        ("place", source) => Ok(Call::Place(read_source(heap, source)?)),
        ("replace", [k, source @ ..]) => Ok(Call::Replace(k.parse()?, read_source(heap, source)?)),
        _ => Err(anyhow!("no such call")),
    }
}

fn read_words(heap: Global, verb: &str, words: &[&str]) -> anyhow::Result<Call> {
    match (verb, words) {
        ("drop", [k]) => Ok(Call::Drop(k.parse()?)),
        ("move", numbers) => Ok(Call::Move(read_move(numbers)?)),
        ("clear", []) => Ok(Call::Clear),
        ("read", [axis, len]) => Ok(Call::Read(read_dimension(axis)?, len.parse()?)),
        ("point", [i]) => Ok(Call::AskPoint(i.parse()?)),
        ("contour", [k]) => Ok(Call::AskContour(k.parse()?)),
        _ => read_placing(heap, verb, words),
    }
}

// The call that a line tells.
pub fn read_call(heap: Global, line: &str) -> anyhow::Result<Call> {
    let words: Vec<&str> = line.split_whitespace().collect(heap)?;
    let [verb, rest @ ..] = words.as_slice() else {
        return Err(anyhow!("a call has a name"));
    };
    read_words(heap, verb, rest)
}
