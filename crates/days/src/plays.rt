// Playing a call on a sheet.
use crate::answers::{Answer, Outcome};
use crate::calls::{Call, read_call};
use crate::digests::Digest;
use crate::points::{Offset, StoredPoints, StoredSource};
use crate::tables::{stale_entry, table_text};
use anyhow::anyhow;
use drawing::EditFault;
use segments::Dimension;
use sheet::Sheet;
use std::alloc::Global;
use std::io;
use telling::point_text;
use unscaled::{CornerCode, PointTable, RecordPoints, Source};

// A source's contours come in the place of one, or else at the end.
// A `match`: a closure that is passed down cannot be generic over the source.
fn put<S: Source>(
    sheet: &mut Sheet<CornerCode>,
    replaced: Option<usize>,
    source: &S,
) -> Result<(), EditFault> {
    match replaced {
        None => sheet.place(source),
        Some(k) => sheet.replace(k, source),
    }
}

// The source under its placements; a day has up to two of them over each other.
fn put_under<S: Source + Drop>(
    sheet: &mut Sheet<CornerCode>,
    replaced: Option<usize>,
    source: S,
    offsets: &[Offset],
) -> anyhow::Result<Result<(), EditFault>> {
    match offsets {
        [] => Ok(put(sheet, replaced, &source)),
        [one] => Ok(put(sheet, replaced, &one.over(source))),
        [one, two] => Ok(put(sheet, replaced, &two.over(one.over(source)))),
        _ => Err(anyhow!("a source has at most two placements")),
    }
}

fn put_stored(
    heap: Global,
    sheet: &mut Sheet<CornerCode>,
    replaced: Option<usize>,
    source: &StoredSource,
) -> anyhow::Result<Answer> {
    let offsets = source.offsets.as_slice();
    let done = match &source.points {
        StoredPoints::Record(bytes) => {
            put_under(
                sheet,
                replaced,
                RecordPoints::new(bytes.as_slice()),
                offsets,
            )?
        }
        StoredPoints::Table(points) => {
            put_under(sheet, replaced, PointTable::new(points.as_slice()), offsets)?
        }
    };
    Answer::of_edit(heap, done)
}

// The answer of a reading, and the digest of all that stands in the table afterwards.
fn read_axis(
    heap: Global,
    sheet: &Sheet<CornerCode>,
    dimension: Dimension,
    len: usize,
) -> io::Result<Answer> {
    let mut table = vec![in heap; stale_entry(); len]?;
    let (outcome, words, count) = match sheet.read(dimension, &mut table) {
        Ok(count) => (Outcome::Granted, format!(in heap; "ok {count}")?, count),
        Err(fault) => {
            let number = fault.number();
            // a refused reading finds no segments
            (Outcome::Refused, format!(in heap; "{number}")?, 0)
        }
    };
    let (segments, rest) = table.as_slice().split_at(count);
    let whole = table_text(heap, dimension, segments, rest)?;
    let digest = Digest::of(whole.as_str());
    Ok(Answer {
        outcome,
        text: format!(in heap; "{words} table {digest}")?,
    })
}

fn ask_point(heap: Global, sheet: &Sheet<CornerCode>, index: usize) -> io::Result<Answer> {
    let found = sheet.point(index);
    let text = found.map(|point| point_text(heap, index, &point));
    Ok(Answer::of_question(heap, text.transpose()?)?)
}

fn ask_contour(heap: Global, sheet: &Sheet<CornerCode>, k: usize) -> io::Result<Answer> {
    let found = sheet.contour(k);
    let text = found.map(|contour| format!(in heap; "{} {}", contour.first, contour.end));
    Ok(Answer::of_question(heap, text.transpose()?)?)
}

fn play_call(heap: Global, sheet: &mut Sheet<CornerCode>, call: &Call) -> anyhow::Result<Answer> {
    match call {
        Call::Place(source) => put_stored(heap, sheet, None, source),
        Call::Replace(k, source) => put_stored(heap, sheet, Some(*k), source),
        Call::Drop(k) => Answer::of_edit(heap, sheet.drop_contour(*k)),
        Call::Move(to) => Answer::of_edit(heap, sheet.move_point(to.k, to.j, to.x, to.y)),
        Call::Clear => {
            sheet.clear();
            Answer::of_edit(heap, Ok(()))
        }
        Call::Read(dimension, len) => Ok(read_axis(heap, sheet, *dimension, *len)?),
        Call::AskPoint(index) => Ok(ask_point(heap, sheet, *index)?),
        Call::AskContour(k) => Ok(ask_contour(heap, sheet, *k)?),
    }
}

// Plays the call that a line tells. The answer ends with the digest of the sheet as the call leaves it.
pub fn play_line(
    heap: Global,
    sheet: &mut Sheet<CornerCode>,
    line: &str,
) -> anyhow::Result<Answer> {
    let call = read_call(heap, line)?;
    let mut answer = play_call(heap, sheet, &call)?;
    answer.tell_sheet(heap, sheet)?;
    Ok(answer)
}
