// The text of a sheet: every value that it holds, and every value that is read from it.
ghost use Rattle.std.specs.Iterator.{IsFinite};

use crate::lines::{AnswerLine, BuiltLine, LinkedLine, PointLine, SheetLine};
use outline::{CornerRule, Point};
use reading::ReadFault;
use segments::{Dimension, Segment, TABLE_LEN};
use sheet::Sheet;
use std::alloc::{AllocError, Global};
use std::{fmt, io};

// The line of the point at an index, without its end.
pub fn point_text(heap: Global, index: usize, point: &Point) -> Result<String, AllocError> {
    PointLine {
        index,
        point: *point,
    }
    .to_string(heap)
}

fn push_lines<L: fmt::Display + Drop, I: Iterator<Item = L> + Drop>(
    out: &mut String,
    lines: I,
) -> io::Result<()>
    requires can { I.can_next lines }
    requires ends { IsFinite (I.remaining lines) }
{
    for line in lines {
        out.writeln(line)?;
    }
    Ok(())
}

fn push_points<R: CornerRule>(out: &mut String, sheet: &Sheet<R>) -> io::Result<()> {
    let points = sheet.points().iter().enumerate();
    push_lines(
        out,
        points.map(|(index, point)| PointLine {
            index,
            point: *point,
        }),
    )
}

// The segments of an axis as they were built.
fn push_built(out: &mut String, dimension: Dimension, segments: &[Segment]) -> io::Result<()> {
    push_lines(
        out,
        segments.iter().enumerate().map(|(index, segment)| BuiltLine {
            dimension,
            index,
            segment,
        }),
    )
}

// What linking made of them.
fn push_linked(out: &mut String, dimension: Dimension, segments: &[Segment]) -> io::Result<()> {
    push_lines(
        out,
        segments.iter().enumerate().map(|(index, segment)| LinkedLine {
            dimension,
            index,
            segment,
        }),
    )
}

// The segments of an axis as they were built, and then what linking made of them.
pub fn push_segments(
    out: &mut String,
    dimension: Dimension,
    segments: &[Segment],
) -> io::Result<()> {
    push_built(out, dimension, segments)?;
    push_linked(out, dimension, segments)
}

fn push_unread(out: &mut String, dimension: Dimension, fault: ReadFault) -> io::Result<()> {
    writeln!(out, "{dimension} answer {}", fault.number())?;
    Ok(())
}

fn push_answer<R: CornerRule>(
    out: &mut String,
    sheet: &Sheet<R>,
    dimension: Dimension,
    count: usize,
) -> io::Result<()> {
    out.writeln(AnswerLine {
        dimension,
        count,
        major: sheet.major_direction(dimension),
    })?;
    Ok(())
}

// What an axis answers, and its segments by one reading: as they were built, and as it links them.
fn push_axis<R: CornerRule>(
    out: &mut String,
    sheet: &Sheet<R>,
    dimension: Dimension,
    table: &mut [Segment],
) -> io::Result<()> {
    match sheet.read(dimension, table) {
        Ok(count) => {
            push_answer(out, sheet, dimension, count)?;
            push_segments(out, dimension, &table[..count])
        }
        Err(fault) => push_unread(out, dimension, fault),
    }
}

// The same, each by a call of its own: its segments as they are built, and then as a reading links them.
fn push_axis_twice<R: CornerRule>(
    out: &mut String,
    sheet: &Sheet<R>,
    dimension: Dimension,
    table: &mut [Segment],
) -> io::Result<()> {
    match sheet.build(dimension, table) {
        Ok(count) => {
            push_answer(out, sheet, dimension, count)?;
            push_built(out, dimension, &table[..count])?;
        }
        Err(fault) => return push_unread(out, dimension, fault),
    }
    match sheet.read(dimension, table) {
        Ok(count) => push_linked(out, dimension, &table[..count]),
        Err(fault) => push_unread(out, dimension, fault),
    }
}

// The counts and the orientation of a sheet, and its points.
fn head_text<R: CornerRule>(heap: Global, sheet: &Sheet<R>) -> io::Result<String> {
    let mut out = String::new(heap);
    out.writeln(SheetLine {
        points: sheet.point_count(),
        contours: sheet.contour_count(),
        orientation: sheet.orientation(),
    })?;
    push_points(&mut out, sheet)?;
    Ok(out)
}

// The whole text of a sheet: its counts and orientation, its points, and both axes, each read once.
pub fn sheet_text<R: CornerRule>(heap: Global, sheet: &Sheet<R>) -> io::Result<String> {
    let mut out = head_text(heap, sheet)?;
    let mut table = vec![in heap; Segment::blank(); TABLE_LEN]?;
    push_axis(&mut out, sheet, Dimension::Horizontal, &mut table)?;
    push_axis(&mut out, sheet, Dimension::Vertical, &mut table)?;
    Ok(out)
}

// The same text, for which each axis is built and then read, so that a comparison covers both calls.
pub fn built_sheet_text<R: CornerRule>(heap: Global, sheet: &Sheet<R>) -> io::Result<String> {
    let mut out = head_text(heap, sheet)?;
    let mut table = vec![in heap; Segment::blank(); TABLE_LEN]?;
    push_axis_twice(&mut out, sheet, Dimension::Horizontal, &mut table)?;
    push_axis_twice(&mut out, sheet, Dimension::Vertical, &mut table)?;
    Ok(out)
}
