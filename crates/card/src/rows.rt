// The line of a segment, and writing it into the caller's buffer.
ghost use Rattle.std.specs.Prelude.{◌≡◌, ◌+◌, ◌≤◌, ◌++◌, length, drop, decimal, MatchResult};
ghost use Rattle.card.specs.Lines.{Refused, Written, line_of, segment_words};

use crate::faults::CardFault;
use crate::lines::{Line, index_word, line_of, number, round_word, word};
use segments::{Dimension, Segment};

// The least buffer that a line is written into, whatever its length.
const LEAST_BUFFER: usize = 96;

// The line of one segment: 68 bytes and its index at most, whatever the segment holds.
pub fn segment_line(dim: Dimension, index: usize, segment: &Segment) -> Line
    ensures bytes { result.bytes ≡ line_of (segment_words dim index segment.now) }
    ensures bound { length result.bytes ≤ 68 + length (decimal index) }
{
    line_of(
        dim.word(),
        &[
            number(index),
            word(segment.dir.word()),
            number(segment.pos.0),
            number(segment.delta),
            number(segment.min_coord.0),
            number(segment.max_coord.0),
            number(segment.height),
            round_word(segment.round),
            number(segment.score),
            index_word(segment.link),
            index_word(segment.serif),
        ],
    )
}

// Writes the line of one segment to the front of the buffer, and answers its length.
pub fn card_line(
    buffer: &mut [u8],
    dim: Dimension,
    index: u16,
    segment: &Segment,
) -> Result<usize, CardFault>
    ensures { MatchResult result (Written (line_of (segment_words dim index segment.now)) buffer.old buffer.new) (Refused buffer.old buffer.new) }
{
    if buffer.len() < LEAST_BUFFER {
        return Err(CardFault::BufferTooShort);
    }
    let line = segment_line(dim, usize::from(index), segment);
    let bytes = line.as_str().as_bytes();
    buffer[..bytes.len()].copy_from_slice(bytes);
    Ok(bytes.len())
}
