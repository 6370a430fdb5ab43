// The whole card as text.
ghost use Rattle.std.specs.Prelude.{◌≡◌, ◌+◌, ◌*◌, ◌<◌, ◌≤◌, [], ◌∷◌, ◌++◌, length, IfOk, string_bytes, string_len, string_capacity, decimal, MatchResult, OnOk};
ghost use Rattle.card.specs.Lines.{line_of};
ghost use Rattle.card.specs.Cards.{card_text, head_words, refused_words, segment_lines};

use crate::lines::{Line, line_of, number, word};
use crate::rows::segment_line;
use crate::stems::stem_count;
use outline::{Orientation, area_word};
use segments::{Dimension, Segment};
use std::alloc::{AllocError, Global};

fn head_line(points: usize, contours: usize, orientation: Option<Orientation>) -> Line
    ensures { result.bytes ≡ line_of (head_words points contours orientation) }
{
    line_of(
        "points",
        &[
            number(points),
            word("contours"),
            number(contours),
            word("area"),
            word(area_word(orientation)),
        ],
    )
}

// A word and a number.
fn count_line(name: &str, n: usize) -> Line
    requires { length name.now ≤ 40 }
    ensures { result.bytes ≡ line_of (name.now ∷ decimal n ∷ []) }
{
    line_of(name, &[number(n)])
}

fn push_line(out: &mut String, line: &Line) -> Result<(), AllocError>
    ensures bytes { OnOk result (string_bytes out.new ≡ string_bytes out.old ++ line.now.bytes) }
    ensures room { MatchResult result (λ _. string_len out.new ≤ string_len out.old + 96) (λ _. string_capacity out.old < string_len out.old + 96) }
    ensures capacity { string_capacity out.old ≤ string_capacity out.new }
{
    out.push_str(line.as_str())
}

// A line for each segment of one axis.
fn push_segments(out: &mut String, dim: Dimension, segments: &[Segment]) -> Result<(), AllocError>
    ensures bytes { OnOk result (string_bytes out.new ≡ string_bytes out.old ++ segment_lines dim 0 segments.now) }
    ensures room { MatchResult result (λ _. string_len out.new ≤ string_len out.old + 96 * length segments.now) (λ _. string_capacity out.old < string_len out.old + 96 * length segments.now) }
    ensures capacity { string_capacity out.old ≤ string_capacity out.new }
{
    for (index, segment) in segments.iter().enumerate() {
        push_line(out, &segment_line(dim, index, segment))?;
    }
    Ok(())
}

// What the card of an outline tells: its counts, its orientation and its finished readings.
#[derive(Clone, Copy)]
pub struct Card<'a> {
    pub points: usize,
    pub contours: usize,
    pub orientation: Option<Orientation>,
    pub horizontal: &'a [Segment],
    pub vertical: &'a [Segment],
}

impl Card<'_> {
    // The card in place of what a string holds. With room for 96 bytes a line it never fails.
    pub fn text_into(&self, room: String) -> Result<String, AllocError>
        ensures { MatchResult result (λ s. string_bytes s ≡ card_text self.now) (λ _. string_capacity room < 96 * (length self.now.horizontal.now + length self.now.vertical.now + 2)) }
    {
        let mut out = room;
        out.clear();
        push_line(
            &mut out,
            &head_line(self.points, self.contours, self.orientation),
        )?;
        push_segments(&mut out, Dimension::Horizontal, self.horizontal)?;
        push_segments(&mut out, Dimension::Vertical, self.vertical)?;
        let stems = stem_count(self.horizontal) + stem_count(self.vertical);
        push_line(&mut out, &count_line("stems", stems))?;
        Ok(out)
    }

    // The card in a new string.
    pub fn text(&self, heap: Global) -> Result<String, AllocError>
        ensures { IfOk result (λ s. string_bytes s ≡ card_text self.now) }
    {
        self.text_into(String::new(heap))
    }
}

// What is printed where a card is refused, in place of what a string holds.
// With room for 96 bytes it never fails. A number, since the card knows no refusal but its own.
pub fn refused_into(room: String, number: u8) -> Result<String, AllocError>
    ensures { MatchResult result (λ s. string_bytes s ≡ line_of (refused_words number)) (λ _. string_capacity room < 96) }
{
    let mut out = room;
    out.clear();
    push_line(&mut out, &count_line("refused", usize::from(number)))?;
    Ok(out)
}

// The same in a new string.
pub fn refused_text(heap: Global, number: u8) -> Result<String, AllocError>
    ensures { IfOk result (λ s. string_bytes s ≡ line_of (refused_words number)) }
{
    refused_into(String::new(heap), number)
}
