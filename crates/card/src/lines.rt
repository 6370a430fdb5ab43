// Words, and the line that they make.
ghost use Rattle.std.specs.Prelude.{◌≡◌, ◌≤◌, ◌∷◌, length, map};
ghost use Rattle.card.specs.Words.{index_word, round_word};
ghost use Rattle.card.specs.Lines.{line_of};

use arrayvec::ArrayString;
use itoa::{Buffer, Integer};

// As long as the longest count.
pub type Word = ArrayString<20>;

pub type Line = ArrayString<96>;

pub fn word(text: &str) -> Word
    requires { length text.now ≤ 20 }
    ensures value { result.bytes ≡ text.now }
    ensures len { length result.bytes ≡ length text.now }
{
    let mut word = Word::new();
    word.push_str(text);
    word
}

pub fn number<I: Integer>(n: I) -> Word
    requires { I.MAX_STR_LEN ≤ 20 }
    ensures value { result.bytes ≡ I.text n }
    ensures bound { length result.bytes ≤ I.MAX_STR_LEN }
{
    word(Buffer::new().format(n))
}

pub fn index_word(index: Option<u16>) -> Word
    ensures value { result.bytes ≡ index_word index }
    ensures bound { length result.bytes ≤ 5 }
{
    match index {
        Some(i) => number(i),
        None => word("-"),
    }
}

pub fn round_word(round: bool) -> Word
    ensures value { result.bytes ≡ round_word round }
    ensures len { length result.bytes ≡ 1 }
{
    word(if round { "r" } else { "-" })
}

// The words with a space between them, and a newline.
pub fn line_of(first: &str, rest: &[Word]) -> Line
    requires { length (line_of (first.now ∷ map (λ w. w.bytes) rest.now)) ≤ 96 }
    ensures { result.bytes ≡ line_of (first.now ∷ map (λ w. w.bytes) rest.now) }
{
    let mut line = Line::new();
    line.push_str(first);
    for word in rest {
        line.push_str(" ");
        line.push_str(word.as_str());
    }
    line.push_str("\n");
    line
}
