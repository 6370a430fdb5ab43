// A stored day: a line `day` with the settings and the corner rule; for each call a line, and a line `=` with
// its answer; a line `end` with the digest of what the sheet then holds.
use crate::clean::compare_clean;
use crate::counts::Counts;
use crate::digests::Digest;
use crate::plays::play_line;
use anyhow::anyhow;
use outline::Settings;
use sheet::Sheet;
use std::alloc::Global;
use telling::{Tally, sheet_text};
use unscaled::{CornerCode, Header};

// What came of a day: its counts, and the first of the lines that differ.
#[derive(Drop)]
pub struct DayPlayed {
    pub counts: Counts,
    pub differing: String,
}

fn stored_answer(line: &str) -> anyhow::Result<&str> {
    line.strip_prefix("= ")
        .ok_or_else(|| anyhow!("a call is followed by its answer"))
}

// Plays each call, and compares its answer with the line after it.
fn play_calls(
    heap: Global,
    sheet: &mut Sheet<CornerCode>,
    calls: &[String],
    counts: &mut Counts,
    tally: &mut Tally,
) -> anyhow::Result<()> {
    for pair in calls.chunks(2) {
        let [call, answer] = pair else {
            return Err(anyhow!("a call is followed by its answer"));
        };
        let own = play_line(heap, sheet, call.as_str())?;
        counts.add_call(own.outcome);
        tally.compare(stored_answer(answer.as_str())?, own.text.as_str())?;
    }
    Ok(())
}

fn compare_end(
    heap: Global,
    sheet: &Sheet<CornerCode>,
    end: &str,
    tally: &mut Tally,
) -> anyhow::Result<()> {
    let whole = sheet_text(heap, sheet)?;
    let own = Digest::of(whole.as_str()).to_string(heap)?;
    tally.compare(end.strip_prefix("end ").unwrap_or(""), own.as_str())?;
    Ok(())
}

// A day on a sheet with the settings and the rule of its head.
fn play_day(heap: Global, head: Header, calls: &[String], end: &str) -> anyhow::Result<DayPlayed> {
    let mut sheet = Sheet::new(heap, head.settings, head.corner)?;
    let mut counts = Counts::default();
    let mut tally = Tally::new(heap, "text");
    play_calls(heap, &mut sheet, calls, &mut counts, &mut tally)?;
    compare_end(heap, &sheet, end, &mut tally)?;
    compare_clean(heap, &mut sheet, &mut tally)?;
    counts.add_differences(tally.differences());
    Ok(DayPlayed {
        counts,
        differing: String::from_str(heap, tally.differing_lines())?,
    })
}

fn read_settings(units: &str, width: &str) -> anyhow::Result<Settings> {
    Settings::new(units.parse()?, width.parse()?).map_err(|_| anyhow!(
        "a day's settings are refused"
    ))
}

// A `match`: the words are this program's, and stand here where it reads them.
fn read_corner(word: &str) -> anyhow::Result<CornerCode> {
    match word {
        "jit" => Ok(CornerCode::Jit),
        "aot" => Ok(CornerCode::Aot),
        _ => Err(anyhow!("a corner rule is jit or aot")),
    }
}

// What the line `day` says.
fn read_head(heap: Global, line: &str) -> anyhow::Result<Header> {
    let words: Vec<&str> = line.split_whitespace().collect(heap)?;
    match words.as_slice() {
        [_, units, width, corner] => Ok(Header {
            settings: read_settings(units, width)?,
            corner: read_corner(corner)?,
        }),
        _ => Err(anyhow!("a day begins with units, width and corner rule")),
    }
}

// Plays the day that these lines tell.
pub fn play_stored(heap: Global, lines: &[String]) -> anyhow::Result<DayPlayed> {
    let Some((first, after)) = lines.split_first() else {
        return Err(anyhow!("a day has a first line"));
    };
    let Some((end, calls)) = after.split_last() else {
        return Err(anyhow!("a day has a last line"));
    };
    let head = read_head(heap, first.as_str())?;
    play_day(heap, head, calls, end.as_str())
}
