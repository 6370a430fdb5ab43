// What each segment chooses, found in place.
ghost use Rattle.std.specs.Prelude.{◌≡◌, ◌<◌, ◌≤◌, length, None};
ghost use Rattle.linking.specs.Choices.{at as entry_at, holding};
ghost use Rattle.linking.specs.Passes.{offered, met, entry as choice_entry, Passes, Shows};
ghost use Rattle.linking.specs.Rules.{pair_score};

use crate::rules::Rule;
use segments::{NO_SCORE, Segment};

// A segment is offered a partner at a score, and stores it where the score is lower than its own: at an equal one the first one met stays.
fn offer(segment: &mut Segment, to: u16, score: u32)
    ensures { segment.new ≡ offered segment.old to score }
{
    if score < segment.score {
        segment.score = score;
        segment.link = Some(to);
    }
}

// The segments i and j meet: partners are offered each other.
fn meet(first: &mut Segment, second: &mut Segment, i: u16, j: u16, rule: &Rule)
    ensures first { first.new ≡ met first.old j (pair_score rule.now first.old second.old) }
    ensures second { second.new ≡ met second.old i (pair_score rule.now first.old second.old) }
{
    if let Some(score) = rule.score(first, second) {
        offer(first, j, score);
        offer(second, i, score);
    }
}

// Old scores, links and serifs go.
fn erase(table: &mut [Segment])
    ensures { Shows (length table.old) (λ k. holding (entry_at table.old k) 32000 None None) table.new }
{
    for segment in table.iter_mut() {
        segment.score = NO_SCORE;
        segment.link = None;
        segment.serif = None;
    }
}

// Segment i, if it is of the major direction, meets each segment.
fn pass(table: &mut [Segment], i: usize, rule: &Rule)
    requires { (i < length table.old) × (length table.old ≤ 1001) }
    ensures { Passes rule.now i table.old table.new }
{
    let mut first = table[i];
    if first.dir != rule.major {
        return;
    }
    for (j, second) in table.iter_mut().enumerate() {
        meet(&mut first, second, i as u16, j as u16, rule);
    }
    table[i] = first;
}

// Every pass, after which each has its choice as its link, and its score.
pub fn choose(table: &mut [Segment], rule: &Rule)
    requires { length table.old ≤ 1001 }
    ensures { Shows (length table.old) (choice_entry rule.now (entry_at table.old) (length table.old)) table.new }
{
    erase(table);
    // by index: each pass reads and writes the whole table
    for i in 0..table.len() {
        pass(table, i, rule);
    }
}
