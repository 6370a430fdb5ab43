// Linking the first entries of any table.
ghost use Rattle.std.specs.Prelude.{◌≡◌, ◌≤◌, length, Ok};
ghost use Rattle.linking.specs.declared.linker.LinkFault.TheVariants as fault;
ghost use Rattle.linking.specs.Rules.{rule_of, rule_by};
ghost use Rattle.linking.specs.Links.{linked_table};
ghost use Rattle.linking.specs.Laws.{Linking};
ghost use Rattle.linking.specs.Answers.{number, answer, table_after};
ghost use Rattle.linking.specs.Tried.{Tried};

use crate::rules::Rule;
use crate::stems::link_by_rule;
use outline::{Direction, Settings, SettingsFault};
use segments::{Segment, TABLE_LEN};

// Why a table is not linked.
#[derive(Debug, Clone, Copy, PartialEq, Eq)]
pub enum LinkFault {
    Settings(SettingsFault),
    TooManyEntries,
    TableTooShort,
}

impl From<SettingsFault> for LinkFault {
    ghost from_gives = { λ f r. r ≡ fault.Settings f };

    fn from(f: SettingsFault) -> LinkFault {
        LinkFault::Settings(f)
    }
}

impl LinkFault {
    // The number of the refusal. By a match: two share 16, and one has the number of what it holds.
    pub fn number(self) -> u8
        ensures { result ≡ number self }
    {
        match self {
            LinkFault::Settings(fault) => fault.number(),
            LinkFault::TooManyEntries => 16,
            LinkFault::TableTooShort => 16,
        }
    }
}

// Scores and links the first n entries, at checked settings.
pub fn link_segments(table: &mut [Segment], n: usize, settings: &Settings, major: Direction)
    requires { (n ≤ length table.old) × (n ≤ 1001) }
    ensures table { table.new ≡ linked_table (rule_by settings.now major) n table.old }
    ensures linking { Linking (rule_by settings.now major) n table.old table.new }
{
    let rule = Rule::new(settings, major);
    link_by_rule(&mut table[..n], &rule);
}

// Scores and links the first n entries; a refusal leaves the table as it was.
// No slice in place of n: that n lies past the table's end is one of the refusals.
pub fn link(
    table: &mut [Segment],
    n: usize,
    units: u16,
    width: u16,
    major: Direction,
) -> Result<(), LinkFault>
    ensures answer { result ≡ answer units width n (length table.old) }
    ensures after { table.new ≡ table_after units width major n table.old }
    ensures linking { result ≡ Ok tt → Linking (rule_of units width major) n table.old table.new }
{
    let settings = Settings::new(units, width)?;
    if n > TABLE_LEN {
        return Err(LinkFault::TooManyEntries);
    }
    if n > table.len() {
        return Err(LinkFault::TableTooShort);
    }
    link_segments(table, n, &settings, major);
    Ok(())
}

// The tried values stand.
pub fn tried_stands()
    ensures { Tried }
{}
