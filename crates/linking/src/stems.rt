// Links and serifs, from what each segment chose.
ghost use Rattle.std.specs.Prelude.{◌≡◌, ℕ, ◌<◌, ◌≤◌, length, Some, slice_set};
ghost use Rattle.linking.specs.Choices.{at as entry_at};
ghost use Rattle.linking.specs.Links.{linked_table};
ghost use Rattle.linking.specs.Passes.{Shows, released, settled, held_choice, Unsettled};

use crate::choices::choose;
use crate::rules::Rule;
use segments::Segment;

// A link of entry i that is not returned goes, and the partner's link becomes the serif.
fn release(table: &mut [Segment], i: usize)
    requires i_in_bounds { (i < length table.old) × (length table.old ≤ 1001) }
    requires by_index { (t : ℕ) → (entry_at table.old i).link ≡ Some t → t < length table.old }
    ensures { table.new ≡ slice_set table.old i (released (entry_at table.old) i (entry_at table.old i).link) }
{
    let Some(t) = table[i].link else {
        return;
    };
    let other = table[t as usize].link;
    if other != Some(i as u16) {
        let segment = &mut table[i];
        segment.link = None;
        segment.serif = other;
    }
}

// Links that are not returned go, in index order, so that a later entry reads what an earlier one was left.
fn settle(table: &mut [Segment])
    requires unsettled { Unsettled table.old }
    requires few { length table.old ≤ 1001 }
    ensures { Shows (length table.old) (settled (held_choice table.old) (entry_at table.old)) table.new }
{
    // by index: each turn reads one entry and writes another
    for i in 0..table.len() {
        release(table, i);
    }
}

// The whole linking of a table.
pub fn link_by_rule(table: &mut [Segment], rule: &Rule)
    requires { length table.old ≤ 1001 }
    ensures { table.new ≡ linked_table rule.now (length table.old) table.old }
{
    choose(table, rule);
    settle(table);
}
