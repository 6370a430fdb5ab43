// Counting the stems of a finished table.
ghost use Rattle.std.specs.Prelude.{◌≡◌, ◌≤◌, length};
ghost use Rattle.card.specs.Stems.{Halves, link_at, opens, stem_count};

use segments::Segment;

// The link of entry i; none past the table's end.
fn link_at(segments: &[Segment], i: usize) -> Option<usize>
    ensures { result ≡ link_at segments.now i }
{
    segments.get(i)?.link.map(usize::from)
}

// Whether entry i is the earlier of two that are each other's link.
fn opens_stem(segments: &[Segment], i: usize) -> bool
    ensures { result ≡ opens segments.now i }
{
    link_at(segments, i).is_some_and(|j| i < j && link_at(segments, j) == Some(i))
}

// How many pairs of entries are each other's link.
pub fn stem_count(segments: &[Segment]) -> usize
    ensures value { result ≡ stem_count segments.now }
    ensures halves { Halves segments.now result }
    ensures bound { result ≤ length segments.now }
{
    (0..segments.len())
        .filter(|i| opens_stem(segments, *i))
        .count()
}
