//! Whether entries and addresses stand in order.
ghost use Rattle.std.specs.Prelude.{◌≡◌};
ghost use Rattle.std.specs.List.{list_all};
ghost use Rattle.normalize_core.specs.Order.{adjacent, ascends, ends_before, in_order, is_forward};

use maps_text::MapsEntry;

/// Whether no address is below the one before it.
pub(crate) fn ascends(addrs: &[u64]) -> bool
    ensures { result ≡ ascends addrs.now }
{
    addrs.is_sorted()
}

/// Whether no entry's start passes its end.
fn all_forward(entries: &[MapsEntry]) -> bool
    ensures { result ≡ list_all is_forward entries.now }
{
    entries
        .iter()
        .all(|entry| entry.range.start <= entry.range.end)
}

/// Whether no entry's end passes the start of the next.
fn are_apart(entries: &[MapsEntry]) -> bool
    ensures { result ≡ adjacent ends_before entries.now }
{
    entries.is_sorted_by(|first, second| first.range.end <= second.range.start)
}

/// Whether entries ascend and are disjoint: no entry's start passes its end, and no entry's end passes the start
/// of the next. Normalizing refuses other entries as `EntriesUnsorted`.
pub fn in_order(entries: &[MapsEntry]) -> bool
    ensures { result ≡ in_order entries.now }
{
    all_forward(entries) && are_apart(entries)
}
