//! Pieces of ranges of addresses.
ghost use Rattle.std.specs.Prelude.{◌≡◌, ◌+◌, ◌-◌, ◌<◌, ◌≤◌, ◌^◌, All, IfOk, filter, nat_lt};
ghost use Rattle.core_slim.specs.Joined.{Ascends, AreJoined, EndsInTime, both, joined};

use process_memory::Span;
use std::alloc::{AllocError, Global};

/// Those of some ranges that have an address.
fn occupied(alloc: Global, ranges: &[Span]) -> Result<Vec<Span>, AllocError>
    ensures { IfOk result (λ some. some.items ≡ filter (λ range. nat_lt 0 range.len) ranges.now) }
{
    ranges
        .iter()
        .copied()
        .filter(|range| 0 < range.len)
        .collect(alloc)
}

/// Both of two ranges, where the second one begins in the first or where that ends.
fn both(first: Span, second: Span) -> Span
    requires ascends { first.start ≤ second.start }
    requires fits { second.start + second.len ≤ 2 ^ 64 - 1 }
    ensures { result ≡ both first second }
{
    Span {
        start: first.start,
        len: first.len.max(second.start + second.len - first.start),
    }
}

/// The pieces of a range and of others, in the order of their starts, that begin where it does or behind.
fn join(alloc: Global, first: Span, others: &[Span]) -> Result<Vec<Span>, AllocError>
    requires some { 0 < first.len }
    requires ascends { Ascends first.start others.now }
    requires first_fits { EndsInTime first }
    requires fit { All EndsInTime others.now }
    ensures { IfOk result (λ pieces. pieces.items ≡ joined first others.now) }
{
    let mut pieces = Vec::new(alloc);
    let mut last = first;
    for range in others {
        if range.start <= last.start + last.len {
            last = both(last, *range);
        } else {
            pieces.push(last)?;
            last = *range;
        }
    }
    pieces.push(last)?;
    Ok(pieces)
}

/// The pieces of some ranges: the longest intervals of addresses that all lie in some range, in ascending order.
/// It takes the time of a sort of the ranges. The one error is out of memory.
pub(crate) fn joined_pieces(alloc: Global, ranges: &[Span]) -> Result<Vec<Span>, AllocError>
    requires { All EndsInTime ranges.now }
    ensures { IfOk result (λ pieces. AreJoined ranges.now pieces.items) }
{
    let mut sorted = occupied(alloc, ranges)?;
    sorted.sort_unstable_by_key(|range| range.start);
    match sorted.split_first() {
        Some((first, others)) => join(alloc, *first, others),
        None => Ok(Vec::new(alloc)),
    }
}
