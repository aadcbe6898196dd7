//! Pairs by addresses.
ghost use Rattle.std.specs.Prelude.{◌≡◌, ◌≤◌, Bool, List, IfOk, count_by, length, slice_get};
ghost use Rattle.native_pairs.specs.Pairs.{IsPairedByAddress, is_between, lies_in};

use crate::part::Part;
use std::alloc::{AllocError, Global};

/// Whether an address lies from one on and before another, where all three are known.
fn is_between(border: Option<u64>, from: Option<u64>, to: Option<u64>) -> bool
    ensures { result ≡ is_between border from to }
{
    match (border, from, to) {
        (Some(border), Some(from), Some(to)) => from <= border && border < to,
        _ => false,
    }
}

/// Whether a run lies in a part, by its border; no run does.
fn lies_in(part: Part, run: Option<Option<u64>>) -> bool
    ensures { result ≡ lies_in (Some part) run }
{
    match run {
        Some(border) => part.is_own && is_between(border, part.from, part.to),
        None => false,
    }
}

/// The border of the run of a number, if there is such a run.
fn border_at(borders: &[Option<u64>], run: usize) -> Option<Option<u64>>
    ensures { result ≡ slice_get borders.now run }
{
    borders.get(run).copied()
}

/// See `pair_by_address`.
fn pairs_of(alloc: Global, parts: &[Part], borders: &[Option<u64>]) -> Result<Vec<bool>, AllocError>
    ensures { IfOk result (λ takes. IsPairedByAddress parts.now borders.now takes.items) }
{
    let mut takes = Vec::new(alloc);
    let mut next = 0;
    for part in parts {
        let has_run = lies_in(*part, border_at(borders, next));
        takes.push(has_run)?;
        if has_run {
            next += 1;
        }
    }
    Ok(takes)
}

/// Which native frames have a run: of some native frames of a thread, from the newest on, and of its runs by their
/// borders, from the newest on, whether each native frame has one. It has the next run where that run's border lies in
/// its part of the stack; runs that are left over have no native frame.
///
/// There is one answer alone. The one error is out of memory.
pub fn pair_by_address(
    alloc: Global,
    parts: &[Part],
    borders: &[Option<u64>],
) -> Result<Vec<bool>, AllocError>
    ensures right { IfOk result (λ takes. IsPairedByAddress parts.now borders.now takes.items) }
    ensures only { (other : List Bool) → IsPairedByAddress parts.now borders.now other
        → IfOk result (λ takes. takes.items ≡ other) }
    // each run is had once at most
    ensures once { IfOk result (λ takes. count_by (λ t. t) takes.items ≤ length borders.now) }
{
    pairs_of(alloc, parts, borders)
}
