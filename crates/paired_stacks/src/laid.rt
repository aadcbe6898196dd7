//! The Python frames of a thread and its native ones in one stack.
ghost use Rattle.std.specs.Prelude.{◌≡◌, IfOk, List, length, map};
ghost use Rattle.std.specs.List.{sum};
ghost use Rattle.native_pairs.specs.Items.{merged_items};
ghost use Rattle.paired_stacks.specs.Laid.{IsApart, IsByAddress, IsByOrder, IsLaid, IsLaidIf, size_of, total_of};

use crate::runs::{are_all, borders_of, sizes_of};
use native_pairs::{Item, Part, apart_items, merged_items, pair_by_address, pair_by_order};
use py_runs::{Run, RunEnd};
use std::alloc::{AllocError, Global};

/// By what the Python frames of a thread and its native ones stand in one stack.
#[derive(Clone, Copy, Debug, PartialEq, Eq)]
pub enum Pairing {
    /// By where the borders of its runs lie: from 3.11 on.
    Address,
    /// By the order of both: up to 3.10.
    Order,
    /// By nothing: the native ones stand first, and then Python's.
    Apart,
}

/// One stack of both.
#[derive(Drop)]
pub(crate) struct OneStack {
    pub(crate) pairing: Pairing,
    pub(crate) items: Vec<Item>,
}

/// One below the other.
fn apart(alloc: Global, natives: usize, frames: [usize; 3]) -> Result<OneStack, AllocError>
    ensures { IfOk result (λ laid. IsApart natives frames laid.pairing laid.items.items) }
{
    let items = apart_items(alloc, natives, &frames)?;
    Ok(OneStack {
        pairing: Pairing::Apart,
        items,
    })
}

/// By which native frames have a run.
fn merged(
    alloc: Global,
    pairing: Pairing,
    takes: &[bool],
    sizes: &[usize],
) -> Result<OneStack, AllocError>
    ensures pairing { IfOk result (λ laid. laid.pairing ≡ pairing) }
    ensures items { IfOk result (λ laid. laid.items.items ≡ merged_items takes.now sizes.now) }
{
    let items = merged_items(alloc, takes, sizes)?;
    Ok(OneStack { pairing, items })
}

/// By the order of both, where the numbers allow it.
fn by_order(
    alloc: Global,
    steps: &[bool],
    sizes: &[usize],
    frames: [usize; 3],
) -> Result<OneStack, AllocError>
    ensures { IfOk result (λ laid. IsByOrder steps.now sizes.now frames laid.pairing laid.items.items) }
{
    match pair_by_order(alloc, steps, sizes.len())? {
        Some(takes) => merged(alloc, Pairing::Order, &takes, sizes),
        None => apart(alloc, steps.len(), frames),
    }
}

/// By where the borders of the runs lie.
fn by_address(
    alloc: Global,
    parts: &[Part],
    sizes: &[usize],
    runs: &[Run],
) -> Result<OneStack, AllocError>
    ensures { IfOk result (λ laid. IsByAddress parts.now sizes.now runs.now laid.pairing laid.items.items) }
{
    let borders = borders_of(alloc, runs)?;
    let takes = pair_by_address(alloc, parts, &borders)?;
    merged(alloc, Pairing::Address, &takes, sizes)
}

/// By what tells where a run ends.
fn laid_by(
    alloc: Global,
    end: RunEnd,
    parts: &[Part],
    steps: &[bool],
    sizes: &[usize],
    runs: &[Run],
    frames: [usize; 3],
) -> Result<OneStack, AllocError>
    ensures { IfOk result (λ laid. IsLaid end parts.now steps.now sizes.now runs.now frames laid.pairing
        laid.items.items) }
{
    match end {
        RunEnd::Each => by_order(alloc, steps, sizes, frames),
        RunEnd::Entry { .. } => by_address(alloc, parts, sizes, runs),
        RunEnd::Shim { .. } => by_address(alloc, parts, sizes, runs),
    }
}

fn total_of(frames: [usize; 3]) -> u128
    ensures { result ≡ total_of frames }
{
    frames[0] as u128 + frames[1] as u128 + frames[2] as u128
}

/// The same, where the runs have as many Python frames as are told of the thread.
pub(crate) fn laid(
    alloc: Global,
    end: RunEnd,
    parts: &[Part],
    steps: &[bool],
    runs: &[Run],
    frames: [usize; 3],
) -> Result<OneStack, AllocError>
    ensures { IfOk result (λ laid. IsLaidIf end parts.now steps.now runs.now frames laid.pairing laid.items.items) }
{
    let sizes = sizes_of(alloc, runs)?;
    if are_all(&sizes, total_of(frames)) {
        laid_by(alloc, end, parts, steps, &sizes, runs, frames)
    } else {
        apart(alloc, steps.len(), frames)
    }
}

/// One below the other, where nothing tells where runs end.
pub(crate) fn laid_apart(
    alloc: Global,
    natives: usize,
    frames: [usize; 3],
) -> Result<OneStack, AllocError>
    ensures { IfOk result (λ laid. IsApart natives frames laid.pairing laid.items.items) }
{
    apart(alloc, natives, frames)
}
