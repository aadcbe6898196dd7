//! Both lists in one.
ghost use Rattle.std.specs.Prelude.{◌≡◌, ◌≤◌, ◌+◌, ◌++◌, nat_eq, IfOk, OnOk, length, sum};
ghost use Rattle.native_pairs.specs.Items.{apart_items, behind_mark, merged_items, natives, natives_in, numbers};
ghost use Rattle.native_pairs.specs.Items.{pythons, pythons_in, rest_if, size_if};

use std::alloc::{AllocError, Global};

/// What stands in one stack of Python's frames and native ones.
#[derive(Clone, Copy, Debug, PartialEq, Eq)]
pub enum Item {
    /// The Python frame of this number.
    Python(usize),
    /// The native frame of this number.
    Native(usize),
    /// That native frames are not found for the Python frames that follow.
    NotFound,
    /// That nothing tells where between the native frames the Python frames belong that follow.
    Beside,
}

/// The next run's size and those behind it, where a native frame has one.
fn take_run(has_run: bool, runs: &[usize]) -> (usize, &[usize])
    ensures size { result.0 ≡ size_if has_run runs.now }
    ensures rest { result.1.now ≡ rest_if has_run runs.now }
{
    if !has_run {
        return (0, runs);
    }
    match runs.split_first() {
        Some((size, rest)) => (*size, rest),
        None => (0, runs),
    }
}

/// Adds so many Python frames, from a number on, and answers the number behind them.
fn push_pythons(items: &mut Vec<Item>, from: usize, count: usize) -> Result<usize, AllocError>
    requires few { from ≤ length items.old.items }
    ensures adds { OnOk result (items.new.items ≡ items.old.items ++ pythons from count) }
    ensures next { IfOk result (λ next. next ≡ from + count) }
    ensures few { IfOk result (λ next. next ≤ length items.new.items) }
{
    let mut next = from;
    for _ in 0..count {
        items.push(Item::Python(next))?;
        next += 1;
    }
    Ok(next)
}

/// Adds the Python frames of some runs, from a number on.
fn push_runs(items: &mut Vec<Item>, from: usize, runs: &[usize]) -> Result<(), AllocError>
    requires few { from ≤ length items.old.items }
    ensures { OnOk result (items.new.items ≡ items.old.items ++ pythons from (sum runs.now)) }
{
    let mut next = from;
    for size in runs {
        next = push_pythons(items, next, *size)?;
    }
    Ok(())
}

/// Whether no run has a Python frame.
fn are_empty(runs: &[usize]) -> bool
    ensures { result ≡ nat_eq (sum runs.now) 0 }
{
    for size in runs {
        if *size != 0 {
            return false;
        }
    }
    true
}

/// Adds the Python frames of some runs, from a number on, behind what is said of them; nothing where there are none.
fn push_behind(
    items: &mut Vec<Item>,
    mark: Item,
    from: usize,
    runs: &[usize],
) -> Result<(), AllocError>
    requires few { from ≤ length items.old.items }
    ensures { OnOk result (items.new.items ≡ items.old.items ++ behind_mark mark from (sum runs.now)) }
{
    if are_empty(runs) {
        return Ok(());
    }
    items.push(mark)?;
    push_runs(items, from, runs)
}

/// See `merged_items`.
fn merge(alloc: Global, takes: &[bool], runs: &[usize]) -> Result<Vec<Item>, AllocError>
    ensures { IfOk result (λ items. items.items ≡ merged_items takes.now runs.now) }
{
    let mut items = Vec::new(alloc);
    let mut left = runs;
    let mut python = 0;
    for (native, has_run) in takes.iter().enumerate() {
        let (size, rest) = take_run(*has_run, left);
        python = push_pythons(&mut items, python, size)?;
        items.push(Item::Native(native))?;
        left = rest;
    }
    push_behind(&mut items, Item::NotFound, python, left)?;
    Ok(items)
}

/// One stack of the Python frames and the native ones of a thread, the newest first, by which of the native frames have
/// a run (`pair_by_address`, `pair_by_order`), and how many Python frames each run has: the Python frames of a run
/// stand in front of its native frame. Those of runs that no native frame has stand last, behind a mark.
///
/// Each frame is there once, and in its order. The one error is out of memory.
pub fn merged_items(alloc: Global, takes: &[bool], runs: &[usize]) -> Result<Vec<Item>, AllocError>
    ensures merged { IfOk result (λ items. items.items ≡ merged_items takes.now runs.now) }
    ensures pythons { IfOk result (λ items. pythons_in items.items ≡ numbers (sum runs.now)) }
    ensures natives { IfOk result (λ items. natives_in items.items ≡ numbers (length takes.now)) }
{
    merge(alloc, takes, runs)
}

/// So many native frames.
fn native_items(alloc: Global, frames: usize) -> Result<Vec<Item>, AllocError>
    ensures { IfOk result (λ items. items.items ≡ natives 0 frames) }
{
    let mut items = Vec::new(alloc);
    for native in 0..frames {
        items.push(Item::Native(native))?;
    }
    Ok(items)
}

/// The native frames of a thread, and then its Python frames behind a mark: what is shown where nothing tells which
/// native frame has which run.
///
/// Each frame is there once, and in its order. The one error is out of memory.
pub fn apart_items(alloc: Global, frames: usize, runs: &[usize]) -> Result<Vec<Item>, AllocError>
    ensures apart { IfOk result (λ items. items.items ≡ apart_items frames runs.now) }
    ensures pythons { IfOk result (λ items. pythons_in items.items ≡ numbers (sum runs.now)) }
    ensures natives { IfOk result (λ items. natives_in items.items ≡ numbers frames) }
{
    let mut items = native_items(alloc, frames)?;
    push_behind(&mut items, Item::Beside, 0, runs)?;
    Ok(items)
}
