//! The objects that lead to another one.
ghost use Rattle.std.specs.Prelude.{◌≡◌, ℕ, ◌↔◌, IfOk, OnOk};
ghost use Rattle.std.specs.List.{Contains};
ghost use Rattle.task_edges.specs.Edges.{sources_in};
ghost use Rattle.task_edges.specs.Leading.{AddsTo, Expands, Finds, keys_found};

use std::alloc::{AllocError, Global};
use std::collections::{BTreeMap, BTreeSet};

/// Adds the addresses that were not met before.
fn add_new(
    list: &mut Vec<u64>,
    met: &mut BTreeSet<u64>,
    addresses: &[u64],
) -> Result<(), AllocError>
    requires same { (a : ℕ) → Contains met.old.keys a ↔ Contains list.old.items a }
    ensures same { OnOk result ((a : ℕ) → Contains met.new.keys a ↔ Contains list.new.items a) }
    ensures added { OnOk result (AddsTo list.old.items addresses.now list.new.items) }
{
    for address in addresses {
        if !met.contains(address) {
            list.push(*address)?;
            met.insert(*address)?;
        }
    }
    Ok(())
}

/// Adds what completes the object at an address, unless that is a task.
fn expand(
    index: &BTreeMap<u64, Vec<u64>>,
    tasks: &BTreeSet<u64>,
    list: &mut Vec<u64>,
    met: &mut BTreeSet<u64>,
    at: u64,
) -> Result<(), AllocError>
    requires same { (a : ℕ) → Contains met.old.keys a ↔ Contains list.old.items a }
    ensures same { OnOk result ((a : ℕ) → Contains met.new.keys a ↔ Contains list.new.items a) }
    ensures added { OnOk result (Expands (sources_in index.now) tasks.now.keys at list.old.items list.new.items) }
{
    if tasks.contains(&at) {
        return Ok(());
    }
    match index.get(&at) {
        None => Ok(()),
        Some(sources) => add_new(list, met, sources),
    }
}

/// The objects that lead to one, itself too; none where these are more than `limit`.
pub(crate) fn search(
    alloc: Global,
    index: &BTreeMap<u64, Vec<u64>>,
    tasks: &BTreeSet<u64>,
    limit: usize,
    target: u64,
) -> Result<Option<BTreeSet<u64>>, AllocError>
    ensures { IfOk result (λ found. Finds (sources_in index.now) tasks.now.keys limit target (keys_found found)) }
{
    let mut list = Vec::new(alloc);
    let mut met = BTreeSet::new(alloc);
    list.push(target)?;
    met.insert(target)?;
    let mut number = 0;
    'search: while number < list.len() {
        if number == limit {
            return Ok(None);
        }
        let at = list[number];
        expand(index, tasks, &mut list, &mut met, at)?;
        number += 1;
    }
    Ok(Some(met))
}
