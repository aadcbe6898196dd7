//! The tasks that tasks wait for.
ghost use Rattle.std.specs.Prelude.{◌≡◌, ℕ, ◌↔◌, IfOk, List, Option, map};
ghost use Rattle.std.specs.List.{Contains, filter};
ghost use Rattle.std.specs.BTreeSet.{contains};
ghost use Rattle.std.specs.Ordering.{nat_cmp};
ghost use Rattle.task_edges.specs.Edges.{sources_in};
ghost use Rattle.task_edges.specs.Leading.{before};
ghost use Rattle.task_edges.specs.Waits.{AllWait, AreWaits, IsWaits, WaitsFor, answer_of, task_of};

use crate::edges::{Edge, index_of};
use crate::search::search;
use std::alloc::{AllocError, Global};
use std::collections::{BTreeMap, BTreeSet};

/// A task, and what it waits for.
#[derive(Debug, Clone, Copy, Drop, PartialEq, Eq)]
pub struct Waiting {
    /// The address of the task.
    pub task: u64,
    /// The address of the future or task that it waits for; none where it doesn't wait.
    pub waiter: Option<u64>,
}

/// The tasks that a task waits for.
#[derive(Debug, Drop)]
pub enum Waits {
    /// These, in the order in which all tasks were given.
    Tasks(Vec<u64>),
    /// More objects than the limit lead to what it waits for.
    TooMany,
}

/// The addresses of the tasks.
fn tasks_of(alloc: Global, waiting: &[Waiting]) -> Result<BTreeSet<u64>, AllocError>
    ensures { IfOk result (λ tasks. (a : ℕ) → Contains tasks.keys a ↔ Contains (map task_of waiting.now) a) }
{
    let mut tasks = BTreeSet::new(alloc);
    for one in waiting {
        tasks.insert(one.task)?;
    }
    Ok(tasks)
}

/// Those of the tasks that are among some addresses, in their order.
fn tasks_among(
    alloc: Global,
    waiting: &[Waiting],
    addresses: &BTreeSet<u64>,
) -> Result<Vec<u64>, AllocError>
    ensures { IfOk result (λ list. list.items ≡ filter (contains nat_cmp addresses.now) (map task_of waiting.now)) }
{
    let mut list = Vec::new(alloc);
    for one in waiting {
        if addresses.contains(&one.task) {
            list.push(one.task)?;
        }
    }
    Ok(list)
}

/// The tasks that lead to an object.
fn waits_at(
    alloc: Global,
    index: &BTreeMap<u64, Vec<u64>>,
    tasks: &BTreeSet<u64>,
    waiting: &[Waiting],
    limit: usize,
    waiter: u64,
) -> Result<Waits, AllocError>
    ensures { IfOk result (λ waits. IsWaits (before (sources_in index.now) tasks.now.keys) (map task_of waiting.now)
        limit waiter (answer_of waits)) }
{
    let found = search(alloc, index, tasks, limit, waiter)?;
    match found {
        None => Ok(Waits::TooMany),
        Some(met) => {
            let list = tasks_among(alloc, waiting, &met)?;
            Ok(Waits::Tasks(list))
        }
    }
}

/// The tasks that a task waits for, where it waits.
fn waits_for(
    alloc: Global,
    index: &BTreeMap<u64, Vec<u64>>,
    tasks: &BTreeSet<u64>,
    waiting: &[Waiting],
    limit: usize,
    waiter: Option<u64>,
) -> Result<Waits, AllocError>
    ensures { IfOk result (λ waits. WaitsFor (before (sources_in index.now) tasks.now.keys) (map task_of waiting.now)
        limit waiter (answer_of waits)) }
{
    match waiter {
        None => Ok(Waits::Tasks(Vec::new(alloc))),
        Some(waiter) => waits_at(alloc, index, tasks, waiting, limit, waiter),
    }
}

/// The same of each.
fn all_waits(
    alloc: Global,
    index: &BTreeMap<u64, Vec<u64>>,
    tasks: &BTreeSet<u64>,
    waiting: &[Waiting],
    limit: usize,
) -> Result<Vec<Waits>, AllocError>
    ensures { IfOk result (λ list. AllWait (before (sources_in index.now) tasks.now.keys) (map task_of waiting.now)
        limit waiting.now (map answer_of list.items)) }
{
    let mut list = Vec::new(alloc);
    for one in waiting {
        let waits = waits_for(alloc, index, tasks, waiting, limit, one.waiter)?;
        list.push(waits)?;
    }
    Ok(list)
}

/// The tasks that each of some tasks waits for, in their order.
///
/// An object leads to another one where edges go from it to that one, behind one another, and none that they come to is
/// a task but maybe the last; each leads to itself. A task waits for those of `waiting` that lead to its waiter: so for
/// that alone where it is a task. They stand in the order of `waiting`. `TooMany` comes exactly where more than `limit`
/// objects lead to the waiter. Where tasks wait in a ring, each waits for the next one.
///
/// The one error is out of memory.
pub fn waits_of(
    alloc: Global,
    edges: &[Edge],
    waiting: &[Waiting],
    limit: usize,
) -> Result<Vec<Waits>, AllocError>
    ensures right { IfOk result (λ list. AreWaits edges.now waiting.now limit (map answer_of list.items)) }
    ensures only { (other : List (Option (List ℕ))) → AreWaits edges.now waiting.now limit other
        → IfOk result (λ list. map answer_of list.items ≡ other) }
{
    let index = index_of(alloc, edges)?;
    let tasks = tasks_of(alloc, waiting)?;
    all_waits(alloc, &index, &tasks, waiting, limit)
}
