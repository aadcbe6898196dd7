//! The registered objects of an interpreter.
ghost use Rattle.std.specs.Prelude.{◌≡◌, ◌+◌, ◌≤◌, ◌^◌, IfOk, map};
ghost use Rattle.process_memory.specs.Seen.{Reads, items_of};
ghost use Rattle.py_fields.specs.Sound.{IsSound};
ghost use Rattle.py_names.specs.NamesError.{names_fault};
ghost use Rattle.task_sets.specs.Registered.{joined, members_at, registered_at, value_of, values_at};

use crate::once::once;
use crate::sets::{SetKind, objects_in};
use crate::tables::{Tables, read_tables};
use crate::{RootPlaces, Roots};
use instance_dicts::{Attribute, InstanceDict, dict_attributes};
use process_memory::ProcessMemory;
use py_fields::Layout;
use py_names::NamesError;
use std::alloc::{AllocError, Global};

/// How many slots of the dict of running tasks are looked at, at most.
const SLOT_LIMIT: u64 = 65536;

/// The values of attributes.
fn values_of(alloc: Global, attributes: &[Attribute]) -> Result<Vec<u64>, AllocError>
    ensures { IfOk result (λ values. values.items ≡ map value_of attributes.now) }
{
    let mut values = Vec::new(alloc);
    for attribute in attributes {
        values.push(attribute.value)?;
    }
    Ok(values)
}

/// The values of a dict, where there is one. At most 131075 reads.
fn read_values<P: ProcessMemory>(
    alloc: Global,
    process: &mut P,
    layout: &Layout,
    places: &RootPlaces,
    root: Option<u64>,
) -> Result<Vec<u64>, NamesError>
    requires sound { IsSound layout.now }
    ensures { Reads names_fault 131075 (P.seen process.old) (P.seen process.new)
        (λ m. values_at layout.now places.now m root) (items_of result) }
{
    match root {
        None => Ok(Vec::new(alloc)),
        Some(at) => {
            let dict = InstanceDict::Dict(at);
            let told = dict_attributes(alloc, process, layout, places.form, dict, SLOT_LIMIT)?;
            let values = values_of(alloc, &told.list)?;
            Ok(values)
        }
    }
}

/// All objects, each once.
fn joined(
    alloc: Global,
    all: &[u64],
    scheduled: &[u64],
    eager: &[u64],
    current: &[u64],
) -> Result<Vec<u64>, AllocError>
    ensures { IfOk result (λ list. list.items ≡ joined all.now scheduled.now eager.now current.now) }
{
    let mut list = Vec::new(alloc);
    list.extend_from_slice(all)?;
    list.extend_from_slice(scheduled)?;
    list.extend_from_slice(eager)?;
    list.extend_from_slice(current)?;
    once(alloc, &list)
}

/// The registered objects, by the entries of the sets and the dict of running tasks. At most 3276803 reads.
fn read_members<P: ProcessMemory>(
    alloc: Global,
    process: &mut P,
    layout: &Layout,
    places: &RootPlaces,
    tables: &Tables,
    current: Option<u64>,
) -> Result<Vec<u64>, NamesError>
    requires sound { IsSound layout.now }
    requires few { tables.now.all.count + tables.now.scheduled.count + tables.now.eager.count ≤ 2 ^ 20 }
    ensures { Reads names_fault 3276803 (P.seen process.old) (P.seen process.new)
        (λ m. members_at layout.now places.now m tables.now current) (items_of result) }
{
    let (first, second, third) = (tables.all, tables.scheduled, tables.eager);
    let sets = &places.sets;
    let all = objects_in(
        alloc,
        process,
        sets,
        SetKind::Weak,
        first.table,
        first.count,
    )?;
    let scheduled = objects_in(
        alloc,
        process,
        sets,
        SetKind::Weak,
        second.table,
        second.count,
    )?;
    let eager = objects_in(
        alloc,
        process,
        sets,
        SetKind::Plain,
        third.table,
        third.count,
    )?;
    let current = read_values(alloc, process, layout, places, current)?;
    let list = joined(alloc, &all, &scheduled, &eager, &current)?;
    Ok(list)
}

/// The registered objects of an interpreter, each once, in the order of first mention: those of the weak references in
/// the sets of `_all_tasks` and `_scheduled_tasks`, the members of `_eager_tasks`, and the values of `_current_tasks`.
///
/// The first fault of a set, a dict or a `WeakSet` is the answer: `Unreadable`, a dict that is none, a name that is no
/// text, or `Entries` where a set has more than 2^20 entries, or all sets together have more, or more than the places'
/// `slots`. A weak reference that is not in memory stands for itself. Else it is out of memory. At most 3309595 reads:
/// 3 for each entry of the sets, 2 for each slot of the dicts.
pub fn read_registered<P: ProcessMemory>(
    alloc: Global,
    process: &mut P,
    layout: &Layout,
    places: &RootPlaces,
    roots: &Roots,
) -> Result<Vec<u64>, NamesError>
    requires sound { IsSound layout.now }
    ensures { Reads names_fault 3309595 (P.seen process.old) (P.seen process.new)
        (λ m. registered_at layout.now places.now m roots.now) (items_of result) }
{
    let tables = read_tables(alloc, process, layout, places, roots)?;
    read_members(alloc, process, layout, places, &tables, roots.current)
}
