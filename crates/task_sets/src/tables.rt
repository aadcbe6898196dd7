//! The entries of the sets in which an interpreter's tasks are registered.
ghost use Rattle.std.specs.Prelude.{◌≡◌, ◌+◌, ◌≤◌, ◌^◌, IfOk};
ghost use Rattle.process_memory.specs.Seen.{Answers, Reads};
ghost use Rattle.py_fields.specs.Sound.{IsSound};
ghost use Rattle.py_names.specs.NamesError.{names_fault};
ghost use Rattle.task_sets.specs.Tables.{data_at, few_of, read_tables_at, tables_at};

use crate::named::read_attribute;
use crate::sets::{ENTRY_LIMIT, Entries, read_table};
use crate::{RootPlaces, Roots};
use process_memory::ProcessMemory;
use py_fields::Layout;
use py_names::NamesError;
use std::alloc::Global;

/// The entries of each set: none of one that is not there.
#[derive(Clone, Copy)]
pub struct Tables {
    pub all: Entries,
    pub scheduled: Entries,
    pub eager: Entries,
}

/// The set of weak references that a `WeakSet` has. At most 16393 reads.
fn read_data<P: ProcessMemory>(
    alloc: Global,
    process: &mut P,
    layout: &Layout,
    places: &RootPlaces,
    root: Option<u64>,
) -> Result<Option<u64>, NamesError>
    requires sound { IsSound layout.now }
    ensures { Reads names_fault 16393 (P.seen process.old) (P.seen process.new)
        (λ m. data_at layout.now places.now m root) result }
{
    match root {
        None => Ok(None),
        Some(at) => read_attribute(alloc, process, layout, places, "data", at),
    }
}

/// The same entries, where they are few enough together.
#[tactic(auto, unfolding(crate::specs::Tables::few_of))]
fn few_of(
    slots: u64,
    all: Entries,
    scheduled: Entries,
    eager: Entries,
) -> Result<Tables, NamesError>
    requires all { all.count ≤ 2 ^ 20 }
    requires scheduled { scheduled.count ≤ 2 ^ 20 }
    requires eager { eager.count ≤ 2 ^ 20 }
    ensures answer { Answers names_fault (few_of slots all scheduled eager) result }
    ensures few { IfOk result (λ tables. tables.all.count + tables.scheduled.count + tables.eager.count ≤ 2 ^ 20) }
{
    let count = all.count + scheduled.count + eager.count;
    if count > slots || count > ENTRY_LIMIT {
        return Err(NamesError::Entries);
    }
    Ok(Tables {
        all,
        scheduled,
        eager,
    })
}

/// The entries of the sets at these addresses. At most 6 reads.
fn read_tables_at<P: ProcessMemory>(
    process: &mut P,
    places: &RootPlaces,
    all: Option<u64>,
    scheduled: Option<u64>,
    eager: Option<u64>,
) -> Result<Tables, NamesError>
    ensures answer { Reads names_fault 6 (P.seen process.old) (P.seen process.new)
        (λ m. read_tables_at places.now m all scheduled eager) result }
    ensures few { IfOk result (λ tables. tables.all.count + tables.scheduled.count + tables.eager.count ≤ 2 ^ 20) }
{
    let all = read_table(process, &places.sets, all)?;
    let scheduled = read_table(process, &places.sets, scheduled)?;
    let eager = read_table(process, &places.sets, eager)?;
    few_of(places.slots, all, scheduled, eager)
}

/// The entries of the sets of an interpreter. At most 32792 reads.
///
/// `Entries` comes where one has more than 2^20 of them, or all together more, or more than the places' `slots`.
pub(crate) fn read_tables<P: ProcessMemory>(
    alloc: Global,
    process: &mut P,
    layout: &Layout,
    places: &RootPlaces,
    roots: &Roots,
) -> Result<Tables, NamesError>
    requires sound { IsSound layout.now }
    ensures answer { Reads names_fault 32792 (P.seen process.old) (P.seen process.new)
        (λ m. tables_at layout.now places.now m roots.now) result }
    ensures few { IfOk result (λ tables. tables.all.count + tables.scheduled.count + tables.eager.count ≤ 2 ^ 20) }
{
    let all = read_data(alloc, process, layout, places, roots.all)?;
    let scheduled = read_data(alloc, process, layout, places, roots.scheduled)?;
    read_tables_at(process, places, all, scheduled, roots.eager)
}
