//! The registered objects, each as a task or as what it is.
ghost use Rattle.std.specs.Prelude.{◌≡◌, ◌+◌, ◌*◌, ◌++◌, OnOk, length, option_to_list};
ghost use Rattle.process_memory.specs.Seen.{Reads};
ghost use Rattle.py_coroutines.specs.Places.{IsSound as IsSoundPlaces};
ghost use Rattle.py_fields.specs.Sound.{IsSound};
ghost use Rattle.py_names.specs.NamesError.{names_fault};
ghost use Rattle.task_sets.specs.Gathered.{gathered};
ghost use Rattle.py_tasks.specs.Entries.{IsLostEntry, entries_of, entries_result, entry_at, entry_result};
ghost use Rattle.py_tasks.specs.Entries.{entry_shown_of, is_none, is_task_at, known_at, other_at, other_by};
ghost use Rattle.py_tasks.specs.Entries.{some_task_at};

use crate::Entry;
use crate::bases::leads_to;
use crate::described::Described;
use crate::fault::fault_by;
use crate::names::read_class;
use crate::told::read_task;
use crate::waiter::BASE_LIMIT;
use elf64_core::Text;
use process_memory::{ProcessMemory, word_past};
use py_fields::Layout;
use py_names::NamesError;
use std::alloc::{AllocFailed, Global};

/// Whether the object at an address is a task: its type leads to that of tasks. At most 65 reads.
fn read_is_task<P: ProcessMemory>(
    process: &mut P,
    layout: &Layout,
    described: &Described,
    at: u64,
) -> Result<bool, NamesError>
    ensures { Reads names_fault 65 (P.seen process.old) (P.seen process.new)
        (λ m. is_task_at layout.now described.now m at) result }
{
    let class = word_past(process, at, layout.object.klass as u64)?;
    let (base, task) = (described.places.base, described.types.task);
    leads_to(process, base, class, task, BASE_LIMIT)
}

/// Whether a type is that of `None`, which a weak reference has whose object is gone.
fn is_none(class: &Option<Text>) -> bool
    ensures { result ≡ is_none class.now }
{
    match class {
        Some(name) => name.as_str() == "NoneType",
        None => false,
    }
}

/// An object that is no task, by its type; `None` is left out.
fn other_by(address: u64, class: Option<Text>) -> Option<Entry>
    ensures { entry_shown_of result ≡ other_by address class }
{
    if is_none(&class) {
        return None;
    }
    Some(Entry::Other { address, class })
}

/// A registered object that is no task. At most 3 reads.
fn read_other<P: ProcessMemory>(
    alloc: Global,
    process: &mut P,
    layout: &Layout,
    address: u64,
) -> Result<Option<Entry>, NamesError>
    requires sound { IsSound layout.now }
    ensures { Reads names_fault 3 (P.seen process.old) (P.seen process.new)
        (λ m. other_at layout.now m address) (entry_result result) }
{
    let class = read_class(alloc, process, layout, address)?;
    Ok(other_by(address, class))
}

/// A registered object that is a task. At most 16503 reads, and 17 for each member of its chain.
fn read_some_task<P: ProcessMemory>(
    alloc: Global,
    process: &mut P,
    layout: &Layout,
    described: &Described,
    limit: usize,
    address: u64,
) -> Result<Option<Entry>, NamesError>
    requires sound { IsSound layout.now }
    requires places { IsSoundPlaces described.now.awaits }
    ensures { Reads names_fault (16503 + 17 * limit) (P.seen process.old) (P.seen process.new)
        (λ m. some_task_at layout.now described.now m limit address) (entry_result result) }
{
    let task = read_task(alloc, process, layout, described, limit, address)?;
    Ok(Some(Entry::Task(task)))
}

/// What a registered object is, where that can be told. At most 16568 reads, and 17 for each member of its chain.
fn read_known<P: ProcessMemory>(
    alloc: Global,
    process: &mut P,
    layout: &Layout,
    described: &Described,
    limit: usize,
    address: u64,
) -> Result<Option<Entry>, NamesError>
    requires sound { IsSound layout.now }
    requires places { IsSoundPlaces described.now.awaits }
    ensures { Reads names_fault (16568 + 17 * limit) (P.seen process.old) (P.seen process.new)
        (λ m. known_at layout.now described.now m limit address) (entry_result result) }
{
    let is_task = read_is_task(process, layout, described, address)?;
    if is_task {
        return read_some_task(alloc, process, layout, described, limit, address);
    }
    read_other(alloc, process, layout, address)
}

/// One of which something is not told; out of memory is handed on.
fn lost_entry(address: u64, error: NamesError) -> Result<Option<Entry>, NamesError>
    ensures { IsLostEntry address (names_fault error) (entry_result result) }
{
    match fault_by(error) {
        Ok(fault) => Ok(Some(Entry::Lost { address, fault })),
        Err(error) => Err(error),
    }
}

/// What a registered object is. At most 16568 reads, and 17 for each member of its chain.
fn read_entry<P: ProcessMemory>(
    alloc: Global,
    process: &mut P,
    layout: &Layout,
    described: &Described,
    limit: usize,
    address: u64,
) -> Result<Option<Entry>, NamesError>
    requires sound { IsSound layout.now }
    requires places { IsSoundPlaces described.now.awaits }
    ensures { Reads names_fault (16568 + 17 * limit) (P.seen process.old) (P.seen process.new)
        (λ m. entry_at layout.now described.now m limit address) (entry_result result) }
{
    match read_known(alloc, process, layout, described, limit, address) {
        Ok(entry) => Ok(entry),
        Err(error) => lost_entry(address, error),
    }
}

/// Adds an entry, where there is one.
fn add_entry(entries: &mut Vec<Entry>, entry: Option<Entry>) -> Result<(), AllocFailed<Entry>>
    ensures { OnOk result (entries.new.items ≡ entries.old.items ++ option_to_list entry) }
{
    match entry {
        None => Ok(()),
        Some(entry) => entries.push(entry),
    }
}

/// What each of some registered objects is, but for those that are `None`. At most 16568 reads for each, and 17 for
/// each member of its chain, of which there are so many at most.
pub(crate) fn read_entries<P: ProcessMemory>(
    alloc: Global,
    process: &mut P,
    layout: &Layout,
    described: &Described,
    limit: usize,
    addresses: &[u64],
) -> Result<Vec<Entry>, NamesError>
    requires sound { IsSound layout.now }
    requires places { IsSoundPlaces described.now.awaits }
    ensures { Reads names_fault ((16568 + 17 * limit) * length addresses.now) (P.seen process.old) (P.seen process.new)
        (λ m. gathered (entries_of layout.now described.now m limit addresses.now) (length addresses.now) 0)
        (entries_result result) }
{
    let mut entries = Vec::new(alloc);
    for address in addresses {
        let entry = read_entry(alloc, process, layout, described, limit, *address)?;
        add_entry(&mut entries, entry)?;
    }
    Ok(entries)
}
