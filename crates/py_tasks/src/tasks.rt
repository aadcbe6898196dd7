//! The tasks of an interpreter.
ghost use Rattle.std.specs.Prelude.{◌≡◌, ◌≤◌, ◌*◌, ◌^◌, length};
ghost use Rattle.process_memory.specs.Seen.{Reads};
ghost use Rattle.py_coroutines.specs.Places.{IsSound as IsSoundPlaces};
ghost use Rattle.py_fields.specs.Sound.{IsSound};
ghost use Rattle.py_names.specs.NamesError.{names_fault};
ghost use Rattle.py_tasks.specs.Described.{task_places_of};
ghost use Rattle.py_tasks.specs.Tasks.{IsLostTasks, all_at, by_described, by_modules_at, by_roots_at, chain_limit};
ghost use Rattle.py_tasks.specs.Tasks.{checked_at};
ghost use Rattle.py_tasks.specs.Tasks.{described_at, few_at, listed_at};
ghost use Rattle.task_sets.specs.Places.{places_of};
ghost use Rattle.py_tasks.specs.Tasks.{read_at, sized_at, tasks_at, tasks_result, typed_at};

use crate::described::{Described, task_places_of};
use crate::entries::read_entries;
use crate::fault::fault_by;
use crate::types::{read_types, sizes_of};
use crate::{TaskPlaces, TaskTypes, TasksFault, TasksOf};
use coroutine_frames::places_of as await_places_of;
use process_memory::{ProcessMemory, word_past};
use py_coroutines::AwaitTypes;
use py_fields::Layout;
use py_names::NamesError;
use py_records::Records;
use std::alloc::Global;
use task_sets::{RootPlaces, Roots, places_of, read_registered, read_roots};
use type_places::TypeFields;

/// How many registered objects are told at most.
const TASK_LIMIT: usize = 65536;

/// How many members of one chain are met at most, and of all chains.
const MEMBER_LIMIT: usize = 16384;

const MEMBERS_LIMIT: usize = 1_048_576;

/// How many members of each of so many chains are met at most.
#[tactic(auto, unfolding(crate::specs::Tasks::chain_limit))]
fn chain_limit(count: usize) -> usize
    ensures is { result ≡ chain_limit count }
    ensures all { result * count ≤ 2 ^ 20 }
{
    if count <= MEMBERS_LIMIT / MEMBER_LIMIT {
        return MEMBER_LIMIT;
    }
    MEMBERS_LIMIT / count
}

/// What some registered objects are. At most 1103626240 reads.
fn read_within<P: ProcessMemory>(
    alloc: Global,
    process: &mut P,
    layout: &Layout,
    described: &Described,
    addresses: &[u64],
) -> Result<TasksOf, NamesError>
    requires sound { IsSound layout.now }
    requires places { IsSoundPlaces described.now.awaits }
    requires few { length addresses.now ≤ 65536 }
    ensures { Reads names_fault 1103626240 (P.seen process.old) (P.seen process.new)
        (λ m. read_at layout.now described.now m addresses.now) (tasks_result result) }
{
    let limit = chain_limit(addresses.len());
    let entries = read_entries(alloc, process, layout, described, limit, addresses)?;
    Ok(TasksOf::Read(entries))
}

/// The same, where these are few enough. At most 1103626240 reads.
#[tactic(auto, unfolding(crate::specs::Tasks::few_at))]
fn read_few<P: ProcessMemory>(
    alloc: Global,
    process: &mut P,
    layout: &Layout,
    described: &Described,
    addresses: &[u64],
) -> Result<TasksOf, NamesError>
    requires sound { IsSound layout.now }
    requires places { IsSoundPlaces described.now.awaits }
    ensures { Reads names_fault 1103626240 (P.seen process.old) (P.seen process.new)
        (λ m. few_at layout.now described.now m addresses.now) (tasks_result result) }
{
    if addresses.len() > TASK_LIMIT {
        return Ok(TasksOf::Lost(TasksFault::TooMany));
    }
    read_within(alloc, process, layout, described, addresses)
}

/// The tasks of an interpreter, by what its module has and where their parts stand. At most 1106935835 reads.
fn read_listed<P: ProcessMemory>(
    alloc: Global,
    process: &mut P,
    layout: &Layout,
    described: &Described,
    roots: &Roots,
) -> Result<TasksOf, NamesError>
    requires sound { IsSound layout.now }
    requires places { IsSoundPlaces described.now.awaits }
    ensures { Reads names_fault 1106935835 (P.seen process.old) (P.seen process.new)
        (λ m. listed_at layout.now described.now m roots.now) (tasks_result result) }
{
    let registered = read_registered(alloc, process, layout, &described.roots, roots)?;
    read_few(alloc, process, layout, described, &registered)
}

/// The same, where the parts of coroutines are described by the types that were found.
fn read_described<P: ProcessMemory>(
    alloc: Global,
    process: &mut P,
    layout: &Layout,
    records: &Records,
    places: &TaskPlaces,
    root_places: &RootPlaces,
    roots: &Roots,
    types: AwaitTypes,
) -> Result<TasksOf, NamesError>
    requires sound { IsSound layout.now }
    ensures { Reads names_fault 1106935835 (P.seen process.old) (P.seen process.new)
        (λ m. described_at layout.now records.now m places.now root_places.now roots.now types)
        (tasks_result result) }
{
    match await_places_of(layout, records, &types) {
        None => Ok(TasksOf::NotDescribed),
        Some(awaits) => {
            let described = Described {
                places: *places,
                types: TaskTypes {
                    future: types.future,
                    task: types.task,
                },
                roots: *root_places,
                awaits,
            };
            read_listed(alloc, process, layout, &described, roots)
        }
    }
}

/// The same, by the address of the type of tasks. At most 1107984451 reads.
fn read_typed<P: ProcessMemory>(
    alloc: Global,
    process: &mut P,
    layout: &Layout,
    records: &Records,
    places: &TaskPlaces,
    root_places: &RootPlaces,
    modules: u64,
    roots: &Roots,
    task: u64,
) -> Result<TasksOf, NamesError>
    requires sound { IsSound layout.now }
    ensures { Reads names_fault 1107984451 (P.seen process.old) (P.seen process.new)
        (λ m. typed_at layout.now records.now m places.now root_places.now modules roots.now task)
        (tasks_result result) }
{
    let fields = TypeFields {
        basic_size: places.basic_size,
        base: places.base,
    };
    let sizes = sizes_of(records);
    let types = read_types(alloc, process, layout, &fields, sizes, modules, task)?;
    read_described(
        alloc,
        process,
        layout,
        records,
        places,
        root_places,
        roots,
        types,
    )
}

/// The same, where the type at an address has the size that the records tell. At most 1107984452 reads.
fn read_checked<P: ProcessMemory>(
    alloc: Global,
    process: &mut P,
    layout: &Layout,
    records: &Records,
    places: &TaskPlaces,
    root_places: &RootPlaces,
    modules: u64,
    roots: &Roots,
    task: u64,
) -> Result<TasksOf, NamesError>
    requires sound { IsSound layout.now }
    ensures { Reads names_fault 1107984452 (P.seen process.old) (P.seen process.new)
        (λ m. checked_at layout.now records.now m places.now root_places.now modules roots.now task)
        (tasks_result result) }
{
    let size = word_past(process, task, places.basic_size as u64)?;
    if size == places.size as u64 {
        return read_typed(
            alloc,
            process,
            layout,
            records,
            places,
            root_places,
            modules,
            roots,
            task,
        );
    }
    Ok(TasksOf::Resized { size })
}

/// The same, by the module's type of tasks. At most 1107984452 reads.
fn read_sized<P: ProcessMemory>(
    alloc: Global,
    process: &mut P,
    layout: &Layout,
    records: &Records,
    places: &TaskPlaces,
    root_places: &RootPlaces,
    modules: u64,
    roots: &Roots,
) -> Result<TasksOf, NamesError>
    requires sound { IsSound layout.now }
    ensures { Reads names_fault 1107984452 (P.seen process.old) (P.seen process.new)
        (λ m. sized_at layout.now records.now m places.now root_places.now modules roots.now)
        (tasks_result result) }
{
    match roots.task {
        None => read_typed(
            alloc,
            process,
            layout,
            records,
            places,
            root_places,
            modules,
            roots,
            0,
        ),
        Some(task) => read_checked(
            alloc,
            process,
            layout,
            records,
            places,
            root_places,
            modules,
            roots,
            task,
        ),
    }
}

/// The same, where the parts of tasks are described. At most 1107984452 reads.
fn read_by_places<P: ProcessMemory>(
    alloc: Global,
    process: &mut P,
    layout: &Layout,
    records: &Records,
    slots: u64,
    modules: u64,
    roots: &Roots,
) -> Result<TasksOf, NamesError>
    requires sound { IsSound layout.now }
    ensures { Reads names_fault 1107984452 (P.seen process.old) (P.seen process.new)
        (λ m. by_described layout.now records.now m modules roots.now (task_places_of records.now)
        (places_of layout.now records.now slots)) (tasks_result result) }
{
    let Some(places) = task_places_of(records) else {
        return Ok(TasksOf::NotDescribed);
    };
    let Some(root_places) = places_of(layout, records, slots) else {
        return Ok(TasksOf::NotDescribed);
    };
    read_sized(
        alloc,
        process,
        layout,
        records,
        &places,
        &root_places,
        modules,
        roots,
    )
}

/// The same, by what the module `asyncio.tasks` has, if there is one. At most 1107984452 reads.
fn read_by_roots<P: ProcessMemory>(
    alloc: Global,
    process: &mut P,
    layout: &Layout,
    records: &Records,
    slots: u64,
    modules: u64,
    found: Option<Roots>,
) -> Result<TasksOf, NamesError>
    requires sound { IsSound layout.now }
    ensures { Reads names_fault 1107984452 (P.seen process.old) (P.seen process.new)
        (λ m. by_roots_at layout.now records.now m slots modules found) (tasks_result result) }
{
    match found {
        None => Ok(TasksOf::Without),
        Some(roots) => read_by_places(alloc, process, layout, records, slots, modules, &roots),
    }
}

/// The same, by the address of the dict of modules; an interpreter that has none has no asyncio. At most 1109557323
/// reads.
fn read_by_modules<P: ProcessMemory>(
    alloc: Global,
    process: &mut P,
    layout: &Layout,
    records: &Records,
    slots: u64,
    modules: u64,
) -> Result<TasksOf, NamesError>
    requires sound { IsSound layout.now }
    ensures { Reads names_fault 1109557323 (P.seen process.old) (P.seen process.new)
        (λ m. by_modules_at layout.now records.now m slots modules) (tasks_result result) }
{
    if modules == 0 {
        return Ok(TasksOf::Without);
    }
    let roots = read_roots(alloc, process, layout, modules)?;
    read_by_roots(alloc, process, layout, records, slots, modules, roots)
}

/// The tasks of the interpreter at an address, where all that leads to them can be read. At most 1109557324 reads.
fn read_all<P: ProcessMemory>(
    alloc: Global,
    process: &mut P,
    layout: &Layout,
    records: &Records,
    slots: u64,
    interpreter: u64,
) -> Result<TasksOf, NamesError>
    requires sound { IsSound layout.now }
    ensures { Reads names_fault 1109557324 (P.seen process.old) (P.seen process.new)
        (λ m. all_at layout.now records.now m slots interpreter) (tasks_result result) }
{
    let modules = word_past(process, interpreter, layout.interpreter.modules as u64)?;
    read_by_modules(alloc, process, layout, records, slots, modules)
}

/// None that are told; out of memory is handed on.
fn lost_tasks(error: NamesError) -> Result<TasksOf, NamesError>
    ensures { IsLostTasks (names_fault error) (tasks_result result) }
{
    match fault_by(error) {
        Ok(fault) => Ok(TasksOf::Lost(fault)),
        Err(error) => Err(error),
    }
}

/// The tasks of the interpreter at an address; one that has no modules has none.
///
/// They are the registered objects, each once, in the order of first mention: those of the weak references in the sets
/// of `_all_tasks` and `_scheduled_tasks` of the module `asyncio.tasks`, the members of its `_eager_tasks`, and the
/// values of its `_current_tasks`; `None` is left out. One whose type leads by its first bases, at most 64, to `_CTask`
/// is a task, and each other one is told by its type. Of what is not in memory of a task that one alone is lost; of a
/// module, a dict or a set all of them are, and the answer says why. A module's `_CTask` of another size than the
/// records tell of is refused.
///
/// A chain has at most 16384 members, and fewer where there are more than 64 tasks, so that all chains have at most
/// 2^20. More than 65536 registered objects are `TooMany`, and so are more than `slots` entries of all sets together,
/// or than 2^20. The one error is out of memory.
pub fn read_tasks<P: ProcessMemory>(
    alloc: Global,
    process: &mut P,
    layout: &Layout,
    records: &Records,
    slots: u64,
    interpreter: u64,
) -> Result<TasksOf, NamesError>
    requires sound { IsSound layout.now }
    ensures { Reads names_fault 1109557324 (P.seen process.old) (P.seen process.new)
        (λ m. tasks_at layout.now records.now m slots interpreter) (tasks_result result) }
{
    match read_all(alloc, process, layout, records, slots, interpreter) {
        Ok(tasks) => Ok(tasks),
        Err(error) => lost_tasks(error),
    }
}
