//! Where the parts of tasks stand, and which types they have.
ghost use Rattle.std.specs.Prelude.{◌≡◌};
ghost use Rattle.py_tasks.specs.Described.{name_of, places_with, task_places_of};

use py_coroutines::Places;
use py_records::{FutureRecord, KlassRecord, Records, TaskNameRecord, TaskRecord};
use task_sets::RootPlaces;

/// Where the parts of tasks and futures stand, in bytes from their addresses.
#[derive(Clone, Copy)]
pub struct TaskPlaces {
    /// How many bytes a task has.
    pub size: u32,
    /// How many bytes a future has.
    pub future_size: u32,
    /// The state of a future, of 4 bytes.
    pub state: u32,
    /// The address of its event loop.
    pub event_loop: u32,
    /// The address of the future that a task waits for.
    pub waiter: u32,
    /// The address of its coroutine.
    pub coro: u32,
    /// The byte that says whether it is to be cancelled, and the bit of it.
    pub cancel: u32,
    pub cancel_bit: u32,
    /// The address of its name, from 3.8 on.
    pub name: Option<u32>,
    /// Of a type: the type that it derives from first.
    pub base: u32,
    /// Of a type: how many bytes an object of it has without its items.
    pub basic_size: u32,
}

/// The addresses of the types of futures and tasks of asyncio's C module; 0 for one that was not found.
#[derive(Clone, Copy)]
pub struct TaskTypes {
    pub future: u64,
    pub task: u64,
}

/// All that is known beforehand of where tasks stand.
#[derive(Clone, Copy)]
pub struct Described {
    pub places: TaskPlaces,
    pub types: TaskTypes,
    pub roots: RootPlaces,
    pub awaits: Places,
}

fn name_of(name: Option<TaskNameRecord>) -> Option<u32>
    ensures { result ≡ name_of name }
{
    match name {
        None => None,
        Some(record) => Some(record.name),
    }
}

fn places_with(
    klass: &KlassRecord,
    future: &FutureRecord,
    task: &TaskRecord,
    name: Option<u32>,
) -> TaskPlaces
    ensures { result ≡ places_with klass.now future.now task.now name }
{
    TaskPlaces {
        size: task.size,
        future_size: future.size,
        state: future.state,
        event_loop: future.event_loop,
        waiter: task.waiter,
        coro: task.coro,
        cancel: task.cancel,
        cancel_bit: task.cancel_bit,
        name,
        base: klass.base,
        basic_size: klass.basicsize,
    }
}

/// The places by the records of a version; none where a group of these is not described: `klass`, `future`, `task`.
pub(crate) fn task_places_of(records: &Records) -> Option<TaskPlaces>
    ensures { result ≡ task_places_of records.now }
{
    let name = name_of(records.tasks.task_name);
    match (
        records.types.klass,
        records.tasks.future,
        records.tasks.task,
    ) {
        (Some(klass), Some(future), Some(task)) => Some(places_with(&klass, &future, &task, name)),
        _ => None,
    }
}
