//! One task.
ghost use Rattle.std.specs.Prelude.{◌≡◌, ◌≤◌, ◌+◌, ◌*◌};
ghost use Rattle.process_memory.specs.Seen.{Reads};
ghost use Rattle.py_coroutines.specs.Places.{IsSound as IsSoundPlaces};
ghost use Rattle.py_fields.specs.Sound.{IsSound};
ghost use Rattle.py_names.specs.NamesError.{names_fault};
ghost use Rattle.py_tasks.specs.Told.{ends_running, is_running, loop_thread_at, stops_running, task_at, task_result};
ghost use Rattle.py_tasks.specs.Told.{thread_at, thread_number_at};

use crate::chain::read_chain;
use crate::described::Described;
use crate::fault::or_none;
use crate::fields::read_fields;
use crate::names::read_name;
use crate::waiter::read_waiter;
use crate::{Chain, Task, TaskState};
use process_memory::ProcessMemory;
use py_builtins::copy_long;
use py_coroutines::{AwaitEnd, Stop};
use py_fields::Layout;
use py_names::NamesError;
use std::alloc::Global;
use task_sets::{RootPlaces, read_attribute};

/// The id that an integer says. At most 2 reads.
fn read_id<P: ProcessMemory>(
    process: &mut P,
    layout: &Layout,
    number: Option<u64>,
) -> Result<Option<u64>, NamesError>
    requires sound { IsSound layout.now }
    ensures { Reads names_fault 2 (P.seen process.old) (P.seen process.new)
        (λ m. thread_number_at layout.now m number) result }
{
    match number {
        None => Ok(None),
        Some(at) => {
            let (id, _) = copy_long(process, layout, at)?;
            Ok(Some(id.cast_unsigned()))
        }
    }
}

/// The id of the thread in which a loop runs, as its `_thread_id` says it. At most 16395 reads.
fn read_loop_thread<P: ProcessMemory>(
    alloc: Global,
    process: &mut P,
    layout: &Layout,
    roots: &RootPlaces,
    event_loop: u64,
) -> Result<Option<u64>, NamesError>
    requires sound { IsSound layout.now }
    ensures { Reads names_fault 16395 (P.seen process.old) (P.seen process.new)
        (λ m. loop_thread_at layout.now roots.now m event_loop) result }
{
    let number = read_attribute(alloc, process, layout, roots, "_thread_id", event_loop)?;
    read_id(process, layout, number)
}

/// Whether a chain ends at a coroutine that runs.
fn stops_running(stop: Stop) -> bool
    ensures { result ≡ stops_running stop }
{
    match stop {
        Stop::Running => true,
        Stop::Created
        | Stop::Future { .. }
        | Stop::Yielding
        | Stop::Finished
        | Stop::NoTop
        | Stop::Other { .. }
        | Stop::Unreadable { .. } => false,
    }
}

fn ends_running(end: AwaitEnd) -> bool
    ensures { result ≡ ends_running end }
{
    match end {
        AwaitEnd::Stops(stop) => stops_running(stop),
        AwaitEnd::Cycle { .. } => false,
        AwaitEnd::Cut { .. } => false,
    }
}

/// Whether a task runs, by its state and how its chain ends.
fn is_running(state: TaskState, end: AwaitEnd) -> bool
    ensures { result ≡ is_running state end }
{
    match state {
        TaskState::Pending => ends_running(end),
        TaskState::Cancelled => false,
        TaskState::Finished => false,
        TaskState::Other(_) => false,
    }
}

/// The id of the thread in which a task runs. At most 16395 reads.
fn read_thread<P: ProcessMemory>(
    alloc: Global,
    process: &mut P,
    layout: &Layout,
    roots: &RootPlaces,
    runs: bool,
    event_loop: u64,
) -> Result<Option<u64>, NamesError>
    requires sound { IsSound layout.now }
    ensures { Reads names_fault 16395 (P.seen process.old) (P.seen process.new)
        (λ m. thread_at layout.now roots.now m runs event_loop) result }
{
    if runs {
        return or_none(read_loop_thread(alloc, process, layout, roots, event_loop));
    }
    Ok(None)
}

/// The task at an address. At most 16503 reads, and 17 for each member of its chain.
pub(crate) fn read_task<P: ProcessMemory>(
    alloc: Global,
    process: &mut P,
    layout: &Layout,
    described: &Described,
    limit: usize,
    address: u64,
) -> Result<Task, NamesError>
    requires sound { IsSound layout.now }
    requires places { IsSoundPlaces described.now.awaits }
    ensures { Reads names_fault (16503 + 17 * limit) (P.seen process.old) (P.seen process.new)
        (λ m. task_at layout.now described.now m limit address) (task_result result) }
{
    let places = &described.places;
    let fields = read_fields(process, places, address)?;
    let name = read_name(alloc, process, layout, places, address)?;
    let waiter = read_waiter(
        alloc,
        process,
        layout,
        places,
        described.types,
        fields.waiter,
    )?;
    let chain = read_chain(
        alloc,
        process,
        layout,
        &described.awaits,
        limit,
        fields.coro,
    )?;
    let runs = is_running(fields.state, chain.end);
    let thread_id = read_thread(
        alloc,
        process,
        layout,
        &described.roots,
        runs,
        fields.event_loop,
    )?;
    Ok(Task {
        address,
        name,
        state: fields.state,
        must_cancel: fields.must_cancel,
        event_loop: fields.event_loop,
        thread_id,
        waiter,
        chain,
    })
}
