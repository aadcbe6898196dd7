//! What a task waits for.
ghost use Rattle.std.specs.Prelude.{◌≡◌};
ghost use Rattle.process_memory.specs.Seen.{Reads};
ghost use Rattle.py_fields.specs.Sound.{IsSound};
ghost use Rattle.py_names.specs.NamesError.{names_fault};
ghost use Rattle.py_tasks.specs.Waiters.{future_state_at, known_state_at, some_waiter_at, state_if, waiter_at};

use crate::bases::leads_to;
use crate::fault::or_none;
use crate::fields::read_state;
use crate::names::read_class;
use crate::{TaskPlaces, TaskState, TaskTypes, Waiter};
use process_memory::{ProcessMemory, word_past};
use py_fields::Layout;
use py_names::NamesError;
use std::alloc::Global;

/// How many bases of a type are looked at, at most.
pub(crate) const BASE_LIMIT: u64 = 64;

/// The state of a future. At most one read.
fn state_if<P: ProcessMemory>(
    process: &mut P,
    places: &TaskPlaces,
    is_future: bool,
    at: u64,
) -> Result<Option<TaskState>, NamesError>
    ensures { Reads names_fault 1 (P.seen process.old) (P.seen process.new)
        (λ m. state_if places.now m is_future at) result }
{
    if is_future {
        let state = read_state(process, places, at)?;
        return Ok(Some(state));
    }
    Ok(None)
}

/// The state of the object at an address, if it is a future. At most 66 reads.
fn read_future<P: ProcessMemory>(
    process: &mut P,
    layout: &Layout,
    places: &TaskPlaces,
    types: TaskTypes,
    at: u64,
) -> Result<Option<TaskState>, NamesError>
    ensures { Reads names_fault 66 (P.seen process.old) (P.seen process.new)
        (λ m. future_state_at layout.now places.now types m at) result }
{
    let class = word_past(process, at, layout.object.klass as u64)?;
    let is_future = leads_to(process, places.base, class, types.future, BASE_LIMIT)?;
    state_if(process, places, is_future, at)
}

/// The same; none where something of that is not in memory. At most 66 reads.
fn read_known_state<P: ProcessMemory>(
    process: &mut P,
    layout: &Layout,
    places: &TaskPlaces,
    types: TaskTypes,
    at: u64,
) -> Result<Option<TaskState>, NamesError>
    ensures { Reads names_fault 66 (P.seen process.old) (P.seen process.new)
        (λ m. known_state_at layout.now places.now types m at) result }
{
    or_none(read_future(process, layout, places, types, at))
}

/// The object at an address, for which a task waits. At most 69 reads.
fn read_some<P: ProcessMemory>(
    alloc: Global,
    process: &mut P,
    layout: &Layout,
    places: &TaskPlaces,
    types: TaskTypes,
    address: u64,
) -> Result<Option<Waiter>, NamesError>
    requires sound { IsSound layout.now }
    ensures { Reads names_fault 69 (P.seen process.old) (P.seen process.new)
        (λ m. some_waiter_at layout.now places.now types m address) result }
{
    let class = read_class(alloc, process, layout, address)?;
    let state = read_known_state(process, layout, places, types, address)?;
    Ok(Some(Waiter {
        address,
        class,
        state,
    }))
}

/// What a task waits for that names its waiter; 0 is none. At most 69 reads.
#[tactic(auto, unfolding(crate::specs::Waiters::waiter_at))]
pub(crate) fn read_waiter<P: ProcessMemory>(
    alloc: Global,
    process: &mut P,
    layout: &Layout,
    places: &TaskPlaces,
    types: TaskTypes,
    address: u64,
) -> Result<Option<Waiter>, NamesError>
    requires sound { IsSound layout.now }
    ensures { Reads names_fault 69 (P.seen process.old) (P.seen process.new)
        (λ m. waiter_at layout.now places.now types m address) result }
{
    if address == 0 {
        return Ok(None);
    }
    read_some(alloc, process, layout, places, types, address)
}
