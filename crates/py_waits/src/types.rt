//! The types of what threads wait for, by the modules of their interpreter.
ghost use Rattle.std.specs.Prelude.{◌≡◌, is_none};
ghost use Rattle.process_memory.specs.Seen.{Reads, read_fault};
ghost use Rattle.py_fields.specs.Sound.{IsSound};
ghost use Rattle.py_names.specs.NamesError.{names_fault};
ghost use Rattle.py_waits.specs.Types.{address_of, fields_of, known_type, lock_size, lock_waitable, owner_place};
ghost use Rattle.py_waits.specs.Types.{parked_lock, parked_queue, places_at, places_with, queue_size};
ghost use Rattle.py_waits.specs.Types.{lock_type, queue_type, queue_waitable, receiver_place, rlock_size, rlock_type};
ghost use Rattle.py_waits.specs.Types.{rlock_waitable, type_in, type_sized, type_within, waitable};

use crate::places::{OwnerAt, WaitPlaces, Waitable};
use crate::words::word_in;
use process_memory::{ProcessMemory, ReadFault};
use py_builtins::ObjectError;
use py_fields::Layout;
use py_names::NamesError;
use py_records::{LockRecords, Records};
use std::alloc::Global;
use type_places::{TypeFields, TypePlace, module_type};

/// Whether an error is out of memory.
fn is_wanting(error: &NamesError) -> bool
    ensures { result ≡ is_none (names_fault error.now) }
{
    match error {
        NamesError::OutOfMemory => true,
        NamesError::Object(error) => match error {
            ObjectError::OutOfMemory => true,
            _ => false,
        },
        _ => false,
    }
}

/// The address of a place, where there is one.
fn address_of(place: Option<TypePlace>) -> Option<u64>
    ensures { result ≡ address_of place }
{
    match place {
        Some(place) => Some(place.address),
        None => None,
    }
}

/// The address of a type that was looked for; none where what leads to it can't be read.
fn known_type(found: Result<Option<TypePlace>, NamesError>) -> Result<Option<u64>, ReadFault>
    ensures { result ≡ known_type found }
{
    match found {
        Ok(place) => Ok(address_of(place)),
        Err(error) => {
            if is_wanting(&error) {
                return Err(ReadFault::OutOfMemory);
            }
            Ok(None)
        }
    }
}

/// The address of a module's type whose instances have so many bytes. At most 262154 reads.
fn type_sized<P: ProcessMemory>(
    alloc: Global,
    process: &mut P,
    layout: &Layout,
    fields: &TypeFields,
    modules: u64,
    holder: &str,
    name: &str,
    size: Option<u32>,
) -> Result<Option<u64>, ReadFault>
    requires sound { IsSound layout.now }
    ensures { Reads read_fault 262154 (P.seen process.old) (P.seen process.new)
        (λ m. type_sized layout.now fields.now m modules holder.now name.now size) result }
{
    match size {
        None => Ok(None),
        Some(size) => known_type(module_type(
            alloc,
            process,
            layout,
            fields,
            modules,
            holder,
            name,
            size as u64,
        )),
    }
}

/// The same, where the modules are known. At most 262154 reads.
fn type_within<P: ProcessMemory>(
    alloc: Global,
    process: &mut P,
    layout: &Layout,
    fields: &TypeFields,
    modules: Option<u64>,
    holder: &str,
    name: &str,
    size: Option<u32>,
) -> Result<Option<u64>, ReadFault>
    requires sound { IsSound layout.now }
    ensures { Reads read_fault 262154 (P.seen process.old) (P.seen process.new)
        (λ m. type_within layout.now fields.now m modules holder.now name.now size) result }
{
    match modules {
        None => Ok(None),
        Some(modules) => type_sized(alloc, process, layout, fields, modules, holder, name, size),
    }
}

/// The same, where it is described where a type has its fields. At most 262154 reads.
fn type_in<P: ProcessMemory>(
    alloc: Global,
    process: &mut P,
    layout: &Layout,
    fields: Option<TypeFields>,
    modules: Option<u64>,
    holder: &str,
    name: &str,
    size: Option<u32>,
) -> Result<Option<u64>, ReadFault>
    requires sound { IsSound layout.now }
    ensures { Reads read_fault 262154 (P.seen process.old) (P.seen process.new)
        (λ m. type_in layout.now fields m modules holder.now name.now size) result }
{
    match fields {
        None => Ok(None),
        Some(fields) => type_within(alloc, process, layout, &fields, modules, holder, name, size),
    }
}

/// Where the fields of a type's record stand.
fn fields_of(records: &Records) -> Option<TypeFields>
    ensures { result ≡ fields_of records.now }
{
    match records.types.klass {
        Some(klass) => Some(TypeFields {
            basic_size: klass.basicsize,
            base: klass.base,
        }),
        None => None,
    }
}

/// How many bytes a lock has.
fn lock_size(locks: &LockRecords) -> Option<u32>
    ensures { result ≡ lock_size locks.now }
{
    match locks.lock {
        Some(lock) => Some(lock.size),
        None => match locks.lock_mutex {
            Some(lock) => Some(lock.size),
            None => None,
        },
    }
}

/// How many bytes a reentrant lock has.
fn rlock_size(locks: &LockRecords) -> Option<u32>
    ensures { result ≡ rlock_size locks.now }
{
    match locks.rlock {
        Some(lock) => Some(lock.size),
        None => None,
    }
}

/// How many bytes a queue has.
fn queue_size(locks: &LockRecords) -> Option<u32>
    ensures { result ≡ queue_size locks.now }
{
    match locks.simple_queue {
        Some(queue) => Some(queue.size),
        None => match locks.simple_queue_parked {
            Some(queue) => Some(queue.size),
            None => None,
        },
    }
}

/// A type, where its address and the place are known.
fn waitable(class: Option<u64>, place: Option<u32>) -> Option<Waitable>
    ensures { result ≡ waitable class place }
{
    match (class, place) {
        (Some(class), Some(place)) => Some(Waitable { class, place }),
        _ => None,
    }
}

/// Locks by their semaphores.
fn lock_waitable(locks: &LockRecords, class: Option<u64>) -> Option<Waitable>
    ensures { result ≡ lock_waitable locks.now class }
{
    match locks.lock {
        Some(lock) => waitable(class, Some(lock.semaphore)),
        None => None,
    }
}

/// Reentrant locks.
fn rlock_waitable(locks: &LockRecords, class: Option<u64>) -> Option<Waitable>
    ensures { result ≡ rlock_waitable locks.now class }
{
    match locks.rlock {
        Some(lock) => waitable(class, Some(lock.semaphore)),
        None => None,
    }
}

/// Queues by their semaphores.
fn queue_waitable(locks: &LockRecords, class: Option<u64>) -> Option<Waitable>
    ensures { result ≡ queue_waitable locks.now class }
{
    match locks.simple_queue {
        Some(queue) => waitable(class, Some(queue.semaphore)),
        None => None,
    }
}

/// Locks in whose own bytes threads are parked: those of a version whose locks have no semaphore.
fn parked_lock(locks: &LockRecords, class: Option<u64>) -> Option<Waitable>
    ensures { result ≡ parked_lock locks.now class }
{
    match locks.lock {
        Some(_) => None,
        None => match locks.lock_mutex {
            Some(lock) => waitable(class, Some(lock.mutex)),
            None => None,
        },
    }
}

/// Such queues.
fn parked_queue(locks: &LockRecords, class: Option<u64>) -> Option<Waitable>
    ensures { result ≡ parked_queue locks.now class }
{
    match locks.simple_queue {
        Some(_) => None,
        None => match locks.simple_queue_parked {
            Some(queue) => waitable(class, Some(queue.waiting)),
            None => None,
        },
    }
}

/// Where a reentrant lock has its owner.
fn owner_place(locks: &LockRecords) -> Option<OwnerAt>
    ensures { result ≡ owner_place locks.now }
{
    match locks.rlock {
        Some(lock) => Some(OwnerAt {
            owner: lock.owner,
            count: lock.count,
        }),
        None => None,
    }
}

/// Where a function of C's has the object that it is bound to.
fn receiver_place(records: &Records) -> Option<u32>
    ensures { result ≡ receiver_place records.now }
{
    match records.callables.builtin {
        Some(builtin) => Some(builtin.receiver),
        None => None,
    }
}

/// The places, by the addresses of these types.
#[tactic(auto, unfolding(crate::specs::Types::places_with))]
fn places_with(
    layout: &Layout,
    records: &Records,
    lock: Option<u64>,
    rlock: Option<u64>,
    queue: Option<u64>,
) -> WaitPlaces
    ensures { result ≡ places_with layout.now records.now lock rlock queue }
{
    let locks = &records.locks;
    WaitPlaces {
        klass: layout.object.klass,
        receiver: receiver_place(records),
        lock: lock_waitable(locks, lock),
        rlock: rlock_waitable(locks, rlock),
        queue: queue_waitable(locks, queue),
        parked_lock: parked_lock(locks, lock),
        parked_queue: parked_queue(locks, queue),
        owner: owner_place(locks),
    }
}

/// The type of locks that an interpreter's modules have. At most 262154 reads.
fn lock_type<P: ProcessMemory>(
    alloc: Global,
    process: &mut P,
    layout: &Layout,
    records: &Records,
    modules: Option<u64>,
) -> Result<Option<u64>, ReadFault>
    requires sound { IsSound layout.now }
    ensures { Reads read_fault 262154 (P.seen process.old) (P.seen process.new)
        (λ m. lock_type layout.now records.now m modules) result }
{
    let (fields, size) = (fields_of(records), lock_size(&records.locks));
    type_in(
        alloc, process, layout, fields, modules, "_thread", "LockType", size,
    )
}

/// The type of reentrant locks. At most 262154 reads.
fn rlock_type<P: ProcessMemory>(
    alloc: Global,
    process: &mut P,
    layout: &Layout,
    records: &Records,
    modules: Option<u64>,
) -> Result<Option<u64>, ReadFault>
    requires sound { IsSound layout.now }
    ensures { Reads read_fault 262154 (P.seen process.old) (P.seen process.new)
        (λ m. rlock_type layout.now records.now m modules) result }
{
    let (fields, size) = (fields_of(records), rlock_size(&records.locks));
    type_in(
        alloc, process, layout, fields, modules, "_thread", "RLock", size,
    )
}

/// The type of queues. At most 262154 reads.
fn queue_type<P: ProcessMemory>(
    alloc: Global,
    process: &mut P,
    layout: &Layout,
    records: &Records,
    modules: Option<u64>,
) -> Result<Option<u64>, ReadFault>
    requires sound { IsSound layout.now }
    ensures { Reads read_fault 262154 (P.seen process.old) (P.seen process.new)
        (λ m. queue_type layout.now records.now m modules) result }
{
    let (fields, size) = (fields_of(records), queue_size(&records.locks));
    type_in(
        alloc,
        process,
        layout,
        fields,
        modules,
        "_queue",
        "SimpleQueue",
        size,
    )
}

/// The places of what the threads of the interpreter at an address wait for, by the records of its version. Types are
/// those that its modules `_thread` and `_queue` have as `LockType`, `RLock` and `SimpleQueue`, where each is a type
/// whose instances have the size that the records say; one that can't be found is none.
///
/// The one error is out of memory. At most 786463 reads.
#[tactic(auto, unfolding(crate::specs::Types::places_at))]
pub fn read_places<P: ProcessMemory>(
    alloc: Global,
    process: &mut P,
    layout: &Layout,
    records: &Records,
    interpreter: u64,
) -> Result<WaitPlaces, ReadFault>
    requires sound { IsSound layout.now }
    ensures { Reads read_fault 786463 (P.seen process.old) (P.seen process.new)
        (λ m. places_at layout.now records.now m interpreter) result }
{
    let modules = word_in(
        process,
        Some(interpreter),
        layout.interpreter.modules as u64,
    )?;
    let lock = lock_type(alloc, process, layout, records, modules)?;
    let rlock = rlock_type(alloc, process, layout, records, modules)?;
    let queue = queue_type(alloc, process, layout, records, modules)?;
    Ok(places_with(layout, records, lock, rlock, queue))
}
