//! What a thread waits for.
ghost use Rattle.std.specs.Prelude.{◌≡◌, IfOk, IfSome};
ghost use Rattle.process_memory.specs.Seen.{Reading, Reads, read_fault};
ghost use Rattle.py_waits.specs.Waits.{IsWaiting, held_by, is_within, lock_range_at, looked_at, own_range, owner_at};
ghost use Rattle.py_waits.specs.Waits.{owner_if, past, range_at, range_from, runtime_range, told_at, wait_at};

use crate::frames::searched_at;
use crate::objects::{Waited, parked_at};
use crate::places::{Kind, OwnerAt, WaitPlaces};
use crate::words::word_in;
use process_memory::{ProcessMemory, ReadFault};
use py_fields::Layout;
use py_records::{InterpreterLockRecord, LockRecords, RuntimeLockRecord};

/// Where the record of an interpreter's lock stands.
#[derive(Clone, Copy, Debug, Drop, PartialEq, Eq)]
pub struct LockRange {
    pub address: u64,
    /// How many bytes it has.
    pub size: u32,
}

/// What a thread waits for.
#[derive(Clone, Copy, Debug, Drop, PartialEq, Eq)]
pub enum Wait {
    /// The interpreter's lock.
    Interpreter,
    /// A lock, by the address of the object. It has no owner.
    Lock { address: u64 },
    /// A reentrant lock, and the id of the thread that holds it, where one does.
    Rlock { address: u64, owner: Option<u64> },
    /// A queue of the module `_queue`, for something in it.
    Queue { address: u64 },
}

/// Whether an address lies in the record of a lock.
fn is_within(range: Option<LockRange>, at: u64) -> bool
    ensures { result ≡ is_within range at }
{
    match range {
        Some(range) => range.address <= at && at - range.address < range.size as u64,
        None => false,
    }
}

/// The owner of a reentrant lock, where it is held.
fn owner_if(count: Option<u64>, owner: Option<u64>) -> Option<u64>
    ensures { result ≡ owner_if count owner }
{
    match count {
        Some(count) => {
            if count == 0 {
                return None;
            }
            owner
        }
        None => None,
    }
}

/// The id of the thread that holds a reentrant lock, where one does. At most 2 reads.
fn owner_at<P: ProcessMemory>(
    process: &mut P,
    owner: Option<OwnerAt>,
    address: u64,
) -> Result<Option<u64>, ReadFault>
    ensures { Reads read_fault 2 (P.seen process.old) (P.seen process.new)
        (λ m. owner_at m owner address) result }
{
    match owner {
        None => Ok(None),
        Some(place) => {
            let count = word_in(process, Some(address), place.count as u64)?;
            let owner = word_in(process, Some(address), place.owner as u64)?;
            Ok(owner_if(count, owner))
        }
    }
}

/// What a thread waits for, by the object that was found. At most 2 reads.
fn held_by<P: ProcessMemory>(
    process: &mut P,
    owner: Option<OwnerAt>,
    kind: Kind,
    address: u64,
) -> Result<Option<Wait>, ReadFault>
    ensures { Reads read_fault 2 (P.seen process.old) (P.seen process.new)
        (λ m. held_by m owner kind address) result }
{
    match kind {
        Kind::Lock => Ok(Some(Wait::Lock { address })),
        Kind::Queue => Ok(Some(Wait::Queue { address })),
        Kind::Rlock => {
            let owner = owner_at(process, owner, address)?;
            Ok(Some(Wait::Rlock { address, owner }))
        }
    }
}

/// The same, where one was found. At most 2 reads.
fn told_at<P: ProcessMemory>(
    process: &mut P,
    owner: Option<OwnerAt>,
    found: Option<Waited>,
) -> Result<Option<Wait>, ReadFault>
    ensures { Reads read_fault 2 (P.seen process.old) (P.seen process.new)
        (λ m. told_at m owner found) result }
{
    match found {
        Some(waited) => held_by(process, owner, waited.kind, waited.address),
        None => Ok(None),
    }
}

/// What a thread waits for that stands at a word which isn't the interpreter's lock's. At most 2313 reads.
#[tactic(auto, unfolding(crate::specs::Waits::looked_at))]
fn looked_at<P: ProcessMemory>(
    process: &mut P,
    layout: &Layout,
    places: &WaitPlaces,
    thread: u64,
    at: u64,
) -> Result<Option<Wait>, ReadFault>
    ensures { Reads read_fault 2313 (P.seen process.old) (P.seen process.new)
        (λ m. looked_at layout.now m places.now thread at) result }
{
    let parked = parked_at(process, places, at)?;
    let found = searched_at(process, layout, places, thread, at, parked)?;
    told_at(process, places.owner, found)
}

/// The same, where it is the interpreter's lock too. At most 2313 reads.
fn own_wait<P: ProcessMemory>(
    process: &mut P,
    layout: &Layout,
    places: &WaitPlaces,
    gil: Option<LockRange>,
    thread: u64,
    at: u64,
) -> Result<Option<Wait>, ReadFault>
    ensures { Reads read_fault 2313 (P.seen process.old) (P.seen process.new)
        (λ m. wait_at layout.now m places.now gil thread at) result }
{
    if is_within(gil, at) {
        return Ok(Some(Wait::Interpreter));
    }
    looked_at(process, layout, places, thread, at)
}

/// What the thread whose record stands at an address waits for, which stands at the word `at` in the system.
///
/// It is the interpreter's lock where that word lies in its record, `gil`. Else it is a lock or a queue in whose own
/// bytes the thread is parked (3.13 on); else the first lock, reentrant lock or queue whose semaphore is that word,
/// among these: the first 128 words of each of the thread's three newest frames, from its first variable on, and the
/// object that what stands there is bound to. None comes where none of them is. A word that is not in memory is passed
/// over.
///
/// The one error is out of memory, and it comes only where a read of the process may want it. At most 2313 reads.
pub fn read_wait<P: ProcessMemory>(
    process: &mut P,
    layout: &Layout,
    places: &WaitPlaces,
    gil: Option<LockRange>,
    thread: u64,
    at: u64,
) -> Result<Option<Wait>, ReadFault>
    ensures answer { Reads read_fault 2313 (P.seen process.old) (P.seen process.new)
        (λ m. wait_at layout.now m places.now gil thread at) result }
    // what is told is waited for
    ensures right { Reading 2313 (P.seen process.old) (P.seen process.new)
        (λ m. IfOk result (λ wait. IfSome wait (IsWaiting m places.now gil at))) }
{
    own_wait(process, layout, places, gil, thread, at)
}

/// The range so many bytes behind an address.
fn range_from(address: Option<u64>, size: u32) -> Option<LockRange>
    ensures { result ≡ range_from address size }
{
    match address {
        Some(address) => Some(LockRange { address, size }),
        None => None,
    }
}

/// The range in the runtime's record.
fn runtime_range(group: Option<RuntimeLockRecord>, runtime: Option<u64>) -> Option<LockRange>
    ensures { result ≡ runtime_range group runtime }
{
    match (group, runtime) {
        (Some(group), Some(runtime)) => range_from(past(runtime, group.place as u64), group.size),
        _ => None,
    }
}

/// An address, so many bytes on; none where that is past the last one.
fn past(address: u64, by: u64) -> Option<u64>
    ensures { result ≡ past address by }
{
    address.checked_add(by)
}

/// The range of so many bytes that an interpreter names, where it is said where. At most one read.
fn range_at<P: ProcessMemory>(
    process: &mut P,
    size: u32,
    place: Option<u32>,
    interpreter: u64,
) -> Result<Option<LockRange>, ReadFault>
    ensures { Reads read_fault 1 (P.seen process.old) (P.seen process.new)
        (λ m. range_at m size place interpreter) result }
{
    match place {
        None => Ok(None),
        Some(place) => {
            let address = word_in(process, Some(interpreter), place as u64)?;
            Ok(range_from(address, size))
        }
    }
}

/// The range that an interpreter names. At most one read.
fn own_range<P: ProcessMemory>(
    process: &mut P,
    group: Option<InterpreterLockRecord>,
    place: Option<u32>,
    interpreter: u64,
) -> Result<Option<LockRange>, ReadFault>
    ensures { Reads read_fault 1 (P.seen process.old) (P.seen process.new)
        (λ m. own_range m group place interpreter) result }
{
    match group {
        None => Ok(None),
        Some(group) => range_at(process, group.size, place, interpreter),
    }
}

/// Where the record of an interpreter's lock stands: from 3.12 on the one that the interpreter names, and from 3.7 on
/// to 3.11 that in the runtime's record, whose address is `runtime`. None comes where it is not described, or that word
/// is not in memory. At most one read.
#[tactic(auto, unfolding(crate::specs::Waits::lock_range_at))]
pub fn read_lock_range<P: ProcessMemory>(
    process: &mut P,
    layout: &Layout,
    locks: &LockRecords,
    runtime: Option<u64>,
    interpreter: u64,
) -> Result<Option<LockRange>, ReadFault>
    ensures { Reads read_fault 1 (P.seen process.old) (P.seen process.new)
        (λ m. lock_range_at layout.now m locks.now runtime interpreter) result }
{
    let own = own_range(
        process,
        locks.interpreter_lock,
        layout.interpreter.gil,
        interpreter,
    )?;
    Ok(own.or(runtime_range(locks.runtime_lock, runtime)))
}
