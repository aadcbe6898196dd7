//! Locks, and queues that wait by one.
ghost use Rattle.std.specs.Prelude.{◌≡◌, ◌↔◌, IsTrue, IfSome, option_map, codes, Some, None};
ghost use Rattle.toml.specs.View.{table_view};
ghost use Rattle.py_layout.specs.Values.{group_at};
ghost use Rattle.py_records.specs.Locks.{lock_places, IsSoundLock, lock_in, lock_mutex_places, IsSoundLockMutex};
ghost use Rattle.py_records.specs.Locks.{lock_mutex_in, rlock_places, IsSoundRlock, rlock_in, simple_queue_places};
ghost use Rattle.py_records.specs.Locks.{IsSoundSimpleQueue, simple_queue_in, simple_queue_parked_places};
ghost use Rattle.py_records.specs.Locks.{IsSoundSimpleQueueParked, simple_queue_parked_in, IsSoundRuntimeLock};
ghost use Rattle.py_records.specs.Locks.{runtime_lock_in, IsSoundInterpreterLock, interpreter_lock_in, locks_from};
ghost use Rattle.py_records.specs.Locks.{AreSoundLocks, joined_locks, share_locks, no_locks};

use crate::places::{any_both, are_plain, is_record};
use crate::values::{group_at, number_in};
use toml::Table;

/// A lock (`lockobject`, Modules/_threadmodule.c).
#[derive(Clone, Copy)]
pub struct LockRecord {
    /// The basic size that its type states.
    pub size: u32,
    /// The address of the lock of the system.
    pub semaphore: u32,
    /// Whether it is held. It has 1 byte.
    pub locked: u32,
}

/// A lock in later patches of 3.13 (`lockobject`, Modules/_threadmodule.c).
#[derive(Clone, Copy)]
pub struct LockMutexRecord {
    /// The basic size that its type states.
    pub size: u32,
    /// The mutex. It has 1 byte.
    pub mutex: u32,
}

/// A reentrant lock (`rlockobject`, Modules/_threadmodule.c).
#[derive(Clone, Copy)]
pub struct RlockRecord {
    /// The basic size that its type states.
    pub size: u32,
    /// The address of the lock of the system.
    pub semaphore: u32,
    /// The id of the thread that holds it.
    pub owner: u32,
    /// How often that thread holds it.
    pub count: u32,
}

/// A `SimpleQueue` from 3.7 to 3.12 (`simplequeueobject`, Modules/_queuemodule.c).
#[derive(Clone, Copy)]
pub struct SimpleQueueRecord {
    /// The basic size that its type states.
    pub size: u32,
    /// The address of the lock of the system.
    pub semaphore: u32,
}

/// A `SimpleQueue` from 3.13 on (`simplequeueobject`, Modules/_queuemodule.c).
#[derive(Clone, Copy)]
pub struct SimpleQueueParkedRecord {
    /// The basic size that its type states.
    pub size: u32,
    /// The byte that threads wait at. It has 1 byte.
    pub waiting: u32,
}

/// The interpreter lock from 3.7 to 3.11 (`struct _gil_runtime_state`, Include/internal/pycore_gil.h).
#[derive(Clone, Copy)]
pub struct RuntimeLockRecord {
    pub size: u32,
    /// Where it begins in the runtime record.
    pub place: u32,
}

/// The interpreter lock from 3.12 on (`struct _gil_runtime_state`, Include/internal/pycore_gil.h).
#[derive(Clone, Copy)]
pub struct InterpreterLockRecord {
    pub size: u32,
}

/// Locks, and queues that wait by one. Each group is there or not.
#[derive(Clone, Copy)]
pub struct LockRecords {
    pub lock: Option<LockRecord>,
    pub lock_mutex: Option<LockMutexRecord>,
    pub rlock: Option<RlockRecord>,
    pub simple_queue: Option<SimpleQueueRecord>,
    pub simple_queue_parked: Option<SimpleQueueParkedRecord>,
    pub runtime_lock: Option<RuntimeLockRecord>,
    pub interpreter_lock: Option<InterpreterLockRecord>,
}

fn lock_from(table: &Table) -> Option<LockRecord>
    ensures { result ≡ option_map lock_in (group_at (table_view table.now) (codes "lock")) }
{
    match group_at(table, "lock") {
        Some(group) => Some(LockRecord {
            size: number_in(group, "size"),
            semaphore: number_in(group, "semaphore"),
            locked: number_in(group, "locked"),
        }),
        None => None,
    }
}

#[tactic(auto, unfolding(crate::specs::Locks::lock_places))]
fn is_sound_lock(at: Option<LockRecord>) -> bool
    ensures { IsTrue result ↔ IfSome at IsSoundLock }
{
    match at {
        Some(at) => is_record(at.size, &[(at.semaphore, 8), (at.locked, 1)]),
        None => true,
    }
}

fn lock_mutex_from(table: &Table) -> Option<LockMutexRecord>
    ensures { result ≡ option_map lock_mutex_in (group_at (table_view table.now) (codes "lock_mutex")) }
{
    match group_at(table, "lock_mutex") {
        Some(group) => Some(LockMutexRecord {
            size: number_in(group, "size"),
            mutex: number_in(group, "mutex"),
        }),
        None => None,
    }
}

#[tactic(auto, unfolding(crate::specs::Locks::lock_mutex_places))]
fn is_sound_lock_mutex(at: Option<LockMutexRecord>) -> bool
    ensures { IsTrue result ↔ IfSome at IsSoundLockMutex }
{
    match at {
        Some(at) => is_record(at.size, &[(at.mutex, 1)]),
        None => true,
    }
}

fn rlock_from(table: &Table) -> Option<RlockRecord>
    ensures { result ≡ option_map rlock_in (group_at (table_view table.now) (codes "rlock")) }
{
    match group_at(table, "rlock") {
        Some(group) => Some(RlockRecord {
            size: number_in(group, "size"),
            semaphore: number_in(group, "semaphore"),
            owner: number_in(group, "owner"),
            count: number_in(group, "count"),
        }),
        None => None,
    }
}

#[tactic(auto, unfolding(crate::specs::Locks::rlock_places))]
fn is_sound_rlock(at: Option<RlockRecord>) -> bool
    ensures { IsTrue result ↔ IfSome at IsSoundRlock }
{
    match at {
        Some(at) => is_record(at.size, &[(at.semaphore, 8), (at.owner, 8), (at.count, 8)]),
        None => true,
    }
}

fn simple_queue_from(table: &Table) -> Option<SimpleQueueRecord>
    ensures { result ≡ option_map simple_queue_in (group_at (table_view table.now) (codes "simple_queue")) }
{
    match group_at(table, "simple_queue") {
        Some(group) => Some(SimpleQueueRecord {
            size: number_in(group, "size"),
            semaphore: number_in(group, "semaphore"),
        }),
        None => None,
    }
}

#[tactic(auto, unfolding(crate::specs::Locks::simple_queue_places))]
fn is_sound_simple_queue(at: Option<SimpleQueueRecord>) -> bool
    ensures { IsTrue result ↔ IfSome at IsSoundSimpleQueue }
{
    match at {
        Some(at) => is_record(at.size, &[(at.semaphore, 8)]),
        None => true,
    }
}

fn simple_queue_parked_from(table: &Table) -> Option<SimpleQueueParkedRecord>
    ensures { result
        ≡ option_map simple_queue_parked_in (group_at (table_view table.now) (codes "simple_queue_parked")) }
{
    match group_at(table, "simple_queue_parked") {
        Some(group) => Some(SimpleQueueParkedRecord {
            size: number_in(group, "size"),
            waiting: number_in(group, "waiting"),
        }),
        None => None,
    }
}

#[tactic(auto, unfolding(crate::specs::Locks::simple_queue_parked_places))]
fn is_sound_simple_queue_parked(at: Option<SimpleQueueParkedRecord>) -> bool
    ensures { IsTrue result ↔ IfSome at IsSoundSimpleQueueParked }
{
    match at {
        Some(at) => is_record(at.size, &[(at.waiting, 1)]),
        None => true,
    }
}

fn runtime_lock_from(table: &Table) -> Option<RuntimeLockRecord>
    ensures { result ≡ option_map runtime_lock_in (group_at (table_view table.now) (codes "runtime_lock")) }
{
    match group_at(table, "runtime_lock") {
        Some(group) => Some(RuntimeLockRecord {
            size: number_in(group, "size"),
            place: number_in(group, "place"),
        }),
        None => None,
    }
}

fn is_sound_runtime_lock(at: Option<RuntimeLockRecord>) -> bool
    ensures { IsTrue result ↔ IfSome at IsSoundRuntimeLock }
{
    match at {
        Some(at) => is_record(at.size, &[]) && are_plain(&[at.place]),
        None => true,
    }
}

fn interpreter_lock_from(table: &Table) -> Option<InterpreterLockRecord>
    ensures { result ≡ option_map interpreter_lock_in (group_at (table_view table.now) (codes "interpreter_lock")) }
{
    match group_at(table, "interpreter_lock") {
        Some(group) => Some(InterpreterLockRecord {
            size: number_in(group, "size"),
        }),
        None => None,
    }
}

fn is_sound_interpreter_lock(at: Option<InterpreterLockRecord>) -> bool
    ensures { IsTrue result ↔ IfSome at IsSoundInterpreterLock }
{
    match at {
        Some(at) => is_record(at.size, &[]),
        None => true,
    }
}

/// The groups that a table says.
#[tactic(auto, unfolding(crate::specs::Locks::locks_from))]
pub fn locks_from(table: &Table) -> LockRecords
    ensures { result ≡ locks_from (table_view table.now) }
{
    LockRecords {
        lock: lock_from(table),
        lock_mutex: lock_mutex_from(table),
        rlock: rlock_from(table),
        simple_queue: simple_queue_from(table),
        simple_queue_parked: simple_queue_parked_from(table),
        runtime_lock: runtime_lock_from(table),
        interpreter_lock: interpreter_lock_from(table),
    }
}

/// Whether each group that is there is sound.
pub fn are_sound_locks(records: &LockRecords) -> bool
    ensures { IsTrue result ↔ AreSoundLocks records.now }
{
    is_sound_lock(records.lock)
        && is_sound_lock_mutex(records.lock_mutex)
        && is_sound_rlock(records.rlock)
        && is_sound_simple_queue(records.simple_queue)
        && is_sound_simple_queue_parked(records.simple_queue_parked)
        && is_sound_runtime_lock(records.runtime_lock)
        && is_sound_interpreter_lock(records.interpreter_lock)
}

/// No group is there.
pub fn no_locks() -> LockRecords
    ensures { result ≡ no_locks }
{
    LockRecords {
        lock: None,
        lock_mutex: None,
        rlock: None,
        simple_queue: None,
        simple_queue_parked: None,
        runtime_lock: None,
        interpreter_lock: None,
    }
}

/// Each group of the first that is there, and else of the second.
#[tactic(auto, unfolding(crate::specs::Locks::joined_locks))]
pub fn joined_locks(one: &LockRecords, other: &LockRecords) -> LockRecords
    ensures { result ≡ joined_locks one.now other.now }
{
    LockRecords {
        lock: one.lock.or(other.lock),
        lock_mutex: one.lock_mutex.or(other.lock_mutex),
        rlock: one.rlock.or(other.rlock),
        simple_queue: one.simple_queue.or(other.simple_queue),
        simple_queue_parked: one.simple_queue_parked.or(other.simple_queue_parked),
        runtime_lock: one.runtime_lock.or(other.runtime_lock),
        interpreter_lock: one.interpreter_lock.or(other.interpreter_lock),
    }
}

/// Whether a group is there in both.
#[tactic(auto, unfolding(crate::specs::Locks::share_locks))]
pub fn share_locks(one: &LockRecords, other: &LockRecords) -> bool
    ensures { result ≡ share_locks one.now other.now }
{
    any_both(
        &[
            one.lock.is_some(),
            one.lock_mutex.is_some(),
            one.rlock.is_some(),
            one.simple_queue.is_some(),
            one.simple_queue_parked.is_some(),
            one.runtime_lock.is_some(),
            one.interpreter_lock.is_some(),
        ],
        &[
            other.lock.is_some(),
            other.lock_mutex.is_some(),
            other.rlock.is_some(),
            other.simple_queue.is_some(),
            other.simple_queue_parked.is_some(),
            other.runtime_lock.is_some(),
            other.interpreter_lock.is_some(),
        ],
    )
}
