//! The lock of an interpreter.
ghost use Rattle.std.specs.Prelude.{◌≡◌, IsErrOf, IsTrue};
ghost use Rattle.process_memory.specs.Seen.{Reading};
ghost use Rattle.py_fields.specs.Sound.{IsSound};
ghost use Rattle.py_stacks.specs.Holder.{holder_id_at};
ghost use Rattle.py_process.specs.Facts.{known_of};
ghost use Rattle.py_fronts.specs.Answers.{IsOrNoMemory};
ghost use Rattle.py_fronts.specs.Locks.{IsGone, holder_told, holds_lock, lock_told};

use crate::id::names_thread;
use crate::thread_front::ThreadFront;
use elf64_core::Machine;
use image_memory::ContainsAddr;
use process_memory::ProcessMemory;
use py_fields::{Layout, Version};
use py_process::{LockError, PythonProcessInfo, get_threadstate_address};
use py_stacks::{Config, StackError, get_gil_threadid};

/// What is known of the lock of an interpreter.
#[derive(Clone, Copy, Debug, PartialEq, Eq)]
pub enum LockState {
    /// The id of the thread that holds it; 0 where none does, or nothing tells where the lock is.
    Holder(u64),
    /// What tells it is not in memory: `len` bytes at `addr`.
    Unreadable { addr: u64, len: u64 },
}

/// Whether a thread holds the lock of its interpreter: its id is the holder's. None does where the holder is 0, though
/// a report marks threads of that id then.
pub fn holds_lock(lock: LockState, thread: &ThreadFront) -> bool
    ensures { result ≡ holds_lock lock thread.now }
{
    match lock {
        LockState::Holder(holder) => names_thread(holder, thread.thread_id),
        LockState::Unreadable { .. } => false,
    }
}

/// The state of a lock by its address. At most 2 reads.
fn state_at<P: ProcessMemory>(
    lock: u64,
    process: &mut P,
    layout: &Layout,
) -> Result<LockState, StackError>
    requires sound { IsSound layout.now }
    ensures answer { Reading 2 (P.seen process.old) (P.seen process.new)
        (λ m. IsOrNoMemory (holder_told (holder_id_at layout.now m lock)) result) }
    ensures memory { IsErrOf result StackError.OutOfMemory → IsTrue (P.seen process.old).may_want_memory }
{
    match get_gil_threadid(lock, process, layout) {
        Ok(holder) => Ok(LockState::Holder(holder)),
        Err(StackError::Unreadable { addr, len }) => Ok(LockState::Unreadable { addr, len }),
        Err(StackError::OutOfMemory) => Err(StackError::OutOfMemory),
        // no other fault is met on the way to a holder
        Err(_) => Ok(LockState::Holder(0)),
    }
}

/// A lock whose address is not known: it is not in memory, or nothing tells where it is. Else memory was wanting.
fn gone(error: LockError) -> Result<LockState, StackError>
    ensures { IsGone error result }
{
    match error {
        LockError::Unreadable { addr, len } => Ok(LockState::Unreadable { addr, len }),
        LockError::NoLock => Ok(LockState::Holder(0)),
        LockError::OutOfMemory => Err(StackError::OutOfMemory),
    }
}

/// The state of an interpreter's own lock: who holds it, or what is not in memory of what tells it.
///
/// The lock is found as `py_process::get_threadstate_address` says, and its holder read as
/// `py_stacks::get_gil_threadid` does. The one error is out of memory, and it comes only where a read of the
/// process may want it. At most 3 reads.
pub fn lock_state<M: ContainsAddr, P: ProcessMemory>(
    interpreter: u64,
    info: &PythonProcessInfo<M>,
    process: &mut P,
    machine: Machine,
    version: &Version,
    layout: &Layout,
) -> Result<LockState, StackError>
    requires sound { IsSound layout.now }
    ensures answer { Reading 3 (P.seen process.old) (P.seen process.new) (λ m. IsOrNoMemory
        (lock_told machine (known_of info.now) version.now layout.now m interpreter) result) }
    ensures memory { IsErrOf result StackError.OutOfMemory → IsTrue (P.seen process.old).may_want_memory }
{
    let config = Config::default();
    let found = get_threadstate_address(
        interpreter,
        info,
        process,
        machine,
        version,
        layout,
        &config,
    );
    match found {
        Ok(lock) => state_at(lock, process, layout),
        Err(error) => gone(error),
    }
}
