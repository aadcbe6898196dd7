//! Where the lock of an interpreter is.
ghost use Rattle.std.specs.Prelude.{◌+◌, IsErrOf, IsTrue, Some};
ghost use Rattle.process_memory.specs.Memory.{word_at};
ghost use Rattle.process_memory.specs.Seen.{Reading};
ghost use Rattle.py_fields.specs.Sound.{IsSound};
ghost use Rattle.py_process.specs.Facts.{known_of};
ghost use Rattle.py_process.specs.Lock.{FoundIs, LockIs, in_runtime, lock_found};

use crate::{LockError, PythonProcessInfo};
use elf64_core::Machine;
use image_memory::ContainsAddr;
use process_memory::{ProcessMemory, ReadFault, word_past};
use py_fields::{Layout, Lock, Version, get_tstate_current_offset};
use py_stacks::Config;

/// A place in the runtime; none where its symbol or the place is not known.
fn in_runtime(runtime: Option<u64>, offset: Option<u64>) -> Result<Option<u64>, LockError>
    ensures answer { FoundIs (in_runtime runtime offset) result }
    ensures memory { ¬ IsErrOf result LockError.OutOfMemory }
{
    let (Some(runtime), Some(offset)) = (runtime, offset) else {
        return Ok(None);
    };
    match runtime.checked_add(offset) {
        Some(addr) => Ok(Some(addr)),
        None => Err(LockError::Unreadable {
            addr: u64::MAX,
            len: 8,
        }),
    }
}

/// The word of an interpreter that holds the address of its lock. At most one read.
fn read_lock<P: ProcessMemory>(
    process: &mut P,
    interpreter: u64,
    offset: u64,
) -> Result<Option<u64>, LockError>
    ensures answer { Reading 1 (P.seen process.old) (P.seen process.new)
        (λ m. FoundIs (Some (word_at m (interpreter + offset))) result) }
    ensures memory { IsErrOf result LockError.OutOfMemory → IsTrue (P.seen process.old).may_want_memory }
{
    match word_past(process, interpreter, offset) {
        Ok(lock) => Ok(Some(lock)),
        Err(ReadFault::Unreadable { addr, len }) => Err(LockError::Unreadable { addr, len }),
        Err(ReadFault::OutOfMemory) => Err(LockError::OutOfMemory),
    }
}

/// The lock's address by the layout's family; none where a symbol or an offset is missing. At most one read.
fn find_family_lock<M: ContainsAddr, P: ProcessMemory>(
    interpreter: u64,
    info: &PythonProcessInfo<M>,
    process: &mut P,
    machine: Machine,
    version: &Version,
    layout: &Layout,
) -> Result<Option<u64>, LockError>
    requires sound { IsSound layout.now }
    ensures answer { Reading 1 (P.seen process.old) (P.seen process.new)
        (λ m. FoundIs (lock_found machine (known_of info.now) version.now layout.now m interpreter) result) }
    ensures memory { IsErrOf result LockError.OutOfMemory → IsTrue (P.seen process.old).may_want_memory }
{
    match (layout.lock, layout.interpreter.gil) {
        (Lock::Gil, Some(gil)) => read_lock(process, interpreter, gil as u64),
        (Lock::Gil, None) => Ok(None),
        (Lock::Runtime, _) => {
            let offset = get_tstate_current_offset(machine, version);
            in_runtime(info.symbol(b"_PyRuntime"), offset)
        }
        (Lock::Symbol, _) => Ok(info.symbol(b"_PyThreadState_Current")),
    }
}

/// The address of what names the holder of an interpreter's lock (`py_stacks::get_gil_threadid` reads the holder
/// there), by the layout's family: with the lock `gil` the word of the interpreter that holds it; with `runtime`
/// `_PyRuntime` plus the place of the current thread for the machine and the version; with `symbol` the address of
/// `_PyThreadState_Current`. It is 0 where a symbol or that place is missing.
///
/// `interpreter` is an address, and `machine` that of the core's header.
///
/// `Unreadable` comes exactly where that word is not in memory, or the sum passes 2^64 - 1, which names 8 bytes
/// there; `NoLock` exactly where the `Config` asks for the holder alone and a symbol or that place is missing. It
/// takes no memory: out of memory comes only where a read of the process may want it. At most one read.
pub fn get_threadstate_address<M: ContainsAddr, P: ProcessMemory>(
    interpreter: u64,
    info: &PythonProcessInfo<M>,
    process: &mut P,
    machine: Machine,
    version: &Version,
    layout: &Layout,
    config: &Config,
) -> Result<u64, LockError>
    requires sound { IsSound layout.now }
    ensures answer { Reading 1 (P.seen process.old) (P.seen process.new)
        (λ m. LockIs config.now (lock_found machine (known_of info.now) version.now layout.now m interpreter) result) }
    ensures memory { IsErrOf result LockError.OutOfMemory → IsTrue (P.seen process.old).may_want_memory }
{
    match find_family_lock(interpreter, info, process, machine, version, layout)? {
        Some(addr) => Ok(addr),
        None if config.gil_only => Err(LockError::NoLock),
        None => Ok(0),
    }
}
