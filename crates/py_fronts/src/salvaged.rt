//! What is left of a process's stacks.
ghost use Rattle.std.specs.Prelude.{◌≡◌, ◌≤◌, ◌*◌, ◌+◌, ◌^◌, is_some, length, map, position};
ghost use Rattle.process_memory.specs.Seen.{Reading};
ghost use Rattle.process_memory.specs.Memory.{byte_at};
ghost use Rattle.py_fields.specs.Sound.{IsSound};
ghost use Rattle.py_process.specs.Facts.{known_of};
ghost use Rattle.py_fronts.specs.Answers.{IsOrNoMemory};
ghost use Rattle.py_fronts.specs.Salvaged.{Salvaging, first_crashed, has_crashed, locked_result, salvaged_at};
ghost use Rattle.py_fronts.specs.Salvaged.{salvage_most, salvaged_result, with_locks};

use crate::crash::{Crash, crashed_at};
use crate::fronts::{InterpreterFront, get_fronts};
use crate::lock::{LockState, lock_state};
use crate::search::Looked;
use elf64_core::Machine;
use image_memory::ContainsAddr;
use process_memory::ProcessMemory;
use py_fields::{Layout, Version};
use py_process::PythonProcessInfo;
use py_stacks::{Asked, StackError};
use std::alloc::Global;

/// An interpreter, as far as its chains go, with its lock.
#[derive(Debug, Drop)]
pub struct SalvagedInterpreter {
    /// The interpreter.
    pub front: InterpreterFront,
    /// Its lock.
    pub lock: LockState,
}

/// What is left of a process's stacks.
#[derive(Debug, Drop)]
pub struct Salvaged {
    /// The interpreters that are shown.
    pub interpreters: Vec<SalvagedInterpreter>,
    /// Whether there are more.
    pub more: bool,
    /// What was looked at for them.
    pub looked: Looked,
    /// The thread that got a signal, where one did.
    pub crash: Option<Crash>,
}

/// Whether a thread of an interpreter got the signal.
fn has_crashed(crash: Option<Crash>, interpreter: &SalvagedInterpreter) -> bool
    ensures { result ≡ has_crashed crash interpreter.now }
{
    crashed_at(crash, &interpreter.front.threads.threads).is_some()
}

/// The index of the first interpreter of which a thread got the signal, where there is one.
pub fn first_crashed(crash: Option<Crash>, interpreters: &[SalvagedInterpreter]) -> Option<usize>
    ensures { result ≡ first_crashed crash interpreters.now }
{
    interpreters
        .iter()
        .position(|interpreter| has_crashed(crash, interpreter))
}

/// Some interpreters with their own locks, in order. The one error is out of memory. At most 3 reads for each.
pub fn with_locks<M: ContainsAddr, P: ProcessMemory>(
    alloc: Global,
    info: &PythonProcessInfo<M>,
    process: &mut P,
    machine: Machine,
    version: &Version,
    layout: &Layout,
    fronts: Vec<InterpreterFront>,
) -> Result<Vec<SalvagedInterpreter>, StackError>
    requires sound { IsSound layout.now }
    ensures { Reading (3 * length fronts.items) (P.seen process.old) (P.seen process.new) (λ m. IsOrNoMemory
        (with_locks machine (known_of info.now) version.now layout.now m fronts.items) (locked_result result)) }
{
    let mut interpreters = Vec::new(alloc);
    for front in fronts {
        let address = front.address;
        let lock = lock_state(address, info, process, machine, version, layout)?;
        interpreters.push(SalvagedInterpreter { front, lock })?;
    }
    Ok(interpreters)
}

/// What is left of a process's stacks: its interpreters, as `py_fronts::get_fronts` has them, each with its own lock.
///
/// `crash` is handed on. The one error is out of memory. The reads are those of `get_fronts`, and 3 for each lock.
pub fn salvage<M: ContainsAddr, P: ProcessMemory>(
    alloc: Global,
    info: &PythonProcessInfo<M>,
    process: &mut P,
    machine: Machine,
    version: &Version,
    layout: &Layout,
    asked: Asked,
    limit: usize,
    crash: Option<Crash>,
) -> Result<Salvaged, StackError>
    requires sound { IsSound layout.now }
    requires few { limit ≤ 4096 }
    ensures answer { Salvaging (M.contains info.now.maps) (known_of info.now) version.now layout.now asked limit
        (P.seen process.old) (P.seen process.new) (λ m. IsOrNoMemory
        (salvaged_at (M.contains info.now.maps) machine (known_of info.now)
        version.now layout.now m asked limit crash) (salvaged_result result)) }
    // whatever the memory holds, as cyclic chains
    ensures most { (P.seen process.new).reads ≤ (P.seen process.old).reads + salvage_most (M.contains info.now.maps)
        (known_of info.now) version.now layout.now (byte_at (P.seen process.old).pieces) asked limit }
{
    let fronts = get_fronts(alloc, info, process, version, layout, asked, limit)?;
    let more = fronts.more;
    let looked = fronts.looked;
    let found = fronts.interpreters;
    let interpreters = with_locks(alloc, info, process, machine, version, layout, found)?;
    Ok(Salvaged {
        interpreters,
        more,
        looked,
        crash,
    })
}
