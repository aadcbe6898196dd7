//! What the threads of each interpreter that is shown wait for.
ghost use Rattle.std.specs.Prelude.{◌≡◌, ◌≤◌, ◌++◌, IfOk, Ok, OnOk, codes, length, map, option_to_list, position};
ghost use Rattle.elf64_core.specs.Notes.{noted};
ghost use Rattle.image_memory.specs.Backed.{regions_of};
ghost use Rattle.process_memory.specs.Memory.{byte_at};
ghost use Rattle.py_fields.specs.Sound.{IsSound};
ghost use Rattle.py_process.specs.Facts.{known_of, symbol_known};
ghost use Rattle.py_fronts.specs.Crashes.{is_native};
ghost use Rattle.thread_registers.specs.Threads.{is_python};
ghost use Rattle.py_waits.specs.Types.{places_at};
ghost use Rattle.py_waits.specs.Waits.{lock_range_at, wait_at};
ghost use Rattle.memory_sections.specs.Each.{EachTold};
ghost use Rattle.memory_sections.specs.Pythons.{python_thread};
ghost use Rattle.memory_sections.specs.Waits.{AreStandings, AreWaits, AreWaitsOf, IsWaitOf, WaitsAre, standing_in};
ghost use Rattle.memory_sections.specs.Waits.{standing_noted, standings_of, stands_at, wait_by, word_of};

use core_stacks::Process;
use elf64_core::{Machine, Note};
use image_memory::{CoreDump, NT_PRSTATUS};
use missed_reads::{Missed, Misses};
use process_memory::ReadFault;
use py_fronts::{Crash, SalvagedInterpreter, ThreadFront, is_id, status_thread};
use py_records::Records;
use py_waits::{
    InterpreterWaits, LockRange, ThreadWait, Wait, WaitPlaces, futex_of, read_lock_range,
    read_places, read_wait,
};
use std::alloc::{AllocError, Global};

/// How many bytes a status record has at least.
const STATUS_SIZE: usize = 112;

/// What was read, or that there was no memory left.
fn read_or_wanting<T: Drop>(read: Result<T, ReadFault>) -> Result<T, AllocError>
    ensures { IfOk result (λ value. read ≡ Ok value) }
{
    match read {
        Ok(value) => Ok(value),
        Err(_) => Err(AllocError),
    }
}

/// Whether both ids are told, and are the same.
fn is_native(told: Option<u64>, id: Option<u64>) -> bool
    ensures { result ≡ is_native told id }
{
    match id {
        Some(id) => is_id(told, id),
        None => false,
    }
}

/// Whether a thread of the process is this one of Python's.
fn is_python(of: Crash, thread: &ThreadFront) -> bool
    ensures { result ≡ is_python of (python_thread thread.now) }
{
    match of.thread_pointer {
        Some(pointer) => is_id(Some(pointer), thread.thread_id),
        None => is_native(of.native_id, thread.os_thread_id),
    }
}

/// A thread of the process, and the word at which it stands in the system.
#[derive(Clone, Copy, Debug, Drop, PartialEq, Eq)]
pub struct Standing {
    /// Its ids.
    pub thread: Crash,
    /// The address of the word, where it stands at one.
    pub at: Option<u64>,
}

/// Where the thread of a status record stands.
fn standing_in(machine: Machine, status: &[u8]) -> Standing
    requires { 112 ≤ length status.now }
    ensures { result ≡ standing_in machine status.now }
{
    Standing {
        thread: status_thread(machine, status),
        at: futex_of(machine, status),
    }
}

/// Adds what a note says, if it is a status record.
#[tactic(auto, unfolding(crate::specs::Waits::standing_noted))]
fn add_standing(
    standings: &mut Vec<Standing>,
    machine: Machine,
    note: &Note<'_>,
) -> Result<(), AllocError>
    ensures { OnOk result (standings.new.items ≡ standings.old.items
        ++ option_to_list (standing_noted machine (noted note.now))) }
{
    if note.kind == NT_PRSTATUS && note.desc.len() >= STATUS_SIZE {
        standings.push(standing_in(machine, note.desc))?;
    }
    Ok(())
}

/// Where the threads of the process stand, by its status records, in their order.
fn standings_of(
    alloc: Global,
    machine: Machine,
    notes: &[Note<'_>],
) -> Result<Vec<Standing>, AllocError>
    ensures { IfOk result (λ standings. standings.items ≡ standings_of machine (map noted notes.now)) }
{
    let mut standings = Vec::new(alloc);
    for note in notes {
        add_standing(&mut standings, machine, note)?;
    }
    Ok(standings)
}

/// The same of a core.
fn core_standings(alloc: Global, core: &CoreDump) -> Result<Vec<Standing>, AllocError>
    ensures { IfOk result (λ standings. AreStandings core.now standings.items) }
{
    let notes = core.notes(alloc)?;
    let standings = standings_of(alloc, core.machine(), &notes)?;
    Ok(standings)
}

/// The index of the first one that is a thread of Python's.
fn own_standing(standings: &[Standing], thread: &ThreadFront) -> Option<usize>
    ensures { result ≡ position (λ s. is_python s.thread (python_thread thread.now)) standings.now }
{
    standings
        .iter()
        .position(|standing| is_python(standing.thread, thread))
}

/// The word of the one at an index.
fn word_of(standings: &[Standing], index: usize) -> Option<u64>
    ensures { result ≡ word_of standings.now index }
{
    match standings.get(index) {
        Some(standing) => standing.at,
        None => None,
    }
}

/// The word at which a thread of Python's stands.
fn stands_at(standings: &[Standing], thread: &ThreadFront) -> Option<u64>
    ensures { result ≡ stands_at standings.now thread.now }
{
    match own_standing(standings, thread) {
        Some(index) => word_of(standings, index),
        None => None,
    }
}

/// What the threads of an interpreter wait for is found by these.
#[derive(Clone, Copy)]
struct Found {
    places: WaitPlaces,
    gil: Option<LockRange>,
}

/// What the thread that stands at a word waits for. Reads that are refused are kept.
fn wait_at(
    process: &Process,
    found: Found,
    misses: &mut Misses,
    thread: u64,
    at: u64,
) -> Result<Option<Wait>, AllocError>
    ensures { IfOk result (λ wait. wait_at process.now.layout (byte_at (regions_of process.now.dump))
        found.places found.gil thread at ≡ Ok wait) }
{
    let mut view = Missed::new(process.dump.view(), misses);
    let read = read_wait(
        &mut view,
        &process.layout,
        &found.places,
        found.gil,
        thread,
        at,
    );
    read_or_wanting(read)
}

/// The same, where it stands at one.
fn wait_by(
    process: &Process,
    found: Found,
    misses: &mut Misses,
    thread: u64,
    at: Option<u64>,
) -> Result<Option<Wait>, AllocError>
    ensures { IfOk result (λ wait. wait_by process.now.layout (byte_at (regions_of process.now.dump))
        found.places found.gil thread at ≡ Ok wait) }
{
    match at {
        Some(at) => wait_at(process, found, misses, thread, at),
        None => Ok(None),
    }
}

/// What a thread waits for, with whose that is.
fn thread_wait(
    process: &Process,
    standings: &[Standing],
    found: Found,
    misses: &mut Misses,
    thread: &ThreadFront,
) -> Result<ThreadWait, AllocError>
    ensures { IfOk result (IsWaitOf standings.now process.now.layout (byte_at (regions_of process.now.dump))
        found.places found.gil thread.now) }
{
    let at = stands_at(standings, thread);
    let wait = wait_by(process, found, misses, thread.address, at)?;
    Ok(ThreadWait {
        thread_id: thread.thread_id,
        wait,
    })
}

/// What each thread waits for, in order.
fn each_thread(
    alloc: Global,
    process: &Process,
    standings: &[Standing],
    found: Found,
    misses: &mut Misses,
    threads: &[ThreadFront],
) -> Result<Vec<ThreadWait>, AllocError>
    ensures { IfOk result (λ told. EachTold (IsWaitOf standings.now process.now.layout
        (byte_at (regions_of process.now.dump)) found.places found.gil) threads.now told.items) }
{
    let mut told = Vec::new(alloc);
    for thread in threads {
        told.push(thread_wait(process, standings, found, misses, thread)?)?;
    }
    Ok(told)
}

/// Where an interpreter's objects have what its threads wait for. Reads that are refused are kept.
fn own_places(
    alloc: Global,
    process: &Process,
    records: &Records,
    misses: &mut Misses,
    address: u64,
) -> Result<WaitPlaces, AllocError>
    requires sound { IsSound process.now.layout }
    ensures { IfOk result (λ places. places_at process.now.layout records.now
        (byte_at (regions_of process.now.dump)) address ≡ Ok places) }
{
    let mut view = Missed::new(process.dump.view(), misses);
    let read = read_places(alloc, &mut view, &process.layout, records, address);
    read_or_wanting(read)
}

/// The address of the runtime's record, where a symbol tells it.
pub(crate) fn runtime_of(process: &Process) -> Option<u64>
    ensures { result ≡ symbol_known (known_of process.now.info) (codes "_PyRuntime") }
{
    match process.info.get_symbol(b"_PyRuntime") {
        Some(address) => Some(*address),
        None => None,
    }
}

/// Where the record of an interpreter's lock stands. Reads that are refused are kept.
fn own_lock(
    process: &Process,
    records: &Records,
    misses: &mut Misses,
    address: u64,
) -> Result<Option<LockRange>, AllocError>
    ensures { IfOk result (λ gil. lock_range_at process.now.layout (byte_at (regions_of process.now.dump))
        records.now.locks (symbol_known (known_of process.now.info) (codes "_PyRuntime")) address ≡ Ok gil) }
{
    let runtime = runtime_of(process);
    let mut view = Missed::new(process.dump.view(), misses);
    let read = read_lock_range(&mut view, &process.layout, &records.locks, runtime, address);
    read_or_wanting(read)
}

/// What the threads of an interpreter wait for. Reads that are refused are kept.
fn waits_of(
    alloc: Global,
    process: &Process,
    records: &Records,
    standings: &[Standing],
    misses: &mut Misses,
    interpreter: &SalvagedInterpreter,
) -> Result<InterpreterWaits, AllocError>
    requires sound { IsSound process.now.layout }
    ensures { IfOk result (AreWaitsOf (known_of process.now.info) process.now.layout records.now
        (byte_at (regions_of process.now.dump)) standings.now interpreter.now) }
{
    let address = interpreter.front.address;
    let places = own_places(alloc, process, records, misses, address)?;
    let gil = own_lock(process, records, misses, address)?;
    let found = Found { places, gil };
    let own: &[ThreadFront] = &interpreter.front.threads.threads;
    let threads = each_thread(alloc, process, standings, found, misses, own)?;
    Ok(InterpreterWaits {
        interpreter: address,
        threads,
    })
}

/// Those of each interpreter, in order.
fn each_waits(
    alloc: Global,
    process: &Process,
    records: &Records,
    standings: &[Standing],
    misses: &mut Misses,
    interpreters: &[SalvagedInterpreter],
) -> Result<Vec<InterpreterWaits>, AllocError>
    requires sound { IsSound process.now.layout }
    ensures { IfOk result (λ told. EachTold (AreWaitsOf (known_of process.now.info) process.now.layout records.now
        (byte_at (regions_of process.now.dump)) standings.now) interpreters.now told.items) }
{
    let mut told = Vec::new(alloc);
    for interpreter in interpreters {
        told.push(waits_of(alloc, process, records, standings, misses, interpreter)?)?;
    }
    Ok(told)
}

/// Those that the core's notes tell of.
fn all_waits(
    alloc: Global,
    process: &Process,
    records: &Records,
    misses: &mut Misses,
    interpreters: &[SalvagedInterpreter],
) -> Result<Vec<InterpreterWaits>, AllocError>
    requires sound { IsSound process.now.layout }
    ensures { IfOk result (AreWaits process.now.dump.core (known_of process.now.info) process.now.layout records.now
        (byte_at (regions_of process.now.dump)) interpreters.now) }
{
    let standings = core_standings(alloc, process.dump.core())?;
    each_waits(alloc, process, records, &standings, misses, interpreters)
}

/// The same, where they are asked for.
pub(crate) fn waits_section(
    alloc: Global,
    asked: bool,
    process: &Process,
    records: &Records,
    misses: &mut Misses,
    interpreters: &[SalvagedInterpreter],
) -> Result<Option<Vec<InterpreterWaits>>, AllocError>
    requires sound { IsSound process.now.layout }
    ensures { IfOk result (WaitsAre asked process.now.dump.core (known_of process.now.info) process.now.layout
        records.now (byte_at (regions_of process.now.dump)) interpreters.now) }
{
    if !asked {
        return Ok(None);
    }
    let told = all_waits(alloc, process, records, misses, interpreters)?;
    Ok(Some(told))
}
