//! What a process says of its layout.
ghost use Rattle.std.specs.Prelude.{◌≡◌, ◌++◌, IfOk, OnOk, Some, map, true};
ghost use Rattle.py_process.specs.Facts.{known_of, symbol_known};
ghost use Rattle.py_fields.specs.Sound.{IsSound};
ghost use Rattle.salvage_report.specs.LayoutChecked.{CheckIs, bytes_symbol, process_checked, release_of};
ghost use Rattle.salvage_report.specs.LayoutChecked.{thread_place, thread_places, types_of};

use crate::pointers::thread_pointers;
use core_stacks::Process;
use missed_reads::{Missed, Misses};
use py_fronts::{SalvagedInterpreter, ThreadFront};
use py_layout::Version;
use py_selftest::{LayoutCheck, Release, ThreadPlace, Types, check_layout};
use std::alloc::{AllocError, Global};

/// The address of a symbol of the images.
fn symbol_of(process: &Process, name: &[u8]) -> Option<u64>
    ensures { result ≡ symbol_known (known_of process.now.info) name.now }
{
    process.info.get_symbol(name).copied()
}

/// The symbol of `bytes`, which is `str` in Python 2.
fn bytes_symbol(version: &Version) -> &'static [u8]
    ensures { result.now ≡ bytes_symbol version.now }
{
    if version.major == 2 {
        b"PyString_Type"
    } else {
        b"PyBytes_Type"
    }
}

/// Where the built-in types stand, by the symbols of the images.
fn types_of(process: &Process) -> Types
    ensures { result ≡ types_of (known_of process.now.info) process.now.version }
{
    Types {
        metatype: symbol_of(process, b"PyType_Type"),
        code: symbol_of(process, b"PyCode_Type"),
        frame: symbol_of(process, b"PyFrame_Type"),
        text: symbol_of(process, b"PyUnicode_Type"),
        tuple: symbol_of(process, b"PyTuple_Type"),
        bytes: symbol_of(process, bytes_symbol(&process.version)),
        long: symbol_of(process, b"PyLong_Type"),
    }
}

/// The first two numbers of a version.
fn release_of(version: &Version) -> Release
    ensures { result ≡ release_of version.now }
{
    Release {
        major: version.major,
        minor: version.minor,
    }
}

/// A thread of an interpreter, by its record's address.
fn thread_place(interpreter: u64, thread: &ThreadFront) -> ThreadPlace
    ensures { result ≡ thread_place interpreter thread.now }
{
    ThreadPlace {
        address: thread.address,
        interpreter,
    }
}

/// Adds the threads of an interpreter, in the order of their chain.
fn add_places(
    places: &mut Vec<ThreadPlace>,
    interpreter: u64,
    threads: &[ThreadFront],
) -> Result<(), AllocError>
    ensures { OnOk result (places.new.items ≡ places.old.items ++ map (thread_place interpreter) threads.now) }
{
    for thread in threads {
        places.push(thread_place(interpreter, thread))?;
    }
    Ok(())
}

/// The threads of all interpreters that are shown, in the order of the interpreters and of their chains.
fn thread_places(
    alloc: Global,
    interpreters: &[SalvagedInterpreter],
) -> Result<Vec<ThreadPlace>, AllocError>
    ensures { IfOk result (λ places. places.items ≡ thread_places interpreters.now) }
{
    let mut places = Vec::new(alloc);
    for interpreter in interpreters {
        let front = &interpreter.front;
        add_places(&mut places, front.address, &front.threads.threads)?;
    }
    Ok(places)
}

/// What the process says of its layout. Reads that are refused are kept. The one error is out of memory.
fn checked(
    alloc: Global,
    process: &Process,
    interpreters: &[SalvagedInterpreter],
    misses: &mut Misses,
) -> Result<LayoutCheck, AllocError>
    requires sound { IsSound process.now.layout }
    ensures { IfOk result (λ check. CheckIs true process.now.dump.core
        (process_checked process.now interpreters.now) (Some check)) }
{
    let threads = thread_places(alloc, interpreters)?;
    let pointers = thread_pointers(alloc, process.dump.core())?;
    let mut view = Missed::new(process.dump.view(), misses);
    let types = types_of(process);
    let runtime = symbol_of(process, b"_PyRuntime");
    let release = release_of(&process.version);
    match check_layout(
        alloc,
        &mut view,
        &process.layout,
        &types,
        runtime,
        release,
        &pointers,
        &threads,
    ) {
        Ok(check) => Ok(check),
        Err(_) => Err(AllocError),
    }
}

/// The same, where it is asked for.
pub(crate) fn check_section(
    alloc: Global,
    asked: bool,
    process: &Process,
    interpreters: &[SalvagedInterpreter],
    misses: &mut Misses,
) -> Result<Option<LayoutCheck>, AllocError>
    requires sound { IsSound process.now.layout }
    ensures { IfOk result (CheckIs asked process.now.dump.core (process_checked process.now interpreters.now)) }
{
    if !asked {
        return Ok(None);
    }
    let check = checked(alloc, process, interpreters, misses)?;
    Ok(Some(check))
}
