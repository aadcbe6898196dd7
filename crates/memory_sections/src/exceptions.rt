//! The exceptions of the threads of each interpreter that is shown, and the last one that no code handled.
ghost use Rattle.std.specs.Prelude.{◌≡◌, IfOk, IfSome, Ok};
ghost use Rattle.image_memory.specs.Backed.{regions_of};
ghost use Rattle.process_memory.specs.Memory.{byte_at};
ghost use Rattle.py_fields.specs.Sound.{IsSound};
ghost use Rattle.py_exceptions.specs.Last.{IsLast, last_shown};
ghost use Rattle.py_exceptions.specs.Sound.{IsDescribed};
ghost use Rattle.memory_sections.specs.Each.{EachTold};
ghost use Rattle.memory_sections.specs.Exceptions.{AreExceptionsBy, ExceptionsAre, ExceptionsBy, IsThreadTold, LastBy};

use core_stacks::Process;
use exception_texts::{ExceptionsOf, InterpreterExceptions, ThreadTold};
use missed_reads::{Missed, Misses};
use py_exceptions::{
    Described, ExceptionsError, LastException, ToldThread, places_of, read_exceptions, read_last,
};
use py_fronts::{SalvagedInterpreter, ThreadFront};
use py_records::Records;
use std::alloc::{AllocError, Global};

/// What was read, or that there was no memory left.
fn read_or_wanting(read: Result<ToldThread, ExceptionsError>) -> Result<ToldThread, AllocError>
    ensures { IfOk result (λ told. read ≡ Ok told) }
{
    match read {
        Ok(told) => Ok(told),
        Err(_) => Err(AllocError),
    }
}

/// The same of the last exception.
fn last_or_wanting(
    read: Result<LastException, ExceptionsError>,
) -> Result<LastException, AllocError>
    ensures { IfOk result (λ told. read ≡ Ok told) }
{
    match read {
        Ok(told) => Ok(told),
        Err(_) => Err(AllocError),
    }
}

/// The exceptions of a thread that is shown. Reads that are refused are kept.
fn thread_told(
    alloc: Global,
    process: &Process,
    places: &Described,
    misses: &mut Misses,
    thread: &ThreadFront,
) -> Result<ThreadTold, AllocError>
    requires sound { IsSound process.now.layout }
    requires places { IsDescribed places.now }
    ensures { IfOk result
        (IsThreadTold process.now.layout places.now (byte_at (regions_of process.now.dump)) thread.now) }
{
    let mut view = Missed::new(process.dump.view(), misses);
    let read = read_exceptions(alloc, &mut view, &process.layout, places, thread.address);
    let told = read_or_wanting(read)?;
    Ok(ThreadTold {
        thread_id: thread.thread_id,
        told,
    })
}

/// The exceptions of each thread, in order.
fn each_thread(
    alloc: Global,
    process: &Process,
    places: &Described,
    misses: &mut Misses,
    threads: &[ThreadFront],
) -> Result<Vec<ThreadTold>, AllocError>
    requires sound { IsSound process.now.layout }
    requires places { IsDescribed places.now }
    ensures { IfOk result (λ told. EachTold
        (IsThreadTold process.now.layout places.now (byte_at (regions_of process.now.dump)))
        threads.now told.items) }
{
    let mut told = Vec::new(alloc);
    for thread in threads {
        told.push(thread_told(alloc, process, places, misses, thread)?)?;
    }
    Ok(told)
}

/// The exceptions of an interpreter's threads, where it is described where they stand.
fn exceptions_by(
    alloc: Global,
    process: &Process,
    places: &Option<Described>,
    misses: &mut Misses,
    threads: &[ThreadFront],
) -> Result<ExceptionsOf, AllocError>
    requires sound { IsSound process.now.layout }
    requires places { IfSome places.now IsDescribed }
    ensures { IfOk result (ExceptionsBy process.now.layout places.now
        (byte_at (regions_of process.now.dump)) threads.now) }
{
    match places {
        Some(places) => {
            let told = each_thread(alloc, process, places, misses, threads)?;
            Ok(ExceptionsOf::Read(told))
        }
        None => Ok(ExceptionsOf::NotDescribed),
    }
}

/// The last exception that no code handled, of the interpreter at an address. Reads that are refused are kept.
fn last_told(
    alloc: Global,
    process: &Process,
    places: &Described,
    misses: &mut Misses,
    interpreter: u64,
) -> Result<LastException, AllocError>
    requires sound { IsSound process.now.layout }
    requires places { IsDescribed places.now }
    ensures { IfOk result (λ told. IsLast process.now.layout places.now (byte_at (regions_of process.now.dump))
        interpreter (last_shown told)) }
{
    let mut view = Missed::new(process.dump.view(), misses);
    let read = read_last(alloc, &mut view, &process.layout, places, interpreter);
    last_or_wanting(read)
}

/// The same, where it is described where it stands.
fn last_by(
    alloc: Global,
    process: &Process,
    places: &Option<Described>,
    misses: &mut Misses,
    interpreter: u64,
) -> Result<Option<LastException>, AllocError>
    requires sound { IsSound process.now.layout }
    requires places { IfSome places.now IsDescribed }
    ensures { IfOk result (LastBy process.now.layout places.now
        (byte_at (regions_of process.now.dump)) interpreter) }
{
    match places {
        Some(places) => {
            let told = last_told(alloc, process, places, misses, interpreter)?;
            Ok(Some(told))
        }
        None => Ok(None),
    }
}

/// Both, with whose they are.
fn exceptions_of(
    alloc: Global,
    process: &Process,
    places: &Option<Described>,
    misses: &mut Misses,
    interpreter: &SalvagedInterpreter,
) -> Result<InterpreterExceptions, AllocError>
    requires sound { IsSound process.now.layout }
    requires places { IfSome places.now IsDescribed }
    ensures { IfOk result (AreExceptionsBy process.now.layout places.now
        (byte_at (regions_of process.now.dump)) interpreter.now) }
{
    let threads: &[ThreadFront] = &interpreter.front.threads.threads;
    let address = interpreter.front.address;
    let exceptions = exceptions_by(alloc, process, places, misses, threads)?;
    let last = last_by(alloc, process, places, misses, address)?;
    Ok(InterpreterExceptions {
        interpreter: address,
        exceptions,
        last,
    })
}

/// Those of each interpreter, in order.
fn each_exceptions(
    alloc: Global,
    process: &Process,
    places: &Option<Described>,
    misses: &mut Misses,
    interpreters: &[SalvagedInterpreter],
) -> Result<Vec<InterpreterExceptions>, AllocError>
    requires sound { IsSound process.now.layout }
    requires places { IfSome places.now IsDescribed }
    ensures { IfOk result (λ told. EachTold
        (AreExceptionsBy process.now.layout places.now (byte_at (regions_of process.now.dump)))
        interpreters.now told.items) }
{
    let mut told = Vec::new(alloc);
    for interpreter in interpreters {
        told.push(exceptions_of(alloc, process, places, misses, interpreter)?)?;
    }
    Ok(told)
}

/// The same, where they are asked for.
pub(crate) fn exceptions_section(
    alloc: Global,
    asked: bool,
    process: &Process,
    records: &Records,
    misses: &mut Misses,
    interpreters: &[SalvagedInterpreter],
) -> Result<Option<Vec<InterpreterExceptions>>, AllocError>
    requires sound { IsSound process.now.layout }
    ensures { IfOk result (ExceptionsAre asked process.now.layout records.now
        (byte_at (regions_of process.now.dump)) interpreters.now) }
{
    if !asked {
        return Ok(None);
    }
    let places = places_of(&process.layout, records);
    let told = each_exceptions(alloc, process, &places, misses, interpreters)?;
    Ok(Some(told))
}
