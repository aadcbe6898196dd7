//! The addresses of the locals of all frames that are shown.
ghost use Rattle.std.specs.Prelude.{◌≡◌, ◌++◌, IfOk, OnOk, flat_map};
ghost use Rattle.local_values.specs.Addresses.{each_once, in_frames, in_interpreter, in_locals, in_standing, in_thread};
ghost use Rattle.local_values.specs.Addresses.{shown_addresses};

use py_fronts::{FramesFront, SalvagedInterpreter, Standing, ThreadFront};
use py_stacks::LocalVariable;
use std::alloc::{AllocError, Global};
use std::collections::BTreeSet;

/// Appends the addresses of some locals.
fn push_locals(
    addresses: &mut Vec<u64>,
    locals: &Option<Vec<LocalVariable>>,
) -> Result<(), AllocError>
    ensures { OnOk result (addresses.new.items ≡ addresses.old.items ++ in_locals locals.now) }
{
    let Some(locals) = locals else {
        return Ok(());
    };
    for local in locals {
        addresses.push(local.addr)?;
    }
    Ok(())
}

/// Appends those of the locals of what stands for a member of a chain of frames.
fn push_standing(addresses: &mut Vec<u64>, standing: &Standing) -> Result<(), AllocError>
    ensures { OnOk result (addresses.new.items ≡ addresses.old.items ++ in_standing standing.now) }
{
    match standing {
        Standing::Frame { frame, .. } => push_locals(addresses, &frame.locals),
        Standing::Member { .. } => Ok(()),
    }
}

/// Appends those of some members, in order.
fn push_standings(addresses: &mut Vec<u64>, standings: &[Standing]) -> Result<(), AllocError>
    ensures { OnOk result (addresses.new.items ≡ addresses.old.items ++ flat_map in_standing standings.now) }
{
    for standing in standings {
        push_standing(addresses, standing)?;
    }
    Ok(())
}

/// Appends those of the frames of a thread that are shown: of the first, and of the last.
fn push_frames(addresses: &mut Vec<u64>, frames: &FramesFront) -> Result<(), AllocError>
    ensures { OnOk result (addresses.new.items ≡ addresses.old.items ++ in_frames frames.now) }
{
    push_standings(addresses, &frames.first)?;
    push_standings(addresses, &frames.last)
}

/// Appends those of some threads, in order.
fn push_threads(addresses: &mut Vec<u64>, threads: &[ThreadFront]) -> Result<(), AllocError>
    ensures { OnOk result (addresses.new.items ≡ addresses.old.items ++ flat_map in_thread threads.now) }
{
    for thread in threads {
        push_frames(addresses, &thread.frames)?;
    }
    Ok(())
}

/// Appends those of an interpreter's threads.
fn push_interpreter(
    addresses: &mut Vec<u64>,
    interpreter: &SalvagedInterpreter,
) -> Result<(), AllocError>
    ensures { OnOk result (addresses.new.items ≡ addresses.old.items ++ in_interpreter interpreter.now) }
{
    push_threads(addresses, &interpreter.front.threads.threads)
}

/// The addresses of the locals of all frames that are shown of these interpreters, in their order: of each thread the
/// first frames and the last. One that several locals have stands there as often.
fn all_addresses(
    alloc: Global,
    interpreters: &[SalvagedInterpreter],
) -> Result<Vec<u64>, AllocError>
    ensures { IfOk result (λ addresses. addresses.items ≡ flat_map in_interpreter interpreters.now) }
{
    let mut addresses = Vec::new(alloc);
    for interpreter in interpreters {
        push_interpreter(&mut addresses, interpreter)?;
    }
    Ok(addresses)
}

/// Each of some addresses once, in the order in which they stand there first.
fn each_once(alloc: Global, addresses: &[u64]) -> Result<Vec<u64>, AllocError>
    ensures { IfOk result (λ once. once.items ≡ each_once addresses.now) }
{
    let mut met = BTreeSet::new(alloc);
    let mut once = Vec::new(alloc);
    for addr in addresses {
        let added = met.insert(*addr)?;
        if added {
            once.push(*addr)?;
        }
    }
    Ok(once)
}

/// The addresses of the locals of all frames that are shown of these interpreters, each once, in the order in which
/// they are met first: the interpreters, the threads of each and the frames of each, the first and the last, as they
/// stand. The one error is out of memory.
pub fn shown_addresses(
    alloc: Global,
    interpreters: &[SalvagedInterpreter],
) -> Result<Vec<u64>, AllocError>
    ensures { IfOk result (λ addresses. addresses.items ≡ shown_addresses interpreters.now) }
{
    let all = all_addresses(alloc, interpreters)?;
    each_once(alloc, &all)
}
