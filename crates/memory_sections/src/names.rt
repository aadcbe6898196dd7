//! The names of the threads of each interpreter that is shown.
ghost use Rattle.std.specs.Prelude.{◌≡◌, IfOk, map};
ghost use Rattle.image_memory.specs.Backed.{regions_of};
ghost use Rattle.process_memory.specs.Memory.{byte_at};
ghost use Rattle.py_fields.specs.Sound.{IsSound};
ghost use Rattle.memory_sections.specs.Each.{EachTold};
ghost use Rattle.memory_sections.specs.Told.{AreNamesOf, NamesAre, id_of, rule_of};

use crate::rule::rule_of;
use core_stacks::Process;
use missed_reads::{Missed, Misses};
use py_fronts::{SalvagedInterpreter, ThreadFront};
use py_records::Records;
use std::alloc::{AllocError, Global};
use thread_names::{DictRule, InterpreterNames, read_thread_names};

/// The ids of some threads.
fn ids_of(alloc: Global, threads: &[ThreadFront]) -> Result<Vec<u64>, AllocError>
    ensures { IfOk result (λ ids. ids.items ≡ map id_of threads.now) }
{
    let mut ids = Vec::new(alloc);
    for thread in threads {
        ids.push(thread.thread_id)?;
    }
    Ok(ids)
}

/// The names of the threads of an interpreter that are shown. Reads that are refused are kept.
fn names_of(
    alloc: Global,
    process: &Process,
    rule: &Option<DictRule>,
    misses: &mut Misses,
    interpreter: &SalvagedInterpreter,
) -> Result<InterpreterNames, AllocError>
    requires sound { IsSound process.now.layout }
    ensures { IfOk result
        (AreNamesOf process.now.layout rule.now (byte_at (regions_of process.now.dump)) interpreter.now) }
{
    let ids = ids_of(alloc, &interpreter.front.threads.threads)?;
    let mut view = Missed::new(process.dump.view(), misses);
    let address = interpreter.front.address;
    read_thread_names(alloc, &mut view, &process.layout, rule, address, &ids)
}

/// The names of the threads of each interpreter, in order.
fn each_names(
    alloc: Global,
    process: &Process,
    rule: &Option<DictRule>,
    misses: &mut Misses,
    interpreters: &[SalvagedInterpreter],
) -> Result<Vec<InterpreterNames>, AllocError>
    requires sound { IsSound process.now.layout }
    ensures { IfOk result (λ names. EachTold
        (AreNamesOf process.now.layout rule.now (byte_at (regions_of process.now.dump)))
        interpreters.now names.items) }
{
    let mut names = Vec::new(alloc);
    for interpreter in interpreters {
        names.push(names_of(alloc, process, rule, misses, interpreter)?)?;
    }
    Ok(names)
}

/// The same, where that is asked for.
pub(crate) fn names_section(
    alloc: Global,
    asked: bool,
    process: &Process,
    records: &Records,
    misses: &mut Misses,
    interpreters: &[SalvagedInterpreter],
) -> Result<Option<Vec<InterpreterNames>>, AllocError>
    requires sound { IsSound process.now.layout }
    ensures { IfOk result
        (NamesAre asked process.now.layout (rule_of process.now.layout records.now)
        (byte_at (regions_of process.now.dump)) interpreters.now) }
{
    if !asked {
        return Ok(None);
    }
    let rule = rule_of(&process.layout, records);
    let names = each_names(alloc, process, &rule, misses, interpreters)?;
    Ok(Some(names))
}
