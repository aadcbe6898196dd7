//! The stacks of an interpreter, with the names of its threads and the values of locals.
ghost use Rattle.std.specs.Prelude.{◌≤◌, ◌+◌, ◌*◌, IfOk, List, Ok, map};
ghost use Rattle.process_memory.specs.Memory.{byte_at};
ghost use Rattle.process_memory.specs.Seen.{Answers};
ghost use Rattle.process_memory.specs.Walk.{first_fault};
ghost use Rattle.process_memory.specs.Faults.{FaultsAre};
ghost use Rattle.py_fields.specs.Sound.{IsSound};
ghost use Rattle.py_builtins.specs.Consulted.{ConsultingBy, ConsultsBy};
ghost use Rattle.py_stacks.specs.Asking.{asked_of};
ghost use Rattle.py_stacks.specs.Met.{details_walked, locals_walked, members_walked, stacks_bound, traces_most};
ghost use Rattle.py_stacks.specs.NamedStacks.{slots_named};
ghost use Rattle.py_stacks.specs.StackError.{stack_fault};
ghost use Rattle.py_stacks.specs.Stacks.{stacks_faults};
ghost use Rattle.py_stacks.specs.StacksOver.{AreStacksOver, stacks_over_at, stacks_over_cost, values_met};
ghost use Rattle.py_stacks.specs.StacksOver.{variables_most};
ghost use Rattle.py_stacks.specs.Threads.{Trace, trace_of, traces_of_result};

use crate::config::Config;
use crate::named_stacks::read_named;
use crate::values::{show_traces, value_width};
use crate::{Addresses, StackError, StackTrace};
use process_memory::ProcessMemory;
use py_fields::Layout;
use std::alloc::Global;

/// Reads the stacks and the names, and then shows the values of the locals.
fn read_stacks<P: ProcessMemory>(
    alloc: Global,
    process: &mut P,
    layout: &Layout,
    addresses: &Addresses,
    config: &Config,
) -> Result<Vec<StackTrace>, StackError>
    requires sound { IsSound layout.now }
    ensures { ConsultsBy layout.now stack_fault
        (λ m. stacks_over_cost config.now layout.now m addresses.now.lock addresses.now.interpreter)
        (P.seen process.old) (P.seen process.new)
        (λ m. stacks_over_at config.now layout.now m addresses.now.lock addresses.now.interpreter)
        (traces_of_result result) }
{
    let mut traces = read_named(alloc, process, layout, addresses, config)?;
    let width = value_width(config.dump_locals);
    show_traces(alloc, process, layout, width, &mut traces)?;
    Ok(traces)
}

/// The traces of the threads of the interpreter at these addresses, with what a `Config` asks for: those of
/// `get_stack_traces`, by the same rules and with the same errors, each with the name of its thread, and each
/// local with its value.
///
/// The name is that which `thread_names_from_interpreter` has for the trace's id, if there is one; where that
/// has a fault, no thread has a name, and that is no error. The value is the text that `format_variable` gives of
/// the local's address in a width of 128 times `dump_locals`, at most 2^63 - 1, with no visit counted before; where
/// that has a fault, it is `?`, and that is no error. Out of memory is one.
///
/// No more reads than `get_stack_traces` may make, 10, 12 for each slot of a dict that is looked at for names, and 8
/// for each visit of a value. All visits together are no more than 4096 for each local that 4096 threads of 4096 frames
/// may have. Where the stacks have a fault neither a name nor a value is read. Where locals are not asked for there are
/// none, and nothing is read of them.
pub fn get_stack_over<P: ProcessMemory>(
    alloc: Global,
    process: &mut P,
    layout: &Layout,
    addresses: &Addresses,
    config: &Config,
) -> Result<Vec<StackTrace>, StackError>
    requires sound { IsSound layout.now }
    ensures answer { ConsultsBy layout.now stack_fault
        (λ m. stacks_over_cost config.now layout.now m addresses.now.lock addresses.now.interpreter)
        (P.seen process.old) (P.seen process.new)
        (λ m. stacks_over_at config.now layout.now m addresses.now.lock addresses.now.interpreter)
        (traces_of_result result) }
    ensures traces { ConsultingBy layout.now
        (λ m. stacks_over_cost config.now layout.now m addresses.now.lock addresses.now.interpreter)
        (P.seen process.old) (P.seen process.new)
        (λ m. IfOk result (λ traces.
        AreStacksOver config.now layout.now m addresses.now.lock addresses.now.interpreter
        (map trace_of traces.items))) }
    // what is right is the answer, out of memory aside
    ensures only { ConsultingBy layout.now
        (λ m. stacks_over_cost config.now layout.now m addresses.now.lock addresses.now.interpreter)
        (P.seen process.old) (P.seen process.new)
        (λ m. (traces : List Trace)
        → AreStacksOver config.now layout.now m addresses.now.lock addresses.now.interpreter traces
        → Answers stack_fault (Ok traces) (traces_of_result result)) }
    ensures faults { ConsultingBy layout.now
        (λ m. stacks_over_cost config.now layout.now m addresses.now.lock addresses.now.interpreter)
        (P.seen process.old) (P.seen process.new)
        (λ m. FaultsAre stack_fault (first_fault
        (stacks_faults (asked_of config.now) layout.now m addresses.now.lock addresses.now.interpreter)) result) }
    ensures bound { (P.seen process.new).reads ≤ (P.seen process.old).reads
        + (stacks_bound (asked_of config.now) layout.now (byte_at (P.seen process.old).pieces) addresses.now.lock
        addresses.now.interpreter
        + (10 + 12 * slots_named (asked_of config.now) layout.now (byte_at (P.seen process.old).pieces)
        addresses.now.lock addresses.now.interpreter)
        + 8 * values_met config.now layout.now (byte_at (P.seen process.old).pieces) addresses.now.lock
        addresses.now.interpreter) }
    ensures details { details_walked (asked_of config.now) layout.now (byte_at (P.seen process.old).pieces)
        addresses.now.lock addresses.now.interpreter
        ≤ 3 * members_walked (asked_of config.now) layout.now (byte_at (P.seen process.old).pieces)
        addresses.now.lock addresses.now.interpreter
        + 4 * locals_walked (asked_of config.now) layout.now (byte_at (P.seen process.old).pieces)
        addresses.now.lock addresses.now.interpreter }
    // at most 4096 for each local, of which there are none where they aren't asked for
    ensures values { values_met config.now layout.now (byte_at (P.seen process.old).pieces) addresses.now.lock
        addresses.now.interpreter ≤ 4096 * (4096 * (4096 * variables_most (asked_of config.now).locals)) }
    // whatever the memory holds, as cyclic chains
    ensures most { (P.seen process.new).reads ≤ (P.seen process.old).reads
        + (traces_most (asked_of config.now).locals + (10 + 12 * 65536)
        + 8 * (4096 * (4096 * (4096 * variables_most (asked_of config.now).locals)))) }
{
    read_stacks(alloc, process, layout, addresses, config)
}
