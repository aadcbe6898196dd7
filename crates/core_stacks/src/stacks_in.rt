//! The stacks of what was found, over a memory.
ghost use Rattle.std.specs.Prelude.{◌+◌};
ghost use Rattle.process_memory.specs.Memory.{byte_at};
ghost use Rattle.py_fields.specs.Sound.{IsSound};
ghost use Rattle.py_builtins.specs.Consulted.{Consulting};
ghost use Rattle.py_process.specs.Reports.{StacksSay, traces_in};
ghost use Rattle.core_stacks.specs.Reached.{finding_cost};
ghost use Rattle.core_stacks.specs.Seen.{finding_of};

use crate::found::Found;
use process_memory::ProcessMemory;
use py_process::CoreError;
use py_stacks::{Config, StackTrace, get_stack_over};
use std::alloc::Global;

/// The traces of what was found, over a memory of its process, or the first cause why there are none: what is asked
/// for and can't be given, then the first fault.
///
/// At most 13 reads, 2 for each thread that is met, 9 for each member, 4 for each variable, 8 for each visit of a
/// value, and 12 for each slot that is looked at for names.
pub(crate) fn stacks_in<P: ProcessMemory>(
    alloc: Global,
    process: &mut P,
    found: &Found,
    config: &Config,
) -> Result<Vec<StackTrace>, CoreError>
    requires sound { IsSound found.now.layout }
    ensures { Consulting found.now.layout
        (13 + finding_cost config.now (byte_at (P.seen process.old).pieces) (finding_of found.now))
        (P.seen process.old) (P.seen process.new)
        (λ m. StacksSay m (finding_of found.now) config.now (traces_in result)) }
{
    if config.native {
        return Err(CoreError::NativeUnsupported);
    }
    if config.subprocesses {
        return Err(CoreError::SubprocessesUnsupported);
    }
    let traces = get_stack_over(alloc, process, &found.layout, &found.addresses, config)?;
    Ok(traces)
}
