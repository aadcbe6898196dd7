//! The test of an address that may be an interpreter's, whole and in two steps.
ghost use Rattle.std.specs.Prelude.{◌+◌, ◌*◌, ◌↔◌, IfOk, IsErrOf, IsTrue, Ok};
ghost use Rattle.py_fields.specs.Sound.{IsSound};
ghost use Rattle.py_builtins.specs.Consulted.{ConsultingBy, Consults, ConsultsBy};
ghost use Rattle.py_stacks.specs.StackError.{stack_fault};
ghost use Rattle.py_stacks.specs.Interpreter.{IsInterpreter, IsInterpreterFrom, RefusesAddress, bound_from, cost_from};
ghost use Rattle.py_stacks.specs.Interpreter.{interpreter_named_by, passes, passes_from, test_bound, test_cost};
ghost use Rattle.py_stacks.specs.Interpreter.{threads_head};

use crate::StackError;
use crate::asked::{Asked, LineNo};
use crate::records::read_bytes;
use crate::threads::read_traces;
use elf64_core::u64_in;
use process_memory::{ProcessMemory, word_past};
use py_fields::Layout;
use std::alloc::Global;

/// What the test answers where a read or the walk fails so: a fault refuses the address, and out of memory is
/// handed on.
fn refused_address(error: StackError) -> Result<bool, StackError>
    ensures { RefusesAddress error result }
{
    match error {
        StackError::OutOfMemory => Err(StackError::OutOfMemory),
        _ => Ok(false),
    }
}

/// The interpreter that the thread at an address names. One read.
fn read_named<P: ProcessMemory>(
    alloc: Global,
    process: &mut P,
    layout: &Layout,
    head: u64,
) -> Result<u64, StackError>
    requires sound { IsSound layout.now }
    ensures { Consults layout.now stack_fault 1 (P.seen process.old) (P.seen process.new)
        (λ m. interpreter_named_by layout.now m head) result }
{
    let mut thread = Vec::new(alloc);
    read_bytes(process, head, layout.thread.size, &mut thread)?;
    Ok(u64_in(&thread, layout.thread.interp as usize))
}

/// Tests the address: the thread at `head` is looked at, and where it names the address its threads are walked.
fn walk_from<P: ProcessMemory>(
    alloc: Global,
    process: &mut P,
    layout: &Layout,
    interpreter: u64,
    head: u64,
) -> Result<bool, StackError>
    requires sound { IsSound layout.now }
    ensures { ConsultsBy layout.now stack_fault (λ m. cost_from layout.now m interpreter head)
        (P.seen process.old) (P.seen process.new)
        (λ m. Ok (passes_from layout.now m interpreter head)) result }
{
    let named = match read_named(alloc, process, layout, head) {
        Ok(named) => named,
        Err(error) => return refused_address(error),
    };
    if named != interpreter {
        return Ok(false);
    }
    let asked = Asked {
        lineno: LineNo::NoLine,
        locals: false,
    };
    let _traces = match read_traces(alloc, process, layout, asked, interpreter) {
        Ok(traces) => traces,
        Err(error) => return refused_address(error),
    };
    Ok(true)
}

/// Tests the address, by its own first thread.
fn walk_interpreter<P: ProcessMemory>(
    alloc: Global,
    process: &mut P,
    layout: &Layout,
    interpreter: u64,
) -> Result<bool, StackError>
    requires sound { IsSound layout.now }
    ensures { ConsultsBy layout.now stack_fault
        (λ m. test_cost layout.now m interpreter) (P.seen process.old) (P.seen process.new)
        (λ m. Ok (passes layout.now m interpreter)) result }
{
    let head = match get_first_thread(process, layout, interpreter) {
        Ok(head) => head,
        Err(error) => return refused_address(error),
    };
    walk_from(alloc, process, layout, interpreter, head)
}

/// The address of the first thread of the interpreter at an address; 0 where it has none.
///
/// `Unreadable` comes exactly where the word that names it is not in memory. It takes no memory: out of memory
/// comes only where a read of the process may want it. At most one read.
pub fn get_first_thread<P: ProcessMemory>(
    process: &mut P,
    layout: &Layout,
    interpreter: u64,
) -> Result<u64, StackError>
    ensures answer { Consults layout.now stack_fault 1 (P.seen process.old) (P.seen process.new)
        (λ m. threads_head layout.now m interpreter) result }
    ensures memory { IsErrOf result StackError.OutOfMemory → IsTrue (P.seen process.old).may_want_memory }
{
    let head = word_past(process, interpreter, layout.interpreter.threads as u64)?;
    Ok(head)
}

/// Whether an address is an interpreter's, where `head` is what `get_first_thread` answered for it: the thread
/// there names the address, and its threads can be walked. See `is_interpreter`, of which this is what is left
/// after its first read.
///
/// The one error is out of memory. At most 2 reads, 2 for each thread that is met, and 6 for each member of its
/// chain of frames: for a cyclic chain as many as its limit lets be met.
pub fn is_interpreter_from<P: ProcessMemory>(
    alloc: Global,
    process: &mut P,
    layout: &Layout,
    interpreter: u64,
    head: u64,
) -> Result<bool, StackError>
    requires sound { IsSound layout.now }
    ensures answer { ConsultsBy layout.now stack_fault (λ m. bound_from layout.now m interpreter head)
        (P.seen process.old) (P.seen process.new) (λ m. Ok (passes_from layout.now m interpreter head)) result }
    ensures exact { ConsultingBy layout.now (λ m. bound_from layout.now m interpreter head)
        (P.seen process.old) (P.seen process.new)
        (λ m. IfOk result (λ is. IsTrue is ↔ IsInterpreterFrom layout.now m interpreter head)) }
    ensures most { Consults layout.now stack_fault (2 + 4096 * (2 + 6 * 16384))
        (P.seen process.old) (P.seen process.new) (λ m. Ok (passes_from layout.now m interpreter head)) result }
{
    walk_from(alloc, process, layout, interpreter, head)
}

/// Whether an address is an interpreter's: its first thread names it, and its threads can be walked.
///
/// The walk is that of `get_stack_traces`, to null and within the same limits, less the holder, the lines and
/// the locals. Whether a map of the process holds the address, and the first thread's, is left to the caller.
///
/// A record that is not in memory, or a chain that goes on past its limit, refuses the address; the one error
/// is out of memory. At most 3 reads, 2 for each thread that is met, and 6 for each member of its chain of
/// frames: for a cyclic chain as many as its limit lets be met.
pub fn is_interpreter<P: ProcessMemory>(
    alloc: Global,
    process: &mut P,
    layout: &Layout,
    interpreter: u64,
) -> Result<bool, StackError>
    requires sound { IsSound layout.now }
    ensures answer { ConsultsBy layout.now stack_fault (λ m. test_bound layout.now m interpreter)
        (P.seen process.old) (P.seen process.new) (λ m. Ok (passes layout.now m interpreter)) result }
    ensures exact { ConsultingBy layout.now (λ m. test_bound layout.now m interpreter)
        (P.seen process.old) (P.seen process.new)
        (λ m. IfOk result (λ is. IsTrue is ↔ IsInterpreter layout.now m interpreter)) }
    ensures most { Consults layout.now stack_fault (3 + 4096 * (2 + 6 * 16384))
        (P.seen process.old) (P.seen process.new) (λ m. Ok (passes layout.now m interpreter)) result }
{
    walk_interpreter(alloc, process, layout, interpreter)
}
