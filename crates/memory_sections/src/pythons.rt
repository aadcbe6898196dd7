//! The threads of Python that are shown, by their ids.
ghost use Rattle.std.specs.Prelude.{◌≡◌, IfOk, map};
ghost use Rattle.memory_sections.specs.Pythons.{python_thread, python_threads};

use py_fronts::{SalvagedInterpreter, ThreadFront};
use std::alloc::{AllocError, Global};
use thread_registers::PythonThread;

/// A thread of Python's, by its ids.
fn python_thread(thread: &ThreadFront) -> PythonThread
    ensures { result ≡ python_thread thread.now }
{
    PythonThread {
        thread_id: thread.thread_id,
        native_id: thread.os_thread_id,
    }
}

/// The threads of a chain, by their ids.
fn chain_threads(alloc: Global, threads: &[ThreadFront]) -> Result<Vec<PythonThread>, AllocError>
    ensures { IfOk result (λ own. own.items ≡ map python_thread threads.now) }
{
    let mut own = Vec::new(alloc);
    for thread in threads {
        own.push(python_thread(thread))?;
    }
    Ok(own)
}

/// The threads of all interpreters that are shown, by their ids, in the order of the interpreters and of their chains.
/// The one error is out of memory.
pub fn python_threads(
    alloc: Global,
    interpreters: &[SalvagedInterpreter],
) -> Result<Vec<PythonThread>, AllocError>
    ensures { IfOk result (λ threads. threads.items ≡ python_threads interpreters.now) }
{
    let mut threads = Vec::new(alloc);
    for interpreter in interpreters {
        let own = chain_threads(alloc, &interpreter.front.threads.threads)?;
        threads.extend_from_slice(&own)?;
    }
    Ok(threads)
}
