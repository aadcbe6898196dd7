//! What is told of the exceptions of a thread.
ghost use Rattle.std.specs.Prelude.{◌≡◌, IfOk, Some};
ghost use Rattle.process_memory.specs.Seen.{Reading};
ghost use Rattle.py_fields.specs.Sound.{IsSound};
ghost use Rattle.thread_exceptions.specs.Thread.{raised_of};
ghost use Rattle.py_exceptions.specs.Sound.{IsDescribed};
ghost use Rattle.py_exceptions.specs.Threads.{IsTold, ToldShown, head_told_by, parts_at, parts_if, raised_parts_shown};
ghost use Rattle.py_exceptions.specs.Threads.{raised_parts_at, told_reads, told_shown, traceback_if, traceback_told_by};

use crate::described::Described;
use crate::exception::{ToldException, read_all};
use crate::fault::read_word;
use crate::name::{ClassName, read_class};
use crate::traceback::{Traceback, read_traceback};
use crate::value::{Value, read_value};
use process_memory::ProcessMemory;
use py_fields::Layout;
use std::alloc::Global;
use thread_exceptions::{ExceptionsError, Raised, ThreadExceptions, read_thread};

/// An exception that is raised, up to 3.11, as its thread has it: the value may be no exception yet.
#[derive(Drop)]
pub struct RaisedParts {
    /// The name of its class.
    pub class: Option<ClassName>,
    /// What one is to be made of, as a text, or the arguments; or an exception, which is `Other` here and met as well.
    pub value: Option<Value>,
    /// The thread's traceback, which the exception itself does not have yet; none where that is not in memory.
    pub traceback: Option<Traceback>,
}

/// What a thread raises and handles, and what is told of all that this leads to.
#[derive(Drop)]
pub struct ToldThread {
    /// What it raises and handles, and all objects that are met from there on.
    pub thread: ThreadExceptions,
    /// The parts of what is raised, where `thread.raised` is `Parts`.
    pub raised: Option<RaisedParts>,
    /// What is told of each object of `thread.met`, in the same order; none of one that is no exception, or of which
    /// that is not in memory.
    pub told: Vec<Option<ToldException>>,
}

/// The traceback that begins at an address, where that is known. At most 68102 reads.
fn read_from<P: ProcessMemory>(
    alloc: Global,
    process: &mut P,
    layout: &Layout,
    places: &Described,
    head: Option<u64>,
) -> Result<Option<Traceback>, ExceptionsError>
    requires sound { IsSound layout.now }
    requires places { IsDescribed places.now }
    ensures { Reading 68102 (P.seen process.old) (P.seen process.new)
        (λ m. IfOk result (λ told. traceback_if told ≡ head_told_by layout.now places.now m head)) }
{
    match head {
        None => Ok(None),
        Some(head) => {
            let told = read_traceback(alloc, process, layout, &places.traceback, head)?;
            Ok(Some(told))
        }
    }
}

/// The traceback that a thread names. At most 68103 reads.
fn read_own<P: ProcessMemory>(
    alloc: Global,
    process: &mut P,
    layout: &Layout,
    places: &Described,
    thread: u64,
) -> Result<Option<Traceback>, ExceptionsError>
    requires sound { IsSound layout.now }
    requires places { IsDescribed places.now }
    ensures { Reading 68103 (P.seen process.old) (P.seen process.new)
        (λ m. IfOk result (λ told. traceback_if told
        ≡ traceback_told_by layout.now places.now m thread places.now.raised_traceback)) }
{
    match places.raised_traceback {
        None => Ok(None),
        Some(place) => {
            let head = read_word(process, thread, place)?;
            read_from(alloc, process, layout, places, head)
        }
    }
}

/// The parts of what is raised, by the addresses of its class and its value. At most 84501 reads.
fn read_parts<P: ProcessMemory>(
    alloc: Global,
    process: &mut P,
    layout: &Layout,
    places: &Described,
    thread: u64,
    class: u64,
    value: u64,
) -> Result<RaisedParts, ExceptionsError>
    requires sound { IsSound layout.now }
    requires places { IsDescribed places.now }
    ensures { Reading 84501 (P.seen process.old) (P.seen process.new)
        (λ m. IfOk result (λ told. raised_parts_shown told
        ≡ parts_at layout.now places.now m thread class value)) }
{
    let name = read_class(alloc, process, layout, &places.class, class)?;
    let made_of = read_value(alloc, process, layout, value)?;
    let traceback = read_own(alloc, process, layout, places, thread)?;
    Ok(RaisedParts {
        class: name,
        value: made_of,
        traceback,
    })
}

/// The parts of what is raised, where it has some. At most 84501 reads.
fn read_raised<P: ProcessMemory>(
    alloc: Global,
    process: &mut P,
    layout: &Layout,
    places: &Described,
    thread: u64,
    raised: &Raised,
) -> Result<Option<RaisedParts>, ExceptionsError>
    requires sound { IsSound layout.now }
    requires places { IsDescribed places.now }
    ensures { Reading 84501 (P.seen process.old) (P.seen process.new)
        (λ m. IfOk result (λ told. parts_if told
        ≡ raised_parts_at layout.now places.now m thread (raised_of raised.now))) }
{
    match *raised {
        Raised::Nothing => Ok(None),
        Raised::Exception { .. } => Ok(None),
        Raised::Parts { class, value } => {
            let told = read_parts(alloc, process, layout, places, thread, class, value)?;
            Ok(Some(told))
        }
        Raised::Unreadable(_) => Ok(None),
    }
}

/// See `read_exceptions`.
fn tell<P: ProcessMemory>(
    alloc: Global,
    process: &mut P,
    layout: &Layout,
    places: &Described,
    thread: u64,
) -> Result<ToldThread, ExceptionsError>
    requires sound { IsSound layout.now }
    requires places { IsDescribed places.now }
    ensures { Reading told_reads (P.seen process.old) (P.seen process.new)
        (λ m. IfOk result (λ told. IsTold layout.now places.now m thread (told_shown told))) }
{
    let found = read_thread(alloc, process, &places.thread, thread)?;
    let raised = read_raised(alloc, process, layout, places, thread, &found.raised)?;
    let told = read_all(alloc, process, layout, places, &found.met)?;
    Ok(ToldThread {
        thread: found,
        raised,
        told,
    })
}

/// What is told of the exceptions of the thread with the record at an address: which one is raised, which are handled,
/// and of each exception that this leads to, once, the name of its class, what it says, its traceback and its notes.
///
/// What can't be read costs what it breaks: each part has a mark of its own. There is one such answer alone, and it is
/// the answer. The one error is out of memory. At most 370,201 reads for what is found from a thread on, and 117,623
/// for each of at most 1,024 exceptions.
pub fn read_exceptions<P: ProcessMemory>(
    alloc: Global,
    process: &mut P,
    layout: &Layout,
    places: &Described,
    thread: u64,
) -> Result<ToldThread, ExceptionsError>
    requires sound { IsSound layout.now }
    requires places { IsDescribed places.now }
    ensures right { Reading told_reads (P.seen process.old) (P.seen process.new)
        (λ m. IfOk result (λ told. IsTold layout.now places.now m thread (told_shown told))) }
    ensures only { Reading told_reads (P.seen process.old) (P.seen process.new)
        (λ m. (other : ToldShown) → IsTold layout.now places.now m thread other
        → IfOk result (λ told. told_shown told ≡ other)) }
{
    tell(alloc, process, layout, places, thread)
}
