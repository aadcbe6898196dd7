//! Questions whose answers are known, of a thread and of its interpreter.
ghost use Rattle.std.specs.Prelude.{◌≡◌, IfErr, OnOk};
ghost use Rattle.process_memory.specs.Seen.{Reads, read_fault};
ghost use Rattle.process_memory.specs.declared.memory.ReadFault.TheVariants.{OutOfMemory};
ghost use Rattle.py_selftest.specs.Threads.{add_thread, class_has_dicts, dict_told, has_dicts, is_among, modules_if};
ghost use Rattle.py_selftest.specs.Threads.{modules_told, pointer_at, pointer_if, pointer_told, same_word, thread_told};

use crate::questions::{Answer, Question, add_answer};
use crate::telling::{kept, word_told};
use process_memory::{ProcessMemory, ReadFault, word_past};
use py_fields::Layout;

/// The answers of a thread; none to what is not in memory, or is not asked of it.
#[derive(Clone, Copy)]
pub(crate) struct ThreadTold {
    pub(crate) interpreter: Option<bool>,
    pub(crate) pointer: Option<bool>,
    pub(crate) modules: Option<bool>,
}

/// Whether a word is this one, where it is in memory.
fn same_word(word: Option<u64>, as_this: u64) -> Option<bool>
    ensures { result ≡ same_word word as_this }
{
    match word {
        Some(word) => Some(word == as_this),
        None => None,
    }
}

/// Whether an id is one of some thread pointers.
fn is_among(pointers: &[u64], id: u64) -> bool
    ensures { result ≡ is_among pointers.now id }
{
    pointers.iter().any(|pointer| *pointer == id)
}

/// Whether the id of a thread is one of the thread pointers. At most one read.
fn pointer_at<P: ProcessMemory>(
    process: &mut P,
    layout: &Layout,
    pointers: &[u64],
    thread: u64,
) -> Result<Option<bool>, ReadFault>
    ensures { Reads read_fault 1 (P.seen process.old) (P.seen process.new)
        (λ m. pointer_at layout.now m pointers.now thread) result }
{
    let id = word_past(process, thread, layout.thread.id as u64)?;
    Ok(Some(is_among(pointers, id)))
}

/// The same, if it is asked. At most one read.
fn pointer_if<P: ProcessMemory>(
    process: &mut P,
    layout: &Layout,
    pointers: &[u64],
    thread: u64,
    is: bool,
) -> Result<Option<bool>, ReadFault>
    ensures { Reads read_fault 1 (P.seen process.old) (P.seen process.new)
        (λ m. pointer_if layout.now m pointers.now thread is) result }
{
    if is {
        return pointer_at(process, layout, pointers, thread);
    }
    Ok(None)
}

/// The same, where some thread pointer is known. At most one read.
fn pointer_told<P: ProcessMemory>(
    process: &mut P,
    layout: &Layout,
    pointers: &[u64],
    thread: u64,
) -> Result<Option<bool>, ReadFault>
    ensures { Reads read_fault 1 (P.seen process.old) (P.seen process.new)
        (λ m. pointer_told layout.now m pointers.now thread) result }
{
    let is = 0 < pointers.len();
    pointer_if(process, layout, pointers, thread, is)
}

/// Whether the flags of a class say that its objects are dicts (`Py_TPFLAGS_DICT_SUBCLASS`).
fn has_dicts(flags: u64) -> bool
    ensures { result ≡ has_dicts flags }
{
    flags / 0x2000_0000 % 2 == 1
}

/// Whether the class of an object says that it is a dict. At most 2 reads.
fn class_has_dicts<P: ProcessMemory>(
    process: &mut P,
    layout: &Layout,
    object: u64,
) -> Result<Option<bool>, ReadFault>
    ensures { Reads read_fault 2 (P.seen process.old) (P.seen process.new)
        (λ m. class_has_dicts layout.now m object) result }
{
    let class = word_past(process, object, layout.object.klass as u64)?;
    let flags = word_past(process, class, layout.klass.flags as u64)?;
    Ok(Some(has_dicts(flags)))
}

/// Whether an object is a dict; null is none. At most 2 reads.
fn dict_told<P: ProcessMemory>(
    process: &mut P,
    layout: &Layout,
    object: u64,
) -> Result<Option<bool>, ReadFault>
    ensures { Reads read_fault 2 (P.seen process.old) (P.seen process.new)
        (λ m. dict_told layout.now m object) result }
{
    let is_null = object == 0;
    if is_null {
        return Ok(Some(false));
    }
    class_has_dicts(process, layout, object)
}

/// Whether what an interpreter names as its modules is a dict. At most 3 reads.
fn modules_told<P: ProcessMemory>(
    process: &mut P,
    layout: &Layout,
    interpreter: u64,
) -> Result<Option<bool>, ReadFault>
    ensures { Reads read_fault 3 (P.seen process.old) (P.seen process.new)
        (λ m. modules_told layout.now m interpreter) result }
{
    let object = word_past(process, interpreter, layout.interpreter.modules as u64)?;
    dict_told(process, layout, object)
}

/// The same, if it was not asked before. At most 3 reads.
fn modules_if<P: ProcessMemory>(
    process: &mut P,
    layout: &Layout,
    interpreter: u64,
    was_asked: bool,
) -> Result<Option<bool>, ReadFault>
    ensures { Reads read_fault 3 (P.seen process.old) (P.seen process.new)
        (λ m. modules_if layout.now m interpreter was_asked) result }
{
    if was_asked {
        return Ok(None);
    }
    modules_told(process, layout, interpreter)
}

/// The answers of the thread at an address, in the chain of an interpreter, where `before` is the interpreter of the
/// thread before it: an interpreter itself is asked with the first one of its threads. At most 5 reads.
pub(crate) fn thread_told<P: ProcessMemory>(
    process: &mut P,
    layout: &Layout,
    pointers: &[u64],
    before: u64,
    interpreter: u64,
    thread: u64,
) -> Result<ThreadTold, ReadFault>
    ensures { Reads read_fault 5 (P.seen process.old) (P.seen process.new)
        (λ m. thread_told layout.now m pointers.now before interpreter thread) result }
{
    let was_asked = before == interpreter;
    let named = kept(word_told(process, thread, layout.thread.interp as u64))?;
    let pointer = kept(pointer_told(process, layout, pointers, thread))?;
    let modules = kept(modules_if(process, layout, interpreter, was_asked))?;
    Ok(ThreadTold {
        interpreter: same_word(named, interpreter),
        pointer,
        modules,
    })
}

/// Adds the answers of a thread.
pub(crate) fn add_thread(answers: &mut Vec<Answer>, told: &ThreadTold) -> Result<(), ReadFault>
    ensures added { OnOk result (answers.new.items ≡ add_thread answers.old.items told.now) }
    ensures memory { IfErr result (λ error. error ≡ OutOfMemory) }
{
    add_answer(answers, Question::Interpreter, told.interpreter)?;
    add_answer(answers, Question::Pointer, told.pointer)?;
    add_answer(answers, Question::Modules, told.modules)
}
