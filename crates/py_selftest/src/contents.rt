//! Questions whose answers are known, of what the modules `sys` and `builtins` have: a program can change that.
ghost use Rattle.std.specs.Prelude.{◌≡◌, IfErr, OnOk};
ghost use Rattle.process_memory.specs.Seen.{Reads, read_fault};
ghost use Rattle.process_memory.specs.declared.memory.ReadFault.TheVariants.{OutOfMemory};
ghost use Rattle.py_fields.specs.Sound.{IsSound};
ghost use Rattle.py_names.specs.NamesError.{names_fault};
ghost use Rattle.py_builtins.specs.ObjectError.{object_fault};
ghost use Rattle.py_selftest.specs.Contents.{add_contents, both_told, by_fault, content_at, contents_at};
ghost use Rattle.py_selftest.specs.Contents.{contents_if, contents_none, float_if, float_told};
ghost use Rattle.py_selftest.specs.Contents.{dict_entry, entry_if, first_contents, first_interpreter, float_at};
ghost use Rattle.py_selftest.specs.Contents.{is_number, largest_if, largest_told, module_entry, module_named};
ghost use Rattle.py_selftest.specs.Contents.{number_told, told_result, truth_at, truth_if, truth_told};

use crate::classes::class_named;
use crate::questions::{Answer, Question, add_answer};
use crate::walking::ThreadPlace;
use process_memory::{ProcessMemory, ReadFault, word_past};
use py_builtins::{DictCursor, ObjectError, copy_long, read_type};
use py_fields::Layout;
use py_names::{NamesError, find_in, word_beside};
use std::alloc::Global;

/// How many slots of a dict are looked at, at most.
const SLOT_LIMIT: u64 = 1024;

/// The largest character, `sys.maxunicode`.
const LARGEST: u64 = 0x10_ffff;

/// The largest finite number of 8 bytes, `sys.float_info.max`.
const LARGEST_FLOAT: u64 = 0x7fef_ffff_ffff_ffff;

/// The answers of an interpreter; none to what is not in memory, or not there.
#[derive(Clone, Copy)]
pub(crate) struct ContentsTold {
    pub(crate) largest: Option<bool>,
    pub(crate) float: Option<bool>,
    pub(crate) truth: Option<bool>,
}

/// What the dict at an address has under a name, among its first 1024 slots. At most 4098 reads.
fn dict_entry<P: ProcessMemory>(
    alloc: Global,
    process: &mut P,
    layout: &Layout,
    dict: u64,
    name: &str,
) -> Result<Option<u64>, NamesError>
    requires sound { IsSound layout.now }
    ensures { Reads names_fault 4098 (P.seen process.old) (P.seen process.new)
        (λ m. dict_entry layout.now m dict name.now) result }
{
    let slots = DictCursor::from(process, layout, dict)?;
    let search = find_in(alloc, process, layout, name, &slots, SLOT_LIMIT)?;
    Ok(search.found)
}

/// What the module at an address has under a name. At most 4101 reads.
fn module_entry<P: ProcessMemory>(
    alloc: Global,
    process: &mut P,
    layout: &Layout,
    module_at: u64,
    name: &str,
) -> Result<Option<u64>, NamesError>
    requires sound { IsSound layout.now }
    ensures { Reads names_fault 4101 (P.seen process.old) (P.seen process.new)
        (λ m. module_entry layout.now m module_at name.now) result }
{
    let class = read_type(alloc, process, layout, module_at)?;
    let dict = word_beside(process, module_at, class.dict_offset)?;
    dict_entry(alloc, process, layout, dict, name)
}

/// The same, where there is a module. At most 4101 reads.
fn entry_if<P: ProcessMemory>(
    alloc: Global,
    process: &mut P,
    layout: &Layout,
    found: Option<u64>,
    name: &str,
) -> Result<Option<u64>, NamesError>
    requires sound { IsSound layout.now }
    ensures { Reads names_fault 4101 (P.seen process.old) (P.seen process.new)
        (λ m. entry_if layout.now m found name.now) result }
{
    match found {
        None => Ok(None),
        Some(module_at) => module_entry(alloc, process, layout, module_at, name),
    }
}

/// The module of a name. At most 4099 reads.
fn module_named<P: ProcessMemory>(
    alloc: Global,
    process: &mut P,
    layout: &Layout,
    interpreter: u64,
    name: &str,
) -> Result<Option<u64>, NamesError>
    requires sound { IsSound layout.now }
    ensures { Reads names_fault 4099 (P.seen process.old) (P.seen process.new)
        (λ m. module_named layout.now m interpreter name.now) result }
{
    let modules = word_past(process, interpreter, layout.interpreter.modules as u64)?;
    dict_entry(alloc, process, layout, modules, name)
}

/// What the module of a name has under another one. At most 8200 reads.
fn content_at<P: ProcessMemory>(
    alloc: Global,
    process: &mut P,
    layout: &Layout,
    interpreter: u64,
    holder: &str,
    name: &str,
) -> Result<Option<u64>, NamesError>
    requires sound { IsSound layout.now }
    ensures { Reads names_fault 8200 (P.seen process.old) (P.seen process.new)
        (λ m. content_at layout.now m interpreter holder.now name.now) result }
{
    let found = module_named(alloc, process, layout, interpreter, holder)?;
    entry_if(alloc, process, layout, found, name)
}

/// Whether a number of at most two digits is this one.
fn is_number(told: (i64, bool), number: u64) -> bool
    ensures { result ≡ is_number told number }
{
    !told.1 && told.0.cast_unsigned() == number
}

/// Whether an object has this number. At most 2 reads.
fn number_told<P: ProcessMemory>(
    process: &mut P,
    layout: &Layout,
    object: u64,
    number: u64,
) -> Result<Option<bool>, NamesError>
    requires sound { IsSound layout.now }
    ensures { Reads names_fault 2 (P.seen process.old) (P.seen process.new)
        (λ m. number_told layout.now m object number) result }
{
    let told = copy_long(process, layout, object)?;
    Ok(Some(is_number(told, number)))
}

/// Whether an object is the largest character's number, where there is one. At most 2 reads.
fn largest_if<P: ProcessMemory>(
    process: &mut P,
    layout: &Layout,
    object: Option<u64>,
) -> Result<Option<bool>, NamesError>
    requires sound { IsSound layout.now }
    ensures { Reads names_fault 2 (P.seen process.old) (P.seen process.new)
        (λ m. largest_if layout.now m object) result }
{
    match object {
        None => Ok(None),
        Some(object) => number_told(process, layout, object, LARGEST),
    }
}

/// Whether `sys.maxunicode` is the largest character's number. At most 8202 reads.
fn largest_told<P: ProcessMemory>(
    alloc: Global,
    process: &mut P,
    layout: &Layout,
    interpreter: u64,
) -> Result<Option<bool>, NamesError>
    requires sound { IsSound layout.now }
    ensures { Reads names_fault 8202 (P.seen process.old) (P.seen process.new)
        (λ m. largest_told layout.now m interpreter) result }
{
    let object = content_at(alloc, process, layout, interpreter, "sys", "maxunicode")?;
    largest_if(process, layout, object)
}

/// Whether the first item of what stands there as a tuple is the largest finite number. At most 2 reads.
fn float_at<P: ProcessMemory>(
    process: &mut P,
    layout: &Layout,
    object: u64,
) -> Result<Option<bool>, NamesError>
    ensures { Reads names_fault 2 (P.seen process.old) (P.seen process.new)
        (λ m. float_at layout.now m object) result }
{
    let first = word_past(process, object, layout.tuple.at as u64)?;
    let value = word_past(process, first, layout.float.value as u64)?;
    Ok(Some(value == LARGEST_FLOAT))
}

/// The same, where something stands there. At most 2 reads.
fn float_if<P: ProcessMemory>(
    process: &mut P,
    layout: &Layout,
    object: Option<u64>,
) -> Result<Option<bool>, NamesError>
    ensures { Reads names_fault 2 (P.seen process.old) (P.seen process.new)
        (λ m. float_if layout.now m object) result }
{
    match object {
        None => Ok(None),
        Some(object) => float_at(process, layout, object),
    }
}

/// Whether the first item of `sys.float_info` is the largest finite number. At most 8202 reads.
fn float_told<P: ProcessMemory>(
    alloc: Global,
    process: &mut P,
    layout: &Layout,
    interpreter: u64,
) -> Result<Option<bool>, NamesError>
    requires sound { IsSound layout.now }
    ensures { Reads names_fault 8202 (P.seen process.old) (P.seen process.new)
        (λ m. float_told layout.now m interpreter) result }
{
    let object = content_at(alloc, process, layout, interpreter, "sys", "float_info")?;
    float_if(process, layout, object)
}

/// Whether there is a class, and the number is 1.
fn both_told(class: Option<u64>, told: (i64, bool)) -> bool
    ensures { result ≡ both_told class told }
{
    class.is_some() && is_number(told, 1)
}

/// Whether an object's class is called `bool`, and its number is 1. At most 5 reads.
fn truth_at<P: ProcessMemory>(
    alloc: Global,
    process: &mut P,
    layout: &Layout,
    object: u64,
) -> Result<Option<bool>, NamesError>
    requires sound { IsSound layout.now }
    ensures { Reads names_fault 5 (P.seen process.old) (P.seen process.new)
        (λ m. truth_at layout.now m object) result }
{
    let class = class_named(alloc, process, layout, object, "bool")?;
    let told = copy_long(process, layout, object)?;
    Ok(Some(both_told(class, told)))
}

/// The same, where something stands there. At most 5 reads.
fn truth_if<P: ProcessMemory>(
    alloc: Global,
    process: &mut P,
    layout: &Layout,
    object: Option<u64>,
) -> Result<Option<bool>, NamesError>
    requires sound { IsSound layout.now }
    ensures { Reads names_fault 5 (P.seen process.old) (P.seen process.new)
        (λ m. truth_if layout.now m object) result }
{
    match object {
        None => Ok(None),
        Some(object) => truth_at(alloc, process, layout, object),
    }
}

/// Whether `True` of `builtins` is of `bool`, and 1. At most 8205 reads.
fn truth_told<P: ProcessMemory>(
    alloc: Global,
    process: &mut P,
    layout: &Layout,
    interpreter: u64,
) -> Result<Option<bool>, NamesError>
    requires sound { IsSound layout.now }
    ensures { Reads names_fault 8205 (P.seen process.old) (P.seen process.new)
        (λ m. truth_told layout.now m interpreter) result }
{
    let object = content_at(alloc, process, layout, interpreter, "builtins", "True")?;
    truth_if(alloc, process, layout, object)
}

/// What an object's error leaves: nothing told, or out of memory.
fn object_result(error: ObjectError) -> Result<Option<bool>, ReadFault>
    ensures { result ≡ by_fault (object_fault error) }
{
    match error {
        ObjectError::OutOfMemory => Err(ReadFault::OutOfMemory),
        ObjectError::Unreadable { .. } => Ok(None),
        ObjectError::NoText => Ok(None),
        ObjectError::TooLong { .. } => Ok(None),
        ObjectError::BadDict => Ok(None),
        ObjectError::BadType => Ok(None),
        ObjectError::Visits => Ok(None),
        ObjectError::Depth => Ok(None),
        ObjectError::BadCount { .. } => Ok(None),
        ObjectError::BadBool { .. } => Ok(None),
    }
}

/// What is told, none where it can't be read, or out of memory.
fn told_result(found: Result<Option<bool>, NamesError>) -> Result<Option<bool>, ReadFault>
    ensures { result ≡ told_result found }
{
    match found {
        Ok(told) => Ok(told),
        Err(NamesError::NoDicts) => Ok(None),
        Err(NamesError::Entries) => Ok(None),
        Err(NamesError::Object(error)) => object_result(error),
        Err(NamesError::OutOfMemory) => Err(ReadFault::OutOfMemory),
    }
}

/// The answers of an interpreter. At most 24609 reads.
fn contents_at<P: ProcessMemory>(
    alloc: Global,
    process: &mut P,
    layout: &Layout,
    interpreter: u64,
) -> Result<ContentsTold, ReadFault>
    requires sound { IsSound layout.now }
    ensures { Reads read_fault 24609 (P.seen process.old) (P.seen process.new)
        (λ m. contents_at layout.now m interpreter) result }
{
    let largest = told_result(largest_told(alloc, process, layout, interpreter))?;
    let float = told_result(float_told(alloc, process, layout, interpreter))?;
    let truth = told_result(truth_told(alloc, process, layout, interpreter))?;
    Ok(ContentsTold {
        largest,
        float,
        truth,
    })
}

/// No answer.
fn contents_none() -> ContentsTold
    ensures { result ≡ contents_none }
{
    ContentsTold {
        largest: None,
        float: None,
        truth: None,
    }
}

/// The interpreter of the first thread.
fn first_interpreter(threads: &[ThreadPlace]) -> Option<u64>
    ensures { result ≡ first_interpreter threads.now }
{
    match threads.first() {
        Some(thread) => Some(thread.interpreter),
        None => None,
    }
}

/// The answers of an interpreter, where there is one. At most 24609 reads.
fn contents_if<P: ProcessMemory>(
    alloc: Global,
    process: &mut P,
    layout: &Layout,
    interpreter: Option<u64>,
) -> Result<ContentsTold, ReadFault>
    requires sound { IsSound layout.now }
    ensures { Reads read_fault 24609 (P.seen process.old) (P.seen process.new)
        (λ m. contents_if layout.now m interpreter) result }
{
    match interpreter {
        None => Ok(contents_none()),
        Some(interpreter) => contents_at(alloc, process, layout, interpreter),
    }
}

/// The answers of the interpreter of the first thread. At most 24609 reads.
pub(crate) fn first_contents<P: ProcessMemory>(
    alloc: Global,
    process: &mut P,
    layout: &Layout,
    threads: &[ThreadPlace],
) -> Result<ContentsTold, ReadFault>
    requires sound { IsSound layout.now }
    ensures { Reads read_fault 24609 (P.seen process.old) (P.seen process.new)
        (λ m. first_contents layout.now m threads.now) result }
{
    let interpreter = first_interpreter(threads);
    contents_if(alloc, process, layout, interpreter)
}

/// Adds these answers.
pub(crate) fn add_contents(answers: &mut Vec<Answer>, told: &ContentsTold) -> Result<(), ReadFault>
    ensures added { OnOk result (answers.new.items ≡ add_contents answers.old.items told.now) }
    ensures memory { IfErr result (λ error. error ≡ OutOfMemory) }
{
    add_answer(answers, Question::Largest, told.largest)?;
    add_answer(answers, Question::Float, told.float)?;
    add_answer(answers, Question::Truth, told.truth)
}
