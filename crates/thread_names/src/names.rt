//! The names of an interpreter's threads, and why they are not told.
ghost use Rattle.std.specs.Prelude.{◌≡◌, ◌+◌, ◌*◌, IfOk, IfSome, Ok, length, map};
ghost use Rattle.process_memory.specs.Seen.{Reading};
ghost use Rattle.py_fields.specs.Sound.{IsSound};
ghost use Rattle.thread_names.specs.Active.{slots_of};
ghost use Rattle.thread_names.specs.Keys.{HasThreads, keys_in};
ghost use Rattle.thread_names.specs.Told.{IsLost, IsToldBy, fault_shown, name_in, name_told, names_by, names_by_keys};
ghost use Rattle.thread_names.specs.Told.{names_shown, names_told, no_names, thread_shown, unnamed};

use crate::active::read_active;
use crate::keys::{Keyed, is_memory, read_keys};
use crate::own::{DictRule, read_name};
use elf64_core::Text;
use process_memory::ProcessMemory;
use py_builtins::DictCursor;
use py_fields::Layout;
use py_names::NamesError;
use std::alloc::{AllocError, Global};
use std::collections::BTreeMap;

/// The name of a thread.
#[derive(Debug, Drop)]
pub struct ThreadName {
    /// The id that the interpreter gave.
    pub thread_id: u64,
    /// Its name, where the interpreter keeps one for this id and it can be read.
    pub name: Option<Text>,
    /// Why its name can't be read. It is never for out of memory; `Entries` stands for more than 256 slots.
    pub fault: Option<NamesError>,
}

/// The names of an interpreter's threads.
#[derive(Debug, Drop)]
pub struct InterpreterNames {
    /// The address of the interpreter.
    pub interpreter: u64,
    /// Its threads, in the order in which they were asked for.
    pub threads: Vec<ThreadName>,
    /// How many slots of the dict of threads may have a thread whose id is not known: those that can't be read, and
    /// those past the first 65536.
    pub unread: u64,
    /// Why no name is told, where the dict of threads can't be read. It is never for out of memory.
    pub fault: Option<NamesError>,
}

/// The addresses of threads, by their ids, later ones in the place of earlier ones of their ids.
fn threads_map(alloc: Global, keys: &[Keyed]) -> Result<BTreeMap<u64, u64>, AllocError>
    ensures { IfOk result (λ map. HasThreads map keys.now) }
{
    let mut map = BTreeMap::new(alloc);
    for keyed in keys {
        map.insert(keyed.id, keyed.thread)?;
    }
    Ok(map)
}

/// The thread of an id by what was read of its name; out of memory is handed on.
fn told_by(thread_id: u64, read: Result<Option<Text>, NamesError>) -> Result<ThreadName, AllocError>
    ensures { IfOk result (IsToldBy thread_id read) }
{
    match read {
        Ok(name) => Ok(ThreadName {
            thread_id,
            name,
            fault: None,
        }),
        Err(fault) => {
            if is_memory(&fault) {
                return Err(AllocError);
            }
            Ok(ThreadName {
                thread_id,
                name: None,
                fault: Some(fault),
            })
        }
    }
}

/// The thread of an id, by the address under it. At most 1035 reads.
fn named<P: ProcessMemory>(
    alloc: Global,
    process: &mut P,
    layout: &Layout,
    rule: &Option<DictRule>,
    thread_id: u64,
    thread: Option<u64>,
) -> Result<ThreadName, AllocError>
    requires sound { IsSound layout.now }
    ensures { Reading 1035 (P.seen process.old) (P.seen process.new) (λ m. IfOk result
        (λ told. thread_shown told ≡ name_told layout.now rule.now m thread_id thread)) }
{
    match thread {
        None => Ok(ThreadName {
            thread_id,
            name: None,
            fault: None,
        }),
        Some(thread) => {
            let read = read_name(alloc, process, layout, rule, thread);
            told_by(thread_id, read)
        }
    }
}

/// The thread of an id, by a map of threads. At most 1035 reads.
fn named_in<P: ProcessMemory>(
    alloc: Global,
    process: &mut P,
    layout: &Layout,
    rule: &Option<DictRule>,
    thread_id: u64,
    threads: &BTreeMap<u64, u64>,
) -> Result<ThreadName, AllocError>
    requires sound { IsSound layout.now }
    ensures { Reading 1035 (P.seen process.old) (P.seen process.new) (λ m. IfOk result
        (λ told. thread_shown told ≡ name_in layout.now rule.now m threads.now thread_id)) }
{
    let thread = threads.get(&thread_id).copied();
    named(alloc, process, layout, rule, thread_id, thread)
}

/// The threads of some ids, by a map of threads. At most 1035 reads for each.
fn named_each<P: ProcessMemory>(
    alloc: Global,
    process: &mut P,
    layout: &Layout,
    rule: &Option<DictRule>,
    ids: &[u64],
    threads: &BTreeMap<u64, u64>,
) -> Result<Vec<ThreadName>, AllocError>
    requires sound { IsSound layout.now }
    ensures { Reading (1035 * length ids.now) (P.seen process.old) (P.seen process.new) (λ m. IfOk result
        (λ told. map thread_shown told.items ≡ map (name_in layout.now rule.now m threads.now) ids.now)) }
{
    let mut told = Vec::new(alloc);
    for id in ids {
        let thread = named_in(alloc, process, layout, rule, *id, threads)?;
        told.push(thread)?;
    }
    Ok(told)
}

/// The threads of some ids, by the dict of threads. At most 262144 reads, and 1035 for each id.
fn named_by_dict<P: ProcessMemory>(
    alloc: Global,
    process: &mut P,
    layout: &Layout,
    rule: &Option<DictRule>,
    interpreter: u64,
    ids: &[u64],
    dict: &DictCursor,
) -> Result<InterpreterNames, AllocError>
    requires sound { IsSound layout.now }
    requires start { dict.now.passed ≡ 0 }
    ensures { Reading (262144 + 1035 * length ids.now) (P.seen process.old) (P.seen process.new) (λ m. IfOk result
        (λ told. names_shown told ≡ names_by_keys layout.now rule.now m interpreter ids.now
        (keys_in layout.now m dict.now.slots))) }
{
    let keys = read_keys(alloc, process, layout, dict)?;
    let map = threads_map(alloc, &keys.list)?;
    let threads = named_each(alloc, process, layout, rule, ids, &map)?;
    Ok(InterpreterNames {
        interpreter,
        threads,
        unread: keys.unread,
        fault: None,
    })
}

/// The threads of some ids, without names.
fn unnamed(alloc: Global, ids: &[u64]) -> Result<Vec<ThreadName>, AllocError>
    ensures { IfOk result (λ told. map thread_shown told.items ≡ map unnamed ids.now) }
{
    let mut told = Vec::new(alloc);
    for id in ids {
        told.push(ThreadName {
            thread_id: *id,
            name: None,
            fault: None,
        })?;
    }
    Ok(told)
}

/// The same of an interpreter, and why there are none.
fn without_names(
    alloc: Global,
    interpreter: u64,
    ids: &[u64],
    fault: Option<NamesError>,
) -> Result<InterpreterNames, AllocError>
    ensures { IfOk result (λ told. names_shown told ≡ no_names interpreter ids.now (fault_shown fault)) }
{
    let threads = unnamed(alloc, ids)?;
    Ok(InterpreterNames {
        interpreter,
        threads,
        unread: 0,
        fault,
    })
}

/// The threads of some ids, by the dict of threads, where there is one. At most 262144 reads, and 1035 for each id.
fn named_by_active<P: ProcessMemory>(
    alloc: Global,
    process: &mut P,
    layout: &Layout,
    rule: &Option<DictRule>,
    interpreter: u64,
    ids: &[u64],
    found: Option<DictCursor>,
) -> Result<InterpreterNames, AllocError>
    requires sound { IsSound layout.now }
    requires start { IfSome found (λ cursor. cursor.passed ≡ 0) }
    ensures { Reading (262144 + 1035 * length ids.now) (P.seen process.old) (P.seen process.new) (λ m. IfOk result
        (λ told. names_shown told ≡ names_by layout.now rule.now m interpreter ids.now (Ok (slots_of found)))) }
{
    match found {
        Some(dict) => named_by_dict(alloc, process, layout, rule, interpreter, ids, &dict),
        None => without_names(alloc, interpreter, ids, None),
    }
}

/// The same, by why the dict of threads was not read; out of memory is handed on.
fn without_dict(
    alloc: Global,
    interpreter: u64,
    ids: &[u64],
    fault: NamesError,
) -> Result<InterpreterNames, AllocError>
    ensures { IfOk result (IsLost interpreter ids.now fault) }
{
    if is_memory(&fault) {
        return Err(AllocError);
    }
    without_names(alloc, interpreter, ids, Some(fault))
}

/// The names of the threads of an interpreter that have these ids, in the order of the ids, by what its module
/// `threading` keeps.
///
/// The interpreter names the dict of modules; its first entry `threading` is the module. The word that stands in it
/// where its type says names its dict, whose first entry `_active` is the dict of threads; without either no thread has
/// a name. Each slot of that dict has an integer as its key, the thread's id as 8 bytes (`copy_long`), and the thread
/// as its value; a later one of an id takes the place of an earlier one. The name is the text under `_name` in the
/// thread's own dict: the one that `rule` says it has (`instance_dicts::instance_dict`), and without a rule the one
/// that its type says.
///
/// Of a thread whose name can't be read, the fault is told, and so it is where 256 slots of its dict have no `_name`
/// and there are more. A slot whose id can't be read is counted, and so is each past the first 65536. Where there is a
/// fault on the way to the dict of threads no thread has a name, and that is told. The one error is out of memory. At
/// most 786442 reads, and 1035 for each id.
pub fn read_thread_names<P: ProcessMemory>(
    alloc: Global,
    process: &mut P,
    layout: &Layout,
    rule: &Option<DictRule>,
    interpreter: u64,
    ids: &[u64],
) -> Result<InterpreterNames, AllocError>
    requires sound { IsSound layout.now }
    // exactly what each slot of the interpreter's own dict of threads tells, or why that dict can't be read
    ensures { Reading (786442 + 1035 * length ids.now) (P.seen process.old) (P.seen process.new) (λ m. IfOk result
        (λ told. names_shown told ≡ names_told layout.now rule.now m interpreter ids.now)) }
{
    match read_active(alloc, process, layout, interpreter) {
        Ok(found) => named_by_active(alloc, process, layout, rule, interpreter, ids, found),
        Err(fault) => without_dict(alloc, interpreter, ids, fault),
    }
}
