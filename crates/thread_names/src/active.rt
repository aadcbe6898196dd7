//! The dict of an interpreter's threads.
ghost use Rattle.std.specs.Prelude.{◌≡◌, IfOk, IfSome};
ghost use Rattle.process_memory.specs.Seen.{Reads};
ghost use Rattle.py_fields.specs.Sound.{IsSound};
ghost use Rattle.py_names.specs.NamesError.{names_fault};
ghost use Rattle.thread_names.specs.Active.{active_at, active_in, dict_in, slots_if};
ghost use Rattle.thread_names.specs.Active.{interpreter_active_at};

use process_memory::{ProcessMemory, word_past};
use py_builtins::{DictCursor, read_type};
use py_fields::{Dicts, Layout};
use py_names::{NamesError, find_in, word_beside};
use std::alloc::Global;

/// How many slots of the dict of modules, and of that of a module, are looked at, at most.
const SLOT_LIMIT: u64 = 65536;

/// The dict at an address, where there is one. At most 2 reads.
#[tactic(auto, unfolding(crate::specs::Active::dict_in))]
fn read_dict<P: ProcessMemory>(
    process: &mut P,
    layout: &Layout,
    found: Option<u64>,
) -> Result<Option<DictCursor>, NamesError>
    requires sound { IsSound layout.now }
    ensures answer { Reads names_fault 2 (P.seen process.old) (P.seen process.new)
        (λ m. dict_in layout.now m found) (slots_if result) }
    ensures start { IfOk result (λ dict. IfSome dict (λ cursor. cursor.passed ≡ 0)) }
{
    match found {
        None => Ok(None),
        Some(addr) => {
            let dict = DictCursor::from(process, layout, addr)?;
            Ok(Some(dict))
        }
    }
}

/// The dict of threads that a module has, where there is a module. At most 262151 reads.
#[tactic(auto, unfolding(crate::specs::Active::active_in))]
fn read_module<P: ProcessMemory>(
    alloc: Global,
    process: &mut P,
    layout: &Layout,
    found: Option<u64>,
) -> Result<Option<DictCursor>, NamesError>
    requires sound { IsSound layout.now }
    ensures answer { Reads names_fault 262151 (P.seen process.old) (P.seen process.new)
        (λ m. active_in layout.now m found) (slots_if result) }
    ensures start { IfOk result (λ dict. IfSome dict (λ cursor. cursor.passed ≡ 0)) }
{
    match found {
        None => Ok(None),
        Some(addr) => {
            let class = read_type(alloc, process, layout, addr)?;
            let place = word_beside(process, addr, class.dict_offset)?;
            let dict = DictCursor::from(process, layout, place)?;
            let search = find_in(alloc, process, layout, "_active", &dict, SLOT_LIMIT)?;
            read_dict(process, layout, search.found)
        }
    }
}

/// The dict of an interpreter's threads, where there is one. At most 524298 reads.
#[tactic(auto, unfolding(crate::specs::Active::interpreter_active_at))]
fn read_interpreter<P: ProcessMemory>(
    alloc: Global,
    process: &mut P,
    layout: &Layout,
    interpreter: u64,
) -> Result<Option<DictCursor>, NamesError>
    requires sound { IsSound layout.now }
    ensures answer { Reads names_fault 524298 (P.seen process.old) (P.seen process.new)
        (λ m. interpreter_active_at layout.now m interpreter) (slots_if result) }
    ensures start { IfOk result (λ dict. IfSome dict (λ cursor. cursor.passed ≡ 0)) }
{
    let modules = word_past(process, interpreter, layout.interpreter.modules as u64)?;
    let dict = DictCursor::from(process, layout, modules)?;
    let search = find_in(alloc, process, layout, "threading", &dict, SLOT_LIMIT)?;
    read_module(alloc, process, layout, search.found)
}

/// The same, where the layout has dicts.
#[tactic(auto, unfolding(crate::specs::Active::active_at))]
pub(crate) fn read_active<P: ProcessMemory>(
    alloc: Global,
    process: &mut P,
    layout: &Layout,
    interpreter: u64,
) -> Result<Option<DictCursor>, NamesError>
    requires sound { IsSound layout.now }
    ensures answer { Reads names_fault 524298 (P.seen process.old) (P.seen process.new)
        (λ m. active_at layout.now m interpreter) (slots_if result) }
    ensures start { IfOk result (λ dict. IfSome dict (λ cursor. cursor.passed ≡ 0)) }
{
    match layout.dicts {
        Dicts::Absent => Err(NamesError::NoDicts),
        Dicts::General | Dicts::Compact => read_interpreter(alloc, process, layout, interpreter),
    }
}
