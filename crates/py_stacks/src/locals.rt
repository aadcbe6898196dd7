//! The locals of a frame.
ghost use Rattle.std.specs.Prelude.{◌≡◌, ◌≤◌, ◌<◌, ◌+◌, ◌*◌, ◌++◌, IfOk, OnOk, true};
ghost use Rattle.process_memory.specs.Seen.{Answers, items_of};
ghost use Rattle.py_fields.specs.Sound.{IsSound};
ghost use Rattle.py_builtins.specs.Consulted.{Consults};
ghost use Rattle.py_stacks.specs.Locals.{asked_locals, count_of, is_argument, kept_local, local_at, local_by};
ghost use Rattle.py_stacks.specs.Locals.{locals_at, locals_cost, locals_from, locals_of_result, variable_name_at};
ghost use Rattle.py_stacks.specs.Records.{AreWhole, member_of};
ghost use Rattle.py_stacks.specs.StackError.{stack_fault};

use crate::records::Records;
use crate::{LocalVariable, StackError};
use elf64_core::{Text, u32_in, u64_in};
use process_memory::{ProcessMemory, record, word_wide};
use py_fields::Layout;
use py_objects::{ObjectError, copy_string};
use std::alloc::{AllocFailed, Global};

/// How many variables a frame has. `BadValue` where the count is negative, `LocalsLimit` where it is above
/// 65535.
#[tactic(auto, unfolding(crate::specs::Locals::count_of))]
fn count_of(layout: &Layout, records: &Records) -> Result<u32, StackError>
    requires sound { IsSound layout.now }
    requires whole { AreWhole layout.now records.now }
    ensures answer { Answers stack_fault (count_of layout.now (member_of records.now)) result }
    ensures few { IfOk result (λ count. count ≤ 65535) }
{
    let count = u32_in(&records.code, layout.code.nlocals as usize);
    if count >= 1 << 31 {
        return Err(StackError::BadValue {
            frame: records.frame_at,
        });
    }
    if count > 65535 {
        return Err(StackError::LocalsLimit {
            count: count.cast_signed(),
        });
    }
    Ok(count)
}

/// Whether the variable at an index is an argument. A negative count of them is greater than all indexes.
#[tactic(auto, unfolding(crate::specs::Locals::is_argument))]
fn is_argument(layout: &Layout, records: &Records, index: u32) -> bool
    requires sound { IsSound layout.now }
    requires whole { AreWhole layout.now records.now }
    ensures { result ≡ is_argument layout.now (member_of records.now) index }
{
    index < u32_in(&records.code, layout.code.argcount as usize)
}

/// The variable at an index, by its name and the address of its value; none where that is 0.
#[tactic(auto, unfolding(crate::specs::Locals::local_by))]
fn local_by(
    layout: &Layout,
    records: &Records,
    index: u32,
    name: Text,
    addr: u64,
) -> Option<LocalVariable>
    requires sound { IsSound layout.now }
    requires whole { AreWhole layout.now records.now }
    ensures { result ≡ local_by layout.now (member_of records.now) index name addr }
{
    if addr == 0 {
        return None;
    }
    Some(LocalVariable {
        name,
        addr,
        arg: is_argument(layout, records, index),
        repr: None,
    })
}

/// The name of a variable of the frame at an address. `BadValue` where it is no text, `Unreadable` where a part
/// of it is not in memory. At most 2 reads.
#[tactic(auto, unfolding(crate::specs::Locals::variable_name_at))]
fn read_variable_name<P: ProcessMemory>(
    alloc: Global,
    process: &mut P,
    layout: &Layout,
    frame: u64,
    addr: u64,
) -> Result<Text, StackError>
    requires sound { IsSound layout.now }
    ensures { Consults layout.now stack_fault 2 (P.seen process.old) (P.seen process.new)
        (λ m. variable_name_at layout.now m frame addr) result }
{
    match copy_string(alloc, process, layout, addr) {
        Ok(name) => Ok(name),
        Err(ObjectError::Unreadable { addr, len }) => Err(StackError::Unreadable { addr, len }),
        Err(ObjectError::OutOfMemory) => Err(StackError::OutOfMemory),
        Err(_) => Err(StackError::BadValue { frame }),
    }
}

/// The variable at an index, where it has a value. At most 4 reads.
fn read_local<P: ProcessMemory>(
    alloc: Global,
    process: &mut P,
    layout: &Layout,
    records: &Records,
    index: u32,
) -> Result<Option<LocalVariable>, StackError>
    requires sound { IsSound layout.now }
    requires whole { AreWhole layout.now records.now }
    ensures { Consults layout.now stack_fault 4 (P.seen process.old) (P.seen process.new)
        (λ m. local_at layout.now m (member_of records.now) index) result }
{
    let offset = 8 * index as u128;
    let names_at = u64_in(&records.code, layout.code.varnames as usize) as u128;
    let name_at = word_wide(process, names_at + layout.tuple.at as u128 + offset)?;
    let name = read_variable_name(alloc, process, layout, records.frame_at, name_at)?;
    let slots_at = records.frame_at as u128 + layout.frame.locals as u128;
    let slot = word_wide(process, slots_at + offset)?;
    Ok(local_by(layout, records, index, name, slot / 2 * 2))
}

/// Adds a variable, where there is one.
fn add_local(
    locals: &mut Vec<LocalVariable>,
    local: Option<LocalVariable>,
) -> Result<(), AllocFailed<LocalVariable>>
    ensures { OnOk result (locals.new.items ≡ locals.old.items ++ kept_local local) }
{
    match local {
        None => Ok(()),
        Some(local) => locals.push(local),
    }
}

/// The first so many variables that have a value, in order. At most 4 reads for each variable.
fn read_locals_each<P: ProcessMemory>(
    alloc: Global,
    process: &mut P,
    layout: &Layout,
    records: &Records,
    count: u32,
) -> Result<Vec<LocalVariable>, StackError>
    requires sound { IsSound layout.now }
    requires whole { AreWhole layout.now records.now }
    ensures { Consults layout.now stack_fault (4 * count) (P.seen process.old) (P.seen process.new)
        (λ m. locals_from layout.now m (member_of records.now) 0 count) (items_of result) }
{
    let mut locals = Vec::new(alloc);
    for index in 0..count {
        let local = read_local(alloc, process, layout, records, index)?;
        add_local(&mut locals, local)?;
    }
    Ok(locals)
}

/// The locals of the frame that has these records. At most 1 read, and 4 for each variable.
fn read_known<P: ProcessMemory>(
    alloc: Global,
    process: &mut P,
    layout: &Layout,
    records: &Records,
) -> Result<Vec<LocalVariable>, StackError>
    requires sound { IsSound layout.now }
    requires whole { AreWhole layout.now records.now }
    ensures { Consults layout.now stack_fault (locals_cost true layout.now (member_of records.now))
        (P.seen process.old) (P.seen process.new)
        (λ m. locals_at layout.now m (member_of records.now)) (items_of result) }
{
    let count = count_of(layout, records)?;
    let names_at = u64_in(&records.code, layout.code.varnames as usize);
    let _names = record(alloc, process, names_at, layout.tuple.size as u64)?;
    read_locals_each(alloc, process, layout, records, count)
}

/// The locals of the frame that has these records; none where they are not asked for.
///
/// The error is the first of these, in order: `BadValue` with a negative count of variables, `LocalsLimit`
/// with one above 65535; `Unreadable` with the record of the tuple of names; for each variable `Unreadable`
/// with the word that names it, then with its name, `BadValue` with a name that is no text, and `Unreadable`
/// with its slot. Else it is out of memory. At most 1 read, and 4 for each variable; none where they are not
/// asked for.
pub fn read_locals<P: ProcessMemory>(
    alloc: Global,
    process: &mut P,
    layout: &Layout,
    asked: bool,
    records: &Records,
) -> Result<Option<Vec<LocalVariable>>, StackError>
    requires sound { IsSound layout.now }
    requires whole { AreWhole layout.now records.now }
    ensures { Consults layout.now stack_fault (locals_cost asked layout.now (member_of records.now))
        (P.seen process.old) (P.seen process.new)
        (λ m. asked_locals asked layout.now m (member_of records.now)) (locals_of_result result) }
{
    if !asked {
        return Ok(None);
    }
    let locals = read_known(alloc, process, layout, records)?;
    Ok(Some(locals))
}
