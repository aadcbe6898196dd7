//! The attributes that an instance's dict has.
ghost use Rattle.std.specs.Prelude.{◌≡◌, ◌+◌, ◌*◌, ◌++◌, ◌≤◌, OnOk, IfOk, IfErr, Some};
ghost use Rattle.process_memory.specs.Seen.{Answers, items_of};
ghost use Rattle.py_fields.specs.Sound.{IsSound};
ghost use Rattle.py_builtins.specs.Consulted.{Consults};
ghost use Rattle.py_builtins.specs.Dicts.{slots_of};
ghost use Rattle.py_builtins.specs.ObjectError.{object_fault};
ghost use Rattle.instance_dicts.specs.Attributes.{at_most, attribute_of, attributes_from, behind_header};
ghost use Rattle.instance_dicts.specs.Attributes.{dict_attributes_at, headed_by, headed_slots};
ghost use Rattle.instance_dicts.specs.Attributes.{slots_by_form, told_by, told_of};

use crate::forms::{DictForm, InstanceDict, as_address};
use process_memory::{ProcessMemory, word_past};
use py_builtins::{DictCursor, ObjectError, Slot};
use py_fields::{DictAt, Layout};
use std::alloc::Global;

/// How many bytes stand before the values of a dict in 3.13.
const HEADER: u128 = 8;

/// An attribute of an instance: the addresses of its name and of its value.
#[derive(Debug, Clone, Copy, Drop, PartialEq, Eq)]
pub struct Attribute {
    pub name: u64,
    pub value: u64,
}

/// Attributes, in the order of the slots of their dict.
#[derive(Debug, Drop)]
pub struct Attributes {
    /// Those of the slots that were looked at.
    pub list: Vec<Attribute>,
    /// How many slots were not looked at.
    pub left: u64,
}

/// The values of a dict that has them apart from its keys, behind their header; 0 says that it has none apart.
fn behind_header(values: u64) -> Result<u64, ObjectError>
    ensures { Answers object_fault (behind_header values) result }
{
    if values == 0 {
        return Ok(0);
    }
    as_address(values as u128 + HEADER)
}

/// The slots of a dict whose values have a header. At most 3 reads.
fn headed_slots<P: ProcessMemory>(
    process: &mut P,
    layout: &Layout,
    addr: u64,
) -> Result<DictCursor, ObjectError>
    requires sound { IsSound layout.now }
    ensures answer { Consults layout.now object_fault 3 (P.seen process.old) (P.seen process.new)
        (λ m. headed_slots layout.now m addr) (slots_of result) }
    ensures start { IfOk result (λ cursor. cursor.passed ≡ 0) }
{
    match &layout.dict {
        None => Err(ObjectError::BadDict),
        Some(at) => headed_by(process, layout, at, addr),
    }
}

/// The same, by where a dict's fields are. At most 3 reads.
fn headed_by<P: ProcessMemory>(
    process: &mut P,
    layout: &Layout,
    at: &DictAt,
    addr: u64,
) -> Result<DictCursor, ObjectError>
    requires sound { IsSound layout.now }
    ensures answer { Consults layout.now object_fault 3 (P.seen process.old) (P.seen process.new)
        (λ m. headed_by layout.now m addr (Some at.now)) (slots_of result) }
    ensures start { IfOk result (λ cursor. cursor.passed ≡ 0) }
{
    let keys = word_past(process, addr, at.keys as u64)?;
    let word = word_past(process, addr, at.values as u64)?;
    let values = behind_header(word)?;
    DictCursor::from_keys(process, layout, keys, values)
}

/// The slots of an instance's dict. At most 3 reads.
fn dict_slots_of<P: ProcessMemory>(
    process: &mut P,
    layout: &Layout,
    form: DictForm,
    addr: u64,
) -> Result<DictCursor, ObjectError>
    requires sound { IsSound layout.now }
    ensures answer { Consults layout.now object_fault 3 (P.seen process.old) (P.seen process.new)
        (λ m. slots_by_form layout.now m form addr) (slots_of result) }
    ensures start { IfOk result (λ cursor. cursor.passed ≡ 0) }
{
    match form {
        DictForm::Embedded => headed_slots(process, layout, addr),
        DictForm::Pointer | DictForm::ValuesAndDict | DictForm::OneWord => {
            DictCursor::from(process, layout, addr)
        }
    }
}

/// Adds an attribute, where a slot has one.
fn add_attribute(attributes: &mut Vec<Attribute>, slot: Slot) -> Result<(), ObjectError>
    ensures added { OnOk result (attributes.new.items ≡ attributes.old.items ++ attribute_of slot) }
    ensures memory { IfErr result (λ error. error ≡ ObjectError.OutOfMemory) }
{
    match slot {
        Slot::Empty => Ok(()),
        Slot::Entry(name, value) => {
            if value == 0 {
                return Ok(());
            }
            match attributes.push(Attribute { name, value }) {
                Ok(()) => Ok(()),
                Err(_) => Err(ObjectError::OutOfMemory),
            }
        }
    }
}

/// The attributes of so many slots, from the first on. At most 2 reads for each.
fn attributes_in<P: ProcessMemory>(
    alloc: Global,
    process: &mut P,
    layout: &Layout,
    dict: &DictCursor,
    count: u64,
) -> Result<Vec<Attribute>, ObjectError>
    ensures { Consults layout.now object_fault (2 * count) (P.seen process.old) (P.seen process.new)
        (λ m. attributes_from m dict.now.slots count 0) (items_of result) }
{
    let mut attributes = Vec::new(alloc);
    for number in 0..count {
        let slot = dict.slot(process, number)?;
        add_attribute(&mut attributes, slot)?;
    }
    Ok(attributes)
}

/// A count, or a limit that it passes.
fn at_most(count: u64, limit: u64) -> u64
    ensures value { result ≡ at_most count limit }
    ensures few { result ≤ limit }
    ensures all { result ≤ count }
{
    if count < limit { count } else { limit }
}

/// The attributes that some slots have, of so many at most. At most 2 reads for each.
fn told_by<P: ProcessMemory>(
    alloc: Global,
    process: &mut P,
    layout: &Layout,
    dict: &DictCursor,
    limit: u64,
) -> Result<Attributes, ObjectError>
    requires start { dict.now.passed ≡ 0 }
    ensures { Consults layout.now object_fault (2 * limit) (P.seen process.old) (P.seen process.new)
        (λ m. told_by m limit dict.now.slots) (told_of result) }
{
    let count = dict.remaining();
    let looked = at_most(count, limit);
    let list = attributes_in(alloc, process, layout, dict, looked)?;
    Ok(Attributes {
        list,
        left: count - looked,
    })
}

/// The attributes of an instance, by where its dict or its values stand (`instance_dict`).
///
/// Each slot of the dict that has a name and a value is an attribute, in their order; a value of 0 stands for none. So
/// many slots are looked at, at most, and the answer says how many are left. Values that stand apart from their keys
/// have a header of 8 bytes in a dict of 3.13.
///
/// What is not in memory is `Unreadable`: the dict's record, that of its keys, then slot after slot. A layout without
/// dicts is `BadDict`, and so are numbers of a dict that can't be (`DictCursor::from`). Else it is out of memory. At
/// most 3 reads, and 2 for each slot that is looked at.
pub fn dict_attributes<P: ProcessMemory>(
    alloc: Global,
    process: &mut P,
    layout: &Layout,
    form: DictForm,
    dict: InstanceDict,
    limit: u64,
) -> Result<Attributes, ObjectError>
    requires sound { IsSound layout.now }
    ensures { Consults layout.now object_fault (3 + 2 * limit) (P.seen process.old) (P.seen process.new)
        (λ m. dict_attributes_at layout.now m form dict limit) (told_of result) }
{
    match dict {
        InstanceDict::None => Ok(Attributes {
            list: Vec::new(alloc),
            left: 0,
        }),
        InstanceDict::Dict(addr) => {
            let slots = dict_slots_of(process, layout, form, addr)?;
            told_by(alloc, process, layout, &slots, limit)
        }
        InstanceDict::Values { keys, values } => {
            let shared = DictCursor::from_keys(process, layout, keys, values)?;
            told_by(alloc, process, layout, &shared, limit)
        }
    }
}
