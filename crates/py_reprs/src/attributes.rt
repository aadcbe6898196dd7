//! The attributes of instances: where their names and their values stand.
ghost use Rattle.std.specs.Prelude.{◌≡◌, ◌+◌, ◌*◌, ◌≤◌, IfOk, length, map, take};
ghost use Rattle.process_memory.specs.Seen.{Reading, Reads};
ghost use Rattle.py_fields.specs.Sound.{IsSound};
ghost use Rattle.py_builtins.specs.ObjectError.{object_fault};
ghost use Rattle.py_reprs.specs.Attributes.{FoundIs, IsLost, attributes_at, count_of, found_or_none, held_found, held_if};
ghost use Rattle.py_reprs.specs.Attributes.{name_place, stated_at, value_place};

use crate::error::ReprError;
use crate::places::Place;
use instance_dicts::{
    Attribute, DictForm, InstanceDict, InstanceFields, dict_attributes, instance_dict,
};
use process_memory::{ProcessMemory, word_past};
use py_builtins::ObjectError;
use py_fields::Layout;
use std::alloc::{AllocError, Global};

/// By what the attributes of instances are found.
#[derive(Debug, Clone, Copy, Drop, PartialEq, Eq)]
pub struct InstanceRule {
    /// Where the fields of classes and of instances stand.
    pub fields: InstanceFields,
    /// How the instances of the version's classes have their dicts.
    pub form: DictForm,
}

/// The attributes of the first slots of an instance, and how many it has in all.
#[derive(Drop)]
pub(crate) struct InstanceAttributes {
    pub list: Vec<Attribute>,
    pub count: u64,
}

/// How many attributes a dict states that it has; none where there is no dict. At most one read.
fn read_stated<P: ProcessMemory>(
    process: &mut P,
    layout: &Layout,
    dict: InstanceDict,
) -> Result<Option<u64>, ObjectError>
    ensures { Reads object_fault 1 (P.seen process.old) (P.seen process.new)
        (λ m. stated_at layout.now m dict) result }
{
    match dict {
        InstanceDict::None => Ok(None),
        InstanceDict::Dict(addr) => {
            let used = word_past(process, addr, layout.list.count as u64)?;
            Ok(Some(used))
        }
        InstanceDict::Values { .. } => Ok(None),
    }
}

/// How many attributes there are: as many as are stated, or those that were found with the slots that are left.
fn count_of(stated: Option<u64>, found: u64, left: u64) -> u64
    ensures { result ≡ count_of stated found left }
{
    match stated {
        Some(used) => used,
        None => found.saturating_add(left),
    }
}

/// The attributes of the instance at an address, of so many slots at most. At most 2 reads for each slot, and 10 more.
fn find_attributes<P: ProcessMemory>(
    alloc: Global,
    process: &mut P,
    layout: &Layout,
    rule: InstanceRule,
    limit: u64,
    addr: u64,
) -> Result<InstanceAttributes, ObjectError>
    requires sound { IsSound layout.now }
    ensures { Reads object_fault (2 * limit + 10) (P.seen process.old) (P.seen process.new)
        (λ m. attributes_at layout.now rule m limit addr) (held_found result) }
{
    let dict = instance_dict(alloc, process, layout, &rule.fields, rule.form, addr)?;
    let stated = read_stated(process, layout, dict)?;
    let told = dict_attributes(alloc, process, layout, rule.form, dict, limit)?;
    let count = count_of(stated, told.list.len() as u64, told.left);
    Ok(InstanceAttributes {
        list: told.list,
        count,
    })
}

/// Nothing was found; out of memory is handed on.
fn lost(error: ObjectError) -> Result<Option<InstanceAttributes>, ReprError>
    ensures { IsLost (object_fault error) result }
{
    match error {
        ObjectError::OutOfMemory => Err(ReprError::OutOfMemory),
        _ => Ok(None),
    }
}

/// What was found; none where it could not be read.
fn found_or_none(
    found: Result<InstanceAttributes, ObjectError>,
) -> Result<Option<InstanceAttributes>, ReprError>
    ensures { FoundIs found result }
{
    match found {
        Ok(found) => Ok(Some(found)),
        Err(error) => lost(error),
    }
}

/// The attributes of the instance at an address, of so many slots at most; none where they can't be read. At most 2 reads
/// for each slot, and 10 more.
pub(crate) fn read_attributes<P: ProcessMemory>(
    alloc: Global,
    process: &mut P,
    layout: &Layout,
    rule: InstanceRule,
    limit: u64,
    addr: u64,
) -> Result<Option<InstanceAttributes>, ReprError>
    requires sound { IsSound layout.now }
    ensures { Reading (2 * limit + 10) (P.seen process.old) (P.seen process.new)
        (λ m. IfOk result (λ found. held_if found ≡ found_or_none (attributes_at layout.now rule m limit addr))) }
{
    found_or_none(find_attributes(alloc, process, layout, rule, limit, addr))
}

/// Where the names of the first attributes stand.
pub(crate) fn names_of(
    alloc: Global,
    attributes: &[Attribute],
    shown: usize,
) -> Result<Vec<Place>, AllocError>
    requires within { shown ≤ length attributes.now }
    ensures { IfOk result (λ names. names.items ≡ map name_place (take shown attributes.now)) }
{
    attributes[..shown]
        .iter()
        .map(|attribute| Place::At(attribute.name))
        .collect(alloc)
}

/// Where their values stand.
pub(crate) fn attribute_values(
    alloc: Global,
    attributes: &[Attribute],
    shown: usize,
) -> Result<Vec<Place>, AllocError>
    requires within { shown ≤ length attributes.now }
    ensures { IfOk result (λ values. values.items ≡ map value_place (take shown attributes.now)) }
{
    attributes[..shown]
        .iter()
        .map(|attribute| Place::At(attribute.value))
        .collect(alloc)
}
