//! Attributes of instances, by their names.
ghost use Rattle.std.specs.Prelude.{◌≡◌, ◌*◌, length};
ghost use Rattle.process_memory.specs.Seen.{Reads, items_of};
ghost use Rattle.py_fields.specs.Sound.{IsSound};
ghost use Rattle.py_builtins.specs.Consulted.{Consults};
ghost use Rattle.py_names.specs.NamesError.{names_fault};
ghost use Rattle.task_sets.specs.Gathered.{gathered};
ghost use Rattle.task_sets.specs.Named.{attribute_at, first_of, named_by, value_if_named};

use crate::RootPlaces;
use crate::sets::add_address;
use instance_dicts::{Attribute, dict_attributes, instance_dict};
use process_memory::ProcessMemory;
use py_builtins::copy_string;
use py_fields::Layout;
use py_names::NamesError;
use std::alloc::Global;

/// How many slots of an instance's dict are looked at, at most.
const SLOT_LIMIT: u64 = 4096;

/// The value of an attribute, if it has a name. At most 2 reads.
#[tactic(auto, unfolding(crate::specs::Named::value_if_named))]
fn value_if_named<P: ProcessMemory>(
    alloc: Global,
    process: &mut P,
    layout: &Layout,
    name: &str,
    attribute: Attribute,
) -> Result<Option<u64>, NamesError>
    requires sound { IsSound layout.now }
    ensures { Consults layout.now names_fault 2 (P.seen process.old) (P.seen process.new)
        (λ m. value_if_named layout.now m name.now attribute) result }
{
    let text = copy_string(alloc, process, layout, attribute.name)?;
    if text.as_str() == name {
        return Ok(Some(attribute.value));
    }
    Ok(None)
}

/// The values of the attributes of a name, in order. At most 2 reads for each attribute.
fn values_named<P: ProcessMemory>(
    alloc: Global,
    process: &mut P,
    layout: &Layout,
    name: &str,
    attributes: &[Attribute],
) -> Result<Vec<u64>, NamesError>
    requires sound { IsSound layout.now }
    ensures { Reads names_fault (2 * length attributes.now) (P.seen process.old) (P.seen process.new)
        (λ m. gathered (named_by layout.now m name.now attributes.now) (length attributes.now) 0) (items_of result) }
{
    let mut values = Vec::new(alloc);
    for attribute in attributes {
        let value = value_if_named(alloc, process, layout, name, *attribute)?;
        add_address(&mut values, value)?;
    }
    Ok(values)
}

/// The first of some addresses.
fn first_of(addresses: &[u64]) -> Option<u64>
    ensures { result ≡ first_of addresses.now }
{
    match addresses.first() {
        Some(address) => Some(*address),
        None => None,
    }
}

/// The value of the attribute that the dict of an instance has under a name; none where it has none there.
///
/// 4096 slots of the dict are looked at, at most. The errors are those of `instance_dict` and `dict_attributes`, and of
/// a name that is no text. At most 16393 reads.
pub fn read_attribute<P: ProcessMemory>(
    alloc: Global,
    process: &mut P,
    layout: &Layout,
    places: &RootPlaces,
    name: &str,
    at: u64,
) -> Result<Option<u64>, NamesError>
    requires sound { IsSound layout.now }
    ensures { Reads names_fault 16393 (P.seen process.old) (P.seen process.new)
        (λ m. attribute_at layout.now places.now m name.now at) result }
{
    let dict = instance_dict(alloc, process, layout, &places.instance, places.form, at)?;
    let told = dict_attributes(alloc, process, layout, places.form, dict, SLOT_LIMIT)?;
    let values = values_named(alloc, process, layout, name, &told.list)?;
    Ok(first_of(&values))
}
