//! The names of the types of values.
ghost use Rattle.std.specs.Prelude.{◌≡◌, ◌*◌, IfOk, OnOk, if◌then◌else◌, length, nat_eq, ℕ};
ghost use Rattle.process_memory.specs.Seen.{Reading};
ghost use Rattle.py_fields.specs.Sound.{IsSound};
ghost use Rattle.py_reprs.specs.Trees.{tree_of};
ghost use Rattle.local_values.specs.Types.{class_name, class_name_at, name_among, name_in, type_cost, type_name_at};

use elf64_core::Text;
use process_memory::{ProcessMemory, ReadFault, word_past};
use py_fields::Layout;
use py_reprs::{Limits, Repr, ReprError, ReprTypes, read_repr};
use std::alloc::{AllocError, Global};
use std::collections::BTreeMap;

/// Nothing within a class is shown.
const NOTHING_WITHIN: Limits = Limits {
    characters: 0,
    items: 0,
    levels: 0,
    nodes: 0,
};

/// A name once more, if there is one.
fn shared(name: &Option<Text>) -> Result<Option<Text>, AllocError>
    ensures { IfOk result (λ own. own ≡ name.now) }
{
    match name {
        Some(name) => Ok(Some(name.share()?)),
        None => Ok(None),
    }
}

/// The name of a value that is a class.
fn class_name(value: &Repr) -> Result<Option<Text>, AllocError>
    ensures { IfOk result (λ name. name ≡ class_name (tree_of value.now)) }
{
    match value {
        Repr::Class { name, .. } => shared(name),
        _ => Ok(None),
    }
}

/// The name of the class at an address, if it is one.
fn read_class_name<P: ProcessMemory>(
    alloc: Global,
    process: &mut P,
    layout: &Layout,
    types: &ReprTypes,
    class: u64,
) -> Result<Option<Text>, ReprError>
    requires sound { IsSound layout.now }
    ensures { Reading 16 (P.seen process.old) (P.seen process.new)
        (λ m. IfOk result (λ name. name ≡ class_name_at layout.now types.now m class)) }
{
    let value = read_repr(alloc, process, layout, types, &NOTHING_WITHIN, class)?;
    Ok(class_name(&value)?)
}

/// The name of the type of the object at an address; none where it can't be read.
fn read_type_name<P: ProcessMemory>(
    alloc: Global,
    process: &mut P,
    layout: &Layout,
    types: &ReprTypes,
    addr: u64,
) -> Result<Option<Text>, ReprError>
    requires sound { IsSound layout.now }
    ensures { Reading type_cost (P.seen process.old) (P.seen process.new)
        (λ m. IfOk result (λ name. name ≡ type_name_at layout.now types.now m addr)) }
{
    match word_past(process, addr, layout.object.klass as u64) {
        Ok(class) => read_class_name(alloc, process, layout, types, class),
        Err(ReadFault::OutOfMemory) => Err(ReprError::OutOfMemory),
        Err(ReadFault::Unreadable { .. }) => Ok(None),
    }
}

/// Keeps the name of a type for an address. The one error is out of memory.
fn keep_name(
    names: &mut BTreeMap<u64, Option<Text>>,
    addr: u64,
    name: Option<Text>,
) -> Result<(), ReprError>
    ensures { OnOk result ((a : ℕ) → name_in names.new a ≡ if nat_eq a addr then name else name_in names.old a) }
{
    names.insert(addr, name)?;
    Ok(())
}

/// The names of the types of the objects at some addresses; none where it can't be read. The one error is want of
/// memory. At most 17 reads for each.
pub(crate) fn read_type_names<P: ProcessMemory>(
    alloc: Global,
    process: &mut P,
    layout: &Layout,
    types: &ReprTypes,
    addresses: &[u64],
) -> Result<BTreeMap<u64, Option<Text>>, ReprError>
    requires sound { IsSound layout.now }
    ensures { Reading (length addresses.now * type_cost) (P.seen process.old) (P.seen process.new)
        (λ m. IfOk result (λ names. (a : ℕ) → name_in names a
        ≡ name_among (type_name_at layout.now types.now m) addresses.now a)) }
{
    let mut names = BTreeMap::new(alloc);
    for number in 0..addresses.len() {
        let addr = addresses[number];
        let name = read_type_name(alloc, process, layout, types, addr)?;
        keep_name(&mut names, addr, name)?;
    }
    Ok(names)
}
