//! What the values of a process are, and their parts.
ghost use Rattle.std.specs.Prelude.{◌+◌, ◌≤◌, ◌<◌, IfOk};
ghost use Rattle.py_fields.specs.Sound.{IsSound};
ghost use Rattle.py_builtins.specs.Consulted.{Consults, ReadsFields};
ghost use Rattle.py_builtins.specs.ObjectError.{object_fault};
ghost use Rattle.py_objects.specs.Nodes.{child_at, class_at, class_of, dict_node, float_node, items_node, kind_node};
ghost use Rattle.py_objects.specs.Nodes.{long_node, node_at, nodes_of, part_read, parts_read, parts_place_of};
ghost use Rattle.py_objects.specs.Nodes.{scalar_node, slot_visits, slots_node, small_node, text_node, texts_of};

use crate::kinds::{Kind, Scalar, kind_of};
use crate::texts;
use elf64_core::{Text, u64_in};
use process_memory::{ProcessMemory, record, record_wide};
use py_builtins::{
    DictCursor, Items, ObjectError, Sequence, Slot, copy_int, copy_long, copy_string, read_item,
    read_items, read_type,
};
use py_fields::{Dicts, Layout};
use std::alloc::Global;

/// How many bytes a type's name is looked for in.
const NAME_LIMIT: u64 = 128;

/// Where the parts of a value are.
#[derive(Drop)]
pub enum Parts {
    /// The items of a list or a tuple.
    Items(Sequence, Items),
    /// The slots of a dict.
    Slots(DictCursor),
}

/// A part of a value.
#[derive(Clone, Copy)]
pub enum Child {
    /// The address of an item.
    Item(u64),
    /// A slot of a dict.
    Slot(Slot),
}

/// A value without its parts.
#[derive(Drop)]
pub enum Node {
    /// A text that is shown whole.
    Whole(String),
    /// A text that is shown in quotes.
    Quoted(Text),
    /// So many parts.
    Many { count: u64, parts: Parts },
}

/// What the value at an address is. At most 6 reads.
///
/// It is not inlined, since it reads into long arrays on the stack, and values are shown by recursion.
#[inline(never)]
pub fn read_node<P: ProcessMemory>(
    alloc: Global,
    process: &mut P,
    layout: &Layout,
    addr: u64,
) -> Result<Node, ObjectError>
    requires sound { IsSound layout.now }
    ensures { Consults layout.now object_fault 6 (P.seen process.old) (P.seen process.new)
        (λ m. node_at layout.now m addr) (nodes_of result) }
{
    let (flags, name) = read_class(alloc, process, layout, addr)?;
    let kind = kind_of(layout.bytes_text, flags, &name);
    read_kind(alloc, process, layout, addr, &name, kind)
}

/// The flags and the name of the type of a value. At most 3 reads.
fn read_class<P: ProcessMemory>(
    alloc: Global,
    process: &mut P,
    layout: &Layout,
    addr: u64,
) -> Result<(u64, String), ObjectError>
    requires sound { IsSound layout.now }
    ensures { Consults layout.now object_fault 3 (P.seen process.old) (P.seen process.new)
        (λ m. class_at layout.now m addr) (class_of result) }
{
    let class = read_type(alloc, process, layout, addr)?;
    let chars = record(alloc, process, class.name, NAME_LIMIT)?;
    let name = texts::type_name(alloc, &chars)?;
    Ok((class.flags, name))
}

/// What the value of a kind is, whose type has this name. At most 3 reads.
fn read_kind<P: ProcessMemory>(
    alloc: Global,
    process: &mut P,
    layout: &Layout,
    addr: u64,
    name: &str,
    kind: Kind,
) -> Result<Node, ObjectError>
    requires sound { IsSound layout.now }
    ensures { Consults layout.now object_fault 3 (P.seen process.old) (P.seen process.new)
        (λ m. kind_node layout.now m addr name.now kind) (nodes_of result) }
{
    match kind {
        Kind::Small => read_small(alloc, process, layout, addr, name),
        Kind::Long => read_long(alloc, process, layout, addr, name),
        Kind::Text => read_text(alloc, process, layout, addr),
        Kind::Dict => read_dict(alloc, process, layout, addr),
        Kind::List => read_sequence(alloc, process, layout, Sequence::List, addr),
        Kind::Tuple => read_sequence(alloc, process, layout, Sequence::Tuple, addr),
        Kind::Float => read_float(alloc, process, layout, addr),
        Kind::Nothing => Ok(Node::Whole(String::from_str(alloc, "None")?)),
        Kind::Number(scalar) => read_scalar(alloc, process, layout, addr, scalar),
        Kind::Other => Ok(Node::Whole(texts::other(alloc, name, addr)?)),
    }
}

fn read_small<P: ProcessMemory>(
    alloc: Global,
    process: &mut P,
    layout: &Layout,
    addr: u64,
    name: &str,
) -> Result<Node, ObjectError>
    requires sound { IsSound layout.now }
    ensures { Consults layout.now object_fault 1 (P.seen process.old) (P.seen process.new)
        (λ m. small_node layout.now m addr name.now) (nodes_of result) }
{
    let value = copy_int(process, layout, addr)?;
    Ok(Node::Whole(texts::number(alloc, name, value)?))
}

fn read_long<P: ProcessMemory>(
    alloc: Global,
    process: &mut P,
    layout: &Layout,
    addr: u64,
    name: &str,
) -> Result<Node, ObjectError>
    requires sound { IsSound layout.now }
    ensures { Consults layout.now object_fault 2 (P.seen process.old) (P.seen process.new)
        (λ m. long_node layout.now m addr name.now) (nodes_of result) }
{
    let (value, is_big) = copy_long(process, layout, addr)?;
    Ok(Node::Whole(texts::long_number(alloc, name, value, is_big)?))
}

fn read_text<P: ProcessMemory>(
    alloc: Global,
    process: &mut P,
    layout: &Layout,
    addr: u64,
) -> Result<Node, ObjectError>
    requires sound { IsSound layout.now }
    ensures { Consults layout.now object_fault 2 (P.seen process.old) (P.seen process.new)
        (λ m. text_node layout.now m addr) (nodes_of result) }
{
    Ok(Node::Quoted(copy_string(alloc, process, layout, addr)?))
}

fn read_dict<P: ProcessMemory>(
    alloc: Global,
    process: &mut P,
    layout: &Layout,
    addr: u64,
) -> Result<Node, ObjectError>
    requires sound { IsSound layout.now }
    ensures { Consults layout.now object_fault 2 (P.seen process.old) (P.seen process.new)
        (λ m. dict_node layout.now.dicts layout.now m addr) (nodes_of result) }
{
    match layout.dicts {
        Dicts::Absent => Ok(Node::Whole(String::from_str(alloc, "dict")?)),
        Dicts::General | Dicts::Compact => read_slots(process, layout, addr),
    }
}

fn read_slots<P: ProcessMemory>(
    process: &mut P,
    layout: &Layout,
    addr: u64,
) -> Result<Node, ObjectError>
    requires sound { IsSound layout.now }
    ensures { Consults layout.now object_fault 2 (P.seen process.old) (P.seen process.new)
        (λ m. slots_node layout.now m addr) (nodes_of result) }
{
    let cursor = DictCursor::from(process, layout, addr)?;
    Ok(Node::Many {
        count: cursor.remaining(),
        parts: Parts::Slots(cursor),
    })
}

fn read_sequence<P: ProcessMemory>(
    alloc: Global,
    process: &mut P,
    layout: &Layout,
    sequence: Sequence,
    addr: u64,
) -> Result<Node, ObjectError>
    requires sound { IsSound layout.now }
    ensures { Consults layout.now object_fault 1 (P.seen process.old) (P.seen process.new)
        (λ m. items_node layout.now m sequence addr) (nodes_of result) }
{
    let items = read_items(alloc, process, layout, sequence, addr)?;
    Ok(Node::Many {
        count: items.count,
        parts: Parts::Items(sequence, items),
    })
}

fn read_float<P: ProcessMemory>(
    alloc: Global,
    process: &mut P,
    layout: &Layout,
    addr: u64,
) -> Result<Node, ObjectError>
    requires sound { IsSound layout.now }
    ensures { Consults layout.now object_fault 1 (P.seen process.old) (P.seen process.new)
        (λ m. float_node layout.now m addr) (nodes_of result) }
{
    let float = record(alloc, process, addr, layout.float.size as u64)?;
    let bits = u64_in(&float, layout.float.value as usize);
    Ok(Node::Whole(texts::double(alloc, bits)?))
}

fn read_scalar<P: ProcessMemory>(
    alloc: Global,
    process: &mut P,
    layout: &Layout,
    addr: u64,
    scalar: Scalar,
) -> Result<Node, ObjectError>
    requires sound { IsSound layout.now }
    ensures { Consults layout.now object_fault 1 (P.seen process.old) (P.seen process.new)
        (λ m. scalar_node layout.now m addr scalar) (nodes_of result) }
{
    let place = addr as u128 + layout.object.size as u128;
    let bytes = record_wide(alloc, process, place, scalar.width())?;
    Ok(Node::Whole(texts::scalar(alloc, scalar, &bytes)?))
}

/// The part of a number. An item takes one read, and a slot two at most.
pub fn read_child<P: ProcessMemory>(
    process: &mut P,
    parts: &Parts,
    number: u64,
) -> Result<Child, ObjectError>
    ensures answer { ReadsFields object_fault (1 + slot_visits parts.now) (P.seen process.old) (P.seen process.new)
        (λ m. child_at m (parts_place_of parts.now) number) (parts_read result) }
    ensures texts { IfOk result (λ child. 1 ≤ texts_of (part_read child) + slot_visits parts.now) }
{
    match parts {
        Parts::Items(_, items) => Ok(Child::Item(read_item(process, items, number)?)),
        Parts::Slots(cursor) => Ok(Child::Slot(cursor.slot(process, number)?)),
    }
}
