//! A value without the values within it.
ghost use Rattle.std.specs.Prelude.{◌≡◌, ◌<◌, ◌≤◌, ◌^◌, ◌+◌, ◌-◌, ◌*◌, ◌/◌, IfOk, Ok};
ghost use Rattle.process_memory.specs.Seen.{Reading, Reads};
ghost use Rattle.py_fields.specs.Sound.{IsSound};
ghost use Rattle.py_builtins.specs.ObjectError.{object_fault};
ghost use Rattle.py_reprs.specs.Found.{trees_found};
ghost use Rattle.py_reprs.specs.Attributes.{attributes_level, held, held_if, instance_by};
ghost use Rattle.py_reprs.specs.Levels.{coroutine_level_at, instance_at, other_level_at};
ghost use Rattle.py_reprs.specs.Levels.{FitsIn, Tells, fields_level_at, items_level_at, kind_level_at, leaf_at};
ghost use Rattle.py_reprs.specs.LevelForms.{Whole};
ghost use Rattle.py_reprs.specs.Levels.{leaf_level_at, level_at, level_by, level_of, levels_found, row_at};
ghost use Rattle.py_reprs.specs.Slots.{dict_level_at, entries_level_at, members_level_at, nodes_within, set_level_at};
ghost use Rattle.py_reprs.specs.Slots.{values_place};
ghost use Rattle.py_reprs.specs.Trees.Tree.{Damaged};
ghost use Rattle.py_reprs.specs.Values.{level_cost};

use crate::attributes::{
    InstanceAttributes, InstanceRule, attribute_values, names_of, read_attributes,
};
use crate::coroutines::{CoroutineForm, CoroutineRule, read_coroutine};
use crate::error::ReprError;
use crate::kinds::{Kind, ReprTypes, is_python_2, kind_of};
use crate::limits::{Limits, share, shown_count, shown_entries};
use crate::names::{read_class, read_name, read_opaque};
use crate::numbers::{read_complex, read_float, read_integer, read_small_integer, read_truth};
use crate::places::{Place, read_places};
use crate::repr::{ItemsForm, Repr};
use crate::slots::{keys_of, looked_at, read_entries, read_members, values_of};
use crate::texts::{read_bytearray, read_bytes, read_text};
use elf64_core::{Text, u64_in};
use instance_dicts::Attribute;
use process_memory::{ProcessMemory, record_wide, word_past};
use py_builtins::{DictCursor, ObjectError, ObjectType, Sequence, read_items, read_type};
use py_fields::Layout;
use std::alloc::Global;

/// A value without the values within it, and where the first of those stand.
#[derive(Drop)]
pub(crate) enum Level {
    /// It is shown whole.
    Whole(Repr),
    /// A row of values, each with this share of the nodes.
    Row {
        form: ItemsForm,
        places: Vec<Place>,
        share: u32,
        left_out: u64,
    },
    /// The keys and the values of entries.
    Entries {
        keys: Vec<Place>,
        values: Vec<Place>,
        share: u32,
        left_out: u64,
    },
    /// The names and the values of attributes of an instance of this class at this address.
    Attributes {
        class: Option<Text>,
        addr: u64,
        names: Vec<Place>,
        values: Vec<Place>,
        share: u32,
        left_out: u64,
    },
}

/// The first of so many values, by the words from an address on. At most one read for each that is shown.
fn read_row<P: ProcessMemory>(
    alloc: Global,
    process: &mut P,
    limits: &Limits,
    form: ItemsForm,
    nodes: u32,
    count: u64,
    base: u128,
) -> Result<Level, ObjectError>
    requires near { base < 2 ^ 66 }
    ensures answer { Reads object_fault limits.now.items (P.seen process.old) (P.seen process.new)
        (λ m. Ok (row_at limits.now m form nodes count base)) (levels_found result) }
    ensures few { IfOk result (λ level. FitsIn nodes (level_of level)) }
{
    let shown = shown_count(limits, nodes, count);
    let places = read_places(alloc, process, base, shown as u64)?;
    Ok(Level::Row {
        form,
        places,
        share: share(nodes, shown),
        left_out: count - shown as u64,
    })
}

/// The items of the list or the tuple at an address. At most one read for each that is shown, and one more.
fn read_sequence<P: ProcessMemory>(
    alloc: Global,
    process: &mut P,
    layout: &Layout,
    limits: &Limits,
    form: ItemsForm,
    sequence: Sequence,
    nodes: u32,
    addr: u64,
) -> Result<Level, ObjectError>
    requires sound { IsSound layout.now }
    ensures answer { Reads object_fault (limits.now.items + 1) (P.seen process.old) (P.seen process.new)
        (λ m. items_level_at layout.now limits.now m form sequence nodes addr) (levels_found result) }
    ensures few { IfOk result (λ level. FitsIn nodes (level_of level)) }
{
    let items = read_items(alloc, process, layout, sequence, addr)?;
    let base = items.base as u128 + items.offset as u128;
    read_row(alloc, process, limits, form, nodes, items.count, base)
}

/// The first fields of the object at an address. At most one read for each that is shown.
fn read_fields<P: ProcessMemory>(
    alloc: Global,
    process: &mut P,
    layout: &Layout,
    limits: &Limits,
    form: ItemsForm,
    nodes: u32,
    count: u64,
    addr: u64,
) -> Result<Level, ObjectError>
    ensures answer { Reads object_fault limits.now.items (P.seen process.old) (P.seen process.new)
        (λ m. fields_level_at layout.now limits.now m form nodes count addr) (levels_found result) }
    ensures few { IfOk result (λ level. FitsIn nodes (level_of level)) }
{
    let base = addr as u128 + layout.list.count as u128;
    read_row(alloc, process, limits, form, nodes, count, base)
}

/// The first entries of a dict that states how many it has. At most 2 reads for each slot that is looked at.
fn read_entries_level<P: ProcessMemory>(
    alloc: Global,
    process: &mut P,
    limits: &Limits,
    nodes: u32,
    used: u64,
    cursor: &DictCursor,
) -> Result<Level, ReprError>
    requires { cursor.now.passed ≡ 0 }
    ensures answer { Reading (8 * limits.now.items) (P.seen process.old) (P.seen process.new)
        (λ m. IfOk result (λ level. level_of level ≡ entries_level_at limits.now m nodes used cursor.now.slots)) }
    ensures few { IfOk result (λ level. FitsIn nodes (level_of level)) }
{
    let shown = shown_entries(limits, nodes, used);
    let looked = looked_at(limits, cursor.remaining() as u128);
    let found = read_entries(alloc, process, cursor, shown, looked)?;
    let keys = keys_of(alloc, &found)?;
    let values = values_of(alloc, &found)?;
    Ok(Level::Entries {
        keys,
        values,
        share: share(nodes, 2 * shown),
        left_out: used.saturating_sub(found.len() as u64),
    })
}

/// Where the values of the dict at an address stand apart from its keys, which other dicts share then; 0 where they stand
/// beside them. At most one read.
fn values_place<P: ProcessMemory>(
    process: &mut P,
    layout: &Layout,
    addr: u64,
) -> Result<u64, ObjectError>
    ensures { Reads object_fault 1 (P.seen process.old) (P.seen process.new)
        (λ m. values_place layout.now m addr) result }
{
    match layout.dict {
        None => Ok(0),
        Some(at) => {
            let values = word_past(process, addr, at.values as u64)?;
            Ok(values)
        }
    }
}

/// How many values may be shown within a dict whose values stand there: none where they stand apart.
fn nodes_within(nodes: u32, values: u64) -> u32
    ensures { result ≡ nodes_within nodes values }
{
    if values == 0 { nodes } else { 0 }
}

/// The dict at an address; of one whose values stand apart from its keys nothing within is shown. At most 8 reads for each
/// item that may be shown, and 4 more.
fn read_dict<P: ProcessMemory>(
    alloc: Global,
    process: &mut P,
    layout: &Layout,
    limits: &Limits,
    nodes: u32,
    addr: u64,
) -> Result<Level, ObjectError>
    requires sound { IsSound layout.now }
    ensures answer { Reads object_fault (8 * limits.now.items + 4) (P.seen process.old) (P.seen process.new)
        (λ m. dict_level_at layout.now limits.now m nodes addr) (levels_found result) }
    ensures few { IfOk result (λ level. FitsIn nodes (level_of level)) }
{
    let used = word_past(process, addr, layout.list.count as u64)?;
    let values = values_place(process, layout, addr)?;
    let cursor = DictCursor::from(process, layout, addr)?;
    let within = nodes_within(nodes, values);
    let level = read_entries_level(alloc, process, limits, within, used, &cursor)?;
    Ok(level)
}

/// The first members of a set that states how many it has. At most one read for each slot that is looked at.
fn read_members_level<P: ProcessMemory>(
    alloc: Global,
    process: &mut P,
    limits: &Limits,
    form: ItemsForm,
    nodes: u32,
    used: u64,
    mask: u64,
    table: u64,
) -> Result<Level, ReprError>
    ensures answer { Reading (4 * limits.now.items) (P.seen process.old) (P.seen process.new)
        (λ m. IfOk result (λ level. level_of level ≡ members_level_at limits.now m form nodes used mask table)) }
    ensures few { IfOk result (λ level. FitsIn nodes (level_of level)) }
{
    let shown = shown_count(limits, nodes, used);
    let looked = looked_at(limits, mask as u128 + 1);
    let places = read_members(alloc, process, table, shown, looked)?;
    let left_out = used.saturating_sub(places.len() as u64);
    Ok(Level::Row {
        form,
        places,
        share: share(nodes, shown),
        left_out,
    })
}

/// The set at an address. At most 4 reads for each item that may be shown, and one more.
fn read_set<P: ProcessMemory>(
    alloc: Global,
    process: &mut P,
    layout: &Layout,
    limits: &Limits,
    form: ItemsForm,
    nodes: u32,
    addr: u64,
) -> Result<Level, ObjectError>
    ensures answer { Reads object_fault (4 * limits.now.items + 1) (P.seen process.old) (P.seen process.new)
        (λ m. set_level_at layout.now limits.now m form nodes addr) (levels_found result) }
    ensures few { IfOk result (λ level. FitsIn nodes (level_of level)) }
{
    let place = addr as u128 + layout.list.count as u128;
    let fields = record_wide(alloc, process, place, 32)?;
    let used = u64_in(&fields, 8);
    let mask = u64_in(&fields, 16);
    let table = u64_in(&fields, 24);
    let level = read_members_level(alloc, process, limits, form, nodes, used, mask, table)?;
    Ok(level)
}

/// The value of a kind at an address whose own record says all of it. At most one read for each 1,024 characters that are
/// shown, and two more.
fn read_leaf<P: ProcessMemory>(
    alloc: Global,
    process: &mut P,
    layout: &Layout,
    limits: &Limits,
    name: u64,
    addr: u64,
    kind: Kind,
) -> Result<Repr, ObjectError>
    requires sound { IsSound layout.now }
    ensures { Reads object_fault (limits.now.characters / 1024 + 2) (P.seen process.old) (P.seen process.new)
        (λ m. leaf_at layout.now limits.now m name addr kind) (trees_found result) }
{
    match kind {
        Kind::Nothing => Ok(Repr::Nothing),
        Kind::Ellipsis => Ok(Repr::Ellipsis),
        Kind::NotImplemented => Ok(Repr::NotImplemented),
        Kind::Truth => read_truth(process, layout, is_python_2(layout), addr),
        Kind::Integer => read_integer(alloc, process, layout, addr),
        Kind::SmallInteger => read_small_integer(process, layout, addr),
        Kind::Float => read_float(process, layout, addr),
        Kind::Complex => read_complex(process, layout, addr),
        Kind::Text => read_text(alloc, process, layout, limits, addr),
        Kind::Bytes => read_bytes(alloc, process, layout, limits, addr),
        Kind::ByteArray => read_bytearray(alloc, process, layout, limits, addr),
        Kind::Class => read_class(alloc, process, layout, addr),
        Kind::List => read_opaque(alloc, process, name, addr),
        Kind::Tuple => read_opaque(alloc, process, name, addr),
        Kind::Dict => read_opaque(alloc, process, name, addr),
        Kind::Set => read_opaque(alloc, process, name, addr),
        Kind::FrozenSet => read_opaque(alloc, process, name, addr),
        Kind::Range => read_opaque(alloc, process, name, addr),
        Kind::Slice => read_opaque(alloc, process, name, addr),
        Kind::Cell => read_opaque(alloc, process, name, addr),
        Kind::Function => read_opaque(alloc, process, name, addr),
        Kind::Method => read_opaque(alloc, process, name, addr),
        Kind::Builtin => read_opaque(alloc, process, name, addr),
        Kind::Module => read_opaque(alloc, process, name, addr),
        Kind::Coroutine(_) => read_opaque(alloc, process, name, addr),
        Kind::Other => read_opaque(alloc, process, name, addr),
    }
}

/// The same as a level.
fn read_leaf_level<P: ProcessMemory>(
    alloc: Global,
    process: &mut P,
    layout: &Layout,
    limits: &Limits,
    nodes: u32,
    name: u64,
    addr: u64,
    kind: Kind,
) -> Result<Level, ObjectError>
    requires sound { IsSound layout.now }
    ensures answer { Reads object_fault (limits.now.characters / 1024 + 2) (P.seen process.old) (P.seen process.new)
        (λ m. leaf_level_at layout.now limits.now m name addr kind) (levels_found result) }
    ensures few { IfOk result (λ level. FitsIn nodes (level_of level)) }
{
    let value = read_leaf(alloc, process, layout, limits, name, addr, kind)?;
    Ok(Level::Whole(value))
}

/// An instance of a class by its attributes: by its class and its address alone where it has none.
fn attributes_level(
    alloc: Global,
    limits: &Limits,
    class: Option<Text>,
    addr: u64,
    nodes: u32,
    list: &[Attribute],
    count: u64,
) -> Result<Level, ReprError>
    ensures answer { IfOk result (λ level. level_of level
        ≡ attributes_level limits.now class addr nodes (held list.now count)) }
    ensures few { IfOk result (λ level. FitsIn nodes (level_of level)) }
{
    if list.is_empty() {
        return Ok(Level::Whole(Repr::Opaque { class, addr }));
    }
    let shown = shown_entries(limits, nodes, list.len() as u64);
    let names = names_of(alloc, list, shown as usize)?;
    let values = attribute_values(alloc, list, shown as usize)?;
    Ok(Level::Attributes {
        class,
        addr,
        names,
        values,
        share: share(nodes, 2 * shown),
        left_out: count.saturating_sub(shown as u64),
    })
}

/// The same, where attributes may have been found.
fn instance_by(
    alloc: Global,
    limits: &Limits,
    class: Option<Text>,
    addr: u64,
    nodes: u32,
    found: Option<InstanceAttributes>,
) -> Result<Level, ReprError>
    ensures answer { IfOk result (λ level. level_of level
        ≡ instance_by limits.now class addr nodes (held_if found)) }
    ensures few { IfOk result (λ level. FitsIn nodes (level_of level)) }
{
    match found {
        None => Ok(Level::Whole(Repr::Opaque { class, addr })),
        Some(found) => attributes_level(
            alloc,
            limits,
            class,
            addr,
            nodes,
            &found.list,
            found.count,
        ),
    }
}

/// The instance at an address. At most 8 reads for each item that may be shown, and 11 more.
fn read_instance<P: ProcessMemory>(
    alloc: Global,
    process: &mut P,
    layout: &Layout,
    limits: &Limits,
    rule: InstanceRule,
    nodes: u32,
    name: u64,
    addr: u64,
) -> Result<Level, ObjectError>
    requires sound { IsSound layout.now }
    ensures answer { Reads object_fault (8 * limits.now.items + 11) (P.seen process.old) (P.seen process.new)
        (λ m. Ok (instance_at layout.now limits.now m rule nodes name addr)) (levels_found result) }
    ensures few { IfOk result (λ level. FitsIn nodes (level_of level)) }
{
    let class = read_name(alloc, process, name)?;
    let limit = 4 * limits.items as u64;
    let found = read_attributes(alloc, process, layout, rule, limit, addr)?;
    let level = instance_by(alloc, limits, class, addr, nodes, found)?;
    Ok(level)
}

/// An object of another type, with its attributes where it is said how instances have theirs.
fn read_other<P: ProcessMemory>(
    alloc: Global,
    process: &mut P,
    layout: &Layout,
    limits: &Limits,
    instances: Option<InstanceRule>,
    nodes: u32,
    name: u64,
    addr: u64,
) -> Result<Level, ObjectError>
    requires sound { IsSound layout.now }
    ensures answer { Reads object_fault (level_cost limits.now - 2) (P.seen process.old) (P.seen process.new)
        (λ m. other_level_at layout.now limits.now m instances nodes name addr) (levels_found result) }
    ensures few { IfOk result (λ level. FitsIn nodes (level_of level)) }
{
    match instances {
        None => read_leaf_level(
            alloc,
            process,
            layout,
            limits,
            nodes,
            name,
            addr,
            Kind::Other,
        ),
        Some(rule) => read_instance(alloc, process, layout, limits, rule, nodes, name, addr),
    }
}

/// The coroutine, generator or async generator at an address, which is shown whole. At most 5 reads.
fn read_coroutine_level<P: ProcessMemory>(
    alloc: Global,
    process: &mut P,
    layout: &Layout,
    rule: Option<CoroutineRule>,
    nodes: u32,
    form: CoroutineForm,
    addr: u64,
) -> Result<Level, ObjectError>
    requires sound { IsSound layout.now }
    ensures answer { Reads object_fault 5 (P.seen process.old) (P.seen process.new)
        (λ m. coroutine_level_at layout.now m rule form addr) (levels_found result) }
    ensures few { IfOk result (λ level. FitsIn nodes (level_of level)) }
{
    let value = read_coroutine(alloc, process, layout, rule, form, addr)?;
    Ok(Level::Whole(value))
}

/// The value of a kind at an address, of a type whose name stands at another.
fn read_kind<P: ProcessMemory>(
    alloc: Global,
    process: &mut P,
    layout: &Layout,
    types: &ReprTypes,
    limits: &Limits,
    nodes: u32,
    name: u64,
    addr: u64,
    kind: Kind,
) -> Result<Level, ObjectError>
    requires sound { IsSound layout.now }
    ensures answer { Reads object_fault (level_cost limits.now - 2) (P.seen process.old) (P.seen process.new)
        (λ m. kind_level_at layout.now types.now limits.now m nodes name addr kind) (levels_found result) }
    ensures few { IfOk result (λ level. FitsIn nodes (level_of level)) }
{
    match kind {
        Kind::List => read_sequence(
            alloc,
            process,
            layout,
            limits,
            ItemsForm::List,
            Sequence::List,
            nodes,
            addr,
        ),
        Kind::Tuple => read_sequence(
            alloc,
            process,
            layout,
            limits,
            ItemsForm::Tuple,
            Sequence::Tuple,
            nodes,
            addr,
        ),
        Kind::Range => read_fields(
            alloc,
            process,
            layout,
            limits,
            ItemsForm::Range,
            nodes,
            3,
            addr,
        ),
        Kind::Slice => read_fields(
            alloc,
            process,
            layout,
            limits,
            ItemsForm::Slice,
            nodes,
            3,
            addr,
        ),
        Kind::Cell => read_fields(
            alloc,
            process,
            layout,
            limits,
            ItemsForm::Cell,
            nodes,
            1,
            addr,
        ),
        Kind::Method => read_fields(
            alloc,
            process,
            layout,
            limits,
            ItemsForm::Method,
            nodes,
            2,
            addr,
        ),
        Kind::Nothing => read_leaf_level(
            alloc,
            process,
            layout,
            limits,
            nodes,
            name,
            addr,
            Kind::Nothing,
        ),
        Kind::Ellipsis => read_leaf_level(
            alloc,
            process,
            layout,
            limits,
            nodes,
            name,
            addr,
            Kind::Ellipsis,
        ),
        Kind::NotImplemented => read_leaf_level(
            alloc,
            process,
            layout,
            limits,
            nodes,
            name,
            addr,
            Kind::NotImplemented,
        ),
        Kind::Truth => read_leaf_level(
            alloc,
            process,
            layout,
            limits,
            nodes,
            name,
            addr,
            Kind::Truth,
        ),
        Kind::Integer => read_leaf_level(
            alloc,
            process,
            layout,
            limits,
            nodes,
            name,
            addr,
            Kind::Integer,
        ),
        Kind::SmallInteger => read_leaf_level(
            alloc,
            process,
            layout,
            limits,
            nodes,
            name,
            addr,
            Kind::SmallInteger,
        ),
        Kind::Float => read_leaf_level(
            alloc,
            process,
            layout,
            limits,
            nodes,
            name,
            addr,
            Kind::Float,
        ),
        Kind::Complex => read_leaf_level(
            alloc,
            process,
            layout,
            limits,
            nodes,
            name,
            addr,
            Kind::Complex,
        ),
        Kind::Text => read_leaf_level(
            alloc,
            process,
            layout,
            limits,
            nodes,
            name,
            addr,
            Kind::Text,
        ),
        Kind::Bytes => read_leaf_level(
            alloc,
            process,
            layout,
            limits,
            nodes,
            name,
            addr,
            Kind::Bytes,
        ),
        Kind::ByteArray => read_leaf_level(
            alloc,
            process,
            layout,
            limits,
            nodes,
            name,
            addr,
            Kind::ByteArray,
        ),
        Kind::Class => read_leaf_level(
            alloc,
            process,
            layout,
            limits,
            nodes,
            name,
            addr,
            Kind::Class,
        ),
        Kind::Dict => read_dict(alloc, process, layout, limits, nodes, addr),
        Kind::Set => read_set(alloc, process, layout, limits, ItemsForm::Set, nodes, addr),
        Kind::FrozenSet => read_set(
            alloc,
            process,
            layout,
            limits,
            ItemsForm::FrozenSet,
            nodes,
            addr,
        ),
        Kind::Function => read_leaf_level(
            alloc,
            process,
            layout,
            limits,
            nodes,
            name,
            addr,
            Kind::Function,
        ),
        Kind::Builtin => read_leaf_level(
            alloc,
            process,
            layout,
            limits,
            nodes,
            name,
            addr,
            Kind::Builtin,
        ),
        Kind::Module => read_leaf_level(
            alloc,
            process,
            layout,
            limits,
            nodes,
            name,
            addr,
            Kind::Module,
        ),
        Kind::Coroutine(form) => read_coroutine_level(
            alloc,
            process,
            layout,
            types.coroutines,
            nodes,
            form,
            addr,
        ),
        Kind::Other => read_other(
            alloc,
            process,
            layout,
            limits,
            types.instances,
            nodes,
            name,
            addr,
        ),
    }
}

/// What is told of what was found: what is missing, or that a record can't be, is a part of the answer; out of memory is
/// handed on.
fn tell(kind: Kind, addr: u64, found: Result<Level, ObjectError>) -> Result<Level, ReprError>
    ensures { Tells kind addr found result }
{
    match found {
        Ok(level) => Ok(level),
        Err(ObjectError::OutOfMemory) => Err(ReprError::OutOfMemory),
        Err(ObjectError::Unreadable { addr, len }) => {
            Ok(Level::Whole(Repr::Lost { kind, addr, len }))
        }
        Err(ObjectError::NoText) => Ok(damaged(kind, addr)),
        Err(ObjectError::TooLong { .. }) => Ok(damaged(kind, addr)),
        Err(ObjectError::BadDict) => Ok(damaged(kind, addr)),
        Err(ObjectError::BadType) => Ok(damaged(kind, addr)),
        Err(ObjectError::Visits) => Ok(damaged(kind, addr)),
        Err(ObjectError::Depth) => Ok(damaged(kind, addr)),
        Err(ObjectError::BadCount { .. }) => Ok(damaged(kind, addr)),
        Err(ObjectError::BadBool { .. }) => Ok(damaged(kind, addr)),
    }
}

/// A value of a kind whose record says what can't be.
fn damaged(kind: Kind, addr: u64) -> Level
    ensures { level_of result ≡ Whole (Damaged kind addr) }
{
    Level::Whole(Repr::Damaged { kind, addr })
}

/// The value at an address, by its type.
fn read_typed<P: ProcessMemory>(
    alloc: Global,
    process: &mut P,
    layout: &Layout,
    types: &ReprTypes,
    limits: &Limits,
    nodes: u32,
    class: &ObjectType,
    addr: u64,
) -> Result<Level, ReprError>
    requires sound { IsSound layout.now }
    ensures answer { Reading (level_cost limits.now - 2) (P.seen process.old) (P.seen process.new)
        (λ m. IfOk result (λ level. level_of level
        ≡ level_by layout.now types.now limits.now m nodes addr (Ok class.now))) }
    ensures few { IfOk result (λ level. FitsIn nodes (level_of level)) }
{
    let kind = kind_of(layout, types, class);
    let found = read_kind(
        alloc, process, layout, types, limits, nodes, class.name, addr, kind,
    );
    tell(kind, addr, found)
}

/// The value at an address, without the values within it.
#[tactic(auto, unfolding(crate::specs::Levels::level_at))]
pub(crate) fn read_level<P: ProcessMemory>(
    alloc: Global,
    process: &mut P,
    layout: &Layout,
    types: &ReprTypes,
    limits: &Limits,
    nodes: u32,
    addr: u64,
) -> Result<Level, ReprError>
    requires sound { IsSound layout.now }
    ensures answer { Reading (level_cost limits.now) (P.seen process.old) (P.seen process.new)
        (λ m. IfOk result (λ level. level_of level ≡ level_at layout.now types.now limits.now m nodes addr)) }
    ensures few { IfOk result (λ level. FitsIn nodes (level_of level)) }
{
    if addr == 0 {
        return Ok(Level::Whole(Repr::Absent));
    }
    match read_type(alloc, process, layout, addr) {
        Ok(class) => read_typed(alloc, process, layout, types, limits, nodes, &class, addr),
        Err(error) => tell(Kind::Other, addr, Err(error)),
    }
}
