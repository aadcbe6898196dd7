//! Types, and what describes the attributes of their objects.
ghost use Rattle.std.specs.Prelude.{◌≡◌, ◌↔◌, IsTrue, IfSome, option_map, codes, Some, None};
ghost use Rattle.toml.specs.View.{table_view};
ghost use Rattle.py_layout.specs.Values.{group_at};
ghost use Rattle.py_records.specs.Types.{klass_places, IsSoundKlass, klass_in, heap_type_places, IsSoundHeapType};
ghost use Rattle.py_records.specs.Types.{heap_type_in, slots_places, IsSoundSlots, slots_in, member_places};
ghost use Rattle.py_records.specs.Types.{IsSoundMember, member_in, IsSoundInstanceSplit, instance_split_in};
ghost use Rattle.py_records.specs.Types.{IsSoundInstanceTagged, instance_tagged_in, IsSoundInstanceInline};
ghost use Rattle.py_records.specs.Types.{instance_inline_in, values_places, IsSoundValues, values_in};
ghost use Rattle.py_records.specs.Types.{IsSoundValuesBefore, values_before_in, types_from, AreSoundTypes};
ghost use Rattle.py_records.specs.Types.{joined_types, share_types, no_types};

use crate::places::{Place, any_both, are_plain, is_record};
use crate::values::{group_at, number_in};
use toml::Table;

/// A type (`PyTypeObject`, Include/object.h).
#[derive(Clone, Copy)]
pub struct KlassRecord {
    pub size: u32,
    /// The size of an object, without items.
    pub basicsize: u32,
    /// The size of an item.
    pub itemsize: u32,
    /// The address of what `repr` calls.
    pub to_repr: u32,
    /// The address of what `str` calls.
    pub to_str: u32,
    pub flags: u32,
    /// Where an object has its weak references, as a number.
    pub weaklist: u32,
    /// The address of the table of methods.
    pub methods: u32,
    /// The address of the table of members.
    pub members: u32,
    /// The address of the table of computed attributes.
    pub getset: u32,
    /// The address of the type that it is based on.
    pub base: u32,
    /// The address of its dict.
    pub dict: u32,
    /// Where an object has its dict, as a number.
    pub dictoffset: u32,
    /// The address of the tuple of its bases.
    pub bases: u32,
    /// The address of the tuple in which attributes are looked up.
    pub mro: u32,
}

/// A type made by a class statement (`PyHeapTypeObject`, Include/object.h).
#[derive(Clone, Copy)]
pub struct HeapTypeRecord {
    pub size: u32,
    /// The address of its qualified name.
    pub qualname: u32,
    /// The address of the keys that its objects share.
    pub cached_keys: u32,
}

/// A descriptor of a member, as each slot of a class has one (`PyMemberDescrObject`, Include/descrobject.h).
#[derive(Clone, Copy)]
pub struct SlotsRecord {
    /// The basic size that its type states.
    pub size: u32,
    /// The address of the type that has it.
    pub owner: u32,
    /// The address of its name.
    pub name: u32,
    /// The address of its member.
    pub member: u32,
}

/// A member of a type (`PyMemberDef`, Include/structmember.h).
#[derive(Clone, Copy)]
pub struct MemberRecord {
    /// Also the step of the table.
    pub size: u32,
    /// The address of its name, ended by a nul.
    pub name: u32,
    /// What it holds. It has 4 bytes.
    pub kind: u32,
    /// Where it stands in an object.
    pub offset: u32,
}

/// Attributes in two words before the object, as in 3.11 (Include/internal/pycore_object.h).
#[derive(Clone, Copy)]
pub struct InstanceSplitRecord {
    /// How many bytes before the object the address of its dict stands.
    pub dict: u32,
    /// How many bytes before it that of its values stands.
    pub values: u32,
    /// The bit of its type's flags that says so.
    pub managed_bit: u32,
}

/// Attributes in one word before the object, as in 3.12 (Include/internal/pycore_object.h).
#[derive(Clone, Copy)]
pub struct InstanceTaggedRecord {
    /// How many bytes before the object the word stands.
    pub word: u32,
    /// What is added to a word whose lowest bit is set, for the address of the values.
    pub tag: u32,
    /// The bit of its type's flags that says so.
    pub managed_bit: u32,
    /// The bit that says that weak references stand before it too.
    pub weakref_bit: u32,
}

/// Attributes behind the object or in a dict, as in 3.13 (Include/internal/pycore_object.h).
#[derive(Clone, Copy)]
pub struct InstanceInlineRecord {
    /// How many bytes before the object the address of its dict stands.
    pub dict: u32,
    /// The bit of its type's flags that says so.
    pub managed_bit: u32,
    /// The bit that says that weak references stand before it too.
    pub weakref_bit: u32,
    /// The bit that says that values stand behind the object.
    pub inline_bit: u32,
}

/// Values of attributes, as in 3.13 (`PyDictValues`, Include/internal/pycore_dict.h).
#[derive(Clone, Copy)]
pub struct ValuesRecord {
    pub size: u32,
    /// How many values there is room for. It has 1 byte.
    pub capacity: u32,
    /// How many are in use. It has 1 byte.
    pub used: u32,
    /// Whether they stand behind an object. It has 1 byte.
    pub embedded: u32,
    /// Whether they are the object's attributes. It has 1 byte.
    pub valid: u32,
    /// Where the values begin.
    pub items: u32,
}

/// What stands before values of attributes, as in 3.11 and 3.12 (Include/internal/pycore_dict.h).
#[derive(Clone, Copy)]
pub struct ValuesBeforeRecord {
    /// How many bytes before the values the byte with the length of their prefix stands.
    pub prefix: u32,
    /// How many bytes before them that with how many are in use stands.
    pub used: u32,
}

/// Types, and what describes the attributes of their objects. Each group is there or not.
#[derive(Clone, Copy)]
pub struct TypeRecords {
    pub klass: Option<KlassRecord>,
    pub heap_type: Option<HeapTypeRecord>,
    pub slots: Option<SlotsRecord>,
    pub member: Option<MemberRecord>,
    pub instance_split: Option<InstanceSplitRecord>,
    pub instance_tagged: Option<InstanceTaggedRecord>,
    pub instance_inline: Option<InstanceInlineRecord>,
    pub values: Option<ValuesRecord>,
    pub values_before: Option<ValuesBeforeRecord>,
}

fn klass_from(table: &Table) -> Option<KlassRecord>
    ensures { result ≡ option_map klass_in (group_at (table_view table.now) (codes "type")) }
{
    match group_at(table, "type") {
        Some(group) => Some(KlassRecord {
            size: number_in(group, "size"),
            basicsize: number_in(group, "basicsize"),
            itemsize: number_in(group, "itemsize"),
            to_repr: number_in(group, "repr"),
            to_str: number_in(group, "str"),
            flags: number_in(group, "flags"),
            weaklist: number_in(group, "weaklist"),
            methods: number_in(group, "methods"),
            members: number_in(group, "members"),
            getset: number_in(group, "getset"),
            base: number_in(group, "base"),
            dict: number_in(group, "dict"),
            dictoffset: number_in(group, "dictoffset"),
            bases: number_in(group, "bases"),
            mro: number_in(group, "mro"),
        }),
        None => None,
    }
}

#[tactic(auto, unfolding(crate::specs::Types::klass_places))]
fn klass_places(at: &KlassRecord) -> [Place; 14]
    ensures { result ≡ klass_places at.now }
{
    [
        (at.basicsize, 8),
        (at.itemsize, 8),
        (at.to_repr, 8),
        (at.to_str, 8),
        (at.flags, 8),
        (at.weaklist, 8),
        (at.methods, 8),
        (at.members, 8),
        (at.getset, 8),
        (at.base, 8),
        (at.dict, 8),
        (at.dictoffset, 8),
        (at.bases, 8),
        (at.mro, 8),
    ]
}

fn is_sound_klass(at: Option<KlassRecord>) -> bool
    ensures { IsTrue result ↔ IfSome at IsSoundKlass }
{
    match at {
        Some(at) => is_record(at.size, &klass_places(&at)),
        None => true,
    }
}

fn heap_type_from(table: &Table) -> Option<HeapTypeRecord>
    ensures { result ≡ option_map heap_type_in (group_at (table_view table.now) (codes "heap_type")) }
{
    match group_at(table, "heap_type") {
        Some(group) => Some(HeapTypeRecord {
            size: number_in(group, "size"),
            qualname: number_in(group, "qualname"),
            cached_keys: number_in(group, "cached_keys"),
        }),
        None => None,
    }
}

#[tactic(auto, unfolding(crate::specs::Types::heap_type_places))]
fn is_sound_heap_type(at: Option<HeapTypeRecord>) -> bool
    ensures { IsTrue result ↔ IfSome at IsSoundHeapType }
{
    match at {
        Some(at) => is_record(at.size, &[(at.qualname, 8), (at.cached_keys, 8)]),
        None => true,
    }
}

fn slots_from(table: &Table) -> Option<SlotsRecord>
    ensures { result ≡ option_map slots_in (group_at (table_view table.now) (codes "slots")) }
{
    match group_at(table, "slots") {
        Some(group) => Some(SlotsRecord {
            size: number_in(group, "size"),
            owner: number_in(group, "owner"),
            name: number_in(group, "name"),
            member: number_in(group, "member"),
        }),
        None => None,
    }
}

#[tactic(auto, unfolding(crate::specs::Types::slots_places))]
fn is_sound_slots(at: Option<SlotsRecord>) -> bool
    ensures { IsTrue result ↔ IfSome at IsSoundSlots }
{
    match at {
        Some(at) => is_record(at.size, &[(at.owner, 8), (at.name, 8), (at.member, 8)]),
        None => true,
    }
}

fn member_from(table: &Table) -> Option<MemberRecord>
    ensures { result ≡ option_map member_in (group_at (table_view table.now) (codes "member")) }
{
    match group_at(table, "member") {
        Some(group) => Some(MemberRecord {
            size: number_in(group, "size"),
            name: number_in(group, "name"),
            kind: number_in(group, "kind"),
            offset: number_in(group, "offset"),
        }),
        None => None,
    }
}

#[tactic(auto, unfolding(crate::specs::Types::member_places))]
fn is_sound_member(at: Option<MemberRecord>) -> bool
    ensures { IsTrue result ↔ IfSome at IsSoundMember }
{
    match at {
        Some(at) => is_record(at.size, &[(at.name, 8), (at.kind, 4), (at.offset, 8)]),
        None => true,
    }
}

fn instance_split_from(table: &Table) -> Option<InstanceSplitRecord>
    ensures { result ≡ option_map instance_split_in (group_at (table_view table.now) (codes "instance_split")) }
{
    match group_at(table, "instance_split") {
        Some(group) => Some(InstanceSplitRecord {
            dict: number_in(group, "dict"),
            values: number_in(group, "values"),
            managed_bit: number_in(group, "managed_bit"),
        }),
        None => None,
    }
}

fn is_sound_instance_split(at: Option<InstanceSplitRecord>) -> bool
    ensures { IsTrue result ↔ IfSome at IsSoundInstanceSplit }
{
    match at {
        Some(at) => are_plain(&[at.dict, at.values, at.managed_bit]),
        None => true,
    }
}

fn instance_tagged_from(table: &Table) -> Option<InstanceTaggedRecord>
    ensures { result ≡ option_map instance_tagged_in (group_at (table_view table.now) (codes "instance_tagged")) }
{
    match group_at(table, "instance_tagged") {
        Some(group) => Some(InstanceTaggedRecord {
            word: number_in(group, "word"),
            tag: number_in(group, "tag"),
            managed_bit: number_in(group, "managed_bit"),
            weakref_bit: number_in(group, "weakref_bit"),
        }),
        None => None,
    }
}

fn is_sound_instance_tagged(at: Option<InstanceTaggedRecord>) -> bool
    ensures { IsTrue result ↔ IfSome at IsSoundInstanceTagged }
{
    match at {
        Some(at) => are_plain(&[at.word, at.tag, at.managed_bit, at.weakref_bit]),
        None => true,
    }
}

fn instance_inline_from(table: &Table) -> Option<InstanceInlineRecord>
    ensures { result ≡ option_map instance_inline_in (group_at (table_view table.now) (codes "instance_inline")) }
{
    match group_at(table, "instance_inline") {
        Some(group) => Some(InstanceInlineRecord {
            dict: number_in(group, "dict"),
            managed_bit: number_in(group, "managed_bit"),
            weakref_bit: number_in(group, "weakref_bit"),
            inline_bit: number_in(group, "inline_bit"),
        }),
        None => None,
    }
}

fn is_sound_instance_inline(at: Option<InstanceInlineRecord>) -> bool
    ensures { IsTrue result ↔ IfSome at IsSoundInstanceInline }
{
    match at {
        Some(at) => are_plain(&[at.dict, at.managed_bit, at.weakref_bit, at.inline_bit]),
        None => true,
    }
}

fn values_from(table: &Table) -> Option<ValuesRecord>
    ensures { result ≡ option_map values_in (group_at (table_view table.now) (codes "values")) }
{
    match group_at(table, "values") {
        Some(group) => Some(ValuesRecord {
            size: number_in(group, "size"),
            capacity: number_in(group, "capacity"),
            used: number_in(group, "used"),
            embedded: number_in(group, "embedded"),
            valid: number_in(group, "valid"),
            items: number_in(group, "items"),
        }),
        None => None,
    }
}

#[tactic(auto, unfolding(crate::specs::Types::values_places))]
fn is_sound_values(at: Option<ValuesRecord>) -> bool
    ensures { IsTrue result ↔ IfSome at IsSoundValues }
{
    match at {
        Some(at) => is_record(
            at.size,
            &[
                (at.capacity, 1),
                (at.used, 1),
                (at.embedded, 1),
                (at.valid, 1),
                (at.items, 0),
            ],
        ),
        None => true,
    }
}

fn values_before_from(table: &Table) -> Option<ValuesBeforeRecord>
    ensures { result ≡ option_map values_before_in (group_at (table_view table.now) (codes "values_before")) }
{
    match group_at(table, "values_before") {
        Some(group) => Some(ValuesBeforeRecord {
            prefix: number_in(group, "prefix"),
            used: number_in(group, "used"),
        }),
        None => None,
    }
}

fn is_sound_values_before(at: Option<ValuesBeforeRecord>) -> bool
    ensures { IsTrue result ↔ IfSome at IsSoundValuesBefore }
{
    match at {
        Some(at) => are_plain(&[at.prefix, at.used]),
        None => true,
    }
}

/// The groups that a table says.
#[tactic(auto, unfolding(crate::specs::Types::types_from))]
pub fn types_from(table: &Table) -> TypeRecords
    ensures { result ≡ types_from (table_view table.now) }
{
    TypeRecords {
        klass: klass_from(table),
        heap_type: heap_type_from(table),
        slots: slots_from(table),
        member: member_from(table),
        instance_split: instance_split_from(table),
        instance_tagged: instance_tagged_from(table),
        instance_inline: instance_inline_from(table),
        values: values_from(table),
        values_before: values_before_from(table),
    }
}

/// Whether each group that is there is sound.
pub fn are_sound_types(records: &TypeRecords) -> bool
    ensures { IsTrue result ↔ AreSoundTypes records.now }
{
    is_sound_klass(records.klass)
        && is_sound_heap_type(records.heap_type)
        && is_sound_slots(records.slots)
        && is_sound_member(records.member)
        && is_sound_instance_split(records.instance_split)
        && is_sound_instance_tagged(records.instance_tagged)
        && is_sound_instance_inline(records.instance_inline)
        && is_sound_values(records.values)
        && is_sound_values_before(records.values_before)
}

/// No group is there.
pub fn no_types() -> TypeRecords
    ensures { result ≡ no_types }
{
    TypeRecords {
        klass: None,
        heap_type: None,
        slots: None,
        member: None,
        instance_split: None,
        instance_tagged: None,
        instance_inline: None,
        values: None,
        values_before: None,
    }
}

/// Each group of the first that is there, and else of the second.
#[tactic(auto, unfolding(crate::specs::Types::joined_types))]
pub fn joined_types(one: &TypeRecords, other: &TypeRecords) -> TypeRecords
    ensures { result ≡ joined_types one.now other.now }
{
    TypeRecords {
        klass: one.klass.or(other.klass),
        heap_type: one.heap_type.or(other.heap_type),
        slots: one.slots.or(other.slots),
        member: one.member.or(other.member),
        instance_split: one.instance_split.or(other.instance_split),
        instance_tagged: one.instance_tagged.or(other.instance_tagged),
        instance_inline: one.instance_inline.or(other.instance_inline),
        values: one.values.or(other.values),
        values_before: one.values_before.or(other.values_before),
    }
}

/// Whether a group is there in both.
#[tactic(auto, unfolding(crate::specs::Types::share_types))]
pub fn share_types(one: &TypeRecords, other: &TypeRecords) -> bool
    ensures { result ≡ share_types one.now other.now }
{
    any_both(
        &[
            one.klass.is_some(),
            one.heap_type.is_some(),
            one.slots.is_some(),
            one.member.is_some(),
            one.instance_split.is_some(),
            one.instance_tagged.is_some(),
            one.instance_inline.is_some(),
            one.values.is_some(),
            one.values_before.is_some(),
        ],
        &[
            other.klass.is_some(),
            other.heap_type.is_some(),
            other.slots.is_some(),
            other.member.is_some(),
            other.instance_split.is_some(),
            other.instance_tagged.is_some(),
            other.instance_inline.is_some(),
            other.values.is_some(),
            other.values_before.is_some(),
        ],
    )
}
