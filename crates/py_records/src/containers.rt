//! Sets, lists, dicts and deques.
ghost use Rattle.std.specs.Prelude.{◌≡◌, ◌↔◌, IsTrue, IfSome, option_map, codes, Some, None};
ghost use Rattle.toml.specs.View.{table_view};
ghost use Rattle.py_layout.specs.Values.{group_at};
ghost use Rattle.py_records.specs.Containers.{set_places, IsSoundSet, set_in, set_entry_places, IsSoundSetEntry};
ghost use Rattle.py_records.specs.Containers.{set_entry_in, list_places, IsSoundList, list_in, dict_places};
ghost use Rattle.py_records.specs.Containers.{IsSoundDict, dict_in, IsSoundKeys, keys_in, IsSoundKeysLog2};
ghost use Rattle.py_records.specs.Containers.{keys_log2_in, ordered_dict_places, IsSoundOrderedDict, ordered_dict_in};
ghost use Rattle.py_records.specs.Containers.{ordered_node_places, IsSoundOrderedNode, ordered_node_in};
ghost use Rattle.py_records.specs.Containers.{default_dict_places, IsSoundDefaultDict, default_dict_in, deque_places};
ghost use Rattle.py_records.specs.Containers.{IsSoundDeque, deque_in, deque_block_places, IsSoundDequeBlock};
ghost use Rattle.py_records.specs.Containers.{deque_block_in, containers_from, AreSoundContainers, joined_containers};
ghost use Rattle.py_records.specs.Containers.{share_containers, no_containers};

use crate::places::{any_both, are_plain, is_record};
use crate::values::{group_at, number_in};
use toml::Table;

/// A set (`PySetObject`, Include/setobject.h).
#[derive(Clone, Copy)]
pub struct SetRecord {
    /// The basic size that its type states.
    pub size: u32,
    /// How many members it has.
    pub used: u32,
    /// How many entries there are, less 1.
    pub mask: u32,
    /// The address of the entries.
    pub table: u32,
    /// Where the entries are that stand inside.
    pub small_table: u32,
}

/// An entry of a set (`setentry`, Include/setobject.h).
#[derive(Clone, Copy)]
pub struct SetEntryRecord {
    /// Also the step of the entries.
    pub size: u32,
    /// The address of the member; 0 where there is none.
    pub key: u32,
    /// The hash of the member.
    pub hash: u32,
}

/// A list (`PyListObject`, Include/listobject.h).
#[derive(Clone, Copy)]
pub struct ListRecord {
    /// The basic size that its type states.
    pub size: u32,
    /// How many items there is room for.
    pub allocated: u32,
}

/// A dict (`PyDictObject`, Include/dictobject.h).
#[derive(Clone, Copy)]
pub struct DictRecord {
    /// The basic size that its type states.
    pub size: u32,
    /// How many items it has.
    pub used: u32,
}

/// The keys of a dict (`PyDictKeysObject`, Objects/dict-common.h).
#[derive(Clone, Copy)]
pub struct KeysRecord {
    /// How many entries are free still.
    pub usable: u32,
}

/// The keys of a dict from 3.11 on (`PyDictKeysObject`, Include/internal/pycore_dict.h).
#[derive(Clone, Copy)]
pub struct KeysLog2Record {
    /// The number of slots, as a power of 2. It has 1 byte.
    pub slots: u32,
}

/// An `OrderedDict` (`PyODictObject`, Objects/odictobject.c).
#[derive(Clone, Copy)]
pub struct OrderedDictRecord {
    /// The basic size that its type states.
    pub size: u32,
    /// The address of the table of nodes.
    pub nodes: u32,
    /// How many nodes that table has room for.
    pub nodes_size: u32,
    /// The address of the first node.
    pub first: u32,
    /// The address of the last node.
    pub last: u32,
}

/// A node of an `OrderedDict` (`_odictnode`, Objects/odictobject.c).
#[derive(Clone, Copy)]
pub struct OrderedNodeRecord {
    pub size: u32,
    /// The address of the key.
    pub key: u32,
    pub hash: u32,
    /// The address of the next node.
    pub next: u32,
    /// The address of the one before.
    pub previous: u32,
}

/// A `defaultdict` (`defdictobject`, Modules/_collectionsmodule.c).
#[derive(Clone, Copy)]
pub struct DefaultDictRecord {
    /// The basic size that its type states.
    pub size: u32,
    /// The address of what makes missing values.
    pub factory: u32,
}

/// A `deque` (`dequeobject`, Modules/_collectionsmodule.c).
#[derive(Clone, Copy)]
pub struct DequeRecord {
    /// The basic size that its type states.
    pub size: u32,
    /// How many items it has.
    pub count: u32,
    /// The address of the first block.
    pub left_block: u32,
    /// The address of the last block.
    pub right_block: u32,
    /// The first item's place in its block.
    pub left_index: u32,
    /// The last item's place in its block.
    pub right_index: u32,
}

/// A block of a `deque` (`BLOCK`, Modules/_collectionsmodule.c).
#[derive(Clone, Copy)]
pub struct DequeBlockRecord {
    pub size: u32,
    /// The address of the block before.
    pub left: u32,
    /// Where the items begin.
    pub items: u32,
    /// The address of the next block.
    pub right: u32,
}

/// Sets, lists, dicts and deques. Each group is there or not.
#[derive(Clone, Copy)]
pub struct ContainerRecords {
    pub set: Option<SetRecord>,
    pub set_entry: Option<SetEntryRecord>,
    pub list: Option<ListRecord>,
    pub dict: Option<DictRecord>,
    pub keys: Option<KeysRecord>,
    pub keys_log2: Option<KeysLog2Record>,
    pub ordered_dict: Option<OrderedDictRecord>,
    pub ordered_node: Option<OrderedNodeRecord>,
    pub default_dict: Option<DefaultDictRecord>,
    pub deque: Option<DequeRecord>,
    pub deque_block: Option<DequeBlockRecord>,
}

fn set_from(table: &Table) -> Option<SetRecord>
    ensures { result ≡ option_map set_in (group_at (table_view table.now) (codes "set")) }
{
    match group_at(table, "set") {
        Some(group) => Some(SetRecord {
            size: number_in(group, "size"),
            used: number_in(group, "used"),
            mask: number_in(group, "mask"),
            table: number_in(group, "table"),
            small_table: number_in(group, "small_table"),
        }),
        None => None,
    }
}

#[tactic(auto, unfolding(crate::specs::Containers::set_places))]
fn is_sound_set(at: Option<SetRecord>) -> bool
    ensures { IsTrue result ↔ IfSome at IsSoundSet }
{
    match at {
        Some(at) => is_record(
            at.size,
            &[
                (at.used, 8),
                (at.mask, 8),
                (at.table, 8),
                (at.small_table, 0),
            ],
        ),
        None => true,
    }
}

fn set_entry_from(table: &Table) -> Option<SetEntryRecord>
    ensures { result ≡ option_map set_entry_in (group_at (table_view table.now) (codes "set_entry")) }
{
    match group_at(table, "set_entry") {
        Some(group) => Some(SetEntryRecord {
            size: number_in(group, "size"),
            key: number_in(group, "key"),
            hash: number_in(group, "hash"),
        }),
        None => None,
    }
}

#[tactic(auto, unfolding(crate::specs::Containers::set_entry_places))]
fn is_sound_set_entry(at: Option<SetEntryRecord>) -> bool
    ensures { IsTrue result ↔ IfSome at IsSoundSetEntry }
{
    match at {
        Some(at) => is_record(at.size, &[(at.key, 8), (at.hash, 8)]),
        None => true,
    }
}

fn list_from(table: &Table) -> Option<ListRecord>
    ensures { result ≡ option_map list_in (group_at (table_view table.now) (codes "list")) }
{
    match group_at(table, "list") {
        Some(group) => Some(ListRecord {
            size: number_in(group, "size"),
            allocated: number_in(group, "allocated"),
        }),
        None => None,
    }
}

#[tactic(auto, unfolding(crate::specs::Containers::list_places))]
fn is_sound_list(at: Option<ListRecord>) -> bool
    ensures { IsTrue result ↔ IfSome at IsSoundList }
{
    match at {
        Some(at) => is_record(at.size, &[(at.allocated, 8)]),
        None => true,
    }
}

fn dict_from(table: &Table) -> Option<DictRecord>
    ensures { result ≡ option_map dict_in (group_at (table_view table.now) (codes "dict")) }
{
    match group_at(table, "dict") {
        Some(group) => Some(DictRecord {
            size: number_in(group, "size"),
            used: number_in(group, "used"),
        }),
        None => None,
    }
}

#[tactic(auto, unfolding(crate::specs::Containers::dict_places))]
fn is_sound_dict(at: Option<DictRecord>) -> bool
    ensures { IsTrue result ↔ IfSome at IsSoundDict }
{
    match at {
        Some(at) => is_record(at.size, &[(at.used, 8)]),
        None => true,
    }
}

fn keys_from(table: &Table) -> Option<KeysRecord>
    ensures { result ≡ option_map keys_in (group_at (table_view table.now) (codes "keys")) }
{
    match group_at(table, "keys") {
        Some(group) => Some(KeysRecord {
            usable: number_in(group, "usable"),
        }),
        None => None,
    }
}

fn is_sound_keys(at: Option<KeysRecord>) -> bool
    ensures { IsTrue result ↔ IfSome at IsSoundKeys }
{
    match at {
        Some(at) => are_plain(&[at.usable]),
        None => true,
    }
}

fn keys_log2_from(table: &Table) -> Option<KeysLog2Record>
    ensures { result ≡ option_map keys_log2_in (group_at (table_view table.now) (codes "keys_log2")) }
{
    match group_at(table, "keys_log2") {
        Some(group) => Some(KeysLog2Record {
            slots: number_in(group, "slots"),
        }),
        None => None,
    }
}

fn is_sound_keys_log2(at: Option<KeysLog2Record>) -> bool
    ensures { IsTrue result ↔ IfSome at IsSoundKeysLog2 }
{
    match at {
        Some(at) => are_plain(&[at.slots]),
        None => true,
    }
}

fn ordered_dict_from(table: &Table) -> Option<OrderedDictRecord>
    ensures { result ≡ option_map ordered_dict_in (group_at (table_view table.now) (codes "ordered_dict")) }
{
    match group_at(table, "ordered_dict") {
        Some(group) => Some(OrderedDictRecord {
            size: number_in(group, "size"),
            nodes: number_in(group, "nodes"),
            nodes_size: number_in(group, "nodes_size"),
            first: number_in(group, "first"),
            last: number_in(group, "last"),
        }),
        None => None,
    }
}

#[tactic(auto, unfolding(crate::specs::Containers::ordered_dict_places))]
fn is_sound_ordered_dict(at: Option<OrderedDictRecord>) -> bool
    ensures { IsTrue result ↔ IfSome at IsSoundOrderedDict }
{
    match at {
        Some(at) => is_record(
            at.size,
            &[
                (at.nodes, 8),
                (at.nodes_size, 8),
                (at.first, 8),
                (at.last, 8),
            ],
        ),
        None => true,
    }
}

fn ordered_node_from(table: &Table) -> Option<OrderedNodeRecord>
    ensures { result ≡ option_map ordered_node_in (group_at (table_view table.now) (codes "ordered_node")) }
{
    match group_at(table, "ordered_node") {
        Some(group) => Some(OrderedNodeRecord {
            size: number_in(group, "size"),
            key: number_in(group, "key"),
            hash: number_in(group, "hash"),
            next: number_in(group, "next"),
            previous: number_in(group, "previous"),
        }),
        None => None,
    }
}

#[tactic(auto, unfolding(crate::specs::Containers::ordered_node_places))]
fn is_sound_ordered_node(at: Option<OrderedNodeRecord>) -> bool
    ensures { IsTrue result ↔ IfSome at IsSoundOrderedNode }
{
    match at {
        Some(at) => is_record(
            at.size,
            &[(at.key, 8), (at.hash, 8), (at.next, 8), (at.previous, 8)],
        ),
        None => true,
    }
}

fn default_dict_from(table: &Table) -> Option<DefaultDictRecord>
    ensures { result ≡ option_map default_dict_in (group_at (table_view table.now) (codes "default_dict")) }
{
    match group_at(table, "default_dict") {
        Some(group) => Some(DefaultDictRecord {
            size: number_in(group, "size"),
            factory: number_in(group, "factory"),
        }),
        None => None,
    }
}

#[tactic(auto, unfolding(crate::specs::Containers::default_dict_places))]
fn is_sound_default_dict(at: Option<DefaultDictRecord>) -> bool
    ensures { IsTrue result ↔ IfSome at IsSoundDefaultDict }
{
    match at {
        Some(at) => is_record(at.size, &[(at.factory, 8)]),
        None => true,
    }
}

fn deque_from(table: &Table) -> Option<DequeRecord>
    ensures { result ≡ option_map deque_in (group_at (table_view table.now) (codes "deque")) }
{
    match group_at(table, "deque") {
        Some(group) => Some(DequeRecord {
            size: number_in(group, "size"),
            count: number_in(group, "count"),
            left_block: number_in(group, "left_block"),
            right_block: number_in(group, "right_block"),
            left_index: number_in(group, "left_index"),
            right_index: number_in(group, "right_index"),
        }),
        None => None,
    }
}

#[tactic(auto, unfolding(crate::specs::Containers::deque_places))]
fn is_sound_deque(at: Option<DequeRecord>) -> bool
    ensures { IsTrue result ↔ IfSome at IsSoundDeque }
{
    match at {
        Some(at) => is_record(
            at.size,
            &[
                (at.count, 8),
                (at.left_block, 8),
                (at.right_block, 8),
                (at.left_index, 8),
                (at.right_index, 8),
            ],
        ),
        None => true,
    }
}

fn deque_block_from(table: &Table) -> Option<DequeBlockRecord>
    ensures { result ≡ option_map deque_block_in (group_at (table_view table.now) (codes "deque_block")) }
{
    match group_at(table, "deque_block") {
        Some(group) => Some(DequeBlockRecord {
            size: number_in(group, "size"),
            left: number_in(group, "left"),
            items: number_in(group, "items"),
            right: number_in(group, "right"),
        }),
        None => None,
    }
}

#[tactic(auto, unfolding(crate::specs::Containers::deque_block_places))]
fn is_sound_deque_block(at: Option<DequeBlockRecord>) -> bool
    ensures { IsTrue result ↔ IfSome at IsSoundDequeBlock }
{
    match at {
        Some(at) => is_record(at.size, &[(at.left, 8), (at.items, 0), (at.right, 8)]),
        None => true,
    }
}

/// The groups that a table says.
#[tactic(auto, unfolding(crate::specs::Containers::containers_from))]
pub fn containers_from(table: &Table) -> ContainerRecords
    ensures { result ≡ containers_from (table_view table.now) }
{
    ContainerRecords {
        set: set_from(table),
        set_entry: set_entry_from(table),
        list: list_from(table),
        dict: dict_from(table),
        keys: keys_from(table),
        keys_log2: keys_log2_from(table),
        ordered_dict: ordered_dict_from(table),
        ordered_node: ordered_node_from(table),
        default_dict: default_dict_from(table),
        deque: deque_from(table),
        deque_block: deque_block_from(table),
    }
}

/// Whether each group that is there is sound.
pub fn are_sound_containers(records: &ContainerRecords) -> bool
    ensures { IsTrue result ↔ AreSoundContainers records.now }
{
    is_sound_set(records.set)
        && is_sound_set_entry(records.set_entry)
        && is_sound_list(records.list)
        && is_sound_dict(records.dict)
        && is_sound_keys(records.keys)
        && is_sound_keys_log2(records.keys_log2)
        && is_sound_ordered_dict(records.ordered_dict)
        && is_sound_ordered_node(records.ordered_node)
        && is_sound_default_dict(records.default_dict)
        && is_sound_deque(records.deque)
        && is_sound_deque_block(records.deque_block)
}

/// No group is there.
pub fn no_containers() -> ContainerRecords
    ensures { result ≡ no_containers }
{
    ContainerRecords {
        set: None,
        set_entry: None,
        list: None,
        dict: None,
        keys: None,
        keys_log2: None,
        ordered_dict: None,
        ordered_node: None,
        default_dict: None,
        deque: None,
        deque_block: None,
    }
}

/// Each group of the first that is there, and else of the second.
#[tactic(auto, unfolding(crate::specs::Containers::joined_containers))]
pub fn joined_containers(one: &ContainerRecords, other: &ContainerRecords) -> ContainerRecords
    ensures { result ≡ joined_containers one.now other.now }
{
    ContainerRecords {
        set: one.set.or(other.set),
        set_entry: one.set_entry.or(other.set_entry),
        list: one.list.or(other.list),
        dict: one.dict.or(other.dict),
        keys: one.keys.or(other.keys),
        keys_log2: one.keys_log2.or(other.keys_log2),
        ordered_dict: one.ordered_dict.or(other.ordered_dict),
        ordered_node: one.ordered_node.or(other.ordered_node),
        default_dict: one.default_dict.or(other.default_dict),
        deque: one.deque.or(other.deque),
        deque_block: one.deque_block.or(other.deque_block),
    }
}

/// Whether a group is there in both.
#[tactic(auto, unfolding(crate::specs::Containers::share_containers))]
pub fn share_containers(one: &ContainerRecords, other: &ContainerRecords) -> bool
    ensures { result ≡ share_containers one.now other.now }
{
    any_both(
        &[
            one.set.is_some(),
            one.set_entry.is_some(),
            one.list.is_some(),
            one.dict.is_some(),
            one.keys.is_some(),
            one.keys_log2.is_some(),
            one.ordered_dict.is_some(),
            one.ordered_node.is_some(),
            one.default_dict.is_some(),
            one.deque.is_some(),
            one.deque_block.is_some(),
        ],
        &[
            other.set.is_some(),
            other.set_entry.is_some(),
            other.list.is_some(),
            other.dict.is_some(),
            other.keys.is_some(),
            other.keys_log2.is_some(),
            other.ordered_dict.is_some(),
            other.ordered_node.is_some(),
            other.default_dict.is_some(),
            other.deque.is_some(),
            other.deque_block.is_some(),
        ],
    )
}
