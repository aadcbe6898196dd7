//! Where the parts of sets, weak references and instances stand.
ghost use Rattle.std.specs.Prelude.{◌≡◌};
ghost use Rattle.task_sets.specs.Places.{described_by, form_of, instance_of, places_of, sets_of};

use instance_dicts::{DictForm, InstanceFields};
use py_fields::Layout;
use py_records::{
    HeapTypeRecord, KlassRecord, Records, SetEntryRecord, SetRecord, TypeRecords, WeakrefRecord,
};

/// Where the parts of sets and of weak references stand, in bytes from their addresses.
#[derive(Clone, Copy)]
pub struct SetPlaces {
    /// Of a set: how many entries it has, less 1.
    pub mask: u32,
    /// Of a set: the address of its entries.
    pub table: u32,
    /// How many bytes an entry has.
    pub step: u32,
    /// Of an entry: the address of the member; 0 where there is none.
    pub key: u32,
    /// Of an entry: the member's hash; 2^64 - 1 where a member was taken away.
    pub hash: u32,
    /// Of a weak reference: the address of its object.
    pub referent: u32,
}

/// Where the parts of all objects stand that lead to the registered ones.
#[derive(Clone, Copy)]
pub struct RootPlaces {
    /// How many entries all of an interpreter's sets may have together. (They never may have more than 2^20.)
    pub slots: u64,
    pub sets: SetPlaces,
    /// Those of instances and their classes.
    pub instance: InstanceFields,
    /// How instances have their dicts.
    pub form: DictForm,
}

/// How the instances of a version's classes have their dicts, by which group of records it has.
fn form_of(types: &TypeRecords) -> DictForm
    ensures { result ≡ form_of types.now }
{
    if types.instance_inline.is_some() {
        return DictForm::Embedded;
    }
    if types.instance_tagged.is_some() {
        return DictForm::OneWord;
    }
    if types.instance_split.is_some() {
        return DictForm::ValuesAndDict;
    }
    DictForm::Pointer
}

fn instance_of(layout: &Layout, klass: &KlassRecord, heap: &HeapTypeRecord) -> InstanceFields
    ensures { result ≡ instance_of layout.now klass.now heap.now }
{
    InstanceFields {
        basic_size: klass.basicsize,
        item_size: klass.itemsize,
        cached_keys: heap.cached_keys,
        count: layout.list.count,
    }
}

fn sets_of(set: &SetRecord, entry: &SetEntryRecord, weakref: &WeakrefRecord) -> SetPlaces
    ensures { result ≡ sets_of set.now entry.now weakref.now }
{
    SetPlaces {
        mask: set.mask,
        table: set.table,
        step: entry.size,
        key: entry.key,
        hash: entry.hash,
        referent: weakref.object,
    }
}

/// The places, by sets' and the types' groups.
fn described_by(
    layout: &Layout,
    types: &TypeRecords,
    slots: u64,
    sets: Option<SetPlaces>,
) -> Option<RootPlaces>
    ensures { result ≡ described_by layout.now types.now slots sets types.now.klass types.now.heap_type }
{
    match (sets, types.klass, types.heap_type) {
        (Some(sets), Some(klass), Some(heap)) => Some(RootPlaces {
            slots,
            sets,
            instance: instance_of(layout, &klass, &heap),
            form: form_of(types),
        }),
        _ => None,
    }
}

/// The places by a layout and the records of its version, where the sets may have so many entries together; none where
/// a group of these is not described: `set`, `set_entry`, `weakref`, `klass`, `heap_type`.
pub fn places_of(layout: &Layout, records: &Records, slots: u64) -> Option<RootPlaces>
    ensures { result ≡ places_of layout.now records.now slots }
{
    let containers = &records.containers;
    let sets = match (
        containers.set,
        containers.set_entry,
        records.callables.weakref,
    ) {
        (Some(set), Some(entry), Some(weakref)) => Some(sets_of(&set, &entry, &weakref)),
        _ => None,
    };
    described_by(layout, &records.types, slots, sets)
}
