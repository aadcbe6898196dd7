//! How the instances of a version's classes have their dicts, and how its coroutines stand, by its records.
ghost use Rattle.std.specs.Prelude.{◌≡◌};
ghost use Rattle.task_sets.specs.Places.{form_of, instance_of};
ghost use Rattle.memory_sections.specs.Told.{coroutine_rule_by, coroutine_rule_of, rule_of};

use coroutine_frames::family_of;
use instance_dicts::{DictForm, InstanceFields};
use py_coroutines::Family;
use py_fields::Layout;
use py_records::{GeneratorRecord, HeapTypeRecord, KlassRecord, Records, TypeRecords};
use py_reprs::CoroutineRule;
use thread_names::DictRule;

/// The form, by which group of records the version has.
fn form_of(types: &TypeRecords) -> DictForm
    ensures { result ≡ form_of types.now }
{
    if types.instance_inline.is_some() {
        return DictForm::Embedded;
    }
    if types.instance_tagged.is_some() {
        return DictForm::OneWord;
    }
    if types.instance_split.is_some() {
        return DictForm::ValuesAndDict;
    }
    DictForm::Pointer
}

/// Where the fields of classes and instances stand.
fn instance_of(layout: &Layout, klass: &KlassRecord, heap: &HeapTypeRecord) -> InstanceFields
    ensures { result ≡ instance_of layout.now klass.now heap.now }
{
    InstanceFields {
        basic_size: klass.basicsize,
        item_size: klass.itemsize,
        cached_keys: heap.cached_keys,
        count: layout.list.count,
    }
}

/// How the instances of a version's classes have their dicts, by a layout and the version's records; none where the
/// groups `klass` and `heap_type` are not described.
pub(crate) fn rule_of(layout: &Layout, records: &Records) -> Option<DictRule>
    ensures { result ≡ rule_of layout.now records.now }
{
    let types = &records.types;
    match (types.klass, types.heap_type) {
        (Some(klass), Some(heap)) => Some(DictRule {
            fields: instance_of(layout, &klass, &heap),
            form: form_of(types),
        }),
        _ => None,
    }
}

/// By what the names and the states of coroutines are read, by where a record has the name and how they stand.
fn coroutine_rule_by(
    generator: Option<GeneratorRecord>,
    family: Option<Family>,
) -> Option<CoroutineRule>
    ensures { result ≡ coroutine_rule_by generator family }
{
    match (generator, family) {
        (Some(generator), Some(family)) => Some(CoroutineRule {
            name: generator.name,
            family,
        }),
        _ => None,
    }
}

/// By what the names and the states of a version's coroutines are read, by a layout and the version's records; none
/// where these don't say how coroutines stand in memory.
pub(crate) fn coroutine_rule_of(layout: &Layout, records: &Records) -> Option<CoroutineRule>
    ensures { result ≡ coroutine_rule_of layout.now records.now }
{
    let family = family_of(layout, records);
    coroutine_rule_by(records.coroutines.generator, family)
}
