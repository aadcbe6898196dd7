//! The attributes of instances, in each form of a version's dicts.
ghost use Rattle.py_fields.specs.Sound.{IsSound};

use crate::made::{Words, memory_of};
use instance_dicts::{
    Attribute, DictForm, InstanceDict, InstanceFields, dict_attributes, instance_dict,
};
use process_memory::Part;
use py_builtins::ObjectError;
use py_fields::{Dicts, KeysAt, Layout, is_sound};
use std::alloc::{AllocError, Global};
use std::test::Fail;

/// Where the fields stand that the layout does not say.
const FIELDS: InstanceFields = InstanceFields {
    basic_size: 48,
    item_size: 56,
    cached_keys: 64,
    count: 16,
};

/// An instance, its class, two dicts, the keys of one name, and one value.
const OBJECT: u64 = 0x5000;

const CLASS: u64 = 0x6000;

const DICT: u64 = 0x1000;

const SPLIT: u64 = 0x1100;

const KEYS: u64 = 0x2000;

const VALUES: u64 = 0x9000;

/// Flags of a class: its instances have managed dicts, and their values in themselves.
const MANAGED: u64 = 1 << 4;

const INLINE: u64 = 1 << 4 | 1 << 2;

/// A distance of 8 bytes before an instance's end.
const LAST: u64 = u64::MAX - 7;

/// The sample layout with compact dicts. Keys have 32 bytes: the size of the index is at 9, the kind at 10, and how
/// many are used at 24.
fn compact() -> Layout {
    Layout {
        dicts: Dicts::Compact,
        keys: Some(KeysAt {
            size: 32,
            used: 24,
            slots: None,
            log2: Some(9),
            kind: Some(10),
        }),
        ..Layout::sample()
    }
}

/// A form; the flags of the class, and how far behind an instance it says that a dict is named; the instance, from 32
/// bytes before it on; the value of its one attribute, or 0 for none.
type Row = (DictForm, u64, u64, [u64; 8], u64);

static ROWS: [Row; 9] = [
    (
        DictForm::Pointer,
        MANAGED,
        16,
        [0, 0, 0, 0, 1, CLASS, DICT, 0],
        0x22,
    ),
    (DictForm::Pointer, 0, 0, [0, 0, 0, 0, 1, CLASS, DICT, 0], 0),
    (
        DictForm::Pointer,
        0,
        LAST,
        [0, 0, 0, 0, 1, CLASS, 2, DICT],
        0x22,
    ),
    (
        DictForm::ValuesAndDict,
        MANAGED,
        0,
        [VALUES, 0, 0, 0, 1, CLASS, 0, 0],
        0x33,
    ),
    (
        DictForm::ValuesAndDict,
        MANAGED,
        0,
        [0, DICT, 0, 0, 1, CLASS, 0, 0],
        0x22,
    ),
    (
        DictForm::OneWord,
        MANAGED,
        0,
        [0, VALUES - 1, 0, 0, 1, CLASS, 0, 0],
        0x33,
    ),
    (
        DictForm::Embedded,
        INLINE,
        0,
        [VALUES, 0, 0, 0, 1, CLASS, 0x0100_0101, 0x44],
        0x44,
    ),
    (
        DictForm::Embedded,
        INLINE,
        0,
        [VALUES, 0, 0, 0, 1, CLASS, 0x0001_0101, 0x44],
        0,
    ),
    (
        DictForm::Embedded,
        INLINE,
        0,
        [VALUES, SPLIT, 0, 0, 1, CLASS, 0x0001_0101, 0x44],
        0x33,
    ),
];

fn process(alloc: Global, flags: u64, distance: u64, object: &[u64]) -> Result<Part, AllocError> {
    let words: [Words<'_>; 6] = [
        (DICT, &[1, 0, 0, 0, KEYS, 0]),
        (SPLIT, &[1, 0, 0, 0, KEYS, VALUES - 8]),
        (KEYS, &[0, 0x1_0300, 0, 1, 0, 0x11, 0x22]),
        (VALUES, &[0x33]),
        (CLASS, &[1, 0, 0, 0, flags, distance, 16, 8, KEYS]),
        (OBJECT - 32, object),
    ];
    memory_of(alloc, &words)
}

/// Where the instance's dict is.
fn dict_of(
    alloc: Global,
    part: &mut Part,
    layout: &Layout,
    form: DictForm,
) -> Result<InstanceDict, ObjectError>
    requires { IsSound layout.now }
{
    instance_dict(alloc, part, layout, &FIELDS, form, OBJECT)
}

/// Whether its one attribute has this value; it has none where the value is 0.
fn has_value(
    alloc: Global,
    part: &mut Part,
    layout: &Layout,
    form: DictForm,
    dict: InstanceDict,
    value: u64,
) -> Result<bool, ObjectError>
    requires { IsSound layout.now }
{
    let attributes = dict_attributes(alloc, part, layout, form, dict, 16)?;
    let list = attributes.list.as_slice();
    if value == 0 {
        return Ok(list.is_empty());
    }
    Ok(list.len() == 1 && list[0] == Attribute { name: 0x11, value } && attributes.left == 0)
}

#[test]
fn each_form_has_its_attributes(rt: HostRuntime) -> Result<(), Fail> {
    let layout = compact();
    assert!(rt; is_sound(&layout));
    for (form, flags, distance, object, value) in &ROWS {
        let mut part = process(rt.alloc(), *flags, *distance, object)?;
        let dict = dict_of(rt.alloc(), &mut part, &layout, *form)?;
        assert!(rt;
            has_value(rt.alloc(), &mut part, &layout, *form, dict, *value)?,
            "{object:?}"
        );
    }
    Ok(())
}

#[test]
fn slots_past_the_limit_are_left(rt: HostRuntime) -> Result<(), Fail> {
    let layout = compact();
    assert!(rt; is_sound(&layout));
    let mut part = process(rt.alloc(), 0, 0, &[])?;
    let dict = InstanceDict::Dict(DICT);
    let told = dict_attributes(rt.alloc(), &mut part, &layout, DictForm::Pointer, dict, 0)?;
    assert!(rt; told.list.is_empty() && told.left == 1);
    Ok(())
}
