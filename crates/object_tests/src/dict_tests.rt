//! Dicts over pieces of memory, written out by hand.
ghost use Rattle.py_fields.specs.Sound.{IsSound};

use crate::made::{Words, memory_of};
use process_memory::Part;
use py_builtins::{
    DictCursor, DictIterator, ObjectError, PY_TPFLAGS_INLINE_VALUES, PY_TPFLAGS_MANAGED_DICT, Slot,
};
use py_fields::{Dicts, HeapAt, KeysAt, Layout, Managed, is_sound};
use std::alloc::{AllocError, Global};
use std::process::Abort;
use std::test::Fail;

/// Where a dict stands, in the sample layout with its keys' address at 32 and its values' at 40; where its
/// keys stand, and values that stand apart.
const DICT: u64 = 0x1000;

const KEYS: u64 = 0x2000;

const VALUES: u64 = 0x9000;

/// Where an object and its type stand.
const OBJECT: u64 = 0x5000;

const TYPE: u64 = 0x6000;

/// The sample layout with compact dicts. Keys have 32 bytes: the size of the index is at 9, the kind at 10, and
/// how many are used at 24. The type of an object has 64 bytes: its keys' address is at 48, and values in an
/// object are at 24.
fn compact(managed: Managed) -> Layout {
    Layout {
        dicts: Dicts::Compact,
        managed,
        keys: Some(KeysAt {
            size: 32,
            used: 24,
            slots: None,
            log2: Some(9),
            kind: Some(10),
        }),
        heap: Some(HeapAt {
            size: 64,
            cached_keys: 48,
            inline: 24,
        }),
        ..Layout::sample()
    }
}

/// How many slots the keys state, where the first entry is, and the entry. In the sample layout keys have 40
/// bytes, with that number at 8 and how many are used at 32.
const GENERAL: [(u64, u64, [u64; 3], Slot); 6] = [
    (8, 8, [7, 0x11, 0x22], Slot::Entry(0x11, 0x22)),
    (255, 255, [7, 0x11, 0x22], Slot::Entry(0x11, 0x22)),
    (256, 512, [7, 0x11, 0x22], Slot::Entry(0x11, 0x22)),
    (65535, 131070, [7, 0x11, 0x22], Slot::Entry(0x11, 0x22)),
    (65536, 262144, [7, 0x11, 0], Slot::Entry(0x11, 0)),
    (8, 8, [7, 0, 0x22], Slot::Empty),
];

/// A general dict whose keys state so many slots, and have their one entry so far behind them.
fn general(alloc: Global, slots: u64, index: u64, entry: &[u64]) -> Result<Part, AllocError> {
    let words: [Words<'_>; 3] = [
        (DICT, &[0, 0, 0, 0, KEYS, 0]),
        (KEYS, &[0, slots, 0, 0, 1]),
        ((KEYS + 40).saturating_add(index), entry),
    ];
    memory_of(alloc, &words)
}

/// Whether the one slot of a dict is this, met in turn.
fn is_met(part: &mut Part, layout: &Layout, want: Slot) -> Result<bool, ObjectError>
    requires { IsSound layout.now }
{
    let mut cursor = DictCursor::from(part, layout, DICT)?;
    let is_first = cursor.remaining() == 1 && cursor.next(part) == Some(Ok(want));
    Ok(is_first && cursor.remaining() == 0 && cursor.next(part).is_none())
}

/// Whether it is this by its number.
fn is_numbered(part: &mut Part, layout: &Layout, want: Slot) -> Result<bool, ObjectError>
    requires { IsSound layout.now }
{
    let mut cursor = DictCursor::from(part, layout, DICT)?;
    Ok(cursor.slot(part, 0) == Ok(want))
}

#[test]
fn general_dicts_have_their_slots_behind_the_index(rt: HostRuntime) -> Result<(), Fail> {
    let layout = Layout::sample();
    for (slots, index, entry, want) in &GENERAL {
        let mut part = general(rt.alloc(), *slots, *index, entry)?;
        assert!(rt; is_met(&mut part, &layout, *want)?, "{slots}");
        assert!(rt; is_numbered(&mut part, &layout, *want)?, "{slots}");
    }
    Ok(())
}

/// The words 32 and 24 bytes before an object, the flags of its type, and its first entry.
fn first_entry(
    rt: &impl Abort,
    alloc: Global,
    managed: Managed,
    before: (u64, u64),
    flags: u64,
) -> Result<Result<Option<(u64, u64)>, ObjectError>, AllocError> {
    let layout = compact(managed);
    assert!(rt; is_sound(&layout));
    let words: [Words<'_>; 5] = [
        (DICT, &[0, 0, 0, 0, KEYS, 0]),
        (KEYS, &[0, 0x1_0300, 0, 1, 0, 0x11, 0x22]),
        (VALUES, &[0x33]),
        (OBJECT - 32, &[before.0, before.1, 0, 0, 0, 0, 0, 0x44]),
        (TYPE, &[0, 0, 0, 0, 0, 0, KEYS, 0]),
    ];
    let mut part = memory_of(alloc, &words)?;
    let entries = DictIterator::from_managed_dict(&mut part, &layout, OBJECT, TYPE, flags);
    match entries {
        Ok(mut entries) => match entries.next() {
            Some(Ok(entry)) => Ok(Ok(Some(entry))),
            Some(Err(error)) => Ok(Err(error)),
            None => Ok(Ok(None)),
        },
        Err(error) => Ok(Err(error)),
    }
}

/// How a dict is found, what stands before an object, and the flags of its type; then the value of the first entry
/// of its dict, or why it has none.
type Row = (Managed, (u64, u64), u64, Result<u64, ObjectError>);

const INLINE: u64 = PY_TPFLAGS_MANAGED_DICT | PY_TPFLAGS_INLINE_VALUES;

const END: ObjectError = ObjectError::Unreadable {
    addr: u64::MAX,
    len: 8,
};

const MANAGED: [Row; 8] = [
    (Managed::Split, (VALUES, DICT), 0, Ok(0x33)),
    (Managed::Split, (VALUES, 0), INLINE, Ok(0x44)),
    (Managed::Split, (0, DICT), INLINE, Ok(0x22)),
    (Managed::Split, (0, 0), 0, Err(ObjectError::BadDict)),
    (
        Managed::Tagged,
        (DICT, VALUES - 1),
        PY_TPFLAGS_MANAGED_DICT,
        Ok(0x33),
    ),
    (Managed::Tagged, (VALUES, DICT), 0, Ok(0x22)),
    (Managed::Tagged, (VALUES, 0), 0, Err(ObjectError::BadDict)),
    (Managed::Tagged, (0, u64::MAX), 0, Err(END)),
];

/// Whether an entry is that of the key, with this value.
fn is_entry(
    found: &Result<Option<(u64, u64)>, ObjectError>,
    want: &Result<u64, ObjectError>,
) -> bool {
    match (found, want) {
        (Ok(entry), Ok(value)) => *entry == Some((0x11, *value)),
        (Err(error), Err(want)) => error == want,
        (Ok(_), Err(_)) | (Err(_), Ok(_)) => false,
    }
}

#[test]
fn managed_dicts_are_found_by_what_stands_before_the_object(rt: HostRuntime) -> Result<(), Fail> {
    for (managed, before, flags, want) in &MANAGED {
        let found = first_entry(&rt, rt.alloc(), *managed, *before, *flags)?;
        assert!(rt; is_entry(&found, want), "{before:?} {flags}");
    }
    Ok(())
}
