//! Objects of three classes, and one whose class is not in memory.
use process_memory::{Part, Piece};
use py_census::{
    Census, CountedClass, LargeObject, Largest, SetClasses, WordsBefore, count_objects, size_places,
};
use py_fields::Layout;
use std::alloc::{AllocError, Global};
use std::test::Fail;

/// From the size of its objects to its flags: a class of tuples, which the collector tracks.
const TUPLES: [u64; 18] = [
    24, 8, 0, 0, 0, 0, 0, 0, 0, 0, 0, 0, 0, 0, 0, 0, 0, 0x400_4000,
];

/// The same of a class whose objects have a managed dict.
const PLAIN: [u64; 18] = [48, 0, 0, 0, 0, 0, 0, 0, 0, 0, 0, 0, 0, 0, 0, 0, 0, 0x4010];

/// The same of a class of lists.
const LISTS: [u64; 18] = [
    40, 0, 0, 0, 0, 0, 0, 0, 0, 0, 0, 0, 0, 0, 0, 0, 0, 0x200_4000,
];

/// A list of one item at 0x4000, which has room for four.
const LIST: [u64; 5] = [1, 0x6000, 1, 0, 4];

/// The same of a class of dicts.
const DICTS: [u64; 18] = [
    48,
    0,
    0,
    0,
    0,
    0,
    0,
    0,
    0,
    0,
    0,
    0,
    0,
    0,
    0,
    0,
    0,
    0x2000_4000,
];

/// A dict at 0x7000, and its keys behind it, which no other has: eight slots, an index of eight bytes, and entries
/// without a hash.
const DICT: [u64; 8] = [1, 0x8000, 1, 0, 0x7030, 0, 1, 0x1_0303];

/// The same of a class of types.
const TYPES: [u64; 18] = [
    880,
    40,
    0,
    0,
    0,
    0,
    0,
    0,
    0,
    0,
    0,
    0,
    0,
    0,
    0,
    0,
    0,
    0x8000_4000,
];

/// A type at 0xe000 without slots, and its keys behind it, which three have: eight slots, an index of eight bytes, and
/// entries without a hash.
const KIND: [u64; 29] = [
    1, 0xf000, 0, 0, 0, 0, 0, 0, 0, 0, 0, 0, 0, 0, 0, 0, 0, 0, 0, 0, 0, 0, 0, 0, 0, 0xe0d8, 0, 3,
    0x2_0303,
];

/// `set`, as `PLAIN` is told: 200 bytes each.
const SETS: [u64; 18] = [200, 0, 0, 0, 0, 0, 0, 0, 0, 0, 0, 0, 0, 0, 0, 0, 0, 0x4000];

/// The first base of a class that derives from it.
const BASE: [u64; 1] = [0xa000];

/// A set of that class at 0xc000, whose table has 32 entries, and stands elsewhere.
const SET: [u64; 6] = [1, 0xb000, 9, 9, 31, 0xd000];

/// The classes of sets.
const CLASSES: SetClasses = SetClasses {
    set: 0xa000,
    frozenset: 0xa800,
};

/// From 0x3000 on: tuples of two items and of three, an object of the other class, and one of a class that is not in
/// memory; each of 32 bytes.
const OBJECTS: [u64; 16] = [
    1, 0x1000, 2, 0, 1, 0x1000, 3, 0, 1, 0x2000, 0, 0, 1, 0x5000, 0, 0,
];

fn piece(alloc: Global, start: u64, words: &[u64]) -> Result<Piece, AllocError> {
    let mut bytes = Vec::new(alloc);
    for word in words {
        bytes.extend_from_slice(&word.to_le_bytes())?;
    }
    Ok(Piece { start, bytes })
}

fn memory(alloc: Global) -> Result<Part, AllocError> {
    let mut pieces = Vec::new(alloc);
    pieces.push(piece(alloc, 0x1020, &TUPLES)?)?;
    pieces.push(piece(alloc, 0x2020, &PLAIN)?)?;
    pieces.push(piece(alloc, 0x3000, &OBJECTS)?)?;
    pieces.push(piece(alloc, 0x4000, &LIST)?)?;
    pieces.push(piece(alloc, 0x6020, &LISTS)?)?;
    pieces.push(piece(alloc, 0x7000, &DICT)?)?;
    pieces.push(piece(alloc, 0x8020, &DICTS)?)?;
    pieces.push(piece(alloc, 0xb020, &SETS)?)?;
    pieces.push(piece(alloc, 0xb100, &BASE)?)?;
    pieces.push(piece(alloc, 0xc000, &SET)?)?;
    pieces.push(piece(alloc, 0xe000, &KIND)?)?;
    pieces.push(piece(alloc, 0xf020, &TYPES)?)?;
    Ok(Part::of(alloc, pieces))
}

/// The sample, with the flags of classes where builds have them.
fn layout() -> Layout {
    let mut layout = Layout::sample();
    layout.klass.flags = 168;
    layout
}

/// What is counted of these by the sizes of 3.12, and by these classes of sets.
fn counted_by(
    alloc: Global,
    sets: Option<SetClasses>,
    objects: &[u64],
) -> Result<Option<Census>, AllocError> {
    let mut memory = memory(alloc)?;
    let Some(places) = size_places(sets, 200, 3, 12) else {
        return Ok(None);
    };
    let census = count_objects(alloc, &mut memory, &layout(), &places, objects)?;
    Ok(Some(census))
}

/// The same where these are not known.
fn counted(alloc: Global, objects: &[u64]) -> Result<Option<Census>, AllocError> {
    counted_by(alloc, None, objects)
}

/// An object with its bytes.
fn large(object: u64, bytes: u64) -> Option<LargeObject> {
    Some(LargeObject { object, bytes })
}

/// The largest objects of a class that has no more than two.
fn largest(first: Option<LargeObject>, second: Option<LargeObject>) -> Largest {
    Largest {
        first,
        second,
        third: None,
    }
}

/// A class whose objects have no other blocks; if their size is not known, that of these isn't either.
fn class(class: u64, objects: u64, bytes: u64, unknown: u64, largest: Largest) -> CountedClass {
    CountedClass {
        class,
        objects,
        bytes,
        more: 0,
        unread: unknown,
        unknown,
        largest,
    }
}

#[test]
fn versions_have_sizes(rt: HostRuntime) -> Result<(), Fail> {
    match size_places(None, 200, 3, 7) {
        Some(places) => {
            assert!(rt; places.head_size == 32 && places.words_before == WordsBefore::Never);
        }
        None => assert!(rt; false),
    }
    assert!(rt; size_places(None, 200, 3, 14) == None);
    Ok(())
}

#[test]
fn objects_are_counted_by_class(rt: HostRuntime) -> Result<(), Fail> {
    let objects = [0x9000, 0x3060, 0x3040, 0x3020, 0x3000];
    let Some(census) = counted(rt.alloc(), &objects)? else {
        assert!(rt; false);
        return Ok(());
    };
    assert!(rt; census.unreadable == 1);
    assert!(rt; census.classes.len() == 3);
    let tuples = largest(large(0x3020, 64), large(0x3000, 56));
    assert!(rt; census.classes[0] == class(0x1000, 2, 120, 0, tuples));
    assert!(rt; census.classes[1] == class(0x2000, 1, 80, 0, largest(large(0x3040, 80), None)));
    assert!(rt; census.classes[2] == class(0x5000, 1, 0, 1, largest(large(0x3060, 0), None)));
    Ok(())
}

#[test]
fn a_list_has_a_block_of_items(rt: HostRuntime) -> Result<(), Fail> {
    let Some(census) = counted(rt.alloc(), &[0x4000])? else {
        assert!(rt; false);
        return Ok(());
    };
    assert!(rt; census.classes.len() == 1);
    assert!(rt; census.classes[0].bytes == 56 && census.classes[0].more == 32);
    Ok(())
}

#[test]
fn a_dict_has_a_block_of_keys(rt: HostRuntime) -> Result<(), Fail> {
    let Some(census) = counted(rt.alloc(), &[0x7000])? else {
        assert!(rt; false);
        return Ok(());
    };
    assert!(rt; census.classes.len() == 1);
    assert!(rt; census.classes[0].bytes == 64 && census.classes[0].more == 120);
    Ok(())
}

#[test]
fn a_type_keeps_keys_that_dicts_share(rt: HostRuntime) -> Result<(), Fail> {
    let Some(census) = counted(rt.alloc(), &[0xe000])? else {
        assert!(rt; false);
        return Ok(());
    };
    assert!(rt; census.classes.len() == 1);
    assert!(rt; census.classes[0].bytes == 896 && census.classes[0].more == 120);
    Ok(())
}

#[test]
fn a_set_has_a_table(rt: HostRuntime) -> Result<(), Fail> {
    let Some(census) = counted_by(rt.alloc(), Some(CLASSES), &[0xc000])? else {
        assert!(rt; false);
        return Ok(());
    };
    assert!(rt; census.classes.len() == 1);
    assert!(rt; census.classes[0].bytes == 216 && census.classes[0].more == 512);
    assert!(rt; census.classes[0].largest == largest(large(0xc000, 728), None));
    Ok(())
}

#[test]
fn of_no_objects_there_is_nothing(rt: HostRuntime) -> Result<(), Fail> {
    match counted(rt.alloc(), &[])? {
        Some(census) => {
            assert!(rt; census.classes.is_empty() && census.unreadable == 0);
        }
        None => assert!(rt; false),
    }
    Ok(())
}
