//! The lists of an interpreter of 3.12 at 0x1000.
use gc_lists::{Collected, GcList, ListEnd, ListPlaces, Lists, list_places, read_list, read_lists};
use process_memory::{Part, Piece};
use std::alloc::{AllocError, Global};
use std::test::Fail;

/// From the head of generation 0 on: that of a whole list of two, the empty list of generation 1, the list of
/// generation 2, whose second member is one of generation 0, and the permanent generation, whose first member is not in
/// memory; a collection runs. Each head of a generation has its numbers behind it.
const HEADS: [u64; 23] = [
    0x2000, 0x2010, 0, 0x10a0, 0x10a0, 0, 0x2020, 0x2020, 0, 0x1088, 0x3000, 0x3000, 0, 0, 0, 0, 0,
    0, 0, 0, 0, 0, 1,
];

/// The members at 0x2000, 0x2010 and 0x2020. The links have marks.
const MEMBERS: [u64; 6] = [0x2010, 0x1089, 0x1088, 0x2003, 0x2000, 0x10b8];

fn piece(alloc: Global, start: u64, words: &[u64]) -> Result<Piece, AllocError> {
    let mut bytes = Vec::new(alloc);
    for word in words {
        bytes.extend_from_slice(&word.to_le_bytes())?;
    }
    Ok(Piece { start, bytes })
}

fn memory(alloc: Global) -> Result<Part, AllocError> {
    let mut pieces = Vec::new(alloc);
    pieces.push(piece(alloc, 0x1088, &HEADS)?)?;
    pieces.push(piece(alloc, 0x2000, &MEMBERS)?)?;
    Ok(Part::of(alloc, pieces))
}

/// Where the lists of 3.12 stand.
fn places() -> Option<ListPlaces> {
    list_places(3, 12)
}

/// Whether a list has these members and ends so.
fn is_list(list: &GcList, members: &[u64], end: ListEnd) -> bool {
    list.members.as_slice() == members && list.end == end
}

fn are_lists(lists: &Lists) -> bool {
    is_list(&lists.youngest, &[0x2000, 0x2010], ListEnd::Whole)
        && is_list(&lists.middle, &[], ListEnd::Whole)
        && is_list(&lists.oldest, &[0x2020], ListEnd::Torn { addr: 0x2000 })
        && is_list(&lists.permanent, &[], ListEnd::Unreadable { addr: 0x3000 })
        && lists.collecting == Some(true)
}

#[test]
fn versions_have_places(rt: HostRuntime) -> Result<(), Fail> {
    match places() {
        Some(places) => {
            assert!(rt; places.generations == 136 && places.permanent == 216);
        }
        None => assert!(rt; false),
    }
    assert!(rt; list_places(3, 14) == None);
    Ok(())
}

#[test]
fn an_interpreter_is_told(rt: HostRuntime) -> Result<(), Fail> {
    let alloc = rt.alloc();
    let mut memory = memory(alloc)?;
    let Some(places) = places() else {
        assert!(rt; false);
        return Ok(());
    };
    match read_lists(alloc, &mut memory, &places, &[0x1000], 0x1000)? {
        Collected::Lists(lists) => assert!(rt; are_lists(&lists)),
        Collected::Elsewhere { .. } => assert!(rt; false),
    }
    Ok(())
}

#[test]
fn heads_that_are_checked_are_none(rt: HostRuntime) -> Result<(), Fail> {
    let alloc = rt.alloc();
    let mut memory = memory(alloc)?;
    let Some(places) = list_places(3, 13) else {
        assert!(rt; false);
        return Ok(());
    };
    match read_lists(alloc, &mut memory, &places, &[], 0x1000)? {
        Collected::Lists(_) => assert!(rt; false),
        Collected::Elsewhere { head } => assert!(rt; head == 0x2d00),
    }
    Ok(())
}

#[test]
fn a_list_is_whole(rt: HostRuntime) -> Result<(), Fail> {
    let alloc = rt.alloc();
    let mut memory = memory(alloc)?;
    let list = read_list(alloc, &mut memory, u64::MAX - 3, &[0x1088, 0x10a0], 0x1088)?;
    assert!(rt; is_list(&list, &[0x2000, 0x2010], ListEnd::Whole));
    Ok(())
}
