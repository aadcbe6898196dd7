//! A thread with an item, and exceptions that lead to each other.
use crate::made::{Words, memory_of};
use std::test::Fail;
use thread_exceptions::{
    ExceptionPlaces, GroupPlaces, LinkEnd, Met, Owner, Places, Raised, RaisedPlaces, Value, What,
    is_sound, read_closure, read_links, read_thread,
};

/// An object names its type at 8, a type has its flags at 16, its name at 24 and its base at 32. A thread names what is
/// raised at 0 and the newest item at 8, and its own item begins at 16.
const PLACES: Places = Places {
    klass: 8,
    flags: 16,
    name: 24,
    base: 32,
    raised: RaisedPlaces::Exception { at: 0 },
    newest: 8,
    oldest: 16,
    inside: 16,
    value: 0,
    previous: 8,
    exception: ExceptionPlaces {
        size: 64,
        dict: 16,
        args: 24,
        traceback: 32,
        context: 40,
        cause: 48,
        suppress_context: 56,
    },
    group: Some(GroupPlaces {
        members: 64,
        count: 0,
        items: 8,
    }),
};

/// The item of a generator, and the thread's own behind it; what is raised is no exception. The exception at 0x2000 has
/// a group as its cause and a context that leads back to it; of the group's members one is not in memory.
const ROWS: [Words<'static>; 13] = [
    (0x1000, &[0x4000, 0x1110, 0x2000, 0]),
    (0x1110, &[0x4000, 0x1010]),
    (0x2000, &[0, 0x3000, 0, 0, 0, 0x2100, 0x2200, 0]),
    (0x2100, &[0, 0x3000, 0, 0, 0, 0x2000, 0, 0]),
    (0x2200, &[0, 0x3200, 0, 0, 0, 0x2100, 0, 1, 0x5000]),
    (0x3000, &[0, 0, 0x4000_0000, 0x3100, 0]),
    (0x3100, &[0, 0, 0]),
    (0x3200, &[0, 0, 0x4000_0200, 0x3100, 0x3300]),
    (0x3300, &[0, 0, 0x4000_0000, 0x3380, 0]),
    (
        0x3380,
        &[0x6563_7845_6573_6142, 0x6f72_476e_6f69_7470, 0x7075],
    ),
    (0x3400, &[0, 0, 0, 0, 0]),
    (0x4000, &[0, 0x3400]),
    (0x5000, &[2, 0x2000, 0x2300]),
];

/// The objects that are met, in order.
const MET: [u64; 5] = [0x4000, 0x2000, 0x2200, 0x2100, 0x2300];

/// Whether an object is none of which the type is in memory.
fn is_lost(met: &Met) -> bool {
    match &met.what {
        What::Unreadable(_) => true,
        What::Exception { .. } => false,
        What::Other => false,
    }
}

/// The same of the last one.
fn ends_lost(met: &[Met]) -> bool {
    match met.last() {
        Some(last) => is_lost(last),
        None => false,
    }
}

/// Whether these are the first of the objects that are to be met.
fn are_met(met: &[Met], count: usize) -> bool {
    if met.len() != count {
        return false;
    }
    for number in 0..MET.len() {
        if number < met.len() && met[number].addr != MET[number] {
            return false;
        }
    }
    true
}

fn is_raised(raised: Raised, wanted: u64) -> bool {
    match raised {
        Raised::Exception { addr } => addr == wanted,
        _ => false,
    }
}

fn is_at(value: Value, wanted: u64) -> bool {
    match value {
        Value::At(addr) => addr == wanted,
        Value::Unreadable(_) => false,
    }
}

fn runs_at(owner: Owner, wanted: u64) -> bool {
    match owner {
        Owner::Thread => false,
        Owner::Running { addr } => addr == wanted,
    }
}

fn is_null(end: LinkEnd) -> bool {
    match end {
        LinkEnd::Null => true,
        _ => false,
    }
}

#[test]
fn places_are_sound(rt: HostRuntime) -> Result<(), Fail> {
    assert!(rt; is_sound(&PLACES));
    Ok(())
}

#[test]
fn a_thread_is_told(rt: HostRuntime) -> Result<(), Fail> {
    let alloc = rt.alloc();
    let places = PLACES;
    assert!(rt; is_sound(&places));
    let mut memory = memory_of(alloc, &ROWS)?;
    let told = read_thread(alloc, &mut memory, &places, 0x1000)?;
    assert!(rt; is_raised(told.raised, 0x4000));
    assert!(rt; is_null(told.end));
    assert!(rt; told.handled.len() == 2);
    assert!(rt; is_at(told.handled[0].value, 0));
    assert!(rt; runs_at(told.handled[0].owner, 0x1100));
    assert!(rt; is_at(told.handled[1].value, 0x2000));
    assert!(rt; are_met(&told.met, 5));
    assert!(rt; ends_lost(&told.met));
    Ok(())
}

#[test]
fn a_limit_ends_a_closure(rt: HostRuntime) -> Result<(), Fail> {
    let alloc = rt.alloc();
    let places = PLACES;
    assert!(rt; is_sound(&places));
    let mut memory = memory_of(alloc, &ROWS)?;
    let met = read_closure(alloc, &mut memory, &places, 2, &[0x4000, 0, 0x2000])?;
    assert!(rt; are_met(&met, 2));
    Ok(())
}

#[test]
fn a_chain_ends_at_null(rt: HostRuntime) -> Result<(), Fail> {
    let alloc = rt.alloc();
    let mut memory = memory_of(alloc, &ROWS)?;
    let links = read_links(alloc, &mut memory, 8, 9, 0x1110)?;
    assert!(rt;
        links.members.len() == 2 && links.members[0] == 0x1110 && links.members[1] == 0x1010
    );
    assert!(rt; is_null(links.end));
    Ok(())
}
