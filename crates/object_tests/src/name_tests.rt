//! As many names as are looked at: all their slots are empty, so that no row shows how many they are.
use crate::made::{Words, piece, pieces_of};
use process_memory::Part;
use py_fields::Layout;
use py_names::thread_names_from_interpreter;
use std::alloc::{AllocError, Global};
use std::test::Fail;

/// Where an interpreter stands, whose modules are named at 16, their dict, and its keys.
const INTERPRETER: u64 = 0x1000;

const DICT: u64 = 0x1400;

const KEYS: u64 = 0x2000;

/// A dict of modules of so many empty slots.
fn slots(alloc: Global, used: u64, bytes: usize) -> Result<Part, AllocError> {
    let rows: [Words<'_>; 2] = [(INTERPRETER, &[0, 0, DICT]), (DICT, &[0, 0, 0, 0, KEYS, 0])];
    let mut pieces = pieces_of(alloc, &rows)?;
    let mut keys = piece(alloc, KEYS, &[0, 8, 0, 0, used, 0])?;
    keys.bytes.resize(bytes, 0)?;
    pieces.push(keys)?;
    Ok(Part::of(alloc, pieces))
}

#[test]
fn at_most_65536_slots_are_looked_at(rt: HostRuntime) -> Result<(), Fail> {
    let mut most = slots(rt.alloc(), 65536, 48 + 24 * 65536)?;
    let names = thread_names_from_interpreter(
        rt.alloc(),
        INTERPRETER,
        &mut most,
        &Layout::sample(),
    );
    assert!(rt; names.is_ok_and(|names| names.is_empty()));
    Ok(())
}
