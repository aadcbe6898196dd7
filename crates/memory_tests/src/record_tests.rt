//! Reads over a memory of four pieces.
ghost use Rattle.std.specs.Prelude.{◌≡◌, ◌<◌};

use elf64_core::Steps;
use process_memory::{
    Counted, Part, Piece, ProcessMemory, ReadFault, record, record_in, record_wide, word,
    word_past, word_wide,
};
use std::alloc::{AllocError, Global};
use std::marker::Brand;
use std::process::Abort;
use std::sync::ledger::{Blank, Ledger};
use std::test::Fail;

/// What the pieces hold.
const HELD: &[u8] = b"AAAAAAAAAAAAAAAABBBBBBBBBBBBBBBB";

/// Pieces, of which two hold the same addresses, and the last has more bytes than there are addresses for.
fn part(alloc: Global) -> Result<Part, AllocError> {
    let pieces = vec![in alloc;
        Piece {
            start: 0x1000,
            bytes: HELD[..16].to_vec(alloc)?
        },
        Piece {
            start: 0x1008,
            bytes: HELD[16..32].to_vec(alloc)?
        },
        Piece {
            start: 0x2000,
            bytes: HELD[..8].to_vec(alloc)?
        },
        Piece {
            start: u64::MAX - 4,
            bytes: b"CCCCCCC".to_vec(alloc)?
        },
    ]?;
    Ok(Part::of(alloc, pieces))
}

/// An address and a length, and the bytes there, if they are in memory.
type Row = (u64, u16, Option<&'static [u8]>);

const READS: [Row; 18] = [
    (0x100c, 8, Some(b"AAAABBBB")),
    (0x1000, 24, Some(b"AAAAAAAAAAAAAAAABBBBBBBB")),
    (0x1010, 1, Some(b"B")),
    (0x1017, 1, Some(b"B")),
    (0x1018, 1, None),
    (0x1017, 2, None),
    (0x1000, 25, None),
    (0xfff, 2, None),
    (0xfff, 40, None),
    (0x2000, 8, Some(b"AAAAAAAA")),
    (0x2000, 9, None),
    (0x3000, 1, None),
    (u64::MAX - 4, 4, Some(b"CCCC")),
    (u64::MAX - 4, 5, None),
    (u64::MAX, 1, None),
    (0, 1, None),
    (u64::MAX, 0, Some(b"")),
    (0, 0, Some(b"")),
];

/// Whether a read of a row into dots gives its bytes, or that they can't be read, and then leaves the dots.
fn is_filled(read: &Result<(), ReadFault>, bytes: &[u8], row: &Row) -> bool {
    let (addr, len) = (row.0, u64::from(row.1));
    match read {
        Ok(()) => row.2 == Some(bytes),
        Err(error) => {
            let is_left = bytes.iter().all(|byte| *byte == b'.');
            row.2.is_none() && is_left && *error == ReadFault::Unreadable { addr, len }
        }
    }
}

fn is_read<P: ProcessMemory>(alloc: Global, memory: &mut P, row: &Row) -> Result<bool, AllocError> {
    let mut bytes = vec![in alloc; b'.'; row.1 as usize]?;
    let read = memory.read(row.0, &mut bytes);
    Ok(is_filled(&read, &bytes, row))
}

fn is_read_in<P: ProcessMemory>(
    alloc: Global,
    memory: &mut P,
    row: &Row,
) -> Result<bool, AllocError> {
    let mut bytes = vec![in alloc; b'.'; row.1 as usize]?;
    let read = record_in(memory, row.0, &mut bytes);
    Ok(is_filled(&read, &bytes, row))
}

/// Whether a copy of a row is its bytes, or that they can't be read.
fn is_copy(copy: &Result<Vec<u8>, ReadFault>, row: &Row) -> bool {
    let (addr, len) = (row.0, u64::from(row.1));
    match copy {
        Ok(bytes) => row.2 == Some(bytes.as_slice()),
        Err(error) => row.2.is_none() && *error == ReadFault::Unreadable { addr, len },
    }
}

fn is_copied<P: ProcessMemory>(alloc: Global, memory: &mut P, row: &Row) -> bool {
    is_copy(&memory.copy(alloc, row.0, u64::from(row.1)), row)
}

fn is_record<P: ProcessMemory>(alloc: Global, memory: &mut P, row: &Row) -> bool {
    is_copy(&record(alloc, memory, row.0, u64::from(row.1)), row)
}

fn is_wide_record<P: ProcessMemory>(alloc: Global, memory: &mut P, row: &Row) -> bool {
    is_copy(
        &record_wide(alloc, memory, u128::from(row.0), u64::from(row.1)),
        row,
    )
}

/// Reads each of the ranges in five ways.
fn check_reads<P: ProcessMemory>(
    rt: &impl Abort,
    alloc: Global,
    memory: &mut P,
) -> Result<(), AllocError> {
    for row in &READS {
        let (addr, len) = (row.0, row.1);
        let is_there = is_read(alloc, memory, row)? && is_read_in(alloc, memory, row)?;
        assert!(rt; is_there, "{addr:#x} {len}");
        assert!(rt; is_copied(alloc, memory, row), "{addr:#x} {len}");
        let is_recorded = is_record(alloc, memory, row) && is_wide_record(alloc, memory, row);
        assert!(rt; is_recorded, "{addr:#x} {len}");
    }
    Ok(())
}

fn check_counted<L: Ledger>(rt: &impl Abort, alloc: Global, blank: Blank) -> Result<(), Fail>
    requires name { blank.name ≡ L.name }
    requires parts { blank.parts ≡ L.parts }
    requires some { 0 < L.parts }
{
    let mut steps = Steps::<L>::new(blank);
    let mut counted = Counted::new(part(alloc)?, &mut steps);
    check_reads(rt, alloc, &mut counted)?;
    check_reads(rt, alloc, &mut &mut counted)?;
    Ok(())
}

#[test]
fn a_counted_memory_answers_the_same(rt: HostRuntime) -> Result<(), Fail> {
    check_counted::<Brand>(&rt, rt.alloc(), Blank::new(1))
}

/// How many addresses there are.
const ADDRESSES: u128 = 0x1_0000_0000_0000_0000;

/// The bytes `AAAABBBB`, the lowest first.
const MIXED: u64 = 0x4242_4242_4141_4141;

/// Where a word can't be read.
type Missing = Option<u64>;

/// Addresses, and where the word there can't be read, if it isn't `MIXED`.
const WORDS: [(u64, Missing); 2] = [(0x100c, None), (0x1011, Some(0x1011))];

const WORDS_PAST: [(u64, u64, Missing); 6] = [
    (0x1000, 12, None),
    (12, 0x1000, None),
    (0x1000, 0x11, Some(0x1011)),
    (u64::MAX - 1, 1, Some(u64::MAX)),
    (u64::MAX, 1, Some(u64::MAX)),
    (u64::MAX, 0x100d, Some(u64::MAX)),
];

const WIDE_WORDS: [(u128, Missing); 5] = [
    (0x100c, None),
    (0x1011, Some(0x1011)),
    (ADDRESSES - 1, Some(u64::MAX)),
    (ADDRESSES, Some(u64::MAX)),
    (ADDRESSES + 0x100c, Some(u64::MAX)),
];

fn is_word(read: &Result<u64, ReadFault>, missing: Missing) -> bool {
    match (read, missing) {
        (Ok(word), None) => *word == MIXED,
        (Err(error), Some(addr)) => *error == ReadFault::Unreadable { addr, len: 8 },
        (Ok(_), Some(_)) | (Err(_), None) => false,
    }
}

#[test]
fn words_are_read_low_byte_first(rt: HostRuntime) -> Result<(), Fail> {
    let mut part = part(rt.alloc())?;
    for (addr, missing) in &WORDS {
        assert!(rt; is_word(&word(&mut part, *addr), *missing));
    }
    for (base, offset, missing) in &WORDS_PAST {
        assert!(rt; is_word(&word_past(&mut part, *base, *offset), *missing));
    }
    for (addr, missing) in &WIDE_WORDS {
        assert!(rt; is_word(&word_wide(&mut part, *addr), *missing));
    }
    Ok(())
}
