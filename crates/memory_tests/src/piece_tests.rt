//! Many pieces of a core.
use crate::made::file_of;
use elf64_core::{LOAD, NOTE};
use image_memory::{BackedDump, CoreDump, Images, ProcessMemory, ReadFault};
use std::alloc::Global;
use std::test::Fail;

/// How many segments a core may have beside one of notes.
const MANY: u64 = 65_533;

/// A core of so many segments of one byte each, 16 addresses apart.
fn many_segments(alloc: Global) -> Result<CoreDump, Fail> {
    let mut segments = Vec::new(alloc);
    let mut held = Vec::new(alloc);
    for number in 0..MANY {
        let addr = 0x1000 + 16 * number;
        segments.push((LOAD, 0, 64 + 56 * 65_534 + number, addr, 1, 1))?;
        held.push((number % 251) as u8)?;
    }
    segments.push((NOTE, 0, 64, 0, 0, 0))?;
    Ok(CoreDump::new(alloc, file_of(alloc, &segments, &held)?)?)
}

/// Whether the byte of each segment is read, 100 times over.
fn are_read<P: ProcessMemory>(memory: &mut P) -> Result<bool, ReadFault> {
    for turn in 0..100 * MANY {
        let mut byte = [0];
        let number = turn % MANY;
        memory.read(0x1000 + 16 * number, &mut byte)?;
        if u64::from(byte[0]) != number % 251 {
            return Ok(false);
        }
    }
    Ok(true)
}

#[test]
fn many_segments_are_read_at_once_beside_images(rt: HostRuntime) -> Result<(), Fail> {
    let core = many_segments(rt.alloc())?;
    let dump = BackedDump::new(rt.alloc(), core, &Images::new(rt.alloc()))?;
    assert!(rt; are_read(&mut dump.view())?);
    Ok(())
}
