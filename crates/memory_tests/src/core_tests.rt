//! Cores that are written out field by field: their memory, and what their notes say.
use crate::made::{Row, file_of};
use elf64_core::{LOAD, NOTE};
use image_memory::{ContainsAddr, CoreDump, ProcessMemory, ReadFault};
use std::alloc::Global;
use std::test::Fail;

/// Segments of a core: two that hold the same addresses, one of no memory, one with fewer bytes in memory
/// than in the file, and one that ends at 2^64 - 1.
const SEGMENTS: [Row; 5] = [
    (LOAD, 0, 344, 0x1000, 16, 32),
    (LOAD, 0, 360, 0x1008, 16, 16),
    (NOTE, 0, 344, 0x3000, 0, 16),
    (LOAD, 0, 344, 0x2000, 32, 8),
    (LOAD, 0, 376, u64::MAX - 4, 4, 4),
];

/// What the segments hold.
pub(crate) const HELD: &[u8] = b"AAAAAAAAAAAAAAAABBBBBBBBBBBBBBBBCCCC";

/// The core of these segments: 380 bytes.
fn core(alloc: Global) -> Result<CoreDump, Fail> {
    let bytes = file_of(alloc, &SEGMENTS, HELD)?;
    Ok(CoreDump::new(alloc, bytes)?)
}

/// Whether a read of a range gives these bytes, or that it can't be read.
pub(crate) fn is_answer(
    read: &Result<Vec<u8>, ReadFault>,
    addr: u64,
    len: u64,
    want: Option<&[u8]>,
) -> bool {
    match read {
        Ok(bytes) => want == Some(bytes.as_slice()),
        Err(error) => want.is_none() && *error == ReadFault::Unreadable { addr, len },
    }
}

/// Addresses, and whether a core has them.
const CONTAINED: [(u64, bool); 5] = [
    (0xfff, false),
    (0x1018, true),
    (0x101f, true),
    (0x1020, false),
    (0x3000, false),
];

fn contains(core: &CoreDump, addr: u64, want: bool) -> bool {
    core.contains_addr(addr) == want && core.maps().contains_addr(addr) == want
}

#[test]
fn a_core_contains_its_maps(rt: HostRuntime) -> Result<(), Fail> {
    let core = core(rt.alloc())?;
    for (addr, want) in &CONTAINED {
        assert!(rt; contains(&core, *addr, *want), "{addr:#x}");
    }
    assert!(rt; core.piece(0x100c, 8) == Some(b"AAAA".as_slice()));
    Ok(())
}
