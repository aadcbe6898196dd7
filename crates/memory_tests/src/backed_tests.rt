//! A core whose missing bytes come from images.
use crate::core_tests::is_answer;
use crate::made::{FILES, add_note, file_of, file_table};
use elf64_core::{LOAD, NOTE, Name};
use image_memory::{BackedDump, CoreDump, Images, Mmap, ProcessMemory};
use std::alloc::{AllocError, Global};
use std::test::Fail;

/// Where images are mapped, in pages of 4 bytes: over a segment's own bytes, at one that is writable, at two that lie
/// together in the image, past the image's end, at a place that passes 2^64 - 1, at one that the second table names
/// otherwise, and under a name that no image has.
const MAPPED: [(u64, u64, u64); 8] = [
    (0x1000, 0x1000, 1),
    (0x2000, 0x2000, 0),
    (0x2ffc, 0x2ffc, 2),
    (0x3000, 0x3000, 3),
    (0x4000, 0x4000, 5),
    (0x5000, 0x5000, 1 << 62),
    (0x6000, 0x6000, 0),
    (0x7000, 0x7000, 0),
];

/// The notes of these maps.
fn notes(alloc: Global) -> Result<Vec<u8>, AllocError> {
    let mut area = Vec::new(alloc);
    let names = b"/a\0/a\0/a\0/a\0/a\0/a\0/a\0/no\0";
    add_note(&mut area, FILES, &file_table(alloc, 4, &MAPPED, names)?)?;
    let second = file_table(alloc, 4, &[(0x6000, 0x6000, 0)], b"/b (deleted)\0")?;
    add_note(&mut area, FILES, &second)?;
    Ok(area)
}

/// The core of these maps. The first has two bytes of its own.
fn core(alloc: Global) -> Result<CoreDump, Fail> {
    let mut held = b"AA".to_vec(alloc)?;
    held.extend_from_slice(&notes(alloc)?)?;
    let segments = [
        (LOAD, 5, 568, 0x1000, 2, 12),
        (LOAD, 6, 568, 0x2000, 0, 4),
        (LOAD, 4, 568, 0x2ffc, 0, 4),
        (LOAD, 4, 568, 0x3000, 0, 4),
        (LOAD, 4, 568, 0x4000, 0, 4),
        (LOAD, 4, 568, 0x5000, 0, 4),
        (LOAD, 4, 568, 0x6000, 0, 8),
        (LOAD, 4, 568, 0x7000, 0, 4),
        (NOTE, 0, 570, 0, held.len() as u64 - 2, 0),
    ];
    Ok(CoreDump::new(alloc, file_of(alloc, &segments, &held)?)?)
}

/// Paths of images, one of them twice, and what they hold.
const IMAGES: [(&[u8], &[u8]); 3] = [
    (b"/a", b"0123456789abcdef"),
    (b"/b (deleted)", b"wxyz"),
    (b"/a", b"ffffffffffffffff"),
];

fn images(alloc: Global) -> Result<Images, Fail> {
    let mut images = Images::new(alloc);
    for (path, bytes) in &IMAGES {
        let bytes = Mmap::of(alloc, bytes.to_vec(alloc)?)?;
        images.push(Name::of(alloc, path)?, bytes)?;
    }
    Ok(images)
}

fn backed(alloc: Global) -> Result<BackedDump, Fail> {
    Ok(BackedDump::new(alloc, core(alloc)?, &images(alloc)?)?)
}

/// Addresses and lengths, what is read there, and the piece there.
const READS: [(u64, u64, Option<&[u8]>, Option<&[u8]>); 10] = [
    (0x1000, 12, Some(b"AA6789abcdef"), Some(b"AA")),
    (0x1002, 11, None, Some(b"6789abcdef")),
    (0x2000, 1, None, None),
    (0x2ffc, 8, Some(b"89abcdef"), Some(b"89abcdef")),
    (0x3000, 5, None, Some(b"cdef")),
    (0x3000, 1 << 62, None, Some(b"cdef")),
    (0x4000, 1, None, None),
    (0x5000, 1, None, None),
    (0x6000, 4, Some(b"wxyz"), Some(b"wxyz")),
    (0x7000, 1, None, None),
];

#[test]
fn images_fill_what_a_core_lacks(rt: HostRuntime) -> Result<(), Fail> {
    let dump = backed(rt.alloc())?;
    for (addr, len, want, piece) in &READS {
        let read = dump.view().copy(rt.alloc(), *addr, *len);
        assert!(rt; is_answer(&read, *addr, *len, *want), "{addr:#x} {len}");
        assert!(rt; dump.piece(*addr, *len) == *piece, "{addr:#x}");
    }
    Ok(())
}
