//! Ranges, and views of files.

use image_memory::{Mmap, read_elf_build_id_from_mmap};
use std::alloc::{AllocError, Global};
use std::test::Fail;

/// What is there, ranges that it is narrowed by one after the other, and what is shown then.
const VIEWS: [(&[u8], &[(u64, u64)], Option<&[u8]>); 12] = [
    (
        b"abcdefghijklmnopqrstuvwxyz",
        &[],
        Some(b"abcdefghijklmnopqrstuvwxyz"),
    ),
    (
        b"abcdefghijklmnopqrstuvwxyz",
        &[(1, 15)],
        Some(b"bcdefghijklmno"),
    ),
    (
        b"abcdefghijklmnopqrstuvwxyz",
        &[(1, 15), (5, 6)],
        Some(b"g"),
    ),
    (
        b"abcdefghijklmnopqrstuvwxyz",
        &[(1, 15), (5, 6), (1, 2)],
        None,
    ),
    (b"abcdefghijklmnopqrstuvwxyz", &[(26, 26)], Some(b"")),
    (b"abcdefghijklmnopqrstuvwxyz", &[(26, 27)], None),
    (b"abcdefghijklmnopqrstuvwxyz", &[(9, 3)], Some(b"")),
    (b"abcdefghijklmnopqrstuvwxyz", &[(u64::MAX, 3)], Some(b"")),
    (
        b"abcdefghijklmnopqrstuvwxyz",
        &[(1, 15), (u64::MAX, 3)],
        None,
    ),
    (
        b"abcdefghijklmnopqrstuvwxyz",
        &[(1, 15), (0, u64::MAX)],
        None,
    ),
    (b"", &[(0, 1)], Some(b"")),
    (b"", &[(0, 2)], None),
];

fn narrow(view: Mmap, ranges: &[(u64, u64)]) -> Option<Mmap> {
    let mut view = view;
    for (start, end) in ranges {
        view = view.constrain(*start..*end)?;
    }
    Some(view)
}

fn view_of(alloc: Global, bytes: &[u8]) -> Result<Mmap, Fail> {
    let bytes = bytes.to_vec(alloc)?;
    Ok(Mmap::of(alloc, bytes)?)
}

fn shows(view: Option<Mmap>, want: Option<&[u8]>) -> bool {
    match view {
        Some(view) => want == Some(view.as_slice()),
        None => want.is_none(),
    }
}

#[test]
fn views_are_narrowed(rt: HostRuntime) -> Result<(), Fail> {
    for (bytes, ranges, want) in &VIEWS {
        let view = narrow(view_of(rt.alloc(), bytes)?, ranges);
        assert!(rt; shows(view, *want), "{ranges:?}");
    }
    Ok(())
}

/// An image with one section, of a kind, which is a note of type 3 with the descriptor 01 02.
fn image(alloc: Global, kind: u8) -> Result<Vec<u8>, AllocError> {
    let mut bytes = b"\x7fELF\x02\x01".to_vec(alloc)?;
    bytes.extend_from_slice(&[0; 34])?;
    bytes.extend_from_slice(&84u64.to_le_bytes())?;
    bytes.extend_from_slice(b"\0\0\0\0\0\0\0\0\0\0\x40\0\x01\0\0\0")?;
    bytes.extend_from_slice(b"\x04\0\0\0\x02\0\0\0\x03\0\0\0GNU\0\x01\x02\0\0")?;
    bytes.extend_from_slice(&[0, 0, 0, 0, kind, 0, 0, 0])?;
    bytes.extend_from_slice(&[0; 16])?;
    bytes.extend_from_slice(&64u64.to_le_bytes())?;
    bytes.extend_from_slice(&20u64.to_le_bytes())?;
    bytes.extend_from_slice(&[0; 24])?;
    Ok(bytes)
}

fn mapped(alloc: Global, kind: u8) -> Result<Mmap, Fail> {
    let bytes = image(alloc, kind)?;
    Ok(Mmap::of(alloc, bytes)?)
}

#[test]
fn build_ids_are_read_from_views(rt: HostRuntime) -> Result<(), Fail> {
    let alloc = rt.alloc();
    let noted = read_elf_build_id_from_mmap(alloc, &mapped(alloc, 7)?)?;
    assert!(rt; noted.is_some_and(|id| id.as_bytes() == b"\x01\x02".as_slice()));
    let plain = read_elf_build_id_from_mmap(alloc, &mapped(alloc, 8)?)?;
    assert!(rt; plain.is_none());
    Ok(())
}
