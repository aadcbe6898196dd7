//! Texts that spell a version and texts that don't, and the borders of both tables.
use elf64_core::{Machine, Text};
use py_fields::{ScanError, Version, get_interp_head_offset, get_tstate_current_offset};
use std::alloc::{AllocError, Global};
use std::test::Fail;

fn version(
    alloc: Global,
    (major, minor, patch): (u64, u64, u64),
    flags: &str,
    metadata: Option<&str>,
) -> Result<Version, AllocError> {
    Ok(Version {
        major,
        minor,
        patch,
        release_flags: Text::of(alloc, flags)?,
        build_metadata: match metadata {
            Some(text) => Some(Text::of(alloc, text)?),
            None => None,
        },
    })
}

/// A text, the numbers, the flags and the metadata of the version that it spells.
type Case = (
    &'static str,
    (u64, u64, u64),
    &'static str,
    Option<&'static str>,
);

static SPELLED: [Case; 14] = [
    (
        "Python 3.10.0rc1 (tags/v3.10.0rc1, Aug 28 2021, 18:25:40)",
        (3, 10, 0),
        "rc1",
        None,
    ),
    (
        "2.7.15+ (default, Oct  2 2018, 22:12:08)",
        (2, 7, 15),
        "",
        Some(""),
    ),
    (
        "2.7.10+5-4.abcd (default)",
        (2, 7, 10),
        "",
        Some("5-4.abcd"),
    ),
    // What stands before it doesn't matter.
    ("13.7.1 x", (3, 7, 1), "", None),
    ("23.7.1 x", (3, 7, 1), "", None),
    ("3.3.3.3.3.09 x", (3, 3, 9), "", None),
    // The leftmost counts.
    ("3.8.2 a3.9.1 b", (3, 8, 2), "", None),
    ("3.9.1 \n3.9.2 é", (3, 9, 2), "", None),
    ("3.9.1+ \n3.9.2+0 €", (3, 9, 2), "", Some("0")),
    // Numbers and flags at their borders, and a version at the very end.
    ("\0\03.14.99 z", (3, 14, 99), "", None),
    ("3.3.0a1 z", (3, 3, 0), "a1", None),
    ("3.7.10b22 z", (3, 7, 10), "b22", None),
    (
        "3.12.0c2+x.y-z.0 \u{1f40d}",
        (3, 12, 0),
        "c2",
        Some("x.y-z.0"),
    ),
    ("3.12.0rc12+- z", (3, 12, 0), "rc12", Some("-")),
];

#[test]
fn the_leftmost_spelling_is_found(rt: HostRuntime) -> Result<(), Fail> {
    let alloc = rt.alloc();
    for (text, numbers, flags, metadata) in &SPELLED {
        let wanted = version(alloc, *numbers, flags, *metadata)?;
        let found = Version::scan_bytes(alloc, text.as_bytes());
        assert!(rt; found == Ok(wanted), "{text}");
    }
    Ok(())
}

static NO_SPELLINGS: [&[u8]; 29] = [
    b"",
    b"3.7.10fooboo ",
    b"3.7 10 ",
    b"1.7.0rc1 (v)",
    b"4.7.1 x",
    // Minors that are none, one with a zero in front, and patches.
    b"3.2.0 x",
    b"3.15.0 x",
    b"3.20.0 x",
    b"3.03.1 x",
    b"3.9. x",
    b"3.9.123 x",
    // Flags that are none.
    b"3.9.1rc x",
    b"3.9.1r1 x",
    b"3.9.1d1 x",
    b"3.9.1rc123 x",
    b"3.9.1a1b1 x",
    b"3.9.1a 1",
    // Metadata that is none.
    b"3.9.1+. x",
    b"3.9.1+.a x",
    b"3.9.1+a. x",
    b"3.9.1+a..b x",
    b"3.9.1+A x",
    b"3.9.1+a+b x",
    b"3.9.1+a_b x",
    // Ends that are none: no space, a newline, and what is no character.
    b"3.9.1",
    b"3.9.1\tx",
    b"3.9.1 \n",
    b"3.9.1 \xff",
    b"3.9.1 \xed\xa0\x80",
];

#[test]
fn what_spells_none_is_not_found(rt: HostRuntime) -> Result<(), Fail> {
    let alloc = rt.alloc();
    for bytes in &NO_SPELLINGS {
        let found = Version::scan_bytes(alloc, bytes);
        assert!(rt; found == Err(ScanError::NotFound), "{bytes:?}");
    }
    Ok(())
}

/// A version's numbers, its metadata, the offset of the head, and those of the current thread on x86-64
/// and on aarch64.
type Row = (
    (u64, u64, u64),
    Option<&'static str>,
    u64,
    Option<u64>,
    Option<u64>,
);

static OFFSETS: [Row; 19] = [
    ((3, 6, 15), None, 24, None, None),
    ((3, 7, 0), None, 24, Some(1392), Some(1408)),
    ((3, 7, 3), None, 24, Some(1392), Some(1408)),
    ((3, 7, 4), None, 24, Some(1480), Some(1496)),
    ((3, 7, 99), None, 24, Some(1480), Some(1496)),
    ((3, 8, 0), None, 32, Some(1368), Some(1384)),
    ((3, 8, 5), Some("cinder"), 32, Some(1384), Some(1384)),
    ((3, 8, 5), Some("cinder2"), 32, Some(1368), Some(1384)),
    ((3, 9, 0), None, 32, Some(568), Some(584)),
    ((3, 9, 0), Some("cinder"), 32, Some(568), Some(584)),
    ((3, 10, 13), None, 32, Some(568), Some(584)),
    ((3, 11, 0), None, 40, Some(576), Some(592)),
    ((3, 11, 7), None, 40, Some(576), Some(592)),
    ((3, 12, 0), None, 40, None, None),
    ((3, 13, 0), None, 24, None, None),
    ((2, 7, 18), None, 24, None, None),
    ((2, 9, 0), None, 24, None, None),
    ((4, 8, 0), None, 24, None, None),
    ((4, 11, 0), None, 24, None, None),
];

#[test]
fn both_tables_have_their_borders(rt: HostRuntime) -> Result<(), Fail> {
    let alloc = rt.alloc();
    for (numbers, metadata, head, x86_64, aarch64) in &OFFSETS {
        let version = version(alloc, *numbers, "", *metadata)?;
        assert!(rt; get_interp_head_offset(&version) == *head);
        assert!(rt; get_tstate_current_offset(Machine::X86_64, &version) == *x86_64);
        assert!(rt; get_tstate_current_offset(Machine::Aarch64, &version) == *aarch64);
        assert!(rt; get_tstate_current_offset(Machine::Other, &version).is_none());
    }
    Ok(())
}
