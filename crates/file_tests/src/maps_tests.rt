//! Lines written out by hand.
use MapsError::{BadEnd, BadMode, BadOffset, BadStart, NoDevice, NoMode, NoOffset, NoRange};
use maps_text::{FilteredEntries, MapsEntry, MapsError, PathName, Perm, parse_file};
use std::alloc::{AllocError, Global};
use std::test::Fail;

/// Lines of a process of its own, the third of which may only be written.
const CAT: &[u8] = b"55d3195b7000-55d3195b9000 r--p 00000000 00:12 2015701 /bin/cat
55d3195b9000-55d3195be000 r-xp 00002000 00:12 2015701 /bin/cat
7fd5ba1fe000-7fd5ba200000 -w-p 001c7000 00:12 2088876 /lib64/libc.so.6
7fd5ba200000-7fd5ba208000 rw-p 00000000 00:00 0
7ffe103fa000-7ffe103fc000 r-xp 00000000 00:00 0 [vdso]";

/// What is shown of an entry: its range, what it allows, its offset, its path.
fn shown(alloc: Global, entry: &MapsEntry) -> Result<String, AllocError> {
    let start = entry.range.start;
    let end = entry.range.end;
    let perm = entry.perm;
    let offset = entry.offset;
    let mut text = format!(in alloc; "{start:x} {end:x} {perm} {offset:x}")?;
    match &entry.path_name {
        Some(PathName::Path(path)) => {
            text.push_str(" file ")?;
            text.push_str(path.actual_path().lossy(alloc)?.as_str())?;
            text.push_str(" ")?;
            text.push_str(path.represented_path().lossy(alloc)?.as_str())?;
        }
        Some(PathName::Component(name)) => {
            text.push_str(" component ")?;
            text.push_str(name.as_str())?;
        }
        None => {}
    }
    Ok(text)
}

/// The same of an answer, where it has an entry.
fn shown_answer(
    alloc: Global,
    answer: Option<Result<MapsEntry, MapsError>>,
) -> Result<String, AllocError> {
    match answer {
        Some(Ok(entry)) => shown(alloc, entry.as_ref()),
        _ => Ok(String::new(alloc)),
    }
}

/// What the lines of a process show.
const ENTRIES: [&str; 5] = [
    "55d3195b7000 55d3195b9000 r-- 0 file /proc/7/map_files/55d3195b7000-55d3195b9000 /bin/cat",
    "55d3195b9000 55d3195be000 r-x 2000 file /proc/7/map_files/55d3195b9000-55d3195be000 /bin/cat",
    "7fd5ba1fe000 7fd5ba200000 -w- 1c7000 file /proc/7/map_files/7fd5ba1fe000-7fd5ba200000 /lib64/libc.so.6",
    "7fd5ba200000 7fd5ba208000 rw- 0",
    "7ffe103fa000 7ffe103fc000 r-x 0 component [vdso]",
];

#[test]
fn lines_of_a_process_that_are_kept(rt: HostRuntime) -> Result<(), Fail> {
    let mut kept = FilteredEntries::new(parse_file(rt.alloc(), CAT, 7));
    for want in &[ENTRIES[0], ENTRIES[1], ENTRIES[3], ENTRIES[4]] {
        let entry = shown_answer(rt.alloc(), kept.next())?;
        assert!(rt; entry.as_str() == *want, "{want}");
    }
    assert!(rt; kept.next().is_none());
    Ok(())
}

/// Lines, and why they are refused; of two causes the earlier one comes.
const REFUSED: [(&[u8], MapsError); 23] = [
    (b"\n", NoRange),
    (b"12-34", NoRange),
    (b"1234 r--p 0 0:0 0", NoRange),
    (b"zz", NoRange),
    (b"1g-2 r--p 0 0:0 0", BadStart),
    (b"-2 r--p 0 0:0 0", BadStart),
    (b"+1-2 r--p 0 0:0 0", BadStart),
    (b"g-h r--p 0 0:0 0", BadStart),
    (b"00000000000000001-2 r--p 0 0:0 0", BadStart),
    (b"1-2g r--p 0 0:0 0", BadEnd),
    (b"1- r--p 0 0:0 0", BadEnd),
    (b"1-2-3 r--p 0 0:0 0", BadEnd),
    (b"1-g rwxp", BadEnd),
    (b"1-2 rwxp", NoMode),
    (b"1-2 r", NoMode),
    (b"1-2 rw 0 0:0 0", BadMode),
    (b"1-2  r--p 0 0:0 0", BadMode),
    (b"1-2 r zz", BadMode),
    (b"1-2 r--p 0", NoOffset),
    (b"1-2 r--p zz", NoOffset),
    (b"1-2 r--p 0g 0:0 0", BadOffset),
    (b"7fa7bb75a000-7fa7bb75c000 r--p 000zz000 00:20", BadOffset),
    (b"1-2 r--p 0 00:20\n", NoDevice),
];

/// Why the first line of a text is refused.
fn first_error(alloc: Global, text: &[u8]) -> Option<MapsError> {
    let mut entries = parse_file(alloc, text, 7);
    entries.next()?.err()
}

/// Why the first line that is kept of a text is refused.
fn first_kept_error(alloc: Global, text: &[u8]) -> Option<MapsError> {
    let mut kept = FilteredEntries::new(parse_file(alloc, text, 7));
    kept.next()?.err()
}

/// A line between two that are read, of which the first isn't kept.
fn among_others(alloc: Global, line: &[u8]) -> Result<Vec<u8>, AllocError> {
    let mut text = Vec::from_slice(alloc, b"1-2 --- 0 0 0\n")?;
    text.extend_from_slice(line)?;
    text.extend_from_slice(b"\n1-2 r-- 0 0 0\n")?;
    Ok(text)
}

#[test]
fn lines_that_are_refused(rt: HostRuntime) -> Result<(), Fail> {
    for (line, want) in &REFUSED {
        assert!(rt; first_error(rt.alloc(), line) == Some(*want));
        let text = among_others(rt.alloc(), line)?;
        assert!(rt; first_kept_error(rt.alloc(), text.as_slice()) == Some(*want));
    }
    Ok(())
}

#[test]
fn permissions(rt: HostRuntime) -> Result<(), Fail> {
    let mut perm = Perm::default();
    assert!(rt; perm.to_string(rt.alloc())?.as_str() == "---");
    perm |= Perm::R | Perm::X;
    assert!(rt; perm.to_string(rt.alloc())?.as_str() == "r-x");
    assert!(rt; perm & Perm::W == Perm::default());
    perm &= Perm::X | Perm::W;
    assert!(rt; perm.to_string(rt.alloc())?.as_str() == "--x");
    Ok(())
}

/// Paths of a range of a process of number 0, and what is shown of their names.
const NAMES: [(&[u8], &str); 4] = [
    (b"", "1000 2000 --- 0"),
    (
        b"/a (deleted)",
        "1000 2000 --- 0 file /proc/0/map_files/1000-2000 /a",
    ),
    (b"a (deleted)", "1000 2000 --- 0 component a (deleted)"),
    (b" /a", "1000 2000 --- 0 component  /a"),
];

fn entry_of(alloc: Global, path: &[u8]) -> Result<MapsEntry, AllocError> {
    let range = 0x1000..0x2000;
    let path_name = PathName::of(alloc, 0, &range, path)?;
    Ok(MapsEntry {
        range,
        perm: Perm::default(),
        offset: 0,
        path_name,
        build_id: None,
    })
}

#[test]
fn names_of_paths(rt: HostRuntime) -> Result<(), Fail> {
    for (path, want) in &NAMES {
        let entry = entry_of(rt.alloc(), path)?;
        assert!(rt; shown(rt.alloc(), &entry)?.as_str() == *want, "{want}");
    }
    Ok(())
}
