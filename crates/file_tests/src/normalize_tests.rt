//! Entries, images and addresses written out by hand: each call once, and an answer of each kind.
use NormalizeError::{AddrsUnsorted, EntriesUnsorted, NoEntries, OffsetOverflow};
use elf64_core::Name;
use image_memory::{Images, Mmap};
use maps_text::{EntryPath, FilteredEntries, MapsEntry, PathName, Perm, parse_file};
use normalize_core::{
    FileOffset, NormalizeError, NormalizeOpts, Normalizer, Reason, UserMeta, UserOutput,
    file_offset, in_order,
};
use std::alloc::{AllocError, Global};
use std::test::Fail;

/// The entries of lines that matter for addresses.
fn entries_of(alloc: Global, lines: &[u8]) -> Result<Vec<MapsEntry>, Fail> {
    let mut entries = Vec::new(alloc);
    for entry in FilteredEntries::new(parse_file(alloc, lines, 7)) {
        entries.push(entry?)?;
    }
    Ok(entries)
}

/// A meta: a path and its build id, or why there is no file.
fn push_meta(text: &mut String, meta: &UserMeta) -> Result<(), AllocError> {
    match meta {
        UserMeta::Elf(elf) => {
            let alloc = *text.allocator();
            text.push_str(elf.path.lossy(alloc)?.as_str())?;
            if let Some(id) = &elf.build_id {
                text.push_str(" id ")?;
                text.push_str(id.lossy(alloc)?.as_str())?;
            }
            Ok(())
        }
        UserMeta::Unknown(unknown) => text.push_str(match unknown.reason {
            Reason::Unmapped => "unmapped",
            Reason::MissingComponent => "missing component",
            Reason::Unsupported => "unsupported",
        }),
    }
}

/// The outputs, and then the metas.
fn shown(alloc: Global, output: &UserOutput) -> Result<String, AllocError> {
    let mut text = String::new(alloc);
    for (value, number) in &output.outputs {
        write!(text, "{value:x}@{number} ")?;
    }
    for meta in &output.meta {
        text.push_str("| ")?;
        push_meta(&mut text, meta)?;
        text.push_str(" ")?;
    }
    Ok(text)
}

/// Lines of a process, the third of which may only be written.
const CAT: &[u8] = b"55d3195b7000-55d3195b9000 r--p 00000000 00:12 2015701 /bin/cat
55d3195b9000-55d3195be000 r-xp 00002000 00:12 2015701 /bin/cat
7fd5ba1fe000-7fd5ba200000 -w-p 001c7000 00:12 2088876 /lib64/libc.so.6
7fd5ba200000-7fd5ba208000 rw-p 00000000 00:00 0
7ffe103fa000-7ffe103fc000 r-xp 00000000 00:00 0 [vdso]";

/// An image whose one section is a note of type 3 with the descriptor `ID`: its header, the note, the section's header.
const IMAGE: &[u8] =
    b"\x7fELF\x02\x01\0\0\0\0\0\0\0\0\0\0\0\0\0\0\0\0\0\0\0\0\0\0\0\0\0\0\0\0\0\0\0\0\0\0\
    T\0\0\0\0\0\0\0\0\0\0\0\0\0\0\0\0\0@\0\x01\0\0\0\
    \x04\0\0\0\x02\0\0\0\x03\0\0\0GNU\0ID\0\0\
    \0\0\0\0\x07\0\0\0\0\0\0\0\0\0\0\0\0\0\0\0\0\0\0\0\
    @\0\0\0\0\0\0\0\x14\0\0\0\0\0\0\0\0\0\0\0\0\0\0\0\0\0\0\0\0\0\0\0\0\0\0\0\0\0\0\0";

fn images(alloc: Global) -> Result<Images, Fail> {
    let image = Mmap::of(alloc, IMAGE.to_vec(alloc)?)?;
    let mut images = Images::new(alloc);
    images.push(Name::of(alloc, b"/bin/cat")?, image)?;
    Ok(images)
}

const ADDRESSES: [u64; 5] = [
    0x7fd5ba200000,
    0x7fd5ba1fe000,
    0x55d3195b7010,
    0x55d3195b9004,
    0x7ffe103fa000,
];

/// What these addresses of the process come to.
fn normalized(alloc: Global) -> Result<UserOutput, Fail> {
    let (entries, images) = (entries_of(alloc, CAT)?, images(alloc)?);
    let normalizer = Normalizer::new();
    Ok(normalizer.normalize_user_addrs(alloc, &entries, &images, &ADDRESSES)?)
}

#[test]
fn metas_of_a_process(rt: HostRuntime) -> Result<(), Fail> {
    let output = normalized(rt.alloc())?;
    let first = output.meta.first();
    assert!(rt; first.is_some_and(|meta| meta.as_elf().is_some()));
    let second = output.meta.get(1);
    assert!(rt; second.is_some_and(|meta| meta.as_unknown().is_some()));
    Ok(())
}

/// One entry of a file.
fn entry(
    alloc: Global,
    start: u64,
    end: u64,
    offset: u64,
    path: &[u8],
) -> Result<MapsEntry, AllocError> {
    Ok(MapsEntry {
        range: start..end,
        perm: Perm::R,
        offset,
        path_name: Some(PathName::Path(EntryPath {
            maps_file: Name::of(alloc, b"/ranges")?,
            symbolic_path: Name::of(alloc, path)?,
        })),
        build_id: None,
    })
}

/// Addresses of entries, and what they come to.
struct Row {
    /// Start, end and offset of each.
    entries: &'static [(u64, u64, u64)],
    sorted_addrs: bool,
    map_files: bool,
    addrs: &'static [u64],
    want: Result<&'static str, NormalizeError>,
}

const TOP: u64 = u64::MAX;

const ROWS: [Row; 7] = [
    Row {
        entries: &[(0x1000, 0x2000, TOP)],
        sorted_addrs: false,
        map_files: false,
        addrs: &[0x1000],
        want: Ok("ffffffffffffffff@0 | /a "),
    },
    Row {
        entries: &[(0x1000, 0x2000, TOP)],
        sorted_addrs: false,
        map_files: false,
        addrs: &[0x1001],
        want: Err(OffsetOverflow),
    },
    Row {
        entries: &[(0x1000, 0x2000, TOP)],
        sorted_addrs: true,
        map_files: false,
        addrs: &[0x1001, 1],
        want: Err(AddrsUnsorted),
    },
    Row {
        entries: &[(0x1000, 0x2000, 0), (0x1fff, 0x3000, 0)],
        sorted_addrs: true,
        map_files: false,
        addrs: &[2, 1],
        want: Err(EntriesUnsorted),
    },
    Row {
        entries: &[],
        sorted_addrs: true,
        map_files: false,
        addrs: &[2, 1],
        want: Err(NoEntries),
    },
    Row {
        entries: &[(0x1000, 0x2000, 8), (0x2000, 0x3000, 0)],
        sorted_addrs: false,
        map_files: false,
        addrs: &[0x2000, 0x1fff, 0x3000, 0x1000, 0xfff],
        want: Ok("0@2 1007@1 3000@0 8@1 fff@0 | unmapped | /a | /b "),
    },
    Row {
        entries: &[(0x1000, 0x2000, 8), (0x2000, 0x3000, 0)],
        sorted_addrs: true,
        map_files: true,
        addrs: &[0x1fff, 0x2000, 0x2000],
        want: Ok("1007@0 0@0 0@0 | /ranges "),
    },
];

/// The outputs of a row.
fn answered(alloc: Global, row: &Row) -> Result<Result<String, NormalizeError>, Fail> {
    let mut entries = Vec::new(alloc);
    for ((start, end, offset), path) in row.entries.iter().zip([b"/a", b"/b"]) {
        entries.push(entry(alloc, *start, *end, *offset, path)?)?;
    }
    let opts = NormalizeOpts {
        sorted_addrs: row.sorted_addrs,
        map_files: row.map_files,
    };
    let images = Images::new(alloc);
    let builder = Normalizer::builder().enable_build_ids(false);
    let normalizer = builder.enable_build_id_caching(true).build();
    match normalizer.normalize_user_addrs_opts(alloc, &entries, &images, row.addrs, &opts) {
        Ok(output) => Ok(Ok(shown(alloc, &output)?)),
        Err(error) => Ok(Err(error)),
    }
}

fn is_wanted(
    answer: &Result<String, NormalizeError>,
    want: &Result<&'static str, NormalizeError>,
) -> bool {
    match (answer, want) {
        (Ok(text), Ok(want)) => text.as_str() == *want,
        (Err(error), Err(want)) => error == want,
        (Ok(_), Err(_)) | (Err(_), Ok(_)) => false,
    }
}

#[test]
fn rows(rt: HostRuntime) -> Result<(), Fail> {
    for (number, row) in ROWS.iter().enumerate() {
        let answer = answered(rt.alloc(), row)?;
        assert!(rt; is_wanted(&answer, &row.want), "{number}");
    }
    Ok(())
}

/// Addresses of that process, and where in which file they lie.
const PLACES: [(u64, &str); 5] = [
    (0x7fd5ba200000, ""),
    (0x7fd5ba1fe000, ""),
    (0x55d3195b7010, "/bin/cat 10"),
    (0x55d3195b9004, "/bin/cat 2004"),
    (0x7ffe103fa000, ""),
];

/// The path of a place and its offset, or nothing.
fn written(alloc: Global, place: Option<FileOffset<'_>>) -> Result<String, Fail> {
    let mut text = String::new(alloc);
    if let Some(place) = place {
        let offset = place.offset;
        text.push_str(Name::of(alloc, place.path)?.lossy(alloc)?.as_str())?;
        write!(text, " {offset:x}")?;
    }
    Ok(text)
}

#[test]
fn places_in_files(rt: HostRuntime) -> Result<(), Fail> {
    let entries = entries_of(rt.alloc(), CAT)?;
    if !in_order(&entries) {
        return Err(Fail::from("not in order"));
    }
    for (addr, want) in &PLACES {
        let text = written(rt.alloc(), file_offset(&entries, *addr))?;
        assert!(rt; text.as_str() == *want, "{addr:#x}");
    }
    Ok(())
}
