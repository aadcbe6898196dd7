//! The maps of a core as entries.
ghost use Rattle.std.specs.Prelude.{◌≡◌, ◌⊎◌, ◌+◌, ◌<◌, ◌^◌, [], IfOk, IsErrOf, SomeIff, unwrap_or};
ghost use Rattle.core_merge.specs.CoreEntries.{EntriesSay, SaysMade, entries_in, offset_of, unplaced};

use crate::CoreMergeError;
use elf64_core::Name;
use image_memory::{CoreDump, CoreMapRange, FilePlace};
use maps_text::{MapsEntry, PathName, Perm, filter_relevant};
use normalize_core::in_order;
use std::alloc::{AllocError, Global};

/// Where a map begins in its file, in bytes; 0 where it has no file, and none where that passes 2^64 - 1.
fn offset_of(place: Option<FilePlace>) -> Option<u64>
    ensures { SomeIff result (offset_of place < 2 ^ 64) (offset_of place) }
{
    match place {
        Some(place) => place.pages.checked_mul(place.page_size),
        None => Some(0),
    }
}

/// The path of a map's file; empty where it has none.
fn path_of(map: &CoreMapRange) -> &[u8]
    ensures { result.now ≡ unwrap_or map.now.pathname [] }
{
    match map.filename() {
        Some(name) => name.as_bytes(),
        None => &[],
    }
}

/// A map as an entry, as if it began at the start of its file.
fn unplaced(alloc: Global, map: &CoreMapRange) -> Result<MapsEntry, AllocError>
    requires ends { map.now.segment.addr + map.now.segment.mem_size < 2 ^ 64 }
    ensures { IfOk result (λ entry. entry ≡ unplaced map.now) }
{
    let range = map.start()..map.start() + map.size();
    let path_name = PathName::of(alloc, 0, &range, path_of(map))?;
    Ok(MapsEntry {
        range,
        perm: Perm((map.segment.flags % 8) as u8),
        offset: 0,
        path_name,
        build_id: None,
    })
}

/// The relevant maps of a core as entries, in the order of the core.
fn made_entries(alloc: Global, core: &CoreDump) -> Result<Vec<MapsEntry>, CoreMergeError>
    ensures { IsErrOf result CoreMergeError.OutOfMemory ⊎ SaysMade core.now (entries_in result) }
{
    let mut entries = Vec::new(alloc);
    for (number, map) in core.maps().iter().enumerate() {
        let mut entry = unplaced(alloc, map)?;
        if !filter_relevant(&entry) {
            continue;
        }
        let Ok(number) = u32::try_from(number) else {
            return Err(CoreMergeError::OutOfMemory);
        };
        let Some(offset) = offset_of(core.file_place(number)) else {
            return Err(CoreMergeError::BadOffset);
        };
        entry.offset = offset;
        entries.push(entry)?;
    }
    Ok(entries)
}

/// The maps of a core as entries, those that `maps_text::filter_relevant` refuses left out: each with the range of its
/// load segment, the permissions of its flags, and the name and the place in its file that the core's file tables give
/// it; a file by the process and the range is that of the process 0. They stand in the order of their starts, and of
/// their ends where starts are the same.
///
/// The error is the first of these: `BadOffset`, where such a map's place in its file, pages times the size of a page,
/// passes 2^64 - 1; `MapsOverlap`, where two of them overlap. `OutOfMemory` may come in place of any other answer; more
/// than 2^32 maps, which no core has, count as that.
pub fn core_entries(alloc: Global, core: &CoreDump) -> Result<Vec<MapsEntry>, CoreMergeError>
    ensures right { IsErrOf result CoreMergeError.OutOfMemory ⊎ EntriesSay core.now (entries_in result) }
{
    let mut entries = made_entries(alloc, core)?;
    entries.sort_by_key(|entry| (entry.range.start, entry.range.end))?;
    if !in_order(&entries) {
        return Err(CoreMergeError::MapsOverlap);
    }
    Ok(entries)
}
