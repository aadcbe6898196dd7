//! The build id that a file is reported with.
ghost use Rattle.std.specs.Prelude.{IfOk, option_copied};
ghost use Rattle.image_memory.specs.Mmap.{shown_bytes};
ghost use Rattle.normalize_core.specs.BuildIds.{FileHasId, IsBuildId, own_id};

use crate::query::Query;
use elf64_core::{BuildId, ElfError, Name};
use image_memory::{Mmap, read_elf_build_id_from_mmap};
use maps_text::MapsEntry;
use std::alloc::{AllocError, Global};

/// The build id in a file's bytes; none where they have none or are bad.
fn image_build_id(alloc: Global, image: &Mmap) -> Result<Option<BuildId>, AllocError>
    ensures { IfOk result (FileHasId (shown_bytes image.now)) }
{
    match read_elf_build_id_from_mmap(alloc, image) {
        Ok(id) => Ok(id),
        Err(ElfError::OutOfMemory) => Err(AllocError),
        Err(ElfError::NotElf64 | ElfError::BadHeader | ElfError::BadNote) => Ok(None),
    }
}

/// The build id of a file by the entry that it is met by, and its path: the entry's own, or else, where build
/// ids are on, that of the image under the path.
pub(crate) fn build_id(
    alloc: Global,
    query: &Query<'_>,
    entry: Option<&MapsEntry>,
    path: &[u8],
) -> Result<Option<BuildId>, AllocError>
    ensures { let own = own_id (option_copied entry.entry) in
        IfOk result (IsBuildId query.now.build_ids query.now.images path.now own) }
{
    if let Some(entry) = entry
        && let Some(own) = &entry.build_id
    {
        return Ok(Some(Name::of(alloc, own.as_bytes())?));
    }
    if !query.build_ids {
        return Ok(None);
    }
    match query.images.get(path) {
        Some(image) => image_build_id(alloc, image),
        None => Ok(None),
    }
}
