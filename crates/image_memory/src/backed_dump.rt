//! The memory of a core and of the images that it mapped.
ghost use Rattle.std.specs.Prelude.{◌≡◌, ◌⊎◌, ◌↔◌, ◌+◌, ◌-◌, ◌<◌, ◌≤◌, ◌^◌, ℕ, All, IfOk, IfSome, None, Some, length};
ghost use Rattle.std.specs.Prelude.{map, slice_index, slice_range};
ghost use Rattle.image_memory.specs.Backed.{AreImageRanges, Backed, IsBacked, IsBackedMemory, IsInImage, IsKept};
ghost use Rattle.image_memory.specs.Backed.{files_of, range_by, range_in, regions_of};
ghost use Rattle.image_memory.specs.Cores.{IsCore};
ghost use Rattle.image_memory.specs.Images.{images_shown};
ghost use Rattle.image_memory.specs.Mmap.{shown_bytes};
ghost use Rattle.piece_table.specs.Files.{file_bytes};
ghost use Rattle.piece_table.specs.Overlays.{IsBoundedRange};
ghost use Rattle.piece_table.specs.Places.{IsRun};
ghost use Rattle.process_memory.specs.Layers.{plain};
ghost use Rattle.process_memory.specs.Memory.{byte_at};

use crate::file_table::FilePlace;
use crate::places::CORE;
use crate::{BackedView, CoreDump, CoreMapRange, Images, Mmap};
use elf64_core::{Segment, TableEntry};
use piece_table::{FileRange, PieceTable, Stored, piece_of, run_of};
use process_memory::{Pieces, ProcessMemory};
use std::alloc::{AllocError, Global};
use std::marker::Model;

/// A core dump, and the images that it mapped. Bytes that the core leaves out, as constant data that was never
/// written to, come from the images.
///
/// Contracts see it as the core's bytes, those that each image shows, and which addresses have which of these.
#[derive(Drop)]
pub struct BackedDump {
    core: CoreDump,
    images: Vec<Mmap>,
    /// The ranges of the core's own bytes, then those of the images'.
    table: PieceTable,
}

impl Model for BackedDump {
    ghost Value = { Backed };

    ghost view = { λ d. record {
      core = d.core;
      images = map shown_bytes d.images.items;
      ranges = d.table;
    } };

    ghost invariant = { λ d. IsKept (record {
      core = d.core;
      images = map shown_bytes d.images.items;
      ranges = d.table;
    }) };
}

/// Which bytes of an image of so many bytes a segment has that is mapped from a place on.
fn range_in(segment: &Segment, place: FilePlace, size: u64) -> TableEntry
    requires { segment.now.addr + segment.now.mem_size ≤ 2 ^ 64 - 1 }
    ensures is { result ≡ range_in segment.now place size }
    ensures inside { result.offset + result.len ≤ size }
    ensures fits { IsBoundedRange result }
{
    let offset = place.pages.saturating_mul(place.page_size).min(size);
    TableEntry {
        start: segment.addr,
        len: segment.mem_size.min(size - offset),
        offset,
    }
}

/// Which bytes of an image a map has; none where it is writable, or no image is handed in under its name.
fn image_range(images: &Images, map: &CoreMapRange, place: Option<FilePlace>) -> Option<FileRange>
    requires { map.now.segment.addr + map.now.segment.mem_size ≤ 2 ^ 64 - 1 }
    ensures is { result ≡ range_by images.now map.now.segment map.now.pathname place }
    ensures fits { IfSome result (IsInImage (images_shown images.now)) }
{
    if map.is_write() {
        return None;
    }
    let name = map.filename()?;
    let place = place?;
    let number = images.number_of(name.as_bytes())?;
    let size = images.size(number);
    Some(FileRange {
        range: range_in(&map.segment, place, size),
        file: number + 1,
    })
}

/// Which bytes of which images the maps of a core have, in order.
fn image_ranges(
    alloc: Global,
    core: &CoreDump,
    images: &Images,
) -> Result<Vec<FileRange>, AllocError>
    ensures are { IfOk result (λ ranges. AreImageRanges core.now images.now ranges.items) }
    ensures fit { IfOk result (λ ranges. All (IsInImage (images_shown images.now)) ranges.items) }
{
    let maps = core.maps();
    let places = core.places();
    let mut ranges = Vec::new(alloc);
    for (index, map) in maps.iter().enumerate() {
        if let Some(range) = image_range(images, map, places[index]) {
            ranges.push(range)?;
        }
    }
    Ok(ranges)
}

impl BackedDump {
    /// A core with the images that it mapped, whose bytes are shared. Of an image under a name that the core's
    /// file tables give to a segment without the write flag, the bytes from the named page on stand there, as
    /// many as the segment has in memory and the image has; the core's own bytes come first. That an image is
    /// the file that was mapped is trusted. The one error is out of memory, and the core is dropped then.
    pub fn new(alloc: Global, core: CoreDump, images: &Images) -> Result<BackedDump, AllocError>
        ensures kept { IfOk result (IsBacked core images.now) }
        ensures memory { IfOk result (λ dump. IsBackedMemory core images.now (regions_of dump)) }
    {
        let ranges = image_ranges(alloc, &core, images)?;
        let table = core.table().followed_by(alloc, &ranges)?;
        Ok(BackedDump {
            core,
            images: images.shares(alloc)?,
            table,
        })
    }

    /// The core alone, whose bytes are those of a core.
    pub fn core(&self) -> &CoreDump
        ensures same { result.now ≡ self.now.core }
        ensures core { IsCore self.now.core }
    {
        &self.core
    }

    /// The memory of the core and its images.
    pub fn view<'a>(&'a self) -> BackedView<'a>
        ensures { ⟦<BackedView<'a> as ProcessMemory>⟧.seen result ≡ plain (regions_of self.now) }
    {
        BackedView::new(self)
    }

    /// The bytes of the longest run of at most `len` addresses from `addr` on that are in memory and whose
    /// bytes follow each other in the core's file or in one image; none exactly where `len` is 0 or the byte at
    /// `addr` is not in memory. They are those of the memory that `view` means. It takes no memory.
    pub fn piece(&self, addr: u64, len: u64) -> Option<&[u8]>
        ensures none { result ≡ None ↔ (len ≡ 0) ⊎ (byte_at (regions_of self.now) addr ≡ None) }
        ensures run { IfSome result (λ piece. (file start : ℕ)
            × IsRun self.now.ranges addr len file start (length piece.now)
            × (piece.now ≡ slice_range (file_bytes (files_of self.now) file) start (start + length piece.now))) }
        ensures bytes { IfSome result (λ piece. (k : ℕ) → k < length piece.now
            → byte_at (regions_of self.now) (addr + k) ≡ Some (slice_index piece.now k)) }
    {
        piece_of(self, addr, len)
    }
}

impl Stored for BackedDump {
    ghost ranges = { λ dump. dump.ranges };

    ghost files = { files_of };

    fn table(&self) -> &PieceTable {
        &self.table
    }

    fn file(&self, file: usize) -> &[u8] {
        if file == CORE {
            self.core.file(CORE)
        } else {
            self.images[file - 1].as_slice()
        }
    }
}

impl Pieces for BackedDump {
    ghost regions = { regions_of };

    fn run(&self, addr: u64) -> Option<&[u8]> {
        run_of(self, addr)
    }
}
