//! The bytes of a file in memory, and views of them.
ghost use Rattle.std.specs.Prelude.{◌≡◌, ◌≤◌, ◌⊎◌, IsErrOf, SomeIff, Ok, length, max};
ghost use Rattle.elf64_core.specs.BuildIds.{FoundBuildId, FileHoldsBuildId};
ghost use Rattle.image_memory.specs.Mmap.{Mapped, IsInView, narrowed, shown_bytes, whole_view};

use elf64_core::{BuildId, ElfError, read_elf_build_id};
use std::alloc::{AllocError, Global};
use std::marker::Model;
use std::ops::Range;

/// A view of the bytes of a file. Views of one file share its bytes, which are never copied.
///
/// Contracts see it as those bytes and the two ends of the view. The bytes stay until the program ends: so
/// there is nothing to count, and no view that wants memory.
#[derive(Debug, Drop)]
pub struct Mmap {
    bytes: &'static [u8],
    start: u64,
    end: u64,
}

impl Model for Mmap {
    ghost Value = { Mapped };

    ghost view = { λ m. record { bytes = m.bytes.now; start = m.start; end = m.end } };

    ghost invariant = { λ m. m.end ≤ max 1 (length m.bytes.now) };
}

impl Mmap {
    /// The view of all of a file's bytes: it goes from 0 to their number, and to 1 where there are none.
    pub fn of(_alloc: Global, bytes: Vec<u8>) -> Result<Mmap, AllocError>
        ensures { result ≡ Ok (whole_view bytes.items) }
    {
        let bytes: &'static [u8] = bytes.leak();
        let end = (bytes.len() as u64).max(1);
        Ok(Mmap {
            bytes,
            start: 0,
            end,
        })
    }

    /// The bytes that the view shows: none where it is reversed, or there are no bytes.
    pub fn as_slice(&self) -> &[u8]
        ensures { result.now ≡ shown_bytes self.now }
    {
        self.bytes
            .get(self.start as usize..self.end as usize)
            .unwrap_or(&[])
    }

    /// The same view once more.
    pub(crate) fn share(&self) -> Mmap
        ensures { result ≡ self.now }
    {
        Mmap {
            bytes: self.bytes,
            start: self.start,
            end: self.end,
        }
    }

    /// The view of the same bytes that is narrowed by a range, counted from this view's start.
    ///
    /// None exactly where this view's start and an end of the range add up to more than 2^64 - 1, or the
    /// range ends past this view. A reversed range that fits gives a view that shows nothing.
    pub fn constrain(&self, range: Range<u64>) -> Option<Mmap>
        ensures { SomeIff result (IsInView self.now range.start range.end) (narrowed self.now range.start range.end) }
    {
        let start = self.start.checked_add(range.start)?;
        let end = self.start.checked_add(range.end)?;
        if end > self.end {
            return None;
        }
        Some(Mmap {
            bytes: self.bytes,
            start,
            end,
        })
    }
}

/// A copy of the build id of the bytes that a view shows: see `read_elf_build_id`.
pub fn read_elf_build_id_from_mmap(alloc: Global, mmap: &Mmap) -> Result<Option<BuildId>, ElfError>
    ensures right { IsErrOf result ElfError.OutOfMemory ⊎ FileHoldsBuildId (shown_bytes mmap.now) result }
    ensures only { (other : FoundBuildId) → FileHoldsBuildId (shown_bytes mmap.now) other
        → IsErrOf result ElfError.OutOfMemory ⊎ (other ≡ result) }
{
    read_elf_build_id(alloc, mmap.as_slice())
}
