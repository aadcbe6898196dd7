//! The frames of a thread, merged with native addresses.
ghost use Rattle.std.specs.Prelude.{◌≡◌, ◌⊎◌, List, Result, IsErrOf, true};
ghost use Rattle.std.specs.List.{list_any};
ghost use Rattle.normalize_core.specs.Order.{in_order};
ghost use Rattle.normalize_core.specs.Targets.{overflows};
ghost use Rattle.py_stacks.specs.Frames.{Call, calls_of_result};
ghost use Rattle.native_merge.specs.ImageSymbols.{files_mapped};
ghost use Rattle.native_merge.specs.Merges.{is_python};
ghost use Rattle.native_merge.specs.PythonFrames.{calls};
ghost use Rattle.core_merge.specs.ImageMerges.{ImageMergeSays};
ghost use Rattle.core_merge.specs.CoreMerges.{CoreMergeIs};
ghost use Rattle.core_merge.specs.declared.error.CoreMergeError.{CoreMergeError as Refusal};

use crate::CoreMergeError;
use crate::addresses::addresses_in;
use crate::entries::core_entries;
use image_memory::{CoreDump, Images};
use maps_text::MapsEntry;
use native_merge::{ImageSymbolicator, MergeError, NativeStack, NoSources};
use normalize_core::passes_end;
use py_process::BinaryInfo;
use py_stacks::Frame;
use std::alloc::Global;

/// Whether the place of some address in its file passes 2^64 - 1.
fn any_passes_end(entries: &[MapsEntry], addrs: &[u64]) -> bool
    requires { in_order entries.now ≡ true }
    ensures { result ≡ list_any (overflows entries.now) addrs.now }
{
    addrs.iter().any(|addr| passes_end(entries, *addr))
}

/// The frames, merged with these addresses by what images show of them.
fn merge_images(
    alloc: Global,
    entries: &[MapsEntry],
    images: &Images,
    python: Option<BinaryInfo>,
    libpython: Option<BinaryInfo>,
    frames: &[Frame],
    addrs: &[u64],
) -> Result<Vec<Frame>, CoreMergeError>
    ensures { IsErrOf result CoreMergeError.OutOfMemory
        ⊎ ImageMergeSays (files_mapped entries.now images.now) (is_python python libpython) (calls frames.now) addrs.now
        (calls_of_result result) }
{
    let symbols = ImageSymbolicator::new(alloc, entries, images);
    let mut stack = NativeStack::new(alloc, python, libpython, symbols, NoSources)?;
    match stack.merge_native_stack(frames, addrs) {
        Ok(merged) => Ok(merged),
        Err(MergeError::Mismatch { steps, frames }) => {
            Err(CoreMergeError::Mismatch { steps, frames })
        }
        Err(MergeError::OutOfMemory) => Err(CoreMergeError::OutOfMemory),
    }
}

/// See `merge_thread`.
fn merged(
    alloc: Global,
    core: &CoreDump,
    images: &Images,
    python: Option<BinaryInfo>,
    libpython: Option<BinaryInfo>,
    frames: &[Frame],
    addresses: &[u8],
) -> Result<Vec<Frame>, CoreMergeError>
    ensures { IsErrOf result CoreMergeError.OutOfMemory
        ⊎ CoreMergeIs core.now images.now (is_python python libpython) (calls frames.now) addresses.now
        (calls_of_result result) }
{
    let addrs = addresses_in(alloc, addresses)?;
    let entries = core_entries(alloc, core)?;
    if any_passes_end(&entries, &addrs) {
        return Err(CoreMergeError::OffsetOverflow);
    }
    merge_images(alloc, &entries, images, python, libpython, frames, &addrs)
}

/// The frames of a thread of a core, the newest first, merged with its native addresses, which come as a text
/// (`addresses_in`): by the maps of the core (`core_entries`) and the images of their files, and without source files
/// (`native_merge::NativeStack`, `ImageSymbolicator`, `NoSources`). `python` and `libpython` are Python's two
/// binaries, where they say something.
///
/// The error is the first of these: `BadLine`; `BadOffset`; `MapsOverlap`; `OffsetOverflow`, where the place of one of
/// the addresses in its file passes 2^64 - 1; `Mismatch`. `OutOfMemory` may come in place of any other answer.
pub fn merge_thread(
    alloc: Global,
    core: &CoreDump,
    images: &Images,
    python: Option<BinaryInfo>,
    libpython: Option<BinaryInfo>,
    frames: &[Frame],
    addresses: &[u8],
) -> Result<Vec<Frame>, CoreMergeError>
    ensures right { IsErrOf result CoreMergeError.OutOfMemory
        ⊎ CoreMergeIs core.now images.now (is_python python libpython) (calls frames.now) addresses.now
        (calls_of_result result) }
    // what is right is the answer, out of memory aside
    ensures only { (answer : Result (List Call) Refusal)
        → CoreMergeIs core.now images.now (is_python python libpython) (calls frames.now) addresses.now answer
        → IsErrOf result CoreMergeError.OutOfMemory ⊎ (answer ≡ calls_of_result result) }
{
    merged(alloc, core, images, python, libpython, frames, addresses)
}
