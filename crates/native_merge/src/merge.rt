//! Native stacks, merged with Python frames.
ghost use Rattle.std.specs.Prelude.{◌≡◌, ◌⊎◌, ℕ, Bool, List, IsErrOf};
ghost use Rattle.native_merge.specs.Gathered.{Gathered};
ghost use Rattle.native_merge.specs.MergedStacks.{StackItem, merged};
ghost use Rattle.native_merge.specs.Merges.{AreAsked, IsMerged, ShowsMerged, calls_of_answer, is_mapped_at, is_python};
ghost use Rattle.native_merge.specs.NativesShown.{NativeItem};
ghost use Rattle.native_merge.specs.PythonFrames.{calls, ends_part};
ghost use Rattle.native_merge.specs.Sources.{Stay};
ghost use Rattle.native_merge.specs.Symbols.{SymbolsStay};

use crate::gathered::add_answer;
use crate::stack_steps::add_copies;
use crate::symbol_cache::{SymbolCache, ask};
use crate::{MergeError, Sources, Symbolicator};
use py_process::BinaryInfo;
use py_stacks::Frame;
use std::alloc::Global;

/// Whether a binary is mapped at an address.
fn is_mapped_at(binary: &Option<BinaryInfo>, addr: u64) -> bool
    ensures { result ≡ is_mapped_at addr binary.now }
{
    match binary {
        Some(binary) => binary.contains(addr),
        None => false,
    }
}

/// Whether one of Python's two binaries is mapped at an address.
fn is_python(python: &Option<BinaryInfo>, libpython: &Option<BinaryInfo>, addr: u64) -> bool
    ensures { result ≡ is_python python.now libpython.now addr }
{
    is_mapped_at(python, addr) || is_mapped_at(libpython, addr)
}

/// Ends the merge: appends all Python frames where there was no step, and refuses where the cursor has not come just
/// to their end, or one past it.
fn finish(
    alloc: Global,
    frames: &[Frame],
    cursor: u64,
    mut made: Vec<Frame>,
) -> Result<Vec<Frame>, MergeError>
    ensures { IsErrOf result MergeError.OutOfMemory ⊎ ((exists : List ℕ → Bool) (items : List (StackItem NativeItem))
        → Gathered exists frames.now items made.items cursor
        → ShowsMerged exists (merged ends_part (calls frames.now) items) (calls_of_answer result)) }
{
    let count = frames.len() as u64;
    if cursor == 0 {
        add_copies(alloc, frames, &mut made)?;
        return Ok(made);
    }
    if cursor == count || cursor == count + 1 {
        return Ok(made);
    }
    Err(MergeError::Mismatch {
        steps: cursor,
        frames: count,
    })
}

/// The frames of a thread, the newest first, merged with its native addresses, before the lines of Cython's files are
/// put in the place of those of their C files. See `NativeStack::merge_native_stack`.
pub(crate) fn merge<S: Symbolicator, F: Sources>(
    alloc: Global,
    symbols: &mut S,
    sources: &mut F,
    cache: &mut SymbolCache,
    python: &Option<BinaryInfo>,
    libpython: &Option<BinaryInfo>,
    frames: &[Frame],
    native_stack: &[u64],
) -> Result<Vec<Frame>, MergeError>
    ensures merges { IsErrOf result MergeError.OutOfMemory
        ⊎ IsMerged (S.seen symbols.old) (S.seen symbols.new) (F.seen sources.old).exists
        (is_python python.now libpython.now) frames.now native_stack.now cache.old cache.new (calls_of_answer result) }
    ensures asked { AreAsked (S.seen symbols.old) (is_python python.now libpython.now) cache.old native_stack.now
        cache.new }
    ensures symbols { SymbolsStay (S.seen symbols.old) (S.seen symbols.new) }
    ensures sources { Stay (F.seen sources.old) (F.seen sources.new) }
{
    let mut made = Vec::new(alloc);
    let mut cursor = 0;
    for addr in native_stack {
        let inside = is_python(python, libpython, *addr);
        let answer = ask(alloc, symbols, cache, *addr, !inside);
        cursor = add_answer(
            alloc, sources, frames, *addr, inside, answer, cursor, &mut made,
        )?;
    }
    finish(alloc, frames, cursor, made)
}
