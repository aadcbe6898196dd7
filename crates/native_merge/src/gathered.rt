//! What one address adds to merged frames.
ghost use Rattle.std.specs.Prelude.{◌≡◌, IfOk, IfErr, OnOk};
ghost use Rattle.std.specs.List.{flat_map};
ghost use Rattle.native_merge.specs.Gathered.{GathersMore};
ghost use Rattle.native_merge.specs.Merges.{HasRoom};
ghost use Rattle.native_merge.specs.NativesShown.{answer_items, items_met, items_shown};
ghost use Rattle.native_merge.specs.Sources.{Stay};
ghost use Rattle.native_merge.specs.SymbolCaches.{answer_listed};

use crate::function_kind::function_kind;
use crate::natives_shown::{fault_frame, is_dropped, shown_frame};
use crate::stack_steps::take_step;
use crate::{MergeError, NativeFrame, Sources, SymbolFault};
use native_pairs::FunctionKind;
use py_stacks::Frame;
use std::alloc::Global;

/// Adds a native frame, where it is shown.
fn show<F: Sources>(
    alloc: Global,
    sources: &mut F,
    frames: &[Frame],
    native: &NativeFrame,
    cursor: u64,
    made: &mut Vec<Frame>,
) -> Result<(), MergeError>
    ensures more { OnOk result (GathersMore (F.seen sources.old).exists frames.now (items_shown native.now)
        made.old.items cursor made.new.items cursor) }
    ensures refused { IfErr result (λ error. error ≡ MergeError.OutOfMemory) }
    ensures stay { Stay (F.seen sources.old) (F.seen sources.new) }
{
    if is_dropped(native) {
        return Ok(());
    }
    let frame = shown_frame(alloc, sources, native)?;
    made.push(frame)?;
    Ok(())
}

/// Adds what a native frame is, at an address of Python's and at any other. The answer is where the cursor then
/// stands.
fn add_native<F: Sources>(
    alloc: Global,
    sources: &mut F,
    frames: &[Frame],
    native: &NativeFrame,
    is_python: bool,
    cursor: u64,
    made: &mut Vec<Frame>,
) -> Result<u64, MergeError>
    ensures more { IfOk result (λ next. GathersMore (F.seen sources.old).exists frames.now
        (items_met is_python native.now) made.old.items cursor made.new.items next) }
    ensures refused { IfErr result (λ error. error ≡ MergeError.OutOfMemory) }
    ensures stay { Stay (F.seen sources.old) (F.seen sources.new) }
{
    if !is_python {
        show(alloc, sources, frames, native, cursor, made)?;
        return Ok(cursor);
    }
    match function_kind(&native.function) {
        FunctionKind::Step => {
            let next = take_step(alloc, frames, cursor, made)?;
            Ok(next)
        }
        FunctionKind::Native => {
            show(alloc, sources, frames, native, cursor, made)?;
            Ok(cursor)
        }
        FunctionKind::LeftOut => Ok(cursor),
    }
}

/// Adds what the frames of an address are.
fn add_natives<F: Sources>(
    alloc: Global,
    sources: &mut F,
    frames: &[Frame],
    natives: &[NativeFrame],
    is_python: bool,
    cursor: u64,
    made: &mut Vec<Frame>,
) -> Result<u64, MergeError>
    ensures more { IfOk result (λ next. GathersMore (F.seen sources.old).exists frames.now
        (flat_map (items_met is_python) natives.now) made.old.items cursor made.new.items next) }
    ensures refused { IfErr result (λ error. error ≡ MergeError.OutOfMemory) }
    ensures stay { Stay (F.seen sources.old) (F.seen sources.new) }
{
    let mut at = cursor;
    for native in natives {
        at = add_native(alloc, sources, frames, native, is_python, at, made)?;
    }
    Ok(at)
}

/// Adds what an answer for an address is. The answer is where the cursor then stands.
pub(crate) fn add_answer<F: Sources>(
    alloc: Global,
    sources: &mut F,
    frames: &[Frame],
    addr: u64,
    is_python: bool,
    answer: Result<Vec<NativeFrame>, SymbolFault>,
    cursor: u64,
    made: &mut Vec<Frame>,
) -> Result<u64, MergeError>
    ensures room { OnOk result (HasRoom (answer_listed answer)) }
    ensures more { IfOk result (λ next. GathersMore (F.seen sources.old).exists frames.now
        (answer_items is_python addr (answer_listed answer)) made.old.items cursor made.new.items next) }
    ensures refused { IfErr result (λ error. error ≡ MergeError.OutOfMemory) }
    ensures stay { Stay (F.seen sources.old) (F.seen sources.new) }
{
    match answer {
        Ok(natives) => {
            let next = add_natives(alloc, sources, frames, &natives, is_python, cursor, made)?;
            Ok(next)
        }
        Err(SymbolFault::OutOfMemory) => Err(MergeError::OutOfMemory),
        Err(_) => {
            let frame = fault_frame(alloc, addr)?;
            made.push(frame)?;
            Ok(cursor)
        }
    }
}
