//! The frames of a thread: its whole chain of callers, less the members that are skipped.
ghost use Rattle.std.specs.Prelude.{◌≡◌, IfOk, OnOk};
ghost use Rattle.py_fields.specs.Sound.{IsSound};
ghost use Rattle.py_builtins.specs.Consulted.{ConsultsBy};
ghost use Rattle.py_stacks.specs.StackError.{stack_fault};
ghost use Rattle.py_stacks.specs.Frames.{calls_of_result, frames_at, frames_cost};
ghost use Rattle.py_stacks.specs.Gathering.{Adds, mark_last};

use crate::asked::Asked;
use crate::members::read_member;
use crate::records::Records;
use crate::{Frame, StackError};
use process_memory::ProcessMemory;
use py_fields::Layout;
use shared_texts::SharedTexts;
use std::alloc::{AllocError, Global};

/// How many members of a thread's chain are met at most.
const MEMBER_LIMIT: usize = 16384;

/// Marks the last frame, if there is one: its caller is not shown.
fn mark_last(frames: &mut Vec<Frame>)
    ensures { frames.new.items ≡ mark_last frames.old.items }
{
    let count = frames.len();
    if count > 0 {
        frames[count - 1].is_shim_entry = true;
    }
}

/// The same frame, whose two texts share their bytes with those of the same characters that were met before. The one
/// error is out of memory.
pub fn share_texts(texts: &mut SharedTexts, frame: Frame) -> Result<Frame, AllocError>
    ensures { IfOk result (λ shared. shared ≡ frame) }
{
    let Frame {
        name,
        filename,
        module,
        short_filename,
        line,
        locals,
        is_entry,
        is_shim_entry,
    } = frame;
    let name = texts.share(name)?;
    let filename = texts.share(filename)?;
    Ok(Frame {
        name,
        filename,
        module,
        short_filename,
        line,
        locals,
        is_entry,
        is_shim_entry,
    })
}

/// Adds what a member shows as; one that is skipped marks the frame before it.
fn add_part(
    texts: &mut SharedTexts,
    frames: &mut Vec<Frame>,
    part: Option<Frame>,
) -> Result<(), AllocError>
    ensures { OnOk result (Adds frames.old.items part frames.new.items) }
{
    match part {
        None => {
            mark_last(frames);
            Ok(())
        }
        Some(frame) => {
            frames.push(share_texts(texts, frame)?)?;
            Ok(())
        }
    }
}

/// The frames of a thread from its first one on, the newest first.
///
/// They are the members of the whole chain of callers, to null, less those that are skipped. Each frame is
/// marked where the next member is skipped or there is none. Its texts share their bytes with those of the same
/// characters before it. The error is the first of these, in order: for
/// each member those of `read_member`; `ChainLimit` where 16384 members were met and the next is not 0. Else
/// it is out of memory. At most 6 reads for each member that is met, and those of its detail.
pub(crate) fn read_frames<P: ProcessMemory>(
    alloc: Global,
    process: &mut P,
    layout: &Layout,
    asked: Asked,
    first: u64,
    records: &mut Records,
    texts: &mut SharedTexts,
) -> Result<Vec<Frame>, StackError>
    requires sound { IsSound layout.now }
    ensures { ConsultsBy layout.now stack_fault
        (λ m. frames_cost asked layout.now m first) (P.seen process.old) (P.seen process.new)
        (λ m. frames_at asked layout.now m first) (calls_of_result result) }
{
    let mut frames = Vec::new(alloc);
    let mut met = 0;
    let mut at = first;
    while at != 0 {
        if met == MEMBER_LIMIT {
            return Err(StackError::ChainLimit);
        }
        let (back, part) = read_member(alloc, process, layout, asked, frames.len(), at, records)?;
        add_part(texts, &mut frames, part)?;
        met += 1;
        at = back;
    }
    mark_last(&mut frames);
    Ok(frames)
}
