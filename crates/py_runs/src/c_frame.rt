//! The C frames of a thread of 3.11.
ghost use Rattle.std.specs.Prelude.{◌≡◌, ◌*◌, IfOk};
ghost use Rattle.process_memory.specs.Seen.{Reading};
ghost use Rattle.py_runs.specs.Members.{c_frame_at, c_frame_by, c_frames_from};

use crate::found::word_known;
use process_memory::ProcessMemory;
use std::alloc::{AllocError, Global};

/// A C frame: `_PyCFrame` of Include/cpython/pystate.h.
#[derive(Clone, Copy, Debug, PartialEq, Eq)]
pub struct CFrame {
    /// The address of its record.
    pub address: u64,
    /// The address of the frame that it names as current.
    pub current: u64,
}

/// The C frame at an address, and the address of the one before, if both are in memory. At most two reads.
fn read_c_frame<P: ProcessMemory>(
    process: &mut P,
    current: u32,
    previous: u32,
    at: u64,
) -> Result<Option<(CFrame, u64)>, AllocError>
    ensures { Reading 2 (P.seen process.old) (P.seen process.new)
        (λ m. IfOk result (λ frame. frame ≡ c_frame_at current previous m at)) }
{
    let named = word_known(process, at, current)?;
    let back = word_known(process, at, previous)?;
    Ok(c_frame_by(at, named, back))
}

/// A C frame, and the one before, if both are known.
fn c_frame_by(at: u64, named: Option<u64>, back: Option<u64>) -> Option<(CFrame, u64)>
    ensures { result ≡ c_frame_by at named back }
{
    match (named, back) {
        (Some(named), Some(back)) => Some((
            CFrame {
                address: at,
                current: named,
            },
            back,
        )),
        _ => None,
    }
}

/// At most so many C frames, from the one at an address on. At most two reads of each.
pub(crate) fn read_c_frames<P: ProcessMemory>(
    alloc: Global,
    process: &mut P,
    current: u32,
    previous: u32,
    most: u128,
    first: u64,
) -> Result<Vec<CFrame>, AllocError>
    ensures { Reading (2 * most) (P.seen process.old) (P.seen process.new)
        (λ m. IfOk result (λ frames. frames.items ≡ c_frames_from current previous m most first)) }
{
    let mut frames = Vec::new(alloc);
    let mut met = 0;
    let mut at = first;
    while at != 0 {
        if met == most {
            return Ok(frames);
        }
        let (frame, back) = match read_c_frame(process, current, previous, at)? {
            Some(found) => found,
            None => return Ok(frames),
        };
        frames.push(frame)?;
        met += 1;
        at = back;
    }
    Ok(frames)
}
