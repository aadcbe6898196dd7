//! The members of a thread's chain of frames, one by one.
ghost use Rattle.std.specs.Prelude.{◌≡◌, ◌+◌, ◌*◌, ◌/◌, ◌≤◌, length, ℕ, Some};
ghost use Rattle.py_fields.specs.Sound.{IsSound};
ghost use Rattle.py_builtins.specs.Consulted.{Consults, ConsultsBy};
ghost use Rattle.py_stacks.specs.StackError.{stack_fault};
ghost use Rattle.py_stacks.specs.Frames.{call_of_option, code_of, frame_step, is_entered, is_hidden, member_cost};
ghost use Rattle.py_stacks.specs.Frames.{name_at, part_by, part_cost, part_of_result, plain_at, step_of_result};
ghost use Rattle.py_stacks.specs.Frames.{visible};
ghost use Rattle.py_stacks.specs.Records.{AreWhole, member_of};

use crate::asked::Asked;
use crate::detail::read_detail;
use crate::records::{Records, read_records};
use crate::{Frame, StackError};
use elf64_core::{Text, u64_in};
use process_memory::ProcessMemory;
use py_fields::{FrameAt, Layout};
use py_objects::{ObjectError, copy_string};
use std::alloc::Global;

/// How many frames of a thread are kept at most.
const FRAME_LIMIT: usize = 4096;

/// The address of a frame's code record, with its tag bits cleared.
#[tactic(auto, unfolding(crate::specs::Frames::code_of))]
pub(crate) fn code_of(at: &FrameAt, frame: &[u8]) -> u64
    requires inside { at.now.code + 8 ≤ length frame.now }
    requires tag { at.now.code_tag_bits ≤ 3 }
    ensures { result ≡ code_of at.now frame.now }
{
    let tag = match at.code_tag_bits {
        0 => 1,
        1 => 2,
        2 => 4,
        _ => 8,
    };
    u64_in(frame, at.code as usize) / tag * tag
}

/// Whether a C call entered the frame; each one counts as entered where the layout does not say.
#[tactic(auto, unfolding(crate::specs::Frames::is_entered, elf64_core::specs::Fields::u8_in))]
pub fn is_entered(at: &FrameAt, frame: &[u8]) -> bool
    requires { (entry : ℕ) → at.now.entry ≡ Some entry → entry + 1 ≤ length frame.now }
    ensures { result ≡ is_entered at.now frame.now }
{
    match at.entry {
        Some(entry) => frame[entry as usize] != 0,
        None => true,
    }
}

/// Whether no frame is shown under this file name.
#[tactic(auto, unfolding(crate::specs::Frames::is_hidden))]
pub fn is_hidden(file: &Text) -> bool
    ensures { result ≡ is_hidden file.now }
{
    let name = file.as_str();
    name.is_empty() || name == "<shim>"
}

/// The frame that a member shows as but for its detail, by its two texts; none where it is skipped.
#[tactic(auto, unfolding(crate::specs::Frames::visible))]
fn visible(filename: Option<Text>, name: Option<Text>, entered: bool) -> Option<Frame>
    ensures { call_of_option result ≡ visible filename name entered }
{
    match (filename, name) {
        (Some(filename), Some(name)) => {
            if is_hidden(&filename) {
                return None;
            }
            Some(Frame {
                name,
                filename,
                module: None,
                short_filename: None,
                line: 0,
                locals: None,
                is_entry: entered,
                is_shim_entry: false,
            })
        }
        _ => None,
    }
}

/// The text at an address, where there is one. At most 2 reads.
#[tactic(auto, unfolding(crate::specs::Frames::name_at))]
fn read_member_text<P: ProcessMemory>(
    alloc: Global,
    process: &mut P,
    layout: &Layout,
    addr: u64,
) -> Result<Option<Text>, StackError>
    requires sound { IsSound layout.now }
    ensures { Consults layout.now stack_fault 2 (P.seen process.old) (P.seen process.new)
        (λ m. name_at layout.now m addr) result }
{
    match copy_string(alloc, process, layout, addr) {
        Ok(text) => Ok(Some(text)),
        Err(ObjectError::OutOfMemory) => Err(StackError::OutOfMemory),
        Err(_) => Ok(None),
    }
}

/// The frame that the member of these records shows as but for its detail; none where it is skipped. At most 4
/// reads.
fn read_plain<P: ProcessMemory>(
    alloc: Global,
    process: &mut P,
    layout: &Layout,
    records: &Records,
) -> Result<Option<Frame>, StackError>
    requires sound { IsSound layout.now }
    requires whole { AreWhole layout.now records.now }
    ensures { Consults layout.now stack_fault 4 (P.seen process.old) (P.seen process.new)
        (λ m. plain_at layout.now m (member_of records.now)) (part_of_result result) }
{
    let file_at = u64_in(&records.code, layout.code.filename as usize);
    let filename = read_member_text(alloc, process, layout, file_at)?;
    let name_at = u64_in(&records.code, layout.code.name as usize);
    let name = read_member_text(alloc, process, layout, name_at)?;
    let entered = is_entered(&layout.frame, &records.frame);
    Ok(visible(filename, name, entered))
}

/// The frame that a member shows as, with its detail, where `kept` frames are kept already. `FrameLimit` comes
/// where 4096 are and the member is not skipped, and then its detail is not read.
fn read_part<P: ProcessMemory>(
    alloc: Global,
    process: &mut P,
    layout: &Layout,
    asked: Asked,
    kept: usize,
    plain: Option<Frame>,
    records: &Records,
) -> Result<Option<Frame>, StackError>
    requires sound { IsSound layout.now }
    requires whole { AreWhole layout.now records.now }
    ensures { ConsultsBy layout.now stack_fault
        (λ m. part_cost asked layout.now m kept (member_of records.now) (call_of_option plain))
        (P.seen process.old) (P.seen process.new)
        (λ m. part_by asked layout.now m kept (member_of records.now) (call_of_option plain)) (part_of_result result) }
{
    match plain {
        None => Ok(None),
        Some(mut frame) => {
            if kept >= FRAME_LIMIT {
                return Err(StackError::FrameLimit);
            }
            let detail = read_detail(alloc, process, layout, asked, records)?;
            frame.line = detail.line;
            frame.locals = detail.locals;
            Ok(Some(frame))
        }
    }
}

/// The member at an address, where `kept` frames are kept already: the one that called it, and the frame that
/// it shows as, none where it is skipped.
///
/// A member is skipped where its file or function name is no text or is not in memory, or its file name is
/// empty or `<shim>`. The error is the first of these, in order: `Unreadable` with its frame record, then
/// with its code record; `FrameLimit` where it is not skipped and 4096 frames are kept; those of its detail.
/// At most 6 reads, and those of its detail.
pub(crate) fn read_member<P: ProcessMemory>(
    alloc: Global,
    process: &mut P,
    layout: &Layout,
    asked: Asked,
    kept: usize,
    at: u64,
    records: &mut Records,
) -> Result<(u64, Option<Frame>), StackError>
    requires sound { IsSound layout.now }
    ensures { ConsultsBy layout.now stack_fault (λ m. member_cost asked layout.now m kept at)
        (P.seen process.old) (P.seen process.new)
        (λ m. frame_step asked layout.now m kept at) (step_of_result kept result) }
{
    read_records(process, layout, at, records)?;
    let plain = read_plain(alloc, process, layout, records)?;
    let part = read_part(alloc, process, layout, asked, kept, plain, records)?;
    let back = u64_in(&records.frame, layout.frame.back as usize);
    Ok((back, part))
}
