//! Which programs can be written, and where the first fault of another is.
ghost use Rattle.std.specs.Prelude.{◌≡◌, ◌≢◌, ◌≤◌, ◌↔◌, ℕ, map, length, IsTrue, IfOk, MatchOption};
ghost use Rattle.std.specs.List.{AllByRecursion, list_any};
ghost use Rattle.py_lines.specs.Lines.{holds};
ghost use Rattle.memory_builder.specs.Mirror.{item_in, program_value, local_in, frame_in, program_thread, program_in};
ghost use Rattle.memory_builder.specs.Validity.{IsBriefText, IsValidItem, IsValidHeld, IsValidLocal, IsPositiveLine};
ghost use Rattle.memory_builder.specs.Validity.{HasPositiveLine, IsValidRange, IsCodable, IsShownFile, IsValidlyNamed};
ghost use Rattle.memory_builder.specs.Validity.{IsValidlyPlaced, HasValidLocals, IsValidFrame, IsValidThread};
ghost use Rattle.memory_builder.specs.Validity.{IsValidCall, IsValidIn, IsValidWhole, IsValidProgram, IsFirstFailing};
ghost use Rattle.memory_builder.specs.Validity.{IsFirstInvalid};

use crate::parts::{Program, ProgramFrame, ProgramItem, ProgramLocal, ProgramThread, ProgramValue};
use elf64_core::Text;
use py_lines::{EncodeError, LineFamily, LineRange, encode};
use std::alloc::{AllocError, Global};

/// Texts have fewer bytes than this.
const TEXT_LIMIT: usize = 4096;
/// Numbers are nearer to 0 than this.
const NUMBER_LIMIT: u64 = 1 << 60;
/// Lists have fewer items than this.
const ITEM_LIMIT: usize = 65536;
/// The most locals of a frame.
const MOST_LOCALS: usize = 65535;
/// The most frames of a thread.
const MOST_FRAMES: usize = 4096;
/// The most threads of a program.
const MOST_THREADS: usize = 4096;
/// The file of frames that are not shown.
const SHIM: &str = "<shim>";

/// A place in a program.
#[derive(Clone, Copy, Debug, PartialEq, Eq)]
pub struct FramePlace {
    /// The index of a thread, counted from 0.
    pub thread: u32,
    /// The index of one of its frames, counted from 0.
    pub frame: u32,
}

/// Whether a text is short enough.
fn is_brief(text: &Text) -> bool
    ensures { IsTrue result ↔ IsBriefText text.now }
{
    text.as_str().len() < TEXT_LIMIT
}

fn is_valid_number(number: i64) -> bool
    ensures { IsTrue result ↔ IsValidItem (item_in (ProgramItem.Number number)) }
{
    number.unsigned_abs() < NUMBER_LIMIT
}

fn is_valid_item(item: &ProgramItem) -> bool
    ensures { IsTrue result ↔ IsValidItem (item_in item.now) }
{
    match item {
        ProgramItem::Number(number) => is_valid_number(*number),
        ProgramItem::Words(text) => is_brief(text),
    }
}

fn are_valid_items(items: &[ProgramItem]) -> bool
    ensures { IsTrue result ↔ AllByRecursion (λ x. IsValidItem (item_in x)) items.now }
{
    items.iter().all(|item| is_valid_item(item))
}

fn is_valid_value(value: &ProgramValue) -> bool
    ensures { IsTrue result ↔ IsValidHeld (program_value value.now) }
{
    match value {
        ProgramValue::Number(number) => is_valid_number(*number),
        ProgramValue::Words(text) => is_brief(text),
        ProgramValue::List(items) => items.len() < ITEM_LIMIT && are_valid_items(items),
    }
}

fn is_valid_local(local: &ProgramLocal) -> bool
    ensures { IsTrue result ↔ IsValidLocal (local_in local.now) }
{
    is_brief(&local.name) && is_valid_value(&local.value)
}

fn are_valid_locals(locals: &[ProgramLocal]) -> bool
    ensures { IsTrue result ↔ AllByRecursion (λ x. IsValidLocal (local_in x)) locals.now }
{
    locals.iter().all(|local| is_valid_local(local))
}

fn has_valid_locals(frame: &ProgramFrame) -> bool
    ensures { IsTrue result ↔ HasValidLocals (frame_in frame.now) }
{
    let count = frame.locals.len();
    frame.args as usize <= count && count <= MOST_LOCALS && are_valid_locals(&frame.locals)
}

fn is_positive_line(line: i32) -> bool
    ensures { IsTrue result ↔ IsPositiveLine line }
{
    line >= 1
}

fn has_positive_line(line: Option<i32>) -> bool
    ensures { IsTrue result ↔ HasPositiveLine line }
{
    match line {
        Some(line) => is_positive_line(line),
        None => false,
    }
}

fn is_valid_range(range: &LineRange) -> bool
    ensures { IsTrue result ↔ IsValidRange range.now }
{
    range.end.saturating_sub(range.start) % 2 == 0 && has_positive_line(range.line)
}

fn are_valid_ranges(ranges: &[LineRange]) -> bool
    ensures { IsTrue result ↔ AllByRecursion IsValidRange ranges.now }
{
    ranges.iter().all(|range| is_valid_range(range))
}

/// Whether an offset is inside one of the ranges.
fn is_inside(offset: u32, ranges: &[LineRange]) -> bool
    ensures { result ≡ list_any (holds offset) ranges.now }
{
    let offset = u64::from(offset);
    ranges
        .iter()
        .any(|range| range.start <= offset && offset < range.end)
}

fn is_validly_placed(frame: &ProgramFrame) -> bool
    ensures { IsTrue result ↔ IsValidlyPlaced (frame_in frame.now) }
{
    is_positive_line(frame.first)
        && are_valid_ranges(&frame.ranges)
        && frame.offset % 2 == 0
        && is_inside(frame.offset, &frame.ranges)
}

/// Whether a file's name is one of a frame that is shown.
fn is_shown_file(filename: &Text) -> bool
    ensures { IsTrue result ↔ IsShownFile filename.now }
{
    let filename = filename.as_str();
    filename != "" && filename != SHIM
}

fn is_validly_named(frame: &ProgramFrame) -> bool
    ensures { IsTrue result ↔ IsValidlyNamed (frame_in frame.now) }
{
    is_brief(&frame.name) && is_brief(&frame.filename) && is_shown_file(&frame.filename)
}

/// Whether ranges have a line table.
fn is_codable(
    alloc: Global,
    family: LineFamily,
    first: i32,
    ranges: &[LineRange],
) -> Result<bool, AllocError>
    ensures { IfOk result (λ codable. IsTrue codable ↔ IsCodable family first ranges.now) }
{
    match encode(alloc, family, first, ranges) {
        Ok(_) => Ok(true),
        Err(EncodeError::NotOrdered { .. }) => Ok(false),
        Err(EncodeError::TooLong) => Ok(false),
        Err(EncodeError::OutOfMemory) => Err(AllocError),
    }
}

fn is_valid_frame(
    alloc: Global,
    family: LineFamily,
    frame: &ProgramFrame,
) -> Result<bool, AllocError>
    ensures { IfOk result (λ valid. IsTrue valid ↔ IsValidFrame family (frame_in frame.now)) }
{
    if !(is_validly_named(frame) && is_validly_placed(frame) && has_valid_locals(frame)) {
        return Ok(false);
    }
    is_codable(alloc, family, frame.first, &frame.ranges)
}

/// The index of the first frame that isn't valid.
fn first_invalid_frame(
    alloc: Global,
    family: LineFamily,
    frames: &[ProgramFrame],
) -> Result<Option<u32>, AllocError>
    requires { length frames.now ≤ 4096 }
    ensures { IfOk result (λ found. MatchOption found
        ((k : ℕ) → IsValidCall family (map frame_in frames.now) k)
        (IsFirstFailing (IsValidCall family (map frame_in frames.now)))) }
{
    for (i, frame) in frames.iter().enumerate() {
        if !is_valid_frame(alloc, family, frame)? {
            return Ok(Some(i as u32));
        }
    }
    Ok(None)
}

/// Whether no thread has an id.
fn is_new(id: u64, threads: &[ProgramThread]) -> bool
    ensures { IsTrue result ↔ AllByRecursion (λ other. other.id ≢ id) threads.now }
{
    threads.iter().all(|thread| thread.id != id)
}

/// Whether a thread is valid by itself, behind others.
fn is_valid_thread(earlier: &[ProgramThread], thread: &ProgramThread) -> bool
    ensures { IsTrue result ↔ IsValidThread (map program_thread earlier.now) (program_thread thread.now) }
{
    0 < thread.id && is_new(thread.id, earlier) && thread.frames.len() <= MOST_FRAMES
}

/// The index of the first frame at which a thread isn't valid; 0 where it isn't by itself.
fn first_invalid_in(
    alloc: Global,
    family: LineFamily,
    earlier: &[ProgramThread],
    thread: &ProgramThread,
) -> Result<Option<u32>, AllocError>
    ensures { IfOk result (λ found. MatchOption found
        ((k : ℕ) → IsValidIn family (map program_thread earlier.now) (program_thread thread.now) k)
        (IsFirstFailing (IsValidIn family (map program_thread earlier.now) (program_thread thread.now)))) }
{
    if !is_valid_thread(earlier, thread) {
        return Ok(Some(0));
    }
    first_invalid_frame(alloc, family, &thread.frames)
}

/// Whether a program has threads, and its owner is one of them.
fn is_valid_whole(program: &Program) -> bool
    ensures { IsTrue result ↔ IsValidWhole (program_in program.now) }
{
    let count = program.threads.len();
    let is_one = match program.owner {
        Some(owner) => (owner as usize) < count,
        None => true,
    };
    0 < count && is_one
}

/// The first place at which a program can't be written, with line tables of a family; None where it can. Places are
/// ordered by their threads, and those of a thread by their frames.
///
/// It can where all of these hold:
///
/// - There are 1 to 4096 threads, with at most 4096 frames each; the owner is one of them. That there are none, and
///   an owner that isn't one, are faults of the first place; too many threads are one of thread 4096.
/// - The ids are positive, and all different: the later thread of two that have one id is at fault. A thread that
///   fails by itself, also by too many frames, fails at its frame 0.
/// - Every text has fewer than 4096 characters, and bytes in UTF-8. A file's name is neither empty nor `<shim>`.
/// - `encode` takes the ranges; they all have an even length and a line, and all lines are positive. The offset is
///   even, and inside one of them.
/// - A frame has at most 65535 locals, and not more arguments than locals. Numbers are of magnitude below 2^60, and
///   lists have fewer than 65536 items.
///
/// The one error is out of memory.
pub fn first_invalid(
    alloc: Global,
    program: &Program,
    family: LineFamily,
) -> Result<Option<FramePlace>, AllocError>
    ensures { IfOk result (λ found. MatchOption found (IsValidProgram family (program_in program.now))
        (IsFirstInvalid family (program_in program.now))) }
{
    if !is_valid_whole(program) {
        return Ok(Some(FramePlace {
            thread: 0,
            frame: 0,
        }));
    }
    for (i, thread) in program.threads.iter().enumerate() {
        if i == MOST_THREADS {
            return Ok(Some(FramePlace {
                thread: i as u32,
                frame: 0,
            }));
        }
        if let Some(frame) = first_invalid_in(alloc, family, &program.threads[..i], thread)? {
            return Ok(Some(FramePlace {
                thread: i as u32,
                frame,
            }));
        }
    }
    Ok(None)
}
