//! The lines of a native stack.
ghost use Rattle.std.specs.Prelude.{◌≡◌, ◌<◌, ◌++◌, OnOk, length, slice_get, string_bytes};
ghost use Rattle.native_frames.specs.Text.{base_behind, base_name, behind_text, end_text, file_text, first_frames};
ghost use Rattle.native_frames.specs.Text.{frame_line, frame_text, frames_text};
ghost use Rattle.native_frames.specs.Text.{found_text, function_text, guess_line, guess_text, guess_word, last_frames};
ghost use Rattle.native_frames.specs.Text.{lead_text, limit_text, mark_text, more_text};
ghost use Rattle.native_frames.specs.Text.{no_file_text, place_text, refusal_text, stack_text, where_text};
ghost use Rattle.native_frames.specs.Text.{frames_between, name_text};
ghost use Rattle.native_frames.specs.Threads.{stack_shown};

use crate::escape::push_escaped;
use crate::files::path_of;
use crate::stacks::{Function, NativeFrame, ThreadStack};
use core_unwind::{CodePlace, End, Limit, Mark, Refusal};
use elf64_core::Name;
use std::alloc::{AllocError, Global};

/// The part of a path behind a byte, if that is a slash; else what is taken for that so far.
fn base_behind<'a>(base: &'a [u8], path: &'a [u8], index: usize) -> &'a [u8]
    requires { index < length path.now }
    ensures { result.now ≡ base_behind base.now path.now index }
{
    if path[index] == 47 {
        return &path[index + 1..];
    }
    base
}

/// The part of a path behind its last slash.
fn base_name(path: &[u8]) -> &[u8]
    ensures { result.now ≡ base_name path.now }
{
    let mut base = path;
    for index in 0..path.len() {
        base = base_behind(base, path, index);
    }
    base
}

/// A name, in which nothing ends the line.
fn push_name(alloc: Global, text: &mut String, name: &[u8]) -> Result<(), AllocError>
    ensures { OnOk result (string_bytes text.new ≡ string_bytes text.old ++ name_text name.now) }
{
    let name = Name::of(alloc, name)?;
    let shown = name.lossy(alloc)?;
    push_escaped(alloc, text, true, &shown)
}

/// The name of the file of a number, without its folder.
fn push_file(
    alloc: Global,
    text: &mut String,
    files: &[Name],
    file: usize,
) -> Result<(), AllocError>
    ensures { OnOk result (string_bytes text.new ≡ string_bytes text.old
        ++ file_text (slice_get files.now file)) }
{
    match path_of(files, file) {
        Some(path) => {
            text.push_str(" (")?;
            push_name(alloc, text, base_name(path.as_bytes()))?;
            text.push_str(")")
        }
        None => Ok(()),
    }
}

/// A function, and how far behind its start.
fn push_function(alloc: Global, text: &mut String, function: &Function) -> Result<(), AllocError>
    ensures { OnOk result (string_bytes text.new ≡ string_bytes text.old ++ function_text function.now) }
{
    push_name(alloc, text, function.name.as_bytes())?;
    let offset = function.offset;
    write!(text, "+0x{offset:x}")
}

/// The function, or else the address in the file.
fn push_where(
    alloc: Global,
    text: &mut String,
    function: &Option<Function>,
    place: CodePlace,
) -> Result<(), AllocError>
    ensures { OnOk result (string_bytes text.new ≡ string_bytes text.old ++ where_text function.now place) }
{
    match function {
        Some(function) => push_function(alloc, text, function),
        None => {
            let address = place.address;
            write!(text, "0x{address:x}")
        }
    }
}

/// Where a frame stands.
fn push_place(
    alloc: Global,
    text: &mut String,
    files: &[Name],
    frame: &NativeFrame,
) -> Result<(), AllocError>
    ensures { OnOk result (string_bytes text.new ≡ string_bytes text.old
        ++ place_text files.now frame.now frame.now.frame.place) }
{
    match frame.frame.place {
        Some(place) => {
            push_where(alloc, text, &frame.function, place)?;
            push_file(alloc, text, files, place.file)
        }
        None => text.push_str("(in no file)"),
    }
}

/// A mark, where it is one.
fn push_mark(text: &mut String, is_marked: bool, mark: &str) -> Result<(), AllocError>
    ensures { OnOk result (string_bytes text.new ≡ string_bytes text.old ++ mark_text is_marked mark.now) }
{
    if is_marked {
        return text.push_str(mark);
    }
    Ok(())
}

/// By what else than tables the caller of a frame was found.
fn found_text(mark: Option<Mark>) -> &'static str
    ensures { result.now ≡ found_text mark }
{
    match mark {
        Some(Mark::Trampoline) => " <signal trampoline>",
        Some(Mark::Epilogue) => " <epilogue>",
        Some(Mark::FramePointer) => " <frame pointer>",
        Some(Mark::Jump) => " <jump>",
        None => "",
    }
}

/// By what the frames that follow were guessed.
pub(crate) fn guess_text(mark: Mark) -> &'static str
    ensures { result.now ≡ guess_text mark }
{
    match mark {
        Mark::Trampoline => "signal trampoline",
        Mark::Epilogue => "epilogue",
        Mark::FramePointer => "frame pointer",
        Mark::Jump => "jumped to no code",
    }
}

/// How the line of a guess begins.
#[tactic(auto, unfolding(crate::specs::Text::guess_word))]
fn push_guess_word(text: &mut String) -> Result<(), AllocError>
    ensures { OnOk result (string_bytes text.new ≡ string_bytes text.old ++ guess_word) }
{
    text.push_str("    ... guess: ")
}

/// The line before frames that follow from a guess.
fn push_guess(text: &mut String, mark: Mark) -> Result<(), AllocError>
    ensures { OnOk result (string_bytes text.new ≡ string_bytes text.old ++ guess_line mark) }
{
    push_guess_word(text)?;
    text.push_str(guess_text(mark))?;
    text.push_str("\n")
}

/// The same, if they do.
fn push_lead(text: &mut String, guess: Option<Mark>) -> Result<(), AllocError>
    ensures { OnOk result (string_bytes text.new ≡ string_bytes text.old ++ lead_text guess) }
{
    match guess {
        Some(mark) => push_guess(text, mark),
        None => Ok(()),
    }
}

/// Appends the line of a frame, but for its end: its address, where it stands, whether a signal interrupted it, by what
/// else than tables its caller was found, and whether it follows from a guess. `files` are the paths by which frames
/// name files. The one error is out of memory.
pub fn push_frame_line(
    alloc: Global,
    text: &mut String,
    files: &[Name],
    is_guess: bool,
    frame: &NativeFrame,
) -> Result<(), AllocError>
    ensures { OnOk result (string_bytes text.new ≡ string_bytes text.old
        ++ frame_line files.now is_guess frame.now) }
{
    let pc = frame.frame.pc;
    write!(text, "    0x{pc:x} ")?;
    push_place(alloc, text, files, frame)?;
    push_mark(text, frame.frame.is_signal, " <signal>")?;
    text.push_str(found_text(frame.frame.mark))?;
    push_mark(text, is_guess, " <guess>")
}

/// The line of a frame.
fn push_frame(
    alloc: Global,
    text: &mut String,
    files: &[Name],
    is_guess: bool,
    frame: &NativeFrame,
) -> Result<(), AllocError>
    ensures { OnOk result (string_bytes text.new ≡ string_bytes text.old
        ++ frame_text files.now is_guess frame.now) }
{
    push_frame_line(alloc, text, files, is_guess, frame)?;
    text.push_str("\n")
}

/// The lines of frames.
fn push_frames(
    alloc: Global,
    text: &mut String,
    files: &[Name],
    is_guess: bool,
    frames: &[NativeFrame],
) -> Result<(), AllocError>
    ensures { OnOk result (string_bytes text.new ≡ string_bytes text.old
        ++ frames_text files.now is_guess frames.now) }
{
    for frame in frames {
        push_frame(alloc, text, files, is_guess, frame)?;
    }
    Ok(())
}

/// The line of the frames that stand between the first and the last; none where there are none.
fn push_more(text: &mut String, between: usize) -> Result<(), AllocError>
    ensures { OnOk result (string_bytes text.new ≡ string_bytes text.old ++ more_text between) }
{
    if between == 0 {
        return Ok(());
    }
    write!(text, "    ... {between} more frames\n")
}

/// The end at an address whose file is not at hand, or that is in none.
fn push_no_file(
    alloc: Global,
    text: &mut String,
    files: &[Name],
    at: u64,
    missing: Option<usize>,
) -> Result<(), AllocError>
    ensures { OnOk result (string_bytes text.new ≡ string_bytes text.old
        ++ no_file_text files.now at missing) }
{
    match missing {
        Some(file) => {
            write!(text, "    ... 0x{at:x} is in a file that is not at hand")?;
            push_file(alloc, text, files, file)?;
            text.push_str("\n")
        }
        None => write!(text, "    ... 0x{at:x} is in no file\n"),
    }
}

/// What can't be followed.
fn refusal_text(refusal: Refusal) -> &'static str
    ensures { result.now ≡ refusal_text refusal }
{
    match refusal {
        Refusal::Table(_) => "the table of its file can't be read",
        Refusal::Record(_) => "its record can't be read",
        Refusal::Row(_) => "its rules can't be read",
        Refusal::Cfa => "its canonical frame address is not known",
        Refusal::ReturnAddress => "its return address is not known",
    }
}

/// What there is no more of.
fn limit_text(limit: Limit) -> &'static str
    ensures { result.now ≡ limit_text limit }
{
    match limit {
        Limit::Frames => "cut: no more frames are read",
        Limit::Signals => "cut: no more frames of signals are read",
        Limit::Bytes => "cut: no more rules are read",
    }
}

/// The line of a stack's end; none where it is whole.
fn push_end(
    alloc: Global,
    text: &mut String,
    files: &[Name],
    end: End,
    missing: Option<usize>,
) -> Result<(), AllocError>
    ensures { OnOk result (string_bytes text.new ≡ string_bytes text.old ++ end_text files.now missing end) }
{
    match end {
        End::Whole => Ok(()),
        End::NoTable { at } => write!(text, "    ... no table covers 0x{at:x}\n"),
        End::NoFile { at } => push_no_file(alloc, text, files, at, missing),
        End::Unreadable { at } => write!(text, "    ... unreadable at 0x{at:x}, 8 bytes\n"),
        End::Refused(refusal) => {
            let why = refusal_text(refusal);
            write!(text, "    ... {why}\n")
        }
        End::NotAbove => text.push_str("    ... its caller's frame is not above it\n"),
        End::Cut(limit) => {
            let why = limit_text(limit);
            write!(text, "    ... {why}\n")
        }
    }
}

/// Appends the lines that say how a stack ends whose frames stand elsewhere: by what its newest frame was guessed, if it
/// was, and how it ends, where it is not whole. The one error is out of memory.
pub fn push_stack_end(
    alloc: Global,
    text: &mut String,
    files: &[Name],
    stack: &ThreadStack,
) -> Result<(), AllocError>
    ensures { OnOk result (string_bytes text.new ≡ string_bytes text.old
        ++ behind_text files.now (stack_shown stack.now)) }
{
    push_lead(text, stack.guess)?;
    push_end(alloc, text, files, stack.end, stack.missing)
}

/// How many frames stand between the first `limit` and the last.
pub(crate) fn frames_between(frames: &[NativeFrame], limit: usize) -> usize
    ensures { result ≡ frames_between limit frames.now }
{
    frames.len().saturating_sub(limit).saturating_sub(limit)
}

/// The first `limit` frames.
pub(crate) fn first_frames(frames: &[NativeFrame], limit: usize) -> &[NativeFrame]
    ensures { result.now ≡ first_frames limit frames.now }
{
    &frames[..limit.min(frames.len())]
}

/// The last `limit` frames of those behind the first `limit`.
pub(crate) fn last_frames(frames: &[NativeFrame], limit: usize) -> &[NativeFrame]
    ensures { result.now ≡ last_frames limit frames.now }
{
    let start = limit.max(frames.len().saturating_sub(limit));
    &frames[start.min(frames.len())..]
}

/// Appends the lines of a stack: by what it was guessed, if it was, its first `limit` frames, how many stand between,
/// and its last `limit`, and how it ends, where it is not whole. `files` are the paths by which frames name files;
/// behind a guess each line says so. The one error is out of memory.
pub fn push_stack(
    alloc: Global,
    text: &mut String,
    files: &[Name],
    is_guess: bool,
    limit: usize,
    stack: &ThreadStack,
) -> Result<(), AllocError>
    ensures { OnOk result (string_bytes text.new ≡ string_bytes text.old
        ++ stack_text files.now is_guess limit (stack_shown stack.now)) }
{
    let frames = stack.frames.as_slice();
    push_lead(text, stack.guess)?;
    push_frames(alloc, text, files, is_guess, first_frames(frames, limit))?;
    push_more(text, frames_between(frames, limit))?;
    push_frames(alloc, text, files, is_guess, last_frames(frames, limit))?;
    push_end(alloc, text, files, stack.end, stack.missing)
}
