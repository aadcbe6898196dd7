//! The lines of one stack.
ghost use Rattle.std.specs.Prelude.{◌≡◌, ◌++◌, OnOk, option_copied, slice_get, string_bytes};
ghost use Rattle.native_stacks.specs.Threads.{thread_shown};
ghost use Rattle.native_frames.specs.Threads.{stack_shown_if};
ghost use Rattle.stack_texts.specs.Items.{end_text, first_items, guessed_text, item_text, items_between, items_text};
ghost use Rattle.stack_texts.specs.Items.{last_items, marked_text, more_text, native_text, python_text, stack_text};
ghost use Rattle.stack_texts.specs.Items.{standing_text};

use crate::fronts::standing_at;
use elf64_core::Name;
use native_frames::{NativeFrame, ThreadStack, push_frame_line, push_stack_end};
use native_pairs::Item;
use native_stacks::NativeThread;
use paired_stacks::frames_of;
use py_fronts::{FramesFront, Standing};
use salvage_texts::push_standing_line;
use std::alloc::{AllocError, Global};

/// The line of a native frame.
fn push_marked(
    alloc: Global,
    text: &mut String,
    files: &[Name],
    is_guess: bool,
    frame: &NativeFrame,
) -> Result<(), AllocError>
    ensures { OnOk result (string_bytes text.new ≡ string_bytes text.old ++ marked_text files.now is_guess frame.now) }
{
    push_frame_line(alloc, text, files, is_guess, frame)?;
    text.push_str(" [C]\n")
}

/// The line of the frame of a number among those that follow by a guess.
fn push_guessed(
    alloc: Global,
    text: &mut String,
    files: &[Name],
    frames: &[NativeFrame],
    number: usize,
) -> Result<(), AllocError>
    ensures { OnOk result (string_bytes text.new
        ≡ string_bytes text.old ++ guessed_text files.now (slice_get frames.now number)) }
{
    match frames.get(number) {
        Some(frame) => push_marked(alloc, text, files, true, frame),
        None => Ok(()),
    }
}

/// The line of the native frame of a number.
fn push_native(
    alloc: Global,
    text: &mut String,
    files: &[Name],
    thread: &NativeThread,
    number: usize,
) -> Result<(), AllocError>
    ensures { OnOk result (string_bytes text.new
        ≡ string_bytes text.old ++ native_text files.now (thread_shown thread.now) number) }
{
    let own = frames_of(&thread.stack);
    match own.get(number) {
        Some(frame) => push_marked(alloc, text, files, false, frame),
        None => {
            let behind = number.saturating_sub(own.len());
            push_guessed(alloc, text, files, frames_of(&thread.guessed), behind)
        }
    }
}

/// The line of what stands for a Python frame, if it is shown.
fn push_standing(
    alloc: Global,
    text: &mut String,
    standing: Option<&Standing>,
) -> Result<(), AllocError>
    ensures { OnOk result (string_bytes text.new
        ≡ string_bytes text.old ++ standing_text (option_copied standing.entry)) }
{
    match standing {
        Some(standing) => push_standing_line(alloc, text, standing),
        None => text.push_str("    ... a Python frame that is not shown\n"),
    }
}

/// The line of the Python frame of a number.
fn push_python(
    alloc: Global,
    text: &mut String,
    frames: Option<&FramesFront>,
    number: usize,
) -> Result<(), AllocError>
    ensures { OnOk result (string_bytes text.new
        ≡ string_bytes text.old ++ python_text (option_copied frames.entry) number) }
{
    match frames {
        Some(frames) => push_standing(alloc, text, standing_at(frames, number)),
        None => push_standing(alloc, text, None),
    }
}

/// The line of a frame, or of a mark.
fn push_item(
    alloc: Global,
    text: &mut String,
    files: &[Name],
    thread: &NativeThread,
    frames: Option<&FramesFront>,
    item: Item,
) -> Result<(), AllocError>
    ensures { OnOk result (string_bytes text.new ≡ string_bytes text.old
        ++ item_text files.now (thread_shown thread.now) (option_copied frames.entry) item) }
{
    match item {
        Item::Python(number) => push_python(alloc, text, frames, number),
        Item::Native(number) => push_native(alloc, text, files, thread, number),
        Item::NotFound => text.push_str("    ... native frames not found for these\n"),
        Item::Beside => {
            text.push_str("    ... where these stand among the native frames is not known\n")
        }
    }
}

/// The lines of some of these, in order.
fn push_items(
    alloc: Global,
    text: &mut String,
    files: &[Name],
    thread: &NativeThread,
    frames: Option<&FramesFront>,
    items: &[Item],
) -> Result<(), AllocError>
    ensures { OnOk result (string_bytes text.new ≡ string_bytes text.old
        ++ items_text files.now (thread_shown thread.now) (option_copied frames.entry) items.now) }
{
    for item in items {
        push_item(alloc, text, files, thread, frames, *item)?;
    }
    Ok(())
}

/// How many stand between the first `limit` and the last.
fn items_between(items: &[Item], limit: usize) -> usize
    ensures { result ≡ items_between limit items.now }
{
    items.len().saturating_sub(limit).saturating_sub(limit)
}

/// The first `limit` of them.
fn first_items(items: &[Item], limit: usize) -> &[Item]
    ensures { result.now ≡ first_items limit items.now }
{
    &items[..limit.min(items.len())]
}

/// The last `limit` of those behind the first `limit`.
fn last_items(items: &[Item], limit: usize) -> &[Item]
    ensures { result.now ≡ last_items limit items.now }
{
    let start = limit.max(items.len().saturating_sub(limit));
    &items[start.min(items.len())..]
}

/// The line of those that stand between the first and the last; none where there are none.
fn push_more(text: &mut String, between: usize) -> Result<(), AllocError>
    ensures { OnOk result (string_bytes text.new ≡ string_bytes text.old ++ more_text between) }
{
    if between == 0 {
        return Ok(());
    }
    write!(text, "    ... {between} more lines\n")
}

/// How a native stack ends, if there is one.
fn push_end(
    alloc: Global,
    text: &mut String,
    files: &[Name],
    stack: &Option<ThreadStack>,
) -> Result<(), AllocError>
    ensures { OnOk result (string_bytes text.new
        ≡ string_bytes text.old ++ end_text files.now (stack_shown_if stack.now)) }
{
    match stack {
        Some(stack) => push_stack_end(alloc, text, files, stack),
        None => Ok(()),
    }
}

/// The lines of one stack, of which the first and the last `limit` are shown, and how its native frames end.
pub(crate) fn push_stack(
    alloc: Global,
    text: &mut String,
    files: &[Name],
    limit: usize,
    thread: &NativeThread,
    frames: Option<&FramesFront>,
    items: &[Item],
) -> Result<(), AllocError>
    ensures { OnOk result (string_bytes text.new ≡ string_bytes text.old
        ++ stack_text files.now limit (thread_shown thread.now) (option_copied frames.entry) items.now) }
{
    push_items(
        alloc,
        text,
        files,
        thread,
        frames,
        first_items(items, limit),
    )?;
    push_more(text, items_between(items, limit))?;
    push_items(alloc, text, files, thread, frames, last_items(items, limit))?;
    push_end(alloc, text, files, &thread.stack)?;
    push_end(alloc, text, files, &thread.guessed)
}
