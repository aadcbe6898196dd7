//! What the newest frames of a thread hold.
ghost use Rattle.std.specs.Prelude.{◌≡◌, ◌+◌, ◌*◌};
ghost use Rattle.process_memory.specs.Seen.{Reads, read_fault};
ghost use Rattle.py_waits.specs.Frames.{current_at, in_frame, newest_at, searched_at};

use crate::objects::{Waited, slot_step};
use crate::places::WaitPlaces;
use crate::words::word_in;
use process_memory::{ProcessMemory, ReadFault};
use py_fields::{CframeAt, Layout};

/// How many words of a frame are looked at: its variables, and what stands on its stack.
const SLOT_LIMIT: u64 = 128;

/// The newest frame, by the word of a thread's record. At most one read.
fn current_at<P: ProcessMemory>(
    process: &mut P,
    cframe: Option<CframeAt>,
    named: Option<u64>,
) -> Result<Option<u64>, ReadFault>
    ensures { Reads read_fault 1 (P.seen process.old) (P.seen process.new)
        (λ m. current_at m cframe named) result }
{
    match cframe {
        None => Ok(named),
        Some(cframe) => word_in(process, named, cframe.current as u64),
    }
}

/// The newest frame of a thread. At most 2 reads.
fn newest_at<P: ProcessMemory>(
    process: &mut P,
    layout: &Layout,
    thread: u64,
) -> Result<Option<u64>, ReadFault>
    ensures { Reads read_fault 2 (P.seen process.old) (P.seen process.new)
        (λ m. newest_at layout.now m thread) result }
{
    let named = word_in(process, Some(thread), layout.thread.frame as u64)?;
    current_at(process, layout.cframe, named)
}

/// The first object that a frame's words lead to and that is waited for, where none was found before. At most 768
/// reads.
fn in_frame<P: ProcessMemory>(
    process: &mut P,
    layout: &Layout,
    places: &WaitPlaces,
    at: u64,
    frame: Option<u64>,
    before: Option<Waited>,
) -> Result<Option<Waited>, ReadFault>
    ensures { Reads read_fault 768 (P.seen process.old) (P.seen process.new)
        (λ m. in_frame layout.now m places.now at frame before) result }
{
    let mut found = before;
    for number in 0..SLOT_LIMIT {
        let behind = layout.frame.locals as u64 + 8 * number;
        found = slot_step(process, places, at, frame, behind, found)?;
    }
    Ok(found)
}

/// The object that a thread waits for, among what its three newest frames hold, where none was found before. At most
/// 2308 reads.
#[tactic(auto, unfolding(crate::specs::Frames::searched_at))]
pub(crate) fn searched_at<P: ProcessMemory>(
    process: &mut P,
    layout: &Layout,
    places: &WaitPlaces,
    thread: u64,
    at: u64,
    before: Option<Waited>,
) -> Result<Option<Waited>, ReadFault>
    ensures { Reads read_fault 2308 (P.seen process.old) (P.seen process.new)
        (λ m. searched_at layout.now m places.now thread at before) result }
{
    let back = layout.frame.back as u64;
    let first = newest_at(process, layout, thread)?;
    let one = in_frame(process, layout, places, at, first, before)?;
    let second = word_in(process, first, back)?;
    let two = in_frame(process, layout, places, at, second, one)?;
    let third = word_in(process, second, back)?;
    in_frame(process, layout, places, at, third, two)
}
