//! What a coroutine's frame shows.
ghost use Rattle.std.specs.Prelude.{◌≡◌};
ghost use Rattle.process_memory.specs.Seen.{Reads};
ghost use Rattle.py_builtins.specs.Consulted.{Consults};
ghost use Rattle.py_fields.specs.Sound.{IsSound};
ghost use Rattle.py_stacks.specs.Frames.{name_at};
ghost use Rattle.py_stacks.specs.Records.{AreWhole, member_of};
ghost use Rattle.py_stacks.specs.StackError.{stack_fault};
ghost use Rattle.py_coroutines.specs.Places.{IsSoundFamily};
ghost use Rattle.coroutine_frames.specs.Frames.{asked_line, frame_at, is_unbegun, own_line_at, placed_at};
ghost use Rattle.coroutine_frames.specs.Frames.{said_at, there_at};

use elf64_core::{Text, u32_in, u64_in};
use process_memory::ProcessMemory;
use py_builtins::{ObjectError, copy_string};
use py_coroutines::{Family, read_frame_place};
use py_fields::{Lasti, Layout};
use py_stacks::{LineNo, Records, StackError, read_line, read_records};
use std::alloc::Global;

/// What a coroutine's frame shows.
#[derive(Debug, Drop)]
pub struct CoroutineFrame {
    /// The name of its function; none where it is no text, or is not in memory.
    pub function: Option<Text>,
    /// That of its file.
    pub filename: Option<Text>,
    /// The line of its last instruction, and the first one of its code before that; 0 where none is known.
    pub line: i32,
}

/// The text at an address, where there is one. At most 2 reads.
#[tactic(auto, unfolding(py_stacks::specs::Frames::name_at))]
fn read_text<P: ProcessMemory>(
    alloc: Global,
    process: &mut P,
    layout: &Layout,
    addr: u64,
) -> Result<Option<Text>, StackError>
    requires sound { IsSound layout.now }
    ensures { Consults layout.now stack_fault 2 (P.seen process.old) (P.seen process.new)
        (λ m. name_at layout.now m addr) result }
{
    match copy_string(alloc, process, layout, addr) {
        Ok(text) => Ok(Some(text)),
        Err(ObjectError::OutOfMemory) => Err(StackError::OutOfMemory),
        Err(_) => Ok(None),
    }
}

/// Whether a frame stands before its first instruction, where its last one is counted, which is so up to 3.10.
fn is_unbegun(layout: &Layout, records: &Records) -> bool
    requires sound { IsSound layout.now }
    requires whole { AreWhole layout.now records.now }
    ensures { result ≡ is_unbegun layout.now.lasti layout.now (member_of records.now) }
{
    let at = layout.frame.instr as usize;
    match layout.lasti {
        Lasti::Bytes => u32_in(&records.frame, at) >= 1 << 31,
        Lasti::Units => u32_in(&records.frame, at) >= 1 << 31,
        Lasti::Pointer => false,
    }
}

/// Which line is asked for: of a frame before its first instruction the first one of its code.
fn asked_line(is_unbegun: bool) -> LineNo
    ensures { result ≡ asked_line is_unbegun }
{
    if is_unbegun {
        LineNo::First
    } else {
        LineNo::LastInstruction
    }
}

/// The line of a coroutine's frame. At most 2 reads.
fn read_own_line<P: ProcessMemory>(
    alloc: Global,
    process: &mut P,
    layout: &Layout,
    records: &Records,
) -> Result<i32, StackError>
    requires sound { IsSound layout.now }
    requires whole { AreWhole layout.now records.now }
    ensures { Consults layout.now stack_fault 2 (P.seen process.old) (P.seen process.new)
        (λ m. own_line_at layout.now m (member_of records.now)) result }
{
    let unbegun = is_unbegun(layout, records);
    let lineno = asked_line(unbegun);
    read_line(alloc, process, layout, lineno, records)
}

/// What the frame of these records shows. At most 6 reads.
fn read_said<P: ProcessMemory>(
    alloc: Global,
    process: &mut P,
    layout: &Layout,
    records: &Records,
) -> Result<CoroutineFrame, StackError>
    requires sound { IsSound layout.now }
    requires whole { AreWhole layout.now records.now }
    ensures { Consults layout.now stack_fault 6 (P.seen process.old) (P.seen process.new)
        (λ m. said_at layout.now m (member_of records.now)) result }
{
    let name_at = u64_in(&records.code, layout.code.name as usize);
    let function = read_text(alloc, process, layout, name_at)?;
    let file_at = u64_in(&records.code, layout.code.filename as usize);
    let filename = read_text(alloc, process, layout, file_at)?;
    let line = read_own_line(alloc, process, layout, records)?;
    Ok(CoroutineFrame {
        function,
        filename,
        line,
    })
}

/// What the frame at an address shows. At most 8 reads.
fn read_there<P: ProcessMemory>(
    alloc: Global,
    process: &mut P,
    layout: &Layout,
    at: u64,
) -> Result<CoroutineFrame, StackError>
    requires sound { IsSound layout.now }
    ensures { Consults layout.now stack_fault 8 (P.seen process.old) (P.seen process.new)
        (λ m. there_at layout.now m at) result }
{
    let mut records = Records {
        frame_at: 0,
        frame: Vec::new(alloc),
        code_at: 0,
        code: Vec::new(alloc),
    };
    read_records(process, layout, at, &mut records)?;
    read_said(alloc, process, layout, &records)
}

/// The same, where there is one. At most 8 reads.
fn read_placed<P: ProcessMemory>(
    alloc: Global,
    process: &mut P,
    layout: &Layout,
    place: Option<u64>,
) -> Result<Option<CoroutineFrame>, StackError>
    requires sound { IsSound layout.now }
    ensures { Consults layout.now stack_fault 8 (P.seen process.old) (P.seen process.new)
        (λ m. placed_at layout.now m place) result }
{
    match place {
        None => Ok(None),
        Some(at) => {
            let said = read_there(alloc, process, layout, at)?;
            Ok(Some(said))
        }
    }
}

/// What the frame of the coroutine, generator or async generator at an address shows; none of one that is finished.
///
/// `Unreadable` comes with the first record that is not in memory: its own, that of its frame, that of the frame's
/// code. Else the error is out of memory. At most 9 reads.
pub fn read_frame<P: ProcessMemory>(
    alloc: Global,
    process: &mut P,
    layout: &Layout,
    family: &Family,
    at: u64,
) -> Result<Option<CoroutineFrame>, StackError>
    requires sound { IsSound layout.now }
    requires family { IsSoundFamily family.now }
    ensures { Reads stack_fault 9 (P.seen process.old) (P.seen process.new)
        (λ m. frame_at layout.now family.now m at) result }
{
    let place = read_frame_place(alloc, process, family, at)?;
    read_placed(alloc, process, layout, place)
}
