//! What stands for a kept member of a thread's chain of frames.
ghost use Rattle.std.specs.Prelude.{◌≡◌, ◌+◌, ◌*◌, Err, MatchOption, Ok, is_none, length, map, true};
ghost use Rattle.process_memory.specs.Seen.{Reading, Reads};
ghost use Rattle.py_fields.specs.Sound.{IsSound};
ghost use Rattle.py_builtins.specs.ObjectError.{object_fault};
ghost use Rattle.py_stacks.specs.Frames.{plain_by};
ghost use Rattle.py_stacks.specs.Met.{locals_most};
ghost use Rattle.py_stacks.specs.Records.{AreWhole, member_of};
ghost use Rattle.py_stacks.specs.StackError.{stack_fault};
ghost use Rattle.py_fronts.specs.Answers.{IsOrNoMemory};
ghost use Rattle.py_fronts.specs.Standings.{IsNameless, IsUnread, LocalsAre, framed, has_no_caller, standing_at};
ghost use Rattle.py_fronts.specs.Standings.{standing_named, standing_reads, stood_result, stood_results, texts_at};

use crate::table_line::line_or_first;
use elf64_core::{Text, u64_in};
use process_memory::ProcessMemory;
use py_builtins::{ObjectError, copy_string};
use py_fields::Layout;
use py_stacks::{
    Asked, Frame, LocalVariable, Records, StackError, is_entered, is_hidden, read_locals,
    read_records, share_texts,
};
use shared_texts::SharedTexts;
use std::alloc::Global;

/// What stands for a member of a thread's chain of frames that is not left out.
#[derive(Debug, Drop)]
pub enum Standing {
    /// Its frame.
    Frame {
        /// The frame. It is marked (`is_shim_entry`) where the member that it leads to has no frame, or there is none.
        frame: Frame,
        /// Why its locals were asked for and are not there.
        fault: Option<StackError>,
    },
    /// The member itself, where its file or function name can't be read, is no text or is too long.
    Member {
        /// The address of its frame record.
        address: u64,
        /// Why it has no names: what the file's name answers, or else the function's.
        why: ObjectError,
    },
}

/// The locals of a frame, or why there are none.
#[derive(Drop)]
struct Locals {
    locals: Option<Vec<LocalVariable>>,
    fault: Option<StackError>,
}

/// The texts of a member's file name and function name. At most 4 reads.
fn read_texts<P: ProcessMemory>(
    alloc: Global,
    process: &mut P,
    layout: &Layout,
    records: &Records,
) -> Result<(Text, Text), ObjectError>
    requires sound { IsSound layout.now }
    requires whole { AreWhole layout.now records.now }
    ensures { Reads object_fault 4 (P.seen process.old) (P.seen process.new)
        (λ m. texts_at layout.now m (member_of records.now)) result }
{
    let file_at = u64_in(&records.code, layout.code.filename as usize);
    let filename = copy_string(alloc, process, layout, file_at)?;
    let name_at = u64_in(&records.code, layout.code.name as usize);
    let name = copy_string(alloc, process, layout, name_at)?;
    Ok((filename, name))
}

/// The locals that were read, or why there are none; out of memory is handed on.
fn locals_or_fault(
    read: Result<Option<Vec<LocalVariable>>, StackError>,
) -> Result<Locals, StackError>
    ensures { LocalsAre read result }
{
    match read {
        Ok(locals) => Ok(Locals {
            locals,
            fault: None,
        }),
        Err(StackError::OutOfMemory) => Err(StackError::OutOfMemory),
        Err(error) => Ok(Locals {
            locals: None,
            fault: Some(error),
        }),
    }
}

/// A member without names has no frame; out of memory is handed on.
fn without_names(why: ObjectError) -> Result<bool, StackError>
    ensures { MatchOption (object_fault why) (result ≡ Err StackError.OutOfMemory) (λ f. result ≡ Ok true) }
{
    match why {
        ObjectError::OutOfMemory => Err(StackError::OutOfMemory),
        _ => Ok(true),
    }
}

/// Nor has one whose records can't be read.
fn without_records(error: StackError) -> Result<bool, StackError>
    ensures { MatchOption (stack_fault error) (result ≡ Err StackError.OutOfMemory) (λ f. result ≡ Ok true) }
{
    match error {
        StackError::OutOfMemory => Err(StackError::OutOfMemory),
        _ => Ok(true),
    }
}

/// Whether no frame is shown for the member that has these records. At most 4 reads.
fn shows_none<P: ProcessMemory>(
    alloc: Global,
    process: &mut P,
    layout: &Layout,
    records: &Records,
) -> Result<bool, StackError>
    requires sound { IsSound layout.now }
    requires whole { AreWhole layout.now records.now }
    ensures { Reading 4 (P.seen process.old) (P.seen process.new)
        (λ m. IsOrNoMemory (is_none (plain_by layout.now m (member_of records.now))) result) }
{
    match read_texts(alloc, process, layout, records) {
        Ok((filename, _)) => Ok(is_hidden(&filename)),
        Err(why) => without_names(why),
    }
}

/// Whether no frame is shown for what a member leads to, or that is null. At most 6 reads.
fn has_no_caller<P: ProcessMemory>(
    alloc: Global,
    process: &mut P,
    layout: &Layout,
    back: u64,
    records: &mut Records,
) -> Result<bool, StackError>
    requires sound { IsSound layout.now }
    ensures { Reading 6 (P.seen process.old) (P.seen process.new)
        (λ m. IsOrNoMemory (has_no_caller layout.now m back) result) }
{
    if back == 0 {
        return Ok(true);
    }
    match read_records(process, layout, back, records) {
        Ok(()) => shows_none(alloc, process, layout, records),
        Err(error) => without_records(error),
    }
}

/// The frame of the member that has these records, by its two texts. At most 520 reads, and those of its locals.
fn read_frame<P: ProcessMemory>(
    alloc: Global,
    process: &mut P,
    layout: &Layout,
    asked: Asked,
    records: &mut Records,
    texts: &mut SharedTexts,
    filename: Text,
    name: Text,
) -> Result<Standing, StackError>
    requires sound { IsSound layout.now }
    requires whole { AreWhole layout.now records.old }
    ensures { Reading (520 + locals_most asked.locals) (P.seen process.old) (P.seen process.new) (λ m.
        IsOrNoMemory (framed asked layout.now m (member_of records.old) filename name) (stood_result result)) }
{
    let line = line_or_first(alloc, process, layout, asked.lineno, records)?;
    let read = read_locals(alloc, process, layout, asked.locals, records);
    let locals = locals_or_fault(read)?;
    let is_entry = is_entered(&layout.frame, &records.frame);
    let back = u64_in(&records.frame, layout.frame.back as usize);
    let is_shim_entry = has_no_caller(alloc, process, layout, back, records)?;
    let frame = Frame {
        name,
        filename,
        module: None,
        short_filename: None,
        line,
        locals: locals.locals,
        is_entry,
        is_shim_entry,
    };
    let frame = share_texts(texts, frame)?;
    let fault = locals.fault;
    Ok(Standing::Frame { frame, fault })
}

/// A member without names; out of memory is handed on.
fn nameless(address: u64, why: ObjectError) -> Result<Standing, StackError>
    ensures { IsNameless address why result }
{
    match why {
        ObjectError::OutOfMemory => Err(StackError::OutOfMemory),
        why => Ok(Standing::Member { address, why }),
    }
}

/// One whose records can't be read. They are in memory, or a range is missing, or memory was wanting.
fn unread(address: u64, error: StackError) -> Result<Standing, StackError>
    ensures { IsUnread address error result }
{
    match error {
        StackError::Unreadable { addr, len } => {
            let why = ObjectError::Unreadable { addr, len };
            Ok(Standing::Member { address, why })
        }
        _ => Err(StackError::OutOfMemory),
    }
}

/// What stands for the member at an address that has these records. At most 524 reads, and those of its locals.
fn read_named<P: ProcessMemory>(
    alloc: Global,
    process: &mut P,
    layout: &Layout,
    asked: Asked,
    at: u64,
    records: &mut Records,
    texts: &mut SharedTexts,
) -> Result<Standing, StackError>
    requires sound { IsSound layout.now }
    requires whole { AreWhole layout.now records.old }
    ensures { Reading (524 + locals_most asked.locals) (P.seen process.old) (P.seen process.new) (λ m. IsOrNoMemory
        (standing_named asked layout.now m at (member_of records.old) (texts_at layout.now m (member_of records.old)))
        (stood_result result)) }
{
    match read_texts(alloc, process, layout, records) {
        Ok((filename, name)) => {
            read_frame(
                alloc, process, layout, asked, records, texts, filename, name,
            )
        }
        Err(why) => nameless(at, why),
    }
}

/// What stands for the member at an address. At most 526 reads, and those of its locals.
fn read_standing<P: ProcessMemory>(
    alloc: Global,
    process: &mut P,
    layout: &Layout,
    asked: Asked,
    at: u64,
    records: &mut Records,
    texts: &mut SharedTexts,
) -> Result<Standing, StackError>
    requires sound { IsSound layout.now }
    ensures { Reading (standing_reads asked) (P.seen process.old) (P.seen process.new) (λ m.
        IsOrNoMemory (standing_at asked layout.now m at) (stood_result result)) }
{
    match read_records(process, layout, at, records) {
        Ok(()) => read_named(alloc, process, layout, asked, at, records, texts),
        Err(error) => unread(at, error),
    }
}

/// What stands for the members at some addresses, in order; the texts of their frames share their bytes with those of
/// the same characters that were met before. The one error is out of memory. At most 526 reads for
/// each, and those of its locals.
pub(crate) fn read_standings<P: ProcessMemory>(
    alloc: Global,
    process: &mut P,
    layout: &Layout,
    asked: Asked,
    members: &[u64],
    records: &mut Records,
    texts: &mut SharedTexts,
) -> Result<Vec<Standing>, StackError>
    requires sound { IsSound layout.now }
    ensures { Reading (standing_reads asked * length members.now) (P.seen process.old) (P.seen process.new) (λ m.
        IsOrNoMemory (map (standing_at asked layout.now m) members.now) (stood_results result)) }
{
    let mut standings = Vec::new(alloc);
    for at in members {
        let standing = read_standing(alloc, process, layout, asked, *at, records, texts)?;
        standings.push(standing)?;
    }
    Ok(standings)
}
