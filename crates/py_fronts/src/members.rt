//! The members of a thread's chain of frames, as far as it goes.
ghost use Rattle.std.specs.Prelude.{◌≡◌, ◌≤◌, ◌++◌, IfOk, OnOk};
ghost use Rattle.process_memory.specs.Seen.{Reading, ReadingBy};
ghost use Rattle.py_fields.specs.Sound.{IsSound};
ghost use Rattle.py_builtins.specs.Texts.{text_at};
ghost use Rattle.py_stacks.specs.Records.{AreWhole, member_of};
ghost use Rattle.py_fronts.specs.Answers.{IsOrNoMemory};
ghost use Rattle.py_fronts.specs.Members.{StepIs, StopsBy, caller_of, chain_reads, chained_of_result, hides, is_kept};
ghost use Rattle.py_fronts.specs.Members.{is_left_out, kept_if, kept_of, members_front};

use crate::ChainEnd;
use elf64_core::u64_in;
use process_memory::{ProcessMemory, ReadFault, word_past};
use py_builtins::{ObjectError, copy_string};
use py_fields::Layout;
use py_stacks::{Records, StackError, is_hidden, read_records};
use std::alloc::{AllocFailed, Global};

/// How many units `<shim>` has, as each kind of text codes it.
const SHIM_UNITS: u64 = 6;

/// The kept members of a chain by their addresses, how many were met in all, and how it ends.
#[derive(Drop)]
pub(crate) struct Chain {
    pub(crate) kept: Vec<u64>,
    pub(crate) met: u64,
    pub(crate) end: ChainEnd,
}

/// One step along a chain.
enum Step {
    /// The member that called this one, and whether this one is kept.
    To { back: u64, stands: bool },
    /// What is there is no member.
    Broken(ChainEnd),
}

/// Whether a text can be read under which no frame is shown, by its characters. At most 2 reads.
fn hides_text<P: ProcessMemory>(
    alloc: Global,
    process: &mut P,
    layout: &Layout,
    addr: u64,
) -> Result<bool, StackError>
    requires sound { IsSound layout.now }
    ensures { Reading 2 (P.seen process.old) (P.seen process.new)
        (λ m. IsOrNoMemory (hides (text_at layout.now m addr)) result) }
{
    match copy_string(alloc, process, layout, addr) {
        Ok(file) => Ok(is_hidden(&file)),
        Err(ObjectError::OutOfMemory) => Err(StackError::OutOfMemory),
        Err(_) => Ok(false),
    }
}

/// The same, where the word of the text's length is read first: a text is made only where it says no units, or as many
/// as `<shim>` has. At most 3 reads.
fn hides<P: ProcessMemory>(
    alloc: Global,
    process: &mut P,
    layout: &Layout,
    addr: u64,
) -> Result<bool, StackError>
    requires sound { IsSound layout.now }
    ensures { Reading 3 (P.seen process.old) (P.seen process.new)
        (λ m. IsOrNoMemory (hides (text_at layout.now m addr)) result) }
{
    let length = match word_past(process, addr, layout.string.length as u64) {
        Ok(length) => length,
        Err(ReadFault::Unreadable { .. }) => return Ok(false),
        Err(ReadFault::OutOfMemory) => return Err(StackError::OutOfMemory),
    };
    if length != 0 && length != SHIM_UNITS {
        return Ok(false);
    }
    hides_text(alloc, process, layout, addr)
}

/// Whether the member that has these records is left out. At most 3 reads.
fn is_left_out<P: ProcessMemory>(
    alloc: Global,
    process: &mut P,
    layout: &Layout,
    records: &Records,
) -> Result<bool, StackError>
    requires sound { IsSound layout.now }
    requires whole { AreWhole layout.now records.now }
    ensures { Reading 3 (P.seen process.old) (P.seen process.new)
        (λ m. IsOrNoMemory (is_left_out layout.now m (member_of records.now)) result) }
{
    let file_at = u64_in(&records.code, layout.code.filename as usize);
    if file_at == 0 {
        return Ok(true);
    }
    hides(alloc, process, layout, file_at)
}

/// How a step stops whose records can't be read. They are in memory, or a range is missing, or memory was wanting.
fn stop_by(error: StackError) -> Result<Step, StackError>
    ensures { StopsBy error result }
{
    match error {
        StackError::Unreadable { addr, len } => Ok(Step::Broken(ChainEnd::Unreadable {
            addr,
            len,
        })),
        _ => Err(StackError::OutOfMemory),
    }
}

/// Where the member at an address leads to, and whether it is kept. At most 5 reads.
fn read_step<P: ProcessMemory>(
    alloc: Global,
    process: &mut P,
    layout: &Layout,
    at: u64,
    records: &mut Records,
) -> Result<Step, StackError>
    requires sound { IsSound layout.now }
    ensures { Reading 5 (P.seen process.old) (P.seen process.new)
        (λ m. StepIs (caller_of layout.now m at) (is_kept layout.now m at) result) }
{
    match read_records(process, layout, at, records) {
        Ok(()) => {
            let left_out = is_left_out(alloc, process, layout, records)?;
            let back = u64_in(&records.frame, layout.frame.back as usize);
            Ok(Step::To {
                back,
                stands: !left_out,
            })
        }
        Err(error) => stop_by(error),
    }
}

/// Adds a member, where it is kept.
fn add_kept(kept: &mut Vec<u64>, at: u64, stands: bool) -> Result<(), AllocFailed<u64>>
    ensures { OnOk result (kept.new.items ≡ kept.old.items ++ kept_if stands at) }
{
    if stands { kept.push(at) } else { Ok(()) }
}

/// The chain of callers from a thread's first frame on, at most `limit` members of it. The one error is want of
/// memory. At most 5 reads for each member that is met, and 5 more.
pub(crate) fn walk_members<P: ProcessMemory>(
    alloc: Global,
    process: &mut P,
    layout: &Layout,
    limit: u64,
    first: u64,
    records: &mut Records,
) -> Result<Chain, StackError>
    requires sound { IsSound layout.now }
    ensures answer { ReadingBy (λ m. chain_reads layout.now m limit first) (P.seen process.old) (P.seen process.new)
        (λ m. IsOrNoMemory (kept_of layout.now m (members_front layout.now m limit first))
        (chained_of_result result)) }
    ensures few { IfOk result (λ chain. chain.met ≤ limit) }
{
    let mut kept = Vec::new(alloc);
    let mut met = 0;
    let mut at = first;
    while at != 0 {
        if met == limit {
            let end = ChainEnd::Cut;
            return Ok(Chain { kept, met, end });
        }
        let step = read_step(alloc, process, layout, at, records)?;
        let (back, stands) = match step {
            Step::To { back, stands } => (back, stands),
            Step::Broken(end) => return Ok(Chain { kept, met, end }),
        };
        add_kept(&mut kept, at, stands)?;
        met += 1;
        at = back;
    }
    let end = ChainEnd::Whole;
    Ok(Chain { kept, met, end })
}
