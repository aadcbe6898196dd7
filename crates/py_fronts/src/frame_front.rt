//! The front of a thread's frames.
ghost use Rattle.std.specs.Prelude.{◌≡◌, ◌≤◌, ◌+◌, ◌*◌, IfOk, length};
ghost use Rattle.process_memory.specs.Seen.{Reading, ReadingBy};
ghost use Rattle.py_fields.specs.Sound.{IsSound};
ghost use Rattle.py_fronts.specs.Answers.{IsOrNoMemory};
ghost use Rattle.py_fronts.specs.FrameFronts.{HasNoChain, chain_of_thread, ends_reads, frames_front_result};
ghost use Rattle.py_fronts.specs.FrameFronts.{frames_shown, number_between, shown_first, shown_last};
ghost use Rattle.py_fronts.specs.Members.{chained, chained_of_result};

use crate::members::{Chain, walk_members};
use crate::standing::read_standings;
use crate::{ChainEnd, Standing};
use process_memory::ProcessMemory;
use py_fields::Layout;
use py_stacks::{Asked, Records, StackError, first_frame};
use shared_texts::SharedTexts;
use std::alloc::Global;

/// The frames of a thread, the newest first, as far as its chain of callers goes.
#[derive(Debug, Drop)]
pub struct FramesFront {
    /// All of them, where they are at most twice as many as were asked for; else the first so many.
    pub first: Vec<Standing>,
    /// How many there are between those and the last.
    pub between: u64,
    /// The last so many before the end; none where `first` has all.
    pub last: Vec<Standing>,
    /// How many members were met in all, with those that are left out.
    pub met: u64,
    /// How the chain ends.
    pub end: ChainEnd,
}

/// Which members are shown: the first, the number between, and the last.
#[derive(Clone, Copy)]
struct Ends<'a> {
    first: &'a [u64],
    between: u64,
    last: &'a [u64],
}

/// Which of the kept members are shown.
fn ends_of(kept: &[u64], limit: usize) -> Ends<'_>
    requires { limit ≤ 4096 }
    ensures first { result.first.now ≡ shown_first limit kept.now }
    ensures between { result.between ≡ number_between limit kept.now }
    ensures last { result.last.now ≡ shown_last limit kept.now }
{
    let count = kept.len();
    if count <= 2 * limit {
        return Ends {
            first: kept,
            between: 0,
            last: &[],
        };
    }
    Ends {
        first: &kept[..limit],
        between: (count - 2 * limit) as u64,
        last: &kept[count - limit..],
    }
}

/// Shows the first and the last of the kept members of a chain. The reads are those of each that is shown.
pub(crate) fn show_ends<P: ProcessMemory>(
    alloc: Global,
    process: &mut P,
    layout: &Layout,
    asked: Asked,
    limit: usize,
    chain: &Chain,
    records: &mut Records,
    texts: &mut SharedTexts,
) -> Result<FramesFront, StackError>
    requires sound { IsSound layout.now }
    requires few { limit ≤ 4096 }
    ensures { Reading (ends_reads asked limit chain.now.kept.items) (P.seen process.old) (P.seen process.new) (λ m.
        IsOrNoMemory (frames_shown asked layout.now m limit (chained chain.now)) (frames_front_result result)) }
{
    let ends = ends_of(&chain.kept, limit);
    let first = read_standings(alloc, process, layout, asked, ends.first, records, texts)?;
    let last = read_standings(alloc, process, layout, asked, ends.last, records, texts)?;
    Ok(FramesFront {
        first,
        between: ends.between,
        last,
        met: chain.met,
        end: chain.end,
    })
}

/// A chain whose first member is not known. The word for it is in memory, or its range is missing, or memory was
/// wanting.
fn no_chain(alloc: Global, error: StackError) -> Result<Chain, StackError>
    ensures { HasNoChain error result }
{
    match error {
        StackError::Unreadable { addr, len } => Ok(Chain {
            kept: Vec::new(alloc),
            met: 0,
            end: ChainEnd::Unreadable { addr, len },
        }),
        _ => Err(StackError::OutOfMemory),
    }
}

/// The chain of a thread's frames, by its record. At most 5 reads for each member that is met, and 6 more.
pub(crate) fn read_chain<P: ProcessMemory>(
    alloc: Global,
    process: &mut P,
    layout: &Layout,
    limit: u64,
    thread: &[u8],
    records: &mut Records,
) -> Result<Chain, StackError>
    requires sound { IsSound layout.now }
    requires whole { length thread.now ≡ layout.now.thread.size }
    ensures answer { ReadingBy (λ m. 6 + 5 * (chain_of_thread layout.now m limit thread.now).met) (P.seen process.old)
        (P.seen process.new) (λ m. IsOrNoMemory (chain_of_thread layout.now m limit thread.now)
        (chained_of_result result)) }
    ensures few { IfOk result (λ chain. chain.met ≤ limit) }
{
    match first_frame(process, layout, thread) {
        Ok(first) => walk_members(alloc, process, layout, limit, first, records),
        Err(error) => no_chain(alloc, error),
    }
}
