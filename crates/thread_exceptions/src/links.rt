//! Chains of records to null, each of which names the next one.
ghost use Rattle.std.specs.Prelude.{◌≡◌, ◌+◌, IfOk, []};
ghost use Rattle.process_memory.specs.Seen.{Reading};
ghost use Rattle.thread_exceptions.specs.Links.{Chain, IsLinks, chain_from};
ghost use Rattle.thread_exceptions.specs.Links.End.{Stops};
ghost use Rattle.thread_exceptions.specs.Turns.{IsLost, chain_of, end_of, stop_of, turn_at, turn_of};

use crate::ExceptionsError;
use process_memory::{ProcessMemory, ReadFault, word_past};
use std::alloc::Global;
use std::collections::BTreeSet;

/// A range that is not in memory.
#[derive(Clone, Copy)]
pub struct Lost {
    pub addr: u64,
    pub len: u64,
}

/// What ends a chain by itself.
#[derive(Clone, Copy)]
pub enum Stop {
    Null,
    Unreadable(Lost),
}

/// What stands at an address.
#[derive(Clone, Copy)]
pub enum Turn {
    /// A record, which names the one at this address.
    To(u64),
    /// A record, at which the chain ends.
    Last(Stop),
    /// No record.
    Before(Stop),
}

/// How a chain ends.
#[derive(Clone, Copy)]
pub enum LinkEnd {
    /// The last record names none.
    Null,
    /// Which record the last one names is not in memory.
    Unreadable(Lost),
    /// The last record names one that was met before.
    Cycle { addr: u64 },
    /// Before a record of which only the address is known: no more may be met.
    Cut { addr: u64 },
}

/// The records of a chain, and how it ends.
#[derive(Drop)]
pub struct Links {
    /// The addresses: each record names the one after it.
    pub members: Vec<u64>,
    /// How the chain ends.
    pub end: LinkEnd,
}

/// The range that was not read; out of memory is none.
pub(crate) fn lost_range(error: ReadFault) -> Result<Lost, ExceptionsError>
    ensures { IsLost error result }
{
    match error {
        ReadFault::Unreadable { addr, len } => Ok(Lost { addr, len }),
        ReadFault::OutOfMemory => Err(ExceptionsError::OutOfMemory),
    }
}

/// What stands at an address. At most one read.
fn read_turn<P: ProcessMemory>(
    process: &mut P,
    offset: u32,
    at: u64,
) -> Result<Turn, ExceptionsError>
    ensures { Reading 1 (P.seen process.old) (P.seen process.new)
        (λ m. IfOk result (λ turn. turn_of turn ≡ turn_at offset m at)) }
{
    if at == 0 {
        return Ok(Turn::Before(Stop::Null));
    }
    match word_past(process, at, offset as u64) {
        Ok(next) => Ok(Turn::To(next)),
        Err(error) => Ok(Turn::Last(Stop::Unreadable(lost_range(error)?))),
    }
}

/// The end of a chain that ends by itself.
fn end_of(stop: Stop) -> LinkEnd
    ensures { end_of result ≡ Stops (stop_of stop) }
{
    match stop {
        Stop::Null => LinkEnd::Null,
        Stop::Unreadable(lost) => LinkEnd::Unreadable(lost),
    }
}

/// See `read_links`.
fn follow<P: ProcessMemory>(
    alloc: Global,
    process: &mut P,
    offset: u32,
    limit: usize,
    head: u64,
) -> Result<Links, ExceptionsError>
    ensures { Reading (limit + 1) (P.seen process.old) (P.seen process.new)
        (λ m. IfOk result (λ chain. chain_of chain ≡ chain_from (turn_at offset m) [] limit head)) }
{
    let mut members = Vec::new(alloc);
    let mut met = BTreeSet::new(alloc);
    let mut at = head;
    'members: loop {
        if met.contains(&at) {
            let end = LinkEnd::Cycle { addr: at };
            return Ok(Links { members, end });
        }
        if members.len() == limit {
            let end = LinkEnd::Cut { addr: at };
            return Ok(Links { members, end });
        }
        let turn = read_turn(process, offset, at)?;
        match turn {
            Turn::To(next) => {
                members.push(at)?;
                met.insert(at)?;
                at = next;
            }
            Turn::Last(stop) => {
                members.push(at)?;
                let end = end_of(stop);
                return Ok(Links { members, end });
            }
            Turn::Before(stop) => {
                let end = end_of(stop);
                return Ok(Links { members, end });
            }
        }
    }
}

/// The whole chain of records from an address on, each of which names the next one by the word at an offset, at most
/// `limit` of them: none is left out and none is there twice; and how the chain ends. There is one such chain alone,
/// and it is the answer. The one error is out of memory. At most one read for each record, and one more.
pub fn read_links<P: ProcessMemory>(
    alloc: Global,
    process: &mut P,
    offset: u32,
    limit: usize,
    head: u64,
) -> Result<Links, ExceptionsError>
    ensures answer { Reading (limit + 1) (P.seen process.old) (P.seen process.new)
        (λ m. IfOk result (λ chain. chain_of chain ≡ chain_from (turn_at offset m) [] limit head)) }
    ensures right { Reading (limit + 1) (P.seen process.old) (P.seen process.new)
        (λ m. IfOk result (λ chain. IsLinks (turn_at offset m) limit head (chain_of chain))) }
    ensures only { Reading (limit + 1) (P.seen process.old) (P.seen process.new)
        (λ m. (other : Chain) → IsLinks (turn_at offset m) limit head other
        → IfOk result (λ chain. chain_of chain ≡ other)) }
{
    follow(alloc, process, offset, limit, head)
}
