//! The chain of what awaits what, from a coroutine on.
ghost use Rattle.std.specs.Prelude.{◌≡◌, IfOk, []};
ghost use Rattle.process_memory.specs.Seen.{Reading};
ghost use Rattle.py_coroutines.specs.Awaits.{Chain, IsAwaits, chain_from};
ghost use Rattle.py_coroutines.specs.Objects.{turn_at};
ghost use Rattle.py_coroutines.specs.Places.{IsSound};
ghost use Rattle.py_coroutines.specs.Turns.{chain_of, chain_reads};

use crate::turn::read_turn;
use crate::{AwaitEnd, AwaitError, Places, Turn};
use process_memory::ProcessMemory;
use std::alloc::Global;
use std::collections::BTreeSet;

/// What awaits what, from an object on, and how that ends.
#[derive(Debug, Drop)]
pub struct Awaits {
    /// The members: each awaits the one after it.
    pub members: Vec<u64>,
    /// How the chain ends.
    pub end: AwaitEnd,
}

/// See `read_awaits`.
fn follow<P: ProcessMemory>(
    alloc: Global,
    process: &mut P,
    places: &Places,
    limit: usize,
    head: u64,
) -> Result<Awaits, AwaitError>
    requires sound { IsSound places.now }
    ensures { Reading (chain_reads limit result) (P.seen process.old) (P.seen process.new)
        (λ m. IfOk result (λ chain. chain_of chain ≡ chain_from (turn_at places.now m) [] limit head)) }
{
    let mut members = Vec::new(alloc);
    let mut met = BTreeSet::new(alloc);
    let mut at = head;
    'members: loop {
        if met.contains(&at) {
            let end = AwaitEnd::Cycle { addr: at };
            return Ok(Awaits { members, end });
        }
        if members.len() == limit {
            let end = AwaitEnd::Cut { addr: at };
            return Ok(Awaits { members, end });
        }
        let turn = read_turn(alloc, process, places, at)?;
        match turn {
            Turn::To(next) => {
                members.push(at)?;
                met.insert(at)?;
                at = next;
            }
            Turn::Last(stop) => {
                members.push(at)?;
                let end = AwaitEnd::Stops(stop);
                return Ok(Awaits { members, end });
            }
            Turn::Before(stop) => {
                let end = AwaitEnd::Stops(stop);
                return Ok(Awaits { members, end });
            }
        }
    }
}

/// The whole chain of what awaits what from an object on, at most `limit` members of it: each member awaits the one
/// after it, none is left out and none is there twice; and how the chain ends. There is one such chain alone, and it is
/// the answer. The one error is out of memory. At most seven reads for each member, and seven more.
pub fn read_awaits<P: ProcessMemory>(
    alloc: Global,
    process: &mut P,
    places: &Places,
    limit: usize,
    head: u64,
) -> Result<Awaits, AwaitError>
    requires sound { IsSound places.now }
    ensures right { Reading (chain_reads limit result) (P.seen process.old) (P.seen process.new)
        (λ m. IfOk result (λ chain. IsAwaits (turn_at places.now m) limit head (chain_of chain))) }
    ensures only { Reading (chain_reads limit result) (P.seen process.old) (P.seen process.new)
        (λ m. (other : Chain) → IsAwaits (turn_at places.now m) limit head other
        → IfOk result (λ chain. chain_of chain ≡ other)) }
{
    follow(alloc, process, places, limit, head)
}
