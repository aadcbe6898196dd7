//! What stands where a member of a list leads to: one more member, or how the list ends there.
ghost use Rattle.std.specs.Prelude.{◌≡◌, IfOk};
ghost use Rattle.process_memory.specs.Seen.{Reading};
ghost use Rattle.gc_lists.specs.Links.{links_at};
ghost use Rattle.gc_lists.specs.Turns.{closed_by, head_end, turn_at, turn_by};

use crate::links::{Links, read_links};
use process_memory::ProcessMemory;
use std::alloc::AllocError;

/// How a list ends.
#[derive(Debug, Clone, Copy, PartialEq, Eq)]
pub enum ListEnd {
    /// Where it began: its last member leads to the head, whose back link names that member.
    Whole,
    /// At this address, to which the last member leads and whose back link isn't that member; or which is the head of
    /// another list.
    Torn { addr: u64 },
    /// At this address, to which the last member leads and where the 16 bytes of links are not in memory.
    Unreadable { addr: u64 },
    /// Before one more member, which stands at this address: no more are met.
    Cut { addr: u64 },
}

/// What stands at an address.
#[derive(Clone, Copy)]
pub(crate) enum Turn {
    /// A member, which leads to this address.
    Member { next: u64 },
    /// No member.
    Stops(ListEnd),
}

/// How a list ends at its own head, whose back link is given.
fn closed_by(back: u64, before: u64, at: u64) -> ListEnd
    ensures { result ≡ closed_by back before at }
{
    if back == before {
        ListEnd::Whole
    } else {
        ListEnd::Torn { addr: at }
    }
}

/// How a list ends at an address, if that is the address of a head.
fn head_end(heads: &[u64], head: u64, back: u64, before: u64, at: u64) -> Option<ListEnd>
    ensures { result ≡ head_end heads.now head back before at }
{
    if at == head {
        return Some(closed_by(back, before, at));
    }
    if heads.contains(&at) {
        return Some(ListEnd::Torn { addr: at });
    }
    None
}

/// What stands at an address that is no head's, by the links there.
fn turn_by(links: Option<Links>, before: u64, at: u64) -> Turn
    ensures { result ≡ turn_by links before at }
{
    match links {
        None => Turn::Stops(ListEnd::Unreadable { addr: at }),
        Some(links) => {
            if links.back == before {
                Turn::Member { next: links.next }
            } else {
                Turn::Stops(ListEnd::Torn { addr: at })
            }
        }
    }
}

/// What stands at an address to which the member `before` leads. At most one read.
pub(crate) fn read_turn<P: ProcessMemory>(
    process: &mut P,
    mask: u64,
    heads: &[u64],
    head: u64,
    back: u64,
    before: u64,
    at: u64,
) -> Result<Turn, AllocError>
    ensures { Reading 1 (P.seen process.old) (P.seen process.new)
        (λ m. IfOk result (λ turn. turn ≡ turn_at (links_at mask m) heads.now head back before at)) }
{
    match head_end(heads, head, back, before, at) {
        Some(end) => Ok(Turn::Stops(end)),
        None => {
            let links = read_links(process, mask, at)?;
            Ok(turn_by(links, before, at))
        }
    }
}
