//! A list of the collector, member by member.
ghost use Rattle.std.specs.Prelude.{◌≡◌, ◌≢◌, ◌≤◌, ℕ, IfOk, length};
ghost use Rattle.std.specs.List.{AllPairs, Contains};
ghost use Rattle.process_memory.specs.Seen.{Reading};
ghost use Rattle.gc_lists.specs.Links.{links_at};
ghost use Rattle.gc_lists.specs.Rings.{AreApart, Listed, Listing, list_at, list_from};
ghost use Rattle.gc_lists.specs.Turns.{turn_at};
ghost use Rattle.gc_lists.specs.Walks.{list_reads, listing_of, most_members};

use crate::ListEnd;
use crate::links::{Links, read_links};
use crate::turn::{Turn, read_turn};
use process_memory::ProcessMemory;
use std::alloc::{AllocError, Global};

/// How many members of a list are met at most.
const MOST_MEMBERS: usize = 4_194_304;

/// A list of the collector.
#[derive(Debug, Drop)]
pub struct GcList {
    /// The addresses of its members' heads, in order. The object stands behind its head.
    pub members: Vec<u64>,
    /// How the list ends behind these.
    pub end: ListEnd,
}

/// The members of a list whose head has these links. At most one read of each, and one more.
fn follow<P: ProcessMemory>(
    alloc: Global,
    process: &mut P,
    mask: u64,
    heads: &[u64],
    head: u64,
    first: Links,
) -> Result<GcList, AllocError>
    ensures is { Reading (list_reads 1 result) (P.seen process.old) (P.seen process.new)
        (λ m. IfOk result (λ list. listing_of list
        ≡ list_from (turn_at (links_at mask m) heads.now head first.back) most_members head first.next)) }
    ensures few { IfOk result (λ list. length list.members.items ≤ most_members) }
{
    let mut members = Vec::new(alloc);
    let mut before = head;
    let mut at = first.next;
    'members: loop {
        let turn = read_turn(process, mask, heads, head, first.back, before, at)?;
        let next = match turn {
            Turn::Member { next } => next,
            Turn::Stops(end) => return Ok(GcList { members, end }),
        };
        if members.len() == MOST_MEMBERS {
            let end = ListEnd::Cut { addr: at };
            return Ok(GcList { members, end });
        }
        members.push(at)?;
        before = at;
        at = next;
    }
}

/// The list of a head. At most one read of each member, and two more.
pub(crate) fn read_ring<P: ProcessMemory>(
    alloc: Global,
    process: &mut P,
    mask: u64,
    heads: &[u64],
    head: u64,
) -> Result<GcList, AllocError>
    ensures is { Reading (list_reads 2 result) (P.seen process.old) (P.seen process.new)
        (λ m. IfOk result (λ list. listing_of list ≡ list_at (links_at mask m) heads.now most_members head)) }
    ensures few { IfOk result (λ list. length list.members.items ≤ most_members) }
{
    let links = read_links(process, mask, head)?;
    match links {
        Some(first) => follow(alloc, process, mask, heads, head, first),
        None => Ok(GcList {
            members: Vec::new(alloc),
            end: ListEnd::Unreadable { addr: head },
        }),
    }
}

/// The list whose head stands at an address, at most 4,194,304 members of it: each member stands where the one before
/// it leads to, its link back names that one, and it is none of `heads`, which are those of all lists of the process;
/// and how the list ends. `mask` has the bits of a link that make the address.
///
/// There is one such list alone, and it is the answer. No member is there twice, and none is in the list of another one
/// of the heads. The one error is out of memory. At most one read of each member, and two more.
pub fn read_list<P: ProcessMemory>(
    alloc: Global,
    process: &mut P,
    mask: u64,
    heads: &[u64],
    head: u64,
) -> Result<GcList, AllocError>
    ensures right { Reading (list_reads 2 result) (P.seen process.old) (P.seen process.new)
        (λ m. IfOk result (λ list. Listed (links_at mask m) heads.now most_members head (listing_of list))) }
    ensures only { Reading (list_reads 2 result) (P.seen process.old) (P.seen process.new)
        (λ m. (other : Listing) → Listed (links_at mask m) heads.now most_members head other
        → IfOk result (λ list. listing_of list ≡ other)) }
    ensures once { IfOk result (λ list. AllPairs (λ x y. x ≢ y) list.members.items) }
    ensures apart { Reading (list_reads 2 result) (P.seen process.old) (P.seen process.new)
        (λ m. (h : ℕ) (other : Listing) → h ≢ head → Contains heads.now h → Contains heads.now head
        → Listed (links_at mask m) heads.now most_members h other
        → IfOk result (λ list. AreApart list.members.items other.members)) }
{
    read_ring(alloc, process, mask, heads, head)
}
