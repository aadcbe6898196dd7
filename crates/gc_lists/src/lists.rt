//! The lists of an interpreter.
ghost use Rattle.std.specs.Prelude.{◌≡◌, ◌++◌, IfOk};
ghost use Rattle.process_memory.specs.Seen.{Reading};
ghost use Rattle.gc_lists.specs.Heads.{heads_at, heads_in, heads_of};
ghost use Rattle.gc_lists.specs.Lists.{ArePairsApart, IsTold, Told, collected_reads, collecting_at, four_at, four_of};
ghost use Rattle.gc_lists.specs.Lists.{lists_reads, told_at, told_of};
ghost use Rattle.gc_lists.specs.Links.{links_at};

use crate::heads::{Heads, heads_at, heads_of};
use crate::standing::unheld;
use crate::walk::read_ring;
use crate::{GcList, ListPlaces};
use elf64_core::u32_in;
use process_memory::{ProcessMemory, ReadFault, record_wide};
use std::alloc::{AllocError, Global};

/// The lists of an interpreter, or of the runtime up to 3.8.
#[derive(Debug, Drop)]
pub struct Lists {
    /// Whether a collection runs; none where that is not in memory. In one the links back of a generation's members may
    /// hold counts, so that its list ends early.
    pub collecting: Option<bool>,
    /// Generation 0.
    pub youngest: GcList,
    /// Generation 1.
    pub middle: GcList,
    /// Generation 2.
    pub oldest: GcList,
    /// The permanent generation, of objects that are frozen: no collection looks at them.
    pub permanent: GcList,
}

/// What is found where lists are looked for.
#[derive(Debug, Drop)]
pub enum Collected {
    /// The lists.
    Lists(Lists),
    /// No lists: the heads are to be checked, and the one at this address is none. Neither does what it leads to lead
    /// back to it, nor what it names as before it lead on to it.
    Elsewhere { head: u64 },
}

/// Whether a collection runs, if that is in memory. At most one read.
fn read_collecting<P: ProcessMemory>(
    alloc: Global,
    process: &mut P,
    places: &ListPlaces,
    base: u64,
) -> Result<Option<bool>, AllocError>
    ensures { Reading 1 (P.seen process.old) (P.seen process.new)
        (λ m. IfOk result (λ collecting. collecting ≡ collecting_at places.now m base)) }
{
    let at = base as u128 + places.collecting as u128;
    match record_wide(alloc, process, at, 4) {
        Ok(bytes) => Ok(Some(u32_in(&bytes, 0) != 0)),
        Err(ReadFault::Unreadable { .. }) => Ok(None),
        Err(ReadFault::OutOfMemory) => Err(AllocError),
    }
}

/// The lists of some heads. At most one read of each member, and eight more.
fn read_four<P: ProcessMemory>(
    alloc: Global,
    process: &mut P,
    mask: u64,
    heads: &[u64],
    own: Heads,
    collecting: Option<bool>,
) -> Result<Lists, AllocError>
    ensures { Reading (lists_reads 8 result) (P.seen process.old) (P.seen process.new)
        (λ m. IfOk result (λ lists. four_of lists ≡ four_at (links_at mask m) heads.now own collecting)) }
{
    let youngest = read_ring(alloc, process, mask, heads, own.youngest)?;
    let middle = read_ring(alloc, process, mask, heads, own.middle)?;
    let oldest = read_ring(alloc, process, mask, heads, own.oldest)?;
    let permanent = read_ring(alloc, process, mask, heads, own.permanent)?;
    Ok(Lists {
        collecting,
        youngest,
        middle,
        oldest,
        permanent,
    })
}

/// The lists of the record at an address, whose heads are these. At most one read of each member, and nine more.
fn read_all<P: ProcessMemory>(
    alloc: Global,
    process: &mut P,
    places: &ListPlaces,
    bases: &[u64],
    base: u64,
    own: Heads,
) -> Result<Lists, AllocError>
    ensures { Reading (lists_reads 9 result) (P.seen process.old) (P.seen process.new)
        (λ m. IfOk result (λ lists. four_of lists ≡ four_at (links_at places.now.mask m)
        (heads_in own ++ heads_of places.now bases.now) own (collecting_at places.now m base))) }
{
    let heads = heads_of(alloc, places, own, bases)?;
    let collecting = read_collecting(alloc, process, places, base)?;
    read_four(alloc, process, places.mask, &heads, own, collecting)
}

/// What is found where the lists of the record at an address are looked for. At most one read of each member, and 21
/// more.
fn read_told<P: ProcessMemory>(
    alloc: Global,
    process: &mut P,
    places: &ListPlaces,
    bases: &[u64],
    base: u64,
) -> Result<Collected, AllocError>
    ensures { Reading (collected_reads result) (P.seen process.old) (P.seen process.new)
        (λ m. IfOk result (λ found. told_of found ≡ told_at places.now bases.now m base)) }
{
    let own = heads_at(places, base);
    let missing = unheld(process, places, own)?;
    match missing {
        Some(head) => Ok(Collected::Elsewhere { head }),
        None => {
            let lists = read_all(alloc, process, places, bases, base, own)?;
            Ok(Collected::Lists(lists))
        }
    }
}

/// The collector's lists of the record at `base`: an interpreter's, or the runtime's up to 3.8. `bases` are the records
/// of all interpreters of the process, at whose lists' heads a list is torn; it may be among them. Each of the lists is
/// as `read_list` has it, and no two of them have a member in common, where their heads stand apart. Where heads are to
/// be checked and one isn't the head of a list, the answer is `Elsewhere` with the first such.
///
/// There is one such answer alone. The one error is out of memory. At most one read of each member, and 21 more.
pub fn read_lists<P: ProcessMemory>(
    alloc: Global,
    process: &mut P,
    places: &ListPlaces,
    bases: &[u64],
    base: u64,
) -> Result<Collected, AllocError>
    ensures right { Reading (collected_reads result) (P.seen process.old) (P.seen process.new)
        (λ m. IfOk result (λ found. IsTold places.now bases.now m base (told_of found))) }
    ensures only { Reading (collected_reads result) (P.seen process.old) (P.seen process.new)
        (λ m. (other : Told) → IsTold places.now bases.now m base other
        → IfOk result (λ found. told_of found ≡ other)) }
    ensures apart { IfOk result (λ found. ArePairsApart (heads_at places.now base) (told_of found)) }
{
    read_told(alloc, process, places, bases, base)
}
