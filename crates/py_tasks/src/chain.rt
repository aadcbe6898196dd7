//! What a task's coroutine awaits.
ghost use Rattle.std.specs.Prelude.{◌≡◌, ◌+◌, ◌*◌, length};
ghost use Rattle.process_memory.specs.Seen.{Reads, items_of};
ghost use Rattle.py_coroutines.specs.Places.{IsSound as IsSoundPlaces, IsSoundFamily};
ghost use Rattle.py_fields.specs.Sound.{IsSound};
ghost use Rattle.py_names.specs.NamesError.{names_fault};
ghost use Rattle.py_tasks.specs.Chains.{IsFrame, awaits_at, awaits_result, chain_at, chain_result, frame_by};
ghost use Rattle.py_tasks.specs.Chains.{kind_at, known_kind_at, member_at, members_of};
ghost use Rattle.task_sets.specs.Gathered.{gathered};

use crate::fault::or_none;
use crate::{Chain, Member};
use coroutine_frames::{CoroutineFrame, read_frame};
use process_memory::ProcessMemory;
use py_coroutines::{AwaitError, Awaits, Family, Kind, Places, read_awaits, read_kind};
use py_fields::Layout;
use py_names::NamesError;
use py_stacks::StackError;
use std::alloc::Global;

/// What the object at an address is. At most one read.
fn read_own_kind<P: ProcessMemory>(
    process: &mut P,
    places: &Places,
    at: u64,
) -> Result<Option<Kind>, NamesError>
    ensures { Reads names_fault 1 (P.seen process.old) (P.seen process.new) (λ m. kind_at places.now m at) result }
{
    let kind = read_kind(process, places, at)?;
    Ok(kind)
}

/// The same; none where that is not in memory. At most one read.
fn read_known_kind<P: ProcessMemory>(
    process: &mut P,
    places: &Places,
    at: u64,
) -> Result<Option<Kind>, NamesError>
    ensures { Reads names_fault 1 (P.seen process.old) (P.seen process.new)
        (λ m. known_kind_at places.now m at) result }
{
    or_none(read_own_kind(process, places, at))
}

/// A frame, where it was read; out of memory is handed on.
fn frame_or_none(
    frame: Result<Option<CoroutineFrame>, StackError>,
) -> Result<Option<CoroutineFrame>, NamesError>
    ensures { IsFrame frame result }
{
    match frame {
        Ok(frame) => Ok(frame),
        Err(StackError::OutOfMemory) => Err(NamesError::OutOfMemory),
        Err(StackError::Unreadable { .. }) => Ok(None),
        Err(StackError::BadValue { .. }) => Ok(None),
        Err(StackError::LocalsLimit { .. }) => Ok(None),
        Err(StackError::ThreadLimit) => Ok(None),
        Err(StackError::FrameLimit) => Ok(None),
        Err(StackError::ChainLimit) => Ok(None),
    }
}

/// What the frame of a member shows, where it is one that has a frame. At most 9 reads.
fn read_own_frame<P: ProcessMemory>(
    alloc: Global,
    process: &mut P,
    layout: &Layout,
    family: &Family,
    kind: Option<Kind>,
    at: u64,
) -> Result<Option<CoroutineFrame>, NamesError>
    requires sound { IsSound layout.now }
    requires family { IsSoundFamily family.now }
    ensures { Reads names_fault 9 (P.seen process.old) (P.seen process.new)
        (λ m. frame_by layout.now family.now m kind at) result }
{
    match kind {
        None => Ok(None),
        Some(_) => frame_or_none(read_frame(alloc, process, layout, family, at)),
    }
}

/// A member of a chain. At most 10 reads.
fn read_member<P: ProcessMemory>(
    alloc: Global,
    process: &mut P,
    layout: &Layout,
    places: &Places,
    address: u64,
) -> Result<Member, NamesError>
    requires sound { IsSound layout.now }
    requires places { IsSoundPlaces places.now }
    ensures { Reads names_fault 10 (P.seen process.old) (P.seen process.new)
        (λ m. member_at layout.now places.now m address) result }
{
    let kind = read_known_kind(process, places, address)?;
    let frame = read_own_frame(alloc, process, layout, &places.family, kind, address)?;
    Ok(Member {
        address,
        kind,
        frame,
    })
}

/// The members of a chain. At most 10 reads for each.
fn read_members<P: ProcessMemory>(
    alloc: Global,
    process: &mut P,
    layout: &Layout,
    places: &Places,
    addresses: &[u64],
) -> Result<Vec<Member>, NamesError>
    requires sound { IsSound layout.now }
    requires places { IsSoundPlaces places.now }
    ensures { Reads names_fault (10 * length addresses.now) (P.seen process.old) (P.seen process.new)
        (λ m. gathered (members_of layout.now places.now m addresses.now) (length addresses.now) 0) (items_of result) }
{
    let mut members = Vec::new(alloc);
    for address in addresses {
        let member = read_member(alloc, process, layout, places, *address)?;
        members.push(member)?;
    }
    Ok(members)
}

/// The chain from an address on. At most 7 reads for each member, and 7 more.
fn read_addresses<P: ProcessMemory>(
    alloc: Global,
    process: &mut P,
    places: &Places,
    limit: usize,
    head: u64,
) -> Result<Awaits, NamesError>
    requires places { IsSoundPlaces places.now }
    ensures { Reads names_fault (7 * limit + 7) (P.seen process.old) (P.seen process.new)
        (λ m. awaits_at places.now m limit head) (awaits_result result) }
{
    match read_awaits(alloc, process, places, limit, head) {
        Ok(chain) => Ok(chain),
        Err(AwaitError::OutOfMemory) => Err(NamesError::OutOfMemory),
    }
}

/// What awaits what, from an address on, of which so many members are met at most, the last one first, and what the
/// frame of each shows. At most 17 reads for each, and 17 more.
pub(crate) fn read_chain<P: ProcessMemory>(
    alloc: Global,
    process: &mut P,
    layout: &Layout,
    places: &Places,
    limit: usize,
    head: u64,
) -> Result<Chain, NamesError>
    requires sound { IsSound layout.now }
    requires places { IsSoundPlaces places.now }
    ensures { Reads names_fault (17 * limit + 17) (P.seen process.old) (P.seen process.new)
        (λ m. chain_at layout.now places.now m limit head) (chain_result result) }
{
    let awaits = read_addresses(alloc, process, places, limit, head)?;
    let mut members = read_members(alloc, process, layout, places, &awaits.members)?;
    members.reverse();
    Ok(Chain {
        members,
        end: awaits.end,
    })
}
