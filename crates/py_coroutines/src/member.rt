//! What a member of a chain is, and where its frame stands.
ghost use Rattle.std.specs.Prelude.{◌≡◌, length};
ghost use Rattle.process_memory.specs.Seen.{Reads, read_fault};
ghost use Rattle.py_coroutines.specs.Members.{apart_place, apart_place_at, frame_place_at, inside_place};
ghost use Rattle.py_coroutines.specs.Members.{inside_place_at, kind_at};
ghost use Rattle.py_coroutines.specs.Places.{IsSoundApart, IsSoundFamily, IsSoundInside};

use crate::kinds::kind_of;
use crate::standing::state_of;
use crate::{ApartPlaces, Family, InsidePlaces, Kind, Places, State};
use elf64_core::u64_in;
use process_memory::{ProcessMemory, ReadFault, record, word_past};
use std::alloc::Global;

/// What the object at an address is, by the address of its class; none where it is neither a coroutine, a generator nor
/// an async generator. A class that is not in memory is `Unreadable`. One read.
pub fn read_kind<P: ProcessMemory>(
    process: &mut P,
    places: &Places,
    at: u64,
) -> Result<Option<Kind>, ReadFault>
    ensures { Reads read_fault 1 (P.seen process.old) (P.seen process.new) (λ m. kind_at places.now m at) result }
{
    let class = word_past(process, at, places.class.klass as u64)?;
    Ok(kind_of(&places.types, class))
}

/// Where the frame of a coroutine at an address stands that has it inside; none of one that is finished.
#[tactic(auto, unfolding(crate::specs::Members::inside_place, elf64_core::specs::Fields::u8_in))]
fn inside_place(places: &InsidePlaces, at: u64, bytes: &[u8]) -> Option<u64>
    requires sound { IsSoundInside places.now }
    requires whole { length bytes.now ≡ places.now.size }
    ensures { result ≡ inside_place places.now at bytes.now }
{
    match state_of(&places.states, bytes[places.state as usize]) {
        State::Finished => None,
        State::Created | State::Yielding | State::Awaiting | State::Suspended | State::Running =>
            at.checked_add(places.frame as u64),
    }
}

/// Where the frame object of a coroutine stands; none of one that is finished.
#[tactic(auto, unfolding(crate::specs::Members::apart_place))]
fn apart_place(places: &ApartPlaces, bytes: &[u8]) -> Option<u64>
    requires sound { IsSoundApart places.now }
    requires whole { length bytes.now ≡ places.now.size }
    ensures { result ≡ apart_place places.now bytes.now }
{
    let frame = u64_in(bytes, places.frame as usize);
    if frame == 0 { None } else { Some(frame) }
}

/// The same of the coroutine at an address that has its frame inside. One read.
fn read_inside_place<P: ProcessMemory>(
    alloc: Global,
    process: &mut P,
    places: &InsidePlaces,
    at: u64,
) -> Result<Option<u64>, ReadFault>
    requires sound { IsSoundInside places.now }
    ensures { Reads read_fault 1 (P.seen process.old) (P.seen process.new)
        (λ m. inside_place_at places.now m at) result }
{
    let bytes = record(alloc, process, at, places.size as u64)?;
    Ok(inside_place(places, at, &bytes))
}

/// The same of the coroutine at an address whose frame is an object of its own. One read.
fn read_apart_place<P: ProcessMemory>(
    alloc: Global,
    process: &mut P,
    places: &ApartPlaces,
    at: u64,
) -> Result<Option<u64>, ReadFault>
    requires sound { IsSoundApart places.now }
    ensures { Reads read_fault 1 (P.seen process.old) (P.seen process.new)
        (λ m. apart_place_at places.now m at) result }
{
    let bytes = record(alloc, process, at, places.size as u64)?;
    Ok(apart_place(places, &bytes))
}

/// Where the frame of the coroutine, generator or async generator at an address stands; none of one that is finished.
/// A record that is not in memory is `Unreadable`. One read.
pub fn read_frame_place<P: ProcessMemory>(
    alloc: Global,
    process: &mut P,
    family: &Family,
    at: u64,
) -> Result<Option<u64>, ReadFault>
    requires sound { IsSoundFamily family.now }
    ensures { Reads read_fault 1 (P.seen process.old) (P.seen process.new)
        (λ m. frame_place_at family.now m at) result }
{
    match family {
        Family::Apart(places) => read_apart_place(alloc, process, places, at),
        Family::Inside(places) => read_inside_place(alloc, process, places, at),
    }
}
