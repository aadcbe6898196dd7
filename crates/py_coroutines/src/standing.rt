//! Where a coroutine stands, by its record and its frame's.
ghost use Rattle.std.specs.Prelude.{◌≡◌, ◌<◌, ◌^◌, length};
ghost use Rattle.elf64_core.specs.Fields.{u8_in};
ghost use Rattle.process_memory.specs.Seen.{Reads, read_fault};
ghost use Rattle.py_coroutines.specs.Places.{IsSoundApart, IsSoundFamily, IsSoundInside};
ghost use Rattle.py_coroutines.specs.Standings.{apart_at, by_framed, by_state, depth_standing, framed_of, inside_at};
ghost use Rattle.py_coroutines.specs.Standings.{inside_standing, pointer_standing, pointer_top, standing_at};
ghost use Rattle.py_coroutines.specs.Standings.{apart_standing, state_of, words_top};

use crate::{ApartPlaces, ApartStack, Family, InsidePlaces, States};
use elf64_core::{u32_in, u64_in};
use process_memory::{ProcessMemory, ReadFault, record};
use std::alloc::Global;

/// The state of a coroutine.
#[derive(Clone, Copy)]
pub enum State {
    /// Before its first instruction.
    Created,
    /// In a plain `yield`.
    Yielding,
    /// In an `await` or a `yield from`.
    Awaiting,
    /// In one of these two: its code says in which.
    Suspended,
    /// It runs.
    Running,
    /// Behind its last instruction.
    Finished,
}

/// Where a coroutine stands.
#[derive(Clone, Copy)]
pub enum Standing {
    /// Before its first instruction.
    Created,
    /// In a plain `yield`.
    Yielding,
    /// It awaits the object that the word at `top` names; none where its stack is empty.
    Awaiting {
        top: Option<u128>,
    },
    /// In a `yield`, an `await` or a `yield from`: the instruction at `next` says in which.
    Suspended {
        next: u128,
        top: Option<u128>,
    },
    /// The same: that instruction stands so far behind the first one of the code at `code`.
    Coded {
        code: u64,
        offset: u64,
        top: Option<u128>,
    },
    /// It runs.
    Running,
    /// Behind its last instruction.
    Finished,
}

/// What a coroutine's record says of a frame of its own.
#[derive(Clone, Copy)]
enum Framed {
    Finished,
    Running,
    /// Its frame stands at this address.
    At(u64),
}

/// The state that a byte stands for.
#[tactic(auto, unfolding(crate::specs::Standings::state_of))]
pub(crate) fn state_of(states: &States, byte: u8) -> State
    ensures { result ≡ state_of states.now byte }
{
    let byte = byte as u32;
    if byte == states.created {
        return State::Created;
    }
    if byte == states.suspended {
        return match states.awaiting {
            None => State::Suspended,
            Some(_) => State::Yielding,
        };
    }
    if let Some(awaiting) = states.awaiting {
        if byte == awaiting {
            return State::Awaiting;
        }
    }
    if byte == states.running {
        return State::Running;
    }
    State::Finished
}

/// Where a coroutine of a state stands, with the top of its stack, and where it stands if it is suspended.
fn by_state(state: State, suspended: Standing, top: Option<u128>) -> Standing
    ensures { result ≡ by_state suspended top state }
{
    match state {
        State::Created => Standing::Created,
        State::Yielding => Standing::Yielding,
        State::Awaiting => Standing::Awaiting { top },
        State::Suspended => suspended,
        State::Running => Standing::Running,
        State::Finished => Standing::Finished,
    }
}

/// The address of the topmost of so many words; none where there is none, or the count is below 0.
#[tactic(auto, unfolding(crate::specs::Standings::words_top))]
fn words_top(bottom: u128, count: u32) -> Option<u128>
    requires { bottom < 2 ^ 65 }
    ensures { result ≡ words_top bottom count }
{
    if count == 0 || count >= 1 << 31 {
        return None;
    }
    Some(bottom + 8 * u128::from(count - 1))
}

/// The address of the topmost word below an address; none where that is 0.
#[tactic(auto, unfolding(crate::specs::Standings::pointer_top))]
fn pointer_top(behind: u64) -> Option<u128>
    ensures { result ≡ pointer_top behind }
{
    if behind < 8 {
        return None;
    }
    Some(u128::from(behind - 8))
}

/// Where a coroutine at an address stands that has its frame inside, by its record.
#[tactic(auto, unfolding(crate::specs::Standings::inside_standing, elf64_core::specs::Fields::u8_in))]
fn inside_standing(places: &InsidePlaces, at: u64, bytes: &[u8]) -> Standing
    requires sound { IsSoundInside places.now }
    requires whole { length bytes.now ≡ places.now.size }
    ensures { result ≡ inside_standing places.now at bytes.now }
{
    let state = state_of(&places.states, bytes[places.state as usize]);
    let frame = places.frame as usize;
    let count = u32_in(bytes, frame + places.depth as usize);
    let stack = at as u128 + places.frame as u128 + places.stack as u128;
    let top = words_top(stack, count);
    let next = u128::from(u64_in(bytes, frame + places.instruction as usize)) + 2;
    by_state(state, Standing::Suspended { next, top }, top)
}

/// Where a coroutine at an address stands that has its frame inside. One read.
fn read_inside<P: ProcessMemory>(
    alloc: Global,
    process: &mut P,
    places: &InsidePlaces,
    at: u64,
) -> Result<Standing, ReadFault>
    requires sound { IsSoundInside places.now }
    ensures { Reads read_fault 1 (P.seen process.old) (P.seen process.new) (λ m. inside_at places.now m at) result }
{
    let bytes = record(alloc, process, at, places.size as u64)?;
    Ok(inside_standing(places, at, &bytes))
}

/// What a coroutine's record says of a frame of its own.
#[tactic(auto, unfolding(crate::specs::Standings::framed_of, elf64_core::specs::Fields::u8_in))]
fn framed_of(places: &ApartPlaces, bytes: &[u8]) -> Framed
    requires sound { IsSoundApart places.now }
    requires whole { length bytes.now ≡ places.now.size }
    ensures { result ≡ framed_of places.now bytes.now }
{
    let frame = u64_in(bytes, places.frame as usize);
    if frame == 0 {
        return Framed::Finished;
    }
    match places.running {
        None => Framed::At(frame),
        Some(running) => {
            if bytes[running as usize] == 0 {
                Framed::At(frame)
            } else {
                Framed::Running
            }
        }
    }
}

/// Where a frame stands that names the top of its stack, with its code and last instruction.
#[tactic(auto, unfolding(crate::specs::Standings::pointer_standing))]
fn pointer_standing(code: u64, last: u32, behind: u64) -> Standing
    ensures { result ≡ pointer_standing code last behind }
{
    if last >= 1 << 31 {
        return Standing::Created;
    }
    let top = pointer_top(behind);
    let offset = last as u64 + 2;
    Standing::Coded { code, offset, top }
}

/// Where a frame of a state stands that counts the values on its stack, with its code and last instruction.
#[tactic(auto, unfolding(crate::specs::Standings::depth_standing))]
fn depth_standing(state: State, code: u64, last: u32, bottom: u64, count: u32) -> Standing
    ensures { result ≡ depth_standing state code last bottom count }
{
    let top = words_top(bottom as u128, count);
    let offset = 2 * last as u64 + 2;
    by_state(state, Standing::Coded { code, offset, top }, top)
}

/// Where a coroutine stands, by its frame's record.
#[tactic(auto, unfolding(crate::specs::Standings::apart_standing, elf64_core::specs::Fields::u8_in))]
fn apart_standing(places: &ApartPlaces, frame: &[u8]) -> Standing
    requires sound { IsSoundApart places.now }
    requires whole { length frame.now ≡ places.now.frame_size }
    ensures { result ≡ apart_standing places.now frame.now }
{
    let code = u64_in(frame, places.code as usize);
    let last = u32_in(frame, places.last as usize);
    match places.stack {
        ApartStack::Pointer { top } => { pointer_standing(code, last, u64_in(frame, top as usize)) }
        ApartStack::Depth {
            bottom,
            depth,
            state,
            states,
        } => {
            let state = state_of(&states, frame[state as usize]);
            let bottom = u64_in(frame, bottom as usize);
            let count = u32_in(frame, depth as usize);
            depth_standing(state, code, last, bottom, count)
        }
    }
}

/// Where a coroutine stands, by what its record says of a frame of its own. At most one read.
fn read_framed<P: ProcessMemory>(
    alloc: Global,
    process: &mut P,
    places: &ApartPlaces,
    framed: Framed,
) -> Result<Standing, ReadFault>
    requires sound { IsSoundApart places.now }
    ensures { Reads read_fault 1 (P.seen process.old) (P.seen process.new)
        (λ m. by_framed places.now m framed) result }
{
    match framed {
        Framed::Finished => Ok(Standing::Finished),
        Framed::Running => Ok(Standing::Running),
        Framed::At(frame) => {
            let bytes = record(alloc, process, frame, places.frame_size as u64)?;
            Ok(apart_standing(places, &bytes))
        }
    }
}

/// Where a coroutine at an address stands whose frame is an object of its own. At most 2 reads.
fn read_apart<P: ProcessMemory>(
    alloc: Global,
    process: &mut P,
    places: &ApartPlaces,
    at: u64,
) -> Result<Standing, ReadFault>
    requires sound { IsSoundApart places.now }
    ensures { Reads read_fault 2 (P.seen process.old) (P.seen process.new) (λ m. apart_at places.now m at) result }
{
    let bytes = record(alloc, process, at, places.size as u64)?;
    let framed = framed_of(places, &bytes);
    read_framed(alloc, process, places, framed)
}

/// Where the coroutine, generator or async generator at an address stands. A record that is not in memory is
/// `Unreadable`. At most 2 reads.
pub fn read_standing<P: ProcessMemory>(
    alloc: Global,
    process: &mut P,
    family: &Family,
    at: u64,
) -> Result<Standing, ReadFault>
    requires sound { IsSoundFamily family.now }
    ensures { Reads read_fault 2 (P.seen process.old) (P.seen process.new) (λ m. standing_at family.now m at) result }
{
    match family {
        Family::Apart(places) => read_apart(alloc, process, places, at),
        Family::Inside(places) => read_inside(alloc, process, places, at),
    }
}
