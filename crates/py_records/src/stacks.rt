//! Where the values of a frame stand that its instructions work on, and what tells its state.
ghost use Rattle.std.specs.Prelude.{◌≡◌, ◌↔◌, IsTrue, IfSome, option_map, codes, Some, None};
ghost use Rattle.toml.specs.View.{table_view};
ghost use Rattle.py_layout.specs.Values.{group_at};
ghost use Rattle.py_records.specs.Stacks.{IsSoundStackPointer, stack_pointer_in, IsSoundStackDepth, stack_depth_in};
ghost use Rattle.py_records.specs.Stacks.{IsSoundStackCount, stack_count_in, IsSoundStates, states_in};
ghost use Rattle.py_records.specs.Stacks.{IsSoundAwaitingState, awaiting_state_in, IsSoundYieldFrom, yield_from_in};
ghost use Rattle.py_records.specs.Stacks.{IsSoundResume, resume_in, stacks_from, AreSoundStacks, joined_stacks};
ghost use Rattle.py_records.specs.Stacks.{share_stacks, no_stacks};

use crate::places::{any_both, are_plain};
use crate::values::{group_at, number_in};
use toml::Table;

/// The stack of values up to 3.9 (`PyFrameObject`, Include/frameobject.h).
#[derive(Clone, Copy)]
pub struct StackPointerRecord {
    /// The address of the lowest value.
    pub bottom: u32,
    /// The address behind the topmost; 0 where it is not stored.
    pub top: u32,
}

/// The stack of values in 3.10 (`PyFrameObject`, Include/cpython/frameobject.h).
#[derive(Clone, Copy)]
pub struct StackDepthRecord {
    /// The address of the lowest value.
    pub bottom: u32,
    /// How many values there are. It has 4 bytes.
    pub depth: u32,
    /// The frame's state. It has 1 byte.
    pub state: u32,
}

/// The stack of values from 3.11 on (`_PyInterpreterFrame`, Include/internal/pycore_frame.h).
#[derive(Clone, Copy)]
pub struct StackCountRecord {
    /// How many words from the first local on are in use, or -1 where that is not stored. It has 4 bytes.
    pub top: u32,
}

/// The bytes that stand for a frame's states, from 3.10 on (Include/internal/pycore_frame.h).
#[derive(Clone, Copy)]
pub struct StatesRecord {
    pub created: u32,
    pub suspended: u32,
    pub running: u32,
}

/// One more state of a frame, from 3.13 on (`FRAME_SUSPENDED_YIELD_FROM`, Include/internal/pycore_frame.h).
#[derive(Clone, Copy)]
pub struct AwaitingStateRecord {
    /// That of a frame that awaits another one.
    pub state: u32,
}

/// The instruction before which a frame that awaits stands, up to 3.10 (`YIELD_FROM`, Include/opcode.h).
#[derive(Clone, Copy)]
pub struct YieldFromRecord {
    pub opcode: u32,
}

/// The instruction by which a frame goes on, from 3.11 on (`RESUME`, Include/opcode.h).
#[derive(Clone, Copy)]
pub struct ResumeRecord {
    /// Its usual opcode.
    pub first: u32,
    /// Its opcode in another form.
    pub second: u32,
}

/// Where the values of a frame stand that its instructions work on, and what tells its state. Each group is
/// there or not.
#[derive(Clone, Copy)]
pub struct StackRecords {
    pub stack_pointer: Option<StackPointerRecord>,
    pub stack_depth: Option<StackDepthRecord>,
    pub stack_count: Option<StackCountRecord>,
    pub states: Option<StatesRecord>,
    pub awaiting_state: Option<AwaitingStateRecord>,
    pub yield_from: Option<YieldFromRecord>,
    pub resume: Option<ResumeRecord>,
}

fn stack_pointer_from(table: &Table) -> Option<StackPointerRecord>
    ensures { result ≡ option_map stack_pointer_in (group_at (table_view table.now) (codes "stack_pointer")) }
{
    match group_at(table, "stack_pointer") {
        Some(group) => Some(StackPointerRecord {
            bottom: number_in(group, "bottom"),
            top: number_in(group, "top"),
        }),
        None => None,
    }
}

fn is_sound_stack_pointer(at: Option<StackPointerRecord>) -> bool
    ensures { IsTrue result ↔ IfSome at IsSoundStackPointer }
{
    match at {
        Some(at) => are_plain(&[at.bottom, at.top]),
        None => true,
    }
}

fn stack_depth_from(table: &Table) -> Option<StackDepthRecord>
    ensures { result ≡ option_map stack_depth_in (group_at (table_view table.now) (codes "stack_depth")) }
{
    match group_at(table, "stack_depth") {
        Some(group) => Some(StackDepthRecord {
            bottom: number_in(group, "bottom"),
            depth: number_in(group, "depth"),
            state: number_in(group, "state"),
        }),
        None => None,
    }
}

fn is_sound_stack_depth(at: Option<StackDepthRecord>) -> bool
    ensures { IsTrue result ↔ IfSome at IsSoundStackDepth }
{
    match at {
        Some(at) => are_plain(&[at.bottom, at.depth, at.state]),
        None => true,
    }
}

fn stack_count_from(table: &Table) -> Option<StackCountRecord>
    ensures { result ≡ option_map stack_count_in (group_at (table_view table.now) (codes "stack_count")) }
{
    match group_at(table, "stack_count") {
        Some(group) => Some(StackCountRecord {
            top: number_in(group, "top"),
        }),
        None => None,
    }
}

fn is_sound_stack_count(at: Option<StackCountRecord>) -> bool
    ensures { IsTrue result ↔ IfSome at IsSoundStackCount }
{
    match at {
        Some(at) => are_plain(&[at.top]),
        None => true,
    }
}

fn states_from(table: &Table) -> Option<StatesRecord>
    ensures { result ≡ option_map states_in (group_at (table_view table.now) (codes "states")) }
{
    match group_at(table, "states") {
        Some(group) => Some(StatesRecord {
            created: number_in(group, "created"),
            suspended: number_in(group, "suspended"),
            running: number_in(group, "running"),
        }),
        None => None,
    }
}

fn is_sound_states(at: Option<StatesRecord>) -> bool
    ensures { IsTrue result ↔ IfSome at IsSoundStates }
{
    match at {
        Some(at) => are_plain(&[at.created, at.suspended, at.running]),
        None => true,
    }
}

fn awaiting_state_from(table: &Table) -> Option<AwaitingStateRecord>
    ensures { result ≡ option_map awaiting_state_in (group_at (table_view table.now) (codes "awaiting_state")) }
{
    match group_at(table, "awaiting_state") {
        Some(group) => Some(AwaitingStateRecord {
            state: number_in(group, "state"),
        }),
        None => None,
    }
}

fn is_sound_awaiting_state(at: Option<AwaitingStateRecord>) -> bool
    ensures { IsTrue result ↔ IfSome at IsSoundAwaitingState }
{
    match at {
        Some(at) => are_plain(&[at.state]),
        None => true,
    }
}

fn yield_from_from(table: &Table) -> Option<YieldFromRecord>
    ensures { result ≡ option_map yield_from_in (group_at (table_view table.now) (codes "yield_from")) }
{
    match group_at(table, "yield_from") {
        Some(group) => Some(YieldFromRecord {
            opcode: number_in(group, "opcode"),
        }),
        None => None,
    }
}

fn is_sound_yield_from(at: Option<YieldFromRecord>) -> bool
    ensures { IsTrue result ↔ IfSome at IsSoundYieldFrom }
{
    match at {
        Some(at) => are_plain(&[at.opcode]),
        None => true,
    }
}

fn resume_from(table: &Table) -> Option<ResumeRecord>
    ensures { result ≡ option_map resume_in (group_at (table_view table.now) (codes "resume")) }
{
    match group_at(table, "resume") {
        Some(group) => Some(ResumeRecord {
            first: number_in(group, "first"),
            second: number_in(group, "second"),
        }),
        None => None,
    }
}

fn is_sound_resume(at: Option<ResumeRecord>) -> bool
    ensures { IsTrue result ↔ IfSome at IsSoundResume }
{
    match at {
        Some(at) => are_plain(&[at.first, at.second]),
        None => true,
    }
}

/// The groups that a table says.
#[tactic(auto, unfolding(crate::specs::Stacks::stacks_from))]
pub fn stacks_from(table: &Table) -> StackRecords
    ensures { result ≡ stacks_from (table_view table.now) }
{
    StackRecords {
        stack_pointer: stack_pointer_from(table),
        stack_depth: stack_depth_from(table),
        stack_count: stack_count_from(table),
        states: states_from(table),
        awaiting_state: awaiting_state_from(table),
        yield_from: yield_from_from(table),
        resume: resume_from(table),
    }
}

/// Whether each group that is there is sound.
pub fn are_sound_stacks(records: &StackRecords) -> bool
    ensures { IsTrue result ↔ AreSoundStacks records.now }
{
    is_sound_stack_pointer(records.stack_pointer)
        && is_sound_stack_depth(records.stack_depth)
        && is_sound_stack_count(records.stack_count)
        && is_sound_states(records.states)
        && is_sound_awaiting_state(records.awaiting_state)
        && is_sound_yield_from(records.yield_from)
        && is_sound_resume(records.resume)
}

/// No group is there.
pub fn no_stacks() -> StackRecords
    ensures { result ≡ no_stacks }
{
    StackRecords {
        stack_pointer: None,
        stack_depth: None,
        stack_count: None,
        states: None,
        awaiting_state: None,
        yield_from: None,
        resume: None,
    }
}

/// Each group of the first that is there, and else of the second.
#[tactic(auto, unfolding(crate::specs::Stacks::joined_stacks))]
pub fn joined_stacks(one: &StackRecords, other: &StackRecords) -> StackRecords
    ensures { result ≡ joined_stacks one.now other.now }
{
    StackRecords {
        stack_pointer: one.stack_pointer.or(other.stack_pointer),
        stack_depth: one.stack_depth.or(other.stack_depth),
        stack_count: one.stack_count.or(other.stack_count),
        states: one.states.or(other.states),
        awaiting_state: one.awaiting_state.or(other.awaiting_state),
        yield_from: one.yield_from.or(other.yield_from),
        resume: one.resume.or(other.resume),
    }
}

/// Whether a group is there in both.
#[tactic(auto, unfolding(crate::specs::Stacks::share_stacks))]
pub fn share_stacks(one: &StackRecords, other: &StackRecords) -> bool
    ensures { result ≡ share_stacks one.now other.now }
{
    any_both(
        &[
            one.stack_pointer.is_some(),
            one.stack_depth.is_some(),
            one.stack_count.is_some(),
            one.states.is_some(),
            one.awaiting_state.is_some(),
            one.yield_from.is_some(),
            one.resume.is_some(),
        ],
        &[
            other.stack_pointer.is_some(),
            other.stack_depth.is_some(),
            other.stack_count.is_some(),
            other.states.is_some(),
            other.awaiting_state.is_some(),
            other.yield_from.is_some(),
            other.resume.is_some(),
        ],
    )
}
