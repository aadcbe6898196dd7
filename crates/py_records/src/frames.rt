//! Code, frames and tracebacks.
ghost use Rattle.std.specs.Prelude.{◌≡◌, ◌↔◌, IsTrue, IfSome, option_map, codes, Some, None};
ghost use Rattle.toml.specs.View.{table_view};
ghost use Rattle.py_layout.specs.Values.{group_at};
ghost use Rattle.py_records.specs.Frames.{code_places, IsSoundCode, code_in, IsSoundCodeNames, code_names_in};
ghost use Rattle.py_records.specs.Frames.{IsSoundCodeKinds, code_kinds_in, frame_object_places, IsSoundFrameObject};
ghost use Rattle.py_records.specs.Frames.{frame_object_in, IsSoundOwner, owner_in, IsSoundShim, shim_in};
ghost use Rattle.py_records.specs.Frames.{IsSoundEntry, entry_in, cframe_places, IsSoundCframe, cframe_in};
ghost use Rattle.py_records.specs.Frames.{traceback_places, IsSoundTraceback, traceback_in, frames_from};
ghost use Rattle.py_records.specs.Frames.{AreSoundFrames, joined_frames, share_frames, no_frames};

use crate::places::{any_both, are_plain, is_record};
use crate::values::{group_at, number_in};
use toml::Table;

/// Code (`PyCodeObject`, Include/code.h).
#[derive(Clone, Copy)]
pub struct CodeRecord {
    /// The basic size that its type states.
    pub size: u32,
    /// It has 4 bytes.
    pub flags: u32,
    /// How many values its stack may hold. It has 4 bytes.
    pub stack_size: u32,
}

/// Code up to 3.10 (`PyCodeObject`, Include/code.h).
#[derive(Clone, Copy)]
pub struct CodeNamesRecord {
    /// The address of the instructions.
    pub bytecode: u32,
    /// The address of the tuple of names of cells.
    pub cells: u32,
    /// The address of the tuple of names of free variables.
    pub frees: u32,
}

/// Code from 3.11 on (`PyCodeObject`, Include/cpython/code.h).
#[derive(Clone, Copy)]
pub struct CodeKindsRecord {
    /// How many variables of all kinds there are. It has 4 bytes.
    pub count: u32,
    /// The address of the bytes that tell the kind of each.
    pub kinds: u32,
    /// The address of the qualified name.
    pub qualname: u32,
}

/// The object of a frame from 3.11 on (`PyFrameObject`, Include/internal/pycore_frame.h).
#[derive(Clone, Copy)]
pub struct FrameObjectRecord {
    /// The basic size that its type states.
    pub size: u32,
    /// The address of the frame.
    pub frame: u32,
}

/// Who owns a frame, from 3.11 on (`_PyInterpreterFrame`, Include/internal/pycore_frame.h).
#[derive(Clone, Copy)]
pub struct OwnerRecord {
    /// Where a frame says who owns it. It has 1 byte.
    pub place: u32,
    /// Its value for a thread's frame.
    pub thread: u32,
    /// Its value for one inside a generator.
    pub generator: u32,
    /// Its value for one inside a frame object.
    pub frame_object: u32,
}

/// Frames where C called Python, from 3.12 on (`FRAME_OWNED_BY_CSTACK`, Include/internal/pycore_frame.h).
#[derive(Clone, Copy)]
pub struct ShimRecord {
    /// The value by which a frame says that a C call ends there.
    pub owner: u32,
}

/// Frames where C called Python in 3.11 (`_PyInterpreterFrame`, Include/internal/pycore_frame.h).
#[derive(Clone, Copy)]
pub struct EntryRecord {
    /// Where a frame says whether a C call ends there. It has 1 byte.
    pub place: u32,
}

/// A C frame of 3.11 and 3.12 (`_PyCFrame`, Include/cpython/pystate.h).
#[derive(Clone, Copy)]
pub struct CframeRecord {
    pub size: u32,
    /// The address of the newest frame.
    pub current: u32,
    /// The address of the C frame before.
    pub previous: u32,
}

/// An entry of a traceback (`PyTracebackObject`, Include/traceback.h).
#[derive(Clone, Copy)]
pub struct TracebackRecord {
    /// The basic size that its type states.
    pub size: u32,
    /// The address of the next entry, of the function called.
    pub next: u32,
    /// The address of the frame object.
    pub frame: u32,
    /// The last instruction, in bytes. It has 4 bytes.
    pub lasti: u32,
    /// The line, or a negative number where it isn't known yet. It has 4 bytes.
    pub line: u32,
}

/// Code, frames and tracebacks. Each group is there or not.
#[derive(Clone, Copy)]
pub struct FrameRecords {
    pub code: Option<CodeRecord>,
    pub code_names: Option<CodeNamesRecord>,
    pub code_kinds: Option<CodeKindsRecord>,
    pub frame_object: Option<FrameObjectRecord>,
    pub owner: Option<OwnerRecord>,
    pub shim: Option<ShimRecord>,
    pub entry: Option<EntryRecord>,
    pub cframe: Option<CframeRecord>,
    pub traceback: Option<TracebackRecord>,
}

fn code_from(table: &Table) -> Option<CodeRecord>
    ensures { result ≡ option_map code_in (group_at (table_view table.now) (codes "code")) }
{
    match group_at(table, "code") {
        Some(group) => Some(CodeRecord {
            size: number_in(group, "size"),
            flags: number_in(group, "flags"),
            stack_size: number_in(group, "stack_size"),
        }),
        None => None,
    }
}

#[tactic(auto, unfolding(crate::specs::Frames::code_places))]
fn is_sound_code(at: Option<CodeRecord>) -> bool
    ensures { IsTrue result ↔ IfSome at IsSoundCode }
{
    match at {
        Some(at) => is_record(at.size, &[(at.flags, 4), (at.stack_size, 4)]),
        None => true,
    }
}

fn code_names_from(table: &Table) -> Option<CodeNamesRecord>
    ensures { result ≡ option_map code_names_in (group_at (table_view table.now) (codes "code_names")) }
{
    match group_at(table, "code_names") {
        Some(group) => Some(CodeNamesRecord {
            bytecode: number_in(group, "bytecode"),
            cells: number_in(group, "cells"),
            frees: number_in(group, "frees"),
        }),
        None => None,
    }
}

fn is_sound_code_names(at: Option<CodeNamesRecord>) -> bool
    ensures { IsTrue result ↔ IfSome at IsSoundCodeNames }
{
    match at {
        Some(at) => are_plain(&[at.bytecode, at.cells, at.frees]),
        None => true,
    }
}

fn code_kinds_from(table: &Table) -> Option<CodeKindsRecord>
    ensures { result ≡ option_map code_kinds_in (group_at (table_view table.now) (codes "code_kinds")) }
{
    match group_at(table, "code_kinds") {
        Some(group) => Some(CodeKindsRecord {
            count: number_in(group, "count"),
            kinds: number_in(group, "kinds"),
            qualname: number_in(group, "qualname"),
        }),
        None => None,
    }
}

fn is_sound_code_kinds(at: Option<CodeKindsRecord>) -> bool
    ensures { IsTrue result ↔ IfSome at IsSoundCodeKinds }
{
    match at {
        Some(at) => are_plain(&[at.count, at.kinds, at.qualname]),
        None => true,
    }
}

fn frame_object_from(table: &Table) -> Option<FrameObjectRecord>
    ensures { result ≡ option_map frame_object_in (group_at (table_view table.now) (codes "frame_object")) }
{
    match group_at(table, "frame_object") {
        Some(group) => Some(FrameObjectRecord {
            size: number_in(group, "size"),
            frame: number_in(group, "frame"),
        }),
        None => None,
    }
}

#[tactic(auto, unfolding(crate::specs::Frames::frame_object_places))]
fn is_sound_frame_object(at: Option<FrameObjectRecord>) -> bool
    ensures { IsTrue result ↔ IfSome at IsSoundFrameObject }
{
    match at {
        Some(at) => is_record(at.size, &[(at.frame, 8)]),
        None => true,
    }
}

fn owner_from(table: &Table) -> Option<OwnerRecord>
    ensures { result ≡ option_map owner_in (group_at (table_view table.now) (codes "owner")) }
{
    match group_at(table, "owner") {
        Some(group) => Some(OwnerRecord {
            place: number_in(group, "place"),
            thread: number_in(group, "thread"),
            generator: number_in(group, "generator"),
            frame_object: number_in(group, "frame_object"),
        }),
        None => None,
    }
}

fn is_sound_owner(at: Option<OwnerRecord>) -> bool
    ensures { IsTrue result ↔ IfSome at IsSoundOwner }
{
    match at {
        Some(at) => are_plain(&[at.place, at.thread, at.generator, at.frame_object]),
        None => true,
    }
}

fn shim_from(table: &Table) -> Option<ShimRecord>
    ensures { result ≡ option_map shim_in (group_at (table_view table.now) (codes "shim")) }
{
    match group_at(table, "shim") {
        Some(group) => Some(ShimRecord {
            owner: number_in(group, "owner"),
        }),
        None => None,
    }
}

fn is_sound_shim(at: Option<ShimRecord>) -> bool
    ensures { IsTrue result ↔ IfSome at IsSoundShim }
{
    match at {
        Some(at) => are_plain(&[at.owner]),
        None => true,
    }
}

fn entry_from(table: &Table) -> Option<EntryRecord>
    ensures { result ≡ option_map entry_in (group_at (table_view table.now) (codes "entry")) }
{
    match group_at(table, "entry") {
        Some(group) => Some(EntryRecord {
            place: number_in(group, "place"),
        }),
        None => None,
    }
}

fn is_sound_entry(at: Option<EntryRecord>) -> bool
    ensures { IsTrue result ↔ IfSome at IsSoundEntry }
{
    match at {
        Some(at) => are_plain(&[at.place]),
        None => true,
    }
}

fn cframe_from(table: &Table) -> Option<CframeRecord>
    ensures { result ≡ option_map cframe_in (group_at (table_view table.now) (codes "cframe")) }
{
    match group_at(table, "cframe") {
        Some(group) => Some(CframeRecord {
            size: number_in(group, "size"),
            current: number_in(group, "current"),
            previous: number_in(group, "previous"),
        }),
        None => None,
    }
}

#[tactic(auto, unfolding(crate::specs::Frames::cframe_places))]
fn is_sound_cframe(at: Option<CframeRecord>) -> bool
    ensures { IsTrue result ↔ IfSome at IsSoundCframe }
{
    match at {
        Some(at) => is_record(at.size, &[(at.current, 8), (at.previous, 8)]),
        None => true,
    }
}

fn traceback_from(table: &Table) -> Option<TracebackRecord>
    ensures { result ≡ option_map traceback_in (group_at (table_view table.now) (codes "traceback")) }
{
    match group_at(table, "traceback") {
        Some(group) => Some(TracebackRecord {
            size: number_in(group, "size"),
            next: number_in(group, "next"),
            frame: number_in(group, "frame"),
            lasti: number_in(group, "lasti"),
            line: number_in(group, "line"),
        }),
        None => None,
    }
}

#[tactic(auto, unfolding(crate::specs::Frames::traceback_places))]
fn is_sound_traceback(at: Option<TracebackRecord>) -> bool
    ensures { IsTrue result ↔ IfSome at IsSoundTraceback }
{
    match at {
        Some(at) => is_record(
            at.size,
            &[(at.next, 8), (at.frame, 8), (at.lasti, 4), (at.line, 4)],
        ),
        None => true,
    }
}

/// The groups that a table says.
#[tactic(auto, unfolding(crate::specs::Frames::frames_from))]
pub fn frames_from(table: &Table) -> FrameRecords
    ensures { result ≡ frames_from (table_view table.now) }
{
    FrameRecords {
        code: code_from(table),
        code_names: code_names_from(table),
        code_kinds: code_kinds_from(table),
        frame_object: frame_object_from(table),
        owner: owner_from(table),
        shim: shim_from(table),
        entry: entry_from(table),
        cframe: cframe_from(table),
        traceback: traceback_from(table),
    }
}

/// Whether each group that is there is sound.
pub fn are_sound_frames(records: &FrameRecords) -> bool
    ensures { IsTrue result ↔ AreSoundFrames records.now }
{
    is_sound_code(records.code)
        && is_sound_code_names(records.code_names)
        && is_sound_code_kinds(records.code_kinds)
        && is_sound_frame_object(records.frame_object)
        && is_sound_owner(records.owner)
        && is_sound_shim(records.shim)
        && is_sound_entry(records.entry)
        && is_sound_cframe(records.cframe)
        && is_sound_traceback(records.traceback)
}

/// No group is there.
pub fn no_frames() -> FrameRecords
    ensures { result ≡ no_frames }
{
    FrameRecords {
        code: None,
        code_names: None,
        code_kinds: None,
        frame_object: None,
        owner: None,
        shim: None,
        entry: None,
        cframe: None,
        traceback: None,
    }
}

/// Each group of the first that is there, and else of the second.
#[tactic(auto, unfolding(crate::specs::Frames::joined_frames))]
pub fn joined_frames(one: &FrameRecords, other: &FrameRecords) -> FrameRecords
    ensures { result ≡ joined_frames one.now other.now }
{
    FrameRecords {
        code: one.code.or(other.code),
        code_names: one.code_names.or(other.code_names),
        code_kinds: one.code_kinds.or(other.code_kinds),
        frame_object: one.frame_object.or(other.frame_object),
        owner: one.owner.or(other.owner),
        shim: one.shim.or(other.shim),
        entry: one.entry.or(other.entry),
        cframe: one.cframe.or(other.cframe),
        traceback: one.traceback.or(other.traceback),
    }
}

/// Whether a group is there in both.
#[tactic(auto, unfolding(crate::specs::Frames::share_frames))]
pub fn share_frames(one: &FrameRecords, other: &FrameRecords) -> bool
    ensures { result ≡ share_frames one.now other.now }
{
    any_both(
        &[
            one.code.is_some(),
            one.code_names.is_some(),
            one.code_kinds.is_some(),
            one.frame_object.is_some(),
            one.owner.is_some(),
            one.shim.is_some(),
            one.entry.is_some(),
            one.cframe.is_some(),
            one.traceback.is_some(),
        ],
        &[
            other.code.is_some(),
            other.code_names.is_some(),
            other.code_kinds.is_some(),
            other.frame_object.is_some(),
            other.owner.is_some(),
            other.shim.is_some(),
            other.entry.is_some(),
            other.cframe.is_some(),
            other.traceback.is_some(),
        ],
    )
}
