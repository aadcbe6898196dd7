//! Generators, coroutines, and what stands between them.
ghost use Rattle.std.specs.Prelude.{◌≡◌, ◌↔◌, IsTrue, IfSome, option_map, codes, Some, None};
ghost use Rattle.toml.specs.View.{table_view};
ghost use Rattle.py_layout.specs.Values.{group_at};
ghost use Rattle.py_records.specs.Coroutines.{generator_places, IsSoundGenerator, generator_in};
ghost use Rattle.py_records.specs.Coroutines.{IsSoundGeneratorFrame, generator_frame_in, IsSoundGeneratorRunning};
ghost use Rattle.py_records.specs.Coroutines.{generator_running_in, IsSoundGeneratorInside, generator_inside_in};
ghost use Rattle.py_records.specs.Coroutines.{IsSoundGeneratorHandled, generator_handled_in, held_places};
ghost use Rattle.py_records.specs.Coroutines.{IsSoundHeld, held_in, coroutines_from, AreSoundCoroutines};
ghost use Rattle.py_records.specs.Coroutines.{joined_coroutines, share_coroutines, no_coroutines};

use crate::places::{any_both, are_plain, is_record};
use crate::values::{group_at, number_in};
use toml::Table;

/// A generator, a coroutine or an async generator.
#[derive(Clone, Copy)]
pub struct GeneratorRecord {
    /// The basic size that its type states.
    pub size: u32,
    /// The address of its name.
    pub name: u32,
    /// The address of its qualified name.
    pub qualname: u32,
}

/// All three up to 3.10 (`_PyGenObject_HEAD`, Include/genobject.h).
#[derive(Clone, Copy)]
pub struct GeneratorFrameRecord {
    /// The address of the frame; 0 once it is finished.
    pub frame: u32,
}

/// All three up to 3.9 (`_PyGenObject_HEAD`, Include/genobject.h).
#[derive(Clone, Copy)]
pub struct GeneratorRunningRecord {
    /// Whether it runs. It has 1 byte.
    pub running: u32,
}

/// All three from 3.11 on (`_PyGenObject_HEAD`, Include/cpython/genobject.h).
#[derive(Clone, Copy)]
pub struct GeneratorInsideRecord {
    /// Where the frame begins, which stands inside.
    pub frame: u32,
    /// The frame's state. It has 1 byte.
    pub state: u32,
}

/// All three from 3.7 on (`_PyGenObject_HEAD`, Include/genobject.h).
#[derive(Clone, Copy)]
pub struct GeneratorHandledRecord {
    /// Where the item of the exception begins that is handled.
    pub item: u32,
}

/// An object that holds another one.
#[derive(Clone, Copy)]
pub struct HeldRecord {
    /// The basic size that its type states.
    pub size: u32,
    /// The address of the other object.
    pub held: u32,
}

/// Generators, coroutines, and what stands between them. Each group is there or not.
#[derive(Clone, Copy)]
pub struct CoroutineRecords {
    pub generator: Option<GeneratorRecord>,
    /// A coroutine (`PyCoroObject`, Include/genobject.h).
    pub coroutine: Option<GeneratorRecord>,
    /// An async generator (`PyAsyncGenObject`, Include/genobject.h).
    pub async_generator: Option<GeneratorRecord>,
    pub generator_frame: Option<GeneratorFrameRecord>,
    pub generator_running: Option<GeneratorRunningRecord>,
    pub generator_inside: Option<GeneratorInsideRecord>,
    pub generator_handled: Option<GeneratorHandledRecord>,
    /// What `__await__` of a coroutine gives; it holds the coroutine (`PyCoroWrapper`, Objects/genobject.c).
    pub coroutine_wrapper: Option<HeldRecord>,
    /// What `asend` gives; it holds the async generator (`PyAsyncGenASend`, Objects/genobject.c).
    pub asend: Option<HeldRecord>,
    /// What `athrow` and `aclose` give; it holds the async generator (`PyAsyncGenAThrow`,
    /// Objects/genobject.c).
    pub athrow: Option<HeldRecord>,
    /// What `anext` with a default gives; it holds what it awaits (`anextawaitableobject`,
    /// Objects/iterobject.c).
    pub anext_awaitable: Option<HeldRecord>,
}

fn generator_from(table: &Table, name: &str) -> Option<GeneratorRecord>
    ensures { result ≡ option_map generator_in (group_at (table_view table.now) name.now) }
{
    match group_at(table, name) {
        Some(group) => Some(GeneratorRecord {
            size: number_in(group, "size"),
            name: number_in(group, "name"),
            qualname: number_in(group, "qualname"),
        }),
        None => None,
    }
}

#[tactic(auto, unfolding(crate::specs::Coroutines::generator_places))]
fn is_sound_generator(at: Option<GeneratorRecord>) -> bool
    ensures { IsTrue result ↔ IfSome at IsSoundGenerator }
{
    match at {
        Some(at) => is_record(at.size, &[(at.name, 8), (at.qualname, 8)]),
        None => true,
    }
}

fn generator_frame_from(table: &Table) -> Option<GeneratorFrameRecord>
    ensures { result ≡ option_map generator_frame_in (group_at (table_view table.now) (codes "generator_frame")) }
{
    match group_at(table, "generator_frame") {
        Some(group) => Some(GeneratorFrameRecord {
            frame: number_in(group, "frame"),
        }),
        None => None,
    }
}

fn is_sound_generator_frame(at: Option<GeneratorFrameRecord>) -> bool
    ensures { IsTrue result ↔ IfSome at IsSoundGeneratorFrame }
{
    match at {
        Some(at) => are_plain(&[at.frame]),
        None => true,
    }
}

fn generator_running_from(table: &Table) -> Option<GeneratorRunningRecord>
    ensures { result ≡ option_map generator_running_in (group_at (table_view table.now) (codes "generator_running")) }
{
    match group_at(table, "generator_running") {
        Some(group) => Some(GeneratorRunningRecord {
            running: number_in(group, "running"),
        }),
        None => None,
    }
}

fn is_sound_generator_running(at: Option<GeneratorRunningRecord>) -> bool
    ensures { IsTrue result ↔ IfSome at IsSoundGeneratorRunning }
{
    match at {
        Some(at) => are_plain(&[at.running]),
        None => true,
    }
}

fn generator_inside_from(table: &Table) -> Option<GeneratorInsideRecord>
    ensures { result ≡ option_map generator_inside_in (group_at (table_view table.now) (codes "generator_inside")) }
{
    match group_at(table, "generator_inside") {
        Some(group) => Some(GeneratorInsideRecord {
            frame: number_in(group, "frame"),
            state: number_in(group, "state"),
        }),
        None => None,
    }
}

fn is_sound_generator_inside(at: Option<GeneratorInsideRecord>) -> bool
    ensures { IsTrue result ↔ IfSome at IsSoundGeneratorInside }
{
    match at {
        Some(at) => are_plain(&[at.frame, at.state]),
        None => true,
    }
}

fn generator_handled_from(table: &Table) -> Option<GeneratorHandledRecord>
    ensures { result ≡ option_map generator_handled_in (group_at (table_view table.now) (codes "generator_handled")) }
{
    match group_at(table, "generator_handled") {
        Some(group) => Some(GeneratorHandledRecord {
            item: number_in(group, "item"),
        }),
        None => None,
    }
}

fn is_sound_generator_handled(at: Option<GeneratorHandledRecord>) -> bool
    ensures { IsTrue result ↔ IfSome at IsSoundGeneratorHandled }
{
    match at {
        Some(at) => are_plain(&[at.item]),
        None => true,
    }
}

fn held_from(table: &Table, name: &str) -> Option<HeldRecord>
    ensures { result ≡ option_map held_in (group_at (table_view table.now) name.now) }
{
    match group_at(table, name) {
        Some(group) => Some(HeldRecord {
            size: number_in(group, "size"),
            held: number_in(group, "held"),
        }),
        None => None,
    }
}

#[tactic(auto, unfolding(crate::specs::Coroutines::held_places))]
fn is_sound_held(at: Option<HeldRecord>) -> bool
    ensures { IsTrue result ↔ IfSome at IsSoundHeld }
{
    match at {
        Some(at) => is_record(at.size, &[(at.held, 8)]),
        None => true,
    }
}

/// The groups that a table says.
#[tactic(auto, unfolding(crate::specs::Coroutines::coroutines_from))]
pub fn coroutines_from(table: &Table) -> CoroutineRecords
    ensures { result ≡ coroutines_from (table_view table.now) }
{
    CoroutineRecords {
        generator: generator_from(table, "generator"),
        coroutine: generator_from(table, "coroutine"),
        async_generator: generator_from(table, "async_generator"),
        generator_frame: generator_frame_from(table),
        generator_running: generator_running_from(table),
        generator_inside: generator_inside_from(table),
        generator_handled: generator_handled_from(table),
        coroutine_wrapper: held_from(table, "coroutine_wrapper"),
        asend: held_from(table, "asend"),
        athrow: held_from(table, "athrow"),
        anext_awaitable: held_from(table, "anext_awaitable"),
    }
}

/// Whether each group that is there is sound.
pub fn are_sound_coroutines(records: &CoroutineRecords) -> bool
    ensures { IsTrue result ↔ AreSoundCoroutines records.now }
{
    is_sound_generator(records.generator)
        && is_sound_generator(records.coroutine)
        && is_sound_generator(records.async_generator)
        && is_sound_generator_frame(records.generator_frame)
        && is_sound_generator_running(records.generator_running)
        && is_sound_generator_inside(records.generator_inside)
        && is_sound_generator_handled(records.generator_handled)
        && is_sound_held(records.coroutine_wrapper)
        && is_sound_held(records.asend)
        && is_sound_held(records.athrow)
        && is_sound_held(records.anext_awaitable)
}

/// No group is there.
pub fn no_coroutines() -> CoroutineRecords
    ensures { result ≡ no_coroutines }
{
    CoroutineRecords {
        generator: None,
        coroutine: None,
        async_generator: None,
        generator_frame: None,
        generator_running: None,
        generator_inside: None,
        generator_handled: None,
        coroutine_wrapper: None,
        asend: None,
        athrow: None,
        anext_awaitable: None,
    }
}

/// Each group of the first that is there, and else of the second.
#[tactic(auto, unfolding(crate::specs::Coroutines::joined_coroutines))]
pub fn joined_coroutines(one: &CoroutineRecords, other: &CoroutineRecords) -> CoroutineRecords
    ensures { result ≡ joined_coroutines one.now other.now }
{
    CoroutineRecords {
        generator: one.generator.or(other.generator),
        coroutine: one.coroutine.or(other.coroutine),
        async_generator: one.async_generator.or(other.async_generator),
        generator_frame: one.generator_frame.or(other.generator_frame),
        generator_running: one.generator_running.or(other.generator_running),
        generator_inside: one.generator_inside.or(other.generator_inside),
        generator_handled: one.generator_handled.or(other.generator_handled),
        coroutine_wrapper: one.coroutine_wrapper.or(other.coroutine_wrapper),
        asend: one.asend.or(other.asend),
        athrow: one.athrow.or(other.athrow),
        anext_awaitable: one.anext_awaitable.or(other.anext_awaitable),
    }
}

/// Whether a group is there in both.
#[tactic(auto, unfolding(crate::specs::Coroutines::share_coroutines))]
pub fn share_coroutines(one: &CoroutineRecords, other: &CoroutineRecords) -> bool
    ensures { result ≡ share_coroutines one.now other.now }
{
    any_both(
        &[
            one.generator.is_some(),
            one.coroutine.is_some(),
            one.async_generator.is_some(),
            one.generator_frame.is_some(),
            one.generator_running.is_some(),
            one.generator_inside.is_some(),
            one.generator_handled.is_some(),
            one.coroutine_wrapper.is_some(),
            one.asend.is_some(),
            one.athrow.is_some(),
            one.anext_awaitable.is_some(),
        ],
        &[
            other.generator.is_some(),
            other.coroutine.is_some(),
            other.async_generator.is_some(),
            other.generator_frame.is_some(),
            other.generator_running.is_some(),
            other.generator_inside.is_some(),
            other.generator_handled.is_some(),
            other.coroutine_wrapper.is_some(),
            other.asend.is_some(),
            other.athrow.is_some(),
            other.anext_awaitable.is_some(),
        ],
    )
}
