//! Coroutines, generators and async generators.
ghost use Rattle.std.specs.Prelude.{◌≡◌, Ok};
ghost use Rattle.process_memory.specs.Seen.{Reads};
ghost use Rattle.py_builtins.specs.ObjectError.{object_fault};
ghost use Rattle.py_coroutines.specs.Places.{IsSoundFamily};
ghost use Rattle.py_fields.specs.Sound.{IsSound};
ghost use Rattle.py_reprs.specs.Coroutines.{IsOrNone, coroutine_at, coroutine_by, known_name_at, known_state_at};
ghost use Rattle.py_reprs.specs.Coroutines.{name_text_at, state_of, stated_at};
ghost use Rattle.py_reprs.specs.Found.{trees_found};

use crate::repr::Repr;
use elf64_core::Text;
use process_memory::{ProcessMemory, word_past};
use py_builtins::{ObjectError, copy_string};
use py_coroutines::{Family, Standing, is_sound_family, read_standing};
use py_fields::Layout;
use std::alloc::Global;

/// What is told of the objects whose functions stop and go on.
#[derive(Debug, Clone, Copy, Drop, PartialEq, Eq)]
pub enum CoroutineForm {
    /// What an `async def` gives.
    Coroutine,
    /// What a function with a `yield` gives.
    Generator,
    /// What an `async def` with a `yield` gives.
    AsyncGenerator,
}

/// How far such a function has come.
#[derive(Debug, Clone, Copy, Drop, PartialEq, Eq)]
pub enum CoroutineState {
    /// Before its first instruction.
    Created,
    /// In a `yield`, an `await` or a `yield from`.
    Suspended,
    /// It runs.
    Running,
    /// Behind its last instruction.
    Finished,
}

/// By what the names and the states of coroutines, generators and async generators are read.
#[derive(Debug, Clone, Copy, Drop, PartialEq, Eq)]
pub struct CoroutineRule {
    /// Where such an object names its name, in bytes from its address.
    pub name: u32,
    /// How it stands in memory.
    pub family: Family,
}

/// How far one has come that stands there.
fn state_of(standing: Standing) -> CoroutineState
    ensures { result ≡ state_of standing }
{
    match standing {
        Standing::Created => CoroutineState::Created,
        Standing::Yielding => CoroutineState::Suspended,
        Standing::Awaiting { .. } => CoroutineState::Suspended,
        Standing::Suspended { .. } => CoroutineState::Suspended,
        Standing::Coded { .. } => CoroutineState::Suspended,
        Standing::Running => CoroutineState::Running,
        Standing::Finished => CoroutineState::Finished,
    }
}

/// What was read, or none where it can't be; out of memory is handed on.
fn or_none<T: Drop>(found: Result<T, ObjectError>) -> Result<Option<T>, ObjectError>
    ensures { IsOrNone found result }
{
    match found {
        Ok(value) => Ok(Some(value)),
        Err(ObjectError::OutOfMemory) => Err(ObjectError::OutOfMemory),
        Err(_) => Ok(None),
    }
}

/// The name of the object at an address, which it names at a place. At most 3 reads.
fn read_name_text<P: ProcessMemory>(
    alloc: Global,
    process: &mut P,
    layout: &Layout,
    place: u32,
    addr: u64,
) -> Result<Text, ObjectError>
    requires sound { IsSound layout.now }
    ensures { Reads object_fault 3 (P.seen process.old) (P.seen process.new)
        (λ m. name_text_at layout.now m place addr) result }
{
    let at = word_past(process, addr, place as u64)?;
    copy_string(alloc, process, layout, at)
}

/// The same; none where it can't be read or is no text. At most 3 reads.
fn read_known_name<P: ProcessMemory>(
    alloc: Global,
    process: &mut P,
    layout: &Layout,
    place: u32,
    addr: u64,
) -> Result<Option<Text>, ObjectError>
    requires sound { IsSound layout.now }
    ensures { Reads object_fault 3 (P.seen process.old) (P.seen process.new)
        (λ m. known_name_at layout.now m place addr) result }
{
    or_none(read_name_text(alloc, process, layout, place, addr))
}

/// How far the coroutine at an address has come. At most 2 reads.
fn read_stated<P: ProcessMemory>(
    alloc: Global,
    process: &mut P,
    family: &Family,
    addr: u64,
) -> Result<CoroutineState, ObjectError>
    requires sound { IsSoundFamily family.now }
    ensures { Reads object_fault 2 (P.seen process.old) (P.seen process.new)
        (λ m. stated_at m family.now addr) result }
{
    let standing = read_standing(alloc, process, family, addr)?;
    Ok(state_of(standing))
}

/// The same; none where it can't be read, or a place lies outside of the records. At most 2 reads.
fn read_known_state<P: ProcessMemory>(
    alloc: Global,
    process: &mut P,
    family: &Family,
    addr: u64,
) -> Result<Option<CoroutineState>, ObjectError>
    ensures { Reads object_fault 2 (P.seen process.old) (P.seen process.new)
        (λ m. known_state_at m family.now addr) result }
{
    let is_sound = is_sound_family(family);
    if is_sound {
        return or_none(read_stated(alloc, process, family, addr));
    }
    Ok(None)
}

/// The coroutine at an address, by where its name and its state stand. At most 5 reads.
fn read_by_rule<P: ProcessMemory>(
    alloc: Global,
    process: &mut P,
    layout: &Layout,
    rule: &CoroutineRule,
    form: CoroutineForm,
    addr: u64,
) -> Result<Repr, ObjectError>
    requires sound { IsSound layout.now }
    ensures { Reads object_fault 5 (P.seen process.old) (P.seen process.new)
        (λ m. coroutine_by layout.now m rule.now form addr) (trees_found result) }
{
    let name = read_known_name(alloc, process, layout, rule.name, addr)?;
    let state = read_known_state(alloc, process, &rule.family, addr)?;
    Ok(Repr::Coroutine {
        form,
        name,
        state,
        addr,
    })
}

/// The coroutine, generator or async generator at an address: its form and its address alone where it is not said where
/// the rest stands. At most 5 reads.
pub(crate) fn read_coroutine<P: ProcessMemory>(
    alloc: Global,
    process: &mut P,
    layout: &Layout,
    rule: Option<CoroutineRule>,
    form: CoroutineForm,
    addr: u64,
) -> Result<Repr, ObjectError>
    requires sound { IsSound layout.now }
    ensures { Reads object_fault 5 (P.seen process.old) (P.seen process.new)
        (λ m. coroutine_at layout.now m rule form addr) (trees_found result) }
{
    match rule {
        None => Ok(Repr::Coroutine {
            form,
            name: None,
            state: None,
            addr,
        }),
        Some(rule) => read_by_rule(alloc, process, layout, &rule, form, addr),
    }
}
