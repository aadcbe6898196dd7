//! The last exception that no code handled, as the module `sys` of an interpreter has it.
ghost use Rattle.std.specs.Prelude.{◌≡◌, ◌∷◌, [], IfOk, map};
ghost use Rattle.process_memory.specs.Seen.{Reading, Reads};
ghost use Rattle.py_fields.specs.Sound.{IsSound};
ghost use Rattle.py_names.specs.NamesError.{names_fault};
ghost use Rattle.thread_exceptions.specs.Discovery.{met_of};
ghost use Rattle.thread_exceptions.specs.Exceptions.{what_of};
ghost use Rattle.py_exceptions.specs.Exceptions.{told_if};
ghost use Rattle.py_exceptions.specs.Last.{IsFoundAt, IsFoundBy, IsFoundIn, IsLast, LastShown, attribute_at, found_of};
ghost use Rattle.py_exceptions.specs.Last.{found_shown, is_other, key_of, last_name, last_reads, last_shown, may_be};
ghost use Rattle.py_exceptions.specs.Last.{set_at, sys_value_at, value_at};
ghost use Rattle.py_exceptions.specs.Sound.{IsDescribed};

use crate::described::Described;
use crate::dict::read_entry;
use crate::exception::{ToldException, read_all};
use crate::fault::or_none;
use crate::thread::ToldThread;
use process_memory::{ProcessMemory, word_past};
use py_builtins::read_type;
use py_fields::{Dicts, Layout};
use py_names::{NamesError, word_beside};
use std::alloc::Global;
use thread_exceptions::{
    ExceptionsError, LinkEnd, Met, Raised, RaisedPlaces, ThreadExceptions, What, read_closure,
};

/// How many objects are told at most.
const OBJECT_LIMIT: usize = 1024;

/// Under which name `sys` has it (`_PyErr_PrintEx`, Python/pythonrun.c).
#[derive(Clone, Copy)]
pub enum LastName {
    /// From 3.12 on: `last_exc`.
    Exc,
    /// Up to 3.11: `last_value`.
    Value,
}

/// What `sys` has under that name.
#[derive(Drop)]
pub enum LastFound {
    /// No exception: nothing, or an object that is none, as `None`.
    Nothing,
    /// The object at this address, which is not known to be no exception, and what is told of it and of all that it leads
    /// to, as of what a thread raises that handles nothing.
    Exception { addr: u64, told: ToldThread },
    /// What it has can't be read.
    Unreadable,
}

/// The last exception that no code handled.
#[derive(Drop)]
pub struct LastException {
    pub name: LastName,
    pub found: LastFound,
}

/// Under which name it stands, by how a thread names what is raised: both are so from 3.12 on.
fn last_name(raised: RaisedPlaces) -> LastName
    ensures { result ≡ last_name raised }
{
    match raised {
        RaisedPlaces::Exception { .. } => LastName::Exc,
        RaisedPlaces::Parts { .. } => LastName::Value,
    }
}

/// The name, as `sys` has it.
pub fn key_of(name: LastName) -> &'static str
    ensures { result.now ≡ key_of name }
{
    match name {
        LastName::Exc => "last_exc",
        LastName::Value => "last_value",
    }
}

/// What a module has under a name, where there is a module. At most 16389 reads.
#[tactic(auto, unfolding(crate::specs::Last::attribute_at))]
fn read_attribute<P: ProcessMemory>(
    alloc: Global,
    process: &mut P,
    layout: &Layout,
    found: Option<u64>,
    name: &str,
) -> Result<Option<u64>, NamesError>
    requires sound { IsSound layout.now }
    ensures { Reads names_fault 16389 (P.seen process.old) (P.seen process.new)
        (λ m. attribute_at layout.now m name.now found) result }
{
    match found {
        None => Ok(None),
        Some(addr) => {
            let class = read_type(alloc, process, layout, addr)?;
            let dict = word_beside(process, addr, class.dict_offset)?;
            read_entry(alloc, process, layout, dict, name)
        }
    }
}

/// What an interpreter's `sys` has under a name. At most 32776 reads.
#[tactic(auto, unfolding(crate::specs::Last::sys_value_at))]
fn read_sys_value<P: ProcessMemory>(
    alloc: Global,
    process: &mut P,
    layout: &Layout,
    interpreter: u64,
    name: &str,
) -> Result<Option<u64>, NamesError>
    requires sound { IsSound layout.now }
    ensures { Reads names_fault 32776 (P.seen process.old) (P.seen process.new)
        (λ m. sys_value_at layout.now m interpreter name.now) result }
{
    let modules = word_past(process, interpreter, layout.interpreter.modules as u64)?;
    let found = read_entry(alloc, process, layout, modules, "sys")?;
    read_attribute(alloc, process, layout, found, name)
}

/// The same, where the layout has dicts.
#[tactic(auto, unfolding(crate::specs::Last::value_at))]
fn read_value<P: ProcessMemory>(
    alloc: Global,
    process: &mut P,
    layout: &Layout,
    interpreter: u64,
    name: &str,
) -> Result<Option<u64>, NamesError>
    requires sound { IsSound layout.now }
    ensures { Reads names_fault 32776 (P.seen process.old) (P.seen process.new)
        (λ m. value_at layout.now m interpreter name.now) result }
{
    match layout.dicts {
        Dicts::Absent => Err(NamesError::NoDicts),
        Dicts::General | Dicts::Compact => {
            read_sys_value(alloc, process, layout, interpreter, name)
        }
    }
}

/// The same, as what is known. At most 32776 reads.
#[tactic(auto, unfolding(crate::specs::Last::set_at))]
fn read_set<P: ProcessMemory>(
    alloc: Global,
    process: &mut P,
    layout: &Layout,
    interpreter: u64,
    name: &str,
) -> Result<Option<Option<u64>>, NamesError>
    requires sound { IsSound layout.now }
    ensures { Reads names_fault 32776 (P.seen process.old) (P.seen process.new)
        (λ m. set_at layout.now m interpreter name.now) result }
{
    let found = read_value(alloc, process, layout, interpreter, name)?;
    Ok(Some(found))
}

/// Whether an object is known to be no exception.
fn is_other(what: &What) -> bool
    ensures { result ≡ is_other (what_of what.now) }
{
    match what {
        What::Exception { .. } => false,
        What::Other => true,
        What::Unreadable(_) => false,
    }
}

/// Whether the first of the objects that were met may be an exception.
fn may_be(met: &[Met]) -> bool
    ensures { result ≡ may_be (map (λ x. met_of x) met.now) }
{
    match met {
        [] => false,
        [first, ..] => !is_other(&first.what),
    }
}

/// What `sys` has, by the objects that are met from an address on.
fn found_of(alloc: Global, addr: u64, met: Vec<Met>, told: Vec<Option<ToldException>>) -> LastFound
    ensures { found_shown result
        ≡ found_of addr (map (λ x. met_of x) met.items) (map (λ x. told_if x) told.items) }
{
    if !may_be(&met) {
        return LastFound::Nothing;
    }
    let thread = ThreadExceptions {
        raised: Raised::Exception { addr },
        handled: Vec::new(alloc),
        end: LinkEnd::Null,
        met,
    };
    let raised = None;
    LastFound::Exception {
        addr,
        told: ToldThread {
            thread,
            raised,
            told,
        },
    }
}

/// One address.
fn only(alloc: Global, addr: u64) -> Result<Vec<u64>, ExceptionsError>
    ensures { IfOk result (λ roots. roots.items ≡ addr ∷ []) }
{
    let mut roots = Vec::new(alloc);
    roots.push(addr)?;
    Ok(roots)
}

/// What is told of the object at an address, which `sys` has. At most 120715264 reads.
fn read_at<P: ProcessMemory>(
    alloc: Global,
    process: &mut P,
    layout: &Layout,
    places: &Described,
    addr: u64,
) -> Result<LastFound, ExceptionsError>
    requires sound { IsSound layout.now }
    requires places { IsDescribed places.now }
    ensures { Reading 120715264 (P.seen process.old) (P.seen process.new)
        (λ m. IfOk result (λ found. IsFoundAt layout.now places.now m addr (found_shown found))) }
{
    let roots = only(alloc, addr)?;
    let met = read_closure(alloc, process, &places.thread, OBJECT_LIMIT, &roots)?;
    let told = read_all(alloc, process, layout, places, &met)?;
    Ok(found_of(alloc, addr, met, told))
}

/// What is told of what `sys` has, where it has anything. At most 120715264 reads.
fn read_value_told<P: ProcessMemory>(
    alloc: Global,
    process: &mut P,
    layout: &Layout,
    places: &Described,
    value: Option<u64>,
) -> Result<LastFound, ExceptionsError>
    requires sound { IsSound layout.now }
    requires places { IsDescribed places.now }
    ensures { Reading 120715264 (P.seen process.old) (P.seen process.new)
        (λ m. IfOk result (λ found. IsFoundIn layout.now places.now m value (found_shown found))) }
{
    match value {
        None => Ok(LastFound::Nothing),
        Some(addr) => read_at(alloc, process, layout, places, addr),
    }
}

/// The same, where it is known what it has. At most 120715264 reads.
fn read_found<P: ProcessMemory>(
    alloc: Global,
    process: &mut P,
    layout: &Layout,
    places: &Described,
    known: Option<Option<u64>>,
) -> Result<LastFound, ExceptionsError>
    requires sound { IsSound layout.now }
    requires places { IsDescribed places.now }
    ensures { Reading 120715264 (P.seen process.old) (P.seen process.new)
        (λ m. IfOk result (λ found. IsFoundBy layout.now places.now m known (found_shown found))) }
{
    match known {
        None => Ok(LastFound::Unreadable),
        Some(value) => read_value_told(alloc, process, layout, places, value),
    }
}

/// See `read_last`.
fn tell_last<P: ProcessMemory>(
    alloc: Global,
    process: &mut P,
    layout: &Layout,
    places: &Described,
    interpreter: u64,
) -> Result<LastException, ExceptionsError>
    requires sound { IsSound layout.now }
    requires places { IsDescribed places.now }
    ensures { Reading last_reads (P.seen process.old) (P.seen process.new)
        (λ m. IfOk result (λ told. IsLast layout.now places.now m interpreter (last_shown told))) }
{
    let name = last_name(places.thread.raised);
    let value = read_set(alloc, process, layout, interpreter, key_of(name));
    let known = or_none(value)?;
    let found = read_found(alloc, process, layout, places, known)?;
    Ok(LastException { name, found })
}

/// The last exception that no code handled, of the interpreter with the record at an address: the value that its module
/// `sys` has under `last_exc`, up to 3.11 under `last_value`, and what is told of it and of all that it leads to, each once.
///
/// There is none where `sys` has nothing there, or an object that is known to be no exception, as `None`, and where the
/// interpreter has no such module. That it can't be read is told. There is one such answer alone, and it is the answer. The
/// one error is out of memory. At most 32,776 reads for what is found, 4,096 slots of a dict being looked at, and 117,886
/// for each of at most 1,024 objects.
pub fn read_last<P: ProcessMemory>(
    alloc: Global,
    process: &mut P,
    layout: &Layout,
    places: &Described,
    interpreter: u64,
) -> Result<LastException, ExceptionsError>
    requires sound { IsSound layout.now }
    requires places { IsDescribed places.now }
    ensures right { Reading last_reads (P.seen process.old) (P.seen process.new)
        (λ m. IfOk result (λ told. IsLast layout.now places.now m interpreter (last_shown told))) }
    ensures only { Reading last_reads (P.seen process.old) (P.seen process.new)
        (λ m. (other : LastShown) → IsLast layout.now places.now m interpreter other
        → IfOk result (λ told. last_shown told ≡ other)) }
{
    tell_last(alloc, process, layout, places, interpreter)
}
