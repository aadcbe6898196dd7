//! What a thread raises and handles.
ghost use Rattle.std.specs.Prelude.{◌≡◌, ◌*◌, IfOk, Ok, length, map};
ghost use Rattle.process_memory.specs.Seen.{Reading, Reads, read_fault};
ghost use Rattle.thread_exceptions.specs.Places.{IsSound};
ghost use Rattle.thread_exceptions.specs.Thread.{IsThread, Thread, current_at, flags_at, handled_at, handled_of};
ghost use Rattle.thread_exceptions.specs.Thread.{items_at};
ghost use Rattle.thread_exceptions.specs.Thread.{owner_of, pair_at};
ghost use Rattle.thread_exceptions.specs.Thread.{raised_address, raised_at, raised_exception, raised_of};
ghost use Rattle.thread_exceptions.specs.Thread.{raised_of_result, raised_parts};
ghost use Rattle.thread_exceptions.specs.Thread.{raised_word_at, roots_of};
ghost use Rattle.thread_exceptions.specs.Thread.{is_other_at, named, thread_of, thread_reads, value_address};
ghost use Rattle.thread_exceptions.specs.Thread.{value_at, value_by, value_of};
ghost use Rattle.thread_exceptions.specs.Turns.{chain_of};

use crate::discovery::{Met, read_closure};
use crate::exception::is_exception;
use crate::links::{LinkEnd, Links, Lost, lost_range, read_links};
use crate::{ExceptionsError, Places, RaisedPlaces};
use process_memory::{ProcessMemory, ReadFault, word_past};
use std::alloc::Global;

/// How many items are told at most.
const ITEM_LIMIT: usize = 4096;

/// How many objects are told at most.
const OBJECT_LIMIT: usize = 1024;

/// What is raised in a thread: C code has set it, and Python has not yet seen it.
#[derive(Clone, Copy)]
pub enum Raised {
    /// Nothing.
    Nothing,
    /// The exception at this address.
    Exception { addr: u64 },
    /// An exception of the type at `class`, with the value at `value`, or 0: an exception, or what one is made of.
    Parts { class: u64, value: u64 },
    /// Whether there is one is not in memory.
    Unreadable(Lost),
}

/// What an item names.
#[derive(Clone, Copy)]
pub enum Value {
    /// The object at this address, which is not known to be no exception; none at 0.
    At(u64),
    /// Which one is not in memory.
    Unreadable(Lost),
}

/// Whose an item is.
#[derive(Clone, Copy)]
pub enum Owner {
    /// The thread's own.
    Thread,
    /// That of the generator, the coroutine or the async generator at this address, which runs.
    Running { addr: u64 },
}

/// An item: what it names is handled, where it is an exception.
#[derive(Clone, Copy)]
pub struct Handled {
    /// Whose it is.
    pub owner: Owner,
    /// What it names.
    pub value: Value,
}

/// What a thread raises and handles.
#[derive(Drop)]
pub struct ThreadExceptions {
    pub raised: Raised,
    /// Its items, the newest one first.
    pub handled: Vec<Handled>,
    /// How the chain of items ends.
    pub end: LinkEnd,
    /// All objects that are met from there on, in order of discovery, each once; at most 1,024.
    pub met: Vec<Met>,
}

/// Whose an item of a thread is.
#[tactic(auto, unfolding(crate::specs::Thread::owner_of))]
fn owner_of(places: &Places, thread: u64, item: u64) -> Owner
    ensures { result ≡ owner_of places.now thread item }
{
    if thread as u128 + places.oldest as u128 == item as u128 {
        return Owner::Thread;
    }
    Owner::Running {
        addr: item.saturating_sub(places.inside as u64),
    }
}

/// What is raised, by the address of an exception.
fn raised_exception(addr: u64) -> Raised
    ensures { raised_of result ≡ raised_exception addr }
{
    if addr == 0 {
        return Raised::Nothing;
    }
    Raised::Exception { addr }
}

/// What is raised, by the addresses of a type and a value.
fn raised_parts(class: u64, value: u64) -> Raised
    ensures { raised_of result ≡ raised_parts class value }
{
    if class == 0 {
        return Raised::Nothing;
    }
    Raised::Parts { class, value }
}

/// What a thread raises that names an exception. One read.
fn read_current<P: ProcessMemory>(
    process: &mut P,
    at: u32,
    thread: u64,
) -> Result<Raised, ReadFault>
    ensures { Reads read_fault 2 (P.seen process.old) (P.seen process.new)
        (λ m. current_at at m thread) (raised_of_result result) }
{
    let addr = word_past(process, thread, at as u64)?;
    Ok(raised_exception(addr))
}

/// What a thread raises that names a type and a value. At most 2 reads.
fn read_pair<P: ProcessMemory>(
    process: &mut P,
    klass: u32,
    value: u32,
    thread: u64,
) -> Result<Raised, ReadFault>
    ensures { Reads read_fault 2 (P.seen process.old) (P.seen process.new)
        (λ m. pair_at klass value m thread) (raised_of_result result) }
{
    let class = word_past(process, thread, klass as u64)?;
    let named = word_past(process, thread, value as u64)?;
    Ok(raised_parts(class, named))
}

/// What a thread raises, by what its record says. At most 2 reads.
#[tactic(auto, unfolding(crate::specs::Thread::raised_word_at))]
fn read_raised_word<P: ProcessMemory>(
    process: &mut P,
    places: RaisedPlaces,
    thread: u64,
) -> Result<Raised, ReadFault>
    ensures { Reads read_fault 2 (P.seen process.old) (P.seen process.new)
        (λ m. raised_word_at places m thread) (raised_of_result result) }
{
    match places {
        RaisedPlaces::Exception { at } => read_current(process, at, thread),
        RaisedPlaces::Parts { klass, value } => read_pair(process, klass, value, thread),
    }
}

/// What a thread raises. At most 2 reads.
fn read_raised<P: ProcessMemory>(
    process: &mut P,
    places: &Places,
    thread: u64,
) -> Result<Raised, ExceptionsError>
    ensures { Reading 2 (P.seen process.old) (P.seen process.new)
        (λ m. IfOk result (λ raised. raised_of raised ≡ raised_at places.now m thread)) }
{
    match read_raised_word(process, places.raised, thread) {
        Ok(raised) => Ok(raised),
        Err(error) => Ok(Raised::Unreadable(lost_range(error)?)),
    }
}

/// The items of a thread, the newest one first. At most 4,098 reads.
fn read_items<P: ProcessMemory>(
    alloc: Global,
    process: &mut P,
    places: &Places,
    thread: u64,
) -> Result<Links, ExceptionsError>
    ensures { Reading 4098 (P.seen process.old) (P.seen process.new)
        (λ m. IfOk result (λ items. chain_of items ≡ items_at places.now m thread)) }
{
    match word_past(process, thread, places.newest as u64) {
        Ok(newest) => read_links(alloc, process, places.previous, ITEM_LIMIT, newest),
        Err(error) => {
            let end = LinkEnd::Unreadable(lost_range(error)?);
            let members = Vec::new(alloc);
            Ok(Links { members, end })
        }
    }
}

/// The flags of an object's type. At most 2 reads.
fn read_flags<P: ProcessMemory>(process: &mut P, places: &Places, at: u64) -> Result<u64, ReadFault>
    ensures { Reads read_fault 2 (P.seen process.old) (P.seen process.new) (λ m. flags_at places.now m at) result }
{
    let class = word_past(process, at, places.klass as u64)?;
    word_past(process, class, places.flags as u64)
}

/// Whether an object is known to be no exception. At most 2 reads.
fn is_other<P: ProcessMemory>(
    process: &mut P,
    places: &Places,
    at: u64,
) -> Result<bool, ExceptionsError>
    ensures { Reading 2 (P.seen process.old) (P.seen process.new)
        (λ m. IfOk result (λ is. is ≡ is_other_at places.now m at)) }
{
    match read_flags(process, places, at) {
        Ok(flags) => Ok(!is_exception(flags)),
        Err(error) => {
            lost_range(error)?;
            Ok(false)
        }
    }
}

/// What an item names, by the address that it has.
fn named(addr: u64, is_other: bool) -> Value
    ensures { value_of result ≡ named addr is_other }
{
    if is_other {
        Value::At(0)
    } else {
        Value::At(addr)
    }
}

/// What an item names that has an address. At most 2 reads.
fn read_named<P: ProcessMemory>(
    process: &mut P,
    places: &Places,
    addr: u64,
) -> Result<Value, ExceptionsError>
    ensures { Reading 2 (P.seen process.old) (P.seen process.new)
        (λ m. IfOk result (λ value. value_of value ≡ value_by places.now m (Ok addr))) }
{
    let is = is_other(process, places, addr)?;
    Ok(named(addr, is))
}

/// What an item names. At most 3 reads.
fn read_value<P: ProcessMemory>(
    process: &mut P,
    places: &Places,
    item: u64,
) -> Result<Value, ExceptionsError>
    ensures { Reading 3 (P.seen process.old) (P.seen process.new)
        (λ m. IfOk result (λ value. value_of value ≡ value_at places.now m item)) }
{
    match word_past(process, item, places.value as u64) {
        Ok(addr) => read_named(process, places, addr),
        Err(error) => Ok(Value::Unreadable(lost_range(error)?)),
    }
}

/// What each of some items of a thread says. At most 3 reads each.
fn read_handled<P: ProcessMemory>(
    alloc: Global,
    process: &mut P,
    places: &Places,
    thread: u64,
    items: &[u64],
) -> Result<Vec<Handled>, ExceptionsError>
    ensures { Reading (3 * length items.now) (P.seen process.old) (P.seen process.new)
        (λ m. IfOk result (λ handled. map (λ h. handled_of h) handled.items
        ≡ map (λ a. handled_at places.now m thread a) items.now)) }
{
    let mut handled = Vec::new(alloc);
    for item in items {
        let value = read_value(process, places, *item)?;
        let owner = owner_of(places, thread, *item);
        handled.push(Handled { owner, value })?;
    }
    Ok(handled)
}

/// The address that is raised; 0 where none is.
fn raised_address(raised: Raised) -> u64
    ensures { result ≡ raised_address (raised_of raised) }
{
    match raised {
        Raised::Nothing => 0,
        Raised::Exception { addr } => addr,
        Raised::Parts { value, .. } => value,
        Raised::Unreadable(_) => 0,
    }
}

/// The address that an item names; 0 where it is not known.
fn value_address(value: Value) -> u64
    ensures { result ≡ value_address (value_of value) }
{
    match value {
        Value::At(addr) => addr,
        Value::Unreadable(_) => 0,
    }
}

/// The addresses that a thread raises and handles.
#[tactic(auto, unfolding(crate::specs::Thread::roots_of))]
fn roots_of(alloc: Global, raised: Raised, handled: &[Handled]) -> Result<Vec<u64>, ExceptionsError>
    ensures { IfOk result (λ roots. roots.items ≡ roots_of (raised_of raised) (map (λ h. handled_of h) handled.now)) }
{
    let mut roots = Vec::new(alloc);
    roots.push(raised_address(raised))?;
    for item in handled {
        roots.push(value_address(item.value))?;
    }
    Ok(roots)
}

/// See `read_thread`.
fn tell<P: ProcessMemory>(
    alloc: Global,
    process: &mut P,
    places: &Places,
    thread: u64,
) -> Result<ThreadExceptions, ExceptionsError>
    requires sound { IsSound places.now }
    ensures { Reading thread_reads (P.seen process.old) (P.seen process.new)
        (λ m. IfOk result (λ told. IsThread places.now m thread (thread_of told))) }
{
    let raised = read_raised(process, places, thread)?;
    let items = read_items(alloc, process, places, thread)?;
    let handled = read_handled(alloc, process, places, thread, &items.members)?;
    let roots = roots_of(alloc, raised, &handled)?;
    let met = read_closure(alloc, process, places, OBJECT_LIMIT, &roots)?;
    let end = items.end;
    Ok(ThreadExceptions {
        raised,
        handled,
        end,
        met,
    })
}

/// What the thread with the record at an address raises and handles, and all that this leads to.
///
/// Raised is what its record says. Its items are those from the newest one on, each with what it names, and whose it
/// is: the last is the thread's own, each other one that of a generator or a coroutine that runs. What is met are the
/// objects that these name, and what they lead to, in order of discovery, each once, as `read_closure` tells them; an
/// object that is no exception leads nowhere. What is not in memory is told where it was looked for, and takes nothing
/// from the rest. There is one such answer alone. The one error is out of memory.
pub fn read_thread<P: ProcessMemory>(
    alloc: Global,
    process: &mut P,
    places: &Places,
    thread: u64,
) -> Result<ThreadExceptions, ExceptionsError>
    requires sound { IsSound places.now }
    ensures right { Reading thread_reads (P.seen process.old) (P.seen process.new)
        (λ m. IfOk result (λ told. IsThread places.now m thread (thread_of told))) }
    ensures only { Reading thread_reads (P.seen process.old) (P.seen process.new)
        (λ m. (other : Thread) → IsThread places.now m thread other
        → IfOk result (λ told. thread_of told ≡ other)) }
{
    tell(alloc, process, places, thread)
}
