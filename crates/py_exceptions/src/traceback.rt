//! The tracebacks of exceptions.
ghost use Rattle.std.specs.Prelude.{◌≡◌, ◌*◌, ◌+◌, ◌≤◌, IfOk, [], length, map};
ghost use Rattle.process_memory.specs.Seen.{Reading};
ghost use Rattle.py_fields.specs.Sound.{IsSound};
ghost use Rattle.thread_exceptions.specs.Links.{chain_from};
ghost use Rattle.thread_exceptions.specs.Turns.{chain_of, end_of, turn_at};
ghost use Rattle.py_exceptions.specs.Places.{IsSoundTraceback};
ghost use Rattle.py_exceptions.specs.Tracebacks.{entries_at, first_count, start_of, told_in, traceback_at};
ghost use Rattle.py_exceptions.specs.Tracebacks.{traceback_shown};

use crate::entry::{Entry, TracebackPlaces, read_entry};
use crate::value::{Value, read_value};
use process_memory::ProcessMemory;
use py_fields::Layout;
use std::alloc::Global;
use thread_exceptions::{ExceptionsError, LinkEnd, read_links};

/// How many entries are met at most.
const ENTRY_LIMIT: usize = 65536;

/// How many entries are told from the start on, and from the end back, at most.
const TOLD_LIMIT: usize = 128;

/// The traceback of an exception, the oldest call first.
#[derive(Drop)]
pub struct Traceback {
    /// The first 128 entries.
    pub first: Vec<Entry>,
    /// How many behind these are not told.
    pub left_out: u64,
    /// The last 128 of the entries behind the first ones.
    pub last: Vec<Entry>,
    /// How the chain of entries ends; it is cut behind 65,536 of them.
    pub end: LinkEnd,
}

/// Entries by their addresses. At most 10 reads for each.
fn read_entries<P: ProcessMemory>(
    alloc: Global,
    process: &mut P,
    layout: &Layout,
    places: &TracebackPlaces,
    addresses: &[u64],
) -> Result<Vec<Entry>, ExceptionsError>
    requires sound { IsSound layout.now }
    requires traceback { IsSoundTraceback places.now }
    ensures { Reading (10 * length addresses.now) (P.seen process.old) (P.seen process.new)
        (λ m. IfOk result (λ entries. entries.items ≡ entries_at layout.now places.now m addresses.now)) }
{
    let mut entries = Vec::new(alloc);
    for address in addresses {
        let entry = read_entry(alloc, process, layout, places, *address)?;
        entries.push(entry)?;
    }
    Ok(entries)
}

/// How many entries are told from the start on.
fn first_count(count: usize) -> usize
    ensures value { result ≡ first_count count }
    ensures few { result ≤ 128 }
    ensures all { result ≤ count }
{
    if count < TOLD_LIMIT {
        count
    } else {
        TOLD_LIMIT
    }
}

/// What is told of the entries of a chain. At most 2560 reads.
fn read_told<P: ProcessMemory>(
    alloc: Global,
    process: &mut P,
    layout: &Layout,
    places: &TracebackPlaces,
    members: &[u64],
    end: LinkEnd,
) -> Result<Traceback, ExceptionsError>
    requires sound { IsSound layout.now }
    requires traceback { IsSoundTraceback places.now }
    ensures { Reading 2560 (P.seen process.old) (P.seen process.new)
        (λ m. IfOk result (λ told. traceback_shown told ≡ told_in layout.now places.now m members.now (end_of end))) }
{
    let count = first_count(members.len());
    let rest = members.len() - count;
    let told = first_count(rest);
    let left_out = rest - told;
    let first = read_entries(alloc, process, layout, places, &members[..count])?;
    let last = read_entries(alloc, process, layout, places, &members[count + left_out..])?;
    Ok(Traceback {
        first,
        left_out: left_out as u64,
        last,
        end,
    })
}

/// Where a traceback begins: none where it is `None`.
fn start_of(head: u64, value: Option<Value>) -> u64
    ensures { result ≡ start_of head value }
{
    match value {
        Some(Value::Nothing) => 0,
        Some(_) => head,
        None => head,
    }
}

/// The traceback whose first entry stands at an address; 0 and `None` are none. At most 68102 reads.
pub(crate) fn read_traceback<P: ProcessMemory>(
    alloc: Global,
    process: &mut P,
    layout: &Layout,
    places: &TracebackPlaces,
    head: u64,
) -> Result<Traceback, ExceptionsError>
    requires sound { IsSound layout.now }
    requires traceback { IsSoundTraceback places.now }
    ensures { Reading 68102 (P.seen process.old) (P.seen process.new)
        (λ m. IfOk result (λ told. traceback_shown told ≡ traceback_at layout.now places.now m head)) }
{
    let value = read_value(alloc, process, layout, head)?;
    let start = start_of(head, value);
    let chain = read_links(alloc, process, places.next, ENTRY_LIMIT, start)?;
    read_told(alloc, process, layout, places, &chain.members, chain.end)
}
