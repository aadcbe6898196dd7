//! All that some objects lead to, each once.
ghost use Rattle.std.specs.Prelude.{◌≡◌, ◌*◌, ◌≤◌, [], IfOk, OnOk, length, map};
ghost use Rattle.process_memory.specs.Seen.{Reading};
ghost use Rattle.thread_exceptions.specs.Discovery.{AreMet, AreSame, Mets, add_one, gather, met_of};
ghost use Rattle.thread_exceptions.specs.Exceptions.{context_of, leads, members_in, parts_leads, what_at, what_of};
ghost use Rattle.thread_exceptions.specs.Groups.{members_of};
ghost use Rattle.thread_exceptions.specs.Places.{IsSound};

use crate::exception::{Parts, What, read_what};
use crate::groups::Members;
use crate::{ExceptionsError, Places};
use process_memory::ProcessMemory;
use std::alloc::Global;
use std::collections::BTreeSet;

/// An object that was met, and what it is.
#[derive(Drop)]
pub struct Met {
    pub addr: u64,
    pub what: What,
}

/// The addresses that were found, in order, and as a set.
#[derive(Drop)]
struct Found {
    addrs: Vec<u64>,
    set: BTreeSet<u64>,
}

/// Adds an address, unless it is 0, was found, or no more may be found.
fn add(found: &mut Found, limit: usize, addr: u64) -> Result<(), ExceptionsError>
    requires same { AreSame found.old.set.keys found.old.addrs.items }
    ensures same { OnOk result (AreSame found.new.set.keys found.new.addrs.items) }
    ensures added { OnOk result (found.new.addrs.items ≡ add_one limit found.old.addrs.items addr) }
{
    if addr == 0 {
        return Ok(());
    }
    if found.addrs.len() >= limit {
        return Ok(());
    }
    if found.set.contains(&addr) {
        return Ok(());
    }
    found.addrs.push(addr)?;
    found.set.insert(addr)?;
    Ok(())
}

/// The same of each of some addresses.
fn add_all(found: &mut Found, limit: usize, addrs: &[u64]) -> Result<(), ExceptionsError>
    requires same { AreSame found.old.set.keys found.old.addrs.items }
    ensures same { OnOk result (AreSame found.new.set.keys found.new.addrs.items) }
    ensures added { OnOk result (found.new.addrs.items ≡ gather limit found.old.addrs.items addrs.now) }
{
    for addr in addrs {
        add(found, limit, *addr)?;
    }
    Ok(())
}

/// The same of the members of an exception.
#[tactic(auto, unfolding(crate::specs::Discovery::gather))]
fn add_members(found: &mut Found, limit: usize, members: &Members) -> Result<(), ExceptionsError>
    requires same { AreSame found.old.set.keys found.old.addrs.items }
    ensures same { OnOk result (AreSame found.new.set.keys found.new.addrs.items) }
    ensures added { OnOk result (found.new.addrs.items
        ≡ gather limit found.old.addrs.items (members_in (members_of members.now))) }
{
    match members {
        Members::Group(group) => add_all(found, limit, &group.members),
        Members::NoGroup => Ok(()),
        Members::Unreadable(_) => Ok(()),
    }
}

/// The same of the context of an exception, unless it is suppressed.
#[tactic(auto, unfolding(crate::specs::Discovery::gather))]
fn add_context(found: &mut Found, limit: usize, parts: &Parts) -> Result<(), ExceptionsError>
    requires same { AreSame found.old.set.keys found.old.addrs.items }
    ensures same { OnOk result (AreSame found.new.set.keys found.new.addrs.items) }
    ensures added { OnOk result (found.new.addrs.items
        ≡ gather limit found.old.addrs.items (context_of parts.now)) }
{
    if parts.suppress_context {
        return Ok(());
    }
    add(found, limit, parts.context)
}

/// The same of all that an exception leads to.
fn add_parts(
    found: &mut Found,
    limit: usize,
    parts: &Parts,
    members: &Members,
) -> Result<(), ExceptionsError>
    requires same { AreSame found.old.set.keys found.old.addrs.items }
    ensures same { OnOk result (AreSame found.new.set.keys found.new.addrs.items) }
    ensures added { OnOk result (found.new.addrs.items
        ≡ gather limit found.old.addrs.items (parts_leads parts.now (members_of members.now))) }
{
    add(found, limit, parts.cause)?;
    add_context(found, limit, parts)?;
    add_members(found, limit, members)?;
    Ok(())
}

/// The same of all that an object leads to.
#[tactic(auto, unfolding(crate::specs::Discovery::gather))]
fn add_leads(found: &mut Found, limit: usize, what: &What) -> Result<(), ExceptionsError>
    requires same { AreSame found.old.set.keys found.old.addrs.items }
    ensures same { OnOk result (AreSame found.new.set.keys found.new.addrs.items) }
    ensures added { OnOk result (found.new.addrs.items
        ≡ gather limit found.old.addrs.items (leads (what_of what.now))) }
{
    match what {
        What::Exception { parts, members } => add_parts(found, limit, parts, members),
        What::Other => Ok(()),
        What::Unreadable(_) => Ok(()),
    }
}

/// See `read_closure`.
fn discover<P: ProcessMemory>(
    alloc: Global,
    process: &mut P,
    places: &Places,
    limit: usize,
    roots: &[u64],
) -> Result<Vec<Met>, ExceptionsError>
    requires sound { IsSound places.now }
    ensures { Reading (263 * limit) (P.seen process.old) (P.seen process.new)
        (λ m. IfOk result (λ all. AreMet (what_at places.now m) limit roots.now (map (λ x. met_of x) all.items))) }
{
    let mut found = Found {
        addrs: Vec::new(alloc),
        set: BTreeSet::new(alloc),
    };
    add_all(&mut found, limit, roots)?;
    let mut all: Vec<Met> = Vec::new(alloc);
    'all: while all.len() < found.addrs.len() {
        let number = all.len();
        let addr = found.addrs[number];
        let what = read_what(alloc, process, places, addr)?;
        add_leads(&mut found, limit, &what)?;
        all.push(Met { addr, what })?;
    }
    Ok(all)
}

/// All objects that are met from some addresses on, in order of discovery, each once, at most `limit` of them: those at
/// the addresses, and behind them what each exception leads to, in turn: its cause, its context unless that is
/// suppressed, and its members. An address of 0 is none. There is one such list
/// alone, and it is the answer. The one error is out of memory. At most 263 reads for each.
pub fn read_closure<P: ProcessMemory>(
    alloc: Global,
    process: &mut P,
    places: &Places,
    limit: usize,
    roots: &[u64],
) -> Result<Vec<Met>, ExceptionsError>
    requires sound { IsSound places.now }
    ensures right { Reading (263 * limit) (P.seen process.old) (P.seen process.new)
        (λ m. IfOk result (λ all. AreMet (what_at places.now m) limit roots.now (map (λ x. met_of x) all.items))) }
    ensures only { Reading (263 * limit) (P.seen process.old) (P.seen process.new)
        (λ m. (other : Mets) → AreMet (what_at places.now m) limit roots.now other
        → IfOk result (λ all. map (λ x. met_of x) all.items ≡ other)) }
{
    discover(alloc, process, places, limit, roots)
}
