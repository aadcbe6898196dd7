//! Which interpreters of a process are shown.
ghost use Rattle.std.specs.Prelude.{◌≡◌, ℕ, ◌+◌, ◌*◌, ◌<◌, ◌≤◌, ◌^◌, false, IfOk, OnOk, length, map};
ghost use Rattle.process_memory.specs.Memory.{byte_at};
ghost use Rattle.process_memory.specs.Seen.{Reading, ReadingBy};
ghost use Rattle.py_fields.specs.Sound.{IsSound};
ghost use Rattle.py_process.specs.Facts.{known_of};
ghost use Rattle.py_fronts.specs.Answers.{IsOrNoMemory};
ghost use Rattle.py_fronts.specs.BesideReports.{FindsReported};
ghost use Rattle.py_fronts.specs.Candidates.{record_candidates, record_most};
ghost use Rattle.py_stacks.specs.Interpreter.{interpreter_named_by, threads_head};
ghost use Rattle.py_fronts.specs.Interpreters.{HeadIs, Looking, Takes, address_at, after_candidate, after_candidates};
ghost use Rattle.py_fronts.specs.Interpreters.{after_record_of, after_records, candidate_reads, candidates_reads};
ghost use Rattle.py_fronts.specs.Interpreters.{finds_of, headed_at, headed_by, is_found, named_if, named_reads};
ghost use Rattle.py_fronts.specs.Interpreters.{names_it, reads_of_record, records_reads, search_begins};
ghost use Rattle.py_fronts.specs.Interpreters.{searching_result, taking_reads, told_at, told_result, with_one};
ghost use Rattle.py_fronts.specs.Interpreters.{with_their_records};
ghost use Rattle.py_fronts.specs.ShownInterpreters.{AreAllNamed, AreAllSearched, AreMarked, AreShown};

use crate::candidates::{named_candidates, nothing_read, others_led_to};
use crate::search::{Looked, Searching, look_in_sections, looked_by};
use crate::thread_front::{Thread, read_thread};
use image_memory::ContainsAddr;
use process_memory::ProcessMemory;
use py_fields::{Layout, Version};
use py_process::PythonProcessInfo;
use py_stacks::{StackError, get_first_thread};
use std::alloc::{AllocFailed, Global};

/// How many interpreters are shown at most.
const INTERPRETER_LIMIT: usize = 16;

/// An interpreter that is shown.
#[derive(Clone, Copy, Debug, PartialEq, Eq)]
pub struct FoundInterpreter {
    /// The address of its record.
    pub address: u64,
    /// The address of its first thread.
    pub head: u64,
    /// Whether it was found by search alone, and nothing names it. Named is the head that symbols give, or else the
    /// runtime section; what its record leads to; and what the record of another interpreter that is shown leads to.
    pub searched: bool,
}

/// The interpreters that are shown.
#[derive(Debug, Drop)]
pub struct FoundInterpreters {
    /// The interpreters, at most 16, each address once.
    pub found: Vec<FoundInterpreter>,
    /// Whether there are more.
    pub more: bool,
}

/// The interpreters that are shown, and what was looked at for them.
#[derive(Debug, Drop)]
pub struct InterpreterSearch {
    /// The interpreters.
    pub finds: FoundInterpreters,
    /// What the search looked at.
    pub looked: Looked,
}

/// The address of a thread of the interpreter, where there is one.
fn head_where(thread: Thread, head: u64) -> Option<u64>
    ensures { HeadIs head thread result }
{
    match thread {
        Thread::At(_) => Some(head),
        Thread::Broken(_) => None,
    }
}

/// The first thread, where it names the interpreter. At most one read.
fn names_it<P: ProcessMemory>(
    alloc: Global,
    process: &mut P,
    layout: &Layout,
    interpreter: u64,
    head: u64,
) -> Result<Option<u64>, StackError>
    requires sound { IsSound layout.now }
    ensures { Reading 1 (P.seen process.old) (P.seen process.new)
        (λ m. IsOrNoMemory (names_it interpreter head (interpreter_named_by layout.now m head)) result) }
{
    let thread = read_thread(alloc, process, layout, interpreter, head)?;
    Ok(head_where(thread, head))
}

/// The first thread of an interpreter, where a map holds it and it names the interpreter. At most 2 reads.
fn first_thread<M: ContainsAddr, P: ProcessMemory>(
    alloc: Global,
    maps: &M,
    process: &mut P,
    layout: &Layout,
    interpreter: u64,
) -> Result<Option<u64>, StackError>
    requires sound { IsSound layout.now }
    ensures { Reading 2 (P.seen process.old) (P.seen process.new) (λ m. IsOrNoMemory
        (headed_by (M.contains maps.now) layout.now m interpreter (threads_head layout.now m interpreter)) result) }
{
    let head = match get_first_thread(process, layout, interpreter) {
        Ok(head) => head,
        Err(error) => return nothing_read(error),
    };
    if head == 0 {
        return Ok(None);
    }
    if !maps.contains_addr(head) {
        return Ok(None);
    }
    names_it(alloc, process, layout, interpreter, head)
}

/// The first thread of an address that is an interpreter's. Nothing is read where no map holds it; else at most 2
/// reads.
pub(crate) fn headed_at<M: ContainsAddr, P: ProcessMemory>(
    alloc: Global,
    maps: &M,
    process: &mut P,
    layout: &Layout,
    addr: u64,
) -> Result<Option<u64>, StackError>
    requires sound { IsSound layout.now }
    ensures { Reading 2 (P.seen process.old) (P.seen process.new)
        (λ m. IsOrNoMemory (headed_at (M.contains maps.now) layout.now m addr) result) }
{
    if !maps.contains_addr(addr) {
        return Ok(None);
    }
    first_thread(alloc, maps, process, layout, addr)
}

/// Whether an address was found already.
pub(crate) fn is_found(found: &[FoundInterpreter], addr: u64) -> bool
    ensures { result ≡ is_found (found.now) addr }
{
    found.iter().any(|one| one.address == addr)
}

/// Marks what was found at an address as named.
fn mark_named(found: &mut Vec<FoundInterpreter>, addr: u64)
    ensures { found.new.items ≡ map (named_if addr) found.old.items }
{
    for one in found.iter_mut() {
        one.searched = one.searched && one.address != addr;
    }
}

/// Takes an interpreter, where no more than 16 are then; else there are more.
pub(crate) fn take(
    finds: &mut FoundInterpreters,
    one: FoundInterpreter,
) -> Result<(), AllocFailed<FoundInterpreter>>
    ensures { OnOk result (finds_of finds.new ≡ with_one (finds_of finds.old) one) }
{
    if finds.found.len() < INTERPRETER_LIMIT {
        return finds.found.push(one);
    }
    finds.more = true;
    Ok(())
}

/// Takes a candidate that is named, where it is shown and was not found before; else only its name is noted. At most 2
/// reads.
fn take_candidate<M: ContainsAddr, P: ProcessMemory>(
    alloc: Global,
    maps: &M,
    process: &mut P,
    layout: &Layout,
    addr: u64,
    finds: &mut FoundInterpreters,
) -> Result<(), StackError>
    requires sound { IsSound layout.now }
    ensures { ReadingBy (λ m. candidate_reads false (M.contains maps.now) layout.now m addr) (P.seen process.old)
        (P.seen process.new) (λ m. Takes
        (after_candidate false (M.contains maps.now) layout.now m (finds_of finds.old) addr) finds.new result) }
{
    if is_found(&finds.found, addr) {
        mark_named(&mut finds.found, addr);
        return Ok(());
    }
    let head = match headed_at(alloc, maps, process, layout, addr)? {
        Some(head) => head,
        None => return Ok(()),
    };
    let one = FoundInterpreter {
        address: addr,
        head,
        searched: false,
    };
    take(finds, one)?;
    Ok(())
}

/// Takes candidates that are named, in order.
fn take_candidates<M: ContainsAddr, P: ProcessMemory>(
    alloc: Global,
    maps: &M,
    process: &mut P,
    layout: &Layout,
    candidates: &[u64],
    finds: &mut FoundInterpreters,
) -> Result<(), StackError>
    requires sound { IsSound layout.now }
    ensures { ReadingBy (λ m. candidates_reads false (M.contains maps.now) layout.now m candidates.now)
        (P.seen process.old) (P.seen process.new) (λ m. Takes
        (after_candidates false (M.contains maps.now) layout.now m (finds_of finds.old) candidates.now)
        finds.new result) }
{
    for addr in candidates {
        take_candidate(alloc, maps, process, layout, *addr, finds)?;
    }
    Ok(())
}

/// The address of an interpreter that was found, by its index.
fn address_at(found: &[FoundInterpreter], index: usize) -> Option<u64>
    ensures { result ≡ address_at found.now index }
{
    match found.get(index) {
        Some(one) => Some(one.address),
        None => None,
    }
}

/// Takes the others that the record of an interpreter leads to. At most one read, and 4 for each that it leads to;
/// none where no interpreter stands at the index.
fn take_record<M: ContainsAddr, P: ProcessMemory>(
    alloc: Global,
    maps: &M,
    process: &mut P,
    layout: &Layout,
    index: usize,
    finds: &mut FoundInterpreters,
) -> Result<(), StackError>
    requires sound { IsSound layout.now }
    ensures { Reading (reads_of_record layout.now (byte_at (P.seen process.old).pieces)
        (address_at (finds_of finds.old).found index)) (P.seen process.old) (P.seen process.new) (λ m. Takes
        (after_record_of (M.contains maps.now) layout.now m (finds_of finds.old)
        (address_at (finds_of finds.old).found index)) finds.new result) }
{
    let interpreter = match address_at(&finds.found, index) {
        Some(interpreter) => interpreter,
        None => return Ok(()),
    };
    let candidates = others_led_to(alloc, process, layout, interpreter)?;
    take_candidates(alloc, maps, process, layout, &candidates, finds)
}

/// Takes those that the records of all that are found lead to, in turn.
fn take_records<M: ContainsAddr, P: ProcessMemory>(
    alloc: Global,
    maps: &M,
    process: &mut P,
    layout: &Layout,
    finds: &mut FoundInterpreters,
) -> Result<(), StackError>
    requires sound { IsSound layout.now }
    ensures { Reading (records_reads layout.now (byte_at (P.seen process.old).pieces)
        (after_records (M.contains maps.now) layout.now (byte_at (P.seen process.old).pieces) 16 0
        (finds_of finds.old)).found) (P.seen process.old) (P.seen process.new) (λ m. Takes
        (after_records (M.contains maps.now) layout.now m 16 0 (finds_of finds.old)) finds.new result) }
{
    for index in 0..INTERPRETER_LIMIT {
        take_record(alloc, maps, process, layout, index, finds)?;
    }
    Ok(())
}

/// Takes those of some candidates that are named, and those that the records of all that are found lead to.
fn take_with_records<M: ContainsAddr, P: ProcessMemory>(
    alloc: Global,
    maps: &M,
    process: &mut P,
    layout: &Layout,
    candidates: &[u64],
    finds: &mut FoundInterpreters,
) -> Result<(), StackError>
    requires sound { IsSound layout.now }
    ensures { Reading (taking_reads false (M.contains maps.now) layout.now
        (byte_at (P.seen process.old).pieces) (finds_of finds.old) candidates.now) (P.seen process.old)
        (P.seen process.new) (λ m. Takes (with_their_records false (M.contains maps.now) layout.now m
        (finds_of finds.old) candidates.now) finds.new result) }
{
    take_candidates(alloc, maps, process, layout, candidates, finds)?;
    take_records(alloc, maps, process, layout, finds)
}

/// Those that are named, from which the search goes on: at most 7 reads, 4 for each candidate that is named, and those
/// of the records of all that are found.
fn find_named<M: ContainsAddr, P: ProcessMemory>(
    alloc: Global,
    info: &PythonProcessInfo<M>,
    process: &mut P,
    version: &Version,
    layout: &Layout,
) -> Result<Searching, StackError>
    requires sound { IsSound layout.now }
    ensures { ReadingBy (λ m. named_reads (M.contains info.now.maps) (known_of info.now) version.now layout.now m)
        (P.seen process.old) (P.seen process.new) (λ m. IsOrNoMemory
        (search_begins (M.contains info.now.maps) (known_of info.now) version.now layout.now m)
        (searching_result result)) }
{
    let mut finds = FoundInterpreters {
        found: Vec::new(alloc),
        more: false,
    };
    let named = named_candidates(alloc, info, process, version, layout)?;
    take_with_records(alloc, &info.maps, process, layout, &named, &mut finds)?;
    Ok(Searching {
        finds,
        addresses: named.len() as u64,
        members: 0,
    })
}

/// See `find_interpreters`.
fn find_all<M: ContainsAddr, P: ProcessMemory>(
    alloc: Global,
    info: &PythonProcessInfo<M>,
    process: &mut P,
    version: &Version,
    layout: &Layout,
) -> Result<InterpreterSearch, StackError>
    requires sound { IsSound layout.now }
    ensures { Looking (M.contains info.now.maps) (known_of info.now) version.now layout.now (P.seen process.old)
        (P.seen process.new) (λ m. IsOrNoMemory
        (told_at (M.contains info.now.maps) (known_of info.now) version.now layout.now m)
        (told_result result)) }
{
    let mut search = find_named(alloc, info, process, version, layout)?;
    look_in_sections(alloc, info, process, layout, &mut search)?;
    let looked = looked_by(info, &search);
    let mut finds = search.finds;
    take_records(alloc, &info.maps, process, layout, &mut finds)?;
    Ok(InterpreterSearch { finds, looked })
}

/// The interpreters of a process that are shown, in the order in which they are found.
///
/// First come those that are named: the head that symbols give, or else the runtime section, and those that its record
/// leads to, though it has no thread itself; and with them those that the record of one of them leads to. A record
/// leads to an interpreter by one of its words in front of the head of its threads, of which at most 1024 are looked
/// at, in turn; and where the address that it holds has no thread, by the word at the same place there, past at most
/// 64 such in a row. Then those that are found by search alone: the words of the program's runtime section and of the
/// library's, and those of their bss, as far as they are in memory and among the first 4,194,304 of their section; and
/// again those that the records of these lead to. The search ends where 4,194,304 members of chains of threads were
/// walked for those of it (`looked`), each of which is walked once where it is taken. Each address is taken once, and
/// 16 at most; `more` says whether there is another. One that was found by search counts as named
/// (`FoundInterpreter::searched`) where the record of another one, found before it or after, leads to it.
///
/// An address is an interpreter's where a map holds it, the word of its first thread is in memory, is not 0 and lies in
/// a map, and the record of that thread names the address. One that is found by search alone is taken only where its
/// chain of threads is whole.
///
/// The one error is out of memory. At most 7 reads, and 4 for each candidate that is named; for each word of the
/// sections that is looked at 5, and one for each member that is walked; and twice for each interpreter that is shown
/// one for its record, and 4 for each that it leads to. A record leads to at most 65 for each of its words that are
/// looked at.
pub fn find_interpreters<M: ContainsAddr, P: ProcessMemory>(
    alloc: Global,
    info: &PythonProcessInfo<M>,
    process: &mut P,
    version: &Version,
    layout: &Layout,
) -> Result<InterpreterSearch, StackError>
    requires sound { IsSound layout.now }
    ensures answer { Looking (M.contains info.now.maps) (known_of info.now) version.now layout.now (P.seen process.old)
        (P.seen process.new) (λ m. IsOrNoMemory
        (told_at (M.contains info.now.maps) (known_of info.now) version.now layout.now m)
        (told_result result)) }
    ensures right { Looking (M.contains info.now.maps) (known_of info.now) version.now layout.now (P.seen process.old)
        (P.seen process.new)
        (λ m. IfOk result (λ search. AreShown (M.contains info.now.maps) layout.now m (finds_of search.finds))) }
    // one was found by search alone where nothing names it, and nowhere else
    ensures marked { Looking (M.contains info.now.maps) (known_of info.now) version.now layout.now (P.seen process.old)
        (P.seen process.new) (λ m. IfOk result
        (λ search. AreMarked (known_of info.now) version.now layout.now m (finds_of search.finds))) }
    // none is left out of those that are named, and of those that records lead to
    ensures named { Looking (M.contains info.now.maps) (known_of info.now) version.now layout.now (P.seen process.old)
        (P.seen process.new) (λ m. IfOk result (λ search. search.finds.more ≡ false → AreAllNamed
        (M.contains info.now.maps) (known_of info.now) version.now layout.now m (finds_of search.finds))) }
    // nor of those that are found by search alone, where it did not end before
    ensures all { Looking (M.contains info.now.maps) (known_of info.now) version.now layout.now (P.seen process.old)
        (P.seen process.new) (λ m. IfOk result (λ search. search.finds.more ≡ false → search.looked.ended ≡ false
        → AreAllSearched (M.contains info.now.maps) (known_of info.now) layout.now m (finds_of search.finds))) }
    ensures report { Looking (M.contains info.now.maps) (known_of info.now) version.now layout.now (P.seen process.old)
        (P.seen process.new) (λ m. IfOk result (λ search. FindsReported search.looked.ended
        (M.contains info.now.maps) (known_of info.now) version.now layout.now m (finds_of search.finds))) }
    // the budget of the search
    ensures walked { Looking (M.contains info.now.maps) (known_of info.now) version.now layout.now (P.seen process.old)
        (P.seen process.new) (λ m. IfOk result (λ search. search.looked.members < 4194304 + 4096)) }
    ensures few { (a : ℕ) → length (record_candidates layout.now (byte_at (P.seen process.old).pieces) a)
        ≤ record_most layout.now }
{
    find_all(alloc, info, process, version, layout)
}
