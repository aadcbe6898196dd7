//! The search for interpreters among the words of sections, and its budget.
ghost use Rattle.std.specs.Prelude.{◌≡◌, ◌+◌, ◌*◌, ◌<◌, ◌≤◌, ◌^◌, [], ◌∷◌, IfOk, length, option_map};
ghost use Rattle.process_memory.specs.Seen.{Reading, ReadingBy};
ghost use Rattle.py_fields.specs.Sound.{IsSound};
ghost use Rattle.py_process.specs.Facts.{facts_of, known_of};
ghost use Rattle.py_fronts.specs.Answers.{IsOrNoMemory};
ghost use Rattle.py_fronts.specs.Candidates.{bss_count, bss_counts, bss_of_image, bsses_there, is_long_image};
ghost use Rattle.py_fronts.specs.Candidates.{runtime_count, runtime_counts, runtime_of_image, runtimes_there};
ghost use Rattle.py_fronts.specs.Candidates.{searched_candidates, section_count, section_there, words_in_sections};
ghost use Rattle.py_fronts.specs.Candidates.{words_there};
ghost use Rattle.py_fronts.specs.ChainEnds.{ending_of};
ghost use Rattle.py_fronts.specs.Interpreters.{Looks, after_looks, chain_length, headed_at, look_at, look_within};
ghost use Rattle.py_fronts.specs.Interpreters.{looked_by, looks_reads, search_of, tried_result, try_at, walk_result};
ghost use Rattle.py_fronts.specs.Interpreters.{walked_by, walked_for, walked_of, whole_head, words_reads};
ghost use Rattle.py_fronts.specs.ThreadFronts.{threads_front};

use crate::ChainEnd;
use crate::interpreters::{FoundInterpreter, FoundInterpreters, headed_at, is_found, take};
use crate::sections::piece_words;
use crate::thread_front::{THREAD_LIMIT, Thread, read_thread};
use elf64_core::u64_in;
use image_memory::ContainsAddr;
use process_memory::ProcessMemory;
use py_fields::Layout;
use py_process::{BinaryInfo, PythonProcessInfo};
use py_stacks::StackError;
use std::alloc::Global;

/// How many members of chains of threads are walked for all that are found by search alone. No other is begun behind
/// so many, so that 4095 more may be walked.
const SEARCH_LIMIT: u64 = 4_194_304;

/// How many words of a section are looked at at most: those of its first 32 MiB.
const SECTION_LIMIT: u64 = 4_194_304;

/// How many threads of an interpreter are met at most.
const THREADS: u64 = THREAD_LIMIT as u64;

/// How many words are read at a time.
const PIECE: u64 = 512;

/// What a search for interpreters looked at.
#[derive(Clone, Copy, Debug, PartialEq, Eq)]
pub struct Looked {
    /// How many addresses were looked at: those that are named, and the words of the sections. One that comes again
    /// counts again.
    pub addresses: u64,
    /// How many members of chains of threads were walked for those that are found by search alone.
    pub members: u64,
    /// Whether it ended before all was looked at: by its budget of 4,194,304 members, or since a section has more words
    /// than 4,194,304, which are looked at.
    pub ended: bool,
}

/// The walk of a chain of threads: how many it met, and how it ends.
#[derive(Drop)]
pub(crate) struct ThreadsWalk {
    pub(crate) members: u64,
    pub(crate) end: ChainEnd,
}

/// An address that was tried as an interpreter's.
#[derive(Clone, Copy, Debug, Drop)]
pub struct Trial {
    /// The address of its first thread, where it is an interpreter whose chain of threads is whole.
    pub head: Option<u64>,
    /// How many threads were walked for it, at most 4096.
    pub members: u64,
}

/// What was found so far, how many addresses were looked at, and how many members were walked.
#[derive(Drop)]
pub(crate) struct Searching {
    pub(crate) finds: FoundInterpreters,
    pub(crate) addresses: u64,
    pub(crate) members: u64,
}

/// The walk of an interpreter's threads. At most one read for each of them, and one more.
fn walk_chain<P: ProcessMemory>(
    alloc: Global,
    process: &mut P,
    layout: &Layout,
    interpreter: u64,
    head: u64,
) -> Result<ThreadsWalk, StackError>
    requires sound { IsSound layout.now }
    ensures answer { ReadingBy (λ m. 1 + length (threads_front layout.now interpreter m head).members)
        (P.seen process.old) (P.seen process.new)
        (λ m. IsOrNoMemory (walked_of (threads_front layout.now interpreter m head)) (walk_result result)) }
    ensures few { IfOk result (λ walk. walk.members ≤ 4096) }
{
    let mut members = 0;
    let mut at = head;
    while at != 0 {
        if members == THREADS {
            return Ok(ThreadsWalk {
                members,
                end: ChainEnd::Cut,
            });
        }
        let next = read_thread(alloc, process, layout, interpreter, at)?;
        let thread = match next {
            Thread::At(thread) => thread,
            Thread::Broken(end) => return Ok(ThreadsWalk { members, end }),
        };
        members += 1;
        at = u64_in(&thread, layout.thread.next as usize);
    }
    Ok(ThreadsWalk {
        members,
        end: ChainEnd::Whole,
    })
}

/// The first thread, where its chain is whole.
fn whole_head(end: ChainEnd, head: u64) -> Option<u64>
    ensures { result ≡ whole_head (ending_of end) head }
{
    match end {
        ChainEnd::Whole => Some(head),
        _ => None,
    }
}

/// Tries an address that is found by search alone: it is an interpreter's where a map holds it and its first thread,
/// each names the other, and the chain of its threads is whole. What can't be read is none. The one error is out of
/// memory. At most 3 reads, and one for each thread that is walked.
pub fn try_address<M: ContainsAddr, P: ProcessMemory>(
    alloc: Global,
    maps: &M,
    process: &mut P,
    layout: &Layout,
    addr: u64,
) -> Result<Trial, StackError>
    requires sound { IsSound layout.now }
    ensures answer { ReadingBy
        (λ m. 3 + chain_length layout.now m addr (headed_at (M.contains maps.now) layout.now m addr))
        (P.seen process.old) (P.seen process.new)
        (λ m. IsOrNoMemory (try_at (M.contains maps.now) layout.now m addr) (tried_result result)) }
    ensures few { IfOk result (λ trial. trial.members ≤ 4096) }
{
    let head = match headed_at(alloc, maps, process, layout, addr)? {
        Some(head) => head,
        None => {
            return Ok(Trial {
                head: None,
                members: 0,
            });
        }
    };
    let walk = walk_chain(alloc, process, layout, addr, head)?;
    let members = walk.members;
    Ok(Trial {
        head: whole_head(walk.end, head),
        members,
    })
}

/// Looks at an address: takes it where it is shown and was not found before.
fn look_at<M: ContainsAddr, P: ProcessMemory>(
    alloc: Global,
    maps: &M,
    process: &mut P,
    layout: &Layout,
    addr: u64,
    search: &mut Searching,
) -> Result<(), StackError>
    requires sound { IsSound layout.now }
    requires few { search.old.members < 4194304 }
    ensures { ReadingBy (λ m. 3 + walked_for (M.contains maps.now) layout.now m search.old.finds.found.items addr)
        (P.seen process.old) (P.seen process.new)
        (λ m. Looks (look_at (M.contains maps.now) layout.now m (search_of search.old) addr) search.new result) }
{
    search.addresses = search.addresses.saturating_add(1);
    if is_found(&search.finds.found, addr) {
        return Ok(());
    }
    let trial = try_address(alloc, maps, process, layout, addr)?;
    search.members += trial.members;
    let head = match trial.head {
        Some(head) => head,
        None => return Ok(()),
    };
    let one = FoundInterpreter {
        address: addr,
        head,
        searched: true,
    };
    take(&mut search.finds, one)?;
    Ok(())
}

/// Looks at an address while fewer members were walked than the limit.
fn look_within<M: ContainsAddr, P: ProcessMemory>(
    alloc: Global,
    maps: &M,
    process: &mut P,
    layout: &Layout,
    addr: u64,
    search: &mut Searching,
) -> Result<(), StackError>
    requires sound { IsSound layout.now }
    ensures { ReadingBy (λ m. looks_reads (M.contains maps.now) layout.now m (search_of search.old) (addr ∷ []))
        (P.seen process.old) (P.seen process.new)
        (λ m. Looks (look_within (M.contains maps.now) layout.now m (search_of search.old) addr) search.new result) }
{
    let members = search.members;
    if members < SEARCH_LIMIT {
        return look_at(alloc, maps, process, layout, addr, search);
    }
    Ok(())
}

/// Looks at some addresses, in order.
fn look_at_all<M: ContainsAddr, P: ProcessMemory>(
    alloc: Global,
    maps: &M,
    process: &mut P,
    layout: &Layout,
    addresses: &[u64],
    search: &mut Searching,
) -> Result<(), StackError>
    requires sound { IsSound layout.now }
    ensures { ReadingBy (λ m. looks_reads (M.contains maps.now) layout.now m (search_of search.old) addresses.now)
        (P.seen process.old) (P.seen process.new)
        (λ m. Looks (after_looks (M.contains maps.now) layout.now m (search_of search.old) addresses.now) search.new
        result) }
{
    for addr in addresses {
        look_within(alloc, maps, process, layout, *addr, search)?;
    }
    Ok(())
}

/// Looks at so many words at an address, those that are in memory. At most 2 reads for each, and those of
/// `look_at_all`.
fn look_in_piece<M: ContainsAddr, P: ProcessMemory>(
    alloc: Global,
    maps: &M,
    process: &mut P,
    layout: &Layout,
    at: u128,
    count: u64,
    search: &mut Searching,
) -> Result<(), StackError>
    requires sound { IsSound layout.now }
    requires some { 0 < count }
    requires few { count ≤ 512 }
    requires near { at < 2 ^ 65 }
    ensures { ReadingBy (λ m. words_reads (M.contains maps.now) layout.now m (search_of search.old) at count)
        (P.seen process.old) (P.seen process.new)
        (λ m. Looks (after_looks (M.contains maps.now) layout.now m (search_of search.old) (words_there m at count))
        search.new result) }
{
    let words = piece_words(alloc, process, at, count)?;
    look_at_all(alloc, maps, process, layout, &words, search)
}

/// Looks at the words of a section that are in memory, piece by piece.
fn look_in_section<M: ContainsAddr, P: ProcessMemory>(
    alloc: Global,
    maps: &M,
    process: &mut P,
    layout: &Layout,
    addr: u64,
    size: u64,
    search: &mut Searching,
) -> Result<(), StackError>
    requires sound { IsSound layout.now }
    ensures { ReadingBy (λ m. words_reads (M.contains maps.now) layout.now m (search_of search.old) addr
        (section_count size)) (P.seen process.old) (P.seen process.new)
        (λ m. Looks (after_looks (M.contains maps.now) layout.now m (search_of search.old) (section_there m addr size))
        search.new result) }
{
    let count = (size / 8).min(SECTION_LIMIT);
    let mut done: u64 = 0;
    while done < count {
        let members = search.members;
        if members >= SEARCH_LIMIT {
            return Ok(());
        }
        let piece = PIECE.min(count - done);
        let at = addr as u128 + 8 * done as u128;
        look_in_piece(alloc, maps, process, layout, at, piece, search)?;
        done += piece;
    }
    Ok(())
}

/// Looks at the words of an image's runtime section, where it has one.
fn look_in_runtime<M: ContainsAddr, P: ProcessMemory>(
    alloc: Global,
    maps: &M,
    process: &mut P,
    layout: &Layout,
    binary: &Option<BinaryInfo>,
    search: &mut Searching,
) -> Result<(), StackError>
    requires sound { IsSound layout.now }
    ensures { ReadingBy (λ m. 5 * runtime_count (option_map facts_of binary.now) + walked_by (M.contains maps.now)
        layout.now m (search_of search.old) (runtime_of_image m (option_map facts_of binary.now)))
        (P.seen process.old) (P.seen process.new)
        (λ m. Looks (after_looks (M.contains maps.now) layout.now m (search_of search.old)
        (runtime_of_image m (option_map facts_of binary.now))) search.new result) }
{
    let Some(binary) = binary else {
        return Ok(());
    };
    if binary.pyruntime_addr == 0 {
        return Ok(());
    }
    let (addr, size) = (binary.pyruntime_addr, binary.pyruntime_size);
    look_in_section(alloc, maps, process, layout, addr, size, search)
}

/// Looks at those of its bss.
fn look_in_bss<M: ContainsAddr, P: ProcessMemory>(
    alloc: Global,
    maps: &M,
    process: &mut P,
    layout: &Layout,
    binary: &Option<BinaryInfo>,
    search: &mut Searching,
) -> Result<(), StackError>
    requires sound { IsSound layout.now }
    ensures { ReadingBy (λ m. 5 * bss_count (option_map facts_of binary.now) + walked_by (M.contains maps.now)
        layout.now m (search_of search.old) (bss_of_image m (option_map facts_of binary.now)))
        (P.seen process.old) (P.seen process.new)
        (λ m. Looks (after_looks (M.contains maps.now) layout.now m (search_of search.old)
        (bss_of_image m (option_map facts_of binary.now))) search.new result) }
{
    let Some(binary) = binary else {
        return Ok(());
    };
    let (addr, size) = (binary.bss_addr, binary.bss_size);
    look_in_section(alloc, maps, process, layout, addr, size, search)
}

/// Looks at the words of the runtime sections of the program and of the library.
fn look_in_runtimes<M: ContainsAddr, P: ProcessMemory>(
    alloc: Global,
    info: &PythonProcessInfo<M>,
    process: &mut P,
    layout: &Layout,
    search: &mut Searching,
) -> Result<(), StackError>
    requires sound { IsSound layout.now }
    ensures { ReadingBy (λ m. 5 * runtime_counts (known_of info.now) + walked_by (M.contains info.now.maps) layout.now m
        (search_of search.old) (runtimes_there (known_of info.now) m)) (P.seen process.old) (P.seen process.new)
        (λ m. Looks (after_looks (M.contains info.now.maps) layout.now m (search_of search.old)
        (runtimes_there (known_of info.now) m)) search.new result) }
{
    let maps = &info.maps;
    look_in_runtime(alloc, maps, process, layout, &info.python_binary, search)?;
    look_in_runtime(alloc, maps, process, layout, &info.libpython_binary, search)
}

/// Looks at those of their bss.
fn look_in_bsses<M: ContainsAddr, P: ProcessMemory>(
    alloc: Global,
    info: &PythonProcessInfo<M>,
    process: &mut P,
    layout: &Layout,
    search: &mut Searching,
) -> Result<(), StackError>
    requires sound { IsSound layout.now }
    ensures { ReadingBy (λ m. 5 * bss_counts (known_of info.now) + walked_by (M.contains info.now.maps) layout.now m
        (search_of search.old) (bsses_there (known_of info.now) m)) (P.seen process.old) (P.seen process.new)
        (λ m. Looks (after_looks (M.contains info.now.maps) layout.now m (search_of search.old)
        (bsses_there (known_of info.now) m)) search.new result) }
{
    let maps = &info.maps;
    look_in_bss(alloc, maps, process, layout, &info.python_binary, search)?;
    look_in_bss(alloc, maps, process, layout, &info.libpython_binary, search)
}

/// Looks at the words of the sections of a process: those of the runtime sections, and then those of the bss.
pub(crate) fn look_in_sections<M: ContainsAddr, P: ProcessMemory>(
    alloc: Global,
    info: &PythonProcessInfo<M>,
    process: &mut P,
    layout: &Layout,
    search: &mut Searching,
) -> Result<(), StackError>
    requires sound { IsSound layout.now }
    ensures { ReadingBy (λ m. 5 * words_in_sections (known_of info.now) + walked_by (M.contains info.now.maps)
        layout.now m (search_of search.old) (searched_candidates (known_of info.now) m))
        (P.seen process.old) (P.seen process.new)
        (λ m. Looks (after_looks (M.contains info.now.maps) layout.now m (search_of search.old)
        (searched_candidates (known_of info.now) m)) search.new result) }
{
    look_in_runtimes(alloc, info, process, layout, search)?;
    look_in_bsses(alloc, info, process, layout, search)
}

/// Whether a section of an image has more words than are looked at.
fn is_long_image(binary: &Option<BinaryInfo>) -> bool
    ensures { result ≡ is_long_image (option_map facts_of binary.now) }
{
    match binary {
        Some(binary) => {
            binary.pyruntime_size / 8 > SECTION_LIMIT || binary.bss_size / 8 > SECTION_LIMIT
        }
        None => false,
    }
}

/// What a search looked at.
pub(crate) fn looked_by<M: ContainsAddr>(info: &PythonProcessInfo<M>, search: &Searching) -> Looked
    ensures { result ≡ looked_by (known_of info.now) (search_of search.now) }
{
    let is_long = is_long_image(&info.python_binary) || is_long_image(&info.libpython_binary);
    Looked {
        addresses: search.addresses,
        members: search.members,
        ended: search.members >= SEARCH_LIMIT || is_long,
    }
}
