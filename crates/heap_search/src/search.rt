//! The search for interpreters among the words of a process's memory, and its budget.
ghost use Rattle.std.specs.Prelude.{◌≡◌, ◌+◌, ◌*◌, ◌<◌, ◌≤◌, ◌∷◌, [], All, IfOk, OnOk, length};
ghost use Rattle.process_memory.specs.Seen.{Reading, ReadingBy};
ghost use Rattle.py_fields.specs.Sound.{IsSound};
ghost use Rattle.py_fronts.specs.Answers.{IsOrNoMemory};
ghost use Rattle.py_fronts.specs.Interpreters.{chain_length, finds_of, headed_at, is_found, tried_result};
ghost use Rattle.py_fronts.specs.Interpreters.{walked_for, with_one};
ghost use Rattle.heap_search.specs.OfProcess.{AreOfProcess};
ghost use Rattle.heap_search.specs.Pieces.{IsPiece, piece_there, pieces_there};
ghost use Rattle.heap_search.specs.Search.{Looks, after_looks, look_at, look_within, looked_by, looks_reads};
ghost use Rattle.heap_search.specs.Search.{pieces_reads, search_at, search_in, search_of, search_reads, search_result};
ghost use Rattle.heap_search.specs.Search.{head_if, known_at, nothing_yet, piece_reads};

use crate::known::has_known;
use crate::pieces::{HeapPiece, heap_pieces, is_cut};
use image_memory::{ContainsAddr, CoreMapRange};
use process_memory::ProcessMemory;
use py_fields::Layout;
use py_fronts::{FoundInterpreter, FoundInterpreters, Looked, Trial, piece_words, try_address};
use py_stacks::StackError;
use std::alloc::{AllocFailed, Global};

/// How many interpreters are taken at most.
const INTERPRETERS: usize = 16;

/// How many members of chains of threads are walked: no other is begun behind so many, so that 4095 more may be.
const MEMBERS: u64 = 4_194_304;

/// What was found so far, how many words were looked at, and how many members of chains of threads were walked.
#[derive(Debug, Drop)]
pub struct HeapSearch {
    /// The interpreters that were found, each marked as found by search.
    pub finds: FoundInterpreters,
    /// How many words were looked at. One that comes again counts again.
    pub addresses: u64,
    /// How many members of chains of threads were walked.
    pub members: u64,
}

/// Whether an address was found already.
fn is_found(found: &[FoundInterpreter], addr: u64) -> bool
    ensures { result ≡ is_found found.now addr }
{
    found.iter().any(|one| one.address == addr)
}

/// Takes an interpreter, where no more than 16 are then; else there are more.
fn take(
    finds: &mut FoundInterpreters,
    one: FoundInterpreter,
) -> Result<(), AllocFailed<FoundInterpreter>>
    ensures { OnOk result (finds_of finds.new ≡ with_one (finds_of finds.old) one) }
{
    if finds.found.len() < INTERPRETERS {
        return finds.found.push(one);
    }
    finds.more = true;
    Ok(())
}

/// A first thread, where its interpreter is taken.
fn head_if(is_taken: bool, head: u64) -> Option<u64>
    ensures { result ≡ head_if is_taken head }
{
    if is_taken { Some(head) } else { None }
}

/// Tries an address. At most 4 reads, and 6 for each thread that is walked.
fn try_known<M: ContainsAddr, P: ProcessMemory>(
    alloc: Global,
    maps: &M,
    process: &mut P,
    layout: &Layout,
    pointers: &[u64],
    class: u64,
    addr: u64,
) -> Result<Trial, StackError>
    requires sound { IsSound layout.now }
    ensures answer { ReadingBy
        (λ m. 4 + 6 * chain_length layout.now m addr (headed_at (M.contains maps.now) layout.now m addr))
        (P.seen process.old) (P.seen process.new)
        (λ m. IsOrNoMemory (known_at (M.contains maps.now) layout.now m pointers.now class addr)
        (tried_result result)) }
    ensures few { IfOk result (λ trial. trial.members ≤ 4096) }
{
    let trial = try_address(alloc, maps, process, layout, addr)?;
    let members = trial.members;
    let head = match trial.head {
        Some(head) => head,
        None => {
            return Ok(Trial {
                head: None,
                members,
            });
        }
    };
    let known = has_known(alloc, process, layout, pointers, class, addr, head)?;
    Ok(Trial {
        head: head_if(known, head),
        members,
    })
}

/// Looks at an address: takes it where it is an interpreter with a thread that is known, and was not found before.
fn look_at<M: ContainsAddr, P: ProcessMemory>(
    alloc: Global,
    maps: &M,
    process: &mut P,
    layout: &Layout,
    pointers: &[u64],
    class: u64,
    addr: u64,
    search: &mut HeapSearch,
) -> Result<(), StackError>
    requires sound { IsSound layout.now }
    requires few { search.old.members < 4194304 }
    ensures { ReadingBy (λ m. 4 + 6 * walked_for (M.contains maps.now) layout.now m search.old.finds.found.items addr)
        (P.seen process.old) (P.seen process.new)
        (λ m. Looks (look_at (M.contains maps.now) layout.now m pointers.now class (search_of search.old) addr)
        search.new result) }
{
    search.addresses = search.addresses.saturating_add(1);
    if is_found(&search.finds.found, addr) {
        return Ok(());
    }
    let taken = try_known(alloc, maps, process, layout, pointers, class, addr)?;
    search.members += taken.members;
    let head = match taken.head {
        Some(head) => head,
        None => return Ok(()),
    };
    let one = FoundInterpreter {
        address: addr,
        head,
        searched: true,
    };
    take(&mut search.finds, one)?;
    Ok(())
}

/// Looks at an address while fewer members were walked than the limit.
fn look_within<M: ContainsAddr, P: ProcessMemory>(
    alloc: Global,
    maps: &M,
    process: &mut P,
    layout: &Layout,
    pointers: &[u64],
    class: u64,
    addr: u64,
    search: &mut HeapSearch,
) -> Result<(), StackError>
    requires sound { IsSound layout.now }
    ensures { ReadingBy
        (λ m. looks_reads (M.contains maps.now) layout.now m pointers.now class (search_of search.old) (addr ∷ []))
        (P.seen process.old) (P.seen process.new)
        (λ m. Looks (look_within (M.contains maps.now) layout.now m pointers.now class (search_of search.old) addr)
        search.new result) }
{
    let members = search.members;
    if members < MEMBERS {
        return look_at(alloc, maps, process, layout, pointers, class, addr, search);
    }
    Ok(())
}

/// Looks at some addresses, in order.
fn look_at_all<M: ContainsAddr, P: ProcessMemory>(
    alloc: Global,
    maps: &M,
    process: &mut P,
    layout: &Layout,
    pointers: &[u64],
    class: u64,
    addresses: &[u64],
    search: &mut HeapSearch,
) -> Result<(), StackError>
    requires sound { IsSound layout.now }
    ensures { ReadingBy
        (λ m. looks_reads (M.contains maps.now) layout.now m pointers.now class (search_of search.old) addresses.now)
        (P.seen process.old) (P.seen process.new)
        (λ m. Looks
        (after_looks (M.contains maps.now) layout.now m pointers.now class (search_of search.old) addresses.now)
        search.new result) }
{
    for addr in addresses {
        look_within(alloc, maps, process, layout, pointers, class, *addr, search)?;
    }
    Ok(())
}

/// Looks at the words of a piece that are in memory. At most 2 reads for each, and those of `look_at_all`.
fn look_in_piece<M: ContainsAddr, P: ProcessMemory>(
    alloc: Global,
    maps: &M,
    process: &mut P,
    layout: &Layout,
    pointers: &[u64],
    class: u64,
    piece: HeapPiece,
    search: &mut HeapSearch,
) -> Result<(), StackError>
    requires sound { IsSound layout.now }
    requires piece { IsPiece piece }
    ensures { ReadingBy
        (λ m. piece_reads (M.contains maps.now) layout.now m pointers.now class (search_of search.old) piece)
        (P.seen process.old) (P.seen process.new)
        (λ m. Looks (after_looks (M.contains maps.now) layout.now m pointers.now class (search_of search.old)
        (piece_there m piece)) search.new result) }
{
    let words = piece_words(alloc, process, piece.at, piece.count)?;
    look_at_all(
        alloc, maps, process, layout, pointers, class, &words, search,
    )
}

/// Looks at the words of some pieces, in order.
fn look_in_pieces<M: ContainsAddr, P: ProcessMemory>(
    alloc: Global,
    maps: &M,
    process: &mut P,
    layout: &Layout,
    pointers: &[u64],
    class: u64,
    pieces: &[HeapPiece],
    search: &mut HeapSearch,
) -> Result<(), StackError>
    requires sound { IsSound layout.now }
    requires pieces { All IsPiece pieces.now }
    ensures { ReadingBy
        (λ m. pieces_reads (M.contains maps.now) layout.now m pointers.now class (search_of search.old) pieces.now)
        (P.seen process.old) (P.seen process.new)
        (λ m. Looks (after_looks (M.contains maps.now) layout.now m pointers.now class (search_of search.old)
        (pieces_there m pieces.now)) search.new result) }
{
    for piece in pieces {
        let members = search.members;
        if members >= MEMBERS {
            return Ok(());
        }
        look_in_piece(
            alloc, maps, process, layout, pointers, class, *piece, search,
        )?;
    }
    Ok(())
}

/// Looks for interpreters among the words of a process's memory that is of no file and that it may write, of which the
/// core has these load segments: the first 16,777,216 of its words, in their order (`heap_pieces`).
///
/// An address is taken where a map holds it and its first thread, each names the other, the chain of its threads is
/// whole, and one of these is known as the process's own: its id is one of these thread pointers, of status records,
/// and the code of its newest frame is of this class. Each is taken once, and 16 at most; `finds.more` says whether
/// there is another. Each is marked as found by search. No word is looked at behind 4,194,304 members of chains of
/// threads that were walked.
///
/// The one error is out of memory. At most 6 reads for each word, and 6 for each member that is walked.
pub fn search_heap<M: ContainsAddr, P: ProcessMemory>(
    alloc: Global,
    maps: &M,
    process: &mut P,
    layout: &Layout,
    segments: &[CoreMapRange],
    pointers: &[u64],
    class: u64,
) -> Result<HeapSearch, StackError>
    requires sound { IsSound layout.now }
    ensures answer { ReadingBy
        (λ m. search_reads (M.contains maps.now) layout.now m pointers.now class segments.now) (P.seen process.old)
        (P.seen process.new) (λ m. IsOrNoMemory
        (search_at (M.contains maps.now) layout.now m pointers.now class segments.now) (search_result result)) }
    ensures right { ReadingBy
        (λ m. search_reads (M.contains maps.now) layout.now m pointers.now class segments.now) (P.seen process.old)
        (P.seen process.new) (λ m. IfOk result
        (λ search. AreOfProcess (M.contains maps.now) layout.now m pointers.now class (finds_of search.finds))) }
{
    let pieces = heap_pieces(alloc, segments)?;
    let mut search = HeapSearch {
        finds: FoundInterpreters {
            found: Vec::new(alloc),
            more: false,
        },
        addresses: 0,
        members: 0,
    };
    look_in_pieces(
        alloc,
        maps,
        process,
        layout,
        pointers,
        class,
        &pieces,
        &mut search,
    )?;
    Ok(search)
}

/// What a search looked at.
pub(crate) fn looked_by(segments: &[CoreMapRange], search: &HeapSearch) -> Looked
    ensures { result ≡ looked_by segments.now (search_of search.now) }
{
    Looked {
        addresses: search.addresses,
        members: search.members,
        ended: search.members >= MEMBERS || is_cut(segments),
    }
}
