//! What is left of a process, where nothing may lead to an interpreter.
ghost use Rattle.std.specs.Prelude.{◌≡◌, ◌≤◌};
ghost use Rattle.process_memory.specs.Memory.{byte_at};
ghost use Rattle.process_memory.specs.Seen.{Reading, ReadingBy};
ghost use Rattle.py_fields.specs.Sound.{IsSound};
ghost use Rattle.py_process.specs.Facts.{known_of};
ghost use Rattle.py_fronts.specs.Answers.{IsOrNoMemory};
ghost use Rattle.py_fronts.specs.Salvaged.{salvaged_result};
ghost use Rattle.heap_search.specs.Salvaged.{SalvagingOr, both_looked, code_class, salvaged_or_searched, shown_by};
ghost use Rattle.heap_search.specs.Salvaged.{shown_reads};
ghost use Rattle.heap_search.specs.Search.{search_of};

use crate::search::{HeapSearch, looked_by, search_heap};
use elf64_core::Machine;
use image_memory::{ContainsAddr, CoreMapRange};
use process_memory::ProcessMemory;
use py_fields::{Layout, Version};
use py_fronts::{
    Crash, Looked, Salvaged, named_candidates, read_interpreters, salvage, with_locks,
};
use py_process::PythonProcessInfo;
use py_stacks::{Asked, StackError};
use std::alloc::Global;

/// What two searches looked at together.
fn both_looked(one: Looked, two: Looked) -> Looked
    ensures { result ≡ both_looked one two }
{
    Looked {
        addresses: one.addresses.saturating_add(two.addresses),
        members: one.members.saturating_add(two.members),
        ended: one.ended || two.ended,
    }
}

/// The class of codes, by its symbol.
fn code_class<M: ContainsAddr>(info: &PythonProcessInfo<M>) -> Option<u64>
    ensures { result ≡ code_class (known_of info.now) }
{
    info.get_symbol(b"PyCode_Type").copied()
}

/// The interpreters that a search found, each with its threads and its lock.
fn show_found<M: ContainsAddr, P: ProcessMemory>(
    alloc: Global,
    info: &PythonProcessInfo<M>,
    process: &mut P,
    machine: Machine,
    version: &Version,
    layout: &Layout,
    asked: Asked,
    limit: usize,
    crash: Option<Crash>,
    segments: &[CoreMapRange],
    looked: Looked,
    search: &HeapSearch,
) -> Result<Salvaged, StackError>
    requires sound { IsSound layout.now }
    requires few { limit ≤ 4096 }
    ensures { ReadingBy (λ m. shown_reads layout.now m asked limit (search_of search.now)) (P.seen process.old)
        (P.seen process.new) (λ m. IsOrNoMemory
        (shown_by machine (known_of info.now) version.now layout.now m asked limit crash segments.now looked
        (search_of search.now)) (salvaged_result result)) }
{
    let fronts = read_interpreters(alloc, process, layout, asked, limit, &search.finds.found)?;
    let interpreters = with_locks(alloc, info, process, machine, version, layout, fronts)?;
    Ok(Salvaged {
        interpreters,
        more: search.finds.more,
        looked: both_looked(looked, looked_by(segments, search)),
        crash,
    })
}

/// What is left of a process's stacks, as `py_fronts::salvage` has it; and where no interpreter is shown, nothing names
/// one (`py_fronts::named_candidates`), and a symbol of the images names the class of codes (`PyCode_Type`), those that
/// are found in its heap, as `search_heap` has them: each is marked as found by search. A head that can be read and names
/// none says that Python doesn't run, as before its start and after its end.
///
/// `segments` are the load segments of the core, and `pointers` the thread pointers that its status records tell. What
/// was looked at is that of both searches together. The one error is out of memory. The reads are those of `salvage`,
/// and behind these those of `named_candidates`, of `search_heap`, of the threads of what it found, and 3 for each lock.
pub fn salvage_or_search<M: ContainsAddr, P: ProcessMemory>(
    alloc: Global,
    info: &PythonProcessInfo<M>,
    process: &mut P,
    machine: Machine,
    version: &Version,
    layout: &Layout,
    asked: Asked,
    limit: usize,
    crash: Option<Crash>,
    segments: &[CoreMapRange],
    pointers: &[u64],
) -> Result<Salvaged, StackError>
    requires sound { IsSound layout.now }
    requires few { limit ≤ 4096 }
    ensures answer { SalvagingOr (M.contains info.now.maps) (known_of info.now) version.now layout.now asked limit
        segments.now pointers.now (P.seen process.old) (P.seen process.new) (λ m. IsOrNoMemory
        (salvaged_or_searched (M.contains info.now.maps) machine (known_of info.now) version.now layout.now m asked
        limit crash segments.now pointers.now) (salvaged_result result)) }
{
    let first = salvage(
        alloc, info, process, machine, version, layout, asked, limit, crash,
    )?;
    if !first.interpreters.is_empty() {
        return Ok(first);
    }
    let Some(class) = code_class(info) else {
        return Ok(first);
    };
    let named = named_candidates(alloc, info, process, version, layout)?;
    if !named.is_empty() {
        return Ok(first);
    }
    let search = search_heap(
        alloc, &info.maps, process, layout, segments, pointers, class,
    )?;
    show_found(
        alloc,
        info,
        process,
        machine,
        version,
        layout,
        asked,
        limit,
        crash,
        segments,
        first.looked,
        &search,
    )
}
