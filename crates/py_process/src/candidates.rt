//! The candidates of the interpreter's address, each tested as it is met.
ghost use Rattle.std.specs.Prelude.{◌≡◌, ◌<◌, ◌^◌, None, Ok, Err, MatchOption, option_map};
ghost use Rattle.process_memory.specs.Memory.{byte_at};
ghost use Rattle.process_memory.specs.Seen.{IsRange, IsShort, IsShortOr, Reading};
ghost use Rattle.py_fields.specs.Sound.{IsSound};
ghost use Rattle.py_stacks.specs.Interpreter.{threads_head};
ghost use Rattle.py_stacks.specs.StackError.{stack_fault};
ghost use Rattle.py_process.specs.Candidates.{ListIs, Seeking, SearchIs, candidate_cost, candidate_of, passes_in};
ghost use Rattle.py_process.specs.Candidates.{runtime_words, section_words, words_of, words_of_facts, words_of_image};
ghost use Rattle.py_process.specs.Facts.{facts_of};
ghost use Rattle.py_process.specs.Sections.{IsSectionIn, IsSectionOf};

use crate::{BinaryInfo, SearchError};
use elf64_core::u64_in;
use image_memory::ContainsAddr;
use process_memory::{ProcessMemory, ReadFault};
use py_fields::Layout;
use py_stacks::{StackError, get_first_thread, is_interpreter_from};
use std::alloc::Global;

/// What is known of a first thread that can't be read; out of memory is handed on.
fn no_thread(error: StackError) -> Result<Option<u64>, SearchError>
    ensures { MatchOption (stack_fault error) (result ≡ Err SearchError.OutOfMemory) (λ fault. result ≡ Ok None) }
{
    match error {
        StackError::OutOfMemory => Err(SearchError::OutOfMemory),
        _ => Ok(None),
    }
}

/// The first thread of a candidate, where the word that names it is in memory. At most one read.
fn first_thread<P: ProcessMemory>(
    process: &mut P,
    layout: &Layout,
    addr: u64,
) -> Result<Option<u64>, SearchError>
    ensures { Reading 1 (P.seen process.old) (P.seen process.new)
        (λ m. ListIs (candidate_of (threads_head layout.now m addr)) result) }
{
    match get_first_thread(process, layout, addr) {
        Ok(head) => Ok(Some(head)),
        Err(error) => no_thread(error),
    }
}

/// Whether a candidate is an interpreter. Nothing is read where no map holds it, and one word where its first
/// thread is not known or in no map.
pub(crate) fn is_interpreter_in<M: ContainsAddr, P: ProcessMemory>(
    alloc: Global,
    maps: &M,
    process: &mut P,
    layout: &Layout,
    addr: u64,
) -> Result<bool, SearchError>
    requires sound { IsSound layout.now }
    ensures { Reading (candidate_cost (M.contains maps.now) layout.now (byte_at (P.seen process.old).pieces) addr)
        (P.seen process.old) (P.seen process.new)
        (λ m. SearchIs (passes_in (M.contains maps.now) layout.now m addr) result) }
{
    if !maps.contains_addr(addr) {
        return Ok(false);
    }
    let Some(head) = first_thread(process, layout, addr)? else {
        return Ok(false);
    };
    if !maps.contains_addr(head) {
        return Ok(false);
    }
    match is_interpreter_from(alloc, process, layout, addr, head) {
        Ok(is) => Ok(is),
        Err(_) => Err(SearchError::OutOfMemory),
    }
}

/// The first word of some bytes that is an interpreter.
fn first_of_words<M: ContainsAddr, P: ProcessMemory>(
    alloc: Global,
    maps: &M,
    process: &mut P,
    layout: &Layout,
    bytes: &[u8],
) -> Result<Option<u64>, SearchError>
    requires sound { IsSound layout.now }
    ensures { Seeking IsShort (M.contains maps.now) layout.now 0 (λ m. words_of bytes.now)
        (P.seen process.old) (P.seen process.new) result }
{
    for word in bytes.chunks_exact(8) {
        let addr = u64_in(word, 0);
        if is_interpreter_in(alloc, maps, process, layout, addr)? {
            return Ok(Some(addr));
        }
    }
    Ok(None)
}

/// The first word of a section that is an interpreter. One read beside those of the candidates.
fn first_in_section<M: ContainsAddr, P: ProcessMemory>(
    alloc: Global,
    maps: &M,
    process: &mut P,
    layout: &Layout,
    addr: u64,
    size: u64,
) -> Result<Option<u64>, SearchError>
    requires sound { IsSound layout.now }
    ensures { Seeking (IsShortOr (IsRange addr size)) (M.contains maps.now) layout.now 1
        (λ m. section_words m addr size) (P.seen process.old) (P.seen process.new) result }
{
    let bytes = match process.copy(alloc, addr, size) {
        Ok(bytes) => bytes,
        Err(ReadFault::Unreadable { .. }) => return Ok(None),
        Err(ReadFault::OutOfMemory) => return Err(SearchError::OutOfMemory),
    };
    first_of_words(alloc, maps, process, layout, &bytes)
}

/// The first word of a runtime section that is an interpreter, where there is one. At most one read beside those
/// of the candidates.
fn first_in_runtime<M: ContainsAddr, P: ProcessMemory>(
    alloc: Global,
    maps: &M,
    process: &mut P,
    layout: &Layout,
    addr: u64,
    size: u64,
) -> Result<Option<u64>, SearchError>
    requires sound { IsSound layout.now }
    ensures { Seeking (IsShortOr (IsRange addr size)) (M.contains maps.now) layout.now 1
        (λ m. runtime_words m addr size) (P.seen process.old) (P.seen process.new) result }
{
    if addr == 0 {
        return Ok(None);
    }
    first_in_section(alloc, maps, process, layout, addr, size)
}

/// The first word of an image's sections that is an interpreter. At most 2 reads beside those of the candidates.
fn first_in_binary<M: ContainsAddr, P: ProcessMemory>(
    alloc: Global,
    maps: &M,
    process: &mut P,
    layout: &Layout,
    binary: &BinaryInfo,
) -> Result<Option<u64>, SearchError>
    requires sound { IsSound layout.now }
    ensures { Seeking (IsShortOr (IsSectionOf (facts_of binary.now))) (M.contains maps.now) layout.now 2
        (λ m. words_of_facts m (facts_of binary.now)) (P.seen process.old) (P.seen process.new) result }
{
    let (addr, size) = (binary.pyruntime_addr, binary.pyruntime_size);
    if let Some(found) = first_in_runtime(alloc, maps, process, layout, addr, size)? {
        return Ok(Some(found));
    }
    first_in_section(
        alloc,
        maps,
        process,
        layout,
        binary.bss_addr,
        binary.bss_size,
    )
}

/// The same, where the image is there.
pub(crate) fn first_in_image<M: ContainsAddr, P: ProcessMemory>(
    alloc: Global,
    maps: &M,
    process: &mut P,
    layout: &Layout,
    binary: &Option<BinaryInfo>,
) -> Result<Option<u64>, SearchError>
    requires sound { IsSound layout.now }
    ensures { Seeking (IsShortOr (IsSectionIn (option_map facts_of binary.now))) (M.contains maps.now) layout.now 2
        (λ m. words_of_image m (option_map facts_of binary.now)) (P.seen process.old) (P.seen process.new) result }
{
    match binary {
        Some(binary) => first_in_binary(alloc, maps, process, layout, binary),
        None => Ok(None),
    }
}
