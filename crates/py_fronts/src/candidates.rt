//! The addresses that may be an interpreter's.
ghost use Rattle.std.specs.Prelude.{◌≡◌, ◌≤◌, ◌∷◌, ◌++◌, ◌+◌, ◌*◌, ◌^◌, Err, IfOk, MatchOption, None, Ok, OnOk};
ghost use Rattle.std.specs.Prelude.{length, option_map};
ghost use Rattle.process_memory.specs.Memory.{byte_at, word_at};
ghost use Rattle.process_memory.specs.Seen.{IsRange, Reading, ReadingBy, ReadingOf};
ghost use Rattle.py_fields.specs.Sound.{IsSound};
ghost use Rattle.py_stacks.specs.StackError.{stack_fault};
ghost use Rattle.py_process.specs.Candidates.{ListIs, section_words, words_of};
ghost use Rattle.py_process.specs.Facts.{facts_of, known_of};
ghost use Rattle.py_fronts.specs.Answers.{IsOrNoMemory};
ghost use Rattle.py_fronts.specs.Candidates.{AddsWords, behind_idle, found_or_none, head_given};
ghost use Rattle.py_fronts.specs.Candidates.{head_in_sections, led_to, named_candidates, next_by, other_than};
ghost use Rattle.py_fronts.specs.Candidates.{others_led_to, record_candidates, record_most, record_words_reads};
ghost use Rattle.py_fronts.specs.Candidates.{record_words, runtime_in};
ghost use Rattle.py_fronts.specs.Candidates.{words_result};

use elf64_core::u64_in;
use image_memory::ContainsAddr;
use process_memory::{ProcessMemory, ReadFault, word_past};
use py_fields::{Layout, Version};
use py_process::{BinaryInfo, PythonProcessInfo, SearchError, read_head, read_head_from};
use py_stacks::{StackError, get_first_thread};
use std::alloc::{AllocFailed, Global};

/// How many words of an interpreter's record are looked at, at most.
const RECORD_WORDS_LIMIT: u32 = 1024;

/// How many interpreters without a thread are passed by in a row at most.
const IDLE_LIMIT: u32 = 64;

/// Adds the words of some bytes; a tail of fewer than 8 is dropped.
pub(crate) fn add_words(words: &mut Vec<u64>, bytes: &[u8]) -> Result<(), AllocFailed<u64>>
    ensures { OnOk result (words.new.items ≡ words.old.items ++ words_of bytes.now) }
{
    for word in bytes.chunks_exact(8) {
        words.push(u64_in(word, 0))?;
    }
    Ok(())
}

/// Adds the words of a section; none where it is not wholly in memory. One read.
fn add_section<P: ProcessMemory>(
    alloc: Global,
    process: &mut P,
    words: &mut Vec<u64>,
    addr: u64,
    size: u64,
) -> Result<(), StackError>
    ensures { ReadingOf (IsRange addr size) 1 (P.seen process.old) (P.seen process.new)
        (λ m. AddsWords words.old.items (section_words m addr size) words.new.items result) }
{
    let bytes = match process.copy(alloc, addr, size) {
        Ok(bytes) => bytes,
        Err(ReadFault::Unreadable { .. }) => return Ok(()),
        Err(ReadFault::OutOfMemory) => return Err(StackError::OutOfMemory),
    };
    add_words(words, &bytes)?;
    Ok(())
}

/// Nothing, where a word of an interpreter can't be read; out of memory is handed on.
pub(crate) fn nothing_read(error: StackError) -> Result<Option<u64>, StackError>
    ensures { MatchOption (stack_fault error) (result ≡ Err StackError.OutOfMemory) (λ f. result ≡ Ok None) }
{
    match error {
        StackError::OutOfMemory => Err(StackError::OutOfMemory),
        _ => Ok(None),
    }
}

/// The address at one place of a record, in bytes, where it is in memory. At most one read.
fn word_in<P: ProcessMemory>(
    process: &mut P,
    addr: u64,
    place: u64,
) -> Result<Option<u64>, StackError>
    ensures { Reading 1 (P.seen process.old) (P.seen process.new)
        (λ m. IsOrNoMemory (found_or_none (word_at m (addr + place))) result) }
{
    match word_past(process, addr, place) {
        Ok(next) => Ok(Some(next)),
        Err(ReadFault::Unreadable { .. }) => Ok(None),
        Err(ReadFault::OutOfMemory) => Err(StackError::OutOfMemory),
    }
}

/// The address at one place of an interpreter's record, in bytes, where that one has no thread. At most 2 reads.
fn next_by<P: ProcessMemory>(
    process: &mut P,
    layout: &Layout,
    place: u64,
    addr: u64,
) -> Result<Option<u64>, StackError>
    ensures { Reading 2 (P.seen process.old) (P.seen process.new)
        (λ m. IsOrNoMemory (next_by layout.now m place addr) result) }
{
    let head = match get_first_thread(process, layout, addr) {
        Ok(head) => head,
        Err(error) => return nothing_read(error),
    };
    if head != 0 {
        return Ok(None);
    }
    word_in(process, addr, place)
}

/// Adds the addresses that follow one at the same place of each record, while those that they follow have no thread.
/// At most 2 reads for each, and 2 more.
fn add_behind_idle<P: ProcessMemory>(
    process: &mut P,
    words: &mut Vec<u64>,
    layout: &Layout,
    place: u64,
    first: u64,
) -> Result<(), StackError>
    ensures { ReadingBy (λ m. 2 + 2 * length (behind_idle layout.now m place 64 first)) (P.seen process.old)
        (P.seen process.new)
        (λ m. AddsWords words.old.items (behind_idle layout.now m place 64 first) words.new.items result) }
{
    let mut at = first;
    let mut passed = 0;
    while passed < IDLE_LIMIT {
        let next = match next_by(process, layout, place, at)? {
            Some(next) => next,
            None => return Ok(()),
        };
        words.push(next)?;
        passed += 1;
        at = next;
    }
    Ok(())
}

/// Adds each word of a record, and behind it those that follow by its place. At most 2 reads for each of all these.
fn add_led_to<P: ProcessMemory>(
    process: &mut P,
    candidates: &mut Vec<u64>,
    layout: &Layout,
    words: &[u64],
) -> Result<(), StackError>
    requires few { length words.now ≤ 1024 }
    ensures { ReadingBy (λ m. 2 * length (led_to layout.now m 0 words.now)) (P.seen process.old) (P.seen process.new)
        (λ m. AddsWords candidates.old.items (led_to layout.now m 0 words.now) candidates.new.items result) }
{
    let mut place = 0;
    for word in words {
        candidates.push(*word)?;
        add_behind_idle(process, candidates, layout, place, *word)?;
        place += 8;
    }
    Ok(())
}

/// The words of the record of an interpreter in front of the head of its threads. One read.
fn record_words<P: ProcessMemory>(
    alloc: Global,
    process: &mut P,
    layout: &Layout,
    interpreter: u64,
) -> Result<Vec<u64>, StackError>
    ensures answer { Reading 1 (P.seen process.old) (P.seen process.new)
        (λ m. IsOrNoMemory (record_words layout.now m interpreter) (words_result result)) }
    ensures few { IfOk result (λ words. length words.items ≤ 1024) }
{
    let count = (layout.interpreter.threads / 8).min(RECORD_WORDS_LIMIT);
    let mut words = Vec::new(alloc);
    add_section(
        alloc,
        process,
        &mut words,
        interpreter,
        8 * u64::from(count),
    )?;
    Ok(words)
}

/// Adds those that the record of an interpreter leads to. At most one read, and 2 for each of these.
fn add_record<P: ProcessMemory>(
    alloc: Global,
    process: &mut P,
    candidates: &mut Vec<u64>,
    layout: &Layout,
    interpreter: u64,
) -> Result<(), StackError>
    ensures { Reading (record_words_reads layout.now (byte_at (P.seen process.old).pieces) interpreter)
        (P.seen process.old) (P.seen process.new) (λ m.
        AddsWords candidates.old.items (record_candidates layout.now m interpreter) candidates.new.items result) }
{
    let words = record_words(alloc, process, layout, interpreter)?;
    add_led_to(process, candidates, layout, &words)
}

/// The head, and behind it the candidates that its record leads to. At most one read, and 2 for each of these.
fn head_candidates<P: ProcessMemory>(
    alloc: Global,
    process: &mut P,
    layout: &Layout,
    head: u64,
) -> Result<Vec<u64>, StackError>
    ensures { Reading (record_words_reads layout.now (byte_at (P.seen process.old).pieces) head)
        (P.seen process.old) (P.seen process.new)
        (λ m. IsOrNoMemory (head ∷ record_candidates layout.now m head) (words_result result)) }
{
    let mut words = vec![in alloc; head]?;
    add_record(alloc, process, &mut words, layout, head)?;
    Ok(words)
}

/// Where the runtime's record stands by the section of an image that has it alone.
fn runtime_in(binary: &Option<BinaryInfo>) -> Option<u64>
    ensures { result ≡ runtime_in (option_map facts_of binary.now) }
{
    let Some(binary) = binary else {
        return None;
    };
    if binary.pyruntime_addr == 0 {
        return None;
    }
    Some(binary.pyruntime_addr)
}

/// The head by the program's runtime section, or else by the library's. At most 4 reads.
fn read_in_sections<M: ContainsAddr, P: ProcessMemory>(
    alloc: Global,
    info: &PythonProcessInfo<M>,
    process: &mut P,
    version: &Version,
    layout: &Layout,
) -> Result<Option<u64>, SearchError>
    requires sound { IsSound layout.now }
    ensures { Reading 4 (P.seen process.old) (P.seen process.new)
        (λ m. ListIs (head_in_sections (known_of info.now) version.now layout.now m) result) }
{
    let program = runtime_in(&info.python_binary);
    let library = runtime_in(&info.libpython_binary);
    match read_head_from(alloc, process, version, layout, program)? {
        Some(head) => Ok(Some(head)),
        None => read_head_from(alloc, process, version, layout, library),
    }
}

/// The head that symbols give, or else the one by the runtime section. At most 6 reads.
fn read_given<M: ContainsAddr, P: ProcessMemory>(
    alloc: Global,
    info: &PythonProcessInfo<M>,
    process: &mut P,
    version: &Version,
    layout: &Layout,
) -> Result<Option<u64>, SearchError>
    requires sound { IsSound layout.now }
    ensures { Reading 6 (P.seen process.old) (P.seen process.new)
        (λ m. ListIs (head_given (known_of info.now) version.now layout.now m) result) }
{
    match read_head(alloc, info, process, version, layout)? {
        Some(head) => Ok(Some(head)),
        None => read_in_sections(alloc, info, process, version, layout),
    }
}

/// The candidates that are named, in order: the head that symbols give, as `py_process::read_head` says, or else the
/// runtime section of the program or of the library; and those that its record leads to, since the newest interpreter
/// may have no thread. The one error is out of memory. At most 7 reads, and 2 for each of these.
pub fn named_candidates<M: ContainsAddr, P: ProcessMemory>(
    alloc: Global,
    info: &PythonProcessInfo<M>,
    process: &mut P,
    version: &Version,
    layout: &Layout,
) -> Result<Vec<u64>, StackError>
    requires sound { IsSound layout.now }
    ensures { Reading (7 + 2 * length (named_candidates (known_of info.now) version.now layout.now
        (byte_at (P.seen process.old).pieces))) (P.seen process.old) (P.seen process.new) (λ m. IsOrNoMemory
        (named_candidates (known_of info.now) version.now layout.now m) (words_result result)) }
{
    match read_given(alloc, info, process, version, layout) {
        Ok(Some(head)) => head_candidates(alloc, process, layout, head),
        Ok(None) => Ok(Vec::new(alloc)),
        Err(_) => Err(StackError::OutOfMemory),
    }
}

/// Drops an address wherever it stands.
fn drop_address(words: &mut Vec<u64>, addr: u64)
    ensures { words.new.items ≡ other_than addr words.old.items }
{
    words.retain(|word| *word != addr);
}

/// The candidates that the record of an interpreter leads to, but for itself. At most one read, and 2 for each that it
/// leads to; these are at most 65 for each of its words in front of the head of its threads, of which 1024 are looked
/// at.
pub(crate) fn others_led_to<P: ProcessMemory>(
    alloc: Global,
    process: &mut P,
    layout: &Layout,
    interpreter: u64,
) -> Result<Vec<u64>, StackError>
    ensures answer { Reading
        (record_words_reads layout.now (byte_at (P.seen process.old).pieces) interpreter)
        (P.seen process.old) (P.seen process.new)
        (λ m. IsOrNoMemory (others_led_to layout.now m interpreter) (words_result result)) }
    ensures few { IfOk result (λ words. length words.items ≤ record_most layout.now) }
{
    let mut words = Vec::new(alloc);
    add_record(alloc, process, &mut words, layout, interpreter)?;
    drop_address(&mut words, interpreter);
    Ok(words)
}
