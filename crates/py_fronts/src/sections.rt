//! The words of sections, of which some may be missing.
ghost use Rattle.std.specs.Prelude.{◌≡◌, ◌+◌, ◌*◌, ◌≤◌, ◌<◌, ◌^◌, ◌++◌, OnOk};
ghost use Rattle.process_memory.specs.Memory.{bytes_at};
ghost use Rattle.process_memory.specs.Seen.{Reading};
ghost use Rattle.py_process.specs.Candidates.{words_of};
ghost use Rattle.py_fronts.specs.Answers.{IsOrNoMemory};
ghost use Rattle.py_fronts.specs.Candidates.{AddsWords, word_or_none, words_result, words_there};

use crate::candidates::add_words;
use process_memory::{ProcessMemory, ReadFault, record_wide, word_wide};
use py_stacks::StackError;
use std::alloc::Global;

/// Adds the word at an address, where it is in memory. At most one read.
fn add_word<P: ProcessMemory>(
    process: &mut P,
    words: &mut Vec<u64>,
    at: u128,
) -> Result<(), StackError>
    ensures { Reading 1 (P.seen process.old) (P.seen process.new)
        (λ m. AddsWords words.old.items (word_or_none (bytes_at m at 8)) words.new.items result) }
{
    let word = match word_wide(process, at) {
        Ok(word) => word,
        Err(ReadFault::Unreadable { .. }) => return Ok(()),
        Err(ReadFault::OutOfMemory) => return Err(StackError::OutOfMemory),
    };
    words.push(word)?;
    Ok(())
}

/// Adds those of so many words at an address that are in memory, one by one. At most one read for each.
fn add_there<P: ProcessMemory>(
    process: &mut P,
    words: &mut Vec<u64>,
    at: u128,
    count: u64,
) -> Result<(), StackError>
    requires few { count ≤ 512 }
    requires near { at < 2 ^ 65 }
    ensures { Reading count (P.seen process.old) (P.seen process.new)
        (λ m. AddsWords words.old.items (words_there m at count) words.new.items result) }
{
    let mut done: u64 = 0;
    while done < count {
        add_word(process, words, at + 8 * done as u128)?;
        done += 1;
    }
    Ok(())
}

/// Those of `count` words of 8 bytes, at most 512, from an address on that are in memory, in order. The one error is
/// out of memory. At most one read, where all of them are there, and else one more for each.
pub fn piece_words<P: ProcessMemory>(
    alloc: Global,
    process: &mut P,
    at: u128,
    count: u64,
) -> Result<Vec<u64>, StackError>
    requires few { count ≤ 512 }
    requires near { at < 2 ^ 65 }
    ensures { Reading (1 + count) (P.seen process.old) (P.seen process.new)
        (λ m. IsOrNoMemory (words_there m at count) (words_result result)) }
{
    let mut words = Vec::new(alloc);
    let bytes = match record_wide(alloc, process, at, 8 * count) {
        Ok(bytes) => bytes,
        Err(ReadFault::Unreadable { .. }) => {
            add_there(process, &mut words, at, count)?;
            return Ok(words);
        }
        Err(ReadFault::OutOfMemory) => return Err(StackError::OutOfMemory),
    };
    add_words(&mut words, &bytes)?;
    Ok(words)
}
