//! The stacks of all threads.
ghost use Rattle.std.specs.Prelude.{◌≡◌, ◌++◌, OnOk, map, option_copied, string_bytes};
ghost use Rattle.native_stacks.specs.Stacks.{stacks_shown};
ghost use Rattle.native_stacks.specs.Threads.{thread_shown};
ghost use Rattle.stack_texts.specs.Stacks.{first_pair, one_text, other_pairs, stacks_text, thread_text, threads_text};

use crate::fronts::front_at;
use crate::items::push_stack;
use elf64_core::Name;
use native_stacks::{NativeStacks, NativeThread, push_thread, push_thread_head};
use paired_stacks::PairedStack;
use py_fronts::SalvagedInterpreter;
use std::alloc::{AllocError, Global};

/// The lines of a thread of Python's: whose it is, and one stack of both.
fn push_one(
    alloc: Global,
    text: &mut String,
    files: &[Name],
    limit: usize,
    interpreters: &[SalvagedInterpreter],
    thread: &NativeThread,
    pair: &PairedStack,
) -> Result<(), AllocError>
    ensures { OnOk result (string_bytes text.new ≡ string_bytes text.old
        ++ one_text files.now limit interpreters.now (thread_shown thread.now) pair.now) }
{
    let frames = front_at(interpreters, pair.thread);
    push_thread_head(text, thread)?;
    push_stack(alloc, text, files, limit, thread, frames, &pair.items)
}

/// The lines of a thread: one stack of both where it is told, else its native stack.
fn push_thread_of(
    alloc: Global,
    text: &mut String,
    files: &[Name],
    limit: usize,
    interpreters: &[SalvagedInterpreter],
    thread: &NativeThread,
    pair: Option<&PairedStack>,
) -> Result<(), AllocError>
    ensures { OnOk result (string_bytes text.new ≡ string_bytes text.old
        ++ thread_text files.now limit interpreters.now (thread_shown thread.now) (option_copied pair.entry)) }
{
    match pair {
        Some(pair) => push_one(alloc, text, files, limit, interpreters, thread, pair),
        None => push_thread(alloc, text, files, limit, thread),
    }
}

/// What is told of the next thread, and of those behind it.
fn next_pair(pairs: &[Option<PairedStack>]) -> (Option<&PairedStack>, &[Option<PairedStack>])
    ensures pair { option_copied result.0 ≡ first_pair pairs.now }
    ensures rest { result.1.now ≡ other_pairs pairs.now }
{
    match pairs.split_first() {
        Some((pair, rest)) => (pair.as_ref(), rest),
        None => (None, pairs),
    }
}

/// The lines of threads, in order.
fn push_threads(
    alloc: Global,
    text: &mut String,
    files: &[Name],
    limit: usize,
    interpreters: &[SalvagedInterpreter],
    threads: &[NativeThread],
    pairs: &[Option<PairedStack>],
) -> Result<(), AllocError>
    ensures { OnOk result (string_bytes text.new ≡ string_bytes text.old
        ++ threads_text files.now limit interpreters.now (map thread_shown threads.now) pairs.now) }
{
    let mut left = pairs;
    for thread in threads {
        let (pair, rest) = next_pair(left);
        push_thread_of(alloc, text, files, limit, interpreters, thread, pair)?;
        left = rest;
    }
    Ok(())
}

/// Appends the lines of the stacks of threads, in order: for each whose it is, and then where `pairs` tells of it one
/// stack of its Python frames and its native ones (`paired_stacks::pair_stacks`), the newest first, and how its native
/// frames end; else its native stack alone (`native_stacks::push_thread`). Each frame has one line, and those of native
/// ones end in ` [C]`. Of each stack the first and the last `limit` lines are shown. Python's frames are those of
/// `interpreters`, by the address of the thread's record, without their locals.
///
/// The one error is out of memory.
pub fn push_stacks(
    alloc: Global,
    text: &mut String,
    limit: usize,
    interpreters: &[SalvagedInterpreter],
    natives: &NativeStacks,
    pairs: &[Option<PairedStack>],
) -> Result<(), AllocError>
    ensures { OnOk result (string_bytes text.new ≡ string_bytes text.old
        ++ stacks_text limit interpreters.now (stacks_shown natives.now) pairs.now) }
{
    push_threads(
        alloc,
        text,
        &natives.files,
        limit,
        interpreters,
        &natives.threads,
        pairs,
    )
}
