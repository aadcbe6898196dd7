//! The stack of one thread.
ghost use Rattle.std.specs.Prelude.{◌≡◌, ◌-◌, IfOk, Option, length};
ghost use Rattle.process_memory.specs.Seen.{Reading};
ghost use Rattle.core_unwind.specs.Stacks.{AllAscend, chain_of};
ghost use Rattle.native_frames.specs.Kept.{AreKept};
ghost use Rattle.native_frames.specs.Limits.{stack_most, thread_most};
ghost use Rattle.native_frames.specs.Threads.{IsGuessUnless, IsGuessedStack, IsNamedStack, IsThreadStack, StackPair};
ghost use Rattle.native_frames.specs.Threads.{StackShown};
ghost use Rattle.native_frames.specs.Threads.{missing_at, pair_of, stack_shown, stack_shown_if};

use crate::limits::limit_of;
use crate::naming::{Kept, named_frames};
use crate::stacks::ThreadStack;
use core_unwind::{
    CodeMap, End, Guess, Manner, Mark, NativeStack, State, UnwindError, read_guess, read_stack,
};
use frame_rows::Machine;
use process_memory::ProcessMemory;
use std::alloc::{AllocError, Global};

/// A stack as it was followed, and as it is told.
#[derive(Drop)]
pub(crate) struct Followed {
    pub(crate) chain: NativeStack,
    pub(crate) told: ThreadStack,
}

/// A thread's stack, and what follows that by a guess.
#[derive(Drop)]
pub struct StackParts {
    pub stack: ThreadStack,
    pub guessed: Option<ThreadStack>,
}

/// The number of the file that is mapped where a stack ends, as that is not at hand.
fn missing_at(mappings: &CodeMap<'_>, end: End) -> Option<usize>
    ensures { result ≡ missing_at mappings.now end }
{
    match end {
        End::NoFile { at } => match mappings.mapping_at(at) {
            Some(mapping) => Some(mapping.file),
            None => None,
        },
        End::Whole => None,
        End::NoTable { .. } => None,
        End::Unreadable { .. } => None,
        End::Refused(_) => None,
        End::NotAbove => None,
        End::Cut(_) => None,
    }
}

/// The stack from a state on, of at most `limit` frames.
fn stack_from<P: ProcessMemory>(
    alloc: Global,
    process: &mut P,
    mappings: &CodeMap<'_>,
    manner: &Manner,
    left: usize,
    first: &State,
) -> Result<NativeStack, AllocError>
    ensures { Reading stack_most (P.seen process.old) (P.seen process.new) (λ m. IfOk result (λ stack.
        IsThreadStack mappings.now manner.now m left first.now (chain_of stack))) }
{
    match read_stack(alloc, process, mappings, manner, limit_of(left), first) {
        Ok(stack) => Ok(stack),
        Err(UnwindError::OutOfMemory) => Err(AllocError),
    }
}

/// The same, with the functions of its frames.
fn named_stack<'a, P: ProcessMemory>(
    alloc: Global,
    process: &mut P,
    mappings: &CodeMap<'a>,
    kept: &mut Kept<'a>,
    manner: &Manner,
    left: usize,
    guess: Option<Mark>,
    first: &State,
) -> Result<Followed, AllocError>
    requires kept { AreKept mappings.now kept.old }
    ensures is { Reading stack_most (P.seen process.old) (P.seen process.new) (λ m. IfOk result (λ followed.
        IsNamedStack mappings.now manner.now m left guess first.now (chain_of followed.chain)
        (stack_shown followed.told))) }
    ensures kept { AreKept mappings.now kept.new }
{
    let chain = stack_from(alloc, process, mappings, manner, left, first)?;
    let frames = named_frames(alloc, mappings, kept, &chain.frames)?;
    let missing = missing_at(mappings, chain.end);
    let told = ThreadStack {
        frames,
        end: chain.end,
        missing,
        guess,
    };
    Ok(Followed { chain, told })
}

/// Who may have called where a stack ends, where a guess is wanted. At most two reads.
fn guess_unless<P: ProcessMemory>(
    process: &mut P,
    mappings: &CodeMap<'_>,
    machine: Machine,
    strict: bool,
    chain: &NativeStack,
) -> Result<Option<Guess>, AllocError>
    ensures { Reading 2 (P.seen process.old) (P.seen process.new) (λ m. IfOk result
        (IsGuessUnless strict mappings.now machine m (chain_of chain.now))) }
{
    if strict {
        return Ok(None);
    }
    match read_guess(process, mappings, machine, chain) {
        Ok(guess) => Ok(guess),
        Err(UnwindError::OutOfMemory) => Err(AllocError),
    }
}

/// The stack behind a guess, if there is one.
fn guessed_stack<'a, P: ProcessMemory>(
    alloc: Global,
    process: &mut P,
    mappings: &CodeMap<'a>,
    kept: &mut Kept<'a>,
    machine: Machine,
    code_bits: u64,
    left: usize,
    guess: Option<Guess>,
) -> Result<Option<ThreadStack>, AllocError>
    requires kept { AreKept mappings.now kept.old }
    ensures is { Reading stack_most (P.seen process.old) (P.seen process.new) (λ m. IfOk result (λ stack.
        IsGuessedStack mappings.now machine code_bits m left guess (stack_shown_if stack))) }
    ensures kept { AreKept mappings.now kept.new }
{
    match guess {
        Some(guess) => {
            let manner = Manner {
                machine,
                code_bits,
                guesses: true,
            };
            let mark = Some(guess.mark);
            let followed = named_stack(
                alloc,
                process,
                mappings,
                kept,
                &manner,
                left,
                mark,
                &guess.caller,
            )?;
            Ok(Some(followed.told))
        }
        None => Ok(None),
    }
}

/// How many frames are left to the process behind a stack.
fn left_after(left: usize, chain: &NativeStack) -> usize
    ensures { result ≡ left - length chain.now.frames.items }
{
    left.saturating_sub(chain.frames.len())
}

/// See `stack_parts`.
fn read_parts<'a, P: ProcessMemory>(
    alloc: Global,
    process: &mut P,
    mappings: &CodeMap<'a>,
    kept: &mut Kept<'a>,
    machine: Machine,
    code_bits: u64,
    strict: bool,
    left: usize,
    first: &State,
) -> Result<StackParts, AllocError>
    requires kept { AreKept mappings.now kept.old }
    ensures is { Reading thread_most (P.seen process.old) (P.seen process.new) (λ m. IfOk result (λ parts.
        StackPair mappings.now machine code_bits m strict left first.now (pair_of parts))) }
    ensures kept { AreKept mappings.now kept.new }
{
    let manner = Manner {
        machine,
        code_bits,
        guesses: false,
    };
    let followed = named_stack(alloc, process, mappings, kept, &manner, left, None, first)?;
    let chain = followed.chain;
    let guess = guess_unless(process, mappings, machine, strict, &chain)?;
    let rest = left_after(left, &chain);
    let guessed = guessed_stack(
        alloc, process, mappings, kept, machine, code_bits, rest, guess,
    )?;
    Ok(StackParts {
        stack: followed.told,
        guessed,
    })
}

/// The stack of a thread that stands at a state, and what follows that by a guess, unless `strict`. `code_bits` are
/// those of an address in a signed return address. What is right is the answer, where the tables of the files ascend,
/// out of memory aside.
pub fn stack_parts<'a, P: ProcessMemory>(
    alloc: Global,
    process: &mut P,
    mappings: &CodeMap<'a>,
    kept: &mut Kept<'a>,
    machine: Machine,
    code_bits: u64,
    strict: bool,
    left: usize,
    first: &State,
) -> Result<StackParts, AllocError>
    requires kept { AreKept mappings.now kept.old }
    ensures is { Reading thread_most (P.seen process.old) (P.seen process.new) (λ m. IfOk result (λ parts.
        StackPair mappings.now machine code_bits m strict left first.now (pair_of parts))) }
    ensures only { AllAscend mappings.now → Reading thread_most (P.seen process.old) (P.seen process.new)
        (λ m. (other : StackShown × Option StackShown)
        → StackPair mappings.now machine code_bits m strict left first.now other
        → IfOk result (λ parts. pair_of parts ≡ other)) }
    ensures kept { AreKept mappings.now kept.new }
{
    read_parts(
        alloc, process, mappings, kept, machine, code_bits, strict, left, first,
    )
}
