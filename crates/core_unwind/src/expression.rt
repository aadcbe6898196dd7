//! What an expression comes to.
ghost use Rattle.std.specs.Prelude.{◌≡◌, IfOk, []};
ghost use Rattle.process_memory.specs.Seen.{Reading};
ghost use Rattle.frame_expressions.specs.Meanings.{based, meaning_of, pushed};
ghost use Rattle.core_unwind.specs.Expressions.{popped, stack_of, top, words_of};
ghost use Rattle.core_unwind.specs.Expressions.{arranged, begun, evaluated, first_word, load_in, loaded};
ghost use Rattle.core_unwind.specs.Registers.{register_in};

use crate::end::UnwindError;
use crate::kept::register_in;
use crate::read::read_word;
use crate::words::Words;
use frame_expressions::{Operation, operation_in};
use process_memory::ProcessMemory;

/// How many words a stack has at most.
const DEEPEST: usize = 64;

/// How many bytes an expression has at most.
const LONGEST: usize = 256;

impl Words {
    /// A stack of no words.
    fn new() -> Words
        ensures { stack_of result ≡ [] }
    {
        Words {
            words: [0; DEEPEST],
            depth: 0,
        }
    }

    /// The stack with one more word, where there is room.
    fn pushed(self, word: u64) -> Option<Words>
        ensures { words_of result ≡ pushed word (stack_of self) }
    {
        if self.depth >= DEEPEST {
            return None;
        }
        let mut words = self.words;
        words[self.depth] = word;
        Some(Words {
            words,
            depth: self.depth + 1,
        })
    }

    /// The word on top, and the stack below it.
    fn popped(self) -> Option<(u64, Words)>
        ensures { popped result ≡ first_word (stack_of self) }
    {
        if self.depth == 0 {
            return None;
        }
        let depth = self.depth - 1;
        Some((
            self.words[depth],
            Words {
                words: self.words,
                depth,
            },
        ))
    }
}

/// The stack with what a register has and so much more on top, where it is known.
fn based(stack: Words, value: Option<u64>, offset: u64) -> Option<Words>
    ensures { words_of result ≡ based value offset (stack_of stack) }
{
    match value {
        Some(word) => stack.pushed(word.wrapping_add(offset)),
        None => None,
    }
}

/// The stack with the two words on top in each other's place.
fn swapped(stack: Words) -> Option<Words>
    ensures { words_of result ≡ arranged Operation.Swap (stack_of stack) }
{
    if stack.depth < 2 {
        return None;
    }
    let (first, second) = (stack.depth - 1, stack.depth - 2);
    let mut words = stack.words;
    words[first] = stack.words[second];
    words[second] = stack.words[first];
    Some(Words {
        words,
        depth: stack.depth,
    })
}

/// The stack behind an operation that asks for no register and no memory; none where it asks for one.
fn arranged(stack: Words, operation: Operation) -> Option<Words>
    ensures { words_of result ≡ arranged operation (stack_of stack) }
{
    match operation {
        Operation::Push(word) => stack.pushed(word),
        Operation::Register { .. } => None,
        Operation::Combine(combination) => {
            let (top, rest) = stack.popped()?;
            let (below, rest) = rest.popped()?;
            rest.pushed(combination.of(below, top))
        }
        Operation::PlusConstant(more) => {
            let (top, rest) = stack.popped()?;
            rest.pushed(top.wrapping_add(more))
        }
        Operation::Load(_) => None,
        Operation::Drop => {
            let (_top, rest) = stack.popped()?;
            Some(rest)
        }
        Operation::Duplicate => {
            let (top, _rest) = stack.popped()?;
            stack.pushed(top)
        }
        Operation::Over => {
            let (_top, rest) = stack.popped()?;
            let (below, _rest) = rest.popped()?;
            stack.pushed(below)
        }
        Operation::Swap => swapped(stack),
        Operation::Nop => Some(stack),
    }
}

/// The stack with the word at the address on top in place of it, where it is in memory. At most one read.
fn load<P: ProcessMemory>(
    process: &mut P,
    stack: Words,
    size: u64,
) -> Result<Option<Words>, UnwindError>
    ensures { Reading 1 (P.seen process.old) (P.seen process.new)
        (λ m. IfOk result (λ after. words_of after ≡ load_in m size (stack_of stack))) }
{
    let Some((address, rest)) = stack.popped() else {
        return Ok(None);
    };
    if size != 8 {
        return Ok(None);
    }
    match read_word(process, address)? {
        Some(word) => Ok(rest.pushed(word)),
        None => Ok(None),
    }
}

/// The stack behind an operation. At most one read.
fn stack_behind<P: ProcessMemory>(
    process: &mut P,
    registers: &[Option<u64>; 32],
    stack: Words,
    operation: Operation,
) -> Result<Option<Words>, UnwindError>
    ensures { Reading 1 (P.seen process.old) (P.seen process.new)
        (λ m. IfOk result (λ after. words_of after
        ≡ meaning_of (register_in registers.now) (loaded m) operation (stack_of stack))) }
{
    match operation {
        Operation::Register { register, offset } => {
            Ok(based(stack, register_in(registers, register), offset))
        }
        Operation::Load(size) => load(process, stack, size),
        Operation::Push(_) => Ok(arranged(stack, operation)),
        Operation::Combine(_) => Ok(arranged(stack, operation)),
        Operation::PlusConstant(_) => Ok(arranged(stack, operation)),
        Operation::Drop => Ok(arranged(stack, operation)),
        Operation::Duplicate => Ok(arranged(stack, operation)),
        Operation::Over => Ok(arranged(stack, operation)),
        Operation::Swap => Ok(arranged(stack, operation)),
        Operation::Nop => Ok(arranged(stack, operation)),
    }
}

/// The stack that an expression begins with: the CFA, or nothing.
fn begun(first: Option<u64>) -> Words
    ensures { stack_of result ≡ begun first }
{
    let empty = Words::new();
    match first {
        Some(word) => match empty.pushed(word) {
            Some(stack) => stack,
            None => empty,
        },
        None => empty,
    }
}

/// The word on top of a stack.
fn top(stack: Words) -> Option<u64>
    ensures { result ≡ top (stack_of stack) }
{
    match stack.popped() {
        Some((top, _rest)) => Some(top),
        None => None,
    }
}

/// What an expression of at most 256 bytes comes to; none where an operation can't be followed, or what it asks for is
/// not known. At most one read for each operation.
pub(crate) fn evaluate<P: ProcessMemory>(
    process: &mut P,
    registers: &[Option<u64>; 32],
    first: Option<u64>,
    bytes: &[u8],
) -> Result<Option<u64>, UnwindError>
    ensures { Reading 256 (P.seen process.old) (P.seen process.new)
        (λ m. IfOk result (λ value. value ≡ evaluated registers.now m first bytes.now)) }
{
    let mut stack = begun(first);
    let mut rest = bytes;
    'operations: for done in 0..LONGEST {
        if rest.is_empty() {
            let value = top(stack);
            return Ok(value);
        }
        let read = match operation_in(rest) {
            Ok(read) => read,
            Err(_flaw) => return Ok(None),
        };
        let behind = stack_behind(process, registers, stack, read.operation)?;
        match behind {
            Some(after) => {
                stack = after;
                rest = &rest[read.size..];
            }
            None => return Ok(None),
        }
    }
    if !rest.is_empty() {
        return Ok(None);
    }
    let last = top(stack);
    Ok(last)
}
