//! The stack of a thread.
ghost use Rattle.std.specs.Prelude.{◌≡◌, ◌<◌, IfOk};
ghost use Rattle.process_memory.specs.Seen.{Reading};
ghost use Rattle.core_unwind.specs.Stacks.{AllAscend, Chain, IsStack, chain_of, stack_reads};
ghost use Rattle.core_unwind.specs.Marks.{AreUnmarked, IsStep};
ghost use Rattle.core_unwind.specs.Steps.{IsTableStep};

use crate::code_map::CodeMap;
use crate::end::{End, Limit, UnwindError};
use crate::frame::{Frame, Next};
use crate::mark::Manner;
use crate::marked::read_step;
use crate::state::State;
use frame_tables::Room;
use process_memory::ProcessMemory;
use std::alloc::Global;

/// The stack of a thread.
#[derive(Debug, Drop)]
pub struct NativeStack {
    /// The frames, each with its caller behind it.
    pub frames: Vec<Frame>,
    /// Where the last of them stands.
    pub last: State,
    /// How they end.
    pub end: End,
}

/// See `read_stack`.
fn follow<P: ProcessMemory>(
    alloc: Global,
    process: &mut P,
    mappings: &CodeMap<'_>,
    manner: &Manner,
    limit: usize,
    first: &State,
) -> Result<NativeStack, UnwindError>
    requires some { 0 < limit }
    ensures { Reading (stack_reads limit result) (P.seen process.old) (P.seen process.new)
        (λ m. IfOk result (λ stack. IsStack (IsStep mappings.now manner.now m) limit first.now (chain_of stack))) }
{
    let mut room = Room::new();
    let mut frames = Vec::new(alloc);
    let mut state = *first;
    'frames: loop {
        let turn = read_step(process, mappings, manner, &mut room, &state)?;
        frames.push(turn.frame)?;
        match turn.next {
            Next::Stops(end) => {
                return Ok(NativeStack {
                    frames,
                    last: state,
                    end,
                });
            }
            Next::Caller(caller) => {
                if frames.len() == limit {
                    let end = End::Cut(Limit::Frames);
                    return Ok(NativeStack {
                        frames,
                        last: state,
                        end,
                    });
                }
                state = caller;
            }
        }
    }
}

/// The whole stack of a thread from a state on, at most `limit` frames of it: each frame is one step of the one
/// before, and how the stack ends. There is one such stack alone, where the tables of the files ascend, and it is the
/// answer. Where no frame has a mark it is a stack by tables alone. The one error is out of memory. At most 8549 reads
/// for each frame.
pub fn read_stack<P: ProcessMemory>(
    alloc: Global,
    process: &mut P,
    mappings: &CodeMap<'_>,
    manner: &Manner,
    limit: usize,
    first: &State,
) -> Result<NativeStack, UnwindError>
    requires some { 0 < limit }
    ensures right { Reading (stack_reads limit result) (P.seen process.old) (P.seen process.new)
        (λ m. IfOk result (λ stack. IsStack (IsStep mappings.now manner.now m) limit first.now (chain_of stack))) }
    ensures only { AllAscend mappings.now → Reading (stack_reads limit result) (P.seen process.old)
        (P.seen process.new) (λ m. (other : Chain) → IsStack (IsStep mappings.now manner.now m) limit first.now other
        → IfOk result (λ stack. chain_of stack ≡ other)) }
    ensures tables { Reading (stack_reads limit result) (P.seen process.old) (P.seen process.new)
        (λ m. IfOk result (λ stack. AreUnmarked stack.frames.items
        → IsStack (IsTableStep mappings.now manner.now.code_bits m) limit first.now (chain_of stack))) }
{
    follow(alloc, process, mappings, manner, limit, first)
}
