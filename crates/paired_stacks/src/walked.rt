//! What is needed of the threads of Python that are shown.
ghost use Rattle.std.specs.Prelude.{◌≡◌, IfOk, map};
ghost use Rattle.paired_stacks.specs.Walked.{walked_of, walked_threads};

use py_fronts::{SalvagedInterpreter, ThreadFront};
use std::alloc::{AllocError, Global};

/// A thread of Python, as far as its frames were walked.
#[derive(Clone, Copy)]
pub(crate) struct Walked {
    /// The address of its record.
    pub(crate) address: u64,
    /// How many members of its chain were met.
    pub(crate) met: u64,
    /// How many of its frames are shown first, how many are between, and how many are shown last.
    pub(crate) frames: [usize; 3],
}

fn walked_of(thread: &ThreadFront) -> Walked
    ensures { result ≡ walked_of thread.now }
{
    let frames = &thread.frames;
    Walked {
        address: thread.address,
        met: frames.met,
        frames: [
            frames.first.len(),
            frames.between as usize,
            frames.last.len(),
        ],
    }
}

/// The threads of a chain.
fn chain_walked(alloc: Global, threads: &[ThreadFront]) -> Result<Vec<Walked>, AllocError>
    ensures { IfOk result (λ walked. walked.items ≡ map walked_of threads.now) }
{
    let mut walked = Vec::new(alloc);
    for thread in threads {
        walked.push(walked_of(thread))?;
    }
    Ok(walked)
}

/// The threads of all interpreters, in the order of the interpreters and of their chains.
pub(crate) fn walked_threads(
    alloc: Global,
    interpreters: &[SalvagedInterpreter],
) -> Result<Vec<Walked>, AllocError>
    ensures { IfOk result (λ walked. walked.items ≡ walked_threads interpreters.now) }
{
    let mut walked = Vec::new(alloc);
    for interpreter in interpreters {
        let own = chain_walked(alloc, &interpreter.front.threads.threads)?;
        walked.extend_from_slice(&own)?;
    }
    Ok(walked)
}
