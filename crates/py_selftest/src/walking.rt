//! The threads and frames that a layout leads to, with what is known of each.
ghost use Rattle.std.specs.Prelude.{◌≡◌, ◌≤◌, ◌*◌, IfErr, IfOk, length};
ghost use Rattle.process_memory.specs.Seen.{Reads, read_fault};
ghost use Rattle.process_memory.specs.declared.memory.ReadFault.TheVariants.{OutOfMemory};
ghost use Rattle.py_selftest.specs.Walking.{at_frame, at_thread, chain_from, code_at, code_if, code_step, current_at};
ghost use Rattle.py_selftest.specs.Walking.{first_threads, frame_step, met_result, met_shown};
ghost use Rattle.py_selftest.specs.Walking.{newest_at, or_null, passed_over};
ghost use Rattle.py_selftest.specs.Walking.{met_at, step_at, thread_step, threads_from, untagged};

use crate::classes::types_met;
use crate::questions::{Answer, FrameTold, Question, add_answer, frame_told, one_more};
use crate::telling::{Release, Types, kept, word_told};
use crate::threads::{ThreadTold, add_thread, thread_told};
use process_memory::{ProcessMemory, ReadFault, word_past};
use py_fields::{CframeAt, Layout};
use std::alloc::Global;

/// How many threads are asked at most, and how many members of each one's chain of frames.
const THREAD_LIMIT: usize = 64;

const FRAME_LIMIT: u64 = 16;

/// A thread of the process, as the chain of an interpreter's threads has it.
#[derive(Clone, Copy, Debug, Drop, PartialEq, Eq)]
pub struct ThreadPlace {
    /// The address of its record.
    pub address: u64,
    /// The address of the interpreter.
    pub interpreter: u64,
}

/// What was met so far.
#[derive(Drop)]
pub(crate) struct Met {
    /// The next member of a chain of frames; 0 at its end.
    pub(crate) at: u64,
    /// The interpreter of the thread that was asked last; 0 before any was.
    pub(crate) interpreter: u64,
    pub(crate) types: Types,
    /// How many frames were met whose code names a file, 8 at most.
    pub(crate) frames: u64,
    pub(crate) answers: Vec<Answer>,
}

/// The newest frame, by what a thread's record names. At most one read.
fn current_frame<P: ProcessMemory>(
    process: &mut P,
    cframe: Option<CframeAt>,
    top: u64,
) -> Result<u64, ReadFault>
    ensures { Reads read_fault 1 (P.seen process.old) (P.seen process.new)
        (λ m. current_at m cframe top) result }
{
    match cframe {
        None => Ok(top),
        Some(cframe) => word_past(process, top, cframe.current as u64),
    }
}

/// The newest frame of a thread. At most 2 reads.
fn newest_frame<P: ProcessMemory>(
    process: &mut P,
    layout: &Layout,
    thread: u64,
) -> Result<Option<u64>, ReadFault>
    ensures { Reads read_fault 2 (P.seen process.old) (P.seen process.new)
        (λ m. newest_at layout.now m thread) result }
{
    let top = word_past(process, thread, layout.thread.frame as u64)?;
    let newest = current_frame(process, layout.cframe, top)?;
    Ok(Some(newest))
}

/// The address of code, by the word that names it and how many of its lowest bits are a tag.
fn untagged(word: u64, bits: u32) -> u64
    ensures { result ≡ untagged word bits }
{
    let tag = match bits {
        0 => 1,
        1 => 2,
        2 => 4,
        _ => 8,
    };
    word / tag * tag
}

/// Code, if it names a file.
fn code_if(code: u64, file: u64) -> Option<u64>
    ensures { result ≡ code_if code file }
{
    if file == 0 { None } else { Some(code) }
}

/// The code of a member of a chain of frames, if it names a file: one that C pushes has none. At most 2 reads.
fn code_of<P: ProcessMemory>(
    process: &mut P,
    layout: &Layout,
    frame: u64,
) -> Result<Option<u64>, ReadFault>
    ensures { Reads read_fault 2 (P.seen process.old) (P.seen process.new)
        (λ m. code_at layout.now m frame) result }
{
    let word = word_past(process, frame, layout.frame.code as u64)?;
    let code = untagged(word, layout.frame.code_tag_bits);
    let file = word_past(process, code, layout.code.filename as u64)?;
    Ok(code_if(code, file))
}

/// An address, or 0.
fn or_null(at: Option<u64>) -> u64
    ensures { result ≡ or_null at }
{
    match at {
        Some(at) => at,
        None => 0,
    }
}

/// What was met with a frame: its types, its answers, and where the chain goes on.
fn at_frame(met: Met, types: Types, back: u64, told: &FrameTold) -> Result<Met, ReadFault>
    ensures met { IfOk result (λ new. met_shown new ≡ at_frame (met_shown met) types back told.now) }
    ensures memory { IfErr result (λ error. error ≡ OutOfMemory) }
{
    let Met {
        interpreter,
        frames,
        mut answers,
        ..
    } = met;
    add_answer(&mut answers, Question::Frame, told.frame)?;
    add_answer(&mut answers, Question::Code, told.code)?;
    add_answer(&mut answers, Question::Name, told.name)?;
    add_answer(&mut answers, Question::File, told.file)?;
    add_answer(&mut answers, Question::Variables, told.variables)?;
    add_answer(&mut answers, Question::Table, told.table)?;
    add_answer(&mut answers, Question::End, told.end)?;
    add_answer(&mut answers, Question::Instruction, told.instruction)?;
    add_answer(&mut answers, Question::Local, told.local)?;
    Ok(Met {
        at: back,
        interpreter,
        types,
        frames: one_more(frames),
        answers,
    })
}

/// The same of a member of the chain that is no frame whose code names a file.
fn passed_over(met: Met, back: u64) -> Met
    ensures { met_shown result ≡ passed_over (met_shown met) back }
{
    Met {
        at: back,
        interpreter: met.interpreter,
        types: met.types,
        frames: met.frames,
        answers: met.answers,
    }
}

/// The same, by the member's code. At most 42 reads.
fn code_step<P: ProcessMemory>(
    alloc: Global,
    process: &mut P,
    layout: &Layout,
    release: Release,
    met: Met,
    back: u64,
    code: Option<u64>,
) -> Result<Met, ReadFault>
    ensures { Reads read_fault 42 (P.seen process.old) (P.seen process.new)
        (λ m. code_step layout.now m release (met_shown met) back code) (met_result result) }
{
    match code {
        None => Ok(passed_over(met, back)),
        Some(code) => {
            let types = types_met(alloc, process, layout, release, &met.types, met.at, code)?;
            let told = frame_told(process, layout, release, &types, met.at, code)?;
            at_frame(met, types, back, &told)
        }
    }
}

/// What is met with the member of a chain at which it stands. At most 45 reads.
fn frame_step<P: ProcessMemory>(
    alloc: Global,
    process: &mut P,
    layout: &Layout,
    release: Release,
    met: Met,
) -> Result<Met, ReadFault>
    ensures { Reads read_fault 45 (P.seen process.old) (P.seen process.new)
        (λ m. frame_step layout.now m release (met_shown met)) (met_result result) }
{
    let back = kept(word_told(process, met.at, layout.frame.back as u64))?;
    let code = kept(code_of(process, layout, met.at))?;
    code_step(alloc, process, layout, release, met, or_null(back), code)
}

/// The same; nothing at a chain's end. At most 45 reads.
fn step<P: ProcessMemory>(
    alloc: Global,
    process: &mut P,
    layout: &Layout,
    release: Release,
    met: Met,
) -> Result<Met, ReadFault>
    ensures { Reads read_fault 45 (P.seen process.old) (P.seen process.new)
        (λ m. step_at layout.now m release (met_shown met)) (met_result result) }
{
    if met.at == 0 {
        return Ok(met);
    }
    frame_step(alloc, process, layout, release, met)
}

/// What is met with the first 16 members of a chain of frames. At most 720 reads.
fn chain<P: ProcessMemory>(
    alloc: Global,
    process: &mut P,
    layout: &Layout,
    release: Release,
    begun: Met,
) -> Result<Met, ReadFault>
    ensures { Reads read_fault 720 (P.seen process.old) (P.seen process.new)
        (λ m. chain_from layout.now release m 16 (met_shown begun)) (met_result result) }
{
    let mut met = begun;
    for number in 0..FRAME_LIMIT {
        met = step(alloc, process, layout, release, met)?;
    }
    Ok(met)
}

/// What was met with a thread of an interpreter: its answers, and where its chain of frames begins.
fn at_thread(met: Met, interpreter: u64, told: &ThreadTold, newest: u64) -> Result<Met, ReadFault>
    ensures met { IfOk result (λ new. met_shown new ≡ at_thread (met_shown met) interpreter told.now newest) }
    ensures memory { IfErr result (λ error. error ≡ OutOfMemory) }
{
    let Met {
        types,
        frames,
        mut answers,
        ..
    } = met;
    add_thread(&mut answers, told)?;
    Ok(Met {
        at: newest,
        interpreter,
        types,
        frames,
        answers,
    })
}

/// What is met with a thread and its frames. At most 727 reads.
fn thread_step<P: ProcessMemory>(
    alloc: Global,
    process: &mut P,
    layout: &Layout,
    release: Release,
    pointers: &[u64],
    thread: &ThreadPlace,
    met: Met,
) -> Result<Met, ReadFault>
    ensures { Reads read_fault 727 (P.seen process.old) (P.seen process.new)
        (λ m. thread_step layout.now release pointers.now m thread.now (met_shown met)) (met_result result) }
{
    let (interpreter, address) = (thread.interpreter, thread.address);
    let told = thread_told(
        process,
        layout,
        pointers,
        met.interpreter,
        interpreter,
        address,
    )?;
    let newest = kept(newest_frame(process, layout, address))?;
    let begun = at_thread(met, interpreter, &told, or_null(newest))?;
    chain(alloc, process, layout, release, begun)
}

/// The first 64 threads.
fn first_threads(threads: &[ThreadPlace]) -> &[ThreadPlace]
    ensures few { length result.now ≤ 64 }
    ensures first { result.now ≡ first_threads threads.now }
{
    if threads.len() <= THREAD_LIMIT {
        return threads;
    }
    &threads[..THREAD_LIMIT]
}

/// What is met with some threads. At most 727 reads for each.
pub(crate) fn meet_threads<P: ProcessMemory>(
    alloc: Global,
    process: &mut P,
    layout: &Layout,
    release: Release,
    pointers: &[u64],
    threads: &[ThreadPlace],
    begun: Met,
) -> Result<Met, ReadFault>
    ensures { Reads read_fault (727 * length threads.now) (P.seen process.old) (P.seen process.new)
        (λ m. threads_from layout.now release pointers.now m threads.now (met_shown begun)) (met_result result) }
{
    let mut met = begun;
    for thread in threads {
        met = thread_step(alloc, process, layout, release, pointers, thread, met)?;
    }
    Ok(met)
}

/// What is met with the first 64 threads and the first 16 members of each one's chain of frames. At most 46528 reads.
pub(crate) fn meet<P: ProcessMemory>(
    alloc: Global,
    process: &mut P,
    layout: &Layout,
    release: Release,
    types: &Types,
    pointers: &[u64],
    threads: &[ThreadPlace],
) -> Result<Met, ReadFault>
    ensures { Reads read_fault 46528 (P.seen process.old) (P.seen process.new)
        (λ m. met_at layout.now release pointers.now m types.now threads.now) (met_result result) }
{
    let begun = Met {
        at: 0,
        interpreter: 0,
        types: *types,
        frames: 0,
        answers: Vec::new(alloc),
    };
    let first = first_threads(threads);
    meet_threads(alloc, process, layout, release, pointers, first, begun)
}
