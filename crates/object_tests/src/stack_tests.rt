//! The stack of one thread, which no command asks for, with first lines and with none.
use crate::made::{Words, memory_of};
use py_fields::Layout;
use py_stacks::{LineNo, StackTrace, get_stack_trace};
use std::test::Fail;

/// Where an interpreter stands, its thread, a frame of it, the frame's code, and two texts.
const INTERPRETER: u64 = 0x1000;

const THREAD: u64 = 0x2000;

const FRAME: u64 = 0x3000;

const CODE: u64 = 0x4000;

const FILE: u64 = 0x5000;

const NAME: u64 = 0x6000;

/// A thread of id 7 with one frame, `f` in `a.py`, whose first line is 3 and which has no variables: the tuple of
/// their names is the interpreter.
const MEMORY: [Words<'static>; 6] = [
    (INTERPRETER, &[0, THREAD, 0]),
    (THREAD, &[0, 0, INTERPRETER, FRAME, 7, 0, 0, 0]),
    (FRAME, &[0, 0, CODE, 0, 0, 0, 0, 0]),
    (CODE, &[0, 0, 0, 3, FILE, NAME, 0, INTERPRETER]),
    (FILE, &[0, 0, 4, 0, 100, 0, 0x7970_2e61, 0, 0]),
    (NAME, &[0, 0, 1, 0, 100, 0, 0x66, 0, 0]),
];

/// Whether a trace is that of the thread with this line, and has no variables.
fn is_trace(trace: &StackTrace, line: i32) -> bool {
    let [frame] = trace.frames.as_slice() else {
        return false;
    };
    let has_none = frame
        .locals
        .as_ref()
        .is_some_and(|locals| locals.is_empty());
    trace.thread_id == 7 && frame.name.as_str() == "f" && frame.line == line && has_none
}

#[test]
fn the_stack_of_one_thread(rt: HostRuntime) -> Result<(), Fail> {
    let (alloc, layout) = (rt.alloc(), Layout::sample());
    let mut part = memory_of(alloc, &MEMORY)?;
    for (lineno, line) in &[(LineNo::NoLine, 0), (LineNo::First, 3)] {
        let trace = get_stack_trace(alloc, THREAD, &mut part, &layout, true, *lineno)?;
        assert!(rt; is_trace(&trace, *line));
    }
    Ok(())
}
