//! A program is reported as it is.
use elf64_core::{Machine, Text};
use program_report::{
    Program, ProgramFrame, ProgramLocal, ProgramThread, ProgramValue, report_of_program,
};
use py_fields::{Layout, Version};
use py_lines::LineRange;
use py_stacks::{Config, Frame, StackTrace};
use std::alloc::Global;
use std::test::Fail;

/// A thread of one frame, which stands at line 5 and has one local, and which holds the lock.
fn small(alloc: Global) -> Result<Program, Fail> {
    let range = LineRange {
        start: 0,
        end: 8,
        line: Some(5),
    };
    let local = ProgramLocal {
        name: Text::of(alloc, "x")?,
        value: ProgramValue::Number(7),
    };
    let frame = ProgramFrame {
        name: Text::of(alloc, "f")?,
        filename: Text::of(alloc, "a.py")?,
        first: 3,
        ranges: vec![in alloc; range]?,
        offset: 2,
        args: 1,
        locals: vec![in alloc; local]?,
    };
    let thread = ProgramThread {
        id: 32512,
        frames: vec![in alloc; frame]?,
    };
    Ok(Program {
        threads: vec![in alloc; thread]?,
        owner: Some(0),
    })
}

fn is_frame(frame: &Frame) -> bool {
    frame.name.as_str() == "f" && frame.line == 5 && frame.is_shim_entry && frame.locals.is_some()
}

fn is_thread(thread: &StackTrace) -> bool {
    thread.thread_id == 32512
        && thread.owns_gil
        && thread.frames.len() == 1
        && thread.frames.iter().all(is_frame)
}

#[test]
fn a_program_and_its_report(rt: HostRuntime) -> Result<(), Fail> {
    let alloc = rt.alloc();
    let version = Version::of_numbers(alloc, 3, 9, 0)?;
    let mut config = Config::default();
    config.dump_locals = 1;
    let machine = Machine::X86_64;
    let report = report_of_program(
        alloc,
        &small(alloc)?,
        Layout::sample(),
        &version,
        machine,
        &config,
    )??;
    assert!(rt; report.signal == Some(6) && report.traces.len() == 1);
    assert!(rt; report.traces.first().is_some_and(is_thread));
    Ok(())
}
