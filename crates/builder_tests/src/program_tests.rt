//! Programs that can't be written; more of them are rows of `listing`.
use elf64_core::Text;
use memory_builder::{
    FramePlace, Program, ProgramFrame, ProgramItem, ProgramLocal, ProgramThread, ProgramValue,
    first_invalid,
};
use py_lines::{LineFamily, LineRange};
use std::alloc::Global;
use std::test::Fail;

/// A frame of one range and one local.
#[derive(Clone, Copy)]
struct FrameCase {
    name: &'static str,
    filename: &'static str,
    first: i32,
    end: u64,
    line: Option<i32>,
    offset: u32,
    args: u32,
    number: i64,
}

/// One that can be written.
const GOOD: FrameCase = FrameCase {
    name: "f",
    filename: "a.py",
    first: 1,
    end: 8,
    line: Some(5),
    offset: 2,
    args: 1,
    number: 7,
};

fn made(alloc: Global, case: FrameCase) -> Result<ProgramFrame, Fail> {
    let mut ranges = Vec::new(alloc);
    ranges.push(LineRange {
        start: 0,
        end: case.end,
        line: case.line,
    })?;
    let mut locals = Vec::new(alloc);
    locals.push(ProgramLocal {
        name: Text::of(alloc, "x")?,
        value: ProgramValue::Number(case.number),
    })?;
    Ok(ProgramFrame {
        name: Text::of(alloc, case.name)?,
        filename: Text::of(alloc, case.filename)?,
        first: case.first,
        ranges,
        offset: case.offset,
        args: case.args,
        locals,
    })
}

fn place(thread: u32, frame: u32) -> Option<FramePlace> {
    Some(FramePlace { thread, frame })
}

/// A thread of a frame with a list of so many numbers.
fn listed(alloc: Global, count: u32) -> Result<Program, Fail> {
    let mut items = Vec::new(alloc);
    for _ in 0..count {
        items.push(ProgramItem::Number(1))?;
    }
    let mut frame = made(alloc, GOOD)?;
    frame.locals.push(ProgramLocal {
        name: Text::of(alloc, "y")?,
        value: ProgramValue::List(items),
    })?;
    let frames = vec![in alloc; frame]?;
    Ok(Program {
        threads: vec![in alloc; ProgramThread { id: 7, frames }]?,
        owner: None,
    })
}

/// No word of a command line is so long.
#[test]
fn lists_are_bounded(rt: HostRuntime) -> Result<(), Fail> {
    let most = listed(rt.alloc(), 65535)?;
    assert!(rt; first_invalid(rt.alloc(), &most, LineFamily::Ranges)?.is_none());
    let more = listed(rt.alloc(), 65536)?;
    assert!(rt; first_invalid(rt.alloc(), &more, LineFamily::Ranges)? == place(0, 0));
    Ok(())
}
