//! A line of each table, and one on a stream that takes a part of it. What else a line says is a clause.
use core_texts::Part;
use fault_lines::{say_line, text_part};
use outside::MemorySink;
use std::alloc::{AllocError, Global};
use std::test::Fail;

/// A stream with so much room, to which the line of some parts was said.
fn said_within(alloc: Global, room: u32, parts: &[Part<'_>]) -> Result<MemorySink, AllocError> {
    let mut err = MemorySink::new(alloc, room, Vec::new(alloc))?;
    say_line(&mut err, b"p: ".as_slice(), parts);
    Ok(err)
}

/// Whether what was said on a stream with so much room is this.
fn is_said(alloc: Global, room: u32, parts: &[Part<'_>], line: &[u8]) -> Result<bool, AllocError> {
    let err = said_within(alloc, room, parts)?;
    Ok(err.bytes() == line)
}

#[test]
fn a_line_is_said_as_far_as_there_is_room(rt: HostRuntime) -> Result<(), Fail> {
    assert!(rt; is_said(rt.alloc(), 5, &text_part("bad words"), b"p: ba")?);
    Ok(())
}
