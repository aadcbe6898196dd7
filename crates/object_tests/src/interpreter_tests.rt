//! The test of an interpreter, which no command makes by itself.
use crate::made::{Words, memory_of};
use py_fields::Layout;
use py_stacks::is_interpreter;
use std::test::Fail;

/// Two interpreters, whose first thread is the same one; it names the first.
const ONE: u64 = 0x1000;

const OTHER: u64 = 0x2000;

/// Where that thread stands.
const THREAD: u64 = 0x3000;

/// Addresses, and whether each is an interpreter.
const ROWS: [(u64, bool); 3] = [(ONE, true), (OTHER, false), (THREAD, false)];

const MEMORY: [Words<'static>; 3] = [
    (ONE, &[0, THREAD]),
    (OTHER, &[0, THREAD]),
    (THREAD, &[0, 0, ONE, 0, 7, 0, 0, 0]),
];

#[test]
fn a_test_has_both_steps(rt: HostRuntime) -> Result<(), Fail> {
    let mut part = memory_of(rt.alloc(), &MEMORY)?;
    let (alloc, layout) = (rt.alloc(), Layout::sample());
    for (addr, is) in &ROWS {
        let passes = is_interpreter(alloc, &mut part, &layout, *addr);
        assert!(rt; passes == Ok(*is), "{addr:#x}");
    }
    Ok(())
}
