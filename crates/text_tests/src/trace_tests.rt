//! What no command prints: a thread with its state, and on a stream that takes a part of it.
use core_texts::{PrintError, write_trace};
use elf64_core::Text;
use outside::{MemorySink, SinkFault};
use py_stacks::{Frame, StackTrace};
use std::alloc::{AllocError, Global};
use std::test::Fail;

/// A thread of one frame.
fn trace(alloc: Global) -> Result<StackTrace, AllocError> {
    let frame = Frame {
        name: Text::of(alloc, "f")?,
        filename: Text::of(alloc, "/lib/a.py")?,
        module: None,
        short_filename: None,
        line: 12,
        locals: None,
        is_entry: false,
        is_shim_entry: false,
    };
    Ok(StackTrace {
        pid: 0,
        thread_id: 0x7f00_abcd,
        thread_name: Some(Text::of(alloc, "Wörker")?),
        os_thread_id: None,
        active: true,
        owns_gil: true,
        frames: vec![in alloc; frame]?,
    })
}

/// With activity or without, the room of the stream, and what is printed.
const PRINTED: [(bool, u32, &str); 3] = [
    (
        true,
        100,
        "Thread 0x7F00ABCD (active+gil): \"Wörker\"\n    f (/lib/a.py:12)\n",
    ),
    (false, 40, "Thread 0x7F00ABCD (gil): \"Wörker\"\n    f"),
    (false, 0, ""),
];

#[test]
fn a_thread_is_printed_as_far_as_there_is_room(rt: HostRuntime) -> Result<(), Fail> {
    let alloc = rt.alloc();
    let trace = trace(alloc)?;
    for (activity, room, printed) in &PRINTED {
        let mut out = MemorySink::new(alloc, *room, Vec::new(alloc))?;
        let written = write_trace(alloc, &mut out, &trace, *activity);
        assert!(rt; out.bytes() == printed.as_bytes());
        let want = if *room == 100 {
            Ok(())
        } else {
            Err(PrintError::Sink(SinkFault::Failed))
        };
        assert!(rt; written == want);
    }
    Ok(())
}
