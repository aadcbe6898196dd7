//! Threads of status records.
use elf64_core::{Machine, Note};
use std::test::Fail;
use thread_registers::{PythonThread, push_threads, read_threads, threads_value};

/// Two threads that Python knows; one has the id of no thread.
const PYTHONS: [PythonThread; 2] = [
    PythonThread {
        thread_id: 0,
        native_id: Some(0),
    },
    PythonThread {
        thread_id: 0x1f,
        native_id: Some(9),
    },
];

/// A status record of the thread 9, whose registers r15 and fs_base are 2 and 0x1f.
fn status() -> [u8; 336] {
    let mut status = [0; 336];
    status[32] = 9;
    status[112] = 2;
    status[280] = 0x1f;
    status
}

/// A status record of the thread 9 that has no registers.
fn short_status() -> [u8; 112] {
    let mut status = [0; 112];
    status[32] = 9;
    status
}

#[test]
fn registers_are_told(rt: HostRuntime) -> Result<(), Fail> {
    let alloc = rt.alloc();
    let status = status();
    let notes = [Note {
        kind: 1,
        desc: &status,
    }];
    let threads = read_threads(alloc, Machine::X86_64, &notes, &PYTHONS)?;
    let mut text = String::new(alloc);
    push_threads(&mut text, &threads)?;
    let front = "Thread 9 (Python's 0x1F)\n         r15 0000000000000002      r14 0000000000000000";
    assert!(rt; text.as_str().starts_with(front), "{text}");
    assert!(rt;
        text.as_str()
            .ends_with("fs 0000000000000000       gs 0000000000000000\n"),
        "{text}"
    );
    Ok(())
}

#[test]
fn threads_are_a_value(rt: HostRuntime) -> Result<(), Fail> {
    let alloc = rt.alloc();
    let status = short_status();
    let notes = [Note {
        kind: 1,
        desc: &status,
    }];
    let threads = read_threads(alloc, Machine::Aarch64, &notes, &PYTHONS)?;
    let value = threads_value(alloc, &threads)?;
    let text = value.to_string(alloc)?;
    let expected =
        "[{\"python\":{\"kind\":\"thread\",\"thread_id\":31},\"registers\":null,\"system_id\":9}]";
    assert!(rt; text.as_str() == expected, "{text}");
    Ok(())
}
