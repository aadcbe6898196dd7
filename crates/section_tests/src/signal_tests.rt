//! How a signal came about, by records as Linux writes them.
use crash_signal::{
    CrashSignal, Untold, meaning_of, name_of, push_signal, read_signal, signal_value,
};
use elf64_core::Note;
use std::alloc::{AllocError, Global};
use std::test::Fail;

/// The signal of a status record, a signal's record, and the line of both for the process 7.
static ROWS: [(u8, [u8; 28], &str); 9] = [
    // a read of the address 0x10
    (
        11,
        [
            11, 0, 0, 0, 0, 0, 0, 0, 1, 0, 0, 0, 0, 0, 0, 0, 16, 0, 0, 0, 0, 0, 0, 0, 0, 0, 0, 0,
        ],
        "SIGSEGV at 0x10: address not mapped\n",
    ),
    // a write to 0x4141414141414141
    (
        11,
        [
            11, 0, 0, 0, 0, 0, 0, 0, 128, 0, 0, 0, 0, 0, 0, 0, 0, 0, 0, 0, 0, 0, 0, 0, 0, 0, 0, 0,
        ],
        "SIGSEGV, no address: an address that can't be one, or a protection fault\n",
    ),
    // kill from the process 1 of the user 0
    (
        15,
        [
            15, 0, 0, 0, 0, 0, 0, 0, 0, 0, 0, 0, 0, 0, 0, 0, 1, 0, 0, 0, 0, 0, 0, 0, 0, 0, 0, 0,
        ],
        "SIGTERM by process 1, user 0\n",
    ),
    // abort
    (
        6,
        [
            6, 0, 0, 0, 0, 0, 0, 0, 250, 255, 255, 255, 0, 0, 0, 0, 7, 0, 0, 0, 0, 0, 0, 0, 0, 0,
            0, 0,
        ],
        "SIGABRT by itself\n",
    ),
    // a breakpoint's instruction
    (
        5,
        [
            5, 0, 0, 0, 0, 0, 0, 0, 128, 0, 0, 0, 0, 0, 0, 0, 0, 0, 0, 0, 0, 0, 0, 0, 0, 0, 0, 0,
        ],
        "SIGTRAP by the system\n",
    ),
    // a filter that refuses a call
    (
        31,
        [
            31, 0, 0, 0, 0, 0, 0, 0, 1, 0, 0, 0, 0, 0, 0, 0, 0, 16, 0, 0, 0, 0, 0, 0, 59, 0, 0, 0,
        ],
        "SIGSYS at 0x1000: a filter refused call 59\n",
    ),
    // a timer, and a signal without a name
    (
        34,
        [
            34, 0, 0, 0, 0, 0, 0, 0, 254, 255, 255, 255, 0, 0, 0, 0, 1, 0, 0, 0, 0, 0, 0, 0, 0, 0,
            0, 0,
        ],
        "signal 34 with code -2\n",
    ),
    // what gcore writes
    (
        0,
        [
            19, 0, 0, 0, 0, 0, 0, 0, 128, 0, 0, 0, 0, 0, 0, 0, 0, 0, 0, 0, 0, 0, 0, 0, 0, 0, 0, 0,
        ],
        "No signal is told by the first thread's record\n",
    ),
    (
        11,
        [
            19, 0, 0, 0, 0, 0, 0, 0, 128, 0, 0, 0, 0, 0, 0, 0, 0, 0, 0, 0, 0, 0, 0, 0, 0, 0, 0, 0,
        ],
        "The note is of SIGSTOP, another signal\n",
    ),
];

/// The line of a signal.
fn line_of(alloc: Global, told: &Result<CrashSignal, Untold>) -> Result<String, AllocError> {
    let mut text = String::new(alloc);
    push_signal(&mut text, told)?;
    Ok(text)
}

/// What the notes of the process 7 tell.
fn told_by(signal: u8, info: &[u8]) -> Result<CrashSignal, Untold> {
    let status = [0, 0, 0, 0, 0, 0, 0, 0, 0, 0, 0, 0, signal, 0];
    let notes = [
        Note {
            kind: 1,
            desc: &status,
        },
        Note {
            kind: 0x5349_4749,
            desc: info,
        },
    ];
    read_signal(Some(7), &notes)
}

#[test]
fn signals_are_told(rt: HostRuntime) -> Result<(), Fail> {
    for (signal, info, line) in &ROWS {
        let told = told_by(*signal, info);
        let text = line_of(rt.alloc(), &told)?;
        assert!(rt; text.as_str() == *line, "{text}");
    }
    Ok(())
}

#[test]
fn a_record_has_what_is_read_of_it(rt: HostRuntime) {
    let (signal, info, _) = &ROWS[0];
    assert!(rt; told_by(*signal, &info[..24]).is_ok());
    assert!(rt; told_by(*signal, &info[..23]) == Err(Untold::Short));
    assert!(rt; read_signal(None, &[]) == Err(Untold::NoSignal));
}

#[test]
fn a_signal_is_a_value(rt: HostRuntime) -> Result<(), Fail> {
    let (signal, info, _) = &ROWS[0];
    let value = signal_value(rt.alloc(), &told_by(*signal, info))?;
    let text = value.to_string(rt.alloc())?;
    let expected =
        "{\"address\":\"0x10\",\"code\":1,\"kind\":\"fault\",\"meaning\":\"address not mapped\",\
        \"name\":\"SIGSEGV\",\"signal\":11}";
    assert!(rt; text.as_str() == expected, "{text}");
    Ok(())
}

#[test]
fn numbers_have_words(rt: HostRuntime) {
    assert!(rt; name_of(31) == Some("SIGSYS"));
    assert!(rt; name_of(32).is_none());
    assert!(rt; meaning_of(7, 2) == Some("no such physical address"));
    assert!(rt; meaning_of(8, 9).is_none());
}
