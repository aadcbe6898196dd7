//! Each read, each write and each line that fails.
use super::{ROWS, Row, Trial, check, program_of, run_trial, whole};
use std::alloc::Global;
use std::process::Abort;
use std::test::Fail;

/// What a run prints in which nothing fails.
fn printed(
    rt: &impl Abort,
    alloc: Global,
    trial: &Trial<'_>,
    length: usize,
) -> Result<Vec<u8>, Fail> {
    let ran = run_trial(alloc, trial)?;
    let words = trial.words;
    assert!(rt; ran.status == 0, "{words}");
    assert!(rt; ran.out.bytes().len() == length, "{words}");
    assert!(rt; ran.err.bytes().is_empty(), "{words}");
    Ok(ran.out.bytes().to_vec(alloc)?)
}

/// Lets each read of a command fail in turn, and then one that isn't made.
fn fail_reads(rt: &impl Abort, alloc: Global, row: &Row) -> Result<(), Fail> {
    let trial = whole(row.words);
    let printed = printed(rt, alloc, &trial, row.length)?;
    let mut call = 0_u64;
    for name in row.files.split(' ') {
        let failing = Trial {
            failing_read: Some(call),
            ..trial
        };
        let line = format!(in alloc; "{}: cannot read {name}\n", program_of(row.words))?;
        check(rt, alloc, &failing, 3, b"", line.as_bytes())?;
        call = call.saturating_add(1);
    }
    let failing = Trial {
        failing_read: Some(call),
        ..trial
    };
    check(rt, alloc, &failing, 0, &printed, b"")
}

#[test]
fn each_read_fails_in_turn(rt: HostRuntime) -> Result<(), Fail> {
    for row in &ROWS {
        fail_reads(&rt, rt.alloc(), row)?;
    }
    Ok(())
}

/// Whether a write of so many bytes is tried to fail after the first of them: each place in a short text, and of a long
/// one some, and the last.
fn is_tried(place: usize, length: usize) -> bool {
    length < 1000 || place % 0x4_0000 == 0 || place.saturating_add(1) == length
}

/// Lets the write of a run fail after so many bytes, for each number of them, and then a write that isn't made.
fn fail_writes(
    rt: &impl Abort,
    alloc: Global,
    trial: &Trial<'_>,
    length: usize,
) -> Result<(), Fail> {
    let printed = printed(rt, alloc, trial, length)?;
    let line = format!(in alloc; "{}: cannot write\n", program_of(trial.words))?;
    for place in 0..printed.len() {
        if is_tried(place, printed.len()) {
            let failing = Trial {
                failing_write: Some((0, place as u64)),
                ..*trial
            };
            check(rt, alloc, &failing, 4, &printed[..place], line.as_bytes())?;
        }
    }
    let failing = Trial {
        failing_write: Some((1, 0)),
        ..*trial
    };
    check(rt, alloc, &failing, 0, &printed, b"")
}

#[test]
fn each_write_fails_after_so_many_bytes(rt: HostRuntime) -> Result<(), Fail> {
    for row in &ROWS {
        fail_writes(&rt, rt.alloc(), &whole(row.words), row.length)?;
    }
    Ok(())
}

#[test]
fn the_core_of_a_sample_fails_as_it_is_written(rt: HostRuntime) -> Result<(), Fail> {
    let trial = Trial {
        room: 1 << 22,
        ..whole("sample 7 core")
    };
    fail_writes(&rt, rt.alloc(), &trial, 1_831_472)
}

/// Words that come to a line, with their status.
const LINES: [(&str, u8, &str); 10] = [
    ("dude", 2, "pystacks: bad words\n"),
    ("pysalvage core", 2, "pysalvage: bad words\n"),
    (
        "pysalvage core --layouts layouts",
        1,
        "pysalvage: image not given: /usr/bin/python3.9\n",
    ),
    (
        "walk none sample 3.9.0 0x10000 0",
        3,
        "pystacks: cannot read none\n",
    ),
    (
        "walk core sample 3.9.0 0x20000 0",
        1,
        "pystacks: unreadable at 0x20008, 8 bytes\n",
    ),
    (
        "walk core sample 3.8.0 0x10000 0",
        1,
        "pystacks: no layout for Python 3.8.0\n",
    ),
    (
        "walk core image 3.9.0 0x10000 0",
        6,
        "pystacks: layouts: not TOML\n",
    ),
    (
        "merge core layouts 1 addresses /usr/bin/python3.9=image",
        7,
        "pystacks: cannot merge\n",
    ),
    (
        "reach core layouts 1 /usr/bin/python3.9=image",
        9,
        "pystacks: no such thread: 1\n",
    ),
    (
        "dump -c core --layouts layouts",
        1,
        "pystacks: image not given: /usr/bin/python3.9\n",
    ),
];

/// Lets the write of a line fail after so many bytes, for each number of them, and then not at all.
fn fail_line(
    rt: &impl Abort,
    alloc: Global,
    words: &str,
    status: u8,
    line: &str,
) -> Result<(), Fail> {
    let line = line.as_bytes();
    for room in 0..64_u32 {
        let trial = Trial {
            room_for_line: room,
            ..whole(words)
        };
        let said = &line[..line.len().min(room as usize)];
        check(rt, alloc, &trial, status, b"", said)?;
    }
    Ok(())
}

#[test]
fn a_line_that_fails_changes_no_status(rt: HostRuntime) -> Result<(), Fail> {
    for (words, status, line) in &LINES {
        fail_line(&rt, rt.alloc(), words, *status, line)?;
    }
    Ok(())
}
