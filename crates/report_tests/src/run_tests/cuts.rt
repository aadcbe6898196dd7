//! Cores and images that are cut at each length. A test is a process of its own, which has a minute: so no one has all.
use super::{ROWS, Row, Trial, check, program_of, whole};
use crate::made::{core, image};
use std::alloc::Global;
use std::process::Abort;
use std::test::Fail;

/// Why a core of so many of its bytes gives no stacks: its memory and notes follow each other behind the headers, up to
/// its end.
fn cause_of(length: usize) -> &'static str {
    if length < 64 {
        "not an ELF64 little-endian file"
    } else {
        "bad program headers"
    }
}

/// Cuts the core of a command at each length but its own.
fn cut_core(rt: &impl Abort, alloc: Global, row: &Row, whole_length: usize) -> Result<(), Fail> {
    for core_length in 0..whole_length {
        let trial = Trial {
            core_length,
            ..whole(row.words)
        };
        let cause = cause_of(core_length);
        match row.cut_core {
            Some(before) => {
                let printed = format!(in alloc; "{before}{cause}\n")?;
                check(rt, alloc, &trial, 0, printed.as_bytes(), b"")?;
            }
            None => {
                let line = format!(in alloc; "{}: {cause}\n", program_of(row.words))?;
                check(rt, alloc, &trial, 1, b"", line.as_bytes())?;
            }
        }
    }
    Ok(())
}

/// Cuts the core of each of these commands.
fn cut_cores(rt: &impl Abort, alloc: Global, rows: &[Row]) -> Result<(), Fail> {
    let length = core(alloc)?.len();
    for row in rows {
        cut_core(rt, alloc, row, length)?;
    }
    Ok(())
}

#[test]
fn walks_and_dumps_have_cores_that_are_cut(rt: HostRuntime) -> Result<(), Fail> {
    cut_cores(&rt, rt.alloc(), &ROWS[..3])
}

#[test]
fn merges_have_cores_that_are_cut(rt: HostRuntime) -> Result<(), Fail> {
    cut_cores(&rt, rt.alloc(), &ROWS[3..4])
}

#[test]
fn cores_that_are_opened_are_cut(rt: HostRuntime) -> Result<(), Fail> {
    cut_cores(&rt, rt.alloc(), &ROWS[4..6])
}

#[test]
fn groups_and_objects_have_cores_that_are_cut(rt: HostRuntime) -> Result<(), Fail> {
    cut_cores(&rt, rt.alloc(), &ROWS[6..8])
}

#[test]
fn broken_processes_have_cores_that_are_cut(rt: HostRuntime) -> Result<(), Fail> {
    cut_cores(&rt, rt.alloc(), &ROWS[8..9])
}

/// Cuts the image of a command at each length but its own.
fn cut_image(rt: &impl Abort, alloc: Global, row: &Row, whole_length: usize) -> Result<(), Fail> {
    for image_length in 0..whole_length {
        let trial = Trial {
            image_length,
            ..whole(row.words)
        };
        match row.cut_image {
            Some(printed) => check(rt, alloc, &trial, 0, printed.as_bytes(), b"")?,
            None => {
                let program = program_of(row.words);
                let line = format!(in alloc; "{program}: bad image: /usr/bin/python3.9\n")?;
                check(rt, alloc, &trial, 1, b"", line.as_bytes())?;
            }
        }
    }
    Ok(())
}

/// Cuts the image of each of these commands.
fn cut_images(rt: &impl Abort, alloc: Global, rows: &[Row]) -> Result<(), Fail> {
    let length = image(alloc)?.len();
    for row in rows {
        cut_image(rt, alloc, row, length)?;
    }
    Ok(())
}

#[test]
fn walks_dumps_and_merges_have_images_that_are_cut(rt: HostRuntime) -> Result<(), Fail> {
    cut_images(&rt, rt.alloc(), &ROWS[..4])
}

#[test]
fn other_commands_have_images_that_are_cut(rt: HostRuntime) -> Result<(), Fail> {
    cut_images(&rt, rt.alloc(), &ROWS[4..8])
}

#[test]
fn broken_processes_have_images_that_are_cut(rt: HostRuntime) -> Result<(), Fail> {
    cut_images(&rt, rt.alloc(), &ROWS[8..9])
}
