//! Which versions are refused, and the files of a program; more of both are rows of `listing`.
ghost use Rattle.py_fields.specs.Sound.{IsSound};

use elf64_core::{Machine, Text};
use image_builder::{
    BuildError, Built, Program, ProgramFrame, ProgramThread, build, has_room, has_word_room,
};
use py_fields::{Layout, Version};
use py_lines::LineRange;
use std::alloc::Global;
use std::test::Fail;

/// A frame of `a.py`, whose code has one line from 0 on and begins at the line `first`.
fn frame(alloc: Global, name: &str, first: i32, line: i32, end: u64) -> Result<ProgramFrame, Fail> {
    let range = LineRange {
        start: 0,
        end,
        line: Some(line),
    };
    Ok(ProgramFrame {
        name: Text::of(alloc, name)?,
        filename: Text::of(alloc, "a.py")?,
        first,
        ranges: vec![in alloc; range]?,
        offset: 0,
        args: 0,
        locals: Vec::new(alloc),
    })
}

/// One thread of two frames, which holds the lock if anybody does.
fn small(alloc: Global, owner: Option<u32>) -> Result<Program, Fail> {
    let mut first = frame(alloc, "f", 3, 5, 8)?;
    first.offset = 2;
    let frames = vec![in alloc; first, frame(alloc, "<module>", 1, 1, 4)?]?;
    Ok(Program {
        threads: vec![in alloc; ProgramThread { id: 32512, frames }]?,
        owner,
    })
}

/// A version of 3.9, or of another minor.
fn version(alloc: Global, minor: u64, patch: u64, flags: &str) -> Result<Version, Fail> {
    Ok(Version {
        major: 3,
        minor,
        patch,
        release_flags: Text::of(alloc, flags)?,
        build_metadata: None,
    })
}

/// Whether files are built of a program.
fn admit(
    alloc: Global,
    program: &Program,
    layout: &Layout,
    version: &Version,
    machine: Machine,
) -> Result<(), BuildError>
    requires { IsSound layout.now }
{
    build(alloc, program, layout, version, machine).map(|_| ())
}

/// Minors, patches and flags that no text spells so, or that no layout has.
const UNCOVERED: [(u64, u64, &str); 3] = [(9, 0, "rc"), (9, 256, ""), (11, 0, "")];

#[test]
fn versions_without_a_number_are_uncovered(rt: HostRuntime) -> Result<(), Fail> {
    let (layout, program) = (Layout::sample(), small(rt.alloc(), None)?);
    for (minor, patch, flags) in &UNCOVERED {
        let version = version(rt.alloc(), *minor, *patch, flags)?;
        let answer = admit(rt.alloc(), &program, &layout, &version, Machine::X86_64);
        assert!(rt;
            answer == Err(BuildError::Uncovered),
            "3.{minor}.{patch}{flags}"
        );
    }
    Ok(())
}

#[test]
fn the_example_has_room(rt: HostRuntime) -> Result<(), Fail> {
    let (layout, version) = (Layout::sample(), version(rt.alloc(), 9, 0, "")?);
    assert!(rt; has_room(&layout));
    assert!(rt; has_word_room(&layout, Machine::X86_64, &version));
    Ok(())
}

/// Where a list counts its items in the place of its type, both are not told.
#[test]
fn a_list_may_have_no_room(rt: HostRuntime) -> Result<(), Fail> {
    let mut layout = Layout::sample();
    layout.list.count = layout.object.klass + 7;
    assert!(rt; !has_room(&layout));
    Ok(())
}

/// The program with its thread as the holder of the lock, written.
pub(crate) fn built(alloc: Global) -> Result<Built, Fail> {
    let program = small(alloc, Some(0))?;
    let version = version(alloc, 9, 0, "")?;
    Ok(build(
        alloc,
        &program,
        &Layout::sample(),
        &version,
        Machine::X86_64,
    )?)
}
