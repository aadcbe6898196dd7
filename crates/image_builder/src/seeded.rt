//! A program for each seed.
ghost use Rattle.std.specs.Prelude.{◌≡◌, ◌<◌, ◌++◌, map, codes, IfOk};
ghost use Rattle.std.specs.Fmt.{decimal};
ghost use Rattle.image_builder.specs.Generated.{ranges_in, locals_in, frame_of, thread_of, generated};
ghost use Rattle.py_lines.specs.declared.lines.LineFamily.{LineFamily};
ghost use Rattle.memory_builder.specs.Validity.{IsValidProgram};
ghost use Rattle.memory_builder.specs.Mirror.{local_in, frame_in, program_thread, program_in};

use crate::{Program, ProgramFrame, ProgramItem, ProgramLocal, ProgramThread, ProgramValue};
use elf64_core::Text;
use py_lines::LineRange;
use std::alloc::{AllocError, Global};

/// How many threads a program has.
const THREADS: u32 = 256;
/// The most frames of a thread.
const MOST_FRAMES: u32 = 16;

/// The three ranges of a frame.
fn ranges_in(alloc: Global, thread: u32, frame: u32) -> Result<Vec<LineRange>, AllocError>
    requires thread { thread < 256 }
    requires frame { frame < 16 }
    ensures { IfOk result (λ found. found.items ≡ ranges_in thread frame) }
{
    let lines = [1 + frame, 2 + frame, 3 + frame + thread % 7];
    let found = vec![in alloc;
        LineRange {
            start: 0,
            end: 2,
            line: Some(lines[0] as i32)
        },
        LineRange {
            start: 2,
            end: 6,
            line: Some(lines[1] as i32)
        },
        LineRange {
            start: 6,
            end: 8,
            line: Some(lines[2] as i32)
        },
    ]?;
    Ok(found)
}

/// The two locals of a frame: a number, and a list of a text and that number.
fn locals_in(alloc: Global, number: u32) -> Result<Vec<ProgramLocal>, AllocError>
    ensures { IfOk result (λ found. map local_in found.items ≡ locals_in number) }
{
    let number = i64::from(number);
    let text = ProgramItem::Words(Text::of(alloc, "s")?);
    let items = vec![in alloc; text, ProgramItem::Number(number)]?;
    let first = ProgramLocal {
        name: Text::of(alloc, "x")?,
        value: ProgramValue::Number(number),
    };
    let second = ProgramLocal {
        name: Text::of(alloc, "y")?,
        value: ProgramValue::List(items),
    };
    let mut found = Vec::new(alloc);
    found.push(first)?;
    found.push(second)?;
    Ok(found)
}

/// The name of a function.
fn function_name(alloc: Global, number: u64) -> Result<Text, AllocError>
    ensures { IfOk result (λ name. name ≡ codes "f" ++ decimal number) }
{
    let name = format!(in alloc; "f{number}")?;
    let shared = Text::from_string(name)?;
    Ok(shared)
}

/// The name of a file.
fn file_name(alloc: Global, number: u32) -> Result<Text, AllocError>
    ensures { IfOk result (λ name. name ≡ codes "m" ++ (decimal number ++ codes ".py")) }
{
    let name = format!(in alloc; "m{number}.py")?;
    let shared = Text::from_string(name)?;
    Ok(shared)
}

/// A frame of a thread.
fn frame_of(alloc: Global, seed: u64, thread: u32, frame: u32) -> Result<ProgramFrame, AllocError>
    requires thread { thread < 256 }
    requires frame { frame < 16 }
    ensures { IfOk result (λ made. frame_in made ≡ frame_of seed thread frame) }
{
    let number = (seed % 1000 + 31 * u64::from(thread) + u64::from(frame)) % 1000;
    let name = function_name(alloc, number)?;
    let filename = file_name(alloc, frame)?;
    let ranges = ranges_in(alloc, thread, frame)?;
    let locals = locals_in(alloc, 7 * thread + frame)?;
    Ok(ProgramFrame {
        name,
        filename,
        first: (1 + frame) as i32,
        ranges,
        offset: 4,
        args: 1,
        locals,
    })
}

/// A thread.
fn thread_of(alloc: Global, seed: u64, thread: u32) -> Result<ProgramThread, AllocError>
    requires { thread < 256 }
    ensures { IfOk result (λ made. program_thread made ≡ thread_of seed thread) }
{
    let count = 1 + ((seed % 16) as u32 + thread) % MOST_FRAMES;
    let mut frames = Vec::new(alloc);
    for frame in 0..count {
        frames.push(frame_of(alloc, seed, thread, frame)?)?;
    }
    Ok(ProgramThread {
        id: 1000 + 16 * u64::from(thread),
        frames,
    })
}

/// The program of a seed: 256 threads with ids 1000, 1016 and so on, of 1 to 16 frames each, 2176 in all; none
/// holds the lock. It can be written for every layout. The one error is out of memory.
pub fn generate(alloc: Global, seed: u64) -> Result<Program, AllocError>
    ensures same { IfOk result (λ program. program_in program ≡ generated seed) }
    ensures valid { IfOk result (λ program. (family : LineFamily) → IsValidProgram family (program_in program)) }
{
    let mut threads = Vec::new(alloc);
    for thread in 0..THREADS {
        threads.push(thread_of(alloc, seed, thread)?)?;
    }
    Ok(Program {
        threads,
        owner: None,
    })
}
