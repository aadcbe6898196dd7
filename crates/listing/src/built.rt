//! The core or the image of a program that is built.
use elf64_core::{Machine, Text};
use image_builder::{
    BuildError, Built, Program, ProgramFrame, ProgramItem, ProgramLocal, ProgramThread,
    ProgramValue, build, generate,
};
use py_layout::{Layouts, Version};
use py_lines::LineRange;
use std::alloc::{AllocError, Global};
use std::io::{self, Write};

/// A number, or else a text.
fn item_of(alloc: Global, word: &str) -> Result<ProgramItem, AllocError> {
    match word.parse() {
        Ok(number) => Ok(ProgramItem::Number(number)),
        Err(_) => Ok(ProgramItem::Words(Text::of(alloc, word)?)),
    }
}

/// The items of a list: words with blanks between them.
fn items_of(alloc: Global, words: &str) -> Result<Vec<ProgramItem>, AllocError> {
    let mut found = Vec::new(alloc);
    for word in words.split_whitespace() {
        found.push(item_of(alloc, word)?)?;
    }
    Ok(found)
}

/// The items behind a bracket as a list, or else a number or a text.
fn value_of(alloc: Global, word: &str) -> Result<ProgramValue, AllocError> {
    if let Some(words) = word.strip_prefix('[') {
        return Ok(ProgramValue::List(items_of(alloc, words)?));
    }
    match item_of(alloc, word)? {
        ProgramItem::Number(number) => Ok(ProgramValue::Number(number)),
        ProgramItem::Words(text) => Ok(ProgramValue::Words(text)),
    }
}

/// The local of a word `NAME=VALUE`; without an equals sign it is an empty text.
fn local_of(alloc: Global, word: &str) -> Result<ProgramLocal, AllocError> {
    let (name, value) = match word.split_once('=') {
        Some(parts) => parts,
        None => (word, ""),
    };
    Ok(ProgramLocal {
        name: Text::of(alloc, name)?,
        value: value_of(alloc, value)?,
    })
}

/// The locals of some words.
fn locals_of(alloc: Global, words: &[String]) -> Result<Vec<ProgramLocal>, AllocError> {
    let mut found = Vec::new(alloc);
    for word in words {
        found.push(local_of(alloc, word.as_str())?)?;
    }
    Ok(found)
}

/// How many threads there are, how many frames each has, who holds the lock, and which locals each frame has.
#[derive(Clone, Copy)]
struct Shape<'a> {
    threads: u32,
    frames: u32,
    owner: Option<u32>,
    args: u32,
    locals: &'a [String],
}

/// Two ranges of code, of a line and of the next one.
fn ranges_of(alloc: Global, number: u32) -> Result<Vec<LineRange>, AllocError> {
    let line = 3 + (number % 1000) as i32;
    let found = vec![in alloc;
        LineRange {
            start: 0,
            end: 4,
            line: Some(line)
        },
        LineRange {
            start: 4,
            end: 8,
            line: Some(line + 1)
        },
    ]?;
    Ok(found)
}

/// The frame of a number, which its name and its lines tell; of four each the latter two stand in the second range.
fn frame_of(alloc: Global, shape: Shape<'_>, number: u32) -> Result<ProgramFrame, AllocError> {
    let name = format!(in alloc; "f{number}")?;
    Ok(ProgramFrame {
        name: Text::from_string(name)?,
        filename: Text::of(alloc, "a.py")?,
        first: 1 + (number % 1000) as i32,
        ranges: ranges_of(alloc, number)?,
        offset: 2 * (number % 4),
        args: shape.args,
        locals: locals_of(alloc, shape.locals)?,
    })
}

/// The thread of a number, which its id tells.
fn thread_of(alloc: Global, shape: Shape<'_>, number: u32) -> Result<ProgramThread, AllocError> {
    let mut frames = Vec::new(alloc);
    for frame in 0..shape.frames {
        frames.push(frame_of(alloc, shape, frame)?)?;
    }
    Ok(ProgramThread {
        id: 32512 + u64::from(number),
        frames,
    })
}

/// The threads of a shape.
fn threads_of(alloc: Global, shape: Shape<'_>) -> Result<Vec<ProgramThread>, AllocError> {
    let mut found = Vec::new(alloc);
    for thread in 0..shape.threads {
        found.push(thread_of(alloc, shape, thread)?)?;
    }
    Ok(found)
}

/// The shape that words tell; none where they are too few, or one of the counts is no number.
fn shape_of(words: &[String]) -> Option<Shape<'_>> {
    let [threads, frames, owner, args, locals @ ..] = words else {
        return None;
    };
    Some(Shape {
        threads: threads.as_str().parse().ok()?,
        frames: frames.as_str().parse().ok()?,
        owner: owner.as_str().parse().ok(),
        args: args.as_str().parse().ok()?,
        locals,
    })
}

/// The program of a shape.
fn shaped(alloc: Global, words: &[String]) -> Result<Option<Program>, AllocError> {
    let Some(shape) = shape_of(words) else {
        return Ok(None);
    };
    Ok(Some(Program {
        threads: threads_of(alloc, shape)?,
        owner: shape.owner,
    }))
}

/// The program of a seed, or of a shape; none where the words are neither.
fn program_of(alloc: Global, words: &[String]) -> Result<Option<Program>, AllocError> {
    let [seed] = words else {
        return shaped(alloc, words);
    };
    match seed.as_str().parse() {
        Ok(seed) => Ok(Some(generate(alloc, seed)?)),
        Err(_) => Ok(None),
    }
}

/// The machine of a word, as it is listed.
fn machine_of(word: &str) -> Option<Machine> {
    match word {
        "x86-64" => Some(Machine::X86_64),
        "aarch64" => Some(Machine::Aarch64),
        "other" => Some(Machine::Other),
        _ => None,
    }
}

/// The version of a word, such as 3.12.0.
fn version_of(alloc: Global, word: &str) -> Result<Option<Version>, AllocError> {
    let text = format!(in alloc; "{word} x")?;
    Ok(Version::scan_bytes(alloc, text.as_str().as_bytes()).ok())
}

/// What the words ask for.
#[derive(Drop)]
struct Asked {
    program: Program,
    version: Version,
    machine: Machine,
}

/// What the words ask for; none where they ask for nothing.
fn asked_of(
    alloc: Global,
    program: &[String],
    version: &str,
    machine: &str,
) -> Result<Option<Asked>, AllocError> {
    let (Some(program), Some(version), Some(machine)) = (
        program_of(alloc, program)?,
        version_of(alloc, version)?,
        machine_of(machine),
    ) else {
        return Ok(None);
    };
    Ok(Some(Asked {
        program,
        version,
        machine,
    }))
}

/// The line of a program that isn't built.
fn list_error<W: Write>(out: &mut W, error: BuildError) -> io::Result<()> {
    match error {
        BuildError::Uncovered => writeln!(out, "uncovered"),
        BuildError::NotValid { thread, frame } => writeln!(out, "not valid {thread} {frame}"),
        BuildError::NoRoom { needed } => writeln!(out, "no room {needed}"),
        BuildError::OutOfMemory => writeln!(out, "out of memory"),
    }
}

/// A part of what was built: the core's bytes, the image's, or the line of the addresses.
fn list_part<W: Write>(out: &mut W, built: &Built, part: &str) -> io::Result<()> {
    match part {
        "core" => out.write_all(&built.core),
        "image" => out.write_all(&built.image),
        _ => {
            let (interpreter, lock) = (built.interpreter, built.lock);
            writeln!(out, "{interpreter:x} {lock:x}")
        }
    }
}

/// The part of a program's files that the words ask for, by the layout of a list that covers the version, or the
/// line why there is none.
pub(crate) fn list_built<W: Write>(
    out: &mut W,
    alloc: Global,
    text: &[u8],
    words: &[String],
) -> io::Result<()> {
    let [version, machine, part, program @ ..] = words else {
        return writeln!(out, "refused");
    };
    let Some(asked) = asked_of(alloc, program, version.as_str(), machine.as_str())? else {
        return writeln!(out, "refused");
    };
    let Ok(layouts) = Layouts::from_toml(alloc, text) else {
        return writeln!(out, "refused");
    };
    let Some(layout) = layouts.choose(&asked.version) else {
        return writeln!(out, "no layout");
    };
    match build(alloc, &asked.program, layout, &asked.version, asked.machine) {
        Ok(built) => list_part(out, &built, part.as_str()),
        Err(error) => list_error(out, error),
    }
}
