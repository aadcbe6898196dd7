//! Runs of both programs over files and streams in memory that fail at a given call, and over files that are cut. What
//! a whole run prints and says is shown by the rows of the programs.
use crate::made::{core, image};
use elf64_core::Name;
use outside::{MemoryFiles, MemorySink};
use std::alloc::{AllocError, Global};
use std::process::Abort;
use std::test::Fail;

mod cuts;
mod faults;

/// The layouts of `Layout::sample`.
const SAMPLE: &[u8] = br#"[[layout]]
major = 3
first_minor = 9
last_minor = 9
bytes_text = false
head = "runtime"
lock = "runtime"
frames = "direct"
lasti = "bytes"
lines = "pairs"
strings = "state"
integers = "signed"
dicts = "general"
managed = "none"
interpreter = {threads=8, modules=16}
thread = {size=64, next=8, interp=16, id=32, frame=24}
frame = {size=64, code=16, back=24, instr=32, locals=56, code_tag_bits=0}
code = {size=64, argcount=16, nlocals=20, first_line=24, filename=32, name=40, table=48, varnames=56}
string = {size=72, length=16, state=32, pointer=64, short_at=48, long_at=72, kind_shift=2, compact_bit=5, ascii_bit=6}
bytes = {size=32, length=16, at=32}
tuple = {size=24, count=16, at=24}
list = {size=40, count=16, items=24}
object = {size=16, klass=8}
klass = {size=48, name=24, flags=32, dict_offset=40}
long = {size=32, count=16, digits=24}
small = {size=24, value=16}
float = {size=24, value=16}
dict = {size=48, keys=32, values=40}
keys = {size=40, used=32, slots=8}
"#;

/// One address that no map holds.
const ADDRESSES: &[u8] = b"0x9999\n";

/// For how many bytes there is room in a stream, where nothing else is said.
const ROOM: u32 = 1000;

/// A command over files that serve: its words, which for `pysalvage` begin with its name, and the files that it asks
/// for, in order, each with blanks between them; how many bytes it prints; and what it prints before the cause where
/// its core is cut, and with the cause where its image is, if it goes on then.
struct Row {
    words: &'static str,
    files: &'static str,
    length: usize,
    cut_core: Option<&'static str>,
    cut_image: Option<&'static str>,
}

const STACKS: &str = "Python v3.9.0\n\nThread 0x7F00\n";

const ROWS: [Row; 9] = [
    Row {
        words: "walk core sample 3.9.0 0x10000 0",
        files: "core",
        length: 29,
        cut_core: None,
        cut_image: Some(STACKS),
    },
    Row {
        words: "walk core layouts 3.9.0 0x10000 0",
        files: "core layouts",
        length: 29,
        cut_core: None,
        cut_image: Some(STACKS),
    },
    Row {
        words: "dump -c core --layouts layouts /usr/bin/python3.9=image",
        files: "core layouts image",
        length: 29,
        cut_core: None,
        cut_image: None,
    },
    Row {
        words: "merge core layouts 0 addresses /usr/bin/python3.9=image",
        files: "core layouts image addresses",
        length: 15,
        cut_core: None,
        cut_image: None,
    },
    Row {
        words: "locate core layouts /usr/bin/python3.9=image",
        files: "core layouts image",
        length: 43,
        cut_core: None,
        cut_image: None,
    },
    Row {
        words: "slim core layouts 0 /usr/bin/python3.9=image",
        files: "core layouts image",
        length: 328,
        cut_core: None,
        cut_image: None,
    },
    Row {
        words: "triage layouts core copy /usr/bin/python3.9=image",
        files: "layouts image core copy",
        length: 29,
        cut_core: Some("Group 1: 1\n    copy\nRefused: 1\n    core: "),
        cut_image: Some(
            "Refused: 2\n    core: bad image: /usr/bin/python3.9\n    copy: bad image: /usr/bin/python3.9\n",
        ),
    },
    Row {
        words: "reach core layouts 0 /usr/bin/python3.9=image",
        files: "core layouts image",
        length: 10,
        cut_core: None,
        cut_image: None,
    },
    Row {
        words: "pysalvage core --layouts layouts /usr/bin/python3.9=image",
        files: "core layouts image",
        length: 29,
        cut_core: None,
        cut_image: None,
    },
];

fn is_of_salvage(words: &str) -> bool {
    words.starts_with("pysalvage ")
}

/// The program that these words are for, with which its lines begin.
fn program_of(words: &str) -> &'static str {
    if is_of_salvage(words) {
        "pysalvage"
    } else {
        "pystacks"
    }
}

/// A run: its words, with blanks between them, to how many bytes the core and the image are cut, the read and the write
/// that fail, the write after so many bytes, and the room for the text and for the line.
#[derive(Clone, Copy)]
struct Trial<'a> {
    words: &'a str,
    core_length: usize,
    image_length: usize,
    failing_read: Option<u64>,
    failing_write: Option<(u64, u64)>,
    room: u32,
    room_for_line: u32,
}

/// A run in which nothing fails, and nothing is cut.
fn whole<'a>(words: &'a str) -> Trial<'a> {
    Trial {
        words,
        core_length: usize::MAX,
        image_length: usize::MAX,
        failing_read: None,
        failing_write: None,
        room: ROOM,
        room_for_line: ROOM,
    }
}

/// What comes of a run: its status, what was printed and what was said.
#[derive(Drop)]
struct Ran {
    status: u8,
    out: MemorySink,
    err: MemorySink,
}

/// Holds the first so many bytes of a file under a name.
fn hold(
    alloc: Global,
    held: &mut Vec<(Name, Vec<u8>)>,
    name: &[u8],
    mut bytes: Vec<u8>,
    length: usize,
) -> Result<(), AllocError> {
    bytes.truncate(length);
    held.push((Name::of(alloc, name)?, bytes))?;
    Ok(())
}

fn files(alloc: Global, trial: &Trial<'_>) -> Result<MemoryFiles, AllocError> {
    let mut held = Vec::new(alloc);
    hold(alloc, &mut held, b"core", core(alloc)?, trial.core_length)?;
    hold(alloc, &mut held, b"copy", core(alloc)?, usize::MAX)?;
    hold(
        alloc,
        &mut held,
        b"layouts",
        SAMPLE.to_vec(alloc)?,
        usize::MAX,
    )?;
    hold(
        alloc,
        &mut held,
        b"image",
        image(alloc)?,
        trial.image_length,
    )?;
    hold(
        alloc,
        &mut held,
        b"addresses",
        ADDRESSES.to_vec(alloc)?,
        usize::MAX,
    )?;
    let mut failing = Vec::new(alloc);
    if let Some(call) = trial.failing_read {
        failing.push(call)?;
    }
    Ok(MemoryFiles::new(alloc, held, failing))
}

fn words(alloc: Global, text: &str) -> Result<Vec<String>, AllocError> {
    let mut words = Vec::new(alloc);
    for word in text.split(' ') {
        words.push(String::from_str(alloc, word)?)?;
    }
    Ok(words)
}

/// A run of `pystacks`.
fn report(
    alloc: Global,
    words: &[String],
    files: &mut MemoryFiles,
    out: &mut MemorySink,
    err: &mut MemorySink,
) -> u8 {
    core_report::run(alloc, words, files, out, err)
}

/// A run of `pysalvage`.
fn salvage(
    alloc: Global,
    words: &[String],
    files: &mut MemoryFiles,
    out: &mut MemorySink,
    err: &mut MemorySink,
) -> u8 {
    salvage_report::run(alloc, words, files, out, err)
}

fn run_trial(alloc: Global, trial: &Trial<'_>) -> Result<Ran, AllocError> {
    let mut files = files(alloc, trial)?;
    let mut failing = Vec::new(alloc);
    if let Some(call) = trial.failing_write {
        failing.push(call)?;
    }
    let mut out = MemorySink::new(alloc, trial.room, failing)?;
    let mut err = MemorySink::new(alloc, trial.room_for_line, Vec::new(alloc))?;
    let words = words(alloc, trial.words)?;
    let status = if is_of_salvage(trial.words) {
        salvage(alloc, &words, &mut files, &mut out, &mut err)
    } else {
        report(alloc, &words, &mut files, &mut out, &mut err)
    };
    Ok(Ran { status, out, err })
}

/// Runs, and sees that this comes of it.
fn check(
    rt: &impl Abort,
    alloc: Global,
    trial: &Trial<'_>,
    status: u8,
    printed: &[u8],
    said: &[u8],
) -> Result<(), Fail> {
    let ran = run_trial(alloc, trial)?;
    let words = trial.words;
    assert!(rt; ran.status == status, "{words}");
    assert!(rt; ran.out.bytes() == printed, "{words}");
    assert!(rt; ran.err.bytes() == said, "{words}");
    Ok(())
}
