//! A small core and the image of its program, laid out of named parts, for the tests.
use std::alloc::{AllocError, Global};

/// The path of the program, as the core's file table has it.
const PATH: &[u8] = b"/usr/bin/python3.9";

/// Where the interpreter stands, whose first thread is named 8 bytes further on, and that thread's record of 64
/// bytes: its interpreter is at 16, its newest frame at 24, its id at 32.
const INTERPRETER: u64 = 0x10000;

const THREAD: u64 = INTERPRETER + 0x10;

/// Where the program's code is mapped, of which the core has no byte, and its bss, whose one word is the interpreter.
const CODE: u64 = 0x40_0000;

const BSS: u64 = 0x50_0000;

const PAGE: u64 = 0x1000;

/// Kinds of segments and sections.
const LOAD: u32 = 1;

const NOTE: u32 = 4;

const STRINGS: u32 = 3;

const NO_BITS: u32 = 8;

/// Flags of a segment of code, and of one that can be written.
const CODE_FLAGS: u32 = 5;

const DATA_FLAGS: u32 = 6;

fn push_words(bytes: &mut Vec<u8>, words: &[u64]) -> Result<(), AllocError> {
    for word in words {
        bytes.extend_from_slice(&word.to_le_bytes())?;
    }
    Ok(())
}

fn push_halves(bytes: &mut Vec<u8>, halves: &[u32]) -> Result<(), AllocError> {
    for half in halves {
        bytes.extend_from_slice(&half.to_le_bytes())?;
    }
    Ok(())
}

/// The header of a core for x86-64, with four program headers behind it.
const CORE_HEADER: [u64; 8] = [
    0x102_464c_457f,
    0,
    0x3e_0000,
    0,
    64,
    0,
    0x38_0040_0000_0000,
    0x40_0004,
];

/// That of an image, with one program header behind it, and two section headers from 136 on, of which the second is
/// that of the names.
const IMAGE_HEADER: [u64; 8] = [
    0x102_464c_457f,
    0,
    0x3e_0000,
    0,
    64,
    136,
    0x38_0040_0000_0000,
    0x1_0002_0040_0001,
];

/// A segment: its kind and flags, where its bytes are in the file, and where it is in memory.
#[derive(Clone, Copy)]
struct Segment {
    kind: u32,
    flags: u32,
    offset: u64,
    file_size: u64,
    addr: u64,
    mem_size: u64,
}

fn push_segment(bytes: &mut Vec<u8>, segment: &Segment) -> Result<(), AllocError> {
    push_halves(bytes, &[segment.kind, segment.flags])?;
    push_words(bytes, &[segment.offset, segment.addr, 0])?;
    push_words(bytes, &[segment.file_size, segment.mem_size, 0])
}

/// The note of the file table, of 80 bytes: the code is mapped from the begin of the program.
fn push_file_table(bytes: &mut Vec<u8>) -> Result<(), AllocError> {
    push_halves(bytes, &[5, 59, 0x4649_4c45])?;
    bytes.extend_from_slice(b"CORE\0\0\0\0")?;
    push_words(bytes, &[1, PAGE, CODE, CODE + PAGE, 0])?;
    bytes.extend_from_slice(PATH)?;
    bytes.extend_from_slice(&[0, 0])
}

/// Where the bytes of the segments begin.
const FIRST: u64 = 64 + 4 * 56;

/// The segments of the core: of its objects, of the code, of the bss, and of notes.
const SEGMENTS: [Segment; 4] = [
    Segment {
        kind: LOAD,
        flags: DATA_FLAGS,
        offset: FIRST,
        file_size: 80,
        addr: INTERPRETER,
        mem_size: 80,
    },
    Segment {
        kind: LOAD,
        flags: CODE_FLAGS,
        offset: FIRST,
        file_size: 0,
        addr: CODE,
        mem_size: PAGE,
    },
    Segment {
        kind: LOAD,
        flags: DATA_FLAGS,
        offset: FIRST + 80,
        file_size: 8,
        addr: BSS,
        mem_size: 8,
    },
    Segment {
        kind: NOTE,
        flags: 0,
        offset: FIRST + 88,
        file_size: 80,
        addr: 0,
        mem_size: 0,
    },
];

/// A core of an interpreter with one thread of id 0x7f00 and no frames.
pub(crate) fn core(alloc: Global) -> Result<Vec<u8>, AllocError> {
    let mut bytes = Vec::new(alloc);
    push_words(&mut bytes, &CORE_HEADER)?;
    for segment in &SEGMENTS {
        push_segment(&mut bytes, segment)?;
    }
    push_words(&mut bytes, &[0, THREAD])?;
    push_words(&mut bytes, &[0, 0, INTERPRETER, 0, 0x7f00, 0, 0, 0])?;
    push_words(&mut bytes, &[INTERPRETER])?;
    push_file_table(&mut bytes)?;
    Ok(bytes)
}

/// The image of the program: a segment of code, and a bss of one word.
pub(crate) fn image(alloc: Global) -> Result<Vec<u8>, AllocError> {
    let mut bytes = Vec::new(alloc);
    push_words(&mut bytes, &IMAGE_HEADER)?;
    let code = Segment {
        kind: LOAD,
        flags: CODE_FLAGS,
        offset: 0,
        file_size: 0,
        addr: CODE,
        mem_size: PAGE,
    };
    push_segment(&mut bytes, &code)?;
    bytes.extend_from_slice(b"\0.bss\0.shstrtab\0")?;
    for (name, kind, addr, offset, size) in [(1, NO_BITS, BSS, 0, 8), (6, STRINGS, 0, 120, 16)] {
        push_halves(&mut bytes, &[name, kind])?;
        push_words(&mut bytes, &[0, addr, offset, size, 0, 0, 0])?;
    }
    Ok(bytes)
}
