//! What is read in a file, line by line, for comparison with other readers: `listing elf FILE [ADDR SIZE]`,
//! `listing frames FILE [STEP [MOST]]`, `listing maps FILE`, `listing footprint LAYOUTS CORE [PATH=FILE]..` and
//! `listing reads LAYOUTS MOST CORE [PATH=FILE]..`, `listing types LAYOUTS RECORDS CORE [PATH=FILE]..` and
//! `listing coroutines LAYOUTS RECORDS ADDR[,ADDR].. CORE [PATH=FILE]..`; and the files of programs that are built:
//! `listing built LAYOUTS VERSION MACHINE PART SEED` or `.. PART THREADS FRAMES OWNER ARGS [NAME=VALUE]..`.
//!
//! Of an ELF file the machine, each segment, each section, each symbol and the build id have a line; with
//! ADDR and SIZE, decimal numbers, also what the file says as an image that is mapped there. Of its call frames each
//! entry has a line, or each STEP-th, with its first address, how many it covers and the register of the return
//! address, and behind it each row with the first address at which it holds, among the first MOST of the entry: the
//! CFA, and the rules of registers by their numbers (`c-8` is saved at the CFA less 8, `v-8` is that address, `r3` is
//! in register 3, `u` lost, `s` the same, `exp` and `vexp` what an expression says). Of maps text, which is read as
//! that of the process 1, each line has one. All these numbers are decimal. A name that is no text is `?`, and `-`
//! stands for none. Of a core each read of its stacks, by a layout file and the files that its process had mapped, has
//! a line in order: the start and the size of the range, in hexadecimal digits. Or one line says whether there is a
//! report, and that it took MOST reads or fewer, or how many. Of its types each that is looked for has a line: its
//! name, its address in hexadecimal digits, and `code` or `module`, by how it was found; or that it is not there, or
//! could not be read. Of each object at an address of its process, in hexadecimal digits, the chain of what awaits what
//! from there on: `chain ADDR`, for each member a line `member ADDR KIND STATE LINE FUNCTION FILE`, where `-` stands
//! for no frame, and `end` with how it ends.
//!
//! A program that is built is that of a seed, or has so many threads, of ids from 32512 on, of so many frames each, all
//! with the same locals, of which the first so many are arguments. A VALUE is a number, a text, or `[` and items with
//! blanks between them, each a number or a text. The thread with the number OWNER, counted from 0, holds the lock;
//! where OWNER is no number none does. The machine is `x86-64`, `aarch64` or `other`. The part is `core` or `image`,
//! whose bytes are written, or `places`, the addresses of the interpreter and the lock. Where nothing is built, one
//! line says why.
//!
//! This is a tool of the repository, and no command of `pystacks`.
#![tactic(auto)]

mod built;
mod coroutines_file;
mod elf_file;
mod footprint;
mod frames_file;
mod maps_file;
mod reads;
mod types_file;

use built::list_built;
use coroutines_file::list_coroutines;
use elf_file::list_elf;
use footprint::list_footprint;
use frames_file::list_frames;
use maps_file::list_maps;
use reads::list_reads;
use std::alloc::Global;
use std::env::Env;
use std::io::{BufWriter, Write};
use std::process::ExitCode;
use std::rt::Files;
use std::{env, fs, io};
use types_file::list_types;

/// The words after the program's name.
fn words<R: Env + Alloc<A = Global>>(rt: &R) -> io::Result<Vec<String>> {
    let mut words = Vec::new(rt.alloc());
    for word in env::args(rt)?.skip(1) {
        words.push(word)?;
    }
    Ok(words)
}

/// The map that the words name, an address and a size.
fn map_of(words: &[String]) -> Option<(u64, u64)> {
    let [addr, size] = words else {
        return None;
    };
    Some((addr.as_str().parse().ok()?, size.as_str().parse().ok()?))
}

/// A number that words name at a place, and another where they name none there.
fn number_of(words: &[String], at: usize, other: u64) -> u64 {
    match words.get(at) {
        Some(word) => word.as_str().parse().unwrap_or(other),
        None => other,
    }
}

fn run<R: Env + Files + Print + Alloc<A = Global>>(rt: &R) -> io::Result<()> {
    let words = words(rt)?;
    let [kind, path, rest @ ..] = words.as_slice() else {
        return Ok(());
    };
    let bytes = fs::read(rt, path.as_str())?;
    let mut out = BufWriter::new(rt.alloc(), io::writer(rt))?;
    match kind.as_str() {
        "elf" => list_elf(&mut out, rt.alloc(), &bytes, map_of(rest))?,
        "frames" => {
            let step = number_of(rest, 0, 1) as usize;
            list_frames(&mut out, &bytes, step, number_of(rest, 1, u64::MAX))?
        },
        "maps" => list_maps(&mut out, rt.alloc(), &bytes)?,
        "footprint" => list_footprint(&mut out, rt, &bytes, rest)?,
        "reads" => list_reads(&mut out, rt, &bytes, rest)?,
        "types" => list_types(&mut out, rt, &bytes, rest)?,
        "coroutines" => list_coroutines(&mut out, rt, &bytes, rest)?,
        "built" => list_built(&mut out, rt.alloc(), &bytes, rest)?,
        _ => writeln!(out, "refused")?,
    }
    out.flush()
}

fn main(rt: HostRuntime) -> ExitCode {
    match run(&rt) {
        Ok(()) => ExitCode::from(0),
        Err(_) => ExitCode::from(1),
    }
}
