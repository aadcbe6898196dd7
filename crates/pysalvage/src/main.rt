//! What is left of the Python stacks in the core of a broken process: `pysalvage CORE --layouts FILE [-n N] [-l].. [-j]
//! [PATH=FILE]..`.
//!
//! The text goes to the standard output, a line why there is none to the standard error. The exit status is that of
//! `salvage_report::run`.
#![tactic(auto)]

use outside::{RealFiles, RealSink, Sink};
use program_run::command_words;
use std::io;
use std::process::ExitCode;

fn main(rt: HostRuntime) -> ExitCode {
    let alloc = rt.alloc();
    let mut out = RealSink::new(io::writer(&rt));
    let mut err = RealSink::new(rt.stderr());
    // The words, the program's name first.
    let Ok(words) = command_words(&rt, 0) else {
        // As under every status, a fault of this stream changes nothing.
        let _ = err.write(b"pysalvage: out of memory\n");
        return ExitCode::from(5);
    };
    let mut files = RealFiles::new(alloc, &rt);
    ExitCode::from(salvage_report::run(alloc, &words, &mut files, &mut out, &mut err))
}
