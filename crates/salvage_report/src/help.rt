//! The help and the version of the program.
ghost use Rattle.std.specs.Prelude.{◌≡◌, IfOk};
ghost use Rattle.salvage_report.specs.Texts.{help_text, program_version};

use std::alloc::{AllocError, Global};

/// The help.
const HELP: &str = "\
pysalvage CORE --layouts FILE [--records FILE] [-n N] [-l].. [-j] [--signal] [--registers]
          [--missing] [--check-layout] [--names] [--tasks] [--exceptions] [--waits]
          [--native [--strict] [--crashed]] [--heap] [PATH=FILE]..

What is left of the Python stacks in the core of a broken process, or in one that was cut: each chain of threads and
frames as far as it goes. Where no mark stands a chain is whole.

CORE            the core's file
--layouts FILE  the layout file
--records FILE  where the fields are that sections need beyond the layouts
-n N            the first N frames of a thread and the last N, from 1 to 4096; 100 unless it is said
-l              the locals of each frame with their values; more of each value by each more, up to five
-j              JSON in place of text
--signal        how the signal came about
--registers     the registers of each thread, and which of Python's threads it is
--missing       in JSON, which ranges were asked for and are not in memory
--check-layout  whether the process itself says that the layout is its own
--names         the names of the threads, of each interpreter
--tasks         the tasks of asyncio, of each interpreter: where they stand and what they wait for
--exceptions    the exceptions that each thread raises and handles, with their tracebacks
--waits         what each thread waits for: a lock and its owner, the interpreter's lock, or a queue
--native        the native stack of each thread, in one with its Python frames
--strict        native stacks without guesses
--crashed       the native stack of the thread that got the signal alone
--heap          the objects of each class that the collector tracks, and their bytes
PATH=FILE       FILE is read in place of the file that the process had mapped from PATH
--help          this text
--version       the version of the program
";

/// The help, as bytes.
pub(crate) fn help(alloc: Global) -> Result<Vec<u8>, AllocError>
    ensures { IfOk result (λ text. text.items ≡ help_text) }
{
    let mut text = Vec::new(alloc);
    text.extend_from_slice(HELP.as_bytes())?;
    Ok(text)
}

/// The version of the program, as bytes.
pub(crate) fn program_version(alloc: Global) -> Result<Vec<u8>, AllocError>
    ensures { IfOk result (λ text. text.items ≡ program_version) }
{
    let mut text = Vec::new(alloc);
    text.extend_from_slice(b"pysalvage 1.0.0\n")?;
    Ok(text)
}
