//! `locate CORE LAYOUTS [PATH=FILE]..`
ghost use Rattle.std.specs.Prelude.{◌≡◌, IfOk};
ghost use Rattle.core_words.specs.Words.{locate};
ghost use Rattle.core_words.specs.Seen.{asked_locate};
ghost use Rattle.core_report.specs.Opening.{locate_text};
ghost use Rattle.core_report.specs.Outcome.{IsAnswer, IsOutcome};
ghost use Rattle.program_run.specs.Reading.{core_contents};

use crate::cause::Cause;
use crate::opened::open_process;
use core_texts::{Part, push_parts};
use core_words::LocateWords;
use program_run::CoreFiles;
use py_layout::Version;
use py_stacks::Addresses;
use std::alloc::{AllocError, Global};

/// The version of Python that ran, and the addresses of its interpreter and of the lock of that.
fn locate_text(
    alloc: Global,
    version: &Version,
    addresses: Addresses,
) -> Result<Vec<u8>, AllocError>
    ensures { IfOk result (λ text. text.items ≡ locate_text version.now addresses) }
{
    let mut text = format!(in alloc; "Python v{version}\n")?.into_bytes();
    push_parts(
        &mut text,
        &[
            Part::Text("Interpreter "),
            Part::Address(addresses.interpreter),
            Part::Text("\nLock "),
            Part::Address(addresses.lock),
            Part::Text("\n"),
        ],
    )?;
    Ok(text)
}

/// The text of where the interpreter is, over what its files hold.
pub(crate) fn locate_over(
    alloc: Global,
    words: &LocateWords<'_>,
    files: CoreFiles,
) -> Result<Vec<u8>, Cause>
    ensures { IsAnswer (IsOutcome (locate (asked_locate words.now)) (core_contents files)) result }
{
    let process = open_process(alloc, &words.images, files)?;
    let text = locate_text(alloc, process.version(), process.addresses())?;
    Ok(text)
}
