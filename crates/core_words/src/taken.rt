//! The words of a report, as clap takes them.
ghost use Rattle.std.specs.Prelude.{◌≡◌, IfOk};
ghost use Rattle.clap.specs.Words.{app_of, found_of, rows_of};
ghost use Rattle.core_words.specs.Answers.{AnswersWords};
ghost use Rattle.core_words.specs.Dump.{dump_app, taken_rows};
ghost use Rattle.core_words.specs.Words.{texts};

use crate::args_error::ArgsError;
use crate::arguments::{flag, images_arg, locals_arg, matches_in, wanted};
use clap::{ArgMatches, Command};
use std::alloc::{AllocError, Global};

/// The command, as clap is told of it.
fn dump_command<'a>(alloc: Global) -> Result<Command<'a>, AllocError>
    ensures { IfOk result (λ command. app_of command ≡ dump_app) }
{
    Command::new(alloc, "dump")
        .arg(wanted(alloc, "core", Some('c')))?
        .arg(wanted(alloc, "layouts", None))?
        .arg(locals_arg(alloc))?
        .arg(flag(alloc, "json", Some('j')))?
        .arg(flag(alloc, "full-filenames", None))?
        .arg(flag(alloc, "native", Some('n')))?
        .arg(flag(alloc, "subprocesses", Some('s')))?
        .arg(images_arg(alloc))
}

/// What clap finds in the words, of which it reads none of the first; `Refused` exactly where it does not take
/// them, unless memory runs out.
pub(crate) fn dump_matches<'a>(
    alloc: Global,
    words: &'a [String],
) -> Result<ArgMatches<'a>, ArgsError>
    ensures { AnswersWords (λ matches. rows_of (found_of matches)) (taken_rows (texts words.now)) result }
{
    let command = dump_command(alloc)?;
    matches_in(command, words)
}
