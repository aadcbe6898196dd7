//! The words of `pysalvage`, as clap takes them.
ghost use Rattle.std.specs.Prelude.{◌≡◌, false, IfOk};
ghost use Rattle.clap.specs.Words.{app_of, found_of, rows_of, rule_of};
ghost use Rattle.core_words.specs.Answers.{AnswersWords};
ghost use Rattle.core_words.specs.Words.{texts};
ghost use Rattle.salvage_words.specs.Salvage.{core_rule, frames_rule, records_rule, salvage_app, taken_rows};

use clap::{Arg, ArgAction, ArgMatches, Command};
use core_words::{ArgsError, flag, images_arg, locals_arg, matches_in, wanted};
use std::alloc::{AllocError, Global};

fn core_arg<'a>(alloc: Global) -> Arg<'a>
    ensures rule { rule_of result ≡ core_rule }
    ensures local { result.global ≡ false }
{
    Arg::new(alloc, "core")
        .required(true)
        .action(ArgAction::Set)
}

fn frames_arg<'a>(alloc: Global) -> Arg<'a>
    ensures rule { rule_of result ≡ frames_rule }
    ensures local { result.global ≡ false }
{
    Arg::new(alloc, "frames")
        .short('n')
        .long("frames")
        .action(ArgAction::Set)
}

fn records_arg<'a>(alloc: Global) -> Arg<'a>
    ensures rule { rule_of result ≡ records_rule }
    ensures local { result.global ≡ false }
{
    Arg::new(alloc, "records")
        .long("records")
        .action(ArgAction::Set)
}

/// The command, as clap is told of it.
fn salvage_command<'a>(alloc: Global) -> Result<Command<'a>, AllocError>
    ensures { IfOk result (λ command. app_of command ≡ salvage_app) }
{
    Command::new(alloc, "pysalvage")
        .arg(core_arg(alloc))?
        .arg(wanted(alloc, "layouts", None))?
        .arg(records_arg(alloc))?
        .arg(frames_arg(alloc))?
        .arg(locals_arg(alloc))?
        .arg(flag(alloc, "json", Some('j')))?
        .arg(flag(alloc, "signal", None))?
        .arg(flag(alloc, "registers", None))?
        .arg(flag(alloc, "missing", None))?
        .arg(flag(alloc, "check-layout", None))?
        .arg(flag(alloc, "names", None))?
        .arg(flag(alloc, "tasks", None))?
        .arg(flag(alloc, "exceptions", None))?
        .arg(flag(alloc, "waits", None))?
        .arg(flag(alloc, "native", None))?
        .arg(flag(alloc, "strict", None))?
        .arg(flag(alloc, "crashed", None))?
        .arg(flag(alloc, "heap", None))?
        .arg(images_arg(alloc))
}

/// What clap finds in the words, of which it reads none of the first; `Refused` exactly where it does not take
/// them, unless memory runs out.
pub(crate) fn salvage_matches<'a>(
    alloc: Global,
    words: &'a [String],
) -> Result<ArgMatches<'a>, ArgsError>
    ensures { AnswersWords (λ matches. rows_of (found_of matches)) (taken_rows (texts words.now)) result }
{
    let command = salvage_command(alloc)?;
    matches_in(command, words)
}
