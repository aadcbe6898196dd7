//! Arguments that several commands have, and what clap finds in words.
ghost use Rattle.std.specs.Prelude.{◌≡◌, ◌↔◌, false, true};
ghost use Rattle.clap.specs.Words.{app_of, found_of, is_simple_and_free, rows_of, rule_of};
ghost use Rattle.core_words.specs.Answers.{AnswersWords};
ghost use Rattle.core_words.specs.Dump.{flag_rule, images_rule, locals_rule, rows_taken, wanted_rule};
ghost use Rattle.core_words.specs.Words.{texts};

use crate::args_error::ArgsError;
use clap::error::ErrorKind;
use clap::{Arg, ArgAction, ArgMatches, Command};
use std::alloc::Global;

/// A flag, with a letter where it has one: `--NAME`, at most once.
pub fn flag<'a>(alloc: Global, name: &'a str, short: Option<char>) -> Arg<'a>
    ensures rule { rule_of result ≡ flag_rule name.entry.now short }
    ensures local { result.global ≡ false }
{
    let arg = Arg::new(alloc, name).long(name).action(ArgAction::SetTrue);
    match short {
        Some(letter) => arg.short(letter),
        None => arg,
    }
}

/// An option that must be given, with a letter where it has one: `--NAME VALUE`, once.
pub fn wanted<'a>(alloc: Global, name: &'a str, short: Option<char>) -> Arg<'a>
    ensures rule { rule_of result ≡ wanted_rule name.entry.now short }
    ensures local { result.global ≡ false }
{
    let arg = Arg::new(alloc, name)
        .long(name)
        .required(true)
        .action(ArgAction::Set);
    match short {
        Some(letter) => arg.short(letter),
        None => arg,
    }
}

/// `-l` or `--locals`, any number of times, which is counted.
pub fn locals_arg<'a>(alloc: Global) -> Arg<'a>
    ensures rule { rule_of result ≡ locals_rule }
    ensures local { result.global ≡ false }
{
    Arg::new(alloc, "locals")
        .short('l')
        .long("locals")
        .action(ArgAction::Count)
}

/// The words of images, none or more.
pub fn images_arg<'a>(alloc: Global) -> Arg<'a>
    ensures rule { rule_of result ≡ images_rule }
    ensures local { result.global ≡ false }
{
    Arg::new(alloc, "images")
        .num_args(0..)
        .action(ArgAction::Append)
}

/// What clap finds in the words by a command of plain arguments (`is_simple_and_free` is clap's own word for them). It
/// reads none of the first word, which stands for a program's name.
///
/// - `Refused` exactly where clap does not take the words for that command.
/// - `OutOfMemory` where there was no memory left.
pub fn matches_in<'a>(
    command: Command<'a>,
    words: &'a [String],
) -> Result<ArgMatches<'a>, ArgsError>
    ensures { is_simple_and_free (app_of command.entry) ≡ true
        → AnswersWords (λ matches. rows_of (found_of matches))
        (rows_taken (app_of command.entry) (texts words.now)) result }
{
    match command.try_get_matches_from(words) {
        Ok(matches) => Ok(matches),
        Err(error) => Err(refusal(error.kind())),
    }
}

/// Why clap took no words.
fn refusal(kind: ErrorKind) -> ArgsError
    ensures memory { (result ≡ ArgsError.OutOfMemory) ↔ (kind ≡ ErrorKind.OutOfMemory) }
{
    match kind {
        ErrorKind::OutOfMemory => ArgsError::OutOfMemory,
        _ => ArgsError::Refused,
    }
}
