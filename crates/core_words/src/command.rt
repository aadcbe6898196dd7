//! What words ask for.
ghost use Rattle.std.specs.Prelude.{IfOk, option_map};
ghost use Rattle.core_words.specs.Answers.{AnswersWords};
ghost use Rattle.core_words.specs.Words.{HasFewCores, command_of, locate, locate_words, merge, merge_words, reach};
ghost use Rattle.core_words.specs.Words.{reach_words, sample_words, seeded, slim, slim_words, texts, triage};
ghost use Rattle.core_words.specs.Words.{triage_words, walk, walk_words};
ghost use Rattle.core_words.specs.Seen.{asked_command};

use crate::args_error::ArgsError;
use crate::dump::{DumpWords, config_from_args};
use crate::locate::{LocateWords, locate_words};
use crate::merge::{MergeWords, merge_words};
use crate::reach::{ReachWords, reach_words};
use crate::sample::{SampleWords, sample_words};
use crate::slim::{SlimWords, slim_words};
use crate::triage::{TriageWords, triage_words};
use crate::walk::{WalkWords, walk_words};
use std::alloc::Global;

/// What words ask for.
#[derive(Drop)]
pub enum Command<'a> {
    /// The stacks of a core, by handed-in addresses.
    Walk(WalkWords<'a>),
    /// The report of a core.
    Dump(DumpWords),
    /// Cores in groups by their stacks.
    Triage(TriageWords<'a>),
    /// What the locals of a thread of a core lead to.
    Reach(ReachWords<'a>),
    /// The frames of a thread of a core, merged with native addresses.
    Merge(MergeWords<'a>),
    /// Where the interpreter of the process of a core is.
    Locate(LocateWords<'a>),
    /// A core of what the stacks of another one need.
    Slim(SlimWords<'a>),
    /// What is shown of a program that is made up, or its core.
    Sample(SampleWords),
}

/// What the words ask for, the first of which is the command's name: `walk CORE LAYOUTS VERSION INTERP LOCK`,
/// `triage LAYOUTS CORE.. [PATH=FILE]..`, `reach CORE LAYOUTS INDEX [PATH=FILE]..`,
/// `merge CORE LAYOUTS INDEX ADDRESSES [PATH=FILE]..`, `locate CORE LAYOUTS [PATH=FILE]..`,
/// `slim CORE LAYOUTS LEVEL [PATH=FILE]..`, `sample N`, `sample N core`, or the words of a report, as
/// `config_from_args` takes them.
///
/// Of a walk `LAYOUTS` is `sample`, for `py_fields::Layout::sample`, or else the name of a layout file. `VERSION` is
/// three runs of 1 to 3 decimal digits joined by dots. `INTERP` and `LOCK` are 1 to 20 decimal digits, or
/// `0x` and 1 to 16 hexadecimal digits of either case, of a number below 2^64.
///
/// Of `triage` the cores are the words before the first with an equals sign, 1 to 4096 of them; of `reach` and
/// `merge` `INDEX` is a number as `INTERP` is, of `slim` `LEVEL`, of `sample` `N`. Behind the others each word is an
/// image's: a path, the first equals sign, and the name of a file.
///
/// - `Refused` exactly where the words are no such words.
/// - `OutOfMemory` where there was no memory left.
pub fn read_words(alloc: Global, words: &[String]) -> Result<Command<'_>, ArgsError>
    ensures words { AnswersWords asked_command (command_of (texts words.now)) result }
    ensures few { IfOk result (λ command. HasFewCores (asked_command command)) }
{
    let [name, rest @ ..] = words else {
        return Err(ArgsError::Refused);
    };
    if name.as_str() == "walk" {
        return walk_command(rest);
    }
    if name.as_str() == "triage" {
        return triage_command(alloc, rest);
    }
    if name.as_str() == "reach" {
        return reach_command(alloc, rest);
    }
    if name.as_str() == "merge" {
        return merge_command(alloc, rest);
    }
    if name.as_str() == "locate" {
        return locate_command(alloc, rest);
    }
    if name.as_str() == "slim" {
        return slim_command(alloc, rest);
    }
    if name.as_str() == "sample" {
        return sample_command(rest);
    }
    match config_from_args(alloc, words) {
        Ok(words) => Ok(Command::Dump(words)),
        Err(error) => Err(error),
    }
}

/// A walk, by the words behind its name.
fn walk_command(words: &[String]) -> Result<Command<'_>, ArgsError>
    ensures { AnswersWords asked_command (option_map (λ w. walk w) (walk_words (texts words.now))) result }
{
    match walk_words(words) {
        Some(words) => Ok(Command::Walk(words)),
        None => Err(ArgsError::Refused),
    }
}

/// Cores in groups, by the words behind the name.
fn triage_command(alloc: Global, words: &[String]) -> Result<Command<'_>, ArgsError>
    ensures { AnswersWords asked_command (option_map (λ t. triage t) (triage_words (texts words.now))) result }
{
    match triage_words(alloc, words) {
        Ok(words) => Ok(Command::Triage(words)),
        Err(error) => Err(error),
    }
}

/// What a thread's locals lead to, by the words behind the name.
fn reach_command(alloc: Global, words: &[String]) -> Result<Command<'_>, ArgsError>
    ensures { AnswersWords asked_command (option_map (λ r. reach r) (reach_words (texts words.now))) result }
{
    match reach_words(alloc, words) {
        Ok(words) => Ok(Command::Reach(words)),
        Err(error) => Err(error),
    }
}

/// A thread merged with native addresses, by the words behind the name.
fn merge_command(alloc: Global, words: &[String]) -> Result<Command<'_>, ArgsError>
    ensures { AnswersWords asked_command (option_map (λ m. merge m) (merge_words (texts words.now))) result }
{
    match merge_words(alloc, words) {
        Ok(words) => Ok(Command::Merge(words)),
        Err(error) => Err(error),
    }
}

/// Where the interpreter is, by the words behind the name.
fn locate_command(alloc: Global, words: &[String]) -> Result<Command<'_>, ArgsError>
    ensures { AnswersWords asked_command (option_map (λ l. locate l) (locate_words (texts words.now))) result }
{
    match locate_words(alloc, words) {
        Ok(words) => Ok(Command::Locate(words)),
        Err(error) => Err(error),
    }
}

/// A slim core, by the words behind the name.
fn slim_command(alloc: Global, words: &[String]) -> Result<Command<'_>, ArgsError>
    ensures { AnswersWords asked_command (option_map (λ s. slim s) (slim_words (texts words.now))) result }
{
    match slim_words(alloc, words) {
        Ok(words) => Ok(Command::Slim(words)),
        Err(error) => Err(error),
    }
}

/// A program that is made up, by the words behind the name.
fn sample_command<'a>(words: &'a [String]) -> Result<Command<'a>, ArgsError>
    ensures { AnswersWords asked_command (option_map (λ s. seeded s) (sample_words (texts words.now))) result }
{
    match sample_words(words) {
        Some(words) => Ok(Command::Sample(words)),
        None => Err(ArgsError::Refused),
    }
}
