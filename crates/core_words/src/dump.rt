//! The words of a report: `dump -c CORE --layouts FILE [OPTION].. [PATH=FILE]..`.
ghost use Rattle.std.specs.Prelude.{◌≡◌};
ghost use Rattle.clap.specs.Words.{found_of, rows_of};
ghost use Rattle.core_words.specs.Answers.{AnswersWords};
ghost use Rattle.core_words.specs.Dump.{config_of, dump_found, dump_words, is_dump, is_dump_name};
ghost use Rattle.core_words.specs.Seen.{asked_dump};
ghost use Rattle.core_words.specs.Words.{texts};

use crate::args_error::ArgsError;
use crate::found::{images_given, is_set, option_value_of};
use crate::taken::dump_matches;
use clap::ArgMatches;
use elf64_core::Name;
use py_stacks::Config;
use std::alloc::Global;

/// The words of a report.
#[derive(Debug, Drop)]
pub struct DumpWords {
    /// What is asked for of the stacks: `native` by `-n`, `subprocesses` by `-s`, `dump_json` by `-j`,
    /// `full_filenames` by `--full-filenames`, and by `-l` as many times as it stands there, at most 255,
    /// `dump_locals`. The rest is as in the default.
    pub config: Config,
    /// The core's file.
    pub core: Name,
    /// The layout file.
    pub layouts: Name,
    /// The path at which the process had a file mapped, and the name of such a file, by each image's word, in
    /// order.
    pub images: Vec<(Name, Name)>,
}

/// The words of a report, the first of which is `dump` or a front of it, of a character or more.
///
/// Clap takes the others, in any order that it knows: `-c` or `--core` and `--layouts`, each with a value and
/// once; the flags `-j` or `--json`, `--full-filenames`, `-n` or `--native`, `-s` or `--subprocesses`, each at
/// most once; `-l` or `--locals`, any number of times; and the images, none or more, each with a path, the first
/// equals sign, and the name of a file. A bundle as `-lj`, `-cCORE` and `--core=CORE` are taken, and behind
/// `--` each word is an image's.
///
/// - `Refused` exactly where clap does not take the words for that command, or a word of an image has no equals
///   sign. So are the words `-h` and `--help`.
/// - `OutOfMemory` where there was no memory left.
pub fn config_from_args(alloc: Global, words: &[String]) -> Result<DumpWords, ArgsError>
    ensures { AnswersWords asked_dump (dump_words (texts words.now)) result }
{
    if !is_dump(words) {
        return Err(ArgsError::Refused);
    }
    let matches = dump_matches(alloc, words)?;
    dump_by(alloc, &matches)
}

/// Whether the first word is `dump`, or a front of it.
fn is_dump(words: &[String]) -> bool
    ensures { result ≡ is_dump (texts words.now) }
{
    match words {
        [name, ..] => is_dump_name(name.as_str()),
        [] => false,
    }
}

fn is_dump_name(name: &str) -> bool
    ensures { result ≡ is_dump_name name.now }
{
    !name.is_empty() && "dump".starts_with(name)
}

/// What is asked for by what clap found.
fn dump_by(alloc: Global, matches: &ArgMatches<'_>) -> Result<DumpWords, ArgsError>
    ensures { AnswersWords asked_dump (dump_found (rows_of (found_of matches.now))) result }
{
    let config = config_of(matches);
    let core = option_value_of(alloc, matches, "core")?;
    let layouts = option_value_of(alloc, matches, "layouts")?;
    let images = images_given(alloc, matches)?;
    Ok(DumpWords {
        config,
        core,
        layouts,
        images,
    })
}

fn config_of(matches: &ArgMatches<'_>) -> Config
    ensures { result ≡ config_of (rows_of (found_of matches.now)) }
{
    Config {
        native: is_set(matches, "native"),
        subprocesses: is_set(matches, "subprocesses"),
        dump_json: is_set(matches, "json"),
        dump_locals: u64::from(matches.get_count("locals")),
        full_filenames: is_set(matches, "full-filenames"),
        ..Config::default()
    }
}
