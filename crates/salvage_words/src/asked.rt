//! What the words of `pysalvage` ask for.
ghost use Rattle.std.specs.Prelude.{◌≡◌, Some, codes, option_map};
ghost use Rattle.clap.specs.Words.{first_of, found_of, rows_of};
ghost use Rattle.core_words.specs.Answers.{AnswersWords};
ghost use Rattle.core_words.specs.Words.{texts};
ghost use Rattle.salvage_words.specs.Salvage.{is_alone, salvage_found, salvage_words, sections_of, words_asked};
ghost use Rattle.salvage_words.specs.Seen.{asked_by, asked_salvage};

use crate::limit::limit_of;
use crate::taken::salvage_matches;
use clap::ArgMatches;
use core_words::{ArgsError, images_given, is_set, option_value_of};
use elf64_core::Name;
use std::alloc::Global;

/// Which sections are asked for: what else is told of the process, each by a flag of its own.
#[derive(Clone, Copy, Debug)]
pub struct Sections {
    /// `--signal`: what the record of the signal tells.
    pub signal: bool,
    /// `--registers`: the registers of each thread, and which of Python's threads it is.
    pub registers: bool,
    /// `--missing`: which reads were refused, since their bytes are not in memory.
    pub missing: bool,
    /// `--check-layout`: what the process says of the layout.
    pub check_layout: bool,
    /// `--names`: the names of the threads, by each interpreter's own module.
    pub names: bool,
    /// `--tasks`: the tasks of asyncio, of each interpreter.
    pub tasks: bool,
    /// `--exceptions`: what each thread raises and handles.
    pub exceptions: bool,
    /// `--waits`: what each thread waits for.
    pub waits: bool,
    /// `--native`: the native stack of each thread.
    pub native: bool,
    /// `--strict`: native stacks without guesses.
    pub strict: bool,
    /// `--crashed`: native stacks of the thread that got the signal alone.
    pub crashed: bool,
    /// `--heap`: the objects of each class that the collector tracks.
    pub heap: bool,
}

/// What is asked for of a core.
#[derive(Debug, Drop)]
pub struct SalvageWords {
    /// The core's file.
    pub core: Name,
    /// The layout file.
    pub layouts: Name,
    /// The file of records, where one is named.
    pub records: Option<Name>,
    /// How many frames of a thread are shown first, and how many last: from 1 to 4096.
    pub limit: usize,
    /// How often locals were asked for, at most 255.
    pub locals: u64,
    /// Whether JSON was.
    pub json: bool,
    /// Which sections were.
    pub sections: Sections,
    /// The path at which the process had a file mapped, and the name of such a file, by each image's word, in
    /// order.
    pub images: Vec<(Name, Name)>,
}

/// What the words ask for.
#[derive(Debug, Drop)]
pub enum Asked {
    /// The help.
    Help,
    /// The version of the program.
    Version,
    /// What is left of a core.
    Salvage(SalvageWords),
}

/// Whether the words after the program's name are this one alone.
fn is_alone(words: &[String], word: &str) -> bool
    ensures { result ≡ is_alone word.now (texts words.now) }
{
    match words {
        [_, only] => only.as_str() == word,
        _ => false,
    }
}

/// The value of an option, where it was given.
fn option_text<'a>(matches: &ArgMatches<'a>, name: &str) -> Option<&'a str>
    ensures { option_map (λ text. text.now) result ≡ first_of name.now (rows_of (found_of matches.now)) }
{
    matches.get_str(name)
}

/// The name of the file of records, where one was given.
fn records_of(alloc: Global, matches: &ArgMatches<'_>) -> Result<Option<Name>, ArgsError>
    ensures { AnswersWords (λ name. name) (Some (first_of (codes "records") (rows_of (found_of matches.now)))) result }
{
    match option_text(matches, "records") {
        Some(name) => Ok(Some(Name::of(alloc, name.as_bytes())?)),
        None => Ok(None),
    }
}

/// The sections that are asked for, by what clap found.
fn sections_by(matches: &ArgMatches<'_>) -> Sections
    ensures { result ≡ sections_of (rows_of (found_of matches.now)) }
{
    Sections {
        signal: is_set(matches, "signal"),
        registers: is_set(matches, "registers"),
        missing: is_set(matches, "missing"),
        check_layout: is_set(matches, "check-layout"),
        names: is_set(matches, "names"),
        tasks: is_set(matches, "tasks"),
        exceptions: is_set(matches, "exceptions"),
        waits: is_set(matches, "waits"),
        native: is_set(matches, "native"),
        strict: is_set(matches, "strict"),
        crashed: is_set(matches, "crashed"),
        heap: is_set(matches, "heap"),
    }
}

/// What is asked for of a core, by what clap found.
fn salvage_by(alloc: Global, matches: &ArgMatches<'_>) -> Result<SalvageWords, ArgsError>
    ensures { AnswersWords asked_salvage (salvage_found (rows_of (found_of matches.now))) result }
{
    let Some(limit) = limit_of(option_text(matches, "frames")) else {
        return Err(ArgsError::Refused);
    };
    let core = option_value_of(alloc, matches, "core")?;
    let layouts = option_value_of(alloc, matches, "layouts")?;
    let records = records_of(alloc, matches)?;
    let images = images_given(alloc, matches)?;
    Ok(SalvageWords {
        core,
        layouts,
        records,
        limit,
        locals: u64::from(matches.get_count("locals")),
        json: is_set(matches, "json"),
        sections: sections_by(matches),
        images,
    })
}

/// What is asked for of a core by the words.
fn salvage_words(alloc: Global, words: &[String]) -> Result<SalvageWords, ArgsError>
    ensures { AnswersWords asked_salvage (salvage_words (texts words.now)) result }
{
    let matches = salvage_matches(alloc, words)?;
    salvage_by(alloc, &matches)
}

/// What the words ask for: `CORE --layouts FILE [--records FILE] [-n N] [-l].. [-j] [--signal] [--registers]
/// [--missing] [--check-layout] [--names] [--tasks] [--exceptions] [--waits] [--native] [--strict] [--crashed]
/// [--heap] [PATH=FILE]..` behind the program's name, of which nothing is read; or `--help` or `--version` alone.
///
/// Clap takes the words, in any order that it knows: the core's file; `--layouts` with a value, once; `--records` with
/// one, at most once; `-n` or `--frames` with a value, at most once, a number from 1 to 4096 in decimal digits (100
/// unless it is said); `-j` or `--json`, and each section's flag, at most once; `-l` or `--locals`, any number of
/// times; and the images, none or more, each with a path, the first equals sign, and the name of a file. A bundle as
/// `-lj` and `--layouts=FILE` are taken, and behind `--` each word is the core's or an image's.
///
/// - `Refused` exactly where clap does not take the words for that command, the number is none of these, or a word of
///   an image has no equals sign.
/// - `OutOfMemory` where there was no memory left.
pub fn read_words(alloc: Global, words: &[String]) -> Result<Asked, ArgsError>
    ensures { AnswersWords asked_by (words_asked (texts words.now)) result }
{
    if is_alone(words, "--help") {
        return Ok(Asked::Help);
    }
    if is_alone(words, "--version") {
        return Ok(Asked::Version);
    }
    Ok(Asked::Salvage(salvage_words(alloc, words)?))
}
