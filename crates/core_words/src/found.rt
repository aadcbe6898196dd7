//! What clap found in words, and the words of images.
ghost use Rattle.std.specs.Prelude.{◌≡◌, map, option_map, Some};
ghost use Rattle.clap.specs.Words.{found_of, rows_of};
ghost use Rattle.core_words.specs.Answers.{AnswersWords};
ghost use Rattle.core_words.specs.Dump.{image_words, images_of, is_set, option_value_of, split_image};
ghost use Rattle.core_words.specs.Words.{texts};

use crate::args_error::ArgsError;
use clap::ArgMatches;
use elf64_core::Name;
use std::alloc::Global;

/// Whether a flag was given.
pub fn is_set(matches: &ArgMatches<'_>, name: &str) -> bool
    ensures { result ≡ is_set name.now (rows_of (found_of matches.now)) }
{
    match matches.get_str(name) {
        Some(value) => value == "true",
        None => false,
    }
}

/// The value of an argument that must be given, as a file's name; empty where clap found none. `OutOfMemory` where
/// there was no memory left.
pub fn option_value_of(
    alloc: Global,
    matches: &ArgMatches<'_>,
    name: &str,
) -> Result<Name, ArgsError>
    ensures { AnswersWords (λ value. value) (Some (option_value_of name.now (rows_of (found_of matches.now)))) result }
{
    let value = option_text(matches, name);
    Ok(Name::of(alloc, value.as_bytes())?)
}

/// The same, as text.
fn option_text<'a>(matches: &ArgMatches<'a>, name: &str) -> &'a str
    ensures { result.now ≡ option_value_of name.now (rows_of (found_of matches.now)) }
{
    match matches.get_str(name) {
        Some(value) => value,
        None => "",
    }
}

/// The images that were given: each path, and the name of the file that stands for it.
///
/// - `Refused` exactly where a word of an image has no equals sign.
/// - `OutOfMemory` where there was no memory left.
pub fn images_given(alloc: Global, matches: &ArgMatches<'_>) -> Result<Vec<(Name, Name)>, ArgsError>
    ensures { AnswersWords (λ images. images.items) (images_of (image_words (rows_of (found_of matches.now)))) result }
{
    images_of(alloc, image_words(matches))
}

/// The words of images.
fn image_words<'m>(matches: &'m ArgMatches<'_>) -> &'m [&'m str]
    ensures { map (λ word. word.now) result.now ≡ image_words (rows_of (found_of matches.now)) }
{
    let Some(words) = matches.get_strs("images") else {
        return &[];
    };
    words
}

/// The images of the words of a command that is read by hand; `Refused` where one of them has no equals sign.
pub(crate) fn images_in(alloc: Global, words: &[String]) -> Result<Vec<(Name, Name)>, ArgsError>
    ensures { AnswersWords (λ images. images.items) (images_of (texts words.now)) result }
{
    let mut texts = Vec::new(alloc);
    for word in words {
        texts.push(word.as_str())?;
    }
    images_of(alloc, &texts)
}

/// The images of some words; `Refused` where one of them has no equals sign.
fn images_of(alloc: Global, words: &[&str]) -> Result<Vec<(Name, Name)>, ArgsError>
    ensures { AnswersWords (λ images. images.items) (images_of (map (λ word. word.now) words.now)) result }
{
    let mut images = Vec::new(alloc);
    for word in words {
        let Some((path, file)) = split_image(word) else {
            return Err(ArgsError::Refused);
        };
        let path = Name::of(alloc, path.as_bytes())?;
        let file = Name::of(alloc, file.as_bytes())?;
        images.push((path, file))?;
    }
    Ok(images)
}

/// The path and the file's name, round the first equals sign.
pub(crate) fn split_image(word: &str) -> Option<(&str, &str)>
    ensures { option_map (λ parts. (parts.0.now, parts.1.now)) result ≡ split_image word.now }
{
    word.split_once('=')
}
