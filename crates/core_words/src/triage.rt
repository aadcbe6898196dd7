//! The words of cores in groups: `triage LAYOUTS CORE.. [PATH=FILE]..`.
ghost use Rattle.std.specs.Prelude.{◌≡◌, ◌≤◌, length};
ghost use Rattle.std.specs.List.{position_or_len};
ghost use Rattle.core_words.specs.Answers.{AnswersWords};
ghost use Rattle.core_words.specs.Dump.{is_image};
ghost use Rattle.core_words.specs.Seen.{asked_triage};
ghost use Rattle.core_words.specs.Words.{texts, triage_by, triage_words};

use crate::args_error::ArgsError;
use crate::found::{images_in, split_image};
use elf64_core::Name;
use std::alloc::Global;

/// The most cores that are put in groups at once.
const CORE_LIMIT: usize = 4096;

/// The words of cores in groups.
#[derive(Drop)]
pub struct TriageWords<'a> {
    /// The layout file.
    pub layouts: &'a str,
    /// The cores' files, in order: 1 to 4096 of them.
    pub cores: &'a [String],
    /// The path at which the processes had a file mapped, and the name of such a file, by each image's word, in
    /// order.
    pub images: Vec<(Name, Name)>,
}

/// `LAYOUTS CORE.. [PATH=FILE]..`: the cores are the words before the first with an equals sign.
pub(crate) fn triage_words(alloc: Global, words: &[String]) -> Result<TriageWords<'_>, ArgsError>
    ensures { AnswersWords asked_triage (triage_words (texts words.now)) result }
{
    let [layouts, rest @ ..] = words else {
        return Err(ArgsError::Refused);
    };
    triage_by(alloc, layouts.as_str(), rest)
}

/// The same, by the layout file and the words behind it.
fn triage_by<'a>(
    alloc: Global,
    layouts: &'a str,
    words: &'a [String],
) -> Result<TriageWords<'a>, ArgsError>
    ensures { AnswersWords asked_triage
        (triage_by layouts.now (position_or_len is_image (texts words.now)) (texts words.now)) result }
{
    let count = cores_len(words);
    if count == 0 || count > CORE_LIMIT {
        return Err(ArgsError::Refused);
    }
    let (cores, images) = words.split_at(count);
    let images = images_in(alloc, images)?;
    Ok(TriageWords {
        layouts,
        cores,
        images,
    })
}

/// How many words stand before the first that is an image's.
fn cores_len(words: &[String]) -> usize
    ensures within { result ≤ length words.now }
    ensures place { result ≡ position_or_len is_image (texts words.now) }
{
    for (place, word) in words.iter().enumerate() {
        if split_image(word.as_str()).is_some() {
            return place;
        }
    }
    words.len()
}
