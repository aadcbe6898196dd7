//! The words of a thread merged with native addresses: `merge CORE LAYOUTS INDEX ADDRESSES [PATH=FILE]..`.
ghost use Rattle.std.specs.Prelude.{◌≡◌};
ghost use Rattle.core_words.specs.Answers.{AnswersWords};
ghost use Rattle.core_words.specs.Seen.{asked_merge};
ghost use Rattle.core_words.specs.Words.{merge_words, texts};

use crate::args_error::ArgsError;
use crate::found::images_in;
use crate::numbers::word_number;
use elf64_core::Name;
use std::alloc::Global;

/// The words of a thread merged with native addresses.
#[derive(Drop)]
pub struct MergeWords<'a> {
    /// The core's file.
    pub core: &'a str,
    /// The layout file.
    pub layouts: &'a str,
    /// The thread, from 0 on, in the order of the report.
    pub index: u64,
    /// The file of the addresses.
    pub addresses: &'a str,
    /// The path at which the process had a file mapped, and the name of such a file, by each image's word, in
    /// order.
    pub images: Vec<(Name, Name)>,
}

/// `CORE LAYOUTS INDEX ADDRESSES [PATH=FILE]..`
pub(crate) fn merge_words(alloc: Global, words: &[String]) -> Result<MergeWords<'_>, ArgsError>
    ensures { AnswersWords asked_merge (merge_words (texts words.now)) result }
{
    let [core, layouts, index, addresses, rest @ ..] = words else {
        return Err(ArgsError::Refused);
    };
    let Some(index) = word_number(index.as_str()) else {
        return Err(ArgsError::Refused);
    };
    let images = images_in(alloc, rest)?;
    Ok(MergeWords {
        core: core.as_str(),
        layouts: layouts.as_str(),
        index,
        addresses: addresses.as_str(),
        images,
    })
}
