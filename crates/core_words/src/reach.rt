//! The words of what a thread's locals lead to: `reach CORE LAYOUTS INDEX [PATH=FILE]..`.
ghost use Rattle.std.specs.Prelude.{◌≡◌};
ghost use Rattle.core_words.specs.Answers.{AnswersWords};
ghost use Rattle.core_words.specs.Seen.{asked_reach};
ghost use Rattle.core_words.specs.Words.{reach_words, texts};

use crate::args_error::ArgsError;
use crate::found::images_in;
use crate::numbers::word_number;
use elf64_core::Name;
use std::alloc::Global;

/// The words of what a thread's locals lead to.
#[derive(Drop)]
pub struct ReachWords<'a> {
    /// The core's file.
    pub core: &'a str,
    /// The layout file.
    pub layouts: &'a str,
    /// The thread, from 0 on, in the order of the report.
    pub index: u64,
    /// The path at which the process had a file mapped, and the name of such a file, by each image's word, in
    /// order.
    pub images: Vec<(Name, Name)>,
}

/// `CORE LAYOUTS INDEX [PATH=FILE]..`
pub(crate) fn reach_words(alloc: Global, words: &[String]) -> Result<ReachWords<'_>, ArgsError>
    ensures { AnswersWords asked_reach (reach_words (texts words.now)) result }
{
    let [core, layouts, index, rest @ ..] = words else {
        return Err(ArgsError::Refused);
    };
    let Some(index) = word_number(index.as_str()) else {
        return Err(ArgsError::Refused);
    };
    let images = images_in(alloc, rest)?;
    Ok(ReachWords {
        core: core.as_str(),
        layouts: layouts.as_str(),
        index,
        images,
    })
}
