//! The words of a slim core: `slim CORE LAYOUTS LEVEL [PATH=FILE]..`.
ghost use Rattle.std.specs.Prelude.{◌≡◌};
ghost use Rattle.core_words.specs.Answers.{AnswersWords};
ghost use Rattle.core_words.specs.Seen.{asked_slim};
ghost use Rattle.core_words.specs.Words.{slim_words, texts};

use crate::args_error::ArgsError;
use crate::found::images_in;
use crate::numbers::word_number;
use elf64_core::Name;
use std::alloc::Global;

/// The words of a slim core.
#[derive(Drop)]
pub struct SlimWords<'a> {
    /// The core's file.
    pub core: &'a str,
    /// The layout file.
    pub layouts: &'a str,
    /// How much of the locals' values the slim core has: the `dump_locals` of a `py_stacks::Config`.
    pub level: u64,
    /// The path at which the process had a file mapped, and the name of such a file, by each image's word, in
    /// order.
    pub images: Vec<(Name, Name)>,
}

/// `CORE LAYOUTS LEVEL [PATH=FILE]..`
pub(crate) fn slim_words(alloc: Global, words: &[String]) -> Result<SlimWords<'_>, ArgsError>
    ensures { AnswersWords asked_slim (slim_words (texts words.now)) result }
{
    let [core, layouts, level, rest @ ..] = words else {
        return Err(ArgsError::Refused);
    };
    let Some(level) = word_number(level.as_str()) else {
        return Err(ArgsError::Refused);
    };
    let images = images_in(alloc, rest)?;
    Ok(SlimWords {
        core: core.as_str(),
        layouts: layouts.as_str(),
        level,
        images,
    })
}
