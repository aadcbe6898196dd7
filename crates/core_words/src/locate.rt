//! The words of where a process's interpreter is: `locate CORE LAYOUTS [PATH=FILE]..`.
ghost use Rattle.std.specs.Prelude.{◌≡◌};
ghost use Rattle.core_words.specs.Answers.{AnswersWords};
ghost use Rattle.core_words.specs.Seen.{asked_locate};
ghost use Rattle.core_words.specs.Words.{locate_words, texts};

use crate::args_error::ArgsError;
use crate::found::images_in;
use elf64_core::Name;
use std::alloc::Global;

/// The words of where a process's interpreter is.
#[derive(Drop)]
pub struct LocateWords<'a> {
    /// The core's file.
    pub core: &'a str,
    /// The layout file.
    pub layouts: &'a str,
    /// The path at which the process had a file mapped, and the name of such a file, by each image's word, in
    /// order.
    pub images: Vec<(Name, Name)>,
}

/// `CORE LAYOUTS [PATH=FILE]..`
pub(crate) fn locate_words(alloc: Global, words: &[String]) -> Result<LocateWords<'_>, ArgsError>
    ensures { AnswersWords asked_locate (locate_words (texts words.now)) result }
{
    let [core, layouts, rest @ ..] = words else {
        return Err(ArgsError::Refused);
    };
    let images = images_in(alloc, rest)?;
    Ok(LocateWords {
        core: core.as_str(),
        layouts: layouts.as_str(),
        images,
    })
}
