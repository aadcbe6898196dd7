//! The words of a walk: `walk CORE LAYOUTS VERSION INTERP LOCK`.
ghost use Rattle.std.specs.Prelude.{◌≡◌, ◌∷◌, [], option_map};
ghost use Rattle.core_words.specs.Words.{source_of, texts, walk_by, walk_words};
ghost use Rattle.core_words.specs.Seen.{asked_source, asked_version, asked_walk};

use crate::numbers::{Release, release_of, word_number};
use py_stacks::Addresses;

/// The words of a walk.
#[derive(Clone, Copy)]
pub struct WalkWords<'a> {
    /// The core's file.
    pub core: &'a str,
    pub layouts: LayoutSource<'a>,
    pub version: Release,
    pub addresses: Addresses,
}

/// Where the layouts come from.
#[derive(Clone, Copy)]
pub enum LayoutSource<'a> {
    /// The one layout of `py_fields::Layout::sample`.
    Sample,
    /// The file of this name.
    File(&'a str),
}

/// The word `sample`, or else a file's name.
fn source_of(word: &str) -> LayoutSource<'_>
    ensures { asked_source result ≡ source_of word.now }
{
    if word == "sample" {
        LayoutSource::Sample
    } else {
        LayoutSource::File(word)
    }
}

fn walk_by<'a>(
    core: &'a str,
    layouts: LayoutSource<'a>,
    version: Option<Release>,
    interp: Option<u64>,
    lock: Option<u64>,
) -> Option<WalkWords<'a>>
    ensures { option_map asked_walk result
        ≡ walk_by core.now (asked_source layouts.entry) (option_map asked_version version) interp lock }
{
    match (version, interp, lock) {
        (Some(version), Some(interpreter), Some(lock)) => Some(WalkWords {
            core,
            layouts,
            version,
            addresses: Addresses { interpreter, lock },
        }),
        _ => None,
    }
}

fn walk_of<'a>(
    core: &'a str,
    layouts: &'a str,
    version: &str,
    interp: &str,
    lock: &str,
) -> Option<WalkWords<'a>>
    ensures { option_map asked_walk result
        ≡ walk_words (core.now ∷ layouts.now ∷ version.now ∷ interp.now ∷ lock.now ∷ []) }
{
    walk_by(
        core,
        source_of(layouts),
        release_of(version),
        word_number(interp),
        word_number(lock),
    )
}

/// `CORE LAYOUTS VERSION INTERP LOCK`
pub(crate) fn walk_words(words: &[String]) -> Option<WalkWords<'_>>
    ensures { option_map asked_walk result ≡ walk_words (texts words.now) }
{
    if words.len() != 5 {
        return None;
    }
    walk_of(
        words[0].as_str(),
        words[1].as_str(),
        words[2].as_str(),
        words[3].as_str(),
        words[4].as_str(),
    )
}
