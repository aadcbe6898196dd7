//! The words of a program that is made up: `sample N`, `sample N core`.
ghost use Rattle.std.specs.Prelude.{◌≡◌, option_map};
ghost use Rattle.core_words.specs.Seen.{asked_sample};
ghost use Rattle.core_words.specs.Words.{sample_by, sample_words, texts};

use crate::numbers::word_number;

/// The words of a program that is made up of a number.
#[derive(Clone, Copy)]
pub struct SampleWords {
    /// The number.
    pub seed: u64,
    /// Whether its core is asked for, and not how much it shows.
    pub core: bool,
}

fn sample_by(seed: &str, core: bool) -> Option<SampleWords>
    ensures { option_map asked_sample result ≡ sample_by seed.now core }
{
    match word_number(seed) {
        Some(seed) => Some(SampleWords { seed, core }),
        None => None,
    }
}

/// `N`, or `N core`
pub(crate) fn sample_words(words: &[String]) -> Option<SampleWords>
    ensures { option_map asked_sample result ≡ sample_words (texts words.now) }
{
    match words {
        [seed] => sample_by(seed.as_str(), false),
        [seed, what] if what.as_str() == "core" => sample_by(seed.as_str(), true),
        _ => None,
    }
}
