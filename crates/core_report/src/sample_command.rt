//! `sample N`, `sample N core`
ghost use Rattle.std.specs.Prelude.{◌≡◌, []};
ghost use Rattle.core_words.specs.Words.{seeded};
ghost use Rattle.core_words.specs.Seen.{asked_sample};
ghost use Rattle.core_report.specs.Outcome.{IsAnswer, IsOutcome};

use crate::cause::Cause;
use core_words::SampleWords;
use program_report::{sample_core, sample_text};
use std::alloc::Global;

/// How much is shown of a program that is made up, or its core.
pub(crate) fn sample_over(alloc: Global, words: &SampleWords) -> Result<Vec<u8>, Cause>
    ensures { IsAnswer (IsOutcome (seeded (asked_sample words.now)) []) result }
{
    let seed = words.seed;
    if words.core {
        return Ok(sample_core(alloc, seed)?);
    }
    Ok(sample_text(alloc, seed)?)
}
