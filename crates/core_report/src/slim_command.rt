//! `slim CORE LAYOUTS LEVEL [PATH=FILE]..`
ghost use Rattle.std.specs.Prelude.{◌≡◌};
ghost use Rattle.core_words.specs.Words.{slim};
ghost use Rattle.core_words.specs.Seen.{asked_slim};
ghost use Rattle.core_report.specs.Outcome.{IsAnswer, IsOutcome};
ghost use Rattle.program_run.specs.Reading.{core_contents};

use crate::cause::Cause;
use crate::opened::open_process;
use core_words::SlimWords;
use program_run::CoreFiles;
use py_stacks::Config;
use std::alloc::Global;

/// The bytes of a slim core, over what its files hold.
pub(crate) fn slim_over(
    alloc: Global,
    words: &SlimWords<'_>,
    files: CoreFiles,
) -> Result<Vec<u8>, Cause>
    ensures { IsAnswer (IsOutcome (slim (asked_slim words.now)) (core_contents files)) result }
{
    let process = open_process(alloc, &words.images, files)?;
    let config = Config {
        dump_locals: words.level,
        ..Config::default()
    };
    let bytes = process.slimmed(&config)?;
    Ok(bytes)
}
