//! `walk CORE LAYOUTS VERSION INTERP LOCK`
ghost use Rattle.std.specs.Prelude.{◌≡◌, length};
ghost use Rattle.core_words.specs.Words.{kept_files, walk};
ghost use Rattle.core_words.specs.Seen.{asked_walk};
ghost use Rattle.core_report.specs.Reading.{walk_contents};
ghost use Rattle.core_report.specs.Outcome.{IsAnswer, IsOutcome};
ghost use Rattle.core_report.specs.Run.{HasWalkFiles};

use crate::cause::{Cause, Trouble};
use crate::layouts::source_layouts;
use core_stacks::walk;
use core_texts::walk_text;
use core_words::{LayoutSource, WalkWords};
use outside::Files;
use program_run::read_file;
use py_layout::Version;
use std::alloc::Global;

/// What the files of a walk hold.
#[derive(Drop)]
pub(crate) struct WalkFiles {
    core: Vec<u8>,
    /// The text of the layout file, where the words name one.
    layouts: Option<Vec<u8>>,
}

impl WalkFiles {
    /// Reads the files in the order in which the command asks for them.
    pub(crate) fn read<'a, F: Files>(
        alloc: Global,
        words: &WalkWords<'a>,
        files: &mut F,
    ) -> Result<WalkFiles, Trouble<'a>>
        ensures told { (F.seen files.new).told ≡ (F.seen files.old).told }
        ensures read { HasWalkFiles (F.seen files.old) (F.seen files.new) (asked_walk words.now) result }
    {
        let core = read_file(alloc, words.core.as_bytes(), files)?;
        match words.layouts {
            LayoutSource::Sample => Ok(WalkFiles {
                core,
                layouts: None,
            }),
            LayoutSource::File(name) => {
                let text = read_file(alloc, name.as_bytes(), files)?;
                Ok(WalkFiles {
                    core,
                    layouts: Some(text),
                })
            }
        }
    }
}

/// The text of a walk, over what its files hold.
pub(crate) fn walk_over(
    alloc: Global,
    words: &WalkWords<'_>,
    files: WalkFiles,
) -> Result<Vec<u8>, Cause>
    requires kept { length (walk_contents files) ≡ length (kept_files (walk (asked_walk words.now))) }
    ensures { IsAnswer (IsOutcome (walk (asked_walk words.now)) (walk_contents files)) result }
{
    let WalkFiles { core, layouts } = files;
    let layouts = source_layouts(alloc, layouts)?;
    let release = words.version;
    let version = Version::of_numbers(alloc, release.major, release.minor, release.patch)?;
    let traces = walk(alloc, core, &layouts, &version, &words.addresses)?;
    let text = walk_text(alloc, &version, &traces)?;
    Ok(text.into_bytes())
}
