//! `triage LAYOUTS CORE.. [PATH=FILE]..`
ghost use Rattle.std.specs.Prelude.{◌≡◌, ◌≤◌, ℕ, IfOk, List, length};
ghost use Rattle.core_words.specs.Words.{triage};
ghost use Rattle.core_words.specs.Seen.{asked_triage};
ghost use Rattle.core_report.specs.Reading.{AsksCores, IsRead, triage_contents};
ghost use Rattle.program_run.specs.Ends.{IsAnswered};
ghost use Rattle.core_report.specs.Run.{HasCores, HasTriageFiles, pystacks};

use crate::cause::Trouble;
use crate::judged::JudgedCores;
use crate::layouts::source_layouts;
use core_words::TriageWords;
use image_memory::Images;
use named_images::image_list;
use outside::Files;
use program_run::{read_file, read_images};
use py_layout::Layouts;
use std::alloc::Global;

/// What the files of cores in groups hold that are read before the cores.
#[derive(Drop)]
pub(crate) struct TriageFiles {
    /// The text of the layout file.
    layouts: Vec<u8>,
    /// The files of the images, in the order of the words.
    images: Vec<Vec<u8>>,
}

impl TriageFiles {
    /// Reads the files in the order in which the command asks for them.
    pub(crate) fn read<'a, F: Files>(
        alloc: Global,
        words: &'a TriageWords<'_>,
        files: &mut F,
    ) -> Result<TriageFiles, Trouble<'a>>
        ensures told { (F.seen files.new).told ≡ (F.seen files.old).told }
        ensures read { HasTriageFiles (F.seen files.old) (F.seen files.new) (asked_triage words.now) result }
    {
        let layouts = read_file(alloc, words.layouts.as_bytes(), files)?;
        let images = read_images(alloc, &words.images, files)?;
        Ok(TriageFiles { layouts, images })
    }
}

/// Reads the cores in turn: each is read, judged and dropped before the next.
fn judge_cores<'a, F: Files>(
    alloc: Global,
    words: &'a TriageWords<'_>,
    images: &Images,
    layouts: &Layouts,
    files: &mut F,
) -> Result<JudgedCores<'a>, Trouble<'a>>
    ensures told { (F.seen files.new).told ≡ (F.seen files.old).told }
    ensures few { IfOk result (λ judged. length judged.keys.items ≤ length words.now.cores.now) }
    ensures judged { (before : List (List ℕ)) → IsRead (F.seen files.old).told (triage (asked_triage words.now)) before
        → AsksCores (asked_triage words.now) before
        → HasCores (F.seen files.old) (F.seen files.new) (asked_triage words.now) before images.now layouts.now result }
{
    let mut judged = JudgedCores::new(alloc);
    for core in words.cores {
        let name = core.as_bytes();
        let bytes = read_file(alloc, name, files)?;
        judged.judge(name, bytes, images, layouts)?;
    }
    Ok(judged)
}

/// The text of the cores in groups, by what the files before them hold.
pub(crate) fn triage_over<'a, F: Files>(
    alloc: Global,
    words: &'a TriageWords<'_>,
    read: TriageFiles,
    files: &mut F,
) -> Result<Vec<u8>, Trouble<'a>>
    requires few { length words.now.cores.now ≤ 4096 }
    ensures told { (F.seen files.new).told ≡ (F.seen files.old).told }
    ensures comes { IsRead (F.seen files.old).told (triage (asked_triage words.now)) (triage_contents read)
        → length read.images.items ≡ length words.now.images.items
        → IsAnswered pystacks (F.seen files.old) (F.seen files.new) (triage (asked_triage words.now)) result }
{
    let TriageFiles { layouts, images } = read;
    let layouts = source_layouts(alloc, Some(layouts))?;
    let images = image_list(alloc, &words.images, images)?;
    let judged = judge_cores(alloc, words, &images, &layouts, files)?;
    Ok(judged.text()?)
}
