//! `dump -c CORE --layouts FILE [OPTION].. [PATH=FILE]..`
ghost use Rattle.std.specs.Prelude.{◌≡◌, IfOk};
ghost use Rattle.core_words.specs.Words.{dump};
ghost use Rattle.core_words.specs.Seen.{asked_dump};
ghost use Rattle.program_run.specs.Reading.{core_contents};
ghost use Rattle.core_report.specs.Outcome.{IsAnswer, IsOutcome, shown_report};

use crate::cause::Cause;
use core_stacks::report;
use core_texts::{report_json, report_text};
use core_words::DumpWords;
use named_images::image_list;
use program_run::CoreFiles;
use py_layout::Layouts;
use py_process::Report;
use std::alloc::{AllocError, Global};

/// The text of a report, or its threads as JSON, as the words ask.
fn shown(alloc: Global, words: &DumpWords, report: &Report) -> Result<Vec<u8>, AllocError>
    ensures { IfOk result (λ text. text.items ≡ shown_report (asked_dump words.now) report.now) }
{
    if words.config.dump_json {
        return Ok(report_json(alloc, &report.traces)?.into_bytes());
    }
    report_text(
        alloc,
        words.core.as_bytes(),
        report.signal,
        &report.process,
        &report.version,
        &report.traces,
    )
}

/// The text of a report, over what its files hold.
pub(crate) fn dump_over(
    alloc: Global,
    words: &DumpWords,
    files: CoreFiles,
) -> Result<Vec<u8>, Cause>
    ensures { IsAnswer (IsOutcome (dump (asked_dump words.now)) (core_contents files)) result }
{
    let CoreFiles {
        core,
        layouts,
        images,
    } = files;
    let layouts = Layouts::from_toml(alloc, &layouts)?;
    let images = image_list(alloc, &words.images, images)?;
    let report = report(alloc, core, &images, &layouts, &words.config)?;
    let text = shown(alloc, words, &report)?;
    Ok(text)
}
