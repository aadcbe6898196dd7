//! The process of a core, opened by what the files of a report hold.
ghost use Rattle.std.specs.Prelude.{◌≡◌};
ghost use Rattle.core_report.specs.Opening.{OpenedIs};
ghost use Rattle.core_report.specs.Outcome.{IsOpening};
ghost use Rattle.program_run.specs.Reading.{core_contents};

use crate::cause::Cause;
use core_stacks::PythonCoreDump;
use elf64_core::Name;
use image_memory::{CoreDump, Images};
use named_images::image_list;
use program_run::CoreFiles;
use py_layout::Layouts;
use py_process::CoreError;
use std::alloc::Global;

/// Opens the process of a core.
fn open_core(
    alloc: Global,
    bytes: Vec<u8>,
    images: &Images,
    layouts: &Layouts,
) -> Result<PythonCoreDump, CoreError>
    ensures { OpenedIs bytes.items images.now layouts.now result }
{
    let core = CoreDump::new(alloc, bytes)?;
    PythonCoreDump::new(alloc, core, images, layouts)
}

/// The process of a core, by what the files of a report hold.
pub(crate) fn open_process(
    alloc: Global,
    words: &[(Name, Name)],
    files: CoreFiles,
) -> Result<PythonCoreDump, Cause>
    ensures { IsOpening words.now (core_contents files) result }
{
    let CoreFiles {
        core,
        layouts,
        images,
    } = files;
    let layouts = Layouts::from_toml(alloc, &layouts)?;
    let images = image_list(alloc, words, images)?;
    let process = open_core(alloc, core, &images, &layouts)?;
    Ok(process)
}
