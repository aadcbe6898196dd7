//! A program, its core and image, and what is reported of these.
ghost use Rattle.std.specs.Prelude.{◌≡◌, [], ◌∷◌, IfErr, IfOk};
ghost use Rattle.py_fields.specs.Sound.{IsSound};
ghost use Rattle.py_process.specs.Reports.{AsksNoOther, ReportIs, reported, reported_of};
ghost use Rattle.object_builder.specs.Room.{HasRoom};
ghost use Rattle.memory_builder.specs.Mirror.{program_in};
ghost use Rattle.image_builder.specs.Built.{built_core, built_image};
ghost use Rattle.image_builder.specs.CoreFiles.{image_path as path_of_image};
ghost use Rattle.image_builder.specs.Covered.{told_version};
ghost use Rattle.image_builder.specs.Inverse.{image_alone};
ghost use Rattle.image_builder.specs.Refusals.{IsBuildable, IsUnbuilt};
ghost use Rattle.image_builder.specs.RuntimeWords.{HasWordRoom};
ghost use Rattle.image_builder.specs.Shown.{shown_report, without_addresses};

use core_stacks::report;
use elf64_core::{Machine, Name};
use image_builder::{BuildError, Built, Program, build};
use image_memory::{Images, Mmap};
use py_fields::{Layout, Version};
use py_layout::Layouts;
use py_process::{CoreError, Report};
use py_stacks::Config;
use std::alloc::{AllocError, Global};

/// An image alone, under its path. The one error is out of memory.
fn image_of(alloc: Global, path: Name, image: Vec<u8>) -> Result<Images, AllocError>
    ensures { IfOk result (λ images. images ≡ image_alone path image.items) }
{
    let mut images = Images::new(alloc);
    images.push(path, Mmap::of(alloc, image)?)?;
    Ok(images)
}

/// A list of one layout. The one error is out of memory.
fn list_of(alloc: Global, layout: Layout) -> Result<Layouts, AllocError>
    requires { IsSound layout }
    ensures { IfOk result (λ layouts. layouts ≡ layout ∷ []) }
{
    let mut list = Vec::new(alloc);
    list.push(layout)?;
    match Layouts::of(alloc, list) {
        Ok(layouts) => Ok(layouts),
        Err(_) => unreachable!(),
    }
}

/// The report of a core and an image that are written of a program, for a layout, a version and a machine, by that
/// layout alone; or why they are not written (`image_builder::build`).
///
/// Where the layout has room for the types of values (`image_builder::has_room`), and for the word of the lock beside
/// the runtime record's field (`image_builder::has_word_room`), and neither native frames nor those of other processes
/// are asked for, the report shows that program: its threads, frames, lines and locals, in order, and nothing else,
/// whatever the addresses of the locals are; and the version, with no zeros in front of its serial number. The one
/// error of the report is out of memory then.
pub fn report_of_program(
    alloc: Global,
    program: &Program,
    layout: Layout,
    version: &Version,
    machine: Machine,
    config: &Config,
) -> Result<Result<Report, CoreError>, BuildError>
    requires { IsSound layout }
    ensures buildable { IfOk result (λ _. IsBuildable layout version.now machine (program_in program.now)) }
    ensures refused { IfErr result (IsUnbuilt layout version.now machine (program_in program.now)) }
    // the answer is that of a report over what is built
    ensures right { IfOk result (λ answer. ReportIs (built_core layout version.now machine (program_in program.now))
        (image_alone path_of_image (built_image version.now machine)) (layout ∷ []) config.now (reported answer)) }
    ensures shown { HasRoom layout → HasWordRoom layout machine version.now → AsksNoOther config.now → IfOk result
        (λ answer. IfOk answer (λ report. without_addresses (reported_of report)
        ≡ shown_report config.now layout (told_version version.now) (program_in program.now))) }
    ensures memory { HasRoom layout → HasWordRoom layout machine version.now → AsksNoOther config.now → IfOk result
        (λ answer. IfErr answer (λ error. error ≡ CoreError.OutOfMemory)) }
{
    let built = build(alloc, program, &layout, version, machine)?;
    let Built {
        core,
        image_path,
        image,
        ..
    } = built;
    let images = image_of(alloc, image_path, image)?;
    let layouts = list_of(alloc, layout)?;
    Ok(report(alloc, core, &images, &layouts, config))
}
