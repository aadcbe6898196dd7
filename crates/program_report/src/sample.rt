//! The program of a seed, laid by the example of a layout: its core, and how much of it is shown.
ghost use Rattle.std.specs.Prelude.{◌≡◌, IfOk};
ghost use Rattle.elf64_core.specs.declared.header.Machine.TheVariants.{X86_64};
ghost use Rattle.py_fields.specs.Samples.{sample_layout};
ghost use Rattle.py_process.specs.Reports.{reported_of};
ghost use Rattle.py_fields.specs.Version.{release};
ghost use Rattle.image_builder.specs.Generated.{generated};
ghost use Rattle.image_builder.specs.Inverse.{IsCoreOf};
ghost use Rattle.image_builder.specs.Refusals.{IsUnbuilt};
ghost use Rattle.program_report.specs.Samples.{IsSampleReport, frames_shown, sample_core, sample_text};

use crate::reporting::report_of_program;
use core_texts::{Part, push_parts};
use elf64_core::Machine;
use image_builder::{BuildError, build, generate};
use py_fields::{Layout, Version};
use py_process::Report;
use py_stacks::{Config, StackTrace};
use std::alloc::{AllocError, Global};

/// The one reason why the program of a seed isn't written: out of memory.
fn unbuilt(seed: u64, _error: BuildError) -> AllocError
    requires { IsUnbuilt sample_layout (release 3 9 0) X86_64 (generated seed) _error }
{
    AllocError
}

/// The bytes of the core of the program of a seed (`image_builder::generate`), as `image_builder::build` writes it for
/// the layout of `py_fields::Layout::sample`, version 3.9.0 and x86-64.
///
/// It is a core, and a walk over it by that layout, from the interpreter at 0x600000 and with no lock, has exactly the
/// stacks of the program. The one error is out of memory.
pub fn sample_core(alloc: Global, seed: u64) -> Result<Vec<u8>, AllocError>
    ensures bytes { IfOk result (λ core. core.items ≡ sample_core seed) }
    ensures stacks { IfOk result (λ core. IsCoreOf sample_layout (generated seed) core.items) }
{
    let program = generate(alloc, seed)?;
    let version = Version::of_numbers(alloc, 3, 9, 0)?;
    match build(
        alloc,
        &program,
        &Layout::sample(),
        &version,
        Machine::X86_64,
    ) {
        Ok(built) => Ok(built.core),
        Err(error) => Err(unbuilt(seed, error)),
    }
}

/// The report of the program of a seed. The one error is out of memory.
fn sample_report(alloc: Global, seed: u64) -> Result<Report, AllocError>
    ensures { IfOk result (λ report. IsSampleReport seed (reported_of report)) }
{
    let program = generate(alloc, seed)?;
    let version = Version::of_numbers(alloc, 3, 9, 0)?;
    let config = Config::default();
    match report_of_program(
        alloc,
        &program,
        Layout::sample(),
        &version,
        Machine::X86_64,
        &config,
    ) {
        Ok(Ok(report)) => Ok(report),
        Ok(Err(_)) => Err(AllocError),
        Err(error) => Err(unbuilt(seed, error)),
    }
}

/// How many frames some threads have; no more than 2^64 - 1 are counted.
fn frames_of(traces: &[StackTrace]) -> u64
    ensures { result ≡ frames_shown traces.now }
{
    let mut frames = 0_u64;
    for trace in traces {
        frames = frames.saturating_add(trace.frames.len() as u64);
    }
    frames
}

/// Three lines: the seed, and how many threads and frames the report of its program has, which is made, written as a
/// core and an image for the layout of `py_fields::Layout::sample`, version 3.9.0 and x86-64, and reported.
///
/// These are the threads and frames of the program itself (`image_builder::generate`). The one error is out of memory.
pub fn sample_text(alloc: Global, seed: u64) -> Result<Vec<u8>, AllocError>
    ensures { IfOk result (λ text. text.items ≡ sample_text seed (generated seed)) }
{
    let report = sample_report(alloc, seed)?;
    let mut text = Vec::new(alloc);
    push_parts(
        &mut text,
        &[
            Part::Text("seed "),
            Part::Decimal(seed),
            Part::Text("\nthreads "),
            Part::Decimal(report.traces.len() as u64),
            Part::Text("\nframes "),
            Part::Decimal(frames_of(&report.traces)),
            Part::Text("\n"),
        ],
    )?;
    Ok(text)
}
