//! The text of what is left of a process, with its head lines, or its JSON.
ghost use Rattle.std.specs.Prelude.{◌≡◌, ◌++◌, IfOk, OnOk, string_bytes};
ghost use Rattle.core_texts.specs.Text.{signal_text};
ghost use Rattle.salvage_words.specs.Seen.{asked_salvage};
ghost use Rattle.crash_signal.specs.Text.{signal_text as info_text};
ghost use Rattle.thread_registers.specs.Text.{threads_text};
ghost use Rattle.py_selftest.specs.Text.{check_text};
ghost use Rattle.repr_json.specs.Shown.{HasNoFloat};
ghost use Rattle.salvage_report.specs.LayoutChecked.{check_of};
ghost use Rattle.salvage_report.specs.Sections.{registers_shown};
ghost use Rattle.salvage_report.specs.Texts.{core_name, left_text, process_text, rest_text, section_text, shown_left};
ghost use Rattle.salvage_report.specs.Texts.{version_line};

use crate::as_json::left_json;
use crate::left::Left;
use crash_signal::{CrashSignal, Untold};
use elf64_core::{Name, Text};
use memory_sections::{names_told, push_memory};
use py_layout::Version;
use py_selftest::LayoutCheck;
use salvage_texts::{push_escaped, salvaged_text};
use salvage_words::SalvageWords;
use shown_values::push_left_out;
use std::alloc::{AllocError, Global};
use thread_registers::{ThreadRegisters, push_threads};

/// The line of the signal, beside the core's name, where there is one; what could end the line is escaped.
fn push_signal(
    alloc: Global,
    text: &mut String,
    core: &Name,
    signal: Option<i16>,
) -> Result<(), AllocError>
    ensures { OnOk result (string_bytes text.new
        ≡ string_bytes text.old ++ signal_text (core_name core.now) signal) }
{
    let Some(signal) = signal else {
        return Ok(());
    };
    let name = core.lossy(alloc)?;
    write!(text, "Signal {signal}: ")?;
    push_escaped(alloc, text, false, &name)?;
    text.push_str("\n")
}

/// The line of the process, where there is one; what could end the line is escaped.
fn push_process(
    alloc: Global,
    text: &mut String,
    process: &Option<(i32, Text)>,
) -> Result<(), AllocError>
    ensures { OnOk result (string_bytes text.new ≡ string_bytes text.old ++ process_text process.now) }
{
    let Some((pid, arguments)) = process else {
        return Ok(());
    };
    let pid = *pid;
    write!(text, "Process {pid}: ")?;
    push_escaped(alloc, text, false, arguments)?;
    text.push_str("\n")
}

/// The line of the version, and an empty one. Of a version that the names of files tell the patch isn't known.
fn push_version(text: &mut String, named: bool, version: &Version) -> Result<(), AllocError>
    ensures { OnOk result (string_bytes text.new ≡ string_bytes text.old ++ version_line named version.now) }
{
    if named {
        let (major, minor) = (version.major, version.minor);
        return write!(text, "Python v{major}.{minor} (by the names of files)\n\n");
    }
    write!(text, "Python v{version}\n\n")
}

/// How the signal came about, where that is asked for.
fn push_info(
    text: &mut String,
    told: &Option<Result<CrashSignal, Untold>>,
) -> Result<(), AllocError>
    ensures { OnOk result (string_bytes text.new ≡ string_bytes text.old ++ section_text info_text told.now) }
{
    match told {
        Some(told) => crash_signal::push_signal(text, told),
        None => Ok(()),
    }
}

/// The threads with their registers, where these are asked for.
fn push_registers(text: &mut String, told: &Option<Vec<ThreadRegisters>>) -> Result<(), AllocError>
    ensures { OnOk result (string_bytes text.new
        ≡ string_bytes text.old ++ section_text threads_text (registers_shown told.now)) }
{
    match told {
        Some(threads) => push_threads(text, threads),
        None => Ok(()),
    }
}

/// What the process says of the layout, where that is asked for.
fn push_check(text: &mut String, check: &Option<LayoutCheck>) -> Result<(), AllocError>
    ensures { OnOk result (string_bytes text.new
        ≡ string_bytes text.old ++ section_text check_text (check_of check.now)) }
{
    match check {
        Some(check) => py_selftest::push_check(text, check),
        None => Ok(()),
    }
}

/// The lines behind all threads and tasks: the registers, what the process says of the layout, and how many values of
/// locals are left out.
fn push_rest(text: &mut String, left: &Left) -> Result<(), AllocError>
    ensures { OnOk result (string_bytes text.new ≡ string_bytes text.old ++ rest_text left.now) }
{
    push_registers(text, &left.told.registers)?;
    push_check(text, &left.check)?;
    push_left_out(text, &left.memory.values)
}

/// The head lines, what is left, and the sections, each at its place.
fn left_text(alloc: Global, core: &Name, limit: usize, left: &Left) -> Result<Vec<u8>, AllocError>
    ensures { IfOk result (λ text. text.items ≡ left_text core.now limit left.now) }
{
    let mut text = String::new(alloc);
    push_signal(alloc, &mut text, core, left.signal)?;
    push_info(&mut text, &left.told.signal)?;
    push_process(alloc, &mut text, &left.process)?;
    push_version(&mut text, left.named, &left.version)?;
    let salvaged = salvaged_text(
        alloc,
        &left.values,
        names_told(&left.memory),
        &left.salvaged,
    )?;
    text.push_str(salvaged.as_str())?;
    push_memory(
        alloc,
        &mut text,
        limit,
        &left.salvaged.interpreters,
        &left.memory,
    )?;
    push_rest(&mut text, left)?;
    Ok(text.into_bytes())
}

/// What is left, as the words ask for it.
pub(crate) fn shown(alloc: Global, words: &SalvageWords, left: &Left) -> Result<Vec<u8>, AllocError>
    requires { HasNoFloat left.now.values }
    ensures { IfOk result (λ text. text.items ≡ shown_left (asked_salvage words.now) left.now) }
{
    if words.json {
        let json = left_json(alloc, words.limit, left)?;
        return Ok(json.into_bytes());
    }
    left_text(alloc, &words.core, words.limit, left)
}
