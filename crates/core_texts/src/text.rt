//! The texts of a walk and of a report.
ghost use Rattle.std.specs.Prelude.{◌≡◌, ◌++◌, IfOk, OnOk, string_bytes};
ghost use Rattle.core_texts.specs.Text.{process_text, report_text, signal_text, walk_text};

use crate::trace::push_trace;
use elf64_core::Text;
use py_fields::Version;
use py_stacks::StackTrace;
use std::alloc::{AllocError, Global};

/// The version, and the threads from the last to the first. The one error is out of memory.
pub fn walk_text(
    alloc: Global,
    version: &Version,
    traces: &[StackTrace],
) -> Result<String, AllocError>
    ensures { IfOk result (λ text. string_bytes text ≡ walk_text version.now traces.now) }
{
    let mut text = String::new(alloc);
    push_walk(&mut text, version, traces)?;
    Ok(text)
}

/// The signal that a core tells, beside the core's name, and the process, by its id and arguments, where it
/// tells them; then what a walk prints. It need not be text, since the name is written as it is. The one error is
/// out of memory.
pub fn report_text(
    alloc: Global,
    core: &[u8],
    signal: Option<i16>,
    process: &Option<(i32, Text)>,
    version: &Version,
    traces: &[StackTrace],
) -> Result<Vec<u8>, AllocError>
    ensures { IfOk result (λ text. text.items
        ≡ report_text core.now signal process.now version.now traces.now) }
{
    let mut bytes = signal_line(alloc, core, signal)?;
    let mut text = String::new(alloc);
    push_process(&mut text, process)?;
    push_walk(&mut text, version, traces)?;
    bytes.extend_from_slice(text.as_bytes())?;
    Ok(bytes)
}

/// The line of the signal, where there is one.
fn signal_line(alloc: Global, core: &[u8], signal: Option<i16>) -> Result<Vec<u8>, AllocError>
    ensures { IfOk result (λ line. line.items ≡ signal_text core.now signal) }
{
    let Some(signal) = signal else {
        return Ok(Vec::new(alloc));
    };
    let mut line = format!(in alloc; "Signal {signal}: ")?.into_bytes();
    line.extend_from_slice(core)?;
    line.extend_from_slice(b"\n")?;
    Ok(line)
}

/// The line of the process, where there is one.
fn push_process(text: &mut String, process: &Option<(i32, Text)>) -> Result<(), AllocError>
    ensures { OnOk result (string_bytes text.new ≡ string_bytes text.old ++ process_text process.now) }
{
    let Some((pid, arguments)) = process else {
        return Ok(());
    };
    let pid = *pid;
    write!(text, "Process {pid}: ")?;
    text.push_str(arguments.as_str())?;
    text.push_str("\n")
}

/// The version, and the threads from the last to the first.
fn push_walk(text: &mut String, version: &Version, traces: &[StackTrace]) -> Result<(), AllocError>
    ensures { OnOk result (string_bytes text.new ≡ string_bytes text.old ++ walk_text version.now traces.now) }
{
    write!(text, "Python v{version}\n\n")?;
    for trace in traces.iter().rev() {
        push_trace(text, trace, false)?;
    }
    Ok(())
}
