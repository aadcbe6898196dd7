//! The line that says how a signal came about.
ghost use Rattle.std.specs.Prelude.{◌≡◌, ◌++◌, OnOk, string_bytes};
ghost use Rattle.crash_signal.specs.Text.{cause_text, meaning_text, name_text, other_text, signal_text, untold_text};

use crate::tables::{meaning_of, name_of};
use crate::told::{Cause, CrashSignal, Untold};
use std::alloc::AllocError;

/// The name of a signal, or its number.
fn push_name(text: &mut String, signal: i32) -> Result<(), AllocError>
    ensures { OnOk result (string_bytes text.new ≡ string_bytes text.old ++ name_text signal) }
{
    match name_of(signal) {
        Some(name) => text.push_str(name),
        None => write!(text, "signal {signal}"),
    }
}

/// What a code means, or its number.
fn push_meaning(text: &mut String, signal: i32, code: i32) -> Result<(), AllocError>
    ensures { OnOk result (string_bytes text.new ≡ string_bytes text.old ++ meaning_text signal code) }
{
    match meaning_of(signal, code) {
        Some(meaning) => text.push_str(meaning),
        None => write!(text, "code {code}"),
    }
}

/// What is said behind a signal's name.
fn push_cause(text: &mut String, signal: i32, code: i32, cause: Cause) -> Result<(), AllocError>
    ensures { OnOk result (string_bytes text.new ≡ string_bytes text.old ++ cause_text signal code cause) }
{
    match cause {
        Cause::Itself { .. } => text.push_str(" by itself"),
        Cause::Process { pid, uid } => write!(text, " by process {pid}, user {uid}"),
        Cause::Fault { address } => {
            write!(text, " at 0x{address:x}: ")?;
            push_meaning(text, signal, code)
        }
        Cause::NoAddress => {
            text.push_str(", no address: an address that can't be one, or a protection fault")
        }
        Cause::System => text.push_str(" by the system"),
        Cause::Call { address, number } => {
            write!(text, " at 0x{address:x}: a filter refused call {number}")
        }
        Cause::Code => write!(text, " with code {code}"),
    }
}

/// That the note is of another signal.
fn push_other(text: &mut String, signal: i32) -> Result<(), AllocError>
    ensures { OnOk result (string_bytes text.new ≡ string_bytes text.old ++ other_text signal) }
{
    text.push_str("The note is of ")?;
    push_name(text, signal)?;
    text.push_str(", another signal\n")
}

/// Why nothing is told.
fn push_untold(text: &mut String, why: Untold) -> Result<(), AllocError>
    ensures { OnOk result (string_bytes text.new ≡ string_bytes text.old ++ untold_text why) }
{
    match why {
        Untold::NoSignal => text.push_str("No signal is told by the first thread's record\n"),
        Untold::NoNote => text.push_str("No note tells how the signal came about\n"),
        Untold::Short => text.push_str("The note of the signal is too short\n"),
        Untold::Other { signal } => push_other(text, signal),
    }
}

/// Appends the line that says how a signal came about, or why that is not told, with a line feed at its end:
/// `SIGSEGV at 0x10: address not mapped`, `SIGTERM by process 1, user 0`, `SIGABRT by itself`. A signal or a meaning
/// without a name stands as its number: `signal 34`, `code 20`. The one error is out of memory.
pub fn push_signal(text: &mut String, told: &Result<CrashSignal, Untold>) -> Result<(), AllocError>
    ensures { OnOk result (string_bytes text.new ≡ string_bytes text.old ++ signal_text told.now) }
{
    match told {
        Ok(signal) => {
            push_name(text, signal.signal)?;
            push_cause(text, signal.signal, signal.code, signal.cause)?;
            text.push_str("\n")
        }
        Err(why) => push_untold(text, *why),
    }
}
