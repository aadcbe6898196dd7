//! The end of a run: its text is written, or one line says why there is none, or not all of it; and its status.
ghost use Rattle.std.specs.Prelude.{◌≡◌};
ghost use Rattle.std.specs.List.{concat};
ghost use Rattle.core_texts.specs.Parts.{said};
ghost use Rattle.program_run.specs.Ends.{HasFinished, end_at, end_parts, end_status};

use crate::cause::RunCause;
use crate::trouble::Trouble;
use core_texts::Parts;
use fault_lines::{file_parts, say_line, text_part};
use outside::Sink;

/// The parts of the line of what was wrong.
fn trouble_parts<'a, C: RunCause>(trouble: &'a Trouble<'a, C>) -> Parts<'a>
    ensures { said result ≡ concat (end_parts C.says (end_at trouble.now)) }
{
    match trouble {
        Trouble::Cause(cause) => cause.parts(),
        Trouble::Words => text_part("bad words"),
        Trouble::File { name, fault } => file_parts(name, *fault),
    }
}

/// Its status.
fn trouble_status<C: RunCause>(trouble: &Trouble<'_, C>) -> u8
    ensures { result ≡ end_status C.says (end_at trouble.now) }
{
    match trouble {
        Trouble::Cause(cause) => cause.status(),
        Trouble::Words => 2,
        Trouble::File { .. } => 3,
    }
}

/// Brings a run to its end, and answers its status: the whole text of its outcome is written to `out`, or one line,
/// `start` and the parts, to `err`. A fault of `err` changes no status.
///
/// - 0: the whole text was written, and nothing is said.
/// - 2: the words ask for nothing.
/// - 3: a file could not be read, or is too long.
/// - 4: the text could not be written; a front of it may have been.
/// - The status of its cause (`RunCause`), where what the words ask for comes to no text.
pub fn finish<C: RunCause, S: Sink, E: Sink>(
    out: &mut S,
    err: &mut E,
    start: &[u8],
    outcome: &Result<Vec<u8>, Trouble<'_, C>>,
) -> u8
    ensures { HasFinished start.now C.says outcome.now (S.seen out.old) (S.seen out.new)
        (E.seen err.old) (E.seen err.new) result }
{
    match outcome {
        Ok(text) => match out.write(text) {
            Ok(()) => 0,
            Err(_) => {
                say_line(err, start, &text_part("cannot write"));
                4
            }
        },
        Err(trouble) => {
            say_line(err, start, &trouble_parts(trouble));
            trouble_status(trouble)
        }
    }
}
