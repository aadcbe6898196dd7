//! Which reads were refused, where there is no text.
ghost use Rattle.std.specs.Prelude.{◌≡◌, OnErr, OnOk};
ghost use Rattle.std.specs.Bool.{OnFalse, OnTrue};
ghost use Rattle.salvage_report.specs.Missing.{AsksFor, IsStoppedAtOne, TellsAfter, TellsRefused};

use crate::as_json::missing_json;
use crate::cause::{Cause, Trouble};
use missed_reads::Misses;
use outside::Sink;
use program_run::RunCause;
use salvage_words::{ArgsError, Asked};
use std::alloc::{AllocError, Global};

/// Whether the words ask which reads were refused.
fn asks_for(asked: &Result<Asked, ArgsError>) -> bool
    ensures yes { OnTrue result (AsksFor asked.now) }
    ensures no { OnFalse result (AsksFor asked.now → ⊥) }
{
    match asked {
        Ok(Asked::Salvage(words)) => words.sections.missing,
        Ok(Asked::Help) | Ok(Asked::Version) | Err(_) => false,
    }
}

/// Whether there is no text by a cause whose status is 1.
fn is_stopped(outcome: &Result<Vec<u8>, Trouble<'_>>) -> bool
    ensures yes { OnTrue result (IsStoppedAtOne outcome.now) }
    ensures no { OnFalse result (IsStoppedAtOne outcome.now → ⊥) }
{
    match outcome {
        Err(Trouble::Cause(cause)) => cause.status() == 1,
        Ok(_) | Err(Trouble::Words) | Err(Trouble::File { .. }) => false,
    }
}

/// Writes which reads were refused. A fault of the stream is let go.
fn write_missing<S: Sink>(alloc: Global, misses: &Misses, out: &mut S) -> Result<(), AllocError>
    ensures told { OnOk result (TellsRefused (S.seen out.old) (S.seen out.new)) }
    ensures left { OnErr result (S.seen out.new ≡ S.seen out.old) }
{
    let text = missing_json(alloc, misses)?;
    let _ = out.write(text.as_bytes());
    Ok(())
}

/// Writes which reads were refused, as an object of its own, where the words ask for that and there is no text by a
/// cause whose status is 1; else nothing. What comes of the run is what came, or out of memory, and then nothing is
/// written.
pub(crate) fn after_telling<'a, S: Sink>(
    alloc: Global,
    asked: &Result<Asked, ArgsError>,
    misses: &Misses,
    outcome: Result<Vec<u8>, Trouble<'a>>,
    out: &mut S,
) -> Result<Vec<u8>, Trouble<'a>>
    ensures { TellsAfter asked.now outcome.entry result (S.seen out.old) (S.seen out.new) }
{
    if !asks_for(asked) || !is_stopped(&outcome) {
        return outcome;
    }
    match write_missing(alloc, misses, out) {
        Ok(()) => outcome,
        Err(_) => Err(Trouble::Cause(Cause::OutOfMemory)),
    }
}
