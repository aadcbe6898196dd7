//! The parts of the line of each cause, as tables.
ghost use Rattle.std.specs.Prelude.{◌≡◌};
ghost use Rattle.std.specs.List.{concat};
ghost use Rattle.core_texts.specs.Parts.{said};
ghost use Rattle.core_report.specs.Lines.{cause_parts, merge_parts, reach_parts};

use crate::cause::Cause;
use core_merge::CoreMergeError;
use core_texts::{Part, Parts, parts};
use fault_lines::{core_parts, layout_parts, text_part};
use object_reach::ReachError;

/// Why there is no list of what a thread's locals lead to.
fn reach_parts<'a>(error: &ReachError) -> Parts<'a>
    ensures { said result ≡ concat (reach_parts error.now) }
{
    match error {
        ReachError::ReachLimit => text_part("more than 1048576 objects or 16777216 slots"),
        ReachError::OutOfMemory => text_part("out of memory"),
    }
}

/// Why the frames of a thread are not merged.
fn merge_parts<'a>(error: &CoreMergeError) -> Parts<'a>
    ensures { said result ≡ concat (merge_parts error.now) }
{
    match error {
        CoreMergeError::OutOfMemory => text_part("out of memory"),
        _ => text_part("cannot merge"),
    }
}

/// Why a command gives no text.
pub(crate) fn cause_parts<'a>(cause: &'a Cause) -> Parts<'a>
    ensures { said result ≡ concat (cause_parts cause.now) }
{
    match cause {
        Cause::Core(error) => core_parts(error),
        Cause::Layouts(error) => layout_parts(error),
        Cause::Reach(error) => reach_parts(error),
        Cause::ReachIndex { index } => {
            parts(&[Part::Text("no such thread: "), Part::Decimal(*index)])
        }
        Cause::Merge(error) => merge_parts(error),
        Cause::MergeIndex { .. } => text_part("cannot merge"),
        Cause::TooManyPieces { count } => {
            parts(&[Part::Text("too many pieces: "), Part::Decimal(*count)])
        }
        Cause::OutOfMemory => text_part("out of memory"),
    }
}
