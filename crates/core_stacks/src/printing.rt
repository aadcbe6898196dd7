//! The printed text of the stacks of a core.
ghost use Rattle.std.specs.Prelude.{IfOk};
ghost use Rattle.core_stacks.specs.Printing.{IsTextOf};

use crate::notes::notes_of;
use core_texts::{report_json, report_text};
use image_memory::CoreDump;
use py_layout::Version;
use py_stacks::StackTrace;
use std::alloc::{AllocError, Global};

/// The text of traces of a core, under the name of its file, or as JSON. The one error is out of memory.
pub(crate) fn text_of_traces(
    alloc: Global,
    core: &CoreDump,
    version: &Version,
    name: &[u8],
    traces: &[StackTrace],
    json: bool,
) -> Result<Vec<u8>, AllocError>
    ensures { IfOk result (λ text. IsTextOf json core.now version.now name.now traces.now text.items) }
{
    if json {
        return Ok(report_json(alloc, traces)?.into_bytes());
    }
    let notes = notes_of(alloc, core)?;
    report_text(alloc, name, notes.signal, &notes.process, version, traces)
}
