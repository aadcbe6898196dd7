//! Layouts, judged by what was read.
ghost use Rattle.std.specs.Prelude.{◌≡◌, ◌∷◌, [], IfOk};
ghost use Rattle.py_fields.specs.Samples.{sample_layout};
ghost use Rattle.core_report.specs.Outcome.{IsJudged, TextSays};

use crate::cause::Cause;
use py_layout::{Layout, Layouts};
use std::alloc::{AllocError, Global};

/// The one layout of a walk that names no layout file: the sample.
fn sample_layouts(alloc: Global) -> Result<Layouts, AllocError>
    ensures { IfOk result (λ layouts. layouts ≡ sample_layout ∷ []) }
{
    let list = vec![in alloc; Layout::sample()]?;
    match Layouts::of(alloc, list) {
        Ok(layouts) => Ok(layouts),
        Err(_) => unreachable!(),
    }
}

/// The layouts of a layout file's text, or the sample where there is none.
pub(crate) fn source_layouts(alloc: Global, text: Option<Vec<u8>>) -> Result<Layouts, Cause>
    ensures { IsJudged (TextSays text) result }
{
    match text {
        None => Ok(sample_layouts(alloc)?),
        Some(text) => Ok(Layouts::from_toml(alloc, &text)?),
    }
}
