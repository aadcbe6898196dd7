//! What an exception says.
ghost use Rattle.std.specs.Prelude.{◌≡◌, IfOk};
ghost use Rattle.process_memory.specs.Seen.{Reading};
ghost use Rattle.py_fields.specs.Sound.{IsSound};
ghost use Rattle.py_exceptions.specs.Said.{said_at, said_shown};

use crate::name::ClassPlaces;
use crate::rule::{FieldPlaces, Rule, read_rule};
use crate::values::{Values, read_listed};
use process_memory::ProcessMemory;
use py_builtins::Sequence;
use py_fields::Layout;
use std::alloc::Global;
use thread_exceptions::{ExceptionsError, Parts};

/// What an exception says.
#[derive(Debug, Drop)]
pub struct Said {
    pub rule: Rule,
    /// Its `args`; none where that is not in memory.
    pub arguments: Option<Values>,
}

/// What the exception at an address says, of which this is the record. At most 16643 reads.
pub(crate) fn read_said<P: ProcessMemory>(
    alloc: Global,
    process: &mut P,
    layout: &Layout,
    classes: &ClassPlaces,
    places: &FieldPlaces,
    parts: &Parts,
    at: u64,
) -> Result<Said, ExceptionsError>
    requires sound { IsSound layout.now }
    ensures { Reading 16643 (P.seen process.old) (P.seen process.new)
        (λ m. IfOk result (λ said. said_shown said ≡ said_at layout.now classes.now places.now m parts.now at)) }
{
    let rule = read_rule(alloc, process, layout, classes, places, parts.class, at)?;
    let arguments = read_listed(alloc, process, layout, Sequence::Tuple, parts.args)?;
    Ok(Said { rule, arguments })
}
