//! What is told of an exception, and of all that are met.
ghost use Rattle.std.specs.Prelude.{◌≡◌, ◌*◌, IfOk, length, map};
ghost use Rattle.process_memory.specs.Seen.{Reading};
ghost use Rattle.py_fields.specs.Sound.{IsSound};
ghost use Rattle.thread_exceptions.specs.Discovery.{met_of};
ghost use Rattle.py_exceptions.specs.Exceptions.{exception_at, exception_shown, met_told_at, told_if};
ghost use Rattle.py_exceptions.specs.Sound.{IsDescribed};

use crate::described::Described;
use crate::name::{ClassName, read_class};
use crate::notes::{Notes, read_notes};
use crate::said::{Said, read_said};
use crate::traceback::{Traceback, read_traceback};
use process_memory::ProcessMemory;
use py_fields::Layout;
use std::alloc::Global;
use thread_exceptions::{ExceptionsError, Met, Parts, What};

/// What is told of an exception.
#[derive(Drop)]
pub struct ToldException {
    /// The name of its class; none where it, or of which kind the class is, is not in memory.
    pub class: Option<ClassName>,
    pub said: Said,
    pub traceback: Traceback,
    pub notes: Notes,
}

/// What is told of the exception at an address, of which this is the record. At most 117623 reads.
fn read_exception<P: ProcessMemory>(
    alloc: Global,
    process: &mut P,
    layout: &Layout,
    places: &Described,
    parts: &Parts,
    at: u64,
) -> Result<ToldException, ExceptionsError>
    requires sound { IsSound layout.now }
    requires places { IsDescribed places.now }
    ensures { Reading 117623 (P.seen process.old) (P.seen process.new)
        (λ m. IfOk result (λ told. exception_shown told ≡ exception_at layout.now places.now m parts.now at)) }
{
    let class = read_class(alloc, process, layout, &places.class, parts.class)?;
    let said = read_said(
        alloc,
        process,
        layout,
        &places.class,
        &places.fields,
        parts,
        at,
    )?;
    let traceback = read_traceback(alloc, process, layout, &places.traceback, parts.traceback)?;
    let notes = read_notes(alloc, process, layout, parts.dict)?;
    Ok(ToldException {
        class,
        said,
        traceback,
        notes,
    })
}

/// What is told of an object that was met; none of one that is no exception. At most 117623 reads.
fn read_met<P: ProcessMemory>(
    alloc: Global,
    process: &mut P,
    layout: &Layout,
    places: &Described,
    met: &Met,
) -> Result<Option<ToldException>, ExceptionsError>
    requires sound { IsSound layout.now }
    requires places { IsDescribed places.now }
    ensures { Reading 117623 (P.seen process.old) (P.seen process.new)
        (λ m. IfOk result (λ told. told_if told ≡ met_told_at layout.now places.now m (met_of met.now))) }
{
    match &met.what {
        What::Exception { parts, .. } => {
            let told = read_exception(alloc, process, layout, places, parts, met.addr)?;
            Ok(Some(told))
        }
        What::Other => Ok(None),
        What::Unreadable(_) => Ok(None),
    }
}

/// The same of each of some objects. At most 117623 reads for each.
pub(crate) fn read_all<P: ProcessMemory>(
    alloc: Global,
    process: &mut P,
    layout: &Layout,
    places: &Described,
    met: &[Met],
) -> Result<Vec<Option<ToldException>>, ExceptionsError>
    requires sound { IsSound layout.now }
    requires places { IsDescribed places.now }
    ensures { Reading (117623 * length met.now) (P.seen process.old) (P.seen process.new)
        (λ m. IfOk result (λ all. map (λ told. told_if told) all.items
        ≡ map (λ x. met_told_at layout.now places.now m (met_of x)) met.now)) }
{
    let mut all = Vec::new(alloc);
    for one in met {
        let told = read_met(alloc, process, layout, places, one)?;
        all.push(told)?;
    }
    Ok(all)
}
