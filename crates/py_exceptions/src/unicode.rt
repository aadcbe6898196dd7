//! What the errors of Unicode's tell.
ghost use Rattle.std.specs.Prelude.{◌≡◌, IfOk};
ghost use Rattle.process_memory.specs.Seen.{Reading};
ghost use Rattle.py_fields.specs.Sound.{IsSound};
ghost use Rattle.py_exceptions.specs.Unicode.{first_by, invalid_at};

use crate::fault::read_word;
use crate::unit::{Unit, Units, read_unit};
use crate::value::{Value, read_field};
use process_memory::ProcessMemory;
use py_fields::Layout;
use py_records::UnicodeErrorRecord;
use std::alloc::Global;
use thread_exceptions::ExceptionsError;

/// The data that could not be coded. What can't be read is none.
#[derive(Debug, Drop)]
pub struct InvalidData {
    /// The address of the text or the bytes in which it stands; 0 where the error was not initialized.
    pub object: Option<u64>,
    /// Where it begins, counted from 0, and where it ends: the number behind its last one. A number below 0 is one from
    /// 2^63 on.
    pub start: Option<u64>,
    pub end: Option<u64>,
    /// What the object has where the data begins; none also where the object is of another type, or that is below 0.
    pub first: Option<Unit>,
    /// Why it can't be coded.
    pub reason: Option<Value>,
}

/// What an object has at a place, where both are known. At most 4 reads.
fn read_first<P: ProcessMemory>(
    alloc: Global,
    process: &mut P,
    layout: &Layout,
    units: Units,
    object: Option<u64>,
    start: Option<u64>,
) -> Result<Option<Unit>, ExceptionsError>
    requires sound { IsSound layout.now }
    ensures { Reading 4 (P.seen process.old) (P.seen process.new)
        (λ m. IfOk result (λ unit. unit ≡ first_by layout.now m units object start)) }
{
    match (object, start) {
        (Some(addr), Some(number)) => read_unit(alloc, process, layout, units, addr, number),
        (Some(_), None) => Ok(None),
        (None, _) => Ok(None),
    }
}

/// The data that an error of Unicode's says can't be coded. At most 13 reads.
pub(crate) fn read_invalid<P: ProcessMemory>(
    alloc: Global,
    process: &mut P,
    layout: &Layout,
    places: &UnicodeErrorRecord,
    units: Units,
    at: u64,
) -> Result<InvalidData, ExceptionsError>
    requires sound { IsSound layout.now }
    ensures { Reading 13 (P.seen process.old) (P.seen process.new)
        (λ m. IfOk result (λ told. told ≡ invalid_at layout.now places.now m units at)) }
{
    let object = read_word(process, at, places.object)?;
    let start = read_word(process, at, places.start)?;
    let end = read_word(process, at, places.end)?;
    let first = read_first(alloc, process, layout, units, object, start)?;
    let reason = read_field(alloc, process, layout, at, places.reason)?;
    Ok(InvalidData {
        object,
        start,
        end,
        first,
        reason,
    })
}
