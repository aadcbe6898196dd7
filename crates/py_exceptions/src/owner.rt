//! Whose rule says the text of an exception.
ghost use Rattle.std.specs.Prelude.{◌≡◌, ◌*◌, IfOk, Some};
ghost use Rattle.process_memory.specs.Seen.{Reads, Reading};
ghost use Rattle.py_names.specs.NamesError.{names_fault};
ghost use Rattle.py_exceptions.specs.Owners.{owner_at, owner_found_at, owner_from};

use crate::fault::or_none;
use crate::name::ClassPlaces;
use process_memory::{ProcessMemory, word_past};
use py_names::NamesError;
use thread_exceptions::ExceptionsError;

/// How many classes on the way to the owner of a rule are passed at most.
const BASE_LIMIT: u64 = 64;

/// The last of some classes that have one function for their texts: each is based on the next one, and so many are
/// passed. At most 2 reads for each.
fn owner_from<P: ProcessMemory>(
    process: &mut P,
    places: &ClassPlaces,
    class: u64,
    own: u64,
    left: u64,
) -> Result<Option<u64>, NamesError>
    ensures { Reads names_fault (2 * left) (P.seen process.old) (P.seen process.new)
        (λ m. owner_from places.now m class own left) result }
{
    if left == 0 {
        return Ok(Some(class));
    }
    let next = word_past(process, class, places.base as u64)?;
    if next == 0 {
        return Ok(Some(class));
    }
    let other = word_past(process, next, places.to_str as u64)?;
    if other != own {
        return Ok(Some(class));
    }
    owner_from(process, places, next, own, left - 1)
}

/// The same of a class. At most 129 reads.
fn read_found<P: ProcessMemory>(
    process: &mut P,
    places: &ClassPlaces,
    class: u64,
) -> Result<Option<u64>, NamesError>
    ensures { Reads names_fault 129 (P.seen process.old) (P.seen process.new)
        (λ m. owner_found_at places.now m class) result }
{
    let own = word_past(process, class, places.to_str as u64)?;
    owner_from(process, places, class, own, BASE_LIMIT)
}

/// The class that owns the rule by which an object of a class is told as a text: the last one on the way from base to
/// base that has the same function for it. None where a class on the way is not in memory. At most 129 reads.
pub(crate) fn read_owner<P: ProcessMemory>(
    process: &mut P,
    places: &ClassPlaces,
    class: u64,
) -> Result<Option<u64>, ExceptionsError>
    ensures { Reading 129 (P.seen process.old) (P.seen process.new)
        (λ m. IfOk result (λ owner. owner ≡ owner_at places.now m class)) }
{
    or_none(read_found(process, places, class))
}
