//! Which classes are those of sets.
ghost use Rattle.std.specs.Prelude.{◌≡◌, IfOk};
ghost use Rattle.process_memory.specs.Seen.{Reading};
ghost use Rattle.py_census.specs.Bases.{is_one, leads_at, most_bases, set_class_at};

use crate::sizes::read_word;
use crate::{SetClasses, SizePlaces};
use process_memory::ProcessMemory;
use std::alloc::AllocError;

/// How many bases of a class are looked at.
const MOST_BASES: u64 = 16;

/// Whether a class is one of the two.
fn is_one(sets: SetClasses, class: u64) -> bool
    ensures { result ≡ is_one sets class }
{
    class == sets.set || class == sets.frozenset
}

/// Whether a class is one of them, or leads to one by its first bases, of which so many are looked at; none where that
/// is not known. At most one read for each.
fn leads<P: ProcessMemory>(
    process: &mut P,
    base: u64,
    sets: SetClasses,
    class: u64,
    left: u64,
) -> Result<Option<bool>, AllocError>
    ensures { Reading left (P.seen process.old) (P.seen process.new)
        (λ m. IfOk result (λ leads. leads ≡ leads_at base sets m class left)) }
{
    if is_one(sets, class) {
        return Ok(Some(true));
    }
    if class == 0 {
        return Ok(Some(false));
    }
    if left == 0 {
        return Ok(None);
    }
    let next = read_word(process, class, base)?;
    match next {
        None => Ok(None),
        Some(next) => leads(process, base, sets, next, left - 1),
    }
}

/// Whether a class is that of sets; none where that is not known. At most 16 reads.
pub(crate) fn read_set_class<P: ProcessMemory>(
    process: &mut P,
    places: &SizePlaces,
    class: u64,
) -> Result<Option<bool>, AllocError>
    ensures { Reading most_bases (P.seen process.old) (P.seen process.new)
        (λ m. IfOk result (λ is. is ≡ set_class_at places.now m class)) }
{
    match places.sets {
        None => Ok(Some(false)),
        Some(sets) => leads(process, places.base, sets, class, MOST_BASES),
    }
}
