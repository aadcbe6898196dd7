//! Where the values within a value stand.
ghost use Rattle.std.specs.Prelude.{◌≡◌, ◌<◌, ◌^◌, IfOk};
ghost use Rattle.process_memory.specs.Seen.{Reading};
ghost use Rattle.py_reprs.specs.Places.{place_at, places_at};

use crate::error::ReprError;
use process_memory::{ProcessMemory, ReadFault, word_wide};
use std::alloc::Global;

/// Where a value stands.
#[derive(Debug, Clone, Copy, Drop, PartialEq, Eq)]
pub(crate) enum Place {
    /// At this address; 0 says that there is none.
    At(u64),
    /// The bytes that name it are not in memory.
    Gap { addr: u64, len: u64 },
}

/// Where the value of a number stands, by the words from an address on. At most one read.
#[tactic(auto, unfolding(crate::specs::Places::place_at))]
fn read_place<P: ProcessMemory>(
    process: &mut P,
    base: u128,
    number: u64,
) -> Result<Place, ReprError>
    requires near { base < 2 ^ 66 }
    ensures { Reading 1 (P.seen process.old) (P.seen process.new)
        (λ m. IfOk result (λ place. place ≡ place_at m base number)) }
{
    match word_wide(process, base + 8 * number as u128) {
        Ok(addr) => Ok(Place::At(addr)),
        Err(ReadFault::Unreadable { addr, len }) => Ok(Place::Gap { addr, len }),
        Err(ReadFault::OutOfMemory) => Err(ReprError::OutOfMemory),
    }
}

/// Where the first values stand, by the words from an address on. At most one read for each.
pub(crate) fn read_places<P: ProcessMemory>(
    alloc: Global,
    process: &mut P,
    base: u128,
    count: u64,
) -> Result<Vec<Place>, ReprError>
    requires near { base < 2 ^ 66 }
    ensures { Reading count (P.seen process.old) (P.seen process.new)
        (λ m. IfOk result (λ places. places.items ≡ places_at m base count)) }
{
    let mut places = Vec::new(alloc);
    for number in 0..count {
        let place = read_place(process, base, number)?;
        places.push(place)?;
    }
    Ok(places)
}
