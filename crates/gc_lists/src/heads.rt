//! The heads of the lists of records.
ghost use Rattle.std.specs.Prelude.{◌≡◌, ◌++◌, IfOk, OnOk};
ghost use Rattle.gc_lists.specs.Heads.{capped, heads_at, heads_in, heads_of};

use crate::ListPlaces;
use std::alloc::{AllocError, Global};

/// How many addresses there are.
const ADDRESSES: u128 = 0x1_0000_0000_0000_0000;

/// The heads of the lists of one record.
#[derive(Clone, Copy)]
pub(crate) struct Heads {
    /// Generation 0's.
    pub youngest: u64,
    /// Generation 1's.
    pub middle: u64,
    /// Generation 2's.
    pub oldest: u64,
    /// The permanent generation's.
    pub permanent: u64,
}

/// An address; the last one for one past it, at which no memory has a byte.
fn capped(addr: u128) -> u64
    ensures { result ≡ capped addr }
{
    if addr < ADDRESSES {
        addr as u64
    } else {
        u64::MAX
    }
}

/// The heads of the lists of the record at an address.
pub(crate) fn heads_at(places: &ListPlaces, base: u64) -> Heads
    ensures { result ≡ heads_at places.now base }
{
    let first = base as u128 + places.generations as u128;
    let size = places.generation_size as u128;
    Heads {
        youngest: capped(first),
        middle: capped(first + size),
        oldest: capped(first + size + size),
        permanent: capped(base as u128 + places.permanent as u128),
    }
}

/// Adds the heads of one record.
fn push_heads(heads: &mut Vec<u64>, own: Heads) -> Result<(), AllocError>
    ensures { OnOk result (heads.new.items ≡ heads.old.items ++ heads_in own) }
{
    heads.extend_from_slice(&[own.youngest, own.middle, own.oldest, own.permanent])
}

/// Adds the heads of some records.
fn push_all(heads: &mut Vec<u64>, places: &ListPlaces, bases: &[u64]) -> Result<(), AllocError>
    ensures { OnOk result (heads.new.items ≡ heads.old.items ++ heads_of places.now bases.now) }
{
    for base in bases {
        push_heads(heads, heads_at(places, *base))?;
    }
    Ok(())
}

/// The heads of a record, and those of others.
pub(crate) fn heads_of(
    alloc: Global,
    places: &ListPlaces,
    own: Heads,
    bases: &[u64],
) -> Result<Vec<u64>, AllocError>
    ensures { IfOk result (λ heads. heads.items ≡ heads_in own ++ heads_of places.now bases.now) }
{
    let mut heads = Vec::new(alloc);
    push_heads(&mut heads, own)?;
    push_all(&mut heads, places, bases)?;
    Ok(heads)
}
