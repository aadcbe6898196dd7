//! A census of objects.
ghost use Rattle.std.specs.Prelude.{◌≡◌, ◌*◌, ◌<◌, ◌^◌, All, AllPairs, IfOk, IsPermutation, OnOk, length, map};
ghost use Rattle.std.specs.BTreeMap.{IsOrdered, values};
ghost use Rattle.std.specs.Ordering.{nat_cmp};
ghost use Rattle.process_memory.specs.Seen.{Reading};
ghost use Rattle.py_census.specs.Censuses.{Counted, IsCensus, Precedes, counted_of};
ghost use Rattle.py_census.specs.Blocks.{more_at};
ghost use Rattle.py_census.specs.Sizes.{class_at, size_at};

use crate::tallies::{Tally, meet_objects};
use crate::{Largest, SizePlaces};
use process_memory::ProcessMemory;
use py_fields::Layout;
use std::alloc::{AllocError, Global};
use std::collections::BTreeMap;

/// What is counted of the objects of a class. A number past 2^64 - 1 is 2^64 - 1.
#[derive(Debug, Clone, Copy, Drop, PartialEq, Eq)]
pub struct CountedClass {
    /// The address of the class.
    pub class: u64,
    /// How many objects of it there are.
    pub objects: u64,
    /// How many bytes their own blocks have in all, of those whose size is known, without the values of attributes that
    /// stand in them from 3.13 on.
    pub bytes: u64,
    /// How many bytes they have beside these in blocks of their own, of those of which that is known: of lists the
    /// items that they have room for, of dicts the keys that no other object has, of types the keys that the dicts of
    /// their objects share, of sets the tables.
    pub more: u64,
    /// Of how many of them that is not known: a word that says it, or what their class says, is not in memory, or it is
    /// 2^64 bytes or more.
    pub unread: u64,
    /// Of how many of them the size is not known: what their class says of it, or their count of items, is not in
    /// memory, or it is 2^64 bytes or more.
    pub unknown: u64,
    /// The three largest of them.
    pub largest: Largest,
}

/// What is counted of objects.
#[derive(Debug, Drop)]
pub struct Census {
    /// Each class that one of them has, once: most bytes first, then by address.
    pub classes: Vec<CountedClass>,
    /// Of how many of them the class is not known, since the word that names it is not in memory.
    pub unreadable: u64,
}

/// What was counted of each class, by address.
fn classes_of(
    alloc: Global,
    tallies: &BTreeMap<u64, Tally>,
) -> Result<Vec<CountedClass>, AllocError>
    ensures classes { IfOk result (λ classes. classes.items ≡ map (λ t. t.counted) (values tallies.now)) }
    ensures ordered { IfOk result (λ classes. IsOrdered nat_cmp tallies.now) }
{
    let mut classes = Vec::new(alloc);
    for tally in tallies.values() {
        classes.push(tally.counted)?;
    }
    Ok(classes)
}

/// Puts classes into order.
fn put_in_order(classes: &mut Vec<CountedClass>) -> Result<(), AllocError>
    requires ascending { AllPairs (λ x y. x.class < y.class) classes.old.items }
    requires capped { All (λ c. c.bytes < 2 ^ 64) classes.old.items }
    ensures permutation { OnOk result (IsPermutation classes.old.items classes.new.items) }
    ensures order { OnOk result (AllPairs Precedes classes.new.items) }
{
    classes.sort_by_key(|class| u64::MAX - class.bytes)
}

/// What is counted of some objects. At most 24 reads of each.
fn counted<P: ProcessMemory>(
    alloc: Global,
    process: &mut P,
    layout: &Layout,
    places: &SizePlaces,
    objects: &[u64],
) -> Result<Census, AllocError>
    ensures { Reading (24 * length objects.now) (P.seen process.old) (P.seen process.new)
        (λ m. IfOk result (λ census. IsCensus (class_at layout.now m) (size_at layout.now places.now m)
        (more_at layout.now places.now m) objects.now (counted_of census))) }
{
    let mut tallies = BTreeMap::new(alloc);
    let unreadable = meet_objects(process, layout, places, &mut tallies, objects)?;
    let mut classes = classes_of(alloc, &tallies)?;
    put_in_order(&mut classes)?;
    Ok(Census {
        classes,
        unreadable,
    })
}

/// What is counted of some objects, such as those of the lists of the collector, by their addresses: each class that
/// one of them has, once and none else, with how many of them it has and how many bytes their own blocks have in all;
/// most bytes first, then by address. An address that stands twice counts twice.
///
/// There is one such answer alone. What is not in memory is told as not known. The one error is out of memory. At most
/// 24 reads of each object.
pub fn count_objects<P: ProcessMemory>(
    alloc: Global,
    process: &mut P,
    layout: &Layout,
    places: &SizePlaces,
    objects: &[u64],
) -> Result<Census, AllocError>
    ensures right { Reading (24 * length objects.now) (P.seen process.old) (P.seen process.new)
        (λ m. IfOk result (λ census. IsCensus (class_at layout.now m) (size_at layout.now places.now m)
        (more_at layout.now places.now m) objects.now (counted_of census))) }
    ensures only { Reading (24 * length objects.now) (P.seen process.old) (P.seen process.new)
        (λ m. (other : Counted) → IsCensus (class_at layout.now m) (size_at layout.now places.now m)
        (more_at layout.now places.now m) objects.now other
        → IfOk result (λ census. counted_of census ≡ other)) }
{
    counted(alloc, process, layout, places, objects)
}
