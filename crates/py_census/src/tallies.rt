//! What is kept of each class, while objects are counted.
ghost use Rattle.std.specs.Prelude.{◌≡◌, ℕ, ◌*◌, IfOk, None, OnOk, Some, length};
ghost use Rattle.std.specs.BTreeMap.{get};
ghost use Rattle.std.specs.Ordering.{nat_cmp};
ghost use Rattle.process_memory.specs.Seen.{Reading};
ghost use Rattle.py_census.specs.Sizes.{class_size_at};
ghost use Rattle.py_census.specs.Tallies.{AreTallied, IsMet, no_objects, tally_after, tally_or_new, with_object};

use crate::SizePlaces;
use crate::blocks::read_more;
use crate::census::CountedClass;
use crate::large::{large_of, none_large, with_large};
use crate::sizes::{ClassSize, read_class, read_class_size, read_size};
use process_memory::ProcessMemory;
use py_fields::Layout;
use std::alloc::AllocError;
use std::collections::BTreeMap;

/// What is kept of a class while its objects are counted.
#[derive(Clone, Copy)]
pub(crate) struct Tally {
    /// What its record says; none where that is not in memory.
    pub sized: Option<ClassSize>,
    /// What was counted of it so far.
    pub counted: CountedClass,
}

/// No objects of a class.
fn no_objects(class: u64) -> CountedClass
    ensures { result ≡ no_objects class }
{
    CountedClass {
        class,
        objects: 0,
        bytes: 0,
        more: 0,
        unread: 0,
        unknown: 0,
        largest: none_large(),
    }
}

/// One more object of a class.
fn with_object(
    counted: CountedClass,
    object: u64,
    size: Option<u64>,
    more: Option<u64>,
) -> CountedClass
    ensures { result ≡ with_object counted object size more }
{
    CountedClass {
        class: counted.class,
        objects: counted.objects.saturating_add(1),
        bytes: counted.bytes.saturating_add(size.unwrap_or(0)),
        more: counted.more.saturating_add(more.unwrap_or(0)),
        unread: counted.unread.saturating_add(u64::from(more.is_none())),
        unknown: counted.unknown.saturating_add(u64::from(size.is_none())),
        largest: with_large(counted.largest, large_of(object, size, more)),
    }
}

/// What is kept of a class so far.
fn kept_of(tallies: &BTreeMap<u64, Tally>, class: u64) -> Option<Tally>
    ensures { result ≡ get nat_cmp tallies.now class }
{
    tallies.get(&class).copied()
}

/// What is kept of a class; of one that is met first, what its record says. At most 19 reads.
fn tally_at<P: ProcessMemory>(
    process: &mut P,
    layout: &Layout,
    places: &SizePlaces,
    tallies: &BTreeMap<u64, Tally>,
    class: u64,
) -> Result<Tally, AllocError>
    ensures { Reading 19 (P.seen process.old) (P.seen process.new) (λ m. IfOk result (λ tally. tally
        ≡ tally_or_new (class_size_at layout.now places.now m class) class (get nat_cmp tallies.now class))) }
{
    match kept_of(tallies, class) {
        Some(tally) => Ok(tally),
        None => {
            let sized = read_class_size(process, layout, places, class)?;
            Ok(Tally {
                sized,
                counted: no_objects(class),
            })
        }
    }
}

/// Counts one more object, whose class is given. At most 23 reads.
fn add_object<P: ProcessMemory>(
    process: &mut P,
    layout: &Layout,
    places: &SizePlaces,
    tallies: &mut BTreeMap<u64, Tally>,
    its: u64,
    object: u64,
) -> Result<(), AllocError>
    ensures { Reading 23 (P.seen process.old) (P.seen process.new) (λ m. OnOk result
        ((class : ℕ) → get nat_cmp tallies.new class
        ≡ tally_after layout.now places.now m object (Some its) (get nat_cmp tallies.old) class)) }
{
    let tally = tally_at(process, layout, places, tallies, its)?;
    let size = read_size(process, layout, places, tally.sized, object)?;
    let more = read_more(process, places, tally.sized, object)?;
    let counted = with_object(tally.counted, object, size, more);
    tallies.insert(
        its,
        Tally {
            sized: tally.sized,
            counted,
        },
    )?;
    Ok(())
}

/// Counts one more object; and whether its class is not known, so that it is counted with none. At most 24 reads.
fn meet_object<P: ProcessMemory>(
    process: &mut P,
    layout: &Layout,
    places: &SizePlaces,
    tallies: &mut BTreeMap<u64, Tally>,
    object: u64,
) -> Result<bool, AllocError>
    ensures { Reading 24 (P.seen process.old) (P.seen process.new) (λ m. IfOk result
        (IsMet layout.now places.now m object tallies.old tallies.new)) }
{
    let its = read_class(process, layout, object)?;
    match its {
        None => Ok(true),
        Some(its) => {
            add_object(process, layout, places, tallies, its, object)?;
            Ok(false)
        }
    }
}

/// Counts some objects by their classes; and of how many of them the class is not known. At most 24 reads of each.
pub(crate) fn meet_objects<P: ProcessMemory>(
    process: &mut P,
    layout: &Layout,
    places: &SizePlaces,
    tallies: &mut BTreeMap<u64, Tally>,
    objects: &[u64],
) -> Result<u64, AllocError>
    requires none { (class : ℕ) → get nat_cmp tallies.old class ≡ None }
    ensures { Reading (24 * length objects.now) (P.seen process.old) (P.seen process.new) (λ m. IfOk result
        (AreTallied layout.now places.now m objects.now tallies.new)) }
{
    let mut unreadable: u64 = 0;
    for object in objects {
        let lost = meet_object(process, layout, places, tallies, *object)?;
        unreadable = unreadable.saturating_add(u64::from(lost));
    }
    Ok(unreadable)
}
