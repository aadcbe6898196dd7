//! Objects that may be the one that a thread waits for.
ghost use Rattle.std.specs.Prelude.{◌≡◌};
ghost use Rattle.process_memory.specs.Seen.{Reads, read_fault};
ghost use Rattle.py_waits.specs.Objects.{address_if, address_in, as_waited, held_at, is_word, less, object_at};
ghost use Rattle.py_waits.specs.Objects.{parked_as, parked_at, parked_else};
ghost use Rattle.py_waits.specs.Objects.{parked_if, parked_object, receiver_at, slot_at, slot_step, through, waited_if};

use crate::places::{Held, Kind, WaitPlaces, Waitable, held_kind, is_of};
use crate::words::word_in;
use process_memory::{ProcessMemory, ReadFault};

/// An object that a thread waits for.
#[derive(Clone, Copy, Debug, Drop, PartialEq, Eq)]
pub struct Waited {
    pub kind: Kind,
    /// The address of the object.
    pub address: u64,
}

/// An object as one that is waited for.
fn as_waited(kind: Kind, object: Option<u64>) -> Option<Waited>
    ensures { result ≡ as_waited kind object }
{
    match object {
        Some(address) => Some(Waited { kind, address }),
        None => None,
    }
}

/// Whether a word is this one.
fn is_word(word: Option<u64>, at: u64) -> bool
    ensures { result ≡ is_word word at }
{
    match word {
        Some(word) => word == at,
        None => false,
    }
}

/// An object, if its semaphore is the word that is waited at.
#[tactic(auto, unfolding(crate::specs::Objects::waited_if))]
fn waited_if(kind: Kind, object: Option<u64>, semaphore: Option<u64>, at: u64) -> Option<Waited>
    ensures { result ≡ waited_if kind object semaphore at }
{
    if is_word(semaphore, at) {
        return as_waited(kind, object);
    }
    None
}

/// The same of an object of a kind that has one. At most one read.
fn held_at<P: ProcessMemory>(
    process: &mut P,
    held: Option<Held>,
    object: Option<u64>,
    at: u64,
) -> Result<Option<Waited>, ReadFault>
    ensures { Reads read_fault 1 (P.seen process.old) (P.seen process.new)
        (λ m. held_at m held object at) result }
{
    match held {
        None => Ok(None),
        Some(held) => {
            let semaphore = word_in(process, object, held.place as u64)?;
            Ok(waited_if(held.kind, object, semaphore, at))
        }
    }
}

/// An object, if a thread that waits at a word waits for it. At most 2 reads.
fn object_at<P: ProcessMemory>(
    process: &mut P,
    places: &WaitPlaces,
    object: Option<u64>,
    at: u64,
) -> Result<Option<Waited>, ReadFault>
    ensures { Reads read_fault 2 (P.seen process.old) (P.seen process.new)
        (λ m. object_at m places.now object at) result }
{
    let class = word_in(process, object, places.klass as u64)?;
    held_at(process, held_kind(places, class), object, at)
}

/// The object that a function of C's is bound to. At most one read.
fn receiver_at<P: ProcessMemory>(
    process: &mut P,
    receiver: Option<u32>,
    object: Option<u64>,
) -> Result<Option<u64>, ReadFault>
    ensures { Reads read_fault 1 (P.seen process.old) (P.seen process.new)
        (λ m. receiver_at m receiver object) result }
{
    match receiver {
        None => Ok(None),
        Some(receiver) => word_in(process, object, receiver as u64),
    }
}

/// A word, if an object may stand there.
#[tactic(auto, unfolding(crate::specs::Objects::address_if))]
fn address_if(word: u64) -> Option<u64>
    ensures { result ≡ address_if word }
{
    if word < 1 << 56 && word % 8 == 0 {
        return Some(word);
    }
    None
}

/// The same of one that is known.
fn address_in(word: Option<u64>) -> Option<u64>
    ensures { result ≡ address_in word }
{
    match word {
        Some(word) => address_if(word),
        None => None,
    }
}

/// The object that another one may be bound to, where that isn't waited for itself. At most 3 reads.
fn through<P: ProcessMemory>(
    process: &mut P,
    places: &WaitPlaces,
    object: Option<u64>,
    at: u64,
    own: Option<Waited>,
) -> Result<Option<Waited>, ReadFault>
    ensures { Reads read_fault 3 (P.seen process.old) (P.seen process.new)
        (λ m. through m places.now object at own) result }
{
    match own {
        Some(waited) => Ok(Some(waited)),
        None => {
            let receiver = receiver_at(process, places.receiver, object)?;
            object_at(process, places, address_in(receiver), at)
        }
    }
}

/// What a word leads to that a thread waits for. At most 6 reads.
fn slot_at<P: ProcessMemory>(
    process: &mut P,
    places: &WaitPlaces,
    at: u64,
    base: Option<u64>,
    behind: u64,
) -> Result<Option<Waited>, ReadFault>
    ensures { Reads read_fault 6 (P.seen process.old) (P.seen process.new)
        (λ m. slot_at m places.now at base behind) result }
{
    let word = word_in(process, base, behind)?;
    let object = address_in(word);
    let own = object_at(process, places, object, at)?;
    through(process, places, object, at, own)
}

/// The same, where nothing was found before. At most 6 reads.
pub(crate) fn slot_step<P: ProcessMemory>(
    process: &mut P,
    places: &WaitPlaces,
    at: u64,
    base: Option<u64>,
    behind: u64,
    found: Option<Waited>,
) -> Result<Option<Waited>, ReadFault>
    ensures { Reads read_fault 6 (P.seen process.old) (P.seen process.new)
        (λ m. slot_step m places.now at base behind found) result }
{
    match found {
        Some(waited) => Ok(Some(waited)),
        None => slot_at(process, places, at, base, behind),
    }
}

/// An address, less so many bytes; none where it is below them.
fn less(address: u64, by: u64) -> Option<u64>
    ensures { result ≡ less address by }
{
    address.checked_sub(by)
}

/// The object whose byte stands at an address.
fn parked_object(parked: Option<Waitable>, mutex: Option<u64>) -> Option<u64>
    ensures { result ≡ parked_object parked mutex }
{
    match (parked, mutex) {
        (Some(parked), Some(mutex)) => less(mutex, parked.place as u64),
        _ => None,
    }
}

/// An object, if it is of a type, by the word of its class.
#[tactic(auto, unfolding(crate::specs::Objects::parked_if))]
fn parked_if(
    parked: Option<Waitable>,
    kind: Kind,
    object: Option<u64>,
    class: Option<u64>,
) -> Option<Waited>
    ensures { result ≡ parked_if parked kind object class }
{
    if is_of(parked, class) {
        return as_waited(kind, object);
    }
    None
}

/// The object in whose own bytes a thread is parked, if it is of such a type. At most one read.
fn parked_as<P: ProcessMemory>(
    process: &mut P,
    klass: u32,
    parked: Option<Waitable>,
    kind: Kind,
    mutex: Option<u64>,
) -> Result<Option<Waited>, ReadFault>
    ensures { Reads read_fault 1 (P.seen process.old) (P.seen process.new)
        (λ m. parked_as m klass parked kind mutex) result }
{
    let object = parked_object(parked, mutex);
    let class = word_in(process, object, klass as u64)?;
    Ok(parked_if(parked, kind, object, class))
}

/// The same of a queue, where it is no lock. At most one read.
fn parked_else<P: ProcessMemory>(
    process: &mut P,
    places: &WaitPlaces,
    mutex: Option<u64>,
    lock: Option<Waited>,
) -> Result<Option<Waited>, ReadFault>
    ensures { Reads read_fault 1 (P.seen process.old) (P.seen process.new)
        (λ m. parked_else m places.now mutex lock) result }
{
    match lock {
        Some(waited) => Ok(Some(waited)),
        None => parked_as(
            process,
            places.klass,
            places.parked_queue,
            Kind::Queue,
            mutex,
        ),
    }
}

/// The object in whose own bytes a thread is parked that waits at a word: the word before that one is the address of
/// the byte (`struct wait_entry` and its semaphore, Python/parking_lot.c). At most 3 reads.
pub(crate) fn parked_at<P: ProcessMemory>(
    process: &mut P,
    places: &WaitPlaces,
    at: u64,
) -> Result<Option<Waited>, ReadFault>
    ensures { Reads read_fault 3 (P.seen process.old) (P.seen process.new)
        (λ m. parked_at m places.now at) result }
{
    let mutex = word_in(process, less(at, 8), 0)?;
    let lock = parked_as(process, places.klass, places.parked_lock, Kind::Lock, mutex)?;
    parked_else(process, places, mutex, lock)
}
