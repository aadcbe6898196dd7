//! The types of what threads wait for, and where these have the word.
ghost use Rattle.std.specs.Prelude.{◌≡◌};
ghost use Rattle.py_waits.specs.Places.{held_kind, is_of, place_of};

/// A type of objects at which threads wait.
#[derive(Clone, Copy, Debug, Drop, PartialEq, Eq)]
pub struct Waitable {
    /// The address of the type.
    pub class: u64,
    /// Where such an object has the address of its semaphore, 8 bytes; of one in whose own bytes threads are parked,
    /// where that byte stands.
    pub place: u32,
}

/// Where the objects of a process have what threads wait for. What is not described, or whose type is not known, is
/// none.
#[derive(Clone, Copy, Debug, Drop, PartialEq, Eq)]
pub struct WaitPlaces {
    /// Where an object has the address of its type.
    pub klass: u32,
    /// Where a function of C's has the address of the object that it is bound to.
    pub receiver: Option<u32>,
    /// Locks, by their semaphores.
    pub lock: Option<Waitable>,
    /// Reentrant locks.
    pub rlock: Option<Waitable>,
    /// Queues of the module `_queue`.
    pub queue: Option<Waitable>,
    /// Locks in whose own bytes threads are parked.
    pub parked_lock: Option<Waitable>,
    /// Such queues.
    pub parked_queue: Option<Waitable>,
    /// Where a reentrant lock has the id of its owner, and how often that holds it.
    pub owner: Option<OwnerAt>,
}

/// Where a reentrant lock has its owner, 8 bytes each.
#[derive(Clone, Copy, Debug, Drop, PartialEq, Eq)]
pub struct OwnerAt {
    /// The thread's id.
    pub owner: u32,
    /// How often that thread holds it.
    pub count: u32,
}

/// What an object is at which threads wait.
#[derive(Clone, Copy, Debug, Drop, PartialEq, Eq)]
pub enum Kind {
    Lock,
    Rlock,
    Queue,
}

/// A kind of objects, and where they have the address of their semaphore.
#[derive(Clone, Copy)]
pub(crate) struct Held {
    pub(crate) kind: Kind,
    pub(crate) place: u32,
}

/// Whether an object is of a type, by the word of its class.
pub(crate) fn is_of(waitable: Option<Waitable>, class: Option<u64>) -> bool
    ensures { result ≡ is_of waitable class }
{
    match (waitable, class) {
        (Some(waitable), Some(class)) => class != 0 && waitable.class == class,
        _ => false,
    }
}

/// Where its objects have the word; 0 where there is no such type.
fn place_of(waitable: Option<Waitable>) -> u32
    ensures { result ≡ place_of waitable }
{
    match waitable {
        Some(waitable) => waitable.place,
        None => 0,
    }
}

/// What an object with a semaphore is, by the word of its class.
#[tactic(auto, unfolding(crate::specs::Places::held_kind))]
pub(crate) fn held_kind(places: &WaitPlaces, class: Option<u64>) -> Option<Held>
    ensures { result ≡ held_kind places.now class }
{
    if is_of(places.lock, class) {
        return Some(Held {
            kind: Kind::Lock,
            place: place_of(places.lock),
        });
    }
    if is_of(places.rlock, class) {
        return Some(Held {
            kind: Kind::Rlock,
            place: place_of(places.rlock),
        });
    }
    if is_of(places.queue, class) {
        return Some(Held {
            kind: Kind::Queue,
            place: place_of(places.queue),
        });
    }
    None
}
