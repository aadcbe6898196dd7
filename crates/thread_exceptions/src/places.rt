//! Where the parts of threads, items, exceptions and groups stand.
ghost use Rattle.std.specs.Prelude.{◌+◌, ◌≤◌, ◌↔◌, IsTrue};
ghost use Rattle.thread_exceptions.specs.Places.{IsSound, IsSoundException};

/// How a thread names the exception that is raised.
#[derive(Clone, Copy)]
pub enum RaisedPlaces {
    /// From 3.12 on: the address of the exception (`current_exception`).
    Exception { at: u32 },
    /// Up to 3.11: that of its type and of its value, which may be no exception yet (`curexc_type`, `curexc_value`).
    Parts { klass: u32, value: u32 },
}

/// An exception (`PyBaseExceptionObject`, Include/cpython/pyerrors.h): offsets in its record, of so many bytes.
#[derive(Clone, Copy)]
pub struct ExceptionPlaces {
    pub size: u32,
    pub dict: u32,
    pub args: u32,
    pub traceback: u32,
    pub context: u32,
    pub cause: u32,
    /// Of 1 byte.
    pub suppress_context: u32,
}

/// A group of exceptions (`PyBaseExceptionGroupObject`, Include/cpython/pyerrors.h), and tuples.
#[derive(Clone, Copy)]
pub struct GroupPlaces {
    /// Where a group names the tuple of its members.
    pub members: u32,
    /// Where a tuple says how many items it has, and where the first one stands.
    pub count: u32,
    pub items: u32,
}

/// Where the parts of threads, items, exceptions and types stand.
#[derive(Clone, Copy)]
pub struct Places {
    /// Where an object names its type, a type its flags, its name and the type that it is based on.
    pub klass: u32,
    pub flags: u32,
    pub name: u32,
    pub base: u32,
    /// Where a thread names what is raised.
    pub raised: RaisedPlaces,
    /// Where a thread names the newest item.
    pub newest: u32,
    /// Where a thread's own item begins, which is the oldest one.
    pub oldest: u32,
    /// Where a generator's own item begins.
    pub inside: u32,
    /// Where an item names an exception, and the item before.
    pub value: u32,
    pub previous: u32,
    pub exception: ExceptionPlaces,
    /// None where the version has no groups.
    pub group: Option<GroupPlaces>,
}

/// Whether so many bytes at a place lie in a record.
fn lies(place: u32, len: u32, size: u32) -> bool
    ensures { IsTrue result ↔ place + len ≤ size }
{
    place as u64 + len as u64 <= size as u64
}

/// Whether what is read of an exception's record lies inside it, and it has fewer than 65536 bytes.
fn is_sound_exception(at: &ExceptionPlaces) -> bool
    ensures { IsTrue result ↔ IsSoundException at.now }
{
    at.size < 65536
        && lies(at.dict, 8, at.size)
        && lies(at.args, 8, at.size)
        && lies(at.traceback, 8, at.size)
        && lies(at.context, 8, at.size)
        && lies(at.cause, 8, at.size)
        && lies(at.suppress_context, 1, at.size)
}

/// Whether what is read of each record lies inside it.
pub fn is_sound(places: &Places) -> bool
    ensures { IsTrue result ↔ IsSound places.now }
{
    is_sound_exception(&places.exception)
}
