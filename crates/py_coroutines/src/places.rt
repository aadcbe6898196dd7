//! Where the parts of coroutines stand, and of what they await.
ghost use Rattle.std.specs.Prelude.{◌≡◌, ◌+◌, ◌↔◌, ◌≤◌, IfSome, IsTrue};
ghost use Rattle.py_coroutines.specs.Places.{IsSound, IsSoundApart, IsSoundFamily, IsSoundInside, IsSoundStack};
ghost use Rattle.py_coroutines.specs.Places.{is_sound_apart, is_sound_family, is_sound_inside, is_sound_stack, lies};
ghost use Rattle.py_coroutines.specs.Places.{lies_if_there};

/// The addresses of the types by which objects are told; 0 for one that was not found, which then tells none.
#[derive(Clone, Copy)]
pub struct AwaitTypes {
    pub coroutine: u64,
    pub generator: u64,
    pub async_generator: u64,
    /// Futures of asyncio.
    pub future: u64,
    /// Tasks of asyncio.
    pub task: u64,
}

/// Where an object names its class, and what a class says of itself, in bytes from their addresses.
#[derive(Clone, Copy)]
pub struct ClassPlaces {
    /// The class, in an object.
    pub klass: u32,
    /// The address of its name.
    pub name: u32,
    /// Its flags.
    pub flags: u32,
    /// How many bytes an object of it has without its items.
    pub basic_size: u32,
}

/// What an object must hold that stands between a coroutine and what it awaits.
#[derive(Clone, Copy)]
pub enum Wants {
    /// An object of the class at this address, which it awaits.
    Class(u64),
    /// Any object, which it awaits.
    Any,
    /// A future, at which a chain ends.
    Future,
}

/// An object that stands between a coroutine and what it awaits.
#[derive(Clone, Copy)]
pub struct Held {
    /// How many bytes it has.
    pub size: u32,
    /// Where the word stands that names what it holds.
    pub held: u32,
    /// What that must be.
    pub wants: Wants,
}

/// The objects that stand between a coroutine and what it awaits, by the names of their types; none where it is not
/// described.
#[derive(Clone, Copy)]
pub struct Holders {
    /// `coroutine_wrapper`: what `__await__` of a coroutine gives.
    pub coroutine_wrapper: Option<Held>,
    /// `async_generator_asend`: what `__anext__` and `asend` of an async generator give.
    pub asend: Option<Held>,
    /// `async_generator_athrow`: what its `athrow` and `aclose` give.
    pub athrow: Option<Held>,
    /// `anext_awaitable`: what `anext` with a default gives.
    pub anext_awaitable: Option<Held>,
    /// `_asyncio.FutureIter`: what `__await__` of a future gives.
    pub future_iter: Option<Held>,
}

/// The instruction by which a frame that awaits goes on, and where code has its instructions.
#[derive(Clone, Copy)]
pub struct CodePlaces {
    /// Where code names its instructions, which are a bytes object, up to 3.10.
    pub bytecode: u32,
    /// Where the bytes of that object begin.
    pub start: u32,
    /// The opcode of the instruction behind the last one of a frame that awaits.
    pub first: u32,
    /// Another that stands for it.
    pub second: u32,
    /// The least argument of that instruction.
    pub least: u32,
}

/// The bytes by which a frame says its state, from 3.10 on.
#[derive(Debug, Clone, Copy, Drop, PartialEq, Eq)]
pub struct States {
    pub created: u32,
    pub suspended: u32,
    pub running: u32,
    /// That of a frame that awaits, where the state says so (3.13); then `suspended` is in a plain `yield`.
    pub awaiting: Option<u32>,
}

/// How a frame object tells its state and its stack.
#[derive(Debug, Clone, Copy, Drop, PartialEq, Eq)]
pub enum ApartStack {
    /// By a pointer behind the top, and no state (3.7 to 3.9).
    Pointer {
        /// The address behind the topmost value; 0 where it is not stored.
        top: u32,
    },
    /// By a count and a state (3.10).
    Depth {
        /// The address of the lowest value.
        bottom: u32,
        /// How many values there are, 4 bytes.
        depth: u32,
        /// The state, 1 byte.
        state: u32,
        states: States,
    },
}

/// Coroutines whose frame is an object of its own (3.7 to 3.10).
#[derive(Debug, Clone, Copy, Drop, PartialEq, Eq)]
pub struct ApartPlaces {
    /// How many bytes of a coroutine are read.
    pub size: u32,
    /// The frame's address; 0 once it is finished.
    pub frame: u32,
    /// Whether it runs, 1 byte, up to 3.9.
    pub running: Option<u32>,
    /// How many bytes of the frame are read.
    pub frame_size: u32,
    /// The address of the frame's code.
    pub code: u32,
    /// The frame's last instruction, 4 bytes: below 0 before the first one.
    pub last: u32,
    pub stack: ApartStack,
}

/// Coroutines that have their frame inside (from 3.11 on).
#[derive(Debug, Clone, Copy, Drop, PartialEq, Eq)]
pub struct InsidePlaces {
    /// How many bytes of a coroutine are read.
    pub size: u32,
    /// Where the frame begins.
    pub frame: u32,
    /// The state, 1 byte.
    pub state: u32,
    pub states: States,
    /// The address of the last instruction, from the frame's start on.
    pub instruction: u32,
    /// How many words are in use from the first local on, 4 bytes, from the frame's start on.
    pub depth: u32,
    /// Where the first local stands, from the frame's start on.
    pub stack: u32,
}

/// How coroutines, generators and async generators stand in memory.
#[derive(Debug, Clone, Copy, Drop, PartialEq, Eq)]
pub enum Family {
    Apart(ApartPlaces),
    Inside(InsidePlaces),
}

/// Where the parts of coroutines stand, and of what they await, and which types they have.
#[derive(Clone, Copy)]
pub struct Places {
    pub types: AwaitTypes,
    pub class: ClassPlaces,
    pub holders: Holders,
    pub code: CodePlaces,
    pub family: Family,
}

/// Whether `len` bytes at a place lie in a record.
fn lies(place: u32, len: u32, size: u32) -> bool
    ensures is { IsTrue result ↔ (place + len ≤ size) }
    ensures told { result ≡ lies (place + len) size }
{
    place as u64 + len as u64 <= size as u64
}

/// Whether the parts of a frame's stack lie in its record.
fn is_sound_stack(stack: &ApartStack, size: u32) -> bool
    ensures is { IsTrue result ↔ IsSoundStack stack.now size }
    ensures told { result ≡ is_sound_stack stack.now size }
{
    match *stack {
        ApartStack::Pointer { top } => lies(top, 8, size),
        ApartStack::Depth {
            bottom,
            depth,
            state,
            ..
        } => lies(bottom, 8, size) && lies(depth, 4, size) && lies(state, 1, size),
    }
}

/// Whether `len` bytes at a place behind another one lie in a record.
fn lies_behind(first: u32, place: u32, len: u32, size: u32) -> bool
    ensures is { IsTrue result ↔ (first + place + len ≤ size) }
    ensures told { result ≡ lies (first + place + len) size }
{
    first as u64 + place as u64 + len as u64 <= size as u64
}

/// Whether a place of one byte lies in a record, where there is such a place.
fn lies_if_there(place: Option<u32>, size: u32) -> bool
    ensures is { IsTrue result ↔ IfSome place (λ place. place + 1 ≤ size) }
    ensures told { result ≡ lies_if_there place size }
{
    match place {
        None => true,
        Some(place) => lies(place, 1, size),
    }
}

fn is_sound_apart(places: &ApartPlaces) -> bool
    ensures is { IsTrue result ↔ IsSoundApart places.now }
    ensures told { result ≡ is_sound_apart places.now }
{
    let (size, frame_size) = (places.size, places.frame_size);
    lies(places.frame, 8, size)
        && lies_if_there(places.running, size)
        && size < 65536
        && lies(places.code, 8, frame_size)
        && lies(places.last, 4, frame_size)
        && is_sound_stack(&places.stack, frame_size)
        && frame_size < 65536
}

fn is_sound_inside(places: &InsidePlaces) -> bool
    ensures is { IsTrue result ↔ IsSoundInside places.now }
    ensures told { result ≡ is_sound_inside places.now }
{
    let (frame, size) = (places.frame, places.size);
    lies(places.state, 1, size)
        && lies_behind(frame, places.instruction, 8, size)
        && lies_behind(frame, places.depth, 4, size)
        && size < 65536
}

/// Whether what is read of each record of coroutines lies inside it, and a record has fewer than 65536 bytes.
pub fn is_sound_family(family: &Family) -> bool
    ensures is { IsTrue result ↔ IsSoundFamily family.now }
    ensures told { result ≡ is_sound_family family.now }
{
    match family {
        Family::Apart(apart) => is_sound_apart(apart),
        Family::Inside(inside) => is_sound_inside(inside),
    }
}

/// Whether what is read of each record lies inside it, and a record has fewer than 65536 bytes.
pub fn is_sound(places: &Places) -> bool
    ensures { IsTrue result ↔ IsSound places.now }
{
    is_sound_family(&places.family)
}
