//! Where the parts of coroutines stand in these memories, and what a chain is to be.
use py_coroutines::{AwaitEnd, AwaitTypes, ClassPlaces, Held, Holders, Wants};

/// The types, whose records stand at these addresses.
pub(crate) const TYPES: AwaitTypes = AwaitTypes {
    coroutine: 0x10,
    generator: 0x20,
    async_generator: 0x30,
    future: 0x40,
    task: 0x50,
};

/// An object has its class at 8; a class its flags, the size of its objects, and its name.
pub(crate) const CLASS: ClassPlaces = ClassPlaces {
    klass: 8,
    name: 16,
    flags: 0,
    basic_size: 8,
};

/// What stands between has 24 bytes.
pub(crate) const HOLDERS: Holders = Holders {
    coroutine_wrapper: Some(Held {
        size: 24,
        held: 16,
        wants: Wants::Class(0x10),
    }),
    asend: Some(Held {
        size: 24,
        held: 16,
        wants: Wants::Class(0x30),
    }),
    athrow: None,
    anext_awaitable: Some(Held {
        size: 24,
        held: 16,
        wants: Wants::Any,
    }),
    future_iter: Some(Held {
        size: 24,
        held: 16,
        wants: Wants::Future,
    }),
};

/// Where a chain begins, its limit, its members, and how it ends.
pub(crate) type Case = (u64, usize, &'static [u64], AwaitEnd);
