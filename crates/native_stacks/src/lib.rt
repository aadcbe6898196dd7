//! The native stacks of the threads of a core: of each thread of the status records its frames, from the newest on,
//! with the functions' names, and how the stack ends, by the core and the files that it mapped alone.
//!
//! A stack is that of `core_unwind`: by tables alone. What follows a guess stands apart, and is no part of it.
#![tactic(auto)]

mod first;
mod reading;
mod stacks;
mod text;
mod tree;

pub use first::notes_of_first;
pub use reading::read_native_stacks;
pub use stacks::{NativeStacks, NativeThread};
pub use text::{push_native_stacks, push_thread, push_thread_head};
pub use tree::native_value;
