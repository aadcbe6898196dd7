//! Native stacks over the files that a process had mapped, with the names of functions.
//!
//! Which files were mapped, and where, the file tables of a core say, and the auxiliary vector where the vdso is; a
//! file is at hand where its bytes are handed in under its path. A stack is that of `core_unwind`: by tables, and by
//! marks where none covers an address. What follows a guess stands apart, and is no part of it.
#![tactic(auto)]

mod escape;
mod files;
mod limits;
mod mapped;
mod naming;
mod stacks;
mod symbols;
mod table;
mod text;
mod thread;
mod tree;
mod vdso;

pub use limits::{code_bits, frame_machine};
pub use mapped::{Mapped, mapped_files};
pub use naming::Kept;
pub use stacks::{Function, NativeFrame, ThreadStack};
pub use symbols::FileSymbols;
pub use text::{push_frame_line, push_stack, push_stack_end};
pub use thread::{StackParts, stack_parts};
pub use tree::stack_value;
