//! The native stack of a thread, by its registers, the memory of its process and the files that were mapped.
//!
//! A stack is a chain of steps. A step takes the call frame information of the file in which the thread stands, and
//! gives the registers that the caller had, by DWARF 5, section 6.4, and the psABI of the machine. Where no table
//! covers the address, the frame's own instructions may say it (the code to which a handler of a signal returns, and
//! what stands before a return); such a frame has a mark. A chain ends where nothing says how it goes on, and the end
//! says why. What is guessed stands apart: who may have called there is no part of the stack, but where another one may
//! begin (`read_guess`). The crate knows no core: memory is any `ProcessMemory`, and files are their bytes.
#![tactic(auto)]

mod base;
mod code_map;
mod end;
mod epilogue;
mod expression;
mod frame;
mod guess;
mod kept;
mod mark;
mod marked;
mod place;
mod read;
mod state;
mod step;
mod thread;
mod trampoline;
mod turn;
mod value;
mod walk;
mod words;

pub use code_map::CodeMap;
pub use end::{End, Limit, Refusal, UnwindError};
pub use frame::{Frame, Next, Turn};
pub use guess::{Guess, read_guess};
pub use mark::{Manner, Mark};
pub use marked::read_step;
pub use place::{CodePlace, Mapping};
pub use state::State;
pub use thread::thread_state;
pub use walk::{NativeStack, read_stack};
