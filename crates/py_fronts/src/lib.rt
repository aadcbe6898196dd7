//! Stacks out of a broken memory: the first members of each chain, and how it ends.
//!
//! An interpreter names its first thread, each thread the next one and its newest frame, and each frame the one that
//! called it. What was lost of such a chain loses what stands behind it, and nothing in front of it: a front is the
//! members up to there, each the next of the one before, and how they end. Marks stand beside them: who holds the lock
//! of each interpreter, and which thread got the signal.
#![tactic(auto)]

mod candidates;
mod chain_end;
mod crash;
mod frame_front;
mod fronts;
mod id;
mod interpreters;
mod line;
mod lock;
mod members;
mod salvaged;
mod search;
mod sections;
mod standing;
mod table_line;
mod thread_front;
mod threads;

pub use candidates::named_candidates;
pub use chain_end::ChainEnd;
pub use crash::{Crash, crash_of, crashed_at, is_crashed, is_id, status_thread};
pub use frame_front::FramesFront;
pub use fronts::{Fronts, InterpreterFront, get_fronts, read_interpreters};
pub use interpreters::{FoundInterpreter, FoundInterpreters, InterpreterSearch, find_interpreters};
pub use line::shown_line;
pub use lock::{LockState, holds_lock, lock_state};
pub use salvaged::{Salvaged, SalvagedInterpreter, first_crashed, salvage, with_locks};
pub use search::{Looked, Trial, try_address};
pub use sections::piece_words;
pub use standing::Standing;
pub use thread_front::{Thread, ThreadFront, ThreadsFront, read_thread};
pub use threads::get_threads_front;
