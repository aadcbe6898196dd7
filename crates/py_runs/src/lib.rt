//! The runs of a thread: which of its frames one call of the interpreter's loop executes.
//!
//! Up to 3.10 each frame is a run of its own. In 3.11 a run goes up to a frame that says that it is an entry, and from
//! 3.12 on up to a frame that the C stack owns, which stands for no Python function; so that a run may have no Python
//! frame. From 3.11 on CPython keeps a record of each run among the local variables of the C function that executes it
//! (Python/ceval.c, `_PyEval_EvalFrameDefault`), its border: in 3.11 the C frame whose current frame begins the run,
//! from 3.12 on the frame at which it ends.
#![tactic(auto)]

mod c_frame;
mod closing;
mod cut;
mod found;
mod member;
mod run_rule;
mod thread;

pub use cut::Run;
pub use run_rule::{RunEnd, run_end};
pub use thread::read_runs;
