//! The tasks of asyncio in an interpreter: what each waits for, and where it stands.
#![tactic(auto)]

mod bases;
mod chain;
mod described;
mod entries;
mod fault;
mod fields;
mod frameworks;
mod names;
mod task;
mod tasks;
mod told;
mod types;
mod waiter;

pub(crate) use described::{TaskPlaces, TaskTypes};
pub use fault::TasksFault;
pub use frameworks::{Framework, Frameworks, read_frameworks};
pub use task::{
    Chain, Condition, Entry, Member, Task, TaskName, TaskState, TasksOf, Waiter, condition_of,
};
pub use tasks::read_tasks;
