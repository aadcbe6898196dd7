//! What is told of tasks.
ghost use Rattle.std.specs.Prelude.{◌≡◌};
ghost use Rattle.py_tasks.specs.Shown.{condition_of, ended_by, is_settled, stopped_by, task_shown, waits_by};

use crate::TasksFault;
use coroutine_frames::CoroutineFrame;
use elf64_core::Text;
use py_coroutines::{AwaitEnd, Kind, Stop};

/// The state of a future or a task, as its record says it.
#[derive(Debug, Clone, Copy, Drop, PartialEq, Eq)]
pub enum TaskState {
    Pending,
    Cancelled,
    Finished,
    /// Another number, which none has.
    Other(u64),
}

/// The name of a task.
#[derive(Debug, Drop)]
pub enum TaskName {
    /// A text.
    Text(Text),
    /// The number of a task that was given no name, from 3.12 on.
    Number(u64),
}

/// What a task waits for.
#[derive(Debug, Drop)]
pub struct Waiter {
    pub address: u64,
    /// The name of its type; none where that is no text, or is not in memory.
    pub class: Option<Text>,
    /// Its state, where it is a future or a task of asyncio's C module.
    pub state: Option<TaskState>,
}

/// A member of a task's chain.
#[derive(Debug, Drop)]
pub struct Member {
    pub address: u64,
    /// What it is; none where it stands between two of them.
    pub kind: Option<Kind>,
    /// What its frame shows; none where it has none, or that is not in memory.
    pub frame: Option<CoroutineFrame>,
}

/// What awaits what, from a task's coroutine on, and how that ends.
#[derive(Debug, Drop)]
pub struct Chain {
    /// The members, the last one first: each is awaited by the one behind it.
    pub members: Vec<Member>,
    pub end: AwaitEnd,
}

/// A task.
#[derive(Debug, Drop)]
pub struct Task {
    pub address: u64,
    /// Its name; none up to 3.7, and where it is neither a text nor a number, or is not in memory.
    pub name: Option<TaskName>,
    pub state: TaskState,
    /// Whether it is to be cancelled.
    pub must_cancel: bool,
    /// The address of its event loop.
    pub event_loop: u64,
    /// The id of the thread in which its loop runs, of a task that runs, where the loop says it.
    pub thread_id: Option<u64>,
    pub waiter: Option<Waiter>,
    pub chain: Chain,
}

/// A registered object.
#[derive(Debug, Drop)]
pub enum Entry {
    Task(Task),
    /// A task of which something is not in memory, or an object of which that it is a task can't be told.
    Lost { address: u64, fault: TasksFault },
    /// Another object, and the name of its type.
    Other { address: u64, class: Option<Text> },
}

/// The tasks of an interpreter.
#[derive(Debug, Drop)]
pub enum TasksOf {
    /// It has no module `asyncio.tasks`.
    Without,
    /// No records say where the parts of tasks stand.
    NotDescribed,
    /// It has another C module of asyncio than the records tell of: its tasks have this size.
    Resized { size: u64 },
    /// A module's or a set's own record can't be read.
    Lost(TasksFault),
    /// The registered objects, each once, in the order of first mention.
    Read(Vec<Entry>),
}

/// What a task does.
#[derive(Debug, Clone, Copy, Drop, PartialEq, Eq)]
pub enum Condition {
    /// It is done, or its state is none.
    Done,
    Running,
    NotStarted,
    Ready,
    Waiting,
}

/// Whether a state is that of a future that is done.
fn is_settled(state: Option<TaskState>) -> bool
    ensures { result ≡ is_settled state }
{
    match state {
        Some(TaskState::Cancelled) => true,
        Some(TaskState::Finished) => true,
        Some(TaskState::Pending) => false,
        Some(TaskState::Other(_)) => false,
        None => false,
    }
}

/// Whether a task is ready or waits, by what it waits for.
fn waits_by(waiter: &Option<Waiter>) -> Condition
    ensures { result ≡ waits_by waiter.now }
{
    match waiter {
        None => Condition::Ready,
        Some(waiter) => {
            if is_settled(waiter.state) {
                Condition::Ready
            } else {
                Condition::Waiting
            }
        }
    }
}

/// What a pending task does whose chain ends by itself.
fn stopped_by(stop: Stop, waiter: &Option<Waiter>) -> Condition
    ensures { result ≡ stopped_by stop waiter.now }
{
    match stop {
        Stop::Running => Condition::Running,
        Stop::Created => Condition::NotStarted,
        Stop::Future { .. }
        | Stop::Yielding
        | Stop::Finished
        | Stop::NoTop
        | Stop::Other { .. }
        | Stop::Unreadable { .. } => waits_by(waiter),
    }
}

/// What a pending task does, by how its chain ends and what it waits for.
fn ended_by(end: AwaitEnd, waiter: &Option<Waiter>) -> Condition
    ensures { result ≡ ended_by end waiter.now }
{
    match end {
        AwaitEnd::Stops(stop) => stopped_by(stop, waiter),
        AwaitEnd::Cycle { .. } => waits_by(waiter),
        AwaitEnd::Cut { .. } => waits_by(waiter),
    }
}

/// What a task does, by its state, how its chain ends and what it waits for.
pub fn condition_of(task: &Task) -> Condition
    ensures { result ≡ condition_of (task_shown task.now) }
{
    match task.state {
        TaskState::Pending => ended_by(task.chain.end, &task.waiter),
        TaskState::Cancelled => Condition::Done,
        TaskState::Finished => Condition::Done,
        TaskState::Other(_) => Condition::Done,
    }
}
