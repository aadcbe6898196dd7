//! Futures, tasks and handles of asyncio.
ghost use Rattle.std.specs.Prelude.{◌≡◌, ◌↔◌, IsTrue, IfSome, option_map, codes, Some, None};
ghost use Rattle.toml.specs.View.{table_view};
ghost use Rattle.py_layout.specs.Values.{group_at};
ghost use Rattle.py_records.specs.Tasks.{future_places, IsSoundFuture, future_in, task_places, IsSoundTask, task_in};
ghost use Rattle.py_records.specs.Tasks.{IsSoundTaskName, task_name_in, carrier_places, IsSoundCarrier, carrier_in};
ghost use Rattle.py_records.specs.Tasks.{handle_places, IsSoundHandle, handle_in, timer_handle_places};
ghost use Rattle.py_records.specs.Tasks.{IsSoundTimerHandle, timer_handle_in, tasks_from, AreSoundTasks};
ghost use Rattle.py_records.specs.Tasks.{joined_tasks, share_tasks, no_tasks};

use crate::places::{Place, any_both, are_plain, is_record};
use crate::values::{group_at, number_in};
use toml::Table;

/// A future (`FutureObj`, Modules/_asynciomodule.c).
#[derive(Clone, Copy)]
pub struct FutureRecord {
    /// The basic size that its type states.
    pub size: u32,
    /// The address of the event loop.
    pub event_loop: u32,
    /// The address of the first callback.
    pub callback0: u32,
    /// The address of the list of the others.
    pub callbacks: u32,
    /// The address of the exception.
    pub exception: u32,
    /// The address of the result.
    pub result: u32,
    /// 0 while it is pending, 1 once it is cancelled, 2 once it is finished. It has 4 bytes.
    pub state: u32,
}

/// A task, which begins with a future (`TaskObj`, Modules/_asynciomodule.c).
#[derive(Clone, Copy)]
pub struct TaskRecord {
    /// The basic size that its type states.
    pub size: u32,
    /// The address of the future that it waits for.
    pub waiter: u32,
    /// The address of its coroutine.
    pub coro: u32,
    /// The byte that says whether it is to be cancelled.
    pub cancel: u32,
    /// The bit of that byte.
    pub cancel_bit: u32,
}

/// A task from 3.8 on (`TaskObj`, Modules/_asynciomodule.c).
#[derive(Clone, Copy)]
pub struct TaskNameRecord {
    /// The address of its name: a text or, from 3.12 on, maybe a number.
    pub name: u32,
}

/// An object of asyncio that holds a future or a task.
#[derive(Clone, Copy)]
pub struct CarrierRecord {
    /// The basic size that its type states.
    pub size: u32,
    /// The address of the future or task.
    pub held: u32,
}

/// A call that is to come (the slots of `Handle`, Lib/asyncio/events.py).
#[derive(Clone, Copy)]
pub struct HandleRecord {
    /// The basic size that its type states.
    pub size: u32,
    /// The address of the tuple of arguments.
    pub args: u32,
    /// The address of what is called.
    pub callback: u32,
    /// The address of whether it is cancelled.
    pub cancelled: u32,
}

/// A call at a time, which begins with a handle (the slots of `TimerHandle`, Lib/asyncio/events.py).
#[derive(Clone, Copy)]
pub struct TimerHandleRecord {
    /// The basic size that its type states.
    pub size: u32,
    /// The address of the time on the loop's clock.
    pub when: u32,
}

/// Futures, tasks and handles of asyncio. Each group is there or not.
#[derive(Clone, Copy)]
pub struct TaskRecords {
    pub future: Option<FutureRecord>,
    pub task: Option<TaskRecord>,
    pub task_name: Option<TaskNameRecord>,
    /// What `__await__` of a future gives; it holds the future (`futureiterobject`,
    /// Modules/_asynciomodule.c).
    pub future_iter: Option<CarrierRecord>,
    /// A step of a task that is to come; it holds the task (`TaskStepMethWrapper`, Modules/_asynciomodule.c).
    pub task_step: Option<CarrierRecord>,
    /// What wakes a task up to 3.9; it holds the task (`TaskWakeupMethWrapper`, Modules/_asynciomodule.c).
    pub task_wakeup: Option<CarrierRecord>,
    pub handle: Option<HandleRecord>,
    pub timer_handle: Option<TimerHandleRecord>,
}

fn future_from(table: &Table) -> Option<FutureRecord>
    ensures { result ≡ option_map future_in (group_at (table_view table.now) (codes "future")) }
{
    match group_at(table, "future") {
        Some(group) => Some(FutureRecord {
            size: number_in(group, "size"),
            event_loop: number_in(group, "loop"),
            callback0: number_in(group, "callback0"),
            callbacks: number_in(group, "callbacks"),
            exception: number_in(group, "exception"),
            result: number_in(group, "result"),
            state: number_in(group, "state"),
        }),
        None => None,
    }
}

#[tactic(auto, unfolding(crate::specs::Tasks::future_places))]
fn future_places(at: &FutureRecord) -> [Place; 6]
    ensures { result ≡ future_places at.now }
{
    [
        (at.event_loop, 8),
        (at.callback0, 8),
        (at.callbacks, 8),
        (at.exception, 8),
        (at.result, 8),
        (at.state, 4),
    ]
}

fn is_sound_future(at: Option<FutureRecord>) -> bool
    ensures { IsTrue result ↔ IfSome at IsSoundFuture }
{
    match at {
        Some(at) => is_record(at.size, &future_places(&at)),
        None => true,
    }
}

fn task_from(table: &Table) -> Option<TaskRecord>
    ensures { result ≡ option_map task_in (group_at (table_view table.now) (codes "task")) }
{
    match group_at(table, "task") {
        Some(group) => Some(TaskRecord {
            size: number_in(group, "size"),
            waiter: number_in(group, "waiter"),
            coro: number_in(group, "coro"),
            cancel: number_in(group, "cancel"),
            cancel_bit: number_in(group, "cancel_bit"),
        }),
        None => None,
    }
}

#[tactic(auto, unfolding(crate::specs::Tasks::task_places))]
fn is_sound_task(at: Option<TaskRecord>) -> bool
    ensures { IsTrue result ↔ IfSome at IsSoundTask }
{
    match at {
        Some(at) => is_record(at.size, &[(at.waiter, 8), (at.coro, 8), (at.cancel, 1)])
            && are_plain(&[at.cancel_bit]),
        None => true,
    }
}

fn task_name_from(table: &Table) -> Option<TaskNameRecord>
    ensures { result ≡ option_map task_name_in (group_at (table_view table.now) (codes "task_name")) }
{
    match group_at(table, "task_name") {
        Some(group) => Some(TaskNameRecord {
            name: number_in(group, "name"),
        }),
        None => None,
    }
}

fn is_sound_task_name(at: Option<TaskNameRecord>) -> bool
    ensures { IsTrue result ↔ IfSome at IsSoundTaskName }
{
    match at {
        Some(at) => are_plain(&[at.name]),
        None => true,
    }
}

fn carrier_from(table: &Table, name: &str) -> Option<CarrierRecord>
    ensures { result ≡ option_map carrier_in (group_at (table_view table.now) name.now) }
{
    match group_at(table, name) {
        Some(group) => Some(CarrierRecord {
            size: number_in(group, "size"),
            held: number_in(group, "held"),
        }),
        None => None,
    }
}

#[tactic(auto, unfolding(crate::specs::Tasks::carrier_places))]
fn is_sound_carrier(at: Option<CarrierRecord>) -> bool
    ensures { IsTrue result ↔ IfSome at IsSoundCarrier }
{
    match at {
        Some(at) => is_record(at.size, &[(at.held, 8)]),
        None => true,
    }
}

fn handle_from(table: &Table) -> Option<HandleRecord>
    ensures { result ≡ option_map handle_in (group_at (table_view table.now) (codes "handle")) }
{
    match group_at(table, "handle") {
        Some(group) => Some(HandleRecord {
            size: number_in(group, "size"),
            args: number_in(group, "args"),
            callback: number_in(group, "callback"),
            cancelled: number_in(group, "cancelled"),
        }),
        None => None,
    }
}

#[tactic(auto, unfolding(crate::specs::Tasks::handle_places))]
fn is_sound_handle(at: Option<HandleRecord>) -> bool
    ensures { IsTrue result ↔ IfSome at IsSoundHandle }
{
    match at {
        Some(at) => is_record(
            at.size,
            &[(at.args, 8), (at.callback, 8), (at.cancelled, 8)],
        ),
        None => true,
    }
}

fn timer_handle_from(table: &Table) -> Option<TimerHandleRecord>
    ensures { result ≡ option_map timer_handle_in (group_at (table_view table.now) (codes "timer_handle")) }
{
    match group_at(table, "timer_handle") {
        Some(group) => Some(TimerHandleRecord {
            size: number_in(group, "size"),
            when: number_in(group, "when"),
        }),
        None => None,
    }
}

#[tactic(auto, unfolding(crate::specs::Tasks::timer_handle_places))]
fn is_sound_timer_handle(at: Option<TimerHandleRecord>) -> bool
    ensures { IsTrue result ↔ IfSome at IsSoundTimerHandle }
{
    match at {
        Some(at) => is_record(at.size, &[(at.when, 8)]),
        None => true,
    }
}

/// The groups that a table says.
#[tactic(auto, unfolding(crate::specs::Tasks::tasks_from))]
pub fn tasks_from(table: &Table) -> TaskRecords
    ensures { result ≡ tasks_from (table_view table.now) }
{
    TaskRecords {
        future: future_from(table),
        task: task_from(table),
        task_name: task_name_from(table),
        future_iter: carrier_from(table, "future_iter"),
        task_step: carrier_from(table, "task_step"),
        task_wakeup: carrier_from(table, "task_wakeup"),
        handle: handle_from(table),
        timer_handle: timer_handle_from(table),
    }
}

/// Whether each group that is there is sound.
pub fn are_sound_tasks(records: &TaskRecords) -> bool
    ensures { IsTrue result ↔ AreSoundTasks records.now }
{
    is_sound_future(records.future)
        && is_sound_task(records.task)
        && is_sound_task_name(records.task_name)
        && is_sound_carrier(records.future_iter)
        && is_sound_carrier(records.task_step)
        && is_sound_carrier(records.task_wakeup)
        && is_sound_handle(records.handle)
        && is_sound_timer_handle(records.timer_handle)
}

/// No group is there.
pub fn no_tasks() -> TaskRecords
    ensures { result ≡ no_tasks }
{
    TaskRecords {
        future: None,
        task: None,
        task_name: None,
        future_iter: None,
        task_step: None,
        task_wakeup: None,
        handle: None,
        timer_handle: None,
    }
}

/// Each group of the first that is there, and else of the second.
#[tactic(auto, unfolding(crate::specs::Tasks::joined_tasks))]
pub fn joined_tasks(one: &TaskRecords, other: &TaskRecords) -> TaskRecords
    ensures { result ≡ joined_tasks one.now other.now }
{
    TaskRecords {
        future: one.future.or(other.future),
        task: one.task.or(other.task),
        task_name: one.task_name.or(other.task_name),
        future_iter: one.future_iter.or(other.future_iter),
        task_step: one.task_step.or(other.task_step),
        task_wakeup: one.task_wakeup.or(other.task_wakeup),
        handle: one.handle.or(other.handle),
        timer_handle: one.timer_handle.or(other.timer_handle),
    }
}

/// Whether a group is there in both.
#[tactic(auto, unfolding(crate::specs::Tasks::share_tasks))]
pub fn share_tasks(one: &TaskRecords, other: &TaskRecords) -> bool
    ensures { result ≡ share_tasks one.now other.now }
{
    any_both(
        &[
            one.future.is_some(),
            one.task.is_some(),
            one.task_name.is_some(),
            one.future_iter.is_some(),
            one.task_step.is_some(),
            one.task_wakeup.is_some(),
            one.handle.is_some(),
            one.timer_handle.is_some(),
        ],
        &[
            other.future.is_some(),
            other.task.is_some(),
            other.task_name.is_some(),
            other.future_iter.is_some(),
            other.task_step.is_some(),
            other.task_wakeup.is_some(),
            other.handle.is_some(),
            other.timer_handle.is_some(),
        ],
    )
}
