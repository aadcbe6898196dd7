//! How many tasks there are, by what they do.
ghost use Rattle.std.specs.Prelude.{◌≡◌, map};
ghost use Rattle.py_tasks.specs.Shown.{entry_shown};
ghost use Rattle.task_texts.specs.Counts.{counts_of, does, does_not, is_condition, number_of, number_without};

use py_tasks::{Condition, Entry, condition_of};

/// How many tasks are not done, how many of these run, are ready, have not started and wait, and how many are done.
#[derive(Clone, Copy)]
pub(crate) struct Counts {
    pub(crate) pending: usize,
    pub(crate) running: usize,
    pub(crate) ready: usize,
    pub(crate) not_started: usize,
    pub(crate) waiting: usize,
    pub(crate) done: usize,
}

/// Whether a condition is another one.
fn is_condition(own: Condition, sought: Condition) -> bool
    ensures { result ≡ is_condition own sought }
{
    own == sought
}

/// Whether an entry is a task of which all is told, and does this.
fn does(sought: Condition, entry: &Entry) -> bool
    ensures { result ≡ does sought (entry_shown entry.now) }
{
    match entry {
        Entry::Task(task) => is_condition(condition_of(task), sought),
        Entry::Lost { .. } => false,
        Entry::Other { .. } => false,
    }
}

/// How many entries are tasks that do this.
fn number_of(sought: Condition, entries: &[Entry]) -> usize
    ensures { result ≡ number_of sought (map entry_shown entries.now) }
{
    entries.iter().filter(|entry| does(sought, entry)).count()
}

/// Whether an entry is a task of which all is told, and does something else.
fn does_not(shunned: Condition, entry: &Entry) -> bool
    ensures { result ≡ does_not shunned (entry_shown entry.now) }
{
    match entry {
        Entry::Task(task) => !is_condition(condition_of(task), shunned),
        Entry::Lost { .. } => false,
        Entry::Other { .. } => false,
    }
}

/// How many entries are tasks that do something else.
fn number_without(shunned: Condition, entries: &[Entry]) -> usize
    ensures { result ≡ number_without shunned (map entry_shown entries.now) }
{
    entries
        .iter()
        .filter(|entry| does_not(shunned, entry))
        .count()
}

/// How many there are of each kind.
pub(crate) fn counts_of(entries: &[Entry]) -> Counts
    ensures { result ≡ counts_of (map entry_shown entries.now) }
{
    Counts {
        pending: number_without(Condition::Done, entries),
        running: number_of(Condition::Running, entries),
        ready: number_of(Condition::Ready, entries),
        not_started: number_of(Condition::NotStarted, entries),
        waiting: number_of(Condition::Waiting, entries),
        done: number_of(Condition::Done, entries),
    }
}
