//! The words of JSON.
ghost use Rattle.std.specs.Prelude.{◌≡◌};
ghost use Rattle.task_texts.specs.Words.{condition_word, kind_word, state_word};

use py_coroutines::Kind;
use py_tasks::{Condition, TaskState};

/// What a future or a task says of itself.
pub(crate) fn state_word(state: TaskState) -> &'static str
    ensures { result.now ≡ state_word state }
{
    match state {
        TaskState::Pending => "pending",
        TaskState::Cancelled => "cancelled",
        TaskState::Finished => "finished",
        TaskState::Other(_) => "unknown",
    }
}

/// What a task does.
pub(crate) fn condition_word(condition: Condition) -> &'static str
    ensures { result.now ≡ condition_word condition }
{
    match condition {
        Condition::Done => "done",
        Condition::Running => "running",
        Condition::NotStarted => "not started",
        Condition::Ready => "ready",
        Condition::Waiting => "waiting",
    }
}

/// What a member is.
pub(crate) fn kind_word(kind: Option<Kind>) -> &'static str
    ensures { result.now ≡ kind_word kind }
{
    match kind {
        Some(Kind::Coroutine) => "coroutine",
        Some(Kind::Generator) => "generator",
        Some(Kind::AsyncGenerator) => "async generator",
        None => "between",
    }
}
