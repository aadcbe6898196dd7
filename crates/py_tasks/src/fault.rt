//! Why tasks are not told.
ghost use Rattle.std.specs.Prelude.{◌≡◌};
ghost use Rattle.py_names.specs.NamesError.{names_fault};
ghost use Rattle.py_tasks.specs.Faults.{IsLostBy, IsOrNone};

use py_builtins::ObjectError;
use py_names::NamesError;

/// Why something is not told.
#[derive(Debug, Clone, Copy, Drop, PartialEq, Eq)]
pub enum TasksFault {
    /// These bytes are not in memory.
    Unreadable { addr: u64, len: u64 },
    /// There are more than are looked at.
    TooMany,
    /// Something on the way is not what it has to be.
    Malformed,
}

/// The fault that an error is; out of memory is handed on.
pub(crate) fn fault_by(error: NamesError) -> Result<TasksFault, NamesError>
    ensures { IsLostBy (names_fault error) result }
{
    match error {
        NamesError::OutOfMemory => Err(NamesError::OutOfMemory),
        NamesError::Entries => Ok(TasksFault::TooMany),
        NamesError::NoDicts => Ok(TasksFault::Malformed),
        NamesError::Object(ObjectError::OutOfMemory) => Err(NamesError::OutOfMemory),
        NamesError::Object(ObjectError::Unreadable { addr, len }) => {
            Ok(TasksFault::Unreadable { addr, len })
        }
        NamesError::Object(ObjectError::NoText) => Ok(TasksFault::Malformed),
        NamesError::Object(ObjectError::TooLong { .. }) => Ok(TasksFault::Malformed),
        NamesError::Object(ObjectError::BadDict) => Ok(TasksFault::Malformed),
        NamesError::Object(ObjectError::BadType) => Ok(TasksFault::Malformed),
        NamesError::Object(ObjectError::Visits) => Ok(TasksFault::Malformed),
        NamesError::Object(ObjectError::Depth) => Ok(TasksFault::Malformed),
        NamesError::Object(ObjectError::BadCount { .. }) => Ok(TasksFault::Malformed),
        NamesError::Object(ObjectError::BadBool { .. }) => Ok(TasksFault::Malformed),
    }
}

/// None, where something is not told; out of memory is handed on.
pub(crate) fn or_none<T: Drop>(
    found: Result<Option<T>, NamesError>,
) -> Result<Option<T>, NamesError>
    ensures { IsOrNone found result }
{
    match found {
        Ok(value) => Ok(value),
        Err(error) => match fault_by(error) {
            Ok(_) => Ok(None),
            Err(error) => Err(error),
        },
    }
}
