//! Why there is no text.
ghost use Rattle.std.specs.Prelude.{◌≡◌};

use crate::lines::cause_parts;
use core_texts::Parts;
use program_run::RunCause;
use py_layout::LayoutError;
use py_process::CoreError;
use py_records::RecordsError;
use py_stacks::StackError;
use std::alloc::AllocError;

/// Why there is no text.
#[derive(Debug, Drop)]
pub(crate) enum Cause {
    /// The core's process can't be opened.
    Core(CoreError),
    /// The layout file has a fault.
    Layouts(LayoutError),
    /// The file of records has a fault.
    Records(RecordsError),
    /// Of so many addresses, repeats included, none is an interpreter's that is shown; so many members of chains of
    /// threads were walked for those that are found by search alone.
    NoInterpreter { addresses: u64, members: u64 },
    /// There was no memory left.
    OutOfMemory,
}

/// Why a run printed nothing, or not all.
pub(crate) type Trouble<'a> = program_run::Trouble<'a, Cause>;

impl RunCause for Cause {
    ghost use Rattle.salvage_report.specs.Lines.{cause_says};
    ghost use Rattle.salvage_report.specs.declared.cause.Cause.TheVariants.{OutOfMemory};

    ghost says = { cause_says };

    ghost memory = { OutOfMemory };

    fn out_of_memory() -> Cause {
        Cause::OutOfMemory
    }

    fn status(&self) -> u8 {
        match self {
            Cause::Core(CoreError::OutOfMemory)
            | Cause::Layouts(LayoutError::OutOfMemory)
            | Cause::Records(RecordsError::OutOfMemory)
            | Cause::OutOfMemory => 5,
            Cause::Core(_) | Cause::NoInterpreter { .. } => 1,
            Cause::Layouts(_) | Cause::Records(_) => 6,
        }
    }

    fn parts<'a>(&'a self) -> Parts<'a> {
        cause_parts(self)
    }
}

impl From<CoreError> for Cause {
    ghost use Rattle.salvage_report.specs.declared.cause.Cause.TheVariants.{Core};

    ghost from_gives = { λ error cause. cause ≡ Core error };

    fn from(error: CoreError) -> Cause {
        Cause::Core(error)
    }
}

impl From<LayoutError> for Cause {
    ghost use Rattle.salvage_report.specs.declared.cause.Cause.TheVariants.{Layouts};

    ghost from_gives = { λ error cause. cause ≡ Layouts error };

    fn from(error: LayoutError) -> Cause {
        Cause::Layouts(error)
    }
}

impl From<RecordsError> for Cause {
    ghost use Rattle.salvage_report.specs.declared.cause.Cause.TheVariants.{Records};

    ghost from_gives = { λ error cause. cause ≡ Records error };

    fn from(error: RecordsError) -> Cause {
        Cause::Records(error)
    }
}

/// A reader of fronts has no other error than out of memory.
impl From<StackError> for Cause {
    ghost use Rattle.salvage_report.specs.declared.cause.Cause.TheVariants.{OutOfMemory};

    ghost from_gives = { λ _ cause. cause ≡ OutOfMemory };

    fn from(_error: StackError) -> Cause {
        Cause::OutOfMemory
    }
}

impl From<AllocError> for Cause {
    ghost use Rattle.salvage_report.specs.declared.cause.Cause.TheVariants.{OutOfMemory};

    ghost from_gives = { λ _ cause. cause ≡ OutOfMemory };

    fn from(_error: AllocError) -> Cause {
        Cause::OutOfMemory
    }
}
