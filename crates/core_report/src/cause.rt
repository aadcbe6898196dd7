//! Why a command gives no text.
ghost use Rattle.std.specs.Prelude.{◌≡◌};

use crate::lines::cause_parts;
use core_merge::CoreMergeError;
use core_stacks::SlimmedError;
use core_texts::Parts;
use object_reach::ReachError;
use program_run::RunCause;
use py_layout::LayoutError;
use py_process::CoreError;
use std::alloc::AllocError;

/// Why a command gives no text.
#[derive(Debug, Drop)]
pub(crate) enum Cause {
    /// The work over a core came to an error.
    Core(CoreError),
    /// The layout file has a fault.
    Layouts(LayoutError),
    /// There is no list of what a thread's locals lead to.
    Reach(ReachError),
    /// What a thread's locals lead to was asked for, and there are no more threads than this number.
    ReachIndex { index: u64 },
    /// The frames of a thread are not merged with native addresses.
    Merge(CoreMergeError),
    /// A thread was to be merged with native addresses, and there are no more threads than this number.
    MergeIndex { index: u64 },
    /// What the stacks of a process need has this many pieces, more than a core's header can count
    /// (`core_stacks::SlimmedError::TooManyPieces`).
    TooManyPieces { count: u64 },
    /// There was no memory left.
    OutOfMemory,
}

/// Why a run printed nothing, or not all.
pub(crate) type Trouble<'a> = program_run::Trouble<'a, Cause>;

impl RunCause for Cause {
    ghost use Rattle.core_report.specs.Lines.{cause_says};
    ghost use Rattle.core_report.specs.declared.cause.Cause.TheVariants.{OutOfMemory};

    ghost says = { cause_says };

    ghost memory = { OutOfMemory };

    fn out_of_memory() -> Cause {
        Cause::OutOfMemory
    }

    fn status(&self) -> u8 {
        match self {
            Cause::Core(CoreError::OutOfMemory)
            | Cause::Layouts(LayoutError::OutOfMemory)
            | Cause::Reach(ReachError::OutOfMemory)
            | Cause::Merge(CoreMergeError::OutOfMemory)
            | Cause::OutOfMemory => 5,
            Cause::Core(_) => 1,
            Cause::Layouts(_) => 6,
            Cause::Merge(_) | Cause::MergeIndex { .. } => 7,
            Cause::TooManyPieces { .. } => 8,
            Cause::Reach(ReachError::ReachLimit) | Cause::ReachIndex { .. } => 9,
        }
    }

    fn parts<'a>(&'a self) -> Parts<'a> {
        cause_parts(self)
    }
}

impl From<CoreError> for Cause {
    ghost use Rattle.core_report.specs.declared.cause.Cause.TheVariants.{Core};

    ghost from_gives = { λ error cause. cause ≡ Core error };

    fn from(error: CoreError) -> Cause {
        Cause::Core(error)
    }
}

impl From<LayoutError> for Cause {
    ghost use Rattle.core_report.specs.declared.cause.Cause.TheVariants.{Layouts};

    ghost from_gives = { λ error cause. cause ≡ Layouts error };

    fn from(error: LayoutError) -> Cause {
        Cause::Layouts(error)
    }
}

impl From<ReachError> for Cause {
    ghost use Rattle.core_report.specs.declared.cause.Cause.TheVariants.{Reach};

    ghost from_gives = { λ error cause. cause ≡ Reach error };

    fn from(error: ReachError) -> Cause {
        Cause::Reach(error)
    }
}

impl From<CoreMergeError> for Cause {
    ghost use Rattle.core_report.specs.declared.cause.Cause.TheVariants.{Merge};

    ghost from_gives = { λ error cause. cause ≡ Merge error };

    fn from(error: CoreMergeError) -> Cause {
        Cause::Merge(error)
    }
}

impl From<SlimmedError> for Cause {
    ghost use Rattle.core_report.specs.Opening.{slim_cause};

    ghost from_gives = { λ error cause. cause ≡ slim_cause error };

    fn from(error: SlimmedError) -> Cause {
        match error {
            SlimmedError::Core(error) => Cause::Core(error),
            SlimmedError::TooManyPieces { count } => Cause::TooManyPieces { count },
            SlimmedError::OutOfMemory => Cause::OutOfMemory,
        }
    }
}

impl From<AllocError> for Cause {
    ghost use Rattle.core_report.specs.declared.cause.Cause.TheVariants.{OutOfMemory};

    ghost from_gives = { λ _ cause. cause ≡ OutOfMemory };

    fn from(_error: AllocError) -> Cause {
        Cause::OutOfMemory
    }
}
