//! Why a file was not read, and why a run has no text.
ghost use Rattle.std.specs.Prelude.{◌≡◌};

use crate::cause::RunCause;
use outside::FileFault;
use std::alloc::AllocError;

/// Why a file was not read.
#[derive(Drop)]
pub enum FileTrouble<'a> {
    /// The file of this name could not be read, or is too long.
    File { name: &'a [u8], fault: FileFault },
    /// There was no memory left.
    OutOfMemory,
}

/// Why a run has no text.
#[derive(Drop)]
pub enum Trouble<'a, C> {
    /// What the words ask for comes to no text.
    Cause(C),
    /// The words ask for nothing.
    Words,
    /// A file that they name could not be read, or is too long.
    File { name: &'a [u8], fault: FileFault },
}

impl<'a, C: RunCause> From<C> for Trouble<'a, C> {
    ghost use Rattle.program_run.specs.declared.trouble.Trouble.TheVariants.{Cause as Caused};

    ghost from_gives = { λ cause trouble. trouble ≡ Caused cause };

    fn from(cause: C) -> Trouble<'a, C> {
        Trouble::Cause(cause)
    }
}

impl<'a, C: RunCause> From<AllocError> for Trouble<'a, C> {
    ghost use Rattle.program_run.specs.declared.trouble.Trouble.TheVariants.{Cause as Caused};

    ghost from_gives = { λ _ trouble. trouble ≡ Caused C.memory };

    fn from(_error: AllocError) -> Trouble<'a, C> {
        Trouble::Cause(C::out_of_memory())
    }
}

impl<'a, C: RunCause> From<FileTrouble<'a>> for Trouble<'a, C> {
    ghost use Rattle.program_run.specs.Reading.{trouble_of};

    ghost from_gives = { λ file trouble. trouble ≡ trouble_of C.memory file };

    fn from(file: FileTrouble<'a>) -> Trouble<'a, C> {
        match file {
            FileTrouble::File { name, fault } => Trouble::File { name, fault },
            FileTrouble::OutOfMemory => Trouble::Cause(C::out_of_memory()),
        }
    }
}
