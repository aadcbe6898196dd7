//! Why there is no text.
ghost use Rattle.std.specs.Prelude.{◌≡◌};
ghost use Rattle.std.specs.List.{concat};
ghost use Rattle.core_texts.specs.Parts.{said};
ghost use Rattle.program_run.specs.Ends.{CauseSays};

use core_texts::Parts;

/// Why a program's words come to no text: a type of causes, each with a status and a line.
pub trait RunCause {
    /// What is said of a cause: the status with which a run ends by it, and the parts of its line.
    ghost says: { Self → CauseSays };

    /// Out of memory.
    ghost memory: { Self };

    /// Out of memory, whose status is 5.
    fn out_of_memory() -> Self
        ensures memory { result ≡ memory }
        ensures status { (says result).status ≡ 5 };

    /// The status with which a run ends by this cause.
    fn status(&self) -> u8
        ensures { result ≡ (says self.now).status };

    /// The parts of its line, without the program's name before them.
    fn parts<'a>(&'a self) -> Parts<'a>
        ensures { said result ≡ concat (says self.now).parts };
}
