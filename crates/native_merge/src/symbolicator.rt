//! What native addresses show.
ghost use Rattle.std.specs.Prelude.{IfOk, IsErrOf};
ghost use Rattle.outside.specs.Counts.{Rose};
ghost use Rattle.native_merge.specs.Symbols.{IsAsTold, SymbolsSeen, SymbolsStay, AnswersOnce};

use crate::{NativeFrame, SymbolFault};
use std::alloc::Global;

/// Looks up native addresses.
///
/// An object means which addresses it lacks and, where it tells it, its one answer for each address, with or without
/// lines; its calls leave both as they are. It has a count of the calls that failed, in a `u64` that stays at its last
/// number.
pub trait Symbolicator {
    /// Which addresses it lacks, whether it tells its answers, which those are, and how many calls failed, which never
    /// falls.
    ghost seen: { Self → SymbolsSeen };

    /// The frames at an address, the innermost first, with their source lines where `line_info` asks for them.
    ///
    /// `NoBinary` only where the address is lacking. `Failed` where it can't be looked up: the count of faults rose.
    /// `OutOfMemory` where there is no room for the answer.
    fn symbolicate(
        &mut self,
        alloc: Global,
        addr: u64,
        line_info: bool,
    ) -> Result<Vec<NativeFrame>, SymbolFault>
        ensures no_binary { IsErrOf result SymbolFault.NoBinary → (seen self.old).lacks addr }
        ensures failed { IsErrOf result SymbolFault.Failed → Rose (seen self.old).faults (seen self.new).faults }
        ensures frames { IfOk result (λ frames. IsAsTold (seen self.old) addr line_info frames.items) }
        ensures once { AnswersOnce (seen self.old) }
        ensures stay { SymbolsStay (seen self.old) (seen self.new) };
}
