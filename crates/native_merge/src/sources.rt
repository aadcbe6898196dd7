//! Source files by path.
ghost use Rattle.std.specs.Prelude.{◌≡◌, ◌↔◌, false, IfOk, IsErrOf};
ghost use Rattle.outside.specs.Counts.{Rose};
ghost use Rattle.outside.specs.Files.{Gives};
ghost use Rattle.native_merge.specs.Sources.{SourcesSeen, Stay, no_sources};

use crate::SourceFault;
use std::alloc::Global;

/// Source files, by path: whether one exists, and what its bytes are.
///
/// An object means which paths exist and, where it tells them, the bytes of each; its calls leave both as they are.
/// It has a count of the calls that failed, in a `u64` that stays at its last number.
pub trait Sources {
    /// Which paths exist, the paths with their bytes, where they are told, and how many calls failed, which never
    /// falls.
    ghost seen: { Self → SourcesSeen };

    /// Whether this path exists.
    fn exists(&mut self, path: &[u8]) -> bool
        ensures test { result ≡ (seen self.old).exists path.now }
        ensures stay { Stay (seen self.old) (seen self.new) };

    /// The bytes of this path.
    ///
    /// `Missing` exactly where the path doesn't exist. `Failed` where it exists and can't be read: the count of
    /// faults rose. `OutOfMemory` where there is no room for the bytes.
    fn contents(&mut self, alloc: Global, path: &[u8]) -> Result<Vec<u8>, SourceFault>
        ensures missing { IsErrOf result SourceFault.Missing ↔ ((seen self.old).exists path.now ≡ false) }
        ensures failed { IsErrOf result SourceFault.Failed → Rose (seen self.old).faults (seen self.new).faults }
        ensures bytes { IfOk result (λ bytes. Gives (seen self.old).told path.now bytes.items) }
        ensures stay { Stay (seen self.old) (seen self.new) };
}

/// Sources of which none exists. No call fails.
#[derive(Clone, Copy, Debug)]
pub struct NoSources;

impl Sources for NoSources {
    ghost seen = { λ _. no_sources };

    fn exists(&mut self, _path: &[u8]) -> bool {
        false
    }

    fn contents(&mut self, _alloc: Global, _path: &[u8]) -> Result<Vec<u8>, SourceFault> {
        Err(SourceFault::Missing)
    }
}
