//! Files by name.
ghost use Rattle.std.specs.Prelude.{◌≡◌, ◌++◌, ◌≤◌, length, IfOk, IsErrOf};
ghost use Rattle.outside.specs.Files.{FilesSeen, Gives, IsTooLong, file_limit, gained};

use crate::FileFault;
use std::alloc::Global;

/// The most bytes of a file.
pub(crate) const FILE_LIMIT: u64 = 1 << 36;

/// Files that are read as a whole, by name.
///
/// An object means, where it tells it, a map from names to bytes, which its calls leave as it is, and
/// always a list of the names that failed and a count of the bytes that were taken, in a `u64` that stays
/// at its last number. That a call which succeeds asks for no other file is said by no clause: only a read
/// that fails leaves its name.
pub trait Files {
    /// The names with their bytes, where they are told; the names that failed, each with its fault, in the
    /// order of the calls; and how many bytes were taken, which never falls.
    ghost seen: { Self → FilesSeen };

    /// The bytes of the file of this name, at most 2^36.
    ///
    /// `Failed` where it isn't there or can't be read, and `TooLong` where it has more than 2^36 bytes:
    /// each adds the name with the fault to the list of names that failed, and nothing else changes that
    /// list. `OutOfMemory` where there is no room for the bytes, or for the name in that list.
    fn read(&mut self, alloc: Global, name: &[u8]) -> Result<Vec<u8>, FileFault>
        ensures told { (seen self.new).told ≡ (seen self.old).told }
        ensures failed { (seen self.new).failed ≡ (seen self.old).failed ++ gained name.now result }
        ensures taken { (seen self.old).taken ≤ (seen self.new).taken }
        ensures bytes { IfOk result (λ bytes. Gives (seen self.old).told name.now bytes.items) }
        ensures short { IfOk result (λ bytes. length bytes.items ≤ file_limit) }
        ensures too_long { IsErrOf result FileFault.TooLong
            → IsTooLong (seen self.old).told name.now (seen self.old).taken (seen self.new).taken };
}
