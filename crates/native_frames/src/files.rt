//! The paths of files by their numbers.
ghost use Rattle.std.specs.Prelude.{◌≡◌, option_copied, slice_get};

use elf64_core::Name;

/// The path of the file of a number, if there is one.
pub(crate) fn path_of(files: &[Name], file: usize) -> Option<&Name>
    ensures { option_copied result ≡ slice_get files.now file }
{
    files.get(file)
}
