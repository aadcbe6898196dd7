//! Versions of Python.
ghost use Rattle.std.specs.Prelude.{◌≡◌, IfOk, Some};

use elf64_core::Text;
use std::alloc::{AllocError, Global};
use std::fmt;

/// A version of Python, such as 3.10.0rc1.
///
/// It is written as such: the numbers with dots between them, the flags, and `+` and the metadata where
/// there is some.
#[derive(Debug, Drop, PartialEq, Eq)]
pub struct Version {
    pub major: u64,
    pub minor: u64,
    pub patch: u64,
    /// What follows the patch number, such as `rc1`; mostly empty.
    pub release_flags: Text,
    /// What follows a `+`, where there is one.
    pub build_metadata: Option<Text>,
}

/// A copy of a version's metadata. The one error is out of memory.
fn copy_metadata(metadata: &Option<Text>) -> Result<Option<Text>, AllocError>
    ensures { IfOk result (λ copy. copy ≡ metadata.now) }
{
    match metadata {
        Some(metadata) => {
            let copy = metadata.share()?;
            Ok(Some(copy))
        }
        None => Ok(None),
    }
}

impl Version {
    ghost use Rattle.py_fields.specs.Version.{release};

    /// The version of three numbers alone, with no flags and no metadata. The one error is out of memory.
    pub fn of_numbers(
        alloc: Global,
        major: u64,
        minor: u64,
        patch: u64,
    ) -> Result<Version, AllocError>
        ensures { IfOk result (λ version. version ≡ release major minor patch) }
    {
        let release_flags = Text::of(alloc, "")?;
        Ok(Version {
            major,
            minor,
            patch,
            release_flags,
            build_metadata: None,
        })
    }

    /// The same version once more; its texts share their bytes. The one error is out of memory: there are too many
    /// shares.
    pub fn share(&self) -> Result<Version, AllocError>
        ensures { IfOk result (λ copy. copy ≡ self.now) }
    {
        let release_flags = self.release_flags.share()?;
        let build_metadata = copy_metadata(&self.build_metadata)?;
        Ok(Version {
            major: self.major,
            minor: self.minor,
            patch: self.patch,
            release_flags,
            build_metadata,
        })
    }
}

impl fmt::Display for Version {
    ghost use Rattle.py_fields.specs.Version.{version_text};

    ghost output = { λ v. Some (version_text v) };

    fn fmt<W: fmt::Write>(&self, f: &mut fmt::Formatter<W>) -> fmt::Result {
        let (major, minor, patch) = (self.major, self.minor, self.patch);
        write!(f, "{major}.{minor}.{patch}")?;
        f.write_str(self.release_flags.as_str())?;
        if let Some(metadata) = &self.build_metadata {
            f.write_str("+")?;
            f.write_str(metadata.as_str())?;
        }
        Ok(())
    }
}
