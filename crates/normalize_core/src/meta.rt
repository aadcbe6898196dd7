//! What an address belongs to.
ghost use Rattle.std.specs.Prelude.{◌≡◌, option_copied};
ghost use Rattle.normalize_core.specs.Metas.{elf_in, unknown_of_meta};
ghost use Rattle.normalize_core.specs.declared.meta.UserMeta.{UserMeta};

use elf64_core::{BuildId, Name};

/// A file that addresses lie in.
#[derive(Debug, Drop, PartialEq)]
pub struct Elf {
    /// Its path.
    pub path: Name,
    /// Its build id, if one is known.
    pub build_id: Option<BuildId>,
}

/// Why an address lies in no file.
#[derive(Clone, Copy, Debug, PartialEq, Eq, Hash)]
pub enum Reason {
    /// No entry covers it.
    Unmapped,
    /// The entry that covers it has no name.
    MissingComponent,
    /// The entry that covers it has a name that is no file's, as `[heap]`.
    Unsupported,
}

/// Addresses that lie in no file.
#[derive(Clone, Copy, Debug, PartialEq, Eq)]
pub struct Unknown {
    /// Why they do not.
    pub reason: Reason,
}

/// What an address of a process belongs to.
#[derive(Debug, Drop, PartialEq)]
pub enum UserMeta {
    /// A file.
    Elf(Elf),
    /// No file.
    Unknown(Unknown),
}

impl UserMeta {
    /// The file; none exactly where it is no file.
    pub fn as_elf(&self) -> Option<&Elf>
        ensures { option_copied result ≡ elf_in self.now }
    {
        match self {
            UserMeta::Elf(elf) => Some(elf),
            UserMeta::Unknown(_) => None,
        }
    }

    /// Why it is no file; none exactly where it is a file.
    pub fn as_unknown(&self) -> Option<&Unknown>
        ensures { option_copied result ≡ unknown_of_meta self.now }
    {
        match self {
            UserMeta::Elf(_) => None,
            UserMeta::Unknown(unknown) => Some(unknown),
        }
    }
}

/// The same, as what an address belongs to.
impl From<Unknown> for UserMeta {
    ghost from_gives = { λ unknown meta. meta ≡ UserMeta.Unknown unknown };

    fn from(unknown: Unknown) -> Self {
        UserMeta::Unknown(unknown)
    }
}
