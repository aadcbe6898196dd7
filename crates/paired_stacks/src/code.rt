//! Where Python's own code is mapped.
ghost use Rattle.std.specs.Prelude.{◌≡◌};
ghost use Rattle.paired_stacks.specs.Code.{is_in, is_own};

/// Where code of a file is mapped.
#[derive(Clone, Copy, Debug, PartialEq, Eq)]
pub struct CodeRange {
    /// The address of its first byte.
    pub addr: u64,
    /// How many bytes it has.
    pub size: u64,
}

/// Where Python's own code is mapped.
#[derive(Clone, Copy, Debug, PartialEq, Eq)]
pub struct OwnCode {
    /// That of the program, where it is known.
    pub program: Option<CodeRange>,
    /// That of Python's library, where it is known.
    pub library: Option<CodeRange>,
}

fn is_in(range: Option<CodeRange>, addr: u64) -> bool
    ensures { result ≡ is_in range addr }
{
    match range {
        Some(range) => range.addr <= addr && addr - range.addr < range.size,
        None => false,
    }
}

/// Whether the code at an address is Python's own.
pub(crate) fn is_own(own: OwnCode, addr: u64) -> bool
    ensures { result ≡ is_own own addr }
{
    is_in(own.program, addr) || is_in(own.library, addr)
}
