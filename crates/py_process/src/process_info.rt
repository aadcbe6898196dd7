//! What is known of a Python process from its maps and images.
ghost use Rattle.std.specs.Prelude.{◌≡◌, option_copied};
ghost use Rattle.py_process.specs.Binary.{symbol_at, symbol_of_binary};
ghost use Rattle.py_process.specs.Facts.{known_of, symbol_known};

use crate::BinaryInfo;
use elf64_core::Name;
use image_memory::ContainsAddr;

/// What is known of a Python process from its maps and images.
#[derive(Debug, Drop)]
pub struct PythonProcessInfo<M: ContainsAddr> {
    /// What the image of the program says, where it is there.
    pub python_binary: Option<BinaryInfo>,
    /// What the image of Python's library says, where one is mapped and its image is there.
    pub libpython_binary: Option<BinaryInfo>,
    /// The maps, or what else tests addresses.
    pub maps: M,
    /// The path of the program.
    pub python_filename: Name,
}

/// The address of a symbol of a binary, where there is one.
fn symbol_of_binary<'a>(binary: &'a Option<BinaryInfo>, symbol: &[u8]) -> Option<&'a u64>
    ensures { option_copied result ≡ symbol_of_binary binary.now symbol.now }
{
    match binary {
        Some(binary) => binary.symbols.get(symbol),
        None => None,
    }
}

impl<M: ContainsAddr> PythonProcessInfo<M> {
    /// The address of a symbol: the program's where it has one, else the library's.
    ///
    /// None exactly where neither has the symbol.
    pub fn get_symbol(&self, symbol: &[u8]) -> Option<&u64>
        ensures { option_copied result ≡ symbol_at self.now.python_binary self.now.libpython_binary symbol.now }
    {
        match symbol_of_binary(&self.python_binary, symbol) {
            Some(addr) => Some(addr),
            None => symbol_of_binary(&self.libpython_binary, symbol),
        }
    }

    /// The same, by value.
    pub(crate) fn symbol(&self, symbol: &[u8]) -> Option<u64>
        ensures { result ≡ symbol_known (known_of self.now) symbol.now }
    {
        self.get_symbol(symbol).copied()
    }
}
