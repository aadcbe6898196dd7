//! Where a type stands, and how that was found.
ghost use Rattle.std.specs.Prelude.{◌≡◌};
ghost use Rattle.py_builtins.specs.Consulted.{ReadsFields};
ghost use Rattle.py_builtins.specs.ObjectError.{object_fault};
ghost use Rattle.type_places.specs.Places.{place_if, symbol_place_at};

use crate::classes::is_type;
use process_memory::ProcessMemory;
use py_builtins::ObjectError;
use py_fields::Layout;

/// How the place of a type was found.
#[derive(Debug, Clone, Copy, Drop, PartialEq, Eq)]
pub enum Found {
    /// A symbol of an image names it.
    Symbol,
    /// It is a class of the code of a frame, or of what that code or the interpreter holds.
    CodeOfAFrame,
    /// The type's own module has it in its dict.
    ModuleDict,
}

/// Where a type stands.
#[derive(Debug, Clone, Copy, Drop, PartialEq, Eq)]
pub struct TypePlace {
    /// The address of the type.
    pub address: u64,
    /// How it was found.
    pub found: Found,
}

/// The place, if it is one.
pub(crate) fn place_if(address: u64, found: Found, is: bool) -> Option<TypePlace>
    ensures { result ≡ place_if address found is }
{
    if is {
        Some(TypePlace { address, found })
    } else {
        None
    }
}

/// The place of the type that a symbol names, where there is such a symbol and a type stands at its address.
///
/// A word that is not in memory is `Unreadable`: that of the class of what stands there, then that of this class's
/// flags. It takes no memory: out of memory comes only where a read of the process may want it. At most 2 reads.
pub fn by_symbol<P: ProcessMemory>(
    process: &mut P,
    layout: &Layout,
    symbol: Option<u64>,
) -> Result<Option<TypePlace>, ObjectError>
    ensures { ReadsFields object_fault 2 (P.seen process.old) (P.seen process.new)
        (λ m. symbol_place_at layout.now m symbol) result }
{
    match symbol {
        None => Ok(None),
        Some(address) => {
            let is = is_type(process, layout, address)?;
            Ok(place_if(address, Found::Symbol, is))
        }
    }
}
