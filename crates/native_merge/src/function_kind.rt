//! What a frame of Python's own native code is, by its function's name as a text.
ghost use Rattle.std.specs.Prelude.{◌≡◌};
ghost use Rattle.native_merge.specs.FunctionKinds.{function_kind};

use elf64_core::Text;
use native_pairs::FunctionKind;

/// What a frame of a function is; one whose function is not known is left out.
pub(crate) fn function_kind(function: &Option<Text>) -> FunctionKind
    ensures { result ≡ function_kind function.now }
{
    match function {
        Some(function) => native_pairs::function_kind(Some(function.as_str().as_bytes())),
        None => native_pairs::function_kind(None),
    }
}
