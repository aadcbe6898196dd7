//! Copies of native frames.
ghost use Rattle.std.specs.Prelude.{◌≡◌, IfOk};

use crate::NativeFrame;
use elf64_core::Text;
use std::alloc::{AllocError, Global};

/// A copy of a text, where there is one.
pub(crate) fn copy_text(text: &Option<Text>) -> Result<Option<Text>, AllocError>
    ensures { IfOk result (λ copy. copy ≡ text.now) }
{
    match text {
        Some(text) => Ok(Some(text.share()?)),
        None => Ok(None),
    }
}

/// A copy of a native frame.
pub(crate) fn copy_native(native: &NativeFrame) -> Result<NativeFrame, AllocError>
    ensures { IfOk result (λ copy. copy ≡ native.now) }
{
    let function = copy_text(&native.function)?;
    let filename = copy_text(&native.filename)?;
    let module = native.module.share()?;
    Ok(NativeFrame {
        addr: native.addr,
        function,
        filename,
        module,
        line: native.line,
    })
}

/// Copies of native frames, in order.
pub(crate) fn copy_natives(
    alloc: Global,
    natives: &[NativeFrame],
) -> Result<Vec<NativeFrame>, AllocError>
    ensures { IfOk result (λ copies. copies.items ≡ natives.now) }
{
    let mut copies = Vec::with_capacity(alloc, natives.len())?;
    for native in natives {
        copies.push(copy_native(native)?)?;
    }
    Ok(copies)
}
