//! Copies of Python frames.
ghost use Rattle.std.specs.Prelude.{◌≡◌, IfOk};
ghost use Rattle.py_stacks.specs.Frames.{call_of};
ghost use Rattle.native_merge.specs.PythonFrames.{locals_listed};

use crate::copies::copy_text;
use py_stacks::{Frame, LocalVariable};
use std::alloc::{AllocError, Global};

fn copy_local(local: &LocalVariable) -> Result<LocalVariable, AllocError>
    ensures { IfOk result (λ copy. copy ≡ local.now) }
{
    let name = local.name.share()?;
    let repr = copy_text(&local.repr)?;
    Ok(LocalVariable {
        name,
        addr: local.addr,
        arg: local.arg,
        repr,
    })
}

fn copy_all(alloc: Global, locals: &[LocalVariable]) -> Result<Vec<LocalVariable>, AllocError>
    ensures { IfOk result (λ copies. copies.items ≡ locals.now) }
{
    let mut copies = Vec::with_capacity(alloc, locals.len())?;
    for local in locals {
        copies.push(copy_local(local)?)?;
    }
    Ok(copies)
}

fn copy_locals(
    alloc: Global,
    locals: &Option<Vec<LocalVariable>>,
) -> Result<Option<Vec<LocalVariable>>, AllocError>
    ensures { IfOk result (λ copies. locals_listed copies ≡ locals_listed locals.now) }
{
    match locals {
        Some(locals) => Ok(Some(copy_all(alloc, locals)?)),
        None => Ok(None),
    }
}

/// A copy of a Python frame.
pub(crate) fn copy_frame(alloc: Global, frame: &Frame) -> Result<Frame, AllocError>
    ensures { IfOk result (λ copy. call_of copy ≡ call_of frame.now) }
{
    let name = frame.name.share()?;
    let filename = frame.filename.share()?;
    let module = copy_text(&frame.module)?;
    let short_filename = copy_text(&frame.short_filename)?;
    let locals = copy_locals(alloc, &frame.locals)?;
    Ok(Frame {
        name,
        filename,
        module,
        short_filename,
        line: frame.line,
        locals,
        is_entry: frame.is_entry,
        is_shim_entry: frame.is_shim_entry,
    })
}
