//! What is shown by a name.
ghost use Rattle.std.specs.Prelude.{◌≡◌, IfOk, Ok};
ghost use Rattle.process_memory.specs.Seen.{Reads};
ghost use Rattle.py_fields.specs.Sound.{IsSound};
ghost use Rattle.py_builtins.specs.ObjectError.{object_fault};
ghost use Rattle.py_reprs.specs.Found.{trees_found};
ghost use Rattle.py_reprs.specs.Names.{class_at, name_at, name_in, opaque_at};

use crate::repr::Repr;
use elf64_core::{Text, u64_in, until_nul};
use process_memory::{ProcessMemory, ReadFault, record};
use py_builtins::ObjectError;
use py_fields::Layout;
use std::alloc::{AllocError, Global};
use std::str;

/// How many bytes of a name of C's are read.
const NAME_LIMIT: u64 = 128;

/// The bytes before the first nul, where they are a text.
fn name_in(alloc: Global, chars: &[u8]) -> Result<Option<Text>, AllocError>
    ensures { IfOk result (λ name. name ≡ name_in chars.now) }
{
    let Some(bytes) = until_nul(chars) else {
        return Ok(None);
    };
    match str::from_utf8(bytes) {
        Ok(name) => Ok(Some(Text::of(alloc, name)?)),
        Err(_) => Ok(None),
    }
}

/// C's name at an address, where it is a text. One read.
#[tactic(auto, unfolding(crate::specs::Names::name_at))]
pub(crate) fn read_name<P: ProcessMemory>(
    alloc: Global,
    process: &mut P,
    at: u64,
) -> Result<Option<Text>, ObjectError>
    ensures { Reads object_fault 1 (P.seen process.old) (P.seen process.new) (λ m. Ok (name_at m at)) result }
{
    match record(alloc, process, at, NAME_LIMIT) {
        Ok(chars) => Ok(name_in(alloc, &chars)?),
        Err(ReadFault::OutOfMemory) => Err(ObjectError::OutOfMemory),
        Err(ReadFault::Unreadable { .. }) => Ok(None),
    }
}

/// An object of another type, by the address of its type's name. One read.
pub(crate) fn read_opaque<P: ProcessMemory>(
    alloc: Global,
    process: &mut P,
    name: u64,
    addr: u64,
) -> Result<Repr, ObjectError>
    ensures { Reads object_fault 1 (P.seen process.old) (P.seen process.new)
        (λ m. opaque_at m name addr) (trees_found result) }
{
    let class = read_name(alloc, process, name)?;
    Ok(Repr::Opaque { class, addr })
}

/// The class at an address. At most 2 reads.
pub(crate) fn read_class<P: ProcessMemory>(
    alloc: Global,
    process: &mut P,
    layout: &Layout,
    addr: u64,
) -> Result<Repr, ObjectError>
    requires sound { IsSound layout.now }
    ensures { Reads object_fault 2 (P.seen process.old) (P.seen process.new)
        (λ m. class_at layout.now m addr) (trees_found result) }
{
    let class = record(alloc, process, addr, layout.klass.size as u64)?;
    let at = u64_in(&class, layout.klass.name as usize);
    let name = read_name(alloc, process, at)?;
    Ok(Repr::Class { name, addr })
}
