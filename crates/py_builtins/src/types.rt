//! The types of objects.
ghost use Rattle.std.specs.Prelude.{◌≡◌, length};
ghost use Rattle.py_fields.specs.Sound.{IsSound};
ghost use Rattle.py_builtins.specs.Consulted.{Consults};
ghost use Rattle.py_builtins.specs.ObjectError.{object_fault};
ghost use Rattle.py_builtins.specs.Types.{type_at, type_by};

use crate::ObjectError;
use elf64_core::u64_in;
use process_memory::{ProcessMemory, record};
use py_fields::Layout;
use std::alloc::Global;

/// The type of an object, by what its record says.
#[derive(Clone, Copy)]
pub struct ObjectType {
    /// Its address.
    pub at: u64,
    /// Its flags, CPython's `tp_flags`.
    pub flags: u64,
    /// The address of its name, ended by a nul.
    pub name: u64,
    /// How far behind an object of it the word stands that names the object's dict. A negative distance is a
    /// number from 2^63 on.
    pub dict_offset: u64,
}

/// The type of the object at an address, by the rule of CPython's objects: the object's record names it.
///
/// A record that is not in memory is `Unreadable`: the object's first, then the type's. At most 2 reads.
pub fn read_type<P: ProcessMemory>(
    alloc: Global,
    process: &mut P,
    layout: &Layout,
    addr: u64,
) -> Result<ObjectType, ObjectError>
    requires sound { IsSound layout.now }
    ensures { Consults layout.now object_fault 2 (P.seen process.old) (P.seen process.new)
        (λ m. type_at layout.now m addr) result }
{
    let object = record(alloc, process, addr, layout.object.size as u64)?;
    let at = u64_in(&object, layout.object.klass as usize);
    let klass = record(alloc, process, at, layout.klass.size as u64)?;
    Ok(type_by(layout, at, &klass))
}

/// The type with this address and this record.
fn type_by(layout: &Layout, at: u64, klass: &[u8]) -> ObjectType
    requires sound { IsSound layout.now }
    requires whole { length klass.now ≡ layout.now.klass.size }
    ensures { result ≡ type_by layout.now at klass.now }
{
    ObjectType {
        at,
        flags: u64_in(klass, layout.klass.flags as usize),
        name: u64_in(klass, layout.klass.name as usize),
        dict_offset: u64_in(klass, layout.klass.dict_offset as usize),
    }
}
