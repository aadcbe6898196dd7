//! The classes of objects, and which objects are types.
ghost use Rattle.std.specs.Prelude.{◌≡◌, length};
ghost use Rattle.py_builtins.specs.Consulted.{ReadsFields};
ghost use Rattle.py_builtins.specs.ObjectError.{object_fault};
ghost use Rattle.type_places.specs.Classes.{class_address_at, have_class, is_sized_type_at, is_type_at, named_class_at};
ghost use Rattle.type_places.specs.Classes.{has_size_if};

use process_memory::{ProcessMemory, word_past};
use py_builtins::ObjectError;
use py_fields::Layout;

/// The flag of a type that is `type` or derives from it, whose objects are types: CPython's
/// `Py_TPFLAGS_TYPE_SUBCLASS`.
const PY_TPFLAGS_TYPE_SUBCLASS: u64 = 1 << 31;

/// Where the fields of a type's record stand that a layout does not say, in bytes from its address.
#[derive(Debug, Clone, Copy, Drop, PartialEq, Eq)]
pub struct TypeFields {
    /// How many bytes an instance has without its items, 8 bytes: CPython's `tp_basicsize`.
    pub basic_size: u32,
    /// The type that it derives from first, 8 bytes: CPython's `tp_base`.
    pub base: u32,
}

/// The address of the class of the object at an address, as its record names it.
///
/// A word that is not in memory is `Unreadable`. It takes no memory: out of memory comes only where a read of the
/// process may want it. One read.
pub fn class_of<P: ProcessMemory>(
    process: &mut P,
    layout: &Layout,
    addr: u64,
) -> Result<u64, ObjectError>
    ensures { ReadsFields object_fault 1 (P.seen process.old) (P.seen process.new)
        (λ m. class_address_at layout.now m addr) result }
{
    Ok(word_past(process, addr, layout.object.klass as u64)?)
}

/// The class of the object that a field of a record names. At most 2 reads.
pub(crate) fn named_class<P: ProcessMemory>(
    process: &mut P,
    layout: &Layout,
    addr: u64,
    field: u32,
) -> Result<u64, ObjectError>
    ensures { ReadsFields object_fault 2 (P.seen process.old) (P.seen process.new)
        (λ m. named_class_at layout.now m addr field) result }
{
    let object = word_past(process, addr, field as u64)?;
    class_of(process, layout, object)
}

/// Whether the class of each of some objects is this one. The first that has another one ends it. One read at most for
/// each.
pub(crate) fn have_class<P: ProcessMemory>(
    process: &mut P,
    layout: &Layout,
    class: u64,
    objects: &[u64],
) -> Result<bool, ObjectError>
    ensures { ReadsFields object_fault (length objects.now) (P.seen process.old) (P.seen process.new)
        (λ m. have_class layout.now m class objects.now) result }
{
    for object in objects {
        let own = class_of(process, layout, *object)?;
        if own != class {
            return Ok(false);
        }
    }
    Ok(true)
}

/// Whether the object at an address is a type: the flags of its class say that this is `type` or derives from it, by
/// CPython's `PyType_Check`.
///
/// A word that is not in memory is `Unreadable`: that of its class, then that of the flags. It takes no memory, as
/// `class_of`. At most 2 reads.
pub fn is_type<P: ProcessMemory>(
    process: &mut P,
    layout: &Layout,
    addr: u64,
) -> Result<bool, ObjectError>
    ensures { ReadsFields object_fault 2 (P.seen process.old) (P.seen process.new)
        (λ m. is_type_at layout.now m addr) result }
{
    let class = class_of(process, layout, addr)?;
    let flags = word_past(process, class, layout.klass.flags as u64)?;
    Ok(flags & PY_TPFLAGS_TYPE_SUBCLASS != 0)
}

/// Whether the object at an address is a type whose instances have so many bytes. At most 3 reads.
pub(crate) fn is_sized_type<P: ProcessMemory>(
    process: &mut P,
    layout: &Layout,
    fields: &TypeFields,
    size: u64,
    addr: u64,
) -> Result<bool, ObjectError>
    ensures { ReadsFields object_fault 3 (P.seen process.old) (P.seen process.new)
        (λ m. is_sized_type_at layout.now fields.now m size addr) result }
{
    let is = is_type(process, layout, addr)?;
    has_size_if(process, fields, size, addr, is)
}

/// The same of what is a type or not. At most one read.
fn has_size_if<P: ProcessMemory>(
    process: &mut P,
    fields: &TypeFields,
    size: u64,
    addr: u64,
    is_type: bool,
) -> Result<bool, ObjectError>
    ensures { ReadsFields object_fault 1 (P.seen process.old) (P.seen process.new)
        (λ m. has_size_if fields.now m size addr is_type) result }
{
    if is_type {
        let stated = word_past(process, addr, fields.basic_size as u64)?;
        return Ok(stated == size);
    }
    Ok(false)
}
