//! Objects of types that no place gives.
ghost use Rattle.std.specs.Prelude.{◌≡◌};
ghost use Rattle.py_fields.specs.Sound.{IsSound};
ghost use Rattle.py_builtins.specs.Consulted.{Consults, ReadsFields};
ghost use Rattle.py_builtins.specs.ObjectError.{object_fault};
ghost use Rattle.type_places.specs.Holders.{has_shape, holder_at, holds_at, holds_if, is_named, is_known_class_at};
ghost use Rattle.type_places.specs.Holders.{is_object_of};

use crate::classes::{TypeFields, class_of};
use elf64_core::until_nul;
use process_memory::{ProcessMemory, record, word_past};
use py_builtins::{ObjectError, ObjectType, read_type};
use py_fields::Layout;
use std::alloc::Global;

/// How many bytes a type's name is looked for in.
const NAME_LIMIT: u64 = 128;

/// What an object must be that holds another one, where its type has no place: no module has the type, and it may be no
/// exported symbol.
#[derive(Clone, Copy)]
pub struct Holder<'a> {
    /// The name of its class, CPython's `tp_name`: it may have the module's name and a dot in front.
    pub name: &'a str,
    /// How many bytes an instance of its class has without its items.
    pub basic_size: u64,
    /// How far behind its address the word stands that names what it holds, in bytes.
    pub place: u32,
    /// The address of the class of what it holds.
    pub wanted_class: u64,
}

/// Whether the bytes before the first nul are a name.
fn is_named(chars: &[u8], name: &str) -> bool
    ensures { result ≡ is_named chars.now name.now }
{
    match until_nul(chars) {
        Some(text) => text == name.as_bytes(),
        None => false,
    }
}

/// Whether a class has so large instances, and `type` as its class: that is the one that is its own class. At most 3
/// reads.
fn has_shape<P: ProcessMemory>(
    process: &mut P,
    layout: &Layout,
    fields: &TypeFields,
    class: u64,
    basic_size: u64,
) -> Result<bool, ObjectError>
    ensures { ReadsFields object_fault 3 (P.seen process.old) (P.seen process.new)
        (λ m. has_shape layout.now fields.now m class basic_size) result }
{
    let stated = word_past(process, class, fields.basic_size as u64)?;
    let metatype = class_of(process, layout, class)?;
    let own = class_of(process, layout, metatype)?;
    Ok(stated == basic_size && own == metatype)
}

/// Whether a class has this name, so large instances, and `type` as its class. The name is looked at first. At most 4
/// reads.
fn is_known_class<P: ProcessMemory>(
    alloc: Global,
    process: &mut P,
    layout: &Layout,
    fields: &TypeFields,
    class: ObjectType,
    name: &str,
    basic_size: u64,
) -> Result<bool, ObjectError>
    ensures { Consults layout.now object_fault 4 (P.seen process.old) (P.seen process.new)
        (λ m. is_known_class_at layout.now fields.now m class name.now basic_size) result }
{
    let chars = record(alloc, process, class.name, NAME_LIMIT)?;
    let has_name = is_named(&chars, name);
    if has_name {
        return has_shape(process, layout, fields, class.at, basic_size);
    }
    Ok(false)
}

/// Whether a word names an object of a class; 0 names none. At most one read.
fn is_object_of<P: ProcessMemory>(
    process: &mut P,
    layout: &Layout,
    class: u64,
    addr: u64,
) -> Result<bool, ObjectError>
    ensures { ReadsFields object_fault 1 (P.seen process.old) (P.seen process.new)
        (λ m. is_object_of layout.now m class addr) result }
{
    if addr == 0 {
        return Ok(false);
    }
    let own = class_of(process, layout, addr)?;
    Ok(own == class)
}

/// Whether an object holds one of a class. At most 2 reads.
fn holds<P: ProcessMemory>(
    process: &mut P,
    layout: &Layout,
    object: u64,
    place: u32,
    class: u64,
) -> Result<bool, ObjectError>
    ensures { ReadsFields object_fault 2 (P.seen process.old) (P.seen process.new)
        (λ m. holds_at layout.now m object place class) result }
{
    let held = word_past(process, object, place as u64)?;
    is_object_of(process, layout, class, held)
}

/// The same, if it is of the class that was looked for. At most 2 reads.
fn holds_if<P: ProcessMemory>(
    process: &mut P,
    layout: &Layout,
    object: u64,
    place: u32,
    class: u64,
    is_known: bool,
) -> Result<bool, ObjectError>
    ensures { ReadsFields object_fault 2 (P.seen process.old) (P.seen process.new)
        (λ m. holds_if layout.now m object place class is_known) result }
{
    if is_known {
        return holds(process, layout, object, place, class);
    }
    Ok(false)
}

/// Whether an object is of a type that no place gives, and holds what such an object holds.
///
/// Its class has the name and the size of instances that are said, and `type` as its class, and the word at the place
/// that is said names an object of the wanted class. All of it counts: a program's own class may have any name and
/// size. A word of 0 names nothing.
///
/// What is not in memory is `Unreadable`: the record of the object and that of its class, the 128 bytes from the
/// class's
/// name on, the class's size, its class and that one's, then the word, and the class of what it names. What comes
/// behind
/// the name is read only where the name fits, and the last two only where all before them fits. Else it is want of
/// memory. At most 8 reads.
pub fn is_holder<P: ProcessMemory>(
    alloc: Global,
    process: &mut P,
    layout: &Layout,
    fields: &TypeFields,
    object: u64,
    expected: &Holder<'_>,
) -> Result<bool, ObjectError>
    requires sound { IsSound layout.now }
    ensures { Consults layout.now object_fault 8 (P.seen process.old) (P.seen process.new)
        (λ m. holder_at layout.now fields.now m object expected.now.name.now expected.now.basic_size expected.now.place
        expected.now.wanted_class) result }
{
    let class = read_type(alloc, process, layout, object)?;
    let is_known = is_known_class(
        alloc,
        process,
        layout,
        fields,
        class,
        expected.name,
        expected.basic_size,
    )?;
    holds_if(
        process,
        layout,
        object,
        expected.place,
        expected.wanted_class,
        is_known,
    )
}
