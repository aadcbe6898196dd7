//! The types that the code of a frame leads to.
ghost use Rattle.std.specs.Prelude.{◌≡◌};
ghost use Rattle.py_builtins.specs.Consulted.{ReadsFields};
ghost use Rattle.py_builtins.specs.ObjectError.{object_fault};
ghost use Rattle.type_places.specs.CoreTypes.{by_code, checked_types_at, code_parts_at, core_types_at, core_types_by};
ghost use Rattle.type_places.specs.CoreTypes.{types_if, types_met_at};

use crate::classes::{TypeFields, class_of, have_class, named_class};
use crate::places::{Found, TypePlace};
use process_memory::{ProcessMemory, word_past};
use py_builtins::ObjectError;
use py_fields::Layout;

/// The types that the code of a frame leads to, by their names in Python; `type` itself is `metatype`.
#[derive(Debug, Clone, Copy, Drop, PartialEq, Eq)]
pub struct CoreTypes {
    pub code: TypePlace,
    pub metatype: TypePlace,
    pub text: TypePlace,
    pub bytes: TypePlace,
    pub tuple: TypePlace,
    pub dict: TypePlace,
    pub object: TypePlace,
}

/// The classes of what a code object holds.
#[derive(Clone, Copy)]
struct CodeParts {
    text: u64,
    bytes: u64,
    tuple: u64,
}

/// Addresses that are met where these types are looked for.
#[derive(Clone, Copy)]
struct TypesMet {
    code: u64,
    metatype: u64,
    parts: CodeParts,
    dict: u64,
    object: u64,
}

/// The classes of a code object's name, line table and names of variables. At most 6 reads.
fn code_parts<P: ProcessMemory>(
    process: &mut P,
    layout: &Layout,
    code: u64,
) -> Result<CodeParts, ObjectError>
    ensures { ReadsFields object_fault 6 (P.seen process.old) (P.seen process.new)
        (λ m. code_parts_at layout.now m code) result }
{
    let text = named_class(process, layout, code, layout.code.name)?;
    let bytes = named_class(process, layout, code, layout.code.table)?;
    let tuple = named_class(process, layout, code, layout.code.varnames)?;
    Ok(CodeParts { text, bytes, tuple })
}

/// What is met from a code object and a dict. At most 10 reads.
fn types_met<P: ProcessMemory>(
    process: &mut P,
    layout: &Layout,
    fields: &TypeFields,
    code: u64,
    modules: u64,
) -> Result<TypesMet, ObjectError>
    ensures { ReadsFields object_fault 10 (P.seen process.old) (P.seen process.new)
        (λ m. types_met_at layout.now fields.now m code modules) result }
{
    let class = class_of(process, layout, code)?;
    let metatype = class_of(process, layout, class)?;
    let parts = code_parts(process, layout, code)?;
    let dict = class_of(process, layout, modules)?;
    let object = word_past(process, metatype, fields.base as u64)?;
    Ok(TypesMet {
        code: class,
        metatype,
        parts,
        dict,
        object,
    })
}

/// A place that the code of a frame leads to.
fn by_code(address: u64) -> TypePlace
    ensures { result ≡ by_code address }
{
    TypePlace {
        address,
        found: Found::CodeOfAFrame,
    }
}

/// The places of what was met.
fn core_types_by(met: &TypesMet) -> CoreTypes
    ensures { result ≡ core_types_by met.now }
{
    CoreTypes {
        code: by_code(met.code),
        metatype: by_code(met.metatype),
        text: by_code(met.parts.text),
        bytes: by_code(met.parts.bytes),
        tuple: by_code(met.parts.tuple),
        dict: by_code(met.dict),
        object: by_code(met.object),
    }
}

/// The same, if these are the types.
fn types_if(met: &TypesMet, are: bool) -> Option<CoreTypes>
    ensures { result ≡ types_if met.now are }
{
    if are { Some(core_types_by(met)) } else { None }
}

/// What was met, where each of them has `type` as its class, `type` too. At most 7 reads.
fn checked_types<P: ProcessMemory>(
    process: &mut P,
    layout: &Layout,
    met: &TypesMet,
) -> Result<Option<CoreTypes>, ObjectError>
    ensures { ReadsFields object_fault 7 (P.seen process.old) (P.seen process.new)
        (λ m. checked_types_at layout.now m met.now) result }
{
    let types = [
        met.metatype,
        met.code,
        met.parts.text,
        met.parts.bytes,
        met.parts.tuple,
        met.dict,
        met.object,
    ];
    let are = have_class(process, layout, met.metatype, &types)?;
    Ok(types_if(met, are))
}

/// The types that a code object and an interpreter's dict of modules lead to, where these are such objects.
///
/// The code's class is `code`, whose class is `type`. `str`, `bytes` and `tuple` are the classes of the code's name, of
/// its line table and of the names of its variables, `dict` that of the dict of modules, and `object` is what `type`
/// derives from. They are told only where each of them has `type` as its class, `type` too, which no other class has
/// of itself.
///
/// A word that is not in memory is `Unreadable`, in this order. It takes no memory: out of memory comes only where a
/// read of the process may want it. At most 17 reads.
pub fn core_types<P: ProcessMemory>(
    process: &mut P,
    layout: &Layout,
    fields: &TypeFields,
    code: u64,
    modules: u64,
) -> Result<Option<CoreTypes>, ObjectError>
    ensures { ReadsFields object_fault 17 (P.seen process.old) (P.seen process.new)
        (λ m. core_types_at layout.now fields.now m code modules) result }
{
    let met = types_met(process, layout, fields, code, modules)?;
    checked_types(process, layout, &met)
}
