//! A program, as it is laid: the interpreter, the lock's record, the three types, and the threads.
ghost use Rattle.std.specs.Prelude.{◌≡◌, ◌<◌, ◌≤◌, ◌++◌, ◌^◌, ◌+◌, IfOk, IfSome, length};
ghost use Rattle.std.specs.List.{AllByRecursion, sum_by};
ghost use Rattle.py_fields.specs.Places.{gil_places};
ghost use Rattle.py_fields.specs.Sound.{IsRecord, IsSound};
ghost use Rattle.py_stacks.specs.Lines.{family_of};
ghost use Rattle.memory_builder.specs.Chains.{addresses_from};
ghost use Rattle.memory_builder.specs.Laid.{gil_place, interpreter_writes, is_held, laid_gil, laid_type, laid_program};
ghost use Rattle.memory_builder.specs.Laid.{owner_place as place_of_owner, place_or_none, three_types, type_name};
ghost use Rattle.memory_builder.specs.Laid.{type_writes, types_at};
ghost use Rattle.memory_builder.specs.Mirror.{program_in};
ghost use Rattle.memory_builder.specs.Program.{Thread};
ghost use Rattle.memory_builder.specs.Validity.{IsValidFrame, IsValidProgram};
ghost use Rattle.object_builder.specs.Objects.{aligned, object};
ghost use Rattle.memory_builder.specs.ReadBack.{IsPlace, TellsInterpreter, TellsOwner, TellsStacks};
ghost use Rattle.object_builder.specs.Room.{HasRoom};
ghost use Rattle.memory_builder.specs.Sizes.{interpreter_len, program_size, thread_size, type_size};

use crate::parts::Program;
use crate::sizes::{gil_size, interpreter_len, shared_size, thread_size};
use crate::threads::{add_threads, threads_head};
use crate::values::TypesAt;
use object_builder::{Value, Write, add_object, optional_write, rounded};
use py_fields::{GilAt, Layout};
use std::alloc::{AllocError, Global};

/// How many bytes the name of a type has.
const TYPE_NAME: usize = 128;

/// Adds the interpreter. The one error is out of memory.
fn add_interpreter(
    out: &mut Vec<u8>,
    layout: &Layout,
    first: u64,
    gil: u64,
) -> Result<(), AllocError>
    requires { IsSound layout.now }
    ensures { IfOk result (λ _. out.new.items ≡ out.old.items
        ++ aligned (object (interpreter_len layout.now) (interpreter_writes layout.now first gil))) }
{
    let at = &layout.interpreter;
    let writes = [
        Write {
            at: at.threads,
            value: Value::U64(first),
        },
        Write {
            at: at.modules,
            value: Value::U64(0),
        },
        optional_write(at.gil, Value::U64(gil)),
    ];
    add_object(out, interpreter_len(layout) as usize, &writes)
}

/// Whether a lock is held, as its record says it.
fn is_held(holder: u64) -> u32
    ensures { result ≡ is_held holder }
{
    if holder == 0 { 0 } else { 1 }
}

/// Adds the lock's record, where there is one. The one error is out of memory.
fn add_gil(out: &mut Vec<u8>, gil: Option<GilAt>, holder: u64) -> Result<(), AllocError>
    requires { IfSome gil (λ g. IsRecord g.size (gil_places g)) }
    ensures { IfOk result (λ _. out.new.items ≡ out.old.items ++ laid_gil gil holder) }
{
    let Some(at) = gil else {
        return Ok(());
    };
    let writes = [
        Write {
            at: at.locked,
            value: Value::U32(is_held(holder)),
        },
        Write {
            at: at.holder,
            value: Value::U64(holder),
        },
    ];
    add_object(out, at.size as usize, &writes)
}

/// Adds the record of a type whose name is to stand at an address. The one error is out of memory.
fn add_type_record(
    out: &mut Vec<u8>,
    layout: &Layout,
    name: u64,
    flags: u64,
) -> Result<(), AllocError>
    requires { IsSound layout.now }
    ensures { IfOk result (λ _. out.new.items ≡ out.old.items
        ++ aligned (object layout.now.klass.size (type_writes layout.now name flags))) }
{
    let writes = [
        Write {
            at: layout.klass.name,
            value: Value::U64(name),
        },
        Write {
            at: layout.klass.flags,
            value: Value::U64(flags),
        },
        Write {
            at: layout.klass.dict_offset,
            value: Value::U64(0),
        },
    ];
    add_object(out, layout.klass.size as usize, &writes)
}

/// Adds the name of a type. The one error is out of memory.
fn add_type_name(out: &mut Vec<u8>, name: &[u8]) -> Result<(), AllocError>
    requires { length name.now ≤ 128 }
    ensures { IfOk result (λ _. out.new.items ≡ out.old.items ++ aligned (type_name name.now)) }
{
    let writes = [Write {
        at: 0,
        value: Value::Bytes(name),
    }];
    add_object(out, TYPE_NAME, &writes)
}

/// Adds a type that is to stand at an address, and its name. The one error is out of memory.
fn add_type(
    out: &mut Vec<u8>,
    layout: &Layout,
    at: u64,
    flags: u64,
    name: &[u8],
) -> Result<(), AllocError>
    requires sound { IsSound layout.now }
    requires short { length name.now ≤ 128 }
    requires fits { at < 2 ^ 62 }
    ensures { IfOk result (λ _. out.new.items ≡ out.old.items ++ laid_type layout.now at flags name.now) }
{
    let name_at = at + rounded(u64::from(layout.klass.size));
    add_type_record(out, layout, name_at, flags)?;
    add_type_name(out, name)
}

/// How much a type takes, with its name.
fn type_size(layout: &Layout) -> u64
    requires { IsSound layout.now }
    ensures value { result ≡ type_size layout.now }
    ensures bound { result < 2 ^ 17 }
{
    rounded(u64::from(layout.klass.size)) + TYPE_NAME as u64
}

/// Where the types stand, of which the first is to stand at an address.
fn types_at(layout: &Layout, at: u64) -> TypesAt
    requires sound { IsSound layout.now }
    requires fits { at < 2 ^ 62 }
    ensures { result ≡ types_at layout.now at }
{
    let size = type_size(layout);
    TypesAt {
        integer: at,
        text: at + size,
        list: at + size + size,
    }
}

/// Adds the three types. The one error is out of memory.
#[tactic(auto, unfolding(crate::specs::Laid::three_types))]
fn add_types(out: &mut Vec<u8>, layout: &Layout, types: TypesAt) -> Result<(), AllocError>
    requires sound { IsSound layout.now }
    requires integer { types.integer < 2 ^ 62 }
    requires text { types.text < 2 ^ 62 }
    requires list { types.list < 2 ^ 62 }
    ensures { IfOk result (λ _. out.new.items ≡ out.old.items ++ three_types layout.now types) }
{
    add_type(out, layout, types.integer, 1 << 24, b"int")?;
    add_type(out, layout, types.text, 1 << 28, b"str")?;
    add_type(out, layout, types.list, 1 << 25, b"list")
}

/// Where the thread is to stand that holds the lock, or 0 where none does. The one error is out of memory.
fn owner_place(
    alloc: Global,
    layout: &Layout,
    first: u64,
    program: &Program,
) -> Result<u64, AllocError>
    requires sound { IsSound layout.now }
    requires valid { AllByRecursion (λ (t : Thread).
        AllByRecursion (IsValidFrame (family_of layout.now.lines)) t.frames) (program_in program.now).threads }
    requires owner { IfSome program.now.owner (λ k. k < length (program_in program.now).threads) }
    requires fits { first + sum_by (thread_size layout.now) (program_in program.now).threads < 2 ^ 63 }
    ensures { IfOk result (λ place. place ≡ place_or_none
        (addresses_from (thread_size layout.now) first (program_in program.now).threads) program.now.owner) }
{
    let Some(owner) = program.owner else {
        return Ok(0);
    };
    let mut here = first;
    for thread in &program.threads[..owner as usize] {
        here += thread_size(alloc, layout, thread)?;
    }
    Ok(here)
}

/// Where the lock's record stands, where the layout has one, of an interpreter that stands at an address.
pub fn lock_record_place(layout: &Layout, at: u64) -> u64
    requires sound { IsSound layout.now }
    requires fits { at < 2 ^ 62 }
    ensures { result ≡ gil_place layout.now at }
{
    at + rounded(interpreter_len(layout))
}

/// Where the thread stands that holds the lock, of a program whose objects stand in memory from an address on; 0 where
/// none holds it. The one error is out of memory.
pub fn holder_place(
    alloc: Global,
    program: &Program,
    layout: &Layout,
    at: u64,
) -> Result<u64, AllocError>
    requires sound { IsSound layout.now }
    requires valid { IsValidProgram (family_of layout.now.lines) (program_in program.now) }
    requires fits { at + program_size layout.now (program_in program.now) < 2 ^ 62 }
    ensures { IfOk result (λ place. place ≡ place_of_owner layout.now at (program_in program.now)) }
{
    owner_place(alloc, layout, at + shared_size(layout), program)
}

/// The objects of a program, one behind the other, as they are to stand in memory from an address on: the interpreter
/// first, then the lock's record where the layout has one, three types with their names, and the threads, each with
/// its C frame where the layout has those, and its frames. A frame is followed by its code, its line table, the tuple
/// of its locals' names, its file's and function's names, and the names and values of its locals. Each begins at a
/// multiple of 16 bytes from there.
///
/// They are as many as `objects_size` says. Where they stand at `at`, which is a multiple of 16 and not 0, and
/// address 0 has no byte, the stacks of the interpreter there are exactly those that the program tells: its threads
/// in their order, each with its frames, their lines, and their locals with their values. The lock's record, or a
/// word that names the owner's thread where the layout has no such record, tells the owner's id, which no other thread
/// has. For that the layout has to have room for the type of a value beside its other fields.
///
/// The one error is out of memory.
pub fn laid_program(
    alloc: Global,
    program: &Program,
    layout: &Layout,
    at: u64,
) -> Result<Vec<u8>, AllocError>
    requires sound { IsSound layout.now }
    requires valid { IsValidProgram (family_of layout.now.lines) (program_in program.now) }
    requires fits { at + program_size layout.now (program_in program.now) < 2 ^ 62 }
    ensures laid { IfOk result (λ found. found.items ≡ laid_program layout.now at (program_in program.now)) }
    ensures size { IfOk result (λ found. length found.items ≡ program_size layout.now (program_in program.now)) }
    ensures stacks { HasRoom layout.now → IsPlace at → IfOk result
        (λ found. TellsStacks layout.now at (program_in program.now) found.items) }
    ensures owner { HasRoom layout.now → IsPlace at → IfOk result
        (λ found. TellsOwner layout.now at (program_in program.now) found.items) }
    ensures interpreter { HasRoom layout.now → IsPlace at → IfOk result
        (λ found. TellsInterpreter layout.now at found.items) }
{
    let gil_at = at + rounded(interpreter_len(layout));
    let types = types_at(layout, gil_at + gil_size(layout.gil));
    let first = types.list + type_size(layout);
    let holder = owner_place(alloc, layout, first, program)?;
    let mut out = Vec::new(alloc);
    let head = threads_head(first, &program.threads);
    add_interpreter(&mut out, layout, head, gil_at)?;
    add_gil(&mut out, layout.gil, holder)?;
    add_types(&mut out, layout, types)?;
    add_threads(alloc, &mut out, layout, types, at, first, &program.threads)?;
    Ok(out)
}
