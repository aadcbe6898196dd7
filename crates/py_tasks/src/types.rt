//! The types by which tasks, futures and coroutines are told.
ghost use Rattle.std.specs.Prelude.{◌≡◌};
ghost use Rattle.process_memory.specs.Seen.{Reads};
ghost use Rattle.py_fields.specs.Sound.{IsSound};
ghost use Rattle.py_names.specs.NamesError.{names_fault};
ghost use Rattle.py_tasks.specs.Types.{address_or, sizes_of, type_at, types_at};

use process_memory::ProcessMemory;
use py_coroutines::AwaitTypes;
use py_fields::Layout;
use py_names::NamesError;
use py_records::{KlassRecord, Records};
use std::alloc::Global;
use type_places::{TypeFields, TypePlace, module_type};

/// How many bytes the objects of types have, where that is described.
#[derive(Clone, Copy)]
pub struct Sizes {
    pub coroutine: Option<u32>,
    pub generator: Option<u32>,
    pub async_generator: Option<u32>,
    pub future: Option<u32>,
}

pub(crate) fn sizes_of(records: &Records) -> Sizes
    ensures { result ≡ sizes_of records.now }
{
    let it = &records.coroutines;
    Sizes {
        coroutine: match it.coroutine {
            Some(record) => Some(record.size),
            None => None,
        },
        generator: match it.generator {
            Some(record) => Some(record.size),
            None => None,
        },
        async_generator: match it.async_generator {
            Some(record) => Some(record.size),
            None => None,
        },
        future: match records.tasks.future {
            Some(record) => Some(record.size),
            None => None,
        },
    }
}

/// The address of a place; 0 where there is none.
fn address_or(place: Option<TypePlace>) -> u64
    ensures { result ≡ address_or place }
{
    match place {
        Some(place) => place.address,
        None => 0,
    }
}

/// The address of a module's type; 0 where it is not found, or not described. At most 262154 reads.
fn read_type_of<P: ProcessMemory>(
    alloc: Global,
    process: &mut P,
    layout: &Layout,
    fields: &TypeFields,
    modules: u64,
    holder: &str,
    name: &str,
    size: Option<u32>,
) -> Result<u64, NamesError>
    requires sound { IsSound layout.now }
    ensures { Reads names_fault 262154 (P.seen process.old) (P.seen process.new)
        (λ m. type_at layout.now fields.now m modules holder.now name.now size) result }
{
    match size {
        None => Ok(0),
        Some(size) => {
            let place = module_type(
                alloc,
                process,
                layout,
                fields,
                modules,
                holder,
                name,
                size as u64,
            )?;
            Ok(address_or(place))
        }
    }
}

/// The types, with that of tasks. At most 1048616 reads.
pub(crate) fn read_types<P: ProcessMemory>(
    alloc: Global,
    process: &mut P,
    layout: &Layout,
    fields: &TypeFields,
    sizes: Sizes,
    modules: u64,
    task: u64,
) -> Result<AwaitTypes, NamesError>
    requires sound { IsSound layout.now }
    ensures { Reads names_fault 1048616 (P.seen process.old) (P.seen process.new)
        (λ m. types_at layout.now fields.now m sizes modules task) result }
{
    let coroutine = read_type_of(
        alloc,
        process,
        layout,
        fields,
        modules,
        "types",
        "CoroutineType",
        sizes.coroutine,
    )?;
    let generator = read_type_of(
        alloc,
        process,
        layout,
        fields,
        modules,
        "types",
        "GeneratorType",
        sizes.generator,
    )?;
    let async_generator = read_type_of(
        alloc,
        process,
        layout,
        fields,
        modules,
        "types",
        "AsyncGeneratorType",
        sizes.async_generator,
    )?;
    let future = read_type_of(
        alloc,
        process,
        layout,
        fields,
        modules,
        "_asyncio",
        "Future",
        sizes.future,
    )?;
    Ok(AwaitTypes {
        coroutine,
        generator,
        async_generator,
        future,
        task,
    })
}
