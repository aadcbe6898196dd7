//! Types as entries of their own modules.
ghost use Rattle.std.specs.Prelude.{◌≡◌, ◌≢◌, ◌+◌, ◌*◌, ◌≤◌};
ghost use Rattle.process_memory.specs.Memory.{byte_at};
ghost use Rattle.py_fields.specs.Sound.{IsSound};
ghost use Rattle.py_builtins.specs.Consulted.{Consults, ConsultsBy};
ghost use Rattle.py_names.specs.NamesError.{names_fault};
ghost use Rattle.type_places.specs.ModuleTypes.{entry_place_at, module_entry_at, module_entry_looked, module_type_at};
ghost use Rattle.type_places.specs.ModuleTypes.{module_place_at, module_slots_looked_at};

use crate::classes::{TypeFields, is_sized_type};
use crate::places::{Found, TypePlace, place_if};
use process_memory::ProcessMemory;
use py_builtins::{DictCursor, ObjectError, read_type};
use py_fields::Layout;
use py_names::{Looked, NamesError, find_in, word_beside};
use std::alloc::Global;

/// How many slots are looked at, at most.
const SLOT_LIMIT: u64 = 65536;

/// The entry of a module under a name, where there is a module. At most 5 reads, and 4 for each slot that is looked
/// at.
#[tactic(auto, unfolding(crate::specs::ModuleTypes::module_entry_at))]
fn module_entry<P: ProcessMemory>(
    alloc: Global,
    process: &mut P,
    layout: &Layout,
    name: &str,
    holder: Looked,
) -> Result<Option<u64>, NamesError>
    requires sound { IsSound layout.now }
    ensures answer { ConsultsBy layout.now names_fault
        (λ m. 5 + 4 * module_entry_looked layout.now m name.now holder.found holder.left)
        (P.seen process.old) (P.seen process.new)
        (λ m. module_entry_at layout.now m name.now holder.found holder.left) result }
    ensures memory { result ≢ Err (NamesError.Object ObjectError.OutOfMemory) }
{
    match holder.found {
        None => Ok(None),
        Some(addr) => {
            let class = read_type(alloc, process, layout, addr)?;
            let place = word_beside(process, addr, class.dict_offset)?;
            let dict = DictCursor::from(process, layout, place)?;
            let search = find_in(alloc, process, layout, name, &dict, holder.left)?;
            Ok(search.found)
        }
    }
}

/// The place that an entry is, if it is a type whose instances have so many bytes. At most 3 reads.
#[tactic(auto, unfolding(crate::specs::ModuleTypes::entry_place_at))]
fn entry_place<P: ProcessMemory>(
    process: &mut P,
    layout: &Layout,
    fields: &TypeFields,
    basic_size: u64,
    entry: Option<u64>,
) -> Result<Option<TypePlace>, NamesError>
    ensures answer { Consults layout.now names_fault 3 (P.seen process.old) (P.seen process.new)
        (λ m. entry_place_at layout.now fields.now m basic_size entry) result }
    ensures memory { result ≢ Err (NamesError.Object ObjectError.OutOfMemory) }
{
    match entry {
        None => Ok(None),
        Some(addr) => {
            let is = is_sized_type(process, layout, fields, basic_size, addr)?;
            Ok(place_if(addr, Found::ModuleDict, is))
        }
    }
}

/// The place of the type that a module has under a name, where there is a module. At most 8 reads, and 4 for each slot
/// that is looked at.
fn module_place<P: ProcessMemory>(
    alloc: Global,
    process: &mut P,
    layout: &Layout,
    fields: &TypeFields,
    name: &str,
    basic_size: u64,
    holder: Looked,
) -> Result<Option<TypePlace>, NamesError>
    requires sound { IsSound layout.now }
    ensures answer { ConsultsBy layout.now names_fault
        (λ m. 8 + 4 * module_entry_looked layout.now m name.now holder.found holder.left)
        (P.seen process.old) (P.seen process.new)
        (λ m. module_place_at layout.now fields.now m name.now basic_size holder.found holder.left) result }
    ensures memory { result ≢ Err (NamesError.Object ObjectError.OutOfMemory) }
{
    let entry = module_entry(alloc, process, layout, name, holder)?;
    entry_place(process, layout, fields, basic_size, entry)
}

/// The place of the type that a module has under a name, where its instances have so many bytes.
///
/// `modules` is the address of an interpreter's dict of modules, whose first entry `module_name` is the module. The
/// word that stands in it where its type says names its dict, whose first entry `type_name` is what is looked for: it
/// is the place where it is a type (`is_type`) whose instances have `basic_size` bytes without their items. None comes
/// where there is no such module, no such entry, or another thing there: a program may put any object under a name.
///
/// `Entries` comes where 65536 slots of these dicts were looked at, empty ones too, and another would be. `Object` has
/// the first fault of what is read: a part that is not in memory, a dict that is none, or a key met in a search that is
/// no text. Else it is out of memory, `OutOfMemory`, which `Object` never holds. At most 10 reads, and 4 for each slot
/// that is looked at.
pub fn module_type<P: ProcessMemory>(
    alloc: Global,
    process: &mut P,
    layout: &Layout,
    fields: &TypeFields,
    modules: u64,
    module_name: &str,
    type_name: &str,
    basic_size: u64,
) -> Result<Option<TypePlace>, NamesError>
    requires sound { IsSound layout.now }
    ensures answer { ConsultsBy layout.now names_fault
        (λ m. 10 + 4 * module_slots_looked_at layout.now m modules module_name.now type_name.now)
        (P.seen process.old) (P.seen process.new)
        (λ m. module_type_at layout.now fields.now m modules module_name.now type_name.now basic_size) result }
    ensures most { module_slots_looked_at layout.now (byte_at (P.seen process.old).pieces) modules module_name.now
        type_name.now ≤ 65536 }
    ensures memory { result ≢ Err (NamesError.Object ObjectError.OutOfMemory) }
{
    let dict = DictCursor::from(process, layout, modules)?;
    let holder = find_in(alloc, process, layout, module_name, &dict, SLOT_LIMIT)?;
    module_place(
        alloc, process, layout, fields, type_name, basic_size, holder,
    )
}
