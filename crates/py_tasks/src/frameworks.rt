//! Other frameworks than asyncio, which have tasks of their own, by the modules that an interpreter has.
ghost use Rattle.std.specs.Prelude.{◌≡◌, ◌*◌, ◌++◌, OnOk, length, option_to_list};
ghost use Rattle.process_memory.specs.Seen.{Reads, items_of};
ghost use Rattle.py_fields.specs.Sound.{IsSound};
ghost use Rattle.py_builtins.specs.Consulted.{Consults};
ghost use Rattle.py_names.specs.NamesError.{names_fault};
ghost use Rattle.task_sets.specs.Gathered.{gathered};
ghost use Rattle.py_tasks.specs.Frameworks.{all_frameworks_at, by_modules_at, framework_at, framework_named};
ghost use Rattle.py_tasks.specs.Frameworks.{frameworks_at, frameworks_by, frameworks_in, frameworks_of};
ghost use Rattle.py_tasks.specs.Frameworks.{has_framework, is_framework, known_framework_at};

use crate::fault::or_none;
use instance_dicts::{Attribute, DictForm, InstanceDict, dict_attributes};
use process_memory::{ProcessMemory, word_past};
use py_builtins::copy_string;
use py_fields::Layout;
use py_names::NamesError;
use std::alloc::{AllocFailed, Global};

/// How many slots of the dict of modules are looked at, at most.
const SLOT_LIMIT: u64 = 65536;

/// Another framework than asyncio.
#[derive(Debug, Clone, Copy, Drop, PartialEq, Eq)]
pub enum Framework {
    Curio,
    Greenlet,
    Trio,
}

/// Which of them an interpreter has.
#[derive(Debug, Clone, Copy, Drop, PartialEq, Eq)]
pub struct Frameworks {
    /// The module `curio`.
    pub curio: bool,
    /// The module `greenlet`.
    pub greenlet: bool,
    /// The module `trio`.
    pub trio: bool,
}

/// The framework whose module has a name.
fn framework_named(name: &str) -> Option<Framework>
    ensures { result ≡ framework_named name.now }
{
    if name == "curio" {
        return Some(Framework::Curio);
    }
    if name == "greenlet" {
        return Some(Framework::Greenlet);
    }
    if name == "trio" {
        return Some(Framework::Trio);
    }
    None
}

/// The framework whose module stands in an entry. At most 2 reads.
fn read_framework<P: ProcessMemory>(
    alloc: Global,
    process: &mut P,
    layout: &Layout,
    entry: Attribute,
) -> Result<Option<Framework>, NamesError>
    requires sound { IsSound layout.now }
    ensures { Reads names_fault 2 (P.seen process.old) (P.seen process.new)
        (λ m. framework_at layout.now m entry) result }
{
    let name = copy_string(alloc, process, layout, entry.name)?;
    Ok(framework_named(name.as_str()))
}

/// The same; none where the entry's name can't be read. At most 2 reads.
fn read_known_framework<P: ProcessMemory>(
    alloc: Global,
    process: &mut P,
    layout: &Layout,
    entry: Attribute,
) -> Result<Option<Framework>, NamesError>
    requires sound { IsSound layout.now }
    ensures { Reads names_fault 2 (P.seen process.old) (P.seen process.new)
        (λ m. known_framework_at layout.now m entry) result }
{
    or_none(read_framework(alloc, process, layout, entry))
}

/// Adds a framework, where there is one.
fn add_framework(
    list: &mut Vec<Framework>,
    framework: Option<Framework>,
) -> Result<(), AllocFailed<Framework>>
    ensures { OnOk result (list.new.items ≡ list.old.items ++ option_to_list framework) }
{
    match framework {
        None => Ok(()),
        Some(framework) => list.push(framework),
    }
}

/// Those whose modules stand in some entries, in order. At most 2 reads for each entry.
fn read_each<P: ProcessMemory>(
    alloc: Global,
    process: &mut P,
    layout: &Layout,
    entries: &[Attribute],
) -> Result<Vec<Framework>, NamesError>
    requires sound { IsSound layout.now }
    ensures { Reads names_fault (2 * length entries.now) (P.seen process.old) (P.seen process.new)
        (λ m. gathered (frameworks_by layout.now m entries.now) (length entries.now) 0) (items_of result) }
{
    let mut list = Vec::new(alloc);
    for entry in entries {
        let framework = read_known_framework(alloc, process, layout, *entry)?;
        add_framework(&mut list, framework)?;
    }
    Ok(list)
}

/// Whether a framework is another one.
fn is_framework(own: Framework, sought: Framework) -> bool
    ensures { result ≡ is_framework own sought }
{
    own == sought
}

/// Whether a framework is among some.
fn has_framework(sought: Framework, list: &[Framework]) -> bool
    ensures { result ≡ has_framework sought list.now }
{
    list.iter().any(|own| is_framework(*own, sought))
}

/// Which ones are among some.
fn frameworks_of(list: &[Framework]) -> Frameworks
    ensures { result ≡ frameworks_of list.now }
{
    Frameworks {
        curio: has_framework(Framework::Curio, list),
        greenlet: has_framework(Framework::Greenlet, list),
        trio: has_framework(Framework::Trio, list),
    }
}

/// Those whose modules a dict has. At most 262147 reads.
fn read_in<P: ProcessMemory>(
    alloc: Global,
    process: &mut P,
    layout: &Layout,
    modules: u64,
) -> Result<Option<Frameworks>, NamesError>
    requires sound { IsSound layout.now }
    ensures { Reads names_fault 262147 (P.seen process.old) (P.seen process.new)
        (λ m. frameworks_in layout.now m modules) result }
{
    let dict = InstanceDict::Dict(modules);
    let told = dict_attributes(alloc, process, layout, DictForm::Pointer, dict, SLOT_LIMIT)?;
    let list = read_each(alloc, process, layout, &told.list)?;
    Ok(Some(frameworks_of(&list)))
}

/// The same; an interpreter without modules has none. At most 262147 reads.
fn read_by_modules<P: ProcessMemory>(
    alloc: Global,
    process: &mut P,
    layout: &Layout,
    modules: u64,
) -> Result<Option<Frameworks>, NamesError>
    requires sound { IsSound layout.now }
    ensures { Reads names_fault 262147 (P.seen process.old) (P.seen process.new)
        (λ m. by_modules_at layout.now m modules) result }
{
    if modules == 0 {
        return Ok(Some(frameworks_of(&[])));
    }
    read_in(alloc, process, layout, modules)
}

/// Those that the interpreter at an address has. At most 262148 reads.
fn read_all<P: ProcessMemory>(
    alloc: Global,
    process: &mut P,
    layout: &Layout,
    interpreter: u64,
) -> Result<Option<Frameworks>, NamesError>
    requires sound { IsSound layout.now }
    ensures { Reads names_fault 262148 (P.seen process.old) (P.seen process.new)
        (λ m. all_frameworks_at layout.now m interpreter) result }
{
    let modules = word_past(process, interpreter, layout.interpreter.modules as u64)?;
    read_by_modules(alloc, process, layout, modules)
}

/// Which frameworks besides asyncio the interpreter at an address has, by the names in its dict of modules
/// (`sys.modules`), of which 65536 slots are looked at, at most; an interpreter without modules has none. None is the
/// answer where that dict can't be read; a name that can't be read is no framework's. The one error is out of memory.
/// At most 262148 reads: 4, and 4 for each slot.
pub fn read_frameworks<P: ProcessMemory>(
    alloc: Global,
    process: &mut P,
    layout: &Layout,
    interpreter: u64,
) -> Result<Option<Frameworks>, NamesError>
    requires sound { IsSound layout.now }
    ensures { Reads names_fault 262148 (P.seen process.old) (P.seen process.new)
        (λ m. frameworks_at layout.now m interpreter) result }
{
    or_none(read_all(alloc, process, layout, interpreter))
}
