//! What the module `asyncio.tasks` has.
ghost use Rattle.std.specs.Prelude.{◌≡◌};
ghost use Rattle.process_memory.specs.Seen.{Reads};
ghost use Rattle.py_fields.specs.Sound.{IsSound};
ghost use Rattle.py_names.specs.NamesError.{names_fault};
ghost use Rattle.task_sets.specs.Roots.{entry_at, module_at, roots_at, roots_in};

use process_memory::ProcessMemory;
use py_builtins::{DictCursor, read_type};
use py_fields::Layout;
use py_names::{NamesError, find_in, word_beside};
use std::alloc::Global;

/// How many slots of one dict are looked at, at most.
const SLOT_LIMIT: u64 = 65536;

/// What the module `asyncio.tasks` has under names that lead to tasks: the address of each, where it has one.
#[derive(Debug, Clone, Copy, Drop, PartialEq, Eq)]
pub struct Roots {
    /// `_all_tasks`, up to 3.11: a set of weak references (`WeakSet`).
    pub all: Option<u64>,
    /// `_scheduled_tasks`, from 3.12 on: the same.
    pub scheduled: Option<u64>,
    /// `_eager_tasks`, from 3.12 on: a set of tasks in their first step.
    pub eager: Option<u64>,
    /// `_current_tasks`: a dict of the running task of each loop.
    pub current: Option<u64>,
    /// `_CTask`: the type of tasks.
    pub task: Option<u64>,
}

/// The value of the first entry of a dict under a name. At most 262144 reads.
fn read_entry<P: ProcessMemory>(
    alloc: Global,
    process: &mut P,
    layout: &Layout,
    dict: &DictCursor,
    name: &str,
) -> Result<Option<u64>, NamesError>
    requires sound { IsSound layout.now }
    requires start { dict.now.passed ≡ 0 }
    ensures { Reads names_fault 262144 (P.seen process.old) (P.seen process.new)
        (λ m. entry_at layout.now m dict.now.slots name.now) result }
{
    let search = find_in(alloc, process, layout, name, dict, SLOT_LIMIT)?;
    Ok(search.found)
}

/// What a module's dict has. At most 1310720 reads.
fn read_module_dict<P: ProcessMemory>(
    alloc: Global,
    process: &mut P,
    layout: &Layout,
    dict: &DictCursor,
) -> Result<Roots, NamesError>
    requires sound { IsSound layout.now }
    requires start { dict.now.passed ≡ 0 }
    ensures { Reads names_fault 1310720 (P.seen process.old) (P.seen process.new)
        (λ m. roots_in layout.now m dict.now.slots) result }
{
    let all = read_entry(alloc, process, layout, dict, "_all_tasks")?;
    let scheduled = read_entry(alloc, process, layout, dict, "_scheduled_tasks")?;
    let eager = read_entry(alloc, process, layout, dict, "_eager_tasks")?;
    let current = read_entry(alloc, process, layout, dict, "_current_tasks")?;
    let task = read_entry(alloc, process, layout, dict, "_CTask")?;
    Ok(Roots {
        all,
        scheduled,
        eager,
        current,
        task,
    })
}

/// What a module has, where there is one. At most 1310725 reads.
fn read_module<P: ProcessMemory>(
    alloc: Global,
    process: &mut P,
    layout: &Layout,
    found: Option<u64>,
) -> Result<Option<Roots>, NamesError>
    requires sound { IsSound layout.now }
    ensures { Reads names_fault 1310725 (P.seen process.old) (P.seen process.new)
        (λ m. module_at layout.now m found) result }
{
    match found {
        None => Ok(None),
        Some(addr) => {
            let class = read_type(alloc, process, layout, addr)?;
            let place = word_beside(process, addr, class.dict_offset)?;
            let dict = DictCursor::from(process, layout, place)?;
            let roots = read_module_dict(alloc, process, layout, &dict)?;
            Ok(Some(roots))
        }
    }
}

/// What an interpreter's module `asyncio.tasks` has, by the address of the dict of modules; none where there is no such
/// module.
///
/// `Entries` comes where 65536 slots of a dict were looked at for a name, and there is another. `Object` has the first
/// fault of what is read: a part that is not in memory, a dict that is none, or a key met in a search that is no text.
/// Else it is out of memory. At most 1572871 reads: 2 for a dict, 4 for each slot that is looked at.
pub fn read_roots<P: ProcessMemory>(
    alloc: Global,
    process: &mut P,
    layout: &Layout,
    modules: u64,
) -> Result<Option<Roots>, NamesError>
    requires sound { IsSound layout.now }
    ensures { Reads names_fault 1572871 (P.seen process.old) (P.seen process.new)
        (λ m. roots_at layout.now m modules) result }
{
    let dict = DictCursor::from(process, layout, modules)?;
    let found = read_entry(alloc, process, layout, &dict, "asyncio.tasks")?;
    read_module(alloc, process, layout, found)
}
