//! The names of an interpreter's threads.
ghost use Rattle.std.specs.Prelude.{◌≡◌, ◌≢◌, ◌+◌, ◌*◌, ◌≤◌, ◌++◌, ℕ, IfOk, OnOk};
ghost use Rattle.process_memory.specs.Memory.{byte_at};
ghost use Rattle.process_memory.specs.Seen.{items_of};
ghost use Rattle.py_fields.specs.Sound.{IsSound};
ghost use Rattle.py_builtins.specs.Consulted.{ConsultingBy, Consults, ConsultsBy};
ghost use Rattle.py_names.specs.NamesError.{names_fault};
ghost use Rattle.py_names.specs.Names.{AnswersNames, HasNames, each_looked, entry_in, entry_looked};
ghost use Rattle.py_names.specs.Names.{interpreter_names_at, kept_name, module_looked, module_names_at, given_name_at};
ghost use Rattle.py_names.specs.Names.{names_at, names_cost, names_from, slot_looked, slots_looked_at, thread_at};
ghost use Rattle.py_names.specs.Names.{thread_in, thread_looked, named_threads_at, threads_looked};

use crate::NamesError;
use crate::search::find_in;
use crate::typed::{read_typed_dict, word_beside};
use elf64_core::Text;
use process_memory::{ProcessMemory, word_past};
use py_builtins::{DictCursor, ObjectError, Slot, copy_long, copy_string, read_type};
use py_fields::{Dicts, Layout};
use shared_texts::SharedTexts;
use std::alloc::{AllocError, AllocFailed, Global};
use std::collections::BTreeMap;

/// How many slots are looked at, at most.
const SLOT_LIMIT: u64 = 65536;

/// The name of a thread, by the thread's id.
#[derive(Drop)]
pub struct Named {
    pub id: u64,
    pub name: Text,
}

/// What a slot gives, and how many slots may be looked at then.
#[derive(Drop)]
struct Given {
    named: Option<Named>,
    left: u64,
}

/// The name at an address, under an id; none where there is none. At most 2 reads.
#[tactic(auto, unfolding(crate::specs::Names::given_name_at))]
fn read_name<P: ProcessMemory>(
    alloc: Global,
    process: &mut P,
    layout: &Layout,
    id: u64,
    found: Option<u64>,
) -> Result<Option<Named>, NamesError>
    requires sound { IsSound layout.now }
    ensures answer { Consults layout.now names_fault 2 (P.seen process.old) (P.seen process.new)
        (λ m. given_name_at layout.now m id found) result }
    ensures memory { result ≢ Err (NamesError.Object ObjectError.OutOfMemory) }
{
    match found {
        None => Ok(None),
        Some(addr) => {
            let name = copy_string(alloc, process, layout, addr)?;
            Ok(Some(Named { id, name }))
        }
    }
}

/// The id and the name of a thread that an entry of the dict of threads holds. At most 10 reads, and 4 for each
/// slot that is looked at.
fn read_entry<P: ProcessMemory>(
    alloc: Global,
    process: &mut P,
    layout: &Layout,
    key: u64,
    value: u64,
    left: u64,
) -> Result<Given, NamesError>
    requires sound { IsSound layout.now }
    ensures answer { ConsultsBy layout.now names_fault (λ m. 10 + 4 * entry_looked layout.now m key value left)
        (P.seen process.old) (P.seen process.new) (λ m. entry_in layout.now m key value left) result }
    ensures memory { result ≢ Err (NamesError.Object ObjectError.OutOfMemory) }
{
    let (number, _) = copy_long(process, layout, key)?;
    let class = read_type(alloc, process, layout, value)?;
    let dict = read_typed_dict(process, layout, value, class)?;
    let search = find_in(alloc, process, layout, "_name", &dict, left)?;
    let named = read_name(alloc, process, layout, number.cast_unsigned(), search.found)?;
    Ok(Given {
        named,
        left: search.left,
    })
}

/// What a slot of the dict of threads gives. At most 10 reads, and 4 for each slot that is looked at.
fn read_given<P: ProcessMemory>(
    alloc: Global,
    process: &mut P,
    layout: &Layout,
    slot: Slot,
    left: u64,
) -> Result<Given, NamesError>
    requires sound { IsSound layout.now }
    ensures answer { ConsultsBy layout.now names_fault (λ m. 10 + 4 * slot_looked layout.now m left slot)
        (P.seen process.old) (P.seen process.new) (λ m. thread_in layout.now m left slot) result }
    ensures memory { result ≢ Err (NamesError.Object ObjectError.OutOfMemory) }
{
    match slot {
        Slot::Empty => Ok(Given { named: None, left }),
        Slot::Entry(key, value) => read_entry(alloc, process, layout, key, value, left),
    }
}

/// What the slot of a number gives. At most 12 reads, and 4 for each slot that is looked at beside it.
fn read_thread<P: ProcessMemory>(
    alloc: Global,
    process: &mut P,
    layout: &Layout,
    dict: &DictCursor,
    number: u64,
    left: u64,
) -> Result<Given, NamesError>
    requires sound { IsSound layout.now }
    ensures answer { ConsultsBy layout.now names_fault
        (λ m. 12 + 4 * thread_looked layout.now m dict.now.slots number left) (P.seen process.old) (P.seen process.new)
        (λ m. thread_at layout.now m dict.now.slots number left) result }
    ensures memory { result ≢ Err (NamesError.Object ObjectError.OutOfMemory) }
{
    let slot = dict.slot(process, number)?;
    read_given(alloc, process, layout, slot, left)
}

/// Adds a name, where there is one, which shares its bytes with those of the same characters before it.
fn add_name(
    texts: &mut SharedTexts,
    names: &mut Vec<Named>,
    named: Option<Named>,
) -> Result<(), AllocError>
    ensures { OnOk result (names.new.items ≡ names.old.items ++ kept_name named) }
{
    let Some(named) = named else {
        return Ok(());
    };
    let id = named.id;
    let name = texts.share(named.name)?;
    names.push(Named { id, name })?;
    Ok(())
}

/// The names of a dict's entries, where so many slots may be looked at. At most 12 reads for each that is.
fn read_each<P: ProcessMemory>(
    alloc: Global,
    process: &mut P,
    layout: &Layout,
    dict: &DictCursor,
    limit: u64,
) -> Result<Vec<Named>, NamesError>
    requires sound { IsSound layout.now }
    requires start { dict.now.passed ≡ 0 }
    ensures answer { ConsultsBy layout.now names_fault
        (λ m. 12 * each_looked layout.now m dict.now.slots dict.now.slots.count 0 limit)
        (P.seen process.old) (P.seen process.new)
        (λ m. names_from layout.now m dict.now.slots dict.now.slots.count 0 limit) (items_of result) }
    ensures memory { result ≢ Err (NamesError.Object ObjectError.OutOfMemory) }
{
    let mut texts = SharedTexts::new(alloc);
    let mut names = Vec::new(alloc);
    let mut left = limit;
    for number in 0..dict.remaining() {
        if left == 0 {
            return Err(NamesError::Entries);
        }
        let given = read_thread(alloc, process, layout, dict, number, left - 1)?;
        left = given.left;
        add_name(&mut texts, &mut names, given.named)?;
    }
    Ok(names)
}

/// The names of the threads that a dict has, where there is one. At most 2 reads, and 12 for each slot that is
/// looked at.
#[tactic(auto, unfolding(crate::specs::Names::named_threads_at))]
fn read_threads<P: ProcessMemory>(
    alloc: Global,
    process: &mut P,
    layout: &Layout,
    found: Option<u64>,
    left: u64,
) -> Result<Vec<Named>, NamesError>
    requires sound { IsSound layout.now }
    ensures answer { ConsultsBy layout.now names_fault (λ m. 2 + 12 * threads_looked layout.now m found left)
        (P.seen process.old) (P.seen process.new) (λ m. named_threads_at layout.now m found left) (items_of result) }
    ensures memory { result ≢ Err (NamesError.Object ObjectError.OutOfMemory) }
{
    match found {
        None => Ok(Vec::new(alloc)),
        Some(addr) => {
            let dict = DictCursor::from(process, layout, addr)?;
            read_each(alloc, process, layout, &dict, left)
        }
    }
}

/// The names that a module keeps, where there is one. At most 7 reads, and 12 for each slot that is looked at.
#[tactic(auto, unfolding(crate::specs::Names::module_names_at))]
fn read_module<P: ProcessMemory>(
    alloc: Global,
    process: &mut P,
    layout: &Layout,
    found: Option<u64>,
    left: u64,
) -> Result<Vec<Named>, NamesError>
    requires sound { IsSound layout.now }
    ensures answer { ConsultsBy layout.now names_fault (λ m. 7 + 12 * module_looked layout.now m found left)
        (P.seen process.old) (P.seen process.new)
        (λ m. module_names_at layout.now m found left) (items_of result) }
    ensures memory { result ≢ Err (NamesError.Object ObjectError.OutOfMemory) }
{
    match found {
        None => Ok(Vec::new(alloc)),
        Some(addr) => {
            let class = read_type(alloc, process, layout, addr)?;
            let place = word_beside(process, addr, class.dict_offset)?;
            let dict = DictCursor::from(process, layout, place)?;
            let search = find_in(alloc, process, layout, "_active", &dict, left)?;
            read_threads(alloc, process, layout, search.found, search.left)
        }
    }
}

/// The names of an interpreter's threads, in the order of their dict. At most 10 reads,
/// and 12 for each slot that is looked at.
fn read_interpreter<P: ProcessMemory>(
    alloc: Global,
    process: &mut P,
    layout: &Layout,
    interpreter: u64,
) -> Result<Vec<Named>, NamesError>
    requires sound { IsSound layout.now }
    ensures answer { ConsultsBy layout.now names_fault (λ m. names_cost layout.now m interpreter)
        (P.seen process.old) (P.seen process.new)
        (λ m. interpreter_names_at layout.now m interpreter) (items_of result) }
    ensures memory { result ≢ Err (NamesError.Object ObjectError.OutOfMemory) }
{
    let modules = word_past(process, interpreter, layout.interpreter.modules as u64)?;
    let dict = DictCursor::from(process, layout, modules)?;
    let search = find_in(alloc, process, layout, "threading", &dict, SLOT_LIMIT)?;
    read_module(alloc, process, layout, search.found, search.left)
}

/// The same, where the layout has dicts.
#[tactic(auto, unfolding(crate::specs::Names::names_at))]
pub(crate) fn read_names<P: ProcessMemory>(
    alloc: Global,
    process: &mut P,
    layout: &Layout,
    interpreter: u64,
) -> Result<Vec<Named>, NamesError>
    requires sound { IsSound layout.now }
    ensures answer { ConsultsBy layout.now names_fault (λ m. names_cost layout.now m interpreter)
        (P.seen process.old) (P.seen process.new) (λ m. names_at layout.now m interpreter) (items_of result) }
    ensures memory { result ≢ Err (NamesError.Object ObjectError.OutOfMemory) }
{
    match layout.dicts {
        Dicts::Absent => Err(NamesError::NoDicts),
        Dicts::General | Dicts::Compact => read_interpreter(alloc, process, layout, interpreter),
    }
}

/// A map of names, later ones in the place of earlier ones of their ids.
fn names_map(
    alloc: Global,
    names: Vec<Named>,
) -> Result<BTreeMap<u64, Text>, AllocFailed<(u64, Text)>>
    ensures { IfOk result (λ map. HasNames map names.items) }
{
    let mut map = BTreeMap::new(alloc);
    for named in names {
        map.insert(named.id, named.name)?;
    }
    Ok(map)
}

/// The names of an interpreter's threads, by the threads' ids, as its module `threading` keeps them.
///
/// The interpreter names the dict of modules; its first entry `threading` is the module. The word that stands in
/// it where its type says names its dict, whose first entry `_active` is a dict; without either there are no
/// names. Each entry of that dict has an integer as its key, the thread's id as 8 bytes (`copy_long`), and the
/// thread as its value. A thread's dict is its managed one, where the flags of its type have bit 4, and else the
/// one that the word names which stands where its type says; its first entry `_name` is the thread's name, and
/// without it there is none. A later name of one id takes the place of an earlier one.
///
/// `NoDicts` comes exactly where the layout has no dicts, and `Entries` where 65536 slots of these dicts were
/// looked at, empty ones too, and another would be. `Object` has the first fault of what is read: a part that is
/// not in memory, a dict that is none, a key met in a search, or a name, that is no text. Else it is want of
/// memory, `OutOfMemory`, which `Object` never holds. At most 10 reads, and 12 for each slot that is looked at.
pub fn thread_names_from_interpreter<P: ProcessMemory>(
    alloc: Global,
    interpreter: u64,
    process: &mut P,
    layout: &Layout,
) -> Result<BTreeMap<u64, Text>, NamesError>
    requires sound { IsSound layout.now }
    ensures names { ConsultingBy layout.now (λ m. 10 + 12 * slots_looked_at layout.now m interpreter)
        (P.seen process.old) (P.seen process.new)
        (λ m. AnswersNames (names_at layout.now m interpreter) result) }
    ensures most { slots_looked_at layout.now (byte_at (P.seen process.old).pieces) interpreter ≤ 65536 }
    ensures memory { result ≢ Err (NamesError.Object ObjectError.OutOfMemory) }
{
    let names = read_names(alloc, process, layout, interpreter)?;
    let map = names_map(alloc, names)?;
    Ok(map)
}
