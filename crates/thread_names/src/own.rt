//! The name that a thread has in its own dict.
ghost use Rattle.std.specs.Prelude.{◌≡◌, ◌+◌, ◌*◌, ◌≤◌, IfOk, codes, length, take};
ghost use Rattle.process_memory.specs.Seen.{Answers, Reads};
ghost use Rattle.py_fields.specs.Sound.{IsSound};
ghost use Rattle.py_builtins.specs.Consulted.{Consults};
ghost use Rattle.py_builtins.specs.Dicts.{slots_of};
ghost use Rattle.py_names.specs.NamesError.{names_fault};
ghost use Rattle.py_names.specs.Typed.{typed_slots};
ghost use Rattle.thread_names.specs.Own.{found_or_more, first_named, name_at, named_by_rule, named_by_type};
ghost use Rattle.thread_names.specs.Own.{name_object, text_if, value_if};

use elf64_core::Text;
use instance_dicts::{Attribute, DictForm, InstanceFields, dict_attributes, instance_dict};
use process_memory::ProcessMemory;
use py_builtins::{DictCursor, ObjectType, PY_TPFLAGS_MANAGED_DICT, copy_string, read_type};
use py_fields::Layout;
use py_names::{NamesError, find_in, word_beside};
use std::alloc::Global;

/// How many slots of a thread's own dict are looked at, at most.
const SLOT_LIMIT: u64 = 256;

/// How the instances of a version's classes have their dicts, as the records of the version say.
#[derive(Clone, Copy, Debug, Drop)]
pub struct DictRule {
    /// Where the fields of classes and instances stand.
    pub fields: InstanceFields,
    /// The form of the version.
    pub form: DictForm,
}

/// The dict of an object by its type, where no records say how instances have theirs: its managed one, where the type's
/// flags say so, and else the one that the word names which stands where the type says. At most 4 reads.
fn typed_dict<P: ProcessMemory>(
    process: &mut P,
    layout: &Layout,
    addr: u64,
    class: ObjectType,
) -> Result<DictCursor, NamesError>
    requires sound { IsSound layout.now }
    ensures answer { Reads names_fault 4 (P.seen process.old) (P.seen process.new)
        (λ m. typed_slots layout.now m addr class) (slots_of result) }
    ensures start { IfOk result (λ cursor. cursor.passed ≡ 0) }
{
    if class.flags & PY_TPFLAGS_MANAGED_DICT != 0 {
        let cursor = DictCursor::from_managed_dict(process, layout, addr, class.at, class.flags)?;
        return Ok(cursor);
    }
    let dict = word_beside(process, addr, class.dict_offset)?;
    let plain = DictCursor::from(process, layout, dict)?;
    Ok(plain)
}

/// The object under `_name` in the dict of an object by its type. At most 1030 reads.
#[tactic(auto, unfolding(crate::specs::Own::named_by_type))]
fn named_by_type<P: ProcessMemory>(
    alloc: Global,
    process: &mut P,
    layout: &Layout,
    thread: u64,
) -> Result<Option<u64>, NamesError>
    requires sound { IsSound layout.now }
    ensures { Reads names_fault 1030 (P.seen process.old) (P.seen process.new)
        (λ m. named_by_type layout.now m thread) result }
{
    let class = read_type(alloc, process, layout, thread)?;
    let dict = typed_dict(process, layout, thread, class)?;
    let search = find_in(alloc, process, layout, "_name", &dict, SLOT_LIMIT)?;
    Ok(search.found)
}

/// The value of an attribute, if it has a name. At most 2 reads.
#[tactic(auto, unfolding(crate::specs::Own::value_if))]
fn value_if<P: ProcessMemory>(
    alloc: Global,
    process: &mut P,
    layout: &Layout,
    name: &str,
    attribute: Attribute,
) -> Result<Option<u64>, NamesError>
    requires sound { IsSound layout.now }
    ensures { Consults layout.now names_fault 2 (P.seen process.old) (P.seen process.new)
        (λ m. value_if layout.now m name.now attribute) result }
{
    let text = copy_string(alloc, process, layout, attribute.name)?;
    if text.as_str() == name {
        return Ok(Some(attribute.value));
    }
    Ok(None)
}

/// The value of the first of some attributes that has a name. At most 2 reads for each.
fn first_named<P: ProcessMemory>(
    alloc: Global,
    process: &mut P,
    layout: &Layout,
    name: &str,
    attributes: &[Attribute],
) -> Result<Option<u64>, NamesError>
    requires sound { IsSound layout.now }
    ensures { Reads names_fault (2 * length attributes.now) (P.seen process.old) (P.seen process.new)
        (λ m. first_named layout.now m name.now attributes.now) result }
{
    for attribute in attributes {
        match value_if(alloc, process, layout, name, *attribute)? {
            Some(value) => return Ok(Some(value)),
            None => {}
        }
    }
    Ok(None)
}

/// The value of the first of some attributes that is `_name`, among 256 at most. At most 512 reads.
fn name_among<P: ProcessMemory>(
    alloc: Global,
    process: &mut P,
    layout: &Layout,
    attributes: &[Attribute],
) -> Result<Option<u64>, NamesError>
    requires sound { IsSound layout.now }
    ensures { Reads names_fault 512 (P.seen process.old) (P.seen process.new)
        (λ m. first_named layout.now m (codes "_name") (take 256 attributes.now)) result }
{
    let few = attributes.len().min(SLOT_LIMIT as usize);
    first_named(alloc, process, layout, "_name", &attributes[..few])
}

/// What was found, where so many slots were not looked at.
fn found_or_more(found: Option<u64>, left: u64) -> Result<Option<u64>, NamesError>
    ensures { Answers names_fault (found_or_more found left) result }
{
    match found {
        Some(value) => Ok(Some(value)),
        None if left == 0 => Ok(None),
        None => Err(NamesError::Entries),
    }
}

/// The object under `_name` in the dict of an object, by the rule of its version. At most 1033 reads.
#[tactic(auto, unfolding(crate::specs::Own::named_by_rule))]
fn named_by_rule<P: ProcessMemory>(
    alloc: Global,
    process: &mut P,
    layout: &Layout,
    rule: &DictRule,
    thread: u64,
) -> Result<Option<u64>, NamesError>
    requires sound { IsSound layout.now }
    ensures { Reads names_fault 1033 (P.seen process.old) (P.seen process.new)
        (λ m. named_by_rule layout.now rule.now m thread) result }
{
    let dict = instance_dict(alloc, process, layout, &rule.fields, rule.form, thread)?;
    let told = dict_attributes(alloc, process, layout, rule.form, dict, SLOT_LIMIT)?;
    let found = name_among(alloc, process, layout, &told.list)?;
    found_or_more(found, told.left)
}

/// The object under `_name` in the dict of a thread. At most 1033 reads.
#[tactic(auto, unfolding(crate::specs::Own::name_object))]
fn name_object<P: ProcessMemory>(
    alloc: Global,
    process: &mut P,
    layout: &Layout,
    rule: &Option<DictRule>,
    thread: u64,
) -> Result<Option<u64>, NamesError>
    requires sound { IsSound layout.now }
    ensures { Reads names_fault 1033 (P.seen process.old) (P.seen process.new)
        (λ m. name_object layout.now rule.now m thread) result }
{
    match rule {
        Some(rule) => named_by_rule(alloc, process, layout, rule, thread),
        None => named_by_type(alloc, process, layout, thread),
    }
}

/// The text at an address, where there is one. At most 2 reads.
#[tactic(auto, unfolding(crate::specs::Own::text_if))]
fn text_if<P: ProcessMemory>(
    alloc: Global,
    process: &mut P,
    layout: &Layout,
    found: Option<u64>,
) -> Result<Option<Text>, NamesError>
    requires sound { IsSound layout.now }
    ensures { Reads names_fault 2 (P.seen process.old) (P.seen process.new)
        (λ m. text_if layout.now m found) result }
{
    match found {
        None => Ok(None),
        Some(addr) => {
            let name = copy_string(alloc, process, layout, addr)?;
            Ok(Some(name))
        }
    }
}

/// The name of the thread at an address, where it has one: the text under `_name` in its own dict. At most 1035 reads.
#[tactic(auto, unfolding(crate::specs::Own::name_at))]
pub(crate) fn read_name<P: ProcessMemory>(
    alloc: Global,
    process: &mut P,
    layout: &Layout,
    rule: &Option<DictRule>,
    thread: u64,
) -> Result<Option<Text>, NamesError>
    requires sound { IsSound layout.now }
    ensures { Reads names_fault 1035 (P.seen process.old) (P.seen process.new)
        (λ m. name_at layout.now rule.now m thread) result }
{
    let found = name_object(alloc, process, layout, rule, thread)?;
    text_if(alloc, process, layout, found)
}
