//! Exceptions, as a JSON value.
ghost use Rattle.std.specs.Prelude.{◌≡◌, ◌++◌, IfOk, OnOk, map, slice_get, string_bytes};
ghost use Rattle.serde_json.specs.View.{members_view, view};
ghost use Rattle.thread_exceptions.specs.Groups.{members_of};
ghost use Rattle.exception_texts.specs.Trees.{own_frames_tree, told_object, met_object, address_text, address_tree};
ghost use Rattle.exception_texts.specs.Trees.{addresses_tree, all_reprs_tree, all_strs_tree, arguments_tree};
ghost use Rattle.exception_texts.specs.Trees.{class_tree, end_at, end_tree, entries_list, entry_tree, exception_tree};
ghost use Rattle.exception_texts.specs.Trees.{first_members, frame_tree, frames_tree, group_tree, link_tree};
ghost use Rattle.exception_texts.specs.Trees.{listed_tree, lost_tree, members_tree, message_tree, next_members};
ghost use Rattle.exception_texts.specs.Trees.{no_values_tree, notes_tree, numbered_tree, object_tree, objects_tree};
ghost use Rattle.exception_texts.specs.Trees.{own_class_tree, repr_tree, reprs_tree, rule_tree, str_tree, strs_tree};
ghost use Rattle.exception_texts.specs.Trees.{text_tree, told_tree, unreadable_tree, word_tree};

use crate::class::{push_known_class, push_named};
use crate::frames::shown_line;
use crate::known::knows;
use crate::said::push_message;
use crate::values::{push_repr, push_str_of};
use elf64_core::Text;
use py_exceptions::{
    CalledFrame, ClassName, Entry, Notes, Rule, Said, ToldException, ToldThread, Traceback,
    Value as Field, Values,
};
use serde_json::{Map, Value, json, put};
use std::alloc::{AllocError, Global};
use thread_exceptions::{LinkEnd, Lost, Members, Met, Parts, What};

// ---- addresses, texts and ends

/// An address: `0x` and lower-case hexadecimal digits.
pub(crate) fn address_text(alloc: Global, address: u64) -> Result<String, AllocError>
    ensures { IfOk result (λ text. string_bytes text ≡ address_text address) }
{
    format!(in alloc; "0x{address:x}")
}

/// The same as a value.
pub(crate) fn address_value(alloc: Global, address: u64) -> Result<Value, AllocError>
    ensures { IfOk result (λ value. view value ≡ address_tree address) }
{
    let text = address_text(alloc, address)?;
    Ok(Value::String(text))
}

/// An address, or null where it is 0.
pub(crate) fn link_value(alloc: Global, address: u64) -> Result<Value, AllocError>
    ensures { IfOk result (λ value. view value ≡ link_tree address) }
{
    if address == 0 {
        return Ok(Value::Null);
    }
    address_value(alloc, address)
}

/// A text, or null.
fn text_value(alloc: Global, text: &Option<Text>) -> Result<Value, AllocError>
    ensures { IfOk result (λ value. view value ≡ text_tree text.now) }
{
    match text {
        Some(text) => Value::try_from_str(alloc, text.as_str()),
        None => Ok(Value::Null),
    }
}

/// A word.
fn word_value(alloc: Global, word: &str) -> Result<Value, AllocError>
    ensures { IfOk result (λ value. view value ≡ word_tree word.now) }
{
    Value::try_from_str(alloc, word)
}

/// A range that is not in memory.
pub(crate) fn lost_value(alloc: Global, lost: Lost) -> Result<Value, AllocError>
    ensures { IfOk result (λ value. view value ≡ lost_tree lost) }
{
    let (addr, len) = (lost.addr, lost.len);
    let address = address_text(alloc, addr)?;
    json!(in alloc; {
        "address": address.as_str(),
        "kind": "unreadable",
        "length": len
    })
}

/// An end at an address.
pub(crate) fn end_at(alloc: Global, kind: &str, address: u64) -> Result<Value, AllocError>
    ensures { IfOk result (λ value. view value ≡ end_at kind.now address) }
{
    let address = address_text(alloc, address)?;
    json!(in alloc; {
        "address": address.as_str(),
        "kind": kind
    })
}

/// How a chain breaks off, or null where it is whole.
pub(crate) fn end_value(alloc: Global, end: LinkEnd) -> Result<Value, AllocError>
    ensures { IfOk result (λ value. view value ≡ end_tree end) }
{
    match end {
        LinkEnd::Null => Ok(Value::Null),
        LinkEnd::Unreadable(lost) => lost_value(alloc, lost),
        LinkEnd::Cycle { addr } => end_at(alloc, "cycle", addr),
        LinkEnd::Cut { addr } => end_at(alloc, "cut", addr),
    }
}

/// The name of a class that is known.
fn own_class_value(alloc: Global, class: &ClassName) -> Result<Value, AllocError>
    ensures { IfOk result (λ value. view value ≡ own_class_tree class.now) }
{
    let mut text = String::new(alloc);
    push_known_class(alloc, &mut text, class)?;
    Ok(Value::String(text))
}

/// The name of a class.
pub(crate) fn class_value(alloc: Global, class: &Option<ClassName>) -> Result<Value, AllocError>
    ensures { IfOk result (λ value. view value ≡ class_tree class.now) }
{
    let mut text = String::new(alloc);
    push_named(alloc, &mut text, class)?;
    Ok(Value::String(text))
}

// ---- values

/// A value as code has it.
pub(crate) fn repr_value(alloc: Global, value: &Option<Field>) -> Result<Value, AllocError>
    ensures { IfOk result (λ own. view own ≡ repr_tree value.now) }
{
    let mut text = String::new(alloc);
    push_repr(alloc, &mut text, true, value)?;
    Ok(Value::String(text))
}

/// A value as it is printed.
fn str_value(alloc: Global, value: &Option<Field>) -> Result<Value, AllocError>
    ensures { IfOk result (λ own. view own ≡ str_tree value.now) }
{
    let mut text = String::new(alloc);
    push_str_of(alloc, &mut text, true, value)?;
    Ok(Value::String(text))
}

/// Values as code has them.
fn reprs_value(alloc: Global, values: &[Option<Field>]) -> Result<Value, AllocError>
    ensures { IfOk result (λ own. view own ≡ reprs_tree values.now) }
{
    let mut own = Vec::new(alloc);
    for value in values {
        own.push(repr_value(alloc, value)?)?;
    }
    Ok(Value::Array(own))
}

/// Values as they are printed.
fn strs_value(alloc: Global, values: &[Option<Field>]) -> Result<Value, AllocError>
    ensures { IfOk result (λ own. view own ≡ strs_tree values.now) }
{
    let mut own = Vec::new(alloc);
    for value in values {
        own.push(str_value(alloc, value)?)?;
    }
    Ok(Value::Array(own))
}

/// A list, and how many more there are.
fn listed_value(alloc: Global, left_out: u64, values: Value) -> Result<Value, AllocError>
    ensures { IfOk result (λ own. view own ≡ listed_tree left_out (view values)) }
{
    json!(in alloc; {
        "left_out": left_out,
        "values": values
    })
}

/// Values as code has them, and how many more there are.
fn all_reprs_value(alloc: Global, values: &Values) -> Result<Value, AllocError>
    ensures { IfOk result (λ own. view own ≡ all_reprs_tree values.now) }
{
    let own = reprs_value(alloc, &values.values)?;
    listed_value(alloc, values.left_out, own)
}

/// The arguments, or null where they can't be read.
fn arguments_value(alloc: Global, arguments: &Option<Values>) -> Result<Value, AllocError>
    ensures { IfOk result (λ own. view own ≡ arguments_tree arguments.now) }
{
    match arguments {
        Some(values) => all_reprs_value(alloc, values),
        None => Ok(Value::Null),
    }
}

/// Values as they are printed, and how many more there are.
fn all_strs_value(alloc: Global, values: &Values) -> Result<Value, AllocError>
    ensures { IfOk result (λ own. view own ≡ all_strs_tree values.now) }
{
    let own = strs_value(alloc, &values.values)?;
    listed_value(alloc, values.left_out, own)
}

/// No values.
fn no_values(alloc: Global) -> Result<Value, AllocError>
    ensures { IfOk result (λ own. view own ≡ no_values_tree) }
{
    listed_value(alloc, 0, Value::Array(Vec::new(alloc)))
}

/// The notes, or null where they can't be read.
fn notes_value(alloc: Global, notes: &Notes) -> Result<Value, AllocError>
    ensures { IfOk result (λ own. view own ≡ notes_tree notes.now) }
{
    match notes {
        Notes::Without => no_values(alloc),
        Notes::Listed(values) => all_strs_value(alloc, values),
        Notes::Unreadable => Ok(Value::Null),
    }
}

/// What an exception says, where that is told exactly; else null.
fn message_value(alloc: Global, said: &Said, members: &Members) -> Result<Value, AllocError>
    ensures { IfOk result (λ own. view own ≡ message_tree said.now (members_of members.now)) }
{
    if knows(said, members) {
        let mut text = String::new(alloc);
        push_message(alloc, &mut text, true, said, members)?;
        return Ok(Value::String(text));
    }
    Ok(Value::Null)
}

/// Whose rule says the text of an exception.
fn rule_value(alloc: Global, rule: &Rule) -> Result<Value, AllocError>
    ensures { IfOk result (λ own. view own ≡ rule_tree rule.now) }
{
    match rule {
        Rule::Plain => word_value(alloc, "BaseException"),
        Rule::Key => word_value(alloc, "KeyError"),
        Rule::System { .. } => word_value(alloc, "OSError"),
        Rule::Import { .. } => word_value(alloc, "ImportError"),
        Rule::Syntax { .. } => word_value(alloc, "SyntaxError"),
        Rule::Group { .. } => word_value(alloc, "BaseExceptionGroup"),
        Rule::Encode { .. } => word_value(alloc, "UnicodeEncodeError"),
        Rule::Decode { .. } => word_value(alloc, "UnicodeDecodeError"),
        Rule::Translate { .. } => word_value(alloc, "UnicodeTranslateError"),
        Rule::Own { class } => own_class_value(alloc, class),
        Rule::Unreadable => Ok(Value::Null),
    }
}

// ---- frames and members

/// A frame.
fn frame_value(alloc: Global, frame: &CalledFrame) -> Result<Value, AllocError>
    ensures { IfOk result (λ own. view own ≡ frame_tree frame.now) }
{
    let filename = text_value(alloc, &frame.filename)?;
    let name = text_value(alloc, &frame.function)?;
    json!(in alloc; {
        "filename": filename,
        "line": shown_line(frame.line),
        "name": name
    })
}

/// A frame, or null where it can't be read.
fn own_frame_value(alloc: Global, entry: &Entry) -> Result<Value, AllocError>
    ensures { IfOk result (λ own. view own ≡ entry_tree entry.now) }
{
    match &entry.frame {
        Some(frame) => frame_value(alloc, frame),
        None => Ok(Value::Null),
    }
}

/// The frames of some entries, behind others.
fn push_frames(alloc: Global, own: &mut Vec<Value>, entries: &[Entry]) -> Result<(), AllocError>
    ensures { OnOk result (map view own.new.items ≡ map view own.old.items ++ entries_list entries.now) }
{
    for entry in entries {
        own.push(own_frame_value(alloc, entry)?)?;
    }
    Ok(())
}

/// The frames of a traceback, the oldest call first.
fn frames_value(alloc: Global, trace: &Traceback) -> Result<Value, AllocError>
    ensures { IfOk result (λ own. view own ≡ frames_tree trace.now) }
{
    let mut own = Vec::new(alloc);
    push_frames(alloc, &mut own, &trace.first)?;
    push_frames(alloc, &mut own, &trace.last)?;
    Ok(Value::Array(own))
}

/// The frames of a traceback, or null where it can't be read.
pub(crate) fn own_frames_value(
    alloc: Global,
    trace: &Option<Traceback>,
) -> Result<Value, AllocError>
    ensures { IfOk result (λ own. view own ≡ own_frames_tree trace.now) }
{
    match trace {
        Some(trace) => frames_value(alloc, trace),
        None => Ok(Value::Null),
    }
}

/// Addresses.
fn addresses_value(alloc: Global, addresses: &[u64]) -> Result<Value, AllocError>
    ensures { IfOk result (λ own. view own ≡ addresses_tree addresses.now) }
{
    let mut own = Vec::new(alloc);
    for address in addresses {
        own.push(address_value(alloc, *address)?)?;
    }
    Ok(Value::Array(own))
}

/// The members of a group; null of no group, and of one whose members can't be read.
fn members_value(alloc: Global, members: &Members) -> Result<Value, AllocError>
    ensures { IfOk result (λ own. view own ≡ members_tree (members_of members.now)) }
{
    match members {
        Members::Group(group) => group_value(alloc, &group.members, group.left_out),
        Members::NoGroup => Ok(Value::Null),
        Members::Unreadable(_) => Ok(Value::Null),
    }
}

/// The addresses of a group's members, and how many more there are.
fn group_value(alloc: Global, members: &[u64], left_out: u64) -> Result<Value, AllocError>
    ensures { IfOk result (λ own. view own ≡ group_tree members.now left_out) }
{
    let own = addresses_value(alloc, members)?;
    listed_value(alloc, left_out, own)
}

// ---- exceptions

/// The members of an exception whose keys stand first in the order of their bytes.
fn first_members(
    alloc: Global,
    addr: u64,
    parts: &Parts,
    told: &ToldException,
) -> Result<Map<String, Value>, AllocError>
    ensures { IfOk result (λ map. members_view map.entries ≡ first_members addr parts.now told.now) }
{
    let address = address_value(alloc, addr)?;
    let args = arguments_value(alloc, &told.said.arguments)?;
    let cause = link_value(alloc, parts.cause)?;
    let context = link_value(alloc, parts.context)?;
    let end = end_value(alloc, told.traceback.end)?;
    let mut map = Map::new(alloc);
    put(&mut map, alloc, "address", address)?;
    put(&mut map, alloc, "args", args)?;
    put(&mut map, alloc, "cause", cause)?;
    put(&mut map, alloc, "context", context)?;
    put(&mut map, alloc, "end", end)?;
    Ok(map)
}

/// These and the next ones.
fn next_members(
    alloc: Global,
    addr: u64,
    parts: &Parts,
    told: &ToldException,
    members: &Members,
) -> Result<Map<String, Value>, AllocError>
    ensures { IfOk result (λ map. members_view map.entries
        ≡ next_members addr parts.now told.now (members_of members.now)) }
{
    let mut map = first_members(alloc, addr, parts, told)?;
    let frames = frames_value(alloc, &told.traceback)?;
    let kind = word_value(alloc, "exception")?;
    let own = members_value(alloc, members)?;
    let message = message_value(alloc, &told.said, members)?;
    put(&mut map, alloc, "frames", frames)?;
    put(
        &mut map,
        alloc,
        "frames_left_out",
        Value::from(told.traceback.left_out),
    )?;
    put(&mut map, alloc, "kind", kind)?;
    put(&mut map, alloc, "members", own)?;
    put(&mut map, alloc, "message", message)?;
    Ok(map)
}

/// An exception.
fn exception_value(
    alloc: Global,
    addr: u64,
    parts: &Parts,
    told: &ToldException,
    members: &Members,
) -> Result<Value, AllocError>
    ensures { IfOk result (λ own. view own ≡ exception_tree addr parts.now told.now (members_of members.now)) }
{
    let mut map = next_members(alloc, addr, parts, told, members)?;
    let message_by = rule_value(alloc, &told.said.rule)?;
    let notes = notes_value(alloc, &told.notes)?;
    let class = class_value(alloc, &told.class)?;
    put(&mut map, alloc, "message_by", message_by)?;
    put(&mut map, alloc, "notes", notes)?;
    put(
        &mut map,
        alloc,
        "suppress_context",
        Value::Bool(parts.suppress_context),
    )?;
    put(&mut map, alloc, "type", class)?;
    Ok(Value::Object(map))
}

/// An exception, where it is told.
fn told_value(
    alloc: Global,
    addr: u64,
    parts: &Parts,
    told: &Option<ToldException>,
    members: &Members,
) -> Result<Value, AllocError>
    ensures { IfOk result (λ own. view own ≡ told_tree addr parts.now told.now (members_of members.now)) }
{
    match told {
        Some(told) => exception_value(alloc, addr, parts, told, members),
        None => end_at(alloc, "not told", addr),
    }
}

/// An object that can't be read, with where it stands.
fn unreadable_value(alloc: Global, addr: u64, lost: Lost) -> Result<Value, AllocError>
    ensures { IfOk result (λ own. view own ≡ unreadable_tree addr lost) }
{
    let address = address_text(alloc, addr)?;
    let fault = lost_value(alloc, lost)?;
    json!(in alloc; {
        "address": address.as_str(),
        "fault": fault,
        "kind": "unreadable"
    })
}

/// An object.
fn object_value(alloc: Global, met: &Met, told: &Option<ToldException>) -> Result<Value, AllocError>
    ensures { IfOk result (λ own. view own ≡ object_tree met.now told.now) }
{
    match &met.what {
        What::Exception { parts, members } => told_value(alloc, met.addr, parts, told, members),
        What::Other => end_at(alloc, "other", met.addr),
        What::Unreadable(lost) => unreadable_value(alloc, met.addr, *lost),
    }
}

/// What is told of an object, by its number.
fn told_at(
    alloc: Global,
    met: &Met,
    told: &[Option<ToldException>],
    number: usize,
) -> Result<Value, AllocError>
    ensures { IfOk result (λ own. view own ≡ told_object met.now (slice_get told.now number)) }
{
    match told.get(number) {
        Some(own) => object_value(alloc, met, own),
        None => end_at(alloc, "not told", met.addr),
    }
}

/// The object of a number.
fn met_at(
    alloc: Global,
    met: &[Met],
    told: &[Option<ToldException>],
    number: usize,
) -> Result<Value, AllocError>
    ensures { IfOk result (λ own. view own ≡ met_object (slice_get met.now number) (slice_get told.now number)) }
{
    match met.get(number) {
        Some(one) => told_at(alloc, one, told, number),
        None => word_value(alloc, "?"),
    }
}

/// The object of a number, of a thread.
fn numbered_value(alloc: Global, told: &ToldThread, number: usize) -> Result<Value, AllocError>
    ensures { IfOk result (λ own. view own ≡ numbered_tree told.now number) }
{
    met_at(alloc, &told.thread.met, &told.told, number)
}

/// The objects that were met, in order.
pub(crate) fn objects_value(alloc: Global, told: &ToldThread) -> Result<Value, AllocError>
    ensures { IfOk result (λ own. view own ≡ objects_tree told.now) }
{
    let mut own = Vec::new(alloc);
    for number in 0..told.thread.met.len() {
        own.push(numbered_value(alloc, told, number)?)?;
    }
    Ok(Value::Array(own))
}
