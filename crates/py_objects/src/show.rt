//! Values and their parts, as text.
ghost use Rattle.std.specs.Prelude.{◌≡◌, ◌+◌, ◌-◌, ◌*◌, ◌<◌, ◌≤◌, ◌++◌, OnOk, IfOk, max, string_bytes, encode_utf8_all};
ghost use Rattle.std.specs.Prelude.{codes, length, None};
ghost use Rattle.std.specs.Str.{chars};
ghost use Rattle.py_fields.specs.Sound.{IsSound};
ghost use Rattle.py_builtins.specs.Consulted.{Consulting};
ghost use Rattle.py_builtins.specs.ObjectError.{object_fault};
ghost use Rattle.py_objects.specs.Nodes.{brackets_of, node_of, part_read, parts_place_of, slot_visits, texts_of};
ghost use Rattle.py_objects.specs.Nodes.{values_in};
ghost use Rattle.py_objects.specs.Shown.{TellsShown, visit};
ghost use Rattle.py_objects.specs.Shows.{AnswerShows, bytes_shown, child_shown, closing, looked_at, node_shown};
ghost use Rattle.py_objects.specs.Shows.{opening, part_at, part_of, parts_shown, separator, show_at, text_of, width_of};

use crate::nodes::{Child, Node, Parts, read_child, read_node};
use crate::texts;
use elf64_core::Text;
use process_memory::ProcessMemory;
use py_builtins::{ObjectError, Sequence, Slot};
use py_fields::Layout;
use std::alloc::{AllocError, Global};

/// How many visits a value has at most.
const VISITS: u32 = 4096;

/// How many levels a value has at most.
const LEVELS: u32 = 256;

/// The width that has no room for more than dots.
const NARROW: u64 = 5;

/// The text of the value at an address, at most about `max_length` wide, and how many visits it took.
///
/// At a width of 5 or less it is `...`, and nothing is read. Else the value is one visit: the 4097th is
/// `Visits`, and a value on a 257th level is `Depth`. The flags and the name of its type say what it is, in
/// this order:
///
/// - an integer in decimal, or by `+bigint` and `-bigint` where it has more than two digits; one of the type
///   `bool` is `True` above 0, else `False`;
/// - a text, and bytes where the layout says so, in double quotes, with a backslash and a double quote for each
///   `'`, a backslash and `n` for each newline, and `...` behind the first characters where there are more than
///   5 less than the width;
/// - a dict, a list or a tuple by its parts in brackets; a dict whose layout has none is `dict`. The parts have 2
///   less than the width, and each takes its bytes and 2 off for those behind it, an entry with its `: ` too.
///   Where 5 or less are left, the part is replaced by `...`, and no further one is looked at. Each slot of a
///   dict that is looked at is a visit;
/// - a `float` by its bits, `float 0x` and 16 hexadecimal digits; `None`; numpy's numbers by their bytes;
/// - any other by its type's name and its address, `<name at 0x..>`.
///
/// What is not in memory is `Unreadable`; a type's name that is no UTF-8 is `BadType`; a negative count is
/// `BadCount`, another byte than 0 and 1 of a truth value `BadBool`; texts and dicts have their own errors. The
/// first of them, in the order of the parts, is the answer.
///
/// `visits` goes on from what it was; after an error it counts the visits up to it, and after out of memory a
/// part of them. At most 8 reads a visit.
pub fn format_variable<P: ProcessMemory>(
    alloc: Global,
    process: &mut P,
    layout: &Layout,
    addr: u64,
    max_length: i64,
    visits: &mut u32,
) -> Result<Text, ObjectError>
    requires sound { IsSound layout.now }
    ensures rises { visits.old ≤ visits.new }
    ensures few { visits.new ≤ max visits.old 4096 }
    ensures characters { IfOk result (λ text. text ≡ chars (encode_utf8_all text)) }
    ensures shown { Consulting layout.now (8 * (visits.new - visits.old)) (P.seen process.old) (P.seen process.new)
        (λ m. AnswerShows object_fault (values_in layout.now m) addr (width_of max_length) visits.old
        (bytes_shown result) visits.new) }
{
    let width = width_of(max_length);
    let text = show_value(alloc, process, layout, addr, width, LEVELS, visits)?;
    let shared = Text::from_string(text)?;
    Ok(shared)
}

/// A width, which is not below 0.
fn width_of(max_length: i64) -> u64
    ensures { result ≡ width_of max_length }
{
    if max_length < 0 { 0 } else { max_length as u64 }
}

/// The value at an address, where so many levels are left.
#[cycle(show)]
fn show_value<P: ProcessMemory>(
    alloc: Global,
    process: &mut P,
    layout: &Layout,
    addr: u64,
    width: u64,
    levels: u32,
    visits: &mut u32,
) -> Result<String, ObjectError>
    requires sound { IsSound layout.now }
    ensures rises { visits.old ≤ visits.new }
    ensures begins { 5 < width → OnOk result (visits.old < visits.new) }
    ensures shown { Consulting layout.now (8 * (visits.new - visits.old) - 1) (P.seen process.old) (P.seen process.new)
        (λ m. TellsShown object_fault (show_at (values_in layout.now m) levels width addr visits.old) (text_of result)
        visits.new) }
{
    if width <= NARROW {
        return Ok(texts::dots(alloc)?);
    }
    count_visit(visits)?;
    if levels == 0 {
        return Err(ObjectError::Depth);
    }
    let node = read_node(alloc, process, layout, addr)?;
    show_node(alloc, process, layout, node, width, levels - 1, visits)
}

/// Counts a visit, if there may be one more.
#[tactic(auto, unfolding(crate::specs::Shown::visit))]
fn count_visit(visits: &mut u32) -> Result<(), ObjectError>
    ensures told { TellsShown object_fault (visit visits.old) result visits.new }
    ensures rises { visits.old ≤ visits.new }
    ensures begins { OnOk result (visits.new ≡ visits.old + 1) }
    ensures ends { visits.new ≤ visits.old + 1 }
{
    if *visits < VISITS {
        *visits += 1;
        return Ok(());
    }
    Err(ObjectError::Visits)
}

/// A value at a width, where so many levels are left for its parts.
#[cycle(show)]
fn show_node<P: ProcessMemory>(
    alloc: Global,
    process: &mut P,
    layout: &Layout,
    node: Node,
    width: u64,
    levels: u32,
    visits: &mut u32,
) -> Result<String, ObjectError>
    requires sound { IsSound layout.now }
    requires wide { 5 < width }
    ensures rises { visits.old ≤ visits.new }
    ensures shown { Consulting layout.now (8 * (visits.new - visits.old) + 1) (P.seen process.old) (P.seen process.new)
        (λ m. TellsShown object_fault
        (node_shown (values_in layout.now m) (λ w a. show_at (values_in layout.now m) levels w a)
        width (node_of node) visits.old) (text_of result) visits.new) }
{
    match node {
        Node::Whole(text) => Ok(text),
        Node::Quoted(text) => Ok(texts::quoted(alloc, text.as_str(), width - NARROW)?),
        Node::Many { count, parts } => show_parts(
            alloc,
            process,
            layout,
            count,
            &parts,
            width - 2,
            levels,
            visits,
        ),
    }
}

/// The parts of a value in their brackets.
#[cycle(show)]
fn show_parts<P: ProcessMemory>(
    alloc: Global,
    process: &mut P,
    layout: &Layout,
    count: u64,
    parts: &Parts,
    width: u64,
    levels: u32,
    visits: &mut u32,
) -> Result<String, ObjectError>
    requires sound { IsSound layout.now }
    ensures rises { visits.old ≤ visits.new }
    ensures shown { Consulting layout.now (8 * (visits.new - visits.old) + 1) (P.seen process.old) (P.seen process.new)
        (λ m. TellsShown object_fault
        (parts_shown (values_in layout.now m) (λ w a. show_at (values_in layout.now m) levels w a)
        (brackets_of parts.now) count (parts_place_of parts.now) width visits.old)
        (text_of result) visits.new) }
{
    let mut text = open(alloc, parts)?;
    let mut is_first = true;
    let mut rest = width;
    for number in 0..count {
        let part = show_part(alloc, process, layout, parts, number, rest, levels, visits)?;
        match part {
            None => {}
            Some(part) => {
                let left = left_of(rest, &part);
                if left <= NARROW {
                    add(&mut text, is_first, "...")?;
                    return Ok(close(text, parts)?);
                }
                add(&mut text, is_first, &part)?;
                is_first = false;
                rest = left;
            }
        }
    }
    Ok(close(text, parts)?)
}

/// What opens the parts.
fn open(alloc: Global, parts: &Parts) -> Result<String, AllocError>
    ensures { IfOk result (λ t. string_bytes t ≡ opening (brackets_of parts.now)) }
{
    let bracket = match parts {
        Parts::Items(Sequence::List, _) => "[",
        Parts::Items(Sequence::Tuple, _) => "(",
        Parts::Slots(_) => "{",
    };
    String::from_str(alloc, bracket)
}

/// A text with what closes the parts.
fn close(mut text: String, parts: &Parts) -> Result<String, AllocError>
    ensures { IfOk result (λ t. string_bytes t ≡ string_bytes text ++ closing (brackets_of parts.now)) }
{
    let bracket = match parts {
        Parts::Items(Sequence::List, _) => "]",
        Parts::Items(Sequence::Tuple, _) => ")",
        Parts::Slots(_) => "}",
    };
    text.push_str(bracket)?;
    Ok(text)
}

/// Adds a part to a text.
fn add(text: &mut String, is_first: bool, part: &str) -> Result<(), AllocError>
    ensures { OnOk result (string_bytes text.new ≡ string_bytes text.old ++ (separator is_first ++ part.now)) }
{
    if !is_first {
        text.push_str(", ")?;
    }
    text.push_str(part)
}

/// What is left of a width after a part.
fn left_of(width: u64, part: &str) -> u64
    ensures { result ≡ width - (length part.now + 2) }
{
    width.saturating_sub(2).saturating_sub(part.len() as u64)
}

/// The part of a number, unless it is an empty slot.
#[cycle(show)]
fn show_part<P: ProcessMemory>(
    alloc: Global,
    process: &mut P,
    layout: &Layout,
    parts: &Parts,
    number: u64,
    width: u64,
    levels: u32,
    visits: &mut u32,
) -> Result<Option<String>, ObjectError>
    requires sound { IsSound layout.now }
    ensures rises { visits.old ≤ visits.new }
    ensures begins { 5 < width → OnOk result (visits.old < visits.new) }
    ensures skips { IfOk result (λ o. o ≡ None → visits.old < visits.new) }
    ensures shown { Consulting layout.now (max 1 (8 * (visits.new - visits.old)))
        (P.seen process.old) (P.seen process.new) (λ m. TellsShown object_fault
        (part_at (values_in layout.now m) (λ w a. show_at (values_in layout.now m) levels w a)
        (brackets_of parts.now) (parts_place_of parts.now) number width visits.old)
        (part_of result) visits.new) }
{
    look(parts, visits)?;
    let child = read_child(process, parts, number)?;
    show_child(alloc, process, layout, child, width, levels, visits)
}

/// Counts a visit where the parts are slots, if there may be one more.
#[tactic(auto, unfolding(crate::specs::Shows::looked_at))]
fn look(parts: &Parts, visits: &mut u32) -> Result<(), ObjectError>
    ensures told { TellsShown object_fault (looked_at (brackets_of parts.now) visits.old) result visits.new }
    ensures rises { visits.old ≤ visits.new }
    ensures counts { OnOk result (visits.new ≡ visits.old + slot_visits parts.now) }
{
    match parts {
        Parts::Items(..) => Ok(()),
        Parts::Slots(_) => count_visit(visits),
    }
}

/// A part, unless it is an empty slot.
#[cycle(show)]
fn show_child<P: ProcessMemory>(
    alloc: Global,
    process: &mut P,
    layout: &Layout,
    child: Child,
    width: u64,
    levels: u32,
    visits: &mut u32,
) -> Result<Option<String>, ObjectError>
    requires sound { IsSound layout.now }
    ensures rises { visits.old ≤ visits.new }
    ensures begins { 5 < width → OnOk result (visits.old + texts_of (part_read child) ≤ visits.new) }
    ensures skips { IfOk result (λ o. o ≡ None → texts_of (part_read child) ≡ 0) }
    ensures shown { Consulting layout.now (8 * (visits.new - visits.old) - 1) (P.seen process.old) (P.seen process.new)
        (λ m. TellsShown object_fault
        (child_shown (λ w a. show_at (values_in layout.now m) levels w a) width (part_read child) visits.old)
        (part_of result) visits.new) }
{
    match child {
        Child::Item(value) => {
            let text = show_value(alloc, process, layout, value, width, levels, visits)?;
            Ok(Some(text))
        }
        Child::Slot(slot) => match slot {
            Slot::Empty => Ok(None),
            Slot::Entry(key, value) => {
                let key = show_value(alloc, process, layout, key, width, levels, visits)?;
                let value = show_value(alloc, process, layout, value, width, levels, visits)?;
                Ok(Some(entry(key, &value)?))
            }
        },
    }
}

/// An entry of a dict.
fn entry(mut key: String, value: &str) -> Result<String, AllocError>
    ensures { IfOk result (λ t. string_bytes t ≡ string_bytes key ++ codes ": " ++ value.now) }
{
    key.push_str(": ")?;
    key.push_str(value)?;
    Ok(key)
}
