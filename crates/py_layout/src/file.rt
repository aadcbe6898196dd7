//! Layout files: TOML with an array of tables, each of which says a layout.
ghost use Rattle.std.specs.Prelude.{◌≡◌, Result, Ok, Err, Some, None, IfOk, IfErr, MatchResult, map, option_map};
ghost use Rattle.std.specs.Prelude.{option_copied};
ghost use Rattle.std.specs.BTreeMap.{keys as names_in};
ghost use Rattle.std.specs.List.{find};
ghost use Rattle.std.specs.Str.{chars};
ghost use Rattle.toml.specs.Parse.{parse_document};
ghost use Rattle.toml.specs.View.{view, table_view, array_view, items_view};
ghost use Rattle.py_layout.specs.Keys.{key_of, the_keys};
ghost use Rattle.py_layout.specs.FlawPath.{flaw_path, numbered, is_other_name};
ghost use Rattle.py_layout.specs.File.{elements_of, element_flaw, first_flaw, other_key, file_flaw, layouts_in};
ghost use Rattle.py_layout.specs.File.{layouts_of, FileSays, IsShapeOf, IsFlawIn, IsOfText, IsDocumentError};

use crate::error::LayoutError;
use crate::flaws::{Flaw, table_flaw};
use crate::keys::{Key, keys};
use crate::reading::layout_from;
use crate::values::member;
use elf64_core::Text;
use py_fields::Layout;
use std::alloc::{AllocError, Global};
use toml::value::Array;
use toml::{Table, Value};

/// The array of tables.
fn elements_of(root: &Table) -> Option<&Array>
    ensures { option_map (λ list. array_view list.now) result ≡ elements_of (table_view root.now) }
{
    match member(root, "layout") {
        Some(value) => value.as_array(),
        None => None,
    }
}

fn is_other(name: &String) -> bool
    ensures { result ≡ is_other_name name.now }
{
    name.as_str() != "layout"
}

/// The first name beside `layout`.
fn other_name(root: &Table) -> Option<&String>
    ensures { option_copied result ≡ find is_other_name (names_in root.now) }
{
    root.keys().find(|name| is_other(name))
}

/// The first key beside `layout`.
fn other_key(root: &Table) -> Option<&str>
    ensures { option_copied result ≡ other_key (table_view root.now) }
{
    match other_name(root) {
        Some(name) => Some(name.as_str()),
        None => None,
    }
}

/// The first flaw of an element of the array.
fn element_flaw<'a>(keys: &'a [Key], value: &'a Value) -> Option<Flaw<'a>>
    ensures { option_map flaw_path result ≡ element_flaw (map key_of keys.now) (view value.now) }
{
    match value {
        Value::Table(table) => table_flaw(keys, table),
        _ => Some(Flaw {
            group: None,
            name: "layout",
        }),
    }
}

/// The first element with a flaw, and its first flaw.
fn first_flaw<'a>(keys: &'a [Key], list: &'a [Value]) -> Option<(usize, Flaw<'a>)>
    ensures { option_map numbered result ≡ first_flaw (map key_of keys.now) 0 (items_view list.now) }
{
    for (table, value) in list.iter().enumerate() {
        if let Some(flaw) = element_flaw(keys, value) {
            return Some((table, flaw));
        }
    }
    None
}

/// The first flaw of a file.
fn file_flaw<'a>(keys: &'a [Key], root: &'a Table) -> Option<(usize, Flaw<'a>)>
    ensures { option_map numbered result ≡ file_flaw (map key_of keys.now) (table_view root.now) }
{
    let Some(list) = elements_of(root) else {
        return Some((
            0,
            Flaw {
                group: None,
                name: "layout",
            },
        ));
    };
    match other_key(root) {
        Some(name) => Some((0, Flaw { group: None, name })),
        None => first_flaw(keys, list),
    }
}

/// How a flaw is named: with its group and a dot, where it stands in one.
fn flaw_text(alloc: Global, flaw: Flaw<'_>) -> Result<Text, AllocError>
    ensures { IfOk result (λ text. text ≡ chars (flaw_path flaw.entry)) }
{
    match flaw.group {
        None => Text::of(alloc, flaw.name),
        Some(group) => {
            let name = flaw.name;
            let path = Text::from_string(format!(in alloc; "{group}.{name}")?)?;
            Ok(path)
        }
    }
}

/// The error that names a flaw.
fn shape(alloc: Global, table: usize, flaw: Flaw<'_>) -> LayoutError
    ensures { IsShapeOf table (flaw_path flaw.entry) result }
{
    match flaw_text(alloc, flaw) {
        Ok(key) => LayoutError::Shape {
            table: table as u64,
            key,
        },
        Err(_) => LayoutError::OutOfMemory,
    }
}

/// The layouts of the tables.
fn layouts_in(alloc: Global, list: &[Value]) -> Result<Vec<Layout>, AllocError>
    ensures { IfOk result (λ layouts. layouts.items ≡ layouts_in (items_view list.now)) }
{
    let mut layouts = Vec::new(alloc);
    for value in list {
        if let Some(table) = value.as_table() {
            layouts.push(layout_from(table))?;
        }
    }
    Ok(layouts)
}

/// The layouts of a file.
fn layouts_of(alloc: Global, root: &Table) -> Result<Vec<Layout>, LayoutError>
    ensures ok { IfOk result (λ layouts. layouts.items ≡ layouts_of (table_view root.now)) }
    ensures errors { IfErr result (λ error. error ≡ LayoutError.OutOfMemory) }
{
    match elements_of(root) {
        Some(list) => match layouts_in(alloc, list) {
            Ok(layouts) => Ok(layouts),
            Err(_) => Err(LayoutError::OutOfMemory),
        },
        None => Ok(Vec::new(alloc)),
    }
}

/// The layouts of a file without flaw.
fn checked_layouts(alloc: Global, root: &Table) -> Result<Vec<Layout>, LayoutError>
    ensures whole { IfOk result (λ _. file_flaw the_keys (table_view root.now) ≡ None) }
    ensures ok { IfOk result (λ layouts. layouts.items ≡ layouts_of (table_view root.now)) }
    ensures errors { IfErr result (IsFlawIn (file_flaw the_keys (table_view root.now))) }
{
    match file_flaw(keys(), root) {
        Some((table, flaw)) => Err(shape(alloc, table, flaw)),
        None => layouts_of(alloc, root),
    }
}

/// The table of a text.
fn root_of(alloc: Global, text: &str) -> Result<Table, LayoutError>
    ensures ok { IfOk result (λ root. parse_document text.now ≡ Some (table_view root)) }
    ensures errors { IfErr result (IsDocumentError text.now) }
{
    match toml::table_from_str(alloc, text) {
        Ok(root) => Ok(root),
        Err(error) => {
            if error.is_memory() {
                Err(LayoutError::OutOfMemory)
            } else {
                Err(LayoutError::NotToml)
            }
        }
    }
}

/// The layouts that a file says, whether or not they are sound.
pub fn layouts_from_toml(alloc: Global, text: &[u8]) -> Result<Vec<Layout>, LayoutError>
    ensures ok { IfOk result (λ layouts. FileSays text.now layouts.items) }
    ensures errors { IfErr result (IsOfText text.now) }
{
    let Ok(text) = str::from_utf8(text) else {
        return Err(LayoutError::NotToml);
    };
    let root = root_of(alloc, text)?;
    checked_layouts(alloc, &root)
}
