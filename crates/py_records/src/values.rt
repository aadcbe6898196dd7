//! The values of a table of records in a file, by group and name.
ghost use Rattle.std.specs.Prelude.{◌≡◌, option_map, option_copied, None};
ghost use Rattle.toml.specs.Data.{get_member};
ghost use Rattle.toml.specs.View.{view, table_view};
ghost use Rattle.py_layout.specs.Values.{group_at, value_at, number_of, is_version, optional_at, number_at};
ghost use Rattle.py_records.specs.Keys.{fits};

use crate::keys::Kind;
use toml::{Table, Value};

/// The value at a name.
pub fn member<'a>(table: &'a Table, name: &str) -> Option<&'a Value>
    ensures { option_map (λ x. view x.now) result ≡ get_member name.now (table_view table.now) }
{
    table.get(name)
}

/// The table at a name.
pub fn group_at<'a>(table: &'a Table, name: &str) -> Option<&'a Table>
    ensures { option_map (λ t. table_view t.now) result ≡ group_at (table_view table.now) name.now }
{
    match member(table, name) {
        Some(value) => value.as_table(),
        None => None,
    }
}

/// The value at a name of a group or, for `None`, of the table itself.
pub fn value_at<'a>(table: &'a Table, group: Option<&str>, name: &str) -> Option<&'a Value>
    ensures { option_map (λ x. view x.now) result
        ≡ value_at (table_view table.now) (option_copied group.entry) name.now }
{
    match group {
        None => member(table, name),
        Some(group) => match group_at(table, group) {
            Some(table) => member(table, name),
            None => None,
        },
    }
}

/// A whole number of 0 to 2^32 - 1.
fn number_of(value: &Value) -> Option<u32>
    ensures { result ≡ number_of (view value.now) }
{
    match value {
        Value::Integer(n) => u32::try_from(*n).ok(),
        _ => None,
    }
}

fn is_version(number: Option<u32>) -> bool
    ensures { result ≡ is_version number }
{
    match number {
        Some(number) => number < 1000,
        None => false,
    }
}

/// Whether the value is what a key of this kind holds.
pub fn fits(kind: Kind, value: &Value) -> bool
    ensures { result ≡ fits kind (view value.now) }
{
    match kind {
        Kind::Version => is_version(number_of(value)),
        Kind::Number => number_of(value).is_some(),
        Kind::Group => value.is_table(),
    }
}

/// The number at a name, where there is one.
pub fn optional_in(table: &Table, name: &str) -> Option<u32>
    ensures { result ≡ optional_at (table_view table.now) None name.now }
{
    match member(table, name) {
        Some(value) => number_of(value),
        None => None,
    }
}

/// The number at a name, or 0.
pub fn number_in(table: &Table, name: &str) -> u32
    ensures { result ≡ number_at (table_view table.now) None name.now }
{
    optional_in(table, name).unwrap_or(0)
}
