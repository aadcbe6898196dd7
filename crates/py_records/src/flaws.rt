//! The first flaw of a table of records in a file.
ghost use Rattle.std.specs.Prelude.{◌≡◌, map, option_map, option_copied};
ghost use Rattle.std.specs.List.{find, list_any};
ghost use Rattle.std.specs.BTreeMap.{keys as names_in};
ghost use Rattle.toml.specs.View.{view, table_view};
ghost use Rattle.py_layout.specs.Flaws.{same_group, first_some, path};
ghost use Rattle.py_records.specs.Keys.{key_of};
ghost use Rattle.py_records.specs.FlawPath.{flaw_path, is_unknown_name};
ghost use Rattle.py_records.specs.Flaws.{is_always, has_home, is_flawed, is_key, unknown_in, unknown_at, table_flaw};

use crate::keys::{Key, Kind, Presence};
use crate::values::{fits, group_at, value_at};
use toml::Table;

/// A key that is missing, has the wrong kind or is unknown.
#[derive(Clone, Copy)]
pub struct Flaw<'a> {
    /// The group that it stands in, or `None` for the table itself.
    pub group: Option<&'a str>,
    pub name: &'a str,
}

fn is_always(presence: Presence) -> bool
    ensures { result ≡ is_always presence }
{
    match presence {
        Presence::Always => true,
        Presence::Free => false,
    }
}

/// Whether the group is there, or it is the table itself.
fn has_home(table: &Table, group: Option<&str>) -> bool
    ensures { result ≡ has_home (table_view table.now) (option_copied group.entry) }
{
    match group {
        None => true,
        Some(group) => group_at(table, group).is_some(),
    }
}

/// Whether a key is missing where it must be, or has the wrong kind.
fn is_flawed(table: &Table, key: &Key) -> bool
    ensures { result ≡ is_flawed (table_view table.now) (key_of key.now) }
{
    match value_at(table, key.group, key.name) {
        None => is_always(key.presence) && has_home(table, key.group),
        Some(value) => !fits(key.kind, value),
    }
}

/// The first key that is missing, or has the wrong kind.
fn first_flawed<'a>(table: &Table, keys: &'a [Key]) -> Option<&'a Key>
    ensures { option_copied result ≡ find (λ key. is_flawed (table_view table.now) (key_of key)) keys.now }
{
    keys.iter().find(|key| is_flawed(table, key))
}

fn same_group(one: Option<&str>, other: Option<&str>) -> bool
    ensures { result ≡ same_group (option_copied one.entry) (option_copied other.entry) }
{
    match (one, other) {
        (None, None) => true,
        (Some(one), Some(other)) => one == other,
        _ => false,
    }
}

/// Whether the key has this group and name.
fn is_key(group: Option<&str>, name: &str, key: &Key) -> bool
    ensures { result ≡ is_key (option_copied group.entry) name.now (key_of key.now) }
{
    same_group(key.group, group) && key.name == name
}

/// Whether a key has this group and name.
fn is_known(keys: &[Key], group: Option<&str>, name: &str) -> bool
    ensures { result ≡ list_any (λ key. is_key (option_copied group.entry) name.now (key_of key)) keys.now }
{
    keys.iter().any(|key| is_key(group, name, key))
}

fn is_unknown(keys: &[Key], group: Option<&str>, name: &String) -> bool
    ensures { result ≡ is_unknown_name keys.now (option_copied group.entry) name.now }
{
    !is_known(keys, group, name.as_str())
}

/// The first name of a table, which stands for this group, that is no key.
fn unknown_name<'a>(keys: &[Key], group: Option<&str>, table: &'a Table) -> Option<&'a String>
    ensures { option_copied result
        ≡ find (is_unknown_name keys.now (option_copied group.entry)) (names_in table.now) }
{
    table.keys().find(|name| is_unknown(keys, group, name))
}

/// The first name of a table, which stands for this group, that is no key.
fn unknown_in<'a>(keys: &[Key], group: Option<&'a str>, table: &'a Table) -> Option<Flaw<'a>>
    ensures { option_map flaw_path result
        ≡ option_map (path (option_copied group.entry))
        (unknown_in (map key_of keys.now) (option_copied group.entry) (table_view table.now)) }
{
    match unknown_name(keys, group, table) {
        Some(name) => Some(Flaw {
            group,
            name: name.as_str(),
        }),
        None => None,
    }
}

/// The first name of a group that is no key, by the order of the groups.
fn unknown_in_groups<'a>(keys: &'a [Key], table: &'a Table) -> Option<Flaw<'a>>
    ensures { option_map flaw_path result
        ≡ first_some (unknown_at (map key_of keys.now) (table_view table.now)) (map key_of keys.now) }
{
    for key in keys {
        if let Some(flaw) = unknown_at(keys, table, key) {
            return Some(flaw);
        }
    }
    None
}

/// Where the key is that of a group, the first name there that is no key.
fn unknown_at<'a>(keys: &[Key], table: &'a Table, key: &'a Key) -> Option<Flaw<'a>>
    ensures { option_map flaw_path result
        ≡ unknown_at (map key_of keys.now) (table_view table.now) (key_of key.now) }
{
    match key.kind {
        Kind::Group => match group_at(table, key.name) {
            Some(group) => unknown_in(keys, Some(key.name), group),
            None => None,
        },
        _ => None,
    }
}

/// The first flaw of a table, by these keys.
pub fn table_flaw<'a>(keys: &'a [Key], table: &'a Table) -> Option<Flaw<'a>>
    ensures { option_map flaw_path result ≡ table_flaw (map key_of keys.now) (table_view table.now) }
{
    if let Some(key) = first_flawed(table, keys) {
        return Some(Flaw {
            group: key.group,
            name: key.name,
        });
    }
    match unknown_in(keys, None, table) {
        Some(flaw) => Some(flaw),
        None => unknown_in_groups(keys, table),
    }
}
