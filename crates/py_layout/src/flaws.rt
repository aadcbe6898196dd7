//! The first flaw of a layout's table in a file.
ghost use Rattle.std.specs.Prelude.{◌≡◌, map, option_map, option_copied};
ghost use Rattle.std.specs.List.{find, list_any};
ghost use Rattle.std.specs.BTreeMap.{keys as names_in};
ghost use Rattle.toml.specs.View.{view, table_view};
ghost use Rattle.py_layout.specs.Keys.{key_of};
ghost use Rattle.py_layout.specs.Words.{families_of};
ghost use Rattle.py_layout.specs.FlawPath.{flaw_path, is_unknown_name};
ghost use Rattle.py_layout.specs.Flaws.{may_be, must_be, is_flawed, same_group, is_key, unknown_in, first_some};
ghost use Rattle.py_layout.specs.Flaws.{unknown_at, flaw_by, table_flaw, path};

use crate::families::{Families, families_of};
use crate::keys::{Key, Kind, Presence};
use crate::values::{fits, group_at, value_at};
use py_fields::{Dicts, Frames, Head, Lasti, Lock, Managed, Strings};
use toml::Table;

/// A key that is missing, has the wrong kind or is unknown.
#[derive(Clone, Copy)]
pub struct Flaw<'a> {
    /// The group that it stands in, or `None` for the layout's own table.
    pub group: Option<&'a str>,
    pub name: &'a str,
}

/// Whether a key may be there.
fn may_be(families: Families, presence: Presence) -> bool
    ensures { result ≡ may_be families presence }
{
    match presence {
        Presence::Always | Presence::Free => true,
        Presence::WithOffsets => families.head == Head::Offsets,
        Presence::WithGil => families.lock == Lock::Gil,
        Presence::WithCframe => families.frames == Frames::Cframe,
        Presence::WithPointer => families.lasti == Lasti::Pointer,
        Presence::WithState => families.strings == Strings::State,
        Presence::WithDicts => families.dicts != Dicts::Absent,
        Presence::WithGeneral => families.dicts == Dicts::General,
        Presence::WithCompact => families.dicts == Dicts::Compact,
        Presence::WithManaged => families.managed != Managed::Absent,
    }
}

/// Whether a key must be there.
fn must_be(families: Families, presence: Presence) -> bool
    ensures { result ≡ must_be families presence }
{
    match presence {
        Presence::Free => false,
        presence => may_be(families, presence),
    }
}

/// Whether a key is missing, or has the wrong kind.
fn is_flawed(families: Families, table: &Table, key: &Key) -> bool
    ensures { result ≡ is_flawed families (table_view table.now) (key_of key.now) }
{
    match value_at(table, key.group, key.name) {
        None => must_be(families, key.presence),
        Some(value) => may_be(families, key.presence) && !fits(key.kind, value),
    }
}

/// The first key that is missing, or has the wrong kind.
fn first_flawed<'a>(families: Families, table: &Table, keys: &'a [Key]) -> Option<&'a Key>
    ensures { option_copied result
        ≡ find (λ key. is_flawed families (table_view table.now) (key_of key)) keys.now }
{
    keys.iter().find(|key| is_flawed(families, table, key))
}

fn same_group(one: Option<&str>, other: Option<&str>) -> bool
    ensures { result ≡ same_group (option_copied one.entry) (option_copied other.entry) }
{
    match (one, other) {
        (None, None) => true,
        (Some(one), Some(other)) => one == other,
        _ => false,
    }
}

/// Whether the key has this group and name, and may be there.
fn is_key(families: Families, group: Option<&str>, name: &str, key: &Key) -> bool
    ensures { result ≡ is_key families (option_copied group.entry) name.now (key_of key.now) }
{
    same_group(key.group, group) && key.name == name && may_be(families, key.presence)
}

/// Whether a key of this group and name may be there.
fn is_known(families: Families, keys: &[Key], group: Option<&str>, name: &str) -> bool
    ensures { result
        ≡ list_any (λ key. is_key families (option_copied group.entry) name.now (key_of key)) keys.now }
{
    keys.iter().any(|key| is_key(families, group, name, key))
}

fn is_unknown(families: Families, keys: &[Key], group: Option<&str>, name: &String) -> bool
    ensures { result ≡ is_unknown_name families keys.now (option_copied group.entry) name.now }
{
    !is_known(families, keys, group, name.as_str())
}

/// The first name of a table, which stands for this group, that is no key.
fn unknown_name<'a>(
    families: Families,
    keys: &[Key],
    group: Option<&str>,
    table: &'a Table,
) -> Option<&'a String>
    ensures { option_copied result
        ≡ find (is_unknown_name families keys.now (option_copied group.entry)) (names_in table.now) }
{
    table
        .keys()
        .find(|name| is_unknown(families, keys, group, name))
}

/// The first name of a table, which stands for this group, that is no key.
fn unknown_in<'a>(
    families: Families,
    keys: &[Key],
    group: Option<&'a str>,
    table: &'a Table,
) -> Option<Flaw<'a>>
    ensures { option_map flaw_path result
        ≡ option_map (path (option_copied group.entry))
        (unknown_in families (map key_of keys.now) (option_copied group.entry) (table_view table.now)) }
{
    match unknown_name(families, keys, group, table) {
        Some(name) => Some(Flaw {
            group,
            name: name.as_str(),
        }),
        None => None,
    }
}

/// The first name of a group that is no key, by the order of the groups.
fn unknown_in_groups<'a>(families: Families, keys: &'a [Key], table: &'a Table) -> Option<Flaw<'a>>
    ensures { option_map flaw_path result
        ≡ first_some (unknown_at families (map key_of keys.now) (table_view table.now)) (map key_of keys.now) }
{
    for key in keys {
        if let Some(flaw) = unknown_at(families, keys, table, key) {
            return Some(flaw);
        }
    }
    None
}

/// Where the key is that of a group, the first name there that is no key.
fn unknown_at<'a>(
    families: Families,
    keys: &[Key],
    table: &'a Table,
    key: &'a Key,
) -> Option<Flaw<'a>>
    ensures { option_map flaw_path result
        ≡ unknown_at families (map key_of keys.now) (table_view table.now) (key_of key.now) }
{
    match key.kind {
        Kind::Group => match group_at(table, key.name) {
            Some(group) => unknown_in(families, keys, Some(key.name), group),
            None => None,
        },
        _ => None,
    }
}

/// The first flaw of a table of these families, by these keys.
fn flaw_by<'a>(families: Families, keys: &'a [Key], table: &'a Table) -> Option<Flaw<'a>>
    ensures { option_map flaw_path result
        ≡ flaw_by families (map key_of keys.now) (table_view table.now) }
{
    if let Some(key) = first_flawed(families, table, keys) {
        return Some(Flaw {
            group: key.group,
            name: key.name,
        });
    }
    match unknown_in(families, keys, None, table) {
        Some(flaw) => Some(flaw),
        None => unknown_in_groups(families, keys, table),
    }
}

/// The first flaw of a table, by these keys.
#[tactic(auto, unfolding(crate::specs::Flaws::table_flaw))]
pub fn table_flaw<'a>(keys: &'a [Key], table: &'a Table) -> Option<Flaw<'a>>
    ensures { option_map flaw_path result
        ≡ table_flaw (map key_of keys.now) (table_view table.now) }
{
    flaw_by(families_of(table), keys, table)
}
