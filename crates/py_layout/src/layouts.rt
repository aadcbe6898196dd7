//! Lists of layouts of which each is sound, and no two clash.
ghost use Rattle.std.specs.Prelude.{◌≡◌, ◌≢◌, ℕ, List, Result, Ok, Err, ◌↔◌, IsTrue, IsOk, IsNone, MatchOption, IfOk};
ghost use Rattle.std.specs.Prelude.{IfErr, IfSome, All, AllPairs, Contains, length};
ghost use Rattle.std.specs.List.{AllWithin};
ghost use Rattle.py_fields.specs.Sound.{Covers, IsSound};
ghost use Rattle.elf64_core.specs.Outcomes.{IsUnless};
ghost use Rattle.py_layout.specs.Lists.{AreSound, Clash, IsFirstUnsound, IsFirstFrom, IsFirstClash, IsOfList};
ghost use Rattle.py_layout.specs.File.{IsRightFor};
ghost use Rattle.py_layout.specs.declared.error.LayoutError.{LayoutError};
ghost use Rattle.py_fields.specs.declared.layout.Layout.{Layout};

use crate::error::LayoutError;
use crate::file::layouts_from_toml;
use py_fields::{Layout, Version, is_sound};
use std::alloc::Global;
use std::marker::Model;

/// A list of layouts of which each is sound, and no two cover one version.
///
/// Contracts see it as the list. `py_fields::is_sound` has the rules of a sound layout.
#[derive(Debug, Drop)]
pub struct Layouts {
    list: Vec<Layout>,
}

impl Model for Layouts {
    ghost use Rattle.std.specs.Prelude.{List};
    ghost use Rattle.py_fields.specs.declared.layout.Layout.{Layout};
    ghost use Rattle.py_layout.specs.Lists.{AreSound};

    ghost Value = { List Layout };

    ghost view = { λ l. l.list.items };

    ghost invariant = { λ l. AreSound l.list.items };
}

/// The place of the first layout that is not sound.
fn first_unsound(list: &[Layout]) -> Option<usize>
    ensures { MatchOption result (All IsSound list.now) (IsFirstUnsound list.now) }
{
    for (table, layout) in list.iter().enumerate() {
        if !is_sound(layout) {
            return Some(table);
        }
    }
    None
}

/// Whether two layouts cover one version.
fn clashes(one: &Layout, other: &Layout) -> bool
    ensures { IsTrue result ↔ Clash one.now other.now }
{
    one.major == other.major
        && one.first_minor <= other.last_minor
        && other.first_minor <= one.last_minor
}

/// The place of the first layout, from `start` on, that clashes with this one.
fn first_clash_with(layout: &Layout, list: &[Layout], start: usize) -> Option<usize>
    ensures { MatchOption result
        (AllWithin (λ other. ¬ Clash layout.now other) list.now start (length list.now))
        (IsFirstFrom (Clash layout.now) list.now start) }
{
    for place in start..list.len() {
        if clashes(layout, &list[place]) {
            return Some(place);
        }
    }
    None
}

/// The places of the first two layouts that clash.
fn first_clash(list: &[Layout]) -> Option<(usize, usize)>
    ensures { MatchOption result
        (AllPairs (λ one other. ¬ Clash one other) list.now)
        (λ pair. IsFirstClash list.now pair.0 pair.1) }
{
    for (first, layout) in list.iter().enumerate() {
        if let Some(second) = first_clash_with(layout, list, first + 1) {
            return Some((first, second));
        }
    }
    None
}

impl Layouts {
    /// The layouts of a list, where each is sound and no two clash. It takes no memory.
    ///
    /// `Unsound` comes exactly where a layout is not sound, and names the first. `Clash` comes exactly
    /// where all are sound and two clash, and names the first pair: by the first of the two, then by
    /// the second. No other error comes.
    pub fn of(_alloc: Global, list: Vec<Layout>) -> Result<Layouts, LayoutError>
        ensures value { IfOk result (λ layouts. layouts ≡ list.items) }
        ensures ok { IsOk result ↔ AreSound list.items }

        ensures unsound { (table : ℕ)
            → (result ≡ Err (LayoutError.Unsound table)) ↔ IsFirstUnsound list.items table }
        ensures clash { (first second : ℕ)
            → (result ≡ Err (LayoutError.Clash first second))
            ↔ (All IsSound list.items × IsFirstClash list.items first second) }
        ensures errors { IfErr result IsOfList }
    {
        if let Some(table) = first_unsound(&list) {
            let table = table as u64;
            return Err(LayoutError::Unsound { table });
        }
        if let Some((first, second)) = first_clash(&list) {
            let (first, second) = (first as u64, second as u64);
            return Err(LayoutError::Clash { first, second });
        }
        Ok(Layouts { list })
    }

    /// The layouts of a file: TOML with one top key, `layout`, an array of tables, which may be empty.
    ///
    /// The keys of a table are the fields of a `Layout`, and those of its groups; `docs/LAYOUTS.md`
    /// describes each. Causes are looked for in this order:
    ///
    /// - `NotToml`: the text is not UTF-8, or not TOML. TOML's integers are those of an i64.
    /// - `Shape` at the top of the file, which counts as table 0: `layout` where it is missing or no
    ///   array, and else the first other key.
    /// - `Shape` in the first table that has a flaw: the first key, in the order of the fields of
    ///   `Layout`, that is missing or has the wrong kind; else the first unknown key of the table, by
    ///   bytes; else that of its first group with one. A key or group whose condition is not met counts
    ///   as unknown. A key of a group is named `group.key`, and an element of the array that is no table
    ///   `layout`.
    /// - `Unsound` and `Clash`, as `of` has them.
    ///
    /// `OutOfMemory` may come in place of any other answer.
    pub fn from_toml(alloc: Global, text: &[u8]) -> Result<Layouts, LayoutError>
        ensures right { IsRightFor text.now result }
        ensures only { (answer : Result (List Layout) LayoutError)
            → IsRightFor text.now answer
            → answer ≢ Err LayoutError.OutOfMemory
            → IsUnless LayoutError.OutOfMemory answer result }
    {
        Layouts::of(alloc, layouts_from_toml(alloc, text)?)
    }

    /// Whether each layout of a list is sound and no two clash, so that `of` takes them.
    pub fn check(list: &[Layout]) -> bool
        ensures { IsTrue result ↔ AreSound list.now }
    {
        first_unsound(list).is_none() && first_clash(list).is_none()
    }

    /// The layout that covers a version, or `None` where none does.
    ///
    /// There is one at most, since no two layouts cover one version.
    pub fn choose(&self, version: &Version) -> Option<&Layout>
        ensures none { IsNone result ↔ All (λ layout. ¬ Covers layout version.now) self.now }
        ensures member { IfSome result (λ layout. Contains self.now layout.now) }
        ensures covers { IfSome result (λ layout. Covers layout.now version.now) }
        ensures sound { IfSome result (λ layout. IsSound layout.now) }
        // no other layout of the list covers it
        ensures only { IfSome result (λ layout. (other : Layout)
            → Contains self.now other → Covers other version.now → other ≡ layout.now) }
    {
        self.list.iter().find(|layout| layout.covers(version))
    }
}
