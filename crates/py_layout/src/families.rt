//! Families, by their words in a file.
ghost use Rattle.std.specs.Prelude.{◌≡◌};
ghost use Rattle.toml.specs.View.{view, table_view};
ghost use Rattle.py_layout.specs.Words.{head_of_word, lock_of_word, frames_of_word, lasti_of_word, lines_of_word};
ghost use Rattle.py_layout.specs.Words.{strings_of_word, integers_of_word, dicts_of_word, managed_of_word, is_word};
ghost use Rattle.py_layout.specs.Words.{word_of, family_word, families_of};

use crate::keys::Family;
use crate::values::member;
use py_fields::{Dicts, Frames, Head, Integers, Lasti, Lines, Lock, Managed, Strings};
use toml::{Table, Value};

/// The families of a layout.
#[derive(Clone, Copy)]
pub struct Families {
    pub head: Head,
    pub lock: Lock,
    pub frames: Frames,
    pub lasti: Lasti,
    pub lines: Lines,
    pub strings: Strings,
    pub integers: Integers,
    pub dicts: Dicts,
    pub managed: Managed,
}

fn head_of_word(word: &str) -> Option<Head>
    ensures { result ≡ head_of_word word.now }
{
    match word {
        "symbol" => Some(Head::Symbol),
        "runtime" => Some(Head::Runtime),
        "offsets" => Some(Head::Offsets),
        _ => None,
    }
}

fn lock_of_word(word: &str) -> Option<Lock>
    ensures { result ≡ lock_of_word word.now }
{
    match word {
        "symbol" => Some(Lock::Symbol),
        "runtime" => Some(Lock::Runtime),
        "gil" => Some(Lock::Gil),
        _ => None,
    }
}

fn frames_of_word(word: &str) -> Option<Frames>
    ensures { result ≡ frames_of_word word.now }
{
    match word {
        "direct" => Some(Frames::Direct),
        "cframe" => Some(Frames::Cframe),
        _ => None,
    }
}

fn lasti_of_word(word: &str) -> Option<Lasti>
    ensures { result ≡ lasti_of_word word.now }
{
    match word {
        "bytes" => Some(Lasti::Bytes),
        "units" => Some(Lasti::Units),
        "pointer" => Some(Lasti::Pointer),
        _ => None,
    }
}

fn lines_of_word(word: &str) -> Option<Lines>
    ensures { result ≡ lines_of_word word.now }
{
    match word {
        "pairs" => Some(Lines::Pairs),
        "ranges" => Some(Lines::Ranges),
        "locations" => Some(Lines::Locations),
        _ => None,
    }
}

fn strings_of_word(word: &str) -> Option<Strings>
    ensures { result ≡ strings_of_word word.now }
{
    match word {
        "state" => Some(Strings::State),
        "bytes" => Some(Strings::Bytes),
        _ => None,
    }
}

fn integers_of_word(word: &str) -> Option<Integers>
    ensures { result ≡ integers_of_word word.now }
{
    match word {
        "signed" => Some(Integers::Signed),
        "tagged" => Some(Integers::Tagged),
        _ => None,
    }
}

fn dicts_of_word(word: &str) -> Option<Dicts>
    ensures { result ≡ dicts_of_word word.now }
{
    match word {
        "none" => Some(Dicts::Absent),
        "general" => Some(Dicts::General),
        "compact" => Some(Dicts::Compact),
        _ => None,
    }
}

fn managed_of_word(word: &str) -> Option<Managed>
    ensures { result ≡ managed_of_word word.now }
{
    match word {
        "none" => Some(Managed::Absent),
        "split" => Some(Managed::Split),
        "tagged" => Some(Managed::Tagged),
        _ => None,
    }
}

/// Whether it is one of the family's words.
pub fn is_word(family: Family, word: &str) -> bool
    ensures { result ≡ is_word family word.now }
{
    match family {
        Family::Head => head_of_word(word).is_some(),
        Family::Lock => lock_of_word(word).is_some(),
        Family::Frames => frames_of_word(word).is_some(),
        Family::Lasti => lasti_of_word(word).is_some(),
        Family::Lines => lines_of_word(word).is_some(),
        Family::Strings => strings_of_word(word).is_some(),
        Family::Integers => integers_of_word(word).is_some(),
        Family::Dicts => dicts_of_word(word).is_some(),
        Family::Managed => managed_of_word(word).is_some(),
    }
}

/// The text of a value; of one that is no text the empty one.
pub fn word_of(value: &Value) -> &str
    ensures { result.now ≡ word_of (view value.now) }
{
    match value {
        Value::String(word) => word.as_str(),
        _ => "",
    }
}

/// The text at a key, which is empty where there is none.
fn family_word<'a>(table: &'a Table, name: &str) -> &'a str
    ensures { result.now ≡ family_word (table_view table.now) name.now }
{
    match member(table, name) {
        Some(value) => word_of(value),
        None => "",
    }
}

/// The families of a table; where a key has none of its family's words, the first.
pub fn families_of(table: &Table) -> Families
    ensures { result ≡ families_of (table_view table.now) }
{
    Families {
        head: head_of_word(family_word(table, "head")).unwrap_or(Head::Symbol),
        lock: lock_of_word(family_word(table, "lock")).unwrap_or(Lock::Symbol),
        frames: frames_of_word(family_word(table, "frames")).unwrap_or(Frames::Direct),
        lasti: lasti_of_word(family_word(table, "lasti")).unwrap_or(Lasti::Bytes),
        lines: lines_of_word(family_word(table, "lines")).unwrap_or(Lines::Pairs),
        strings: strings_of_word(family_word(table, "strings")).unwrap_or(Strings::State),
        integers: integers_of_word(family_word(table, "integers")).unwrap_or(Integers::Signed),
        dicts: dicts_of_word(family_word(table, "dicts")).unwrap_or(Dicts::Absent),
        managed: managed_of_word(family_word(table, "managed")).unwrap_or(Managed::Absent),
    }
}
