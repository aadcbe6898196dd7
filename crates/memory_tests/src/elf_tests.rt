//! Each public call once, over an image that is written out byte by byte, and names and texts.
ghost use Rattle.std.specs.Prelude.{◌≡◌, ◌<◌};

use elf64_core::{Name, SpanTable, Steps, TableEntry, Text};
use std::cmp::Ordering;
use std::hash::{DefaultHasher, Hash, Hasher};
use std::marker::Brand;
use std::sync::ledger::{Blank, Ledger};
use std::test::Fail;

fn hash_of<T: Hash>(value: &T) -> u64 {
    let mut state = DefaultHasher::new();
    value.hash(&mut state);
    state.finish()
}

/// A name is ordered by its bytes.
#[test]
fn names_are_their_bytes(rt: HostRuntime) -> Result<(), Fail> {
    let alloc = rt.alloc();
    let long = Name::of(alloc, b"a\xff\xe2\x82")?;
    let short = Name::of(alloc, b"b")?;
    assert!(rt; long.cmp(&short) == Ordering::Less && long != short);
    let again = Name::of(alloc, short.as_bytes())?;
    assert!(rt; hash_of(&short) == hash_of(&again));
    Ok(())
}

/// A text is ordered by its bytes, which is by its characters.
#[test]
fn texts_are_their_bytes(rt: HostRuntime) -> Result<(), Fail> {
    let alloc = rt.alloc();
    let first = Text::of(alloc, "\u{ffff}")?;
    let last = Text::from_string(String::from_str(alloc, "😀")?)?;
    assert!(rt; first.cmp(&last) == Ordering::Less && first != last);
    let again = last.share()?;
    assert!(rt; hash_of(&last) == hash_of(&again));
    Ok(())
}

/// The entry of a number of a table, if there is one, and how many bytes the counter of its steps takes.
fn entry_at<L: Ledger>(table: &SpanTable, index: u32, blank: Blank) -> (Option<TableEntry>, usize)
    requires name { blank.name ≡ L.name }
    requires parts { blank.parts ≡ L.parts }
    requires some { 0 < L.parts }
{
    let mut steps = Steps::<L>::new(blank);
    if index < table.len() {
        (Some(table.probe(index, &mut steps)), size_of::<Steps<L>>())
    } else {
        (None, size_of::<Steps<L>>())
    }
}

#[test]
fn a_table_gives_its_entries(rt: HostRuntime) -> Result<(), Fail> {
    let alloc = rt.alloc();
    let first = TableEntry {
        start: 8,
        len: u64::MAX - 8,
        offset: 5,
    };
    let table = SpanTable::of(alloc, vec![in alloc; first]?);
    for (index, want) in [(0, Some(first)), (1, None)] {
        assert_eq!(rt; entry_at::<Brand>(&table, index, Blank::new(1)), (want, 0));
    }
    Ok(())
}
