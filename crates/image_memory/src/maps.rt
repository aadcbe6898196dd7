//! The maps of a core.
ghost use Rattle.std.specs.Prelude.{◌≡◌, ◌↔◌, ℕ, Bool, IsTrue, IfOk, OnOk, map, option_map, option_copied};
ghost use Rattle.std.specs.Option.{option_or};
ghost use Rattle.std.specs.Ordering.{nat_cmp};
ghost use Rattle.std.specs.BTreeMap.{get};
ghost use Rattle.std.specs.Int.{IsBitSet};
ghost use Rattle.image_memory.specs.FileTables.{file_entry_of};
ghost use Rattle.image_memory.specs.Maps.{HoldNames, entry_for, holds_addr, in_maps, name_by, named_by, placed_by};

use crate::file_table::{FileEntry, FilePlace};
use elf64_core::{Name, Segment};
use std::alloc::{AllocError, Global};
use std::collections::BTreeMap;

/// A map of a core: a load segment, and the name of the file that was mapped there, if the core tells one.
#[derive(Debug, Drop)]
pub struct CoreMapRange {
    /// The name of its file, if the core tells one.
    pub pathname: Option<Name>,
    /// The load segment.
    pub segment: Segment,
}

impl CoreMapRange {
    /// How many bytes it has in memory.
    pub fn size(&self) -> u64
        ensures { result ≡ self.now.segment.mem_size }
    {
        self.segment.mem_size
    }

    /// The address at which it starts.
    pub fn start(&self) -> u64
        ensures { result ≡ self.now.segment.addr }
    {
        self.segment.addr
    }

    /// The name of its file, if the core tells one. It may be empty.
    pub fn filename(&self) -> Option<&Name>
        ensures { option_copied result ≡ self.now.pathname }
    {
        self.pathname.as_ref()
    }

    /// Whether its segment is executable: bit 0 of the flags is set.
    pub fn is_exec(&self) -> bool
        ensures { IsTrue result ↔ IsBitSet self.now.segment.flags 0 }
    {
        self.segment.flags & 1 != 0
    }

    /// Whether its segment is writable: bit 1 of the flags is set.
    pub fn is_write(&self) -> bool
        ensures { IsTrue result ↔ IsBitSet self.now.segment.flags 1 }
    {
        self.segment.flags & 2 != 0
    }

    /// Whether its segment is readable: bit 2 of the flags is set.
    pub fn is_read(&self) -> bool
        ensures { IsTrue result ↔ IsBitSet self.now.segment.flags 2 }
    {
        self.segment.flags & 4 != 0
    }
}

/// A test of addresses.
pub trait ContainsAddr {
    /// Which addresses pass.
    ghost contains: { Self → ℕ → Bool };

    /// Whether an address passes.
    fn contains_addr(&self, addr: u64) -> bool
        ensures { result ≡ contains self.now addr };
}

/// Whether an address lies in a segment's memory.
pub(crate) fn holds_addr(segment: &Segment, addr: u64) -> bool
    ensures { result ≡ holds_addr addr segment.now }
{
    segment.addr <= addr && addr - segment.addr < segment.mem_size
}

/// The addresses that lie in one of the maps, whether or not the core has their bytes.
impl ContainsAddr for Vec<CoreMapRange> {
    ghost contains = { λ maps. in_maps maps.items };

    fn contains_addr(&self, addr: u64) -> bool {
        self.iter().any(|map| holds_addr(&map.segment, addr))
    }
}

/// The same.
impl<'a> ContainsAddr for &'a Vec<CoreMapRange> {
    ghost contains = { λ maps. in_maps maps.now.items };

    fn contains_addr(&self, addr: u64) -> bool {
        self.iter().any(|map| holds_addr(&map.segment, addr))
    }
}

/// Adds some entries to the last ones for each address at which one starts.
pub(crate) fn add_entries<'a>(
    last: &mut BTreeMap<u64, FileEntry<'a>>,
    entries: Vec<FileEntry<'a>>,
) -> Result<(), AllocError>
    ensures { OnOk result ((addr : ℕ) → option_map file_entry_of (get nat_cmp last.new addr)
        ≡ option_or (entry_for (map file_entry_of entries.entry.items) addr)
        (option_map file_entry_of (get nat_cmp last.old addr))) }
{
    for entry in entries {
        last.insert(entry.start, entry)?;
    }
    Ok(())
}

/// The names of maps by their addresses, each held once.
#[derive(Drop)]
pub(crate) struct MapNames {
    pub(crate) names: BTreeMap<u64, Name>,
    /// How many bytes more there is room for.
    pub(crate) room: usize,
}

/// The name that an entry gives the maps at an address, if one does, held once. One of more bytes than there is room
/// for counts as out of memory.
fn name_at(
    alloc: Global,
    names: &mut MapNames,
    last: &BTreeMap<u64, FileEntry<'_>>,
    addr: u64,
) -> Result<Option<Name>, AllocError>
    requires { HoldNames (get nat_cmp names.old.names) (λ addr. option_map file_entry_of (get nat_cmp last.now addr)) }
    ensures name { IfOk result (λ name. name ≡ name_by (option_map file_entry_of (get nat_cmp last.now addr))) }
    ensures held { OnOk result
        (HoldNames (get nat_cmp names.new.names) (λ addr. option_map file_entry_of (get nat_cmp last.now addr))) }
{
    if let Some(name) = names.names.get(&addr) {
        return Ok(Some(name.share()?));
    }
    let Some(entry) = last.get(&addr) else {
        return Ok(None);
    };
    if entry.name.len() > names.room {
        return Err(AllocError);
    }
    let name = Name::of(alloc, entry.name)?;
    names.names.insert(addr, name.share()?)?;
    names.room -= entry.name.len();
    Ok(Some(name))
}

/// The maps of some load segments, with the names that the last entries give them. More bytes of names than there is
/// room for count as out of memory, of which the one error is.
pub(crate) fn maps_of(
    alloc: Global,
    loads: &[Segment],
    last: &BTreeMap<u64, FileEntry<'_>>,
    room: usize,
) -> Result<Vec<CoreMapRange>, AllocError>
    ensures { IfOk result (λ maps. maps.items
        ≡ map (λ s. named_by (option_map file_entry_of (get nat_cmp last.now s.addr)) s) loads.now) }
{
    let mut names = MapNames {
        names: BTreeMap::new(alloc),
        room,
    };
    let mut maps = Vec::new(alloc);
    for segment in loads.iter().copied() {
        let pathname = name_at(alloc, &mut names, last, segment.addr)?;
        maps.push(CoreMapRange { pathname, segment })?;
    }
    Ok(maps)
}

/// Where the files of some load segments are mapped from, by the last entries.
pub(crate) fn places_of(
    alloc: Global,
    loads: &[Segment],
    last: &BTreeMap<u64, FileEntry<'_>>,
) -> Result<Vec<Option<FilePlace>>, AllocError>
    ensures { IfOk result (λ places. places.items
        ≡ map (λ s. placed_by (option_map file_entry_of (get nat_cmp last.now s.addr))) loads.now) }
{
    let mut places = Vec::new(alloc);
    for segment in loads.iter().copied() {
        let place = match last.get(&segment.addr) {
            Some(entry) => Some(entry.place),
            None => None,
        };
        places.push(place)?;
    }
    Ok(places)
}
