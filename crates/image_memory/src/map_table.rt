//! A test of the addresses of maps that is quick.
ghost use Rattle.std.specs.Prelude.{◌≡◌, All, IfOk, map};
ghost use Rattle.image_memory.specs.MapTables.{MapSpans, map_range_of, past_last, past_of, tests};
ghost use Rattle.image_memory.specs.Maps.{in_maps};
ghost use Rattle.piece_table.specs.Places.{IsBounded};

use crate::{ContainsAddr, CoreMapRange};
use elf64_core::TableEntry;
use piece_table::{FileRange, PieceTable};
use std::alloc::{AllocError, Global};
use std::marker::Model;

/// The addresses that lie in one of some maps, whether or not the core has their bytes; the maps may overlap.
/// They are looked up by halving, of which no clause speaks.
///
/// Contracts see it as the ranges of addresses of the maps, and how many addresses there are past these.
#[derive(Debug, Drop)]
pub struct MapTable {
    table: PieceTable,
    /// How many of the addresses from 2^64 - 1 on lie in a map.
    past: u64,
}

impl Model for MapTable {
    ghost Value = { MapSpans };

    ghost view = { λ m. record { table = m.table; past = m.past } };
}

/// The addresses of a map below 2^64 - 1. What stands there isn't looked at, nor in which file.
fn map_range_of(map: &CoreMapRange) -> FileRange
    ensures is { result ≡ map_range_of map.now }
    ensures fits { IsBounded result }
{
    let segment = &map.segment;
    FileRange {
        range: TableEntry {
            start: segment.addr,
            len: segment.mem_size.min(u64::MAX - segment.addr),
            offset: 0,
        },
        file: 0,
    }
}

/// Those of some maps, in order.
fn map_ranges_of(alloc: Global, maps: &[CoreMapRange]) -> Result<Vec<FileRange>, AllocError>
    ensures are { IfOk result (λ ranges. ranges.items ≡ map map_range_of maps.now) }
    ensures fit { IfOk result (λ ranges. All IsBounded ranges.items) }
{
    let mut ranges = Vec::new(alloc);
    for map in maps {
        ranges.push(map_range_of(map))?;
    }
    Ok(ranges)
}

/// How many of the addresses from 2^64 - 1 on lie in a map.
fn past_of(map: &CoreMapRange) -> u64
    ensures { result ≡ past_of map.now }
{
    let segment = &map.segment;
    segment.mem_size.saturating_sub(u64::MAX - segment.addr)
}

/// How many of them lie in one of some maps.
fn past_last(maps: &[CoreMapRange]) -> u64
    ensures { result ≡ past_last maps.now }
{
    maps.iter().fold(0, |past, map| past_of(map).max(past))
}

impl MapTable {
    /// The table of some maps. It tests addresses as the maps do. The one error is out of memory.
    pub fn of(alloc: Global, maps: &[CoreMapRange]) -> Result<MapTable, AllocError>
        ensures { IfOk result (λ table. tests table ≡ in_maps maps.now) }
    {
        let ranges = map_ranges_of(alloc, maps)?;
        Ok(MapTable {
            table: PieceTable::of(alloc, ranges)?,
            past: past_last(maps),
        })
    }
}

/// Whether an address lies in one of the maps.
impl ContainsAddr for MapTable {
    ghost contains = { tests };

    fn contains_addr(&self, addr: u64) -> bool {
        if addr == u64::MAX {
            self.past > 0
        } else {
            self.table.at(addr).is_some()
        }
    }
}
