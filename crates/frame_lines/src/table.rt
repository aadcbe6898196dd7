//! The bytes of a line table.
ghost use Rattle.std.specs.Prelude.{◌≡◌, ◌<◌, ◌≤◌, ◌^◌, ◌+◌, ◌++◌, IfErr, IfOk, IfSome, Ok, OnOk, length};
ghost use Rattle.process_memory.specs.Memory.{bytes_at};
ghost use Rattle.process_memory.specs.Seen.{Reads, read_fault};
ghost use Rattle.py_fields.specs.Sound.{IsSound};
ghost use Rattle.frame_lines.specs.Tables.{items_or_none, many_at, table_at};

use elf64_core::u64_in;
use process_memory::{ProcessMemory, ReadFault, record, record_wide};
use py_fields::Layout;
use std::alloc::Global;

/// The length from which on a table is not read.
const LENGTH_LIMIT: u64 = 1 << 24;

/// How many bytes are read at a time, at most.
const PIECE: u64 = 1 << 15;

/// How many addresses there are.
const ADDRESSES: u128 = 0x1_0000_0000_0000_0000;

/// So many bytes at an address; none where one of them is not in memory. One read.
fn read_piece<P: ProcessMemory>(
    alloc: Global,
    process: &mut P,
    at: u128,
    length: u64,
) -> Result<Option<Vec<u8>>, ReadFault>
    requires few { length < 2 ^ 16 }
    requires within { at < 2 ^ 64 }
    ensures { Reads read_fault 1 (P.seen process.old) (P.seen process.new)
        (λ m. Ok (bytes_at m at length)) (items_or_none result) }
{
    match record_wide(alloc, process, at, length) {
        Ok(read) => Ok(Some(read)),
        Err(ReadFault::OutOfMemory) => Err(ReadFault::OutOfMemory),
        Err(ReadFault::Unreadable { .. }) => Ok(None),
    }
}

/// Adds a piece to the bytes before it.
fn add_piece(bytes: &mut Vec<u8>, piece: &[u8]) -> Result<(), ReadFault>
    ensures added { OnOk result (bytes.new.items ≡ bytes.old.items ++ piece.now) }
    ensures memory { IfErr result (λ error. error ≡ ReadFault.OutOfMemory) }
{
    match bytes.extend_from_slice(piece) {
        Ok(()) => Ok(()),
        Err(_) => Err(ReadFault::OutOfMemory),
    }
}

/// The same of fewer than 2^24 bytes, read piece by piece. At most 512 reads.
fn read_pieces<P: ProcessMemory>(
    alloc: Global,
    process: &mut P,
    at: u128,
    length: u64,
) -> Result<Option<Vec<u8>>, ReadFault>
    requires few { length < 2 ^ 24 }
    requires within { at + length ≤ 2 ^ 64 }
    ensures { Reads read_fault 512 (P.seen process.old) (P.seen process.new)
        (λ m. Ok (bytes_at m at length)) (items_or_none result) }
{
    let mut bytes = Vec::new(alloc);
    let mut done: u64 = 0;
    while done < length {
        let piece = PIECE.min(length - done);
        let Some(read) = read_piece(alloc, process, at + done as u128, piece)? else {
            return Ok(None);
        };
        add_piece(&mut bytes, &read)?;
        done += piece;
    }
    Ok(Some(bytes))
}

/// So many bytes at an address, where they are fewer than 2^24 and all in memory. At most 512 reads.
#[tactic(auto, unfolding(crate::specs::Tables::many_at))]
fn read_many<P: ProcessMemory>(
    alloc: Global,
    process: &mut P,
    at: u128,
    length: u64,
) -> Result<Option<Vec<u8>>, ReadFault>
    requires near { at < 2 ^ 65 }
    ensures { Reads read_fault 512 (P.seen process.old) (P.seen process.new)
        (λ m. Ok (many_at m at length)) (items_or_none result) }
{
    if length < LENGTH_LIMIT && at + length as u128 <= ADDRESSES {
        read_pieces(alloc, process, at, length)
    } else {
        Ok(None)
    }
}

/// The bytes of the bytes object at an address; none where they are 2^24 and more, or one of them or of the object's
/// record is not in memory. The one error is out of memory. At most 513 reads, each of fewer than 65536 bytes.
#[tactic(auto, unfolding(crate::specs::Tables::table_at))]
pub fn read_table<P: ProcessMemory>(
    alloc: Global,
    process: &mut P,
    layout: &Layout,
    addr: u64,
) -> Result<Option<Vec<u8>>, ReadFault>
    requires sound { IsSound layout.now }
    ensures answer { Reads read_fault 513 (P.seen process.old) (P.seen process.new)
        (λ m. Ok (table_at layout.now m addr)) (items_or_none result) }
    ensures short { IfOk result (λ table. IfSome table (λ table. length table.items < 2 ^ 24)) }
{
    match record(alloc, process, addr, layout.bytes.size as u64) {
        Ok(object) => {
            let length = u64_in(&object, layout.bytes.length as usize);
            read_many(
                alloc,
                process,
                addr as u128 + layout.bytes.at as u128,
                length,
            )
        }
        Err(ReadFault::OutOfMemory) => Err(ReadFault::OutOfMemory),
        Err(ReadFault::Unreadable { .. }) => Ok(None),
    }
}
