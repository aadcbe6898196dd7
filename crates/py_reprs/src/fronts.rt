//! The first bytes of what may have many, read by pieces.
ghost use Rattle.std.specs.Prelude.{◌≡◌, ◌<◌, ◌≤◌, ◌^◌, ◌+◌, ◌/◌, ◌++◌, IfErr, Ok, OnOk};
ghost use Rattle.process_memory.specs.Memory.{bytes_at, record_at};
ghost use Rattle.process_memory.specs.Seen.{Reads, items_of, read_fault};
ghost use Rattle.py_builtins.specs.ObjectError.{object_fault};
ghost use Rattle.py_reprs.specs.Fronts.{front_at, items_or_none};

use process_memory::{ProcessMemory, ReadFault, record_wide};
use py_builtins::ObjectError;
use std::alloc::Global;

/// How many bytes are read at a time, at most.
const PIECE: u64 = 4096;

/// How many addresses there are.
const ADDRESSES: u128 = 0x1_0000_0000_0000_0000;

/// So many bytes at an address; none where one of them is not in memory. One read.
fn read_piece<P: ProcessMemory>(
    alloc: Global,
    process: &mut P,
    at: u128,
    length: u64,
) -> Result<Option<Vec<u8>>, ReadFault>
    requires few { length < 2 ^ 16 }
    requires within { at < 2 ^ 64 }
    ensures { Reads read_fault 1 (P.seen process.old) (P.seen process.new)
        (λ m. Ok (bytes_at m at length)) (items_or_none result) }
{
    match record_wide(alloc, process, at, length) {
        Ok(read) => Ok(Some(read)),
        Err(ReadFault::OutOfMemory) => Err(ReadFault::OutOfMemory),
        Err(ReadFault::Unreadable { .. }) => Ok(None),
    }
}

/// Adds a piece to the bytes before it.
fn add_piece(bytes: &mut Vec<u8>, piece: &[u8]) -> Result<(), ReadFault>
    ensures added { OnOk result (bytes.new.items ≡ bytes.old.items ++ piece.now) }
    ensures memory { IfErr result (λ error. error ≡ ReadFault.OutOfMemory) }
{
    match bytes.extend_from_slice(piece) {
        Ok(()) => Ok(()),
        Err(_) => Err(ReadFault::OutOfMemory),
    }
}

/// The same, read piece by piece: memory is taken for what is there alone. At most one read for each 4,096 bytes, and
/// one more.
fn read_pieces<P: ProcessMemory>(
    alloc: Global,
    process: &mut P,
    at: u128,
    length: u64,
) -> Result<Option<Vec<u8>>, ReadFault>
    requires within { at + length ≤ 2 ^ 64 }
    ensures { Reads read_fault (length / 4096 + 1) (P.seen process.old) (P.seen process.new)
        (λ m. Ok (bytes_at m at length)) (items_or_none result) }
{
    let mut bytes = Vec::new(alloc);
    let mut done: u64 = 0;
    while done < length {
        let piece = PIECE.min(length - done);
        let Some(read) = read_piece(alloc, process, at + done as u128, piece)? else {
            return Ok(None);
        };
        add_piece(&mut bytes, &read)?;
        done += piece;
    }
    Ok(Some(bytes))
}

/// So many bytes at an address. Where one of them is not in memory, the range is `Unreadable`. At most one read for each
/// 4,096 bytes, and one more.
fn read_whole<P: ProcessMemory>(
    alloc: Global,
    process: &mut P,
    at: u128,
    length: u64,
) -> Result<Vec<u8>, ObjectError>
    requires within { at + length ≤ 2 ^ 64 }
    ensures { Reads object_fault (length / 4096 + 1) (P.seen process.old) (P.seen process.new)
        (λ m. record_at m at length) (items_of result) }
{
    if length == 0 {
        return Ok(Vec::new(alloc));
    }
    match read_pieces(alloc, process, at, length) {
        Ok(Some(bytes)) => Ok(bytes),
        Ok(None) => Err(ObjectError::Unreadable {
            addr: at as u64,
            len: length,
        }),
        Err(_) => Err(ObjectError::OutOfMemory),
    }
}

/// So many bytes at an address that may be past the last one. A range that is not in memory is `Unreadable`. At most one
/// read for each 4,096 bytes, and one more.
#[tactic(auto, unfolding(crate::specs::Fronts::front_at))]
pub(crate) fn read_front<P: ProcessMemory>(
    alloc: Global,
    process: &mut P,
    at: u128,
    length: u64,
) -> Result<Vec<u8>, ObjectError>
    ensures { Reads object_fault (length / 4096 + 1) (P.seen process.old) (P.seen process.new)
        (λ m. front_at m at length) (items_of result) }
{
    if at <= ADDRESSES && at + length as u128 <= ADDRESSES {
        return read_whole(alloc, process, at, length);
    }
    Err(ObjectError::Unreadable {
        addr: u64::MAX,
        len: length,
    })
}
