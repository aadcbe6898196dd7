//! A memory of given pieces.
ghost use Rattle.std.specs.Prelude.{◌≡◌, ℕ, ◌+◌, ◌<◌, map, List, length, slice_index, IfSome, Some, None, option_map};
ghost use Rattle.process_memory.specs.Memory.{Region, byte_at};
ghost use Rattle.process_memory.specs.Pieces.{region_of, run_in};
ghost use Rattle.process_memory.specs.Layers.{plain};

use crate::pieces::{Pieces, copy_pieces, read_pieces};
use crate::{ProcessMemory, ReadFault};
use std::alloc::Global;
use std::marker::Model;

/// Bytes from an address on. They end at 2^64 - 1 at most; a byte that would stand further on is in no
/// memory.
#[derive(Debug, Drop)]
pub struct Piece {
    pub start: u64,
    pub bytes: Vec<u8>,
}

/// Pieces of memory. The byte at an address is that of the first piece that holds it.
///
/// Contracts see it as the list of pieces, each with its start and bytes.
#[derive(Debug, Drop)]
pub struct Part {
    pieces: Vec<Piece>,
}

impl Model for Part {
    ghost Value = { List Region };

    ghost view = { λ p. map region_of p.pieces.items };
}

impl Part {
    /// A memory of these pieces. It takes no memory.
    pub fn of(_alloc: Global, pieces: Vec<Piece>) -> Part
        ensures { result ≡ map region_of pieces.items }
    {
        Part { pieces }
    }
}

/// The bytes of one piece from an address on, if it holds that address.
fn run_in(piece: &Piece, addr: u64) -> Option<&[u8]>
    ensures { option_map (λ run. run.now) result ≡ run_in (region_of piece.now) addr }
{
    if addr < piece.start {
        return None;
    }
    let bytes = piece.bytes.as_slice();
    let past = (addr - piece.start) as usize;
    if past < bytes.len() {
        Some(&bytes[past..])
    } else {
        None
    }
}

/// Bytes from an address on, one or more, all of the first piece that holds it; none where no piece holds it.
/// The run ends where an earlier piece may begin.
fn first_run(pieces: &[Piece], addr: u64) -> Option<&[u8]>
    ensures some { IfSome result (λ run. 0 < length run.now) }
    ensures bytes { IfSome result (λ run. (k : ℕ) → k < length run.now
        → byte_at (map region_of pieces.now) (addr + k) ≡ Some (slice_index run.now k)) }
    ensures none { result ≡ None → byte_at (map region_of pieces.now) addr ≡ None }
{
    let mut reach = u64::MAX - addr;
    if reach == 0 {
        return None;
    }
    for piece in pieces {
        if let Some(run) = run_in(piece, addr) {
            return Some(&run[..run.len().min(reach as usize)]);
        }
        if addr < piece.start {
            reach = reach.min(piece.start - addr);
        }
    }
    None
}

impl Pieces for Part {
    ghost regions = { λ p. p };

    fn run(&self, addr: u64) -> Option<&[u8]> {
        first_run(&self.pieces, addr)
    }
}

impl ProcessMemory for Part {
    ghost seen = { λ p. plain p };

    fn read(&mut self, addr: u64, buf: &mut [u8]) -> Result<(), ReadFault> {
        read_pieces(self, addr, buf)
    }

    fn copy(&mut self, alloc: Global, addr: u64, len: u64) -> Result<Vec<u8>, ReadFault> {
        copy_pieces(alloc, self, addr, len)
    }
}
