//! The row at an address.
ghost use Rattle.std.specs.Prelude.{◌≡◌, ◌≤◌, ◌<◌, ◌+◌, ◌^◌, ℕ, length, Result};
ghost use Rattle.frame_rows.specs.declared.row.Row.{Row as RowValue};
ghost use Rattle.frame_rows.specs.declared.program.RowError.{RowError as ErrorValue};
ghost use Rattle.frame_rows.specs.Answer.{IsRow, FollowsBoth, frame_of};

use crate::program::{Flow, Frame, RowError, Walk};
use crate::row::{Machine, Row};

/// What the instructions of an entry are read by.
#[derive(Clone, Copy, Debug, PartialEq, Eq)]
pub struct Convention {
    /// The machine, whose registers are followed.
    pub machine: Machine,
    /// The code alignment: each advance is so many times it.
    pub code: u64,
    /// The data alignment: each offset of a register is so many times it.
    pub factor: i64,
}

impl Convention {
    /// What a program is run with.
    fn frame_at(&self, address: u64, first: Row) -> Frame
        ensures { result ≡ frame_of self.now address first }
    {
        Frame {
            machine: self.machine,
            code: self.code,
            scale: self.factor.cast_unsigned(),
            address,
            first,
        }
    }
}

/// The row at an address: what the initial instructions and then the entry's own come to, up to the last one
/// whose location is at most the address. `begin` is the location before the first; `kept` is room for the rows
/// that are remembered, and no other memory is taken. What stands behind the instruction that leads past the
/// address has no say.
///
/// There is none where a place is reached at which no instruction stands, or one that can't be followed; the
/// error says where and why.
pub fn row_at(
    convention: &Convention,
    initial: &[u8],
    own: &[u8],
    begin: u64,
    address: u64,
    kept: &mut [Row],
) -> Result<Row, RowError>
    requires begun { begin ≤ address }
    ensures right { IsRow convention.now initial.now own.now begin address (length kept.old) result }
    ensures only { (other : Result RowValue ErrorValue)
        → IsRow convention.now initial.now own.now begin address (length kept.old) other → other ≡ result }
{
    match flow(convention, initial, own, begin, address, kept) {
        Ok(Flow::Goes(walk)) => Ok(walk.row),
        Ok(Flow::Reached(row)) => Ok(row),
        Err(error) => Err(error),
    }
}

/// How both programs go.
fn flow(
    convention: &Convention,
    initial: &[u8],
    own: &[u8],
    begin: u64,
    address: u64,
    kept: &mut [Row],
) -> Result<Flow, RowError>
    ensures { FollowsBoth convention.now initial.now own.now begin address (length kept.old) kept.new result }
{
    let frame = convention.frame_at(address, Row::new());
    let walk = Walk {
        location: begin,
        row: Row::new(),
        depth: 0,
    };
    match frame.run(walk, kept, initial, 0) {
        Ok(Flow::Goes(walk)) => {
            let later = convention.frame_at(address, walk.row);
            later.run(walk, kept, own, initial.len())
        }
        Ok(Flow::Reached(row)) => Ok(Flow::Reached(row)),
        Err(error) => Err(error),
    }
}
