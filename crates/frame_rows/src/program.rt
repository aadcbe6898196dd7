//! A program of call frame instructions: how far it comes by an address.
ghost use Rattle.std.specs.Prelude.{◌≡◌, ◌≤◌, ◌<◌, ◌+◌, ◌^◌, ℕ, length, IfOk};
ghost use Rattle.frame_rows.specs.Programs.{State, Holds, Follows, Runs, IsWithin, does, moved};

use crate::instruction::{Instruction, instruction_in};
use crate::number::Flaw;
use crate::row::{Machine, Row};

/// Why there is no row.
#[derive(Clone, Copy, Debug, PartialEq, Eq)]
pub struct RowError {
    /// Where: an offset into the initial instructions and the entry's, one behind the other.
    pub at: usize,
    /// What is wrong there.
    pub flaw: Flaw,
}

/// What a program is run with.
#[derive(Clone, Copy)]
pub(crate) struct Frame {
    pub(crate) machine: Machine,
    /// The code alignment.
    pub(crate) code: u64,
    /// The data alignment, as a word.
    pub(crate) scale: u64,
    /// The address whose row is sought.
    pub(crate) address: u64,
    /// The row behind the initial instructions.
    pub(crate) first: Row,
}

/// How far a program has come.
#[derive(Clone, Copy)]
pub(crate) struct Walk {
    /// The row holds from here on.
    pub(crate) location: u64,
    pub(crate) row: Row,
    /// How many rows are remembered.
    pub(crate) depth: usize,
}

/// How a program goes behind an instruction.
#[derive(Clone, Copy)]
pub(crate) enum Flow {
    /// On.
    Goes(Walk),
    /// No more: this is the row at the address.
    Reached(Row),
}

impl Frame {
    /// The location behind an advance, if it is at most the address.
    fn moved(&self, location: u64, delta: u64) -> Option<u64>
        ensures { result ≡ moved self.now location delta }
    {
        let address = self.address;
        let location = location.checked_add(delta.checked_mul(self.code)?)?;
        if location <= address {
            Some(location)
        } else {
            None
        }
    }

    /// How a program goes behind one more instruction, from `at` to `end`.
    fn step(
        &self,
        walk: Walk,
        kept: &mut [Row],
        instruction: Instruction,
        at: usize,
        end: usize,
    ) -> Result<Flow, RowError>
        requires { walk.depth ≤ length kept.old }
        ensures follows { (s : State) → Holds kept.old walk s
            → Follows kept.new result (does self.now (length kept.old) s at end instruction) }
        ensures within { IfOk result (IsWithin (length kept.old)) }
    {
        match instruction {
            Instruction::Advance(delta) => Ok(match self.moved(walk.location, delta) {
                Some(location) => Flow::Goes(Walk { location, ..walk }),
                None => Flow::Reached(walk.row),
            }),
            Instruction::Remember => {
                if walk.depth >= kept.len() {
                    return Err(RowError {
                        at,
                        flaw: Flaw::TooManyRemembered,
                    });
                }
                kept[walk.depth] = walk.row;
                Ok(Flow::Goes(Walk {
                    depth: walk.depth + 1,
                    ..walk
                }))
            }
            Instruction::Recall => {
                if walk.depth == 0 {
                    return Err(RowError {
                        at,
                        flaw: Flaw::NothingRemembered,
                    });
                }
                Ok(Flow::Goes(Walk {
                    row: kept[walk.depth - 1],
                    depth: walk.depth - 1,
                    ..walk
                }))
            }
            Instruction::Change(change) => {
                match walk.row.changed(change, self, end) {
                    Ok(row) => Ok(Flow::Goes(Walk { row, ..walk })),
                    Err(flaw) => Err(RowError { at, flaw }),
                }
            }
        }
    }

    /// How a whole program goes, which begins at `base`. What stands behind the instruction that leads past the
    /// address has no say.
    pub(crate) fn run(
        &self,
        walk: Walk,
        kept: &mut [Row],
        program: &[u8],
        base: usize,
    ) -> Result<Flow, RowError>
        requires depth { walk.depth ≤ length kept.old }
        requires room { base + length program.now < 2 ^ 64 }
        ensures within { IfOk result (IsWithin (length kept.old)) }
        ensures runs { (s : State) → Holds kept.old walk s
            → Runs self.now kept.old s base program.now kept.new result }
    {
        let mut walk = walk;
        let mut at = base;
        let mut rest = program;
        while !rest.is_empty() {
            let read = match instruction_in(rest) {
                Ok(read) => read,
                Err(flaw) => return Err(RowError { at, flaw }),
            };
            let end = at + read.size;
            match self.step(walk, kept, read.instruction, at, end) {
                Ok(Flow::Goes(next)) => walk = next,
                Ok(Flow::Reached(row)) => return Ok(Flow::Reached(row)),
                Err(error) => return Err(error),
            }
            at = end;
            rest = &rest[read.size..];
        }
        Ok(Flow::Goes(walk))
    }
}
