//! What the call frame information of a function says: the row of rules at an address.
//!
//! A row says where the canonical frame address (CFA) is, and where the caller's registers are. It is what two lists of
//! instructions make, one behind the other, up to the last whose location is at most the address: the initial
//! instructions, which many functions share, and the function's own. The rules are those of DWARF 5, section 6.4, as
//! the LSB's page on exception frames takes them. The crate knows no file: `frame_tables` finds the instructions.
#![tactic(auto)]

mod answer;
mod instruction;
mod number;
mod program;
mod row;

pub use answer::{Convention, row_at};
pub use instruction::{Change, Instruction};
pub use number::{Flaw, Number, SignedNumber, fixed, signed, unsigned};
pub use program::RowError;
pub use row::{Cfa, Machine, Row, Rule};
