//! One stack of Python's frames and native ones.
//!
//! A run is what one call of the interpreter's loop executes: in every version so far that call is a native frame, and
//! a run belongs to it. Which of the native frames has which run is told here by where a run's border lies in the part
//! of the stack that a native frame has (`pair_by_address`), or else by the order of both (`pair_by_order`), and never
//! where the numbers don't allow it. Both lists then stand in one (`merged_items`). Which native frames are hidden goes
//! by their names (`is_hidden`).
//!
//! The crate reads no memory and knows no core.
#![tactic(auto)]

mod address;
mod first_turn;
mod item;
mod kind;
mod order;
mod part;

pub use address::pair_by_address;
pub use item::{Item, apart_items, merged_items};
pub use kind::{FunctionKind, function_kind, is_call_glue, is_hidden};
pub use order::pair_by_order;
pub use part::Part;
