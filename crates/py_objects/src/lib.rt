//! Values of a Python process as text: what an inspector shows of them, within a width.
//!
//! The rule is one over values and their parts, wherever these come from; here they are a process's, read by a
//! layout. Visits and levels are counted, so that each value ends, a list of itself too.
//!
//! The readers of types, texts, bytes, integers, dicts and items are those of `py_builtins`, named on here.
#![tactic(auto)]

mod kinds;
mod nodes;
mod show;
mod texts;

pub use py_builtins::{
    DictCursor, DictIterator, Items, ObjectError, ObjectType, PY_TPFLAGS_INLINE_VALUES,
    PY_TPFLAGS_MANAGED_DICT, Sequence, Slot, copy_bytes, copy_int, copy_long, copy_string,
    read_item, read_items, read_type,
};
pub use show::format_variable;
