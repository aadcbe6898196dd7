//! Python objects: their types, texts, bytes, integers, dicts, and the items of lists and tuples, read out of a
//! process's memory by a layout.
//!
//! Each reader answers what the object means at this memory, or the first fault on the way, and says how
//! many reads it made. The rules are CPython's where they say what an object means, and this project's
//! own where they say which objects are refused.
#![tactic(auto)]

mod bytes;
mod coding;
mod dicts;
mod entries;
mod error;
mod integers;
mod items;
mod keys;
mod managed;
mod strings;
mod types;

pub use bytes::copy_bytes;
pub use coding::TextKind;
pub use dicts::{DictCursor, Slot};
pub use entries::DictIterator;
pub use error::ObjectError;
pub use integers::{Digits, copy_int, copy_long};
pub use items::{Items, Sequence, read_item, read_items};
pub use managed::{PY_TPFLAGS_INLINE_VALUES, PY_TPFLAGS_MANAGED_DICT, word_before};
pub use strings::{Characters, StateAt, copy_string};
pub use types::{ObjectType, read_type};
