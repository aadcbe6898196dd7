//! A census of objects: of each class how many there are, and how many bytes their own blocks have.
//!
//! Beside it four kinds of blocks are counted: that of a list's items (`allocated`, at 32), that of a dict's keys
//! (`ma_keys`, at 32) where no other object has the same (up to 3.10 a head of 40 bytes, from 3.11 on one of 32), that of
//! the keys that the dicts of a type's objects share, once and with the type, and a set's table (`table`, at 40, of
//! `mask` at 32 and one more entries) where it isn't the small one of its own block (`smalltable`, at 64).
//!
//! An object's own block has the bytes that its class states for each object, those of its items where it has a count
//! of items, and what stands before the object: the head of the collector and the words of a managed dict. The values
//! of attributes that stand in it from 3.13 on are not counted, nor are other blocks that it has.
//!
//! Where sizes stand, in bytes from the start of an object or of a class on, as `size_places` has them: the count of
//! items at 16 (`ob_size`; from 3.12 on `lv_tag` of an integer), the bytes of each object of a class at 32
//! (`tp_basicsize`) and those of an item at 40 (`tp_itemsize`) in each of 3.7 to 3.13, on machines of 8 byte words.
//!
//! | version | head of the collector | two words before it | from |
//! |---|---|---|---|
//! | 3.7 | 32 | never | objimpl.h |
//! | 3.8 to 3.10 | 16 | never | cpython/objimpl.h, internal/pycore_gc.h |
//! | 3.11 | 16 | with a managed dict (bit 4 of the flags) | internal/pycore_object.h |
//! | 3.12, 3.13 | 16 | with a managed dict or managed weak references (bits 4 and 3) | internal/pycore_object.h |
#![tactic(auto)]

mod bases;
mod blocks;
mod census;
mod large;
mod places;
mod sizes;
mod tallies;
mod versions;

pub use census::{Census, CountedClass, count_objects};
pub use large::{LargeObject, Largest};
pub use places::{KeysForm, SetClasses, SizePlaces, WordsBefore};
pub use versions::size_places;
