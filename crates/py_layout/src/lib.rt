//! Lists of layouts, which say where the fields of an interpreter's records are, and the files that hold them.
#![tactic(auto)]

mod error;
mod families;
mod file;
mod flaws;
mod keys;
mod layouts;
mod reading;
mod values;

pub use error::LayoutError;
pub use layouts::Layouts;
pub use py_fields::{
    BytesAt, CframeAt, CodeAt, DictAt, Dicts, FrameAt, Frames, GilAt, Head, HeapAt, Integers,
    InterpreterAt, KeysAt, KlassAt, Lasti, Layout, Lines, ListAt, Lock, LongAt, Managed, ObjectAt,
    OffsetsAt, ScanError, StringAt, Strings, ThreadAt, TupleAt, ValueAt, Version,
    get_interp_head_offset, get_tstate_current_offset,
};
