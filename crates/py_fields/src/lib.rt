//! Versions of Python, and where the fields of an interpreter's records are: how a version is spelled, a layout, when
//! it is sound, and the versions that it covers.
#![tactic(auto)]

mod error;
mod layout;
mod offsets;
mod places;
mod scan;
mod sound;
mod spelling;
mod version;

pub use error::ScanError;
pub use layout::{
    BytesAt, CframeAt, CodeAt, DictAt, Dicts, FrameAt, Frames, GilAt, Head, HeapAt, Integers,
    InterpreterAt, KeysAt, KlassAt, Lasti, Layout, Lines, ListAt, Lock, LongAt, Managed, ObjectAt,
    OffsetsAt, StringAt, Strings, ThreadAt, TupleAt, ValueAt,
};
pub use offsets::{get_interp_head_offset, get_tstate_current_offset};
pub use sound::is_sound;
pub use version::Version;
