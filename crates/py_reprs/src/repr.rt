//! Values as they are shown: trees.
use crate::coroutines::{CoroutineForm, CoroutineState};
use crate::kinds::Kind;
use elf64_core::Text;

/// What integers are those of.
#[derive(Debug, Clone, Copy, Drop, PartialEq, Eq)]
pub enum IntegerForm {
    /// `int`.
    Int,
    /// Python 2's `long`, which has an `L` behind its digits.
    Long,
}

/// What characters are those of.
#[derive(Debug, Clone, Copy, Drop, PartialEq, Eq)]
pub enum TextForm {
    /// `str`.
    Str,
    /// Python 2's `unicode`, which has a `u` before its quote.
    Unicode,
}

/// What bytes are those of.
#[derive(Debug, Clone, Copy, Drop, PartialEq, Eq)]
pub enum BytesForm {
    Bytes,
    ByteArray,
    /// Python 2's `str`, which has no `b` before its quote.
    Str,
}

/// What items are those of.
#[derive(Debug, Clone, Copy, Drop, PartialEq, Eq)]
pub enum ItemsForm {
    List,
    Tuple,
    Set,
    FrozenSet,
    /// Its start, its stop and its step, where all are shown.
    Range,
    /// Its start, its stop and its step, where all are shown.
    Slice,
    /// The one object that it holds, `Absent` where it holds none.
    Cell,
    /// Its function and the object that it is bound to, where both are shown.
    Method,
}

/// A value as it is shown. What was left out, or could not be read, says so.
///
/// Values in it are shown by the same rule. One that has more than is shown has the first of it, and how much there is.
#[derive(Drop)]
pub enum Repr {
    /// No object: the address is 0, as that of a cell without a value.
    Absent,
    /// `None`.
    Nothing,
    Ellipsis,
    NotImplemented,
    /// `True` or `False`.
    Truth(bool),
    /// An integer of fewer than 2^3300 either way: its digits of 30 bits, the lowest first, and none for 0.
    Integer {
        form: IntegerForm,
        is_negative: bool,
        digits: Vec<u32>,
    },
    /// Python 2's `int`.
    SmallInteger(i64),
    /// A longer integer: how many digits of 30 bits it has, more than 110, and the highest of them.
    HugeInteger {
        form: IntegerForm,
        is_negative: bool,
        digits: u64,
        highest: u32,
    },
    /// A float, by the bits of its 8 bytes.
    Float {
        bits: u64,
    },
    /// A complex number, by the bits of its two floats.
    Complex {
        real: u64,
        imaginary: u64,
    },
    /// A text: its first characters as code points, surrogates without a partner too, and how many it has in all. Each
    /// is what memory has, so that one may be past the last character of Unicode.
    Text {
        form: TextForm,
        front: Vec<u32>,
        length: u64,
    },
    /// Bytes: the first, and how many there are in all.
    Bytes {
        form: BytesForm,
        front: Vec<u8>,
        length: u64,
    },
    /// A container: its first items, and how many more there are.
    Items {
        form: ItemsForm,
        items: Vec<Repr>,
        left_out: u64,
    },
    /// A dict: the keys of its first entries and their values, as many and in the same order, and how many more entries
    /// there are.
    Pairs {
        keys: Vec<Repr>,
        values: Vec<Repr>,
        left_out: u64,
    },
    /// A class: its name as `tp_name` has it; none where that is no text.
    Class {
        name: Option<Text>,
        addr: u64,
    },
    /// A function: its name, its file, and the line at which its definition begins, counted from 1. A text is none where
    /// it can't be read.
    Function {
        name: Option<Text>,
        file: Option<Text>,
        line: u32,
        addr: u64,
    },
    /// A function of C's.
    Builtin {
        name: Option<Text>,
        addr: u64,
    },
    Module {
        name: Option<Text>,
        addr: u64,
    },
    /// A coroutine, a generator or an async generator: its name, and how far it has come. Each is none where it can't
    /// be read.
    Coroutine {
        form: CoroutineForm,
        name: Option<Text>,
        state: Option<CoroutineState>,
        addr: u64,
    },
    /// An object of another type, by the name of that as `tp_name` has it; none where that is no text.
    Opaque {
        class: Option<Text>,
        addr: u64,
    },
    /// An object of another type with attributes: its class as `Opaque` has it, its address, the names of its first
    /// attributes and their values, as many and in the same order, and how many more attributes it has.
    Instance {
        class: Option<Text>,
        addr: u64,
        names: Vec<Repr>,
        values: Vec<Repr>,
        left_out: u64,
    },
    /// A value of a kind that can't be read: `len` bytes at `addr` are not in memory. An address that was computed outside
    /// 0 to 2^64 - 1 is told as 2^64 - 1.
    Lost {
        kind: Kind,
        addr: u64,
        len: u64,
    },
    /// A value of a kind whose record says what can't be, as a negative length.
    Damaged {
        kind: Kind,
        addr: u64,
    },
}
