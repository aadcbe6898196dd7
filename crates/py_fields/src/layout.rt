//! Layouts: where the fields of an interpreter's records are.
//!
//! A number in a group is an offset in bytes from the record's start, and `size` is how many bytes of
//! the record are read. Which groups and fields are there follows from the families: `Layout` says so
//! at each, and a layout in which it isn't so is not sound.

use crate::version::Version;

/// How the address of the newest interpreter is found.
#[derive(Clone, Copy, Debug, PartialEq, Eq)]
pub enum Head {
    /// A symbol names the word that holds it.
    Symbol,
    /// It stands in the runtime record, at an offset that the version gives.
    Runtime,
    /// It stands in the runtime record, at an offset that the record gives.
    Offsets,
}

/// Where the thread that holds the interpreter lock is named.
#[derive(Clone, Copy, Debug, PartialEq, Eq)]
pub enum Lock {
    /// By a symbol.
    Symbol,
    /// In the runtime record.
    Runtime,
    /// In a record of its own, which the interpreter names.
    Gil,
}

/// How a thread names its newest frame.
#[derive(Clone, Copy, Debug, PartialEq, Eq)]
pub enum Frames {
    /// By a field of its record.
    Direct,
    /// By a C frame that a field of its record names.
    Cframe,
}

/// What `frame.instr` counts.
#[derive(Clone, Copy, Debug, PartialEq, Eq)]
pub enum Lasti {
    /// The offset of the last instruction in bytes.
    Bytes,
    /// The offset in 2-byte code units.
    Units,
    /// The address of the instruction.
    Pointer,
}

/// How a line table is coded.
#[derive(Clone, Copy, Debug, PartialEq, Eq)]
pub enum Lines {
    /// Pairs of an address delta and a line delta, up to 3.9.
    Pairs,
    /// Pairs of a length and a line delta, in 3.10.
    Ranges,
    /// Entries with columns, from 3.11 on.
    Locations,
}

/// How a text is stored.
#[derive(Clone, Copy, Debug, PartialEq, Eq)]
pub enum Strings {
    /// With a state that says how wide its characters are and where they stand.
    State,
    /// As bytes in UTF-8.
    Bytes,
}

/// How the count of a long integer's digits tells its sign.
#[derive(Clone, Copy, Debug, PartialEq, Eq)]
pub enum Integers {
    /// A negative count is that of a negative number.
    Signed,
    /// The lowest bits of the count are a tag.
    Tagged,
}

/// How a dict is stored.
#[derive(Clone, Copy, Debug, PartialEq, Eq)]
pub enum Dicts {
    /// Dicts are not read; `none` in a file.
    Absent,
    /// The number of slots is stated, and an entry has a hash.
    General,
    /// The size of the index and the kind of entry are stated.
    Compact,
}

/// How an object's managed dict is found.
#[derive(Clone, Copy, Debug, PartialEq, Eq)]
pub enum Managed {
    /// There are none; `none` in a file.
    Absent,
    /// Values or a dict stand before the object.
    Split,
    /// One tagged word before the object names either.
    Tagged,
}

/// Where an interpreter's words are.
#[derive(Clone, Copy, Debug)]
pub struct InterpreterAt {
    /// Of the first thread's address.
    pub threads: u32,
    /// Of the address of the dict of modules.
    pub modules: u32,
    /// Of the gil record's address; exactly with the lock `Gil`.
    pub gil: Option<u32>,
}

/// A thread record.
#[derive(Clone, Copy, Debug)]
pub struct ThreadAt {
    pub size: u32,
    /// The next thread's address.
    pub next: u32,
    /// The interpreter's address.
    pub interp: u32,
    /// The thread's id.
    pub id: u32,
    /// The newest frame's address, or the C frame's.
    pub frame: u32,
    /// The id that the system gave.
    pub native_id: Option<u32>,
}

/// A C frame.
#[derive(Clone, Copy, Debug)]
pub struct CframeAt {
    /// The newest frame's address.
    pub current: u32,
}

/// A frame record.
#[derive(Clone, Copy, Debug)]
pub struct FrameAt {
    pub size: u32,
    /// The code record's address, with tag bits.
    pub code: u32,
    /// The address of the frame that called this one.
    pub back: u32,
    /// The last instruction: 8 bytes with `Pointer`, else 4.
    pub instr: u32,
    /// One byte that is not 0 where a C call entered the frame.
    pub entry: Option<u32>,
    /// Where the slots of locals begin.
    pub locals: u32,
    /// How many of the lowest bits of `code` are a tag.
    pub code_tag_bits: u32,
}

/// A code record.
#[derive(Clone, Copy, Debug)]
pub struct CodeAt {
    pub size: u32,
    pub argcount: u32,
    pub nlocals: u32,
    pub first_line: u32,
    pub filename: u32,
    pub name: u32,
    /// The line table's address.
    pub table: u32,
    /// The address of the tuple of variable names.
    pub varnames: u32,
    /// Where the code begins; exactly with `Pointer`.
    pub start: Option<u32>,
}

/// A text. All Options are there exactly with `State`.
#[derive(Clone, Copy, Debug)]
pub struct StringAt {
    pub size: u32,
    /// In characters, or in bytes with `Bytes`.
    pub length: u32,
    pub state: Option<u32>,
    /// The characters' address, where they stand apart.
    pub pointer: Option<u32>,
    /// Where the characters of a compact ASCII text begin.
    pub short_at: u32,
    /// Where those of other compact texts begin.
    pub long_at: Option<u32>,
    /// The lowest of the three bits of `state` that say how wide a character is.
    pub kind_shift: Option<u32>,
    pub compact_bit: Option<u32>,
    pub ascii_bit: Option<u32>,
}

/// A bytes object.
#[derive(Clone, Copy, Debug)]
pub struct BytesAt {
    pub size: u32,
    pub length: u32,
    /// Where its bytes begin.
    pub at: u32,
}

/// A tuple.
#[derive(Clone, Copy, Debug)]
pub struct TupleAt {
    pub size: u32,
    pub count: u32,
    /// Where its items begin.
    pub at: u32,
}

/// A list.
#[derive(Clone, Copy, Debug)]
pub struct ListAt {
    pub size: u32,
    pub count: u32,
    /// The address of its items.
    pub items: u32,
}

/// What every object begins with.
#[derive(Clone, Copy, Debug)]
pub struct ObjectAt {
    pub size: u32,
    /// The address of its type.
    pub klass: u32,
}

/// A type.
#[derive(Clone, Copy, Debug)]
pub struct KlassAt {
    pub size: u32,
    /// The address of its name, ended by a nul.
    pub name: u32,
    pub flags: u32,
    /// Where an object of it has its dict.
    pub dict_offset: u32,
}

/// An integer of any size.
#[derive(Clone, Copy, Debug)]
pub struct LongAt {
    pub size: u32,
    /// How many digits it has, with its sign.
    pub count: u32,
    /// Where its digits begin.
    pub digits: u32,
}

/// A record with one value of 8 bytes.
#[derive(Clone, Copy, Debug)]
pub struct ValueAt {
    pub size: u32,
    pub value: u32,
}

/// A dict.
#[derive(Clone, Copy, Debug)]
pub struct DictAt {
    pub size: u32,
    /// The address of its keys.
    pub keys: u32,
    /// The address of its values, where they stand apart.
    pub values: u32,
}

/// The keys of a dict.
#[derive(Clone, Copy, Debug)]
pub struct KeysAt {
    pub size: u32,
    /// How many slots are used.
    pub used: u32,
    /// How many slots there are; exactly with `General`.
    pub slots: Option<u32>,
    /// The size of the index, as a power of 2 in bytes; exactly with `Compact`.
    pub log2: Option<u32>,
    /// What an entry has; exactly with `Compact`.
    pub kind: Option<u32>,
}

/// A type whose objects have managed dicts.
#[derive(Clone, Copy, Debug)]
pub struct HeapAt {
    pub size: u32,
    /// The address of the keys that its objects share.
    pub cached_keys: u32,
    /// Where an object's values begin.
    pub inline: u32,
}

/// The interpreter lock.
#[derive(Clone, Copy, Debug)]
pub struct GilAt {
    pub size: u32,
    /// Not 0 where it is held.
    pub locked: u32,
    /// The address of the thread that holds it.
    pub holder: u32,
}

/// What a runtime record says of itself.
#[derive(Clone, Copy, Debug)]
pub struct OffsetsAt {
    pub size: u32,
    /// Where the newest interpreter's address stands in the runtime record.
    pub head: u32,
}

/// Where the fields of an interpreter's records are, for the versions that it covers.
#[derive(Clone, Copy, Debug)]
pub struct Layout {
    pub major: u32,
    pub first_minor: u32,
    pub last_minor: u32,
    /// Whether text may also be bytes, as in Python 2.
    pub bytes_text: bool,
    pub head: Head,
    pub lock: Lock,
    pub frames: Frames,
    pub lasti: Lasti,
    pub lines: Lines,
    pub strings: Strings,
    pub integers: Integers,
    pub dicts: Dicts,
    pub managed: Managed,
    pub interpreter: InterpreterAt,
    pub thread: ThreadAt,
    /// Exactly with frames `Cframe`.
    pub cframe: Option<CframeAt>,
    pub frame: FrameAt,
    pub code: CodeAt,
    pub string: StringAt,
    pub bytes: BytesAt,
    pub tuple: TupleAt,
    pub list: ListAt,
    pub object: ObjectAt,
    pub klass: KlassAt,
    pub long: LongAt,
    /// A plain integer of Python 2.
    pub small: ValueAt,
    pub float: ValueAt,
    /// Exactly where dicts are not `Absent`.
    pub dict: Option<DictAt>,
    /// Exactly where dicts are not `Absent`.
    pub keys: Option<KeysAt>,
    /// Exactly where managed is not `Absent`.
    pub heap: Option<HeapAt>,
    /// Exactly with the lock `Gil`.
    pub gil: Option<GilAt>,
    /// Exactly with the head `Offsets`.
    pub offsets: Option<OffsetsAt>,
}

/// The example of a layout.
const SAMPLE: Layout = Layout {
    major: 3,
    first_minor: 9,
    last_minor: 9,
    bytes_text: false,
    head: Head::Runtime,
    lock: Lock::Runtime,
    frames: Frames::Direct,
    lasti: Lasti::Bytes,
    lines: Lines::Pairs,
    strings: Strings::State,
    integers: Integers::Signed,
    dicts: Dicts::General,
    managed: Managed::Absent,
    interpreter: InterpreterAt {
        threads: 8,
        modules: 16,
        gil: None,
    },
    thread: ThreadAt {
        size: 64,
        next: 8,
        interp: 16,
        id: 32,
        frame: 24,
        native_id: None,
    },
    cframe: None,
    frame: FrameAt {
        size: 64,
        code: 16,
        back: 24,
        instr: 32,
        entry: None,
        locals: 56,
        code_tag_bits: 0,
    },
    code: CodeAt {
        size: 64,
        argcount: 16,
        nlocals: 20,
        first_line: 24,
        filename: 32,
        name: 40,
        table: 48,
        varnames: 56,
        start: None,
    },
    string: StringAt {
        size: 72,
        length: 16,
        state: Some(32),
        pointer: Some(64),
        short_at: 48,
        long_at: Some(72),
        kind_shift: Some(2),
        compact_bit: Some(5),
        ascii_bit: Some(6),
    },
    bytes: BytesAt {
        size: 32,
        length: 16,
        at: 32,
    },
    tuple: TupleAt {
        size: 24,
        count: 16,
        at: 24,
    },
    list: ListAt {
        size: 40,
        count: 16,
        items: 24,
    },
    object: ObjectAt { size: 16, klass: 8 },
    klass: KlassAt {
        size: 48,
        name: 24,
        flags: 32,
        dict_offset: 40,
    },
    long: LongAt {
        size: 32,
        count: 16,
        digits: 24,
    },
    small: ValueAt {
        size: 24,
        value: 16,
    },
    float: ValueAt {
        size: 24,
        value: 16,
    },
    dict: Some(DictAt {
        size: 48,
        keys: 32,
        values: 40,
    }),
    keys: Some(KeysAt {
        size: 40,
        used: 32,
        slots: Some(8),
        log2: None,
        kind: None,
    }),
    heap: None,
    gil: None,
    offsets: None,
};

impl Layout {
    ghost use Rattle.std.specs.Prelude.{◌≡◌, ◌↔◌, IsTrue};
    ghost use Rattle.py_fields.specs.Samples.{sample_layout};
    ghost use Rattle.py_fields.specs.Sound.{Covers, IsSound};

    /// A sound layout for 3.9, as an example and for tests: it has the families of CPython 3.9, and
    /// shorter records, so it is not that of any build.
    pub fn sample() -> Layout
        ensures value { result ≡ sample_layout }
        ensures sound { IsSound result }
    {
        SAMPLE
    }

    /// Whether the layout covers a version: by its major and minor alone.
    pub fn covers(&self, version: &Version) -> bool
        ensures { IsTrue result ↔ Covers self.now version.now }
    {
        version.major == u64::from(self.major)
            && u64::from(self.first_minor) <= version.minor
            && version.minor <= u64::from(self.last_minor)
    }
}
