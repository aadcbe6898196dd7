//! The keys of a layout in a file, in the order in which they are looked at.
ghost use Rattle.std.specs.Prelude.{◌≡◌, map, Option, Some, None};
ghost use Rattle.py_layout.specs.Keys.{key_of, the_keys};

/// A family: a key whose value is one of a few words.
#[derive(Clone, Copy)]
pub enum Family {
    Head,
    Lock,
    Frames,
    Lasti,
    Lines,
    Strings,
    Integers,
    Dicts,
    Managed,
}

/// What a key holds.
#[derive(Clone, Copy)]
pub enum Kind {
    /// A number of a version: an integer of 0 to 999.
    Version,
    /// A boolean.
    Truth,
    /// One of the words of a family.
    Word(Family),
    /// An offset, a size or a bit: an integer of 0 to 2^32 - 1.
    Number,
    /// A group, with keys of its own.
    Group,
}

/// When a key is there.
#[derive(Clone, Copy)]
pub enum Presence {
    Always,
    /// As the author likes.
    Free,
    /// Exactly with the head `offsets`.
    WithOffsets,
    /// Exactly with the lock `gil`.
    WithGil,
    /// Exactly with the frames `cframe`.
    WithCframe,
    /// Exactly with lasti `pointer`.
    WithPointer,
    /// Exactly with strings `state`.
    WithState,
    /// Exactly with dicts that are not `none`.
    WithDicts,
    /// Exactly with the dicts `general`.
    WithGeneral,
    /// Exactly with the dicts `compact`.
    WithCompact,
    /// Exactly with managed that is not `none`.
    WithManaged,
}

use Kind::{Group, Number, Truth, Version, Word};
use Presence::{
    Always, Free, WithCframe, WithCompact, WithDicts, WithGeneral, WithGil, WithManaged,
    WithOffsets, WithPointer, WithState,
};

/// A key of a layout.
#[derive(Clone, Copy)]
pub struct Key {
    /// The group that it stands in, or `None` for the layout's own table.
    pub group: Option<&'static str>,
    pub name: &'static str,
    pub kind: Kind,
    pub presence: Presence,
}

/// A list of keys: in each line the group, the name, what it holds, and when it is there.
macro_rules! keys {
    ($($group:expr, $name:expr, $kind:expr, $presence:expr;)*) => {
        [$(Key { group: $group, name: $name, kind: $kind, presence: $presence }),*]
    };
}

/// All keys, in the order in which they are looked at.
static KEYS: [Key; 105] = keys! {
    None, "major", Version, Always;
    None, "first_minor", Version, Always;
    None, "last_minor", Version, Always;
    None, "bytes_text", Truth, Always;
    None, "head", Word(Family::Head), Always;
    None, "lock", Word(Family::Lock), Always;
    None, "frames", Word(Family::Frames), Always;
    None, "lasti", Word(Family::Lasti), Always;
    None, "lines", Word(Family::Lines), Always;
    None, "strings", Word(Family::Strings), Always;
    None, "integers", Word(Family::Integers), Always;
    None, "dicts", Word(Family::Dicts), Always;
    None, "managed", Word(Family::Managed), Always;
    None, "interpreter", Group, Always;
    Some("interpreter"), "threads", Number, Always;
    Some("interpreter"), "modules", Number, Always;
    Some("interpreter"), "gil", Number, WithGil;
    None, "thread", Group, Always;
    Some("thread"), "size", Number, Always;
    Some("thread"), "next", Number, Always;
    Some("thread"), "interp", Number, Always;
    Some("thread"), "id", Number, Always;
    Some("thread"), "frame", Number, Always;
    Some("thread"), "native_id", Number, Free;
    None, "cframe", Group, WithCframe;
    Some("cframe"), "current", Number, WithCframe;
    None, "frame", Group, Always;
    Some("frame"), "size", Number, Always;
    Some("frame"), "code", Number, Always;
    Some("frame"), "back", Number, Always;
    Some("frame"), "instr", Number, Always;
    Some("frame"), "entry", Number, Free;
    Some("frame"), "locals", Number, Always;
    Some("frame"), "code_tag_bits", Number, Always;
    None, "code", Group, Always;
    Some("code"), "size", Number, Always;
    Some("code"), "argcount", Number, Always;
    Some("code"), "nlocals", Number, Always;
    Some("code"), "first_line", Number, Always;
    Some("code"), "filename", Number, Always;
    Some("code"), "name", Number, Always;
    Some("code"), "table", Number, Always;
    Some("code"), "varnames", Number, Always;
    Some("code"), "start", Number, WithPointer;
    None, "string", Group, Always;
    Some("string"), "size", Number, Always;
    Some("string"), "length", Number, Always;
    Some("string"), "state", Number, WithState;
    Some("string"), "pointer", Number, WithState;
    Some("string"), "short_at", Number, Always;
    Some("string"), "long_at", Number, WithState;
    Some("string"), "kind_shift", Number, WithState;
    Some("string"), "compact_bit", Number, WithState;
    Some("string"), "ascii_bit", Number, WithState;
    None, "bytes", Group, Always;
    Some("bytes"), "size", Number, Always;
    Some("bytes"), "length", Number, Always;
    Some("bytes"), "at", Number, Always;
    None, "tuple", Group, Always;
    Some("tuple"), "size", Number, Always;
    Some("tuple"), "count", Number, Always;
    Some("tuple"), "at", Number, Always;
    None, "list", Group, Always;
    Some("list"), "size", Number, Always;
    Some("list"), "count", Number, Always;
    Some("list"), "items", Number, Always;
    None, "object", Group, Always;
    Some("object"), "size", Number, Always;
    Some("object"), "klass", Number, Always;
    None, "klass", Group, Always;
    Some("klass"), "size", Number, Always;
    Some("klass"), "name", Number, Always;
    Some("klass"), "flags", Number, Always;
    Some("klass"), "dict_offset", Number, Always;
    None, "long", Group, Always;
    Some("long"), "size", Number, Always;
    Some("long"), "count", Number, Always;
    Some("long"), "digits", Number, Always;
    None, "small", Group, Always;
    Some("small"), "size", Number, Always;
    Some("small"), "value", Number, Always;
    None, "float", Group, Always;
    Some("float"), "size", Number, Always;
    Some("float"), "value", Number, Always;
    None, "dict", Group, WithDicts;
    Some("dict"), "size", Number, WithDicts;
    Some("dict"), "keys", Number, WithDicts;
    Some("dict"), "values", Number, WithDicts;
    None, "keys", Group, WithDicts;
    Some("keys"), "size", Number, WithDicts;
    Some("keys"), "used", Number, WithDicts;
    Some("keys"), "slots", Number, WithGeneral;
    Some("keys"), "log2", Number, WithCompact;
    Some("keys"), "kind", Number, WithCompact;
    None, "heap", Group, WithManaged;
    Some("heap"), "size", Number, WithManaged;
    Some("heap"), "cached_keys", Number, WithManaged;
    Some("heap"), "inline", Number, WithManaged;
    None, "gil", Group, WithGil;
    Some("gil"), "size", Number, WithGil;
    Some("gil"), "locked", Number, WithGil;
    Some("gil"), "holder", Number, WithGil;
    None, "offsets", Group, WithOffsets;
    Some("offsets"), "size", Number, WithOffsets;
    Some("offsets"), "head", Number, WithOffsets;
};

/// All keys, in the order in which they are looked at.
#[tactic(auto, unfolding(crate::specs::Keys::the_keys))]
pub fn keys() -> &'static [Key]
    ensures { map key_of result.now ≡ the_keys }
{
    &KEYS
}
