//! Which objects have children.
ghost use Rattle.std.specs.Prelude.{◌≡◌, ◌<◌};
ghost use Rattle.py_builtins.specs.Texts.{bit_is_set};
ghost use Rattle.object_reach.specs.Contents.{contents_of};

use py_builtins::Sequence;

/// CPython's flags of types by what their objects are, as numbers of bits; the first is Python 2's.
const SMALL_BIT: u32 = 23;

const LONG_BIT: u32 = 24;

const LIST_BIT: u32 = 25;

const TUPLE_BIT: u32 = 26;

const BYTES_BIT: u32 = 27;

const TEXT_BIT: u32 = 28;

const DICT_BIT: u32 = 29;

/// What the objects of a type hold that has addresses of others.
#[derive(Clone, Copy)]
pub enum Contents {
    /// None that is looked for.
    Nothing,
    /// The slots of a dict.
    Slots,
    /// The items of a list or a tuple.
    Items(Sequence),
}

/// What the objects of a type hold, by its flags. Bytes are a text where the layout says so.
#[tactic(auto, unfolding(crate::specs::Contents::contents_of))]
pub fn contents_of(bytes_text: bool, flags: u64) -> Contents
    ensures { result ≡ contents_of bytes_text flags }
{
    if has_bit(flags, SMALL_BIT) || has_bit(flags, LONG_BIT) || has_bit(flags, TEXT_BIT) {
        Contents::Nothing
    } else if bytes_text && has_bit(flags, BYTES_BIT) {
        Contents::Nothing
    } else if has_bit(flags, DICT_BIT) {
        Contents::Slots
    } else if has_bit(flags, LIST_BIT) {
        Contents::Items(Sequence::List)
    } else if has_bit(flags, TUPLE_BIT) {
        Contents::Items(Sequence::Tuple)
    } else {
        Contents::Nothing
    }
}

fn has_bit(flags: u64, bit: u32) -> bool
    requires { bit < 64 }
    ensures { result ≡ bit_is_set flags bit }
{
    flags >> bit & 1 == 1
}
