//! Which case of shown values a type is.
ghost use Rattle.std.specs.Prelude.{◌≡◌, ◌<◌};
ghost use Rattle.py_builtins.specs.Texts.{bit_is_set};
ghost use Rattle.py_objects.specs.Kinds.{kind_named, kind_of, scalar_named, scalar_width};

/// One of numpy's numbers.
#[derive(Clone, Copy)]
pub enum Scalar {
    Truth,
    U8,
    U16,
    U32,
    U64,
    I8,
    I16,
    I32,
    I64,
    F32,
    F64,
}

impl Scalar {
    /// How many bytes it has.
    pub fn width(self) -> u64
        ensures { result ≡ scalar_width self }
    {
        match self {
            Scalar::Truth | Scalar::U8 | Scalar::I8 => 1,
            Scalar::U16 | Scalar::I16 => 2,
            Scalar::U32 | Scalar::I32 | Scalar::F32 => 4,
            Scalar::U64 | Scalar::I64 | Scalar::F64 => 8,
        }
    }
}

/// The case of a value.
#[derive(Clone, Copy)]
pub enum Kind {
    /// An integer of 8 bytes, as Python 2 has.
    Small,
    /// An integer of any size.
    Long,
    Text,
    Dict,
    List,
    Tuple,
    Float,
    /// The one value of `NoneType`.
    Nothing,
    /// One of numpy's numbers.
    Number(Scalar),
    /// It is shown by the name of its type.
    Other,
}

/// The case of a type by its flags and its name: the first that holds. Bytes are a text where the layout says
/// so.
#[tactic(auto, unfolding(crate::specs::Kinds::kind_of))]
pub fn kind_of(bytes_text: bool, flags: u64, name: &str) -> Kind
    ensures { result ≡ kind_of bytes_text flags name.now }
{
    if has_bit(flags, 23) {
        Kind::Small
    } else if has_bit(flags, 24) {
        Kind::Long
    } else if has_bit(flags, 28) || bytes_text && has_bit(flags, 27) {
        Kind::Text
    } else if has_bit(flags, 29) {
        Kind::Dict
    } else if has_bit(flags, 25) {
        Kind::List
    } else if has_bit(flags, 26) {
        Kind::Tuple
    } else {
        kind_named(name)
    }
}

fn has_bit(flags: u64, bit: u32) -> bool
    requires { bit < 64 }
    ensures { result ≡ bit_is_set flags bit }
{
    flags >> bit & 1 == 1
}

/// The case of a type whose flags say none.
#[tactic(auto, unfolding(crate::specs::Kinds::kind_named))]
fn kind_named(name: &str) -> Kind
    ensures { result ≡ kind_named name.now }
{
    if name == "float" {
        return Kind::Float;
    }
    if name == "NoneType" {
        return Kind::Nothing;
    }
    match scalar_named(name) {
        Some(scalar) => Kind::Number(scalar),
        None => Kind::Other,
    }
}

/// Which of numpy's numbers a type is.
#[tactic(auto, unfolding(crate::specs::Kinds::scalar_named))]
fn scalar_named(name: &str) -> Option<Scalar>
    ensures { result ≡ scalar_named name.now }
{
    if name == "numpy.bool" {
        Some(Scalar::Truth)
    } else if name == "numpy.uint8" {
        Some(Scalar::U8)
    } else if name == "numpy.uint16" {
        Some(Scalar::U16)
    } else if name == "numpy.uint32" {
        Some(Scalar::U32)
    } else if name == "numpy.uint64" {
        Some(Scalar::U64)
    } else if name == "numpy.int8" {
        Some(Scalar::I8)
    } else if name == "numpy.int16" {
        Some(Scalar::I16)
    } else if name == "numpy.int32" {
        Some(Scalar::I32)
    } else if name == "numpy.int64" {
        Some(Scalar::I64)
    } else if name == "numpy.float32" {
        Some(Scalar::F32)
    } else if name == "numpy.float64" {
        Some(Scalar::F64)
    } else {
        None
    }
}
