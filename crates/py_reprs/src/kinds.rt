//! What kinds of values there are, and how they are told.
ghost use Rattle.std.specs.Prelude.{◌≡◌, ◌<◌};
ghost use Rattle.py_builtins.specs.Texts.{bit_is_set};
ghost use Rattle.py_reprs.specs.Kinds.{called_kind, flagged_kind, held_kind, holding_kind, is_at, is_python_2, kind_of};
ghost use Rattle.py_reprs.specs.Kinds.{paused_kind, python_2_kind, python_3_kind, single_kind};

use crate::attributes::InstanceRule;
use crate::coroutines::{CoroutineForm, CoroutineRule};
use py_builtins::ObjectType;
use py_fields::Layout;

/// The kind of a value.
#[derive(Debug, Clone, Copy, Drop, PartialEq, Eq)]
pub enum Kind {
    /// `None`.
    Nothing,
    Ellipsis,
    NotImplemented,
    /// `True` or `False`.
    Truth,
    /// An integer of any size; Python 2's `long`.
    Integer,
    /// Python 2's `int`, of 8 bytes.
    SmallInteger,
    Float,
    Complex,
    /// A text: `str`, and Python 2's `unicode`.
    Text,
    /// `bytes`, and Python 2's `str`.
    Bytes,
    ByteArray,
    List,
    Tuple,
    Dict,
    Set,
    FrozenSet,
    Range,
    Slice,
    /// A cell, in which a function's variable is held that another function has too.
    Cell,
    Class,
    Function,
    /// A method that is bound to an object.
    Method,
    Builtin,
    Module,
    /// A coroutine, a generator or an async generator.
    Coroutine(CoroutineForm),
    /// An object of another type, and one whose type is not known.
    Other,
}

/// By what values are told: the addresses of the types whose flags say nothing, and how instances have their attributes.
/// A type is none where it is not known, and its values are told then as objects of another type. `bool` is told by its
/// address too: by its flags it is an integer.
#[derive(Debug, Clone, Copy, Drop, PartialEq, Eq)]
pub struct ReprTypes {
    /// `NoneType`.
    pub nothing: Option<u64>,
    pub ellipsis: Option<u64>,
    /// `NotImplementedType`.
    pub not_implemented: Option<u64>,
    /// `bool`.
    pub truth: Option<u64>,
    pub float: Option<u64>,
    pub complex: Option<u64>,
    pub bytearray: Option<u64>,
    pub set: Option<u64>,
    pub frozenset: Option<u64>,
    pub range: Option<u64>,
    pub slice: Option<u64>,
    pub cell: Option<u64>,
    /// Functions, those of C's and modules are told as objects of another type so far.
    pub function: Option<u64>,
    pub method: Option<u64>,
    /// `builtin_function_or_method`.
    pub builtin: Option<u64>,
    pub module: Option<u64>,
    pub coroutine: Option<u64>,
    pub generator: Option<u64>,
    pub async_generator: Option<u64>,
    /// By what the attributes of objects of another type are found; none where they are not shown.
    pub instances: Option<InstanceRule>,
    /// By what the names and the states of coroutines are read; none where they are not shown.
    pub coroutines: Option<CoroutineRule>,
}

/// Whether a layout is that of a Python 2.
pub(crate) fn is_python_2(layout: &Layout) -> bool
    ensures { result ≡ is_python_2 layout.now }
{
    layout.major == 2
}

/// Whether a type that is known stands at this address.
fn is_at(known: Option<u64>, at: u64) -> bool
    ensures { result ≡ is_at known at }
{
    match known {
        Some(known) => known == at,
        None => false,
    }
}

fn has_bit(flags: u64, bit: u32) -> bool
    requires { bit < 64 }
    ensures { result ≡ bit_is_set flags bit }
{
    flags >> bit & 1 == 1
}

/// The kind that the flags of a type say.
#[tactic(auto, unfolding(crate::specs::Kinds::python_3_kind))]
fn python_3_kind(flags: u64) -> Kind
    ensures { result ≡ python_3_kind flags }
{
    if has_bit(flags, 31) {
        Kind::Class
    } else if has_bit(flags, 24) {
        Kind::Integer
    } else if has_bit(flags, 28) {
        Kind::Text
    } else if has_bit(flags, 27) {
        Kind::Bytes
    } else if has_bit(flags, 25) {
        Kind::List
    } else if has_bit(flags, 26) {
        Kind::Tuple
    } else if has_bit(flags, 29) {
        Kind::Dict
    } else {
        Kind::Other
    }
}

/// The same of Python 2's, whose `unicode` and `dict` have other records than are read here.
#[tactic(auto, unfolding(crate::specs::Kinds::python_2_kind))]
fn python_2_kind(flags: u64) -> Kind
    ensures { result ≡ python_2_kind flags }
{
    if has_bit(flags, 31) {
        Kind::Class
    } else if has_bit(flags, 23) {
        Kind::SmallInteger
    } else if has_bit(flags, 24) {
        Kind::Integer
    } else if has_bit(flags, 27) {
        Kind::Bytes
    } else if has_bit(flags, 25) {
        Kind::List
    } else if has_bit(flags, 26) {
        Kind::Tuple
    } else {
        Kind::Other
    }
}

fn flagged_kind(is_python_2: bool, flags: u64) -> Kind
    ensures { result ≡ flagged_kind is_python_2 flags }
{
    if is_python_2 {
        python_2_kind(flags)
    } else {
        python_3_kind(flags)
    }
}

/// The kind of objects of the type at an address, among those that can be called or imported; else another one.
#[tactic(auto, unfolding(crate::specs::Kinds::called_kind))]
fn called_kind(types: &ReprTypes, at: u64, other: Kind) -> Kind
    ensures { result ≡ called_kind types.now at other }
{
    if is_at(types.function, at) {
        Kind::Function
    } else if is_at(types.method, at) {
        Kind::Method
    } else if is_at(types.builtin, at) {
        Kind::Builtin
    } else if is_at(types.module, at) {
        Kind::Module
    } else {
        other
    }
}

/// The same among those whose functions stop and go on.
#[tactic(auto, unfolding(crate::specs::Kinds::paused_kind))]
fn paused_kind(types: &ReprTypes, at: u64, other: Kind) -> Kind
    ensures { result ≡ paused_kind types.now at other }
{
    if is_at(types.coroutine, at) {
        Kind::Coroutine(CoroutineForm::Coroutine)
    } else if is_at(types.generator, at) {
        Kind::Coroutine(CoroutineForm::Generator)
    } else if is_at(types.async_generator, at) {
        Kind::Coroutine(CoroutineForm::AsyncGenerator)
    } else {
        other
    }
}

/// The same among those that hold others or bytes.
#[tactic(auto, unfolding(crate::specs::Kinds::holding_kind))]
fn holding_kind(types: &ReprTypes, at: u64, other: Kind) -> Kind
    ensures { result ≡ holding_kind types.now at other }
{
    if is_at(types.bytearray, at) {
        Kind::ByteArray
    } else if is_at(types.set, at) {
        Kind::Set
    } else if is_at(types.frozenset, at) {
        Kind::FrozenSet
    } else if is_at(types.range, at) {
        Kind::Range
    } else if is_at(types.slice, at) {
        Kind::Slice
    } else if is_at(types.cell, at) {
        Kind::Cell
    } else {
        other
    }
}

/// The same, but for Python 2, whose sets, ranges and their likes have other records than are read here.
fn held_kind(is_python_2: bool, types: &ReprTypes, at: u64, other: Kind) -> Kind
    ensures { result ≡ held_kind is_python_2 types.now at other }
{
    if is_python_2 {
        return other;
    }
    holding_kind(types, at, other)
}

/// The same among those of one value, and numbers.
#[tactic(auto, unfolding(crate::specs::Kinds::single_kind))]
fn single_kind(types: &ReprTypes, at: u64, other: Kind) -> Kind
    ensures { result ≡ single_kind types.now at other }
{
    if is_at(types.nothing, at) {
        Kind::Nothing
    } else if is_at(types.ellipsis, at) {
        Kind::Ellipsis
    } else if is_at(types.not_implemented, at) {
        Kind::NotImplemented
    } else if is_at(types.truth, at) {
        Kind::Truth
    } else if is_at(types.float, at) {
        Kind::Float
    } else if is_at(types.complex, at) {
        Kind::Complex
    } else {
        other
    }
}

/// The kind of the objects of a type: by its address, else by its flags, else it is another type.
#[tactic(auto, unfolding(crate::specs::Kinds::kind_of))]
pub(crate) fn kind_of(layout: &Layout, types: &ReprTypes, class: &ObjectType) -> Kind
    ensures { result ≡ kind_of layout.now types.now class.now }
{
    let flagged = flagged_kind(is_python_2(layout), class.flags);
    let called = called_kind(types, class.at, flagged);
    let paused = paused_kind(types, class.at, called);
    let holding = held_kind(is_python_2(layout), types, class.at, paused);
    single_kind(types, class.at, holding)
}
