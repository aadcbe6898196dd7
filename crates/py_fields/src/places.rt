//! The places of each record's fields: one list for each record.
ghost use Rattle.std.specs.Prelude.{◌≡◌};
ghost use Rattle.py_fields.specs.Places.{optional_place, instr_width, interpreter_places, thread_places, frame_places};
ghost use Rattle.py_fields.specs.Places.{code_places, string_head, string_places, state_bits, bytes_places};
ghost use Rattle.py_fields.specs.Places.{tuple_places, list_places, object_places, klass_places, long_places};
ghost use Rattle.py_fields.specs.Places.{value_places, dict_places, keys_places, heap_places, gil_places};
ghost use Rattle.py_fields.specs.Places.{offsets_places};

use crate::layout::{
    BytesAt, CodeAt, DictAt, FrameAt, GilAt, HeapAt, InterpreterAt, KeysAt, KlassAt, Lasti, ListAt,
    LongAt, ObjectAt, OffsetsAt, StringAt, ThreadAt, TupleAt, ValueAt,
};

/// A place in a record: an offset, and how wide it is.
pub type Place = (u32, u32);

/// The place of a field that may not be there, which is then empty.
fn optional_place(at: Option<u32>, width: u32) -> Place
    ensures { result ≡ optional_place at width }
{
    match at {
        Some(at) => (at, width),
        None => (0, 0),
    }
}

/// How wide the last instruction is: an address is, where it is one.
fn instr_width(lasti: Lasti) -> u32
    ensures { result ≡ instr_width lasti }
{
    match lasti {
        Lasti::Bytes | Lasti::Units => 4,
        Lasti::Pointer => 8,
    }
}

#[tactic(auto, unfolding(crate::specs::Places::interpreter_places))]
pub fn interpreter_places(at: &InterpreterAt) -> [Place; 3]
    ensures { result ≡ interpreter_places at.now }
{
    [(at.threads, 8), (at.modules, 8), optional_place(at.gil, 8)]
}

#[tactic(auto, unfolding(crate::specs::Places::thread_places))]
pub fn thread_places(at: &ThreadAt) -> [Place; 5]
    ensures { result ≡ thread_places at.now }
{
    [
        (at.next, 8),
        (at.interp, 8),
        (at.id, 8),
        (at.frame, 8),
        optional_place(at.native_id, 8),
    ]
}

#[tactic(auto, unfolding(crate::specs::Places::frame_places))]
pub fn frame_places(lasti: Lasti, at: &FrameAt) -> [Place; 4]
    ensures { result ≡ frame_places lasti at.now }
{
    [
        (at.code, 8),
        (at.back, 8),
        (at.instr, instr_width(lasti)),
        optional_place(at.entry, 1),
    ]
}

#[tactic(auto, unfolding(crate::specs::Places::code_places))]
pub fn code_places(at: &CodeAt) -> [Place; 7]
    ensures { result ≡ code_places at.now }
{
    [
        (at.argcount, 4),
        (at.nlocals, 4),
        (at.first_line, 4),
        (at.filename, 8),
        (at.name, 8),
        (at.table, 8),
        (at.varnames, 8),
    ]
}

/// The fields that the characters of a text stand behind.
#[tactic(auto, unfolding(crate::specs::Places::string_head))]
pub fn string_head(at: &StringAt) -> [Place; 2]
    ensures { result ≡ string_head at.now }
{
    [(at.length, 8), optional_place(at.state, 4)]
}

#[tactic(auto, unfolding(crate::specs::Places::string_places))]
pub fn string_places(at: &StringAt) -> [Place; 3]
    ensures { result ≡ string_places at.now }
{
    [
        (at.length, 8),
        optional_place(at.state, 4),
        optional_place(at.pointer, 8),
    ]
}

/// The bits of the state: three that say how wide a character is, and two of one bit.
#[tactic(auto, unfolding(crate::specs::Places::state_bits))]
pub fn state_bits(at: &StringAt) -> [Place; 3]
    ensures { result ≡ state_bits at.now }
{
    [
        optional_place(at.kind_shift, 3),
        optional_place(at.compact_bit, 1),
        optional_place(at.ascii_bit, 1),
    ]
}

#[tactic(auto, unfolding(crate::specs::Places::bytes_places))]
pub fn bytes_places(at: &BytesAt) -> [Place; 1]
    ensures { result ≡ bytes_places at.now }
{
    [(at.length, 8)]
}

#[tactic(auto, unfolding(crate::specs::Places::tuple_places))]
pub fn tuple_places(at: &TupleAt) -> [Place; 1]
    ensures { result ≡ tuple_places at.now }
{
    [(at.count, 8)]
}

#[tactic(auto, unfolding(crate::specs::Places::list_places))]
pub fn list_places(at: &ListAt) -> [Place; 2]
    ensures { result ≡ list_places at.now }
{
    [(at.count, 8), (at.items, 8)]
}

#[tactic(auto, unfolding(crate::specs::Places::object_places))]
pub fn object_places(at: &ObjectAt) -> [Place; 1]
    ensures { result ≡ object_places at.now }
{
    [(at.klass, 8)]
}

#[tactic(auto, unfolding(crate::specs::Places::klass_places))]
pub fn klass_places(at: &KlassAt) -> [Place; 3]
    ensures { result ≡ klass_places at.now }
{
    [(at.name, 8), (at.flags, 8), (at.dict_offset, 8)]
}

#[tactic(auto, unfolding(crate::specs::Places::long_places))]
pub fn long_places(at: &LongAt) -> [Place; 2]
    ensures { result ≡ long_places at.now }
{
    [(at.count, 8), (at.digits, 4)]
}

#[tactic(auto, unfolding(crate::specs::Places::value_places))]
pub fn value_places(at: &ValueAt) -> [Place; 1]
    ensures { result ≡ value_places at.now }
{
    [(at.value, 8)]
}

#[tactic(auto, unfolding(crate::specs::Places::dict_places))]
pub fn dict_places(at: &DictAt) -> [Place; 2]
    ensures { result ≡ dict_places at.now }
{
    [(at.keys, 8), (at.values, 8)]
}

#[tactic(auto, unfolding(crate::specs::Places::keys_places))]
pub fn keys_places(at: &KeysAt) -> [Place; 4]
    ensures { result ≡ keys_places at.now }
{
    [
        (at.used, 8),
        optional_place(at.slots, 8),
        optional_place(at.log2, 1),
        optional_place(at.kind, 1),
    ]
}

#[tactic(auto, unfolding(crate::specs::Places::heap_places))]
pub fn heap_places(at: &HeapAt) -> [Place; 1]
    ensures { result ≡ heap_places at.now }
{
    [(at.cached_keys, 8)]
}

#[tactic(auto, unfolding(crate::specs::Places::gil_places))]
pub fn gil_places(at: &GilAt) -> [Place; 2]
    ensures { result ≡ gil_places at.now }
{
    [(at.locked, 4), (at.holder, 8)]
}

#[tactic(auto, unfolding(crate::specs::Places::offsets_places))]
pub fn offsets_places(at: &OffsetsAt) -> [Place; 1]
    ensures { result ≡ offsets_places at.now }
{
    [(at.head, 8)]
}
