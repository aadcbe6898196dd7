//! Whether a layout is sound: a test for each of its groups, over the list of its places.
ghost use Rattle.std.specs.Prelude.{◌≡◌, ◌≢◌, ℕ, ◌+◌, ◌<◌, ◌≤◌, ◌^◌, ◌↔◌, IsTrue, IsSome, IfSome};
ghost use Rattle.py_fields.specs.Places.{Apart, ApartFrom, AreApart, EndBy, IsGroup};
ghost use Rattle.py_fields.specs.Sound.{IsPlain, IsRecord, IsStart, IsSoundInterpreter, IsSoundFrame, IsSoundCode};
ghost use Rattle.py_fields.specs.Sound.{HasState, IsSoundString, IsSoundSequence, IsSoundLong, IsSoundKeys};
ghost use Rattle.py_fields.specs.Sound.{IsSoundHeap, HasGroups, IsVersionRange, AreSoundGroups, AreSoundObjects};
ghost use Rattle.py_fields.specs.Sound.{IsSound};

use crate::layout::{
    CodeAt, Dicts, FrameAt, Frames, Head, HeapAt, InterpreterAt, KeysAt, Lasti, Layout, Lock,
    LongAt, Managed, StringAt, Strings,
};
use crate::places::{
    Place, bytes_places, code_places, dict_places, frame_places, gil_places, heap_places,
    interpreter_places, keys_places, klass_places, list_places, long_places, object_places,
    offsets_places, state_bits, string_head, string_places, thread_places, tuple_places,
    value_places,
};

/// Plain numbers, which no record's size bounds, are below this.
const PLAIN_LIMIT: u32 = 1 << 20;

/// Where a place ends.
fn end_of(place: Place) -> u64
    ensures { result ≡ place.0 + place.1 }
{
    u64::from(place.0) + u64::from(place.1)
}

/// Whether two places do not meet.
fn is_apart(one: Place, other: Place) -> bool
    ensures { IsTrue result ↔ Apart one other }
{
    end_of(one) <= u64::from(other.0) || end_of(other) <= u64::from(one.0)
}

/// Whether a place meets none of the others.
fn is_apart_from(place: Place, places: &[Place]) -> bool
    ensures { IsTrue result ↔ ApartFrom place places.now }
{
    places.iter().all(|other| is_apart(place, *other))
}

/// Whether no two of the places meet.
fn are_apart(places: &[Place]) -> bool
    ensures { IsTrue result ↔ AreApart places.now }
{
    for (i, place) in places.iter().enumerate() {
        if !is_apart_from(*place, &places[i + 1..]) {
            return false;
        }
    }
    true
}

/// Whether each place ends at `end` or before.
fn end_by(end: u32, places: &[Place]) -> bool
    ensures { IsTrue result ↔ EndBy end places.now }
{
    places.iter().all(|place| end_of(*place) <= u64::from(end))
}

/// Whether the places lie inside `size`, and no two of them meet.
fn is_group(size: u32, places: &[Place]) -> bool
    ensures { IsTrue result ↔ IsGroup size places.now }
{
    end_by(size, places) && are_apart(places)
}

/// Whether a record has 1 to 65535 bytes, with its fields inside it, no two of which meet.
fn is_record(size: u32, places: &[Place]) -> bool
    ensures { IsTrue result ↔ IsRecord size places.now }
{
    0 < size && size < 1 << 16 && is_group(size, places)
}

fn is_plain(number: u32) -> bool
    ensures { IsTrue result ↔ IsPlain number }
{
    number < PLAIN_LIMIT
}

fn is_plain_if_there(number: Option<u32>) -> bool
    ensures { IsTrue result ↔ IfSome number IsPlain }
{
    match number {
        Some(number) => is_plain(number),
        None => true,
    }
}

/// Whether what follows the fields may begin here: behind each of them.
fn is_start(start: u32, places: &[Place]) -> bool
    ensures { IsTrue result ↔ IsStart places.now start }
{
    is_plain(start) && end_by(start, places)
}

fn is_start_if_there(start: Option<u32>, places: &[Place]) -> bool
    ensures { IsTrue result ↔ IfSome start (IsStart places.now) }
{
    match start {
        Some(start) => is_start(start, places),
        None => true,
    }
}

fn is_sound_interpreter(lock: Lock, at: &InterpreterAt) -> bool
    ensures { IsTrue result ↔ IsSoundInterpreter lock at.now }
{
    is_plain(at.threads)
        && is_plain(at.modules)
        && is_plain_if_there(at.gil)
        && at.gil.is_some() == (lock == Lock::Gil)
        && are_apart(&interpreter_places(at))
}

fn is_sound_frame(lasti: Lasti, at: &FrameAt) -> bool
    ensures { IsTrue result ↔ IsSoundFrame lasti at.now }
{
    let places = frame_places(lasti, at);
    is_record(at.size, &places) && is_start(at.locals, &places) && at.code_tag_bits <= 3
}

fn is_sound_code(lasti: Lasti, at: &CodeAt) -> bool
    ensures { IsTrue result ↔ IsSoundCode lasti at.now }
{
    is_record(at.size, &code_places(at))
        && is_plain_if_there(at.start)
        && at.start.is_some() == (lasti == Lasti::Pointer)
}

/// Whether the fields that go with a state are there exactly with one.
fn has_state(strings: Strings, at: &StringAt) -> bool
    ensures { IsTrue result ↔ HasState strings at.now }
{
    let has_state = strings == Strings::State;
    at.state.is_some() == has_state
        && at.pointer.is_some() == has_state
        && at.long_at.is_some() == has_state
        && at.kind_shift.is_some() == has_state
        && at.compact_bit.is_some() == has_state
        && at.ascii_bit.is_some() == has_state
}

fn is_sound_string(strings: Strings, at: &StringAt) -> bool
    ensures { IsTrue result ↔ IsSoundString strings at.now }
{
    let head = string_head(at);
    has_state(strings, at)
        && is_record(at.size, &string_places(at))
        && is_start(at.short_at, &head)
        && is_start_if_there(at.long_at, &head)
        && is_group(32, &state_bits(at))
}

/// Whether a record with items behind its fields is sound.
fn is_sound_sequence(size: u32, places: &[Place], start: u32) -> bool
    ensures { IsTrue result ↔ IsSoundSequence size places.now start }
{
    is_record(size, places) && is_start(start, places)
}

fn is_sound_long(at: &LongAt) -> bool
    ensures { IsTrue result ↔ IsSoundLong at.now }
{
    is_record(at.size, &long_places(at)) && u64::from(at.count) + 8 <= u64::from(at.digits)
}

fn are_sound_objects(layout: &Layout) -> bool
    ensures { IsTrue result ↔ AreSoundObjects layout.now }
{
    is_sound_sequence(
        layout.bytes.size,
        &bytes_places(&layout.bytes),
        layout.bytes.at,
    ) && is_sound_sequence(
        layout.tuple.size,
        &tuple_places(&layout.tuple),
        layout.tuple.at,
    ) && is_record(layout.list.size, &list_places(&layout.list))
        && is_record(layout.object.size, &object_places(&layout.object))
        && is_record(layout.klass.size, &klass_places(&layout.klass))
        && is_sound_long(&layout.long)
        && is_record(layout.small.size, &value_places(&layout.small))
        && is_record(layout.float.size, &value_places(&layout.float))
}

fn is_sound_keys(dicts: Dicts, at: &KeysAt) -> bool
    ensures { IsTrue result ↔ IsSoundKeys dicts at.now }
{
    is_record(at.size, &keys_places(at))
        && at.slots.is_some() == (dicts == Dicts::General)
        && at.log2.is_some() == (dicts == Dicts::Compact)
        && at.kind.is_some() == (dicts == Dicts::Compact)
}

fn is_sound_heap(at: &HeapAt) -> bool
    ensures { IsTrue result ↔ IsSoundHeap at.now }
{
    is_record(at.size, &heap_places(at)) && is_plain(at.inline)
}

/// Whether the groups that go with a condition are sound where they are there.
fn are_sound_groups(layout: &Layout) -> bool
    ensures { IsTrue result ↔ AreSoundGroups layout.now }
{
    let dicts = layout.dicts;
    layout.cframe.is_none_or(|at| is_plain(at.current))
        && layout
            .dict
            .is_none_or(|at| is_record(at.size, &dict_places(&at)))
        && layout.keys.is_none_or(|at| is_sound_keys(dicts, &at))
        && layout.heap.is_none_or(|at| is_sound_heap(&at))
        && layout
            .gil
            .is_none_or(|at| is_record(at.size, &gil_places(&at)))
        && layout
            .offsets
            .is_none_or(|at| is_record(at.size, &offsets_places(&at)))
}

/// Whether the groups that go with a condition are there exactly under it.
fn has_groups(layout: &Layout) -> bool
    ensures { IsTrue result ↔ HasGroups layout.now }
{
    let has_dicts = layout.dicts != Dicts::Absent;
    layout.cframe.is_some() == (layout.frames == Frames::Cframe)
        && layout.dict.is_some() == has_dicts
        && layout.keys.is_some() == has_dicts
        && layout.heap.is_some() == (layout.managed != Managed::Absent)
        && layout.gil.is_some() == (layout.lock == Lock::Gil)
        && layout.offsets.is_some() == (layout.head == Head::Offsets)
}

/// Whether the versions are a range of minors, with numbers up to 999.
fn is_range(layout: &Layout) -> bool
    ensures { IsTrue result ↔ IsVersionRange layout.now }
{
    layout.major <= 999
        && layout.first_minor <= 999
        && layout.last_minor <= 999
        && layout.first_minor <= layout.last_minor
}

/// Whether the records of frames, of their code and of texts are sound.
fn are_sound_frames(layout: &Layout) -> bool
    ensures { IsTrue result
        ↔ (IsSoundFrame layout.now.lasti layout.now.frame
        × IsSoundCode layout.now.lasti layout.now.code
        × IsSoundString layout.now.strings layout.now.string) }
{
    is_sound_frame(layout.lasti, &layout.frame)
        && is_sound_code(layout.lasti, &layout.code)
        && is_sound_string(layout.strings, &layout.string)
}

/// Whether a layout is sound: by this project's own rules, where all of these hold.
///
/// - A field or group with a condition is there exactly under it; the fields' docs name the conditions.
/// - The major and both minors are at most 999, and the first minor is not above the last.
/// - Each record has 1 to 65535 bytes, its fields lie inside it, and no two of them meet. A field has
///   8 bytes, but `argcount`, `nlocals` and `first_line` of a code record, a text's `state`, the first
///   of an integer's `digits` and `gil.locked` have 4, `frame.instr` has 4 unless it is a `Pointer`,
///   and `frame.entry`, `keys.log2` and `keys.kind` have 1.
/// - An offset that no record's size bounds is at most 1048575: those of the interpreter's words, of
///   which no two meet, `cframe.current`, `frame.locals`, `code.start`, `short_at`, `long_at`,
///   `bytes.at`, `tuple.at` and `heap.inline`.
/// - What follows a record's fields begins behind them: the locals of a frame behind all, a text's
///   characters behind its length and state, the bytes of a bytes object behind its length, and a
///   tuple's items and an integer's digits behind the count.
/// - The three bits of a text's state from `kind_shift` on, `compact_bit` and `ascii_bit` are bits of 4
///   bytes, and all different.
/// - A frame's code has at most 3 tag bits.
/// - Managed dicts are compact ones.
pub fn is_sound(layout: &Layout) -> bool
    ensures { IsTrue result ↔ IsSound layout.now }
{
    let is_compact = layout.managed == Managed::Absent || layout.dicts == Dicts::Compact;
    is_range(layout)
        && is_compact
        && has_groups(layout)
        && are_sound_groups(layout)
        && is_sound_interpreter(layout.lock, &layout.interpreter)
        && is_record(layout.thread.size, &thread_places(&layout.thread))
        && are_sound_frames(layout)
        && are_sound_objects(layout)
}
