//! Whether a layout has the room for which all that was built is read back.
ghost use Rattle.std.specs.Prelude.{◌≡◌, ◌+◌, ◌≤◌, ◌↔◌, IfSome, IsTrue, [], ◌∷◌};
ghost use Rattle.object_builder.specs.Room.{HasRoom};
ghost use Rattle.py_fields.specs.Places.{Apart, ApartFrom, optional_place};
ghost use Rattle.py_fields.specs.Sound.{IsSound};
ghost use Rattle.image_builder.specs.RuntimeWords.{HasWordRoom};

use crate::runtime_words::{head_field, lock_word_place};
use elf64_core::Machine;
use py_fields::{Layout, Version};

/// Whether two places of 8 bytes don't meet.
fn are_apart(a: u32, b: u32) -> bool
    ensures { IsTrue result ↔ Apart (a, 8) (b, 8) }
{
    u64::from(a) + 8 <= u64::from(b) || u64::from(b) + 8 <= u64::from(a)
}

/// Whether a place of 8 bytes meets none of two others.
fn is_apart_from(at: u32, first: u32, second: u32) -> bool
    ensures { IsTrue result ↔ ApartFrom (at, 8) ((first, 8) ∷ (second, 8) ∷ []) }
{
    are_apart(at, first) && are_apart(at, second)
}

/// Whether a place of 8 bytes meets none of one of 8 bytes and one of 4 bytes, where that is there.
fn is_apart_from_state(at: u32, length: u32, state: Option<u32>) -> bool
    ensures { IsTrue result ↔ ApartFrom (at, 8) ((length, 8) ∷ optional_place state 4 ∷ []) }
{
    let beside_state = match state {
        Some(state) => {
            u64::from(at) + 8 <= u64::from(state) || u64::from(state) + 4 <= u64::from(at)
        }
        None => true,
    };
    are_apart(at, length) && beside_state
}

/// Whether a place of 8 bytes ends there or before.
fn ends_by(at: u32, end: u32) -> bool
    ensures { IsTrue result ↔ (at + 8 ≤ end) }
{
    u64::from(at) + 8 <= u64::from(end)
}

/// The same, where there is such a place.
fn ends_by_any(at: u32, end: Option<u32>) -> bool
    ensures { IsTrue result ↔ IfSome end (λ end. at + 8 ≤ end) }
{
    match end {
        Some(end) => ends_by(at, end),
        None => true,
    }
}

/// Whether a layout has room for what is written of values: an object's type stands beside its other fields. It is
/// what the clauses of `build` on what is read back ask for.
pub fn has_room(layout: &Layout) -> bool
    ensures { IsTrue result ↔ HasRoom layout.now }
{
    let klass = layout.object.klass;
    let string = &layout.string;
    is_apart_from(klass, layout.long.count, layout.long.digits)
        && is_apart_from_state(klass, string.length, string.state)
        && is_apart_from(klass, layout.list.count, layout.list.items)
        && ends_by(klass, string.short_at)
        && ends_by_any(klass, string.long_at)
}

/// Whether a layout has room for the word of the lock beside the runtime record's field, for a machine and a version.
/// It is what the clauses of `build` on what is found ask for.
pub fn has_word_room(layout: &Layout, machine: Machine, version: &Version) -> bool
    requires { IsSound layout.now }
    ensures { IsTrue result ↔ HasWordRoom layout.now machine version.now }
{
    let field = head_field(layout);
    let word = lock_word_place(layout.lock, machine, version);
    match (field, word) {
        (Some(field), Some(word)) => are_apart(field, word),
        _ => true,
    }
}
