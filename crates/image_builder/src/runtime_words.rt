//! The words of the image's bss, by which the interpreter is found, and who holds the lock.
ghost use Rattle.std.specs.Prelude.{◌≡◌, ◌≤◌, IfOk, IfSome};
ghost use Rattle.py_fields.specs.Sound.{IsSound};
ghost use Rattle.image_builder.specs.RuntimeWords.{head_field, head_place, lock_word_place, runtime_words};

use elf64_core::Machine;
use object_builder::{Value, Write, add_object, optional_write};
use py_fields::{Head, Layout, Lock, Version, get_interp_head_offset, get_tstate_current_offset};
use std::alloc::{AllocError, Global};

/// Where the objects begin, with the interpreter.
pub(crate) const INTERPRETER: u64 = 0x60_0000;
/// How many bytes the words take, with what is beside them.
const SIZE: usize = 0x2_0000;

/// Where the word is that names the newest interpreter.
fn head_place(head: Head, version: &Version) -> u32
    ensures value { result ≡ head_place head version.now }
    ensures bound { result ≤ 0x1_0010 }
{
    match head {
        Head::Symbol => 0x1_0010,
        Head::Runtime => get_interp_head_offset(version) as u32,
        Head::Offsets => 0x1_0000,
    }
}

/// Where the runtime record says where that word is.
pub(crate) fn head_field(layout: &Layout) -> Option<u32>
    requires { IsSound layout.now }
    ensures value { result ≡ head_field layout.now.head layout.now.offsets }
    ensures bound { IfSome result (λ at. at ≤ 0x1_0000) }
{
    match layout.head {
        Head::Symbol | Head::Runtime => None,
        Head::Offsets => Some(layout.offsets?.head),
    }
}

/// Where the word is that names the thread that holds the lock.
pub(crate) fn lock_word_place(lock: Lock, machine: Machine, version: &Version) -> Option<u32>
    ensures value { result ≡ lock_word_place lock machine version.now }
    ensures bound { IfSome result (λ at. at ≤ 0x1_0008) }
{
    match lock {
        Lock::Symbol => Some(0x1_0008),
        Lock::Runtime => Some(get_tstate_current_offset(machine, version)? as u32),
        Lock::Gil => None,
    }
}

/// The words. The one error is out of memory.
#[tactic(auto, unfolding(crate::specs::RuntimeWords::runtime_words))]
pub(crate) fn runtime_words(
    alloc: Global,
    layout: &Layout,
    machine: Machine,
    version: &Version,
    holder: u64,
) -> Result<Vec<u8>, AllocError>
    requires { IsSound layout.now }
    ensures { IfOk result (λ words. words.items ≡ runtime_words layout.now machine version.now holder) }
{
    let writes = [
        Write {
            at: head_place(layout.head, version),
            value: Value::U64(INTERPRETER),
        },
        optional_write(head_field(layout), Value::U64(0x1_0000)),
        optional_write(
            lock_word_place(layout.lock, machine, version),
            Value::U64(holder),
        ),
    ];
    let mut words = Vec::new(alloc);
    add_object(&mut words, SIZE, &writes)?;
    Ok(words)
}
