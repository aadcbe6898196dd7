//! Objects: bytes of a stated length, zeros but for what is written at offsets.
ghost use Rattle.std.specs.Prelude.{◌≡◌, ◌+◌, ◌≤◌, ◌<◌, ◌++◌, ◌^◌, length, map, IfOk};
ghost use Rattle.py_fields.specs.Places.{EndBy};
ghost use Rattle.object_builder.specs.Objects.{len_of, bytes_of, optional_write, put_at, object, aligned, write_place};
ghost use Rattle.object_builder.specs.Writes.{value_of, write_of};

use std::alloc::AllocError;

/// What is written.
#[derive(Debug, Clone, Copy, Drop)]
pub enum Value<'a> {
    U64(u64),
    U32(u32),
    U16(u16),
    U8(u8),
    Bytes(&'a [u8]),
}

/// A write at an offset.
#[derive(Debug, Clone, Copy, Drop)]
pub struct Write<'a> {
    pub at: u32,
    pub value: Value<'a>,
}

/// A write that may be absent.
pub fn optional_write<'a>(at: Option<u32>, value: Value<'a>) -> Write<'a>
    ensures { write_of result ≡ optional_write at (value_of value.entry) }
{
    match at {
        Some(at) => Write { at, value },
        None => Write {
            at: 0,
            value: Value::Bytes(&[]),
        },
    }
}

/// Puts bytes over others.
fn put(out: &mut [u8], at: usize, value: Value)
    requires { at + len_of (value_of value) ≤ length out.old }
    ensures { out.new ≡ put_at at (bytes_of (value_of value.entry)) out.old }
{
    match value {
        Value::U64(n) => out[at..at + 8].copy_from_slice(&n.to_le_bytes()),
        Value::U32(n) => out[at..at + 4].copy_from_slice(&n.to_le_bytes()),
        Value::U16(n) => out[at..at + 2].copy_from_slice(&n.to_le_bytes()),
        Value::U8(n) => out[at..at + 1].copy_from_slice(&[n]),
        Value::Bytes(bytes) => out[at..at + bytes.len()].copy_from_slice(bytes),
    }
}

/// Adds an object, aligned to a multiple of 16.
pub fn add_object(out: &mut Vec<u8>, size: usize, writes: &[Write]) -> Result<(), AllocError>
    requires small { size < 2 ^ 48 }
    requires inside { EndBy size (map write_place (map write_of writes.now)) }
    ensures { IfOk result (λ _. out.new.items ≡ out.old.items ++ aligned (object size (map write_of writes.now))) }
{
    let start = out.len();
    out.resize(start + size, 0)?;
    let mut left = writes.len();
    while left > 0 {
        left -= 1;
        let write = writes[left];
        put(out, start + write.at as usize, write.value);
    }
    out.resize(start + (size + 15) / 16 * 16, 0)
}

/// Adds bytes, padded to a multiple of 16. The one error is out of memory.
#[tactic(auto, unfolding(crate::specs::Objects::aligned))]
pub fn add_aligned(out: &mut Vec<u8>, bytes: &[u8]) -> Result<(), AllocError>
    requires { length bytes.now < 2 ^ 48 }
    ensures { IfOk result (λ _. out.new.items ≡ out.old.items ++ aligned bytes.now) }
{
    let start = out.len();
    out.extend_from_slice(bytes)?;
    out.resize(start + (bytes.len() + 15) / 16 * 16, 0)
}
