//! Records of files: fields that follow each other, the lowest byte of each number first.
ghost use Rattle.std.specs.Prelude.{◌≡◌, ◌++◌, ◌<◌, ◌≤◌, ◌^◌, map, length, IfOk};
ghost use Rattle.object_builder.specs.Objects.{bytes_of};
ghost use Rattle.object_builder.specs.Writes.{value_of};
ghost use Rattle.image_builder.specs.Records.{filled, record_of};

use object_builder::Value;
use std::alloc::AllocError;

/// Adds a field. The one error is out of memory.
#[tactic(auto, unfolding(object_builder::specs::Objects::bytes_of))]
fn add_field(out: &mut Vec<u8>, field: Value) -> Result<(), AllocError>
    ensures { IfOk result (λ _. out.new.items ≡ out.old.items ++ bytes_of (value_of field.entry)) }
{
    match field {
        Value::U64(n) => out.extend_from_slice(&n.to_le_bytes()),
        Value::U32(n) => out.extend_from_slice(&n.to_le_bytes()),
        Value::U16(n) => out.extend_from_slice(&n.to_le_bytes()),
        Value::U8(n) => out.extend_from_slice(&[n]),
        Value::Bytes(bytes) => out.extend_from_slice(bytes),
    }
}

/// Adds a record of some fields. The one error is out of memory.
pub(crate) fn add_record(out: &mut Vec<u8>, fields: &[Value]) -> Result<(), AllocError>
    ensures { IfOk result (λ _. out.new.items ≡ out.old.items ++ record_of (map value_of fields.now)) }
{
    for field in fields {
        add_field(out, *field)?;
    }
    Ok(())
}

/// Adds bytes, and as many zeros as fill them up to a size. The one error is out of memory.
pub(crate) fn add_filled(out: &mut Vec<u8>, bytes: &[u8], size: usize) -> Result<(), AllocError>
    requires inside { length bytes.now ≤ size }
    requires small { size < 2 ^ 48 }
    ensures { IfOk result (λ _. out.new.items ≡ out.old.items ++ filled size bytes.now) }
{
    let start = out.len();
    out.extend_from_slice(bytes)?;
    out.resize(start + size, 0)
}
