//! How many values of locals are left out.
ghost use Rattle.std.specs.Prelude.{◌≡◌, ◌++◌, OnOk, string_bytes};
ghost use Rattle.serde_json.specs.View.{members_view};
ghost use Rattle.shown_values.specs.LeftOut.{left_out_text, put_left_out, values_left_out};

use local_values::LocalValues;
use serde_json::{Map, Value, json, put};
use std::alloc::{AllocError, Global};

/// How many values of locals are left out; none where no values are asked for.
pub fn values_left_out(values: &Option<LocalValues>) -> Option<u64>
    ensures { result ≡ values_left_out values.now }
{
    match values {
        Some(values) => Some(values.left_out()),
        None => None,
    }
}

/// The line that says how many values are left out, where any are.
pub fn push_left_out(text: &mut String, values: &Option<LocalValues>) -> Result<(), AllocError>
    ensures { OnOk result (string_bytes text.new ≡ string_bytes text.old
        ++ left_out_text (values_left_out values.now)) }
{
    let Some(count) = values_left_out(values) else {
        return Ok(());
    };
    if count == 0 {
        return Ok(());
    }
    write!(text, "... {count} more values are not shown\n")
}

/// Adds a key that says how many values are left out, where values are asked for. The one error is out of memory.
pub fn put_left_out(
    alloc: Global,
    map: &mut Map<String, Value>,
    values: &Option<LocalValues>,
) -> Result<(), AllocError>
    ensures { OnOk result (members_view map.new.entries
        ≡ put_left_out (values_left_out values.now) (members_view map.old.entries)) }
{
    let Some(count) = values_left_out(values) else {
        return Ok(());
    };
    let count = json!(in alloc; count)?;
    put(map, alloc, "values_left_out", count)
}
