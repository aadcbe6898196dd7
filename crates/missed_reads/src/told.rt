//! What was refused, as it is told.
ghost use Rattle.std.specs.Prelude.{◌≡◌, IfOk};
ghost use Rattle.serde_json.specs.View.{view};
ghost use Rattle.missed_reads.specs.Told.{told_of, blocks_told, numbers_tree, missed_tree};

use crate::misses::Misses;
use serde_json::{Value, json};
use std::alloc::{AllocError, Global};

/// The blocks that refused ranges lie in, and how many ranges there were besides.
#[derive(Debug, Drop)]
pub struct MissedBlocks {
    /// The numbers of the blocks, ascending: that of an address is the address divided by 65536.
    pub numbers: Vec<u64>,
    /// How many ranges don't lie in the blocks.
    pub above: u64,
}

/// What is kept, as it is told. The one error is out of memory.
pub fn missed_blocks(alloc: Global, misses: &Misses) -> Result<MissedBlocks, AllocError>
    ensures { IfOk result (λ told. blocks_told told ≡ told_of misses.now) }
{
    let numbers: Vec<u64> = misses.blocks().iter().copied().collect(alloc)?;
    Ok(MissedBlocks {
        numbers,
        above: misses.above(),
    })
}

/// Numbers as a JSON value, in order.
fn numbers_value(alloc: Global, numbers: &[u64]) -> Result<Value, AllocError>
    ensures { IfOk result (λ value. view value ≡ numbers_tree numbers.now) }
{
    let mut values = Vec::new(alloc);
    for number in numbers {
        values.push(Value::from(*number))?;
    }
    Ok(Value::Array(values))
}

/// What was refused as a JSON value: an object with `above`, how many refused ranges don't lie in the blocks, and
/// `blocks`, the numbers of these, ascending.
///
/// The keys of an object stand in the order of their bytes. The one error is out of memory.
pub fn missed_value(alloc: Global, missed: &MissedBlocks) -> Result<Value, AllocError>
    ensures { IfOk result (λ value. view value ≡ missed_tree (blocks_told missed.now)) }
{
    let blocks = numbers_value(alloc, &missed.numbers)?;
    json!(in alloc; {
        "above": missed.above,
        "blocks": blocks
    })
}
