//! The types that a type derives from.
ghost use Rattle.std.specs.Prelude.{◌≡◌};
ghost use Rattle.process_memory.specs.Seen.{Reads};
ghost use Rattle.py_names.specs.NamesError.{names_fault};
ghost use Rattle.py_tasks.specs.Bases.{leads_at};

use process_memory::{ProcessMemory, word_past};
use py_names::NamesError;

/// Whether a type is another one, or leads to it by its first bases, of which so many are looked at. At most one read
/// for each.
pub(crate) fn leads_to<P: ProcessMemory>(
    process: &mut P,
    base: u32,
    class: u64,
    sought: u64,
    left: u64,
) -> Result<bool, NamesError>
    ensures { Reads names_fault left (P.seen process.old) (P.seen process.new)
        (λ m. leads_at base m class sought left) result }
{
    if class == 0 {
        return Ok(false);
    }
    if sought == 0 {
        return Ok(false);
    }
    if class == sought {
        return Ok(true);
    }
    if left == 0 {
        return Ok(false);
    }
    let next = word_past(process, class, base as u64)?;
    leads_to(process, base, next, sought, left - 1)
}
