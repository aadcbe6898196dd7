//! The detail of a kept member: its line and its locals.
ghost use Rattle.py_fields.specs.Sound.{IsSound};
ghost use Rattle.py_builtins.specs.Consulted.{ConsultsBy};
ghost use Rattle.py_stacks.specs.StackError.{stack_fault};
ghost use Rattle.py_stacks.specs.Detail.{detail_at, detail_cost, detail_of_result};
ghost use Rattle.py_stacks.specs.Records.{AreWhole, member_of};

use crate::asked::Asked;
use crate::lines::read_line;
use crate::locals::read_locals;
use crate::records::Records;
use crate::{LocalVariable, StackError};
use process_memory::ProcessMemory;
use py_fields::Layout;
use std::alloc::Global;

/// The detail of a kept member.
#[derive(Drop)]
pub(crate) struct Detail {
    pub(crate) line: i32,
    pub(crate) locals: Option<Vec<LocalVariable>>,
}

/// The detail of the member that has these records: its line, and its locals where they are asked for. The errors
/// are those of its locals, and out of memory.
#[tactic(auto, unfolding(crate::specs::Detail::detail_at, crate::specs::Detail::detail_cost))]
pub(crate) fn read_detail<P: ProcessMemory>(
    alloc: Global,
    process: &mut P,
    layout: &Layout,
    asked: Asked,
    records: &Records,
) -> Result<Detail, StackError>
    requires sound { IsSound layout.now }
    requires whole { AreWhole layout.now records.now }
    ensures { ConsultsBy layout.now stack_fault (λ m. detail_cost asked layout.now m (member_of records.now))
        (P.seen process.old) (P.seen process.new)
        (λ m. detail_at asked layout.now m (member_of records.now)) (detail_of_result result) }
{
    let line = read_line(alloc, process, layout, asked.lineno, records)?;
    let locals = read_locals(alloc, process, layout, asked.locals, records)?;
    Ok(Detail { line, locals })
}
