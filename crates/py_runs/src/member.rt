//! The members of a thread's chain of frames.
ghost use Rattle.std.specs.Prelude.{◌≡◌, ◌+◌, ◌*◌, IfOk};
ghost use Rattle.process_memory.specs.Seen.{Reading};
ghost use Rattle.py_runs.specs.Members.{IsMet, members_from};

use crate::closing::closes_at;
use crate::found::word_known;
use crate::run_rule::RunEnd;
use process_memory::ProcessMemory;
use py_fields::Layout;
use std::alloc::{AllocError, Global};

/// A member of a thread's chain of frames.
#[derive(Clone, Copy, Debug, PartialEq, Eq)]
pub struct Member {
    /// The address of its frame record.
    pub address: u64,
    /// Whether a run ends at it.
    pub is_last: bool,
}

/// A member, and where it leads to.
#[derive(Clone, Copy)]
pub(crate) struct Met {
    member: Member,
    back: Option<u64>,
}

/// The member at an address, and where it leads to, if that is in memory. At most two reads.
fn read_member<P: ProcessMemory>(
    alloc: Global,
    process: &mut P,
    layout: &Layout,
    end: RunEnd,
    at: u64,
) -> Result<Met, AllocError>
    ensures { Reading 2 (P.seen process.old) (P.seen process.new)
        (λ m. IfOk result (IsMet layout.now end m at)) }
{
    let is_last = closes_at(alloc, process, end, at)?;
    let back = word_known(process, at, layout.frame.back)?;
    Ok(Met {
        member: Member {
            address: at,
            is_last,
        },
        back,
    })
}

/// At most so many members, from the one at an address on. At most two reads of each.
pub(crate) fn read_members<P: ProcessMemory>(
    alloc: Global,
    process: &mut P,
    layout: &Layout,
    end: RunEnd,
    count: u64,
    first: u64,
) -> Result<Vec<Member>, AllocError>
    ensures { Reading (2 * count) (P.seen process.old) (P.seen process.new)
        (λ m. IfOk result (λ members. members.items ≡ members_from layout.now end m count first)) }
{
    let mut members = Vec::new(alloc);
    let mut met = 0;
    let mut at = first;
    while at != 0 {
        if met == count {
            return Ok(members);
        }
        let step = read_member(alloc, process, layout, end, at)?;
        members.push(step.member)?;
        met += 1;
        at = match step.back {
            Some(back) => back,
            None => return Ok(members),
        };
    }
    Ok(members)
}
