//! Buffers for the records of a walk: room that is used again, sized at each use.
ghost use Rattle.std.specs.Prelude.{◌≡◌, ◌<◌, ◌^◌, OnOk, length};
ghost use Rattle.process_memory.specs.Memory.{record_at};
ghost use Rattle.process_memory.specs.Seen.{ReadsRange, with_bytes};
ghost use Rattle.py_fields.specs.Sound.{IsSound};
ghost use Rattle.py_builtins.specs.Consulted.{Consults};
ghost use Rattle.py_stacks.specs.StackError.{stack_fault};
ghost use Rattle.py_stacks.specs.Frames.{records_at};
ghost use Rattle.py_stacks.specs.Records.{AreWhole, with_member};

use crate::StackError;
use crate::members::code_of;
use process_memory::{ProcessMemory, record_in};
use py_fields::Layout;
use shared_texts::SharedTexts;
use std::alloc::Global;

/// The two records of a member of a thread's chain of frames, with their addresses. A buffer of them is used again
/// from member to member, and may have any length before it is read into.
#[derive(Debug, Drop)]
pub struct Records {
    /// The address of the frame record.
    pub frame_at: u64,
    /// The bytes of the frame record.
    pub frame: Vec<u8>,
    /// The address of the code record, with the tag bits of the frame's word for it cleared.
    pub code_at: u64,
    /// The bytes of the code record.
    pub code: Vec<u8>,
}

/// The room of a walk.
#[derive(Drop)]
pub(crate) struct Scratch {
    pub(crate) thread: Vec<u8>,
    pub(crate) member: Records,
    /// The texts of the frames that were kept.
    pub(crate) texts: SharedTexts,
}

impl Scratch {
    /// Room of no bytes yet.
    pub(crate) fn new(alloc: Global) -> Scratch {
        Scratch {
            thread: Vec::new(alloc),
            member: Records {
                frame_at: 0,
                frame: Vec::new(alloc),
                code_at: 0,
                code: Vec::new(alloc),
            },
            texts: SharedTexts::new(alloc),
        }
    }
}

/// Reads the `len` bytes at an address, fewer than 65536, into a buffer of any length, which has that one
/// after. One read.
pub(crate) fn read_bytes<P: ProcessMemory>(
    process: &mut P,
    at: u64,
    len: u32,
    buf: &mut Vec<u8>,
) -> Result<(), StackError>
    requires { len < 2 ^ 16 }
    ensures answer { ReadsRange stack_fault at len (P.seen process.old) (P.seen process.new)
        (λ m. record_at m at len) (with_bytes buf.new.items result) }
    ensures whole { OnOk result (length buf.new.items ≡ len) }
{
    buf.resize(len as usize, 0)?;
    record_in(process, at, buf)?;
    Ok(())
}

/// Reads the two records of the member at an address into buffers, which have the sizes that the layout says after.
/// `Unreadable` comes with the frame record, and then with the code record; else the error is out of memory. At
/// most 2 reads.
pub fn read_records<P: ProcessMemory>(
    process: &mut P,
    layout: &Layout,
    at: u64,
    records: &mut Records,
) -> Result<(), StackError>
    requires sound { IsSound layout.now }
    ensures answer { Consults layout.now stack_fault 2 (P.seen process.old) (P.seen process.new)
        (λ m. records_at layout.now m at) (with_member records.new result) }
    ensures whole { OnOk result (AreWhole layout.now records.new) }
{
    read_bytes(process, at, layout.frame.size, &mut records.frame)?;
    let code_at = code_of(&layout.frame, &records.frame);
    read_bytes(process, code_at, layout.code.size, &mut records.code)?;
    records.frame_at = at;
    records.code_at = code_at;
    Ok(())
}
