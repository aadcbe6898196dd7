//! The values of the locals of one frame, over a memory that has little.
use crate::read_local_values;
use elf64_core::Text;
use process_memory::Part;
use py_fields::Layout;
use py_fronts::{
    ChainEnd, FramesFront, InterpreterFront, LockState, SalvagedInterpreter, Standing, ThreadFront,
    ThreadsFront,
};
use py_reprs::{Repr, ReprTypes};
use py_stacks::{Frame, LocalVariable};
use std::alloc::{AllocError, Global};
use std::test::Fail;

const NO_TYPES: ReprTypes = ReprTypes {
    nothing: None,
    ellipsis: None,
    not_implemented: None,
    truth: None,
    float: None,
    complex: None,
    bytearray: None,
    set: None,
    frozenset: None,
    range: None,
    slice: None,
    cell: None,
    function: None,
    method: None,
    builtin: None,
    module: None,
    coroutine: None,
    generator: None,
    async_generator: None,
    instances: None,
    coroutines: None,
};

fn local(alloc: Global, addr: u64) -> Result<LocalVariable, AllocError> {
    Ok(LocalVariable {
        name: Text::of(alloc, "x")?,
        addr,
        arg: false,
        repr: None,
    })
}

fn frame(alloc: Global, addrs: &[u64]) -> Result<Standing, AllocError> {
    let mut locals = Vec::new(alloc);
    for addr in addrs {
        locals.push(local(alloc, *addr)?)?;
    }
    let frame = Frame {
        name: Text::of(alloc, "f")?,
        filename: Text::of(alloc, "f.py")?,
        module: None,
        short_filename: None,
        line: 1,
        locals: Some(locals),
        is_entry: false,
        is_shim_entry: false,
    };
    Ok(Standing::Frame { frame, fault: None })
}

fn interpreter(alloc: Global, addrs: &[u64]) -> Result<SalvagedInterpreter, AllocError> {
    let mut first = Vec::new(alloc);
    first.push(frame(alloc, addrs)?)?;
    let frames = FramesFront {
        first,
        between: 0,
        last: Vec::new(alloc),
        met: 1,
        end: ChainEnd::Whole,
    };
    let mut threads = Vec::new(alloc);
    threads.push(ThreadFront {
        address: 1,
        thread_id: 2,
        os_thread_id: None,
        frames,
    })?;
    let threads = ThreadsFront {
        threads,
        end: ChainEnd::Whole,
    };
    let front = InterpreterFront {
        address: 3,
        searched: false,
        threads,
    };
    let lock = LockState::Holder(0);
    Ok(SalvagedInterpreter { front, lock })
}

#[test]
fn each_address_has_its_value(rt: HostRuntime) -> Result<(), Fail> {
    let mut interpreters = Vec::new(rt.alloc());
    interpreters.push(interpreter(rt.alloc(), &[0, 0x1000, 0])?)?;
    let mut part = Part::of(rt.alloc(), Vec::new(rt.alloc()));
    let layout = Layout::sample();
    let values = read_local_values(rt.alloc(), &mut part, &layout, &NO_TYPES, 1, &interpreters)?;
    assert!(rt; matches!(values.get(0), Some(Repr::Absent)));
    assert!(rt; matches!(values.get(0x1000), Some(Repr::Lost { .. })));
    assert!(rt; values.get(0x2000).is_none());
    assert!(rt; values.left_out() == 0);
    Ok(())
}
