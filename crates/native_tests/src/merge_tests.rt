//! Stacks written out by hand: each kind of native frame, and each place of the cursor.
use elf64_core::Text;
use native_merge::{
    MemorySymbols, MergeError, NativeFrame, NativeStack, NoSources, SymbolFault, Symbolicator,
};
use py_stacks::Frame;
use std::alloc::{AllocError, Global};
use std::test::Fail;

/// Native addresses, the names of their functions and their modules. Those below 0x2000 are Python's.
const FUNCTIONS: [(u64, &str, &str); 11] = [
    (0x1000, "_PyEval_EvalFrameDefault", "/usr/bin/python"),
    (0x1001, "PyEval_EvalFrameDefault.cold", "/usr/bin/python"),
    (0x1002, "time_sleep", "/usr/bin/python"),
    (0x1003, "PyGILState_Ensure", "/usr/bin/python"),
    (0x5000, "main", "/m"),
    (0x5001, "__libc_start_main", "/lib/libc.so.6"),
    (0x5002, "__clone", "/lib/libm.so.6"),
    (0x5003, "start_thread", "/lib/libpthread.so.0"),
    (0x5004, "start_thread", "/lib/libc.so.6"),
    (0x5005, "__Pyx_PyObject_Call", "/m"),
    (0x5006, "__pyx_f_6mtrand_cont0_array", "/m"),
];

fn native_of(
    alloc: Global,
    addr: u64,
    function: &str,
    module: &str,
) -> Result<NativeFrame, AllocError> {
    Ok(NativeFrame {
        addr,
        function: Some(Text::of(alloc, function)?),
        filename: None,
        module: Text::of(alloc, module)?,
        line: None,
    })
}

/// What each of these addresses shows.
fn symbols_of(alloc: Global, failing: Vec<u64>) -> Result<MemorySymbols, AllocError> {
    let mut answers = Vec::new(alloc);
    for (addr, function, module) in &FUNCTIONS {
        let native = native_of(alloc, *addr, function, module)?;
        answers.push((*addr, vec![in alloc; native]?))?;
    }
    Ok(MemorySymbols::new(alloc, answers, failing))
}

/// A frame for each character, with a mark where it is an upper-case letter.
fn frames_of(alloc: Global, names: &str) -> Result<Vec<Frame>, AllocError> {
    let mut frames = Vec::new(alloc);
    for name in names.bytes() {
        let mut text = String::new(alloc);
        text.push(name as char)?;
        frames.push(Frame {
            name: Text::from_string(text)?,
            filename: Text::of(alloc, "a.py")?,
            module: None,
            short_filename: None,
            line: 1,
            locals: None,
            is_entry: name.is_ascii_uppercase(),
            is_shim_entry: false,
        })?;
    }
    Ok(frames)
}

/// The names of merged frames with the modules of native ones, or how far the steps came of how many frames.
fn shown(alloc: Global, merged: Result<Vec<Frame>, MergeError>) -> Result<String, Fail> {
    let mut text = String::new(alloc);
    match merged {
        Ok(frames) => {
            for frame in &frames {
                text.push_str(frame.name.as_str())?;
                if frame.filename.as_str() == "?" {
                    text.push_str("?")?;
                }
                text.push_str(" ")?;
            }
        }
        Err(MergeError::Mismatch { steps, frames }) => write!(text, "{steps} of {frames}")?,
        Err(MergeError::OutOfMemory) => return Err(Fail::from("out of memory")),
    }
    Ok(text)
}

/// What Python frames and native addresses are merged to.
fn merged_to(
    alloc: Global,
    stack: &mut NativeStack<MemorySymbols, NoSources>,
    names: &str,
    addrs: &[u64],
) -> Result<String, Fail> {
    let frames = frames_of(alloc, names)?;
    let merged = stack.merge_native_stack(frames.as_slice(), addrs);
    shown(alloc, merged)
}

#[test]
fn symbols_fail_at_their_calls(rt: HostRuntime) -> Result<(), Fail> {
    let mut symbols = symbols_of(rt.alloc(), Vec::from_slice(rt.alloc(), &[1])?)?;
    assert!(rt; symbols.symbolicate(rt.alloc(), 0x5000, true).is_ok());
    let failed = symbols.symbolicate(rt.alloc(), 0x5000, true).err();
    assert!(rt; failed == Some(SymbolFault::Failed));
    let lacking = symbols.symbolicate(rt.alloc(), 0x9999, false).err();
    assert!(rt; lacking == Some(SymbolFault::NoBinary));
    Ok(())
}

/// A stack without binaries, each of whose addresses is native, and of whose calls some fail.
fn failing_at(
    alloc: Global,
    calls: &[u64],
) -> Result<NativeStack<MemorySymbols, NoSources>, AllocError> {
    let symbols = symbols_of(alloc, Vec::from_slice(alloc, calls)?)?;
    NativeStack::new(alloc, None, None, symbols, NoSources)
}

/// The second call fails, and the first address is kept.
#[test]
fn calls_that_fail_show_their_address(rt: HostRuntime) -> Result<(), Fail> {
    let mut stack = failing_at(rt.alloc(), &[1, 2])?;
    let addrs = [0x1000, 0x1000, 0x1002, 0x1002, 0x1002];
    let text = merged_to(rt.alloc(), &mut stack, "A", &addrs)?;
    let want = "_PyEval_EvalFrameDefault _PyEval_EvalFrameDefault 0x1002? 0x1002? time_sleep A ";
    assert!(rt; text.as_str() == want);
    Ok(())
}
