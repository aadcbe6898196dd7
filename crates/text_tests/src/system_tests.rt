//! Files and streams of the system.

use outside::{FileFault, Files, RealFiles, RealSink, Sink};
use std::fs;
use std::test::Fail;

#[test]
fn a_stream_takes_one_piece_behind_another(rt: HostRuntime) -> Result<(), Fail> {
    let mut sink = RealSink::new(fs::create(&rt, "held").expect(&rt, "a file"));
    assert!(rt; sink.write(b"ab").is_ok());
    assert!(rt; sink.write(b"c").is_ok());
    let bytes = fs::read(&rt, "held").expect(&rt, "its bytes");
    assert!(rt; bytes.as_slice() == b"abc".as_slice());
    fs::remove_file(&rt, "held").expect(&rt, "its removal");
    Ok(())
}

#[test]
fn paths_of_no_file_fail(rt: HostRuntime) -> Result<(), Fail> {
    let alloc = rt.alloc();
    let mut files = RealFiles::new(alloc, &rt);
    for name in &[b"".as_slice(), b".", b"\xff", b"none"] {
        assert!(rt; matches!(files.read(alloc, name), Err(FileFault::Failed)));
    }
    Ok(())
}
