//! Names of real functions, and paths of sources.
use elf64_core::{Name, Text};
use native_merge::{
    MemorySources, NoSources, SourceFault, SourceMap, SourceMaps, Sources, demangle, ignore_frame,
    resolve_filename,
};
use py_stacks::Frame;
use std::alloc::{AllocError, Global};
use std::test::Fail;

/// Names of functions, and what is left of them.
const NAMES: [(&str, &str); 18] = [
    (
        "__pyx_pf_8implicit_4_als_30_least_squares_cg",
        "_least_squares_cg",
    ),
    ("__pyx_f_6mtrand_cont0_array", "mtrand_cont0_array"),
    (
        "__pyx_fuse_1__pyx_f_8implicit_3bpr_has_non_zero",
        "bpr_has_non_zero",
    ),
    ("main", "main"),
    ("__pyx_fuse_1_0__pyx_pw_3abc", "abc"),
    ("__pyx_fuse_0__pyx_f_3abc", "abc"),
    ("__pyx_pw_3abc", "abc"),
    ("___pyx_f_3abc", "abc"),
    ("___pyx_pw_3abc", "abc"),
    // one front goes, and no other behind it
    ("__pyx_f__pyx_pw_3abc", "__pyx_pw_3abc"),
    ("__pyx_f", ""),
    ("__pyx_f_abc", "_abc"),
    ("__pyx_f_0", ""),
    ("__pyx_f_1x", "x"),
    // the point is a further number; it is past the end; it is inside a character
    ("__pyx_f_0_2ab", "ab"),
    ("__pyx_f_9abc", "abc"),
    ("__pyx_f_1\u{e9}_2abcd", "\u{e9}_2abcd"),
    (
        "__pyx_f_18446744073709551616_2abc",
        "_18446744073709551616_2abc",
    ),
];

#[test]
fn names_are_cut(rt: HostRuntime) -> Result<(), Fail> {
    for (name, left) in &NAMES {
        assert!(rt; demangle(name) == *left, "{name}");
    }
    assert!(rt; ignore_frame("__Pyx_PyObject_Call"));
    assert!(rt; !ignore_frame("__Pyx_PyObject_Cal"));
    Ok(())
}

/// Sources of these paths and bytes, of which the calls of these numbers fail.
fn sources_of(
    alloc: Global,
    contents: &[(&[u8], &[u8])],
    calls: &[u64],
) -> Result<MemorySources, AllocError> {
    let mut files = Vec::new(alloc);
    for (path, bytes) in contents {
        files.push((Name::of(alloc, path)?, Vec::from_slice(alloc, bytes)?))?;
    }
    let failing = Vec::from_slice(alloc, calls)?;
    Ok(MemorySources::new(alloc, files, failing))
}

/// Files of sources: a file that is named like a folder is none.
const FILES: [(&[u8], &[u8]); 3] = [(b"/m/a.pyx", b"x"), (b"b.pyx", b"x"), (b"/m/.", b"x")];

/// A file's name, a module's, and where the file is.
const FOUND: [(&str, &str, Option<&str>); 9] = [
    ("b.pyx", "", Some("b.pyx")),
    ("x/a.pyx", "/m/module.so", Some("/m/a.pyx")),
    ("x/b.pyx", "module.so", Some("b.pyx")),
    ("x/b.pyx", "", None),
    ("x/b.pyx", "/", None),
    ("x/.", "/m/module.so", None),
    ("x/..", "/m/module.so", None),
    ("x/", "/m/module.so", None),
    ("x/c.pyx", "/m/module.so", None),
];

#[test]
fn sources_are_found(rt: HostRuntime) -> Result<(), Fail> {
    let mut sources = sources_of(rt.alloc(), &FILES, &[])?;
    for (filename, modulename, path) in &FOUND {
        let found = resolve_filename(rt.alloc(), &mut sources, filename, modulename)?;
        assert!(rt;
            found.as_ref().map(|found| found.as_str()) == *path,
            "{filename}"
        );
    }
    Ok(())
}

/// Of the calls 0, 1 and 2 the second fails; a missing path fails at no call.
#[test]
fn sources_fail_at_their_calls(rt: HostRuntime) -> Result<(), Fail> {
    let mut sources = sources_of(rt.alloc(), &FILES, &[1])?;
    assert!(rt; sources.contents(rt.alloc(), b"b.pyx").is_ok());
    let failed = sources.contents(rt.alloc(), b"b.pyx").err();
    assert!(rt; failed == Some(SourceFault::Failed));
    let missing = sources.contents(rt.alloc(), b"c.pyx").err();
    assert!(rt; missing == Some(SourceFault::Missing));
    Ok(())
}

#[test]
fn no_sources_have_no_file(rt: HostRuntime) -> Result<(), Fail> {
    assert!(rt; !NoSources.exists(b"b.pyx"));
    let missing = NoSources.contents(rt.alloc(), b"b.pyx").err();
    assert!(rt; missing == Some(SourceFault::Missing));
    Ok(())
}

#[test]
fn lines_of_c_files_are_found(rt: HostRuntime) -> Result<(), Fail> {
    let alloc = rt.alloc();
    let mut sources = NoSources;
    let contents = "x\n/* \"a.pyx\":6\ny";
    let map = SourceMap::from_contents(alloc, &mut sources, contents, "a.c", None)?;
    assert!(rt; map.lookup(1).is_none() && map.lookup(5).is_none());
    assert!(rt; map.lookup(2) == Some(("a.pyx", 6)) && map.lookup(4) == map.lookup(2));
    Ok(())
}

/// First lines of a C file, and what they tell.
const FIRST_LINES: [(&str, Option<(&str, u32)>); 12] = [
    ("/* \"a.pyx\":7", Some(("a.pyx", 7))),
    ("\u{2003}\t/* \"a.pyx\":07 x", Some(("a.pyx", 7))),
    ("/* \"a\".pyx\":7", Some(("a\".pyx", 7))),
    ("/* \"a.pyx\":1\":7", Some(("a.pyx\":1", 7))),
    ("/* \"a.pyx\":4294967295", Some(("a.pyx", u32::MAX))),
    ("/* \"a.pyx\":4294967296", None),
    ("/* \"a.pyx\":0", None),
    ("/* \".pyx\":7", None),
    ("/* \"a.\":7", None),
    ("/* \"a.pyx\":", None),
    ("x /* \"a.pyx\":7", None),
    ("", None),
];

#[test]
fn first_lines_tell(rt: HostRuntime) -> Result<(), Fail> {
    for (line, want) in &FIRST_LINES {
        let map = SourceMap::from_contents(rt.alloc(), &mut NoSources, line, "a.c", None)?;
        assert!(rt; map.lookup(2) == *want, "{line}");
    }
    Ok(())
}

const C_CONTENTS: [(&[u8], &[u8]); 3] = [
    (b"a.c", b"/* \"x/a.pyx\":7"),
    (b"b.c", b"/* \"a.pyx\":7 \xff"),
    (b"m/a.pyx", b""),
];

/// A path and a module, and what line 2 of the map tells, for the calls of `contents` from 0 on, of which 4 fails.
const TOLD: [(&str, Option<&str>, Option<(&str, u32)>); 7] = [
    ("a.c", None, Some(("x/a.pyx", 7))),
    ("a.c", Some("m/a.so"), Some(("m/a.pyx", 7))),
    ("b.c", None, None),
    ("c.c", None, None),
    ("a.c", None, None),
    ("a.c", None, Some(("x/a.pyx", 7))),
    ("m/a.pyx", None, None),
];

fn tells(map: &Option<SourceMap>, want: Option<(&str, u32)>) -> bool {
    match map {
        Some(map) => map.lookup(2) == want,
        None => want.is_none(),
    }
}

#[test]
fn c_files_have_maps(rt: HostRuntime) -> Result<(), Fail> {
    let mut sources = sources_of(rt.alloc(), &C_CONTENTS, &[4])?;
    for (path, module, want) in &TOLD {
        let map = SourceMap::new(rt.alloc(), &mut sources, path, *module)?;
        assert!(rt; tells(&map, *want), "{path}");
    }
    Ok(())
}

/// A name in a line of a C file, the C file's path and the module, and the path of the name's file.
const CYTHON_FILES: [(&str, &str, Option<&str>, &str); 9] = [
    ("a.pyx", "d/a.c", None, "d/a.pyx"),
    ("a.pyx", "d/a", None, "d/a.pyx"),
    ("d/a.pyx", "d/a.c", Some("m/x.so"), "d/a.pyx"),
    // another name, one that doesn't exist, one without an extension
    ("a.pyx", "d/ba.c", None, "a.pyx"),
    ("b.pyx", "d/b.c", Some("m/x.so"), "m/b.pyx"),
    ("d.x/a", "d.x/a", None, "d.x/a"),
    ("c.pyx", "c.c", Some("x.so"), "c.pyx"),
    ("x/c.pyx", "d/c.c", Some("x.so"), "c.pyx"),
    ("x/b.pyx", "x/b.c", Some(""), "x/b.pyx"),
];

const PYX_CONTENTS: [(&[u8], &[u8]); 4] = [
    (b"d/a.pyx", b""),
    (b"d/ba.pyx", b""),
    (b"m/b.pyx", b""),
    (b"c.pyx", b""),
];

#[test]
fn cython_files_are_found(rt: HostRuntime) -> Result<(), Fail> {
    let mut sources = sources_of(rt.alloc(), &PYX_CONTENTS, &[])?;
    for (name, path, module, want) in &CYTHON_FILES {
        let line = format!(in rt.alloc(); "/* \"{name}\":7")?;
        let map = SourceMap::from_contents(rt.alloc(), &mut sources, line.as_str(), path, *module)?;
        assert!(rt; map.lookup(2) == Some((*want, 7)), "{name} {path}");
    }
    Ok(())
}

fn frame_at(alloc: Global, filename: &str, line: i32) -> Result<Frame, AllocError> {
    Ok(Frame {
        name: Text::of(alloc, "f")?,
        filename: Text::of(alloc, filename)?,
        module: None,
        short_filename: None,
        line,
        locals: None,
        is_entry: true,
        is_shim_entry: false,
    })
}

/// Files and lines of frames, and those that they are put at.
const FRAMES: [(&str, i32, &str, i32); 17] = [
    // call 0 of `contents`, and what is kept of it
    ("a.c", 2, "a.pyx", 7),
    ("a.c", 3, "b.pyx", i32::MAX),
    ("a.c", 4, "c.pyx", 0),
    ("a.c", 1, "a.c", 1),
    ("a.c", 6, "a.c", 6),
    ("a.c", 0, "a.c", 0),
    ("a.c", -1, "a.c", -1),
    ("a.py", 3, "a.py", 3),
    // call 1 fails, call 2 doesn't
    ("c.cpp", 2, "c.cpp", 2),
    ("c.cpp", 2, "c.pyx", 9),
    ("c.cpp", 2, "c.pyx", 9),
    // call 3: bytes that are no UTF-8; call 4: no such file
    ("b.c", 2, "b.c", 2),
    ("b.c", 2, "b.c", 2),
    ("d.c", 2, "d.c", 2),
    ("d.c", 2, "d.c", 2),
    // call 5 fails
    (".c", 2, ".c", 2),
    (".c", 2, "c.pyx", 9),
];

const MARKS: &[u8] = b"\n/* \"a.pyx\":7\n/* \"b.pyx\":2147483647\n/* \"c.pyx\":2147483648";

const MARK: &[u8] = b"/* \"c.pyx\":9";

const MARKED: [(&[u8], &[u8]); 5] = [
    (b"a.c", MARKS),
    (b"a.py", MARKS),
    (b"c.cpp", MARK),
    (b"b.c", b"/* \"b.pyx\":7 \xff"),
    (b".c", MARK),
];

/// A frame at a line of a file, translated.
fn translated(
    alloc: Global,
    maps: &mut SourceMaps,
    sources: &mut MemorySources,
    file: &str,
    line: i32,
) -> Result<Frame, AllocError> {
    let mut frame = frame_at(alloc, file, line)?;
    maps.translate(sources, &mut frame)?;
    Ok(frame)
}

fn is_at(frame: &Frame, file: &str, line: i32) -> bool {
    frame.filename.as_str() == file && frame.line == line
}

#[test]
fn frames_are_translated(rt: HostRuntime) -> Result<(), Fail> {
    let mut sources = sources_of(rt.alloc(), &MARKED, &[1, 5])?;
    let mut maps = SourceMaps::new(rt.alloc());
    for (file, line, want, number) in &FRAMES {
        let frame = translated(rt.alloc(), &mut maps, &mut sources, file, *line)?;
        assert!(rt; is_at(&frame, want, *number), "{file} {line}");
    }
    Ok(())
}

#[test]
fn frames_without_sources_stay(rt: HostRuntime) -> Result<(), Fail> {
    let mut frame = frame_at(rt.alloc(), "a.c", 3)?;
    SourceMaps::new(rt.alloc()).translate(&mut NoSources, &mut frame)?;
    assert!(rt; is_at(&frame, "a.c", 3));
    Ok(())
}
