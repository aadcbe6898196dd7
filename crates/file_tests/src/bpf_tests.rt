//! Names, tags and type information written out by hand: each call once, and tags in every form.
use normalize_core::{BpfProg, Btf, bpf_line_info, btf_header};
use std::alloc::Global;
use std::test::Fail;

/// Names of programs, and what is printed of their tags.
const NAMES: [(&str, Option<&str>); 6] = [
    (
        "bpf_prog_30304E82b4033eA3_kprobe__cap_capable",
        Some("30304e82b4033ea3"),
    ),
    // each two digits are read as a number, which may have a sign
    ("bpf_prog_+f304e82b4033e+0", Some("0f304e82b4033e00")),
    ("bpf_prog_f+304e82b4033ea3", None),
    ("bpf_prog_30304e82b4033ea3x", None),
    ("bpf_prog_30304e82b4033ea_3", None),
    ("bpf_prog_run", None),
];

/// What is printed of the tag of a name, if it has one.
fn tag_of(alloc: Global, name: &str) -> Result<Option<String>, Fail> {
    match BpfProg::parse(alloc, name, 0x1337)? {
        Some(program) => Ok(Some(program.tag().to_string(alloc)?)),
        None => Ok(None),
    }
}

#[test]
fn programs_have_tags(rt: HostRuntime) -> Result<(), Fail> {
    for (name, want) in &NAMES {
        let tag = tag_of(rt.alloc(), name)?;
        assert!(rt; tag.as_ref().map(|tag| tag.as_str()) == *want, "{name}");
    }
    Ok(())
}

/// A header of 24 bytes, and then the strings of nothing and of `int`.
const BYTES: [u8; 29] = *b"........................\0int\0";

const HEADER: btf_header = btf_header {
    magic: 0xeb9f,
    version: 1,
    flags: 0,
    hdr_len: 24,
    type_off: 0,
    type_len: 0,
    str_off: 0,
    str_len: 5,
};

#[test]
fn types_have_names_and_lines_have_numbers(rt: HostRuntime) {
    let btf = Btf::of(&BYTES, HEADER);
    assert!(rt; btf.name(1) == Some(b"int".as_slice()) && btf.name(5).is_none());
    let info = bpf_line_info {
        line_col: 7 * 1024 + 3,
        ..bpf_line_info::default()
    };
    assert!(rt; info.line() == 7 && info.column() == 3);
}
