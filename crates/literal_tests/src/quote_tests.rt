//! Texts and bytes in quotes.
use python_literals::{Style, is_printable, push_quoted};
use std::alloc::{AllocError, Global};
use std::test::Fail;

/// Code points and what `repr` of Python 3.11 writes of them.
static TEXTS: [(&[u32], &str); 9] = [
    (&[], "''"),
    (&[97, 32, 98], "'a b'"),
    (&[105, 116, 39, 115], "\"it's\""),
    (&[39, 34], "'\\'\"'"),
    (&[92, 9, 10, 13, 0, 127], "'\\\\\\t\\n\\r\\x00\\x7f'"),
    (&[228, 0x20AC, 0x1F600], "'ä€😀'"),
    (&[0xA0, 0x2028, 0xD800], "'\\xa0\\u2028\\ud800'"),
    (
        &[0xE000, 0xE0001, 0x10FFFF],
        "'\\ue000\\U000e0001\\U0010ffff'",
    ),
    (&[0x11_0000, 0xFFFF_FFFF], "'\\U00110000\\Uffffffff'"),
];

/// Numbers of bytes and what `repr` writes of them, but for the b.
static BYTES: [(&[u32], &str); 3] = [
    (&[0, 97, 228, 255], "'\\x00a\\xe4\\xff'"),
    (&[39, 34, 92], "'\\'\"\\\\'"),
    (&[228, 8364], "'\\xe4\\u20ac'"),
];

fn quoted(alloc: Global, style: Style, points: &[u32]) -> Result<String, AllocError> {
    let mut text = String::new(alloc);
    push_quoted(&mut text, style, points)?;
    Ok(text)
}

#[test]
fn texts_stand_in_quotes(rt: HostRuntime) -> Result<(), Fail> {
    for (points, expected) in &TEXTS {
        let text = quoted(rt.alloc(), Style::Printable, points)?;
        assert!(rt; text.as_str() == *expected, "{text}");
    }
    Ok(())
}

#[test]
fn bytes_stand_in_quotes(rt: HostRuntime) -> Result<(), Fail> {
    for (points, expected) in &BYTES {
        let text = quoted(rt.alloc(), Style::Ascii, points)?;
        assert!(rt; text.as_str() == *expected, "{text}");
    }
    Ok(())
}

#[test]
fn characters_can_be_printed(rt: HostRuntime) {
    assert!(rt; is_printable(' '));
    assert!(rt; is_printable('ä'));
    assert!(rt; !is_printable('\u{a0}'));
    assert!(rt; !is_printable('\u{200b}'));
}
