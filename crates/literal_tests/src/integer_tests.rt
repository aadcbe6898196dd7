//! Integers of any size.
use python_literals::push_integer;
use std::alloc::{AllocError, Global};
use std::test::Fail;

/// Whether it is negative, its digits of 30 bits, and its decimal.
static ROWS: [(bool, &[u32], &str); 6] = [
    (false, &[], "0"),
    (false, &[7], "7"),
    (true, &[1_000_000_000], "-1000000000"),
    // 2^60 and 2^64 - 1
    (false, &[0, 0, 1], "1152921504606846976"),
    (
        false,
        &[1_073_741_823, 1_073_741_823, 15],
        "18446744073709551615",
    ),
    // -10^40
    (
        true,
        &[0, 668_304_384, 172_751_547, 175_927_511, 7523],
        "-10000000000000000000000000000000000000000",
    ),
];

fn decimal(alloc: Global, is_negative: bool, digits: &[u32]) -> Result<String, AllocError> {
    let mut text = String::new(alloc);
    push_integer(alloc, &mut text, is_negative, digits)?;
    Ok(text)
}

#[test]
fn integers_are_decimals(rt: HostRuntime) -> Result<(), Fail> {
    for (is_negative, digits, expected) in &ROWS {
        let text = decimal(rt.alloc(), *is_negative, digits)?;
        assert!(rt; text.as_str() == *expected, "{text}");
    }
    Ok(())
}
