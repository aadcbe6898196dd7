//! Floats and complex numbers.
use python_literals::{push_complex, push_float};
use std::alloc::{AllocError, Global};
use std::test::Fail;

/// The bits of a float, and what `repr` of Python 3.11 writes of it.
static FLOATS: [(u64, &str); 17] = [
    (0, "0.0"),
    (0x8000_0000_0000_0000, "-0.0"),
    (0x3ff0_0000_0000_0000, "1.0"),
    (0x3fb9_9999_9999_999a, "0.1"),
    (0x4341_c379_37e0_8000, "1e+16"),
    (0x430c_6bf5_2634_0000, "1000000000000000.0"),
    (0x437b_69b4_ba63_0f35, "1.2345678901234568e+17"),
    (0x3ee4_f8b5_88e3_68f1, "1e-05"),
    (0x3eef_7510_4d55_1d69, "1.5e-05"),
    (0x3f1a_36e2_eb1c_432d, "0.0001"),
    (0xbe90_c6f7_a0b5_ed8d, "-2.5e-07"),
    (1, "5e-324"),
    (0x7fef_ffff_ffff_ffff, "1.7976931348623157e+308"),
    (0x7ff0_0000_0000_0000, "inf"),
    (0xfff0_0000_0000_0000, "-inf"),
    (0x7ff8_0000_0000_0000, "nan"),
    (0x4341_c379_37e0_7fff, "9999999999999998.0"),
];

/// The bits of both parts of a complex number, and what `repr` writes of it.
static COMPLEX: [(u64, u64, &str); 6] = [
    (0, 0x3ff0_0000_0000_0000, "1j"),
    (0x3ff0_0000_0000_0000, 0x4000_0000_0000_0000, "(1+2j)"),
    (0, 0xbff8_0000_0000_0000, "-1.5j"),
    (0x7ff8_0000_0000_0000, 0x7ff0_0000_0000_0000, "(nan+infj)"),
    (
        0x4341_c379_37e0_8000,
        0x3ee4_f8b5_88e3_68f1,
        "(1e+16+1e-05j)",
    ),
    (0x8000_0000_0000_0000, 0x8000_0000_0000_0000, "(-0-0j)"),
];

fn float(alloc: Global, bits: u64) -> Result<String, AllocError> {
    let mut text = String::new(alloc);
    push_float(alloc, &mut text, bits)?;
    Ok(text)
}

fn complex(alloc: Global, real: u64, imaginary: u64) -> Result<String, AllocError> {
    let mut text = String::new(alloc);
    push_complex(alloc, &mut text, real, imaginary)?;
    Ok(text)
}

#[test]
fn floats_are_decimals(rt: HostRuntime) -> Result<(), Fail> {
    for (bits, expected) in &FLOATS {
        let text = float(rt.alloc(), *bits)?;
        assert!(rt; text.as_str() == *expected, "{text}");
    }
    Ok(())
}

#[test]
fn complex_numbers_have_two_parts(rt: HostRuntime) -> Result<(), Fail> {
    for (real, imaginary, expected) in &COMPLEX {
        let text = complex(rt.alloc(), *real, *imaginary)?;
        assert!(rt; text.as_str() == *expected, "{text}");
    }
    Ok(())
}
