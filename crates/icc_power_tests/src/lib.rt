//! Powers, parametric curves and the tags that have them, with values from outside the code.
#![tactic(auto)]

use icc_power::{CurveFault, power, read_curve};
use icc_tables::curve_at;
use std::alloc::Global;
use std::test::Fail;

/// 1 of a power, in 1/2^32.
const ONE: i128 = 0x1_0000_0000;

#[test]
fn powers_of_two_are_exact(rt: HostRuntime) -> Result<(), Fail> {
    // name, number, exponent in 1/65536, power
    let cases = [
        ("below zero", -ONE, 65536, 0),
        ("zero", 0, 65536, 0),
        ("one", ONE, 144179, ONE),
        ("square of a half", ONE / 2, 131072, ONE / 4),
        ("root of four", 4 * ONE, 32768, 2 * ONE),
        ("the last before the limit", 0x8000 * ONE, 131072, ONE << 30),
        ("the limit", 0x1_0000 * ONE, 131072, ONE << 32),
        ("nothing is left", 1, 655360, 0),
    ];
    for (name, y, g, value) in cases {
        assert_eq!(rt; power(y, g), value, "{name}");
    }
    Ok(())
}

/// The value of a tag's curve at v, and how many of its bytes were read; or its fault.
fn value(alloc: Global, tag: &[u8], v: u16) -> Result<(u16, usize), CurveFault> {
    let (curve, size) = read_curve(alloc, tag)?;
    Ok((curve_at(&curve, v), size))
}

#[test]
fn a_single_entry_is_an_exponent(rt: HostRuntime) -> Result<(), Fail> {
    // count 1; the entry is 2 in 1/256
    let square = b"curv\0\0\0\0\0\0\0\x01\x02\x00 and more";
    // count 1; the entry is 1
    let plain = b"curv\0\0\0\0\0\0\0\x01\x01\x00";
    assert_eq!(rt;
        value(rt.alloc(), square.as_slice(), 25700),
        Ok((10078, 14))
    );
    assert_eq!(rt; value(rt.alloc(), plain.as_slice(), 25700), Ok((25700, 14)));
    Ok(())
}

/// The curve of sRGB: `para`, function type 3, and g = 2.4, a = 1/1.055, b = 0.055/1.055,
/// c = 1/12.92 and d = 0.04045 in 1/65536.
const SRGB: [u8; 32] = [
    0x70, 0x61, 0x72, 0x61, 0, 0, 0, 0, 0, 3, 0, 0, 0, 2, 0x66, 0x66, 0, 0, 0xf2, 0xa7, 0, 0, 0x0d,
    0x59, 0, 0, 0x13, 0xd0, 0, 0, 0x0a, 0x5b,
];

#[test]
fn a_line_serves_below_d(rt: HostRuntime) -> Result<(), Fail> {
    assert_eq!(rt; value(rt.alloc(), SRGB.as_slice(), 0), Ok((0, 32)));
    assert_eq!(rt; value(rt.alloc(), SRGB.as_slice(), 514), Ok((40, 32)));
    assert_eq!(rt; value(rt.alloc(), SRGB.as_slice(), 65535), Ok((65535, 32)));
    Ok(())
}

#[test]
fn the_exponent_1_of_a_para_gives_values_back(rt: HostRuntime) -> Result<(), Fail> {
    let plain = b"para\0\0\0\0\0\0\0\0\0\x01\0\0";
    for v in [0, 1, 255, 256, 21845, 32767, 32768, 65534, 65535] {
        assert_eq!(rt; value(rt.alloc(), plain.as_slice(), v), Ok((v, 16)));
    }
    Ok(())
}

#[test]
fn faulty_tags_have_their_fault(rt: HostRuntime) -> Result<(), Fail> {
    // name, bytes, fault
    let cases = [
        ("another type", b"sf32\0\0\0\0".as_slice(), CurveFault::Kind),
        (
            "too short for a type",
            b"sf32\0\0\0".as_slice(),
            CurveFault::Shape,
        ),
        (
            "no count",
            b"curv\0\0\0\0\0\0\0".as_slice(),
            CurveFault::Shape,
        ),
        (
            "half an entry",
            b"curv\0\0\0\0\0\0\0\x01\x02".as_slice(),
            CurveFault::Shape,
        ),
        (
            "the exponent 0",
            b"curv\0\0\0\0\0\0\0\x01\0\0".as_slice(),
            CurveFault::Shape,
        ),
        (
            "too many",
            b"curv\0\0\0\0\xff\xff\xff\xff\0\0".as_slice(),
            CurveFault::Shape,
        ),
        (
            "no function",
            b"para\0\0\0\0\0".as_slice(),
            CurveFault::Shape,
        ),
        (
            "function 5",
            b"para\0\0\0\0\0\x05\0\0\0\x01\0\0".as_slice(),
            CurveFault::Shape,
        ),
        (
            "no g",
            b"para\0\0\0\0\0\0\0\0\0\0\0\0".as_slice(),
            CurveFault::Shape,
        ),
    ];
    for (name, tag, fault) in cases {
        assert_eq!(rt; value(rt.alloc(), tag, 0), Err(fault), "{name}");
    }
    Ok(())
}
