//! Numbers worked out by hand: rounding, roots, bits, and where each range ends.

use press_nums::{
    Fix, Whole, decimal_fix, div_round, fix_add, fix_div, fix_mul, fix_root, fix_sub, icbrt, isqrt,
    whole_add, whole_div, whole_mul, whole_rem, whole_sub,
};
use std::test::Fail;

/// The greatest raw value.
const TOP: i64 = 140_737_488_355_327;
/// The least raw value.
const BOTTOM: i64 = -140_737_488_355_328;
/// The greatest integer, 2^31 - 1.
const LAST: i64 = 140_737_488_289_792;
/// 2^125, where dividends end.
const FAR: i128 = 42535295865117307932921825928971026432;

fn raw_of(number: Option<Fix>) -> Option<i64> {
    match number {
        Some(number) => Some(number.raw()),
        None => None,
    }
}

fn fix(raw: i64) -> Result<Fix, Fail> {
    Ok(Fix::of_raw(raw).ok_or("out of range")?)
}

fn value_of(number: Option<Whole>) -> Option<i32> {
    match number {
        Some(number) => Some(number.get()),
        None => None,
    }
}

/// The raw value of the number of a sign, digits and a power of ten.
fn decimal(negative: bool, digits: u128, power: i32) -> Result<Option<i64>, Fail> {
    if digits >= 1_000_000_000_000 || power < -9999 || power > 9999 {
        Err("out of range")?
    }
    Ok(raw_of(decimal_fix(negative, digits, power)))
}

#[test]
fn a_decimal_number_is_rounded_once(rt: HostRuntime) -> Result<(), Fail> {
    // name, sign, digits, power of ten, raw value
    let cases = [
        ("0.5", false, 5, -1, Some(32768)),
        ("the least tie, up", false, 762939453125, -17, Some(1)),
        (
            "the least tie below zero, up",
            true,
            762939453125,
            -17,
            Some(0),
        ),
        ("1e4", false, 1, 4, Some(655360000)),
        ("2147483648", false, 2147483648, 0, None),
        ("-2147483648", true, 2147483648, 0, Some(-140737488355328)),
        ("0e9999", false, 0, 9999, Some(0)),
        ("1e15", false, 1, 15, None),
        ("1e-9999", false, 1, -9999, Some(0)),
    ];
    for (name, negative, digits, power, raw) in cases {
        assert_eq!(rt; decimal(negative, digits, power)?, raw, "{name}");
    }
    Ok(())
}

#[test]
fn roots_are_rounded_down(rt: HostRuntime) {
    // name, number, its square root, its cube root
    let cases = [
        ("zero", 0, 0, 0),
        ("below a cube", 26, 5, 2),
        ("a cube", 27, 5, 3),
        ("below a square", 24, 4, 2),
        ("a square", 25, 5, 2),
        (
            "the last number",
            u128::MAX,
            18446744073709551615,
            6981463658331,
        ),
    ];
    for (name, number, square, cubic) in cases {
        assert_eq!(rt; (isqrt(number), icbrt(number)), (square, cubic), "{name}");
    }
}

#[test]
fn roots_of_fixed_point_numbers_are_rounded_down(rt: HostRuntime) -> Result<(), Fail> {
    // name, raw value, raw square root of the magnitude
    let cases = [
        ("zero", 0, 0),
        ("one", 65536, 65536),
        ("two", 131072, 92681),
        ("minus four", -262144, 131072),
    ];
    for (name, raw, root) in cases {
        assert_eq!(rt; fix_root(fix(raw)?).raw(), root, "{name}");
    }
    Ok(())
}

type Numbers = (Option<i64>, Option<i64>, Option<i64>, Option<i64>);

/// The sum, the difference, the product and the quotient of two raw values.
fn results(a: i64, b: i64) -> Result<Numbers, Fail> {
    let (a, b) = (fix(a)?, fix(b)?);
    let (sum, difference) = (fix_add(a, b), fix_sub(a, b));
    let (product, quotient) = (fix_mul(a, b), fix_div(a, b));
    Ok((
        raw_of(sum),
        raw_of(difference),
        raw_of(product),
        raw_of(quotient),
    ))
}

#[test]
fn sums_products_and_quotients_round_once_and_stop_at_the_range(
    rt: HostRuntime,
) -> Result<(), Fail> {
    // name, two raw values, their sum, difference, product and quotient
    let cases = [
        (
            "ones",
            65536,
            65536,
            Some(131072),
            Some(0),
            Some(65536),
            Some(65536),
        ),
        (
            "a half below zero",
            65536,
            -131072,
            Some(-65536),
            Some(196608),
            Some(-131072),
            Some(-32768),
        ),
        ("by zero", 65536, 0, Some(65536), Some(65536), Some(0), None),
        (
            "tie of a product",
            1,
            32768,
            Some(32769),
            Some(-32767),
            Some(1),
            Some(2),
        ),
        (
            "tie of a product below zero",
            -1,
            32768,
            Some(32767),
            Some(-32769),
            Some(0),
            Some(-2),
        ),
        (
            "tie of a quotient",
            1,
            131072,
            Some(131073),
            Some(-131071),
            Some(2),
            Some(1),
        ),
        (
            "tie below zero",
            -1,
            131072,
            Some(131071),
            Some(-131073),
            Some(-2),
            Some(0),
        ),
        (
            "tie by a negative",
            1,
            -131072,
            Some(-131071),
            Some(131073),
            Some(-2),
            Some(0),
        ),
        (
            "tie of two negatives",
            -1,
            -131072,
            Some(-131073),
            Some(131071),
            Some(2),
            Some(1),
        ),
        (
            "past the top",
            TOP,
            1,
            None,
            Some(TOP - 1),
            Some(2147483648),
            None,
        ),
        (
            "past the bottom",
            BOTTOM,
            1,
            Some(BOTTOM + 1),
            None,
            Some(-2147483648),
            None,
        ),
        (
            "bottom by minus one",
            BOTTOM,
            -65536,
            None,
            Some(-LAST),
            None,
            None,
        ),
        (
            "top by minus one",
            TOP,
            -65536,
            Some(LAST - 1),
            None,
            Some(-TOP),
            Some(-TOP),
        ),
        (
            "bottom by one",
            BOTTOM,
            65536,
            Some(-LAST),
            None,
            Some(BOTTOM),
            Some(BOTTOM),
        ),
        ("top and top", TOP, TOP, None, Some(0), None, Some(65536)),
        (
            "bottom and bottom",
            BOTTOM,
            BOTTOM,
            None,
            Some(0),
            None,
            Some(65536),
        ),
    ];
    for (name, a, b, sum, difference, product, quotient) in cases {
        assert_eq!(rt;
            results(a, b)?,
            (sum, difference, product, quotient),
            "{name}"
        );
    }
    Ok(())
}

/// The integers next to a raw value: down, up, the nearest and to zero.
fn integers(raw: i64) -> Result<(i64, Option<i64>, Option<i64>, i64), Fail> {
    let number = fix(raw)?;
    let (down, cut) = (number.floor().raw(), number.truncate().raw());
    Ok((down, raw_of(number.ceiling()), raw_of(number.round()), cut))
}

/// The negative of a raw value, and its magnitude.
fn signs(raw: i64) -> Result<(Option<i64>, Option<i64>), Fail> {
    let number = fix(raw)?;
    Ok((raw_of(number.negated()), raw_of(number.magnitude())))
}

#[test]
fn integers_next_to_a_number(rt: HostRuntime) -> Result<(), Fail> {
    // name, raw value, the integers down, up, nearest and to zero, the negative, the magnitude
    let cases = [
        (
            "a half",
            32768,
            0,
            Some(65536),
            Some(65536),
            0,
            Some(-32768),
            Some(32768),
        ),
        (
            "minus a half",
            -32768,
            -65536,
            Some(0),
            Some(0),
            0,
            Some(32768),
            Some(32768),
        ),
        (
            "above one",
            65537,
            65536,
            Some(131072),
            Some(65536),
            65536,
            Some(-65537),
            Some(65537),
        ),
        (
            "below minus one",
            -65537,
            -131072,
            Some(-65536),
            Some(-65536),
            -65536,
            Some(65537),
            Some(65537),
        ),
        ("top", TOP, LAST, None, None, LAST, Some(-TOP), Some(TOP)),
        (
            "below the last tie",
            LAST + 32767,
            LAST,
            None,
            Some(LAST),
            LAST,
            Some(-LAST - 32767),
            Some(LAST + 32767),
        ),
        (
            "bottom",
            BOTTOM,
            BOTTOM,
            Some(BOTTOM),
            Some(BOTTOM),
            BOTTOM,
            None,
            None,
        ),
    ];
    for (name, raw, down, up, nearest, cut, negative, magnitude) in cases {
        assert_eq!(rt; integers(raw)?, (down, up, nearest, cut), "{name}");
        assert_eq!(rt; signs(raw)?, (negative, magnitude), "{name}");
    }
    Ok(())
}

/// The quotient and the rest of two integers.
fn divided(n: i32, d: i32) -> (Option<i32>, Option<i32>) {
    let (n, d) = (Whole::of(n), Whole::of(d));
    (value_of(whole_div(n, d)), value_of(whole_rem(n, d)))
}

#[test]
fn quotients_truncate(rt: HostRuntime) {
    // name, dividend, divisor, quotient, rest
    let cases = [
        ("both above zero", 7, 2, Some(3), Some(1)),
        ("dividend below zero", -7, 2, Some(-3), Some(-1)),
        ("divisor below zero", 7, -2, Some(-3), Some(1)),
        ("both below zero", -7, -2, Some(3), Some(-1)),
        ("by zero", 1, 0, None, None),
        ("least by minus one", i32::MIN, -1, None, Some(0)),
    ];
    for (name, n, d, quotient, rest) in cases {
        assert_eq!(rt; divided(n, d), (quotient, rest), "{name}");
    }
}

#[test]
fn bits_wrap(rt: HostRuntime) {
    // name, integer, bits
    let cases = [
        ("zero", 0, 0),
        ("minus one", -1, 4294967295),
        ("least", i32::MIN, 2147483648),
        ("greatest", i32::MAX, 2147483647),
    ];
    for (name, n, bits) in cases {
        assert_eq!(rt;
            (Whole::of(n).bits(), Whole::of_bits(bits).get()),
            (bits, n),
            "{name}"
        );
    }
}

#[test]
fn integers_stop_at_the_range(rt: HostRuntime) {
    let (least, last) = (Whole::of(i32::MIN), Whole::of(i32::MAX));
    let half = Whole::of(65536);
    let cases = [
        ("a sum past the last", whole_add(last, Whole::of(1)), None),
        (
            "a difference past the least",
            whole_sub(Whole::of(-2), last),
            None,
        ),
        (
            "the least product",
            whole_mul(half, Whole::of(-32768)),
            Some(i32::MIN),
        ),
        (
            "a product past the last",
            whole_mul(half, Whole::of(32768)),
            None,
        ),
        ("the negative of the least", least.negated(), None),
        ("a magnitude", Whole::of(-5).magnitude(), Some(5)),
    ];
    for (name, number, want) in cases {
        assert_eq!(rt; value_of(number), want, "{name}");
    }
}

#[test]
fn a_tie_goes_up(rt: HostRuntime) {
    // name, dividend, divisor, the nearest whole number
    let cases = [
        ("a half", 1, 2, 1),
        ("minus a half", -1, 2, 0),
        ("one and a half", 3, 2, 2),
        ("minus one and a half", -3, 2, -1),
        ("below a tie", 5, 4, 1),
        ("below a tie, negative", -5, 4, -1),
        ("above a tie", 7, 4, 2),
        ("above a tie, negative", -7, 4, -2),
        ("by itself", 9, 9, 1),
        ("far", FAR - 1, 1, FAR - 1),
        ("far below zero", 1 - FAR, 1, 1 - FAR),
    ];
    for (name, n, d, nearest) in cases {
        assert!(rt; d > 0 && d < FAR && -FAR < n && n < FAR, "{name}");
        assert_eq!(rt; div_round(n, d), nearest, "{name}");
    }
}
