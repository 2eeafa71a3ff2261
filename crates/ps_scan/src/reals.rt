//! Reals.
ghost use Rattle.std.specs.Prelude.{◌≡◌, ◌≤◌, ◌<◌, ◌+◌, ◌^◌, ◌++◌, length, true, ℤ, pos, ◌-ℤ◌, unsigned_abs, Some};
ghost use Rattle.std.specs.Prelude.{None, if◌then◌else◌};
ghost use Rattle.std.specs.List.{list_all};
ghost use Rattle.press_nums.specs.Decimal.{signed};
ghost use Rattle.ps_scan.specs.Characters.{is_digit};
ghost use Rattle.ps_scan.specs.Integers.{are_digits, decimal_value};
ghost use Rattle.ps_scan.specs.Reals.{RealParts, real_numeral};
ghost use Rattle.ps_scan.specs.NumeralReading.{fraction_of, behind_fraction, is_power, power_digits, power_minus};
ghost use Rattle.ps_scan.specs.NumeralReading.{parts_of, is_real};

use crate::integers::{is_negative, is_number, small_value, without_sign};
use crate::numerals::{Numeral, split_digits};
use press_nums::{decimal_fix, power_of_ten};

/// The digits behind a point, and what stands behind them; no digits where no point stands in
/// front.
fn split_fraction(text: &[u8]) -> (&[u8], &[u8])
    ensures digits { result.0.now ≡ fraction_of text.now }
    ensures behind { result.1.now ≡ behind_fraction text.now }
    ensures all { list_all is_digit result.0.now ≡ true }
    ensures lengths { length result.0.now + length result.1.now ≤ length text.now }
{
    match text {
        [] => (text, text),
        [c, rest @ ..] => {
            if *c == b'.' {
                split_digits(rest)
            } else {
                let (none, _) = text.split_at(0);
                (none, text)
            }
        }
    }
}

/// Whether a real's tail is an exponent, or nothing.
fn is_exponent(tail: &[u8]) -> bool
    ensures { result ≡ is_power tail.now }
{
    match tail {
        [] => true,
        [c, rest @ ..] => (*c == b'e' || *c == b'E') && is_number(without_sign(rest)),
    }
}

/// The digits of an exponent.
fn exponent_digits(tail: &[u8]) -> &[u8]
    requires { is_power tail.now ≡ true }
    ensures value { result.now ≡ power_digits tail.now }
    ensures all { list_all is_digit result.now ≡ true }
{
    match tail {
        [] => tail,
        [_, rest @ ..] => without_sign(rest),
    }
}

/// Whether an exponent has a minus sign.
fn is_negative_exponent(tail: &[u8]) -> bool
    ensures { result ≡ power_minus tail.now }
{
    match tail {
        [] => false,
        [_, rest @ ..] => is_negative(rest),
    }
}

/// The number that at most 30 digits write.
fn long_value(digits: &[u8]) -> u128
    requires short { length digits.now ≤ 30 }
    requires digits { list_all is_digit digits.now ≡ true }
    ensures value { result ≡ decimal_value digits.now }
    ensures bound { result < 10 ^ length digits.now }
{
    let mut value = 0;
    for digit in digits {
        value = 10 * value + u128::from(*digit - 48);
    }
    value
}

/// The digits of both parts as one number.
fn mantissa(whole: &[u8], fraction: &[u8]) -> u128
    requires short { length whole.now + length fraction.now ≤ 30 }
    requires whole { list_all is_digit whole.now ≡ true }
    requires fraction { list_all is_digit fraction.now ≡ true }
    ensures value { result ≡ decimal_value (whole.now ++ fraction.now) }
    ensures bound { result < 10 ^ 30 }
{
    let high = long_value(whole);
    let low = long_value(fraction);
    high * power_of_ten(fraction.len() as u32) + low
}

/// The power of ten by which the mantissa is multiplied: the exponent less the digits behind the
/// point.
fn scale_of(minus: bool, power: &[u8], places: usize) -> i32
    requires places { places ≤ 30 }
    requires short { length power.now ≤ 4 }
    requires digits { list_all is_digit power.now ≡ true }
    ensures value { result ≡ signed minus (decimal_value power.now) -ℤ pos places }
    ensures bound { unsigned_abs result ≤ 10030 }
{
    let size = small_value(power) as i32;
    if minus {
        -size - places as i32
    } else {
        size - places as i32
    }
}

/// The value of a real: exact, then rounded once to 1/65536.
fn value_of(negative: bool, whole: &[u8], fraction: &[u8], minus: bool, power: &[u8]) -> Numeral
    requires whole { list_all is_digit whole.now ≡ true }
    requires fraction { list_all is_digit fraction.now ≡ true }
    requires power { list_all is_digit power.now ≡ true }
    requires fits { length whole.now + length fraction.now < 2 ^ 64 }
    ensures { result ≡ real_numeral (record {
      negative = negative;
      whole = whole.now;
      fraction = fraction.now;
      minus = minus;
      power = power.now;
    }) }
{
    if whole.len() + fraction.len() > 30 || power.len() > 4 {
        return Numeral::TooGreat;
    }
    let scale = scale_of(minus, power, fraction.len());
    match decimal_fix(negative, mantissa(whole, fraction), scale) {
        Some(raw) => Numeral::Decimal(raw),
        None => Numeral::TooGreat,
    }
}

/// The value of a run as a real, `None` exactly where it isn't one.
#[tactic(auto, unfolding(crate::specs::NumeralReading::parts_of))]
pub(crate) fn real_number(run: &[u8]) -> Option<Numeral>
    ensures { result ≡ (if is_real run.now then Some (real_numeral (parts_of run.now)) else None) }
{
    let (whole, behind) = split_digits(without_sign(run));
    let (fraction, tail) = split_fraction(behind);
    if (whole.is_empty() && fraction.is_empty()) || !is_exponent(tail) {
        return None;
    }
    Some(value_of(
        is_negative(run),
        whole,
        fraction,
        is_negative_exponent(tail),
        exponent_digits(tail),
    ))
}
