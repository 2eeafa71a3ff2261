//! Radix numbers, as `16#FF`.
ghost use Rattle.std.specs.Prelude.{◌≡◌, ◌≤◌, ◌<◌, ◌^◌, true, min};
ghost use Rattle.std.specs.List.{list_all};
ghost use Rattle.ps_scan.specs.Characters.{is_digit, is_letter, digit_value};
ghost use Rattle.ps_scan.specs.Radix.{is_base, is_digit_below, are_digits_below, radix_value, radix_numeral};
ghost use Rattle.ps_scan.specs.NumeralReading.{digits_in, is_radix_behind, is_radix, base_of, radix_digits};

use crate::characters::value_of_digit;
use crate::integers::small_value;
use crate::numerals::{Numeral, split_digits};
use press_nums::Whole;

/// Whether digits are a base: one or two of them, for a number from 2 to 36.
fn is_radix_base(front: &[u8]) -> bool
    requires { list_all is_digit front.now ≡ true }
    ensures { result ≡ is_base front.now }
{
    if front.is_empty() || front.len() > 2 {
        return false;
    }
    let base = small_value(front);
    2 <= base && base <= 36
}

/// Whether a byte is a digit or letter below the base.
fn is_digit_of(base: u32, c: u8) -> bool
    ensures { result ≡ is_digit_below base c }
{
    matches!(c, b'0'..=b'9' | b'A'..=b'Z' | b'a'..=b'z') && u32::from(value_of_digit(c)) < base
}

fn is_all_digits_of(base: u32, text: &[u8]) -> bool
    ensures { result ≡ list_all (is_digit_below base) text.now }
{
    text.iter().all(|c| is_digit_of(base, *c))
}

/// Whether there is a digit of the base, and nothing else.
fn is_number_of(base: u32, text: &[u8]) -> bool
    ensures { result ≡ are_digits_below base text.now }
{
    !text.is_empty() && is_all_digits_of(base, text)
}

/// Whether a run is a radix number: a base, `#`, and digits or letters below the base.
pub(crate) fn is_radix_run(run: &[u8]) -> bool
    ensures { result ≡ is_radix run.now }
{
    let (front, behind) = split_digits(run);
    match behind {
        [] => false,
        [mark, digits @ ..] => {
            *mark == b'#' && is_radix_base(front) && is_number_of(small_value(front), digits)
        }
    }
}

/// The number that digits of a base write, or 2^32 where it is greater.
fn capped_radix_value(base: u32, digits: &[u8]) -> u64
    requires base { base ≤ 36 }
    requires some { 2 ≤ base }
    requires digits { are_digits_below base digits.now ≡ true }
    ensures value { result ≡ min (2 ^ 32) (radix_value base digits.now) }
    ensures bound { result ≤ 2 ^ 32 }
{
    let mut value: u64 = 0;
    for digit in digits {
        value = (u64::from(base) * value + u64::from(value_of_digit(*digit))).min(0x1_0000_0000);
    }
    value
}

/// The value of a radix number. One over 2147483647 stands for itself less 2^32.
pub(crate) fn radix_number(run: &[u8]) -> Numeral
    requires { is_radix run.now ≡ true }
    ensures { result ≡ radix_numeral (radix_value (base_of run.now) (radix_digits run.now)) }
{
    let (front, behind) = split_digits(run);
    let (_, digits) = behind.split_at(1);
    let value = capped_radix_value(small_value(front), digits);
    if value > 0xFFFF_FFFF {
        Numeral::TooGreat
    } else if value > 0x7FFF_FFFF {
        Numeral::Whole(Whole::of((value as i64 - 0x1_0000_0000) as i32))
    } else {
        Numeral::Whole(Whole::of(value as i32))
    }
}
