//! Integers in decimal.
ghost use Rattle.std.specs.Prelude.{◌≡◌, ◌≤◌, ◌<◌, ◌^◌, length, true, min};
ghost use Rattle.std.specs.List.{list_all};
ghost use Rattle.ps_scan.specs.Characters.{is_digit};
ghost use Rattle.ps_scan.specs.Integers.{are_digits, decimal_value, integer_numeral};
ghost use Rattle.ps_scan.specs.NumeralReading.{unsigned, is_minus, is_integer};

use crate::numerals::Numeral;
use press_nums::Whole;

/// Whether a run has a minus sign in front.
pub(crate) fn is_negative(run: &[u8]) -> bool
    ensures { result ≡ is_minus run.now }
{
    match run {
        [] => false,
        [c, ..] => *c == b'-',
    }
}

/// The run without the sign in front, if it has one.
pub(crate) fn without_sign(run: &[u8]) -> &[u8]
    ensures { result.now ≡ unsigned run.now }
{
    if let Some((c, rest)) = run.split_first() {
        if *c == b'+' || *c == b'-' {
            return rest;
        }
    }
    run
}

fn is_all_digits(text: &[u8]) -> bool
    ensures { result ≡ list_all is_digit text.now }
{
    text.iter().all(|c| 48 <= *c && *c <= 57)
}

/// Whether there is a digit, and nothing else.
pub(crate) fn is_number(text: &[u8]) -> bool
    ensures { result ≡ are_digits text.now }
{
    !text.is_empty() && is_all_digits(text)
}

/// Whether a run is an integer: an optional sign, and digits.
pub(crate) fn is_integer_run(run: &[u8]) -> bool
    ensures { result ≡ is_integer run.now }
{
    is_number(without_sign(run))
}

/// The number that any digits write, or 2^32 where it is greater.
fn capped_value(digits: &[u8]) -> u64
    requires { list_all is_digit digits.now ≡ true }
    ensures value { result ≡ min (2 ^ 32) (decimal_value digits.now) }
    ensures bound { result ≤ 2 ^ 32 }
{
    let mut value: u64 = 0;
    for digit in digits {
        value = (10 * value + u64::from(*digit - 48)).min(0x1_0000_0000);
    }
    value
}

/// The number that at most four digits write.
pub(crate) fn small_value(digits: &[u8]) -> u32
    requires short { length digits.now ≤ 4 }
    requires digits { list_all is_digit digits.now ≡ true }
    ensures value { result ≡ decimal_value digits.now }
    ensures bound { result ≤ 10000 }
{
    let mut value = 0;
    for digit in digits {
        value = 10 * value + u32::from(*digit - 48);
    }
    value
}

/// The value of an integer.
pub(crate) fn integer_value(run: &[u8]) -> Numeral
    requires { is_integer run.now ≡ true }
    ensures { result ≡ integer_numeral (is_minus run.now) (decimal_value (unsigned run.now)) }
{
    let size = capped_value(without_sign(run)) as i64;
    let value = if is_negative(run) { -size } else { size };
    if -0x8000_0000 <= value && value < 0x8000_0000 {
        Numeral::Whole(Whole::of(value as i32))
    } else {
        Numeral::TooGreat
    }
}
