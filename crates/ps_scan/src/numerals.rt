//! Runs of regular bytes that are numbers.
ghost use Rattle.std.specs.Prelude.{◌≡◌, ◌≤◌, ◌+◌, length, true};
ghost use Rattle.std.specs.List.{prefix_len, list_all};
ghost use Rattle.ps_scan.specs.Characters.{is_digit};
ghost use Rattle.ps_scan.specs.NumeralReading.{digits_in, behind_digits, numeral_of};

use crate::integers::{integer_value, is_integer_run};
use crate::radix::{is_radix_run, radix_number};
use crate::reals::real_number;
use press_nums::{Fix, Whole};

/// The value of a number.
#[derive(Clone, Copy, Debug, PartialEq, Eq)]
pub enum Numeral {
    /// An integer, or a radix number.
    Whole(Whole),
    /// A real.
    Decimal(Fix),
    /// It is out of range, or has too many digits.
    TooGreat,
}

/// How many digits stand in front.
fn digit_len(text: &[u8]) -> usize
    ensures value { result ≡ prefix_len is_digit text.now }
    ensures bound { result ≤ length text.now }
{
    text.iter().take_while(|c| 48 <= **c && **c <= 57).count()
}

/// The digits in front, and what stands behind them.
#[tactic(auto, using(crate::proofs::Runs::passes_front))]
pub(crate) fn split_digits(text: &[u8]) -> (&[u8], &[u8])
    ensures digits { result.0.now ≡ digits_in text.now }
    ensures behind { result.1.now ≡ behind_digits text.now }
    ensures all { list_all is_digit result.0.now ≡ true }
    ensures lengths { length result.0.now + length result.1.now ≡ length text.now }
{
    text.split_at(digit_len(text))
}

/// The number that a run is, `None` exactly where it has no form of a number.
#[tactic(auto, unfolding(crate::specs::NumeralReading::numeral_of))]
pub(crate) fn numeral_in(run: &[u8]) -> Option<Numeral>
    ensures { result ≡ numeral_of run.now }
{
    if is_integer_run(run) {
        Some(integer_value(run))
    } else if is_radix_run(run) {
        Some(radix_number(run))
    } else {
        real_number(run)
    }
}
