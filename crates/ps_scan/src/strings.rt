//! Strings in parentheses.
ghost use Rattle.std.specs.Prelude.{◌≡◌, ◌≤◌, ◌<◌, ◌+◌, ◌-◌, ◌*◌, ◌%◌, ◌^◌, ◌++◌, length, true, false, Option, Some};
ghost use Rattle.std.specs.Prelude.{None, IfOk, IfErr, IfSome, MatchOption, drop};
ghost use Rattle.ps_scan.specs.declared.strings.Inside.TheVariants.{Normal};
ghost use Rattle.ps_scan.specs.Strings.{is_octal, escaped};
ghost use Rattle.ps_scan.specs.Reading.{IsScanRefusal, read_paren};
ghost use Rattle.ps_scan.specs.Reading.Reading.{Found};
ghost use Rattle.ps_scan.specs.StringReading.{normal, step, is_small, IsNearFront, walk};

use crate::token::{FrontToken, ScanFault, TEXT_LIMIT, Token, TokenBytes};
use press_fault::Mem;
use std::alloc::Global;

/// Where a reader stands in the body of a string.
#[derive(Clone, Copy, Debug, PartialEq, Eq)]
pub enum Inside {
    /// The next byte has its usual meaning.
    Normal,
    /// Behind a carriage return that ended a line: a line feed goes with it.
    Return,
    /// Behind a backslash.
    Escape,
    /// Behind a backslash and one octal digit, with its value.
    One(u8),
    /// Behind a backslash and two octal digits, with their value.
    Two(u8),
}

/// What a byte of a body does. The number is that of the inner parentheses then open.
#[derive(Clone, Copy, Debug, PartialEq, Eq)]
pub enum Does {
    /// It is the parenthesis that ends the string.
    Ends,
    /// It gives a byte.
    Goes(Inside, usize, u8),
    /// It gives none.
    Waits(Inside, usize),
}

/// Whether a byte is an octal digit.
fn is_octal_digit(c: u8) -> bool
    ensures { result ≡ is_octal c }
{
    48 <= c && c <= 55
}

/// What a byte behind a backslash stands for.
fn escaped_byte(c: u8) -> u8
    ensures { result ≡ escaped c }
{
    match c {
        b'n' => 10,
        b'r' => 13,
        b't' => 9,
        b'b' => 8,
        b'f' => 12,
        _ => c,
    }
}

/// What a byte does in its normal meaning.
fn normal_byte(inner: usize, c: u8) -> Does
    requires { inner < 2 ^ 63 }
    ensures value { result ≡ normal inner c }
    ensures near { IsNearFront inner result }
{
    if c == b'(' {
        Does::Goes(Inside::Normal, inner + 1, b'(')
    } else if c == b')' {
        if inner == 0 {
            Does::Ends
        } else {
            Does::Goes(Inside::Normal, inner - 1, b')')
        }
    } else if c == b'\\' {
        Does::Waits(Inside::Escape, inner)
    } else if c == 13 {
        Does::Goes(Inside::Return, inner, 10)
    } else {
        Does::Goes(Inside::Normal, inner, c)
    }
}

/// What a byte behind a backslash does.
fn escape_byte(inner: usize, c: u8) -> Does
    requires { inner < 2 ^ 63 }
    ensures value { result ≡ (step Inside.Escape inner c).does }
    ensures near { IsNearFront inner result }
{
    if is_octal_digit(c) {
        Does::Waits(Inside::One(c - 48), inner)
    } else if c == 10 {
        Does::Waits(Inside::Normal, inner)
    } else if c == 13 {
        Does::Waits(Inside::Return, inner)
    } else {
        Does::Goes(Inside::Normal, inner, escaped_byte(c))
    }
}

/// What the next byte does: first the octal escape that it ends, if it ends one.
fn step_byte(inside: Inside, inner: usize, c: u8) -> (Option<u8>, Does)
    requires inner { inner < 2 ^ 63 }
    requires small { is_small inside }
    ensures first { result.0 ≡ (step inside inner c).first }
    ensures does { result.1 ≡ (step inside inner c).does }
    ensures near { IsNearFront inner result.1 }
{
    match inside {
        Inside::Normal => (None, normal_byte(inner, c)),
        Inside::Return => {
            if c == 10 {
                (None, Does::Waits(Inside::Normal, inner))
            } else {
                (None, normal_byte(inner, c))
            }
        }
        Inside::Escape => (None, escape_byte(inner, c)),
        Inside::One(v) => {
            if is_octal_digit(c) {
                (None, Does::Waits(Inside::Two(two_octals(v, c)), inner))
            } else {
                (Some(v), normal_byte(inner, c))
            }
        }
        Inside::Two(v) => {
            if is_octal_digit(c) {
                (None, Does::Goes(Inside::Normal, inner, three_octals(v, c)))
            } else {
                (Some(v), normal_byte(inner, c))
            }
        }
    }
}

/// The value of two octal digits, of which the first is worth `v`.
fn two_octals(v: u8, c: u8) -> u8
    requires v { v < 8 }
    requires c { is_octal c ≡ true }
    ensures { result ≡ 8 * v + (c - 48) }
{
    8 * v + (c - 48)
}

/// The value of three octal digits modulo 256, of which the first two are worth `v`.
fn three_octals(v: u8, c: u8) -> u8
    requires { is_octal c ≡ true }
    ensures { result ≡ (8 * v + (c - 48)) % 256 }
{
    ((8 * u16::from(v) + u16::from(c - 48)) % 256) as u8
}

/// How long a body is with its last parenthesis, and how many bytes it means; `None` where it
/// doesn't end.
#[tactic(auto, unfolding(crate::specs::StringReading::walk))]
fn measure(text: &[u8]) -> Option<(usize, usize)>
    requires { length text.now < 2 ^ 63 }
    ensures bound { IfSome result (λ found. found.0 ≤ length text.now) }
    ensures value { MatchOption result ((walk Normal 0 text.now).closed ≡ false)
        (λ found. ((walk Normal 0 text.now).closed ≡ true)
        × (found.0 ≡ (walk Normal 0 text.now).used)
        × (found.1 ≡ length (walk Normal 0 text.now).bytes)) }
{
    let mut inside = Inside::Normal;
    let mut inner: usize = 0;
    let mut count: usize = 0;
    for (i, c) in text.iter().enumerate() {
        let (first, does) = step_byte(inside, inner, *c);
        if first.is_some() {
            count += 1;
        }
        match does {
            Does::Ends => return Some((i + 1, count)),
            Does::Goes(next, depth, _) => {
                inside = next;
                inner = depth;
                count += 1;
            }
            Does::Waits(next, depth) => {
                inside = next;
                inner = depth;
            }
        }
    }
    None
}

/// The bytes that a body means.
#[tactic(auto, unfolding(crate::specs::StringReading::walk))]
fn bytes_of_body(alloc: Global, text: &[u8], count: usize) -> Mem<TokenBytes>
    requires { length text.now < 2 ^ 63 }
    ensures { IfOk result (λ bytes. bytes ≡ (walk Normal 0 text.now).bytes) }
{
    let mut bytes = TokenBytes::with_room(alloc, count)?;
    let mut inside = Inside::Normal;
    let mut inner: usize = 0;
    for c in text {
        let (first, does) = step_byte(inside, inner, *c);
        if let Some(b) = first {
            bytes.push(b)?;
        }
        match does {
            Does::Ends => return Ok(bytes),
            Does::Goes(next, depth, b) => {
                bytes.push(b)?;
                inside = next;
                inner = depth;
            }
            Does::Waits(next, depth) => {
                inside = next;
                inner = depth;
            }
        }
    }
    Ok(bytes)
}

/// A string in parentheses; `text` is what stands behind the first of them. The whole string is
/// read before its length is asked, and its length before memory is.
#[tactic(auto, unfolding(crate::specs::Reading::read_paren))]
pub(crate) fn paren_token(alloc: Global, text: &[u8]) -> FrontToken
    requires { length text.now < 2 ^ 63 }
    ensures ok { IfOk result (λ found. read_paren text.now ≡ Found found.0 found.1) }
    ensures bound { IfOk result (λ found. found.1 ≤ 1 + length text.now) }
    ensures err { IfErr result (λ fault. IsScanRefusal fault (read_paren text.now)) }
{
    match measure(text) {
        None => Err(ScanFault::Syntax),
        Some((used, count)) => {
            if count > TEXT_LIMIT {
                return Err(ScanFault::Limit);
            }
            match bytes_of_body(alloc, text, count) {
                Ok(bytes) => Ok((Token::Text(bytes), 1 + used)),
                Err(_) => Err(ScanFault::NoMemory),
            }
        }
    }
}
