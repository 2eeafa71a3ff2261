//! Hexadecimal digits, and strings of them.
ghost use Rattle.std.specs.Prelude.{◌≡◌, ◌≤◌, ◌<◌, IsTrue, IfErr, ◌+◌, ◌*◌, ◌/◌, ◌^◌, ◌++◌, length, true, false};
ghost use Rattle.std.specs.Prelude.{Option, Some, None, IfOk};
ghost use Rattle.std.specs.List.{prefix_len, count_by};
ghost use Rattle.ps_scan.specs.Characters.{is_hex, digit_value, is_hex_or_white, begins, is_greater};
ghost use Rattle.ps_scan.specs.Reading.{IsScanRefusal, hex_bytes, hex_len, hex_text, read_hex};
ghost use Rattle.ps_scan.specs.Reading.Reading.{Found};

use crate::characters::{is_white_space, value_of_digit};
use crate::token::{FrontToken, ScanFault, TEXT_LIMIT, Token, TokenBytes};
use press_fault::Mem;
use std::alloc::Global;

/// Whether a byte is a hexadecimal digit.
pub(crate) fn is_hex_digit(c: u8) -> bool
    ensures { result ≡ is_hex c }
{
    matches!(c, b'0'..=b'9' | b'A'..=b'F' | b'a'..=b'f')
}

/// How many hexadecimal digits and bytes of white space stand in front.
fn hex_or_white_len(text: &[u8]) -> usize
    ensures value { result ≡ prefix_len is_hex_or_white text.now }
    ensures bound { result ≤ length text.now }
{
    text.iter()
        .take_while(|c| is_hex_digit(**c) || is_white_space(**c))
        .count()
}

/// How many bytes the digits stand for.
fn hex_count(body: &[u8]) -> usize
    requires { length body.now < 2 ^ 63 }
    ensures { result ≡ hex_len body.now }
{
    let digits = body.iter().filter(|c| is_hex_digit(**c)).count();
    (digits + 1) / 2
}

/// The bytes that the digits stand for.
#[tactic(auto, unfolding(crate::specs::Reading::hex_bytes))]
fn bytes_of_hex(alloc: Global, body: &[u8], count: usize) -> Mem<TokenBytes>
    ensures { IfOk result (λ bytes. bytes ≡ hex_bytes None body.now) }
{
    let mut bytes = TokenBytes::with_room(alloc, count)?;
    let mut half: Option<u8> = None;
    for c in body {
        if is_hex_digit(*c) {
            match half {
                None => half = Some(value_of_digit(*c)),
                Some(high) => {
                    bytes.push(16 * high + value_of_digit(*c))?;
                    half = None;
                }
            }
        }
    }
    if let Some(high) = half {
        bytes.push(16 * high)?;
    }
    Ok(bytes)
}

/// A hexadecimal string, by its body.
/// The bytes of a hexadecimal string, whose body stands between `<` and `>`.
#[tactic(auto, unfolding(crate::specs::Reading::hex_text))]
fn hex_text_token(alloc: Global, body: &[u8]) -> FrontToken
    requires { length body.now < 2 ^ 63 }
    ensures ok { IfOk result (λ found. hex_text body.now ≡ Found found.0 found.1) }
    ensures bound { IfOk result (λ found. found.1 ≡ length body.now + 2) }
    ensures err { IfErr result (λ fault. IsScanRefusal fault (hex_text body.now)) }
{
    let count = hex_count(body);
    if count > TEXT_LIMIT {
        return Err(ScanFault::Limit);
    }
    match bytes_of_hex(alloc, body, count) {
        Ok(bytes) => Ok((Token::Text(bytes), body.len() + 2)),
        Err(_) => Err(ScanFault::NoMemory),
    }
}

/// A hexadecimal string; `text` is what stands behind `<`.
#[tactic(auto, unfolding(crate::specs::Reading::read_hex))]
pub(crate) fn hex_token(alloc: Global, text: &[u8]) -> FrontToken
    requires { length text.now < 2 ^ 63 }
    ensures ok { IfOk result (λ found. read_hex text.now ≡ Found found.0 found.1) }
    ensures bound { IfOk result (λ found. found.1 ≤ 1 + length text.now) }
    ensures err { IfErr result (λ fault. IsScanRefusal fault (read_hex text.now)) }
{
    let (body, rest) = text.split_at(hex_or_white_len(text));
    if begins_greater(rest) {
        hex_text_token(alloc, body)
    } else {
        Err(ScanFault::Syntax)
    }
}

/// Whether `>` is in front.
fn begins_greater(text: &[u8]) -> bool
    ensures value { result ≡ begins is_greater text.now }
    ensures some { IsTrue result → 0 < length text.now }
{
    match text {
        [] => false,
        [c, ..] => *c == b'>',
    }
}
