//! The token at the front of a text, by its first byte.
ghost use Rattle.std.specs.Prelude.{◌≡◌, ◌≤◌, ◌<◌, ◌+◌, ◌∷◌, [], ◌^◌, length, IfOk, IfErr};
ghost use Rattle.ps_scan.specs.Reading.{IsScanRefusal, reads, and_white, ended, opened, closed, read_less};
ghost use Rattle.ps_scan.specs.Reading.{read_greater};
ghost use Rattle.ps_scan.specs.Reading.Reading.{Found};
ghost use Rattle.ps_scan.specs.declared.token.Token.TheVariants.{Exec};

use crate::characters::is_regular_byte;
use crate::hex::hex_token;
use crate::strings::paren_token;
use crate::token::{FrontToken, ScanFault, Token};
use crate::words::{slash_token, with_white, word_token};
use press_fault::Name;
use std::alloc::Global;

/// The most procedures that may be open at once.
pub const NESTING_LIMIT: u32 = 64;

/// `{`, unless 64 procedures are open.
fn open_token(depth: u32) -> FrontToken
    ensures ok { IfOk result (λ found. opened depth ≡ Found found.0 found.1) }
    ensures bound { IfOk result (λ found. found.1 ≤ 1) }
    ensures err { IfErr result (λ fault. IsScanRefusal fault (opened depth)) }
{
    if depth < NESTING_LIMIT {
        Ok((Token::Open, 1))
    } else {
        Err(ScanFault::Limit)
    }
}

/// `}`, unless no procedure is open.
fn close_token(depth: u32) -> FrontToken
    ensures ok { IfOk result (λ found. closed depth ≡ Found found.0 found.1) }
    ensures bound { IfOk result (λ found. found.1 ≤ 1) }
    ensures err { IfErr result (λ fault. IsScanRefusal fault (closed depth)) }
{
    if 0 < depth {
        Ok((Token::Close, 1))
    } else {
        Err(ScanFault::Syntax)
    }
}

/// The end of the text, unless a procedure is open.
fn end_token(depth: u32) -> FrontToken
    ensures ok { IfOk result (λ found. ended depth ≡ Found found.0 found.1) }
    ensures bound { IfOk result (λ found. found.1 ≤ 0) }
    ensures err { IfErr result (λ fault. IsScanRefusal fault (ended depth)) }
{
    if depth == 0 {
        Ok((Token::End, 0))
    } else {
        Err(ScanFault::Syntax)
    }
}

/// `[` or `]`, as an executable name.
fn bracket_token(c: u8, text: &[u8]) -> FrontToken
    requires { 1 ≤ length text.now }
    ensures ok { IfOk result (λ found.
        and_white (Exec (c ∷ [])) 1 text.now ≡ Found found.0 found.1) }
    ensures bound { IfOk result (λ found. found.1 ≤ length text.now) }
    ensures err { IfErr result (λ fault. IsScanRefusal fault (and_white (Exec (c ∷ [])) 1 text.now)) }
{
    match Name::of(&[c]) {
        Some(name) => Ok((Token::Exec(name), with_white(1, text))),
        None => Err(ScanFault::Limit),
    }
}

/// `<<` or `>>`, as an executable name.
fn pair_token(first: u8, second: u8, text: &[u8]) -> FrontToken
    requires { 2 ≤ length text.now }
    ensures ok { IfOk result (λ found.
        and_white (Exec (first ∷ second ∷ [])) 2 text.now ≡ Found found.0 found.1) }
    ensures bound { IfOk result (λ found. found.1 ≤ length text.now) }
    ensures err { IfErr result (λ fault.
        IsScanRefusal fault (and_white (Exec (first ∷ second ∷ [])) 2 text.now)) }
{
    match Name::of(&[first, second]) {
        Some(name) => Ok((Token::Exec(name), with_white(2, text))),
        None => Err(ScanFault::Limit),
    }
}

/// What begins with `<`; `rest` is the text behind it.
#[tactic(auto, unfolding(crate::specs::Reading::read_less))]
fn less_token(alloc: Global, rest: &[u8], text: &[u8]) -> FrontToken
    requires len { length rest.now + 1 ≡ length text.now }
    requires short { length text.now < 2 ^ 63 }
    ensures ok { IfOk result (λ found. read_less rest.now text.now ≡ Found found.0 found.1) }
    ensures bound { IfOk result (λ found. found.1 ≤ length text.now) }
    ensures err { IfErr result (λ fault. IsScanRefusal fault (read_less rest.now text.now)) }
{
    match rest {
        [] => Err(ScanFault::Syntax),
        [c, ..] => if *c == b'<' {
            pair_token(b'<', b'<', text)
        } else {
            hex_token(alloc, rest)
        },
    }
}

/// What begins with `>`; `rest` is the text behind it.
#[tactic(auto, unfolding(crate::specs::Reading::read_greater))]
fn greater_token(rest: &[u8], text: &[u8]) -> FrontToken
    requires { length rest.now + 1 ≡ length text.now }
    ensures ok { IfOk result (λ found. read_greater rest.now text.now ≡ Found found.0 found.1) }
    ensures bound { IfOk result (λ found. found.1 ≤ length text.now) }
    ensures err { IfErr result (λ fault. IsScanRefusal fault (read_greater rest.now text.now)) }
{
    match rest {
        [] => Err(ScanFault::Syntax),
        [c, ..] => if *c == b'>' {
            pair_token(b'>', b'>', text)
        } else {
            Err(ScanFault::Syntax)
        },
    }
}

/// The token at the front of a text that begins with neither white space nor a comment.
#[tactic(auto, unfolding(crate::specs::Reading::reads))]
pub(crate) fn front_token(alloc: Global, depth: u32, text: &[u8]) -> FrontToken
    requires { length text.now < 2 ^ 63 }
    ensures ok { IfOk result (λ found. reads depth text.now ≡ Found found.0 found.1) }
    ensures bound { IfOk result (λ found. found.1 ≤ length text.now) }
    ensures err { IfErr result (λ fault. IsScanRefusal fault (reads depth text.now)) }
{
    match text {
        [] => end_token(depth),
        [c, rest @ ..] => {
            if is_regular_byte(*c) {
                word_token(text)
            } else if *c == b'/' {
                slash_token(rest, text)
            } else if *c == b'{' {
                open_token(depth)
            } else if *c == b'}' {
                close_token(depth)
            } else if *c == b'[' || *c == b']' {
                bracket_token(*c, text)
            } else if *c == b'<' {
                less_token(alloc, rest, text)
            } else if *c == b'>' {
                greater_token(rest, text)
            } else if *c == b'(' {
                paren_token(alloc, rest)
            } else {
                Err(ScanFault::Syntax)
            }
        }
    }
}
