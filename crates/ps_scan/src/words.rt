//! Numbers and names.
ghost use Rattle.std.specs.Prelude.{◌≡◌, ◌≤◌, ◌+◌, drop, length, IfOk, IfErr};
ghost use Rattle.ps_scan.specs.Characters.{white_after};
ghost use Rattle.ps_scan.specs.Reading.{IsScanRefusal, number, word, read_word, read_literal, read_now, read_slash};
ghost use Rattle.ps_scan.specs.Reading.{named};
ghost use Rattle.ps_scan.specs.Reading.Reading.{Found};
ghost use Rattle.ps_scan.specs.declared.token.Token.TheVariants.{Exec, Literal, Now};

use crate::characters::{regular_len, white_behind};
use crate::numerals::{Numeral, numeral_in};
use crate::token::{FrontToken, ScanFault, Token};
use press_fault::Name;

/// `used`, with the white space behind it.
pub(crate) fn with_white(used: usize, text: &[u8]) -> usize
    requires { used ≤ length text.now }
    ensures value { result ≡ used + white_after (drop used text.now) }
    ensures bound { result ≤ length text.now }
{
    let (_, rest) = text.split_at(used);
    used + white_behind(rest)
}

/// The token of a number, or the limit that it passes.
#[tactic(auto, unfolding(crate::specs::Reading::number))]
fn number_token(numeral: Numeral, run: &[u8], text: &[u8]) -> FrontToken
    requires within { length run.now ≤ length text.now }
    ensures ok { IfOk result (λ found. number numeral run.now text.now ≡ Found found.0 found.1) }
    ensures bound { IfOk result (λ found. found.1 ≤ length text.now) }
    ensures err { IfErr result (λ fault. IsScanRefusal fault (number numeral run.now text.now)) }
{
    match numeral {
        Numeral::Whole(value) => Ok((Token::Int(value), with_white(run.len(), text))),
        Numeral::Decimal(value) => Ok((Token::Real(value), with_white(run.len(), text))),
        Numeral::TooGreat => Err(ScanFault::Limit),
    }
}

/// An executable name.
#[tactic(auto, unfolding(crate::specs::Reading::named))]
fn exec_token(run: &[u8], text: &[u8]) -> FrontToken
    requires within { length run.now ≤ length text.now }
    ensures ok { IfOk result (λ found.
        named Exec run.now (length run.now) text.now ≡ Found found.0 found.1) }
    ensures bound { IfOk result (λ found. found.1 ≤ length text.now) }
    ensures err { IfErr result (λ fault.
        IsScanRefusal fault (named Exec run.now (length run.now) text.now)) }
{
    match Name::of(run) {
        Some(name) => Ok((Token::Exec(name), with_white(run.len(), text))),
        None => Err(ScanFault::Limit),
    }
}

/// The token of a run of regular bytes: a number by its form, else an executable name.
#[tactic(auto, unfolding(crate::specs::Reading::word))]
fn run_token(run: &[u8], text: &[u8]) -> FrontToken
    requires within { length run.now ≤ length text.now }
    ensures ok { IfOk result (λ found. word run.now text.now ≡ Found found.0 found.1) }
    ensures bound { IfOk result (λ found. found.1 ≤ length text.now) }
    ensures err { IfErr result (λ fault. IsScanRefusal fault (word run.now text.now)) }
{
    match numeral_in(run) {
        Some(numeral) => number_token(numeral, run, text),
        None => exec_token(run, text),
    }
}

/// The token of the regular bytes in front.
#[tactic(auto, unfolding(crate::specs::Reading::read_word))]
pub(crate) fn word_token(text: &[u8]) -> FrontToken
    ensures ok { IfOk result (λ found. read_word text.now ≡ Found found.0 found.1) }
    ensures bound { IfOk result (λ found. found.1 ≤ length text.now) }
    ensures err { IfErr result (λ fault. IsScanRefusal fault (read_word text.now)) }
{
    let (run, _) = text.split_at(regular_len(text));
    run_token(run, text)
}

/// A literal name, from its solidus on.
#[tactic(auto, unfolding(crate::specs::Reading::read_literal, crate::specs::Reading::named))]
fn literal_token(text: &[u8]) -> FrontToken
    requires { 1 ≤ length text.now }
    ensures ok { IfOk result (λ found. read_literal text.now ≡ Found found.0 found.1) }
    ensures bound { IfOk result (λ found. found.1 ≤ length text.now) }
    ensures err { IfErr result (λ fault. IsScanRefusal fault (read_literal text.now)) }
{
    let (_, rest) = text.split_at(1);
    let len = regular_len(rest);
    let (run, _) = rest.split_at(len);
    match Name::of(run) {
        Some(name) => Ok((Token::Literal(name), with_white(1 + len, text))),
        None => Err(ScanFault::Limit),
    }
}

/// A name that is looked up at once, from its two solidi on.
#[tactic(auto, unfolding(crate::specs::Reading::read_now, crate::specs::Reading::named))]
fn now_token(text: &[u8]) -> FrontToken
    requires { 2 ≤ length text.now }
    ensures ok { IfOk result (λ found. read_now text.now ≡ Found found.0 found.1) }
    ensures bound { IfOk result (λ found. found.1 ≤ length text.now) }
    ensures err { IfErr result (λ fault. IsScanRefusal fault (read_now text.now)) }
{
    let (_, rest) = text.split_at(2);
    let len = regular_len(rest);
    let (run, _) = rest.split_at(len);
    match Name::of(run) {
        Some(name) => Ok((Token::Now(name), with_white(2 + len, text))),
        None => Err(ScanFault::Limit),
    }
}

/// A name behind a solidus; `rest` is the text behind it.
#[tactic(auto, unfolding(crate::specs::Reading::read_slash))]
pub(crate) fn slash_token(rest: &[u8], text: &[u8]) -> FrontToken
    requires { length rest.now + 1 ≡ length text.now }
    ensures ok { IfOk result (λ found. read_slash rest.now text.now ≡ Found found.0 found.1) }
    ensures bound { IfOk result (λ found. found.1 ≤ length text.now) }
    ensures err { IfErr result (λ fault. IsScanRefusal fault (read_slash rest.now text.now)) }
{
    match rest {
        [] => literal_token(text),
        [c, ..] => if *c == b'/' {
            now_token(text)
        } else {
            literal_token(text)
        },
    }
}
