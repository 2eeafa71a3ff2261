//! The tokens of a program, one after another.
ghost use Rattle.std.specs.Prelude.{◌≡◌, ◌≢◌, ◌≤◌, ◌<◌, ◌+◌, ◌*◌, ◌^◌, ◌++◌, ℕ, List, drop, take as list_take, length};
ghost use Rattle.std.specs.Prelude.{min, false, None, IfOk, IfErr, IsErrOf, OnOk, OnErr, ◌↔◌};
ghost use Rattle.ps_scan.specs.Reading.{blank_len, scanned};
ghost use Rattle.ps_scan.specs.Code.Filling.{hex_put, hex_used};
ghost use Rattle.ps_scan.specs.Taking.{hex_count, hex_front, behind_hex};
ghost use Rattle.ps_scan.specs.Outcome.{ScanOutcome, IsWithinLimits, depth_after, IsFaultOf, GivesText};
ghost use Rattle.ps_scan.specs.Outcome.ScanOutcome.{Gives, BreaksSyntax, PassesLimit};

use crate::characters::{blank_front, value_of_digit};
use crate::hex::is_hex_digit;
use crate::reading::front_token;
use crate::token::{FrontToken, ScanFault, Token};
use std::alloc::Global;
use std::marker::Model;

/// The token at the front of a text, and how many bytes it takes.
#[tactic(auto, unfolding(crate::specs::Reading::scanned))]
fn scan(alloc: Global, depth: u32, text: &[u8]) -> FrontToken
    requires { length text.now < 2 ^ 63 }
    ensures ok { IfOk result (λ found.
        scanned depth text.now ≡ Gives found.0 (drop found.1 text.now)) }
    ensures bound { IfOk result (λ found. found.1 ≤ length text.now) }
    ensures limits { IfOk result (λ found. IsWithinLimits depth found.0 (drop found.1 text.now)) }
    ensures err { IfErr result (λ fault. IsFaultOf fault (scanned depth text.now)) }
{
    let blank = blank_front(text);
    let (_, start) = text.split_at(blank);
    match front_token(alloc, depth, start) {
        Ok((token, used)) => Ok((token, blank + used)),
        Err(refusal) => Err(refusal),
    }
}

/// A program's text and the place in it, which contracts see as the text that is left and the
/// number of procedures open. No text is copied but the bytes of a string.
#[derive(Drop)]
pub struct Scanner {
    program: Vec<u8>,
    at: usize,
    depth: u32,
}

impl Model for Scanner {
    ghost use Rattle.std.specs.Prelude.{◌≤◌, ◌<◌, ◌^◌, drop, vec_len};
    ghost use Rattle.ps_scan.specs.Place.{ScannerValue};

    ghost Value = { ScannerValue };

    ghost view = { λ s. record { depth = s.depth; rest = drop s.at s.program.items } };

    ghost invariant = { λ s. (s.at ≤ vec_len s.program) × (vec_len s.program < 2 ^ 63)
        × (s.depth ≤ 64) };
}

impl Scanner {
    /// A scanner at the start of a program, with no procedure open.
    pub fn new(program: Vec<u8>) -> Scanner
        ensures { result ≡ record { depth = 0; rest = program.items } }
    {
        Scanner {
            program,
            at: 0,
            depth: 0,
        }
    }

    /// How many procedures are open: the `{` given less the `}` given.
    pub fn depth(&self) -> u32
        ensures value { result ≡ self.now.depth }
        ensures bound { result ≤ 64 }
    {
        self.depth
    }

    /// The text behind the last token and behind what was taken since.
    pub fn rest(&self) -> &[u8]
        ensures { result.now ≡ self.now.rest }
    {
        let (_, text) = self.program.split_at(self.at);
        text
    }

    /// The next token: that of the token grammar, and no other. The place goes behind it and the
    /// white space that goes with it.
    ///
    /// Syntax and Limit come exactly where the grammar has them, and NoMemory only in place of a
    /// string. After a refusal the place is as before. (PostScript Language Reference, third
    /// edition, 3.2 Syntax.)
    pub fn next(&mut self, alloc: Global) -> Result<Token, ScanFault>
        ensures ok { IfOk result (λ token.
            scanned self.old.depth self.old.rest ≡ Gives token self.new.rest) }
        ensures depth { IfOk result (λ token. self.new.depth ≡ depth_after token self.old.depth) }
        ensures limits { IfOk result (λ token. IsWithinLimits self.old.depth token self.new.rest) }
        ensures syntax { IsErrOf result ScanFault.Syntax
            ↔ (scanned self.old.depth self.old.rest ≡ BreaksSyntax) }
        ensures limit { IsErrOf result ScanFault.Limit
            ↔ (scanned self.old.depth self.old.rest ≡ PassesLimit) }
        // memory is asked for a string alone, so the two clauses above leave nothing open
        ensures memory { IsErrOf result ScanFault.NoMemory
            → GivesText (scanned self.old.depth self.old.rest) }
        ensures kept { OnErr result (self.new ≡ self.old) }
    {
        let (_, text) = self.program.split_at(self.at);
        match scan(alloc, self.depth, text) {
            Ok((token, used)) => {
                match &token {
                    Token::Open => self.depth += 1,
                    Token::Close => self.depth -= 1,
                    _ => {}
                }
                self.at += used;
                Ok(token)
            }
            Err(fault) => Err(fault),
        }
    }

    /// Puts the bytes behind the last token, or behind what was taken since, at the front of
    /// `into`: `n` of them, or as many as are left. The answer is their number. For `readstring`
    /// (8.2).
    pub fn take(&mut self, n: usize, into: &mut [u8]) -> usize
        requires { n ≤ length into.old }
        ensures count { result ≡ min n (length self.old.rest) }
        ensures bytes { into.new ≡ list_take result self.old.rest ++ drop result into.old }
        ensures place { self.new
            ≡ record { depth = self.old.depth; rest = drop result self.old.rest } }
    {
        let (_, text) = self.program.split_at(self.at);
        let count = n.min(text.len());
        let (front, _) = text.split_at(count);
        put_front(into, front);
        self.at += count;
        count
    }

    /// Goes past so many bytes behind the last token, or behind what was taken since: those that `rest`
    /// has shown and that were read there.
    pub fn skip(&mut self, n: usize)
        requires { n ≤ length self.old.rest }
        ensures { self.new ≡ record { depth = self.old.depth; rest = drop n self.old.rest } }
    {
        let (_, text) = self.program.split_at(self.at);
        self.at += n.min(text.len());
    }

    /// Fills `into` with the bytes that the hexadecimal digits behind the last token write in
    /// pairs, and says how many. Other bytes are skipped. The place is then right behind the last
    /// digit used; it is the program's end, where there are too few, and a last digit with no
    /// partner is dropped. For `readhexstring` (8.2).
    pub fn take_hex(&mut self, into: &mut [u8]) -> usize
        ensures count { result ≡ hex_count (length into.old) self.old.rest }
        ensures bytes { into.new
            ≡ hex_front (length into.old) self.old.rest ++ drop result into.old }
        ensures place { self.new ≡ record {
          depth = self.old.depth;
          rest = behind_hex (2 * length into.old) self.old.rest;
        } }
    {
        let (_, text) = self.program.split_at(self.at);
        let (put, used) = put_hex(text, into);
        self.at += used;
        put
    }
}

fn put_front(into: &mut [u8], bytes: &[u8])
    requires { length bytes.now ≤ length into.old }
    ensures { into.new ≡ bytes.now ++ drop (length bytes.now) into.old }
{
    let len = bytes.len();
    into[..len].copy_from_slice(bytes);
}

/// How many bytes are put, and how many are read for them.
#[tactic(auto, using(crate::proofs::Digits::put_len, crate::proofs::Digits::put_is_front, crate::proofs::Digits::left_is_behind))]
fn put_hex(text: &[u8], into: &mut [u8]) -> (usize, usize)
    ensures count { result.0 ≡ hex_count (length into.old) text.now }
    ensures bytes { into.new ≡ hex_front (length into.old) text.now ++ drop result.0 into.old }
    ensures behind { drop result.1 text.now ≡ behind_hex (2 * length into.old) text.now }
    ensures bound { result.1 ≤ length text.now }
{
    fill_hex(text, into)
}

/// The same, told from left to right.
#[tactic(auto, unfolding(crate::specs::Code::Filling::hex_put, crate::specs::Code::Filling::hex_used))]
fn fill_hex(text: &[u8], into: &mut [u8]) -> (usize, usize)
    ensures count { result.0 ≡ length (hex_put (length into.old) None text.now) }
    ensures bytes { into.new ≡ hex_put (length into.old) None text.now ++ drop result.0 into.old }
    ensures used { result.1 ≡ hex_used (length into.old) None text.now }
    ensures bound { result.1 ≤ length text.now }
{
    let mut put = 0;
    let mut half: Option<u8> = None;
    for (i, c) in text.iter().enumerate() {
        if put == into.len() {
            return (put, i);
        }
        if is_hex_digit(*c) {
            match half {
                None => half = Some(value_of_digit(*c)),
                Some(high) => {
                    into[put] = 16 * high + value_of_digit(*c);
                    put += 1;
                    half = None;
                }
            }
        }
    }
    (put, text.len())
}
