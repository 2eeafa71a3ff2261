//! What a sink takes, counted and hashed as it is written.
ghost use Rattle.std.specs.Prelude.{◌≡◌, ◌≤◌, ◌<◌, ◌++◌, ℕ, List, Bool, [], length, take, is_some, IfSome, IfOk, OnOk};
ghost use Rattle.std.specs.Prelude.{OnErr, IsSomeAnd};
ghost use Rattle.md5.specs.Md5.{Holds, md5};
ghost use Rattle.press_ports.specs.Causes.{Rose, counted};
ghost use Rattle.page_output.specs.Code.Taken.{HasTaken, TakesIn, PassesOn, PassesFront};

use md5::{Digest, Md5};
use press_ports::{Failed, Sink, WriteFault};

/// How many bytes were taken in, and their digest so far where one is asked for.
#[derive(Drop)]
pub struct Tally {
    bytes: u64,
    hasher: Option<Md5>,
}

/// What was taken in.
#[derive(Clone, Copy, Debug, PartialEq, Eq)]
pub struct Taken {
    /// How many bytes; the count stays at its last value, 2^64 - 1.
    pub bytes: u64,
    /// Their MD5 digest, where it was asked for.
    pub digest: Option<[u8; 16]>,
}

impl Tally {
    /// Nothing is taken in yet. A digest is made only where it is asked for.
    pub fn new(is_asked: bool) -> Tally
        ensures { HasTaken is_asked result [] }
    {
        Tally {
            bytes: 0,
            hasher: if is_asked { Some(Md5::new()) } else { None },
        }
    }

    /// Takes in these bytes.
    fn take_in(&mut self, bytes: &[u8])
        ensures { TakesIn self.old self.new bytes.now }
    {
        self.bytes = self.bytes.saturating_add(bytes.len() as u64);
        add(&mut self.hasher, bytes);
    }

    /// What was taken in.
    pub fn finish(self) -> Taken
        ensures bytes { (is_asked : Bool) (taken : List ℕ) → HasTaken is_asked self taken
            → result.bytes ≡ counted 0 (length taken) }
        ensures asked { (is_asked : Bool) (taken : List ℕ) → HasTaken is_asked self taken
            → is_some result.digest ≡ is_asked }
        ensures digest { (is_asked : Bool) (taken : List ℕ) → HasTaken is_asked self taken
            → IfSome result.digest (λ digest. digest ≡ md5 taken) }
    {
        let Tally { bytes, hasher } = self;
        Taken {
            bytes,
            digest: digest_of(hasher),
        }
    }
}

/// The digest of what was added, where there is one.
fn digest_of(hasher: Option<Md5>) -> Option<[u8; 16]>
    ensures asked { is_some result ≡ is_some hasher }
    ensures digest { (taken : List ℕ) → IfSome hasher (λ h. Holds h taken)
        → IfSome result (λ digest. digest ≡ md5 taken) }
{
    match hasher {
        Some(hasher) => Some(hasher.finalize()),
        None => None,
    }
}

/// Adds bytes to a digest, where there is one.
fn add(hasher: &mut Option<Md5>, bytes: &[u8])
    ensures asked { is_some hasher.new ≡ is_some hasher.old }
    ensures digest { (taken : List ℕ) → IfSome hasher.old (λ h. Holds h taken)
        → IfSome hasher.new (λ h. Holds h (taken ++ bytes.now)) }
{
    if let Some(hasher) = hasher {
        hasher.update(bytes);
    }
}

/// Writes a front of the piece, once; the tally takes in just what the sink took.
fn pass_on<O: Sink>(out: &mut O, tally: &mut Tally, piece: &[u8]) -> Result<usize, Failed>
    requires { 0 < length piece.now }
    ensures some { IfOk result (λ n. (0 < n) × (n ≤ length piece.now)) }
    ensures ok { IfOk result (λ n. PassesOn (O.written out.old) (O.written out.new) tally.old tally.new
        (take n piece.now)) }
    ensures err { OnErr result (O.written out.new ≡ O.written out.old) }
    ensures err_tally { OnErr result (tally.new ≡ tally.old) }
    ensures failed { OnErr result (Rose (O.faults out.old) (O.faults out.new)) }
    ensures no_fault { OnOk result (O.faults out.new ≡ O.faults out.old) }
    ensures later { O.faults out.old ≤ O.faults out.new }
{
    let n = out.write(piece)?;
    tally.take_in(&piece[..n]);
    Ok(n)
}

/// Writes the whole piece, and the tally takes it in. Where a write fails, both have a front of the piece and not all
/// of it.
pub fn send_tallied<O: Sink>(out: &mut O, tally: &mut Tally, piece: &[u8]) -> Result<(), WriteFault>
    ensures ok { OnOk result (PassesOn (O.written out.old) (O.written out.new) tally.old tally.new piece.now) }
    ensures err { OnErr result (PassesFront (O.written out.old) (O.written out.new) tally.old tally.new piece.now) }
    ensures failed { OnErr result (Rose (O.faults out.old) (O.faults out.new)) }
    ensures no_fault { OnOk result (O.faults out.new ≡ O.faults out.old) }
    ensures later { O.faults out.old ≤ O.faults out.new }
{
    let mut sent = 0;
    while sent < piece.len() {
        match pass_on(out, tally, &piece[sent..]) {
            Ok(n) => sent += n,
            Err(Failed) => return Err(WriteFault),
        }
    }
    Ok(())
}
