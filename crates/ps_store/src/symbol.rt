//! Names that are kept for good.
ghost use Rattle.std.specs.Prelude.{◌≡◌, ◌≤◌, length, IfOk};
ghost use Rattle.std.specs.Str.{bytes_eq};
ghost use Rattle.std.specs.Int.{w64, from_le_bytes, to_le_bytes};
ghost use Rattle.ps_store.specs.Code.Hashing.{hash_of, head_bytes};

use press_fault::{Mem, Name};
use std::alloc::Global;
use std::cell::Cell;
use std::fmt;
use std::hash::{Hash, Hasher};
use std::marker::Model;

/// What is kept of a name: its bytes, at most 127, the first eight of them as a number, their hash,
/// and the place at which a dictionary had it last. Contracts see the bytes alone.
#[derive(Drop)]
struct Kept {
    hash: u32,
    last_place: Cell<u32>,
    head: u64,
    bytes: &'static [u8],
}

impl Model for Kept {
    ghost use Rattle.std.specs.Prelude.{List, ℕ};
    ghost use Rattle.ps_store.specs.Code.Hashing.{IsKept};

    ghost Value = { List ℕ };

    ghost view = { λ kept. kept.bytes.now };

    ghost invariant = { λ kept. IsKept kept.hash kept.head kept.bytes.now };
}

impl Kept {
    fn bytes(&self) -> &'static [u8]
        ensures bytes { result.now ≡ self.now }
        ensures short { length result.now ≤ 127 }
    {
        self.bytes
    }

    fn hash(&self) -> u32
        ensures { result ≡ hash_of self.now }
    {
        self.hash
    }

    /// Whether it is the same name. The first eight bytes and the number of bytes decide, but for
    /// long names.
    fn is(&self, other: &Kept) -> bool
        ensures { result ≡ bytes_eq self.now other.now }
    {
        if self.head != other.head || self.bytes.len() != other.bytes.len() {
            return false;
        }
        self.bytes.len() <= 8 || self.bytes == other.bytes
    }

    fn last_place(&self) -> usize {
        self.last_place.get() as usize
    }

    fn found_at(&self, place: u32) {
        self.last_place.set(place);
    }
}

/// A name of at most 127 bytes that is kept for good, as small as a pointer (PostScript Language
/// Reference, third edition, 3.3.4 Name Objects). Contracts see its bytes.
///
/// A store makes it (`Store::symbol`) and keeps each name once. It is repeated by `again`, which
/// takes no memory.
#[derive(Drop)]
pub struct Symbol {
    kept: &'static Kept,
}

impl Model for Symbol {
    ghost use Rattle.std.specs.Prelude.{List, ℕ};

    ghost Value = { List ℕ };

    ghost view = { λ symbol. symbol.kept.now };
}

impl fmt::Debug for Symbol {
    ghost use Rattle.std.specs.Prelude.{None};

    ghost debug_output = { λ _. None };

    fn fmt<W: fmt::Write>(&self, f: &mut fmt::Formatter<W>) -> fmt::Result {
        self.bytes().fmt(f)
    }
}

impl PartialEq for Symbol {
    ghost use Rattle.std.specs.Str.{bytes_eq};
    ghost use Rattle.std.proofs.Common.{rules};
    ghost use Rattle.std.specs.Cmp.Rules.{comparing};

    ghost eq = { bytes_eq };

    ghost laws = { Prim.search (comparing, rules) };

    fn eq(&self, other: &Symbol) -> bool {
        self.kept.is(other.kept)
    }
}

impl Eq for Symbol {
    ghost use Rattle.std.proofs.Common.{rules};
    ghost use Rattle.std.specs.Cmp.Rules.{comparing};

    ghost laws = { Prim.search (comparing, rules) };
}

impl Hash for Symbol {
    ghost use Rattle.std.proofs.Common.{ap};
    ghost use Rattle.std.specs.Cmp.Lexicographic.{bytes_decides};
    ghost use Rattle.std.specs.Hash as fed;
    ghost use Rattle.ps_store.specs.Code.Hashing.{hash_of};

    ghost hash_input = { λ symbol. fed.u32 (hash_of symbol) };

    ghost respects_eq = { λ x y h. ap (λ name. fed.u32 (hash_of name)) ((bytes_decides x y).0 h) };

    fn hash<H: Hasher>(&self, state: &mut H) {
        self.kept_hash().hash(state);
    }
}

impl Symbol {
    /// Keeps a name in memory that is never given back.
    pub(crate) fn new(alloc: Global, name: &Name) -> Mem<Symbol>
        ensures { IfOk result (λ symbol. symbol ≡ name.now) }
    {
        let bytes = Vec::from_slice(alloc, name.bytes())?;
        let bytes: &'static [u8] = bytes.leak();
        let kept = Box::new(
            alloc,
            Kept {
                hash: hash_of(bytes),
                last_place: Cell::new(0),
                head: head_of(bytes),
                bytes,
            },
        )?;
        let kept: &'static Kept = Box::leak(kept);
        Ok(Symbol { kept })
    }

    /// The same name once more.
    pub fn again(&self) -> Symbol
        ensures { result ≡ self.now }
    {
        Symbol { kept: self.kept }
    }

    /// The name's bytes.
    pub fn bytes(&self) -> &'static [u8]
        ensures bytes { result.now ≡ self.now }
        ensures short { length result.now ≤ 127 }
    {
        self.kept.bytes()
    }

    /// The name, held in itself.
    pub fn name(&self) -> Name
        ensures { result ≡ self.now }
    {
        match Name::of(self.bytes()) {
            Some(name) => name,
            None => unreachable!(),
        }
    }

    /// The hash of the name's bytes.
    pub(crate) fn kept_hash(&self) -> u32
        ensures { result ≡ hash_of self.now }
    {
        self.kept.hash()
    }

    /// The place at which a dictionary had the name last, a hint alone: it may be any place.
    pub(crate) fn last_place(&self) -> usize {
        self.kept.last_place()
    }

    /// Notes the place at which a dictionary has the name.
    pub(crate) fn found_at(&self, place: u32) {
        self.kept.found_at(place);
    }
}

/// The hash of a name's bytes.
pub(crate) fn hash_of(bytes: &[u8]) -> u32
    ensures { result ≡ hash_of bytes.now }
{
    let mut hash: u32 = 2_166_136_261;
    for byte in bytes {
        hash = hash.wrapping_mul(16_777_619).wrapping_add(u32::from(*byte));
    }
    hash
}

/// The first eight bytes of a name as a number, with zeros behind a shorter one.
fn head_of(bytes: &[u8]) -> u64
    ensures value { result ≡ from_le_bytes w64 (head_bytes bytes.now) }
    ensures bytes { to_le_bytes w64 result ≡ head_bytes bytes.now }
{
    u64::from_le_bytes(first_bytes(bytes))
}

/// The first eight bytes of a name, with zeros behind a shorter one.
fn first_bytes(bytes: &[u8]) -> [u8; 8]
    ensures { result ≡ head_bytes bytes.now }
{
    let mut first = [0; 8];
    for at in 0..bytes.len().min(8) {
        first[at] = bytes[at];
    }
    first
}
