//! Bits by which a dictionary tells most names that it lacks.
ghost use Rattle.std.specs.Prelude.{◌≡◌, replicate};
ghost use Rattle.ps_store.specs.Code.Marking.{is_marked, marked, marked_by};

use crate::key::Key;
use std::marker::Model;

/// One of 256 bits is set for the hash of each name that a dictionary has, so a name without its
/// bit isn't there.
#[derive(Clone, Copy)]
pub(crate) struct Marks {
    words: [u64; 4],
}

impl Model for Marks {
    ghost use Rattle.std.specs.Prelude.{◌≡◌, List, ℕ, length};

    ghost Value = { List ℕ };

    ghost view = { λ marks. marks.words };

    ghost inverse = { λ words. record { words = words } };
}

impl Marks {
    /// No names.
    pub(crate) fn none() -> Marks
        ensures { result ≡ replicate 4 0 }
    {
        Marks { words: [0; 4] }
    }

    /// Whether a name of this hash may be there.
    pub(crate) fn has(&self, hash: u32) -> bool
        ensures { result ≡ is_marked self.now hash }
    {
        let word = self.words[(hash / 64 % 4) as usize];
        word >> (hash % 64) & 1 == 1
    }

    /// The marks with that of a key, if it is a name.
    pub(crate) fn with(&self, key: &Key) -> Marks
        ensures { result ≡ marked_by self.now key.now }
    {
        match key {
            Key::Named(name) => self.with_hash(name.kept_hash()),
            _ => *self,
        }
    }

    fn with_hash(&self, hash: u32) -> Marks
        ensures { result ≡ marked self.now hash }
    {
        let mut words = self.words;
        let place = (hash / 64 % 4) as usize;
        words[place] |= 1 << (hash % 64);
        Marks { words }
    }
}
