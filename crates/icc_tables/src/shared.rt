//! Bytes that several values share.
ghost use Rattle.std.specs.Prelude.{◌≡◌, ◌≤◌, length, take, IfOk};

use std::alloc::{AllocError, Global};
use std::marker::Model;
use std::sync::Arc;

/// The bytes of a profile, which its lattices share: a lattice has up to as many as the profile, and
/// is read where it stands.
#[derive(Drop)]
pub struct SharedBytes {
    bytes: Arc<Vec<u8>>,
    /// How many of them count: those after are of nobody.
    count: usize,
}

impl Model for SharedBytes {
    ghost use Rattle.std.specs.Prelude.{ℕ, List, length, take, ◌≤◌};

    ghost Value = { List ℕ };

    ghost view = { λ b. take b.count b.bytes.value.items };

    ghost invariant = { λ b. b.count ≤ length b.bytes.value.items };
}

impl SharedBytes {
    /// These bytes, from now on shared. It takes memory for the share alone.
    pub fn new(alloc: Global, bytes: Vec<u8>) -> Result<SharedBytes, AllocError>
        ensures { IfOk result (λ shared. shared ≡ bytes.items) }
    {
        let count = bytes.len();
        Ok(SharedBytes {
            bytes: Arc::new(alloc, bytes)?,
            count,
        })
    }

    /// One share more of the same bytes.
    pub fn share(&self) -> Result<SharedBytes, AllocError>
        ensures { IfOk result (λ shared. shared ≡ self.now) }
    {
        Ok(SharedBytes {
            bytes: Arc::try_clone(&self.bytes)?,
            count: self.count,
        })
    }

    /// The first of them alone. Other shares keep all.
    #[tactic(auto, using(crate::proofs::Stored::take_take))]
    pub fn cut(self, count: usize) -> SharedBytes
        requires { count ≤ length self }
        ensures { result ≡ take count self }
    {
        SharedBytes {
            bytes: self.bytes,
            count,
        }
    }

    /// The bytes, in order.
    pub fn items(&self) -> &[u8]
        ensures { result.now ≡ self.now }
    {
        let bytes: &Vec<u8> = &self.bytes;
        let (front, _) = bytes.split_at(self.count);
        front
    }
}
