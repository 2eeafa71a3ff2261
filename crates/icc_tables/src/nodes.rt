//! The nodes of a lattice, where they stand in a profile's bytes.
ghost use Rattle.std.specs.Prelude.{◌≡◌, ◌≤◌, ◌<◌, ◌+◌, ◌*◌, length, drop, slice_index, IfOk};
ghost use Rattle.byteorder.specs.Endian.{big_number};
ghost use Rattle.icc_tables.specs.Stored.{node_in, nodes_of, size_of, most_of, IsTagAt};
ghost use Rattle.icc_tables.specs.Lattice.{AreAtMost};

use crate::shared::SharedBytes;
use byteorder::{BigEndian, ByteOrder};
use std::alloc::AllocError;
use std::marker::Model;

/// How the value of a node is written.
#[derive(Clone, Copy, Debug, PartialEq, Eq)]
pub enum NodeSize {
    /// In one byte.
    Byte,
    /// In one byte, and 257 times as great: a value of 8 bits in 16.
    Widened,
    /// In two, the highest first.
    Word,
}

/// The nodes of a lattice. They take no memory beside the bytes that they stand in.
#[derive(Drop)]
pub struct Nodes {
    bytes: SharedBytes,
    from: usize,
    count: usize,
    size: NodeSize,
}

impl Model for Nodes {
    ghost use Rattle.std.specs.Prelude.{ℕ, List, ◌+◌, ◌*◌, ◌≤◌, length};
    ghost use Rattle.icc_tables.specs.Stored.{nodes_of, size_of};

    ghost Value = { List ℕ };

    ghost view = { λ n. nodes_of n.size n.bytes n.from n.count };

    ghost invariant = { λ n. n.from + size_of n.size * n.count ≤ length n.bytes };
}

/// Bytes are at most 255.
fn see_bytes(bytes: &[u8])
    ensures { AreAtMost 255 bytes.now }
{}

/// The number of two bytes at a place.
fn word_at(bytes: &[u8], at: usize) -> u16
    requires { at + 2 ≤ length bytes.now }
    ensures { result ≡ big_number 2 (drop at bytes.now) }
{
    BigEndian::read_u16(&bytes[at..])
}

/// The value of the node of this number, of those that begin at a place.
fn node_in(size: NodeSize, bytes: &[u8], from: usize, k: usize) -> u16
    requires { from + size_of size * (k + 1) ≤ length bytes.now }
    ensures { result ≡ node_in size bytes.now from k }
{
    match size {
        NodeSize::Byte => u16::from(bytes[from + k]),
        NodeSize::Widened => 257 * u16::from(bytes[from + k]),
        NodeSize::Word => word_at(bytes, from + 2 * k),
    }
}

impl Nodes {
    /// So many nodes, from a place on.
    #[tactic(auto, using(crate::proofs::Stored::nodes_most))]
    pub fn new(bytes: SharedBytes, from: usize, count: usize, size: NodeSize) -> Nodes
        requires { from + size_of size * count ≤ length bytes }
        ensures value { result ≡ nodes_of size bytes from count }
        ensures most { AreAtMost (most_of size) result }
    {
        see_bytes(bytes.items());
        Nodes {
            bytes,
            from,
            count,
            size,
        }
    }

    /// How many they are.
    #[tactic(auto, using(crate::proofs::Stored::nodes_count))]
    pub fn count(&self) -> usize
        ensures { result ≡ length self.now }
    {
        self.count
    }

    /// The value of the node of this number.
    #[tactic(auto, using(crate::proofs::Stored::nodes_count, crate::proofs::Stored::nodes_at, crate::proofs::Stored::node_fits))]
    pub fn at(&self, k: usize) -> u16
        requires { k < length self.now }
        ensures { result ≡ slice_index self.now k }
    {
        node_in(self.size, self.bytes.items(), self.from, k)
    }
}

/// So many nodes of a tag that begins at a place among a profile's bytes, from a place `at` of the tag
/// on.
pub fn nodes_of_tag(
    bytes: &SharedBytes,
    offset: usize,
    tag: &[u8],
    at: usize,
    count: usize,
    size: NodeSize,
) -> Result<Nodes, AllocError>
    requires place { IsTagAt bytes.now offset tag.now }
    requires inside { at + size_of size * count ≤ length tag.now }
    ensures items { IfOk result (λ nodes. nodes ≡ nodes_of size tag.now at count) }
    ensures length { IfOk result (λ nodes. length nodes ≡ count) }
    ensures most { IfOk result (AreAtMost (most_of size)) }
{
    Ok(Nodes::new(bytes.share()?, offset + at, count, size))
}
