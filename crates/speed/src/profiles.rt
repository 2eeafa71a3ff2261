//! The profiles of the benchmark.
ghost use Rattle.std.specs.Prelude.{◌≡◌, IfOk, length};
ghost use Rattle.icc_tables.specs.Lattice.{AreAtMost};

use byteorder::{BigEndian, ByteOrder};
use icc_model::{Base, Curve, Lut, NodeSize, Nodes, Profile, SharedBytes, Transform, Values};
use press_fault::Mem;
use std::alloc::Global;

/// Words of a generator, in order.
#[derive(Drop)]
pub(crate) struct Words {
    state: u64,
}

impl Words {
    pub(crate) fn new() -> Words {
        Words { state: 1 }
    }

    /// The next word.
    fn word(&mut self) -> u16 {
        self.state = self
            .state
            .wrapping_mul(6364136223846793005)
            .wrapping_add(1442695040888963407);
        (self.state >> 48) as u16
    }

    /// The high byte of the next word.
    pub(crate) fn byte(&mut self) -> u8 {
        (self.word() / 256) as u8
    }

    /// So many words.
    #[tactic(auto, using(crate::proofs::Most::pushed))]
    fn values(&mut self, alloc: Global, count: u16) -> Mem<Values>
        ensures count { IfOk result (λ values. length values ≡ count) }
        ensures most { IfOk result (AreAtMost 65535) }
    {
        let mut values = Vec::new(alloc);
        for _ in 0..count {
            values.push(self.word())?;
        }
        Ok(Values::from_vec(values))
    }
}

/// A curve of 1,024 entries, the squares of their places.
fn squares(alloc: Global) -> Mem<Curve> {
    let mut values = Vec::new(alloc);
    for k in 0..1024u32 {
        values.push((k * k / 16) as u16)?;
    }
    Ok(Curve::of_values(values))
}

/// Nodes of these values, of two bytes each.
fn nodes(alloc: Global, values: &[u16]) -> Mem<Nodes>
    ensures count { IfOk result (λ nodes. length nodes ≡ length values.now) }
    ensures most { IfOk result (AreAtMost 65535) }
{
    let mut bytes = vec![in alloc; 0; 2 * values.len()]?;
    BigEndian::write_u16_into(values, &mut bytes);
    let bytes = SharedBytes::new(alloc, bytes)?;
    Ok(Nodes::new(bytes, 0, values.len(), NodeSize::Word))
}

/// No bytes: the profiles of the benchmark weren't read from any.
fn nothing(alloc: Global) -> Mem<SharedBytes> {
    Ok(SharedBytes::new(alloc, Vec::new(alloc))?)
}

/// No transforms.
const NONE: [Option<Transform>; 3] = [None, None, None];

/// RGB by a matrix of these columns.
pub(crate) fn of_matrix(alloc: Global, columns: [i32; 9]) -> Mem<Profile> {
    let curves = [squares(alloc)?, squares(alloc)?, squares(alloc)?];
    let base = Some(Base::Matrix { columns, curves });
    Ok(Profile::of_parts(nothing(alloc)?, false, 3, base, NONE, NONE))
}

/// CMYK to Lab by a lattice of 9 points along each channel, between tables of 33 entries and of 2.
pub(crate) fn of_lattice(alloc: Global, words: &mut Words) -> Mem<Profile> {
    let before = words.values(alloc, 132)?;
    let lattice = words.values(alloc, 19683)?;
    let lut = Lut {
        wide: true,
        inputs: 4,
        grid: 9,
        matrix: [65536, 0, 0, 0, 65536, 0, 0, 0, 65536],
        before_count: 33,
        after_count: 2,
        before,
        nodes: nodes(alloc, lattice.items())?,
        after: Values::from_vec(vec![in alloc; 0, 65535, 0, 65535, 0, 65535]?),
    };
    let forward = [Some(Transform::Lut(lut)), None, None];
    Ok(Profile::of_parts(nothing(alloc)?, true, 4, None, forward, NONE))
}
