//! Numbers in the bytes of a profile, the highest byte first.
ghost use Rattle.std.specs.Prelude.{◌≡◌, ◌≤◌, ◌+◌, length};
ghost use Rattle.icc_power.specs.CurveTag.{u16_at, u32_at, s15_at};

use byteorder::{BigEndian, ByteOrder};
use press_nums::Whole;

/// The number of 16 bits at a place.
#[tactic(auto, unfolding(crate::specs::CurveTag::u16_at))]
pub fn u16_at(bytes: &[u8], at: usize) -> u16
    requires { at + 2 ≤ length bytes.now }
    ensures { result ≡ u16_at bytes.now at }
{
    BigEndian::read_u16(&bytes[at..])
}

/// The number of 32 bits at a place.
#[tactic(auto, unfolding(crate::specs::CurveTag::u32_at))]
pub fn u32_at(bytes: &[u8], at: usize) -> u32
    requires { at + 4 ≤ length bytes.now }
    ensures { result ≡ u32_at bytes.now at }
{
    BigEndian::read_u32(&bytes[at..])
}

/// The signed number of 32 bits at a place: in 1/65536 where it is an s15Fixed16Number.
pub fn s15_at(bytes: &[u8], at: usize) -> Whole
    requires { at + 4 ≤ length bytes.now }
    ensures { result ≡ s15_at bytes.now at }
{
    Whole::of_bits(u32_at(bytes, at))
}
