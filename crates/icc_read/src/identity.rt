//! The identity of a profile.
ghost use Rattle.std.specs.Prelude.{◌≡◌, take, drop};
ghost use Rattle.icc_read.specs.Identity.{id_state_of, right_id};

use icc_model::Profile;
use md5::{Digest, Md5};

/// What a profile's header says of its identity (ICC.1:2010, 7.2.18 Profile ID field).
#[derive(Clone, Copy, Debug, PartialEq, Eq)]
pub enum IdState {
    /// Nothing: the field is zero.
    Absent,
    /// The identity of the profile's bytes.
    Right,
    /// Another one: the bytes were changed after it was written, or it was never theirs.
    Differs,
}

/// The first `n` bytes, or as many as there are.
fn front(bytes: &[u8], n: usize) -> &[u8]
    ensures { result.now ≡ take n bytes.now }
{
    let (front, _) = bytes.split_at(n.min(bytes.len()));
    front
}

/// The bytes from the place `n` on.
fn rest(bytes: &[u8], n: usize) -> &[u8]
    ensures { result.now ≡ drop n bytes.now }
{
    let (_, rest) = bytes.split_at(n.min(bytes.len()));
    rest
}

/// The identity that the bytes have.
#[tactic(auto, unfolding(crate::specs::Identity::right_id))]
fn right_id(bytes: &[u8]) -> [u8; 16]
    ensures { result ≡ right_id bytes.now }
{
    let mut hasher = Md5::new();
    hasher.update(front(bytes, 44));
    hasher.update([0; 4].as_slice());
    hasher.update(front(rest(bytes, 48), 16));
    hasher.update([0; 4].as_slice());
    hasher.update(front(rest(bytes, 68), 16));
    hasher.update([0; 16].as_slice());
    hasher.update(rest(bytes, 100));
    hasher.finalize()
}

/// Whether a profile's header states an identity, and whether it is the right one.
pub fn id_state(profile: &Profile) -> IdState
    ensures { result ≡ id_state_of profile.now.bytes }
{
    let stated = front(rest(profile.bytes(), 84), 16);
    if stated == [0; 16].as_slice() {
        IdState::Absent
    } else if stated == right_id(profile.bytes()).as_slice() {
        IdState::Right
    } else {
        IdState::Differs
    }
}
