//! Numbers at the front of bytes.
ghost use Rattle.std.specs.Prelude.{◌≡◌, ◌<◌, ◌≤◌, ◌^◌, IfSome, unsigned_abs};
ghost use Rattle.list_codec.specs.Code.Reading.{Reads, byte_at, groups_at, number_at, unzigzag, signed_at};

use press_nums::Wide;

/// The first byte, and those after it.
pub fn byte_at(bytes: &[u8]) -> Option<(u8, &[u8])>
    ensures bound { IfSome result (λ x. x.0 < 256) }
    ensures value { Reads (λ x. (x.0, x.1.now)) result (byte_at bytes.now) }
{
    match bytes {
        [] => None,
        [byte, rest @ ..] => Some((*byte, rest)),
    }
}

/// A number below 2^63.
#[tactic(auto, unfolding(crate::specs::Code::Reading::number_at))]
pub fn number_at(bytes: &[u8]) -> Option<(u64, &[u8])>
    ensures value { Reads (λ x. (x.0, x.1.now)) result (number_at bytes.now) }
    ensures bound { IfSome result (λ x. x.0 < 2 ^ 63) }
{
    groups_at(9, bytes)
}

/// A number of at most so many groups of seven bits.
#[tactic(auto, unfolding(crate::specs::Code::Reading::groups_at))]
fn groups_at(most: u32, bytes: &[u8]) -> Option<(u64, &[u8])>
    requires { most ≤ 9 }
    ensures value { Reads (λ x. (x.0, x.1.now)) result (groups_at most bytes.now) }
    ensures bound { IfSome result (λ x. x.0 < 128 ^ most) }
{
    if most == 0 {
        return None;
    }
    let (low, rest) = byte_at(bytes)?;
    if low < 128 {
        return Some((u64::from(low), rest));
    }
    let (high, rest) = groups_at(most - 1, rest)?;
    if high == 0 {
        return None;
    }
    Some((u64::from(low) - 128 + 128 * high, rest))
}

/// A whole number of magnitude below 2^63.
#[tactic(auto, unfolding(crate::specs::Code::Reading::signed_at))]
pub fn signed_at(bytes: &[u8]) -> Option<(Wide, &[u8])>
    ensures value { Reads (λ x. (x.0, x.1.now)) result (signed_at bytes.now) }
    ensures bound { IfSome result (λ x. unsigned_abs x.0 < 2 ^ 63) }
{
    let (n, rest) = number_at(bytes)?;
    Some((unzigzag(n), rest))
}

/// The whole number of a zigzag number: half of an even one, and -1, -2 and so on for 1, 3 and so
/// on.
fn unzigzag(n: u64) -> Wide
    requires { n < 2 ^ 63 }
    ensures value { result ≡ unzigzag n }
    ensures bound { unsigned_abs result < 2 ^ 63 }
{
    let half = Wide::of_size(u128::from(n / 2));
    if n % 2 == 0 {
        half
    } else {
        Wide::of(-1) - half
    }
}
