//! Division with rounding to the nearest, of numbers that aren't negative.
ghost use Rattle.std.specs.Prelude.{◌≡◌, ◌≤◌, ◌<◌, ◌^◌, ◌*◌, ◌+◌};
ghost use Rattle.icc_tables.specs.Rounded.{rounded};

/// n / 65535, rounded to the nearest.
#[tactic(auto, unfolding(crate::specs::Rounded::rounded))]
pub fn by_65535(n: u64) -> u64
    requires { n ≤ 65535 * 65535 }
    ensures value { result ≡ rounded n 65535 }
    ensures bound { result ≤ 65535 }
{
    (n * 2 + 65535) / 131070
}
