//! Powers of fixed-point numbers.
ghost use Rattle.std.specs.Prelude.{◌≡◌, ◌≤◌, ◌<◌, ◌^◌, ◌*◌, ◌/◌, ◌+◌, ◌-◌, ℤ, pos, ◌<ℤ◌, ◌-ℤ◌, ◌*ℤ◌, nat_le, length};
ghost use Rattle.std.specs.Prelude.{unsigned_abs, slice_index, if◌then◌else◌};
ghost use Rattle.icc_power.specs.Power.{squared, log_places, exponent, log2, two_roots, raised, scaled, exp2, power};
ghost use Rattle.icc_power.specs.Power.{whole_part, fraction_of};
ghost use Rattle.press_nums.specs.Roots.{root};

use press_nums::{Wide, isqrt};
use std::marker::Model;

/// 1 of the numbers here.
const ONE: u64 = 0x1_0000_0000;

/// The roots of two of the orders 2, 4, 8 up to 2^32, which every power needs.
#[derive(Drop)]
pub(crate) struct Roots {
    roots: [u64; 32],
}

impl Model for Roots {
    ghost use Rattle.std.specs.Prelude.{◌≡◌, ℕ, List};
    ghost use Rattle.icc_power.specs.Power.{two_roots};

    ghost Value = { List ℕ };

    ghost view = { λ r. r.roots };

    ghost invariant = { λ r. r.roots ≡ two_roots };
}

impl Roots {
    /// Each is the square root of the one before it; the first is that of 2.
    pub(crate) fn new() -> Roots
        ensures { result ≡ two_roots }
    {
        let mut roots = [0; 32];
        let mut s = 2 * ONE;
        for k in 0..32 {
            s = root_of(s);
            roots[k] = s;
        }
        Roots { roots }
    }

    /// The root of this number: of two itself for 0.
    #[tactic(auto, using(crate::proofs::Raising::two_roots_small))]
    fn at(&self, k: usize) -> u64
        requires { k < 32 }
        ensures value { result ≡ slice_index two_roots k }
        ensures bound { result ≤ 2 ^ 33 }
    {
        self.roots[k]
    }
}

/// The square root.
fn root_of(s: u64) -> u64
    requires { s ≤ 2 ^ 33 }
    ensures value { result ≡ root 2 (s * 2 ^ 32) }
    ensures bound { result ≤ 2 ^ 33 }
{
    isqrt(u128::from(s) * u128::from(ONE))
}

/// The square.
fn squared(m: u64) -> u64
    requires { m < 2 ^ 33 }
    ensures value { result ≡ squared m }
    ensures bound { result < 2 ^ 34 }
{
    (u128::from(m) * u128::from(m) / u128::from(ONE)) as u64
}

/// The next binary place of a logarithm, and the number whose logarithm the others are of.
fn next_place(m: u64) -> (u64, u64)
    requires { m < 2 ^ 33 }
    ensures place { result.0 ≡ (if nat_le (2 ^ 33) (squared m) then 1 else 0) }
    ensures rest { result.1 ≡ (if nat_le (2 ^ 33) (squared m) then squared m / 2 else squared m) }
    ensures bound { result.1 < 2 ^ 33 }
    ensures bit { result.0 ≤ 1 }
{
    let square = squared(m);
    if 2 * ONE <= square {
        (1, square / 2)
    } else {
        (0, square)
    }
}

/// The 32 binary places of the logarithm of m, from 1 up to and without 2, as one number.
#[tactic(auto, using(crate::proofs::Places::places_fit))]
fn log_places(m: u64) -> u64
    requires { m < 2 ^ 33 }
    ensures value { result ≡ log_places 32 m }
    ensures bound { result < 2 ^ 32 }
{
    let mut rest = m;
    let mut places = 0;
    let mut left: u32 = 32;
    while left > 0 {
        let (place, next) = next_place(rest);
        places = 2 * places + place;
        rest = next;
        left -= 1;
    }
    places
}

/// A number divided by the greatest power of two that isn't above it: from 1 up to and without 2.
fn mantissa(y: u64, n: u32) -> u64
    requires y { y ≤ 2 ^ 50 }
    requires n { n < 64 }
    requires above { y < 2 * 2 ^ n }
    ensures value { result ≡ y * 2 ^ 32 / 2 ^ n }
    ensures bound { result < 2 ^ 33 }
{
    (u128::from(y) * u128::from(ONE) >> n) as u64
}

/// The logarithm to base two of a positive number.
#[tactic(auto, using(crate::proofs::Quotients::exponent_is), unfolding(crate::specs::Power::log2))]
fn log2(y: u64) -> Wide
    requires some { 0 < y }
    requires y { y ≤ 2 ^ 50 }
    ensures value { result ≡ log2 y }
    ensures bound { unsigned_abs result ≤ 2 ^ 40 }
{
    let n = y.ilog2();
    let places = log_places(mantissa(y, n));
    (Wide::of(i64::from(n)) - Wide::of(32)) * Wide::of(0x1_0000_0000) + Wide::of(places as i64)
}

/// The next factor of a power of two: the number with it, where the first place of the fraction
/// is 1, and the places after it.
fn with_root(s: u64, fraction: u64, r: u128) -> (u64, u128)
    requires s { s ≤ 2 ^ 33 }
    requires fraction { fraction < 2 ^ 32 }
    requires r { r ≤ 2 ^ 64 }
    ensures fraction { result.0 ≡ (if nat_le (2 ^ 32) (2 * fraction) then 2 * fraction - 2 ^ 32 else 2 * fraction) }
    ensures r { result.1 ≡ (if nat_le (2 ^ 32) (2 * fraction) then r * s / 2 ^ 32 else r) }
    ensures below { result.0 < 2 ^ 32 }
    ensures bound { result.1 ≤ 2 * r }
{
    let twice = 2 * fraction;
    if ONE <= twice {
        (twice - ONE, r * u128::from(s) / u128::from(ONE))
    } else {
        (twice, r)
    }
}

/// Two to the power of a fraction.
#[tactic(auto, using(crate::proofs::Raising::bound_fits))]
fn raised(roots: &Roots, fraction: u64) -> u128
    requires { fraction < 2 ^ 32 }
    ensures value { result ≡ raised two_roots fraction (2 ^ 32) }
    ensures bound { result ≤ 2 ^ 64 }
{
    let mut rest = fraction;
    let mut r = u128::from(ONE);
    for k in 0..32 {
        let (next, product) = with_root(roots.at(k), rest, r);
        rest = next;
        r = product;
    }
    r
}

/// r times two to a whole power.
fn scaled(q: Wide, r: u128) -> u128
    requires { r ≤ 2 ^ 64 }
    ensures value { result ≡ scaled q r }
    ensures bound { result ≤ 2 ^ 95 }
{
    let size = q.size();
    if q.is_below(Wide::ZERO) {
        scaled_down(r, size)
    } else if size > 31 {
        1 << 64
    } else {
        r << size as u32
    }
}

/// r divided by two to a power.
#[tactic(auto, using(crate::proofs::Quotients::small_quotient))]
fn scaled_down(r: u128, size: u128) -> u128
    requires { r ≤ 2 ^ 64 }
    ensures value { result ≡ r / 2 ^ size }
    ensures bound { result ≤ 2 ^ 64 }
{
    if size > 64 { 0 } else { r >> size as u32 }
}

/// Two to a power.
#[tactic(auto, unfolding(crate::specs::Power::exp2))]
fn exp2(e: Wide, roots: &Roots) -> u128
    requires { unsigned_abs e < 2 ^ 60 }
    ensures value { result ≡ exp2 e }
    ensures bound { result ≤ 2 ^ 95 }
{
    let q = whole_part(e);
    let fraction = (e - q * Wide::of(0x1_0000_0000)).size() as u64;
    scaled(q, raised(roots, fraction))
}

/// The whole part, rounded down.
#[tactic(auto, using(press_nums::proofs::Floors::floor_parts))]
fn whole_part(e: Wide) -> Wide
    requires { unsigned_abs e < 2 ^ 60 }
    ensures value { result ≡ whole_part e }
    ensures bound { unsigned_abs result ≤ 2 ^ 60 }
    ensures near { fraction_of e < 2 ^ 32 }
{
    e.floor_quotient(Wide::of(0x1_0000_0000))
}

/// The power of a number, by prepared roots.
#[tactic(auto, unfolding(crate::specs::Power::power))]
pub(crate) fn power_by(roots: &Roots, y: Wide, g: Wide) -> Wide
    requires y { unsigned_abs y ≤ 2 ^ 50 }
    requires some { pos 0 <ℤ g }
    requires g { g <ℤ pos (2 ^ 32) }
    ensures value { result ≡ pos (power y g) }
    ensures bound { unsigned_abs result ≤ 2 ^ 95 }
{
    if y.is_at_most(Wide::ZERO) {
        Wide::ZERO
    } else {
        let log = log2(y.size() as u64);
        Wide::of_size(exp2((g * log).div_round(Wide::of(65536)), roots))
    }
}

/// y to the power of g / 65536, both y and the power in 1/2^32: 0 where y isn't positive, and 2^64
/// where the power is 2^32 or more. Takes no memory.
pub fn power(y: i128, g: i64) -> i128
    requires y { unsigned_abs y ≤ 2 ^ 49 }
    requires some { pos 0 <ℤ g }
    requires g { g <ℤ pos (2 ^ 32) }
    ensures { result ≡ pos (power y g) }
{
    power_by(&Roots::new(), Wide::of_i128(y), Wide::of(g)).to_i128()
}
