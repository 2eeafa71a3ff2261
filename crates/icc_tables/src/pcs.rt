//! The profile connection space: XYZ and Lab, and from one to the other.
//!
//! All numbers are whole: of the space in 1/65536, f in 1/2^20, a ratio to the white in 1/2^60.
ghost use Rattle.std.specs.Prelude.{◌≡◌, ◌≤◌, ◌<◌, ◌^◌, ◌*◌, ◌+◌, ℤ, pos, neg_ℤ, ◌+ℤ◌, ◌-ℤ◌, ◌*ℤ◌, ◌≤ℤ◌, ◌<ℤ◌};
ghost use Rattle.std.specs.Prelude.{unsigned_abs, [], ◌∷◌};
ghost use Rattle.icc_tables.specs.Rounded.{clamped};
ghost use Rattle.icc_tables.specs.Pcs.{PcsValue, IsXyz, IsLab, in_xyz, in_lightness, in_chroma, ratio, lab_f, lab_of_f};
ghost use Rattle.icc_tables.specs.Pcs.{xyz_to_lab, xyz_of_f, fy_of, fx_of, fz_of, lab_to_xyz, triple_of, listed};

use press_nums::{Wide, icbrt};
use std::marker::Model;

/// Three numbers of the connection space, in 1/65536: X, Y and Z, or L*, a* and b*.
#[derive(Clone, Copy, Debug, PartialEq, Eq)]
pub struct Pcs {
    pub first: Wide,
    pub second: Wide,
    pub third: Wide,
}

impl Model for Pcs {
    ghost use Rattle.icc_tables.specs.Pcs.{PcsValue};

    ghost Value = { PcsValue };

    ghost view = { λ p. record { first = p.first; second = p.second; third = p.third } };

    ghost inverse = { λ v. record { first = v.first; second = v.second; third = v.third } };
}

/// The white of the connection space, D50 (ICC.1:2010, 7.2.16 PCS illuminant field).
const WHITE: [i64; 3] = [63190, 65536, 54061];

/// A number taken into the range from `low` to `high`.
pub fn clamped(n: Wide, low: i64, high: i64) -> Wide
    requires { low ≤ℤ high }
    ensures value { result ≡ clamped low high n }
    ensures low { low ≤ℤ result }
    ensures high { result ≤ℤ high }
{
    let low = Wide::of(low);
    let high = Wide::of(high);
    if n.is_below(low) {
        low
    } else if high.is_below(n) {
        high
    } else {
        n
    }
}

pub fn in_xyz(n: Wide) -> Wide
    ensures value { result ≡ in_xyz n }
    ensures low { pos 0 ≤ℤ result }
    ensures high { result ≤ℤ pos 131070 }
{
    clamped(n, 0, 131070)
}

pub fn in_lightness(n: Wide) -> Wide
    ensures value { result ≡ in_lightness n }
    ensures low { pos 0 ≤ℤ result }
    ensures high { result ≤ℤ pos 6553600 }
{
    clamped(n, 0, 6553600)
}

pub fn in_chroma(n: Wide) -> Wide
    ensures value { result ≡ in_chroma n }
    ensures low { neg_ℤ (pos 8388608) ≤ℤ result }
    ensures high { result ≤ℤ pos 8388352 }
{
    clamped(n, -8388608, 8388352)
}

/// X, Y or Z over its white, in 1/2^60: from 0 to below 2^62.
fn ratio(x: Wide, white: i64) -> Wide
    requires low { pos 0 ≤ℤ x }
    requires high { x ≤ℤ pos 131070 }
    requires white_low { pos 54061 ≤ℤ white }
    requires white_high { white ≤ℤ pos 65536 }
    ensures value { result ≡ ratio x white }
    ensures bound { unsigned_abs result < 2 ^ 62 }
{
    (x * Wide::of(0x1000_0000_0000_0000)).div_round(Wide::of(white))
}

/// f of CIELAB, in 1/2^20.
#[tactic(auto, unfolding(crate::specs::Pcs::lab_f))]
fn lab_f(t: Wide) -> Wide
    requires { unsigned_abs t < 2 ^ 62 }
    ensures value { result ≡ lab_f t }
    ensures bound { unsigned_abs result < 2 ^ 64 }
{
    let scaled = t.times(24389);
    if Wide::of_size(216 << 60).is_below(scaled) {
        Wide::of_size(u128::from(icbrt(t.size())))
    } else {
        (scaled + Wide::of_size(432 << 60)).div_round(Wide::of_size(3132 << 40))
    }
}

/// Lab of the three values of f.
fn lab_of_f(fx: Wide, fy: Wide, fz: Wide) -> Pcs
    requires x { unsigned_abs fx < 2 ^ 64 }
    requires y { unsigned_abs fy < 2 ^ 64 }
    requires z { unsigned_abs fz < 2 ^ 64 }
    ensures value { result ≡ lab_of_f fx fy fz }
    ensures range { IsLab result }
{
    let sixteen = Wide::of(16);
    Pcs {
        first: in_lightness((fy.times(116) - Wide::of(16 << 20)).div_round(sixteen)),
        second: in_chroma((fx - fy).times(500).div_round(sixteen)),
        third: in_chroma((fy - fz).times(200).div_round(sixteen)),
    }
}

/// XYZ to Lab (CIELAB, to which ICC.1:2010, 6.3 refers), with the white of the space.
#[tactic(auto, unfolding(crate::specs::Pcs::xyz_to_lab))]
pub fn lab_of_xyz(xyz: &Pcs) -> Pcs
    requires { IsXyz xyz.now }
    ensures value { result ≡ xyz_to_lab xyz.now }
    ensures range { IsLab result }
{
    let [white_x, white_y, white_z] = WHITE;
    lab_of_f(
        lab_f(ratio(xyz.first, white_x)),
        lab_f(ratio(xyz.second, white_y)),
        lab_f(ratio(xyz.third, white_z)),
    )
}

/// The inverse of f, times a white: X, Y or Z.
#[tactic(auto, unfolding(crate::specs::Pcs::xyz_of_f))]
fn xyz_of_f(white: i64, f: Wide) -> Wide
    requires white_low { pos 54061 ≤ℤ white }
    requires white_high { white ≤ℤ pos 65536 }
    requires f { unsigned_abs f < 2 ^ 21 }
    ensures value { result ≡ xyz_of_f white f }
    ensures low { pos 0 ≤ℤ result }
    ensures high { result ≤ℤ pos 131070 }
{
    let scaled = f.times(29);
    if Wide::of(6 << 20).is_below(scaled) {
        in_xyz((Wide::of(white) * cube(f)).div_round(Wide::of_size(1 << 60)))
    } else {
        in_xyz(
            (Wide::of(white).times(108) * (scaled - Wide::of(4 << 20))).div_round(Wide::of_size(
                24389 << 20,
            )),
        )
    }
}

fn cube(f: Wide) -> Wide
    requires { unsigned_abs f < 2 ^ 21 }
    ensures value { result ≡ f *ℤ f *ℤ f }
    ensures bound { unsigned_abs result < 2 ^ 63 }
{
    f * f * f
}

/// f of Y, below 2^20 + 1.
fn fy_of(l: Wide) -> Wide
    requires low { pos 0 ≤ℤ l }
    requires high { l ≤ℤ pos 6553600 }
    ensures value { result ≡ fy_of l }
    ensures bound { unsigned_abs result ≤ 1048576 }
{
    (l + Wide::of(1048576)).times(16).div_round(Wide::of(116))
}

/// f of X, from that of Y.
fn fx_of(fy: Wide, a: Wide) -> Wide
    requires y { unsigned_abs fy ≤ 1048576 }
    requires a { unsigned_abs a ≤ 8388608 }
    ensures value { result ≡ fx_of fy a }
    ensures bound { unsigned_abs result < 2 ^ 21 }
{
    fy + a.times(16).div_round(Wide::of(500))
}

/// f of Z, from that of Y.
fn fz_of(fy: Wide, b: Wide) -> Wide
    requires y { unsigned_abs fy ≤ 1048576 }
    requires b { unsigned_abs b ≤ 8388608 }
    ensures value { result ≡ fz_of fy b }
    ensures bound { unsigned_abs result < 2 ^ 21 }
{
    fy - b.times(16).div_round(Wide::of(200))
}

/// Lab to XYZ (CIELAB, to which ICC.1:2010, 6.3 refers), with the white of the space.
#[tactic(auto, unfolding(crate::specs::Pcs::lab_to_xyz))]
pub fn xyz_of_lab(lab: &Pcs) -> Pcs
    requires { IsLab lab.now }
    ensures value { result ≡ lab_to_xyz lab.now }
    ensures range { IsXyz result }
{
    let [white_x, white_y, white_z] = WHITE;
    let fy = fy_of(lab.first);
    Pcs {
        first: xyz_of_f(white_x, fx_of(fy, lab.second)),
        second: xyz_of_f(white_y, fy),
        third: xyz_of_f(white_z, fz_of(fy, lab.third)),
    }
}

impl Pcs {
    /// The three numbers of an array.
    fn of_array(v: [i64; 3]) -> Pcs
        ensures { result ≡ triple_of v }
    {
        let [first, second, third] = v;
        Pcs {
            first: Wide::of(first),
            second: Wide::of(second),
            third: Wide::of(third),
        }
    }
}

/// XYZ to Lab, each in 1/65536.
pub fn xyz_to_lab(xyz: [i64; 3]) -> [i64; 3]
    requires { IsXyz (triple_of xyz) }
    ensures { result ≡ listed (xyz_to_lab (triple_of xyz)) }
{
    let lab = lab_of_xyz(&Pcs::of_array(xyz));
    [lab.first.narrow(), lab.second.narrow(), lab.third.narrow()]
}

/// Lab to XYZ, each in 1/65536.
pub fn lab_to_xyz(lab: [i64; 3]) -> [i64; 3]
    requires { IsLab (triple_of lab) }
    ensures { result ≡ listed (lab_to_xyz (triple_of lab)) }
{
    let xyz = xyz_of_lab(&Pcs::of_array(lab));
    [xyz.first.narrow(), xyz.second.narrow(), xyz.third.narrow()]
}
