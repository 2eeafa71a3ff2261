//! From a colour code to the connection space.
ghost use Rattle.std.specs.Prelude.{◌≡◌, ◌≤◌, ◌<◌, ◌^◌, ◌*◌, ◌+◌, ℤ, pos, ◌+ℤ◌, ◌-ℤ◌, ◌*ℤ◌, ◌≤ℤ◌, true, false, None};
ghost use Rattle.std.specs.Prelude.{take, neg_ℤ, if◌then◌else◌, unsigned_abs, [], ◌∷◌};
ghost use Rattle.std.specs.Option.{option_copied};
ghost use Rattle.press_nums.specs.Rounding.{div_round};
ghost use Rattle.icc_tables.specs.Lattice.{IsPoint, lut_value, top_of};
ghost use Rattle.icc_tables.specs.Pcs.{IsXyz, IsLab, in_xyz, in_lightness, in_chroma};
ghost use Rattle.icc_model.specs.Profile.{IsSuitedTransform, IsBase, chosen};
ghost use Rattle.icc_stages.specs.Stages.{stages_at};
ghost use Rattle.icc_model.specs.Direct.{staged, staged_list, stages_source};
ghost use Rattle.icc_model.specs.Direct.{column, linear_of, mixed, of_linear, matrix_source, gray_of, decoded};
ghost use Rattle.icc_model.specs.Direct.{decoded_list, entered, lut_source, source_by, source_of, IsIn, AreWithin};
ghost use Rattle.icc_model.specs.Direct.{curve_of};

use crate::profile::{Base, Intent, Profile, Transform};
use icc_stages::{Stages, forward_at};
use icc_tables::{
    Curve, Lut, Pcs, curve_at, in_chroma, in_lightness, in_xyz, of_four, of_one, of_three,
};
use press_fault::Code;
use press_nums::Wide;

/// A column of a matrix: red, green or blue; or a row of a lut's.
pub fn column(columns: &[i32; 9], k: u8) -> Pcs
    requires { k < 3 }
    ensures value { result ≡ column columns.now k }
    ensures bound { AreWithin (2 ^ 31) result }
{
    let k = usize::from(k);
    Pcs {
        first: Wide::of(i64::from(columns[3 * k])),
        second: Wide::of(i64::from(columns[3 * k + 1])),
        third: Wide::of(i64::from(columns[3 * k + 2])),
    }
}

/// What a curve makes of a code of 8 bits, which is 257 times as great in 16.
fn linear_of(curve: &Curve, code: u8) -> u16
    ensures { result ≡ linear_of curve.now code }
{
    curve_at(curve, 257 * u16::from(code))
}

/// One number of XYZ: red, green and blue, each times its own.
fn mixed(r: u16, g: u16, b: u16, red: Wide, green: Wide, blue: Wide) -> Wide
    requires red { unsigned_abs red ≤ 2 ^ 31 }
    requires green { unsigned_abs green ≤ 2 ^ 31 }
    requires blue { unsigned_abs blue ≤ 2 ^ 31 }
    ensures value { result ≡ mixed r g b red green blue }
    ensures low { pos 0 ≤ℤ result }
    ensures high { result ≤ℤ pos 131070 }
{
    let sum = weighed(red, r) + weighed(green, g) + weighed(blue, b);
    in_xyz(sum.div_round(Wide::of(65535)))
}

fn weighed(element: Wide, linear: u16) -> Wide
    requires { unsigned_abs element ≤ 2 ^ 31 }
    ensures value { result ≡ element *ℤ pos linear }
    ensures bound { unsigned_abs result ≤ 2 ^ 47 }
{
    element.times(u32::from(linear))
}

/// XYZ of three linear values.
fn of_linear(red: &Pcs, green: &Pcs, blue: &Pcs, r: u16, g: u16, b: u16) -> Pcs
    requires red { AreWithin (2 ^ 31) red.now }
    requires green { AreWithin (2 ^ 31) green.now }
    requires blue { AreWithin (2 ^ 31) blue.now }
    ensures value { result ≡ of_linear red.now green.now blue.now r g b }
    ensures range { IsXyz result }
{
    Pcs {
        first: mixed(r, g, b, red.first, green.first, blue.first),
        second: mixed(r, g, b, red.second, green.second, blue.second),
        third: mixed(r, g, b, red.third, green.third, blue.third),
    }
}

/// XYZ of a code, by the matrix and its curves.
fn matrix_source(columns: &[i32; 9], curves: &[Curve; 3], code: Code) -> Pcs
    ensures value { result ≡ matrix_source columns.now curves.now code.c }
    ensures range { IsXyz result }
{
    of_linear(
        &column(columns, 0),
        &column(columns, 1),
        &column(columns, 2),
        linear_of(&curves[0], code.c[0]),
        linear_of(&curves[1], code.c[1]),
        linear_of(&curves[2], code.c[2]),
    )
}

/// A white's number in proportion to a gray.
fn grayed(white: u32, g: u16) -> Wide
    requires { white ≤ 65536 }
    ensures value { result ≡ in_xyz (div_round (pos white *ℤ pos g) (pos 65535)) }
    ensures low { pos 0 ≤ℤ result }
    ensures high { result ≤ℤ pos 131070 }
{
    in_xyz(
        Wide::of(i64::from(white))
            .times(u32::from(g))
            .div_round(Wide::of(65535)),
    )
}

/// The connection space of a gray: its white, or L* alone.
fn gray_of(lab: bool, g: u16) -> Pcs
    ensures value { result ≡ gray_of lab g }
    ensures range { IsIn lab result }
{
    if lab {
        Pcs {
            first: in_lightness(Wide::of(6553600 * i64::from(g)).div_round(Wide::of(65535))),
            second: Wide::ZERO,
            third: Wide::ZERO,
        }
    } else {
        Pcs {
            first: grayed(63190, g),
            second: grayed(65536, g),
            third: grayed(54061, g),
        }
    }
}

/// A value of 16 bits as a number of XYZ.
fn xyz_16(v: u16) -> Wide
    ensures value { result ≡ in_xyz (pos (2 * v)) }
    ensures low { pos 0 ≤ℤ result }
    ensures high { result ≤ℤ pos 131070 }
{
    in_xyz(Wide::of(2 * i64::from(v)))
}

/// L* of a value, of which `whole` is 100.
fn lightness(v: u16, whole: u32) -> Wide
    requires some { 255 ≤ whole }
    requires few { whole ≤ 65535 }
    ensures value { result ≡ in_lightness (div_round (pos (v * 6553600)) (pos whole)) }
    ensures low { pos 0 ≤ℤ result }
    ensures high { result ≤ℤ pos 6553600 }
{
    in_lightness(Wide::of(i64::from(v) * 6553600).div_round(Wide::of(i64::from(whole))))
}

/// a* or b* of a value, of which `none` is 0, in steps of `step`.
fn chroma(v: u16, none: u16, step: u32) -> Wide
    requires { step ≤ 65536 }
    ensures value { result ≡ in_chroma ((pos v -ℤ pos none) *ℤ pos step) }
    ensures low { neg_ℤ (pos 8388608) ≤ℤ result }
    ensures high { result ≤ℤ pos 8388352 }
{
    in_chroma((Wide::of(i64::from(v)) - Wide::of(i64::from(none))).times(step))
}

/// The connection space of a lut's three values.
pub fn decoded(wide: bool, lab: bool, values: [u16; 3]) -> Pcs
    requires { wide ≡ false → lab ≡ true }
    ensures value { result ≡ decoded_list wide lab values }
    ensures range { IsIn lab result }
{
    let [first, second, third] = values;
    if wide {
        if lab {
            Pcs {
                first: lightness(first, 65280),
                second: chroma(second, 32768, 256),
                third: chroma(third, 32768, 256),
            }
        } else {
            Pcs {
                first: xyz_16(first),
                second: xyz_16(second),
                third: xyz_16(third),
            }
        }
    } else {
        Pcs {
            first: lightness(first, 255),
            second: chroma(second, 128, 65536),
            third: chroma(third, 128, 65536),
        }
    }
}

/// A code in a lut's values.
pub fn entered(lut: &Lut, c: u8) -> u16
    ensures value { result ≡ (if lut.now.wide then 257 * c else c) }
    ensures bound { result ≤ top_of lut.now.wide }
{
    if lut.wide {
        257 * u16::from(c)
    } else {
        u16::from(c)
    }
}

/// The values that a lut makes of a code.
fn values_of(lut: &Lut, code: Code) -> [u16; 3]
    requires { lut.now.inputs ≡ code.n }
    ensures { result ≡ lut_value lut.now (entered lut.now.wide (take code.n code.c)) }
{
    let [a, b, c, d] = code.c;
    match code.n {
        1 => of_one(lut, entered(lut, a)),
        3 => of_three(lut, entered(lut, a), entered(lut, b), entered(lut, c)),
        _ => of_four(
            lut,
            entered(lut, a),
            entered(lut, b),
            entered(lut, c),
            entered(lut, d),
        ),
    }
}

/// The connection space of a code, by a lut.
fn lut_source(lut: &Lut, lab: bool, code: Code) -> Pcs
    requires inputs { lut.now.inputs ≡ code.n }
    requires lab { lut.now.wide ≡ false → lab ≡ true }
    ensures value { result ≡ lut_source lut.now lab (take code.n code.c) }
    ensures range { IsIn lab result }
{
    decoded(lut.wide, lab, values_of(lut, code))
}

/// a* or b* of a value of stages, of which 8080 hex is 0.
fn staged_chroma(v: u16) -> Wide
    ensures value { result ≡ in_chroma (div_round (pos (v * 16711680)) (pos 65535) -ℤ pos 8388608) }
    ensures low { neg_ℤ (pos 8388608) ≤ℤ result }
    ensures high { result ≤ℤ pos 8388352 }
{
    let steps = Wide::of(i64::from(v) * 16_711_680).div_round(Wide::of(65535));
    in_chroma(steps - Wide::of(8_388_608))
}

/// Values of stages in the connection space.
fn staged(lab: bool, values: [u16; 3]) -> Pcs
    ensures value { result ≡ staged_list lab values }
    ensures range { IsIn lab result }
{
    let [first, second, third] = values;
    if lab {
        Pcs {
            first: lightness(first, 65535),
            second: staged_chroma(second),
            third: staged_chroma(third),
        }
    } else {
        Pcs {
            first: xyz_16(first),
            second: xyz_16(second),
            third: xyz_16(third),
        }
    }
}

/// A code of 8 bits in 16.
fn wide_code(c: u8) -> u16
    ensures { result ≡ 257 * c }
{
    257 * u16::from(c)
}

/// The values that stages make of a code.
fn values_by(stages: &Stages, code: Code) -> [u16; 3]
    requires inputs { stages.now.inputs ≡ code.n }
    requires way { stages.now.forward ≡ true }
    ensures { result ≡ stages_at stages.now (entered true (take code.n code.c)) }
{
    let [a, b, c, d] = code.c;
    let wide = [wide_code(a), wide_code(b), wide_code(c), wide_code(d)];
    forward_at(stages, wide)
}

/// The connection space of a code, by stages.
fn stages_source(stages: &Stages, lab: bool, code: Code) -> Pcs
    requires inputs { stages.now.inputs ≡ code.n }
    requires way { stages.now.forward ≡ true }
    ensures value { result ≡ stages_source stages.now lab (take code.n code.c) }
    ensures range { IsIn lab result }
{
    staged(lab, values_by(stages, code))
}

/// The connection space of a code, where a profile has no transform for the intent.
fn base_source(base: Option<&Base>, lab: bool, channels: u8, code: Code) -> Pcs
    requires base { IsBase lab channels (option_copied base) }
    ensures value { result ≡ source_by None (option_copied base.entry) lab code }
    ensures range { IsIn lab result }
{
    match base {
        Some(base) => match base {
            Base::Matrix { columns, curves } => matrix_source(columns, curves, code),
            Base::Gray { curve } => gray_of(lab, linear_of(curve, code.c[0])),
        },
        // No profile is without both: its type rules this out.
        None => BLACK,
    }
}

/// The least of all numbers, of either connection space.
const BLACK: Pcs = Pcs {
    first: Wide::ZERO,
    second: Wide::ZERO,
    third: Wide::ZERO,
};

/// The connection space of a code of a profile, at an intent.
#[tactic(auto, unfolding(crate::specs::Direct::source_of))]
pub fn source_of(profile: &Profile, intent: Intent, code: Code) -> Pcs
    requires { code.n ≡ profile.now.channels }
    ensures value { result ≡ source_of profile.now intent code }
    ensures range { IsIn profile.now.lab result }
{
    match profile.chosen_forward(intent) {
        Some(transform) => match transform {
            Transform::Lut(lut) => lut_source(lut, profile.lab(), code),
            Transform::Stages(stages) => stages_source(stages, profile.lab(), code),
        },
        None => base_source(profile.base(), profile.lab(), profile.channels(), code),
    }
}
