//! From the connection space to three values of 16 bits.
ghost use Rattle.std.specs.Prelude.{◌≡◌, ◌≤◌, ◌<◌, ◌^◌, ◌*◌, ◌+◌, ℤ, pos, neg_ℤ, if◌then◌else◌, ◌+ℤ◌, ◌-ℤ◌, ◌*ℤ◌, ◌≤ℤ◌};
ghost use Rattle.std.specs.Prelude.{true, false, None, not, ◌==◌, IsTrue, unsigned_abs, [], ◌∷◌};
ghost use Rattle.std.specs.Option.{option_copied};
ghost use Rattle.press_nums.specs.Rounding.{div_round, div_round_signed};
ghost use Rattle.icc_tables.specs.Lattice.{IsPoint, lut_value, top_of};
ghost use Rattle.icc_tables.specs.Pcs.{IsXyz, IsLab};
ghost use Rattle.icc_model.specs.Profile.{IsSuitedTransform, IsBase};
ghost use Rattle.icc_model.specs.Direct.{cross, dot, determinant, solved, returned, inverse_of, matrix_target};
ghost use Rattle.icc_model.specs.Direct.{is_invertible, in_16, in_8, encoded, by_matrix, begun, counts_of, widened};
ghost use Rattle.icc_model.specs.Direct.{lut_target, target_by, target_of, receives_by, can_receive, IsIn, AreWithin};
ghost use Rattle.icc_stages.specs.Stages.{stages_at};
ghost use Rattle.icc_model.specs.Direct.{AreCounts, column, staged_back, stages_target};

use crate::profile::{Base, Intent, Profile, Transform};
use crate::source::column;
use icc_stages::{Stages, backward_at};
use icc_tables::{Curve, Lut, Pcs, clamped, curve_back, of_three};
use press_nums::Wide;

/// A difference of two products of elements of columns.
fn minor(a: Wide, b: Wide, c: Wide, d: Wide) -> Wide
    requires a { unsigned_abs a ≤ 2 ^ 31 }
    requires b { unsigned_abs b ≤ 2 ^ 31 }
    requires c { unsigned_abs c ≤ 2 ^ 31 }
    requires d { unsigned_abs d ≤ 2 ^ 31 }
    ensures value { result ≡ a *ℤ b -ℤ c *ℤ d }
    ensures bound { unsigned_abs result ≤ 2 ^ 63 }
{
    product(a, b) - product(c, d)
}

fn product(a: Wide, b: Wide) -> Wide
    requires a { unsigned_abs a ≤ 2 ^ 31 }
    requires b { unsigned_abs b ≤ 2 ^ 31 }
    ensures value { result ≡ a *ℤ b }
    ensures bound { unsigned_abs result ≤ 2 ^ 62 }
{
    a * b
}

/// The cross product of two columns: a row of the adjugate.
pub fn cross(u: &Pcs, v: &Pcs) -> Pcs
    requires u { AreWithin (2 ^ 31) u.now }
    requires v { AreWithin (2 ^ 31) v.now }
    ensures value { result ≡ cross u.now v.now }
    ensures bound { AreWithin (2 ^ 63) result }
{
    Pcs {
        first: minor(u.second, v.third, u.third, v.second),
        second: minor(u.third, v.first, u.first, v.third),
        third: minor(u.first, v.second, u.second, v.first),
    }
}

/// The dot product of a column, a row of a lut's matrix or the numbers of the space with a row.
fn dot(u: &Pcs, v: &Pcs) -> Wide
    requires u { AreWithin (2 ^ 63) u.now }
    requires v { AreWithin (2 ^ 31) v.now }
    ensures value { result ≡ dot u.now v.now }
    ensures bound { unsigned_abs result < 2 ^ 96 }
{
    large(u.first, v.first) + large(u.second, v.second) + large(u.third, v.third)
}

fn large(a: Wide, b: Wide) -> Wide
    requires a { unsigned_abs a ≤ 2 ^ 63 }
    requires b { unsigned_abs b ≤ 2 ^ 31 }
    ensures value { result ≡ a *ℤ b }
    ensures bound { unsigned_abs result ≤ 2 ^ 94 }
{
    a * b
}

/// The determinant of three columns.
pub fn determinant(red: &Pcs, green: &Pcs, blue: &Pcs) -> Wide
    requires red { AreWithin (2 ^ 31) red.now }
    requires green { AreWithin (2 ^ 31) green.now }
    requires blue { AreWithin (2 ^ 31) blue.now }
    ensures value { result ≡ determinant red.now green.now blue.now }
    ensures bound { unsigned_abs result < 2 ^ 96 }
{
    dot(&cross(green, blue), red)
}

/// The linear value of a channel, from 0 to 65535, by its row of the adjugate.
pub fn solved(det: Wide, row: &Pcs, xyz: &Pcs) -> u16
    requires some { 0 < unsigned_abs det }
    requires det { unsigned_abs det < 2 ^ 96 }
    requires row { AreWithin (2 ^ 63) row.now }
    requires xyz { AreWithin (2 ^ 31) xyz.now }
    ensures { result ≡ unsigned_abs (solved det row.now xyz.now) }
{
    let quotient = dot(row, xyz).times(65535).div_round_signed(det);
    clamped(quotient, 0, 65535).narrow() as u16
}

/// Numbers of XYZ are small.
fn see_xyz(xyz: &Pcs)
    requires { IsXyz xyz.now }
    ensures { AreWithin (2 ^ 31) xyz.now }
{}

/// Counts of 16 bits are small.
fn see_counts(v: &Pcs)
    requires { AreCounts 65535 v.now }
    ensures { AreWithin (2 ^ 31) v.now }
{}

/// Elements of a matrix are smaller than rows of an adjugate.
fn see_elements(row: &Pcs)
    requires { AreWithin (2 ^ 31) row.now }
    ensures { AreWithin (2 ^ 63) row.now }
{}

/// The three values of 16 bits of XYZ, by a matrix that can be inverted and its curves.
fn matrix_target(columns: &[i32; 9], curves: &[Curve; 3], xyz: &Pcs) -> [u16; 3]
    requires invertible { IsTrue (is_invertible columns.now) }
    requires xyz { IsXyz xyz.now }
    ensures { result ≡ matrix_target columns.now curves.now xyz.now }
{
    see_xyz(xyz);
    let red = column(columns, 0);
    let green = column(columns, 1);
    let blue = column(columns, 2);
    let det = determinant(&red, &green, &blue);
    [
        curve_back(&curves[0], solved(det, &cross(&green, &blue), xyz)),
        curve_back(&curves[1], solved(det, &cross(&blue, &red), xyz)),
        curve_back(&curves[2], solved(det, &cross(&red, &green), xyz)),
    ]
}

/// Whether a matrix can be inverted.
fn is_invertible(columns: &[i32; 9]) -> bool
    ensures { result ≡ is_invertible columns.now }
{
    !determinant(
        &column(columns, 0),
        &column(columns, 1),
        &column(columns, 2),
    )
    .is_zero()
}

fn in_16(n: Wide) -> Wide
    ensures value { result ≡ in_16 n }
    ensures low { pos 0 ≤ℤ result }
    ensures high { result ≤ℤ pos 65535 }
{
    clamped(n, 0, 65535)
}

fn in_8(n: Wide) -> Wide
    ensures value { result ≡ in_8 n }
    ensures low { pos 0 ≤ℤ result }
    ensures high { result ≤ℤ pos 255 }
{
    clamped(n, 0, 255)
}

/// A number of XYZ as a value of 16 bits.
fn half(n: Wide) -> Wide
    requires low { pos 0 ≤ℤ n }
    requires high { n ≤ℤ pos 131070 }
    ensures value { result ≡ in_16 (div_round n (pos 2)) }
    ensures low { pos 0 ≤ℤ result }
    ensures high { result ≤ℤ pos 65535 }
{
    in_16(n.div_round(Wide::of(2)))
}

/// L* as a value, of which `whole` is 100.
fn lightness(l: Wide, whole: u32) -> Wide
    requires low { pos 0 ≤ℤ l }
    requires high { l ≤ℤ pos 6553600 }
    requires whole { whole ≤ 65535 }
    ensures { result ≡ div_round (l *ℤ pos whole) (pos 6553600) }
{
    l.times(whole).div_round(Wide::of(6553600))
}

/// a* or b* as a value, of which `none` is 0, in steps of `step`.
fn chroma(a: Wide, step: u32, none: u32) -> Wide
    requires a { unsigned_abs a ≤ 8388608 }
    requires some { 0 < step }
    ensures { result ≡ div_round a (pos step) +ℤ pos none }
{
    a.div_round(Wide::of(i64::from(step))) + Wide::of(i64::from(none))
}

/// XYZ in a lut's values of 16 bits.
fn encoded_xyz(v: &Pcs) -> Pcs
    requires { IsXyz v.now }
    ensures value { result ≡ encoded true false v.now }
    ensures counts { AreCounts 65535 result }
{
    Pcs {
        first: half(v.first),
        second: half(v.second),
        third: half(v.third),
    }
}

/// Lab in a lut's values, of 16 bits or 8.
fn encoded_lab(wide: bool, v: &Pcs) -> Pcs
    requires { IsLab v.now }
    ensures value { result ≡ encoded wide true v.now }
    ensures counts { AreCounts (top_of wide) result }
{
    if wide {
        Pcs {
            first: in_16(lightness(v.first, 65280)),
            second: in_16(chroma(v.second, 256, 32768)),
            third: in_16(chroma(v.third, 256, 32768)),
        }
    } else {
        Pcs {
            first: in_8(lightness(v.first, 255)),
            second: in_8(chroma(v.second, 65536, 128)),
            third: in_8(chroma(v.third, 65536, 128)),
        }
    }
}

/// One number by a row of a lut's matrix.
fn by_row(matrix: &[i32; 9], k: u8, v: &Pcs) -> Wide
    requires k { k < 3 }
    requires v { AreCounts 65535 v.now }
    ensures value { result ≡ in_16 (div_round (dot (column matrix.now k) v.now) (pos 65536)) }
    ensures low { pos 0 ≤ℤ result }
    ensures high { result ≤ℤ pos 65535 }
{
    see_counts(v);
    let row = column(matrix, k);
    see_elements(&row);
    in_16(dot(&row, v).div_round(Wide::of(65536)))
}

/// Values by a lut's matrix, which is used for XYZ alone.
fn by_matrix(matrix: &[i32; 9], v: &Pcs) -> Pcs
    requires { AreCounts 65535 v.now }
    ensures value { result ≡ by_matrix matrix.now v.now }
    ensures counts { AreCounts 65535 result }
{
    Pcs {
        first: by_row(matrix, 0, v),
        second: by_row(matrix, 1, v),
        third: by_row(matrix, 2, v),
    }
}

/// The values with which a lut begins.
fn begun(lut: &Lut, lab: bool, v: &Pcs) -> Pcs
    requires lab { lut.now.wide ≡ false → lab ≡ true }
    requires v { IsIn lab v.now }
    ensures value { result ≡ begun lut.now lab v.now }
    ensures counts { AreCounts (top_of lut.now.wide) result }
{
    if lab {
        encoded_lab(lut.wide, v)
    } else {
        by_matrix(&lut.matrix, &encoded_xyz(v))
    }
}

/// A count of at most 16 bits as a value.
fn count_of(n: Wide) -> u16
    requires low { pos 0 ≤ℤ n }
    requires high { n ≤ℤ pos 65535 }
    ensures { result ≡ unsigned_abs n }
{
    n.narrow() as u16
}

/// A lut's value in 16 bits: one of 8 bits is 257 times as great.
fn widened(wide: bool, v: u16) -> u16
    requires { v ≤ top_of wide }
    ensures { result ≡ (if wide then v else 257 * v) }
{
    if wide { v } else { 257 * v }
}

/// The three values of 16 bits of the connection space, by a lut.
fn lut_target(lut: &Lut, lab: bool, v: &Pcs) -> [u16; 3]
    requires inputs { lut.now.inputs ≡ 3 }
    requires lab { lut.now.wide ≡ false → lab ≡ true }
    requires v { IsIn lab v.now }
    ensures { result ≡ lut_target lut.now lab v.now }
{
    let begun = begun(lut, lab, v);
    let [first, second, third] = of_three(
        lut,
        count_of(begun.first),
        count_of(begun.second),
        count_of(begun.third),
    );
    [
        widened(lut.wide, first),
        widened(lut.wide, second),
        widened(lut.wide, third),
    ]
}

/// a* or b* as a value of stages, of which 8080 hex is 0.
fn staged_chroma(a: Wide) -> Wide
    requires low { neg_ℤ (pos 8388608) ≤ℤ a }
    requires high { a ≤ℤ pos 8388352 }
    ensures value { result ≡ in_16 (div_round ((a +ℤ pos 8388608) *ℤ pos 65535) (pos 16711680)) }
    ensures low { pos 0 ≤ℤ result }
    ensures high { result ≤ℤ pos 65535 }
{
    let steps = (a + Wide::of(8_388_608)).times(65535);
    in_16(steps.div_round(Wide::of(16_711_680)))
}

/// The values with which stages begin.
fn staged_back(lab: bool, v: &Pcs) -> Pcs
    requires { IsIn lab v.now }
    ensures value { result ≡ staged_back lab v.now }
    ensures counts { AreCounts 65535 result }
{
    if lab {
        Pcs {
            first: in_16(lightness(v.first, 65535)),
            second: staged_chroma(v.second),
            third: staged_chroma(v.third),
        }
    } else {
        encoded_xyz(v)
    }
}

/// The three values of 16 bits of the connection space, by stages.
fn stages_target(stages: &Stages, lab: bool, v: &Pcs) -> [u16; 3]
    requires way { stages.now.forward ≡ false }
    requires v { IsIn lab v.now }
    ensures { result ≡ stages_target stages.now lab v.now }
{
    let begun = staged_back(lab, v);
    backward_at(
        stages,
        [
            count_of(begun.first),
            count_of(begun.second),
            count_of(begun.third),
        ],
    )
}

/// The three values of a target that has no transform for the intent.
fn base_target(base: Option<&Base>, lab: bool, channels: u8, v: &Pcs) -> [u16; 3]
    requires base { IsBase lab channels (option_copied base) }
    requires receives { IsTrue (receives_by None (option_copied base)) }
    requires v { IsIn lab v.now }
    ensures { result ≡ target_by None (option_copied base.entry) lab v.now }
{
    match base {
        Some(base) => match base {
            Base::Matrix { columns, curves } => matrix_target(columns, curves, v),
            // Neither can receive.
            Base::Gray { .. } => [0, 0, 0],
        },
        None => [0, 0, 0],
    }
}

/// The three values of 16 bits of the connection space in a profile, at an intent.
#[tactic(auto, unfolding(crate::specs::Direct::target_of, crate::specs::Direct::can_receive))]
pub fn target_of(profile: &Profile, intent: Intent, v: &Pcs) -> [u16; 3]
    requires receives { IsTrue (can_receive profile.now intent) }
    requires v { IsIn profile.now.lab v.now }
    ensures { result ≡ target_of profile.now intent v.now }
{
    match profile.chosen_backward(intent) {
        Some(transform) => match transform {
            Transform::Lut(lut) => lut_target(lut, profile.lab(), v),
            Transform::Stages(stages) => stages_target(stages, profile.lab(), v),
        },
        None => base_target(profile.base(), profile.lab(), profile.channels(), v),
    }
}

/// Whether a matrix or a gray curve alone can receive.
fn can_base_receive(base: Option<&Base>) -> bool
    ensures { result ≡ receives_by None (option_copied base.entry) }
{
    match base {
        Some(base) => match base {
            Base::Matrix { columns, .. } => is_invertible(columns),
            Base::Gray { .. } => false,
        },
        None => false,
    }
}

impl Profile {
    /// Whether colours can be taken to this profile at an intent: it has a transform for it, or a
    /// matrix that can be inverted.
    #[tactic(auto, unfolding(crate::specs::Direct::can_receive))]
    pub fn can_receive(&self, intent: Intent) -> bool
        ensures { result ≡ can_receive self.now intent }
    {
        match self.chosen_backward(intent) {
            Some(_transform) => true,
            None => can_base_receive(self.base()),
        }
    }
}
