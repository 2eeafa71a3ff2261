//! The profiles of the tests, and colours through two of them.
ghost use Rattle.std.specs.Prelude.{◌≡◌, ◌≤◌, ◌^◌, ◌*◌, ◌⊎◌, true, false, IfOk, length};
ghost use Rattle.icc_tables.specs.Lattice.{AreAtMost, IsCount, top_of};

use byteorder::{BigEndian, ByteOrder};
use icc_model::{
    Base, Curve, Intent, Lut, NodeSize, Nodes, Profile, SharedBytes, Transform, Values, direct,
    direct_wide,
};
use press_fault::{Code, Mem};
use std::alloc::Global;

/// The red, the green and the blue column of sRGB, adapted to D50, in 1/65536.
pub const SRGB: [i32; 9] = [28579, 14582, 913, 25236, 46981, 6364, 9377, 3973, 46804];

/// The same of Adobe RGB (1998).
pub const ADOBE: [i32; 9] = [39960, 20389, 1276, 13453, 41004, 3989, 9777, 4143, 48796];

/// Columns with which X, Y and Z themselves are the values of red, green and blue, a half of each.
const XYZ: [i32; 9] = [131070, 0, 0, 0, 131070, 0, 0, 0, 131070];

/// A lut's matrix, by rows.
const TURNED: [i32; 9] = [0, 65536, 0, 32768, 16384, 16384, -65536, 65536, 131072];

/// No transforms.
const NONE: [Option<Transform>; 3] = [None, None, None];

fn product(place: u16, factor: u16, most: u16) -> u16
    ensures { result ≤ most }
{
    (u32::from(place) * u32::from(factor) % (u32::from(most) + 1)) as u16
}

/// The products of so many places and a factor, modulo one more than `most`.
#[tactic(auto, using(crate::proofs::Most::pushed))]
pub fn products(alloc: Global, count: u16, factor: u16, most: u16) -> Mem<Values>
    ensures count { IfOk result (λ values. length values ≡ count) }
    ensures most { IfOk result (AreAtMost most) }
{
    let mut values = Vec::new(alloc);
    for k in 0..count {
        values.push(product(k, factor, most))?;
    }
    Ok(Values::from_vec(values))
}

/// Nodes of such values, of two bytes each.
fn words(alloc: Global, values: &[u16]) -> Mem<Nodes>
    ensures count { IfOk result (λ nodes. length nodes ≡ length values.now) }
    ensures most { IfOk result (AreAtMost 65535) }
{
    let mut bytes = vec![in alloc; 0; 2 * values.len()]?;
    BigEndian::write_u16_into(values, &mut bytes);
    let bytes = SharedBytes::new(alloc, bytes)?;
    Ok(Nodes::new(bytes, 0, values.len(), NodeSize::Word))
}

/// Nodes of such values, of one byte each.
fn bytes(alloc: Global, count: u16, factor: u16) -> Mem<Nodes>
    ensures count { IfOk result (λ nodes. length nodes ≡ count) }
    ensures most { IfOk result (AreAtMost 255) }
{
    let mut bytes = Vec::new(alloc);
    for k in 0..count {
        bytes.push(product(k, factor, 255) as u8)?;
    }
    let bytes = SharedBytes::new(alloc, bytes)?;
    Ok(Nodes::new(bytes, 0, usize::from(count), NodeSize::Byte))
}

/// The nodes of a lattice, the products of so many places and a factor, modulo one more than the
/// greatest value.
fn node_products(alloc: Global, wide: bool, count: u16, factor: u16) -> Mem<Nodes>
    ensures count { IfOk result (λ nodes. length nodes ≡ count) }
    ensures most { IfOk result (AreAtMost (top_of wide)) }
{
    if wide {
        let values = products(alloc, count, factor, 65535)?;
        words(alloc, values.items())
    } else {
        bytes(alloc, count, factor)
    }
}

fn top_of(wide: bool) -> u16
    ensures { result ≡ top_of wide }
{
    if wide { 65535 } else { 255 }
}

/// A lut whose values are products of their places and a factor. Its lattice has `nodes` values, and
/// each table has `entries`.
pub fn lut(
    alloc: Global,
    wide: bool,
    inputs: u8,
    grid: u8,
    nodes: u16,
    entries: u16,
    factor: u16,
) -> Mem<Lut>
    requires channels { (inputs ≡ 1) ⊎ (inputs ≡ 3) ⊎ (inputs ≡ 4) }
    requires some_points { 2 ≤ grid }
    requires few_points { grid ≤ 255 }
    requires nodes { nodes ≡ grid ^ inputs * 3 }
    requires entries { IsCount wide entries }
    requires few_entries { entries ≤ 4096 }
    ensures wide { IfOk result (λ lut. lut.wide ≡ wide) }
    ensures inputs { IfOk result (λ lut. lut.inputs ≡ inputs) }
{
    let top = top_of(wide);
    Ok(Lut {
        wide,
        inputs,
        grid,
        matrix: TURNED,
        before_count: entries,
        after_count: entries,
        before: products(alloc, u16::from(inputs) * entries, factor, top)?,
        nodes: node_products(alloc, wide, nodes, factor)?,
        after: products(alloc, 3 * entries, factor, top)?,
    })
}

/// No bytes: the profiles of the tests weren't read from any.
fn nothing(alloc: Global) -> Mem<SharedBytes> {
    Ok(SharedBytes::new(alloc, Vec::new(alloc))?)
}

/// RGB by a matrix of these columns.
pub fn of_matrix(alloc: Global, columns: [i32; 9], curves: [Curve; 3]) -> Mem<Profile> {
    let base = Some(Base::Matrix { columns, curves });
    Ok(Profile::of_parts(nothing(alloc)?, false, 3, base, NONE, NONE))
}

/// RGB by a matrix, with the values themselves as linear ones.
pub fn of_columns(alloc: Global, columns: [i32; 9]) -> Mem<Profile> {
    let curves = [Curve::identity(), Curve::identity(), Curve::identity()];
    of_matrix(alloc, columns, curves)
}

/// A target whose values are X, Y and Z.
pub fn of_xyz(alloc: Global) -> Mem<Profile> {
    of_columns(alloc, XYZ)
}

/// Gray by a curve.
pub fn of_gray(alloc: Global, lab: bool, curve: Curve) -> Mem<Profile> {
    let base = Some(Base::Gray { curve });
    Ok(Profile::of_parts(nothing(alloc)?, lab, 1, base, NONE, NONE))
}

/// A source with a lut.
pub fn reader(alloc: Global, lab: bool, lut: Lut) -> Mem<Profile>
    requires { lut.wide ≡ false → lab ≡ true }
{
    let channels = lut.inputs;
    let forward = [Some(Transform::Lut(lut)), None, None];
    Ok(Profile::of_parts(nothing(alloc)?, lab, channels, None, forward, NONE))
}

/// A source with a lut for perceptual and one for relative rendering.
pub fn reader_of_two(alloc: Global, perceptual: Lut, relative: Lut) -> Mem<Profile>
    requires perceptual { perceptual.inputs ≡ 3 }
    requires relative { relative.inputs ≡ 3 }
{
    let forward = [
        Some(Transform::Lut(perceptual)),
        Some(Transform::Lut(relative)),
        None,
    ];
    Ok(Profile::of_parts(nothing(alloc)?, true, 3, None, forward, NONE))
}

/// RGB with a lut for each way.
pub fn writer(alloc: Global, lab: bool, forward: Lut, backward: Lut) -> Mem<Profile>
    requires forward_inputs { forward.inputs ≡ 3 }
    requires backward_inputs { backward.inputs ≡ 3 }
    requires forward_lab { forward.wide ≡ false → lab ≡ true }
    requires backward_lab { backward.wide ≡ false → lab ≡ true }
{
    let forward = [Some(Transform::Lut(forward)), None, None];
    let backward = [Some(Transform::Lut(backward)), None, None];
    Ok(Profile::of_parts(nothing(alloc)?, lab, 3, None, forward, backward))
}

/// A code of so many channels; bytes behind them count for nothing.
pub fn code_of(channels: u8, bytes: [u8; 4]) -> Code
    requires { (channels ≡ 1) ⊎ (channels ≡ 3) ⊎ (channels ≡ 4) }
    ensures { result.n ≡ channels }
{
    let [first, second, third, _] = bytes;
    match channels {
        1 => Code::gray(first),
        3 => Code::rgb(first, second, third),
        _ => Code { n: 4, c: bytes },
    }
}

/// The colour of 16 bits, where the target can receive.
pub fn wide(
    source: &Profile,
    target: &Profile,
    intent: Intent,
    bytes: [u8; 4],
) -> Option<[u16; 3]> {
    if !target.can_receive(intent) {
        return None;
    }
    let code = code_of(source.channels(), bytes);
    Some(direct_wide(source, target, intent, code))
}

/// The colour of 8 bits, where the target can receive.
pub fn narrow(
    source: &Profile,
    target: &Profile,
    intent: Intent,
    bytes: [u8; 4],
) -> Option<[u8; 3]> {
    if !target.can_receive(intent) {
        return None;
    }
    let code = code_of(source.channels(), bytes);
    Some(direct(source, target, intent, code))
}
