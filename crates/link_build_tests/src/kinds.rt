//! A profile of each kind.
use icc_direct_tests::profiles::{ADOBE, SRGB, lut, of_gray, of_matrix, reader, writer};
use icc_model::{Curve, Profile};
use press_fault::Mem;
use std::alloc::Global;

/// The numbers of the sources by a matrix and by a gray curve.
pub(crate) const MATRIX_AND_GRAY: [u8; 3] = [0, 1, 2];

/// The numbers of the sources by luts of three channels.
pub(crate) const LUTS_OF_THREE: [u8; 3] = [3, 4, 5];

/// The numbers of the sources by luts of one channel and of four.
pub(crate) const LUTS_OF_ONE_AND_FOUR: [u8; 4] = [6, 7, 8, 9];

/// How many kinds of targets there are.
pub(crate) const TARGETS: u8 = 6;

fn bent(alloc: Global) -> Mem<Curve> {
    Ok(Curve::of_values(vec![in alloc; 0, 9000, 65535]?))
}

fn falling(alloc: Global) -> Mem<Curve> {
    Ok(Curve::of_values(vec![in alloc; 65535, 20000]?))
}

/// A matrix whose three curves differ: the identity, one that rises and one that falls.
fn matrix(alloc: Global, columns: [i32; 9]) -> Mem<Profile> {
    let curves = [Curve::identity(), bent(alloc)?, falling(alloc)?];
    of_matrix(alloc, columns, curves)
}

/// The columns of Adobe RGB with red and green exchanged: the determinant is negative.
const TURNED: [i32; 9] = [13453, 41004, 3989, 39960, 20389, 1276, 9777, 4143, 48796];

/// Columns whose determinant and adjugate pass 64 bits.
const LARGE: [i32; 9] = [2000000000, 3, 7, -5, 1900000000, 11, 13, -17, 1800000000];

/// A source of each kind: a matrix; gray; luts of one, three and four channels, of 16 and of 8 bits,
/// to XYZ and to Lab.
pub(crate) fn source(alloc: Global, number: u8) -> Mem<Profile> {
    match number {
        0 => matrix(alloc, SRGB),
        1 => of_gray(alloc, false, bent(alloc)?),
        2 => of_gray(alloc, true, bent(alloc)?),
        3 => reader(alloc, false, lut(alloc, true, 3, 3, 81, 5, 40503)?),
        4 => reader(alloc, true, lut(alloc, true, 3, 3, 81, 5, 40503)?),
        5 => reader(alloc, true, lut(alloc, false, 3, 3, 81, 256, 157)?),
        6 => reader(alloc, true, lut(alloc, true, 1, 6, 18, 5, 40503)?),
        7 => reader(alloc, false, lut(alloc, true, 4, 3, 243, 5, 40503)?),
        8 => reader(alloc, true, lut(alloc, true, 4, 3, 243, 5, 40503)?),
        _ => reader(alloc, true, lut(alloc, false, 4, 3, 243, 256, 157)?),
    }
}

/// A target of each kind: matrices with a positive and a negative determinant and with large
/// elements; luts of 16 bits from XYZ and from Lab, and of 8 bits.
pub(crate) fn target(alloc: Global, number: u8) -> Mem<Profile> {
    match number {
        0 => matrix(alloc, ADOBE),
        1 => matrix(alloc, TURNED),
        2 => matrix(alloc, LARGE),
        3 => writer(
            alloc,
            false,
            lut(alloc, true, 3, 3, 81, 5, 40503)?,
            lut(alloc, true, 3, 3, 81, 5, 40503)?,
        ),
        4 => writer(
            alloc,
            true,
            lut(alloc, true, 3, 3, 81, 5, 40503)?,
            lut(alloc, true, 3, 2, 24, 4, 30011)?,
        ),
        _ => writer(
            alloc,
            true,
            lut(alloc, false, 3, 3, 81, 256, 157)?,
            lut(alloc, false, 3, 3, 81, 256, 91)?,
        ),
    }
}
