//! Matrices and gray curves.
use crate::profiles::{ADOBE, SRGB, narrow, of_columns, of_gray, of_matrix, of_xyz, wide};
use icc_model::{Curve, Intent};
use press_fault::Mem;
use std::alloc::Global;
use std::test::Fail;

/// Rises slowly, then fast.
fn bent(alloc: Global) -> Mem<Curve> {
    Ok(Curve::of_values(vec![in alloc; 0, 9000, 65535]?))
}

fn falling(alloc: Global) -> Mem<Curve> {
    Ok(Curve::of_values(vec![in alloc; 65535, 20000]?))
}

/// Falls in between.
fn up_and_down(alloc: Global) -> Mem<Curve> {
    Ok(Curve::of_values(vec![in alloc; 0, 50000, 20000, 65535]?))
}

#[test]
fn a_matrix_with_three_kinds_of_curves(rt: HostRuntime) -> Result<(), Fail> {
    let curves = [Curve::identity(), bent(rt.alloc())?, falling(rt.alloc())?];
    let source = of_matrix(rt.alloc(), SRGB, curves)?;
    let target = of_xyz(rt.alloc())?;
    // code, colour
    let cases = [
        ([0, 0, 0, 0], [4689, 1987, 23402]),
        ([255, 255, 255, 0], [28339, 31388, 10781]),
        ([255, 0, 0, 0], [18978, 9278, 23859]),
        ([0, 255, 0, 0], [17307, 25477, 26584]),
        ([0, 0, 255, 0], [1431, 606, 7142]),
        ([1, 128, 254, 0], [3276, 3946, 7656]),
        ([200, 100, 50, 0], [16617, 9965, 20915]),
        ([17, 93, 211, 0], [4210, 3684, 10297]),
    ];
    for (code, want) in cases {
        assert_eq!(rt;
            wide(&source, &target, Intent::Perceptual, code),
            Some(want)
        );
    }
    Ok(())
}

#[test]
fn a_matrix_to_a_matrix(rt: HostRuntime) -> Result<(), Fail> {
    let source = of_columns(rt.alloc(), SRGB)?;
    let curves = [
        bent(rt.alloc())?,
        Curve::identity(),
        up_and_down(rt.alloc())?,
    ];
    let target = of_matrix(rt.alloc(), ADOBE, curves)?;
    // code, colour
    let cases = [
        ([0, 0, 0, 0], [0, 0, 0]),
        ([255, 255, 255, 0], [65533, 65534, 65535]),
        ([255, 0, 0, 0], [54717, 0, 1]),
        ([0, 255, 0, 0], [38368, 65535, 1181]),
        ([0, 0, 255, 0], [0, 0, 64252]),
        ([1, 128, 254, 0], [33087, 32894, 64784]),
        ([200, 100, 50, 0], [53099, 25700, 5848]),
        ([17, 93, 211, 0], [33307, 23900, 59521]),
    ];
    for (code, want) in cases {
        assert_eq!(rt;
            wide(&source, &target, Intent::Perceptual, code),
            Some(want)
        );
    }
    Ok(())
}

#[test]
fn a_matrix_to_a_matrix_in_8_bits(rt: HostRuntime) -> Result<(), Fail> {
    let source = of_columns(rt.alloc(), SRGB)?;
    let curves = [
        bent(rt.alloc())?,
        Curve::identity(),
        up_and_down(rt.alloc())?,
    ];
    let target = of_matrix(rt.alloc(), ADOBE, curves)?;
    // code, colour
    let cases = [
        ([0, 0, 0, 0], [0, 0, 0]),
        ([255, 255, 255, 0], [255, 255, 255]),
        ([255, 0, 0, 0], [213, 0, 0]),
        ([0, 255, 0, 0], [149, 255, 5]),
        ([0, 0, 255, 0], [0, 0, 250]),
        ([1, 128, 254, 0], [129, 128, 252]),
        ([200, 100, 50, 0], [207, 100, 23]),
        ([17, 93, 211, 0], [130, 93, 232]),
    ];
    for (code, want) in cases {
        assert_eq!(rt;
            narrow(&source, &target, Intent::Perceptual, code),
            Some(want)
        );
    }
    Ok(())
}

#[test]
fn a_matrix_of_negative_determinant(rt: HostRuntime) -> Result<(), Fail> {
    let source = of_columns(rt.alloc(), SRGB)?;
    // Green before red.
    let mirrored = [13453, 41004, 3989, 39960, 20389, 1276, 9777, 4143, 48796];
    let target = of_columns(rt.alloc(), mirrored)?;
    // code, colour
    let cases = [
        ([0, 0, 0, 0], [0, 0, 0]),
        ([255, 255, 255, 0], [65534, 65532, 65535]),
        ([255, 0, 0, 0], [0, 46870, 1]),
        ([0, 255, 0, 0], [65535, 18663, 2702]),
        ([0, 0, 255, 0], [0, 0, 62860]),
        ([1, 128, 254, 0], [32894, 9551, 63970]),
        ([200, 100, 50, 0], [25700, 44079, 13385]),
        ([17, 93, 211, 0], [23900, 9930, 52999]),
    ];
    for (code, want) in cases {
        assert_eq!(rt;
            wide(&source, &target, Intent::Perceptual, code),
            Some(want)
        );
    }
    Ok(())
}

#[test]
fn no_singular_matrix_and_no_gray_receives(rt: HostRuntime) -> Result<(), Fail> {
    let source = of_columns(rt.alloc(), SRGB)?;
    // Red twice.
    let singular = [28579, 14582, 913, 28579, 14582, 913, 9377, 3973, 46804];
    let targets = [
        of_columns(rt.alloc(), singular)?,
        of_gray(rt.alloc(), false, Curve::identity())?,
        of_gray(rt.alloc(), true, bent(rt.alloc())?)?,
    ];
    for target in &targets {
        assert_eq!(rt; wide(&source, target, Intent::Relative, [1, 2, 3, 0]), None);
    }
    Ok(())
}

#[test]
fn a_gray_of_xyz(rt: HostRuntime) -> Result<(), Fail> {
    let source = of_gray(rt.alloc(), false, bent(rt.alloc())?)?;
    let target = of_xyz(rt.alloc())?;
    // code, colour
    let cases = [
        ([0, 0, 0, 0], [0, 0, 0]),
        ([1, 0, 0, 0], [34, 36, 30]),
        ([64, 0, 0, 0], [2178, 2259, 1864]),
        ([127, 0, 0, 0], [4322, 4483, 3698]),
        ([128, 0, 0, 0], [4446, 4611, 3804]),
        ([200, 0, 0, 0], [19838, 20574, 16972]),
        ([254, 0, 0, 0], [31382, 32547, 26848]),
        ([255, 0, 0, 0], [31595, 32768, 27031]),
    ];
    for (code, want) in cases {
        assert_eq!(rt;
            wide(&source, &target, Intent::Perceptual, code),
            Some(want)
        );
    }
    Ok(())
}

#[test]
fn a_gray_of_lab(rt: HostRuntime) -> Result<(), Fail> {
    let source = of_gray(rt.alloc(), true, bent(rt.alloc())?)?;
    let target = of_xyz(rt.alloc())?;
    // code, colour
    let cases = [
        ([0, 0, 0, 0], [0, 0, 0]),
        ([1, 0, 0, 0], [4, 4, 3]),
        ([64, 0, 0, 0], [241, 250, 207]),
        ([127, 0, 0, 0], [529, 549, 453]),
        ([128, 0, 0, 0], [551, 571, 471]),
        ([200, 0, 0, 0], [9899, 10267, 8469]),
        ([254, 0, 0, 0], [31046, 32199, 26561]),
        ([255, 0, 0, 0], [31595, 32768, 27031]),
    ];
    for (code, want) in cases {
        assert_eq!(rt;
            wide(&source, &target, Intent::Perceptual, code),
            Some(want)
        );
    }
    Ok(())
}
