//! Luts of 8 and of 16 bits, as sources and as targets.
use crate::profiles::{SRGB, lut, narrow, of_columns, of_xyz, reader, reader_of_two, wide, writer};
use icc_model::Intent;
use std::test::Fail;

#[test]
fn a_lut_of_16_bits_to_xyz(rt: HostRuntime) -> Result<(), Fail> {
    let lut = lut(rt.alloc(), true, 3, 3, 81, 5, 40503)?;
    let source = reader(rt.alloc(), false, lut)?;
    let target = of_xyz(rt.alloc())?;
    // code, colour
    let cases = [
        ([0, 0, 0, 0], [31062, 22728, 48831]),
        ([255, 255, 255, 0], [25685, 38490, 39785]),
        ([255, 0, 0, 0], [22509, 35303, 4359]),
        ([0, 255, 0, 0], [15474, 37931, 8140]),
        ([0, 0, 255, 0], [52848, 31024, 37612]),
        ([1, 128, 254, 0], [18742, 38131, 25702]),
        ([200, 100, 50, 0], [30823, 22913, 46775]),
        ([17, 93, 211, 0], [24893, 35792, 16258]),
    ];
    for (code, want) in cases {
        assert_eq!(rt;
            wide(&source, &target, Intent::Perceptual, code),
            Some(want)
        );
    }
    Ok(())
}

#[test]
fn a_lut_of_16_bits_to_lab(rt: HostRuntime) -> Result<(), Fail> {
    let lut = lut(rt.alloc(), true, 3, 3, 81, 5, 40503)?;
    let source = reader(rt.alloc(), true, lut)?;
    let target = of_xyz(rt.alloc())?;
    // code, colour
    let cases = [
        ([0, 0, 0, 0], [3274, 5397, 348]),
        ([255, 255, 255, 0], [4490, 3559, 1063]),
        ([255, 0, 0, 0], [2976, 2701, 26231]),
        ([0, 255, 0, 0], [1770, 1314, 15084]),
        ([0, 0, 255, 0], [17561, 19134, 11008]),
        ([1, 128, 254, 0], [2466, 1877, 3877]),
        ([200, 100, 50, 0], [3238, 5304, 541]),
        ([17, 93, 211, 0], [3724, 3330, 13283]),
    ];
    for (code, want) in cases {
        assert_eq!(rt;
            wide(&source, &target, Intent::Perceptual, code),
            Some(want)
        );
    }
    Ok(())
}

#[test]
fn a_lut_of_8_bits_to_lab(rt: HostRuntime) -> Result<(), Fail> {
    let lut = lut(rt.alloc(), false, 3, 3, 81, 256, 157)?;
    let source = reader(rt.alloc(), true, lut)?;
    let target = of_xyz(rt.alloc())?;
    // code, colour
    let cases = [
        ([0, 0, 0, 0], [0, 0, 0]),
        ([255, 255, 255, 0], [18294, 25142, 6000]),
        ([255, 0, 0, 0], [0, 271, 0]),
        ([0, 255, 0, 0], [422, 745, 0]),
        ([0, 0, 255, 0], [6218, 4088, 0]),
        ([1, 128, 254, 0], [475, 256, 0]),
        ([200, 100, 50, 0], [370, 114, 4256]),
        ([17, 93, 211, 0], [830, 4429, 4453]),
    ];
    for (code, want) in cases {
        assert_eq!(rt;
            wide(&source, &target, Intent::Perceptual, code),
            Some(want)
        );
    }
    Ok(())
}

#[test]
fn a_lut_of_one_channel(rt: HostRuntime) -> Result<(), Fail> {
    let lut = lut(rt.alloc(), true, 1, 6, 18, 5, 40503)?;
    let source = reader(rt.alloc(), true, lut)?;
    let target = of_xyz(rt.alloc())?;
    // code, colour
    let cases = [
        ([0, 0, 0, 0], [245, 0, 0]),
        ([1, 0, 0, 0], [679, 381, 0]),
        ([64, 0, 0, 0], [2930, 2978, 21809]),
        ([127, 0, 0, 0], [12405, 15379, 1846]),
        ([128, 0, 0, 0], [12550, 15486, 2092]),
        ([200, 0, 0, 0], [829, 3076, 17027]),
        ([254, 0, 0, 0], [13718, 9666, 15314]),
        ([255, 0, 0, 0], [14044, 10079, 15066]),
    ];
    for (code, want) in cases {
        assert_eq!(rt;
            wide(&source, &target, Intent::Perceptual, code),
            Some(want)
        );
    }
    Ok(())
}

#[test]
fn a_lut_of_four_channels_and_16_bits(rt: HostRuntime) -> Result<(), Fail> {
    let lut = lut(rt.alloc(), true, 4, 3, 243, 5, 40503)?;
    let source = reader(rt.alloc(), true, lut)?;
    let target = of_xyz(rt.alloc())?;
    // code, colour
    let cases = [
        ([0, 0, 0, 0], [1793, 1901, 1017]),
        ([255, 255, 255, 255], [5371, 6209, 8516]),
        ([255, 0, 0, 0], [1286, 1962, 2469]),
        ([0, 255, 0, 0], [1196, 2107, 13596]),
        ([0, 0, 255, 0], [2007, 1581, 5466]),
        ([0, 0, 0, 255], [5262, 5673, 10650]),
        ([1, 128, 254, 30], [1961, 3275, 4648]),
        ([200, 100, 50, 25], [7412, 4080, 2681]),
        ([17, 93, 211, 140], [2380, 3739, 13049]),
        ([127, 128, 1, 77], [1435, 1315, 2897]),
    ];
    for (code, want) in cases {
        assert_eq!(rt;
            wide(&source, &target, Intent::Perceptual, code),
            Some(want)
        );
    }
    Ok(())
}

#[test]
fn a_lut_of_four_channels_and_8_bits(rt: HostRuntime) -> Result<(), Fail> {
    let lut = lut(rt.alloc(), false, 4, 3, 243, 256, 157)?;
    let source = reader(rt.alloc(), true, lut)?;
    let target = of_xyz(rt.alloc())?;
    // code, colour
    let cases = [
        ([0, 0, 0, 0], [0, 0, 0]),
        ([255, 255, 255, 255], [34111, 19973, 9793]),
        ([255, 0, 0, 0], [0, 828, 0]),
        ([0, 255, 0, 0], [0, 271, 0]),
        ([0, 0, 255, 0], [422, 745, 0]),
        ([0, 0, 0, 255], [6218, 4088, 0]),
        ([1, 128, 254, 30], [0, 29, 1156]),
        ([200, 100, 50, 25], [1503, 6879, 11373]),
        ([17, 93, 211, 140], [14038, 13445, 35789]),
        ([127, 128, 1, 77], [5276, 6090, 19422]),
    ];
    for (code, want) in cases {
        assert_eq!(rt;
            wide(&source, &target, Intent::Perceptual, code),
            Some(want)
        );
    }
    Ok(())
}

#[test]
fn xyz_to_a_lut_of_16_bits(rt: HostRuntime) -> Result<(), Fail> {
    let source = of_columns(rt.alloc(), SRGB)?;
    let forward = lut(rt.alloc(), true, 3, 3, 81, 5, 40503)?;
    let backward = lut(rt.alloc(), true, 3, 3, 81, 5, 40503)?;
    let target = writer(rt.alloc(), false, forward, backward)?;
    // code, colour
    let cases = [
        ([0, 0, 0, 0], [31062, 22728, 48831]),
        ([255, 255, 255, 0], [26976, 29529, 22244]),
        ([255, 0, 0, 0], [29738, 22350, 20101]),
        ([0, 255, 0, 0], [25956, 31816, 41093]),
        ([0, 0, 255, 0], [20909, 42802, 13330]),
        ([1, 128, 254, 0], [25448, 48527, 37597]),
        ([200, 100, 50, 0], [26916, 34923, 35749]),
        ([17, 93, 211, 0], [34597, 45291, 29953]),
    ];
    for (code, want) in cases {
        assert_eq!(rt;
            wide(&source, &target, Intent::Perceptual, code),
            Some(want)
        );
    }
    Ok(())
}

#[test]
fn lab_to_a_lut_of_16_bits(rt: HostRuntime) -> Result<(), Fail> {
    let source = of_columns(rt.alloc(), SRGB)?;
    let forward = lut(rt.alloc(), true, 3, 3, 81, 5, 40503)?;
    let backward = lut(rt.alloc(), true, 3, 3, 81, 5, 40503)?;
    let target = writer(rt.alloc(), true, forward, backward)?;
    // code, colour
    let cases = [
        ([0, 0, 0, 0], [21098, 40079, 29149]),
        ([255, 255, 255, 0], [36423, 27081, 25871]),
        ([255, 0, 0, 0], [19973, 27803, 42903]),
        ([0, 255, 0, 0], [21063, 48812, 42940]),
        ([0, 0, 255, 0], [32816, 28628, 19561]),
        ([1, 128, 254, 0], [24356, 22565, 44052]),
        ([200, 100, 50, 0], [35946, 37044, 48565]),
        ([17, 93, 211, 0], [19610, 25766, 39232]),
    ];
    for (code, want) in cases {
        assert_eq!(rt;
            wide(&source, &target, Intent::Perceptual, code),
            Some(want)
        );
    }
    Ok(())
}

#[test]
fn lab_to_a_lut_of_8_bits(rt: HostRuntime) -> Result<(), Fail> {
    let source = of_columns(rt.alloc(), SRGB)?;
    let forward = lut(rt.alloc(), false, 3, 3, 81, 256, 157)?;
    let backward = lut(rt.alloc(), false, 3, 3, 81, 256, 157)?;
    let target = writer(rt.alloc(), true, forward, backward)?;
    // code, colour
    let cases = [
        ([0, 0, 0, 0], [27756, 6168, 24929]),
        ([255, 255, 255, 0], [32639, 48573, 41891]),
        ([255, 0, 0, 0], [29298, 61166, 9252]),
        ([0, 255, 0, 0], [60138, 5911, 60909]),
        ([0, 0, 255, 0], [42405, 26728, 65535]),
        ([1, 128, 254, 0], [51143, 48830, 34438]),
        ([200, 100, 50, 0], [61680, 28527, 4112]),
        ([17, 93, 211, 0], [3084, 31868, 49601]),
    ];
    for (code, want) in cases {
        assert_eq!(rt;
            wide(&source, &target, Intent::Perceptual, code),
            Some(want)
        );
    }
    Ok(())
}

#[test]
fn a_lut_to_a_lut_in_8_bits(rt: HostRuntime) -> Result<(), Fail> {
    let from = lut(rt.alloc(), false, 4, 3, 243, 256, 157)?;
    let source = reader(rt.alloc(), true, from)?;
    let forward = lut(rt.alloc(), false, 3, 3, 81, 256, 91)?;
    let backward = lut(rt.alloc(), false, 3, 3, 81, 256, 91)?;
    let target = writer(rt.alloc(), true, forward, backward)?;
    // code, colour
    let cases = [
        ([0, 0, 0, 0], [128, 217, 249]),
        ([255, 255, 255, 255], [105, 116, 3]),
        ([255, 0, 0, 0], [179, 231, 14]),
        ([0, 255, 0, 0], [54, 180, 54]),
        ([0, 0, 255, 0], [37, 248, 150]),
        ([0, 0, 0, 255], [193, 9, 13]),
        ([1, 128, 254, 30], [14, 157, 230]),
        ([200, 100, 50, 25], [197, 178, 105]),
        ([17, 93, 211, 140], [196, 94, 202]),
        ([127, 128, 1, 77], [203, 214, 47]),
    ];
    for (code, want) in cases {
        assert_eq!(rt;
            narrow(&source, &target, Intent::Perceptual, code),
            Some(want)
        );
    }
    Ok(())
}

#[test]
fn a_missing_intent_is_served_by_the_perceptual(rt: HostRuntime) -> Result<(), Fail> {
    let perceptual = lut(rt.alloc(), true, 3, 3, 81, 5, 40503)?;
    let relative = lut(rt.alloc(), true, 3, 2, 24, 4, 30011)?;
    let source = reader_of_two(rt.alloc(), perceptual, relative)?;
    let target = of_xyz(rt.alloc())?;
    // intent, code, colour
    let cases = [
        (Intent::Perceptual, [1, 128, 254, 0], [2466, 1877, 3877]),
        (Intent::Perceptual, [200, 100, 50, 0], [3238, 5304, 541]),
        (Intent::Perceptual, [17, 93, 211, 0], [3724, 3330, 13283]),
        (Intent::Relative, [1, 128, 254, 0], [3814, 6856, 8310]),
        (Intent::Relative, [200, 100, 50, 0], [14286, 10579, 19334]),
        (Intent::Relative, [17, 93, 211, 0], [3816, 3589, 2744]),
        (Intent::Saturation, [1, 128, 254, 0], [2466, 1877, 3877]),
        (Intent::Saturation, [200, 100, 50, 0], [3238, 5304, 541]),
        (Intent::Saturation, [17, 93, 211, 0], [3724, 3330, 13283]),
    ];
    for (intent, code, want) in cases {
        assert_eq!(rt; wide(&source, &target, intent, code), Some(want));
    }
    Ok(())
}
