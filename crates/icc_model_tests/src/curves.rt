//! Curves, forwards and backwards.
use icc_model::{Curve, curve_at, curve_back};
use std::test::Fail;

#[test]
fn the_identity_gives_each_value_back(rt: HostRuntime) -> Result<(), Fail> {
    let curve = Curve::identity();
    // value, what the curve answers
    let cases = [
        (0, 0),
        (1, 1),
        (2, 2),
        (100, 100),
        (255, 255),
        (256, 256),
        (4095, 4095),
        (8192, 8192),
        (16383, 16383),
        (21845, 21845),
        (24576, 24576),
        (32767, 32767),
        (32768, 32768),
        (40000, 40000),
        (49151, 49151),
        (50000, 50000),
        (60000, 60000),
        (65278, 65278),
        (65534, 65534),
        (65535, 65535),
    ];
    for (v, want) in cases {
        assert_eq!(rt; curve_at(&curve, v), want, "at {v}");
    }
    Ok(())
}

#[test]
fn the_identity_read_backwards_gives_each_value_back(rt: HostRuntime) -> Result<(), Fail> {
    let curve = Curve::identity();
    // value, what the curve answers
    let cases = [
        (0, 0),
        (1, 1),
        (2, 2),
        (100, 100),
        (255, 255),
        (256, 256),
        (4095, 4095),
        (8192, 8192),
        (16383, 16383),
        (21845, 21845),
        (24576, 24576),
        (32767, 32767),
        (32768, 32768),
        (40000, 40000),
        (49151, 49151),
        (50000, 50000),
        (60000, 60000),
        (65278, 65278),
        (65534, 65534),
        (65535, 65535),
    ];
    for (v, want) in cases {
        assert_eq!(rt; curve_back(&curve, v), want, "at {v}");
    }
    Ok(())
}

#[test]
fn a_line_rises_between_two_values(rt: HostRuntime) -> Result<(), Fail> {
    let curve = Curve::of_values(vec![in rt.alloc(); 1000, 61000]?);
    // value, what the curve answers
    let cases = [
        (0, 1000),
        (1, 1001),
        (2, 1002),
        (100, 1092),
        (255, 1233),
        (257, 1235),
        (4096, 4750),
        (12345, 12302),
        (16384, 16000),
        (21845, 21000),
        (30000, 28466),
        (32767, 31000),
        (32768, 31000),
        (43690, 41000),
        (49151, 46000),
        (50000, 46777),
        (60000, 55932),
        (65278, 60765),
        (65534, 60999),
        (65535, 61000),
    ];
    for (v, want) in cases {
        assert_eq!(rt; curve_at(&curve, v), want, "at {v}");
    }
    Ok(())
}

#[test]
fn a_line_that_rises_read_backwards(rt: HostRuntime) -> Result<(), Fail> {
    let curve = Curve::of_values(vec![in rt.alloc(); 1000, 61000]?);
    // value, what the curve answers
    let cases = [
        (0, 0),
        (2, 0),
        (256, 0),
        (999, 0),
        (1000, 0),
        (1001, 1),
        (1002, 2),
        (4096, 3382),
        (16384, 16803),
        (30000, 31675),
        (30999, 32766),
        (31000, 32767),
        (31001, 32769),
        (43690, 46628),
        (50000, 53520),
        (60999, 65534),
        (61000, 65535),
        (61001, 65535),
        (65278, 65535),
        (65535, 65535),
    ];
    for (v, want) in cases {
        assert_eq!(rt; curve_back(&curve, v), want, "at {v}");
    }
    Ok(())
}

#[test]
fn a_line_falls_between_two_values(rt: HostRuntime) -> Result<(), Fail> {
    let curve = Curve::of_values(vec![in rt.alloc(); 61000, 1000]?);
    // value, what the curve answers
    let cases = [
        (0, 61000),
        (1, 60999),
        (2, 60998),
        (100, 60908),
        (255, 60767),
        (257, 60765),
        (4096, 57250),
        (12345, 49698),
        (16384, 46000),
        (21845, 41000),
        (30000, 33534),
        (32767, 31000),
        (32768, 31000),
        (43690, 21000),
        (49151, 16000),
        (50000, 15223),
        (60000, 6068),
        (65278, 1235),
        (65534, 1001),
        (65535, 1000),
    ];
    for (v, want) in cases {
        assert_eq!(rt; curve_at(&curve, v), want, "at {v}");
    }
    Ok(())
}

#[test]
fn a_line_that_falls_reaches_a_value_at_once_or_never(rt: HostRuntime) -> Result<(), Fail> {
    let curve = Curve::of_values(vec![in rt.alloc(); 61000, 1000]?);
    // value, what the curve answers
    let cases = [
        (0, 0),
        (1, 0),
        (3, 0),
        (255, 0),
        (999, 0),
        (1000, 0),
        (4095, 0),
        (8192, 0),
        (16384, 0),
        (24576, 0),
        (31000, 0),
        (32768, 0),
        (43690, 0),
        (49152, 0),
        (60000, 0),
        (60999, 0),
        (61000, 0),
        (61001, 65535),
        (65278, 65535),
        (65535, 65535),
    ];
    for (v, want) in cases {
        assert_eq!(rt; curve_back(&curve, v), want, "at {v}");
    }
    Ok(())
}

#[test]
fn flat_parts_keep_their_value(rt: HostRuntime) -> Result<(), Fail> {
    let curve = Curve::of_values(vec![in rt.alloc(); 0, 0, 30000, 30000, 30000, 65535, 65535]?);
    // value, what the curve answers
    let cases = [
        (0, 0),
        (2, 0),
        (256, 0),
        (5000, 0),
        (8192, 0),
        (10922, 0),
        (10923, 1),
        (16384, 15001),
        (21845, 30000),
        (21846, 30000),
        (30000, 30000),
        (32767, 30000),
        (43690, 30000),
        (43691, 30003),
        (49152, 47770),
        (50000, 50529),
        (54612, 65533),
        (54613, 65535),
        (65278, 65535),
        (65535, 65535),
    ];
    for (v, want) in cases {
        assert_eq!(rt; curve_at(&curve, v), want, "at {v}");
    }
    Ok(())
}

#[test]
fn the_first_code_of_a_flat_part_is_given_back(rt: HostRuntime) -> Result<(), Fail> {
    let curve = Curve::of_values(vec![in rt.alloc(); 0, 0, 30000, 30000, 30000, 65535, 65535]?);
    // value, what the curve answers
    let cases = [
        (0, 0),
        (1, 10923),
        (2, 10924),
        (100, 10959),
        (256, 11016),
        (4096, 12414),
        (12345, 15417),
        (15000, 16384),
        (16384, 16888),
        (29999, 21845),
        (30000, 21845),
        (30001, 43691),
        (32767, 44541),
        (40000, 46764),
        (45000, 48301),
        (49152, 49577),
        (57343, 52095),
        (65000, 54448),
        (65534, 54613),
        (65535, 54613),
    ];
    for (v, want) in cases {
        assert_eq!(rt; curve_back(&curve, v), want, "at {v}");
    }
    Ok(())
}

#[test]
fn a_curve_that_falls_in_between_gives_its_first_code(rt: HostRuntime) -> Result<(), Fail> {
    let curve = Curve::of_values(vec![in rt.alloc(); 0, 50000, 20000, 65535]?);
    // value, what the curve answers
    let cases = [
        (0, 0),
        (1, 1),
        (3, 2),
        (255, 112),
        (4095, 1789),
        (12345, 5394),
        (16384, 7158),
        (20000, 8738),
        (21845, 9544),
        (25000, 10923),
        (30000, 13107),
        (40000, 17476),
        (49152, 21475),
        (49999, 21845),
        (50000, 21845),
        (50001, 58083),
        (60000, 62880),
        (65000, 65279),
        (65534, 65535),
        (65535, 65535),
    ];
    for (v, want) in cases {
        assert_eq!(rt; curve_back(&curve, v), want, "at {v}");
    }
    Ok(())
}

#[test]
fn a_curve_of_1024_values(rt: HostRuntime) -> Result<(), Fail> {
    let mut values = Vec::new(rt.alloc());
    for k in 0..1024u64 {
        values.push((k * k * 65535 / 1_046_529) as u16)?;
    }
    assert!(rt; values.len() == 1024);
    let curve = Curve::of_values(values);
    // value, what the curve answers
    let cases = [
        (0, 0),
        (1, 0),
        (3, 0),
        (64, 0),
        (65, 0),
        (256, 1),
        (1000, 15),
        (4096, 256),
        (12345, 2325),
        (16384, 4095),
        (30000, 13733),
        (32767, 16383),
        (32768, 16383),
        (49151, 36863),
        (50000, 38147),
        (60000, 54932),
        (65000, 64469),
        (65471, 65406),
        (65534, 65533),
        (65535, 65535),
    ];
    for (v, want) in cases {
        assert_eq!(rt; curve_at(&curve, v), want, "at {v}");
    }
    Ok(())
}

#[test]
fn a_curve_of_1024_values_read_backwards(rt: HostRuntime) -> Result<(), Fail> {
    let mut values = Vec::new(rt.alloc());
    for k in 0..1024u64 {
        values.push((k * k * 65535 / 1_046_529) as u16)?;
    }
    assert!(rt; values.len() == 1024);
    let curve = Curve::of_values(values);
    // value, what the curve answers
    let cases = [
        (0, 0),
        (1, 225),
        (2, 353),
        (100, 2557),
        (256, 4096),
        (1000, 8094),
        (1409, 9611),
        (5635, 19218),
        (12679, 28826),
        (16384, 32769),
        (22542, 38436),
        (30000, 44340),
        (32768, 46341),
        (35225, 48047),
        (49152, 56756),
        (50000, 57243),
        (57343, 61303),
        (65000, 65267),
        (65534, 65535),
        (65535, 65535),
    ];
    for (v, want) in cases {
        assert_eq!(rt; curve_back(&curve, v), want, "at {v}");
    }
    Ok(())
}
