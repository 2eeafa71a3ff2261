//! Matrices, points and angles at the edges of their ranges, with values by hand.
#![tactic(auto)]

use geo_matrix::{
    Matrix, RealPoint, back, by_dots, concat, cosine, det, device_of, sine, to_dots, turn, user_of,
};
use press_fault::Point;
use press_nums::Fix;
use std::test::Fail;

/// 1, by its raw value.
const ONE: i64 = 65536;
/// Where device coordinates of a matrix without a scale reach 2^31 sub-dots, by its raw value.
const FAR: i64 = 549_755_813_888;
/// The last raw value of a real number.
const TOP: i64 = 140_737_488_355_327;

fn fix(raw: i64) -> Result<Fix, Fail> {
    Ok(Fix::of_raw(raw).ok_or("out of range")?)
}

fn matrix(raw: [i64; 6]) -> Result<Matrix, Fail> {
    Ok(Matrix {
        a: fix(raw[0])?,
        b: fix(raw[1])?,
        c: fix(raw[2])?,
        d: fix(raw[3])?,
        tx: fix(raw[4])?,
        ty: fix(raw[5])?,
    })
}

fn point_at(x: i32, y: i32) -> Point {
    Point::new(i64::from(x), i64::from(y))
}

fn spot(point: Option<Point>) -> Option<(i64, i64)> {
    match point {
        Some(point) => Some((point.x, point.y)),
        None => None,
    }
}

fn place(point: Option<RealPoint>) -> Option<(i64, i64)> {
    match point {
        Some(point) => Some((point.x.raw(), point.y.raw())),
        None => None,
    }
}

/// The point of a user point by its raw values, and the step of them.
fn dots(m: [i64; 6], x: i64, y: i64) -> Result<(Option<(i64, i64)>, Option<(i64, i64)>), Fail> {
    let (m, x, y) = (matrix(m)?, fix(x)?, fix(y)?);
    Ok((spot(to_dots(&m, x, y).ok()), spot(by_dots(&m, x, y).ok())))
}

#[test]
fn user_points_go_to_the_nearest_sub_dot(rt: HostRuntime) -> Result<(), Fail> {
    let plain = [ONE, 0, 0, ONE, 0, 0];
    let page = [ONE, 0, 0, -ONE, 0, 10 * ONE];
    let moved = [ONE, 0, 0, ONE, FAR, 0];
    // name, matrix, x, y, the point, the step
    let cases = [
        ("one", plain, ONE, ONE, Some((256, 256)), Some((256, 256))),
        (
            "page",
            page,
            ONE,
            2 * ONE,
            Some((256, 2048)),
            Some((256, -512)),
        ),
        ("ties", plain, 128, -128, Some((1, 0)), Some((1, 0))),
        (
            "below a tie",
            plain,
            127,
            -129,
            Some((0, -1)),
            Some((0, -1)),
        ),
        (
            "turned",
            [0, ONE, -ONE, 0, 0, 0],
            ONE,
            0,
            Some((0, 256)),
            Some((0, 256)),
        ),
        (
            "last",
            plain,
            FAR - 129,
            0,
            Some((2147483647, 0)),
            Some((2147483647, 0)),
        ),
        ("too far by a tie", plain, FAR - 128, 0, None, None),
        (
            "last below zero",
            plain,
            0,
            128 - FAR,
            Some((0, -2147483647)),
            Some((0, -2147483647)),
        ),
        ("too far below zero", plain, 0, 127 - FAR, None, None),
        ("moved too far", moved, 0, 0, None, Some((0, 0))),
        (
            "moved back",
            moved,
            -ONE,
            0,
            Some((2147483392, 0)),
            Some((-256, 0)),
        ),
    ];
    for (name, m, x, y, point, step) in cases {
        assert_eq!(rt; dots(m, x, y)?, (point, step), "{name}");
    }
    Ok(())
}

/// The user point of a point in sub-dots, and of the same point by real numbers.
fn users(m: [i64; 6], x: i32, y: i32) -> Result<(Option<(i64, i64)>, Option<(i64, i64)>), Fail> {
    let m = matrix(m)?;
    let (real_x, real_y) = (fix(i64::from(x) * 256)?, fix(i64::from(y) * 256)?);
    Ok((
        place(back(&m, point_at(x, y)).ok()),
        place(user_of(&m, real_x, real_y).ok()),
    ))
}

#[test]
fn points_go_back_to_the_nearest_real_number(rt: HostRuntime) -> Result<(), Fail> {
    let half = 512 * ONE;
    // name, matrix, a point in sub-dots, its user point
    let cases = [
        ("one", [ONE, 0, 0, ONE, 0, 0], 256, -256, Some((ONE, -ONE))),
        (
            "page",
            [ONE, 0, 0, -ONE, 0, 10 * ONE],
            0,
            0,
            Some((0, 10 * ONE)),
        ),
        ("turned", [0, ONE, -ONE, 0, 0, 0], 0, 256, Some((ONE, 0))),
        ("ties", [half, 0, 0, half, 0, 0], 1, -1, Some((1, 0))),
        (
            "ties of a flip",
            [half, 0, 0, -half, 0, 0],
            1,
            1,
            Some((1, 0)),
        ),
        (
            "ties of a flip below zero",
            [-half, 0, 0, half, 0, 0],
            -1,
            -1,
            Some((1, 0)),
        ),
        ("no inverse", [ONE, ONE, ONE, ONE, 0, 0], 0, 0, None),
        (
            "last",
            [1, 0, 0, ONE, 0, 0],
            8388607,
            0,
            Some((140737471578112, 0)),
        ),
        ("out of range", [1, 0, 0, ONE, 0, 0], 8388608, 0, None),
        (
            "least",
            [1, 0, 0, ONE, 0, 0],
            -8388608,
            0,
            Some((-140737488355328, 0)),
        ),
    ];
    for (name, m, x, y, user) in cases {
        assert_eq!(rt; users(m, x, y)?, (user, user), "{name}");
    }
    Ok(())
}

/// Where a matrix takes a user point by its raw values, as real numbers.
fn device(m: [i64; 6], x: i64, y: i64) -> Result<Option<(i64, i64)>, Fail> {
    Ok(place(device_of(&matrix(m)?, fix(x)?, fix(y)?).ok()))
}

#[test]
fn device_points_are_real_numbers(rt: HostRuntime) -> Result<(), Fail> {
    let m = [2 * ONE, 0, 0, -ONE, 0, 10 * ONE];
    assert_eq!(rt; device(m, 3, ONE)?, Some((6, 9 * ONE)));
    assert_eq!(rt; device(m, TOP, 0)?, None);
    assert_eq!(rt; det(&matrix(m)?), -8589934592);
    Ok(())
}

/// The elements of a matrix by their raw values.
fn raws(m: Matrix) -> [i64; 6] {
    [
        m.a.raw(),
        m.b.raw(),
        m.c.raw(),
        m.d.raw(),
        m.tx.raw(),
        m.ty.raw(),
    ]
}

/// The product of two matrices, by raw values.
fn joined(first: [i64; 6], then: [i64; 6]) -> Result<Option<[i64; 6]>, Fail> {
    Ok(concat(&matrix(first)?, &matrix(then)?).ok().map(raws))
}

#[test]
fn products_put_the_first_matrix_first(rt: HostRuntime) -> Result<(), Fail> {
    let wide = [2 * ONE, 0, 0, ONE, 0, 0];
    let moved = [ONE, 0, 0, ONE, 10 * ONE, 0];
    let big = 70_368_744_177_664;
    // name, first, then, product
    let cases = [
        (
            "scale, then move",
            wide,
            moved,
            Some([2 * ONE, 0, 0, ONE, 10 * ONE, 0]),
        ),
        (
            "move, then scale",
            moved,
            wide,
            Some([2 * ONE, 0, 0, ONE, 20 * ONE, 0]),
        ),
        (
            "ties",
            [1, 0, 0, -1, 0, 0],
            [32768, 0, 0, 32768, 0, 0],
            Some([1, 0, 0, 0, 0, 0]),
        ),
        ("too great", [big, 0, 0, ONE, 0, 0], wide, None),
        (
            "least",
            [-big, 0, 0, ONE, 0, 0],
            wide,
            Some([-2 * big, 0, 0, ONE, 0, 0]),
        ),
        ("moved too far", [ONE, 0, 0, ONE, TOP, 0], moved, None),
    ];
    for (name, first, then, product) in cases {
        assert_eq!(rt; joined(first, then)?, product, "{name}");
    }
    assert_eq!(rt; raws(Matrix::identity()), [ONE, 0, 0, ONE, 0, 0]);
    Ok(())
}

/// Sine and cosine of so many degrees, by their raw values.
fn by_degrees(degrees: i32) -> (i64, i64) {
    let angle = Fix::of_int(degrees);
    (sine(angle).raw(), cosine(angle).raw())
}

#[test]
fn sines_are_those_of_a_table(rt: HostRuntime) {
    // degrees, sine and cosine, by their raw values
    let cases = [
        (0, 0, 65536),
        (30, 32768, 56756),
        (45, 46341, 46341),
        (60, 56756, 32768),
        (90, 65536, 0),
        (127, 52339, -39441),
        (180, 0, -65536),
        (270, -65536, 0),
        (360, 0, 65536),
        (-30, -32768, 56756),
        (2147483647, 52339, -39441),
    ];
    for (degrees, sine_raw, cosine_raw) in cases {
        assert_eq!(rt; by_degrees(degrees), (sine_raw, cosine_raw), "{degrees}");
    }
    assert_eq!(rt; raws(turn(Fix::of_int(90))), [0, ONE, -ONE, 0, 0, 0]);
}
