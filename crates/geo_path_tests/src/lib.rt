//! Paths by hand, with points from the rules of arcs and curves.
#![tactic(auto)]

use geo_matrix::Matrix;
use geo_path::{Path, PathFault, Polylines};
use page_model::point;
use press_fault::Point;
use press_nums::Fix;
use std::alloc::Global;
use std::test::Fail;

/// An arc round (x, 0) on a page of a dot per unit, by degrees.
fn arc(
    path: &mut Path,
    x: i32,
    r: i32,
    from: Fix,
    to: Fix,
    clockwise: bool,
) -> Result<(), PathFault> {
    let m = Matrix::identity();
    path.arc(
        &m,
        Fix::of_int(x),
        Fix::of_int(0),
        Fix::of_int(r),
        from,
        to,
        clockwise,
    )
}

/// Adds what a letter stands for: a move to (1, 2), a line to (256, 0), a curve to (768, 0), a circle
/// from (256, 0), a line that is too far, or `closepath`.
fn add(path: &mut Path, letter: u8) -> Result<(), PathFault> {
    match letter {
        b'm' => path.move_to(point(1, 2)),
        b'l' => path.line_to(point(256, 0)),
        b'c' => path.curve_to(point(0, 0), point(0, 0), point(768, 0)),
        b'o' => arc(path, 0, 1, Fix::of_int(0), Fix::of_int(360), false),
        b'f' => path.line_to(point(i32::MIN, 0)),
        _ => {
            path.close();
            Ok(())
        }
    }
}

fn drawn(alloc: Global, letters: &str) -> Result<Path, PathFault> {
    let mut path = Path::new(alloc);
    for letter in letters.as_bytes() {
        add(&mut path, *letter)?;
    }
    Ok(path)
}

/// The points of all chains of lines.
fn points_in(lines: &Polylines) -> u64 {
    let mut points: u64 = 0;
    for line in lines.items() {
        points = points.wrapping_add(line.points.items().len() as u64);
    }
    points
}

/// How many chains of lines there are, how many are closed, and their points.
fn counts(lines: &Polylines) -> (usize, usize, u64) {
    let closed = lines.items().iter().filter(|line| line.closed).count();
    (lines.items().len(), closed, points_in(lines))
}

/// A coordinate of the current point, and -1 where there is none.
fn current_x(path: &Path) -> i64 {
    match path.current() {
        Some(p) => p.x,
        None => -1,
    }
}

/// What a path of these letters has.
fn seen(alloc: Global, letters: &str) -> Result<((usize, usize, u64), u64, u32, i64), PathFault> {
    let path = drawn(alloc, letters)?;
    let lines = counts(&path.flatten()?);
    Ok((lines, path.flat_count(), path.count(), current_x(&path)))
}

#[test]
fn subpaths_start_go_on_and_close(rt: HostRuntime) -> Result<(), Fail> {
    // name, letters, chains of lines, closed ones, flattened points, points that count, current x
    let cases = [
        ("nothing", "zz", (0, 0, 0), 0, -1),
        ("moves after moves", "mmm", (3, 0, 3), 3, 1),
        ("lines", "mll", (1, 0, 3), 3, 256),
        ("a lone move is closed once", "mzz", (1, 1, 1), 1, 1),
        ("back at the start", "mllz", (1, 1, 3), 3, 1),
        ("a line behind closepath", "mlzl", (2, 1, 4), 4, 256),
        ("a curve behind closepath", "mlzc", (2, 1, 11), 6, 768),
        ("a move behind closepath", "mlzm", (2, 1, 3), 3, 1),
        ("a curve and a line", "mclz", (1, 1, 10), 5, 1),
        ("a circle", "o", (1, 0, 257), 257, 256),
        ("a circle behind a line", "mlo", (1, 0, 259), 259, 256),
        ("a circle behind closepath", "mzo", (2, 1, 259), 259, 256),
    ];
    for (name, letters, lines, count, x) in cases {
        assert_eq!(rt;
            seen(rt.alloc(), letters)?,
            (lines, lines.2, count, x),
            "{name}"
        );
    }
    Ok(())
}

/// The point at a place of the first chain of lines, and (-1, -1) where there is none.
fn point_at(lines: &Polylines, place: u64) -> (i64, i64) {
    let Some(first) = lines.items().first() else {
        return (-1, -1);
    };
    match first.points.items().get(place as usize) {
        Some(p) => (p.x, p.y),
        None => (-1, -1),
    }
}

fn flat_curve(alloc: Global, p: Point, q: Point, r: Point) -> Result<Polylines, PathFault> {
    let mut path = Path::new(alloc);
    path.move_to(point(0, 0))?;
    path.curve_to(p, q, r)?;
    Ok(path.flatten()?)
}

/// How many points a curve has, and the one at a place.
fn piece(alloc: Global, x: i32, y: i32, place: u64) -> Result<(u64, (i64, i64)), PathFault> {
    let flat = flat_curve(alloc, point(0, 0), point(0, 0), point(x, y))?;
    Ok((points_in(&flat), point_at(&flat, place)))
}

#[test]
fn curves_have_pieces_by_their_length(rt: HostRuntime) -> Result<(), Fail> {
    let square = flat_curve(
        rt.alloc(),
        point(0, 1024),
        point(1024, 1024),
        point(1024, 0),
    )?;
    assert_eq!(rt; point_at(&square, 1), (44, 336));
    assert_eq!(rt; point_at(&square, 4), (512, 768));
    // name, x and y of the last control point (the others are (0, 0)), the points, a place, the point there
    let cases = [
        ("at 4096", 4096, 0, 9, 4, (512, 0)),
        ("above 4096", 4097, 0, 17, 8, (512, 0)),
        ("at 65536", 0, 65536, 17, 8, (0, 8192)),
        ("above 65536", 0, 65537, 33, 16, (0, 8192)),
        ("at 1048576", -1048576, 0, 33, 16, (-131072, 0)),
        ("above 1048576", -1048577, 0, 65, 32, (-131072, 0)),
        ("the last point", 11, 13, 9, 8, (11, 13)),
        ("a tie goes up", 4, -4, 9, 4, (1, 0)),
        ("far", i32::MAX, 0, 65, 64, (2147483647, 0)),
    ];
    for (name, x, y, points, place, want) in cases {
        assert_eq!(rt; piece(rt.alloc(), x, y, place)?, (points, want), "{name}");
    }
    Ok(())
}

fn unit_arc(alloc: Global, from: i64, to: i64, clockwise: bool) -> Result<Polylines, Fail> {
    let from = Fix::of_raw(from).ok_or("out of range")?;
    let to = Fix::of_raw(to).ok_or("out of range")?;
    let mut path = Path::new(alloc);
    arc(&mut path, 0, 1, from, to, clockwise)?;
    Ok(path.flatten()?)
}

/// How many points an arc has, and its first and last.
fn ends(
    alloc: Global,
    from: i64,
    to: i64,
    clockwise: bool,
) -> Result<(u64, (i64, i64), (i64, i64)), Fail> {
    let flat = unit_arc(alloc, from, to, clockwise)?;
    let points = points_in(&flat);
    Ok((
        points,
        point_at(&flat, 0),
        point_at(&flat, points.wrapping_sub(1)),
    ))
}

#[test]
fn arcs_have_a_point_at_each_step(rt: HostRuntime) -> Result<(), Fail> {
    // name, start and end by raw values, clockwise, points, the first point and the last
    let cases = [
        ("a full circle", 0, 23592960, false, 257, (256, 0), (256, 0)),
        ("twice round", 0, 47185920, false, 513, (256, 0), (256, 0)),
        (
            "an end at the start",
            1966080,
            1966080,
            false,
            2,
            (222, 128),
            (222, 128),
        ),
        (
            "an end a turn below",
            0,
            -23592960,
            false,
            2,
            (256, 0),
            (256, 0),
        ),
        ("a quarter", 0, 5898240, false, 65, (256, 0), (0, 256)),
        (
            "a quarter clockwise",
            5898240,
            0,
            true,
            65,
            (0, 256),
            (256, 0),
        ),
        (
            "raised past the start",
            5898240,
            0,
            false,
            193,
            (0, 256),
            (256, 0),
        ),
        (
            "lowered past the start",
            0,
            5898240,
            true,
            193,
            (256, 0),
            (0, 256),
        ),
        (
            "twice round clockwise",
            0,
            -47185920,
            true,
            513,
            (256, 0),
            (256, 0),
        ),
        (
            "between two multiples",
            1,
            92159,
            false,
            2,
            (256, 0),
            (256, 6),
        ),
        ("a multiple between", -1, 1, false, 3, (256, 0), (256, 0)),
        (
            "a multiple between, clockwise",
            1,
            -1,
            true,
            3,
            (256, 0),
            (256, 0),
        ),
        ("one step", 0, 92160, false, 2, (256, 0), (256, 6)),
        (
            "raised by many turns",
            140737445068800,
            -140737488355328,
            false,
            33,
            (-254, -33),
            (-158, -202),
        ),
    ];
    for (name, from, to, clockwise, points, first, last) in cases {
        assert_eq!(rt;
            ends(rt.alloc(), from, to, clockwise)?,
            (points, first, last),
            "{name}"
        );
    }
    Ok(())
}

/// Whether an arc behind a move is refused so, and leaves the path as it was.
fn refuses(
    alloc: Global,
    x: i32,
    r: i32,
    from: i32,
    to: i32,
    fault: PathFault,
) -> Result<bool, PathFault> {
    let mut path = drawn(alloc, "m")?;
    let answer = arc(
        &mut path,
        x,
        r,
        Fix::of_int(from),
        Fix::of_int(to),
        from > to,
    );
    Ok(answer == Err(fault) && path.count() == 1 && counts(&path.flatten()?) == (1, 0, 1))
}

#[test]
fn an_arc_answers_its_first_refusal(rt: HostRuntime) -> Result<(), Fail> {
    // name, the centre's x, the radius, start and end in degrees, the refusal
    let cases = [
        (
            "a product out of range",
            -1,
            i32::MIN,
            180,
            180,
            PathFault::UndefinedResult,
        ),
        (
            "a sum out of range",
            i32::MAX,
            1,
            0,
            0,
            PathFault::UndefinedResult,
        ),
        ("too far", 0, 8388608, 0, 90, PathFault::LimitCheck),
        (
            "too far before out of range",
            i32::MAX - 1,
            3,
            90,
            0,
            PathFault::LimitCheck,
        ),
        (
            "too far at its end",
            8388607,
            1,
            90,
            0,
            PathFault::LimitCheck,
        ),
        ("too many points", 0, 1, 0, i32::MAX, PathFault::LimitCheck),
    ];
    for (name, x, r, from, to, fault) in cases {
        assert!(rt; refuses(rt.alloc(), x, r, from, to, fault)?, "{name}");
    }
    let mut path = Path::new(rt.alloc());
    let last = Fix::of_int(i32::MAX);
    let answer = arc(&mut path, 0, 1, last, Fix::of_int(i32::MAX - 1), false);
    assert_eq!(rt;
        answer,
        Err(PathFault::UndefinedResult),
        "an end out of range"
    );
    Ok(())
}

/// Whether there is room for what a letter adds to the path, and else it is as it was.
fn has_room(path: &Path, letters: &str) -> Result<bool, PathFault> {
    let mut full = path.clone()?;
    for letter in letters.as_bytes() {
        match add(&mut full, *letter) {
            Ok(()) => {}
            Err(PathFault::LimitCheck) => return Ok(full.count() != path.count()),
            Err(fault) => return Err(fault),
        }
    }
    Ok(true)
}

/// A path of 65,535 points.
fn nearly_full(alloc: Global) -> Result<Path, PathFault> {
    let mut path = Path::new(alloc);
    for _ in 0..255 {
        add(&mut path, b'o')?;
    }
    Ok(path)
}

/// What the call of a letter answers on the path without subpaths.
fn first(alloc: Global, letter: u8) -> Result<(), PathFault> {
    let mut path = Path::new(alloc);
    add(&mut path, letter)
}

#[test]
fn lines_and_curves_need_a_current_point(rt: HostRuntime) {
    for letter in [b'l', b'c', b'f'] {
        assert_eq!(rt; first(rt.alloc(), letter), Err(PathFault::NoCurrentPoint));
    }
}

#[test]
fn a_path_holds_65536_points(rt: HostRuntime) -> Result<(), Fail> {
    let path = nearly_full(rt.alloc())?;
    // name, what is added to 65535 points, whether there is room for all of it
    let cases = [
        ("a curve", "c", false),
        ("a line", "l", true),
        ("a line too far", "f", false),
        ("a line behind closepath", "zl", false),
        ("a circle", "o", false),
        ("a move behind closepath", "zm", true),
        ("nothing", "z", true),
    ];
    for (name, letters, fits) in cases {
        assert_eq!(rt; has_room(&path, letters)?, fits, "{name}");
    }
    Ok(())
}

/// A full path: what a move answers, its points, whether it is empty, and its rings.
fn full(alloc: Global) -> Result<(Result<(), PathFault>, u32, bool, usize), PathFault> {
    let mut path = nearly_full(alloc)?;
    add(&mut path, b'l')?;
    let answer = add(&mut path, b'm');
    let rings = path.flatten()?.into_rings(alloc)?;
    Ok((answer, path.count(), path.is_empty(), rings.items().len()))
}

#[test]
fn a_full_path_takes_no_move(rt: HostRuntime) -> Result<(), Fail> {
    assert_eq!(rt; nearly_full(rt.alloc())?.count(), 65535);
    assert_eq!(rt;
        full(rt.alloc())?,
        (Err(PathFault::LimitCheck), 65536, false, 1)
    );
    Ok(())
}
