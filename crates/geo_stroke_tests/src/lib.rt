//! Outlines by hand, with points from the rules of caps, joins, miters and dashes.
#![tactic(auto)]

ghost use Rattle.std.specs.Prelude.{◌<◌, ◌^◌};

use geo_path::{Path, PathFault, Polylines};
use geo_stroke::{Cap, Dashes, Join, Pen, outline};
use page_model::{Shape, Shapes, point};
use press_fault::Grow;
use press_nums::{Fix, Whole};
use std::alloc::{AllocError, Global};
use std::test::Fail;

/// A place by its letter: `a` is 0, and each next one is a dot further.
fn place(letter: u8) -> i32 {
    256 * (i32::from(letter) - 97)
}

/// Lines through points of two letters each; `!` closes one, `|` starts another.
fn drawn(alloc: Global, letters: &str) -> Result<Polylines, PathFault> {
    let mut path = Path::new(alloc);
    let mut column: Option<u8> = None;
    let mut is_move = true;
    for letter in letters.as_bytes() {
        match *letter {
            b' ' => {}
            b'!' => path.close(),
            b'|' => is_move = true,
            letter => match column {
                None => column = Some(letter),
                Some(x) => {
                    add(&mut path, is_move, place(x), place(letter))?;
                    is_move = false;
                    column = None;
                }
            },
        }
    }
    Ok(path.flatten()?)
}

/// Moves or draws to a point.
fn add(path: &mut Path, is_move: bool, x: i32, y: i32) -> Result<(), PathFault> {
    if is_move {
        path.move_to(point(x, y))
    } else {
        path.line_to(point(x, y))
    }
}

/// A line from (0, 0) through two points, in sub-dots.
fn corner(alloc: Global, x: i32, y: i32, end_x: i32, end_y: i32) -> Result<Polylines, PathFault> {
    let mut path = Path::new(alloc);
    add(&mut path, true, 0, 0)?;
    add(&mut path, false, x, y)?;
    add(&mut path, false, end_x, end_y)?;
    Ok(path.flatten()?)
}

/// A solid pen of half a width with the cap and the join of these numbers, and a miter limit.
fn pen(alloc: Global, half: u32, cap: i32, join: i32, miter: i64) -> Result<Pen, &'static str> {
    pen_of(half, cap, join, miter, Dashes::new(alloc), 0)
}

/// The same with dashes from an offset on.
fn pen_of(
    half: u32,
    cap: i32,
    join: i32,
    miter: i64,
    dashes: Dashes,
    offset: i64,
) -> Result<Pen, &'static str> {
    let cap = Cap::of(Whole::of(cap)).ok_or("no cap")?;
    let join = Join::of(Whole::of(join)).ok_or("no join")?;
    let miter = Fix::of_raw(miter).ok_or("no limit")?;
    if miter.raw() < 65536 || half < 128 || half > 1073741824 {
        return Err("too little");
    }
    if offset.unsigned_abs() >= 0x4000_0000_0000_0000 {
        return Err("too far");
    }
    Ok(Pen {
        half: i64::from(half),
        cap,
        join,
        miter,
        dashes,
        offset,
    })
}

/// Adds a point to a text.
fn put_point(alloc: Global, text: &mut String, x: i64, y: i64) -> Result<(), AllocError> {
    text.push_str(format!(in alloc; "{x},{y} ")?.as_str())
}

/// The points of polygons, and the centres and radii of discs, in order.
fn shown(alloc: Global, shapes: &Shapes) -> Result<String, AllocError> {
    let mut text = String::new(alloc);
    for shape in shapes.items() {
        match shape {
            Shape::Poly(rings) => {
                for ring in rings.items() {
                    for point in ring.items() {
                        put_point(alloc, &mut text, point.x, point.y)?;
                    }
                }
            }
            Shape::Disc(disc) => {
                put_point(alloc, &mut text, disc.x, disc.y)?;
                text.push_str(format!(in alloc; "r{} ", disc.r)?.as_str())?;
            }
        }
        text.push_str("; ")?;
    }
    Ok(text)
}

/// What a pen paints along lines; `limit` where it is refused.
fn outlined(alloc: Global, lines: &Polylines, pen: &Pen) -> Result<String, Fail> {
    match outline(alloc, lines, pen) {
        Ok(shapes) => Ok(shown(alloc, &shapes)?),
        Err(Grow::LimitCheck) => Ok(String::from_str(alloc, "limit")?),
        Err(Grow::NoMemory) => Err("out of memory")?,
    }
}

/// What a solid pen two dots wide with a miter limit of 10 paints.
fn stroked(alloc: Global, cap: i32, join: i32, letters: &str) -> Result<String, Fail> {
    let pen = pen(alloc, 256, cap, join, 655360)?;
    outlined(alloc, &drawn(alloc, letters)?, &pen)
}

#[test]
fn segments_are_as_wide_as_the_line(rt: HostRuntime) -> Result<(), Fail> {
    // name, points, the shapes under butt caps and bevels
    let cases = [
        (
            "to the right",
            "aa ea",
            "0,256 1024,256 1024,-256 0,-256 ; ",
        ),
        ("to the left", "ea aa", "1024,-256 0,-256 0,256 1024,256 ; "),
        ("down", "aa ae", "-256,0 -256,1024 256,1024 256,0 ; "),
        (
            "three to four",
            "aa mq",
            "-205,154 2867,4250 3277,3942 205,-154 ; ",
        ),
        ("aslant", "aa ee", "-181,181 843,1205 1205,843 181,-181 ; "),
        (
            "points twice",
            "aa aa ea ea ea",
            "0,256 1024,256 1024,-256 0,-256 ; ",
        ),
        (
            "two lines",
            "aa ea | aa ae",
            "0,256 1024,256 1024,-256 0,-256 ; -256,0 -256,1024 256,1024 256,0 ; ",
        ),
        (
            "there and back, closed",
            "aa ea !",
            "0,256 1024,256 1024,-256 0,-256 ; 1024,-256 0,-256 0,256 1024,256 ; ",
        ),
        (
            "drawn back to its start and closed",
            "aa ea aa !",
            "0,256 1024,256 1024,-256 0,-256 ; 1024,-256 0,-256 0,256 1024,256 ; ",
        ),
    ];
    for (name, letters, shapes) in cases {
        assert_eq!(rt;
            stroked(rt.alloc(), 0, 2, letters)?.as_str(),
            shapes,
            "{name}"
        );
    }
    Ok(())
}

#[test]
fn open_lines_have_caps(rt: HostRuntime) -> Result<(), Fail> {
    let body = "0,256 1024,256 1024,-256 0,-256 ; ";
    // name, cap, points, the shapes behind the body
    let cases = [
        ("butt", 0, ""),
        ("round", 1, "1024,0 r256 ; 0,0 r256 ; "),
        (
            "square",
            2,
            "1024,256 1280,256 1280,-256 1024,-256 ; 0,256 -256,256 -256,-256 0,-256 ; ",
        ),
    ];
    for (name, cap, caps) in cases {
        let shapes = stroked(rt.alloc(), cap, 0, "aa ea")?;
        assert_eq!(rt; shapes.as_str().strip_prefix(body), Some(caps), "{name}");
    }
    Ok(())
}

#[test]
fn points_alone_are_discs_under_round_caps(rt: HostRuntime) -> Result<(), Fail> {
    // name, cap, points, the shapes
    let cases = [
        ("a move, butt", 0, "ab", ""),
        ("a move, round", 1, "ab", ""),
        ("a line to itself, butt", 0, "ab ab", ""),
        ("a line to itself, round", 1, "ab ab", "0,256 r256 ; "),
        ("a line to itself, square", 2, "ab ab", ""),
        ("a move, closed, butt", 0, "ab !", ""),
        ("a move, closed, round", 1, "ab !", "0,256 r256 ; "),
        ("lines to itself, closed", 1, "ab ab ab !", "0,256 r256 ; "),
        ("a closed move and a move", 1, "ab ! | ac", "0,256 r256 ; "),
    ];
    for (name, cap, letters, shapes) in cases {
        assert_eq!(rt;
            stroked(rt.alloc(), cap, 0, letters)?.as_str(),
            shapes,
            "{name}"
        );
    }
    Ok(())
}

#[test]
fn corners_have_joins(rt: HostRuntime) -> Result<(), Fail> {
    // name, join, points, the bodies, the shapes of the joins
    let cases = [
        ("round at a right angle", 1, "aa ea ee", 2, "1024,0 r256 ; "),
        ("round straight on", 1, "aa ea ia", 2, "1024,0 r256 ; "),
        (
            "round, closed",
            1,
            "aa ea !",
            2,
            "1024,0 r256 ; 0,0 r256 ; ",
        ),
        (
            "bevel to the right",
            2,
            "aa ea ee",
            2,
            "1024,0 1024,-256 1280,0 ; ",
        ),
        (
            "bevel to the left",
            2,
            "ae ee ea",
            2,
            "1024,1024 1024,1280 1280,1024 ; ",
        ),
        ("bevel straight on", 2, "aa ea ia", 2, ""),
        ("miter straight back", 0, "aa ea aa", 2, ""),
        (
            "miter at a right angle",
            0,
            "aa ea ee",
            2,
            "1024,0 1024,-256 1280,-256 1280,0 ; ",
        ),
        (
            "miter at a sharp angle",
            0,
            "aa ia ab",
            2,
            "2048,0 2048,-256 2080,254 ; ",
        ),
    ];
    for (name, join, letters, bodies, joins) in cases {
        let shapes = stroked(rt.alloc(), 0, join, letters)?;
        assert_eq!(rt; behind(shapes.as_str(), bodies), Some(joins), "{name}");
    }
    Ok(())
}

/// The text behind so many shapes.
fn behind(text: &str, shapes: u8) -> Option<&str> {
    let mut rest = text;
    for _ in 0..shapes {
        rest = rest.split_once("; ")?.1;
    }
    Some(rest)
}

#[test]
fn closed_lines_have_joins_all_round(rt: HostRuntime) -> Result<(), Fail> {
    let shapes = stroked(rt.alloc(), 1, 0, "aa ea ee !")?;
    assert_eq!(rt;
        behind(shapes.as_str(), 3),
        Some(
            "1024,0 1024,-256 1280,-256 1280,0 ; 1024,1024 1280,1024 1280,1642 843,1205 ; \
             0,0 -181,181 -618,-256 0,-256 ; "
        )
    );
    Ok(())
}

/// What a solid pen with miters paints at the corner of a line from (0, 0) through two points.
fn mitered(alloc: Global, pen: &Pen, x: i32, y: i32, end: (i32, i32)) -> Result<String, Fail> {
    let text = outlined(alloc, &corner(alloc, x, y, end.0, end.1)?, pen)?;
    let join = behind(text.as_str(), 2).ok_or("no bodies")?;
    Ok(String::from_str(alloc, join)?)
}

#[test]
fn miters_stand_within_the_limit(rt: HostRuntime) -> Result<(), Fail> {
    let miter = "2560,0 2560,-256 2752,-256 2806,-72 ; ";
    let bevel = "2560,0 2560,-256 2806,-72 ; ";
    // name, half a width, raw limit, the corner, the end of the line, the shapes
    let cases = [
        ("below the limit", 256, 655360, 2560, 0, (4352, 6144), miter),
        (
            "at the limit of 5/4",
            256,
            81920,
            2560,
            0,
            (4352, 6144),
            miter,
        ),
        ("past the limit", 256, 81919, 2560, 0, (4352, 6144), bevel),
        (
            "the least limit of a right angle",
            256,
            92682,
            1024,
            0,
            (1024, 1024),
            "1024,0 1024,-256 1280,-256 1280,0 ; ",
        ),
        (
            "one less",
            256,
            92681,
            1024,
            0,
            (1024, 1024),
            "1024,0 1024,-256 1280,0 ; ",
        ),
        (
            "a limit of 2^24 counts as 1024",
            67108864,
            1099511627776,
            5000000,
            0,
            (0, 8000),
            "5000000,0 5000000,-67108864 5107374,67108778 ; ",
        ),
        (
            "sides that meet behind the corner",
            128,
            67108864,
            256,
            1,
            (0, 2),
            "256,1 256,-127 256,129 ; ",
        ),
        (
            "sides that meet too far away",
            2560,
            67108864,
            1879,
            1,
            (0, 8),
            "1879,1 1880,-2559 1889,2561 ; ",
        ),
    ];
    for (name, half, limit, x, y, end, shapes) in cases {
        let pen = pen(rt.alloc(), half, 0, 0, limit)?;
        assert_eq!(rt;
            mitered(rt.alloc(), &pen, x, y, end)?.as_str(),
            shapes,
            "{name}"
        );
    }
    Ok(())
}

/// A dot, in the unit of dashes.
const DOT: i64 = 65536;

/// A dash or a gap by its letter: `a` is 0, and each next one is a dot longer; `z` is 66/65536.
fn length(letter: u8) -> u64
    ensures { result < 2 ^ 62 }
{
    match letter {
        b'z' => 66,
        _ => 65536 * u64::from(letter.saturating_sub(97)),
    }
}

/// A pattern of dashes and gaps by their letters.
fn pattern(alloc: Global, letters: &str) -> Result<Dashes, &'static str> {
    let mut dashes = Dashes::new(alloc);
    for letter in letters.as_bytes() {
        dashes.push(length(*letter)).ok().ok_or("no dash")?;
    }
    Ok(dashes)
}

/// A pen two dots wide with dashes.
fn dashed(
    alloc: Global,
    cap: i32,
    join: i32,
    dashes: &str,
    offset: i64,
) -> Result<Pen, &'static str> {
    pen_of(256, cap, join, 655360, pattern(alloc, dashes)?, offset)
}

/// Where the dashes of a level line of six dots begin and end, in sub-dots.
fn spans(alloc: Global, dashes: &str, offset: i64) -> Result<String, Fail> {
    let pen = dashed(alloc, 0, 2, dashes, offset)?;
    let shapes = outline(alloc, &drawn(alloc, "aa ga")?, &pen)
        .ok()
        .ok_or("refused")?;
    let mut text = String::new(alloc);
    for shape in shapes.items() {
        if let Shape::Poly(rings) = shape {
            for ring in rings.items() {
                if let [from, to, _, _] = ring.items() {
                    text.push_str(format!(in alloc; "{}-{} ", from.x, to.x)?.as_str())?;
                }
            }
        }
    }
    Ok(text)
}

#[test]
fn dashes_take_turns_from_the_offset_on(rt: HostRuntime) -> Result<(), Fail> {
    // name, dashes and gaps, offset, the dashes of six dots
    let cases = [
        ("a dash first", "bb", 0, "0-256 512-768 1024-1280 "),
        ("at a gap", "bb", DOT, "256-512 768-1024 1280-1536 "),
        (
            "at the end of a gap",
            "bb",
            2 * DOT,
            "0-256 512-768 1024-1280 ",
        ),
        ("within a dash", "dc", DOT, "0-512 1024-1536 "),
        ("backwards", "bc", -DOT, "256-512 1024-1280 "),
        (
            "far",
            "bb",
            2305843009213693952 + DOT,
            "256-512 768-1024 1280-1536 ",
        ),
        ("far back", "bc", -2305843009213693952, "512-768 1280-1536 "),
        ("a dash longer than the line", "j", 0, "0-1536 "),
        ("a gap longer than the line", "bj", DOT, ""),
    ];
    for (name, dashes, offset, found) in cases {
        assert_eq!(rt;
            spans(rt.alloc(), dashes, offset)?.as_str(),
            found,
            "{name}"
        );
    }
    Ok(())
}

#[test]
fn an_odd_pattern_changes_dashes_and_gaps(rt: HostRuntime) -> Result<(), Fail> {
    // name, dashes and gaps, offset, the dashes of six dots
    let cases = [
        ("one length", "c", 0, "0-512 1024-1536 "),
        ("one length, from its gap", "c", 2 * DOT, "512-1024 "),
        ("three lengths", "bbc", 0, "0-256 512-1024 1280-1536 "),
        (
            "three lengths, the second time",
            "bbc",
            4 * DOT,
            "256-512 1024-1280 ",
        ),
        (
            "three lengths, backwards",
            "bbc",
            -4 * DOT,
            "256-512 1024-1280 ",
        ),
        ("solid, of no length", "aaa", 0, "0-1536 "),
        ("solid, empty", "", DOT, "0-1536 "),
    ];
    for (name, dashes, offset, found) in cases {
        assert_eq!(rt;
            spans(rt.alloc(), dashes, offset)?.as_str(),
            found,
            "{name}"
        );
    }
    Ok(())
}

/// What a pen two dots wide with dashes and bevels paints.
fn dotted(
    alloc: Global,
    cap: i32,
    dashes: &str,
    offset: i64,
    letters: &str,
) -> Result<String, Fail> {
    let pen = dashed(alloc, cap, 2, dashes, offset)?;
    outlined(alloc, &drawn(alloc, letters)?, &pen)
}

#[test]
fn dashes_of_no_length_stand_on_the_line(rt: HostRuntime) -> Result<(), Fail> {
    // name, cap, dashes and gaps, offset in dots, points, the shapes
    let cases = [
        (
            "at both ends",
            1,
            "ac",
            0,
            "aa ea",
            "0,0 r256 ; 512,0 r256 ; 1024,0 r256 ; ",
        ),
        ("butt", 0, "ac", 0, "aa ea", ""),
        (
            "square, at the start",
            2,
            "aj",
            0,
            "aa ea",
            "0,256 256,256 256,-256 0,-256 ; 0,256 -256,256 -256,-256 0,-256 ; ",
        ),
        (
            "square, along the segment that ends at a corner",
            2,
            "aj",
            7,
            "aa ca cc",
            "512,256 768,256 768,-256 512,-256 ; 512,256 256,256 256,-256 512,-256 ; ",
        ),
        (
            "square, along the segment behind a corner",
            2,
            "aj",
            6,
            "aa ca ce",
            "256,256 256,512 768,512 768,256 ; 256,256 256,0 768,0 768,256 ; ",
        ),
        ("of this cycle", 1, "ccac", 4, "aa ba", "0,0 r256 ; "),
        (
            "not of a cycle before",
            1,
            "caa",
            0,
            "aa ba",
            "0,256 256,256 256,-256 0,-256 ; 256,0 r256 ; 0,0 r256 ; ",
        ),
        ("a line of one point", 1, "ac", 0, "ab ab", "0,256 r256 ; "),
        (
            "a closed line of one point",
            1,
            "bj",
            5,
            "ab !",
            "0,256 r256 ; ",
        ),
    ];
    for (name, cap, dashes, offset, letters, shapes) in cases {
        let found = dotted(rt.alloc(), cap, dashes, offset * DOT, letters)?;
        assert_eq!(rt; found.as_str(), shapes, "{name}");
    }
    Ok(())
}

#[test]
fn dashes_too_short_to_be_seen_are_points(rt: HostRuntime) -> Result<(), Fail> {
    // name, cap, the shapes of one dash of 66/65536 of a dot
    let cases = [
        ("butt", 0, ""),
        ("round", 1, "512,512 r256 ; "),
        ("square", 2, ""),
    ];
    for (name, cap, shapes) in cases {
        assert_eq!(rt;
            dotted(rt.alloc(), cap, "zk", 0, "cc dc")?.as_str(),
            shapes,
            "{name}"
        );
    }
    Ok(())
}

/// What a pen two dots wide with dashes and butt caps paints.
fn turning(alloc: Global, join: i32, dashes: &str, letters: &str) -> Result<String, Fail> {
    let pen = dashed(alloc, 0, join, dashes, 0)?;
    outlined(alloc, &drawn(alloc, letters)?, &pen)
}

#[test]
fn dashes_go_round_corners(rt: HostRuntime) -> Result<(), Fail> {
    // name, join, dashes and gaps, points, the shapes
    let cases = [
        (
            "over a corner",
            1,
            "dj",
            "aa ca ce",
            "0,256 512,256 512,-256 0,-256 ; 256,0 256,256 768,256 768,0 ; 512,0 r256 ; ",
        ),
        (
            "up to a corner",
            1,
            "cj",
            "aa ca ce",
            "0,256 512,256 512,-256 0,-256 ; ",
        ),
        (
            "from a corner",
            1,
            "bbcj",
            "aa ca ce",
            "0,256 256,256 256,-256 0,-256 ; 256,0 256,512 768,512 768,0 ; ",
        ),
        (
            "over a corner, with a miter",
            0,
            "dj",
            "aa ca ce",
            "0,256 512,256 512,-256 0,-256 ; 256,0 256,256 768,256 768,0 ; 512,0 512,-256 768,-256 768,0 ; ",
        ),
        (
            "through the closing segment, and not on from there",
            2,
            "dc",
            "aa ca cc ac !",
            "0,256 512,256 512,-256 0,-256 ; 256,0 256,256 768,256 768,0 ; 512,0 512,-256 768,0 ; \
             256,256 0,256 0,768 256,768 ; 256,512 256,0 -256,0 -256,512 ; 0,512 0,768 -256,512 ; ",
        ),
        (
            "each line from the offset",
            1,
            "bj",
            "aa ca | ac cc",
            "0,256 256,256 256,-256 0,-256 ; 0,768 256,768 256,256 0,256 ; ",
        ),
    ];
    for (name, join, dashes, letters, shapes) in cases {
        assert_eq!(rt;
            turning(rt.alloc(), join, dashes, letters)?.as_str(),
            shapes,
            "{name}"
        );
    }
    Ok(())
}

/// What two level lines of so many dots paint under butt caps, with a dash of no length each dot.
fn many(alloc: Global, first: i32, second: i32) -> Result<String, Fail> {
    let pen = dashed(alloc, 0, 0, "ab", 0)?;
    let mut path = Path::new(alloc);
    add(&mut path, true, 0, 0)?;
    add(&mut path, false, first.wrapping_mul(256), 0)?;
    if second > 0 {
        add(&mut path, true, 0, 0)?;
        add(&mut path, false, second.wrapping_mul(256), 0)?;
    }
    outlined(alloc, &path.flatten()?, &pen)
}

#[test]
fn a_stroke_has_up_to_65536_dashes(rt: HostRuntime) -> Result<(), Fail> {
    // name, dots of the first line and of the second, the shapes
    let cases = [
        ("65,536 dashes", 65535, 0, ""),
        ("one more", 65536, 0, "limit"),
        ("65,536 dashes of two lines", 32767, 32767, ""),
        ("one more of two lines", 32767, 32768, "limit"),
        ("many more", 4000000, 1, "limit"),
    ];
    for (name, first, second, shapes) in cases {
        assert_eq!(rt; many(rt.alloc(), first, second)?.as_str(), shapes, "{name}");
    }
    Ok(())
}
