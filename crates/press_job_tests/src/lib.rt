//! Whole jobs over devices that fail, with what they must leave.
#![tactic(auto)]

use press_job::press_one;
use press_ports::{MemShelf, MemSink, Words};
use std::alloc::Global;
use std::test::Fail;

/// A page of 4 by 2 dots, two of them red.
const RED_ROW: &str = "1 0 0 setrgbcolor 0 0 2 1 rectfill showpage";

/// The same page, and an error after it.
const RED_ROW_AND_ERROR: &str = "1 0 0 setrgbcolor 0 0 2 1 rectfill showpage foo";

const HEADER: &[u8] = b"P6\n4 2\n255\n";

const RED_PAGE: &[u8] =
    b"P6\n4 2\n255\n\xff\xff\xff\xff\xff\xff\xff\xff\xff\xff\xff\xff\xff\x00\x00\xff\x00\x00\xff\xff\xff\xff\xff\xff";

const NO_OUTPUT: &str = "render: cannot write output\n";

/// How many bytes a sink takes, how many in one write, and the number of the write that fails.
#[derive(Clone, Copy)]
struct Limits {
    room: usize,
    step: usize,
    failing: Option<u64>,
}

const AMPLE: Limits = Limits {
    room: 1000,
    step: 7,
    failing: None,
};

fn sink(alloc: Global, limits: &Limits) -> Result<MemSink, Fail> {
    let mut failing = Vec::new(alloc);
    if let Some(number) = limits.failing {
        failing.push(number)?;
    }
    Ok(MemSink::new(alloc, limits.room, limits.step.max(1), failing)?)
}

fn words(alloc: Global) -> Result<Words, Fail> {
    let mut words = Words::new(alloc);
    words.push("--size")?;
    words.push("4x2")?;
    words.push("p.ps")?;
    Ok(words)
}

fn shelf(alloc: Global, program: &str) -> Result<MemShelf, Fail> {
    let mut files = Vec::new(alloc);
    let text = program.as_bytes().to_vec(alloc)?;
    files.push((String::from_str(alloc, "p.ps")?, text))?;
    Ok(MemShelf::new(files, Vec::new(alloc))?)
}

/// The number of the status of a run of `program` over these sinks, its pages, and whether the sinks hold these bytes.
fn run(
    alloc: Global,
    program: &str,
    out: &Limits,
    err: &Limits,
    written: &[u8],
    line: &[u8],
) -> Result<(u8, u64, bool, bool), Fail> {
    let mut shelf = shelf(alloc, program)?;
    let mut out = sink(alloc, out)?;
    let mut err = sink(alloc, err)?;
    let report = press_one(alloc, &words(alloc)?, &mut shelf, &mut out, &mut err);
    let holds = (out.bytes() == written, err.bytes() == line);
    Ok((report.status.number(), report.shown, holds.0, holds.1))
}

fn first(bytes: &[u8], n: usize) -> &[u8] {
    match bytes.get(..n) {
        Some(front) => front,
        None => bytes,
    }
}

/// A page into a sink that fails after so many bytes: by its room, or by the number of a write of one byte.
fn cut_off(alloc: Global, k: usize, by_room: bool) -> Result<(u8, u64, bool, bool), Fail> {
    let limits = Limits {
        room: if by_room { k } else { 1000 },
        step: 1,
        failing: if by_room { None } else { Some(k as u64) },
    };
    run(
        alloc,
        RED_ROW,
        &limits,
        &AMPLE,
        first(RED_PAGE, k),
        NO_OUTPUT.as_bytes(),
    )
}

#[test]
fn a_failing_write_leaves_the_bytes_before_it(rt: HostRuntime) -> Result<(), Fail> {
    for k in 0..35usize {
        assert_eq!(rt;
            cut_off(rt.alloc(), k, true)?,
            (4, 0, true, true),
            "room {k}"
        );
        assert_eq!(rt;
            cut_off(rt.alloc(), k, false)?,
            (4, 0, true, true),
            "write {k}"
        );
    }
    Ok(())
}

#[test]
fn room_for_the_page_is_enough(rt: HostRuntime) -> Result<(), Fail> {
    let limits = Limits {
        room: 35,
        step: 1,
        failing: Some(35),
    };
    let seen = run(rt.alloc(), RED_ROW, &limits, &AMPLE, RED_PAGE, b"")?;
    assert_eq!(rt; seen, (0, 1, true, true));
    Ok(())
}

#[test]
fn the_header_is_one_piece_and_the_dots_another(rt: HostRuntime) -> Result<(), Fail> {
    let limits = Limits {
        room: 1000,
        step: 1000,
        failing: Some(1),
    };
    let seen = run(
        rt.alloc(),
        RED_ROW,
        &limits,
        &AMPLE,
        HEADER,
        NO_OUTPUT.as_bytes(),
    )?;
    assert_eq!(rt; seen, (4, 0, true, true));
    Ok(())
}

/// A page and a line into a sink with room for so many bytes of the line.
fn line_cut_off(alloc: Global, room: usize) -> Result<(u8, u64, bool, bool), Fail> {
    let limits = Limits {
        room,
        step: 3,
        failing: None,
    };
    let line = first(b"render: undefined in foo\n", room);
    run(alloc, RED_ROW_AND_ERROR, &AMPLE, &limits, RED_PAGE, line)
}

#[test]
fn a_failing_line_changes_no_answer(rt: HostRuntime) -> Result<(), Fail> {
    for room in 0..25usize {
        assert_eq!(rt;
            line_cut_off(rt.alloc(), room)?,
            (1, 1, true, true),
            "{room}"
        );
    }
    Ok(())
}

/// The number of the status of a run of a sample page of one dot, into a sink with room for so many bytes, and whether
/// these are its lines.
fn sampled(alloc: Global, room: usize, lines: &str) -> Result<(u8, bool), Fail> {
    let mut words = Words::new(alloc);
    for word in ["--sample", "7", "--size=1x1"] {
        words.push(word)?;
    }
    let mut shelf = shelf(alloc, "")?;
    let limits = Limits {
        room,
        step: 4,
        failing: None,
    };
    let mut out = sink(alloc, &limits)?;
    let mut err = sink(alloc, &AMPLE)?;
    let report = press_one(alloc, &words, &mut shelf, &mut out, &mut err);
    Ok((report.status.number(), err.bytes() == lines.as_bytes()))
}

#[test]
fn a_sample_page_tells_of_the_bytes_that_were_taken(rt: HostRuntime) -> Result<(), Fail> {
    // The digests are those of the first bytes of a page of one white dot.
    let cases = [
        (
            0,
            4,
            "render: cannot write output\nrender: sample 7 bytes 0 md5 d41d8cd98f00b204e9800998ecf8427e\n",
        ),
        (
            5,
            4,
            "render: cannot write output\nrender: sample 7 bytes 5 md5 8af7506f2c8fe1b93b3774f5afdeaa03\n",
        ),
        (
            14,
            0,
            "render: sample 7 bytes 14 md5 cc2afbc1ea39bf4863af18eff3ce4bed\n",
        ),
    ];
    for (room, number, lines) in cases {
        assert_eq!(rt; sampled(rt.alloc(), room, lines)?, (number, true), "{room}");
    }
    Ok(())
}
