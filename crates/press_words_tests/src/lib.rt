//! Words, sample texts and lines, with values from outside the code.
#![tactic(auto)]

use md5::{Digest, Md5};
use press_ports::Words;
use press_words::{Counts, Options, WordsFault, report_line, sample_line, sample_text};
use std::alloc::Global;
use std::test::Fail;

/// The words of a line, cut at its blanks.
fn words(alloc: Global, line: &str) -> Result<Words, Fail> {
    let mut words = Words::new(alloc);
    for word in line.split(' ') {
        words.push(word)?;
    }
    Ok(words)
}

/// The width of the page in dots that the words of a line ask for.
fn width(alloc: Global, line: &str) -> Result<Result<u32, WordsFault>, Fail> {
    let words = words(alloc, line)?;
    Ok(Options::read(&words).map(|options| options.page.width))
}

#[test]
fn the_forms_of_options(rt: HostRuntime) -> Result<(), Fail> {
    let lines = [
        ("--size 4x2 p.ps", Ok(4)),
        ("--size=4x2 -- p.ps", Ok(4)),
        ("p.ps n=n.icc --size=4x2", Ok(4)),
        ("--size 4x2 -", Ok(4)),
        ("p.ps -- --size 4x2", Err(WordsFault::Usage)),
        ("--siz 4x2 p.ps", Err(WordsFault::Usage)),
        ("--report=1 p.ps", Err(WordsFault::Usage)),
        ("--res 72 --res 72 p.ps", Err(WordsFault::Usage)),
        ("p.ps --res", Err(WordsFault::Usage)),
        ("--output --size p.ps", Err(WordsFault::Usage)),
        ("-r p.ps", Err(WordsFault::Usage)),
    ];
    for (line, expected) in lines {
        assert_eq!(rt; width(rt.alloc(), line)?, expected, "{line}");
    }
    Ok(())
}

#[test]
fn the_values_of_options(rt: HostRuntime) -> Result<(), Fail> {
    let lines = [
        ("--size 0000000004x2 p.ps", Ok(4)),
        ("--size 14400x1 p.ps", Ok(14400)),
        ("--size 00000000004x2 p.ps", Err(WordsFault::Usage)),
        ("--size 4x2x1 p.ps", Err(WordsFault::Usage)),
        ("--size 14400x14400 p.ps", Err(WordsFault::Usage)),
        ("--band 0 p.ps", Err(WordsFault::Usage)),
        ("--depth 12 p.ps", Err(WordsFault::Usage)),
        ("--sample 4294967296", Err(WordsFault::Usage)),
        ("--sample=4294967295 --size 4x2", Ok(4)),
        ("--output= p.ps", Err(WordsFault::Usage)),
        ("--output=-x --size 4x2 p.ps", Ok(4)),
    ];
    for (line, expected) in lines {
        assert_eq!(rt; width(rt.alloc(), line)?, expected, "{line}");
    }
    Ok(())
}

#[test]
fn positional_words(rt: HostRuntime) -> Result<(), Fail> {
    let lines = [
        ("p.ps", Ok(612)),
        ("p.ps q.ps", Err(WordsFault::Usage)),
        ("", Err(WordsFault::Usage)),
        ("p.ps n=", Err(WordsFault::Usage)),
        ("p.ps -n=n.icc", Err(WordsFault::Usage)),
        ("-- p.ps -n=n.icc", Ok(612)),
        ("p.ps é=n.icc", Err(WordsFault::Usage)),
        ("p.ps a=x a=y", Err(WordsFault::Usage)),
        ("a=x --sample 1", Ok(612)),
        ("p.ps --sample 1", Err(WordsFault::Usage)),
        ("a=x a=x=y", Ok(612)),
    ];
    for (line, expected) in lines {
        assert_eq!(rt; width(rt.alloc(), line)?, expected, "{line}");
    }
    Ok(())
}

#[test]
fn each_option_has_its_value(rt: HostRuntime) -> Result<(), Fail> {
    let words = words(
        rt.alloc(),
        "--res 144 --band 3 --workers 0 --cache 64 --intent 2 --depth 016 --rehearse 7 --gray g p.ps n=f",
    )?;
    let options = Options::read(&words).ok();
    let Some(options) = options else {
        return Err(Fail::new("refused"));
    };
    assert_eq!(rt;
        (options.page.width, options.page.height, options.page.res),
        (1224, 1584, 144)
    );
    assert_eq!(rt;
        (options.band, options.workers, options.cache, options.intent),
        (3, 0, 64, 2)
    );
    assert_eq!(rt;
        (options.depth, options.rehearse, options.report),
        (16, Some(7), false)
    );
    assert_eq!(rt;
        (options.gray, options.rgb, options.program),
        (Some("g"), None, Some("p.ps"))
    );
    let named = options
        .named
        .as_slice()
        .first()
        .map(|named| (named.name, named.file));
    assert_eq!(rt; (named, options.named.len()), (Some(("n", "f")), 1));
    Ok(())
}

/// The digest of a text.
fn digest(text: &[u8]) -> [u8; 16] {
    Md5::digest(text)
}

#[test]
fn the_text_of_a_sample_page(rt: HostRuntime) -> Result<(), Fail> {
    let text = sample_text(rt.alloc(), 1)?;
    let line = sample_line(1, text.len() as u64, &digest(&text));
    // As `tests/model/command_line.py` has it; from that text an independent drawing made the page of 1,454,127 bytes
    // whose digest was known beforehand.
    let expected =
        b"render: sample 1 bytes 136227 md5 e346922f762a1b869428522a15cd9a4b\n".as_slice();
    assert_eq!(rt; line.bytes(), expected);
    Ok(())
}

#[test]
fn the_lines_of_a_report(rt: HostRuntime) -> Result<(), Fail> {
    let counts = Counts {
        pages: 1,
        leases: 6,
        keys: 2,
        built: 5,
        evicted: 4,
        resident: 1,
        stale: 0,
    };
    let expected =
        b"render: pages 1 leases 6 keys 2 built 5 evicted 4 resident 1 stale 0\n".as_slice();
    assert_eq!(rt; report_line(&counts).bytes(), expected);
    let expected = b"render: sample 1 bytes 0 md5 d41d8cd98f00b204e9800998ecf8427e\n".as_slice();
    assert_eq!(rt; sample_line(1, 0, &digest(b"")).bytes(), expected);
    Ok(())
}
