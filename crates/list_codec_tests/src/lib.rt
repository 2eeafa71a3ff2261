//! Commands of a band's list and their bytes, written down by hand.
#![tactic(auto)]

use list_codec::{Brief, Cmd, CmdRoom, put_cmd, read_cmd};
use page_model::{Clip, Disc, Ink, Region, Ring, Rings, Rule, Shape, Shapes, point};
use press_fault::{Code, Mem};
use std::alloc::Global;
use std::sync::Arc;
use std::test::Fail;

/// The bytes of one command.
fn spelled(alloc: Global, cmd: &Cmd) -> Mem<Vec<u8>> {
    let mut bytes = Vec::new(alloc);
    put_cmd(&mut bytes, cmd)?;
    Ok(bytes)
}

/// The bytes of the command that is read from the front, put again; none where none is read.
fn again(alloc: Global, bytes: &[u8]) -> Mem<Vec<u8>> {
    match read_cmd(alloc, bytes)? {
        Some((cmd, _)) => spelled(alloc, &cmd),
        None => Ok(Vec::new(alloc)),
    }
}

/// The corners of a rectangle from the left edge, in whole dots: from row 2 up to row 1, over two
/// columns.
fn rectangle(alloc: Global) -> Mem<Rings> {
    Rings::one(
        alloc,
        Ring::rectangle(alloc, point(0, 512), point(512, 256))?,
    )
}

/// That rectangle alone.
fn block(alloc: Global) -> Mem<Arc<Shapes>> {
    let mut shapes = Shapes::new(alloc);
    shapes.push(Shape::Poly(rectangle(alloc)?))?;
    Ok(Arc::new(alloc, shapes)?)
}

/// A disc alone.
fn disc(alloc: Global) -> Mem<Arc<Shapes>> {
    let mut shapes = Shapes::new(alloc);
    shapes.push(Shape::Disc(Disc::new(point(-1, 64), 300)))?;
    Ok(Arc::new(alloc, shapes)?)
}

/// A clip of that rectangle, by the even-odd rule.
fn clip(alloc: Global) -> Mem<Arc<Clip>> {
    let mut clip = Clip::new(alloc);
    clip.push(Region {
        rule: Rule::EvenOdd,
        rings: Arc::new(alloc, rectangle(alloc)?)?,
    })?;
    Ok(Arc::new(alloc, clip)?)
}

/// A command, and whether its bytes are these.
fn is_spelled(alloc: Global, cmd: &Cmd, bytes: &[u8]) -> Mem<bool> {
    Ok(spelled(alloc, cmd)?.as_slice() == bytes)
}

/// The bytes of the rectangle's shape.
const BLOCK: [u8; 18] = [
    0x03, 0x00, 0x01, 0x00, 0x01, 0x04, 0x00, 0x80, 0x08, 0x80, 0x08, 0x00, 0x00, 0xFF, 0x03, 0xFF,
    0x07, 0x00,
];

#[test]
fn inks_are_put(rt: HostRuntime) -> Result<(), Fail> {
    let alloc = rt.alloc();
    let red = Cmd::Flat(Ink::Plain(Code::rgb(255, 0, 0)));
    let gray = Cmd::Flat(Ink::Linked {
        source: 127,
        code: Code::gray(7),
    });
    let cmyk = Cmd::Flat(Ink::Linked {
        source: 4294967295,
        code: Code {
            n: 4,
            c: [1, 2, 3, 4],
        },
    });
    let last: &[u8] = &[0x01, 0x04, 0x80, 0x80, 0x80, 0x80, 0x10, 1, 2, 3, 4];
    assert!(rt; is_spelled(alloc, &red, &[0x01, 0x03, 0x00, 0xFF, 0x00, 0x00])?);
    assert!(rt; is_spelled(alloc, &gray, &[0x01, 0x01, 0x80, 0x01, 0x07])?);
    assert!(rt; is_spelled(alloc, &cmyk, last)?);
    Ok(())
}

#[test]
fn shapes_clips_and_images_are_put(rt: HostRuntime) -> Result<(), Fail> {
    let alloc = rt.alloc();
    let drawn = Cmd::Draw(Rule::Nonzero, block(alloc)?);
    let round = Cmd::Draw(Rule::EvenOdd, disc(alloc)?);
    let clipped = Cmd::Clip(clip(alloc)?);
    let region: &[u8] = &[
        0x02, 0x01, 0x01, 0x01, 0x04, 0x00, 0x80, 0x08, 0x80, 0x08, 0x00, 0x00, 0xFF, 0x03, 0xFF,
        0x07, 0x00,
    ];
    let dot: &[u8] = &[0x03, 0x01, 0x01, 0x01, 0x01, 0x80, 0x01, 0xAC, 0x02];
    assert!(rt; is_spelled(alloc, &drawn, &BLOCK)?);
    assert!(rt; is_spelled(alloc, &round, dot)?);
    assert!(rt; is_spelled(alloc, &clipped, region)?);
    assert!(rt; is_spelled(alloc, &Cmd::Image(300), &[0x04, 0xAC, 0x02])?);
    assert!(rt; is_spelled(alloc, &Cmd::Mask(0), &[0x05, 0x00])?);
    Ok(())
}

#[test]
fn what_was_put_is_read(rt: HostRuntime) -> Result<(), Fail> {
    let alloc = rt.alloc();
    let cases: [&[u8]; 6] = [
        &[0x01, 0x03, 0x00, 0xFF, 0x00, 0x00],
        &[0x01, 0x04, 0x80, 0x80, 0x80, 0x80, 0x10, 1, 2, 3, 4],
        &BLOCK,
        &[0x03, 0x01, 0x01, 0x01, 0x01, 0x80, 0x01, 0xAC, 0x02],
        &[0x02, 0x02, 0x01, 0x00, 0x00, 0x00],
        &[0x05, 0xFF, 0xFF, 0xFF, 0xFF, 0x0F],
    ];
    for bytes in cases {
        assert!(rt; again(alloc, bytes)?.as_slice() == bytes);
    }
    Ok(())
}

#[test]
fn other_bytes_are_no_command(rt: HostRuntime) -> Result<(), Fail> {
    let alloc = rt.alloc();
    let cases: [&[u8]; 9] = [
        &[],
        &[0x07],
        &[0x01, 0x02, 0x00, 0x00, 0x00],
        &[0x01, 0x03, 0x80, 0x00, 0xFF, 0x00, 0x00],
        &[0x01, 0x03, 0x00, 0xFF, 0x00],
        &[0x03, 0x02, 0x00],
        &[0x04, 0x80, 0x80, 0x80, 0x80, 0x10],
        &[
            0x05, 0xFF, 0xFF, 0xFF, 0xFF, 0xFF, 0xFF, 0xFF, 0xFF, 0xFF, 0x01,
        ],
        &[0x02, 0xFF, 0xFF, 0xFF, 0xFF, 0xFF, 0xFF, 0xFF, 0xFF, 0x7F],
    ];
    for bytes in cases {
        assert!(rt; read_cmd(alloc, bytes)?.is_none());
    }
    Ok(())
}

#[test]
fn a_room_holds_the_shapes_of_the_last_command(rt: HostRuntime) -> Result<(), Fail> {
    let alloc = rt.alloc();
    let mut room = CmdRoom::new(alloc);
    assert!(rt; room.read(&BLOCK)?.is_some());
    assert!(rt; room.shapes().len() == 1);
    assert!(rt; room.read(&[0x03, 0x00, 0x00])?.is_some());
    assert!(rt; room.shapes().is_empty());
    assert!(rt; room.read(&BLOCK)?.is_some());
    let [Shape::Poly(rings)] = room.shapes() else {
        return Err(Fail::from("no polygon"));
    };
    let [ring] = rings.items() else {
        return Err(Fail::from("no ring"));
    };
    assert!(rt;
        ring.items()
            == [
                point(0, 512),
                point(512, 512),
                point(512, 256),
                point(0, 256)
            ]
            .as_slice()
    );
    Ok(())
}
