//! Pages split into bands: the bytes of their lists, written down by hand, and their needs.
#![tactic(auto)]

ghost use Rattle.std.specs.Prelude.{◌≡◌, ◌<◌, ◌≤◌, [], IfOk, length, replicate, Some};
ghost use Rattle.page_model.specs.Marking.{painting_of, IsSuited};
ghost use Rattle.page_model.specs.Page.{HasClipOfNumber, HasKnownSource, IsNumbered, ink_source, painting_source};
ghost use Rattle.band_writer_tests.specs.Numbered.{clip_of, nothing};

use band_writer::{BandLists, split};
use page_model::{
    Bytes, Clip, ClipNumber, Depth, Image, ImageMap, Ink, Mark, Marks, Page, Paint, Region, Ring,
    Rings, Rule, Shape, Shapes, point,
};
use press_fault::{Code, Mem};
use press_nums::Wide;
use std::alloc::Global;
use std::sync::Arc;
use std::test::Fail;

const RED: Ink = Ink::Plain(Code {
    n: 3,
    c: [255, 0, 0, 0],
});

/// The ink of a source's gray 7.
fn linked(source: u8) -> Ink
    ensures { ink_source result ≡ Some source }
{
    Ink::Linked {
        source: u32::from(source),
        code: Code::gray(7),
    }
}

/// The command of red.
const RED_BYTES: &[u8] = &[0x01, 0x03, 0x00, 0xFF, 0x00, 0x00];

/// The command of the rectangle in row 1, over two columns.
const BLOCK: &[u8] = &[
    0x03, 0x00, 0x01, 0x00, 0x01, 0x04, 0x00, 0x80, 0x08, 0x80, 0x08, 0x00, 0x00, 0xFF, 0x03, 0xFF,
    0x07, 0x00,
];

/// The command of the rectangle in rows 0 and 1, over two columns.
const TALL: &[u8] = &[
    0x03, 0x00, 0x01, 0x00, 0x01, 0x04, 0x00, 0x80, 0x08, 0x80, 0x08, 0x00, 0x00, 0xFF, 0x07, 0xFF,
    0x07, 0x00,
];

/// The clip of one region without edges, and that of two.
const ONE: &[u8] = &[0x02, 0x01, 0x01, 0x00];

const TWO: &[u8] = &[0x02, 0x02, 0x01, 0x00, 0x01, 0x00];

/// The clip without regions.
const NONE: &[u8] = &[0x02, 0x00];

/// A clip of so many regions without edges.
fn regions(alloc: Global, count: u8) -> Mem<Clip>
    ensures { IfOk result (λ clip. clip ≡ replicate count nothing) }
{
    let mut clip = Clip::new(alloc);
    for _done in 0..count {
        clip.push(Region {
            rule: Rule::EvenOdd,
            rings: Arc::new(alloc, Rings::new(alloc))?,
        })?;
    }
    Ok(clip)
}

/// What a mark of a test paints with.
#[derive(Clone, Copy)]
enum Kind {
    Red,
    Linked(u8),
    Image(u8),
    Mask,
}

/// A mark of two columns, from row 0 or from row 1 to the end of row 1, clipped to so many regions.
#[derive(Clone, Copy)]
struct Plan {
    is_tall: bool,
    regions: u8,
    kind: Kind,
}

const RED_BLOCK: Plan = Plan {
    is_tall: false,
    regions: 0,
    kind: Kind::Red,
};

/// The rectangle of a mark.
fn shapes(alloc: Global, plan: &Plan) -> Mem<Shapes> {
    let top = if plan.is_tall { 0 } else { 256 };
    let ring = Ring::rectangle(alloc, point(0, 512), point(512, top))?;
    let mut shapes = Shapes::new(alloc);
    shapes.push(Shape::Poly(Rings::one(alloc, ring)?))?;
    Ok(shapes)
}

/// An image of one gray sample, over both columns.
fn image(alloc: Global, plan: &Plan, source: Option<u32>) -> Mem<Image>
    ensures { IfOk result (λ image. (image.channels ≡ 1) × (image.source ≡ source)) }
{
    Ok(Image {
        width: 1,
        rows: 1,
        channels: 1,
        source,
        codes: Bytes::from_vec([255].to_vec(alloc)?),
        map: ImageMap {
            a: Wide::of(1),
            b: Wide::of(0),
            c: Wide::of(0),
            d: Wide::of(1),
            tx: Wide::of(0),
            ty: Wide::of(0),
            den: Wide::of(4),
        },
        low: if plan.is_tall { 0 } else { 256 },
        high: 512,
    })
}

fn filled(alloc: Global, plan: &Plan, ink: Ink) -> Mem<Mark>
    requires { IsNumbered 256 (ink_source ink) }
    ensures source { IfOk result (HasKnownSource 256) }
    ensures clip { IfOk result (HasClipOfNumber clip_of) }
{
    Ok(Mark {
        rule: Rule::Nonzero,
        shapes: Arc::new(alloc, shapes(alloc, plan)?)?,
        clip: Arc::new(alloc, regions(alloc, plan.regions)?)?,
        clip_number: ClipNumber::of(u32::from(plan.regions)),
        paint: Paint::Flat(ink),
    })
}

/// The mark of an image or a mask.
fn placed(alloc: Global, plan: &Plan, paint: Paint) -> Mem<Mark>
    requires suited { IsSuited [] (painting_of paint) }
    requires source { IsNumbered 256 (painting_source (painting_of paint)) }
    ensures source { IfOk result (HasKnownSource 256) }
    ensures clip { IfOk result (HasClipOfNumber clip_of) }
{
    Ok(Mark {
        rule: Rule::EvenOdd,
        shapes: Arc::new(alloc, Shapes::new(alloc))?,
        clip: Arc::new(alloc, regions(alloc, plan.regions)?)?,
        clip_number: ClipNumber::of(u32::from(plan.regions)),
        paint,
    })
}

fn mark(alloc: Global, plan: &Plan) -> Mem<Mark>
    ensures source { IfOk result (HasKnownSource 256) }
    ensures clip { IfOk result (HasClipOfNumber clip_of) }
{
    match plan.kind {
        Kind::Red => filled(alloc, plan, RED),
        Kind::Linked(source) => filled(alloc, plan, linked(source)),
        Kind::Image(source) => {
            let image = image(alloc, plan, Some(u32::from(source)))?;
            placed(alloc, plan, Paint::Image(Arc::new(alloc, image)?))
        }
        Kind::Mask => {
            let image = image(alloc, plan, None)?;
            placed(alloc, plan, Paint::Mask(Arc::new(alloc, image)?, RED))
        }
    }
}

/// A page of four columns and two rows with these marks, in bands of so many rows.
#[tactic(auto, using(crate::proofs::Numbered::numbered))]
fn bands(alloc: Global, rows: u32, plans: &[Plan]) -> Mem<BandLists>
    requires rows { 1 ≤ rows }
    requires few { length plans.now ≤ 9 }
{
    let mut marks = Marks::new(alloc);
    for plan in plans {
        marks.push(mark(alloc, plan)?)?;
    }
    let page = Page {
        width: 4,
        height: 2,
        sources: 256,
        marks,
    };
    split(alloc, &page, rows)
}

/// Whether the list of a band has just these bytes, one part after the other.
fn is_list(alloc: Global, lists: &BandLists, band: u32, parts: &[&[u8]]) -> Mem<bool> {
    let mut bytes = Vec::new(alloc);
    for part in parts {
        bytes.extend_from_slice(part)?;
    }
    Ok(band < lists.bands() && lists.list(band).bytes() == bytes.as_slice())
}

fn are_needs(lists: &BandLists, band: u32, sources: &[u32]) -> bool {
    band < lists.bands() && lists.needs(band) == sources
}

#[test]
fn an_ink_is_said_once(rt: HostRuntime) -> Result<(), Fail> {
    let alloc = rt.alloc();
    let one = bands(alloc, 792, &[RED_BLOCK])?;
    assert!(rt; one.bands() == 1);
    assert!(rt; is_list(alloc, &one, 0, &[RED_BYTES, BLOCK])?);
    let two = bands(alloc, 2, &[RED_BLOCK, RED_BLOCK])?;
    assert!(rt; is_list(alloc, &two, 0, &[RED_BYTES, BLOCK, BLOCK])?);
    assert!(rt; are_needs(&two, 0, &[]));
    Ok(())
}

#[test]
fn a_mark_stands_in_each_band_that_it_reaches(rt: HostRuntime) -> Result<(), Fail> {
    let alloc = rt.alloc();
    let tall = Plan {
        is_tall: true,
        regions: 1,
        kind: Kind::Red,
    };
    let lists = bands(alloc, 1, &[RED_BLOCK, tall])?;
    assert!(rt; lists.bands() == 2);
    assert!(rt; is_list(alloc, &lists, 0, &[RED_BYTES, ONE, TALL])?);
    assert!(rt; is_list(alloc, &lists, 1, &[RED_BYTES, BLOCK, ONE, TALL])?);
    Ok(())
}

#[test]
fn a_clip_is_said_where_its_number_changes(rt: HostRuntime) -> Result<(), Fail> {
    let alloc = rt.alloc();
    let clipped = |regions: u8| -> Plan {
        Plan {
            is_tall: false,
            regions,
            kind: Kind::Red,
        }
    };
    let plans = [
        clipped(0),
        clipped(1),
        clipped(1),
        clipped(2),
        clipped(0),
        clipped(0),
    ];
    let lists = bands(alloc, 2, &plans)?;
    let parts = [
        RED_BYTES, BLOCK, ONE, BLOCK, BLOCK, TWO, BLOCK, NONE, BLOCK, BLOCK,
    ];
    assert!(rt; is_list(alloc, &lists, 0, &parts)?);
    Ok(())
}

#[test]
fn needs_are_the_sources_that_change(rt: HostRuntime) -> Result<(), Fail> {
    let alloc = rt.alloc();
    let of = |kind: Kind| -> Plan {
        Plan {
            is_tall: false,
            regions: 0,
            kind,
        }
    };
    let plans = [
        of(Kind::Linked(3)),
        of(Kind::Linked(3)),
        of(Kind::Image(5)),
        of(Kind::Red),
        of(Kind::Mask),
        of(Kind::Image(5)),
        of(Kind::Linked(3)),
    ];
    let lists = bands(alloc, 1, &plans)?;
    assert!(rt; are_needs(&lists, 0, &[]));
    assert!(rt; are_needs(&lists, 1, &[3, 5, 3]));
    Ok(())
}

#[test]
fn images_stand_in_one_table(rt: HostRuntime) -> Result<(), Fail> {
    let alloc = rt.alloc();
    let of = |is_tall: bool, kind: Kind| -> Plan {
        Plan {
            is_tall,
            regions: 0,
            kind,
        }
    };
    let plans = [
        of(false, Kind::Image(5)),
        of(true, Kind::Mask),
        of(true, Kind::Image(5)),
    ];
    let mut lists = bands(alloc, 1, &plans)?;
    assert!(rt; is_list(alloc, &lists, 0, &[RED_BYTES, &[0x05, 0x01], &[0x04, 0x02]])?);
    assert!(rt;
        is_list(
            alloc,
            &lists,
            1,
            &[&[0x04, 0x00], RED_BYTES, &[0x05, 0x01], &[0x04, 0x02]]
        )?
    );
    lists.set_depth(Depth::Sixteen);
    let parts = lists.parts();
    assert!(rt; parts.images.items().len() == 3);
    assert!(rt; parts.depth == Depth::Sixteen);
    assert!(rt; parts.width == 4 && parts.height == 2 && parts.band == 1);
    Ok(())
}
