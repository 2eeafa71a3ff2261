//! Pages made by hand, compared dot by dot with what the rules of painting say.
#![tactic(auto)]

ghost use Rattle.std.specs.Prelude.{◌≡◌, ◌<◌, ◌≤◌, ◌*◌, ◌==◌, if◌then◌else◌, slice_index, [], ◌∷◌, ◌++◌, All, IfOk};
ghost use Rattle.std.specs.Prelude.{Some, None, length};
ghost use Rattle.press_fault.specs.Plane.{CodeValue};
ghost use Rattle.page_model.specs.Marking.{painting_of, IsSuited, Flatly};
ghost use Rattle.page_model.specs.Page.{HasKnownSource};
ghost use Rattle.page_model.specs.Cover.{HasChannels};

use page_model::{
    Bytes, Clip, ClipNumber, Disc, Image, ImageMap, Ink, Mark, Marks, Page, Paint, Region, Ring,
    Rings, Rule, Shape, Shapes, Table, plain_dot, plain_rule, point, reach,
};
use press_fault::{Code, Mem, Point};
use press_nums::Wide;
use std::alloc::Global;
use std::sync::Arc;
use std::test::Fail;

/// A table of two sources of three channels: the first gives each code as it is, the second
/// with its ends exchanged.
struct Swaps;

impl Table for Swaps {
    ghost sources = { λ _. 2 };

    ghost channels = { λ _ _. 3 };

    ghost tint = { λ _ source code. if source == 0 then slice_index code.c 0 ∷ slice_index code.c 1
        ∷ slice_index code.c 2 ∷ [] else slice_index code.c 2 ∷ slice_index code.c 1 ∷ slice_index code.c 0 ∷ [] };

    fn colour(&self, source: u32, code: Code) -> [u8; 3] {
        let [first, second, third, _] = code.c;
        if source == 0 {
            [first, second, third]
        } else {
            [third, second, first]
        }
    }
}

/// The letter of a colour: white, black, red, green or blue, else a dot.
fn letter(colour: [u8; 3]) -> u8 {
    match colour {
        [255, 255, 255] => b'W',
        [0, 0, 0] => b'B',
        [255, 0, 0] => b'R',
        [0, 255, 0] => b'G',
        [0, 0, 255] => b'U',
        [128, 128, 128] => b'8',
        [192, 192, 192] => b'C',
        _ => b'.',
    }
}

/// The letters of a page's dots, row by row.
fn letters(alloc: Global, page: &Page) -> Mem<Vec<u8>>
    requires sources { page.now.sources ≤ 2 }
    requires channels { All (HasChannels (λ _. 3)) page.now.marks }
{
    let mut text = Vec::new(alloc);
    for row in 0..page.height {
        for col in 0..page.width {
            text.push(letter(plain_dot(page, row, col, &Swaps)))?;
        }
    }
    Ok(text)
}

/// A polygon of one ring.
fn polygon(alloc: Global, corners: &[Point]) -> Mem<Shape> {
    Ok(Shape::Poly(Rings::one(alloc, Ring::of(alloc, corners)?)?))
}

/// The square from a corner to the opposite one, in dots.
fn square(alloc: Global, from: u8, to: u8) -> Mem<Ring> {
    let (from, to) = (256 * i32::from(from), 256 * i32::from(to));
    Ring::rectangle(alloc, point(from, to), point(to, from))
}

/// The same as a shape.
fn block(alloc: Global, from: u8, to: u8) -> Mem<Shape> {
    Ok(Shape::Poly(Rings::one(alloc, square(alloc, from, to)?)?))
}

/// A mark of one shape in an ink.
fn filled(alloc: Global, rule: Rule, shape: Shape, clip: Clip, ink: Ink) -> Mem<Mark>
    ensures paint { IfOk result (λ mark. mark.paint ≡ Flatly ink) }
    ensures number { IfOk result (λ mark. mark.clip_number ≡ None) }
{
    let mut shapes = Shapes::new(alloc);
    shapes.push(shape)?;
    Ok(Mark {
        rule,
        shapes: Arc::new(alloc, shapes)?,
        clip: Arc::new(alloc, clip)?,
        clip_number: ClipNumber::none(),
        paint: Paint::Flat(ink),
    })
}

/// A page of two marks, whose clips have no numbers.
#[tactic(auto, using(crate::proofs::Unnumbered::unnumbered))]
fn page(alloc: Global, width: u32, height: u32, below: Mark, above: Mark) -> Mem<Page>
    requires width { width ≤ 9 }
    requires height { height ≤ 9 }
    requires below_source { HasKnownSource 2 below }
    requires above_source { HasKnownSource 2 above }
    requires below_channels { HasChannels (λ _. 3) below }
    requires above_channels { HasChannels (λ _. 3) above }
    requires below_number { below.clip_number ≡ None }
    requires above_number { above.clip_number ≡ None }
    ensures { IfOk result (λ page. (page.sources ≡ 2) × All (HasChannels (λ _. 3)) page.marks) }
{
    let mut marks = Marks::new(alloc);
    marks.push(below)?;
    marks.push(above)?;
    Ok(Page {
        width,
        height,
        sources: 2,
        marks,
    })
}

const BLACK: Ink = Ink::Plain(Code {
    n: 1,
    c: [0, 0, 0, 0],
});

const RED: Ink = Ink::Plain(Code {
    n: 3,
    c: [255, 0, 0, 0],
});

/// A mark that paints nothing.
fn nothing(alloc: Global) -> Mem<Mark>
    ensures source { IfOk result (HasKnownSource 2) }
    ensures channels { IfOk result (HasChannels (λ _. 3)) }
    ensures number { IfOk result (λ mark. mark.clip_number ≡ None) }
{
    let shape = Shape::Poly(Rings::new(alloc));
    filled(alloc, Rule::Nonzero, shape, Clip::new(alloc), BLACK)
}

/// The page of one mark on white, in letters.
fn shown(alloc: Global, width: u32, height: u32, mark: Mark) -> Mem<Vec<u8>>
    requires width { width ≤ 9 }
    requires height { height ≤ 9 }
    requires source { HasKnownSource 2 mark }
    requires channels { HasChannels (λ _. 3) mark }
    requires number { mark.clip_number ≡ None }
{
    let page = page(alloc, width, height, nothing(alloc)?, mark)?;
    letters(alloc, &page)
}

/// A square cut along a diagonal: one half black, the other red.
fn halved(alloc: Global) -> Mem<Vec<u8>> {
    let (low, high) = (point(640, 896), point(128, 384));
    let below = polygon(alloc, &[point(128, 896), low, high])?;
    let above = polygon(alloc, &[low, point(640, 384), high])?;
    let black = filled(alloc, Rule::Nonzero, below, Clip::new(alloc), BLACK)?;
    let red = filled(alloc, Rule::Nonzero, above, Clip::new(alloc), RED)?;
    letters(alloc, &page(alloc, 4, 4, black, red)?)
}

#[test]
fn a_shared_edge_is_painted_once(rt: HostRuntime) -> Result<(), Fail> {
    let text = halved(rt.alloc())?;
    assert_eq!(rt; text.as_slice(), b"WWWWRRWWBRWWWWWW".as_slice());
    Ok(())
}

/// A square of four dots with one of two dots inside it, going round the same way.
fn nested(alloc: Global, rule: Rule) -> Mem<Vec<u8>> {
    let mut rings = Rings::one(alloc, square(alloc, 0, 4)?)?;
    rings.push(square(alloc, 1, 3)?)?;
    let mark = filled(alloc, rule, Shape::Poly(rings), Clip::new(alloc), BLACK)?;
    shown(alloc, 4, 4, mark)
}

#[test]
fn nested_squares_show_the_rule(rt: HostRuntime) -> Result<(), Fail> {
    let cases = [
        ("nonzero", Rule::Nonzero, b"BBBBBBBBBBBBBBBB"),
        ("even-odd", Rule::EvenOdd, b"BBBBBWWBBWWBBBBB"),
    ];
    for (name, rule, expected) in cases {
        assert_eq!(rt;
            nested(rt.alloc(), rule)?.as_slice(),
            expected.as_slice(),
            "{name}"
        );
    }
    Ok(())
}

/// The region of a square.
fn region(alloc: Global, (from, to): (u8, u8)) -> Mem<Region> {
    Ok(Region {
        rule: Rule::Nonzero,
        rings: Arc::new(alloc, Rings::one(alloc, square(alloc, from, to)?)?)?,
    })
}

/// A page of four by four black dots, clipped to two squares.
fn clipped(alloc: Global, first: (u8, u8), second: (u8, u8)) -> Mem<Vec<u8>> {
    let mut clip = Clip::new(alloc);
    clip.push(region(alloc, first)?)?;
    clip.push(region(alloc, second)?)?;
    let mark = filled(alloc, Rule::Nonzero, block(alloc, 0, 4)?, clip, BLACK)?;
    shown(alloc, 4, 4, mark)
}

#[test]
fn a_clip_asks_each_of_its_regions(rt: HostRuntime) -> Result<(), Fail> {
    let cases = [
        ("disjoint", (0, 1), (2, 3), b"WWWWWWWWWWWWWWWW"),
        ("overlapping", (0, 3), (2, 4), b"WWWWWWWWWWBWWWWW"),
    ];
    for (name, first, second, expected) in cases {
        let text = clipped(rt.alloc(), first, second)?;
        assert_eq!(rt; text.as_slice(), expected.as_slice(), "{name}");
    }
    Ok(())
}

/// A page of four by four dots with a red disc; the centre is on the diagonal.
fn round(alloc: Global, middle: i32, r: u16) -> Mem<Vec<u8>> {
    let disc = Shape::Disc(Disc::new(point(middle, middle), u64::from(r)));
    let mark = filled(alloc, Rule::Nonzero, disc, Clip::new(alloc), RED)?;
    shown(alloc, 4, 4, mark)
}

#[test]
fn a_disc_holds_the_centres_within_its_radius(rt: HostRuntime) -> Result<(), Fail> {
    let cases = [
        ("radius of a dot", 512, 256, b"WWWWWRRWWRRWWWWW"),
        ("centres on the circle", 640, 256, b"WWWWWWRWWRRRWWRW"),
        ("a centre alone", 640, 0, b"WWWWWWWWWWRWWWWW"),
        ("no centre", 512, 181, b"WWWWWWWWWWWWWWWW"),
    ];
    for (name, middle, r, expected) in cases {
        let text = round(rt.alloc(), middle, r)?;
        assert_eq!(rt; text.as_slice(), expected.as_slice(), "{name}");
    }
    Ok(())
}

/// The map with these coefficients over 2, so that 1 is a dot.
fn halves(a: i32, b: i32, c: i32, d: i32, tx: i32, ty: i32) -> ImageMap {
    ImageMap {
        a: Wide::of(i64::from(a)),
        b: Wide::of(i64::from(b)),
        c: Wide::of(i64::from(c)),
        d: Wide::of(i64::from(d)),
        tx: Wide::of(i64::from(tx)),
        ty: Wide::of(i64::from(ty)),
        den: Wide::of(2),
    }
}

/// An image of one row of gray samples.
fn gray_row(alloc: Global, codes: &[u8], source: Option<u32>, map: ImageMap) -> Mem<Image>
    requires { length codes.now ≤ 9 }
    ensures { IfOk result (λ image. (image.channels ≡ 1) × (image.source ≡ source)) }
{
    Ok(Image {
        width: codes.len() as u32,
        rows: 1,
        channels: 1,
        source,
        codes: Bytes::from_vec(codes.to_vec(alloc)?),
        map,
        low: -256,
        high: 512,
    })
}

/// The mark of an image or a mask.
fn placed(alloc: Global, paint: Paint) -> Mem<Mark>
    requires { IsSuited [] (painting_of paint) }
    ensures paint { IfOk result (λ mark. mark.paint ≡ painting_of paint) }
    ensures number { IfOk result (λ mark. mark.clip_number ≡ None) }
{
    Ok(Mark {
        rule: Rule::Nonzero,
        shapes: Arc::new(alloc, Shapes::new(alloc))?,
        clip: Arc::new(alloc, Clip::new(alloc))?,
        clip_number: ClipNumber::none(),
        paint,
    })
}

/// An image of one row on a red page of two.
fn one_row_of_two(alloc: Global) -> Mem<Vec<u8>> {
    let red = block(alloc, 0, 9)?;
    let below = filled(alloc, Rule::Nonzero, red, Clip::new(alloc), RED)?;
    let codes = [255, 0, 255, 0, 255, 0, 255, 0, 255];
    let image = gray_row(alloc, &codes, None, halves(1, 0, 0, 1, 0, 0))?;
    let above = placed(alloc, Paint::Image(Arc::new(alloc, image)?))?;
    letters(alloc, &page(alloc, 9, 2, below, above)?)
}

#[test]
fn an_image_paints_only_the_rows_delivered(rt: HostRuntime) -> Result<(), Fail> {
    let text = one_row_of_two(rt.alloc())?;
    assert_eq!(rt; text.as_slice(), b"WBWBWBWBWRRRRRRRRR".as_slice());
    Ok(())
}

/// Four samples, turned by a quarter and flipped.
fn turned(alloc: Global) -> Mem<Vec<u8>> {
    let image = Image {
        width: 2,
        rows: 2,
        channels: 1,
        source: None,
        codes: Bytes::from_vec([0x00, 0xFF, 0x80, 0xC0].to_vec(alloc)?),
        map: halves(0, -1, -1, 0, 4, 4),
        low: -256,
        high: 768,
    };
    let mark = placed(alloc, Paint::Image(Arc::new(alloc, image)?))?;
    shown(alloc, 2, 2, mark)
}

#[test]
fn an_image_is_turned_by_its_map(rt: HostRuntime) -> Result<(), Fail> {
    assert_eq!(rt; turned(rt.alloc())?.as_slice(), b"CW8B".as_slice());
    Ok(())
}

/// A black and a red sample on white, placed by a map.
fn two_samples(alloc: Global, a: i32, tx: i32, ty: i32) -> Mem<Vec<u8>> {
    let image = Image {
        width: 2,
        rows: 1,
        channels: 3,
        source: None,
        codes: Bytes::from_vec([0, 0, 0, 255, 0, 0].to_vec(alloc)?),
        map: halves(a, 0, 0, 1, tx, ty),
        low: 128,
        high: 384,
    };
    shown(
        alloc,
        4,
        3,
        placed(alloc, Paint::Image(Arc::new(alloc, image)?))?,
    )
}

#[test]
fn a_sample_is_where_the_centre_lies(rt: HostRuntime) -> Result<(), Fail> {
    let cases = [
        ("as it lies", 1, 0, 0, b"BRWWWWWWWWWW"),
        ("half a dot right", 1, -1, 0, b"BRWWWWWWWWWW"),
        ("one dot right", 1, -2, 0, b"WBRWWWWWWWWW"),
        ("one dot down", 1, 0, -2, b"WWWWBRWWWWWW"),
        ("two dots down, past its extent", 1, 0, -4, b"WWWWWWWWWWWW"),
        ("from right to left", -1, 6, 0, b"WRBWWWWWWWWW"),
    ];
    for (name, a, tx, ty, expected) in cases {
        let text = two_samples(rt.alloc(), a, tx, ty)?;
        assert_eq!(rt; text.as_slice(), expected.as_slice(), "{name}");
    }
    Ok(())
}

/// A red mask of a sample that paints and one that doesn't.
fn masked(alloc: Global) -> Mem<Vec<u8>> {
    let mask = gray_row(alloc, &[255, 0], None, halves(1, 0, 0, 1, 0, 0))?;
    let mark = placed(alloc, Paint::Mask(Arc::new(alloc, mask)?, RED))?;
    shown(alloc, 2, 1, mark)
}

#[test]
fn a_mask_paints_where_it_is_255(rt: HostRuntime) -> Result<(), Fail> {
    assert_eq!(rt; masked(rt.alloc())?.as_slice(), b"RW".as_slice());
    Ok(())
}

/// A dot that is filled with red by a source.
fn linked_fill(alloc: Global, source: u32) -> Mem<Vec<u8>>
    requires { source < 2 }
{
    let code = Code::rgb(255, 0, 0);
    let ink = Ink::Linked { source, code };
    let mark = filled(
        alloc,
        Rule::Nonzero,
        block(alloc, 0, 1)?,
        Clip::new(alloc),
        ink,
    )?;
    shown(alloc, 1, 1, mark)
}

/// A dot that an image paints red by a source.
fn linked_image(alloc: Global, source: u32) -> Mem<Vec<u8>>
    requires { source < 2 }
{
    let image = Image {
        width: 1,
        rows: 1,
        channels: 3,
        source: Some(source),
        codes: Bytes::from_vec([255, 0, 0].to_vec(alloc)?),
        map: halves(1, 0, 0, 1, 0, 0),
        low: -256,
        high: 512,
    };
    shown(
        alloc,
        1,
        1,
        placed(alloc, Paint::Image(Arc::new(alloc, image)?))?,
    )
}

#[test]
fn a_linked_code_goes_by_its_source(rt: HostRuntime) -> Result<(), Fail> {
    let alloc = rt.alloc();
    assert_eq!(rt; linked_fill(alloc, 0)?.as_slice(), b"R".as_slice());
    assert_eq!(rt; linked_fill(alloc, 1)?.as_slice(), b"U".as_slice());
    assert_eq!(rt; linked_image(alloc, 0)?.as_slice(), b"R".as_slice());
    assert_eq!(rt; linked_image(alloc, 1)?.as_slice(), b"U".as_slice());
    Ok(())
}

#[test]
fn plain_codes_have_the_device_colours(rt: HostRuntime) {
    let cases = [
        ("gray", Code::gray(128), [128, 128, 128]),
        ("red, green and blue", Code::rgb(1, 2, 3), [1, 2, 3]),
        ("cyan, magenta, yellow", ink(255, 128, 0, 0), [0, 127, 255]),
        ("with black", ink(100, 200, 0, 100), [55, 0, 155]),
    ];
    for (name, code, expected) in cases {
        assert_eq!(rt; plain_rule(code), expected, "{name}");
    }
}

fn ink(cyan: u8, magenta: u8, yellow: u8, black: u8) -> Code {
    Code {
        n: 4,
        c: [cyan, magenta, yellow, black],
    }
}

/// A mark from one height to another, in sub-dots.
fn between(alloc: Global, top: u16, bottom: u16) -> Mem<Mark> {
    let shape = polygon(
        alloc,
        &[point(0, i32::from(bottom)), point(9, i32::from(top))],
    )?;
    filled(alloc, Rule::Nonzero, shape, Clip::new(alloc), BLACK)
}

#[test]
fn a_mark_reaches_the_rows_between_its_ends(rt: HostRuntime) -> Result<(), Fail> {
    let cases = [
        ("from centre to centre", 128, 896, 4, (0, 4)),
        ("just inside two centres", 129, 895, 4, (1, 3)),
        ("between two centres", 129, 383, 4, (0, 0)),
        ("past the page", 1024, 2048, 4, (0, 0)),
        ("onto the page's end", 640, 2048, 4, (2, 4)),
        ("one height", 640, 640, 4, (2, 3)),
        ("a page without rows", 0, 1024, 0, (0, 0)),
    ];
    for (name, top, bottom, height, expected) in cases {
        let found = reach(&between(rt.alloc(), top, bottom)?, height);
        assert_eq!(rt; found, expected, "{name}");
    }
    Ok(())
}

/// The rows of four that a disc reaches, whose centre is two dots down.
fn disc_reach(alloc: Global) -> Mem<(u32, u32)> {
    let disc = Shape::Disc(Disc::new(point(0, 512), 128));
    let mark = filled(alloc, Rule::Nonzero, disc, Clip::new(alloc), BLACK)?;
    Ok(reach(&mark, 4))
}

/// The rows of four that an image reaches from one dot above the page to two dots down.
fn image_reach(alloc: Global) -> Mem<(u32, u32)> {
    let image = gray_row(alloc, &[0], None, halves(1, 0, 0, 1, 0, 0))?;
    let mark = placed(alloc, Paint::Image(Arc::new(alloc, image)?))?;
    Ok(reach(&mark, 4))
}

#[test]
fn discs_and_images_have_their_own_reach(rt: HostRuntime) -> Result<(), Fail> {
    assert_eq!(rt; disc_reach(rt.alloc())?, (1, 3));
    assert_eq!(rt; image_reach(rt.alloc())?, (0, 2));
    assert_eq!(rt; reach(&nothing(rt.alloc())?, 4), (0, 0));
    Ok(())
}

/// Two bytes, one after the other.
fn two_bytes(alloc: Global) -> Mem<Bytes> {
    let mut bytes = Bytes::new(alloc);
    bytes.push(1)?;
    bytes.push(2)?;
    Ok(bytes)
}

#[test]
fn bytes_keep_their_order(rt: HostRuntime) -> Result<(), Fail> {
    assert_eq!(rt; two_bytes(rt.alloc())?.items(), [1, 2].as_slice());
    assert_eq!(rt;
        two_bytes(rt.alloc())?.into_vec().as_slice(),
        [1, 2].as_slice()
    );
    Ok(())
}

#[test]
fn a_clip_has_a_number_or_none(rt: HostRuntime) -> Result<(), Fail> {
    let numbers = (ClipNumber::of(7).get(), ClipNumber::none().get());
    assert_eq!(rt; numbers, (Some(7), None));
    Ok(())
}
