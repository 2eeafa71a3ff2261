//! Pages of generated marks: polygons, discs, images and masks, plain and linked, some of them clipped.
ghost use Rattle.std.specs.Prelude.{◌≡◌, ◌<◌, ◌≤◌, ◌^◌, ◌⊎◌, [], IfOk, Some, length, map, pos, unsigned_abs, ◌<ℤ◌};
ghost use Rattle.std.specs.Arc.{arc_value};
ghost use Rattle.page_model.specs.Marking.{painting_of, IsSuited};
ghost use Rattle.page_model.specs.Cover.{HasChannels, InkHasChannels, PaintingHasChannels};
ghost use Rattle.page_model.specs.Page.{HasClipOfNumber, HasKnownSource, IsNumbered, ink_source, painting_source};
ghost use Rattle.list_player_tests.specs.Tints.{channels_of};
ghost use Rattle.list_player_tests.specs.Lists.{clip_at, IsTinted};

use crate::numbers::Numbers;
use page_model::{
    Bytes, Clip, ClipNumber, Disc, Image, ImageMap, Ink, Mark, Marks, Page, Paint, Region, Ring,
    Rings, Rule, Shape, Shapes, point,
};
use press_fault::{Code, Mem};
use press_nums::Wide;
use std::alloc::Global;
use std::sync::Arc;

fn ring(numbers: &mut Numbers, alloc: Global, points: u32) -> Mem<Ring> {
    let mut ring = Ring::new(alloc);
    for _point in 0..points {
        let x = numbers.coordinate(40);
        let y = numbers.coordinate(70);
        ring.push(point(x, y))?;
    }
    Ok(ring)
}

fn rings(numbers: &mut Numbers, alloc: Global) -> Mem<Rings> {
    let mut rings = Rings::new(alloc);
    let count = 1 + numbers.below(2);
    for _ring in 0..count {
        let points = 3 + numbers.below(4);
        rings.push(ring(numbers, alloc, points)?)?;
    }
    Ok(rings)
}

fn shape(numbers: &mut Numbers, alloc: Global) -> Mem<Shape> {
    if numbers.below(4) == 0 {
        let x = numbers.coordinate(40);
        let y = numbers.coordinate(70);
        let radius = numbers.below(4000);
        return Ok(Shape::Disc(Disc::new(point(x, y), u64::from(radius))));
    }
    Ok(Shape::Poly(rings(numbers, alloc)?))
}

fn shapes(numbers: &mut Numbers, alloc: Global) -> Mem<Shapes> {
    let mut shapes = Shapes::new(alloc);
    let count = 1 + numbers.below(3);
    for _shape in 0..count {
        shapes.push(shape(numbers, alloc)?)?;
    }
    Ok(shapes)
}

fn rule(numbers: &mut Numbers) -> Rule {
    if numbers.below(2) == 0 {
        Rule::Nonzero
    } else {
        Rule::EvenOdd
    }
}

/// A code of three channels, one of a few, so that sources have codes in common.
fn tones(numbers: &mut Numbers) -> Code
    ensures { result.n ≡ 3 }
{
    let first = numbers.tone();
    let second = numbers.tone();
    let third = numbers.tone();
    Code {
        n: 3,
        c: [first, second, third, 0],
    }
}

/// The code of red, green and blue.
fn rgb(numbers: &mut Numbers) -> Code {
    let red = numbers.byte();
    let green = numbers.byte();
    let blue = numbers.byte();
    Code {
        n: 3,
        c: [red, green, blue, 0],
    }
}

/// The code of cyan, magenta, yellow and black.
fn cmyk(numbers: &mut Numbers) -> Code {
    let cyan = numbers.byte();
    let magenta = numbers.byte();
    let yellow = numbers.byte();
    let black = numbers.byte();
    Code {
        n: 4,
        c: [cyan, magenta, yellow, black],
    }
}

fn ink(numbers: &mut Numbers) -> Ink
    ensures source { IsNumbered 3 (ink_source result) }
    ensures channels { InkHasChannels channels_of result }
{
    match numbers.below(8) {
        0 => Ink::Plain(Code::gray(numbers.byte())),
        1 => Ink::Plain(rgb(numbers)),
        2 => Ink::Plain(cmyk(numbers)),
        3 => Ink::Linked {
            source: 0,
            code: Code::gray(numbers.tone()),
        },
        4 => Ink::Linked {
            source: 1,
            code: tones(numbers),
        },
        5 => Ink::Linked {
            source: 1,
            code: tones(numbers),
        },
        _ => Ink::Linked {
            source: 2,
            code: tones(numbers),
        },
    }
}

/// Samples of a few values: of a mask, 0 and 255 alone.
fn samples(numbers: &mut Numbers, alloc: Global, count: u32, is_mask: bool) -> Mem<Bytes>
    ensures { IfOk result (λ bytes. length bytes ≡ count) }
{
    let mut bytes = Bytes::new(alloc);
    for _byte in 0..count {
        let byte = if is_mask {
            if numbers.below(2) == 0 { 0 } else { 255 }
        } else {
            numbers.tone()
        };
        bytes.push(byte)?;
    }
    Ok(bytes)
}

/// A map that turns and shifts samples.
fn image_map(numbers: &mut Numbers) -> ImageMap {
    let a = ahead(1 + numbers.below(3));
    let b = ahead(numbers.below(3));
    let c = back(numbers.below(2));
    let d = ahead(1 + numbers.below(2));
    let tx = back(numbers.below(40));
    let ty = back(numbers.below(60));
    let den = ahead(11 + numbers.below(20));
    ImageMap {
        a,
        b,
        c,
        d,
        tx,
        ty,
        den,
    }
}

/// A number that isn't negative.
fn ahead(n: u32) -> Wide
    ensures value { result ≡ pos n }
    ensures bound { unsigned_abs result < 2 ^ 88 }
    ensures positive { 0 < n → pos 0 <ℤ result }
{
    Wide::of_size(u128::from(n))
}

/// A number that isn't positive, by its magnitude.
fn back(n: u32) -> Wide
    ensures bound { unsigned_abs result < 2 ^ 88 }
{
    Wide::of_size(u128::from(n)).negated()
}

/// An image of 3 columns and 2 rows of samples.
fn image(
    numbers: &mut Numbers,
    alloc: Global,
    channels: u8,
    source: Option<u32>,
    is_mask: bool,
) -> Mem<Image>
    requires { (channels ≡ 1) ⊎ (channels ≡ 3) }
    ensures channels { IfOk result (λ image. image.channels ≡ channels) }
    ensures source { IfOk result (λ image. image.source ≡ source) }
{
    let codes = samples(numbers, alloc, 6 * u32::from(channels), is_mask)?;
    let map = image_map(numbers);
    let low = i64::from(numbers.below(2560));
    let high = i64::from(2560 + numbers.below(15360));
    Ok(Image {
        width: 3,
        rows: 2,
        channels,
        source,
        codes,
        map,
        low,
        high,
    })
}

/// An image with or without a source, or a mask.
fn paint(numbers: &mut Numbers, alloc: Global) -> Mem<Paint>
    ensures suited { IfOk result (λ paint. IsSuited [] (painting_of paint)) }
    ensures source { IfOk result (λ paint. IsNumbered 3 (painting_source (painting_of paint))) }
    ensures channels { IfOk result (λ paint. PaintingHasChannels channels_of (painting_of paint)) }
{
    match numbers.below(5) {
        0 => {
            let image = image(numbers, alloc, 3, Some(1), false)?;
            Ok(Paint::Image(Arc::new(alloc, image)?))
        }
        1 => {
            let image = image(numbers, alloc, 1, None, false)?;
            Ok(Paint::Image(Arc::new(alloc, image)?))
        }
        2 => {
            let image = image(numbers, alloc, 1, Some(0), false)?;
            Ok(Paint::Image(Arc::new(alloc, image)?))
        }
        3 => {
            let image = image(numbers, alloc, 3, Some(2), false)?;
            Ok(Paint::Image(Arc::new(alloc, image)?))
        }
        _ => {
            let image = image(numbers, alloc, 1, None, true)?;
            let ink = ink(numbers);
            Ok(Paint::Mask(Arc::new(alloc, image)?, ink))
        }
    }
}

fn region(numbers: &mut Numbers, alloc: Global) -> Mem<Region> {
    let rule = rule(numbers);
    let rings = rings(numbers, alloc)?;
    Ok(Region {
        rule,
        rings: Arc::new(alloc, rings)?,
    })
}

/// A clip of so many regions.
fn clip(numbers: &mut Numbers, alloc: Global, regions: u32) -> Mem<Clip> {
    let mut clip = Clip::new(alloc);
    for _region in 0..regions {
        clip.push(region(numbers, alloc)?)?;
    }
    Ok(clip)
}

/// A clip of no region, one of one, and one of two.
fn clips(numbers: &mut Numbers, alloc: Global) -> Mem<[Arc<Clip>; 3]> {
    let none = clip(numbers, alloc, 0)?;
    let one = clip(numbers, alloc, 1)?;
    let two = clip(numbers, alloc, 2)?;
    Ok([
        Arc::new(alloc, none)?,
        Arc::new(alloc, one)?,
        Arc::new(alloc, two)?,
    ])
}

/// A mark of shapes, clipped by the clip of a number.
fn filled(numbers: &mut Numbers, alloc: Global, clip: Arc<Clip>, number: u32) -> Mem<Mark>
    requires { number < 3 }
    ensures source { IfOk result (HasKnownSource 3) }
    ensures channels { IfOk result (HasChannels channels_of) }
    ensures number { IfOk result (λ mark. mark.clip_number ≡ Some number) }
    ensures clip { IfOk result (λ mark. mark.clip ≡ arc_value clip) }
{
    let rule = rule(numbers);
    let shapes = shapes(numbers, alloc)?;
    let ink = ink(numbers);
    Ok(Mark {
        rule,
        shapes: Arc::new(alloc, shapes)?,
        clip,
        clip_number: ClipNumber::of(number),
        paint: Paint::Flat(ink),
    })
}

/// A mark of an image or a mask, clipped by the clip of a number.
fn placed(numbers: &mut Numbers, alloc: Global, clip: Arc<Clip>, number: u32) -> Mem<Mark>
    requires { number < 3 }
    ensures source { IfOk result (HasKnownSource 3) }
    ensures channels { IfOk result (HasChannels channels_of) }
    ensures number { IfOk result (λ mark. mark.clip_number ≡ Some number) }
    ensures clip { IfOk result (λ mark. mark.clip ≡ arc_value clip) }
{
    let paint = paint(numbers, alloc)?;
    Ok(Mark {
        rule: Rule::Nonzero,
        shapes: Arc::new(alloc, Shapes::new(alloc))?,
        clip,
        clip_number: ClipNumber::of(number),
        paint,
    })
}

/// A mark that takes one of the clips.
fn mark(numbers: &mut Numbers, alloc: Global, clips: &[Arc<Clip>]) -> Mem<Mark>
    requires { length clips.now ≡ 3 }
    ensures source { IfOk result (HasKnownSource 3) }
    ensures channels { IfOk result (HasChannels channels_of) }
    ensures clip { IfOk result (HasClipOfNumber (clip_at (map arc_value clips.now))) }
{
    let number = numbers.below(3);
    let clip = Arc::try_clone(&clips[number as usize])?;
    if numbers.below(3) == 0 {
        placed(numbers, alloc, clip, number)
    } else {
        filled(numbers, alloc, clip, number)
    }
}

/// A page of 40 columns and 70 rows with so many marks.
#[tactic(auto, using(crate::proofs::Lists::numbered))]
pub fn page(alloc: Global, seed: u32, count: u32) -> Mem<Page>
    requires { count ≤ 1000 }
    ensures { IfOk result IsTinted }
{
    let mut numbers = Numbers::new(seed);
    let clips = clips(&mut numbers, alloc)?;
    let mut marks = Marks::new(alloc);
    for _mark in 0..count {
        marks.push(mark(&mut numbers, alloc, &clips)?)?;
    }
    Ok(Page {
        width: 40,
        height: 70,
        sources: 3,
        marks,
    })
}
