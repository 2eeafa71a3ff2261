//! Worked examples of the interpreter and the graphics state that no program can show.
#![tactic(auto)]

ghost use Rattle.std.specs.Prelude.{◌≡◌, IfOk, None};

use geo_path::Path;
use gfx_state::Gfx;
use page_model::{Bytes, Image, ImageMap};
use press_fault::{Mem, Point, PsName};
use press_nums::Wide;
use ps_machine::{End, Event, Machine, Setup};
use std::alloc::Global;
use std::sync::Arc;
use std::test::Fail;

/// What a machine answers next.
#[derive(Clone, Copy, Debug, PartialEq, Eq)]
enum Next {
    /// A page of so many marks.
    Page(usize),
    Done,
    Refused(PsName),
}

fn answer(machine: &mut Machine) -> Mem<Next> {
    match machine.next_page()? {
        Event::Page(page) => Ok(Next::Page(page.marks.items().len())),
        Event::End(End::Done) => Ok(Next::Done),
        Event::End(End::Ps { name, command: _ }) => Ok(Next::Refused(name)),
    }
}

/// The first three answers of a machine.
fn answers(alloc: Global, program: &str) -> Mem<[Next; 3]> {
    let setup = Setup {
        width: 1,
        height: 1,
        res: 72,
    };
    let mut machine = Machine::new(alloc, program.as_bytes().to_vec(alloc)?, setup)?;
    let first = answer(&mut machine)?;
    let second = answer(&mut machine)?;
    Ok([first, second, answer(&mut machine)?])
}

#[test]
fn the_same_end_is_answered_again(rt: HostRuntime) -> Result<(), Fail> {
    let undefined = Next::Refused(PsName::Undefined);
    let cases = [
        ("an empty program", "", [Next::Done; 3]),
        (
            "a page",
            "0 0 1 1 rectfill showpage",
            [Next::Page(1), Next::Done, Next::Done],
        ),
        (
            "a page and an error",
            "showpage foo showpage",
            [Next::Page(0), undefined, undefined],
        ),
        (
            "two pages",
            "showpage 0 0 1 1 rectfill showpage 1 2",
            [Next::Page(0), Next::Page(1), Next::Done],
        ),
        ("quit", "quit showpage", [Next::Done; 3]),
    ];
    for (name, program, expected) in cases {
        assert_eq!(rt; answers(rt.alloc(), program)?, expected, "{name}");
    }
    Ok(())
}

/// The segments of a path that was exchanged for an empty one, and of the one that is there now.
fn exchanged(alloc: Global) -> Result<(u32, u32), Fail> {
    let mut gfx = Gfx::new(alloc, 1, 1, 72)?;
    if gfx.move_to(Point::new(0, 0)).is_err() {
        Err("no point")?;
    }
    let before = gfx.swap_path(Path::new(alloc))?;
    Ok((before.count(), gfx.path().count()))
}

#[test]
fn a_path_is_exchanged_for_another(rt: HostRuntime) -> Result<(), Fail> {
    assert_eq!(rt; exchanged(rt.alloc())?, (1, 0));
    Ok(())
}

/// A gray image of one sample, on the page's first dot.
fn one_sample(alloc: Global) -> Mem<Image>
    ensures { IfOk result (λ image. (image.channels ≡ 1) × (image.source ≡ None)) }
{
    let mut codes = Bytes::new(alloc);
    codes.push(128)?;
    let (zero, one) = (Wide::of(0), Wide::of(1));
    Ok(Image {
        width: 1,
        rows: 1,
        channels: 1,
        source: None,
        codes,
        map: ImageMap {
            a: one,
            b: zero,
            c: zero,
            d: one,
            tx: zero,
            ty: zero,
            den: Wide::of(2),
        },
        low: -256,
        high: 512,
    })
}

/// How many marks an image and a mask of it make, and whether there is room for so many samples more.
fn pictured(alloc: Global, most: u64, more: u64) -> Result<(usize, bool, bool), Fail> {
    let mut gfx = Gfx::new(alloc, 1, 1, 72)?;
    let image = Arc::new(alloc, one_sample(alloc)?)?;
    let mask = Arc::try_clone(&image)?;
    if gfx.mark_image(image, false).is_err() {
        Err("no image")?;
    }
    if gfx.mark_image(mask, true).is_err() {
        Err("no mask")?;
    }
    let (fits, passes) = (gfx.has_sample_room(most), gfx.has_image_room(more));
    Ok((gfx.take_page().marks.items().len(), fits, passes))
}

#[test]
fn the_samples_of_images_and_masks_count(rt: HostRuntime) -> Result<(), Fail> {
    let counted = pictured(rt.alloc(), 67_108_862, 67_108_863)?;
    assert_eq!(rt; counted, (2, true, false));
    Ok(())
}

/// The font after `initgraphics`, where it was set before, and where a state saved before is restored.
fn fonts(alloc: Global) -> Result<(Option<u32>, Option<u32>), Fail> {
    let mut gfx = Gfx::new(alloc, 1, 1, 72)?;
    if gfx.save().is_err() {
        Err("not saved")?;
    }
    gfx.set_font(5);
    gfx.initial();
    let kept = gfx.font();
    gfx.restore();
    Ok((kept, gfx.font()))
}

#[test]
fn a_font_is_kept_by_initgraphics_and_saved_with_the_state(rt: HostRuntime) -> Result<(), Fail> {
    assert_eq!(rt; fonts(rt.alloc())?, (Some(5), None));
    Ok(())
}
