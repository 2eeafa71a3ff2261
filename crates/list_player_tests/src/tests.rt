ghost use Rattle.std.specs.Prelude.{◌<◌, ◌≤◌, length};
ghost use Rattle.list_player_tests.specs.Lists.{IsTinted, WasSplit};

use crate::marks::page;
use crate::tints::{LowTints, Palette, Tints};
use band_writer::{BandLists, lists_say_their_marks, split};
use list_player::{bytes_say_their_marks_once, play};
use page_model::{Depth, Page, plain_dot};
use press_fault::Mem;
use std::alloc::Global;
use std::process::Abort;
use std::test::Fail;

/// The dots of a band, where it lends what it needs and no more.
fn band_dots<R: Abort>(
    rt: &R,
    alloc: Global,
    page: &Page,
    lists: &BandLists,
    band: u32,
) -> Mem<Option<Vec<u8>>>
    requires page { IsTinted page.now }
    requires split { WasSplit page.now lists.now }
    requires rows { 0 < lists.now.parts.band }
    requires band { band < length lists.now.lists }
{
    lists_say_their_marks();
    bytes_say_their_marks_once();
    let _sources = page.sources;
    let mut palette = Palette {
        rt,
        lent: Vec::new(alloc),
        tries: 0,
        is_busy: false,
    };
    let dots = play(alloc, lists.list(band), lists.parts(), &mut palette)?;
    if palette.is_busy || palette.lent.as_slice() != lists.needs(band) || dots.band != band {
        return Ok(None);
    }
    Ok(Some(dots.dots.into_vec()))
}

/// The dots of the bands, from the top, where each lends what it needs and no more.
fn bands_dots<R: Abort>(
    rt: &R,
    alloc: Global,
    page: &Page,
    lists: &BandLists,
) -> Mem<Option<Vec<u8>>>
    requires page { IsTinted page.now }
    requires split { WasSplit page.now lists.now }
    requires rows { 0 < lists.now.parts.band }
{
    let mut dots = Vec::new(alloc);
    for band in 0..lists.bands() {
        let Some(part) = band_dots(rt, alloc, page, lists, band)? else {
            return Ok(None);
        };
        dots.extend_from_slice(&part)?;
    }
    Ok(Some(dots))
}

/// Whether a page in bands of so many rows has these dots, and each band lends what it needs and no more.
fn is_drawn<R: Abort>(
    rt: &R,
    alloc: Global,
    page: &Page,
    rows: u32,
    depth: Depth,
    dots: &[u8],
) -> Mem<bool>
    requires page { IsTinted page.now }
    requires rows { 0 < rows }
{
    let mut lists = split(alloc, page, rows)?;
    lists.set_depth(depth);
    match bands_dots(rt, alloc, page, &lists)? {
        Some(drawn) => Ok(drawn.as_slice() == dots),
        None => Ok(false),
    }
}

/// The dots of a page one by one, by its definition.
fn plain_dots(alloc: Global, page: &Page) -> Mem<Vec<u8>>
    requires { IsTinted page.now }
{
    let mut dots = Vec::new(alloc);
    for row in 0..page.height {
        for col in 0..page.width {
            let dot = plain_dot(page, row, col, &Tints);
            dots.extend_from_slice(&dot)?;
        }
    }
    Ok(dots)
}

/// The dots of a page at 16 bits, one by one, by its definition: the high bytes of colours are those of 8 bits, and
/// both bytes of a plain code's are.
fn wide_dots(alloc: Global, page: &Page) -> Mem<Vec<u8>>
    requires { IsTinted page.now }
{
    let mut dots = Vec::new(alloc);
    for row in 0..page.height {
        for col in 0..page.width {
            let [red, green, blue] = plain_dot(page, row, col, &Tints);
            let [low_red, low_green, low_blue] = plain_dot(page, row, col, &LowTints);
            dots.extend_from_slice(&[red, low_red, green, low_green, blue, low_blue])?;
        }
    }
    Ok(dots)
}

/// Whether a page of generated marks is the same by bands of some heights and by its definition.
fn is_same<R: Abort>(rt: &R, alloc: Global, seed: u32, marks: u32) -> Mem<bool>
    requires { marks ≤ 1000 }
{
    let page = page(alloc, seed, marks)?;
    let plain = plain_dots(alloc, &page)?;
    Ok(
        is_drawn(rt, alloc, &page, 1, Depth::Eight, &plain)?
            && is_drawn(rt, alloc, &page, 3, Depth::Eight, &plain)?
            && is_drawn(rt, alloc, &page, 7, Depth::Eight, &plain)?
            && is_drawn(rt, alloc, &page, 64, Depth::Eight, &plain)?
            && is_drawn(rt, alloc, &page, 70, Depth::Eight, &plain)?,
    )
}

/// Whether a page of generated marks is the same at 16 bits by bands of some heights and by its definition.
fn is_same_wide<R: Abort>(rt: &R, alloc: Global, seed: u32, marks: u32) -> Mem<bool>
    requires { marks ≤ 1000 }
{
    let page = page(alloc, seed, marks)?;
    let wide = wide_dots(alloc, &page)?;
    Ok(
        is_drawn(rt, alloc, &page, 1, Depth::Sixteen, &wide)?
            && is_drawn(rt, alloc, &page, 7, Depth::Sixteen, &wide)?
            && is_drawn(rt, alloc, &page, 64, Depth::Sixteen, &wide)?,
    )
}

#[test]
fn bands_are_the_page_of_few_marks(rt: HostRuntime) -> Result<(), Fail> {
    let alloc = rt.alloc();
    for seed in 0..20 {
        assert!(rt; is_same(&rt, alloc, seed, 3)?);
    }
    Ok(())
}

#[test]
fn bands_are_the_page_of_many_marks(rt: HostRuntime) -> Result<(), Fail> {
    let alloc = rt.alloc();
    for seed in 100..103 {
        assert!(rt; is_same(&rt, alloc, seed, 40)?);
    }
    Ok(())
}

#[test]
fn bands_are_the_page_at_16_bits(rt: HostRuntime) -> Result<(), Fail> {
    let alloc = rt.alloc();
    for seed in 200..206 {
        assert!(rt; is_same_wide(&rt, alloc, seed, 20)?);
    }
    Ok(())
}
