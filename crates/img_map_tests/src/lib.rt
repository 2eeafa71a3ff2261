//! Images that were made by hand, and the samples that dots have.
#![tactic(auto)]

ghost use Rattle.std.specs.Prelude.{◌≤◌, ◌*◌};

use geo_matrix::{Matrix, det};
use img_map::Pick::{At, Outside};
use img_map::{Pick, image_map, is_small, row_samples};
use page_model::{Bytes, Image, ImageMap};
use press_fault::Mem;
use press_nums::Fix;
use std::alloc::Global;
use std::test::Fail;

/// One, as a raw value: a count of 1/65536.
const ONE: i64 = 65_536;

/// The raw value of the greatest element that an image may have.
const MOST: i64 = 68_719_476_735;

/// An element of a matrix by its raw value.
fn element(raw: i64) -> Fix {
    match Fix::of_raw(raw) {
        Some(element) => element,
        None => Fix::of_int(0),
    }
}

/// A matrix by the raw values of its elements.
fn matrix(raw: [i64; 6]) -> Matrix {
    let [a, b, c, d, tx, ty] = raw;
    Matrix {
        a: element(a),
        b: element(b),
        c: element(c),
        d: element(d),
        tx: element(tx),
        ty: element(ty),
    }
}

/// The map of a current matrix and an image matrix, where they have one.
fn map_of(m: &Matrix, image: &Matrix) -> Option<ImageMap> {
    if det(m) == 0 {
        return None;
    }
    if is_small(m) && is_small(image) {
        Some(image_map(m, image))
    } else {
        None
    }
}

/// A gray image of so many columns and rows of samples, between two heights of the page.
fn gray(alloc: Global, width: u32, rows: u32, map: ImageMap, low: i64, high: i64) -> Mem<Image>
    requires { width * rows ≤ 67108864 }
{
    let codes = vec![in alloc; 0u8; width as usize * rows as usize]?;
    Ok(Image {
        width,
        rows,
        channels: 1,
        source: None,
        codes: Bytes::from_vec(codes),
        map,
        low,
        high,
    })
}

/// The samples of nine dots of a row, from a column on.
fn nine_of(image: &Image, row: u16, from: u16) -> [Pick; 9] {
    let mut picks = [At(u32::MAX); 9];
    row_samples(image, u32::from(row), u32::from(from), &mut picks);
    picks
}

/// The samples of nine dots of a row, from a column on, of an image of so many columns and rows of
/// samples, by the raw values of the current matrix and of the image matrix.
fn nine(
    alloc: Global,
    size: (u32, u32),
    m: [i64; 6],
    image: [i64; 6],
    row: u16,
    from: u16,
) -> Mem<Option<[Pick; 9]>>
    requires { size.0 * size.1 ≤ 67108864 }
{
    let (width, rows) = size;
    let Some(map) = map_of(&matrix(m), &matrix(image)) else {
        return Ok(None);
    };
    let image = gray(alloc, width, rows, map, -0x8000_0000, 0x8000_0000)?;
    Ok(Some(nine_of(&image, row, from)))
}

/// The samples that stand first, in nine dots of which the others have none.
fn first(samples: &[u32]) -> Option<[Pick; 9]> {
    let mut picks = [Outside; 9];
    for k in 0..9 {
        if k < samples.len() {
            picks[k] = At(samples[k]);
        }
    }
    Some(picks)
}

/// The image matrix that has a sample for each unit of user space.
const UNIT: [i64; 6] = [ONE, 0, 0, ONE, 0, 0];

#[test]
fn a_row_that_was_not_delivered_has_no_samples(rt: HostRuntime) -> Result<(), Fail> {
    let flag = [9 * ONE, 0, 0, -2 * ONE, 0, 2 * ONE];
    let delivered = nine(rt.alloc(), (9, 1), flag, flag, 0, 0)?;
    let missing = nine(rt.alloc(), (9, 1), flag, flag, 1, 0)?;
    assert!(rt; delivered == first(&[0, 1, 2, 3, 4, 5, 6, 7, 8]));
    assert!(rt; missing == first(&[]));
    Ok(())
}

#[test]
fn an_image_may_be_turned_by_90_degrees(rt: HostRuntime) -> Result<(), Fail> {
    let turned = [0, -2 * ONE, -2 * ONE, 0, 2 * ONE, 2 * ONE];
    let image = [2 * ONE, 0, 0, 2 * ONE, 0, 0];
    let upper = nine(rt.alloc(), (2, 2), turned, image, 0, 0)?;
    let lower = nine(rt.alloc(), (2, 2), turned, image, 1, 0)?;
    assert!(rt; upper == first(&[3, 1]));
    assert!(rt; lower == first(&[2, 0]));
    Ok(())
}

#[test]
fn an_image_may_be_turned_over(rt: HostRuntime) -> Result<(), Fail> {
    let cases: [([i64; 6], [u32; 3]); 4] = [
        ([ONE, 0, 0, ONE, 0, 0], [0, 1, 2]),
        ([-ONE, 0, 0, ONE, 3 * ONE, 0], [2, 1, 0]),
        ([ONE, 0, 0, -ONE, 0, 2 * ONE], [3, 4, 5]),
        ([-ONE, 0, 0, -ONE, 3 * ONE, 2 * ONE], [5, 4, 3]),
    ];
    for (m, samples) in cases {
        let picks = nine(rt.alloc(), (3, 2), m, UNIT, 0, 0)?;
        assert!(rt; picks == first(&samples));
    }
    Ok(())
}

/// Twice the size, turned by 30 degrees.
const TURNED: [i64; 6] = [113_512, ONE, -ONE, 113_512, 2 * ONE, -ONE];

#[test]
fn an_image_may_be_turned_by_30_degrees(rt: HostRuntime) -> Result<(), Fail> {
    let cases: [[i32; 9]; 7] = [
        [-1, 0, 0, 1, 1, -1, -1, -1, -1],
        [-1, 3, 0, 1, 1, 2, -1, -1, -1],
        [3, 3, 4, 4, 1, 2, 2, -1, -1],
        [6, 6, 4, 4, 5, 5, -1, -1, -1],
        [6, 7, 7, 8, 5, 5, -1, -1, -1],
        [-1, 7, 7, 8, 8, -1, -1, -1, -1],
        [-1, -1, -1, 8, 8, -1, -1, -1, -1],
    ];
    let mut row = 0u16;
    for samples in cases {
        let picks = nine(rt.alloc(), (3, 3), TURNED, UNIT, row, 0)?;
        assert!(rt; picks == Some(samples.map(|n| u32::try_from(n).map_or(Outside, At))));
        row = row.wrapping_add(1);
    }
    Ok(())
}

#[test]
fn samples_may_be_tiny_or_huge(rt: HostRuntime) -> Result<(), Fail> {
    let tiny = nine(rt.alloc(), (200_000, 1), [1, 0, 0, ONE, 0, 0], UNIT, 0, 0)?;
    let huge = [MOST, 0, 0, ONE, -MOST, 0];
    let last = nine(rt.alloc(), (16_384, 1), huge, huge, 0, 16_379)?;
    let far = nine(
        rt.alloc(),
        (1_064_960, 1),
        huge,
        [MOST, 0, 0, ONE, 0, 0],
        0,
        16_379,
    )?;
    assert!(rt; tiny == first(&[32_768, 98_304, 163_840]));
    assert!(rt; last == first(&[16_379, 16_380, 16_381, 16_382, 16_383]));
    assert!(rt; far == first(&[1_064_955, 1_064_956, 1_064_957, 1_064_958, 1_064_959]));
    Ok(())
}

#[test]
fn no_row_above_or_below_an_image_has_samples(rt: HostRuntime) -> Result<(), Fail> {
    let unit = matrix(UNIT);
    let Some(map) = map_of(&unit, &unit) else {
        return Ok(());
    };
    let image = gray(rt.alloc(), 3, 3, map, 384, 384)?;
    assert!(rt; Some(nine_of(&image, 0, 0)) == first(&[]));
    assert!(rt; Some(nine_of(&image, 1, 0)) == first(&[3, 4, 5]));
    assert!(rt; Some(nine_of(&image, 2, 0)) == first(&[]));
    Ok(())
}
