//! Data of images that were made by hand, and the codes that they stand for.
#![tactic(auto)]

ghost use Rattle.std.specs.Prelude.{◌≡◌, ◌≤◌, ◌*◌, ◌⊎◌, length};

use img_samples::Gather;
use press_fault::Mem;
use press_nums::Fix;
use std::alloc::Global;
use std::test::Fail;

/// The codes of all rows that came whole, where the data come in pieces of so many bytes.
fn codes(mut image: Gather, data: &[u8], piece: usize) -> Mem<Vec<u8>>
    requires { 1 ≤ piece }
{
    for part in data.chunks(piece) {
        image.feed(part)?;
    }
    Ok(image.finish().into_vec())
}

/// A number by its count of quarters.
fn quarters(n: i8) -> Fix {
    match Fix::of_raw(i64::from(n) * 16384) {
        Some(number) => number,
        None => Fix::of_int(0),
    }
}

/// A gray image of so many columns and two rows, with samples of so many bits, which stand for
/// numbers from `low` to `high` quarters; its data come in pieces.
fn gray(
    alloc: Global,
    width: u8,
    bits: u8,
    low: i8,
    high: i8,
    data: &[u8],
    piece: usize,
) -> Mem<Vec<u8>>
    requires bits { (bits ≡ 1) ⊎ (bits ≡ 2) ⊎ (bits ≡ 4) ⊎ (bits ≡ 8) }
    requires piece { 1 ≤ piece }
{
    let decode = [quarters(low), quarters(high)];
    codes(
        Gather::new(alloc, u32::from(width), 2, bits, 1, &decode)?,
        data,
        piece,
    )
}

#[test]
fn high_bits_come_first_and_rows_are_padded(rt: HostRuntime) -> Result<(), Fail> {
    let alloc = rt.alloc();
    let bits = gray(alloc, 9, 1, 0, 4, &[0xAA, 0x80, 0x55, 0x7F], 3)?;
    let pairs = gray(alloc, 3, 2, 0, 4, &[0x1B, 0xE4], 1)?;
    let halves = gray(alloc, 3, 4, 0, 4, &[0x0F, 0x8E, 0x12, 0x30], 2)?;
    let bytes = gray(alloc, 2, 8, 0, 4, &[0x00, 0xFF, 0x80, 0xC0], 3)?;
    let rows: &[u8] = &[
        255, 0, 255, 0, 255, 0, 255, 0, 255, 0, 255, 0, 255, 0, 255, 0, 255, 0,
    ];
    assert!(rt; bits.as_slice() == rows);
    assert!(rt; pairs.as_slice() == [0, 85, 170, 255, 170, 85].as_slice());
    assert!(rt; halves.as_slice() == [0, 255, 136, 17, 34, 51].as_slice());
    assert!(rt; bytes.as_slice() == [0, 255, 128, 192].as_slice());
    Ok(())
}

#[test]
fn decode_turns_and_clamps(rt: HostRuntime) -> Result<(), Fail> {
    let alloc = rt.alloc();
    let turned = gray(alloc, 3, 8, 4, 0, &[0x00, 0xFF, 0x80], 2)?;
    let narrow = gray(alloc, 2, 1, 1, 2, &[0x40], 1)?;
    let wide = gray(alloc, 4, 4, -8, 12, &[0x67, 0x89], 1)?;
    assert!(rt; turned.as_slice() == [255, 0, 127].as_slice());
    assert!(rt; narrow.as_slice() == [64, 128].as_slice());
    assert!(rt; wide.as_slice() == [0, 85, 170, 255].as_slice());
    Ok(())
}

#[test]
fn channels_follow_one_another(rt: HostRuntime) -> Result<(), Fail> {
    let alloc = rt.alloc();
    let one = quarters(4);
    let none = quarters(0);
    let colours = Gather::new(alloc, 1, 2, 4, 3, &[none, one, none, one, one, none])?;
    let colours = codes(colours, &[0x12, 0x3F, 0x45, 0x6F], 3)?;
    let inks = [none, one, one, none, none, one, one, none];
    let inks = codes(
        Gather::new(alloc, 2, 1, 8, 4, &inks)?,
        &[1, 2, 3, 4, 5, 6, 7, 8],
        5,
    )?;
    assert!(rt; colours.as_slice() == [17, 34, 204, 68, 85, 153].as_slice());
    assert!(rt; inks.as_slice() == [1, 253, 3, 251, 5, 249, 7, 247].as_slice());
    Ok(())
}

#[test]
fn a_part_of_a_row_counts_for_nothing(rt: HostRuntime) -> Result<(), Fail> {
    let alloc = rt.alloc();
    let first: &[u8] = &[255, 0, 255, 0, 255, 0, 255, 0, 255];
    let cut = gray(alloc, 9, 1, 0, 4, &[0xAA, 0x80, 0x55], 1)?;
    assert!(rt; cut.as_slice() == first);
    let none = gray(alloc, 9, 1, 0, 4, &[0xAA], 1)?;
    assert!(rt; none.is_empty());
    Ok(())
}

#[test]
fn a_mask_paints_ones_or_zeros(rt: HostRuntime) -> Result<(), Fail> {
    let alloc = rt.alloc();
    let ones = codes(Gather::mask(alloc, 2, 1, true)?, &[0x80], 1)?;
    let zeros = codes(Gather::mask(alloc, 2, 1, false)?, &[0x80], 1)?;
    assert!(rt; ones.as_slice() == [255, 0].as_slice());
    assert!(rt; zeros.as_slice() == [0, 255].as_slice());
    Ok(())
}

#[test]
fn it_takes_what_it_lacks(rt: HostRuntime) -> Result<(), Fail> {
    let mut image = Gather::mask(rt.alloc(), 9, 2, true)?;
    let first = image.feed(&[1, 2, 3])?;
    let second = image.feed(&[4, 5, 6])?;
    let third = image.feed(&[7])?;
    assert!(rt; (first, second, third, image.done(), image.rows()) == (3, 1, 0, true, 2));
    Ok(())
}

#[test]
fn an_image_without_columns_takes_nothing(rt: HostRuntime) -> Result<(), Fail> {
    let mut image = Gather::mask(rt.alloc(), 0, 4_000_000_000, true)?;
    let taken = image.feed(&[1])?;
    assert!(rt; (taken, image.done(), image.rows()) == (0, true, 0));
    Ok(())
}
