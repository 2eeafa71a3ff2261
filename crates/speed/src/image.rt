//! How fast the data of images are read, and the samples of a row's dots found.
//!
//! Standard output has a line for each case: how many dots or codes, and a sum of them. Standard
//! error has the nanoseconds that they took.
ghost use Rattle.std.specs.Prelude.{◌≡◌, ◌≤◌, ◌<◌, ◌+◌, vec_len};

use crate::no_memory;
use img_map::{Pick, row_samples};
use img_samples::Gather;
use page_model::{Bytes, Image, ImageMap};
use press_fault::Mem;
use press_nums::{Fix, Wide};
use std::alloc::Global;
use std::io;
use std::time::Instant;

/// How many rows of the page are mapped.
const ROWS: u32 = 200;

/// How many columns and rows of samples the image has.
const SIDE: u32 = 4096;

/// An image whose rows of 16,384 dots all lie inside, turned by about 30 degrees.
fn turned_image(alloc: Global) -> Mem<Image> {
    let map = ImageMap {
        a: Wide::of(14 * 0x100_0000_0000),
        b: Wide::of(-8 * 0x100_0000_0000),
        c: Wide::of(8 * 0x100_0000_0000),
        d: Wide::of(14 * 0x100_0000_0000),
        tx: Wide::of(12_345),
        ty: Wide::of(500_000 * 0x100_0000_0000),
        den: Wide::of(131 * 0x100_0000_0000),
    };
    let codes = vec![in alloc; 0u8; 4096 * 4096]?;
    Ok(Image {
        width: SIDE,
        rows: SIDE,
        channels: 1,
        source: None,
        codes: Bytes::from_vec(codes),
        map,
        low: 0,
        high: 0x1_0000_0000,
    })
}

/// A sum of samples that tells their order.
fn sum_of_picks(start: u64, picks: &[Pick]) -> u64 {
    let mut sum = start;
    for pick in picks {
        let number = match pick {
            Pick::Outside => 4_294_967_295,
            Pick::At(number) => u64::from(*number),
        };
        sum = sum.wrapping_mul(31).wrapping_add(number);
    }
    sum
}

/// A sum of codes that tells their order.
fn sum_of_codes(codes: &[u8]) -> u64 {
    let mut sum = 0u64;
    for code in codes {
        sum = sum.wrapping_mul(31).wrapping_add(u64::from(*code));
    }
    sum
}

/// Prints what a case found, and the time that it took.
fn print(rt: &HostRuntime, name: &str, count: usize, sum: u64, nanos: u128) -> io::Result<()> {
    println!(rt; "{name}: {count}, sum {sum}")?;
    eprintln!(rt; "{name}: {nanos} ns")?;
    Ok(())
}

/// The samples of rows of 16,384 dots.
fn map_rows(rt: &HostRuntime, image: &Image, picks: &mut Vec<Pick>) -> io::Result<()>
    requires { vec_len picks.old ≤ 16384 }
{
    let mut sum = 0;
    let mut nanos = 0u128;
    for row in 0..ROWS {
        let start = Instant::now(rt)?;
        row_samples(image, row, 0, picks);
        nanos = nanos.wrapping_add(start.elapsed(rt)?.as_nanos());
        sum = sum_of_picks(sum, picks);
    }
    print(rt, "row samples", picks.len(), sum, nanos)
}

/// Feeds an image the same piece of data again and again, and prints the sum of its codes.
fn feed(rt: &HostRuntime, name: &str, gather: Gather, piece: &[u8], times: u32) -> io::Result<()> {
    let mut gather = gather;
    let start = Instant::now(rt)?;
    for _time in 0..times {
        if gather.feed(piece).is_err() {
            return Err(no_memory());
        }
    }
    let nanos = start.elapsed(rt)?.as_nanos();
    let codes = gather.finish();
    let codes = codes.items();
    print(rt, name, codes.len(), sum_of_codes(codes), nanos)
}

/// Bytes of a generator.
fn bytes(alloc: Global, count: u32) -> Mem<Vec<u8>> {
    let mut bytes = Vec::new(alloc);
    let mut state = 1u64;
    for _byte in 0..count {
        state = state
            .wrapping_mul(6364136223846793005)
            .wrapping_add(1442695040888963407);
        bytes.push((state >> 56) as u8)?;
    }
    Ok(bytes)
}

/// All that the cases need.
#[derive(Drop)]
struct Setting {
    image: Image,
    picks: Vec<Pick>,
    piece: Vec<u8>,
    bytes: Gather,
    mask: Gather,
    ghost few: { vec_len picks ≤ 16384 },
}

fn prepared(alloc: Global) -> Mem<Setting> {
    let decode = [Fix::of_int(0), Fix::of_int(1)];
    Ok(Setting {
        image: turned_image(alloc)?,
        picks: vec![in alloc; Pick::Outside; 16384]?,
        piece: bytes(alloc, 65536)?,
        bytes: Gather::new(alloc, SIDE, SIDE, 8, 1, &decode)?,
        mask: Gather::mask(alloc, SIDE, SIDE, true)?,
    })
}

/// Prints what each case found.
pub(crate) fn run(rt: &HostRuntime) -> io::Result<()> {
    let Ok(setting) = prepared(rt.alloc()) else {
        return Err(no_memory());
    };
    let Setting {
        image,
        mut picks,
        piece,
        bytes,
        mask,
    } = setting;
    map_rows(rt, &image, &mut picks)?;
    feed(rt, "bytes", bytes, &piece, 256)?;
    feed(rt, "mask", mask, &piece, 32)
}
