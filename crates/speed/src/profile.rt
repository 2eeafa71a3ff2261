//! How fast profiles are read from their bytes.
//!
//! Standard output has a line for each case: the bytes of the profile, and what was read. Standard
//! error has the nanoseconds that the fastest of several readings took.
ghost use Rattle.std.specs.Prelude.{◌≤◌, length};

use crate::no_memory;
use icc_model::Profile;
use icc_read::read_profile;
use press_fault::{Mem, NoMemory};
use std::alloc::Global;
use std::io;
use std::io::ErrorKind;
use std::time::Instant;

/// How often each profile is read.
const READINGS: u32 = 9;

/// A tag: its signature, and the place and the length of its bytes.
type Entry = ([u8; 4], u32, u32);

fn put(to: &mut Vec<u8>, bytes: &[u8]) -> Mem<()> {
    Ok(to.extend_from_slice(bytes)?)
}

fn put_number(to: &mut Vec<u8>, n: u32) -> Mem<()> {
    put(to, n.to_be_bytes().as_slice())
}

/// A header of so many bytes, and a tag table.
fn start(alloc: Global, size: u32, space: [u8; 4], entries: &[Entry]) -> Mem<Vec<u8>>
    requires { length entries.now ≤ 256 }
{
    let mut bytes = Vec::with_capacity(alloc, size as usize)?;
    put_number(&mut bytes, size)?;
    put(&mut bytes, b"\0\0\0\0\x04\x20\0\0mntr")?;
    put(&mut bytes, space.as_slice())?;
    put(&mut bytes, b"XYZ \0\0\0\0\0\0\0\0\0\0\0\0acsp")?;
    for _ in 0..22u32 {
        put_number(&mut bytes, 0)?;
    }
    put_number(&mut bytes, entries.len() as u32)?;
    for (signature, offset, length) in entries {
        put(&mut bytes, signature.as_slice())?;
        put_number(&mut bytes, *offset)?;
        put_number(&mut bytes, *length)?;
    }
    Ok(bytes)
}

/// RGB by a lut of 42 grid points and of tables of 4,096 entries: 493 KB.
fn of_lut(alloc: Global) -> Mem<Vec<u8>> {
    let values = 3 * 4096 + 42 * 42 * 42 * 3 + 3 * 4096;
    let length = 52 + 2 * values;
    let mut bytes = start(alloc, 144 + length, *b"RGB ", &[(*b"A2B0", 144, length)])?;
    put(&mut bytes, b"mft2\0\0\0\0\x03\x03\x2a\0")?;
    for _ in 0..9u32 {
        put_number(&mut bytes, 0)?;
    }
    put(&mut bytes, b"\x10\0\x10\0")?;
    for k in 0..values {
        put(
            &mut bytes,
            ((k.wrapping_mul(0x9e37_79b1) >> 16) as u16)
                .to_be_bytes()
                .as_slice(),
        )?;
    }
    Ok(bytes)
}

/// RGB by a matrix with a curve of this tag for all three.
fn of_curve(alloc: Global, curve: &[u8]) -> Mem<Vec<u8>>
    requires { length curve.now ≤ 256 }
{
    let length = curve.len() as u32;
    let entries = [
        (*b"rXYZ", 204, 20),
        (*b"gXYZ", 204, 20),
        (*b"bXYZ", 204, 20),
        (*b"rTRC", 224, length),
        (*b"gTRC", 224, length),
        (*b"bTRC", 224, length),
    ];
    let mut bytes = start(alloc, 224 + length, *b"RGB ", &entries)?;
    put(&mut bytes, b"XYZ \0\0\0\0\0\x01\0\0\0\0\0\0\0\0\0\0")?;
    put(&mut bytes, curve)?;
    Ok(bytes)
}

/// Reads a profile once; the nanoseconds that it took.
fn timed(rt: &HostRuntime, bytes: &[u8]) -> io::Result<(Profile, u128)> {
    let bytes = Vec::from_slice(rt.alloc(), bytes)?;
    let begin = Instant::now(rt)?;
    let read = read_profile(rt.alloc(), bytes);
    let time = begin.elapsed(rt)?;
    match read {
        Ok(profile) => Ok((profile, time.as_nanos())),
        Err(_) => Err(io::Error::from(ErrorKind::InvalidData)),
    }
}

fn case(rt: &HostRuntime, name: &str, bytes: &[u8]) -> io::Result<()> {
    let (profile, mut least) = timed(rt, bytes)?;
    for _ in 0..READINGS {
        let (_, time) = timed(rt, bytes)?;
        if time < least {
            least = time;
        }
    }
    println!(rt;
        "{name}: {} bytes, {} channels",
        bytes.len(),
        profile.channels()
    )?;
    eprintln!(rt; "{name}: {least} ns")
}

fn of_memory(_: NoMemory) -> io::Error {
    no_memory()
}

/// The curve of sRGB: `para`, function type 3.
const SRGB: &[u8] =
    b"para\0\0\0\0\0\x03\0\0\0\x02\x66\x66\0\0\xf2\xa7\0\0\x0d\x59\0\0\x13\xd0\0\0\x0a\x5b";

/// The exponent 2.2.
const GAMMA: &[u8] = b"curv\0\0\0\0\0\0\0\x01\x02\x33";

/// Prints what was read.
pub(crate) fn run(rt: &HostRuntime) -> io::Result<()> {
    let lut = of_lut(rt.alloc()).map_err(of_memory)?;
    let srgb = of_curve(rt.alloc(), SRGB).map_err(of_memory)?;
    let gamma = of_curve(rt.alloc(), GAMMA).map_err(of_memory)?;
    case(rt, "lut", &lut)?;
    case(rt, "three times the curve of sRGB", &srgb)?;
    case(rt, "three times an exponent", &gamma)
}
