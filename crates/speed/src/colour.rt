//! How fast colours go through two profiles, 200,000 of each kind, straight through both and by a link: how many,
//! and a sum of them; the nanoseconds that they took.

ghost use Rattle.std.specs.Prelude.{◌≡◌, ◌⊎◌, IsTrue};
ghost use Rattle.icc_model.specs.Direct.{can_receive};

use crate::profiles::{Words, of_lattice, of_matrix};
use crate::{link, no_memory};
use icc_model::{Intent, Profile, direct};
use press_fault::{Code, Mem};
use std::alloc::Global;
use std::io;
use std::io::ErrorKind;
use std::sync::Arc;
use std::time::Instant;

/// The red, the green and the blue column of sRGB, adapted to D50, in 1/65536.
const SRGB: [i32; 9] = [28579, 14582, 913, 25236, 46981, 6364, 9377, 3973, 46804];

/// The same of Adobe RGB (1998).
const ADOBE: [i32; 9] = [39960, 20389, 1276, 13453, 41004, 3989, 9777, 4143, 48796];

/// Four bytes; a code of three channels leaves the last.
pub(crate) type Bytes = [u8; 4];

fn codes_of(alloc: Global, words: &mut Words) -> Mem<Vec<Bytes>> {
    let mut codes = Vec::new(alloc);
    for _ in 0..200_000u32 {
        codes.push([words.byte(), words.byte(), words.byte(), words.byte()])?;
    }
    Ok(codes)
}

pub(crate) fn code_of(channels: u8, bytes: Bytes) -> Code
    requires { (channels ≡ 1) ⊎ (channels ≡ 3) ⊎ (channels ≡ 4) }
    ensures { result.n ≡ channels }
{
    let [first, second, third, _] = bytes;
    match channels {
        1 => Code::gray(first),
        3 => Code::rgb(first, second, third),
        _ => Code { n: 4, c: bytes },
    }
}

/// A sum of colours that tells their order.
pub(crate) fn added(sum: u64, colour: [u8; 3]) -> u64 {
    let [red, green, blue] = colour;
    sum.wrapping_mul(31)
        .wrapping_add(u64::from(red))
        .wrapping_add(u64::from(green) * 256)
        .wrapping_add(u64::from(blue) * 65536)
}

/// The sum of the colours of all codes.
fn sum_of(source: &Profile, target: &Profile, codes: &[Bytes]) -> u64
    requires { IsTrue (can_receive target.now Intent.Relative) }
{
    let channels = source.channels();
    let mut sum = 0;
    for bytes in codes {
        let code = code_of(channels, *bytes);
        sum = added(sum, direct(source, target, Intent::Relative, code));
    }
    sum
}

fn case(
    rt: &HostRuntime,
    name: &str,
    source: &Profile,
    target: &Profile,
    codes: &[Bytes],
) -> io::Result<()> {
    if !target.can_receive(Intent::Relative) {
        return Err(io::Error::from(ErrorKind::InvalidInput));
    }
    let start = Instant::now(rt)?;
    let sum = sum_of(source, target, codes);
    let time = start.elapsed(rt)?;
    println!(rt; "colour, {name}: {} colours, sum {sum}", codes.len())?;
    eprintln!(rt; "colour, {name}: {} ns", time.as_nanos())?;
    Ok(())
}

/// All that the cases need: codes, a source for each, and their target.
#[derive(Drop)]
struct Setting {
    codes: Vec<Bytes>,
    matrix: Arc<Profile>,
    lattice: Arc<Profile>,
    target: Arc<Profile>,
}

fn prepared(alloc: Global) -> Mem<Setting> {
    let mut words = Words::new();
    Ok(Setting {
        matrix: Arc::new(alloc, of_matrix(alloc, SRGB)?)?,
        lattice: Arc::new(alloc, of_lattice(alloc, &mut words)?)?,
        target: Arc::new(alloc, of_matrix(alloc, ADOBE)?)?,
        codes: codes_of(alloc, &mut words)?,
    })
}

/// Colours straight through two profiles, and by their link.
fn both(
    rt: &HostRuntime,
    name: &str,
    source: &Arc<Profile>,
    target: &Arc<Profile>,
    codes: &[Bytes],
) -> io::Result<()> {
    case(rt, name, source, target, codes)?;
    link::case(rt, name, source, target, codes)
}

pub(crate) fn run(rt: &HostRuntime) -> io::Result<()> {
    let Ok(s) = prepared(rt.alloc()) else {
        return Err(no_memory());
    };
    both(rt, "matrix to matrix", &s.matrix, &s.target, &s.codes)?;
    both(rt, "lattice to matrix", &s.lattice, &s.target, &s.codes)
}
