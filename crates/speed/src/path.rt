//! How fast curves are flattened: ten thousand curves of 32 pieces, twenty times, or once.

ghost use Rattle.std.specs.Prelude.{◌≤◌};

use crate::{Size, no_memory};
use geo_path::{Path, PathFault, Polylines};
use page_model::point;
use std::alloc::Global;
use std::io;
use std::time::Instant;

const CURVES: u16 = 10_000;

fn add_curve(path: &mut Path, k: u16) -> Result<(), PathFault>
    requires { k ≤ 10000 }
{
    let k = i32::from(k);
    path.curve_to(
        point(100_000 + k, 3 * k),
        point(k, 150_000),
        point(150_000 - k, 150_000 - 2 * k),
    )
}

/// A path of curves, each of 400,000 to 700,000 sub-dots along its control points.
fn sample(alloc: Global) -> Result<Path, PathFault> {
    let mut path = Path::new(alloc);
    path.move_to(point(150_000, 150_000))?;
    for k in 0..CURVES {
        add_curve(&mut path, k)?;
    }
    Ok(path)
}

/// How many points there are, and a sum of their coordinates.
fn summed(lines: &Polylines) -> (u64, i64) {
    let mut count: u64 = 0;
    let mut sum: i64 = 0;
    for line in lines.items() {
        for p in line.points.items() {
            count = count.wrapping_add(1);
            sum = sum
                .wrapping_mul(31)
                .wrapping_add(p.x)
                .wrapping_add(p.y.wrapping_mul(7));
        }
    }
    (count, sum)
}

/// Prints the number of points and a sum of them, and the microseconds of a round.
pub(crate) fn run(rt: &HostRuntime, size: Size) -> io::Result<()> {
    let Ok(path) = sample(rt.alloc()) else {
        return Err(no_memory());
    };
    let rounds = size.rounds(20, 1);
    let start = Instant::now(rt)?;
    let mut last = Polylines::new(rt.alloc());
    for _ in 0..rounds {
        let Ok(lines) = path.flatten() else {
            return Err(no_memory());
        };
        last = lines;
    }
    let micros = start.elapsed(rt)?.as_micros() / u128::from(rounds.max(1));
    let (count, sum) = summed(&last);
    println!(rt; "path: {count} points, sum {sum}")?;
    eprintln!(rt; "path: {micros} us")?;
    Ok(())
}
