//! How fast dashed curves are outlined: ten thousand curves of 16 pieces, a thousand a path. Flattening isn't
//! timed.

ghost use Rattle.std.specs.Prelude.{◌≤◌};
ghost use Rattle.geo_stroke.specs.Pen.{IsDash};

use crate::no_memory;
use geo_path::{Path, PathFault, Polylines};
use geo_stroke::{Cap, Dashes, Join, Pen, outline};
use page_model::{Shape, Shapes, point};
use press_fault::Grow;
use press_nums::Fix;
use std::alloc::Global;
use std::io;
use std::time::Instant;

const PATHS: u16 = 10;

const CURVES: u16 = 1_000;

/// Adds a curve of 50,000 to 60,000 sub-dots along its control points.
fn add_curve(path: &mut Path, k: u16) -> Result<(), PathFault> {
    let k = i32::from(k);
    path.move_to(point(k, 0))?;
    path.curve_to(
        point(10_000 + k, k),
        point(k, 20_000),
        point(15_000 - k, 15_000 + 2 * k),
    )
}

/// A path of curves from the `first` on, as straight lines.
fn sample(alloc: Global, first: u16) -> Result<Polylines, PathFault>
    requires { first ≤ 9000 }
{
    let mut path = Path::new(alloc);
    for k in first..first + CURVES {
        add_curve(&mut path, k)?;
    }
    Ok(path.flatten()?)
}

/// A length of so many dots, in 1/65536 of a dot.
fn dots(n: u16) -> u64
    ensures { IsDash result }
{
    65536 * u64::from(n)
}

/// A pen two dots wide with miter joins and the dashes 6 3 1 3.
fn pen(alloc: Global, cap: Cap) -> Result<Pen, Grow> {
    let mut dashes = Dashes::new(alloc);
    for n in [6, 3, 1, 3] {
        dashes.push(dots(n))?;
    }
    Ok(Pen {
        half: 256,
        cap,
        join: Join::Miter,
        miter: Fix::of_int(10),
        dashes,
        offset: 0,
    })
}

/// How many shapes there are of each kind, and a sum of their coordinates.
#[derive(Clone, Copy)]
struct Sums {
    polygons: u64,
    discs: u64,
    sum: i64,
}

impl Sums {
    fn add_point(&mut self, x: i64, y: i64) {
        self.sum = self
            .sum
            .wrapping_mul(31)
            .wrapping_add(x)
            .wrapping_add(y.wrapping_mul(7));
    }

    fn add(&mut self, shape: &Shape) {
        match shape {
            Shape::Poly(rings) => {
                self.polygons = self.polygons.wrapping_add(1);
                for ring in rings.items() {
                    for p in ring.items() {
                        self.add_point(p.x, p.y);
                    }
                }
            }
            Shape::Disc(disc) => {
                self.discs = self.discs.wrapping_add(1);
                self.add_point(disc.x, disc.y);
                self.sum = self.sum.wrapping_add(disc.r as i64);
            }
        }
    }

    fn add_all(&mut self, shapes: &Shapes) {
        for shape in shapes.items() {
            self.add(shape);
        }
    }
}

/// Every other path has round caps, the others square ones.
fn cap_of(path: u16) -> Cap {
    if path % 2 == 0 {
        Cap::Round
    } else {
        Cap::Square
    }
}

/// Prints the numbers of polygons and discs and a sum of their coordinates, and the microseconds of all
/// outlines.
pub(crate) fn run(rt: &HostRuntime) -> io::Result<()> {
    let alloc = rt.alloc();
    let mut sums = Sums {
        polygons: 0,
        discs: 0,
        sum: 0,
    };
    let mut micros: u128 = 0;
    for path in 0..PATHS {
        let (Ok(lines), Ok(pen)) = (sample(alloc, path * CURVES), pen(alloc, cap_of(path))) else {
            return Err(no_memory());
        };
        let start = Instant::now(rt)?;
        let Ok(shapes) = outline(alloc, &lines, &pen) else {
            return Err(no_memory());
        };
        micros = micros.saturating_add(start.elapsed(rt)?.as_micros());
        sums.add_all(&shapes);
    }
    let Sums {
        polygons,
        discs,
        sum,
    } = sums;
    println!(rt; "stroke: {polygons} polygons, {discs} discs, sum {sum}")?;
    eprintln!(rt; "stroke: {micros} us")?;
    Ok(())
}
