//! The samples of a row's dots.
ghost use Rattle.std.specs.Prelude.{◌≡◌, ◌+◌, ◌*◌, ◌<◌, ◌≤◌, ◌^◌, ◌⊎◌, ℕ, length, slice_index_or, Some, pos};
ghost use Rattle.std.specs.Prelude.{◌<ℤ◌, ◌≤ℤ◌};
ghost use Rattle.page_model.specs.Sample.{is_in_extent, sample_of, place_of};
ghost use Rattle.img_map.specs.declared.row.Pick.TheVariants.{Outside as NoSample};
ghost use Rattle.img_map.specs.Picks.{picked, HaveSamples};
ghost use Rattle.img_map.specs.Code.Carried.{sample_in, IsPlace};
ghost use Rattle.img_map.specs.Code.Runs.{IsInside};

use crate::carried::{across_at, across_step, down_at, down_step, next_at};
use crate::run::{Run, run_inside, see_image};
use page_model::{Image, centre_of};
use press_nums::{FloorDivision, Wide};

/// Which sample a dot has.
#[derive(Clone, Copy, Debug, PartialEq, Eq)]
pub enum Pick {
    /// None: its centre lies outside the image.
    Outside,
    /// The one of this number, counted row by row from 0.
    At(u32),
}

/// The samples of the dots of a row of the page, from the column `from` on, as many as there is
/// room for.
///
/// One division a coordinate is made, at the first dot inside the image, and carried from there
/// from dot to dot; a dot outside takes no more than to write that down.
pub fn row_samples(image: &Image, row: u32, from: u32, out: &mut [Pick])
    requires { from + length out.old ≤ 2 ^ 32 }
    ensures { HaveSamples image.now row from out.new }
{
    out.fill(Pick::Outside);
    if !is_in_extent(image, row) {
        return;
    }
    let run = run_inside(image, row, from, out.len());
    pick_run(image, row, from, &run, out);
}

/// Whether the centre of a page's row lies between the heights of the image.
fn is_in_extent(image: &Image, row: u32) -> bool
    ensures { result ≡ is_in_extent image.now row }
{
    Wide::of(image.low).is_at_most(centre_of(row))
        && centre_of(row).is_at_most(Wide::of(image.high))
}

/// Picks the samples of the dots of a run, which lie inside the image.
fn pick_run(image: &Image, row: u32, from: u32, run: &Run, out: &mut [Pick])
    requires inside { IsInside image.now row from (length out.old) run.now }
    requires numbered { from + length out.old ≤ 2 ^ 32 }
    ensures inside { (k : ℕ) → run.now.first ≤ k → k < run.now.end →
        picked (slice_index_or out.new k NoSample) ≡ sample_in image.now row (from + k) }
    ensures beside { (k : ℕ) → (k < run.now.first) ⊎ (run.now.end ≤ k) →
        slice_index_or out.new k NoSample ≡ slice_index_or out.old k NoSample }
{
    if run.first >= run.end {
        return;
    }
    see_image(image);
    let across = across_step(image);
    let down = down_step(image);
    let mut u = across_at(image, row, from + run.first as u32);
    let mut v = down_at(image, row, from + run.first as u32);
    for k in run.first..run.end {
        out[k] = Pick::At(sample_number(image, &u, &v));
        u = next_at(image, &u, &across);
        v = next_at(image, &v, &down);
    }
}

/// The number of the sample in a column and a row of the image, counted row by row from 0.
fn sample_number(image: &Image, u: &FloorDivision, v: &FloorDivision) -> u32
    requires column { IsPlace image.now.width u.now.quotient }
    requires row { IsPlace image.now.rows v.now.quotient }
    ensures { sample_of image.now.width (place_of image.now.width u.now.quotient)
        (place_of image.now.rows v.now.quotient) ≡ Some result }
{
    see_image(image);
    number_of(image, place(u.quotient), place(v.quotient))
}

/// A number that is one of so many places.
fn place(n: Wide) -> u32
    requires low { pos 0 ≤ℤ n }
    requires high { n <ℤ pos (2 ^ 32) }
    ensures { pos result ≡ n }
{
    n.size() as u32
}

/// The number of the sample in a column and a row.
#[tactic(auto, using(page_model::proofs::Samples::is_below_all, page_model::proofs::Samples::is_at_most_all))]
fn number_of(image: &Image, u: u32, v: u32) -> u32
    requires column { u < image.now.width }
    requires row { v < image.now.rows }
    ensures { result ≡ image.now.width * v + u }
{
    image.width * v + u
}
