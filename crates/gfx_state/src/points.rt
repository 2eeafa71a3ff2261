//! The points of rings and of shapes.
ghost use Rattle.std.specs.Prelude.{◌≡◌, ◌≤◌, ◌<◌, ◌+◌, ◌^◌, MatchOption};
ghost use Rattle.gfx_state.specs.Points.{ring_points, shape_points, all_points};

use page_model::{Rings, Shape, Shapes};

/// The points of rings; `None` exactly where there are more than `most`.
pub(crate) fn points_up_to(rings: &Rings, most: u64) -> Option<u64>
    requires { most ≤ 4194304 }
    ensures { MatchOption result (most < ring_points rings.now) (λ n. (n ≡ ring_points rings.now) × (n ≤ most)) }
{
    let mut count = 0;
    for ring in rings.items() {
        let len = ring.items().len() as u64;
        if most - count < len {
            return None;
        }
        count += len;
    }
    Some(count)
}

/// The points of shapes; `None` exactly where there are more than `most`.
pub(crate) fn shape_points_up_to(shapes: &Shapes, most: u64) -> Option<u64>
    requires { most ≤ 4194304 }
    ensures { MatchOption result (most < all_points shapes.now) (λ n. (n ≡ all_points shapes.now) × (n ≤ most)) }
{
    let mut count = 0;
    for shape in shapes.items() {
        count += points_of(shape, most - count)?;
    }
    Some(count)
}

/// The points of a shape; `None` exactly where there are more than `most`.
fn points_of(shape: &Shape, most: u64) -> Option<u64>
    requires { most ≤ 4194304 }
    ensures { MatchOption result (most < shape_points shape.now) (λ n. (n ≡ shape_points shape.now) × (n ≤ most)) }
{
    match shape {
        Shape::Poly(rings) => points_up_to(rings, most),
        Shape::Disc(_) => { if most == 0 { None } else { Some(1) } }
    }
}
