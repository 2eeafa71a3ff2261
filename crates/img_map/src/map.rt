//! The map from dots to samples.
ghost use Rattle.std.specs.Prelude.{◌≡◌, ◌<◌, ◌^◌, ◌*◌, ◌↔◌, IsTrue, ℤ, pos, unsigned_abs, ◌<ℤ◌, ◌-ℤ◌, ◌*ℤ◌};
ghost use Rattle.geo_matrix.specs.Affine.{det_of};
ghost use Rattle.img_map.specs.Map.{IsSmall, is_small, is_small_element, exact_map_of, turned, image_map_of};

use geo_matrix::Matrix;
use page_model::ImageMap;
use press_nums::{Fix, Wide};

/// The map from dots to samples, of a current matrix with a determinant other than 0 and an image
/// matrix (PostScript Language Reference, third edition, 4.10 Images). Each element of both is
/// below 2^20.
#[tactic(auto, unfolding(crate::specs::Map::image_map_of))]
pub fn image_map(m: &Matrix, image: &Matrix) -> ImageMap
    requires some { 0 < unsigned_abs (det_of m.now) }
    requires m { IsSmall m.now }
    requires image { IsSmall image.now }
    ensures { result ≡ image_map_of m.now image.now }
{
    let det = minor(m.a, m.d, m.b, m.c);
    if det.is_below(Wide::ZERO) {
        turned_map(m, image, det)
    } else {
        exact_map(m, image, det)
    }
}

/// Whether each element of a matrix is so small that an image may have it: below 2^20.
pub fn is_small(m: &Matrix) -> bool
    ensures value { result ≡ is_small m.now }
    ensures small { IsTrue result ↔ IsSmall m.now }
{
    is_small_element(m.a)
        && is_small_element(m.b)
        && is_small_element(m.c)
        && is_small_element(m.d)
        && is_small_element(m.tx)
        && is_small_element(m.ty)
}

fn is_small_element(element: Fix) -> bool
    ensures value { result ≡ is_small_element element }
    ensures small { IsTrue result ↔ (unsigned_abs element < 2 ^ 36) }
{
    element.wide().size() < 0x10_0000_0000
}

/// The map where the determinant is positive.
fn exact_map(m: &Matrix, image: &Matrix, det: Wide) -> ImageMap
    requires m { IsSmall m.now }
    requires image { IsSmall image.now }
    requires det { det ≡ det_of m.now }
    requires size { unsigned_abs det < 2 ^ 73 }
    requires positive { pos 0 <ℤ det }
    ensures { result ≡ exact_map_of m.now image.now }
{
    let x_by_x = minor(image.a, m.d, image.c, m.b);
    let x_by_y = minor(image.c, m.a, image.a, m.c);
    let y_by_x = minor(image.b, m.d, image.d, m.b);
    let y_by_y = minor(image.d, m.a, image.b, m.c);
    ImageMap {
        a: coefficient(x_by_x),
        b: coefficient(y_by_x),
        c: coefficient(x_by_y),
        d: coefficient(y_by_y),
        tx: offset(image.tx, det, x_by_x, m.tx, x_by_y, m.ty),
        ty: offset(image.ty, det, y_by_x, m.tx, y_by_y, m.ty),
        den: denominator(det),
    }
}

/// The map where the determinant is negative.
fn turned_map(m: &Matrix, image: &Matrix, det: Wide) -> ImageMap
    requires m { IsSmall m.now }
    requires image { IsSmall image.now }
    requires det { det ≡ det_of m.now }
    requires size { unsigned_abs det < 2 ^ 73 }
    requires negative { det <ℤ pos 0 }
    ensures { result ≡ turned (exact_map_of m.now image.now) }
{
    let x_by_x = minor(image.a, m.d, image.c, m.b);
    let x_by_y = minor(image.c, m.a, image.a, m.c);
    let y_by_x = minor(image.b, m.d, image.d, m.b);
    let y_by_y = minor(image.d, m.a, image.b, m.c);
    ImageMap {
        a: coefficient(x_by_x).negated(),
        b: coefficient(y_by_x).negated(),
        c: coefficient(x_by_y).negated(),
        d: coefficient(y_by_y).negated(),
        tx: offset(image.tx, det, x_by_x, m.tx, x_by_y, m.ty).negated(),
        ty: offset(image.ty, det, y_by_x, m.tx, y_by_y, m.ty).negated(),
        den: denominator(det).negated(),
    }
}

/// The difference of two products of elements.
fn minor(p: Fix, q: Fix, r: Fix, s: Fix) -> Wide
    requires p { unsigned_abs p < 2 ^ 36 }
    requires q { unsigned_abs q < 2 ^ 36 }
    requires r { unsigned_abs r < 2 ^ 36 }
    requires s { unsigned_abs s < 2 ^ 36 }
    ensures value { result ≡ p *ℤ q -ℤ r *ℤ s }
    ensures bound { unsigned_abs result < 2 ^ 73 }
{
    element_product(p, q) - element_product(r, s)
}

fn element_product(p: Fix, q: Fix) -> Wide
    requires p { unsigned_abs p < 2 ^ 36 }
    requires q { unsigned_abs q < 2 ^ 36 }
    ensures value { result ≡ p *ℤ q }
    ensures bound { unsigned_abs result < 2 ^ 72 }
{
    p.wide() * q.wide()
}

/// What a coordinate of the samples grows by with half a dot.
fn coefficient(minor: Wide) -> Wide
    requires { unsigned_abs minor < 2 ^ 73 }
    ensures value { result ≡ minor *ℤ pos 32768 }
    ensures bound { unsigned_abs result < 2 ^ 88 }
{
    minor.times(32768)
}

fn denominator(det: Wide) -> Wide
    requires { unsigned_abs det < 2 ^ 73 }
    ensures value { result ≡ det *ℤ pos 65536 }
    ensures bound { unsigned_abs result < 2 ^ 89 }
{
    det.times(65536)
}

/// A coordinate of the samples at the page's corner.
fn offset(t: Fix, det: Wide, by_x: Wide, tx: Fix, by_y: Wide, ty: Fix) -> Wide
    requires t { unsigned_abs t < 2 ^ 36 }
    requires det { unsigned_abs det < 2 ^ 73 }
    requires by_x { unsigned_abs by_x < 2 ^ 73 }
    requires tx { unsigned_abs tx < 2 ^ 36 }
    requires by_y { unsigned_abs by_y < 2 ^ 73 }
    requires ty { unsigned_abs ty < 2 ^ 36 }
    ensures value { result ≡ t *ℤ det -ℤ by_x *ℤ tx -ℤ by_y *ℤ ty }
    ensures bound { unsigned_abs result < 2 ^ 111 }
{
    let start = long_product(t.wide(), det);
    start - long_product(by_x, tx.wide()) - long_product(by_y, ty.wide())
}

fn long_product(p: Wide, q: Wide) -> Wide
    requires { unsigned_abs p * unsigned_abs q < 2 ^ 109 }
    ensures value { result ≡ p *ℤ q }
    ensures bound { unsigned_abs result < 2 ^ 109 }
{
    p * q
}
