//! Laws of the definitions, which later layers rest on.
//!
//! Each is the contract of a function that does nothing.
ghost use Rattle.std.specs.Prelude.{◌≡◌, ◌≤◌, ◌<◌, unsigned_abs, ℕ, ℤ, pos, neg_ℤ, ◌+ℤ◌, ◌<ℤ◌, int_le, int_lt, nat_lt};
ghost use Rattle.std.specs.Prelude.{length, List, [], ◌∷◌, ◌++◌, IsTrue};
ghost use Rattle.std.specs.List.{list_any, flat_map, range_with_len};
ghost use Rattle.press_fault.specs.Plane.{PointValue, CodeValue};
ghost use Rattle.page_model.specs.Marking.{MarkValue};
ghost use Rattle.page_model.specs.Inside.{centre, turn_of, ring_winding, rings_hold};
ghost use Rattle.page_model.specs.Cover.{covers_dot};
ghost use Rattle.page_model.specs.Reach.{reaches, IsReach};
ghost use Rattle.page_model.specs.Sample.{floor_quotient};
ghost use Rattle.page_model.specs.Laws.{IsFloor, GoOneWay};
ghost use Rattle.page_model.specs.Pages.{dots_text, band_text, band_count};
ghost use Rattle.page_model.specs.declared.shape.Rule.{Rule};
ghost use Rattle.page_model.specs.declared.page.Depth.{Depth};

use crate::{Depth, Rule};

/// A mark covers no dot outside the rows that it reaches.
pub fn covered_dots_are_reached()
    ensures reaches { (mark : MarkValue) (row col : ℕ) → IsTrue (covers_dot row col mark) → IsTrue (reaches mark row) }
    ensures rows { (mark : MarkValue) (height first end row col : ℕ) → IsReach mark height first end → row < height →
        IsTrue (covers_dot row col mark) → (first ≤ row) × (row < end) }
{}

/// Rings hold no centre of a dot outside their bounding columns and rows.
///
/// Where they hold one, a point lies at or left of it and one right of it, one at or above it and
/// one at or below it.
pub fn rings_hold_within_bounds()
    ensures left { (rule : Rule) (rings : List (List PointValue)) (row col : ℕ) →
        IsTrue (rings_hold rule rings row col) →
        IsTrue (list_any (list_any (λ (p : PointValue). int_le p.x (centre col))) rings) }
    ensures right { (rule : Rule) (rings : List (List PointValue)) (row col : ℕ) →
        IsTrue (rings_hold rule rings row col) →
        IsTrue (list_any (list_any (λ (p : PointValue). int_lt (centre col) p.x)) rings) }
    ensures above { (rule : Rule) (rings : List (List PointValue)) (row col : ℕ) →
        IsTrue (rings_hold rule rings row col) →
        IsTrue (list_any (list_any (λ (p : PointValue). int_le p.y (centre row))) rings) }
    ensures below { (rule : Rule) (rings : List (List PointValue)) (row col : ℕ) →
        IsTrue (rings_hold rule rings row col) →
        IsTrue (list_any (list_any (λ (p : PointValue). int_le (centre row) p.y)) rings) }
{}

/// Rings that hold a centre have a ring of at least three points; so a region without edges, or
/// with single points and segments alone, holds nothing.
pub fn short_rings_hold_nothing()
    ensures { (rule : Rule) (rings : List (List PointValue)) (row col : ℕ) → IsTrue (rings_hold rule rings row col) →
        IsTrue (list_any (λ ring. nat_lt 2 (length ring)) rings) }
{}

/// An edge counts the opposite of the same edge turned round, at every point.
pub fn turned_edges_cancel()
    ensures { (px py : ℤ) (p q : PointValue) → turn_of px py (q, p) ≡ neg_ℤ (turn_of px py (p, q)) }
{}

/// Two polygons that share an edge, in opposite directions, share no centre of a dot on it.
///
/// `sum`: at every point their winding numbers add up to that of the ring round both, which goes
/// from b by the rest of the one to a, and by the rest of the other back to b. So where that ring
/// goes round a centre at most once, and the two don't go round it in opposite ways, at most one
/// of them holds it, also where it lies on the edge (`nonzero`). By the even-odd rule both hold it
/// only where the ring round both doesn't (`even_odd`).
pub fn shared_edges_paint_once()
    ensures sum { (px py : ℤ) (a b : PointValue) (ps qs : List PointValue) →
        ring_winding px py (a ∷ b ∷ ps) +ℤ ring_winding px py (b ∷ a ∷ qs) ≡ ring_winding px py ((b ∷ ps) ++ (a ∷ qs)) }
    ensures nonzero { (row col : ℕ) (a b : PointValue) (ps qs : List PointValue) →
        GoOneWay (ring_winding (centre col) (centre row) (a ∷ b ∷ ps))
        (ring_winding (centre col) (centre row) (b ∷ a ∷ qs)) →
        unsigned_abs (ring_winding (centre col) (centre row) ((b ∷ ps) ++ (a ∷ qs))) ≤ 1 →
        IsTrue (rings_hold Rule.Nonzero ((a ∷ b ∷ ps) ∷ []) row col) →
        IsTrue (rings_hold Rule.Nonzero ((b ∷ a ∷ qs) ∷ []) row col) → ⊥ }
    ensures even_odd { (row col : ℕ) (a b : PointValue) (ps qs : List PointValue) →
        IsTrue (rings_hold Rule.EvenOdd ((a ∷ b ∷ ps) ∷ []) row col) →
        IsTrue (rings_hold Rule.EvenOdd ((b ∷ a ∷ qs) ∷ []) row col) →
        IsTrue (rings_hold Rule.EvenOdd (((b ∷ ps) ++ (a ∷ qs)) ∷ []) row col) → ⊥ }
{}

/// The quotient of the map from dots to samples is rounded down, also below 0.
pub fn samples_are_floors()
    ensures { (n d : ℤ) → pos 0 <ℤ d → IsFloor n d (floor_quotient n d) }
{}

/// The bands of a page, one after another from the top, are its dots, at either depth.
pub fn bands_are_the_page()
    ensures { (depth : Depth) (tint : ℕ → CodeValue → List ℕ) (width height band_rows : ℕ) (marks : List MarkValue) →
        0 < band_rows →
        flat_map (band_text depth tint width height band_rows marks) (range_with_len 0 (band_count height band_rows))
        ≡ dots_text depth tint width height marks }
{}
