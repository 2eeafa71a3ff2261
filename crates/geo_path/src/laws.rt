//! Laws of the definitions: functions without code, whose contracts are the laws.
ghost use Rattle.std.specs.Prelude.{◌≡◌, ◌≤◌, ◌<◌, ℕ, ℤ, pos, ◌*ℤ◌, Bool, false, List, ◌∷◌, ◌++◌, map, slice_get, None};
ghost use Rattle.std.specs.Prelude.{Some};
ghost use Rattle.std.specs.List.{All, count_by, last_or};
ghost use Rattle.press_fault.specs.Plane.{PointValue};
ghost use Rattle.press_nums.specs.Fix.{IsFix};
ghost use Rattle.geo_path.specs.Path.{SubpathValue, PathValue, subpaths_of, end_from, continued};
ghost use Rattle.geo_path.specs.declared.segment.Segment.TheVariants.{Line};
ghost use Rattle.geo_path.specs.Curve.{curve_points};
ghost use Rattle.geo_path.specs.Flat.{flat, lines_of};
ghost use Rattle.geo_path.specs.Arc.{chain_of, IsBetween, multiples_of, end_angle, IsOnTheRightSide};

/// The points of a curve end at its last control point.
pub fn a_curve_ends_at_its_last_control_point()
    ensures { (p0 p1 p2 p3 : PointValue) → last_or None (curve_points p0 p1 p2 p3) ≡ Some p3 }
{}

/// A flattened subpath begins at its start and ends where its segments end.
pub fn flattening_keeps_the_ends()
    ensures start { (s : SubpathValue) → slice_get (flat s).points 0 ≡ Some s.start }
    ensures end { (s : SubpathValue) → last_or None (flat s).points ≡ Some (end_from s.start s.segments) }
{}

/// A flattened path has as many closed lines as the path has closed subpaths.
pub fn flattening_keeps_what_is_closed()
    ensures { (path : PathValue) → count_by (λ line. line.closed) (lines_of path)
        ≡ count_by (λ s. s.closed) (subpaths_of path) }
{}

/// An arc is the chain of its points' lines: flattened it has just these points, in order, alone in a
/// subpath or behind what the subpath has.
pub fn an_arc_is_the_chain_of_its_points()
    ensures alone { (p : PointValue) (points : List PointValue) →
        flat (chain_of (p ∷ points)) ≡ record { points = p ∷ points; closed = false } }
    ensures behind { (s : SubpathValue) (points : List PointValue) →
        (flat (continued s (map Line points))).points ≡ (flat s).points ++ points }
{}

/// Each angle between the ends of an arc is a multiple of the step and lies strictly between them.
pub fn inner_angles_are_multiples_between()
    ensures { (clockwise : Bool) (from to : ℤ) → All (IsBetween clockwise from to) (multiples_of clockwise from to) }
{}

/// The end of an arc lies less than a turn behind its start, or where it was, on the right side.
pub fn an_end_is_on_the_right_side()
    ensures { (clockwise : Bool) (from to : ℤ) → IsOnTheRightSide clockwise from (end_angle clockwise from to) }
{}
