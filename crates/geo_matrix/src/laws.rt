//! Laws of the definitions: functions without code, whose contracts are the laws.
ghost use Rattle.std.specs.Prelude.{◌≡◌, ◌≤◌, ℤ, pos, negsuc, neg_ℤ, ◌+ℤ◌, unsigned_abs, Some};
ghost use Rattle.geo_matrix.specs.Affine.{MatrixValue, IsMatrix, identity};
ghost use Rattle.geo_matrix.specs.Product.{concat_of};
ghost use Rattle.geo_matrix.specs.Sine.{sine_of, cosine_of};
ghost use Rattle.geo_matrix.specs.Turn.{turn_of};

/// A product with the matrix that moves no point changes nothing, on either side.
pub fn identity_changes_no_matrix()
    ensures first { (m : MatrixValue) → IsMatrix m → concat_of identity m ≡ Some m }
    ensures then { (m : MatrixValue) → IsMatrix m → concat_of m identity ≡ Some m }
{}

/// A turn by 90 degrees takes (x, y) to (-y, x) exactly.
pub fn quarter_turn_is_exact()
    ensures { turn_of (pos 5898240) ≡ record {
      a = pos 0;
      b = pos 65536;
      c = negsuc 65535;
      d = pos 0;
      tx = pos 0;
      ty =
          pos 0;
    } }
{}

/// The sine of 180 degrees more is the negative.
pub fn half_a_turn_negates_the_sine()
    ensures { (raw : ℤ) → sine_of (raw +ℤ pos 11796480) ≡ neg_ℤ (sine_of raw) }
{}

/// Sine and cosine lie from -1 to 1.
pub fn sine_and_cosine_are_within_one()
    ensures sine { (raw : ℤ) → unsigned_abs (sine_of raw) ≤ 65536 }
    ensures cosine { (raw : ℤ) → unsigned_abs (cosine_of raw) ≤ 65536 }
{}
