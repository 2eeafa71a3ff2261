//! Laws of the definitions: functions without code, whose contracts are the laws.
ghost use Rattle.std.specs.Prelude.{ℤ, pos, ◌<ℤ◌, [], ◌∷◌};
ghost use Rattle.icc_power.specs.Parametric.{parametric, parametric_at, IsPower};

/// The curve of a positive exponent never falls; its first value is 0, its last 65535.
pub fn an_exponent_curve_rises()
    ensures { (g : ℤ) → pos 0 <ℤ g → IsPower (parametric_at (parametric 0 (g ∷ []))) }
{}
