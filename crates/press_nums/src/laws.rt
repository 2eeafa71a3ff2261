//! Laws of the definitions: functions without code, whose contracts are the laws.
ghost use Rattle.std.specs.Prelude.{◌≡◌, ◌<◌, ◌^◌, ℕ, ℤ, pos, ◌<ℤ◌};
ghost use Rattle.press_nums.specs.Rounding.{div_round, IsWithinHalf};
ghost use Rattle.press_nums.specs.Roots.{root, IsRoot};
ghost use Rattle.press_nums.specs.Whole.{IsWhole, bits_of, whole_of_bits};

/// A rounded quotient is within a half of the exact one, and above it at a tie.
pub fn rounding_is_within_half()
    ensures { (n d : ℤ) → pos 0 <ℤ d → IsWithinHalf n d (div_round n d) }
{}

/// A root is the greatest number whose power isn't above its number.
pub fn root_is_the_greatest()
    ensures { (k n : ℕ) → 0 < k → IsRoot k n (root k n) }
{}

/// An integer is the one of its own bits, and the other way round.
pub fn bits_are_one_to_one()
    ensures there { (n : ℤ) → IsWhole n → whole_of_bits (bits_of n) ≡ n }
    ensures back { (bits : ℕ) → bits < 2 ^ 32 → bits_of (whole_of_bits bits) ≡ bits }
{}
