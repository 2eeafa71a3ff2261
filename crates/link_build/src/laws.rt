//! Laws of keys: functions without code, whose contracts are the laws.
ghost use Rattle.std.specs.Prelude.{◌≡◌};
ghost use Rattle.press_fault.specs.Plane.{CodeValue};
ghost use Rattle.icc_model.specs.Direct.{direct, direct_wide};
ghost use Rattle.link_build.specs.Key.{LinkKeyValue, mark_of, AreReadAlike};

/// Keys of one mark have the same colours, where profiles of the same bytes are the same.
pub fn keys_of_one_mark_have_one_colour()
    ensures colour { (a b : LinkKeyValue) (code : CodeValue) → AreReadAlike a b → mark_of a ≡ mark_of b →
        direct a.source a.target a.intent code ≡ direct b.source b.target b.intent code }
    ensures wide { (a b : LinkKeyValue) (code : CodeValue) → AreReadAlike a b → mark_of a ≡ mark_of b →
        direct_wide a.source a.target a.intent code ≡ direct_wide b.source b.target b.intent code }
{}
