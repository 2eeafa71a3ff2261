//! What a program is run with.
use std::marker::Model;

/// The page that a program starts with, in dots, and the dots of an inch.
///
/// A side has at most 16,384 dots and the page 67,108,864; there are 1 to 2,400 dots an inch.
#[derive(Clone, Copy, Debug, PartialEq, Eq)]
pub struct Setup {
    pub width: u32,
    pub height: u32,
    pub res: u32,
}

impl Model for Setup {
    ghost use Rattle.ps_machine.specs.Setup.{SetupValue};
    ghost use Rattle.gfx_state.specs.Keeping.{IsPageSize};

    ghost Value = { SetupValue };

    ghost view = { λ s. record { width = s.width; height = s.height; res = s.res } };

    ghost invariant = { λ s. IsPageSize s.width s.height s.res };

    ghost inverse = { λ v. record { width = v.width; height = v.height; res = v.res } };
}
