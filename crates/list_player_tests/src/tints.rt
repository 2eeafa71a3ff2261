//! Colours of three sources, by a rule.
ghost use Rattle.std.specs.Prelude.{◌≡◌, ◌<◌};
ghost use Rattle.list_player_tests.specs.Tints.{blue_of, channels_of, colour_of, low_of, wide_of};

use list_player::{Colours, Lent};
use page_model::Table;
use press_fault::{Code, Mem};
use std::alloc::Global;
use std::process::Abort;

fn blue(source: u32) -> u8
    ensures { result ≡ blue_of source }
{
    if source == 2 { 200 } else { 100 }
}

fn colour(source: u32, code: Code) -> [u8; 3]
    ensures { result ≡ colour_of source code }
{
    let [first, second, _, _] = code.c;
    [first, 255 - second, blue(source)]
}

fn low(source: u32, code: Code) -> [u8; 3]
    ensures { result ≡ low_of source code }
{
    let [_, second, _, _] = code.c;
    [7, second, blue(source) - 50]
}

fn wide(source: u32, code: Code) -> [u16; 3]
    ensures { result ≡ wide_of source code }
{
    let [first, second, _, _] = code.c;
    let blue = u16::from(blue(source));
    let second = u16::from(second);
    [
        u16::from(first) * 256 + 7,
        (255 - second) * 256 + second,
        blue * 256 + (blue - 50),
    ]
}

/// The page's own table, for the program of the definition.
pub struct Tints;

impl Table for Tints {
    ghost sources = { λ table. 3 };

    ghost channels = { λ table source. channels_of source };

    ghost tint = { λ table source code. colour_of source code };

    fn colour(&self, source: u32, code: Code) -> [u8; 3] {
        colour(source, code)
    }
}

/// The low bytes of the colours at 16 bits, as a table.
pub struct LowTints;

impl Table for LowTints {
    ghost sources = { λ table. 3 };

    ghost channels = { λ table source. channels_of source };

    ghost tint = { λ table source code. low_of source code };

    fn colour(&self, source: u32, code: Code) -> [u8; 3] {
        low(source, code)
    }
}

/// The colours of one source, while they are lent.
pub struct Tint {
    source: u32,
}

impl Lent for Tint {
    ghost channels = { λ loan. channels_of loan.source };

    ghost colour = { λ loan code. colour_of loan.source code };

    ghost wide = { λ loan code. wide_of loan.source code };

    fn channels(&self) -> u8 {
        if self.source == 0 { 1 } else { 3 }
    }

    fn convert(&self, code: Code) -> [u8; 3] {
        colour(self.source, code)
    }

    fn convert_wide(&self, code: Code) -> [u16; 3] {
        wide(self.source, code)
    }
}

/// The colours of all sources, and those that were lent, in order. It stops the program where more loans are asked
/// than it can count.
#[derive(Drop)]
pub struct Palette<'r, R: Abort> {
    pub rt: &'r R,
    pub lent: Vec<u32>,
    pub tries: u64,
    pub is_busy: bool,
}

impl<'r, R: Abort> Colours for Palette<'r, R> {
    type Loan = Tint;

    ghost use Rattle.std.specs.Prelude.{◌∷◌, [], Some, length};

    ghost channels = { λ p source. channels_of source };

    ghost colour = { λ p source code. colour_of source code };

    ghost wide = { λ p source code. wide_of source code };

    ghost sources = { λ p. 0 ∷ 1 ∷ 2 ∷ [] };

    ghost count = { λ p. length p.lent.items };

    ghost tries = { λ p. p.tries };

    ghost lent = { λ p. Some p.lent.items };

    ghost is_busy = { λ p. p.is_busy };

    ghost owns = { λ p loan. Unit };

    fn lend(&mut self, _alloc: Global, source: u32) -> Mem<Tint> {
        self.tries = self
            .tries
            .checked_add(1)
            .expect(self.rt, "more loans than can be counted");
        self.lent.push(source)?;
        self.is_busy = true;
        Ok(Tint { source })
    }

    fn give_back(&mut self, loan: Tint) {
        let Tint { source: _ } = loan;
        self.is_busy = false;
    }
}
