//! Who gives linked codes their colours.
ghost use Rattle.std.specs.Prelude.{◌≡◌, ◌+◌, ℕ, List, ◌∷◌, [], ◌++◌, Bool, true, false, Option, Contains, IfOk};
ghost use Rattle.std.specs.Prelude.{OnOk, OnErr};
ghost use Rattle.std.specs.Option.{option_map};
ghost use Rattle.press_fault.specs.Plane.{CodeValue};

use press_fault::{Code, Mem};
use std::alloc::Global;

/// The colours of one source, as long as they are lent.
pub trait Lent {
    /// How many channels the codes of the source have.
    ghost channels: { Self → ℕ };

    /// The red, green and blue of a code, each from 0 to 255.
    ghost colour: { Self → CodeValue → List ℕ };

    /// The red, green and blue of a code, each from 0 to 65535.
    ghost wide: { Self → CodeValue → List ℕ };

    /// How many channels the codes have.
    fn channels(&self) -> u8
        ensures { result ≡ channels self.now };

    /// The colour of a code, for pages of 8 bits.
    fn convert(&self, code: Code) -> [u8; 3]
        requires { code.n ≡ channels self.now }
        ensures { result ≡ colour self.now code };

    /// The colour of a code, for pages of 16 bits.
    fn convert_wide(&self, code: Code) -> [u16; 3]
        requires { code.n ≡ channels self.now }
        ensures { result ≡ wide self.now code };
}

/// The colours of the sources of a page, of which one at a time is lent.
pub trait Colours {
    /// The colours of one source.
    type Loan: Lent;

    /// How many channels the codes of a source have.
    ghost channels: { Self → ℕ → ℕ };

    /// The colour of a source's code at 8 bits.
    ghost colour: { Self → ℕ → CodeValue → List ℕ };

    /// The colour of a source's code at 16 bits.
    ghost wide: { Self → ℕ → CodeValue → List ℕ };

    /// The sources that may be lent.
    ghost sources: { Self → List ℕ };

    /// How many loans were given so far.
    ghost count: { Self → ℕ };

    /// How often a loan was asked so far.
    ghost tries: { Self → ℕ };

    /// The sources of the loans given so far, in order, where that is told.
    ghost lent: { Self → Option (List ℕ) };

    /// Whether a loan is out.
    ghost is_busy: { Self → Bool };

    /// Whether a loan is one of these colours.
    ghost owns: { Self → Self.Loan → Type 0 };

    /// Lends the colours of a source.
    fn lend(&mut self, alloc: Global, source: u32) -> Mem<Self::Loan>
        requires known { Contains (sources self.old) source }
        requires free { is_busy self.old ≡ false }
        ensures loan { IfOk result (λ loan. owns self.new loan) }
        ensures channels { IfOk result (λ loan. Self.Loan.Lent.channels loan ≡ channels self.old source) }
        ensures colour { IfOk result (λ loan. Self.Loan.Lent.colour loan ≡ colour self.old source) }
        ensures wide { IfOk result (λ loan. Self.Loan.Lent.wide loan ≡ wide self.old source) }
        ensures busy { OnOk result (is_busy self.new ≡ true) }
        ensures free { OnErr result (is_busy self.new ≡ false) }
        ensures count { OnOk result (count self.new ≡ count self.old + 1) }
        ensures count_stays { OnErr result (count self.new ≡ count self.old) }
        ensures lent { OnOk result (lent self.new ≡ option_map (λ sources. sources ++ source ∷ []) (lent self.old)) }
        ensures lent_stays { OnErr result (lent self.new ≡ lent self.old) }
        ensures tries { tries self.new ≡ tries self.old + 1 }
        ensures channels_stay { channels self.new ≡ channels self.old }
        ensures colour_stays { colour self.new ≡ colour self.old }
        ensures wide_stays { wide self.new ≡ wide self.old }
        ensures sources_stay { sources self.new ≡ sources self.old };

    /// Takes a loan back.
    fn give_back(&mut self, loan: Self::Loan)
        requires { owns self.old loan }
        ensures free { is_busy self.new ≡ false }
        ensures count { count self.new ≡ count self.old }
        ensures lent { lent self.new ≡ lent self.old }
        ensures tries { tries self.new ≡ tries self.old }
        ensures channels { channels self.new ≡ channels self.old }
        ensures colour { colour self.new ≡ colour self.old }
        ensures wide { wide self.new ≡ wide self.old }
        ensures sources { sources self.new ≡ sources self.old };
}

/// The loan before the first that is needed. No code of a list goes by it.
pub(crate) struct Unlinked;

impl Lent for Unlinked {
    ghost use Rattle.std.specs.Prelude.{[], ◌∷◌};

    ghost channels = { λ loan. 1 };

    ghost colour = { λ loan code. 0 ∷ 0 ∷ 0 ∷ [] };

    ghost wide = { λ loan code. 0 ∷ 0 ∷ 0 ∷ [] };

    fn channels(&self) -> u8 {
        1
    }

    fn convert(&self, _code: Code) -> [u8; 3] {
        [0, 0, 0]
    }

    fn convert_wide(&self, _code: Code) -> [u16; 3] {
        [0, 0, 0]
    }
}
