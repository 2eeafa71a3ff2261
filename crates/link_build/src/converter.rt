//! What takes colours from one profile to another, for a key.
use crate::key::LinkKey;
use crate::link::{Link, build};
use link_cache::{Made, Maker, Order};
use press_fault::{Code, Mem};
use std::alloc::Global;

/// A value that takes the colour codes of its key's source to the key's target.
pub trait Converter: Made<Key = LinkKey> {
    ghost use Rattle.std.specs.Prelude.{◌≡◌, ℕ, List};
    ghost use Rattle.press_fault.specs.Plane.{CodeValue};
    ghost use Rattle.link_build.specs.Key.{LinkKeyValue, mark_of, AreReadAlike};

    /// The three values of 8 bits of a code, for a key.
    ghost colour: { LinkKeyValue → CodeValue → List ℕ };

    /// The three values of 16 bits of a code, for a key.
    ghost wide: { LinkKeyValue → CodeValue → List ℕ };

    /// The colour of a code of the source's channels, in values of 8 bits; takes no memory.
    fn convert(&self, code: Code) -> [u8; 3]
        requires { code.n ≡ (Self.made_for self.now).source.channels }
        ensures { result ≡ colour (Self.made_for self.now) code };

    /// The colour of a code of the source's channels, in values of 16 bits; takes no memory.
    fn convert_wide(&self, code: Code) -> [u16; 3]
        requires { code.n ≡ (Self.made_for self.now).source.channels }
        ensures { result ≡ wide (Self.made_for self.now) code };

    /// Its keys are told apart by their bytes and intents.
    ghost marks: { (key : LinkKeyValue) → Self.mark key ≡ mark_of key };

    /// Keys of one mark have the same colours, where profiles of the same bytes are the same.
    ghost one_colour: { (a b : LinkKeyValue) (code : CodeValue) → AreReadAlike a b → Self.mark a ≡ Self.mark b
        → colour a code ≡ colour b code };

    /// The same of values of 16 bits.
    ghost one_wide: { (a b : LinkKeyValue) (code : CodeValue) → AreReadAlike a b → Self.mark a ≡ Self.mark b
        → wide a code ≡ wide b code };
}

/// Makes links.
pub struct LinkMaker;

impl Made for Link {
    type Key = LinkKey;

    ghost use Rattle.link_build.specs.Key.{mark_of};

    ghost mark = { mark_of };

    ghost made_for = { λ link. link };

    fn key(&self) -> &LinkKey {
        self.key()
    }

    fn same(a: &LinkKey, b: &LinkKey) -> bool {
        a.is_same(b)
    }

    fn copy_key(_alloc: Global, key: &LinkKey) -> Mem<LinkKey> {
        key.copy()
    }
}

impl Maker<Link> for LinkMaker {
    fn make(&self, alloc: Global, order: &Order<Link>) -> Mem<Link> {
        build(alloc, order.key())
    }
}

impl Converter for Link {
    ghost use Rattle.std.specs.Prelude.{refl};
    ghost use Rattle.icc_model.specs.Direct.{direct, direct_wide};
    ghost use Rattle.link_build.specs.KeyLaws.{same_colour, same_wide};

    ghost colour = { λ key code. direct key.source key.target key.intent code };

    ghost wide = { λ key code. direct_wide key.source key.target key.intent code };

    fn convert(&self, code: Code) -> [u8; 3] {
        self.colour(code)
    }

    fn convert_wide(&self, code: Code) -> [u16; 3] {
        self.colour_wide(code)
    }

    ghost marks = { λ key. refl };

    ghost one_colour = { same_colour };

    ghost one_wide = { same_wide };
}
