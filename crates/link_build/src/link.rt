//! Links: what is prepared for a key.
ghost use Rattle.std.specs.Prelude.{◌≡◌, IfOk, length, slice_index_or, []};
ghost use Rattle.icc_model.specs.Direct.{direct, direct_wide};
ghost use Rattle.link_build.specs.Code.Way.{AreColoursOf, IsSourceOf, IsTargetOf, IsWayOf, code_of_one};

use crate::key::LinkKey;
use crate::source::Source;
use crate::target::Target;
use icc_model::{carried, narrowed};
use press_fault::{Code, Mem};
use std::alloc::Global;
use std::marker::Model;

/// How a link takes a code to its colour.
#[derive(Drop)]
pub(crate) enum Way {
    /// The colours of all codes of one channel.
    Single(Vec<[u16; 3]>),
    /// By way of the connection space.
    Several(Source, Target),
}

/// Two profiles prepared once, for colours through both. Contracts see its key.
#[derive(Drop)]
pub struct Link {
    key: LinkKey,
    way: Way,
}

impl Model for Link {
    ghost use Rattle.link_build.specs.Key.{LinkKeyValue};
    ghost use Rattle.link_build.specs.Code.Way.{IsWayOf};

    ghost Value = { LinkKeyValue };

    ghost view = { λ l. l.key };

    ghost invariant = { λ l. IsWayOf l.key l.way };
}

/// The link of a key.
pub fn build(alloc: Global, key: &LinkKey) -> Mem<Link>
    ensures { IfOk result (λ link. link ≡ key.now) }
{
    let way = way_of(alloc, key)?;
    Ok(Link {
        key: key.copy()?,
        way,
    })
}

/// What is prepared for a key.
fn way_of(alloc: Global, key: &LinkKey) -> Mem<Way>
    ensures { IfOk result (IsWayOf key.now) }
{
    let source = Source::of(alloc, key.source(), key.intent())?;
    let target = Target::of(alloc, key.target(), key.intent())?;
    if key.source().channels() == 1 {
        Ok(Way::Single(colours_of(alloc, key, &source, &target)?))
    } else {
        Ok(Way::Several(source, target))
    }
}

/// The colours of all codes of one channel.
#[tactic(auto, using(crate::proofs::Colours::colours_more))]
fn colours_of(alloc: Global, key: &LinkKey, source: &Source, target: &Target) -> Mem<Vec<[u16; 3]>>
    requires channels { key.now.source.channels ≡ 1 }
    requires source { IsSourceOf key.now.source key.now.intent source.now }
    requires target { IsTargetOf key.now.target key.now.intent target.now }
    ensures { IfOk result (λ colours. AreColoursOf key.now 256 colours.items) }
{
    let mut colours = Vec::with_capacity(alloc, 256)?;
    for v in 0..256u16 {
        colours.push(through(key, source, target, Code::gray(v as u8)))?;
    }
    Ok(colours)
}

/// The colour of a code, by way of the connection space.
#[tactic(auto, unfolding(icc_model::specs::Direct::direct_wide))]
fn through(key: &LinkKey, source: &Source, target: &Target, code: Code) -> [u16; 3]
    requires channels { code.n ≡ key.now.source.channels }
    requires source { IsSourceOf key.now.source key.now.intent source.now }
    requires target { IsTargetOf key.now.target key.now.intent target.now }
    ensures { result ≡ direct_wide key.now.source key.now.target key.now.intent code }
{
    let intent = key.intent();
    let seen = source.seen(key.source(), intent, code);
    let there = carried(key.source().lab(), key.target().lab(), &seen);
    target.values(key.target(), intent, &there)
}

/// The value of a code of one channel.
fn value_of_one(code: Code) -> u8
    requires { code.n ≡ 1 }
    ensures { code ≡ code_of_one result }
{
    let [v, _, _, _] = code.c;
    v
}

/// The colour of a code of one channel.
fn colour_at(colours: &[[u16; 3]], v: u8) -> [u16; 3]
    requires { length colours.now ≡ 256 }
    ensures { result ≡ slice_index_or colours.now v [] }
{
    colours[usize::from(v)]
}

impl Link {
    /// The key that it was built for.
    pub fn key(&self) -> &LinkKey
        ensures { result.now ≡ self.now }
    {
        &self.key
    }

    /// The colour of a code, in values of 16 bits.
    pub(crate) fn colour_wide(&self, code: Code) -> [u16; 3]
        requires { code.n ≡ self.now.source.channels }
        ensures { result ≡ direct_wide self.now.source self.now.target self.now.intent code }
    {
        match &self.way {
            Way::Single(colours) => colour_at(colours, value_of_one(code)),
            Way::Several(source, target) => through(&self.key, source, target, code),
        }
    }

    /// The colour of a code, in values of 8 bits.
    #[tactic(auto, unfolding(icc_model::specs::Direct::direct))]
    pub(crate) fn colour(&self, code: Code) -> [u8; 3]
        requires { code.n ≡ self.now.source.channels }
        ensures { result ≡ direct self.now.source self.now.target self.now.intent code }
    {
        let [first, second, third] = self.colour_wide(code);
        [narrowed(first), narrowed(second), narrowed(third)]
    }
}
