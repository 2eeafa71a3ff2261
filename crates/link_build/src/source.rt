//! The way from a code to the connection space.
ghost use Rattle.std.specs.Prelude.{◌≡◌, IfOk};
ghost use Rattle.icc_model.specs.Direct.{source_of, IsIn};
ghost use Rattle.icc_model.specs.Profile.{chosen};
ghost use Rattle.link_build.specs.Code.Way.{IsSourceOf, IsSourceBy, IsSourceOnBase, AreEntriesOf};

use crate::entries::Entries;
use crate::mixture::{Mixture, see_bytes};
use icc_model::{Base, Intent, Pcs, Profile, Transform, decoded, source_of};
use press_fault::{Code, Mem};
use std::alloc::Global;

/// What is prepared of a profile as a source.
#[derive(Drop)]
pub(crate) enum Source {
    /// The shares of a matrix's columns.
    Mixed(Mixture),
    /// The points of a lattice, by the input tables of its lut.
    Points(Entries),
    /// Nothing: the profile's own way.
    Forward,
}

impl Source {
    /// What can be prepared of a profile, at an intent.
    pub(crate) fn of(alloc: Global, profile: &Profile, intent: Intent) -> Mem<Source>
        ensures { IfOk result (IsSourceOf profile.now intent) }
    {
        match profile.chosen_forward(intent) {
            Some(transform) => of_transform(alloc, transform),
            None => of_base(alloc, profile),
        }
    }

    /// The connection space of a code.
    pub(crate) fn seen(&self, profile: &Profile, intent: Intent, code: Code) -> Pcs
        requires channels { code.n ≡ profile.now.channels }
        requires prepared { IsSourceOf profile.now intent self.now }
        ensures value { result ≡ source_of profile.now intent code }
        ensures range { IsIn profile.now.lab result }
    {
        match self {
            Source::Mixed(mixture) => {
                see_bytes(code);
                mixture.xyz(code)
            }
            Source::Points(entries) => pointed(entries, profile, intent, code),
            Source::Forward => source_of(profile, intent, code),
        }
    }
}

/// What can be prepared of a matrix or a gray curve.
fn of_base(alloc: Global, profile: &Profile) -> Mem<Source>
    ensures { IfOk result (IsSourceOnBase profile.now) }
{
    match profile.base() {
        Some(base) => match base {
            Base::Matrix { columns, curves } => {
                Ok(Source::Mixed(Mixture::of(alloc, columns, curves)?))
            }
            Base::Gray { .. } => Ok(Source::Forward),
        },
        None => Ok(Source::Forward),
    }
}

/// What can be prepared of a transform.
fn of_transform(alloc: Global, transform: &Transform) -> Mem<Source>
    ensures { IfOk result (IsSourceBy transform.now) }
{
    match transform {
        Transform::Lut(lut) => {
            if lut.inputs < 3 {
                return Ok(Source::Forward);
            }
            Ok(Source::Points(Entries::of(alloc, lut)?))
        }
        Transform::Stages(_) => Ok(Source::Forward),
    }
}

/// The connection space of a code, by the points of a lattice.
#[tactic(auto, unfolding(icc_model::specs::Direct::source_of))]
fn pointed(entries: &Entries, profile: &Profile, intent: Intent, code: Code) -> Pcs
    requires channels { code.n ≡ profile.now.channels }
    requires prepared { AreEntriesOf (chosen profile.now.forward intent) entries.now }
    ensures value { result ≡ source_of profile.now intent code }
    ensures range { IsIn profile.now.lab result }
{
    match profile.chosen_forward(intent) {
        Some(transform) => match transform {
            Transform::Lut(lut) => decoded(lut.wide, profile.lab(), entries.values(lut, code)),
            Transform::Stages(_) => source_of(profile, intent, code),
        },
        // Entries are of a lut.
        None => source_of(profile, intent, code),
    }
}
