//! The way from the connection space to three values.
ghost use Rattle.std.specs.Prelude.{◌≡◌, None, IfOk, IsTrue};
ghost use Rattle.icc_model.specs.Direct.{target_of, can_receive, receives_by, IsIn};
ghost use Rattle.link_build.specs.Code.Way.{IsTargetOf, IsTargetOnBase};

use crate::inverse::Inverse;
use icc_model::{Base, Intent, Pcs, Profile, target_of};
use press_fault::Mem;
use std::alloc::Global;

/// What is prepared of a profile as a target.
#[derive(Drop)]
pub(crate) enum Target {
    /// The inverse of a matrix.
    Inverted(Inverse),
    /// Nothing: the profile's own way.
    Backward,
}

impl Target {
    /// What can be prepared of a profile, at an intent.
    #[tactic(auto, unfolding(icc_model::specs::Direct::can_receive))]
    pub(crate) fn of(alloc: Global, profile: &Profile, intent: Intent) -> Mem<Target>
        requires { IsTrue (can_receive profile.now intent) }
        ensures { IfOk result (IsTargetOf profile.now intent) }
    {
        match profile.chosen_backward(intent) {
            Some(_transform) => Ok(Target::Backward),
            None => on_base(alloc, profile),
        }
    }

    /// The three values of 16 bits of the connection space.
    pub(crate) fn values(&self, profile: &Profile, intent: Intent, v: &Pcs) -> [u16; 3]
        requires receives { IsTrue (can_receive profile.now intent) }
        requires prepared { IsTargetOf profile.now intent self.now }
        requires v { IsIn profile.now.lab v.now }
        ensures { result ≡ target_of profile.now intent v.now }
    {
        match self {
            Target::Inverted(inverse) => inverse.values(v),
            Target::Backward => target_of(profile, intent, v),
        }
    }
}

/// What can be prepared of a matrix or a gray curve.
fn on_base(alloc: Global, profile: &Profile) -> Mem<Target>
    requires { IsTrue (receives_by None profile.now.base) }
    ensures { IfOk result (IsTargetOnBase profile.now) }
{
    match profile.base() {
        Some(base) => match base {
            Base::Matrix { columns, curves } => {
                Ok(Target::Inverted(Inverse::of(alloc, columns, curves)?))
            }
            Base::Gray { .. } => Ok(Target::Backward),
        },
        None => Ok(Target::Backward),
    }
}
