//! Profiles from bytes.
ghost use Rattle.std.specs.Prelude.{◌≡◌, ◌↔◌, Err, Some, IfOk};
ghost use Rattle.icc_read.specs.Faults.{fault_of};
ghost use Rattle.icc_read.specs.Read.{profile_of};
ghost use Rattle.icc_read.specs.Code.Premises.{IsSound};
ghost use Rattle.press_fault.specs.declared.names.ProfileFault.{ProfileFault};

use crate::faults::fault_of;
use crate::parts::{backward_of, base_of, forward_of};
use crate::table::{channels_of, is_lab, size_field};
use icc_model::{Profile, SharedBytes};
use press_fault::{Mem, NoMemory, ProfileFault};
use std::alloc::Global;

/// Why bytes give no profile.
#[derive(Clone, Copy, Debug, PartialEq, Eq)]
pub enum ReadProfile {
    /// They are none: the least fault that they have.
    Fault(ProfileFault),
    /// There is no memory for it.
    NoMemory,
}

impl From<NoMemory> for ReadProfile {
    ghost use Rattle.std.specs.Prelude.{◌≡◌};
    ghost use Rattle.icc_read.specs.declared.read.ReadProfile.TheVariants.{NoMemory};

    ghost from_gives = { λ _ e. e ≡ NoMemory };

    fn from(_: NoMemory) -> ReadProfile {
        ReadProfile::NoMemory
    }
}

/// The profile of bytes without a fault. Those past its size are kept with it, and don't count.
#[tactic(auto, unfolding(crate::specs::Read::profile_of))]
fn profile_of(alloc: Global, bytes: Vec<u8>) -> Mem<Profile>
    requires { IsSound bytes.items }
    ensures { IfOk result (λ profile. profile ≡ profile_of bytes.items) }
{
    let bytes = SharedBytes::new(alloc, bytes)?;
    let base = base_of(alloc, bytes.items())?;
    let forward = forward_of(alloc, &bytes)?;
    let backward = backward_of(alloc, &bytes)?;
    let lab = is_lab(bytes.items());
    let channels = channels_of(bytes.items());
    let size = size_field(bytes.items());
    let bytes = bytes.cut(size);
    Ok(Profile::of_parts(bytes, lab, channels, base, forward, backward))
}

/// The profile that a file's bytes are (ICC.1:2010), or the least of its faults 1 to 9.
///
/// Every fault is found before memory is asked for, and each part takes memory only after its bytes
/// were found. Lattices are read where they stand, so they take no memory beside the bytes. Tags that
/// the profile doesn't use aren't looked at.
pub fn read_profile(alloc: Global, bytes: Vec<u8>) -> Result<Profile, ReadProfile>
    ensures fault { (fault : ProfileFault) →
        (result ≡ Err (ReadProfile.Fault fault)) ↔ (fault_of bytes.items ≡ Some fault) }
    ensures ok { IfOk result (λ profile. profile ≡ profile_of bytes.items) }
{
    match fault_of(&bytes) {
        Some(fault) => Err(ReadProfile::Fault(fault)),
        None => Ok(profile_of(alloc, bytes)?),
    }
}
