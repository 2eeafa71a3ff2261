//! Colour straight through two profiles.
ghost use Rattle.std.specs.Prelude.{◌≡◌, ◌≤◌, ◌*◌, ℕ, IsTrue};
ghost use Rattle.icc_model.specs.Direct.{IsIn, carried, can_receive, direct, direct_wide, narrowed};

use crate::profile::{Intent, Profile};
use crate::source::source_of;
use crate::target::target_of;
use icc_tables::{Pcs, lab_of_xyz, xyz_of_lab};
use press_fault::Code;

/// Numbers of one connection space in the other, only where the two differ.
#[tactic(auto, unfolding(crate::specs::Direct::carried))]
pub fn carried(from_lab: bool, to_lab: bool, v: &Pcs) -> Pcs
    requires { IsIn from_lab v.now }
    ensures value { result ≡ carried from_lab to_lab v.now }
    ensures range { IsIn to_lab result }
{
    if from_lab {
        if to_lab { same(v) } else { xyz_of_lab(v) }
    } else if to_lab {
        lab_of_xyz(v)
    } else {
        same(v)
    }
}

fn same(v: &Pcs) -> Pcs
    ensures { result ≡ v.now }
{
    *v
}

/// A colour through two profiles, each value of 16 bits (ICC.1:2010, Annex F).
///
/// The code is of the source, and the target is able to receive at the intent.
#[tactic(auto, unfolding(crate::specs::Direct::direct_wide))]
pub fn direct_wide(source: &Profile, target: &Profile, intent: Intent, code: Code) -> [u16; 3]
    requires channels { code.n ≡ source.now.channels }
    requires receives { IsTrue (can_receive target.now intent) }
    ensures { result ≡ direct_wide source.now target.now intent code }
{
    let seen = source_of(source, intent, code);
    target_of(target, intent, &carried(source.lab(), target.lab(), &seen))
}

/// A colour through two profiles, each value of 8 bits: those of 16 bits, rounded.
#[tactic(auto, unfolding(crate::specs::Direct::direct))]
pub fn direct(source: &Profile, target: &Profile, intent: Intent, code: Code) -> [u8; 3]
    requires channels { code.n ≡ source.now.channels }
    requires receives { IsTrue (can_receive target.now intent) }
    ensures { result ≡ direct source.now target.now intent code }
{
    let [first, second, third] = direct_wide(source, target, intent, code);
    [narrowed(first), narrowed(second), narrowed(third)]
}

/// A value of 16 bits in 8.
#[tactic(auto, unfolding(crate::specs::Direct::narrowed, icc_tables::specs::Rounded::rounded))]
pub fn narrowed(v: u16) -> u8
    ensures { result ≡ narrowed v }
{
    ((u32::from(v) * 510 + 65535) / 131070) as u8
}

/// A value of 16 bits that stands for one of 8 rounds to it.
#[tactic(auto, using(crate::proofs::Plain::rounds_back))]
pub fn wide_values_round_back()
    ensures { (v : ℕ) → v ≤ 255 → narrowed (257 * v) ≡ v }
{}
