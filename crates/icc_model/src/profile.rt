//! Profiles as values.
ghost use Rattle.std.specs.Prelude.{◌≡◌, ◌≤◌, ◌<◌, ◌⊎◌, true, false, Some, None, option_map};
ghost use Rattle.std.specs.Option.{option_copied};
ghost use Rattle.md5.specs.Md5.{md5};
ghost use Rattle.icc_model.specs.Profile.{ProfileValue, IsProfile, IsSuitedTransform, IsBase, number_of, nth, chosen};

use icc_stages::Stages;
use icc_tables::{Curve, Lut, SharedBytes};
use md5::{Digest, Md5};
use std::marker::Model;

/// What a rendering asks for (ICC.1:2010, 7.2.15 Rendering intent field).
#[derive(Clone, Copy, Debug, PartialEq, Eq)]
pub enum Intent {
    Perceptual,
    Relative,
    Saturation,
}

impl Intent {
    /// 0 for perceptual, 1 for media-relative colorimetric, 2 for saturation.
    pub fn number(self) -> u8
        ensures value { result ≡ number_of self }
        ensures bound { result < 3 }
    {
        match self {
            Intent::Perceptual => 0,
            Intent::Relative => 1,
            Intent::Saturation => 2,
        }
    }
}

/// A way between colour codes and the connection space, of an AToB or a BToA tag.
#[derive(Drop)]
pub enum Transform {
    /// By a lut of 8 or of 16 bits.
    Lut(Lut),
    /// By the stages of version 4.
    Stages(Stages),
}

/// What serves where no transform does.
#[derive(Drop)]
pub enum Base {
    /// RGB to XYZ: the red, the green and the blue column, in 1/65536, and a curve for each.
    Matrix {
        columns: [i32; 9],
        curves: [Curve; 3],
    },
    /// Gray to the white of the space.
    Gray {
        curve: Curve,
    },
}

/// A colour profile. It is shared, and never copied.
#[derive(Drop)]
pub struct Profile {
    bytes: SharedBytes,
    lab: bool,
    channels: u8,
    base: Option<Base>,
    forward: [Option<Transform>; 3],
    backward: [Option<Transform>; 3],
}

impl Model for Profile {
    ghost use Rattle.icc_model.specs.Profile.{ProfileValue, IsProfile};

    ghost Value = { ProfileValue };

    ghost view = { λ p. record {
      bytes = p.bytes;
      lab = p.lab;
      channels = p.channels;
      base = p.base;
      forward =
          p.forward;
      backward = p.backward;
    } };

    ghost invariant = { λ p. IsProfile (record {
      bytes = p.bytes;
      lab = p.lab;
      channels = p.channels;
      base =
          p.base;
      forward = p.forward;
      backward = p.backward;
    }) };
}

impl Profile {
    /// The profile of these parts, whose bytes they were read from. Lattices that stand in these share
    /// them with it.
    pub fn of_parts(
        bytes: SharedBytes,
        lab: bool,
        channels: u8,
        base: Option<Base>,
        forward: [Option<Transform>; 3],
        backward: [Option<Transform>; 3],
    ) -> Profile
        requires { IsProfile (record {
          bytes = bytes;
          lab = lab;
          channels = channels;
          base = base;
          forward =
              forward;
          backward = backward;
        }) }
        ensures { result ≡ record {
          bytes = bytes;
          lab = lab;
          channels = channels;
          base = base;
          forward =
              forward;
          backward = backward;
        } }
    {
        Profile {
            bytes,
            lab,
            channels,
            base,
            forward,
            backward,
        }
    }

    /// Whether the connection space is Lab, else it is XYZ.
    pub fn lab(&self) -> bool
        ensures { result ≡ self.now.lab }
    {
        self.lab
    }

    /// How many channels a code of the profile has: 1, 3 or 4.
    pub fn channels(&self) -> u8
        ensures value { result ≡ self.now.channels }
        ensures some { (result ≡ 1) ⊎ (result ≡ 3) ⊎ (result ≡ 4) }
    {
        self.channels
    }

    /// The matrix or the gray curve, where there is one.
    pub fn base(&self) -> Option<&Base>
        ensures value { option_copied result ≡ self.now.base }
        ensures suited { IsBase self.now.lab self.now.channels (option_copied result) }
    {
        self.base.as_ref()
    }

    /// The transform AToB of this number.
    pub fn forward(&self, number: u8) -> Option<&Transform>
        requires { number < 3 }
        ensures { option_copied result ≡ nth self.now.forward number }
    {
        self.forward[usize::from(number)].as_ref()
    }

    /// The transform BToA of this number.
    pub fn backward(&self, number: u8) -> Option<&Transform>
        requires { number < 3 }
        ensures { option_copied result ≡ nth self.now.backward number }
    {
        self.backward[usize::from(number)].as_ref()
    }

    /// The transform to the connection space for an intent.
    #[tactic(auto, using(crate::proofs::Choices::suited))]
    pub fn chosen_forward(&self, intent: Intent) -> Option<&Transform>
        ensures value { option_copied result ≡ chosen self.now.forward intent }
        ensures suited { IsSuitedTransform true self.now.lab self.now.channels (option_copied result) }
    {
        chosen(&self.forward, intent)
    }

    /// The transform from the connection space for an intent.
    #[tactic(auto, using(crate::proofs::Choices::suited))]
    pub fn chosen_backward(&self, intent: Intent) -> Option<&Transform>
        ensures value { option_copied result ≡ chosen self.now.backward intent }
        ensures suited { IsSuitedTransform false self.now.lab 3 (option_copied result) }
    {
        chosen(&self.backward, intent)
    }

    /// The bytes of the profile.
    pub fn bytes(&self) -> &[u8]
        ensures { result.now ≡ self.now.bytes }
    {
        self.bytes.items()
    }

    /// The MD5 of these bytes.
    pub fn digest(&self) -> [u8; 16]
        ensures { result ≡ md5 self.now.bytes }
    {
        let mut hasher = Md5::new();
        hasher.update(self.bytes.items());
        hasher.finalize()
    }
}

/// The transform for an intent: its own, else the one of number 0.
#[tactic(auto, unfolding(crate::specs::Profile::chosen))]
fn chosen(transforms: &[Option<Transform>; 3], intent: Intent) -> Option<&Transform>
    ensures { option_copied result ≡ chosen transforms.now intent }
{
    match &transforms[usize::from(intent.number())] {
        Some(transform) => Some(transform),
        None => transforms[0].as_ref(),
    }
}
