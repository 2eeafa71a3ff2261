//! What is said of profiles.
use icc_model::{Base, Profile};
use icc_read::IdState;
use press_fault::ProfileFault;

/// The colour space of so many channels.
pub(crate) fn space(channels: u8) -> &'static str {
    match channels {
        1 => "GRAY",
        3 => "RGB",
        _ => "CMYK",
    }
}

/// How colours go to the connection space for a rendering intent without a transform of its own.
pub(crate) fn kind(profile: &Profile) -> &'static str {
    let has_lut = profile.forward(0).is_some();
    match profile.base() {
        None => "by lut",
        Some(
            Base::Matrix {
                columns: _,
                curves: _,
            },
        ) => { if has_lut { "by lut" } else { "by matrix" } }
        Some(Base::Gray { curve: _ }) => { if has_lut { "by lut" } else { "by curve" } }
    }
}

/// What the header states of the identity.
pub(crate) fn id(state: IdState) -> &'static str {
    match state {
        IdState::Absent => "absent",
        IdState::Right => "right",
        IdState::Differs => "differs",
    }
}

/// A fault in words.
pub(crate) fn fault(fault: ProfileFault) -> &'static str {
    match fault {
        ProfileFault::TooShort => "fewer bytes than a header and a tag count have",
        ProfileFault::NoSignature => "no signature acsp in the header",
        ProfileFault::SizeField => "a size of less than 132 bytes, or of more than there are",
        ProfileFault::TagTable => "over 256 tags, or a tag table that passes the end",
        ProfileFault::TagRange => "a tag that lies in the header or passes the end",
        ProfileFault::ClassOrSpace => {
            "a class, colour space or connection space that isn't taken"
        }
        ProfileFault::MissingTag => "no transform A2B0, no whole matrix and no curve of gray",
        ProfileFault::TagType => "a used tag of a type that isn't taken",
        ProfileFault::TagShape => "a used tag that is too short for its content, or misshapen",
        ProfileFault::Role => "a profile that can't serve where it is given",
    }
}
