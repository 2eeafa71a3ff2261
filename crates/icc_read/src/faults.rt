//! Which byte lists are no profile, and why.
ghost use Rattle.std.specs.Prelude.{◌≡◌, ◌≤◌, ◌+◌, ◌*◌, false, length, None};
ghost use Rattle.icc_read.specs.Table.{size_field, tag_count, is_class, entry_at};
ghost use Rattle.icc_read.specs.Faults.{is_too_short, has_no_signature, has_bad_size, has_bad_table, is_outside};
ghost use Rattle.icc_read.specs.Faults.{has_tag_outside, is_not_taken, is_no_source, fault_of};
ghost use Rattle.icc_read.specs.Code.Premises.{IsTabled, IsSound};

use crate::table::{
    CMYK, Entry, GRAY, HEADER_SIZE, LAB, RGB, XYZ, entry_at, has_tag, size_field, tag_count,
};
use crate::used::{FORWARD, has_gray_curve, has_matrix, has_misshapen, has_wrong_type};
use icc_power::u32_at;
use press_fault::ProfileFault;

/// The signature `acsp` of all profiles.
const SIGNATURE: u32 = 0x6163_7370;
/// The class `scnr` of input profiles.
const INPUT: u32 = 0x7363_6e72;
/// The class `mntr` of display profiles.
const DISPLAY: u32 = 0x6d6e_7472;
/// The class `prtr` of output profiles.
const OUTPUT: u32 = 0x7072_7472;
/// The class `spac` of colour space profiles.
const COLOUR_SPACE: u32 = 0x7370_6163;
/// The most tags that a profile may have.
const TAG_LIMIT: usize = 256;

/// Whether there are fewer bytes than a header and a tag count have.
#[tactic(auto, unfolding(crate::specs::Faults::is_too_short))]
fn is_too_short(bytes: &[u8]) -> bool
    ensures value { result ≡ is_too_short bytes.now }
    ensures long { result ≡ false → 132 ≤ length bytes.now }
{
    bytes.len() < HEADER_SIZE
}

/// Whether the header hasn't the signature of all profiles.
#[tactic(auto, unfolding(crate::specs::Faults::has_no_signature))]
fn has_no_signature(bytes: &[u8]) -> bool
    requires { 132 ≤ length bytes.now }
    ensures { result ≡ has_no_signature bytes.now }
{
    u32_at(bytes, 36) != SIGNATURE
}

/// Whether the size is less than a header and a tag count have, or more than there are bytes.
#[tactic(auto, unfolding(crate::specs::Faults::has_bad_size))]
fn has_bad_size(bytes: &[u8]) -> bool
    requires { 132 ≤ length bytes.now }
    ensures value { result ≡ has_bad_size bytes.now }
    ensures size { result ≡ false → size_field bytes.now ≤ length bytes.now }
{
    let size = size_field(bytes);
    size < HEADER_SIZE || bytes.len() < size
}

/// Whether there are too many tags, or their table passes the end.
#[tactic(auto, unfolding(crate::specs::Faults::has_bad_table))]
fn has_bad_table(bytes: &[u8]) -> bool
    requires { 132 ≤ length bytes.now }
    ensures value { result ≡ has_bad_table bytes.now }
    ensures fits { result ≡ false → 132 + 12 * tag_count bytes.now ≤ size_field bytes.now }
{
    let count = tag_count(bytes);
    TAG_LIMIT < count || size_field(bytes) < HEADER_SIZE + 12 * count
}

/// Whether a tag begins in the header, or passes the end.
fn is_outside(size: usize, entry: Entry) -> bool
    ensures { result ≡ is_outside size entry }
{
    let offset = entry.offset as usize;
    offset < HEADER_SIZE || size < offset + entry.size as usize
}

/// Whether a tag does, used or not.
#[tactic(auto, unfolding(crate::specs::Faults::has_tag_outside))]
fn has_tag_outside(bytes: &[u8]) -> bool
    requires long { 132 ≤ length bytes.now }
    requires fits { 132 + 12 * tag_count bytes.now ≤ length bytes.now }
    ensures { result ≡ has_tag_outside bytes.now }
{
    let size = size_field(bytes);
    for k in 0..tag_count(bytes) {
        if is_outside(size, entry_at(bytes, k)) {
            return true;
        }
    }
    false
}

/// Whether a class is one that is taken.
fn is_class(class: u32) -> bool
    ensures { result ≡ is_class class }
{
    class == INPUT || class == DISPLAY || class == OUTPUT || class == COLOUR_SPACE
}

/// Whether the class, the colour space or the connection space isn't one that is taken.
#[tactic(auto, unfolding(crate::specs::Faults::is_not_taken))]
fn is_not_taken(bytes: &[u8]) -> bool
    requires { 132 ≤ length bytes.now }
    ensures { result ≡ is_not_taken bytes.now }
{
    let space = u32_at(bytes, 16);
    let pcs = u32_at(bytes, 20);
    !is_class(u32_at(bytes, 12))
        || !(space == GRAY || space == RGB || space == CMYK)
        || !(pcs == XYZ || pcs == LAB)
}

/// Whether it has no transform `A2B0`, no matrix and no curve of gray.
#[tactic(auto, unfolding(crate::specs::Faults::is_no_source))]
fn is_no_source(bytes: &[u8]) -> bool
    requires { IsTabled bytes.now }
    ensures { result ≡ is_no_source bytes.now }
{
    let [perceptual, _, _] = FORWARD;
    !(has_tag(bytes, perceptual) || has_matrix(bytes) || has_gray_curve(bytes))
}

/// The least fault of header and tag table, or of what the tags are.
#[tactic(auto, unfolding(crate::specs::Faults::fault_of))]
pub(crate) fn fault_of(bytes: &[u8]) -> Option<ProfileFault>
    ensures value { result ≡ fault_of bytes.now }
    ensures sound { result ≡ None → IsSound bytes.now }
{
    if is_too_short(bytes) {
        return Some(ProfileFault::TooShort);
    }
    if has_no_signature(bytes) {
        return Some(ProfileFault::NoSignature);
    }
    if has_bad_size(bytes) {
        return Some(ProfileFault::SizeField);
    }
    if has_bad_table(bytes) {
        return Some(ProfileFault::TagTable);
    }
    if has_tag_outside(bytes) {
        return Some(ProfileFault::TagRange);
    }
    if is_not_taken(bytes) {
        return Some(ProfileFault::ClassOrSpace);
    }
    if is_no_source(bytes) {
        return Some(ProfileFault::MissingTag);
    }
    if has_wrong_type(bytes) {
        return Some(ProfileFault::TagType);
    }
    if has_misshapen(bytes) {
        return Some(ProfileFault::TagShape);
    }
    None
}
