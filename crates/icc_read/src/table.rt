//! The header and the tag table.
ghost use Rattle.std.specs.Prelude.{◌≡◌, ◌≤◌, ◌<◌, ◌+◌, ◌*◌, ◌^◌, ◌==◌, false, length, IfSome};
ghost use Rattle.std.specs.Option.{option_copied};
ghost use Rattle.icc_read.specs.Table.{EntryValue, entry_at, entry_of, bytes_of, tag_of, size_field, tag_count};
ghost use Rattle.icc_read.specs.Table.{gray, rgb};
ghost use Rattle.icc_read.specs.Faults.{is_outside};
ghost use Rattle.icc_read.specs.Tags.{has_tag, is_gray, is_rgb, is_lab, channels_of};
ghost use Rattle.icc_read.specs.Code.Premises.{IsTabled, IsChannels};
ghost use Rattle.icc_tables.specs.Stored.{IsTagAt};

use icc_power::u32_at;

/// The bytes of a header and a tag count.
pub(crate) const HEADER_SIZE: usize = 132;

/// The colour space `GRAY`.
pub(crate) const GRAY: u32 = 0x4752_4159;
/// The colour space `RGB `.
pub(crate) const RGB: u32 = 0x5247_4220;
/// The colour space `CMYK`.
pub(crate) const CMYK: u32 = 0x434d_594b;
/// The connection space `XYZ `, and the type of a tag of three numbers.
pub(crate) const XYZ: u32 = 0x5859_5a20;
/// The connection space `Lab `.
pub(crate) const LAB: u32 = 0x4c61_6220;

/// An entry of the tag table: the tag's signature, where its bytes begin, and how many there are.
#[derive(Clone, Copy, Debug, PartialEq, Eq)]
pub(crate) struct Entry {
    pub(crate) signature: u32,
    pub(crate) offset: u32,
    pub(crate) size: u32,
}

impl std::marker::Model for Entry {
    ghost use Rattle.icc_read.specs.Table.{EntryValue};

    ghost Value = { EntryValue };

    ghost view = { λ e. record { signature = e.signature; offset = e.offset; size = e.size } };

    ghost inverse = { λ v. record { signature = v.signature; offset = v.offset; size = v.size } };
}

/// The size that the header states.
pub(crate) fn size_field(bytes: &[u8]) -> usize
    requires { 132 ≤ length bytes.now }
    ensures { result ≡ size_field bytes.now }
{
    u32_at(bytes, 0) as usize
}

/// How many tags the table has.
pub(crate) fn tag_count(bytes: &[u8]) -> usize
    requires { 132 ≤ length bytes.now }
    ensures value { result ≡ tag_count bytes.now }
    ensures bound { result < 2 ^ 32 }
{
    u32_at(bytes, 128) as usize
}

/// The entry of this number.
pub(crate) fn entry_at(bytes: &[u8], k: usize) -> Entry
    requires { 144 + 12 * k ≤ length bytes.now }
    ensures { result ≡ entry_at bytes.now k }
{
    Entry {
        signature: u32_at(bytes, 132 + 12 * k),
        offset: u32_at(bytes, 136 + 12 * k),
        size: u32_at(bytes, 140 + 12 * k),
    }
}

/// The first entry of a signature.
#[tactic(auto, unfolding(crate::specs::Table::entry_of))]
pub(crate) fn entry_of(bytes: &[u8], signature: u32) -> Option<Entry>
    requires { IsTabled bytes.now }
    ensures value { result ≡ entry_of bytes.now signature }
    ensures inside { IfSome result (λ e. is_outside (size_field bytes.now) e ≡ false) }
{
    for k in 0..tag_count(bytes) {
        let entry = entry_at(bytes, k);
        if entry.signature == signature {
            return Some(entry);
        }
    }
    None
}

/// The bytes of an entry's tag.
#[tactic(auto, using(icc_tables::proofs::Stored::tag_place))]
pub(crate) fn bytes_of(bytes: &[u8], entry: Entry) -> &[u8]
    requires { entry.offset + entry.size ≤ length bytes.now }
    ensures value { result.now ≡ bytes_of bytes.now entry }
    ensures place { IsTagAt bytes.now entry.offset result.now }
{
    let (_, rest) = bytes.split_at(entry.offset as usize);
    let (tag, _) = rest.split_at(entry.size as usize);
    tag
}

/// The bytes of the tag of a signature.
pub(crate) fn tag_of(bytes: &[u8], signature: u32) -> Option<&[u8]>
    requires { IsTabled bytes.now }
    ensures { option_copied result ≡ tag_of bytes.now signature }
{
    match entry_of(bytes, signature) {
        None => None,
        Some(entry) => Some(bytes_of(bytes, entry)),
    }
}

/// Whether the table has a tag of this signature.
pub(crate) fn has_tag(bytes: &[u8], signature: u32) -> bool
    requires { IsTabled bytes.now }
    ensures { result ≡ has_tag bytes.now signature }
{
    entry_of(bytes, signature).is_some()
}

/// Whether the colour space is GRAY.
pub(crate) fn is_gray(bytes: &[u8]) -> bool
    requires { 132 ≤ length bytes.now }
    ensures { result ≡ is_gray bytes.now }
{
    u32_at(bytes, 16) == GRAY
}

/// Whether the colour space is RGB.
pub(crate) fn is_rgb(bytes: &[u8]) -> bool
    requires { 132 ≤ length bytes.now }
    ensures { result ≡ is_rgb bytes.now }
{
    u32_at(bytes, 16) == RGB
}

/// Whether the connection space is Lab.
pub(crate) fn is_lab(bytes: &[u8]) -> bool
    requires { 132 ≤ length bytes.now }
    ensures { result ≡ is_lab bytes.now }
{
    u32_at(bytes, 20) == LAB
}

/// The channels of the colour space.
pub(crate) fn channels_of(bytes: &[u8]) -> u8
    requires { 132 ≤ length bytes.now }
    ensures value { result ≡ channels_of bytes.now }
    ensures some { IsChannels result }
{
    if is_gray(bytes) {
        1
    } else if is_rgb(bytes) {
        3
    } else {
        4
    }
}
