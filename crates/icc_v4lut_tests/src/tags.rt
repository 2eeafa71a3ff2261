//! Tags of stages, and profiles that have them.
use icc_model::Profile;
use icc_read::{ReadProfile, read_profile};
use press_fault::Mem;
use std::alloc::Global;

/// The identity: a `curv` of no entries.
pub const PLAIN: &[u8] = b"curv\0\0\0\0\0\0\0\0";

/// Three entries that rise, and padding.
pub const RISING: &[u8] = b"curv\0\0\0\0\0\0\0\x03\0\0\x4e\x20\xff\xff\0\0";

/// Two entries that fall.
pub const FALLING: &[u8] = b"curv\0\0\0\0\0\0\0\x02\xff\xff\x75\x30";

/// No curve, but as long as the identity.
pub const OTHER: &[u8] = b"sf32\0\0\0\0\0\0\0\0";

/// Adds a number of 32 bits.
fn add_number(bytes: &mut Vec<u8>, n: u16) -> Mem<()> {
    let [high, low] = n.to_be_bytes();
    bytes.extend_from_slice(&[0, 0, high, low])?;
    Ok(())
}

/// A tag of stages to the connection space, else from it, whose parts begin at these places: B curves,
/// matrix, M curves, lattice, A curves. The body begins at 32.
pub fn tag(
    alloc: Global,
    forward: bool,
    channels: [u8; 2],
    places: [u16; 5],
    body: &[&[u8]],
) -> Mem<Vec<u8>> {
    let [inputs, outputs] = channels;
    let mut tag = Vec::new(alloc);
    tag.extend_from_slice(if forward {
        b"mAB ".as_slice()
    } else {
        b"mBA ".as_slice()
    })?;
    tag.extend_from_slice(&[0, 0, 0, 0, inputs, outputs, 0, 0])?;
    for place in places {
        add_number(&mut tag, place)?;
    }
    for part in body {
        tag.extend_from_slice(part)?;
    }
    Ok(tag)
}

/// The bytes of a profile with these tags both ways, one after the other from 156 on.
fn bytes_of(
    alloc: Global,
    space: &[u8],
    lab: bool,
    forward: &[u8],
    backward: &[u8],
) -> Mem<Vec<u8>> {
    let first = forward.len().min(0x3000) as u16;
    let second = backward.len().min(0x3000) as u16;
    let mut bytes = Vec::new(alloc);
    add_number(&mut bytes, 156 + first + second)?;
    bytes.extend_from_slice(&[0, 0, 0, 0, 4, 0x20, 0, 0])?;
    bytes.extend_from_slice(b"mntr")?;
    bytes.extend_from_slice(space)?;
    bytes.extend_from_slice(if lab {
        b"Lab ".as_slice()
    } else {
        b"XYZ ".as_slice()
    })?;
    bytes.extend_from_slice(&[0; 12])?;
    bytes.extend_from_slice(b"acsp")?;
    bytes.extend_from_slice(&[0; 88])?;
    bytes.extend_from_slice(b"\0\0\0\x02A2B0")?;
    add_number(&mut bytes, 156)?;
    add_number(&mut bytes, first)?;
    bytes.extend_from_slice(b"B2A0")?;
    add_number(&mut bytes, 156 + first)?;
    add_number(&mut bytes, second)?;
    bytes.extend_from_slice(forward)?;
    bytes.extend_from_slice(backward)?;
    Ok(bytes)
}

/// A profile of so many channels with these tags both ways, where they have no fault.
pub fn profile(
    alloc: Global,
    channels: u8,
    lab: bool,
    forward: &[u8],
    backward: &[u8],
) -> Result<Profile, ReadProfile> {
    let space = match channels {
        1 => b"GRAY".as_slice(),
        3 => b"RGB ".as_slice(),
        _ => b"CMYK".as_slice(),
    };
    let bytes = bytes_of(alloc, space, lab, forward, backward)?;
    read_profile(alloc, bytes)
}
