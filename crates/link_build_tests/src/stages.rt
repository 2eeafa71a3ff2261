//! Links through stages of version 4 beside colours straight through both profiles.
use crate::kinds::{LUTS_OF_ONE_AND_FOUR, LUTS_OF_THREE, MATRIX_AND_GRAY, TARGETS, source, target};
use crate::pairs::agree_through;
use icc_model::Profile;
use icc_read::ReadProfile;
use icc_v4lut_tests::tags::{FALLING, PLAIN, RISING, profile, tag};
use std::alloc::Global;
use std::test::Fail;

/// A matrix that mixes the values, and adds to all.
const MIXED: &[u8] =
    b"\0\0\x80\0\0\0\x40\0\0\0\x20\0\0\0\x10\0\0\0\xc0\0\0\0\x08\0\0\0\x30\0\0\0\x20\0\
\0\0\x70\0\0\0\x04\0\xff\xff\xfc\0\0\0\x02\0";

/// A lattice of two grid points a channel, of three channels and of one byte a value.
const CUBE: &[u8] = b"\x02\x02\x02\0\0\0\0\0\0\0\0\0\0\0\0\0\x01\0\0\0\
\x00\x25\x4a\x6f\x94\xb9\xde\x03\x28\x4d\x72\x97\xbc\xe1\x06\x2b\x50\x75\x9a\xbf\xe4\x09\x2e\x53";

/// A profile with all parts of stages both ways.
fn with_stages(alloc: Global, lab: bool) -> Result<Profile, ReadProfile> {
    let body = [
        RISING, FALLING, PLAIN, MIXED, PLAIN, RISING, PLAIN, CUBE, FALLING, PLAIN, RISING,
    ];
    let places = [32, 80, 128, 172, 216];
    let forward = tag(alloc, true, [3, 3], places, &body)?;
    let backward = tag(alloc, false, [3, 3], places, &body)?;
    profile(alloc, 3, lab, &forward, &backward)
}

/// Whether the links from stages to a target of each kind are direct.
fn are_direct_from(alloc: Global, lab: bool) -> Result<bool, ReadProfile> {
    for to in 0..TARGETS {
        if !agree_through(alloc, with_stages(alloc, lab)?, target(alloc, to)?)? {
            return Ok(false);
        }
    }
    Ok(true)
}

/// Whether the link from a source of some kind to stages is direct.
fn is_direct_to(alloc: Global, from: u8, lab: bool) -> Result<bool, ReadProfile> {
    Ok(agree_through(alloc, source(alloc, from)?, with_stages(alloc, lab)?)?)
}

#[test]
fn links_from_stages_are_direct(rt: HostRuntime) -> Result<(), Fail> {
    assert!(rt; are_direct_from(rt.alloc(), false)?);
    assert!(rt; are_direct_from(rt.alloc(), true)?);
    Ok(())
}

#[test]
fn links_to_stages_are_direct(rt: HostRuntime) -> Result<(), Fail> {
    for from in MATRIX_AND_GRAY {
        assert!(rt; is_direct_to(rt.alloc(), from, false)?);
        assert!(rt; is_direct_to(rt.alloc(), from, true)?);
    }
    for from in LUTS_OF_THREE {
        assert!(rt; is_direct_to(rt.alloc(), from, false)?);
    }
    for from in LUTS_OF_ONE_AND_FOUR {
        assert!(rt; is_direct_to(rt.alloc(), from, true)?);
    }
    Ok(())
}

#[test]
fn links_from_stages_to_stages_are_direct(rt: HostRuntime) -> Result<(), Fail> {
    let alloc = rt.alloc();
    let same = agree_through(alloc, with_stages(alloc, true)?, with_stages(alloc, true)?)?;
    let other = agree_through(alloc, with_stages(alloc, false)?, with_stages(alloc, true)?)?;
    assert!(rt; same);
    assert!(rt; other);
    Ok(())
}
