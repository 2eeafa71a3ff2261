//! Colours of links beside colours straight through both profiles.
ghost use Rattle.std.specs.Prelude.{◌<◌};

use crate::kinds::{LUTS_OF_ONE_AND_FOUR, LUTS_OF_THREE, MATRIX_AND_GRAY, TARGETS, source, target};
use icc_direct_tests::profiles::code_of;
use icc_model::{Intent, Profile, direct, direct_wide};
use link_build::{Converter, Link, LinkKey, build};
use press_fault::Mem;
use std::alloc::Global;
use std::sync::Arc;
use std::test::Fail;

/// 16 corners of four channels, and 200 codes of a generator.
const CODES: u16 = 216;

/// The value of a channel in the code of a number: 0 or 255 in the first 16, which are corners. The
/// channels weigh 1, 2, 4 and 8.
fn byte(number: u16, weight: u16) -> u8
    requires { 0 < weight }
{
    if number < 16 {
        if number / weight % 2 == 1 { 255 } else { 0 }
    } else {
        let word = (u32::from(number) * 8 + u32::from(weight)).wrapping_mul(2654435769);
        (word >> 24) as u8
    }
}

fn bytes(number: u16) -> [u8; 4] {
    [
        byte(number, 1),
        byte(number, 2),
        byte(number, 4),
        byte(number, 8),
    ]
}

/// Whether a link gives a code what the key's profiles give it, of 16 and of 8 bits.
fn agrees(link: &Link, number: u16) -> bool {
    let key = link.key();
    let code = code_of(key.source().channels(), bytes(number));
    let (source, target, intent) = (key.source(), key.target(), key.intent());
    link.convert_wide(code) == direct_wide(source, target, intent, code)
        && link.convert(code) == direct(source, target, intent, code)
}

/// Whether all codes have the same colours by the link of two profiles as straight through both.
pub(crate) fn agree_through(alloc: Global, source: Profile, target: Profile) -> Mem<bool> {
    let source = Arc::new(alloc, source)?;
    let target = Arc::new(alloc, target)?;
    if !target.can_receive(Intent::Perceptual) {
        return Ok(false);
    }
    let link = build(alloc, &LinkKey::new(source, target, Intent::Perceptual))?;
    for number in 0..CODES {
        if !agrees(&link, number) {
            return Ok(false);
        }
    }
    Ok(true)
}

/// Whether all codes have the same colours by the link of two kinds as straight through both.
fn all_agree(alloc: Global, from: u8, to: u8) -> Mem<bool> {
    agree_through(alloc, source(alloc, from)?, target(alloc, to)?)
}

/// Whether all codes of a source of some kind agree, with a target of each kind.
fn all_agree_from(alloc: Global, from: u8) -> Mem<bool> {
    for to in 0..TARGETS {
        if !all_agree(alloc, from, to)? {
            return Ok(false);
        }
    }
    Ok(true)
}

#[test]
fn links_from_a_matrix_and_from_gray_are_direct(rt: HostRuntime) -> Result<(), Fail> {
    for from in MATRIX_AND_GRAY {
        assert!(rt; all_agree_from(rt.alloc(), from)?);
    }
    Ok(())
}

#[test]
fn links_from_luts_of_three_channels_are_direct(rt: HostRuntime) -> Result<(), Fail> {
    for from in LUTS_OF_THREE {
        assert!(rt; all_agree_from(rt.alloc(), from)?);
    }
    Ok(())
}

#[test]
fn links_from_luts_of_one_and_four_channels_are_direct(rt: HostRuntime) -> Result<(), Fail> {
    for from in LUTS_OF_ONE_AND_FOUR {
        assert!(rt; all_agree_from(rt.alloc(), from)?);
    }
    Ok(())
}
