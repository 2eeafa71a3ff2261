//! Colours through stages: each part at its place, and each form of a part.
use crate::tags::{FALLING, PLAIN, RISING, profile, tag};
use icc_direct_tests::profiles::{narrow, of_columns, of_xyz, wide};
use icc_model::{Intent, Profile};
use icc_read::ReadProfile;
use press_fault::Mem;
use std::alloc::Global;
use std::test::Fail;

/// A matrix that turns X and Y round, mixes the third row, and adds to all.
const TURNED: &[u8] = b"\0\0\0\0\0\x01\0\0\0\0\0\0\0\x01\0\0\0\0\0\0\0\0\0\0\
\xff\xff\x80\0\0\0\x80\0\0\x01\0\0\0\0\x19\x99\xff\xff\xe6\x67\0\0\x33\x33";

/// A lattice of 2, 3 and 2 grid points, of one byte a value.
const BYTES: &[u8] = b"\x02\x03\x02\0\0\0\0\0\0\0\0\0\0\0\0\0\x01\0\0\0\
\x00\x25\x4a\x6f\x94\xb9\xde\x03\x28\x4d\x72\x97\xbc\xe1\x06\x2b\x50\x75\
\x9a\xbf\xe4\x09\x2e\x53\x78\x9d\xc2\xe7\x0c\x31\x56\x7b\xa0\xc5\xea\x0f";

/// The same of two.
const WORDS: &[u8] = b"\x02\x03\x02\0\0\0\0\0\0\0\0\0\0\0\0\0\x02\0\0\0\
\x00\x00\x26\xf5\x4d\xea\x74\xdf\x9b\xd4\xc2\xc9\xe9\xbe\x10\xb3\x37\xa8\
\x5e\x9d\x85\x92\xac\x87\xd3\x7c\xfa\x71\x21\x66\x48\x5b\x6f\x50\x96\x45\
\xbd\x3a\xe4\x2f\x0b\x24\x32\x19\x59\x0e\x80\x03\xa6\xf8\xcd\xed\xf4\xe2\
\x1b\xd7\x42\xcc\x69\xc1\x90\xb6\xb7\xab\xde\xa0\x05\x95\x2c\x8a\x53\x7f";

/// A lattice of 4 grid points.
const LINE: &[u8] = b"\x04\0\0\0\0\0\0\0\0\0\0\0\0\0\0\0\x01\0\0\0\
\x00\x17\x2e\x45\x5c\x73\x8a\xa1\xb8\xcf\xe6\xfd";

/// A lattice of 2, 2, 3 and 2 grid points.
const FOUR: &[u8] = b"\x02\x02\x03\x02\0\0\0\0\0\0\0\0\0\0\0\0\x01\0\0\0\
\x00\x25\x4a\x6f\x94\xb9\xde\x03\x28\x4d\x72\x97\xbc\xe1\x06\x2b\x50\x75\
\x9a\xbf\xe4\x09\x2e\x53\x78\x9d\xc2\xe7\x0c\x31\x56\x7b\xa0\xc5\xea\x0f\
\x34\x59\x7e\xa3\xc8\xed\x12\x37\x5c\x81\xa6\xcb\xf0\x15\x3a\x5f\x84\xa9\
\xce\xf3\x18\x3d\x62\x87\xac\xd1\xf6\x1b\x40\x65\x8a\xaf\xd4\xf9\x1e\x43";

/// A profile with the identity one way, and such a tag the other.
fn with_stages(
    alloc: Global,
    forward: bool,
    lab: bool,
    inputs: u8,
    places: [u16; 5],
    body: &[&[u8]],
) -> Result<Profile, ReadProfile> {
    let plain = [PLAIN, PLAIN, PLAIN];
    let other = tag(alloc, !forward, [3, 3], [32, 0, 0, 0, 0], &plain)?;
    let asked = tag(alloc, forward, [inputs, 3], places, body)?;
    if forward {
        profile(alloc, inputs, lab, &asked, &other)
    } else {
        profile(alloc, inputs, lab, &other, &asked)
    }
}

/// RGB whose values are X, Y and Z.
fn of_one(alloc: Global) -> Mem<Profile> {
    of_columns(alloc, [65536, 0, 0, 0, 65536, 0, 0, 0, 65536])
}

/// Colours of 16 and of 8 bits to X, Y and Z, by B curves alone.
fn by_curves(alloc: Global, lab: bool, code: [u8; 4]) -> Result<Colours, ReadProfile> {
    let plain = [PLAIN, PLAIN, PLAIN];
    let source = with_stages(alloc, true, lab, 3, [32, 0, 0, 0, 0], &plain)?;
    let target = of_one(alloc)?;
    let colour = narrow(&source, &target, Intent::Perceptual, code);
    Ok((wide(&source, &target, Intent::Perceptual, code), colour))
}

/// Colours of 16 and of 8 bits.
type Colours = (Option<[u16; 3]>, Option<[u8; 3]>);

#[test]
fn three_identities_give_the_connection_space(rt: HostRuntime) -> Result<(), Fail> {
    assert_eq!(rt;
        by_curves(rt.alloc(), false, [100, 0, 0, 0])?,
        (Some([0xc8c7, 0, 0]), Some([0xc8, 0, 0]))
    );
    assert_eq!(rt;
        by_curves(rt.alloc(), true, [255, 128, 128, 0])?,
        (Some([0xf6d5, 0xffff, 0xd32c]), Some([0xf6, 0xff, 0xd2]))
    );
    Ok(())
}

/// A half of X, Y and Z of a code.
fn seen(
    alloc: Global,
    lab: bool,
    inputs: u8,
    code: [u8; 4],
    places: [u16; 5],
    body: &[&[u8]],
) -> Result<Option<[u16; 3]>, ReadProfile> {
    let source = with_stages(alloc, true, lab, inputs, places, body)?;
    Ok(wide(&source, &of_xyz(alloc)?, Intent::Perceptual, code))
}

/// The values that stages from the connection space give X, Y and Z.
fn given(
    alloc: Global,
    lab: bool,
    places: [u16; 5],
    body: &[&[u8]],
) -> Result<Option<[u16; 3]>, ReadProfile> {
    let source = of_one(alloc)?;
    let target = with_stages(alloc, false, lab, 3, places, body)?;
    Ok(wide(&source, &target, Intent::Perceptual, [100, 150, 200, 0]))
}

#[test]
fn a_matrix_comes_after_m_curves(rt: HostRuntime) -> Result<(), Fail> {
    let body = [PLAIN, PLAIN, PLAIN, TURNED, RISING, FALLING, PLAIN];
    let found = seen(
        rt.alloc(),
        false,
        3,
        [200, 100, 50, 0],
        [32, 68, 116, 0, 0],
        &body,
    )?;
    assert_eq!(rt; found, Some([58153, 39339, 28811]));
    Ok(())
}

#[test]
fn each_channel_has_its_own_grid(rt: HostRuntime) -> Result<(), Fail> {
    let code = [200, 100, 50, 0];
    let bytes = [PLAIN, PLAIN, PLAIN, BYTES, PLAIN, PLAIN, PLAIN];
    let found = seen(rt.alloc(), true, 3, code, [32, 0, 0, 68, 124], &bytes)?;
    assert_eq!(rt; found, Some([6480, 7760, 3505]));
    let words = [PLAIN, PLAIN, PLAIN, WORDS, RISING, FALLING, PLAIN];
    let found = seen(rt.alloc(), false, 3, code, [32, 0, 0, 68, 160], &words)?;
    assert_eq!(rt; found, Some([37609, 40866, 41763]));
    Ok(())
}

#[test]
fn a_lattice_has_one_channel_or_four(rt: HostRuntime) -> Result<(), Fail> {
    let one = [PLAIN, PLAIN, PLAIN, LINE, FALLING];
    let found = seen(
        rt.alloc(),
        false,
        1,
        [77, 0, 0, 0],
        [32, 0, 0, 68, 100],
        &one,
    )?;
    assert_eq!(rt; found, Some([44489, 50400, 56311]));
    let four = [
        RISING, FALLING, PLAIN, TURNED, PLAIN, PLAIN, PLAIN, FOUR, PLAIN, FALLING, PLAIN, RISING,
    ];
    let places = [32, 80, 128, 164, 256];
    let found = seen(rt.alloc(), true, 4, [17, 93, 211, 140], places, &four)?;
    assert_eq!(rt; found, Some([10932, 6189, 1971]));
    Ok(())
}

#[test]
fn parts_may_stand_anywhere(rt: HostRuntime) -> Result<(), Fail> {
    // the first curve begins at 33, the next at 52
    let odd = [
        b"\0".as_slice(),
        RISING.split_at(18).0,
        b"\0",
        FALLING,
        PLAIN,
    ];
    let found = seen(
        rt.alloc(),
        false,
        3,
        [100, 150, 200, 0],
        [33, 0, 0, 0, 0],
        &odd,
    )?;
    assert_eq!(rt; found, Some([15686, 44632, 51400]));
    // B and M curves are the same bytes, and the matrix begins in the head
    let same = [PLAIN, PLAIN, RISING];
    let found = seen(
        rt.alloc(),
        false,
        3,
        [100, 0, 200, 0],
        [32, 4, 32, 0, 0],
        &same,
    )?;
    assert_eq!(rt; found, Some([22, 65535, 0]));
    Ok(())
}

#[test]
fn all_parts_from_the_connection_space(rt: HostRuntime) -> Result<(), Fail> {
    let xyz = [
        PLAIN, PLAIN, PLAIN, TURNED, RISING, FALLING, PLAIN, WORDS, PLAIN, FALLING, RISING,
    ];
    assert_eq!(rt;
        given(rt.alloc(), false, [32, 68, 116, 164, 256], &xyz)?,
        Some([27784, 46071, 18233])
    );
    let lab = [
        RISING, FALLING, PLAIN, TURNED, PLAIN, PLAIN, PLAIN, BYTES, PLAIN, FALLING, RISING,
    ];
    assert_eq!(rt;
        given(rt.alloc(), true, [32, 80, 128, 164, 220], &lab)?,
        Some([45433, 51612, 14621])
    );
    Ok(())
}
