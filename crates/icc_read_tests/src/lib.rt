//! A small profile, each of its faults, and its identity, which was worked out by another program.
#![tactic(auto)]

use icc_model::{Base, Profile};
use icc_read::{IdState, ReadProfile, id_state, read_profile};
use press_fault::{Mem, ProfileFault};
use std::alloc::Global;
use std::test::Fail;

/// An RGB display profile with XYZ as its connection space, field by field. Its matrix is the
/// identity, and its three curves are the same bytes.
const FIELDS: [&[u8]; 22] = [
    b"\0\0\x01\x14", // size: 276
    b"\0\0\0\0", // preferred CMM
    b"\x04\x20\0\0", // version
    b"mntr",
    b"RGB ",
    b"XYZ ",
    b"\0\0\0\0\0\0\0\0\0\0\0\0", // date and time
    b"acsp",
    b"\0\0\0\0\0\0\0\0\0\0\0\0\0\0\0\0\0\0\0\0\0\0\0\0", // platform to attributes
    b"\0\0\0\0", // rendering intent
    b"\0\0\xf6\xd6\0\x01\0\0\0\0\xd3\x2d", // illuminant
    b"\0\0\0\0", // creator
    b"\0\0\0\0\0\0\0\0\0\0\0\0\0\0\0\0", // identity
    b"\0\0\0\0\0\0\0\0\0\0\0\0\0\0\0\0\0\0\0\0\0\0\0\0\0\0\0\0",
    b"\0\0\0\x06", // tags, each with the place and the length of its bytes
    b"rXYZ\0\0\0\xcc\0\0\0\x14gXYZ\0\0\0\xe0\0\0\0\x14bXYZ\0\0\0\xf4\0\0\0\x14",
    b"rTRC\0\0\x01\x08\0\0\0\x0cgTRC\0\0\x01\x08\0\0\0\x0cbTRC\0\0\x01\x08\0\0\0\x0c",
    b"XYZ \0\0\0\0\0\x01\0\0\0\0\0\0\0\0\0\0",
    b"XYZ \0\0\0\0\0\0\0\0\0\x01\0\0\0\0\0\0",
    b"XYZ \0\0\0\0\0\0\0\0\0\0\0\0\0\x01\0\0",
    b"curv\0\0\0\0", // at 264
    b"\0\0\0\0", // no entries: the identity
];

/// The identity of that profile, by Python's `hashlib`.
const IDENTITY: [u8; 16] = [
    0x75, 0xc5, 0x26, 0x6f, 0xe2, 0xf4, 0x7f, 0x15, 0x4c, 0x96, 0x78, 0xad, 0xa9, 0x9d, 0x74, 0x4c,
];

/// The profile with some of its bytes changed.
fn changed(alloc: Global, at: usize, change: &[u8]) -> Mem<Vec<u8>> {
    let mut bytes = Vec::new(alloc);
    for field in FIELDS {
        bytes.extend_from_slice(field)?;
    }
    let mut place = at;
    for byte in change {
        if place < bytes.len() {
            bytes[place] = *byte;
        }
        place = place.saturating_add(1);
    }
    Ok(bytes)
}

/// What the profile is with some of its bytes changed, cut to a length.
fn read(alloc: Global, at: usize, change: &[u8], length: usize) -> Result<Profile, ReadProfile> {
    let mut bytes = changed(alloc, at, change)?;
    bytes.truncate(length);
    read_profile(alloc, bytes)
}

/// The fault of the profile with some of its bytes changed, cut to a length.
fn fault(alloc: Global, at: usize, change: &[u8], length: usize) -> Option<ReadProfile> {
    read(alloc, at, change, length).err()
}

#[test]
fn each_fault_has_its_answer(rt: HostRuntime) -> Result<(), Fail> {
    // name, place, bytes there, fault
    let cases = [
        (
            "another signature",
            36,
            b"b".as_slice(),
            ProfileFault::NoSignature,
        ),
        (
            "a size of 131",
            0,
            b"\0\0\0\x83".as_slice(),
            ProfileFault::SizeField,
        ),
        (
            "257 tags",
            128,
            b"\0\0\x01\x01".as_slice(),
            ProfileFault::TagTable,
        ),
        (
            "a tag far off",
            136,
            b"\xff\xff\xff\xf0".as_slice(),
            ProfileFault::TagRange,
        ),
        (
            "a device link",
            12,
            b"link".as_slice(),
            ProfileFault::ClassOrSpace,
        ),
        (
            "no blue curve",
            192,
            b"x".as_slice(),
            ProfileFault::MissingTag,
        ),
        (
            "a curve of XYZ",
            264,
            b"XYZ ".as_slice(),
            ProfileFault::TagType,
        ),
        (
            "endless entries",
            272,
            b"\xff\xff\xff\xff".as_slice(),
            ProfileFault::TagShape,
        ),
    ];
    for (name, at, change, fault_of) in cases {
        let found = fault(rt.alloc(), at, change, 276);
        assert_eq!(rt; found, Some(ReadProfile::Fault(fault_of)), "{name}");
    }
    Ok(())
}

#[test]
fn no_shorter_file_is_the_profile(rt: HostRuntime) -> Result<(), Fail> {
    for length in 0..276usize {
        let cause = if length < 132 {
            ProfileFault::TooShort
        } else {
            ProfileFault::SizeField
        };
        let found = fault(rt.alloc(), 0, b"", length);
        assert_eq!(rt; found, Some(ReadProfile::Fault(cause)), "{length}");
    }
    Ok(())
}

#[test]
fn a_matrix_is_read_by_columns(rt: HostRuntime) -> Result<(), Fail> {
    // the second number of the green column is 2
    let profile = read(rt.alloc(), 236, b"\0\x02\0\0", 276)?;
    let Some(Base::Matrix { columns, curves: _ }) = profile.base() else {
        return Err(Fail::from("no matrix"));
    };
    assert_eq!(rt; *columns, [65536, 0, 0, 0, 131072, 0, 0, 0, 65536]);
    Ok(())
}

#[test]
fn the_identity_is_compared(rt: HostRuntime) -> Result<(), Fail> {
    // name, place, bytes there, what the header states
    let cases = [
        ("none", 84, b"".as_slice(), IdState::Absent),
        ("the right one", 84, IDENTITY.as_slice(), IdState::Right),
        ("another one", 99, b"\x01".as_slice(), IdState::Differs),
    ];
    for (name, at, change, state) in cases {
        let profile = read(rt.alloc(), at, change, 276)?;
        assert_eq!(rt; id_state(&profile), state, "{name}");
    }
    Ok(())
}
