//! What is wrong with the parts of stages: the first fault of a walk over them.
use crate::tags::{OTHER, PLAIN, profile, tag};
use icc_read::ReadProfile;
use press_fault::ProfileFault;
use std::alloc::Global;
use std::test::Fail;

/// The fault of a profile of RGB with such a tag, cut to a length.
fn fault(
    alloc: Global,
    channels: [u8; 2],
    places: [u16; 5],
    body: &[&[u8]],
    length: usize,
) -> Result<(), ReadProfile> {
    let mut forward = tag(alloc, true, channels, places, body)?;
    forward.truncate(length);
    let plain = [PLAIN, PLAIN, PLAIN];
    let backward = tag(alloc, false, [3, 3], [32, 0, 0, 0, 0], &plain)?;
    profile(alloc, 3, false, &forward, &backward)?;
    Ok(())
}

/// A tag of another type than is taken.
const KIND: Result<(), ReadProfile> = Err(ReadProfile::Fault(ProfileFault::TagType));
/// A tag that is misshapen.
const SHAPE: Result<(), ReadProfile> = Err(ReadProfile::Fault(ProfileFault::TagShape));

#[test]
fn the_first_fault_of_a_walk_counts(rt: HostRuntime) -> Result<(), Fail> {
    let plain = [PLAIN, PLAIN, PLAIN, PLAIN];
    let first = [OTHER, PLAIN, PLAIN, PLAIN];
    let last = [PLAIN, PLAIN, PLAIN, OTHER];
    // name, channels, places of B curves, matrix, M curves, lattice and A curves, curves, fault
    let cases = [
        ("B curves alone", [3, 3], [32, 0, 0, 0, 0], plain, Ok(())),
        ("no B curves", [3, 3], [0, 0, 0, 0, 0], plain, SHAPE),
        ("channels, B curves", [4, 3], [32, 0, 0, 0, 0], first, SHAPE),
        (
            "B curves, A curves alone",
            [3, 3],
            [32, 0, 0, 0, 32],
            first,
            KIND,
        ),
        ("A curves alone", [3, 3], [32, 0, 0, 0, 32], plain, SHAPE),
        (
            "the third past the end",
            [3, 3],
            [56, 0, 0, 0, 0],
            plain,
            SHAPE,
        ),
        ("matrix, M curves", [3, 3], [32, 33, 68, 0, 0], last, SHAPE),
        ("M curves", [3, 3], [32, 32, 68, 0, 0], last, KIND),
        ("M curves alone", [3, 3], [32, 0, 32, 0, 0], plain, SHAPE),
        ("a matrix alone", [3, 3], [32, 32, 0, 0, 0], plain, SHAPE),
    ];
    for (name, channels, places, body, want) in cases {
        let found = fault(rt.alloc(), channels, places, &body, 80);
        assert_eq!(rt; found, want, "{name}");
    }
    Ok(())
}

#[test]
fn a_lattice_has_two_grid_points_and_all_its_values(rt: HostRuntime) -> Result<(), Fail> {
    // name, grid points, bytes a value, length of the tag, fault
    let cases = [
        ("one byte a value", [2, 2, 2, 0], 1, 112, Ok(())),
        ("two", [2, 2, 2, 0], 2, 136, Ok(())),
        ("three", [2, 2, 2, 0], 3, 160, SHAPE),
        ("none", [2, 2, 2, 0], 0, 160, SHAPE),
        ("a value short", [2, 2, 2, 0], 1, 111, SHAPE),
        ("one grid point", [2, 1, 2, 0], 1, 160, SHAPE),
        (
            "a fourth channel is not asked",
            [2, 2, 2, 1],
            1,
            112,
            Ok(()),
        ),
        ("another grid", [2, 3, 2, 0], 1, 123, SHAPE),
    ];
    for (name, grid, size, length, want) in cases {
        let size = [size, 0, 0, 0];
        let body = [PLAIN, PLAIN, PLAIN, &grid, &[0; 12], &size, &[0; 72]];
        let found = fault(rt.alloc(), [3, 3], [32, 0, 0, 68, 32], &body, length);
        assert_eq!(rt; found, want, "{name}");
    }
    Ok(())
}
