//! Lattices of one and of three channels: at grid points, between them, and at both ends.
ghost use Rattle.std.specs.Prelude.{◌≡◌, length, IfOk};
ghost use Rattle.icc_tables.specs.Lattice.{AreAtMost};

use byteorder::{BigEndian, ByteOrder};
use icc_model::{Lut, NodeSize, Nodes, SharedBytes, Values, lattice_at};
use std::alloc::{AllocError, Global};
use std::test::Fail;

/// The matrix that changes nothing.
const SAME: [i32; 9] = [65536, 0, 0, 0, 65536, 0, 0, 0, 65536];

/// Nodes of these values, of two bytes each.
fn nodes(alloc: Global, values: &[u16]) -> Result<Nodes, AllocError>
    ensures count { IfOk result (λ nodes. length nodes ≡ length values.now) }
    ensures most { IfOk result (AreAtMost 65535) }
{
    let mut bytes = vec![in alloc; 0; 2 * values.len()]?;
    BigEndian::write_u16_into(values, &mut bytes);
    let bytes = SharedBytes::new(alloc, bytes)?;
    Ok(Nodes::new(bytes, 0, values.len(), NodeSize::Word))
}

#[test]
fn a_lattice_of_one_channel(rt: HostRuntime) -> Result<(), Fail> {
    let lut = Lut {
        wide: true,
        inputs: 1,
        grid: 3,
        matrix: SAME,
        before_count: 2,
        after_count: 2,
        before: Values::from_vec(vec![in rt.alloc(); 0, 65535]?),
        nodes: nodes(
            rt.alloc(),
            &[19772, 0, 65535, 11265, 65535, 0, 0, 65535, 6105],
        )?,
        after: Values::from_vec(vec![in rt.alloc(); 0, 65535, 0, 65535, 0, 65535]?),
    };
    // point, values
    let cases = [
        ([0], [19772, 0, 65535]),
        ([1], [19772, 2, 65533]),
        ([2], [19771, 4, 65531]),
        ([100], [19746, 200, 65335]),
        ([16383], [15519, 32766, 32769]),
        ([16384], [15518, 32768, 32767]),
        ([20000], [14580, 40000, 25535]),
        ([32766], [11265, 65532, 3]),
        ([32767], [11265, 65534, 1]),
        ([32768], [11265, 65535, 0]),
        ([32769], [11264, 65535, 0]),
        ([40000], [8779, 65535, 1348]),
        ([49151], [5633, 65535, 3052]),
        ([49152], [5632, 65535, 3053]),
        ([50000], [5341, 65535, 3211]),
        ([60000], [1903, 65535, 5074]),
        ([65000], [184, 65535, 6005]),
        ([65533], [1, 65535, 6105]),
        ([65534], [0, 65535, 6105]),
        ([65535], [0, 65535, 6105]),
    ];
    for (point, want) in cases {
        let mut out = [0; 3];
        lattice_at(&lut, &point, &mut out);
        assert_eq!(rt; out, want);
    }
    Ok(())
}

#[test]
fn a_lattice_of_three_channels(rt: HostRuntime) -> Result<(), Fail> {
    let lut = Lut {
        wide: true,
        inputs: 3,
        grid: 2,
        matrix: SAME,
        before_count: 2,
        after_count: 2,
        before: Values::from_vec(vec![in rt.alloc(); 0, 65535, 0, 65535, 0, 65535]?),
        nodes: nodes(
            rt.alloc(),
            &[
                0, 65535, 26787, 250, 15716, 65535, 0, 60707, 65535, 65535, 19159, 65535, 0, 65535,
                27661, 65535, 33995, 17180, 65535, 2451, 65535, 18554, 15772, 0,
            ],
        )?,
        after: Values::from_vec(vec![in rt.alloc(); 0, 65535, 0, 65535, 0, 65535]?),
    };
    // point, values
    let cases = [
        ([0, 0, 0], [0, 65535, 26787]),
        ([65535, 65535, 65535], [18554, 15772, 0]),
        ([65535, 0, 0], [0, 65535, 27661]),
        ([0, 65535, 0], [0, 60707, 65535]),
        ([0, 0, 65535], [250, 15716, 65535]),
        ([1, 65534, 32768], [32768, 39932, 65534]),
        ([56045, 32768, 1], [28023, 38210, 46535]),
        ([1, 32767, 44833], [22502, 31868, 59414]),
        ([65534, 65535, 65535], [18555, 15772, 1]),
        ([1, 45482, 22026], [15312, 47369, 57663]),
        ([32767, 52153, 10561], [28348, 35364, 53975]),
        ([56429, 36493, 32767], [35206, 28949, 32180]),
        ([0, 1, 54912], [210, 23792, 59254]),
        ([16448, 7076, 51658], [16647, 29267, 48324]),
        ([65535, 65535, 0], [65535, 2451, 65535]),
        ([0, 32767, 45533], [22853, 31381, 59622]),
        ([15119, 65535, 1], [15120, 47267, 65535]),
        ([32768, 3544, 34224], [18283, 43205, 35352]),
        ([32768, 32768, 26203], [24814, 37603, 42654]),
        ([0, 32768, 65534], [32892, 17438, 65535]),
    ];
    for (point, want) in cases {
        let mut out = [0; 3];
        lattice_at(&lut, &point, &mut out);
        assert_eq!(rt; out, want);
    }
    Ok(())
}
