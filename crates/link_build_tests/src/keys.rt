//! When two keys are the same, and that a link has the key asked.
use icc_model::{Base, Curve, Intent, Profile, SharedBytes};
use link_build::{Link, LinkKey, build};
use link_cache::Made;
use press_fault::Mem;
use std::alloc::Global;
use std::sync::Arc;
use std::test::Fail;

/// RGB whose values are X, Y and Z, read from these bytes.
fn of_bytes(alloc: Global, bytes: &[u8]) -> Mem<Profile> {
    let base = Some(Base::Matrix {
        columns: [131070, 0, 0, 0, 131070, 0, 0, 0, 131070],
        curves: [Curve::identity(), Curve::identity(), Curve::identity()],
    });
    let bytes = SharedBytes::new(alloc, Vec::from_slice(alloc, bytes)?)?;
    Ok(Profile::of_parts(
        bytes,
        false,
        3,
        base,
        [None, None, None],
        [None, None, None],
    ))
}

/// A key of profiles of these bytes, where the target can receive.
fn key(alloc: Global, source: &[u8], target: &[u8], intent: Intent) -> Mem<Option<LinkKey>> {
    let source = Arc::new(alloc, of_bytes(alloc, source)?)?;
    let target = Arc::new(alloc, of_bytes(alloc, target)?)?;
    if !target.can_receive(intent) {
        return Ok(None);
    }
    Ok(Some(LinkKey::new(source, target, intent)))
}

/// Whether a key is the same as that of the bytes `ab` and `cd` for relative rendering.
fn is_same(alloc: Global, source: &[u8], target: &[u8], intent: Intent) -> Mem<Option<bool>> {
    let Some(known) = key(alloc, b"ab", b"cd", Intent::Relative)? else {
        return Ok(None);
    };
    let Some(other) = key(alloc, source, target, intent)? else {
        return Ok(None);
    };
    Ok(Some(<Link as Made>::same(&known, &other)))
}

#[test]
fn keys_are_the_same_by_bytes_and_intent(rt: HostRuntime) -> Result<(), Fail> {
    let cases: [(&[u8], &[u8], Intent, bool); 6] = [
        (b"ab", b"cd", Intent::Relative, true),
        (b"ab", b"cd", Intent::Perceptual, false),
        (b"aB", b"cd", Intent::Relative, false),
        (b"ab", b"cD", Intent::Relative, false),
        (b"a", b"bcd", Intent::Relative, false),
        (b"", b"", Intent::Relative, false),
    ];
    for (source, target, intent, want) in cases {
        assert_eq!(rt; is_same(rt.alloc(), source, target, intent)?, Some(want));
    }
    Ok(())
}

/// Whether a link has the key that it was built for, and a copy of it is the same.
fn keeps_its_key(alloc: Global) -> Mem<bool> {
    let Some(asked) = key(alloc, b"ab", b"cd", Intent::Saturation)? else {
        return Ok(false);
    };
    let link = build(alloc, &asked)?;
    let copy = <Link as Made>::copy_key(alloc, link.key())?;
    Ok(<Link as Made>::same(&asked, &copy))
}

#[test]
fn a_link_has_the_key_asked(rt: HostRuntime) -> Result<(), Fail> {
    assert!(rt; keeps_its_key(rt.alloc())?);
    Ok(())
}
