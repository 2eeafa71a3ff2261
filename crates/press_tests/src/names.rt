//! Names of at most 127 bytes, and the texts and codes of faults.

use press_fault::{Name, ProfileFault, PsName};
use std::test::Fail;

/// So many bytes of a text of 128.
fn letters(text: &[u8], len: usize) -> Result<&[u8], Fail> {
    Ok(text.get(..len).ok_or("too long")?)
}

#[test]
fn a_name_has_at_most_127_bytes(rt: HostRuntime) -> Result<(), Fail> {
    let text = [b'n'; 128];
    for len in [0, 1, 127] {
        let front = letters(&text, len)?;
        let name = Name::of(front).ok_or("a name")?;
        assert_eq!(rt; name.bytes(), front, "at {len}");
    }
    assert!(rt; Name::of(&text).is_none());
    Ok(())
}

#[test]
fn names_are_equal_by_their_bytes(rt: HostRuntime) {
    let first = Name::of(b"rectfill");
    assert_eq!(rt; first, Name::of(b"rectfill"));
    assert_ne!(rt; first, Name::of(b"rectfil"));
}

#[test]
fn names_print_as_in_the_reference(rt: HostRuntime) {
    let cases = [
        (PsName::StackUnderflow, "stackunderflow"),
        (PsName::NoCurrentPoint, "nocurrentpoint"),
        (PsName::InvalidFont, "invalidfont"),
        (PsName::Timeout, "timeout"),
    ];
    for (name, text) in cases {
        assert_eq!(rt; name.text(), text);
    }
}

#[test]
fn faults_of_profiles_are_numbered(rt: HostRuntime) {
    for (fault, number) in [(ProfileFault::TooShort, 1), (ProfileFault::Role, 10)] {
        assert_eq!(rt; fault.code(), number);
    }
}
