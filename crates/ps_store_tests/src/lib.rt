//! Worked examples of the store and the table of operators that no program can show.
#![tactic(auto)]

use press_fault::Name;
use ps_store::{Obj, Oper, Store};
use std::alloc::Global;
use std::test::Fail;

fn number_of(name: &str) -> Option<u8> {
    for op in Oper::built() {
        if op.name() == name {
            return Some(op.number());
        }
    }
    None
}

#[test]
fn numbers_are_places_in_the_table(rt: HostRuntime) {
    let cases = [
        ("pop", 0),
        ("<<", 10),
        ("bitshift", 40),
        (">>", 48),
        ("stopped", 79),
        ("quit", 80),
        ("readhexstring", 84),
        ("gsave", 85),
        ("eofill", 124),
        ("erasepage", 135),
    ];
    for (name, number) in cases {
        assert_eq!(rt; number_of(name), Some(number), "{name}");
    }
}

/// The numbers of a string, a dictionary and an array, made in this order.
fn numbers(alloc: Global) -> Result<(u32, u32, u32), Fail> {
    let mut store = Store::new(alloc)?;
    let text = store.new_text_of(b"abcd")?;
    let dict = store.new_dict()?;
    let array = store.new_array_of(&[Obj::Mark, Obj::Null])?;
    Ok((text.id, dict, array.id))
}

#[test]
fn composites_have_one_numbering(rt: HostRuntime) -> Result<(), Fail> {
    assert_eq!(rt; numbers(rt.alloc())?, (0, 1, 2));
    Ok(())
}

/// Whether a name is known before its symbol is made, and afterwards.
fn known(alloc: Global, bytes: &[u8]) -> Result<(bool, bool), Fail> {
    let mut store = Store::new(alloc)?;
    let Some(name) = Name::of(bytes) else {
        return Ok((false, false));
    };
    let before = store.known_symbol(&name).is_some();
    store.symbol(&name)?;
    Ok((before, store.known_symbol(&name).is_some()))
}

#[test]
fn a_name_is_known_once_it_has_a_symbol(rt: HostRuntime) -> Result<(), Fail> {
    assert_eq!(rt; known(rt.alloc(), b"gold")?, (false, true));
    assert_eq!(rt; known(rt.alloc(), b"")?, (false, true));
    assert_eq!(rt; known(rt.alloc(), b"integertype")?, (true, true));
    Ok(())
}
