//! Look-ups of names in a dictionary of 1,000 names, and in a `HashMap` of the same keys: ten million, or ten
//! thousand.

use crate::{Size, no_memory};
use press_fault::{Mem, Name, NoMemory};
use ps_store::{Key, Obj, Sought, Store, Symbol};
use std::alloc::Global;
use std::collections::HashMap;
use std::io;
use std::time::Instant;

const NAMES: u32 = 1_000;

/// The name `name` with three digits behind it.
fn numbered(n: u32) -> Mem<Name> {
    let digit = |n: u32| -> u8 { b'0' + (n % 10) as u8 };
    let text = [
        b'n',
        b'a',
        b'm',
        b'e',
        digit(n / 100),
        digit(n / 10),
        digit(n),
    ];
    match Name::of(&text) {
        Some(name) => Ok(name),
        None => Err(NoMemory),
    }
}

/// The names, as a store keeps them.
fn names_of(alloc: Global, store: &mut Store) -> Mem<Vec<Symbol>> {
    let mut names = Vec::new(alloc);
    for n in 0..NAMES {
        names.push(store.symbol(&numbered(n)?)?)?;
    }
    Ok(names)
}

/// The names as keys.
fn keys_of(alloc: Global, names: &[Symbol]) -> Mem<Vec<Key>> {
    let mut keys = Vec::new(alloc);
    for name in names {
        keys.push(Key::Named(name.again()))?;
    }
    Ok(keys)
}

fn map_of(alloc: Global, keys: &[Key]) -> Mem<HashMap<Key, Obj>> {
    let mut map = HashMap::new(alloc);
    for key in keys {
        map.insert(key.again(), Obj::Null)?;
    }
    Ok(map)
}

/// Defines the names in a new dictionary, and gives its number.
fn defined(store: &mut Store, keys: &[Key]) -> Mem<u32> {
    let Ok(dict) = store.new_dict() else {
        return Err(NoMemory);
    };
    for key in keys {
        let key = Sought::key(key.again());
        if store.define(dict, &key, Obj::Null).is_err() {
            return Err(NoMemory);
        }
    }
    Ok(dict)
}

fn found_in_dictionary(store: &Store, dict: u32, names: &[Symbol], rounds: u32) -> u32 {
    let mut found = 0u32;
    for _ in 0..rounds {
        for name in names {
            if store.look_up_name(dict, name).is_some() {
                found = found.wrapping_add(1);
            }
        }
    }
    found
}

fn found_in_map(map: &HashMap<Key, Obj>, keys: &[Key], rounds: u32) -> u32 {
    let mut found = 0u32;
    for _ in 0..rounds {
        for key in keys {
            if map.get(key).is_some() {
                found = found.wrapping_add(1);
            }
        }
    }
    found
}

/// Prints how many were found, and the milliseconds of each.
pub(crate) fn run(rt: &HostRuntime, size: Size) -> io::Result<()> {
    let alloc = rt.alloc();
    let rounds = size.rounds(10_000, 10);
    let Ok(mut store) = Store::new(alloc) else {
        return Err(no_memory());
    };
    let Ok(names) = names_of(alloc, &mut store) else {
        return Err(no_memory());
    };
    let Ok(keys) = keys_of(alloc, &names) else {
        return Err(no_memory());
    };
    let Ok(map) = map_of(alloc, &keys) else {
        return Err(no_memory());
    };
    let Ok(dict) = defined(&mut store, &keys) else {
        return Err(no_memory());
    };
    let start = Instant::now(rt)?;
    let found = found_in_dictionary(&store, dict, &names, rounds);
    let in_dictionary = start.elapsed(rt)?.as_millis();
    let start = Instant::now(rt)?;
    let found_too = found_in_map(&map, &keys, rounds);
    let in_map = start.elapsed(rt)?.as_millis();
    println!(rt; "store: {found} found in the dictionary, {found_too} in the map")?;
    eprintln!(rt; "store: {in_dictionary} ms in the dictionary, {in_map} ms in the map")?;
    Ok(())
}
