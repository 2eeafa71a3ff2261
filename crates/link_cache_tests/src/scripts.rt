//! The table of scripts.
use crate::player::played;
use std::test::Fail;

/// Two seats, one place.
const TWO_ON_ONE: [(&str, &str, &str); 4] = [
    (
        "a withdrawn build leaves no entry, and who waited for it is told to build",
        "0a 1a 0- 1a 1+ 1-",
        "Ra0:B0I Ka0:B0K0 W0:IC Ra1:IB1 P1:IH1 L1:II ",
    ),
    (
        "there is no room while the entry is built, or held",
        "0a 1b 0+ 1b 0- 1b 1+ 1-",
        "Ra0:B0I Mb:B0M P0:H0M Mb:H0M L0:IC Eb0Rb1:IB1 P1:IH1 L1:II ",
    ),
    (
        "the last of two holders makes room",
        "0a 0+ 1a 0- 0b 1- 0b 0-",
        "Ra0:B0I P0:H0I Ha0:H0H0 L0:IH0 Mb:MH0 L0:CI Eb0Rb1:B1I W1:II ",
    ),
    (
        "a withdrawn build makes room",
        "0a 1b 0- 1b",
        "Ra0:B0I Mb:B0M W0:IC Rb1:IB1 ",
    ),
];

/// Two seats, two places.
const TWO_ON_TWO: [(&str, &str, &str); 6] = [
    (
        "two keys are built at once",
        "0a 1b 0+ 1+ 0- 1-",
        "Ra0:B0I Rb1:B0B1 P0:H0B1 P1:H0H1 L0:IH1 L1:II ",
    ),
    (
        "the least recently used entry goes",
        "0a 0+ 0- 0b 0+ 0- 0a 0- 0c 0+ 0-",
        "Ra0:B0I P0:H0I L0:II Rb1:B1I P1:H1I L1:II Ha0:H0I L0:II Ec1Rc2:B2I P2:H2I L2:II ",
    ),
    (
        "a held entry stays, though it is the first",
        "0a 0+ 1b 1+ 1- 1c",
        "Ra0:B0I P0:H0I Rb1:H0B1 P1:H0H1 L1:H0I Ec1Rc2:H0B2 ",
    ),
    (
        "who waits for a key is called once it is published",
        "0a 1a 0+ 1a 0- 1-",
        "Ra0:B0I Ka0:B0K0 P0:H0C Ha0:H0H0 L0:IH0 L0:II ",
    ),
    (
        "an order that was cleared is handed back in vain",
        "0a 1a 0x 0- 1a",
        "Ra0:B0I Ka0:B0K0 W0:IC :IC Ra1:IB1 ",
    ),
    (
        "who was called is idle once the journal is settled",
        "0a 1a 0- 0=",
        "Ra0:B0I Ka0:B0K0 W0:IC :II ",
    ),
];

/// Two seats, three places.
const TWO_ON_THREE: [(&str, &str, &str); 4] = [
    (
        "a lease that was cleared is given back in vain",
        "0a 0+ 0x 0- 1a",
        "Ra0:B0I P0:H0I L0:II :II Ha0:IH0 ",
    ),
    (
        "a key comes again under a new residency",
        "0a 0- 0a 0+ 0-",
        "Ra0:B0I W0:II Ra1:B1I P1:H1I L1:II ",
    ),
    (
        "who waits may look for another key",
        "0a 1a 1b 0+ 1+ 0- 1-",
        "Ra0:B0I Ka0:B0K0 Rb1:B0B1 P0:H0B1 P1:H0H1 L0:IH1 L1:II ",
    ),
    (
        "an entry stays once the journal is settled",
        "0a 0+ 0- 0= 1a 1-",
        "Ra0:B0I P0:H0I L0:II :II Ha0:IH0 L0:II ",
    ),
];

/// Three seats, one place.
const THREE_ON_ONE: [(&str, &str, &str); 4] = [
    (
        "two wait for one key",
        "0a 1a 2a 0+ 1a 2a 0- 1- 2-",
        "Ra0:B0II Ka0:B0K0I Ka0:B0K0K0 P0:H0CC Ha0:H0H0C Ha0:H0H0H0 L0:IH0H0 L0:IIH0 L0:III ",
    ),
    (
        "a withdrawn build calls who waits for its key and who waits for room",
        "0a 1a 2b 0- 1a 2b",
        "Ra0:B0II Ka0:B0K0I Mb:B0K0M W0:ICC Ra1:IB1C Mb:IB1M ",
    ),
    (
        "the last of two holders calls who waits for room",
        "0a 0+ 1a 2b 0- 1- 2b",
        "Ra0:B0II P0:H0II Ha0:H0H0I Mb:H0H0M L0:IH0M L0:IIC Eb0Rb1:IIB1 ",
    ),
    (
        "of two that are called for room the second finds the key being built",
        "0a 0+ 1b 2b 0- 1b 2b",
        "Ra0:B0II P0:H0II Mb:H0MI Mb:H0MM L0:ICC Eb0Rb1:IB1C Kb1:IB1K1 ",
    ),
];

/// Three seats, two places.
const THREE_ON_TWO: [(&str, &str, &str); 2] = [
    (
        "there is no room while one entry is held and one is built",
        "0a 1b 2c 0+ 2c 1+ 0- 2c",
        "Ra0:B0II Rb1:B0B1I Mc:B0B1M P0:H0B1M Mc:H0B1M P1:H0H1M L0:IH1C Ec0Rc2:IH1B2 ",
    ),
    (
        "entries stand in the order in which they were given back",
        "0a 0+ 1b 1+ 1- 0- 2c 2+ 2- 2a",
        "Ra0:B0II P0:H0II Rb1:H0B1I P1:H0H1I L1:H0II L0:III Ec1Rc2:IIB2 P2:IIH2 L2:III Ha0:IIH0 ",
    ),
];

/// Three seats, three places.
const THREE_ON_THREE: [(&str, &str, &str); 2] = [
    (
        "three keys are built at once",
        "0a 1b 2c 2+ 1+ 0+ 0- 1- 2- 0d",
        "Ra0:B0II Rb1:B0B1I Rc2:B0B1B2 P2:B0B1H2 P1:B0H1H2 P0:H0H1H2 L0:IH1H2 L1:IIH2 L2:III Ed0Rd3:B3II ",
    ),
    (
        "an entry that is used again isn't the first to go",
        "0a 0+ 0- 0b 0+ 0- 0c 0+ 0- 1a 1- 2d",
        "Ra0:B0II P0:H0II L0:III Rb1:B1II P1:H1II L1:III Rc2:B2II P2:H2II L2:III Ha0:IH0I L0:III Ed1Rd3:IIB3 ",
    ),
];

#[test]
fn two_seats_share_one_place(rt: HostRuntime) -> Result<(), Fail> {
    for (name, script, expected) in TWO_ON_ONE.as_slice() {
        let found = played(rt.alloc(), 2, 1, script)?;
        assert_eq!(rt; found.as_slice(), expected.as_bytes(), "{name}");
    }
    Ok(())
}

#[test]
fn two_seats_share_two_places(rt: HostRuntime) -> Result<(), Fail> {
    for (name, script, expected) in TWO_ON_TWO.as_slice() {
        let found = played(rt.alloc(), 2, 2, script)?;
        assert_eq!(rt; found.as_slice(), expected.as_bytes(), "{name}");
    }
    Ok(())
}

#[test]
fn two_seats_share_three_places(rt: HostRuntime) -> Result<(), Fail> {
    for (name, script, expected) in TWO_ON_THREE.as_slice() {
        let found = played(rt.alloc(), 2, 3, script)?;
        assert_eq!(rt; found.as_slice(), expected.as_bytes(), "{name}");
    }
    Ok(())
}

#[test]
fn three_seats_share_one_place(rt: HostRuntime) -> Result<(), Fail> {
    for (name, script, expected) in THREE_ON_ONE.as_slice() {
        let found = played(rt.alloc(), 3, 1, script)?;
        assert_eq!(rt; found.as_slice(), expected.as_bytes(), "{name}");
    }
    Ok(())
}

#[test]
fn three_seats_share_two_places(rt: HostRuntime) -> Result<(), Fail> {
    for (name, script, expected) in THREE_ON_TWO.as_slice() {
        let found = played(rt.alloc(), 3, 2, script)?;
        assert_eq!(rt; found.as_slice(), expected.as_bytes(), "{name}");
    }
    Ok(())
}

#[test]
fn three_seats_share_three_places(rt: HostRuntime) -> Result<(), Fail> {
    for (name, script, expected) in THREE_ON_THREE.as_slice() {
        let found = played(rt.alloc(), 3, 3, script)?;
        assert_eq!(rt; found.as_slice(), expected.as_bytes(), "{name}");
    }
    Ok(())
}
