use press_ports::{Gate, HeldGate, OpenGate};
use std::sync::Wait;
use std::test::*;
use std::thread::{Threads, join};

/// Passes two bands on two threads, each once.
fn pass_two<R: Threads + Wait + Sync, G: Gate + Sync>(rt: &R, gate: &G) {
    join(rt, || gate.pass(0), || gate.pass(1));
}

#[test]
fn a_band_alone_uses_the_turns_up(rt: HostRuntime) -> Result<(), Fail> {
    for turns in [0, 1, 1000] {
        let gate = HeldGate::new(turns);
        assert!(rt; !gate.timed_out(), "before, with {turns}");
        gate.pass(0);
        assert!(rt; gate.timed_out(), "alone, with {turns}");
        gate.pass(1);
        assert!(rt; gate.timed_out(), "and a second too late, with {turns}");
    }
    Ok(())
}

#[test]
fn two_bands_at_once_use_no_turns_up(rt: HostRuntime) -> Result<(), Fail> {
    let gate = HeldGate::new(1_000_000_000);
    pass_two(&rt, &gate);
    assert!(rt; !gate.timed_out());
    gate.pass(2);
    assert!(rt; !gate.timed_out(), "a third isn't held");
    Ok(())
}

#[test]
fn an_open_gate_holds_nobody(rt: HostRuntime) -> Result<(), Fail> {
    pass_two(&rt, &OpenGate);
    OpenGate.pass(2);
    Ok(())
}
