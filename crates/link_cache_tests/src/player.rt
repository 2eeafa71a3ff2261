//! Plays scripts, and writes down what they do.
//!
//! A script is a list of commands with a space between. A command is the number of a seat and what it
//! does: a small letter looks for that key, `+` publishes the order that the seat has in hand, `-`
//! hands back what it has in hand, `x` clears the seat, and `=` settles the journal.
//!
//! For each command there is a word: the steps that came into the journal, a colon, and the phases of
//! all seats. A step is a letter, its key, if it has one, and its residency: `H` hit, `E` evict, `R`
//! reserve, `P` publish, `W` withdraw, `L` release, `K` wait for a key, `M` wait for room. Keys that are
//! looked for in the order of the alphabet have its letters. A phase is a letter and its residency: `I`
//! idle, `B` building, `H` holding, `K` waiting for a key, `M` waiting for room, `C` called.
ghost use Rattle.std.specs.Prelude.{◌≤◌};

use crate::letters::{Letter, Plain};
use cache_core::{Phase, Step};
use link_cache::{CacheState, Lease, Look, Order, make};
use press_fault::Mem;
use std::alloc::Global;
use std::mem;

/// What a seat has in hand.
enum Hand {
    Nothing,
    Leased(Lease<Letter>),
    Ordered(Order<Letter>),
}

/// Hands back what a seat has in hand.
fn hand_back(state: &mut CacheState<Letter>, hand: Hand) {
    match hand {
        Hand::Nothing => {}
        Hand::Leased(lease) => state.release(lease),
        Hand::Ordered(order) => state.withdraw(order),
    }
}

/// What the seats have in hand.
struct Hands {
    first: Hand,
    second: Hand,
    third: Hand,
}

impl Hands {
    /// Puts something in a seat's hand, and answers what it had.
    fn swap(&mut self, seat: u32, hand: Hand) -> Hand {
        match seat {
            0 => mem::replace(&mut self.first, hand),
            1 => mem::replace(&mut self.second, hand),
            _ => mem::replace(&mut self.third, hand),
        }
    }

    fn hand_all_back(self, state: &mut CacheState<Letter>) {
        let Hands {
            first,
            second,
            third,
        } = self;
        hand_back(state, first);
        hand_back(state, second);
        hand_back(state, third);
    }
}

/// Looks for a key, and takes what the seat is told in its hand.
fn look(state: &mut CacheState<Letter>, hands: &mut Hands, seat: u32, key: u8) -> Mem<()> {
    if !state.core().is_free(seat) {
        return Ok(());
    }
    let hand = match state.look(seat, &key)? {
        Look::Have(lease) => Hand::Leased(lease),
        Look::Build(order) => Hand::Ordered(order),
        Look::Wait => Hand::Nothing,
    };
    let old = hands.swap(seat, hand);
    hand_back(state, old);
    Ok(())
}

/// Publishes what a seat has to make, and answers what it has in hand then.
fn publish(alloc: Global, state: &mut CacheState<Letter>, hand: Hand) -> Hand {
    match hand {
        Hand::Ordered(order) => match make(alloc, &Plain, &order) {
            Ok((value, copy)) => {
                if state.is_in_order(&order) {
                    Hand::Leased(state.publish(order, value, copy))
                } else {
                    Hand::Ordered(order)
                }
            }
            Err(_) => Hand::Ordered(order),
        },
        other => other,
    }
}

/// Does what a seat does by a command.
fn act(
    alloc: Global,
    state: &mut CacheState<Letter>,
    hands: &mut Hands,
    seat: u32,
    what: u8,
) -> Mem<()> {
    match what {
        b'+' => {
            let hand = hands.swap(seat, Hand::Nothing);
            let hand = publish(alloc, state, hand);
            let nothing = hands.swap(seat, hand);
            hand_back(state, nothing);
            Ok(())
        }
        b'-' => {
            let hand = hands.swap(seat, Hand::Nothing);
            hand_back(state, hand);
            Ok(())
        }
        b'x' => {
            state.clear(seat);
            Ok(())
        }
        b'=' => {
            if state.quiet() {
                state.settle();
            }
            Ok(())
        }
        key => look(state, hands, seat, key),
    }
}

fn digit(n: u64) -> u8 {
    b'0' + (n % 10) as u8
}

fn letter(key: u64) -> u8 {
    b'a' + (key % 26) as u8
}

/// Writes a step.
fn write_step(text: &mut Vec<u8>, step: &Step) -> Mem<()> {
    match *step {
        Step::Hit { key, res, .. } => Ok(text.extend_from_slice(&[b'H', letter(key), digit(res)])?),
        Step::Evict { key, res, .. } => {
            Ok(text.extend_from_slice(&[b'E', letter(key), digit(res)])?)
        }
        Step::Reserve { key, res, .. } => {
            Ok(text.extend_from_slice(&[b'R', letter(key), digit(res)])?)
        }
        Step::Publish { res, .. } => Ok(text.extend_from_slice(&[b'P', digit(res)])?),
        Step::Withdraw { res, .. } => Ok(text.extend_from_slice(&[b'W', digit(res)])?),
        Step::Release { res, .. } => Ok(text.extend_from_slice(&[b'L', digit(res)])?),
        Step::WaitKey { key, res, .. } => {
            Ok(text.extend_from_slice(&[b'K', letter(key), digit(res)])?)
        }
        Step::WaitRoom { key, .. } => Ok(text.extend_from_slice(&[b'M', letter(key)])?),
    }
}

/// Writes a phase.
fn write_phase(text: &mut Vec<u8>, phase: Phase) -> Mem<()> {
    match phase {
        Phase::Idle => Ok(text.push(b'I')?),
        Phase::Building(res) => Ok(text.extend_from_slice(&[b'B', digit(res)])?),
        Phase::Holding(res) => Ok(text.extend_from_slice(&[b'H', digit(res)])?),
        Phase::WaitKey(res) => Ok(text.extend_from_slice(&[b'K', digit(res)])?),
        Phase::WaitRoom => Ok(text.push(b'M')?),
        Phase::Called => Ok(text.push(b'C')?),
    }
}

/// Writes the steps of the journal past so many.
fn write_steps(text: &mut Vec<u8>, journal: &[Step], past: usize) -> Mem<()> {
    for (i, step) in journal.iter().enumerate() {
        if past <= i {
            write_step(text, step)?;
        }
    }
    Ok(())
}

/// Writes the phases of all seats.
fn write_phases(text: &mut Vec<u8>, state: &CacheState<Letter>) -> Mem<()> {
    let core = state.core();
    for seat in 0..core.seats() {
        write_phase(text, core.phase(seat))?;
    }
    Ok(())
}

/// Does a command, and writes its word.
fn play_one(
    alloc: Global,
    state: &mut CacheState<Letter>,
    hands: &mut Hands,
    text: &mut Vec<u8>,
    command: &[u8],
) -> Mem<()> {
    let [seat, what, ..] = command else {
        return Ok(());
    };
    let past = state.journal().len();
    act(
        alloc,
        state,
        hands,
        u32::from(seat.wrapping_sub(b'0')),
        *what,
    )?;
    write_steps(text, state.journal(), past)?;
    text.push(b':')?;
    write_phases(text, state)?;
    Ok(text.push(b' ')?)
}

fn play(
    alloc: Global,
    state: &mut CacheState<Letter>,
    hands: &mut Hands,
    text: &mut Vec<u8>,
    script: &[u8],
) -> Mem<()> {
    for command in script.chunks(3) {
        play_one(alloc, state, hands, text, command)?;
    }
    Ok(())
}

/// The words of a script on an empty cache, each with a space behind it.
pub fn played(alloc: Global, seats: u32, capacity: u32, script: &str) -> Mem<Vec<u8>>
    requires seats { seats ≤ 16 }
    requires capacity { capacity ≤ 64 }
{
    let mut state = CacheState::<Letter>::new(alloc, capacity, seats)?;
    let mut hands = Hands {
        first: Hand::Nothing,
        second: Hand::Nothing,
        third: Hand::Nothing,
    };
    let mut text = Vec::new(alloc);
    let outcome = play(alloc, &mut state, &mut hands, &mut text, script.as_bytes());
    hands.hand_all_back(&mut state);
    outcome?;
    Ok(text)
}
