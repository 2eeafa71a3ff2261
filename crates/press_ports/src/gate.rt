//! What a band passes before it is drawn. A gate changes nothing of a page: tests hold bands in it,
//! and so show that two are in hand at the same time.

use std::sync::atomic::{AtomicBool, AtomicU64, Ordering};

/// What each band passes before it is drawn, on whatever thread draws it.
pub trait Gate {
    /// Returns once the band may be drawn. It always returns.
    fn pass(&self, band: u32);
}

/// A gate that holds nobody.
#[derive(Clone, Copy, Debug, PartialEq, Eq)]
pub struct OpenGate;

impl Gate for OpenGate {
    fn pass(&self, _band: u32) {}
}

// Who has come to a held gate so far.
const NOBODY: u64 = 0;

const THE_FIRST: u64 = 1;

const A_SECOND: u64 = 2;

/// A gate for tests: it holds the first band that comes until a second has come, for so many turns
/// at most. One turn is one load of an atomic word.
#[derive(Drop)]
pub struct HeldGate {
    turns: u64,
    come: AtomicU64,
    timed_out: AtomicBool,
}

impl HeldGate {
    /// A gate to which no band has come.
    pub fn new(turns: u64) -> HeldGate {
        HeldGate {
            turns,
            come: AtomicU64::new(NOBODY),
            timed_out: AtomicBool::new(false),
        }
    }

    /// Whether the turns were used up while no second band had come.
    pub fn timed_out(&self) -> bool {
        self.timed_out.load(Ordering::SeqCst)
    }

    fn hold(&self) {
        for _ in 0..self.turns {
            if self.come.load(Ordering::SeqCst) == A_SECOND {
                return;
            }
        }
        self.timed_out.store(true, Ordering::SeqCst);
    }
}

impl Gate for HeldGate {
    fn pass(&self, _band: u32) {
        let order = Ordering::SeqCst;
        match self.come.compare_exchange(NOBODY, THE_FIRST, order, order) {
            Ok(_) => self.hold(),
            Err(_) => self.come.store(A_SECOND, order),
        }
    }
}
