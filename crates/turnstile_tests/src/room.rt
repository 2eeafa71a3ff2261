//! A room that at most one of four seats holds, as an entry of a cache is held.
ghost use Rattle.std.specs.Prelude.{◌≡◌, ◌≢◌, ℕ, ◌<◌, slice_index_or};
ghost use Rattle.turnstile.specs.declared.claim.Claim.TheVariants.{Free, Holds};
ghost use Rattle.turnstile.specs.Tokens.{id_of, lock_of};
ghost use Rattle.turnstile_tests.specs.Passes.{IsIdle, IsReady};

use std::sync::Wait;
use std::thread;
use turnstile::{Claim, Listing, Pass, Turnstile};

/// A room, the claims of its four seats, and the number of visits so far.
#[derive(Drop)]
pub struct Room {
    claims: [Claim; 4],
    visits: u64,
}

impl Listing for Room {
    ghost use Rattle.std.specs.Prelude.{slice_index_or};
    ghost use Rattle.turnstile.specs.declared.claim.Claim.TheVariants.{Free};

    ghost listed = { λ room seat. slice_index_or room.claims seat Free };

    fn claim(&self, seat: u32) -> Claim {
        let at = seat as usize;
        if at < 4 { self.claims[at] } else { Claim::Free }
    }
}

impl Room {
    /// A room that nobody holds.
    pub fn new() -> Room
        ensures { (n : ℕ) → n < 4 → slice_index_or result.claims n Free ≡ Free }
    {
        Room {
            claims: [Claim::Free; 4],
            visits: 0,
        }
    }

    /// How often the room was held.
    pub fn visits(&self) -> u64 {
        self.visits
    }

    fn is_free(&self) -> bool {
        self.claims.iter().all(|claim| *claim == Claim::Free)
    }

    fn set(&mut self, seat: u32, claim: Claim)
        requires { seat < 4 }
        ensures own { slice_index_or self.new.claims seat Free ≡ claim }
        ensures others { (m : ℕ) → m ≢ seat → slice_index_or self.new.claims m Free
            ≡ slice_index_or self.old.claims m Free }
    {
        self.claims[seat as usize] = claim;
    }
}

/// One turn of a seat, in which it claims. Answers what was listed for both seats before.
pub fn claim_in_a_turn<R: Wait>(
    rt: &R,
    lock: &Turnstile<Room>,
    pass: &mut Pass<Room>,
    claim: Claim,
) -> (Claim, Claim)
    requires { IsIdle lock.now pass.old.number pass.old × (pass.old.number < 4) }
    ensures { IsIdle lock.now pass.old.number pass.new × (pass.new.claim ≡ claim) }
{
    let mut room = lock.take_turn(rt, pass);
    let found = (room.claim(0), room.claim(1));
    room.set(pass.number(), claim);
    lock.leave_turn(pass, room);
    found
}

/// Rests until nobody holds the room, and holds it under the number of the visit.
fn enter<R: Wait>(rt: &R, lock: &Turnstile<Room>, pass: &mut Pass<Room>) -> u64
    requires { IsReady lock.now pass.old.number pass.old × (pass.old.number < 4) }
    ensures { IsIdle lock.now pass.old.number pass.new × (pass.new.claim ≡ Holds result) }
{
    let mut room = lock.take_turn(rt, pass);
    for _ in rt.forever() {
        if room.is_free() {
            break;
        }
        room = lock.rest(rt, pass, room);
    }
    let visit = room.visits;
    room.visits = visit.wrapping_add(1);
    room.set(pass.number(), Claim::Holds(visit));
    lock.leave_turn(pass, room);
    visit
}

/// Leaves the room. The seat is listed as its holder, which is proved.
fn leave<R: Wait>(rt: &R, lock: &Turnstile<Room>, pass: &mut Pass<Room>, visit: u64)
    requires { IsIdle lock.now pass.old.number pass.old × (pass.old.claim ≡ Holds visit) × (pass.old.number < 4) }
    ensures { IsReady lock.now pass.old.number pass.new }
{
    let mut room = lock.take_turn(rt, pass);
    let listed = room.claim(pass.number()) == Claim::Holds(visit);
    prove!(listed);
    room.set(pass.number(), Claim::Free);
    lock.leave_turn(pass, room);
}

/// So many visits, each longer than its turn.
pub fn visit<R: Wait>(rt: &R, lock: &Turnstile<Room>, pass: Pass<Room>, times: u64) -> Pass<Room>
    requires { IsReady lock.now pass.number pass × (pass.number < 4) }
    ensures { IsReady lock.now pass.number result }
{
    let mut pass = pass;
    for _ in 0..times {
        let visit = enter(rt, lock, &mut pass);
        thread::yield_now();
        leave(rt, lock, &mut pass, visit);
    }
    pass
}
