//! The calls of the lock.
ghost use Rattle.std.specs.Prelude.{◌≡◌, ◌≢◌, ℕ, ◌+◌, ◌<◌, [], ◌∷◌, IfOk, IfErr, IsTrue, IsFalse};
ghost use Rattle.turnstile.specs.declared.claim.Claim.TheVariants.{Free};
ghost use Rattle.turnstile.specs.declared.view.Stage.TheVariants.{Won, Took};
ghost use Rattle.turnstile.specs.TurnRule.{kind_of, residency_of, IsMember, IsCount};
ghost use Rattle.turnstile.specs.Steps.{without, won};
ghost use Rattle.turnstile.specs.Tokens.{id_of, lock_of, turns_of, IsAway, HasTaken, chair_lock, out_of, KeepsOthers};

use super::{Chair, Pass, Turnstile};
use crate::claim::{Claim, Listing};
use crate::steps::{
    Count, GiveUp, JoinPass, NamePass, SetKind, SetResidency, SplitPass, TakeOut, Try,
};
use crate::view::View;
use atomic_table::{Refused, Seat, Table};
use std::alloc::Global;
use std::sync::Wait;

// The words that waking rests on, beside word 0, which says who has the turn.
const GIVEN_UP: usize = 1;

const CHANGES: usize = 2;

const WAITING: usize = 3;

const RESTING: usize = 4;

fn kind(claim: Claim) -> u64
    ensures { result ≡ kind_of claim }
{
    match claim {
        Claim::Free => 0,
        Claim::Builds(_) => 1,
        Claim::Holds(_) => 2,
    }
}

fn residency(claim: Claim) -> u64
    ensures { result ≡ residency_of claim }
{
    match claim {
        Claim::Free => 0,
        Claim::Builds(residency) => residency,
        Claim::Holds(residency) => residency,
    }
}

impl<S: Listing> Turnstile<S> {
    /// A lock over a value for so many seats, none of which may have a claim, and its chair.
    ///
    /// Out of memory hands the value back; no other cause does.
    pub fn new(alloc: Global, value: S, seats: u32) -> Result<(Turnstile<S>, Chair<S>), S>
        requires free { (n : ℕ) → n < seats → S.listed value n ≡ Free }
        ensures ok { IfOk result (λ made. (chair_lock made.1 ≡ id_of made.0) × (made.0.seats ≡ seats) ×
            (out_of made.1 ≡ [])) }
        ensures err { IfErr result (λ back. back ≡ value) }
    {
        let Ok(words) = vec![in alloc; 0u64; 2 * seats as usize + 5] else {
            return Err(value);
        };
        let Ok(mut slots) = Vec::with_capacity(alloc, 1) else {
            return Err(value);
        };
        slots.push_reserved(Some(value));
        match Table::new(alloc, &words, slots, &seats) {
            Ok((table, seat)) => Ok((Turnstile { table, seats }, Chair { seat })),
            Err(Refused { mut slots }) => {
                let value = slots.pop().unwrap().unwrap();
                slots.destroy_empty();
                Err(value)
            }
        }
    }

    /// The pass of a seat whose number isn't out. It is free and has won no turn.
    pub fn seat(&self, chair: &mut Chair<S>, n: u32) -> Pass<S>
        requires lock { chair_lock chair.old ≡ id_of self.now }
        requires seats { n < self.now.seats }
        requires fresh { ¬ IsMember n (out_of chair.old) }
        ensures chair { (chair_lock chair.new ≡ chair_lock chair.old) × (out_of chair.new ≡ n ∷ out_of chair.old) }
        ensures lock { lock_of result ≡ id_of self.now }
        ensures pass { (result.number ≡ n) × (result.claim ≡ Free) × IsAway result × (turns_of result ≡ 0) }
    {
        let shared = &self.table.shared;
        // A split reads no number, so the chair first loads a word that only this number has.
        shared.load::<NamePass>(&mut chair.seat, 2 * n as usize + 5);
        Pass {
            seat: shared.split_seat::<SplitPass>(&mut chair.seat),
            number: n,
            claim: Claim::Free,
        }
    }

    /// Takes a free pass back. Its number may be given out again.
    pub fn seat_home(&self, pass: Pass<S>, chair: &mut Chair<S>)
        requires lock { (chair_lock chair.old ≡ id_of self.now) × (lock_of pass ≡ id_of self.now) }
        requires free { pass.claim ≡ Free }
        requires away { IsAway pass }
        ensures chair { (chair_lock chair.new ≡ chair_lock chair.old) ×
            (out_of chair.new ≡ without pass.number (out_of chair.old)) }
    {
        let Pass {
            seat,
            number: _,
            claim: _,
        } = pass;
        self.table
            .shared
            .join_seat::<JoinPass>(&mut chair.seat, seat);
    }

    /// Hands the value back, which lists no claim, once every pass went home.
    pub fn close(self, chair: Chair<S>) -> S
        requires lock { chair_lock chair ≡ id_of self }
        requires none { out_of chair ≡ [] }
        ensures free { (n : ℕ) → n < self.seats → S.listed result n ≡ Free }
    {
        let Turnstile { table, seats: _ } = self;
        let Chair { seat } = chair;
        let mut closed = table.close_with(seat);
        let value = closed.take(0).unwrap();
        closed.free();
        value
    }

    /// Waits for the turn and takes the value, which lists the pass's own claim for its seat.
    pub fn take_turn<R: Wait>(&self, rt: &R, pass: &mut Pass<S>) -> S
        requires lock { lock_of pass.old ≡ id_of self.now }
        requires away { IsAway pass.old }
        ensures lock { lock_of pass.new ≡ lock_of pass.old }
        ensures seat { (pass.new.number ≡ pass.old.number) × (pass.new.claim ≡ pass.old.claim) }
        ensures turn { HasTaken pass.new result }
        ensures turns { turns_of pass.new ≡ turns_of pass.old + 1 }
        ensures own { S.listed result pass.old.number ≡ pass.old.claim }
    {
        if !self.win(pass) {
            self.wait_for_turn(rt, pass);
        }
        self.take_out(pass)
    }

    /// Hands value and turn back, and wakes one who waits for the turn and all who rest. The pass's
    /// claim becomes the one that the value lists for its seat; what it lists for others is as it
    /// was when it was taken.
    pub fn leave_turn(&self, pass: &mut Pass<S>, value: S)
        requires lock { lock_of pass.old ≡ id_of self.now }
        requires turn { KeepsOthers S.listed self.now.seats pass.old value }
        ensures lock { lock_of pass.new ≡ lock_of pass.old }
        ensures seat { (pass.new.number ≡ pass.old.number) × (pass.new.claim ≡ S.listed value pass.old.number) }
        ensures away { IsAway pass.new }
        ensures turns { turns_of pass.new ≡ turns_of pass.old }
    {
        // Counted while the pass has the turn: so the count that a pass reads in its turn is that
        // of the value which it has.
        self.count_up(&mut pass.seat, CHANGES);
        self.give_up(pass, value);
        if self.table.shared.peek(RESTING) != 0 {
            self.table.shared.wake_all(CHANGES);
        }
    }

    /// Gives the turn up, sleeps until a turn was left by `leave_turn`, and takes the turn again.
    ///
    /// The value goes back as at `leave_turn`, but this wakes nobody who rests: what the pass
    /// changed in it is nothing that others rest for. So passes that rest don't wake each other.
    pub fn rest<R: Wait>(&self, rt: &R, pass: &mut Pass<S>, value: S) -> S
        requires lock { lock_of pass.old ≡ id_of self.now }
        requires turn { KeepsOthers S.listed self.now.seats pass.old value }
        ensures lock { lock_of pass.new ≡ lock_of pass.old }
        ensures seat { (pass.new.number ≡ pass.old.number) × (pass.new.claim ≡ S.listed value pass.old.number) }
        ensures turn { HasTaken pass.new result }
        ensures turns { turns_of pass.new ≡ turns_of pass.old + 1 }
        ensures own { S.listed result pass.old.number ≡ S.listed value pass.old.number }
    {
        // Both while the pass has the turn, in which no other counts a change: a later one is above
        // this count, and who makes it finds that a pass rests. Read after the turn was given up, a
        // change between would be missed, and the pass might sleep for ever.
        let changes = self.table.shared.peek(CHANGES);
        self.count_up(&mut pass.seat, RESTING);
        self.give_up(pass, value);
        self.wait_for_change(rt, changes);
        self.count_down(&mut pass.seat, RESTING);
        self.take_turn(rt, pass)
    }

    // Asks for the turn once, and tells whether the pass has it now.
    fn win(&self, pass: &mut Pass<S>) -> bool
        requires lock { lock_of pass.old ≡ id_of self.now }
        requires away { IsAway pass.old }
        ensures lock { lock_of pass.new ≡ lock_of pass.old }
        ensures seat { (pass.new.number ≡ pass.old.number) × (pass.new.claim ≡ pass.old.claim) }
        ensures won { IsTrue result → pass.new.seat.me.0 ≡ won pass.old.seat.me.0 }
        ensures lost { IsFalse result → pass.new.seat.me ≡ pass.old.seat.me }
    {
        let mine = pass.number as u64 + 1;
        self.table
            .shared
            .compare_exchange::<Try>(&mut pass.seat, 0, 0, mine)
            == 0
    }

    // Waits for the turn until the pass has it.
    fn wait_for_turn<R: Wait>(&self, rt: &R, pass: &mut Pass<S>)
        requires lock { lock_of pass.old ≡ id_of self.now }
        requires away { IsAway pass.old }
        ensures lock { lock_of pass.new ≡ lock_of pass.old }
        ensures seat { (pass.new.number ≡ pass.old.number) × (pass.new.claim ≡ pass.old.claim) }
        ensures won { pass.new.seat.me.0 ≡ won pass.old.seat.me.0 }
    {
        let shared = &self.table.shared;
        // Both before the try: whoever has the turn when it fails counts later that it gave the
        // turn up, which ends the park, and finds then that a pass waits.
        self.count_up(&mut pass.seat, WAITING);
        for _ in rt.forever() {
            let given_up = shared.peek(GIVEN_UP);
            if self.win(pass) {
                self.count_down(&mut pass.seat, WAITING);
                return;
            }
            shared.park(rt, GIVEN_UP, (given_up & 0xffff_ffff) as u32);
        }
        unreachable!()
    }

    // Waits while the count of changes is this one.
    fn wait_for_change<R: Wait>(&self, rt: &R, count: u64) {
        let shared = &self.table.shared;
        for _ in rt.forever() {
            if shared.peek(CHANGES) != count {
                break;
            }
            shared.park(rt, CHANGES, (count & 0xffff_ffff) as u32);
        }
    }

    // Hands value and turn back, and wakes one who waits for the turn.
    fn give_up(&self, pass: &mut Pass<S>, value: S)
        requires lock { lock_of pass.old ≡ id_of self.now }
        requires turn { KeepsOthers S.listed self.now.seats pass.old value }
        ensures lock { lock_of pass.new ≡ lock_of pass.old }
        ensures seat { (pass.new.number ≡ pass.old.number) × (pass.new.claim ≡ S.listed value pass.old.number) }
        ensures away { IsAway pass.new }
        ensures turns { turns_of pass.new ≡ turns_of pass.old }
    {
        let claim = value.claim(pass.number);
        self.write_claim(pass, claim);
        let shared = &self.table.shared;
        let left = shared.exchange(&mut pass.seat, 0, Some(value));
        let None = left else { unreachable!() };
        shared.swap::<GiveUp>(&mut pass.seat, 0, 0);
        self.count_up(&mut pass.seat, GIVEN_UP);
        if shared.peek(WAITING) != 0 {
            shared.wake_one(GIVEN_UP);
        }
    }

    // One more in a word that waking rests on.
    fn count_up(&self, seat: &mut Seat<Option<S>, View<S>>, word: usize)
        requires lock { seat.old.table_id ≡ id_of self.now }
        requires word { IsCount word }
        ensures lock { seat.new.table_id ≡ seat.old.table_id }
        ensures same { seat.new.me ≡ seat.old.me }
    {
        self.table.shared.fetch_add::<Count>(seat, word, 1);
    }

    // One less in it.
    fn count_down(&self, seat: &mut Seat<Option<S>, View<S>>, word: usize)
        requires lock { seat.old.table_id ≡ id_of self.now }
        requires word { IsCount word }
        ensures lock { seat.new.table_id ≡ seat.old.table_id }
        ensures same { seat.new.me ≡ seat.old.me }
    {
        self.table.shared.fetch_sub::<Count>(seat, word, 1);
    }

    // The pass has just won the turn.
    fn take_out(&self, pass: &mut Pass<S>) -> S
        requires lock { lock_of pass.old ≡ id_of self.now }
        requires won { pass.old.seat.me.0.stage ≡ Won }
        ensures lock { (lock_of pass.new ≡ lock_of pass.old) × (pass.new.seat.id ≡ pass.old.seat.id) }
        ensures seat { (pass.new.number ≡ pass.old.number) × (pass.new.claim ≡ pass.old.claim) }
        ensures turn { pass.new.seat.me.0 ≡ record pass.old.seat.me.0 { stage = Took result } }
        ensures own { S.listed result pass.old.number ≡ pass.old.claim }
    {
        let shared = &self.table.shared;
        shared.load::<TakeOut>(&mut pass.seat, 0);
        shared.exchange(&mut pass.seat, 0, None).unwrap()
    }

    // While the pass has the value out, it writes its claim. The two words agree again, and with
    // the claim in the pass, only after all three: so they are written in one function.
    fn write_claim(&self, pass: &mut Pass<S>, claim: Claim)
        requires lock { lock_of pass.old ≡ id_of self.now }
        requires took { (y : _) × HasTaken pass.old y }
        ensures lock { lock_of pass.new ≡ lock_of pass.old }
        ensures seat { (pass.new.number ≡ pass.old.number) × (pass.new.claim ≡ claim) }
        ensures view { (pass.new.seat.me.0.stage ≡ pass.old.seat.me.0.stage) × (turns_of pass.new ≡ turns_of pass.old) }
    {
        let shared = &self.table.shared;
        let at = 2 * pass.number as usize + 5;
        shared.swap::<SetKind>(&mut pass.seat, at, kind(claim));
        shared.swap::<SetResidency>(&mut pass.seat, at + 1, residency(claim));
        pass.claim = claim;
    }
}
