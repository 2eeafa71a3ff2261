//! The dots of codes that were converted lately.
ghost use Rattle.std.specs.Prelude.{◌≡◌, ◌<◌, length, IfSome, OnOk};
ghost use Rattle.press_fault.specs.Plane.{CodeValue};
ghost use Rattle.list_player.specs.Code.Steps.{lent_dot};
ghost use Rattle.list_player.specs.Memo.{Remembers};

use crate::Lent;
use crate::dot::Dot;
use press_fault::{Code, Mem};
use std::alloc::Global;

/// A code, and its dot.
type Told<T> = (Code, T);

/// How many codes are remembered at most: one a place, which a code tells.
const PLACES: usize = 256;

/// The dots of codes that were converted lately, all by one loan.
#[derive(Drop)]
pub(crate) struct Memo<T: Copy> {
    told: Vec<Option<Told<T>>>,
}

impl<T: Dot> Memo<T> {
    /// A memo that remembers nothing. It takes no memory yet.
    pub(crate) fn new(alloc: Global) -> Memo<T> {
        Memo {
            told: Vec::new(alloc),
        }
    }

    /// Forgets all, for another loan.
    pub(crate) fn forget<L: Lent>(&mut self, loan: &L) -> Mem<()>
        ensures { OnOk result (Remembers (lent_dot T.dot T.depth (L.colour loan.now) (L.wide loan.now))
            self.new.told.items) }
    {
        self.told.clear();
        self.told.resize(PLACES, None)?;
        Ok(())
    }
}

/// The dot of a code by a loan. It is converted where it isn't remembered.
pub(crate) fn lent_dot<T: Dot, L: Lent>(memo: &mut Memo<T>, code: Code, loan: &L) -> T
    requires channels { code.n ≡ L.channels loan.now }
    requires memo { Remembers (lent_dot T.dot T.depth (L.colour loan.now) (L.wide loan.now)) memo.old.told.items }
    ensures value { result ≡ lent_dot T.dot T.depth (L.colour loan.now) (L.wide loan.now) code }
    ensures memo { Remembers (lent_dot T.dot T.depth (L.colour loan.now) (L.wide loan.now)) memo.new.told.items }
{
    let place = place_of(code);
    if let Some(dot) = recall(&memo.told, place, code) {
        return dot;
    }
    let dot = T::lent(loan, code);
    memo.told[place] = Some((code, dot));
    dot
}

/// The dot at a place, if it is that of the code.
fn recall<T: Copy>(told: &Vec<Option<Told<T>>>, place: usize, code: Code) -> Option<T>
    requires { place < length told.now.items }
    ensures { (dot_of : CodeValue → T) → Remembers dot_of told.now.items → IfSome result (λ dot. dot ≡ dot_of code) }
{
    let (known, dot) = told[place]?;
    if known == code { Some(dot) } else { None }
}

/// The place of a code.
fn place_of(code: Code) -> usize
    ensures { result < 256 }
{
    let [first, second, third, fourth] = code.c;
    let mixed = first ^ second.rotate_left(3) ^ third.rotate_left(6) ^ fourth.rotate_left(1);
    usize::from(mixed)
}
