//! What a `forall` goes over: the contents at its start.
ghost use Rattle.std.specs.Prelude.{◌≡◌, [], ◌∷◌, MatchOption};
ghost use Rattle.std.specs.Vec.Iter.{into_iter_items};
ghost use Rattle.ps_store.specs.Gathering.{integers};

use press_nums::Whole;
use ps_store::Obj;
use std::marker::Model;
use std::vec::IntoIter;

/// What is left of an array as objects, and of a string as bytes.
#[derive(Drop)]
enum Left {
    Elements(IntoIter<Obj>),
    Bytes(IntoIter<u8>),
}

/// The elements or bytes that a `forall` has left. Contracts see them as a list of objects, a byte as an integer.
#[derive(Drop)]
pub struct Objects {
    left: Left,
}

impl Model for Objects {
    ghost use Rattle.std.specs.Prelude.{List};
    ghost use Rattle.ps_store.specs.declared.obj.Obj.{Obj};
    ghost use Rattle.ps_flow.specs.Code.Contents.{objects_of_left};

    ghost Value = { List Obj };

    ghost view = { λ t. objects_of_left t.left };
}

impl Objects {
    pub(crate) fn of(items: Vec<Obj>) -> Objects
        ensures { result ≡ items.items }
    {
        Objects {
            left: Left::Elements(items.into_iter()),
        }
    }

    pub(crate) fn of_bytes(bytes: Vec<u8>) -> Objects
        ensures { result ≡ integers bytes.items }
    {
        Objects {
            left: Left::Bytes(bytes.into_iter()),
        }
    }

    pub(crate) fn next(&mut self) -> Option<Obj>
        ensures { MatchOption result ((self.old ≡ []) × (self.new ≡ [])) (λ o. self.old ≡ o ∷ self.new) }
    {
        match &mut self.left {
            Left::Elements(items) => items.next(),
            Left::Bytes(bytes) => next_integer(bytes),
        }
    }
}

/// The next byte as an integer.
fn next_integer(bytes: &mut IntoIter<u8>) -> Option<Obj>
    ensures { MatchOption result ((into_iter_items bytes.old ≡ []) × (into_iter_items bytes.new ≡ []))
        (λ o. integers (into_iter_items bytes.old) ≡ o ∷ integers (into_iter_items bytes.new)) }
{
    match bytes.next() {
        Some(byte) => Some(Obj::Int(Whole::of(i32::from(byte)))),
        None => None,
    }
}

/// The keys and values that a `forall` has left. Contracts see them as a list of pairs.
#[derive(Drop)]
pub struct Pairs {
    items: IntoIter<(Obj, Obj)>,
}

impl Model for Pairs {
    ghost use Rattle.std.specs.Prelude.{List};
    ghost use Rattle.std.specs.Vec.Iter.{into_iter_items};
    ghost use Rattle.ps_store.specs.declared.obj.Obj.{Obj};

    ghost Value = { List (Obj × Obj) };

    ghost view = { λ t. into_iter_items t.items };
}

impl Pairs {
    pub(crate) fn of(items: Vec<(Obj, Obj)>) -> Pairs
        ensures { result ≡ items.items }
    {
        Pairs {
            items: items.into_iter(),
        }
    }

    pub(crate) fn next(&mut self) -> Option<(Obj, Obj)>
        ensures { MatchOption result ((self.old ≡ []) × (self.new ≡ [])) (λ o. self.old ≡ o ∷ self.new) }
    {
        self.items.next()
    }
}
