//! The places for values.
ghost use Rattle.std.specs.Prelude.{◌≡◌, ◌≢◌, ◌<◌, ◌≤◌, ◌++◌, ◌∷◌, [], ℕ, ◌==◌, not, true, map, length, slice_get};
ghost use Rattle.std.specs.Prelude.{find, filter, option_map, position, is_some, IfSome, IfOk, MatchOption, Some, None};
ghost use Rattle.std.specs.Prelude.{vec_len, vec_capacity};
ghost use Rattle.std.specs.Option.{option_copied};
ghost use Rattle.link_cache.specs.Kept.{is_slot_of, slot_of, mark_of, mark_in, without_slot, filled};

use crate::made::Made;
use press_fault::Mem;
use std::marker::Model;
use std::sync::Arc;

/// A place for the value of an entry. Contracts see its residency and the mark of its value.
#[derive(Drop)]
pub struct Slot<V: Made> {
    pub res: u64,
    pub value: Option<Arc<V>>,
}

impl<V: Made> Model for Slot<V> {
    ghost use Rattle.std.specs.Option.{option_map};
    ghost use Rattle.link_cache.specs.Kept.{SlotValue};

    ghost Value = { SlotValue };

    ghost view = { λ s. record { res = s.res; mark = option_map (λ a. V.mark (V.made_for a.value)) s.value } };
}

impl<V: Made> Slot<V> {
    fn is_of(&self, res: u64) -> bool
        ensures { result ≡ is_slot_of res self.now }
    {
        self.res == res
    }

    fn is_other(&self, res: u64) -> bool
        ensures { result ≡ not (is_slot_of res self.now) }
    {
        !(self.res == res)
    }

    /// Another pointer to the value, if there is one.
    fn share(&self) -> Mem<Arc<V>>
        requires { is_some self.now.mark ≡ true }
        ensures { IfOk result (λ value. self.now.mark ≡ Some (V.mark (V.made_for value.value))) }
    {
        match &self.value {
            Some(value) => Ok(Arc::try_clone(value)?),
            None => unreachable!(),
        }
    }
}

fn place_at<V: Made>(slots: &[Slot<V>], res: u64) -> Option<usize>
    ensures { result ≡ position (is_slot_of res) slots.now }
{
    slots.iter().position(|slot| slot.is_of(res))
}

fn slot_of<V: Made>(slots: &[Slot<V>], res: u64) -> Option<&Slot<V>>
    ensures { option_copied result ≡ slot_of slots.now res }
{
    slots.iter().find(|slot| slot.is_of(res))
}

/// Another pointer to the value of a residency.
pub fn value_of<V: Made>(slots: &[Slot<V>], res: u64) -> Mem<Arc<V>>
    requires { is_some (mark_of slots.now res) ≡ true }
    ensures { IfOk result (λ value. mark_of slots.now res ≡ Some (V.mark (V.made_for value.value))) }
{
    match slot_of(slots, res) {
        Some(slot) => slot.share(),
        None => unreachable!(),
    }
}

/// Takes the place of a residency away.
pub fn remove<V: Made>(slots: &mut Vec<Slot<V>>, res: u64)
    ensures items { slots.new.items ≡ without_slot res slots.old.items }
    ensures len { vec_len slots.new ≤ vec_len slots.old }
    ensures capacity { vec_capacity slots.new ≡ vec_capacity slots.old }
{
    slots.retain(|slot| slot.is_other(res));
}

/// Puts a value in the place of a residency.
pub fn fill<V: Made>(slots: &mut Vec<Slot<V>>, res: u64, value: Arc<V>)
    ensures { slots.new.items ≡ filled res (V.mark (V.made_for value.value)) slots.old.items }
{
    if let Some(at) = place_at(slots, res) {
        slots[at] = Slot {
            res,
            value: Some(value),
        };
    }
}

/// The place of a key in the list of keys, or the list's length.
pub fn place_of_key<V: Made>(named: &[V::Key], key: &V::Key) -> usize
    ensures within { result ≤ length named.now }
    ensures found { result < length named.now → slice_get (map V.mark named.now) result ≡ Some (V.mark key.now) }
    ensures absent { result ≡ length named.now → (i : ℕ) → slice_get (map V.mark named.now) i ≢ Some (V.mark key.now) }
{
    for (i, name) in named.iter().enumerate() {
        if V::same(name, key) {
            return i;
        }
    }
    named.len()
}
