//! Many objects at once, between strings, arrays and the operands.
ghost use Rattle.std.specs.Prelude.{◌≡◌, ◌↔◌, [], Some, None, IsErrOf, ◌≤◌, ◌<◌, ◌+◌, ◌^◌, ◌++◌, length, reverse, take};
ghost use Rattle.std.specs.Prelude.{drop, replicate, IfOk, OnErr, vec_len};
ghost use Rattle.ps_store.specs.Gathering.{elements, with_elements, integers, with_dict_of};

use crate::entries::Entries;
use crate::obj::{Obj, Part};
use crate::stack::Stack;
use crate::store::{Composite, Store};
use press_fault::{Grow, Mem};
use press_nums::Whole;

impl Store {
    /// Puts bytes at the places of a string, in order, from its first one on.
    #[tactic(auto, unfolding(crate::specs::Gathering::with_elements))]
    pub fn put_bytes(&mut self, span: Part, bytes: &[u8])
        requires { length bytes.now < 2 ^ 32 }
        ensures { self.new ≡ with_elements self.old span 0 (integers bytes.now) }
    {
        let mut place = 0;
        for byte in bytes {
            self.put(span, place, Obj::Int(Whole::of(i32::from(*byte))));
            place += 1;
        }
    }

    /// Puts the operands below the top `below` ones at the places of an array, so many as it
    /// has, the one pushed last at its last place.
    #[tactic(auto, unfolding(crate::specs::Gathering::with_elements))]
    pub fn put_operands(&mut self, span: Part, stack: &Stack, below: usize)
        requires { below + span.len ≤ length stack.now }
        ensures { self.new ≡ with_elements self.old span 0 (reverse (take span.len (drop below stack.now))) }
    {
        let len = span.len;
        let _held = stack.len();
        for at in 0..len {
            let above = below + (len - 1 - at) as usize;
            let Some(item) = stack.at(above) else {
                unreachable!();
            };
            self.put(span, at, item.again());
        }
    }

    /// So many zeros, as room for bytes that are to be put into a string.
    pub fn zeros(&self, len: u32) -> Mem<Vec<u8>>
        ensures len { IfOk result (λ room. vec_len room ≡ len) }
        ensures zeros { IfOk result (λ room. room.items ≡ replicate len 0) }
    {
        Ok(vec![in self.alloc; 0; len as usize]?)
    }

    /// No entries yet, for a dictionary that is to be kept.
    pub fn new_entries(&self) -> Entries
        ensures { result ≡ [] }
    {
        Entries::new(self.alloc)
    }

    /// Makes a dictionary of these entries, and answers its number. A refusal, by a limit or
    /// out of memory, leaves the store as it was.
    pub fn new_dict_of(&mut self, entries: Entries) -> Result<u32, Grow>
        ensures ok { IfOk result (λ dict. with_dict_of self.old entries ≡ Some (dict, self.new)) }
        ensures limit { IsErrOf result Grow.LimitCheck ↔ (with_dict_of self.old entries ≡ None) }
        ensures err { OnErr result (self.new ≡ self.old) }
    {
        let units = 32 * entries.len() as u64;
        if !self.fits(1, units) {
            return Err(Grow::LimitCheck);
        }
        let whole = self.add(Composite::Dict(entries), 0, units)?;
        Ok(whole.id)
    }
}

impl Stack {
    /// Pushes the elements of an array, in order. The caller asks for the room.
    #[tactic(auto, using(crate::proofs::Gathered::pushed_more))]
    pub fn push_elements(&mut self, store: &Store, span: Part)
        requires { length self.old + span.len ≤ 500 }
        ensures pushed { self.new ≡ reverse (elements store.now span) ++ self.old }
        ensures len { length self.new ≡ length self.old + span.len }
    {
        for at in 0..span.len {
            let _ = self.push(store.get(span, at));
        }
    }
}
