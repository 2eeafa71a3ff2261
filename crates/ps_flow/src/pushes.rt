//! What a turn of a loop pushes.
ghost use Rattle.std.specs.Prelude.{◌≡◌, ◌≤◌, ◌<◌, ◌+◌, ◌↔◌, ◌++◌, length, OnOk, OnErr, IsErr};
ghost use Rattle.ps_flow.specs.Pushes.{with_pushes, number_of_pushes};

use press_fault::StackOverflow;
use ps_store::{Obj, Stack};

/// What a turn of a loop pushes.
#[derive(Debug, PartialEq, Eq, Drop)]
pub enum Pushes {
    Nothing,
    /// A value of a `for`, or an element or byte of a `forall`.
    One(Obj),
    /// A key of a `forall`, and its value, which comes on top.
    Two(Obj, Obj),
}

impl Pushes {
    /// Pushes all, or nothing where there isn't room for all.
    pub fn onto(&self, stack: &mut Stack) -> Result<(), StackOverflow>
        ensures ok { OnOk result (stack.new ≡ with_pushes self.now stack.old) }
        ensures full { IsErr result ↔ (500 < length stack.old + number_of_pushes self.now) }
        ensures err { OnErr result (stack.new ≡ stack.old) }
    {
        if stack.len() + self.count() > 500 {
            return Err(StackOverflow);
        }
        match self {
            Pushes::Nothing => Ok(()),
            Pushes::One(o) => stack.push(o.again()),
            Pushes::Two(key, value) => {
                stack.push(key.again())?;
                stack.push(value.again())
            }
        }
    }

    fn count(&self) -> usize
        ensures { result ≡ number_of_pushes self.now }
    {
        match self {
            Pushes::Nothing => 0,
            Pushes::One(_) => 1,
            Pushes::Two(_, _) => 2,
        }
    }
}
