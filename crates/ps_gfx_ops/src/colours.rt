//! Operators on the current colour.
ghost use Rattle.std.specs.Prelude.{◌≡◌, ◌≢◌, ◌≤◌, ◌<◌, ◌∷◌, ◌++◌, [], length, slice_get, Err, OnOk, IfOk};
ghost use Rattle.std.specs.Option.{option_and_then};
ghost use Rattle.ps_store.specs.Numbers.{raw_of};
ghost use Rattle.ps_gfx_ops.specs.Colours.{colour_row, currentgray_row};
ghost use Rattle.ps_gfx_ops.specs.Points.{top_numbers};
ghost use Rattle.ps_gfx_ops.specs.Calls.{GraphicsAnswers};

use gfx_state::{Gfx, Space};
use press_fault::PsName;
use press_nums::Fix;
use ps_store::{Obj, OpFault, Stack, number};
use std::marker::Model;

/// `currentgray`: the gray of the current colour.
pub(crate) fn currentgray(stack: &mut Stack, gfx: &mut Gfx) -> Result<(), OpFault>
    ensures answers { GraphicsAnswers (currentgray_row stack.old gfx.old)
        result stack.old gfx.old stack.new gfx.new }
    ensures never { result ≢ Err OpFault.NoMemory }
{
    stack.push(Obj::Real(gfx.gray()))?;
    Ok(())
}

/// `setgray`, `setrgbcolor` and `setcmykcolor`: their space and a colour of it.
pub(crate) fn set_colour(space: Space, stack: &mut Stack, gfx: &mut Gfx) -> Result<(), OpFault>
    ensures answers { GraphicsAnswers (colour_row space stack.old gfx.old)
        result stack.old gfx.old stack.new gfx.new }
    ensures never { result ≢ Err OpFault.NoMemory }
{
    let count = space.channels();
    let components = top_numbers(count, stack)?;
    gfx.set_space(space);
    gfx.set_color(components.items());
    stack.drop_top(count);
    Ok(())
}

/// The numbers that so many top operands are, the top one last.
fn top_numbers(count: usize, stack: &Stack) -> Result<Components, PsName>
    requires { count ≤ 4 }
    ensures value { result ≡ top_numbers count stack.now }
    ensures each { IfOk result (λ numbers. length numbers ≡ count) }
    ensures enough { OnOk result (count ≤ length stack.now) }
{
    if stack.len() < count {
        return Err(PsName::StackUnderflow);
    }
    let mut numbers = Components::new();
    let mut left = count;
    while left > 0 {
        left -= 1;
        match number_at(stack, left) {
            Some(n) => numbers.push(n),
            None => return Err(PsName::TypeCheck),
        }
    }
    Ok(numbers)
}

/// The number that the operand below so many others is.
fn number_at(stack: &Stack, depth: usize) -> Option<Fix>
    ensures { result ≡ option_and_then raw_of (slice_get stack.now depth) }
{
    number(stack.at(depth)?)
}

/// The components of a colour, four at most. Contracts see them as a list.
#[derive(Drop)]
struct Components {
    numbers: [Fix; 4],
    count: usize,
}

impl Model for Components {
    ghost use Rattle.std.specs.Prelude.{◌≤◌, ℤ, List, take};

    ghost Value = { List ℤ };

    ghost view = { λ c. take c.count c.numbers };

    ghost invariant = { λ c. c.count ≤ 4 };
}

impl Components {
    /// None yet.
    fn new() -> Components
        ensures { result ≡ [] }
    {
        Components {
            numbers: [Fix::of_int(0); 4],
            count: 0,
        }
    }

    /// Adds one at the end.
    fn push(&mut self, number: Fix)
        requires { length self.old < 4 }
        ensures { self.new ≡ self.old ++ number ∷ [] }
    {
        self.numbers[self.count] = number;
        self.count += 1;
    }

    /// The components, in order.
    fn items(&self) -> &[Fix]
        ensures { result.now ≡ self.now }
    {
        self.numbers.split_at(self.count).0
    }
}
