ghost use Rattle.std.specs.Prelude.{◌≡◌, ◌<◌, Some, None};

use std::marker::Model;

/// The number of a mark's clip, or none, in the room of one `u32`; a number is below 4,294,967,295.
/// Contracts see it as an optional number.
#[derive(Clone, Copy, Debug, PartialEq, Eq)]
pub struct ClipNumber {
    /// One more than the number, 0 for none: an `Option<u32>` would take twice the room.
    count: u32,
}

impl Model for ClipNumber {
    ghost use Rattle.std.specs.Prelude.{Option, ℕ};
    ghost use Rattle.page_model.specs.Code.ClipNumber.{number_in, count_for, counted_again};

    ghost Value = { Option ℕ };

    ghost view = { λ n. number_in n.count };

    ghost inverse = { λ number. record { count = count_for number } };

    ghost inverse_ok = { λ n h. counted_again n };
}

impl ClipNumber {
    /// No number.
    pub fn none() -> ClipNumber
        ensures { result ≡ None }
    {
        ClipNumber { count: 0 }
    }

    /// This number.
    pub fn of(number: u32) -> ClipNumber
        requires { number < 4294967295 }
        ensures { result ≡ Some number }
    {
        ClipNumber { count: number + 1 }
    }

    /// The number, if there is one.
    pub fn get(self) -> Option<u32>
        ensures { result ≡ self }
    {
        if self.count == 0 {
            None
        } else {
            Some(self.count - 1)
        }
    }
}
