ghost use Rattle.std.specs.Prelude.{◌≡◌, IfOk};

use std::alloc::{AllocError, Global};
use std::marker::Model;

/// Values of 16 bits, in order: the entries of a curve or of a lut's tables.
#[derive(Drop)]
pub struct Values {
    values: Vec<u16>,
}

impl Model for Values {
    ghost use Rattle.std.specs.Prelude.{ℕ, List};

    ghost Value = { List ℕ };

    ghost view = { λ v. v.values.items };
}

impl Values {
    /// The same values; takes no memory.
    pub fn from_vec(values: Vec<u16>) -> Self
        ensures { result ≡ values.items }
    {
        Values { values }
    }

    /// The same values; takes no memory.
    pub fn into_vec(self) -> Vec<u16>
        ensures { result.items ≡ self }
    {
        self.values
    }

    /// The same values once more.
    pub fn copy(&self, alloc: Global) -> Result<Values, AllocError>
        ensures { IfOk result (λ values. values ≡ self.now) }
    {
        Ok(Values {
            values: Vec::from_slice(alloc, &self.values)?,
        })
    }

    /// The values, in order.
    pub fn items(&self) -> &[u16]
        ensures { result.now ≡ self.now }
    {
        &self.values
    }
}
