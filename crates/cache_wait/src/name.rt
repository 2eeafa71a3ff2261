//! What is fixed of a shared cache for as long as it is open.

use std::marker::Brand;
use std::sync::ledger::Ledger;

/// The name of a shared cache, which is a ledger of its leases. It has no calls: a caller makes a
/// `Blank` and calls a function of its own that is generic in the name; that call picks the
/// meanings.
pub trait CacheName: Ledger {
    ghost use Rattle.std.specs.Prelude.{ℕ, List};

    /// How many places the cache has.
    ghost capacity: { ℕ };

    /// How many seats it has.
    ghost seats: { ℕ };

    /// The marks of the keys that may be asked for.
    ghost askable: { List (List ℕ) };
}

impl CacheName for Brand {
    ghost use Rattle.std.specs.Prelude.{[]};

    ghost capacity = { 0 };

    ghost seats = { 0 };

    ghost askable = { [] };
}
