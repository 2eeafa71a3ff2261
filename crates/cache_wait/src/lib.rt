//! A cache that several threads share: leases of values, each taken and given back in a turn of a
//! lock, and made without it.
//!
//! Proved against `specs/Claims.antt`, over the cache of `link_cache` and the lock of `turnstile`.
//! Start with `cache.rt`, then `seats.rt` and `locked.rt`.
//! What a contract says of `acquire` and `release` holds if they return.
#![tactic(auto)]

mod cache;
mod laws;
mod locked;
mod name;
mod seats;

pub use cache::SharedCache;
pub use laws::waits_change_no_look;
pub use name::CacheName;
pub use seats::{Seat, Seats};
