//! The cache of colour links: kept values over the machine of `cache_core`, and a journal of its steps.
#![tactic(auto)]

mod counts;
mod laws;
mod leases;
mod made;
mod noting;
mod serving;
mod slots;
mod state;

pub use counts::{Counts, Past};
pub use laws::{look_claims_what_it_tells, steps_leave_claims};
pub use leases::{Lease, Look, Order};
pub use made::{Made, Maker};
pub use serving::{lend, lent_and_back_is_one_use, make, take_back};
pub use state::CacheState;
