//! A cache of one seat: a lease is taken and given back before the next.
ghost use Rattle.std.specs.Prelude.{◌≡◌, ◌<◌, ◌∷◌, [], ℕ, List, IfOk, OnErr};
ghost use Rattle.cache_core.specs.declared.step.Phase.TheVariants.{Idle, Holding};
ghost use Rattle.cache_core.specs.declared.step.Step.TheVariants.{Release};
ghost use Rattle.link_cache.specs.CacheState.{CacheStateValue, did};
ghost use Rattle.link_cache.specs.Kept.{IsRun};
ghost use Rattle.link_cache.specs.Serving.{IsLent, IsOneUse};
ghost use Rattle.link_cache.specs.Ticket.{Ticket};

use crate::leases::{Lease, Look, Order};
use crate::made::{Made, Maker};
use crate::state::CacheState;
use press_fault::{Mem, NoMemory};
use std::alloc::Global;
use std::sync::Arc;

/// Lends the value of a key to the one seat: it is looked for, and made where it isn't there.
pub fn lend<V: Made, M: Maker<V>>(
    alloc: Global,
    state: &mut CacheState<V>,
    key: &V::Key,
    maker: &M,
) -> Mem<Lease<V>>
    requires idle { state.old.core.phases ≡ Idle ∷ [] }
    requires room { 0 < state.old.core.capacity }
    ensures ok { IfOk result (λ lease. (place : ℕ) × IsLent state.old (V.mark key.now) lease state.new place) }
    ensures err { OnErr result (state.new.core.phases ≡ Idle ∷ []) }
{
    let _ = state.core();
    match state.look(0, key)? {
        Look::Have(lease) => Ok(lease),
        Look::Build(order) => match make(alloc, maker, &order) {
            Ok((value, copy)) => Ok(state.publish(order, value, copy)),
            Err(_) => {
                state.withdraw(order);
                Err(NoMemory)
            }
        },
        Look::Wait => unreachable!(),
    }
}

/// Takes the one seat's lease back.
pub fn take_back<V: Made>(state: &mut CacheState<V>, lease: Lease<V>)
    requires seat { lease.seat ≡ 0 }
    requires holds { state.old.core.phases ≡ Holding lease.res ∷ [] }
    ensures { state.new ≡ did state.old state.old.named (Release 0 lease.res ∷ []) }
{
    state.release(lease);
}

/// A lease that was lent and taken back makes one use of its key.
pub fn lent_and_back_is_one_use()
    ensures { (old lent new : CacheStateValue) (mark : List ℕ) (lease : Ticket) (place : ℕ) →
        IsRun old.opening old.core old.journal old.past → old.core.phases ≡ Idle ∷ [] → 0 < old.core.capacity
        → IsLent old mark lease lent place → new ≡ did lent lent.named (Release 0 lease.res ∷ []) →
        IsOneUse old new place }
{}

/// Makes the value of an order, and another pointer to it: both are what `publish` takes.
pub fn make<V: Made, M: Maker<V>>(
    alloc: Global,
    maker: &M,
    order: &Order<V>,
) -> Mem<(Arc<V>, Arc<V>)>
    ensures value { IfOk result (λ made. V.mark (V.made_for made.0.value) ≡ order.now.mark) }
    ensures copy { IfOk result (λ made. V.mark (V.made_for made.1.value) ≡ order.now.mark) }
{
    let value = Arc::new(alloc, maker.make(alloc, order)?)?;
    let copy = Arc::try_clone(&value)?;
    Ok((value, copy))
}
