//! Leases and orders.
ghost use Rattle.std.specs.Prelude.{◌≡◌};

use crate::made::Made;
use std::marker::Model;
use std::sync::Arc;

/// The right to use a value until it is given back. Contracts see its seat, its residency and the
/// mark of its key.
pub struct Lease<V: Made> {
    pub(crate) seat: u32,
    pub(crate) res: u64,
    pub(crate) value: Arc<V>,
}

impl<V: Made> Model for Lease<V> {
    ghost use Rattle.link_cache.specs.Ticket.{Ticket};

    ghost Value = { Ticket };

    ghost view = { λ l. record { seat = l.seat; res = l.res; mark = V.mark (V.made_for l.value.value) } };
}

impl<V: Made> Lease<V> {
    pub fn seat(&self) -> u32
        ensures { result ≡ self.now.seat }
    {
        self.seat
    }

    pub fn res(&self) -> u64
        ensures { result ≡ self.now.res }
    {
        self.res
    }

    /// The value, which is of the key asked.
    pub fn value(&self) -> &V
        ensures { V.mark (V.made_for result.now) ≡ self.now.mark }
    {
        &self.value
    }
}

/// The right, and the duty, to make one value. It ends by a publication or a withdrawal.
pub struct Order<V: Made> {
    pub(crate) seat: u32,
    pub(crate) res: u64,
    pub(crate) key: V::Key,
}

impl<V: Made> Model for Order<V> {
    ghost use Rattle.link_cache.specs.Ticket.{Ticket};

    ghost Value = { Ticket };

    ghost view = { λ o. record { seat = o.seat; res = o.res; mark = V.mark o.key } };
}

impl<V: Made> Order<V> {
    pub fn seat(&self) -> u32
        ensures { result ≡ self.now.seat }
    {
        self.seat
    }

    pub fn res(&self) -> u64
        ensures { result ≡ self.now.res }
    {
        self.res
    }

    pub fn key(&self) -> &V::Key
        ensures { V.mark result.now ≡ self.now.mark }
    {
        &self.key
    }
}

/// What a seat that asked for a key is told.
pub enum Look<V: Made> {
    /// The key's value is there.
    Have(Lease<V>),
    /// The value has to be made.
    Build(Order<V>),
    /// Another seat makes it, or there is no place.
    Wait,
}
