//! A value that a seat holds from its turn until it gives it back; it is never copied.
ghost use Rattle.std.specs.Prelude.{◌≡◌};

use crate::door::Door;
use std::marker::Model;
use std::snapshot::Snapshot;
use tl_types::Published;

/// The value of a door, in the hands of the seat that has the turn. It is not `Drop`: it goes back
/// by `Door::give`, or is kept for good by `into_value`.
pub struct Held<V: Published> {
    pub(crate) value: V,
    pub(crate) ticket: u64,
    pub(crate) door: Snapshot<Door<V>>,
}

impl<V: Published> Model for Held<V> {
    ghost use Rattle.tl_head.specs.Values.{HeldValue};

    ghost Value = { HeldValue V };

    ghost view = { λ h. record { table = h.door.value; ticket = h.ticket; value = h.value } };
}

impl<V: Published> Held<V> {
    /// The held value, lent.
    pub fn value(&self) -> &V
        ensures { result.now ≡ self.now.value }
    {
        &self.value
    }

    /// The held value, for good. The turn is then never passed on: each later `turn` at the door
    /// waits for ever.
    pub fn into_value(self) -> V
        ensures { result ≡ self.value }
    {
        let Held {
            value,
            ticket: _,
            door: _,
        } = self;
        value
    }
}
