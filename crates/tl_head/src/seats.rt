//! Seats of a door: what each has seen, which only grows. A seat learns from another what that one
//! has seen.
ghost use Rattle.std.specs.Prelude.{◌≡◌, ◌⊎◌, false, true};
ghost use mathlib.Core.List.{IsPrefix};
ghost use Rattle.tl_head.specs.declared.views.Stage.TheVariants.{Idle};

use crate::door::Door;
use crate::steps::TableSeat;
use std::marker::Model;
use tl_types::Published;

/// A seat of a door, with which a thread takes turns. It has no bytes. Contracts see the door's
/// table, whether the seat has a ticket, the entries that it has seen, and whether it is the
/// writer's.
#[derive(Drop)]
pub struct DoorSeat<V> {
    pub(crate) seat: TableSeat<V>,
}

impl<V> Model for DoorSeat<V> {
    ghost use Rattle.tl_head.specs.Values.{SeatValue, FitsSlots};

    ghost Value = { SeatValue };

    ghost view = { λ s. record {
      table = s.seat.table_id;
      stage = s.seat.me.0.stage;
      seen = s.seat.me.0.seen;
      writes = s.seat.me.0.writes;
    } };

    ghost invariant = { λ s. FitsSlots s.seat.me.0.stage s.seat.me.1 };
}

impl<V: Published> DoorSeat<V> {
    /// A further seat of this door, which has seen what this one has seen and is not the writer's.
    pub fn split(&mut self, door: &Door<V>) -> DoorSeat<V>
        requires own { self.old.table ≡ door.now }
        requires idle { self.old.stage ≡ Idle }
        ensures same { self.new ≡ self.old }
        ensures copy { result ≡ record self.old { writes = false } }
    {
        DoorSeat {
            seat: door.split_off(&mut self.seat),
        }
    }

    /// Takes in another seat of this door. Of the two lists seen one is a prefix of the other, and
    /// this seat has then seen the longer; the writer's seat had seen it already.
    pub fn join(&mut self, door: &Door<V>, other: DoorSeat<V>)
        requires own { (self.old.table ≡ door.now) × (other.table ≡ door.now) }
        requires idle { (self.old.stage ≡ Idle) × (other.stage ≡ Idle) }
        requires reader { other.writes ≡ false }
        ensures same { self.new ≡ record self.old { seen = self.new.seen } }
        ensures own_prefix { IsPrefix self.old.seen self.new.seen }
        ensures other_prefix { IsPrefix other.seen self.new.seen }
        ensures longer { (self.new.seen ≡ self.old.seen) ⊎ (self.new.seen ≡ other.seen) }
        ensures writer { self.old.writes ≡ true → self.new.seen ≡ self.old.seen }
    {
        let DoorSeat { seat } = other;
        door.take_in(&mut self.seat, seat);
    }
}
