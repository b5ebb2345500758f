//! The door: tickets are drawn in order, and who has its turn takes the value, and gives it back or
//! another. Its list of entries grows with each value that is another.
ghost use Rattle.std.specs.Prelude.{◌≡◌, ◌++◌, ◌∷◌, [], length, true, IfOk};
ghost use mathlib.Core.List.{IsPrefix};
ghost use Rattle.tl_types.specs.declared.commits.Entry.{Entry};
ghost use Rattle.tl_head.specs.declared.views.Stage.TheVariants.{Idle};
ghost use Rattle.tl_head.specs.Values.{IsHeldBy};
ghost use Rattle.tl_head.specs.Views.{writer_view};

use crate::held::Held;
use crate::plays::Turns;
use crate::seats::DoorSeat;
use crate::steps::TableSeat;
use crate::views::View;
use atomic_table::{Refused, Table};
use std::alloc::{AllocError, Global};
use std::marker::Model;
use std::snapshot::Snapshot;
use std::sync::Wait;
use tl_types::{NoMemory, Published};

/// A value that threads take in turns. Contracts see a door as the name of its table.
#[derive(Drop)]
pub struct Door<V: Published> {
    pub(crate) table: Table<Option<V>, View, Snapshot<V>, Turns, Global>,
}

impl<V: Published> Model for Door<V> {
    ghost use Rattle.std.specs.Prelude.{◌≡◌};
    ghost use Rattle.atomic_table.specs.Seated.{TableId};

    ghost Value = { TableId };

    ghost view = { λ d. d.table.shared.table_id };

    ghost invariant = { λ d. (d.table.shared.table_id.words ≡ 3)
        × (d.table.shared.table_id.slots ≡ 1) };
}

/// A new door, with the seat of its writer.
pub struct NewDoor<V: Published> {
    /// The door, with the value at home and no ticket drawn.
    pub door: Door<V>,
    /// The writer's seat: the one with which entries are written. It has seen all that the value
    /// stands for.
    pub seat: DoorSeat<V>,
}

/// A table that holds a value, with its first seat.
struct NewTable<V: Published> {
    door: Door<V>,
    seat: TableSeat<V>,
}

impl<V: Published> Door<V> {
    // A table with the value in its slot, and a history as long as the value's list.
    fn open(alloc: Global, value: V) -> Result<NewTable<V>, NoMemory>
        ensures { IfOk result (λ n.
            (n.seat.table_id ≡ n.door) × (n.seat.me ≡ (writer_view (V.entries value), []))) }
    {
        let key = Snapshot::of(&value);
        let count = value.len();
        let mut slots = Vec::new(alloc);
        slots.push(Some(value))?;
        match Table::new(alloc, &[0, 0, count as u64], slots, &key) {
            Ok((table, seat)) => Ok(NewTable {
                door: Door { table },
                seat,
            }),
            Err(Refused { slots }) => {
                drop(slots);
                Err(AllocError)
            }
        }
    }

    /// A door with this value at home. What is written is the list for which the value stands, and
    /// the writer's seat has seen it. The error is `NoMemory`.
    pub fn new(alloc: Global, value: V) -> Result<NewDoor<V>, NoMemory>
        ensures own { IfOk result (λ n. n.seat.table ≡ n.door) }
        ensures idle { IfOk result (λ n. n.seat.stage ≡ Idle) }
        ensures written { IfOk result (λ n. n.seat.seen ≡ V.entries value) }
        ensures writer { IfOk result (λ n. n.seat.writes ≡ true) }
    {
        let NewTable { door, seat } = Door::open(alloc, value)?;
        Ok(NewDoor {
            door,
            seat: DoorSeat { seat },
        })
    }

    /// Draws a ticket, waits until it is served, and takes the value. It waits for ever where the
    /// ticket word stands at the greatest u64. What the seat had seen is a prefix of what the value
    /// stands for, and all of it for the writer's seat.
    pub fn turn<R: Wait>(&self, rt: &R, seat: &mut DoorSeat<V>) -> Held<V>
        requires own { seat.old.table ≡ self.now }
        requires idle { seat.old.stage ≡ Idle }
        ensures held { IsHeldBy V.entries seat.new result }
        ensures same { seat.new ≡ record seat.old { stage = seat.new.stage } }
        ensures later { IsPrefix seat.old.seen (V.entries result.value) }
        ensures writer { seat.old.writes ≡ true → V.entries result.value ≡ seat.old.seen }
    {
        self.take(rt, &mut seat.seat)
    }

    /// Lays the value back and passes the turn on. The value is the one from the seat's last turn.
    pub fn give(&self, seat: &mut DoorSeat<V>, held: Held<V>)
        requires own { seat.old.table ≡ self.now }
        requires held { IsHeldBy V.entries seat.old held }
        ensures { seat.new ≡ record seat.old { stage = Idle } }
    {
        self.lay(&mut seat.seat, held);
    }

    /// The number of entries that are written, from the history word. The seat has then seen these
    /// entries: what the held value, the one from its last turn, stands for.
    pub fn see(&self, seat: &mut DoorSeat<V>, held: &Held<V>) -> u64
        requires own { seat.old.table ≡ self.now }
        requires held { IsHeldBy V.entries seat.old held.now }
        ensures count { result ≡ length (V.entries held.now.value) }
        ensures seen { seat.new ≡ record seat.old { seen = V.entries held.now.value } }
        ensures later { IsPrefix seat.old.seen (V.entries held.now.value) }
    {
        self.look_back(&mut seat.seat, held)
    }

    /// Writes one entry: adds one to the history word, and puts `next`, which stands for what is
    /// written and one entry more, in place of the held value, which is the one from the seat's
    /// last turn and is handed back.
    pub fn raise(&self, seat: &mut DoorSeat<V>, held: &mut Held<V>, next: V) -> V
        requires own { seat.old.table ≡ self.now }
        requires held { IsHeldBy V.entries seat.old held.old }
        requires writer { seat.old.writes ≡ true }
        requires one_more { (e : Entry) × (V.entries next ≡ seat.old.seen ++ e ∷ []) }
        ensures old { result ≡ held.old.value }
        ensures value { held.new ≡ record held.old { value = next } }
        ensures held { IsHeldBy V.entries seat.new held.new }
        ensures seen { seat.new.seen ≡ V.entries next }
        ensures same { seat.new ≡ record seat.old { stage = seat.new.stage; seen = seat.new.seen } }
    {
        self.publish(&mut seat.seat, held, next)
    }
}
