//! The steps of a door, over seats of its table, each one step of the table that they share. A turn
//! that has not come is waited for.
ghost use Rattle.std.specs.Prelude.{◌≡◌, ◌++◌, ◌∷◌, [], length, true};
ghost use mathlib.Core.List.{IsPrefix};
ghost use Rattle.tl_types.specs.declared.commits.Entry.{Entry};
ghost use Rattle.tl_head.specs.declared.views.Stage.TheVariants.{Idle, Waits, Served};
ghost use Rattle.tl_head.specs.Views.{with_stage, with_seen, copy_of, both_of};
ghost use Rattle.tl_head.specs.Moves.{HasTurn, LearnsLonger};

use crate::door::Door;
use crate::held::Held;
use crate::plays::{Copies, Draw, Learn, Look, PassOn, Publish, See, TakesIn};
use crate::views::View;
use atomic_table::Seat;
use std::snapshot::Snapshot;
use std::sync::Wait;
use std::{mem, thread};
use tl_types::Published;

/// The number of the word from which tickets are drawn.
const TICKET: usize = 0;

/// The number of the word with the ticket that is served.
const SERVING: usize = 1;

/// The number of the word that counts the entries.
const HISTORY: usize = 2;

/// The number of the slot in which the value lies between two turns.
const SLOT: usize = 0;

/// A seat of a door's table, which a `DoorSeat` has within.
pub(crate) type TableSeat<V> = Seat<Option<V>, View>;

impl<V: Published> Door<V> {
    // Draws a ticket: the number that was found in the ticket word.
    fn draw<R: Wait>(&self, rt: &R, seat: &mut TableSeat<V>) -> u64
        requires own { seat.old.table_id ≡ self.now }
        requires idle { seat.old.me.0.stage ≡ Idle }
        ensures own { (seat.new.table_id ≡ seat.old.table_id) × (seat.new.id ≡ seat.old.id) }
        ensures drawn { seat.new.me ≡ (with_stage (Waits result) seat.old.me.0, seat.old.me.1) }
    {
        let mut next = self.table.shared.peek(TICKET);
        for _ in rt.forever() {
            if next < u64::MAX {
                let found = self
                    .table
                    .shared
                    .compare_exchange::<Draw>(seat, TICKET, next, next + 1);
                if found == next {
                    return next;
                }
                next = found;
            } else {
                next = self.table.shared.peek(TICKET);
            }
        }
        unreachable!()
    }

    /// Waits for the turn of a new ticket, and takes the value.
    pub(crate) fn take<R: Wait>(&self, rt: &R, seat: &mut TableSeat<V>) -> Held<V>
        requires own { seat.old.table_id ≡ self.now }
        requires idle { (seat.old.me.0.stage ≡ Idle) × (seat.old.me.1 ≡ []) }
        ensures own { (seat.new.table_id ≡ seat.old.table_id) × (seat.new.id ≡ seat.old.id) }
        ensures table { result.table ≡ self.now }
        ensures turn { HasTurn V.entries seat.new.me result.ticket result.value }
        ensures view { seat.new.me.0 ≡ with_stage (Served result.ticket (V.entries result.value))
            seat.old.me.0 }
        ensures later { IsPrefix seat.old.me.0.seen (V.entries result.value) }
        ensures writer { seat.old.me.0.writes ≡ true → V.entries result.value ≡ seat.old.me.0.seen }
    {
        let ticket = self.draw(rt, seat);
        for _ in rt.forever() {
            let found = self.table.shared.load::<Look>(seat, SERVING);
            if found == ticket {
                let Some(value) = self.table.shared.exchange(seat, SLOT, None) else {
                    unreachable!()
                };
                return Held {
                    value,
                    ticket,
                    door: Snapshot::of(self),
                };
            }
            thread::yield_now();
        }
        unreachable!()
    }

    /// Lays the value into the slot, and passes the turn on.
    pub(crate) fn lay(&self, seat: &mut TableSeat<V>, held: Held<V>)
        requires own { seat.old.table_id ≡ self.now }
        requires turn { HasTurn V.entries seat.old.me held.ticket held.value }
        ensures own { (seat.new.table_id ≡ seat.old.table_id) × (seat.new.id ≡ seat.old.id) }
        ensures given { seat.new.me ≡ (with_stage Idle seat.old.me.0, []) }
    {
        let value = held.into_value();
        let _none = self.table.shared.exchange(seat, SLOT, Some(value)); // nothing was there
        self.table.shared.fetch_add::<PassOn>(seat, SERVING, 1);
    }

    /// Loads the history word. The seat has then seen what the held value stands for.
    pub(crate) fn look_back(&self, seat: &mut TableSeat<V>, held: &Held<V>) -> u64
        requires own { seat.old.table_id ≡ self.now }
        requires turn { HasTurn V.entries seat.old.me held.now.ticket held.now.value }
        ensures own { (seat.new.table_id ≡ seat.old.table_id) × (seat.new.id ≡ seat.old.id) }
        ensures count { result ≡ length (V.entries held.now.value) }
        ensures seen { seat.new.me ≡ (
          with_seen (V.entries held.now.value) seat.old.me.0,
          seat.old.me.1,
        ) }
        ensures later { IsPrefix seat.old.me.0.seen (V.entries held.now.value) }
    {
        self.table.shared.load::<See>(seat, HISTORY)
    }

    /// Adds one to the history, and exchanges the held value. The value lies in the slot meanwhile,
    /// where the rule can read for which list it stands.
    pub(crate) fn publish(&self, seat: &mut TableSeat<V>, held: &mut Held<V>, next: V) -> V
        requires own { seat.old.table_id ≡ self.now }
        requires writer { seat.old.me.0.writes ≡ true }
        requires turn { HasTurn V.entries seat.old.me held.old.ticket held.old.value }
        requires one_more { (e : Entry) × (V.entries next ≡ seat.old.me.0.seen ++ e ∷ []) }
        ensures own { (seat.new.table_id ≡ seat.old.table_id) × (seat.new.id ≡ seat.old.id) }
        ensures old { result ≡ held.old.value }
        ensures value { held.new ≡ record held.old { value = next } }
        ensures turn { HasTurn V.entries seat.new.me held.old.ticket next }
        ensures seen { seat.new.me.0
            ≡ with_seen (V.entries next)
            (with_stage (Served held.old.ticket (V.entries next)) seat.old.me.0) }
    {
        let _count = next.len(); // says that the entries are few
        let _none = self.table.shared.exchange(seat, SLOT, Some(next)); // nothing was there
        self.table.shared.fetch_add::<Publish>(seat, HISTORY, 1);
        let Some(next) = self.table.shared.exchange(seat, SLOT, None) else {
            unreachable!()
        };
        mem::replace(&mut held.value, next)
    }

    /// A seat that has seen what this one has seen.
    pub(crate) fn split_off(&self, seat: &mut TableSeat<V>) -> TableSeat<V>
        requires own { seat.old.table_id ≡ self.now }
        ensures own { (seat.new.table_id ≡ seat.old.table_id) × (seat.new.id ≡ seat.old.id)
            × (result.table_id ≡ seat.old.table_id) }
        ensures same { seat.new.me ≡ seat.old.me }
        ensures copy { result.me ≡ (copy_of seat.old.me.0, []) }
    {
        self.table.shared.split_seat::<Copies>(seat)
    }

    /// Takes in the other seat, and then compares the two lists seen: the seat has seen the longer.
    pub(crate) fn take_in(&self, seat: &mut TableSeat<V>, other: TableSeat<V>)
        requires own { (seat.old.table_id ≡ self.now) × (other.table_id ≡ seat.old.table_id) }
        requires idle { (other.me.0.stage ≡ Idle) × (other.me.1 ≡ []) }
        ensures own { (seat.new.table_id ≡ seat.old.table_id) × (seat.new.id ≡ seat.old.id) }
        ensures slots { seat.new.me.1 ≡ seat.old.me.1 }
        ensures learnt { LearnsLonger (both_of seat.old.me.0 other.me.0) seat.new.me.0 }
    {
        self.table.shared.join_seat::<TakesIn>(seat, other);
        self.table.shared.load::<Learn>(seat, TICKET);
    }
}
