//! The head: one published value. A reader takes the one that stands, and one writer publishes the
//! next; neither sees less than it saw before.
ghost use Rattle.std.specs.Prelude.{◌≡◌, ◌++◌, ◌∷◌, [], IfOk};
ghost use Rattle.tl_types.specs.declared.commits.Entry.{Entry};
ghost use mathlib.Core.List.{IsPrefix};

use crate::door::{Door, NewDoor};
use crate::passes::{Pass, WriterPass};
use std::alloc::Global;
use std::marker::Model;
use std::sync::Wait;
use tl_types::{NoMemory, Published};

/// A value that many read while one writer publishes the next. Contracts see a head as the name of
/// its table.
#[derive(Drop)]
pub struct Head<V: Published> {
    pub(crate) door: Door<V>,
}

impl<V: Published> Model for Head<V> {
    ghost use Rattle.atomic_table.specs.Seated.{TableId};

    ghost Value = { TableId };

    ghost view = { λ h. h.door };
}

/// A new head, with the pass of its writer.
pub struct NewHead<V: Published> {
    /// The head, from which the value is read.
    pub head: Head<V>,
    /// The one pass with which the head is written. `reader` makes those of readers from it.
    pub writer: WriterPass<V>,
}

impl<V: Published> Head<V> {
    /// A head with this value. What is written is the list for which the value stands. The error is
    /// `NoMemory`.
    pub fn new(alloc: Global, value: V) -> Result<NewHead<V>, NoMemory>
        ensures own { IfOk result (λ n. n.writer.table ≡ n.head) }
        ensures written { IfOk result (λ n. n.writer.written ≡ V.entries value) }
    {
        let NewDoor { door, seat } = Door::new(alloc, value)?;
        Ok(NewHead {
            head: Head { door },
            writer: WriterPass { seat },
        })
    }

    /// Takes a turn, and shares the value. It stands for what the pass now has seen, and what the
    /// pass had seen is a prefix of that. The error is `NoMemory`, and the latter holds after it
    /// too.
    pub fn read<R: Wait>(&self, rt: &R, pass: &mut Pass<V>) -> Result<V, NoMemory>
        requires own { pass.old.table ≡ self.now }
        ensures own { pass.new.table ≡ pass.old.table }
        ensures value { IfOk result (λ v. V.entries v ≡ pass.new.seen) }
        ensures later { IsPrefix pass.old.seen pass.new.seen }
    {
        let held = self.door.turn(rt, &mut pass.seat);
        self.door.see(&mut pass.seat, &held);
        let shared = held.value().share();
        self.door.give(&mut pass.seat, held);
        shared
    }

    /// Takes a turn, and publishes a value that stands for what is written and one entry more. What
    /// is written is then that list. The old value, which stands for what was written, is handed
    /// back. It takes no memory.
    pub fn publish<R: Wait>(&self, rt: &R, writer: &mut WriterPass<V>, next: V) -> V
        requires own { writer.old.table ≡ self.now }
        requires one_more { (e : Entry) × (V.entries next ≡ writer.old.written ++ e ∷ []) }
        ensures own { writer.new.table ≡ writer.old.table }
        ensures written { writer.new.written ≡ V.entries next }
        ensures old { V.entries result ≡ writer.old.written }
    {
        let mut held = self.door.turn(rt, &mut writer.seat);
        let old = self.door.raise(&mut writer.seat, &mut held, next);
        self.door.give(&mut writer.seat, held);
        old
    }

    /// Takes a last turn, and keeps the value. It stands for what is written, and what the pass had
    /// seen is a prefix of that. It takes no memory.
    pub fn close<R: Wait>(self, rt: &R, mut writer: WriterPass<V>, pass: Pass<V>) -> V
        requires own { (writer.table ≡ self) × (pass.table ≡ self) }
        ensures written { V.entries result ≡ writer.written }
        ensures seen { IsPrefix pass.seen writer.written }
    {
        writer.meet(&self, pass);
        self.door.turn(rt, &mut writer.seat).into_value()
    }
}
