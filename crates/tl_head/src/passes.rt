//! What a reader has seen, and what the writer has written. A pass learns from another what that
//! one has seen, and never sees less.
ghost use Rattle.std.specs.Prelude.{◌≡◌, ◌⊎◌};
ghost use mathlib.Core.List.{IsPrefix};

use crate::head::Head;
use crate::seats::DoorSeat;
use std::marker::Model;
use tl_types::Published;

/// A pass with which a thread reads a head. It has no bytes. Contracts see the head's table and the
/// entries that the pass has seen.
#[derive(Drop)]
pub struct Pass<V> {
    pub(crate) seat: DoorSeat<V>,
}

impl<V> Model for Pass<V> {
    ghost use Rattle.std.specs.Prelude.{◌≡◌, false};
    ghost use Rattle.tl_head.specs.declared.views.Stage.TheVariants.{Idle};
    ghost use Rattle.tl_head.specs.Passes.{PassValue};

    ghost Value = { PassValue };

    ghost view = { λ p. record { table = p.seat.table; seen = p.seat.seen } };

    ghost invariant = { λ p. (p.seat.stage ≡ Idle) × (p.seat.writes ≡ false) };
}

/// The one pass with which a head is written. It has no bytes. Contracts see the head's table and
/// the entries that are written.
#[derive(Drop)]
pub struct WriterPass<V> {
    pub(crate) seat: DoorSeat<V>,
}

impl<V> Model for WriterPass<V> {
    ghost use Rattle.std.specs.Prelude.{◌≡◌, true};
    ghost use Rattle.tl_head.specs.declared.views.Stage.TheVariants.{Idle};
    ghost use Rattle.tl_head.specs.Passes.{WriterValue};

    ghost Value = { WriterValue };

    ghost view = { λ p. record { table = p.seat.table; written = p.seat.seen } };

    ghost invariant = { λ p. (p.seat.stage ≡ Idle) × (p.seat.writes ≡ true) };
}

impl<V: Published> WriterPass<V> {
    /// A reader's pass for this head, which has seen all that is written.
    pub fn reader(&mut self, head: &Head<V>) -> Pass<V>
        requires own { self.old.table ≡ head.now }
        ensures same { self.new ≡ self.old }
        ensures own { result.table ≡ head.now }
        ensures seen { result.seen ≡ self.old.written }
    {
        let seat = self.seat.split(&head.door);
        Pass { seat }
    }

    /// Takes in a pass of this head: what it had seen is a prefix of what is written.
    pub fn meet(&mut self, head: &Head<V>, pass: Pass<V>)
        requires own { (self.old.table ≡ head.now) × (pass.table ≡ head.now) }
        ensures same { self.new ≡ self.old }
        ensures prefix { IsPrefix pass.seen self.old.written }
    {
        let Pass { seat } = pass;
        self.seat.join(&head.door, seat);
    }
}

impl<V: Published> Pass<V> {
    /// A further pass for this head, which has seen the same entries.
    pub fn copy(&mut self, head: &Head<V>) -> Pass<V>
        requires own { self.old.table ≡ head.now }
        ensures same { self.new ≡ self.old }
        ensures copy { result ≡ self.old }
    {
        Pass {
            seat: self.seat.split(&head.door),
        }
    }

    /// Takes in another pass of this head. Of the two lists seen one is a prefix of the other, and
    /// this pass has then seen the longer.
    pub fn learn(&mut self, head: &Head<V>, other: Pass<V>)
        requires own { (self.old.table ≡ head.now) × (other.table ≡ head.now) }
        ensures own { self.new.table ≡ self.old.table }
        ensures own_prefix { IsPrefix self.old.seen self.new.seen }
        ensures other_prefix { IsPrefix other.seen self.new.seen }
        ensures longer { (self.new.seen ≡ self.old.seen) ⊎ (self.new.seen ≡ other.seen) }
    {
        let Pass { seat: other } = other;
        self.seat.join(&head.door, other);
    }
}
