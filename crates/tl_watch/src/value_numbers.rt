//! What is gathered of the numbers of the rows of one value, as an item of a list that the value's
//! number leads to. It is told apart from another value's by that alone.
ghost use Rattle.std.specs.Prelude.{◌≡◌, IfOk, OnOk};
ghost use Rattle.tl_running.specs.Standing.{HasRoom, Enters};
ghost use Rattle.tl_store.specs.Reading.{IsShort, cell_shown};
ghost use Rattle.tl_watch.specs.Gathering.{KeepsAs};

use crate::gathered::Gathered;
use crate::numbers::Numbers;
use std::alloc::Global;
use std::marker::Model;
use tl_store::CellRef;
use tl_types::{Cell, NoMemory};

/// What is gathered of the rows of a value, which is lent. A contract sees both.
#[derive(Drop)]
pub(crate) struct ValueNumbers<'a> {
    value: CellRef<'a>,
    group: Gathered,
}

impl<'a> Model for ValueNumbers<'a> {
    ghost use Rattle.tl_types.specs.declared.cells.Cell.{Cell};
    ghost use Rattle.tl_running.specs.Standing.{Kept};
    ghost use Rattle.tl_store.specs.Reading.{IsShort, cell_shown};

    ghost Value = { Cell × Kept };

    ghost view = { λ g. (cell_shown g.value, g.group) };

    ghost invariant = { λ g. IsShort g.value };
}

impl<'a> ValueNumbers<'a> {
    /// What is gathered of the rows of a value.
    pub(crate) fn new(value: CellRef<'a>, group: Gathered) -> ValueNumbers<'a>
        requires { IsShort value }
        ensures { result ≡ (cell_shown value.entry, group) }
    {
        ValueNumbers { value, group }
    }

    /// A number comes. The error is `NoMemory`.
    #[inline]
    pub(crate) fn enter(&mut self, number: i64) -> Result<(), NoMemory>
        requires { HasRoom self.old.1 }
        ensures value { OnOk result (self.new.0 ≡ self.old.0) }
        ensures enters { OnOk result (Enters self.old.1 self.new.1 number) }
    {
        self.group.enter(number)
    }

    /// The value, as one of its own, and what is kept of its numbers. The error is `NoMemory`.
    pub(crate) fn into_parts(self, alloc: Global) -> Result<(Cell, Numbers), NoMemory>
        ensures value { IfOk result (λ parts. parts.0 ≡ self.entry.0) }
        ensures kept { IfOk result (λ parts. KeepsAs self.entry.1 parts.1) }
    {
        let value = self.value.to_cell(alloc)?;
        let numbers = self.group.into_numbers(alloc)?;
        Ok((value, numbers))
    }
}
