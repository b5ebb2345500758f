//! The group of a value, as an item of a list that the value's number leads to. A contract sees the
//! value and the group's state.
ghost use Rattle.std.specs.Prelude.{◌≡◌, IfOk, OnOk};
ghost use Rattle.tl_store.specs.Reading.{IsShort, cell_shown};
ghost use Rattle.tl_running.specs.Standing.{CanChange};
ghost use Rattle.tl_agg.specs.Groups.{Moves};

use crate::groups::Group;
use std::alloc::Global;
use std::marker::Model;
use tl_store::CellRef;
use tl_types::{Cell, NoMemory};

/// The group of a value, which is lent. A contract sees the value and the group.
#[derive(Drop)]
pub(crate) struct ValueGroup<'a> {
    value: CellRef<'a>,
    group: Group,
}

impl<'a> Model for ValueGroup<'a> {
    ghost use Rattle.tl_types.specs.declared.cells.Cell.{Cell};
    ghost use Rattle.tl_store.specs.Reading.{IsShort, cell_shown};
    ghost use Rattle.tl_agg.specs.Groups.{State};

    ghost Value = { Cell × State };

    ghost view = { λ g. (cell_shown g.value, g.group) };

    ghost invariant = { λ g. IsShort g.value };
}

impl<'a> ValueGroup<'a> {
    /// The group of a value.
    pub(crate) fn new(value: CellRef<'a>, group: Group) -> ValueGroup<'a>
        requires { IsShort value }
        ensures { result ≡ (cell_shown value.entry, group) }
    {
        ValueGroup { value, group }
    }

    /// A number comes into the group at a version where `opens`, else it goes. The error is
    /// `NoMemory`.
    pub(crate) fn change(&mut self, at: u32, opens: bool, number: i64) -> Result<(), NoMemory>
        requires { CanChange opens self.old.1.running number }
        ensures value { OnOk result (self.new.0 ≡ self.old.0) }
        ensures moves { OnOk result (Moves self.old.1 self.new.1 at opens number) }
    {
        self.group.change(at, opens, number)
    }

    /// The value, as one of its own, and the group. The error is `NoMemory`.
    pub(crate) fn into_parts(self, alloc: Global) -> Result<(Cell, Group), NoMemory>
        ensures { IfOk result (λ parts. parts ≡ self.entry) }
    {
        let value = self.value.to_cell(alloc)?;
        Ok((value, self.group))
    }
}
