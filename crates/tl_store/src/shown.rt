//! What the readers of a store show: a row's versions, a cell, a column of whole numbers. All is
//! lent but for whole numbers, and a number of a column is not seen without a step.
ghost use Rattle.std.specs.Prelude.{◌≡◌, ◌+◌, ◌<◌, pos, length, slice_index_or, IfOk};
ghost use Rattle.tl_store.specs.Reading.{IsShort, cell_shown};

use std::alloc::Global;
use std::marker::Model;
use std::sync::ledger::Ledger;
use tl_column::IntColumn;
use tl_types::{Cell, NoMemory, Steps, Text};

/// The versions at which a row stands: from `from` on and before `to`, which is the greatest
/// number of 32 bits while the row is current.
#[derive(Clone, Copy)]
pub struct SystemPeriod {
    /// The first version at which the row stands.
    pub from: u32,
    /// The version at which the row has ended.
    pub to: u32,
}

/// A cell, lent.
#[derive(Clone, Copy, Debug, PartialEq, Eq)]
pub enum CellRef<'a> {
    /// A signed whole number of 64 bits.
    Int(i64),
    /// A text of at most 65,535 bytes.
    Text(&'a str),
}

impl CellRef<'_> {
    /// The cell as a value of its own. The error is `NoMemory`.
    pub fn to_cell(self, alloc: Global) -> Result<Cell, NoMemory>
        requires { IsShort self }
        ensures { IfOk result (λ cell. cell ≡ cell_shown self.entry) }
    {
        match self {
            CellRef::Int(number) => Ok(Cell::Int(number)),
            CellRef::Text(text) => Ok(Cell::Text(Text::new(alloc, text)?)),
        }
    }
}

/// The cells of a column of whole numbers, lent. A contract sees them as the list.
#[derive(Drop)]
pub struct IntsRef<'a> {
    cells: &'a IntColumn,
}

impl<'a> Model for IntsRef<'a> {
    ghost use Rattle.std.specs.Prelude.{List, ℤ};

    ghost Value = { List ℤ };

    ghost view = { λ c. c.cells.now };
}

impl<'a> IntsRef<'a> {
    // The cells of a column.
    pub(crate) fn new(cells: &'a IntColumn) -> IntsRef<'a>
        ensures { result ≡ cells.now }
    {
        IntsRef { cells }
    }

    /// The cell of a row, by its id. It ticks once.
    pub fn at<L: Ledger>(&self, row: u32, steps: &mut Steps<L>) -> i64
        requires { row < length self.now }
        ensures value { result ≡ slice_index_or self.now row (pos 0) }
        ensures ticks { steps.new ≡ steps.old + 1 }
    {
        steps.tick();
        self.cells.at(row)
    }
}
