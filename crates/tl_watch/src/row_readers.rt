//! What is read of the rows of a table when a plan begins: the number that the plan asks for, and
//! the value that separates the rows. Each takes a step; a column of numbers is read as one, and
//! another cell by cell.
ghost use Rattle.std.specs.Prelude.{◌≡◌, ◌+◌, ◌<◌, ◌≤◌, length, IfSome, Some};
ghost use Rattle.tl_types.specs.History.{cell_at};
ghost use Rattle.tl_types.specs.Plain as plain;
ghost use Rattle.tl_index.specs.Tables.{rows_in};
ghost use Rattle.tl_running.specs.Standing.{number_in};
ghost use Rattle.tl_store.specs.Reading.{columns_of, IsIntColumn, IsShort, cell_shown};
ghost use Rattle.tl_watch.specs.Gathering.{RowsOf, row_at};
ghost use Rattle.tl_watch.specs.Reading.{IsRow};

use std::marker::Model;
use std::sync::ledger::Ledger;
use tl_agg::columns::{int_keys, key_at, numbers};
use tl_index::TimedTable;
use tl_store::{CellRef, IntsRef};
use tl_types::Steps;

/// The rows of a table, with the column whose numbers are asked for and the one that separates the
/// rows, where they are. A contract sees the table and both columns.
#[derive(Drop)]
pub(crate) struct RowReader<'a> {
    table: TimedTable<'a>,
    column: Option<u8>,
    by: Option<u8>,
    numbers: Option<IntsRef<'a>>,
    keys: Option<IntsRef<'a>>,
}

impl<'a> Model for RowReader<'a> {
    ghost use Rattle.tl_watch.specs.Gathering.{RowsOf, ReadsColumns};

    ghost Value = { RowsOf };

    ghost view = { λ r. record { table = r.table; column = r.column; by = r.by } };

    ghost invariant = { λ r. ReadsColumns
        (record { table = r.table; column = r.column; by = r.by }) r.numbers r.keys };
}

impl<'a> RowReader<'a> {
    /// The rows of a table with these columns, the first of which is of numbers.
    pub(crate) fn new(table: TimedTable<'a>, column: Option<u8>, by: Option<u8>) -> RowReader<'a>
        requires { IfSome column
            (λ place. IsIntColumn (columns_of table.db table.number) place) }
        ensures { result ≡ record { table = table.entry; column = column; by = by } }
    {
        let numbers = numbers(&table, column);
        let keys = int_keys(&table, by);
        RowReader {
            table,
            column,
            by,
            numbers,
            keys,
        }
    }

    /// The number of a row in the column, where one is asked for, else 0. It takes at most one
    /// step.
    #[inline(always)]
    pub(crate) fn number<L: Ledger>(&self, id: u32, steps: &mut Steps<L>) -> i64
        requires { id < length (rows_in self.now.table) }
        ensures number { (row : plain.Row) → IsRow (row_at self.now id) row
            → number_in self.now.column row ≡ result }
        ensures steps { steps.new ≤ steps.old + 1 }
    {
        match &self.numbers {
            Some(cells) => cells.at(id, steps),
            None => 0,
        }
    }

    /// The value of a row in the column that separates the rows. It takes one step.
    #[inline(always)]
    pub(crate) fn key<L: Ledger>(&self, by: u8, id: u32, steps: &mut Steps<L>) -> CellRef<'a>
        requires by { self.now.by ≡ Some by }
        requires column { by < length (columns_of self.now.table.db self.now.table.number) }
        requires row { id < length (rows_in self.now.table) }
        ensures key { (row : plain.Row) → IsRow (row_at self.now id) row
            → cell_at row.cells by ≡ Some (cell_shown result) }
        ensures short { IsShort result }
        ensures steps { steps.new ≡ steps.old + 1 }
    {
        match &self.keys {
            Some(cells) => CellRef::Int(cells.at(id, steps)),
            None => key_at(&self.table, by, id, steps),
        }
    }
}
