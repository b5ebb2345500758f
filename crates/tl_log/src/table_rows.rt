//! The rows of one table of a store, as a listing reads them. It keeps that they are of a table
//! that is there, so what is read of a row asks for its id alone.
ghost use Rattle.std.specs.Prelude.{◌≡◌, ◌<◌, ◌≤◌, true, length, Some, slice_get};
ghost use Rattle.tl_types.specs.History.{cell_at, database_of};
ghost use Rattle.tl_types.specs.Plain as plain;
ghost use Rattle.tl_store.specs.Reading.{cell_shown, system_period};

use std::marker::Model;
use std::sync::ledger::Ledger;
use tl_store::{CellRef, Store, SystemPeriod};
use tl_types::{Period, Schema, Steps};

/// The rows of a table of a store, lent. A contract sees the table.
#[derive(Drop)]
pub(crate) struct TableRows<'a> {
    store: &'a Store,
    schema: &'a Schema,
    number: u16,
}

impl<'a> Model for TableRows<'a> {
    ghost use Rattle.std.specs.Prelude.{◌≡◌, Some, slice_get};
    ghost use Rattle.tl_types.specs.History.{database_of, floor_of, rows_of};
    ghost use Rattle.tl_types.specs.Plain as plain;

    ghost Value = { plain.Table };

    ghost view = { λ t. record {
      schema = t.schema.now;
      floor = floor_of (slice_get (database_of t.store.now).tables t.number);
      rows = rows_of (database_of t.store.now) t.number;
    } };

    ghost invariant = { λ t. slice_get (database_of t.store.now).tables t.number
        ≡ Some (record {
          schema = t.schema.now;
          floor = floor_of (slice_get (database_of t.store.now).tables t.number);
          rows = rows_of (database_of t.store.now) t.number;
        }) };
}

impl<'a> TableRows<'a> {
    /// The rows of the table of a store that has a number, from 0.
    #[tactic(auto, using(crate::proofs::RowLemmas::table_there))]
    pub(crate) fn new(store: &'a Store, number: u16) -> TableRows<'a>
        requires { number < length (database_of store.now).tables }
        ensures { slice_get (database_of store.now).tables number ≡ Some result }
    {
        TableRows {
            store,
            schema: store.schema(number),
            number,
        }
    }

    /// The schema of the table.
    pub(crate) fn schema(&self) -> &'a Schema
        ensures { result.now ≡ self.now.schema }
    {
        self.schema
    }

    /// The number of rows, ended ones included. Their ids are the numbers below it.
    #[tactic(auto, using(crate::proofs::RowLemmas::number_within))]
    pub(crate) fn len(&self) -> u32
        ensures number { result ≡ length self.now.rows }
        ensures few { result ≤ 16777216 }
    {
        self.store.rows(self.number)
    }

    /// The versions that opened and ended a row, by its id.
    #[tactic(auto, using(crate::proofs::RowLemmas::shown_versions))]
    pub(crate) fn versions<L: Ledger>(&self, row: u32, steps: &mut Steps<L>) -> SystemPeriod
        requires { row < length self.now.rows }
        ensures { (r : plain.Row) → slice_get self.now.rows row ≡ Some r
            → result ≡ system_period r }
    {
        self.store.period_at(self.number, row, steps)
    }

    /// The valid period of a row, by its id, of a table whose rows have one.
    #[tactic(auto, using(crate::proofs::RowLemmas::periods_there, crate::proofs::RowLemmas::shown_period))]
    pub(crate) fn period<L: Ledger>(&self, row: u32, steps: &mut Steps<L>) -> Period
        requires row { row < length self.now.rows }
        requires valid { self.now.schema.valid ≡ true }
        ensures { (r : plain.Row) → slice_get self.now.rows row ≡ Some r
            → r.period ≡ Some result }
    {
        self.store.valid_at(self.number, row, steps)
    }

    /// The cell of a row, by its id, in the column at a place, from 0.
    #[tactic(auto, using(crate::proofs::RowLemmas::columns_there, crate::proofs::RowLemmas::shown_cell))]
    pub(crate) fn cell<L: Ledger>(&self, row: u32, column: u8, steps: &mut Steps<L>) -> CellRef<'a>
        requires row { row < length self.now.rows }
        requires column { column < length self.now.schema.columns }
        ensures { (r : plain.Row) → slice_get self.now.rows row ≡ Some r
            → cell_at r.cells column ≡ Some (cell_shown result) }
    {
        self.store.cell(self.number, row, column, steps)
    }
}
