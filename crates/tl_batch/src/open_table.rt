//! A table of a store, with the ids of its open rows by their keys: rows and periods are read from
//! the one, and found by the other. It is lent, and changes nothing.
ghost use Rattle.std.specs.Prelude.{◌≡◌, ◌<◌, ◌≤◌, ◌++◌, ℕ, true, Some, All, IfOk, OnOk, length, slice_get, option_map};
ghost use Rattle.std.specs.Cmp.Lexicographic.{pointwise};
ghost use Rattle.tl_types.specs.declared.cells.Cell.{Cell};
ghost use Rattle.tl_types.specs.Plain as plain;
ghost use Rattle.tl_types.specs.History.{database_of, has_id, same_cell};
ghost use Rattle.tl_types.specs.Resolving.{open_rows, same_period, same_row};
ghost use Rattle.tl_store.specs.Reading.{cell_shown};
ghost use Rattle.tl_batch.specs.KeyIndex.{has_row};
ghost use Rattle.tl_batch.specs.OpenTables.{IsIndexOf};
ghost use Rattle.tl_batch.specs.Standing.{is_open_with, rows_match, table_has};
ghost use Rattle.tl_batch.specs.Syncing.{as_opened, start_of, working_rows};

use crate::id_list::IdList;
use crate::key_index::KeyIndex;
use std::alloc::Global;
use std::marker::Model;
use std::sync::ledger::Ledger;
use tl_store::{CellRef, Store};
use tl_types::{Cell, NoMemory, Opened, Period, Schema, Seq, SmallSeq, Steps};

/// A table of a store, with the ids of its open rows by their keys. A contract sees the table.
#[derive(Drop)]
pub(crate) struct OpenTable<'a> {
    store: &'a Store,
    number: u16,
    schema: &'a Schema,
    index: &'a KeyIndex,
}

impl<'a> Model for OpenTable<'a> {
    ghost use Rattle.tl_types.specs.Plain as plain;
    ghost use Rattle.tl_batch.specs.OpenTables.{table_at, IsOpenTable};

    ghost Value = { plain.Table };

    ghost view = { λ t. table_at t.store.now t.number t.schema.now };

    ghost invariant = { λ t. IsOpenTable t.store.now t.number t.schema.now t.index.now };
}

// Whether a cell that is lent is this one.
fn is_cell(shown: CellRef<'_>, cell: &Cell) -> bool
    ensures { result ≡ same_cell (cell_shown shown.entry) cell.now }
{
    match shown {
        CellRef::Int(shown) => match cell {
            Cell::Int(number) => shown == *number,
            Cell::Text(_) => false,
        },
        CellRef::Text(shown) => match cell {
            Cell::Int(_) => false,
            Cell::Text(text) => shown == text.as_str(),
        },
    }
}

impl<'a> OpenTable<'a> {
    /// The table with this number, whose rows match its schema, with the ids of its open rows.
    pub(crate) fn new(store: &'a Store, number: u16, index: &'a KeyIndex) -> OpenTable<'a>
        requires there { number < length (database_of store.now).tables }
        requires matching { rows_match (slice_get (database_of store.now).tables number) ≡ true }
        requires ids { (x : Cell) (n : ℕ) → has_row index.now x n
            ≡ table_has (slice_get (database_of store.now).tables number) x n }
        ensures { Some result ≡ slice_get (database_of store.now).tables number }
    {
        let schema = store.schema(number);
        OpenTable {
            store,
            number,
            schema,
            index,
        }
    }

    /// The schema.
    pub(crate) fn schema(&self) -> &'a Schema
        ensures value { result.now ≡ self.now.schema }
        ensures matching { rows_match (Some self.now) ≡ true }
    {
        self.schema
    }

    /// The ids of the open rows by their keys.
    pub(crate) fn index(&self) -> &'a KeyIndex
        ensures ids { IsIndexOf result.now self.now.schema.key self.now.rows }
        ensures matching { rows_match (Some self.now) ≡ true }
    {
        self.index
    }

    /// The number of rows, ended ones included.
    pub(crate) fn rows(&self) -> u32
        ensures number { result ≡ length self.now.rows }
        ensures few { result ≤ 16777216 }
    {
        self.store.rows(self.number)
    }

    /// Makes a list that of the ids of the open rows of a key, in any order: what the list had is
    /// gone, and its room is used again. The error is `NoMemory`.
    pub(crate) fn fill_ids(&self, key: &Cell, ids: &mut IdList) -> Result<(), NoMemory>
        ensures { OnOk result ((n : ℕ) → has_id ids.new n
            ≡ is_open_with self.now.schema.key key.now (slice_get self.now.rows n)) }
    {
        self.index.fill(key, ids)?;
        Ok(())
    }

    /// The cells of a row, one for each column. The error is `NoMemory`.
    pub(crate) fn row_cells<L: Ledger>(
        &self,
        alloc: Global,
        row: u32,
        steps: &mut Steps<L>,
    ) -> Result<Seq<Cell>, NoMemory>
        requires row { row < length self.now.rows }
        ensures value { IfOk result (λ cells. Some cells
            ≡ option_map (λ r. r.cells) (slice_get self.now.rows row)) }
        ensures number { IfOk result (λ cells. length cells ≡ length self.now.schema.columns) }
        ensures some { IfOk result (λ cells. 1 ≤ length cells) }
        ensures few { IfOk result (λ cells. length cells ≤ 16) }
    {
        let _columns = self.schema.columns(); // says that there are 1 to 16 columns
        let cells = self.store.row_cells(alloc, self.number, row, steps)?;
        Ok(cells)
    }

    /// Appends the cells of a row, one for each column. The error is `NoMemory`.
    #[inline(always)]
    pub(crate) fn push_cells<L: Ledger>(
        &self,
        alloc: Global,
        cells: &mut SmallSeq<Cell>,
        row: u32,
        steps: &mut Steps<L>,
    ) -> Result<(), NoMemory>
        requires row { row < length self.now.rows }
        ensures value { OnOk result ((r : plain.Row) → slice_get self.now.rows row ≡ Some r
            → cells.new ≡ cells.old ++ r.cells) }
        ensures number { OnOk result ((r : plain.Row) → slice_get self.now.rows row ≡ Some r
            → (1 ≤ length r.cells) × (length r.cells ≤ 16)) }
    {
        let count = self.schema.columns().len() as u8;
        for column in 0..count {
            let cell = self
                .store
                .cell(self.number, row, column, steps)
                .to_cell(alloc)?;
            cells.push(cell)?;
        }
        Ok(())
    }

    /// The cell of a row that is its key. The error is `NoMemory`.
    #[inline(always)]
    pub(crate) fn key<L: Ledger>(
        &self,
        alloc: Global,
        row: u32,
        steps: &mut Steps<L>,
    ) -> Result<Cell, NoMemory>
        requires row { row < length self.now.rows }
        ensures { IfOk result (λ key. (r : plain.Row) → slice_get self.now.rows row ≡ Some r
            → slice_get r.cells self.now.schema.key ≡ Some key) }
    {
        let place = self.schema.key();
        let cell = self
            .store
            .cell(self.number, row, place, steps)
            .to_cell(alloc)?;
        Ok(cell)
    }

    /// The valid period of a row of a table with valid time.
    pub(crate) fn period<L: Ledger>(&self, row: u32, steps: &mut Steps<L>) -> Option<Period>
        requires row { row < length self.now.rows }
        requires valid { self.now.schema.valid ≡ true }
        ensures { Some result ≡ option_map (λ r. r.period) (slice_get self.now.rows row) }
    {
        Some(self.store.valid_at(self.number, row, steps))
    }

    /// The same, where it is known that there is one.
    #[inline(always)]
    pub(crate) fn period_at<L: Ledger>(&self, row: u32, steps: &mut Steps<L>) -> Period
        requires row { row < length self.now.rows }
        requires valid { self.now.schema.valid ≡ true }
        ensures { (r : plain.Row) → slice_get self.now.rows row ≡ Some r
            → r.period ≡ Some result }
    {
        self.store.valid_at(self.number, row, steps)
    }

    // Whether a row has these cells.
    fn has_cells<L: Ledger>(&self, row: u32, cells: &[Cell], steps: &mut Steps<L>) -> bool
        requires row { row < length self.now.rows }
        ensures { (r : plain.Row) → slice_get self.now.rows row ≡ Some r
            → result ≡ pointwise same_cell r.cells cells.now }
    {
        if cells.len() != self.schema.columns().len() {
            return false;
        }
        for (i, cell) in cells.iter().enumerate() {
            let shown = self.store.cell(self.number, row, i as u8, steps);
            let same = is_cell(shown, cell);
            if !same {
                return false;
            }
        }
        true
    }

    // Whether a row has this valid period, or has none where it is none.
    fn has_period<L: Ledger>(&self, row: u32, period: &Option<Period>, steps: &mut Steps<L>) -> bool
        requires row { row < length self.now.rows }
        ensures { (r : plain.Row) → slice_get self.now.rows row ≡ Some r
            → result ≡ same_period r.period period.now }
    {
        if !self.schema.valid() {
            return period.is_none();
        }
        let Some(period) = period else {
            return false;
        };
        self.period_at(row, steps) == *period
    }

    /// Whether a row is the same as a line: it has its cells and its valid period.
    pub(crate) fn is_same<L: Ledger>(&self, row: u32, line: &Opened, steps: &mut Steps<L>) -> bool
        requires row { row < length self.now.rows }
        ensures { (r : plain.Row) → slice_get self.now.rows row ≡ Some r
            → result ≡ same_row (as_opened r) line.now }
    {
        let in_time = self.has_period(row, &line.period(), steps);
        if !in_time {
            return false;
        }
        self.has_cells(row, line.cells(), steps)
    }

    /// The moment at which the valid period of a row begins, 0 where it has none.
    pub(crate) fn start<L: Ledger>(&self, row: u32, steps: &mut Steps<L>) -> i64
        requires row { row < length self.now.rows }
        ensures { (r : plain.Row) → slice_get self.now.rows row ≡ Some r
            → result ≡ start_of r.period }
    {
        if !self.schema.valid() {
            return 0;
        }
        self.period_at(row, steps).from()
    }

    /// The ids of the open rows, ascending. The error is `NoMemory`.
    pub(crate) fn open_ids(&self, alloc: Global) -> Result<Seq<u32>, NoMemory>
        ensures rows { IfOk result (λ ids. working_rows self.now.rows ids ≡ open_rows self.now) }
        ensures within { IfOk result (λ ids. All (λ row. row < length self.now.rows) ids) }
    {
        let _place = self.schema.key(); // says that the key is one of the columns
        let mut ids = IdList::new(alloc);
        self.index.add_all_to(&mut ids)?;
        let listed = ids.listed();
        Ok(listed)
    }
}
