//! One table, kept by columns: its cells, the valid periods, the versions at which each row
//! stands, and the closed ids in their order. A table after a change shares with the older one
//! what the change leaves.
ghost use Rattle.std.specs.Prelude.{◌≡◌, ℕ, ◌+◌, ◌-◌, ◌*◌, ◌%◌, ◌<◌, ◌≤◌, IsTrue, IfOk, Some, length, map, take, drop, slice_get, All, option_map, replicate};
ghost use Rattle.std.specs.List.{list_all};
ghost use Rattle.tl_types.specs.History.{fits_table, fits_floor, has_name, is_open_at, is_within, cell_at};
ghost use Rattle.tl_types.specs.Plain as plain;
ghost use Rattle.tl_lanes.specs.Masks.{is_bit};
ghost use Rattle.tl_types.specs.Limits.{standard_limits};
ghost use Rattle.tl_store.specs.Columns.{empty_column, column_length, cell_in};
ghost use Rattle.tl_store.specs.Kept.{table_of, kept_new, kept_after, kept_floored};
ghost use Rattle.tl_store.specs.Log.{IsPart, part, opened_of};
ghost use Rattle.tl_store.specs.Reading.{cell_shown, IsShort, cell_of_row, system_period, column_cells, rows_passing, IsIntColumn, some_int};

use crate::columns::{self, ColumnData};
use crate::periods::PeriodList;
use crate::ready::ReadyTest;
use crate::shown::{CellRef, SystemPeriod};
use std::alloc::Global;
use std::marker::Model;
use std::sync::Arc;
use std::sync::ledger::Ledger;
use tl_column::IntColumn;
use tl_query::TypedTest;
use tl_shared::{CHUNK, ListInChunks, Shareable, SharedList, share_all};
use tl_types::{
    Cell, Change, Column, Limits, NoMemory, OPEN, Opened, Period, Schema, Seq, SmallSeq, Steps,
    Text, all_match,
};

// How many ends of rows stand in a full chunk. They change all over, and a change of one copies its
// chunk where another snapshot has it; and a table that changes copies its list of chunks.
const ENDS: usize = 256;

/// A table: its schema and its floor, a column for each of the schema's, the valid periods of its
/// rows where it has them, the versions from which and before which each row stands, and the ids of
/// closed rows in the order in which commits closed them.
#[derive(Drop)]
pub(crate) struct TableData {
    schema: Arc<Schema>,
    floor: u32,
    columns: Vec<ColumnData>,
    periods: PeriodList,
    from: SharedList<u32>,
    to: ListInChunks<u32, ENDS>,
    closed: SharedList<u32>,
}

impl Model for TableData {
    ghost use Rattle.tl_store.specs.Kept.{Kept};

    ghost Value = { Kept };

    ghost use Rattle.std.specs.Arc.{arc_value};
    ghost use Rattle.tl_store.specs.Columns.{rows_in, IsTable};

    ghost view = { λ t. record {
      schema = arc_value t.schema;
      floor = t.floor;
      rows = rows_in t.columns.items t.periods 0 t.from t.to;
      closed = t.closed;
    } };

    ghost invariant = { λ t. IsTable (arc_value t.schema) t.columns.items t.periods t.from t.to };
}

impl TableData {
    /// The table of a schema without rows, whose floor is 0.
    pub fn new(alloc: Global, schema: &Schema) -> Result<TableData, NoMemory>
        ensures { IfOk result (λ table. table ≡ kept_new schema.now) }
    {
        Ok(TableData {
            columns: empty_columns(alloc, schema.columns())?,
            schema: Arc::new(alloc, schema.clone()?)?,
            floor: 0,
            periods: PeriodList::none(alloc),
            from: SharedList::none(alloc),
            to: ListInChunks::none(alloc),
            closed: SharedList::none(alloc),
        })
    }

    /// The schema, which stays as the table was made with it.
    pub fn schema(&self) -> &Schema
        ensures { result.now ≡ self.now.schema }
    {
        &self.schema
    }

    /// The least version that may be asked of it.
    pub fn floor(&self) -> u32
        ensures { result ≡ self.now.floor }
    {
        self.floor
    }

    /// The table with another floor, which takes this one over.
    pub fn with_floor(self, floor: u32) -> TableData
        ensures { result ≡ kept_floored floor self }
    {
        TableData { floor, ..self }
    }

    /// How many rows there are, ended ones included.
    pub fn rows(&self) -> u32
        ensures number { result ≡ length self.now.rows }
        ensures few { result ≤ 16777216 }
    {
        self.from.len() as u32
    }

    /// How many closed ids there are, each of a row that a commit closed.
    pub fn closed(&self) -> u64
        ensures { result ≡ length self.now.closed }
    {
        self.closed.len()
    }

    /// Whether the table has the name.
    pub fn has_name(&self, name: &str) -> bool
        ensures { result ≡ has_name name.now (table_of self.now) }
    {
        self.schema.name().as_str() == name
    }

    // Whether the row with an id is there and is current.
    fn is_open_at(&self, id: u32) -> bool
        ensures { result ≡ is_open_at self.now.rows id }
    {
        (id as u64) < self.to.len() && *self.to.at(id as u64) == OPEN
    }

    // Whether each id is that of a current row.
    fn all_open(&self, ids: &[u32]) -> bool
        ensures { result ≡ list_all (is_open_at self.now.rows) ids.now }
    {
        ids.iter().all(|id| self.is_open_at(*id))
    }

    /// Whether a change fits the table: it closes open rows only, opens rows that match the
    /// schema, and leaves few enough rows.
    pub fn fits(&self, change: &Change, limits: &Limits) -> bool
        ensures { result ≡ fits_table limits.now change.now (Some (table_of self.now)) }
    {
        self.all_open(change.closes())
            && all_match(&self.schema, change.opens())
            && self.rows() as u64 + change.opens().len() as u64 <= limits.rows
    }

    /// Whether a floor fits the table: it is greater than the one that stands, and at most the
    /// number of commits.
    pub fn fits_floor(&self, now: u32, floor: u32) -> bool
        ensures { result ≡ fits_floor now floor (Some (table_of self.now)) }
    {
        self.floor() < floor && floor <= now
    }

    /// The table after the change of a version, which takes this one over: what of it has no other
    /// owner is not copied.
    pub fn change(self, alloc: Global, version: u32, change: &Change) -> Result<TableData, NoMemory>
        requires { IsTrue (fits_table standard_limits change.now (Some (table_of self))) }
        ensures { IfOk result (λ table. table ≡ kept_after version change.now self) }
    {
        let opens = change.opens();
        let closes = change.closes();
        let begins = filled(alloc, version, opens.len())?;
        let ends = filled(alloc, OPEN, opens.len())?;
        let TableData {
            schema,
            floor,
            columns,
            periods,
            from,
            to,
            closed,
        } = self;
        let ended = to.set_each(alloc, closes, &version)?;
        Ok(TableData {
            schema,
            floor,
            columns: columns::append_to_all(alloc, columns, opens)?,
            periods: periods.append(alloc, opens)?,
            from: from.append(alloc, begins.as_slice())?,
            to: ended.append(alloc, ends.as_slice())?,
            closed: closed.append(alloc, closes)?,
        })
    }

    /// The versions at which a row stands.
    pub fn period_at(&self, row: u32) -> SystemPeriod
        requires { row < length self.now.rows }
        ensures { Some result ≡ option_map system_period (slice_get self.now.rows row) }
    {
        SystemPeriod {
            from: *self.from.at(row as u64),
            to: *self.to.at(row as u64),
        }
    }

    /// The cell of a row in the column at a place.
    pub fn cell(&self, row: u32, column: u8) -> CellRef<'_>
        requires row { row < length self.now.rows }
        requires column { column < length self.now.schema.columns }
        ensures value { Some (cell_shown result)
            ≡ cell_of_row column (slice_get self.now.rows row) }
        ensures short { IsShort result }
    {
        let column = &self.columns[column as usize];
        column.cell(row)
    }

    /// The test of the column at a place, made ready.
    pub fn ready_test(&self, column: u8, test: &TypedTest) -> ReadyTest<'_>
        requires { column < length self.now.schema.columns }
        ensures { result ≡ rows_passing self.now.rows column test.now }
    {
        let column = &self.columns[column as usize];
        ReadyTest::new(column, test)
    }

    /// The numbers of the column at a place.
    pub fn ints(&self, column: u8) -> &IntColumn
        requires { IsIntColumn self.now.schema.columns column }
        ensures { map some_int result.now ≡ column_cells self.now.rows column }
    {
        let column = &self.columns[column as usize];
        column.ints()
    }

    /// The numbers of the column at a place, from a row on, as far as they stand in one piece.
    pub fn ints_from(&self, row: u32, column: u8) -> &[i64]
        requires row { row < length self.now.rows }
        requires kind { IsIntColumn self.now.schema.columns column }
        ensures cells { map some_int result.now
            ≡ take (CHUNK - row % CHUNK) (drop row (column_cells self.now.rows column)) }
        ensures some { 0 < length result.now }
    {
        let column = &self.columns[column as usize];
        column.ints_from(row)
    }

    /// The valid period of a row.
    pub fn valid_at(&self, row: u32) -> Period
        requires row { row < length self.now.rows }
        requires valid { IsTrue self.now.schema.valid }
        ensures { Some (Some result) ≡ option_map (λ r. r.period) (slice_get self.now.rows row) }
    {
        self.periods.at(row)
    }

    /// Word `i` of the mask of the rows whose valid period holds a moment: bit j tells of the row
    /// with id 64 i + j.
    pub fn valid_word(&self, i: u32, moment: i64) -> u64
        ensures { (k : ℕ) (r : plain.Row) → k < 64 → slice_get self.now.rows (64 * i + k) ≡ Some r
            → is_bit result k ≡ is_within moment r.period }
    {
        self.periods.mask_word(i, moment)
    }

    /// The cells of a row, one for each column, as values of their own.
    pub fn row_cells(&self, alloc: Global, row: u32) -> Result<Vec<Cell>, NoMemory>
        requires { row < length self.now.rows }
        ensures { IfOk result
            (λ cells. Some cells.items ≡ option_map (λ r. r.cells) (slice_get self.now.rows row)) }
    {
        let cells = cells_at(alloc, self.columns.as_slice(), row)?;
        Ok(cells)
    }

    // The row as its commit opened it.
    fn opened_at(&self, alloc: Global, row: u32) -> Result<Opened, NoMemory>
        requires { row < length self.now.rows }
        ensures { IfOk result
            (λ opened. Some opened ≡ option_map opened_of (slice_get self.now.rows row)) }
    {
        let cells = cells_at(alloc, self.columns.as_slice(), row)?;
        Ok(Opened::new(SmallSeq::from_vec(cells), self.periods.get(row)))
    }

    // A part of the closed ids. It ticks once for each.
    fn closes<L: Ledger>(
        &self,
        alloc: Global,
        first: u64,
        count: u32,
        steps: &mut Steps<L>,
    ) -> Result<Seq<u32>, NoMemory>
        requires { first + count ≤ length self.now.closed }
        ensures value { IfOk result (λ closes. closes ≡ part first count self.now.closed) }
        ensures ticks { IfOk result (λ _. steps.new ≡ steps.old + count) }
    {
        let _all = self.closed(); // says that places are of 64 bits
        let mut closes = Vec::with_capacity(alloc, count as usize)?;
        for place in 0..count {
            steps.tick();
            closes.push(*self.closed.at(first + place as u64))?;
        }
        Ok(Seq::from_vec(closes))
    }

    // A part of the rows, as their commits opened them. It ticks once for each.
    fn opens<L: Ledger>(
        &self,
        alloc: Global,
        first: u32,
        count: u32,
        steps: &mut Steps<L>,
    ) -> Result<Seq<Opened>, NoMemory>
        requires { first + count ≤ length self.now.rows }
        ensures value { IfOk result
            (λ opens. opens ≡ map opened_of (part first count self.now.rows)) }
        ensures ticks { IfOk result (λ _. steps.new ≡ steps.old + count) }
    {
        let _all = self.rows(); // says that rows are few
        let mut opens = Vec::with_capacity(alloc, count as usize)?;
        for place in 0..count {
            steps.tick();
            opens.push(self.opened_at(alloc, first + place)?)?;
        }
        Ok(Seq::from_vec(opens))
    }

    /// The change of this table, by its number, that closed and opened these many rows. It ticks
    /// once for each.
    pub fn change_of<L: Ledger>(
        &self,
        alloc: Global,
        table: u16,
        first_close: u64,
        closes: u32,
        first_open: u32,
        opens: u32,
        steps: &mut Steps<L>,
    ) -> Result<Change, NoMemory>
        requires { IsPart first_close closes first_open opens self.now }
        ensures value { IfOk result
            (λ change. change ≡ record {
              table = table;
              closes = part first_close closes self.now.closed;
              opens = map opened_of (part first_open opens self.now.rows);
            }) }
        ensures ticks { IfOk result
            (λ change. steps.new ≡ steps.old + (length change.closes + length change.opens)) }
    {
        let closes = self.closes(alloc, first_close, closes, steps)?;
        let opens = self.opens(alloc, first_open, opens, steps)?;
        let change = Change::new(table, closes, opens);
        Ok(change)
    }
}

impl Shareable for TableData {
    fn share(&self, alloc: Global) -> Result<TableData, NoMemory> {
        Ok(TableData {
            schema: Arc::try_clone(&self.schema)?,
            floor: self.floor,
            columns: share_all(alloc, self.columns.as_slice())?,
            periods: self.periods.share(alloc)?,
            from: self.from.share(alloc)?,
            to: self.to.share(alloc)?,
            closed: self.closed.share(alloc)?,
        })
    }
}

// A column without cells for each of these.
fn empty_columns(alloc: Global, columns: &[Column]) -> Result<Vec<ColumnData>, NoMemory>
    ensures { IfOk result
        (λ empty. empty.items ≡ map (λ column. empty_column column.kind) columns.now) }
{
    let mut empty = Vec::with_capacity(alloc, columns.len())?;
    for column in columns {
        empty.push(ColumnData::none(alloc, column.kind))?;
    }
    Ok(empty)
}

// A number, so many times.
fn filled(alloc: Global, number: u32, count: usize) -> Result<Vec<u32>, NoMemory>
    ensures { IfOk result (λ numbers. numbers.items ≡ replicate count number) }
{
    Ok(vec![in alloc; number; count]?)
}

// A cell, owned.
fn cell_at(alloc: Global, column: &ColumnData, row: u32) -> Result<Cell, NoMemory>
    requires { row < column_length column.now }
    ensures { IfOk result (λ cell. cell ≡ cell_in row column.now) }
{
    column.cell(row).to_cell(alloc)
}

// The cells of a row.
fn cells_at(alloc: Global, columns: &[ColumnData], row: u32) -> Result<Vec<Cell>, NoMemory>
    requires { All (λ column. row < column_length column) columns.now }
    ensures { IfOk result (λ cells. cells.items ≡ map (cell_in row) columns.now) }
{
    let mut cells = Vec::with_capacity(alloc, columns.len())?;
    for column in columns {
        cells.push(cell_at(alloc, column, row)?)?;
    }
    Ok(cells)
}
