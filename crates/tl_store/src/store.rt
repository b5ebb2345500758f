//! The store: its commits by their log, its tables by columns. It refuses no commit that fits, but
//! for want of memory; whether one fits is asked first, by `fits`.
ghost use Rattle.std.specs.Prelude.{◌≡◌, ℕ, ◌+◌, ◌-◌, ◌*◌, ◌/◌, ◌%◌, ◌<◌, ◌≤◌, ◌++◌, ◌∷◌, [], IsTrue, IfOk, IfSome, Some, length, map, take, drop, option_map, slice_get};
ghost use Rattle.std.specs.List.{list_any, position_from};
ghost use Rattle.tl_types.specs.declared.commits.Body.TheVariants as body;
ghost use Rattle.tl_types.specs.History.{database_of, database_at, fits, fits_body, fits_floor, floor_of, has_name, is_within, last_moment, rows_of, version_at_moment};
ghost use Rattle.tl_types.specs.Resolving.{find_table};
ghost use Rattle.tl_types.specs.Limits.{standard_limits};
ghost use Rattle.tl_types.specs.Facts.{IsChange};
ghost use Rattle.tl_types.specs.WellFormed.{HasTimes};
ghost use Rattle.tl_types.specs.Plain as plain;
ghost use Rattle.tl_lanes.specs.Masks.{is_bit, IsWordOf};
ghost use Rattle.tl_store.specs.Kept.{table_of};
ghost use Rattle.tl_store.specs.Log.{body_of, database_with, deed_of, kept_at, IsDeed};
ghost use Rattle.tl_store.specs.Reading.{columns_of, has_periods, row_of, cell_of, cell_shown, IsShort, system_period, rows_changed, column_cells, rows_passing, IsIntColumn, some_int};

use crate::log::{Deed, LogEntry};
use crate::ready::ReadyTest;
use crate::shown::{CellRef, IntsRef, SystemPeriod};
use crate::stamps::Stamps;
use crate::table::TableData;
use std::alloc::Global;
use std::marker::Model;
use std::sync::ledger::Ledger;
use tl_query::TypedTest;
use tl_shared::{CHUNK, FineList, Shareable, Shared, share_all};
use tl_types::{Body, Cell, Change, Commit, Limits, NoMemory, Period, Schema, Seq, Steps};

/// The commits that were applied, in order, and the tables that they make. Contracts see the list
/// of commits; its tables are `database_of` of that list. No call changes a store: a further
/// commit gives a further one.
#[derive(Drop)]
pub struct Store {
    tables: Vec<Shared<TableData>>,
    log: FineList<LogEntry>,
    stamps: Stamps,
}

impl Model for Store {
    ghost use Rattle.std.specs.Prelude.{List};
    ghost use Rattle.tl_types.specs.declared.commits.Commit.{Commit};

    ghost Value = { List Commit };

    ghost use Rattle.tl_store.specs.Log.{history_of, IsHistory};

    ghost view = { λ s. history_of s.tables.items s.log };

    ghost invariant = { λ s. IsHistory s.tables.items s.log s.stamps };
}

impl Store {
    /// No commit and no table. It takes no memory.
    pub fn empty(alloc: Global) -> Store
        ensures { result ≡ [] }
    {
        Store {
            tables: Vec::new(alloc),
            log: FineList::none(alloc),
            stamps: Stamps::none(alloc),
        }
    }

    /// The number of commits so far: each stamp and each floor is of a version up to it.
    pub fn versions(&self) -> u32
        ensures number { result ≡ length self.now }
        ensures version { result ≡ (database_of self.now).version }
        ensures times { HasTimes (database_of self.now) }
        ensures few { result ≤ 16777215 }
    {
        self.log.len() as u32
    }

    /// The number of tables.
    pub fn tables(&self) -> u16
        ensures number { result ≡ length (database_of self.now).tables }
        ensures few { result ≤ 64 }
    {
        self.tables.len() as u16
    }

    /// The number of the table with a name, from 0. `None` exactly where no table has the name.
    pub fn find(&self, name: &str) -> Option<u16>
        ensures { result
            ≡ option_map (λ found. found.0) (find_table name.now (database_of self.now).tables) }
    {
        match place_of(self.tables.as_slice(), name) {
            Some(number) => Some(number as u16),
            None => None,
        }
    }

    /// The schema of the table with a number.
    pub fn schema(&self, table: u16) -> &Schema
        requires { table < length (database_of self.now).tables }
        ensures value { Some result.now
            ≡ option_map (λ t. t.schema) (slice_get (database_of self.now).tables table) }
        ensures columns { result.now.columns ≡ columns_of (database_of self.now) table }
        ensures valid { result.now.valid ≡ has_periods (database_of self.now) table }
    {
        self.tables[table as usize].get().schema()
    }

    /// The floor of the table with a number: the least version that may be asked of it.
    pub fn floor(&self, table: u16) -> u32
        requires { table < length (database_of self.now).tables }
        ensures { result ≡ floor_of (slice_get (database_of self.now).tables table) }
    {
        self.tables[table as usize].get().floor()
    }

    /// The last moment that was stated, in the user's unit. `None` exactly where none was.
    pub fn last_moment(&self) -> Option<i64>
        ensures { result ≡ last_moment (database_of self.now).stamps }
    {
        self.stamps.last_moment()
    }

    /// The version at a moment of the user's: one less than the least version that states a greater
    /// one, or the last version where none does.
    pub fn version_at(&self, moment: i64) -> u32
        ensures value { result
            ≡ version_at_moment (database_of self.now).version (database_of self.now).stamps
            moment }
        ensures reached { result ≤ length self.now }
    {
        self.stamps.version_at(self.versions(), moment)
    }

    /// The number of rows of the table with a number, ended ones included. Their ids are the
    /// numbers below it.
    pub fn rows(&self, table: u16) -> u32
        requires { table < length (database_of self.now).tables }
        ensures number { result ≡ length (rows_of (database_of self.now) table) }
        ensures few { result ≤ 16777216 }
    {
        self.tables[table as usize].get().rows()
    }

    /// Whether a commit fits: fewer commits than the limits allow are there; a new table has a
    /// new name, and there is room for it; a change names a table, closes open rows only, opens
    /// rows that match the schema, and leaves few enough rows; a moment is greater than the last
    /// one; a floor is of a table, greater than the one that stands, and at most the number of
    /// commits.
    pub fn fits(&self, commit: &Commit, limits: &Limits) -> bool
        ensures { result ≡ fits limits.now (database_of self.now) commit.now }
    {
        (self.versions() as u64) < limits.versions
            && fits_body(
                self.versions(),
                self.tables.as_slice(),
                &self.stamps,
                &commit.body,
                limits,
            )
    }

    /// The store after a commit that fits. It shares with this one what the commit leaves as it
    /// was, and this one stays as it was. The error is `NoMemory`.
    pub fn apply(&self, alloc: Global, commit: &Commit) -> Result<Store, NoMemory>
        requires { IsTrue (fits standard_limits (database_of self.now) commit.now) }
        ensures { IfOk result (λ store. store ≡ self.now ++ commit.now ∷ []) }
    {
        self.share(alloc)?.follow(alloc, commit)
    }

    /// The store after a commit that fits, which takes this one over: what of it has no other owner
    /// is not copied. The error is `NoMemory`.
    pub fn follow(self, alloc: Global, commit: &Commit) -> Result<Store, NoMemory>
        requires { IsTrue (fits standard_limits (database_of self) commit.now) }
        ensures { IfOk result (λ store. store ≡ self ++ commit.now ∷ []) }
    {
        match &commit.body {
            Body::Create(schema) => self.with_table(alloc, commit.author, schema),
            Body::Change(change) => self.with_change(alloc, commit.author, change),
            Body::Moment { moment } => self.with_moment(alloc, commit.author, *moment),
            Body::Forget { table, floor } => self.with_floor(alloc, commit.author, *table, *floor),
        }
    }

    // The store after the commit of an author that makes a table.
    fn with_table(self, alloc: Global, author: u32, schema: &Schema) -> Result<Store, NoMemory>
        requires { IsTrue (fits standard_limits (database_of self)
            (record { author = author; body = body.Create schema.now })) }
        ensures { IfOk result (λ store. store
            ≡ self ++ record { author = author; body = body.Create schema.now } ∷ []) }
    {
        let Store {
            mut tables,
            log,
            stamps,
        } = self;
        let entry = LogEntry {
            author,
            table: tables.len() as u16,
            deed: Deed::Create,
        };
        tables.push(Shared::new(alloc, TableData::new(alloc, schema)?)?)?;
        let log = log.append(alloc, [entry].as_slice())?;
        Ok(Store {
            tables,
            log,
            stamps,
        })
    }

    // The store after the commit of an author that changes a table.
    fn with_change(self, alloc: Global, author: u32, change: &Change) -> Result<Store, NoMemory>
        requires { IsTrue (fits standard_limits (database_of self)
            (record { author = author; body = body.Change change.now })) }
        ensures { IfOk result (λ store. store
            ≡ self ++ record { author = author; body = body.Change change.now } ∷ []) }
    {
        let version = self.versions() + 1;
        let number = change.table() as usize;
        let Store {
            mut tables,
            log,
            stamps,
        } = self;
        let before = tables.remove(number).take(alloc)?;
        let entry = LogEntry {
            author,
            table: change.table(),
            deed: deed_of(&before, change),
        };
        let after = before.change(alloc, version, change)?;
        tables.insert(number, Shared::new(alloc, after)?)?;
        let log = log.append(alloc, [entry].as_slice())?;
        Ok(Store {
            tables,
            log,
            stamps,
        })
    }

    // The store after the commit of an author that states a moment.
    fn with_moment(self, alloc: Global, author: u32, moment: i64) -> Result<Store, NoMemory>
        requires { IsTrue (fits standard_limits (database_of self)
            (record { author = author; body = body.Moment moment })) }
        ensures { IfOk result (λ store. store
            ≡ self ++ record { author = author; body = body.Moment moment } ∷ []) }
    {
        let next = self.versions() + 1;
        let Store {
            tables,
            log,
            stamps,
        } = self;
        let entry = LogEntry {
            author,
            table: 0,
            deed: Deed::Moment { moment },
        };
        let stamps = stamps.append(alloc, next, moment)?;
        let log = log.append(alloc, [entry].as_slice())?;
        Ok(Store {
            tables,
            log,
            stamps,
        })
    }

    // The store after the commit of an author that sets the floor of a table.
    fn with_floor(
        self,
        alloc: Global,
        author: u32,
        table: u16,
        floor: u32,
    ) -> Result<Store, NoMemory>
        requires { IsTrue (fits standard_limits (database_of self)
            (record { author = author; body = body.Forget table floor })) }
        ensures { IfOk result (λ store. store
            ≡ self ++ record { author = author; body = body.Forget table floor } ∷ []) }
    {
        let number = table as usize;
        let Store {
            mut tables,
            log,
            stamps,
        } = self;
        let before = tables.remove(number).take(alloc)?;
        let entry = LogEntry {
            author,
            table,
            deed: Deed::Forget { floor },
        };
        let after = before.with_floor(floor);
        tables.insert(number, Shared::new(alloc, after)?)?;
        let log = log.append(alloc, [entry].as_slice())?;
        Ok(Store {
            tables,
            log,
            stamps,
        })
    }

    /// The versions at which a row of a table stands. It ticks once.
    pub fn period_at<L: Ledger>(&self, table: u16, row: u32, steps: &mut Steps<L>) -> SystemPeriod
        requires { row < length (rows_of (database_of self.now) table) }
        ensures value { Some result
            ≡ option_map system_period (row_of (database_of self.now) table row) }
        ensures ticks { steps.new ≡ steps.old + 1 }
    {
        steps.tick();
        self.tables[table as usize].get().period_at(row)
    }

    /// The cell of a row of a table in the column at a place, from 0. It ticks once.
    pub fn cell<L: Ledger>(
        &self,
        table: u16,
        row: u32,
        column: u8,
        steps: &mut Steps<L>,
    ) -> CellRef<'_>
        requires row { row < length (rows_of (database_of self.now) table) }
        requires column { column < length (columns_of (database_of self.now) table) }
        ensures value { Some (cell_shown result) ≡ cell_of (database_of self.now) table row column }
        ensures short { IsShort result }
        ensures ticks { steps.new ≡ steps.old + 1 }
    {
        steps.tick();
        self.tables[table as usize].get().cell(row, column)
    }

    /// A test of a column of a table, made ready for `ReadyTest::mask_word`: its text is looked up
    /// here, and not for each word.
    pub fn ready_test(&self, table: u16, test: &TypedTest) -> ReadyTest<'_>
        requires { test.now.column < length (columns_of (database_of self.now) table) }
        ensures { result
            ≡ rows_passing (rows_of (database_of self.now) table) test.now.column test.now }
    {
        self.tables[table as usize]
            .get()
            .ready_test(test.column, test)
    }

    /// Word `i` of the mask of the rows of a table that have in the column at a place, from 0, what
    /// passes the test: bit j tells of the row with id 64 i + j. Bits past the rows are 0. It ticks
    /// once.
    pub fn mask_word<L: Ledger>(
        &self,
        table: u16,
        column: u8,
        i: u32,
        test: &TypedTest,
        steps: &mut Steps<L>,
    ) -> u64
        requires { column < length (columns_of (database_of self.now) table) }
        ensures bits { IsWordOf
            (rows_passing (rows_of (database_of self.now) table) column test.now) i result }
        ensures ticks { steps.new ≡ steps.old + 1 }
    {
        self.tables[table as usize]
            .get()
            .ready_test(column, test)
            .mask_word(i, steps)
    }

    /// The column of a table at a place, from 0, whose cells are numbers. Each that is read of it
    /// ticks.
    pub fn int_column(&self, table: u16, column: u8) -> IntsRef<'_>
        requires { IsIntColumn (columns_of (database_of self.now) table) column }
        ensures { map some_int result ≡ column_cells (rows_of (database_of self.now) table) column }
    {
        IntsRef::new(self.tables[table as usize].get().ints(column))
    }

    /// The numbers of the column of a table at a place, from 0, from a row on, as far as they stand
    /// in one piece: at least one, and up to the next row whose id 1,024 divides. A scan asks for
    /// those behind them next. It ticks once.
    pub fn ints_from<L: Ledger>(
        &self,
        table: u16,
        row: u32,
        column: u8,
        steps: &mut Steps<L>,
    ) -> &[i64]
        requires row { row < length (rows_of (database_of self.now) table) }
        requires kind { IsIntColumn (columns_of (database_of self.now) table) column }
        ensures cells { map some_int result.now ≡ take (CHUNK - row % CHUNK)
            (drop row (column_cells (rows_of (database_of self.now) table) column)) }
        ensures some { 0 < length result.now }
        ensures ticks { steps.new ≡ steps.old + 1 }
    {
        steps.tick();
        self.tables[table as usize].get().ints_from(row, column)
    }

    /// The cells of a row of a table, each as a value of its own. It ticks once for each column.
    /// The error is `NoMemory`.
    pub fn row_cells<L: Ledger>(
        &self,
        alloc: Global,
        table: u16,
        row: u32,
        steps: &mut Steps<L>,
    ) -> Result<Seq<Cell>, NoMemory>
        requires { row < length (rows_of (database_of self.now) table) }
        ensures value { IfOk result
            (λ cells. Some cells
            ≡ option_map (λ r. r.cells) (row_of (database_of self.now) table row)) }
        ensures each { IfOk result
            (λ cells. (column : ℕ)
            → slice_get cells column ≡ cell_of (database_of self.now) table row column) }
        ensures ticks { steps.new ≡ steps.old + length (columns_of (database_of self.now) table) }
    {
        let columns = self.schema(table).columns().len();
        steps.tick_many(columns as u64);
        let cells = self.tables[table as usize].get().row_cells(alloc, row)?;
        Ok(Seq::from_vec(cells))
    }

    /// The valid period of a row of a table whose rows have one. It ticks once.
    pub fn valid_at<L: Ledger>(&self, table: u16, row: u32, steps: &mut Steps<L>) -> Period
        requires row { row < length (rows_of (database_of self.now) table) }
        requires valid { IsTrue (has_periods (database_of self.now) table) }
        ensures value { Some (Some result)
            ≡ option_map (λ r. r.period) (row_of (database_of self.now) table row) }
        ensures ticks { steps.new ≡ steps.old + 1 }
    {
        steps.tick();
        self.tables[table as usize].get().valid_at(row)
    }

    /// The word, of the mask of the rows of a table whose valid period holds a moment, in which a
    /// row stands: bit j tells of the row with id 64 (row / 64) + j. It ticks once.
    pub fn valid_word<L: Ledger>(
        &self,
        table: u16,
        row: u32,
        moment: i64,
        steps: &mut Steps<L>,
    ) -> u64
        requires { row < length (rows_of (database_of self.now) table) }
        ensures bits { (k : ℕ) (r : plain.Row) → k < 64
            → row_of (database_of self.now) table (64 * (row / 64) + k) ≡ Some r
            → is_bit result k ≡ is_within moment r.period }
        ensures ticks { steps.new ≡ steps.old + 1 }
    {
        steps.tick();
        self.tables[table as usize]
            .get()
            .valid_word(row / 64, moment)
    }

    /// The commit that made a version, from 1. The error is `NoMemory`. Where there is none, it
    /// has ticked once for each row that the commit closes or opens, and once more.
    pub fn commit_at<L: Ledger>(
        &self,
        alloc: Global,
        version: u32,
        steps: &mut Steps<L>,
    ) -> Result<Commit, NoMemory>
        requires some { 1 ≤ version }
        requires there { version ≤ length self.now }
        ensures value { IfOk result (λ commit. Some commit ≡ slice_get self.now (version - 1)) }
        ensures fitting { IfOk result
            (λ commit. IsTrue (fits standard_limits (database_at self.now (version - 1)) commit)) }
        ensures ticks { IfOk result
            (λ commit. steps.new ≡ steps.old + rows_changed commit.body + 1) }
    {
        steps.tick();
        let entry = *self.log.at((version - 1) as u64);
        Ok(Commit {
            author: entry.author,
            body: body_at(alloc, self.tables.as_slice(), entry, steps)?,
        })
    }
}

impl Shareable for Store {
    fn share(&self, alloc: Global) -> Result<Store, NoMemory> {
        Ok(Store {
            tables: share_all(alloc, self.tables.as_slice())?,
            log: self.log.share(alloc)?,
            stamps: self.stamps.share(alloc)?,
        })
    }
}

// What the commit of an entry did. It ticks once for each row that the commit closes or opens.
fn body_at<L: Ledger>(
    alloc: Global,
    tables: &[Shared<TableData>],
    entry: LogEntry,
    steps: &mut Steps<L>,
) -> Result<Body, NoMemory>
    requires { IsDeed tables.now entry.table entry.deed }
    ensures value { IfOk result
        (λ body. body ≡ body_of entry.table entry.deed (kept_at tables.now entry.table)) }
    ensures ticks { IfOk result (λ body. steps.new ≡ steps.old + rows_changed body) }
{
    match entry.deed {
        Deed::Create => {
            let schema = tables[entry.table as usize].get().schema().clone()?;
            Ok(Body::Create(schema))
        }
        Deed::Change {
            first_close,
            closes,
            first_open,
            opens,
        } => {
            let table = tables[entry.table as usize].get();
            let change = table.change_of(
                alloc,
                entry.table,
                first_close,
                closes,
                first_open,
                opens,
                steps,
            )?;
            Ok(Body::Change(change))
        }
        Deed::Moment { moment } => Ok(Body::Moment { moment }),
        Deed::Forget { floor } => Ok(Body::Forget {
            table: entry.table,
            floor,
        }),
    }
}

// What a change does to a table, and where what it closes and opens will stand in what is kept of
// the table.
fn deed_of(table: &TableData, change: &Change) -> Deed
    ensures deed { result ≡ deed_of table.now change.now }
    ensures kept { IsChange change.now }
{
    Deed::Change {
        first_close: table.closed(),
        closes: change.closes().len() as u32,
        first_open: table.rows(),
        opens: change.opens().len() as u32,
    }
}

fn place_of(tables: &[Shared<TableData>], name: &str) -> Option<usize>
    ensures first { result
        ≡ position_from (λ kept. has_name name.now (table_of kept)) 0 tables.now }
    ensures within { IfSome result (λ number. number < length tables.now) }
{
    tables.iter().position(|table| table.get().has_name(name))
}

fn is_named(tables: &[Shared<TableData>], name: &str) -> bool
    ensures { result ≡ list_any (λ kept. has_name name.now (table_of kept)) tables.now }
{
    tables.iter().any(|table| table.get().has_name(name))
}

fn fits_create(tables: &[Shared<TableData>], schema: &Schema, limits: &Limits) -> bool
    ensures { result
        ≡ fits_body limits.now (database_with 0 tables.now []) (body.Create schema.now) }
{
    let named = is_named(tables, schema.name().as_str());
    let room = (tables.len() as u64) < limits.tables;
    !named && room
}

fn fits_change(tables: &[Shared<TableData>], change: &Change, limits: &Limits) -> bool
    ensures { result
        ≡ fits_body limits.now (database_with 0 tables.now []) (body.Change change.now) }
{
    match tables.get(change.table() as usize) {
        Some(table) => table.get().fits(change, limits),
        None => false,
    }
}

fn fits_floor(now: u32, tables: &[Shared<TableData>], table: u16, floor: u32) -> bool
    ensures { result ≡ fits_floor now floor (slice_get (map table_of tables.now) table) }
{
    match tables.get(table as usize) {
        Some(table) => table.get().fits_floor(now, floor),
        None => false,
    }
}

fn fits_body(
    now: u32,
    tables: &[Shared<TableData>],
    stamps: &Stamps,
    body: &Body,
    limits: &Limits,
) -> bool
    ensures { result ≡ fits_body limits.now (database_with now tables.now stamps.now) body.now }
{
    match body {
        Body::Create(schema) => fits_create(tables, schema, limits),
        Body::Change(change) => fits_change(tables, change, limits),
        Body::Moment { moment } => stamps.fits(*moment),
        Body::Forget { table, floor } => fits_floor(now, tables, *table, *floor),
    }
}
