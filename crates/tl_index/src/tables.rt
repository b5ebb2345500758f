//! A table of a store with its timeline: what a scan reads of the rows, the events and the versions
//! of one table. It keeps that all three are of the same table of the same store, and each look at
//! a row, an event or a version takes a step.
ghost use Rattle.std.specs.Prelude.{◌≡◌, ◌+◌, ◌<◌, ◌≤◌, true, IsTrue, length, take, drop, map, Some, IfSome, IfNone, option_map, slice_get};
ghost use Rattle.tl_types.specs.Events.{events_of, place_of};
ghost use Rattle.tl_types.specs.History.{database_of};
ghost use Rattle.tl_types.specs.WellFormed.{AreWellFormed};
ghost use Rattle.tl_events.specs.Timeline.{IsSplit};
ghost use Rattle.tl_store.specs.Reading.{columns_of, column_cells, cell_of, cell_shown, some_int, has_periods, system_period, IsIntColumn, IsShort};
ghost use Rattle.tl_index.specs.Tables.{rows_in, ends_in, HasTimeline, search_steps};

use std::marker::Model;
use std::sync::ledger::Ledger;
use tl_events::{EventList, PackedEvent, VersionEnd, VersionMap};
use tl_store::{CellRef, IntsRef, Store, SystemPeriod};
use tl_types::{Column, ColumnKind, Period, Steps};

/// A table of a store with its timeline: its events, and where those of its versions end. A
/// contract sees the tables of the store, and the number of this one.
#[derive(Drop)]
pub struct TimedTable<'a> {
    store: &'a Store,
    number: u16,
    events: &'a EventList,
    ends: &'a VersionMap,
}

impl<'a> Model for TimedTable<'a> {
    ghost use Rattle.tl_types.specs.History.{database_of};
    ghost use Rattle.tl_index.specs.Tables.{TableOf, HasTimeline};

    ghost Value = { TableOf };

    ghost view = { λ t. record { db = database_of t.store.now; number = t.number } };

    ghost invariant = { λ t. HasTimeline
        (record { db = database_of t.store.now; number = t.number }) t.events.now t.ends.now };
}

// Whether the column at a place is one of numbers.
fn is_int(columns: &[Column], place: u8) -> bool
    ensures { result ≡ true → IsIntColumn columns.now place }
{
    match columns.get(place as usize) {
        Some(column) => match column.kind {
            ColumnKind::IntKind => true,
            ColumnKind::TextKind => false,
        },
        None => false,
    }
}

impl<'a> TimedTable<'a> {
    /// The table of a store with a number, from 0, with its events and the ends of its versions.
    /// `Snapshot::timed` makes it of what a snapshot keeps.
    pub fn new(
        store: &'a Store,
        number: u16,
        events: &'a EventList,
        ends: &'a VersionMap,
    ) -> TimedTable<'a>
        requires { HasTimeline (record { db = database_of store.now; number = number })
            events.now ends.now }
        ensures { result ≡ record { db = database_of store.now; number = number } }
    {
        TimedTable {
            store,
            number,
            events,
            ends,
        }
    }

    /// The versions at which a row stands. It takes one step.
    pub fn period_at<L: Ledger>(&self, row: u32, steps: &mut Steps<L>) -> SystemPeriod
        requires { row < length (rows_in self.now) }
        ensures value { Some result
            ≡ option_map system_period (slice_get (rows_in self.now) row) }
        ensures steps { steps.new ≡ steps.old + 1 }
    {
        self.store.period_at(self.number, row, steps)
    }

    /// The valid period of a row of a table with valid time. It takes one step.
    pub fn valid_at<L: Ledger>(&self, row: u32, steps: &mut Steps<L>) -> Period
        requires row { row < length (rows_in self.now) }
        requires valid { IsTrue (has_periods self.now.db self.now.number) }
        ensures value { Some (Some result)
            ≡ option_map (λ r. r.period) (slice_get (rows_in self.now) row) }
        ensures steps { steps.new ≡ steps.old + 1 }
    {
        self.store.valid_at(self.number, row, steps)
    }

    /// The cell of a row in the column at a place, from 0. It takes one step.
    pub fn cell<L: Ledger>(&self, row: u32, column: u8, steps: &mut Steps<L>) -> CellRef<'a>
        requires row { row < length (rows_in self.now) }
        requires column { column < length (columns_of self.now.db self.now.number) }
        ensures value { Some (cell_shown result) ≡ cell_of self.now.db self.now.number row column }
        ensures short { IsShort result }
        ensures steps { steps.new ≡ steps.old + 1 }
    {
        self.store.cell(self.number, row, column, steps)
    }

    /// Whether there is a column at a place, from 0, and its cells are numbers.
    pub fn is_int(&self, column: u8) -> bool
        ensures { result ≡ true → IsIntColumn (columns_of self.now.db self.now.number) column }
    {
        is_int(self.store.schema(self.number).columns(), column)
    }

    /// The cells of all rows in a column of numbers. Each that is read of it takes a step.
    pub fn int_column(&self, column: u8) -> IntsRef<'a>
        requires { IsIntColumn (columns_of self.now.db self.now.number) column }
        ensures { map some_int result ≡ column_cells (rows_in self.now) column }
    {
        self.store.int_column(self.number, column)
    }

    /// The number of versions.
    pub fn version(&self) -> u32
        ensures { result ≡ self.now.db.version }
    {
        self.store.versions()
    }

    /// The number of rows, ended ones included, of a table that is there. They are as a history
    /// leaves them.
    pub fn rows(&self) -> u32
        ensures number { result ≡ length (rows_in self.now) }
        ensures few { result ≤ 16777216 }
        ensures there { self.now.number < length self.now.db.tables }
        ensures formed { AreWellFormed self.now.db.version (rows_in self.now) }
    {
        self.store.rows(self.number)
    }

    /// The events, of rows as a history leaves them.
    pub fn events(&self) -> &'a EventList
        ensures events { result.now ≡ events_of (rows_in self.now) self.now.db.version }
        ensures formed { AreWellFormed self.now.db.version (rows_in self.now) }
    {
        self.events
    }

    /// Some of the events from place `from` on and before place `to`, at least one. It takes a step
    /// for each.
    pub fn run<L: Ledger>(&self, from: u32, to: u32, steps: &mut Steps<L>) -> &'a [PackedEvent]
        requires some { from < to }
        requires within { to ≤ place_of (rows_in self.now) self.now.db.version }
        ensures run { result.now ≡ take (length result.now)
            (drop from (events_of (rows_in self.now) self.now.db.version)) }
        ensures some { 0 < length result.now }
        ensures within { from + length result.now ≤ to }
        ensures steps { steps.new ≡ steps.old + length result.now }
    {
        self.events.run(from, to, steps)
    }

    /// How many events there are up to a version that is there. It takes the steps of the search
    /// for the version.
    pub fn place<L: Ledger>(&self, version: u32, steps: &mut Steps<L>) -> u32
        requires { version ≤ self.now.db.version }
        ensures place { result ≡ place_of (rows_in self.now) version }
        ensures steps { steps.new ≤ steps.old + search_steps self.now }
    {
        self.ends.end_of(version, steps)
    }

    /// How many of the versions that have events are not after one. It takes the steps of the
    /// search for the version.
    pub fn entries_to<L: Ledger>(&self, version: u32, steps: &mut Steps<L>) -> u64
        ensures split { IsSplit (ends_in self.now) version result }
        ensures steps { steps.new ≤ steps.old + search_steps self.now }
    {
        self.ends.entries_to(version, steps)
    }

    /// A version that has events, by its place among these, from 0, and where its events end.
    /// `None` exactly where there are no more. It takes at most one step.
    pub fn entry<L: Ledger>(&self, i: u64, steps: &mut Steps<L>) -> Option<VersionEnd>
        ensures some { IfSome result (λ entry. slice_get (ends_in self.now) i ≡ Some entry) }
        ensures room { IfSome result (λ entry. i < 18446744073709551615) }
        ensures none { IfNone result (length (ends_in self.now) ≤ i) }
        ensures steps { steps.new ≤ steps.old + 1 }
    {
        if i >= self.ends.len() {
            return None;
        }
        Some(self.ends.entry_at(i, steps))
    }
}
