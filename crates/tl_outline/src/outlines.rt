//! The outline of a database, and what a commit makes of it.
ghost use Rattle.std.specs.Prelude.{◌≡◌, ℕ, ◌+◌, ◌<◌, ◌++◌, ◌∷◌, [], IsTrue, OnOk, OnErr, Some, None, length, map, slice_get};
ghost use Rattle.std.specs.List.{list_any};
ghost use Rattle.tl_types.specs.Plain as plain;
ghost use Rattle.tl_types.specs.declared.commits.Body.TheVariants as body;
ghost use Rattle.tl_types.specs.History.{after_commit, at_place, fits, fits_body, fits_floor, fits_table, has_name, is_later, nothing};
ghost use Rattle.tl_types.specs.Limits.{standard_limits};
ghost use Rattle.tl_outline.specs.Outlines.{outline_of, table_shown, database_shown, outline_after, outline_changed, outline_floored};

use crate::tables::OutlineTable;
use std::alloc::Global;
use std::marker::Model;
use tl_types::{Body, Change, Commit, Limits, NoMemory, Schema};

/// The outline of the database that commits make: the number of commits, of each table its schema,
/// its floor and of each row whether it is current, and the moment that was stated last.
#[derive(Drop)]
pub struct Outline {
    version: u32,
    tables: Vec<OutlineTable>,
    last: Option<i64>,
}

impl Model for Outline {
    ghost use Rattle.tl_outline.specs.Outlines as outline;

    ghost Value = { outline.Outline };

    ghost view = { λ o. record { version = o.version; tables = o.tables.items; last = o.last } };
}

impl Outline {
    /// The outline of the database without commits. It takes no memory.
    pub fn empty(alloc: Global) -> Outline
        ensures { result ≡ outline_of nothing }
    {
        Outline {
            version: 0,
            tables: Vec::new(alloc),
            last: None,
        }
    }

    /// Whether a commit fits the databases that have this outline: fewer commits than the limits
    /// allow are there; a new table has a new name, and there is room for it; a change names a
    /// table, closes open rows only, opens rows that match the schema, and leaves few enough rows;
    /// a moment is greater than the last one; a floor is of a table, greater than the one that
    /// stands, and at most the number of commits.
    pub fn fits(&self, commit: &Commit, limits: &Limits) -> bool
        ensures { (db : plain.Database) → self.now ≡ outline_of db
            → result ≡ fits limits.now db commit.now }
    {
        self.fits_shown(commit, limits)
    }

    // Whether a commit fits the database that the outline shows.
    fn fits_shown(&self, commit: &Commit, limits: &Limits) -> bool
        ensures { result ≡ fits limits.now (database_shown self.now) commit.now }
    {
        (self.version as u64) < limits.versions
            && fits_body(
                self.version,
                self.tables.as_slice(),
                self.last,
                &commit.body,
                limits,
            )
    }

    /// Goes on by a commit that fits a database of this outline: it is then the outline of each
    /// such database after the commit. Of the commit it copies the schema of a new table alone. The
    /// error is `NoMemory`, and leaves the outline as it was.
    pub fn apply(&mut self, commit: &Commit) -> Result<(), NoMemory>
        requires { (db : plain.Database) × (self.old ≡ outline_of db)
            × IsTrue (fits standard_limits db commit.now) }
        ensures ok { OnOk result ((db : plain.Database) → self.old ≡ outline_of db
            → self.new ≡ outline_of (after_commit db commit.now)) }
        ensures err { OnErr result (self.new ≡ self.old) }
    {
        match &commit.body {
            Body::Create(schema) => {
                self.create(schema)?;
                Ok(())
            }
            Body::Change(change) => {
                self.change(change)?;
                Ok(())
            }
            Body::Moment { moment } => {
                self.state(*moment);
                Ok(())
            }
            Body::Forget { table, floor } => {
                self.forget(*table, *floor);
                Ok(())
            }
        }
    }

    // A version more, which makes a table.
    fn create(&mut self, schema: &Schema) -> Result<(), NoMemory>
        requires { self.old.version < 16777215 }
        ensures ok { OnOk result (self.new ≡ outline_after (body.Create schema.now) self.old) }
        ensures err { OnErr result (self.new ≡ self.old) }
    {
        let table = OutlineTable::new(*self.tables.allocator(), schema)?;
        self.tables.push(table)?;
        self.version += 1;
        Ok(())
    }

    // A version more, which changes a table.
    fn change(&mut self, change: &Change) -> Result<(), NoMemory>
        requires version { self.old.version < 16777215 }
        requires fits { IsTrue (fits_table standard_limits change.now
            (slice_get (map table_shown self.old.tables) change.now.table)) }
        ensures ok { OnOk result (self.new ≡ outline_after (body.Change change.now) self.old) }
        ensures err { OnErr result (self.new ≡ self.old) }
    {
        change_table(&mut self.tables, change)?;
        self.version += 1;
        Ok(())
    }

    // A version more, which states a moment.
    fn state(&mut self, moment: i64)
        requires { self.old.version < 16777215 }
        ensures { self.new ≡ outline_after (body.Moment moment) self.old }
    {
        self.last = Some(moment);
        self.version += 1;
    }

    // A version more, which sets the floor of a table.
    fn forget(&mut self, table: u16, floor: u32)
        requires version { self.old.version < 16777215 }
        requires table { table < length self.old.tables }
        ensures { self.new ≡ outline_after (body.Forget table floor) self.old }
    {
        floor_table(&mut self.tables, table, floor);
        self.version += 1;
    }
}

// Changes the table that a change names. The error is `NoMemory`, and leaves all tables as they
// were.
fn change_table(tables: &mut Vec<OutlineTable>, change: &Change) -> Result<(), NoMemory>
    requires { IsTrue (fits_table standard_limits change.now
        (slice_get (map table_shown tables.old.items) change.now.table)) }
    ensures ok { OnOk result (tables.new.items
        ≡ at_place change.now.table (outline_changed change.now) tables.old.items) }
    ensures err { OnErr result (tables.new.items ≡ tables.old.items) }
{
    let table = &mut tables[change.table() as usize];
    table.change(change)?;
    Ok(())
}

// Sets the floor of a table.
fn floor_table(tables: &mut Vec<OutlineTable>, table: u16, floor: u32)
    requires { table < length tables.old.items }
    ensures { tables.new.items ≡ at_place table (outline_floored floor) tables.old.items }
{
    let table = &mut tables[table as usize];
    table.set_floor(floor);
}

// Whether one of the tables has the name.
fn is_named(tables: &[OutlineTable], name: &str) -> bool
    ensures { result ≡ list_any (λ table. has_name name.now (table_shown table)) tables.now }
{
    tables.iter().any(|table| table.has_name(name))
}

// Whether there is room for one table more, and its name is new.
fn fits_create(tables: &[OutlineTable], schema: &Schema, limits: &Limits) -> bool
    ensures { result ≡ fits_body limits.now
        (database_shown (record { version = 0; tables = tables.now; last = None }))
        (body.Create schema.now) }
{
    let named = is_named(tables, schema.name().as_str());
    let room = (tables.len() as u64) < limits.tables;
    !named && room
}

// Whether a change names one of the tables, and fits it.
fn fits_change(tables: &[OutlineTable], change: &Change, limits: &Limits) -> bool
    ensures { result ≡ fits_body limits.now
        (database_shown (record { version = 0; tables = tables.now; last = None }))
        (body.Change change.now) }
{
    match tables.get(change.table() as usize) {
        Some(table) => table.fits(change, limits),
        None => false,
    }
}

// Whether a floor is of one of the tables, and fits it at this number of commits.
fn fits_floor(now: u32, tables: &[OutlineTable], table: u16, floor: u32) -> bool
    ensures { result ≡ fits_floor now floor (slice_get (map table_shown tables.now) table) }
{
    match tables.get(table as usize) {
        Some(table) => table.fits_floor(now, floor),
        None => false,
    }
}

// Whether a moment is greater than the last one, where there is one.
fn is_later(moment: i64, last: Option<i64>) -> bool
    ensures { result ≡ is_later moment last }
{
    match last {
        Some(last) => last < moment,
        None => true,
    }
}

// Whether what a commit does fits the tables and the last moment, at this number of commits.
fn fits_body(
    now: u32,
    tables: &[OutlineTable],
    last: Option<i64>,
    body: &Body,
    limits: &Limits,
) -> bool
    ensures { result ≡ fits_body limits.now
        (database_shown (record { version = now; tables = tables.now; last = last })) body.now }
{
    match body {
        Body::Create(schema) => fits_create(tables, schema, limits),
        Body::Change(change) => fits_change(tables, change, limits),
        Body::Moment { moment } => is_later(*moment, last),
        Body::Forget { table, floor } => fits_floor(now, tables, *table, *floor),
    }
}
