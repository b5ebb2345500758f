//! All tables after some commits, with the stamps of the moments that these state: whether a commit
//! fits, and what it makes of them.
ghost use Rattle.std.specs.Prelude.{◌≡◌, ◌+◌, ◌<◌, ◌≤◌, ◌^◌, ◌++◌, IsTrue, OnOk, OnErr, Some, length, slice_get};
ghost use Rattle.std.specs.List.{list_any};
ghost use Rattle.tl_types.specs.History.{fits, fits_body, fits_floor, after_commit, after_body, stamps_of, nothing, has_name, rows_of};
ghost use Rattle.tl_types.specs.Limits.{standard_limits};
ghost use Rattle.tl_types.specs.Plain as plain;

use crate::contents::Table;
use crate::rows::Row;
use crate::stamps::{self, Stamp};
use std::alloc::Global;
use std::marker::Model;
use tl_types::{Body, Commit, Limits, NoMemory};

/// The number of commits so far, the tables after them, of which there are at most 64, and the
/// stamps of the moments that they state.
#[derive(Drop)]
pub struct Tables {
    version: u32,
    tables: Vec<Table>,
    stamps: Vec<Stamp>,
}

impl Model for Tables {
    ghost use Rattle.std.specs.Prelude.{◌≤◌, length};
    ghost use Rattle.tl_types.specs.Plain as plain;

    ghost Value = { plain.Database };

    ghost view = { λ d. record {
      version = d.version;
      tables = d.tables.items;
      stamps = d.stamps.items;
    } };

    ghost invariant = { λ d. length d.tables.items ≤ 64 };
}

impl Tables {
    /// No table and no commit. It takes no memory.
    pub fn empty(alloc: Global) -> Tables
        ensures { result ≡ nothing }
    {
        Tables {
            version: 0,
            tables: Vec::new(alloc),
            stamps: Vec::new(alloc),
        }
    }

    /// The number of commits so far.
    pub fn version(&self) -> u32
        ensures { result ≡ self.now.version }
    {
        self.version
    }

    /// How many tables there are.
    pub fn tables(&self) -> u16
        ensures number { result ≡ length self.now.tables }
        ensures few { result ≤ 64 }
    {
        self.tables.len() as u16
    }

    /// The rows of the table with a number, in order of id, ended ones included; none where there
    /// is no such table. There are fewer than 2^32.
    pub fn rows(&self, table: u16) -> &[Row]
        ensures value { result.now ≡ rows_of self.now table }
        ensures few { length result.now < 2 ^ 32 }
    {
        match self.tables.get(table as usize) {
            Some(table) => table.rows(),
            None => &[],
        }
    }

    /// Whether a commit fits: fewer commits than the limits allow are there; a new table has a new
    /// name, and there is room for it; a change names a table, closes open rows only, opens rows
    /// that match the schema, and leaves few enough rows; a moment is greater than the last one; a
    /// floor is of a table, greater than the one that stands, and at most the number of commits.
    pub fn fits(&self, commit: &Commit, limits: &Limits) -> bool
        ensures { result ≡ fits limits.now self.now commit.now }
    {
        (self.version as u64) < limits.versions
            && fits_body(
                self.version,
                self.tables.as_slice(),
                self.stamps.as_slice(),
                &commit.body,
                limits,
            )
    }

    /// Applies a commit that fits. The error is out of memory, and leaves the tables as they were.
    pub fn apply(&mut self, alloc: Global, commit: &Commit) -> Result<(), NoMemory>
        requires { IsTrue (fits standard_limits self.old commit.now) }
        ensures ok { OnOk result (self.new ≡ after_commit self.old commit.now) }
        ensures err { OnErr result (self.new ≡ self.old) }
    {
        let version = self.version + 1;
        apply_body(
            alloc,
            self.version,
            &commit.body,
            &mut self.tables,
            &mut self.stamps,
        )?;
        self.version = version;
        Ok(())
    }
}

fn is_named(tables: &[Table], name: &str) -> bool
    ensures { result ≡ list_any (has_name name.now) tables.now }
{
    tables.iter().any(|table| table.has_name(name))
}

fn fits_floor(tables: &[Table], now: u32, table: u16, floor: u32) -> bool
    ensures { result ≡ fits_floor now floor (slice_get tables.now table) }
{
    match tables.get(table as usize) {
        Some(table) => table.fits_floor(now, floor),
        None => false,
    }
}

// What fits at so many commits.
fn fits_body(now: u32, tables: &[Table], stamps: &[Stamp], body: &Body, limits: &Limits) -> bool
    requires { length tables.now ≤ 64 }
    ensures { result ≡ fits_body limits.now
        (record { version = now; tables = tables.now; stamps = stamps.now }) body.now }
{
    match body {
        Body::Create(schema) => {
            !is_named(tables, schema.name().as_str()) && (tables.len() as u64) < limits.tables
        }
        Body::Change(change) => match tables.get(change.table() as usize) {
            Some(table) => table.fits(change, limits),
            None => false,
        },
        Body::Moment { moment } => stamps::is_later(stamps, *moment),
        Body::Forget { table, floor } => fits_floor(tables, now, *table, *floor),
    }
}

// Does what the commit after so many others does.
fn apply_body(
    alloc: Global,
    now: u32,
    body: &Body,
    tables: &mut Vec<Table>,
    stamps: &mut Vec<Stamp>,
) -> Result<(), NoMemory>
    requires room { now < 16777215 }
    requires fit { IsTrue (fits_body standard_limits
        (record { version = now; tables = tables.old.items; stamps = stamps.old.items })
        body.now) }
    ensures ok { OnOk result (tables.new.items ≡ after_body (now + 1) body.now tables.old.items) }
    ensures stamped { OnOk result
        (stamps.new.items ≡ stamps.old.items ++ stamps_of (now + 1) body.now) }
    ensures err { OnErr result (tables.new.items ≡ tables.old.items) }
    ensures unstamped { OnErr result (stamps.new.items ≡ stamps.old.items) }
    ensures few { length tables.old.items ≤ 64 → length tables.new.items ≤ 64 }
{
    match body {
        Body::Create(schema) => {
            tables.push(Table::new(alloc, schema.clone()?))?;
            Ok(())
        }
        Body::Change(change) => {
            let table = &mut tables[change.table() as usize];
            table.change(alloc, now + 1, change)?;
            Ok(())
        }
        Body::Moment { moment } => {
            stamps.push(Stamp::new(now + 1, *moment))?;
            Ok(())
        }
        Body::Forget {
            table: number,
            floor,
        } => {
            let table = &mut tables[*number as usize];
            table.set_floor(*floor);
            Ok(())
        }
    }
}
