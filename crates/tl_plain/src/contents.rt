//! One table: its schema, its floor and its rows, and what a change or a floor makes of it. A
//! change that closes a row which has ended does not fit, nor does a floor that is not greater than
//! before.
ghost use Rattle.std.specs.Prelude.{◌≡◌, ◌<◌, ◌^◌, IsTrue, OnOk, OnErr, Some, length};
ghost use Rattle.tl_types.specs.History.{fits_table, fits_floor, table_after, new_table, with_floor, has_name};
ghost use Rattle.tl_types.specs.Limits.{standard_limits};
ghost use Rattle.tl_types.specs.Plain as plain;

use crate::rows::{self, Row, all_open};
use std::alloc::Global;
use std::marker::Model;
use tl_types::{Change, Limits, NoMemory, Schema, all_match};

/// A table: its schema, the version before which its past is forgotten, and its rows, each at the
/// place that is its id. It has fewer than 2^32 rows.
#[derive(Drop)]
pub(crate) struct Table {
    schema: Schema,
    floor: u32,
    rows: Vec<Row>,
}

impl Model for Table {
    ghost use Rattle.std.specs.Prelude.{◌<◌, ◌^◌, length};
    ghost use Rattle.tl_types.specs.Plain as plain;

    ghost Value = { plain.Table };

    ghost view = { λ t. record { schema = t.schema; floor = t.floor; rows = t.rows.items } };

    ghost invariant = { λ t. length t.rows.items < 2 ^ 32 };
}

impl Table {
    /// A table without rows. It takes no memory.
    pub fn new(alloc: Global, schema: Schema) -> Table
        ensures { result ≡ new_table schema }
    {
        Table {
            schema,
            floor: 0,
            rows: Vec::new(alloc),
        }
    }

    /// The rows, in order of id.
    pub fn rows(&self) -> &[Row]
        ensures value { result.now ≡ self.now.rows }
        ensures few { length self.now.rows < 2 ^ 32 }
    {
        self.rows.as_slice()
    }

    /// Whether the table has the name.
    pub fn has_name(&self, name: &str) -> bool
        ensures { result ≡ has_name name.now self.now }
    {
        self.schema.name().as_str() == name
    }

    /// Whether a change fits the table: it closes open rows only, opens rows that match the schema,
    /// and leaves few enough rows.
    pub fn fits(&self, change: &Change, limits: &Limits) -> bool
        ensures { result ≡ fits_table limits.now change.now (Some self.now) }
    {
        all_open(self.rows.as_slice(), change.closes())
            && all_match(&self.schema, change.opens())
            && self.rows.len() as u64 + change.opens().len() as u64 <= limits.rows
    }

    /// Whether a floor fits the table: it is greater than the one that stands, and at most the
    /// number of commits.
    pub fn fits_floor(&self, now: u32, floor: u32) -> bool
        ensures { result ≡ fits_floor now floor (Some self.now) }
    {
        self.floor < floor && floor <= now
    }

    /// Sets the least version that may be asked of the table.
    pub fn set_floor(&mut self, floor: u32)
        ensures { self.new ≡ with_floor floor self.old }
    {
        self.floor = floor;
    }

    /// Applies the change of a version. The error is out of memory, and leaves the table as it was.
    pub fn change(&mut self, alloc: Global, version: u32, change: &Change) -> Result<(), NoMemory>
        requires { IsTrue (fits_table standard_limits change.now (Some self.old)) }
        ensures ok { OnOk result (self.new ≡ table_after version change.now self.old) }
        ensures err { OnErr result (self.new ≡ self.old) }
    {
        rows::change_all(alloc, version, change, &mut self.rows)?;
        Ok(())
    }
}
