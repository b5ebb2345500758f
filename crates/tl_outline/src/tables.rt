//! The outline of one table: its schema, its floor, and of each row whether it is current.
ghost use Rattle.std.specs.Prelude.{◌≡◌, ◌<◌, ◌^◌, ◌++◌, IsTrue, true, Some, IfOk, OnOk, OnErr, length, map, replicate, All};
ghost use Rattle.std.specs.List.{list_all};
ghost use Rattle.tl_types.specs.History.{fits_table, fits_floor, has_name, is_open_at};
ghost use Rattle.tl_types.specs.Limits.{standard_limits};
ghost use Rattle.tl_outline.specs.Outlines.{row_shown, table_shown, outline_new, after_closes, outline_changed, outline_floored};

use std::alloc::Global;
use std::marker::Model;
use tl_types::{Change, Limits, NoMemory, Schema, all_match};

/// The outline of a table: its schema, its floor, and of each row, in order of id, whether it is
/// current.
#[derive(Drop)]
pub(crate) struct OutlineTable {
    schema: Schema,
    floor: u32,
    current: Vec<bool>,
}

impl Model for OutlineTable {
    ghost use Rattle.tl_outline.specs.Outlines as outline;

    ghost Value = { outline.OutlineTable };

    ghost view = { λ t. record { schema = t.schema; floor = t.floor; current = t.current.items } };
}

impl OutlineTable {
    /// The outline of a table of a schema, which has no rows and the floor 0. The error is
    /// `NoMemory`.
    pub fn new(alloc: Global, schema: &Schema) -> Result<OutlineTable, NoMemory>
        ensures { IfOk result (λ table. table ≡ outline_new schema.now) }
    {
        Ok(OutlineTable {
            schema: schema.clone()?,
            floor: 0,
            current: Vec::new(alloc),
        })
    }

    /// Whether the table has the name.
    pub fn has_name(&self, name: &str) -> bool
        ensures { result ≡ has_name name.now (table_shown self.now) }
    {
        self.schema.name().as_str() == name
    }

    /// Whether a change fits the table: it closes open rows only, opens rows that match the
    /// schema, and leaves few enough rows.
    pub fn fits(&self, change: &Change, limits: &Limits) -> bool
        ensures { result ≡ fits_table limits.now change.now (Some (table_shown self.now)) }
    {
        all_open(self.current.as_slice(), change.closes())
            && all_match(&self.schema, change.opens())
            && self.current.len() as u64 + change.opens().len() as u64 <= limits.rows
    }

    /// Whether a floor fits the table: it is greater than the one that stands, and at most the
    /// number of commits.
    pub fn fits_floor(&self, now: u32, floor: u32) -> bool
        ensures { result ≡ fits_floor now floor (Some (table_shown self.now)) }
    {
        self.floor < floor && floor <= now
    }

    /// Closes and opens the rows of a change that fits. The error is `NoMemory`, and leaves the
    /// table as it was.
    pub fn change(&mut self, change: &Change) -> Result<(), NoMemory>
        requires { IsTrue (fits_table standard_limits change.now (Some (table_shown self.old))) }
        ensures ok { OnOk result (self.new ≡ outline_changed change.now self.old) }
        ensures err { OnErr result (self.new ≡ self.old) }
    {
        open_rows(&mut self.current, change.opens().len())?;
        close_rows(&mut self.current, change.closes());
        Ok(())
    }

    /// Sets the floor.
    pub fn set_floor(&mut self, floor: u32)
        ensures { self.new ≡ outline_floored floor self.old }
    {
        self.floor = floor;
    }
}

// Whether the row with an id is there and is current.
fn is_open_at(current: &[bool], id: u32) -> bool
    ensures { result ≡ is_open_at (map row_shown current.now) id }
{
    (id as usize) < current.len() && current[id as usize]
}

// Whether each id is that of a current row.
#[inline(never)]
fn all_open(current: &[bool], ids: &[u32]) -> bool
    ensures { result ≡ list_all (is_open_at (map row_shown current.now)) ids.now }
{
    ids.iter().all(|id| is_open_at(current, *id))
}

// Puts so many current rows behind the others. The error is `NoMemory`, and leaves the rows as
// they were.
fn open_rows(current: &mut Vec<bool>, count: usize) -> Result<(), NoMemory>
    requires { count < 2 ^ 32 }
    ensures ok { OnOk result (current.new.items ≡ current.old.items ++ replicate count true) }
    ensures err { OnErr result (current.new.items ≡ current.old.items) }
{
    current.resize(current.len() + count, true)?;
    Ok(())
}

// Closes the rows with these ids, all of which are there.
fn close_rows(current: &mut Vec<bool>, closes: &[u32])
    requires { All (λ id. id < length current.old.items) closes.now }
    ensures { current.new.items ≡ after_closes current.old.items closes.now }
{
    for id in closes {
        current[*id as usize] = false;
    }
}
