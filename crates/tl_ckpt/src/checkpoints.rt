//! The checkpoint of a table at a version: the place, the rows that stand there, and the ends of
//! their valid periods. It keeps what it is made of, and looks at no table.
ghost use Rattle.std.specs.Prelude.{◌≡◌, length};
ghost use Rattle.tl_bits.specs.Sets.{members};

use crate::valid_events::ValidEvents;
use std::marker::Model;
use tl_bits::RowSet;

/// What a scan that begins at a version of a table has to know of it. A contract sees the rows that
/// stand there as the list of their ids, and how many rows had begun.
#[derive(Drop)]
pub struct Checkpoint {
    table: u16,
    version: u32,
    place: u32,
    rows: RowSet,
    valid_events: ValidEvents,
}

impl Model for Checkpoint {
    ghost use Rattle.std.specs.Prelude.{length};
    ghost use Rattle.tl_types.specs.Checkpoints as plain;
    ghost use Rattle.tl_bits.specs.Sets.{members};

    ghost Value = { plain.Checkpoint };

    ghost view = { λ c. record {
      table = c.table;
      version = c.version;
      place = c.place;
      begun = length c.rows;
      rows = members c.rows;
      valid_events = c.valid_events;
    } };
}

impl Checkpoint {
    /// The checkpoint of a table, by its number from 0, at a version: how many events there are up
    /// to it, the rows that stand there as a set below the number of those begun, and the events
    /// of valid time of those rows. The parts are taken as they are.
    pub fn new(
        table: u16,
        version: u32,
        place: u32,
        rows: RowSet,
        valid_events: ValidEvents,
    ) -> Checkpoint
        ensures { result ≡ record {
          table = table;
          version = version;
          place = place;
          begun = length rows;
          rows = members rows;
          valid_events = valid_events;
        } }
    {
        Checkpoint {
            table,
            version,
            place,
            rows,
            valid_events,
        }
    }

    /// The number of the table, from 0.
    pub fn table(&self) -> u16
        ensures { result ≡ self.now.table }
    {
        self.table
    }

    /// The version at which the rows stand, a number of commits.
    pub fn version(&self) -> u32
        ensures { result ≡ self.now.version }
    {
        self.version
    }

    /// How many events there are up to the version.
    pub fn place(&self) -> u32
        ensures { result ≡ self.now.place }
    {
        self.place
    }

    /// The rows that stand at the version, below the number of those that had begun.
    pub fn rows(&self) -> &RowSet
        ensures ids { members result.now ≡ self.now.rows }
        ensures begun { length result.now ≡ self.now.begun }
    {
        &self.rows
    }

    /// The events of valid time of those rows, none where the table has no valid time.
    pub fn valid_events(&self) -> &ValidEvents
        ensures { result.now ≡ self.now.valid_events }
    {
        &self.valid_events
    }
}
