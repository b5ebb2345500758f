//! What a snapshot tells of a table at a version, from the nearest mark on, or from the first
//! event where there is none. A version or a table that is not there cannot be asked for.
ghost use Rattle.std.specs.Prelude.{◌≡◌, ◌+◌, ◌*◌, ◌<◌, ◌≤◌, IsTrue, length, IfOk, IfSome, IfNone};
ghost use Rattle.tl_types.specs.Checkpoints.{checkpoint_at, valid_events_in};
ghost use Rattle.tl_types.specs.Entries.{commits_of};
ghost use Rattle.tl_types.specs.Events.{place_of};
ghost use Rattle.tl_types.specs.History.{database_of, rows_of};
ghost use Rattle.tl_types.specs.Walks.{standing};
ghost use Rattle.tl_events.specs.Timeline.{ends_of, binary_digits};
ghost use Rattle.tl_store.specs.Reading.{has_periods};
ghost use Rattle.tl_ckpt.specs.Choices.{chosen};
ghost use Rattle.tl_index.specs.Nearest.{IsNearest};
ghost use Rattle.tl_index.specs.Snapshots.{mark_before};

use crate::snapshots::Snapshot;
use crate::tables::TimedTable;
use crate::valid_times::{events_after, events_from_first, list_after, list_from_first};
use crate::walks::{rows_after, rows_from_first};
use std::alloc::Global;
use std::sync::ledger::Ledger;
use tl_bits::RowSet;
use tl_ckpt::{Checkpoint, Choice, ValidEvents};
use tl_types::{NoMemory, Steps, ValidEvent};

impl Snapshot {
    /// The table with a number, from 0, with its timeline.
    pub fn timed(&self, table: u16) -> TimedTable<'_>
        requires { table < length (database_of (commits_of self.now)).tables }
        ensures { result ≡ record { db = database_of (commits_of self.now); number = table } }
    {
        TimedTable::new(
            self.store(),
            table,
            self.events(table),
            self.version_map(table),
        )
    }

    // The mark of the table that has the greatest version not after this one, where it has one.
    fn nearest(&self, table: u16, version: u32) -> Option<&Checkpoint>
        ensures found { IfSome result (λ mark. IsNearest self.now table version mark.now) }
        ensures none { IfNone result (mark_before self.now table version ≡ 0) }
    {
        self.marks().nearest(table, version)
    }

    /// The rows of a table that stand at a version that is there, from those of the nearest mark
    /// that is not after it, or from the table's first event where there is none. It takes a step
    /// for each event from that mark's version up to this one, and those of the search for the
    /// version. The error is `NoMemory`.
    pub fn standing<L: Ledger>(
        &self,
        alloc: Global,
        table: u16,
        version: u32,
        steps: &mut Steps<L>,
    ) -> Result<RowSet, NoMemory>
        requires table { table < length (database_of (commits_of self.now)).tables }
        requires version { version ≤ (database_of (commits_of self.now)).version }
        ensures set { let rows = rows_of (database_of (commits_of self.now)) table in
            IfOk result (λ set. set ≡ standing rows version) }
        ensures steps { let db = database_of (commits_of self.now) in
            let rows = rows_of db table in
            let search = binary_digits (length (ends_of rows db.version) + 1) in
            steps.new + place_of rows (mark_before self.now table version)
            ≤ steps.old + place_of rows version + search }
    {
        let timed = self.timed(table);
        match self.nearest(table, version) {
            Some(mark) => rows_after(alloc, &timed, mark, version, steps),
            None => rows_from_first(alloc, &timed, version, steps),
        }
    }

    /// The events of valid time of the rows of a table with valid time that stand at a version that
    /// is there, from those of the nearest mark that is not after it, or from the table's first
    /// event where there is none. It takes at most three steps for each event from that mark's
    /// version up to this one, and those of the search for the version. The error is `NoMemory`.
    pub fn valid_events<L: Ledger>(
        &self,
        alloc: Global,
        table: u16,
        version: u32,
        steps: &mut Steps<L>,
    ) -> Result<ValidEvents, NoMemory>
        requires valid { IsTrue (has_periods (database_of (commits_of self.now)) table) }
        requires version { version ≤ (database_of (commits_of self.now)).version }
        ensures events { let rows = rows_of (database_of (commits_of self.now)) table in
            IfOk result (λ events. events ≡ valid_events_in rows version) }
        ensures steps { let db = database_of (commits_of self.now) in
            let rows = rows_of db table in
            let search = binary_digits (length (ends_of rows db.version) + 1) in
            steps.new + 3 * place_of rows (mark_before self.now table version)
            ≤ steps.old + 3 * place_of rows version + search }
    {
        let timed = self.timed(table);
        match self.nearest(table, version) {
            Some(mark) => events_after(alloc, &timed, mark, version, steps),
            None => events_from_first(alloc, &timed, version, steps),
        }
    }

    /// The events of valid time of chosen rows of a table at a version, in order, as one list. The
    /// rows of the table have valid periods, and the version is not after the snapshot's. It takes
    /// at most as many steps as `valid_events`, whatever the choice. The error is `NoMemory`.
    pub fn valid_list<L: Ledger>(
        &self,
        alloc: Global,
        table: u16,
        version: u32,
        choice: &Choice,
        steps: &mut Steps<L>,
    ) -> Result<Vec<ValidEvent>, NoMemory>
        requires valid { IsTrue (has_periods (database_of (commits_of self.now)) table) }
        requires version { version ≤ (database_of (commits_of self.now)).version }
        ensures list { let rows = rows_of (database_of (commits_of self.now)) table in
            IfOk result (λ list. list.items ≡ chosen choice.now (valid_events_in rows version)) }
        ensures steps { let db = database_of (commits_of self.now) in
            let rows = rows_of db table in
            let search = binary_digits (length (ends_of rows db.version) + 1) in
            steps.new + 3 * place_of rows (mark_before self.now table version)
            ≤ steps.old + 3 * place_of rows version + search }
    {
        let timed = self.timed(table);
        match self.nearest(table, version) {
            Some(mark) => list_after(alloc, &timed, mark, version, choice, steps),
            None => list_from_first(alloc, &timed, version, choice, steps),
        }
    }

    // The events of valid time of a checkpoint at the present version: none where the table has no
    // valid time.
    fn valid_events_now<L: Ledger>(
        &self,
        alloc: Global,
        table: u16,
        steps: &mut Steps<L>,
    ) -> Result<ValidEvents, NoMemory>
        requires { table < length (database_of (commits_of self.now)).tables }
        ensures { let db = database_of (commits_of self.now) in
            IfOk result (λ events. events ≡ (checkpoint_at db table db.version).valid_events) }
    {
        let store = self.store();
        if store.schema(table).valid() {
            self.valid_events(alloc, table, store.versions(), steps)
        } else {
            Ok(ValidEvents::none(alloc))
        }
    }

    /// The checkpoint of a table at the present version, from the nearest mark on. The error is
    /// `NoMemory`.
    pub fn build<L: Ledger>(
        &self,
        alloc: Global,
        table: u16,
        steps: &mut Steps<L>,
    ) -> Result<Checkpoint, NoMemory>
        requires { table < length (database_of (commits_of self.now)).tables }
        ensures { let db = database_of (commits_of self.now) in
            IfOk result (λ checkpoint. checkpoint ≡ checkpoint_at db table db.version) }
    {
        let timed = self.timed(table);
        let version = timed.version();
        let rows = self.standing(alloc, table, version, steps)?;
        let valid_events = self.valid_events_now(alloc, table, steps)?;
        let place = timed.events().len();
        Ok(Checkpoint::new(table, version, place, rows, valid_events))
    }
}
