//! The walk for a least or greatest number of all kept rows. It goes by the beginnings of rows: a
//! row's end is known there, so an event by which a row ends looks at nothing. At each version it
//! keeps that what stands for the rows is that of the kept ones which stand there.
ghost use Rattle.std.specs.Prelude.{◌≡◌, ◌+◌, ◌-◌, ◌*◌, ◌<◌, ◌≤◌, length, drop, OnOk, IfOk};
ghost use Rattle.tl_types.specs.Events.{events_of, place_of};
ghost use Rattle.tl_types.specs.Walks.{standing};
ghost use Rattle.tl_events.specs.Timeline.{Follow};
ghost use Rattle.tl_lanes.specs.Masks.{words_for};
ghost use Rattle.tl_index.specs.Tables.{rows_in, ends_in, search_steps};
ghost use Rattle.tl_agg.specs.Kept.{below, size, IsWithin};
ghost use Rattle.tl_agg.specs.Runs.{system_runs, start_set};
ghost use Rattle.tl_agg.specs.Scans.{set_after};
ghost use Rattle.tl_agg.specs.Extremes.{IsExtreme, IdComes, EventComes, IsExtremeRun, TracksAt, TracksExtreme, EndAt};

use crate::extremes::Extremes;
use crate::scans::Scan;
use std::sync::ledger::Ledger;
use tl_bits::RowSet;
use tl_events::PackedEvent;
use tl_types::{Event, NoMemory, Run, Steps};

impl<'a> Scan<'a> {
    // A kept row comes. Its end is read where its number alone does not tell that it changes
    // nothing. It takes at most two steps.
    #[inline(always)]
    fn come<L: Ledger>(
        &self,
        extremes: &mut Extremes,
        row: u32,
        steps: &mut Steps<L>,
    ) -> Result<(), NoMemory>
        requires kind { extremes.old.extreme.kind ≡ self.now.plan.kind }
        requires row { row < length (rows_in self.now.table) }
        ensures comes { OnOk result (IdComes self.now row extremes.old extremes.new) }
        ensures steps { steps.new ≤ steps.old + 2 }
    {
        let number = self.number_in(row, steps);
        let is_covered = extremes.covers(number);
        if is_covered {
            let _ = self.table.rows(); // says that rows are well-formed
            let _last = self.table.version(); // says that it is of 32 bits
            return Ok(());
        }
        let period = self.table.period_at(row, steps);
        extremes.put(number, period.to)?;
        Ok(())
    }

    // An event: its row comes, where it is kept, or goes by itself. It takes at most three steps.
    #[inline(always)]
    fn take_event<L: Ledger>(
        &self,
        extremes: &mut Extremes,
        event: Event,
        steps: &mut Steps<L>,
    ) -> Result<(), NoMemory>
        requires kind { extremes.old.extreme.kind ≡ self.now.plan.kind }
        requires row { event.row < length (rows_in self.now.table) }
        ensures comes { OnOk result (EventComes self.now event extremes.old extremes.new) }
        ensures steps { steps.new ≤ steps.old + 3 }
    {
        let _ = self.table.rows();
        if event.opens {
            let is_kept = self.keep.test(event.row, steps);
            if is_kept {
                self.come(extremes, event.row, steps)?;
                return Ok(());
            }
            return Ok(());
        }
        Ok(())
    }

    // Some events of the version up to which the runs reach, which begin at a place among those of
    // the table. It takes at most three steps for each.
    fn take_run<L: Ledger>(
        &self,
        extremes: &mut Extremes,
        at: u32,
        place: u32,
        events: &[PackedEvent],
        steps: &mut Steps<L>,
    ) -> Result<(), NoMemory>
        requires run { IsExtremeRun self.now at place events.now extremes.old }
        ensures tracks { OnOk result
            (TracksAt self.now (place + length events.now) at extremes.new) }
        ensures steps { steps.new ≤ steps.old + 3 * length events.now }
    {
        let _at = at;
        let _place = place;
        let _ = self.table.rows();
        for packed in events {
            self.take_event(extremes, packed.event(), steps)?;
        }
        Ok(())
    }

    // The events of the version up to which the runs reach, from one place up to another. It takes
    // at most four steps for each.
    fn take_events<L: Ledger>(
        &self,
        extremes: &mut Extremes,
        at: u32,
        from: u32,
        to: u32,
        steps: &mut Steps<L>,
    ) -> Result<(), NoMemory>
        requires ordered { from ≤ to }
        requires within { to ≤ place_of (rows_in self.now.table) self.now.table.db.version }
        requires ends { EndAt (rows_in self.now.table)
            (events_of (rows_in self.now.table) self.now.table.db.version) from to at }
        requires tracks { TracksAt self.now from at extremes.old }
        ensures tracks { OnOk result (TracksAt self.now to at extremes.new) }
        ensures steps { steps.new ≤ steps.old + 4 * (to - from) }
    {
        let mut i = from;
        'runs: while i < to {
            let run = self.table.run(i, to, steps);
            self.take_run(extremes, at, i, run, steps)?;
            i += run.len() as u32;
        }
        Ok(())
    }

    // The events of a version, from one place up to another. It takes at most four steps for each.
    fn take_version<L: Ledger>(
        &self,
        extremes: &mut Extremes,
        at: u32,
        from: u32,
        to: u32,
        steps: &mut Steps<L>,
    ) -> Result<(), NoMemory>
        requires scan { IsExtreme self.now }
        requires ordered { from ≤ to }
        requires within { to ≤ place_of (rows_in self.now.table) self.now.table.db.version }
        requires ends { EndAt (rows_in self.now.table)
            (events_of (rows_in self.now.table) self.now.table.db.version) from to at }
        requires tracks { TracksExtreme self.now (set_after self.now.table from) at extremes.old }
        ensures tracks { OnOk result
            (TracksExtreme self.now (set_after self.now.table to) at extremes.new) }
        ensures steps { steps.new ≤ steps.old + 4 * (to - from) }
    {
        extremes.advance(at)?;
        self.take_events(extremes, at, from, to, steps)
    }

    // Takes the events of the versions of the piece behind its first one, as `walk` does for
    // groups. It takes at most five steps for each event, and one more.
    fn walk_extremes<L: Ledger>(
        &self,
        extremes: &mut Extremes,
        first: u64,
        from: u32,
        steps: &mut Steps<L>,
    ) -> Result<(), NoMemory>
        requires scan { IsExtreme self.now }
        requires follow { Follow (rows_in self.now.table) self.now.table.db.version self.now.from
            (drop first (ends_in self.now.table)) }
        requires from { from ≡ place_of (rows_in self.now.table) self.now.from }
        requires tracks { TracksExtreme self.now (standing (rows_in self.now.table) self.now.from)
            self.now.from extremes.old }
        ensures tracks { OnOk result (TracksExtreme self.now
            (standing (rows_in self.now.table) (self.now.to - 1)) self.now.to extremes.new) }
        ensures steps { steps.new ≤ steps.old
            + (5 * (place_of (rows_in self.now.table) (self.now.to - 1) - from) + 1) }
    {
        let _ = self.table.rows();
        let mut at = self.piece.from;
        let mut place = from;
        let mut i = first;
        'versions: while let Some(entry) = self.next_entry(i, at, steps) {
            self.take_version(extremes, entry.version, place, entry.end, steps)?;
            at = entry.version;
            place = entry.end;
            i += 1;
        }
        Ok(())
    }

    // Takes the members of the start set as rows that come at the first version. It takes at most
    // three steps for each, and one for each begun 64 rows.
    fn enter_extremes<L: Ledger>(
        &self,
        extremes: &mut Extremes,
        start: &RowSet,
        steps: &mut Steps<L>,
    ) -> Result<(), NoMemory>
        requires members { IsWithin start.now self.now.keep }
        requires tracks { TracksExtreme self.now (below 0 start.now) self.now.from extremes.old }
        ensures tracks { OnOk result
            (TracksExtreme self.now start.now self.now.from extremes.new) }
        ensures steps { steps.new
            ≤ steps.old + (3 * size start.now + words_for (length start.now)) }
    {
        let _ = self.table.rows();
        let mut from = 0;
        'members: while let Some(row) = start.next(from, steps) {
            self.come(extremes, row, steps)?;
            from = row + 1;
        }
        Ok(())
    }

    /// The runs over the piece, of a least or greatest number of all kept rows. `start` is the set
    /// of those that stand at its first version. The error is `NoMemory`.
    pub(crate) fn extreme_runs<L: Ledger>(
        &self,
        start: &RowSet,
        steps: &mut Steps<L>,
    ) -> Result<Vec<Run>, NoMemory>
        requires scan { IsExtreme self.now }
        requires start { start.now
            ≡ start_set (rows_in self.now.table) self.now.keep self.now.from }
        ensures runs { IfOk result (λ runs. runs.items ≡ system_runs self.now.plan
            (rows_in self.now.table) self.now.keep self.now.from self.now.to) }
        ensures steps { let rows = rows_in self.now.table in
            let e = place_of rows (self.now.to - 1) - place_of rows self.now.from in
            steps.new ≤ steps.old + (5 * e + 3 * size start.now + words_for (length start.now)
            + 2 * search_steps self.now.table + 1) }
    {
        let mut extremes = Extremes::none(self.alloc, self.plan.kind, self.piece.from);
        self.enter_extremes(&mut extremes, start, steps)?;
        let place = self.table.place(self.piece.from, steps);
        let first = self.table.entries_to(self.piece.from, steps);
        self.walk_extremes(&mut extremes, first, place, steps)?;
        let runs = extremes.into_runs(self.piece.to)?;
        Ok(runs)
    }
}
