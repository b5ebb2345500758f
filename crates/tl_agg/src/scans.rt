//! The walk along the events of a table over a piece of its versions. At each version it keeps that
//! the groups are those of the kept rows that stand there; a row that is not kept changes nothing. A
//! least or greatest number of all kept rows has a walk of its own.
ghost use Rattle.std.specs.Prelude.{◌≡◌, None, Some, ◌+◌, ◌-◌, ◌*◌, ◌^◌, ◌<◌, ◌≤◌, true, false, length, drop, is_some, OnOk, IfOk, IfSome, IfNone};
ghost use Rattle.tl_types.specs.Events.{place_of};
ghost use Rattle.tl_types.specs.Walks.{IsQuiet, standing};
ghost use Rattle.tl_events.specs.Timeline.{Follow};
ghost use Rattle.tl_bits.specs.Sets.{is_member};
ghost use Rattle.tl_lanes.specs.Masks.{words_for};
ghost use Rattle.tl_running.specs.Standing.{IsShort, is_ordered};
ghost use Rattle.tl_store.specs.Reading.{cell_shown, IsShort as IsShortCell};
ghost use Rattle.tl_agg.specs.Kept.{below, size, IsWithin, count_moved};
ghost use Rattle.tl_agg.specs.Runs.{system_runs, start_set};
ghost use Rattle.tl_agg.specs.Columns.{AreNumbers, HasKey};
ghost use Rattle.tl_agg.specs.Extremes.{IsExtreme, IsSummed};
ghost use Rattle.tl_agg.specs.Scans.{IsNextEntry, IsScan, scan_of, AllTrack, IsRun, IsRunOfAll, TakesRun, IsReady, TakesEvent, set_after, all_recounted, all_summed};
ghost use Rattle.tl_index.specs.Tables.{rows_in, ends_in, search_steps};
ghost use Rattle.tl_running.specs.Telling.{TellsNumber};
ghost use Rattle.tl_agg.specs.Tallies.{IsFarFromEnds, total, count_with, IsTally, TalliesWhere};

mod extreme_walks;

use crate::all_groups::Groups;
use crate::columns::{int_keys, key_at, numbers};
use crate::kept::KeptRows;
use crate::tallies::Tally;
use std::alloc::Global;
use std::marker::Model;
use std::sync::ledger::Ledger;
use tl_bits::RowSet;
use tl_events::{PackedEvent, VersionEnd};
use tl_index::TimedTable;
use tl_query::{AggKind, AggPlan};
use tl_store::{CellRef, IntsRef};
use tl_types::{Event, NoMemory, Piece, Run, Steps};

// Whether the kind asks for the order of the numbers.
fn is_ordered(kind: AggKind) -> bool
    ensures { result ≡ is_ordered kind }
{
    matches!(kind, AggKind::Min | AggKind::Max)
}

// How many rows there are when one comes where `opens`, and else goes, where it is kept.
fn count_moved(is_kept: bool, opens: bool, count: u32) -> u32
    requires more { is_kept ≡ true → opens ≡ true → count < 2 ^ 32 - 1 }
    requires fewer { is_kept ≡ true → opens ≡ false → 0 < count }
    ensures { result ≡ count_moved is_kept opens count }
{
    if is_kept {
        if opens { count + 1 } else { count - 1 }
    } else {
        count
    }
}

/// A scan of a table by a plan, for the rows that are kept, over a piece of the versions.
#[derive(Drop)]
pub(crate) struct Scan<'a> {
    alloc: Global,
    table: TimedTable<'a>,
    plan: AggPlan,
    numbers: Option<IntsRef<'a>>,
    keys: Option<IntsRef<'a>>,
    keep: KeptRows<'a>,
    piece: Piece,
}

impl<'a> Model for Scan<'a> {
    ghost use Rattle.tl_agg.specs.Scans.{ScanOf, ReadsNumbers, scan_of};

    ghost Value = { ScanOf };

    ghost view = { λ s. scan_of s.table s.plan s.keep s.piece.from s.piece.to };

    ghost invariant = { λ s. ReadsNumbers
        (scan_of s.table s.plan s.keep s.piece.from s.piece.to)
        s.numbers s.keys };
}

impl<'a> Scan<'a> {
    /// The scan of a table by a plan for it, for the rows of a set, over a piece.
    pub(crate) fn new(
        alloc: Global,
        table: TimedTable<'a>,
        plan: AggPlan,
        keep: KeptRows<'a>,
        piece: Piece,
    ) -> Scan<'a>
        requires { IsScan (scan_of table plan keep piece.from piece.to) }
        ensures { result ≡ scan_of table.entry plan keep.entry piece.from piece.to }
    {
        let numbers = numbers(&table, plan.column);
        let keys = int_keys(&table, plan.by);
        Scan {
            alloc,
            table,
            plan,
            numbers,
            keys,
            keep,
            piece,
        }
    }

    // The number of a row, 0 where no column is asked for. It takes at most one step.
    fn number_in<L: Ledger>(&self, row: u32, steps: &mut Steps<L>) -> i64
        requires { row < length (rows_in self.now.table) }
        ensures number { TellsNumber self.now.plan.kind self.now.plan.column
            (rows_in self.now.table) row result }
        ensures short { IsShort result }
        ensures steps { steps.new ≤ steps.old + 1 }
    {
        match &self.numbers {
            Some(cells) => cells.at(row, steps),
            None => 0,
        }
    }

    // A kept row comes into the group of all rows, or goes, at the version up to which its runs
    // reach. It takes at most one step.
    fn move_all<L: Ledger>(
        &self,
        groups: &mut Groups<'a>,
        at: u32,
        event: Event,
        steps: &mut Steps<L>,
    ) -> Result<(), NoMemory>
        requires single { self.now.plan.by ≡ None }
        requires kept { is_member self.now.keep event.row ≡ true }
        requires ready { IsReady self.now at event groups.old }
        requires since { groups.old.all.since ≡ at }
        ensures takes { OnOk result (TakesEvent self.now at event groups.old groups.new) }
        ensures since { OnOk result (groups.new.all.since ≡ at) }
        ensures steps { steps.new ≤ steps.old + 1 }
    {
        let _at = at;
        let _ = self.table.rows();
        let number = self.number_in(event.row, steps);
        groups.shift(event.opens, number)?;
        Ok(())
    }

    // The cell of a row in the column that separates the rows into groups. It takes one step.
    #[inline(always)]
    fn key_in<L: Ledger>(&self, by: u8, row: u32, steps: &mut Steps<L>) -> CellRef<'a>
        requires by { self.now.plan.by ≡ Some by }
        requires row { row < length (rows_in self.now.table) }
        ensures key { HasKey (rows_in self.now.table) row by (cell_shown result) }
        ensures short { IsShortCell result }
        ensures steps { steps.new ≡ steps.old + 1 }
    {
        match &self.keys {
            Some(cells) => CellRef::Int(cells.at(row, steps)),
            None => key_at(&self.table, by, row, steps),
        }
    }

    // A kept row comes into the group of its value in a column at a version, or goes. It takes at
    // most two steps.
    #[inline(always)]
    fn move_in<L: Ledger>(
        &self,
        groups: &mut Groups<'a>,
        by: u8,
        at: u32,
        event: Event,
        steps: &mut Steps<L>,
    ) -> Result<(), NoMemory>
        requires by { self.now.plan.by ≡ Some by }
        requires kept { is_member self.now.keep event.row ≡ true }
        requires ready { IsReady self.now at event groups.old }
        ensures takes { OnOk result (TakesEvent self.now at event groups.old groups.new) }
        ensures steps { steps.new ≤ steps.old + 2 }
    {
        let _ = self.table.rows();
        let number = self.number_in(event.row, steps);
        let value = self.key_in(by, event.row, steps);
        let n = groups.number(self.alloc, value, self.plan.kind, self.piece.from)?;
        groups.change_at(n, at, event.opens, number)?;
        Ok(())
    }

    // A kept row comes into its group at a version, or goes. It takes at most two steps.
    #[inline(always)]
    fn move_row<L: Ledger>(
        &self,
        groups: &mut Groups<'a>,
        at: u32,
        event: Event,
        steps: &mut Steps<L>,
    ) -> Result<(), NoMemory>
        requires kept { is_member self.now.keep event.row ≡ true }
        requires ready { IsReady self.now at event groups.old }
        requires since { self.now.plan.by ≡ None → groups.old.all.since ≡ at }
        ensures takes { OnOk result (TakesEvent self.now at event groups.old groups.new) }
        ensures since { OnOk result (self.now.plan.by ≡ None → groups.new.all.since ≡ at) }
        ensures steps { steps.new ≤ steps.old + 2 }
    {
        match self.plan.by {
            None => self.move_all(groups, at, event, steps),
            Some(by) => self.move_in(groups, by, at, event, steps),
        }
    }

    // An event of a version, which changes a group where its row is kept. It takes at most three
    // steps.
    #[inline(always)]
    fn fold_event<L: Ledger>(
        &self,
        groups: &mut Groups<'a>,
        at: u32,
        event: Event,
        steps: &mut Steps<L>,
    ) -> Result<(), NoMemory>
        requires grouped { is_some self.now.plan.by ≡ true }
        requires ready { IsReady self.now at event groups.old }
        ensures takes { OnOk result (TakesEvent self.now at event groups.old groups.new) }
        ensures steps { steps.new ≤ steps.old + 3 }
    {
        let is_kept = self.keep.test(event.row, steps);
        if is_kept {
            return self.move_row(groups, at, event, steps);
        }
        Ok(())
    }

    // How many rows are kept, and stand, after some events of the version up to which the runs of
    // the group of all rows reach, where they are only counted. The events begin at a place among
    // those of the table. It takes at most one step for each.
    fn count_run<L: Ledger>(
        &self,
        groups: &Groups<'a>,
        at: u32,
        place: u32,
        events: &[PackedEvent],
        steps: &mut Steps<L>,
    ) -> u32
        requires run { IsRunOfAll self.now at place events.now groups.now }
        requires counts { self.now.plan.column ≡ None }
        ensures tracks { TakesRun self.now at place events.now (all_recounted groups.now result) }
        ensures steps { steps.new ≤ steps.old + length events.now }
    {
        let _at = at;
        let _place = place;
        let _ = self.table.rows();
        let mut count = groups.count();
        for packed in events {
            let event = packed.event();
            let is_kept = self.keep.test(event.row, steps);
            count = count_moved(is_kept, event.opens, count);
        }
        count
    }

    // What a tally is behind an event, whose row comes or goes where it is kept. It takes at most
    // two steps.
    #[inline(always)]
    fn tally_event<L: Ledger>(
        &self,
        cells: &IntsRef<'a>,
        tally: Tally,
        event: Event,
        steps: &mut Steps<L>,
    ) -> Tally
        requires cells { AreNumbers (rows_in self.now.table) self.now.plan.column (Some cells.now) }
        requires row { event.row < length (rows_in self.now.table) }
        requires came { tally.came ≤ tally.kept }
        requires few { tally.kept < 2 ^ 64 - 1 }
        requires wide { IsFarFromEnds tally.sum }
        ensures tallies { TalliesWhere (is_member self.now.keep event.row) self.now event
            tally result }
        ensures steps { steps.new ≤ steps.old + 2 }
    {
        let is_kept = self.keep.test(event.row, steps);
        if is_kept {
            let number = cells.at(event.row, steps);
            return tally.moved(event.opens, number);
        }
        tally
    }

    // The tally of some events of the version up to which the runs of the group of all rows reach,
    // which begin at a place among the table's events. It takes at most two steps for each.
    fn tally_run<L: Ledger>(
        &self,
        groups: &Groups<'a>,
        at: u32,
        place: u32,
        events: &[PackedEvent],
        steps: &mut Steps<L>,
    ) -> Tally
        requires run { IsRunOfAll self.now at place events.now groups.now }
        requires kind { is_ordered self.now.plan.kind ≡ false }
        requires column { is_some self.now.plan.column ≡ true }
        ensures tracks { TakesRun self.now at place events.now (all_summed groups.now
            (count_with groups.now.all.running.count result) (total result)) }
        ensures tally { IsTally groups.now.all.running.count (length events.now) result }
        ensures steps { steps.new ≤ steps.old + 2 * length events.now }
    {
        let _at = at;
        let _place = place;
        let _ = self.table.rows();
        let mut tally = Tally::none(groups.sum());
        let Some(cells) = &self.numbers else {
            unreachable!()
        };
        for packed in events {
            tally = self.tally_event(cells, tally, packed.event(), steps);
        }
        tally
    }

    // Some events of the version up to which the runs of the group of all rows reach, which begin
    // at a place among the table's events, where the rows have one group and the order of the
    // numbers is not asked for. It takes at most two steps for each.
    fn sum_run<L: Ledger>(
        &self,
        groups: &mut Groups<'a>,
        at: u32,
        place: u32,
        events: &[PackedEvent],
        steps: &mut Steps<L>,
    )
        requires run { IsRunOfAll self.now at place events.now groups.old }
        requires kind { is_ordered self.now.plan.kind ≡ false }
        requires column { is_some self.now.plan.column ≡ true }
        ensures tracks { TakesRun self.now at place events.now groups.new }
        ensures steps { steps.new ≤ steps.old + 2 * length events.now }
    {
        let _ = self.table.rows();
        let tally = self.tally_run(groups, at, place, events, steps);
        let count = tally.count(groups.count());
        groups.set_sums(count, tally.total());
    }

    // Some events of a version, which begin at a place among the table's events, where the rows
    // have one group and the order of the numbers is not asked for. It takes at most two steps for
    // each.
    fn run_all<L: Ledger>(
        &self,
        groups: &mut Groups<'a>,
        at: u32,
        place: u32,
        events: &[PackedEvent],
        steps: &mut Steps<L>,
    ) -> Result<(), NoMemory>
        requires single { self.now.plan.by ≡ None }
        requires kind { is_ordered self.now.plan.kind ≡ false }
        requires run { IsRun self.now at place events.now groups.old }
        ensures tracks { OnOk result (TakesRun self.now at place events.now groups.new) }
        ensures steps { steps.new ≤ steps.old + 2 * length events.now }
    {
        groups.advance(at)?;
        match self.plan.column {
            None => {
                let count = self.count_run(groups, at, place, events, steps);
                groups.set_count(count);
                Ok(())
            }
            Some(_) => {
                self.sum_run(groups, at, place, events, steps);
                Ok(())
            }
        }
    }

    // Some events of a version, which begin at a place among those of the table, where a column
    // separates the rows into groups. It takes at most three steps for each.
    fn run_in<L: Ledger>(
        &self,
        groups: &mut Groups<'a>,
        at: u32,
        place: u32,
        events: &[PackedEvent],
        steps: &mut Steps<L>,
    ) -> Result<(), NoMemory>
        requires grouped { is_some self.now.plan.by ≡ true }
        requires run { IsRun self.now at place events.now groups.old }
        ensures tracks { OnOk result (TakesRun self.now at place events.now groups.new) }
        ensures steps { steps.new ≤ steps.old + 3 * length events.now }
    {
        let _place = place;
        let _ = self.table.rows();
        for packed in events {
            self.fold_event(groups, at, packed.event(), steps)?;
        }
        Ok(())
    }

    // Some events of a version, which begin at a place among those of the table. It takes at most
    // three steps for each.
    fn fold_run<L: Ledger>(
        &self,
        groups: &mut Groups<'a>,
        at: u32,
        place: u32,
        events: &[PackedEvent],
        steps: &mut Steps<L>,
    ) -> Result<(), NoMemory>
        requires sums { IsSummed self.now }
        requires run { IsRun self.now at place events.now groups.old }
        ensures tracks { OnOk result (TakesRun self.now at place events.now groups.new) }
        ensures steps { steps.new ≤ steps.old + 3 * length events.now }
    {
        match self.plan.by {
            None => self.run_all(groups, at, place, events, steps),
            Some(_) => self.run_in(groups, at, place, events, steps),
        }
    }

    // The events of a version, from one place up to another. It takes at most four steps for each.
    fn fold_version<L: Ledger>(
        &self,
        groups: &mut Groups<'a>,
        at: u32,
        from: u32,
        to: u32,
        steps: &mut Steps<L>,
    ) -> Result<(), NoMemory>
        requires sums { IsSummed self.now }
        requires ordered { from ≤ to }
        requires within { to ≤ place_of (rows_in self.now.table) self.now.table.db.version }
        requires tracks { AllTrack self.now (set_after self.now.table from) at groups.old }
        ensures tracks { OnOk result
            (AllTrack self.now (set_after self.now.table to) at groups.new) }
        ensures steps { steps.new ≤ steps.old + 4 * (to - from) }
    {
        let mut i = from;
        'runs: while i < to {
            let run = self.table.run(i, to, steps);
            self.fold_run(groups, at, i, run, steps)?;
            i += run.len() as u32;
        }
        Ok(())
    }

    // The next version behind one that has events, where it is in the piece. It takes at most one
    // step.
    fn next_entry<L: Ledger>(&self, i: u64, at: u32, steps: &mut Steps<L>) -> Option<VersionEnd>
        requires follow { Follow (rows_in self.now.table) self.now.table.db.version at
            (drop i (ends_in self.now.table)) }
        requires later { at < self.now.to }
        ensures some { IfSome result (λ entry. IsNextEntry (rows_in self.now.table)
            self.now.table.db.version at self.now.to entry
            (drop (i + 1) (ends_in self.now.table))) }
        ensures few { IfSome result (λ entry. i < length (ends_in self.now.table)) }
        ensures room { IfSome result (λ entry. i < 18446744073709551615) }
        ensures none { IfNone result (IsQuiet (rows_in self.now.table) at self.now.to) }
        ensures steps { steps.new ≤ steps.old + 1 }
    {
        let _at = at;
        let entry = self.table.entry(i, steps)?;
        if entry.version >= self.piece.to {
            return None;
        }
        Some(entry)
    }

    /// Takes the events of the versions of the piece behind its first one. `first` is the number of
    /// the versions up to that one that have events, and `from` the place where these end. It takes
    /// at most five steps for each event, and one more.
    pub(crate) fn walk<L: Ledger>(
        &self,
        groups: &mut Groups<'a>,
        first: u64,
        from: u32,
        steps: &mut Steps<L>,
    ) -> Result<(), NoMemory>
        requires sums { IsSummed self.now }
        requires follow { Follow (rows_in self.now.table) self.now.table.db.version self.now.from
            (drop first (ends_in self.now.table)) }
        requires from { from ≡ place_of (rows_in self.now.table) self.now.from }
        requires tracks { AllTrack self.now (standing (rows_in self.now.table) self.now.from)
            self.now.from groups.old }
        ensures tracks { OnOk result (AllTrack self.now
            (standing (rows_in self.now.table) (self.now.to - 1)) self.now.to groups.new) }
        ensures steps { steps.new ≤ steps.old
            + (5 * (place_of (rows_in self.now.table) (self.now.to - 1) - from) + 1) }
    {
        let _ = self.table.rows();
        let mut at = self.piece.from;
        let mut place = from;
        let mut i = first;
        'versions: while let Some(entry) = self.next_entry(i, at, steps) {
            self.fold_version(groups, entry.version, place, entry.end, steps)?;
            at = entry.version;
            place = entry.end;
            i += 1;
        }
        Ok(())
    }

    // Takes the members of the start set as rows that come at the first version. It takes at most
    // three steps for each, and one for each begun 64 rows.
    fn enter_all<L: Ledger>(
        &self,
        groups: &mut Groups<'a>,
        start: &RowSet,
        steps: &mut Steps<L>,
    ) -> Result<(), NoMemory>
        requires members { IsWithin start.now self.now.keep }
        requires tracks { AllTrack self.now (below 0 start.now) self.now.from groups.old }
        ensures tracks { OnOk result (AllTrack self.now start.now self.now.from groups.new) }
        ensures steps { steps.new
            ≤ steps.old + (3 * size start.now + words_for (length start.now)) }
    {
        let _ = self.table.rows();
        let mut from = 0;
        'members: while let Some(row) = start.next(from, steps) {
            let event = Event { row, opens: true };
            self.move_row(groups, self.piece.from, event, steps)?;
            from = row + 1;
        }
        Ok(())
    }

    // The groups when all events of the piece are taken.
    fn groups<L: Ledger>(
        &self,
        start: &RowSet,
        steps: &mut Steps<L>,
    ) -> Result<Groups<'a>, NoMemory>
        requires sums { IsSummed self.now }
        requires start { start.now
            ≡ start_set (rows_in self.now.table) self.now.keep self.now.from }
        ensures tracks { IfOk result (λ groups. AllTrack self.now
            (standing (rows_in self.now.table) (self.now.to - 1)) self.now.to groups) }
        ensures steps { let rows = rows_in self.now.table in
            let e = place_of rows (self.now.to - 1) - place_of rows self.now.from in
            steps.new ≤ steps.old + (5 * e + 3 * size start.now + words_for (length start.now)
            + 2 * search_steps self.now.table + 1) }
    {
        let gaps = self.plan.by.is_some();
        let mut groups = Groups::none(self.alloc, self.plan.kind, gaps, self.piece.from);
        self.enter_all(&mut groups, start, steps)?;
        let place = self.table.place(self.piece.from, steps);
        let first = self.table.entries_to(self.piece.from, steps);
        self.walk(&mut groups, first, place, steps)?;
        Ok(groups)
    }

    // The runs of the groups when all events of the piece are taken.
    fn runs_of(&self, groups: Groups<'a>) -> Result<Vec<Run>, NoMemory>
        requires { AllTrack self.now (standing (rows_in self.now.table) (self.now.to - 1))
            self.now.to groups }
        ensures { IfOk result (λ runs. runs.items ≡ system_runs self.now.plan
            (rows_in self.now.table) self.now.keep self.now.from self.now.to) }
    {
        let _ = &self.table;
        match self.plan.by {
            None => {
                let runs = groups.into_runs(self.piece.to)?;
                Ok(runs)
            }
            Some(_) => {
                let runs = groups.into_runs_by(self.alloc, self.piece.to)?;
                Ok(runs)
            }
        }
    }

    // Whether a least or greatest number of all kept rows is asked for.
    fn is_extreme(&self) -> bool
        ensures extreme { result ≡ true → IsExtreme self.now }
        ensures sums { result ≡ false → IsSummed self.now }
    {
        match self.plan.by {
            None => is_ordered(self.plan.kind),
            Some(_) => false,
        }
    }

    /// The runs over the piece. `start` is the set of the kept rows that stand at its first
    /// version. The error is `NoMemory`.
    pub(crate) fn runs<L: Ledger>(
        &self,
        start: &RowSet,
        steps: &mut Steps<L>,
    ) -> Result<Vec<Run>, NoMemory>
        requires { start.now ≡ start_set (rows_in self.now.table) self.now.keep self.now.from }
        ensures runs { IfOk result (λ runs. runs.items ≡ system_runs self.now.plan
            (rows_in self.now.table) self.now.keep self.now.from self.now.to) }
        ensures steps { let rows = rows_in self.now.table in
            let e = place_of rows (self.now.to - 1) - place_of rows self.now.from in
            steps.new ≤ steps.old + (5 * e + 3 * size start.now + words_for (length start.now)
            + 2 * search_steps self.now.table + 1) }
    {
        let is_extreme = self.is_extreme();
        if is_extreme {
            return self.extreme_runs(start, steps);
        }
        let groups = self.groups(start, steps)?;
        let runs = self.runs_of(groups)?;
        Ok(runs)
    }
}
