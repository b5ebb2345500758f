//! What is kept of a plan when it begins: the rows of its table that stand and pass are found as a
//! set, and come one by one, each into the group that the number of its value leads to. Over all of
//! them at once they are only counted where that is all that is asked, and for a sum or an average
//! their numbers are added by the kernel over lanes. A plan that no query over the table has may
//! not be given.
ghost use Rattle.std.specs.Prelude.{◌≡◌, ◌+◌, ◌*◌, ◌<◌, ◌≤◌, true, Some, None, length, IfOk, IfSome, OnOk};
ghost use Rattle.tl_types.specs.Entries.{commits_of};
ghost use Rattle.tl_types.specs.History.{database_of, rows_of};
ghost use Rattle.tl_types.specs.Plain as plain;
ghost use Rattle.tl_lanes.specs.Masks.{words_for};
ghost use Rattle.tl_store.specs.Reading.{columns_of};
ghost use Rattle.tl_agg.specs.Kept.{picked, size};
ghost use Rattle.tl_travel.specs.Bounds.{events_after_mark, begun_words, map_digits};
ghost use Rattle.tl_filter.specs.Selecting.{IsTypedPredFor};
ghost use Rattle.tl_index.specs.Tables.{rows_in};
ghost use Rattle.tl_watch.specs.Follows.{IsBeginning, rows_begun, IsTaking};
ghost use Rattle.tl_keys.specs.Numbered.{AreNumbered};
ghost use Rattle.tl_watch.specs.Gathering.{row_at, AreOfPlan, GathersRow, IsGathering};
ghost use Rattle.tl_watch.specs.Reading.{IsWithin};
ghost use Rattle.tl_watch.specs.Standings.{standing_rows, tests_in};
ghost use Rattle.tl_watch.specs.States.{Stands};
ghost use Rattle.tl_watch.specs.Sums.{IsCounted, IsSummed};
ghost use Rattle.tl_watch.specs.Watches.{IsOfQuery, StandsOver, start_steps};

use crate::gathering::Gathering;
use crate::plans::WatchPlan;
use crate::row_readers::RowReader;
use crate::states::State;
use crate::sums::set_sum;
use std::alloc::Global;
use std::sync::ledger::Ledger;
use tl_bits::RowSet;
use tl_filter::select_within;
use tl_index::{Snapshot, TimedTable};
use tl_query::AggKind;
use tl_store::Store;
use tl_travel::visible;
use tl_types::{NoMemory, Steps};

// The rows of the plan's table that stand and pass, as a set.
fn standing_set<L: Ledger>(
    alloc: Global,
    snapshot: &Snapshot,
    plan: &WatchPlan,
    steps: &mut Steps<L>,
) -> Result<RowSet, NoMemory>
    requires there { plan.now.table < length (database_of (commits_of snapshot.now)).tables }
    requires typed { IsTypedPredFor (database_of (commits_of snapshot.now))
        plan.now.table plan.now.pred }
    ensures long { IfOk result (λ set. length set
        ≡ length (rows_of (database_of (commits_of snapshot.now)) plan.now.table)) }
    ensures rows { let db = database_of (commits_of snapshot.now) in
        IfOk result (λ set. picked set (rows_of db plan.now.table)
        ≡ standing_rows db plan.now.table plan.now.pred) }
    ensures steps { let db = database_of (commits_of snapshot.now) in
        let e = events_after_mark snapshot.now plan.now.table db.version in
        let w = begun_words db plan.now.table in
        let s = map_digits db plan.now.table in
        steps.new ≤ steps.old + e + w + 2 * s + (tests_in plan.now.pred * w + w) }
{
    let version = snapshot.store().versions();
    let mut set = visible(alloc, snapshot, plan.table, version, steps)?;
    select_within(snapshot, plan.table, &plan.pred, &mut set, steps);
    Ok(set)
}

// A row comes, and is among all. It takes at most one step.
#[inline(always)]
fn take_one<'a, L: Ledger>(
    gathering: &mut Gathering<'a>,
    plan: &WatchPlan,
    reader: &RowReader<'a>,
    id: u32,
    steps: &mut Steps<L>,
) -> Result<(), NoMemory>
    requires by { plan.now.by ≡ None }
    requires plan { AreOfPlan plan.now reader.now }
    requires row { id < length (rows_in reader.now.table) }
    requires kind { gathering.old.kind ≡ plan.now.kind }
    requires numbered { AreNumbered gathering.old.keys gathering.old.state.groups }
    requires taking { IsTaking plan.now gathering.old.state (row_at reader.now id) }
    ensures gathers { OnOk result
        (GathersRow plan.now gathering.old gathering.new (row_at reader.now id)) }
    ensures steps { steps.new ≤ steps.old + 1 }
{
    let number = reader.number(id, steps);
    gathering.enter(number)?;
    Ok(())
}

// A row comes, and is among those of its value. It takes at most two steps.
#[inline(always)]
fn take_by<'a, L: Ledger>(
    gathering: &mut Gathering<'a>,
    plan: &WatchPlan,
    reader: &RowReader<'a>,
    by: u8,
    id: u32,
    steps: &mut Steps<L>,
) -> Result<(), NoMemory>
    requires by { plan.now.by ≡ Some by }
    requires plan { AreOfPlan plan.now reader.now }
    requires column { by < length (columns_of reader.now.table.db reader.now.table.number) }
    requires row { id < length (rows_in reader.now.table) }
    requires kind { gathering.old.kind ≡ plan.now.kind }
    requires numbered { AreNumbered gathering.old.keys gathering.old.state.groups }
    requires taking { IsTaking plan.now gathering.old.state (row_at reader.now id) }
    ensures gathers { OnOk result
        (GathersRow plan.now gathering.old gathering.new (row_at reader.now id)) }
    ensures steps { steps.new ≤ steps.old + 2 }
{
    let number = reader.number(id, steps);
    let key = reader.key(by, id, steps);
    gathering.enter_by(key, number)?;
    Ok(())
}

// A row comes. It takes at most two steps.
#[inline(always)]
fn take_in<'a, L: Ledger>(
    gathering: &mut Gathering<'a>,
    plan: &WatchPlan,
    reader: &RowReader<'a>,
    id: u32,
    steps: &mut Steps<L>,
) -> Result<(), NoMemory>
    requires plan { AreOfPlan plan.now reader.now }
    requires column { IsWithin plan.now.by
        (length (columns_of reader.now.table.db reader.now.table.number)) }
    requires row { id < length (rows_in reader.now.table) }
    requires kind { gathering.old.kind ≡ plan.now.kind }
    requires numbered { AreNumbered gathering.old.keys gathering.old.state.groups }
    requires taking { IsTaking plan.now gathering.old.state (row_at reader.now id) }
    ensures gathers { OnOk result
        (GathersRow plan.now gathering.old gathering.new (row_at reader.now id)) }
    ensures steps { steps.new ≤ steps.old + 2 }
{
    match plan.by {
        None => take_one(gathering, plan, reader, id, steps),
        Some(by) => take_by(gathering, plan, reader, by, id, steps),
    }
}

// The rows of a set come, in order of id. It takes at most three steps for each, and one for each
// begun 64 of rows.
fn take_all<'a, L: Ledger>(
    gathering: &mut Gathering<'a>,
    plan: &WatchPlan,
    reader: &RowReader<'a>,
    set: &RowSet,
    steps: &mut Steps<L>,
) -> Result<(), NoMemory>
    requires plan { AreOfPlan plan.now reader.now }
    requires ready { IsBeginning plan.now reader.now.table.db set.now }
    requires gathers { IsGathering plan.now gathering.old
        (rows_begun plan.now reader.now.table.db set.now 0) }
    ensures gathers { OnOk result (IsGathering plan.now gathering.new
        (picked set.now (rows_of reader.now.table.db plan.now.table))) }
    ensures steps { steps.new
        ≤ steps.old + (3 * size set.now + words_for (length set.now)) }
{
    let mut from = 0;
    'members: while let Some(id) = set.next(from, steps) {
        take_in(gathering, plan, reader, id, steps)?;
        from = id + 1;
    }
    Ok(())
}

// What is kept of the rows of a set, which come one by one. It takes at most three steps for each,
// and one for each begun 64 of rows.
fn gathered<L: Ledger>(
    alloc: Global,
    plan: &WatchPlan,
    table: TimedTable<'_>,
    set: &RowSet,
    steps: &mut Steps<L>,
) -> Result<State, NoMemory>
    requires table { table.number ≡ plan.now.table }
    requires ready { IsBeginning plan.now table.db set.now }
    ensures stands { IfOk result (λ state. Stands plan.now state
        (picked set.now (rows_of table.entry.db plan.now.table))) }
    ensures steps { steps.new
        ≤ steps.old + (3 * size set.now + words_for (length set.now)) }
{
    let reader = RowReader::new(table, plan.column, plan.by);
    let mut gathering = Gathering::none(alloc, plan.kind);
    take_all(&mut gathering, plan, &reader, set, steps)?;
    let state = gathering.into_state()?;
    Ok(state)
}

// Whether the plan asks how many rows there are, of all at once.
fn is_counted(plan: &WatchPlan) -> bool
    ensures { result ≡ true → IsCounted plan.now }
{
    match plan.by {
        Some(_) => false,
        None => match plan.column {
            Some(_) => false,
            None => match plan.kind {
                AggKind::Count => true,
                AggKind::Sum => false,
                AggKind::Avg => false,
                AggKind::Min => false,
                AggKind::Max => false,
            },
        },
    }
}

// What is kept of the rows of a set, where the plan asks how many there are, of all at once. It
// takes a step for each begun 64 of rows.
fn counted<L: Ledger>(alloc: Global, plan: &WatchPlan, set: &RowSet, steps: &mut Steps<L>) -> State
    requires { IsCounted plan.now }
    ensures stands { (db : plain.Database) → IsBeginning plan.now db set.now
        → Stands plan.now result (picked set.now (rows_of db plan.now.table)) }
    ensures steps { steps.new ≡ steps.old + words_for (length set.now) }
{
    let count = set.count(steps);
    State::of_sums(alloc, plan.kind, count, 0)
}

// The column, where the plan asks for the sum or the average of one over all rows at once.
fn summed_column(plan: &WatchPlan) -> Option<u8>
    ensures { IfSome result (IsSummed plan.now) }
{
    match plan.by {
        Some(_) => None,
        None => match plan.kind {
            AggKind::Sum => plan.column,
            AggKind::Avg => plan.column,
            AggKind::Count => None,
            AggKind::Min => None,
            AggKind::Max => None,
        },
    }
}

// What is kept of the rows of a set, where the plan asks for the sum or the average of a column
// over all rows at once. It takes at most three steps for each begun 64 of rows.
fn summed<L: Ledger>(
    alloc: Global,
    plan: &WatchPlan,
    column: u8,
    store: &Store,
    set: &RowSet,
    steps: &mut Steps<L>,
) -> State
    requires ready { IsBeginning plan.now (database_of store.now) set.now }
    requires summed { IsSummed plan.now column }
    ensures stands { Stands plan.now result
        (picked set.now (rows_of (database_of store.now) plan.now.table)) }
    ensures steps { steps.new ≤ steps.old + 3 * words_for (length set.now) }
{
    let count = set.count(steps);
    let sum = set_sum(store, plan.table, column, set, steps);
    State::of_sums(alloc, plan.kind, count, sum)
}

// What is kept of the rows of a set of those that a snapshot shows. It takes at most three steps
// for each of them, and for each begun 64 of rows of the table.
fn state_of<L: Ledger>(
    alloc: Global,
    plan: &WatchPlan,
    snapshot: &Snapshot,
    set: &RowSet,
    steps: &mut Steps<L>,
) -> Result<State, NoMemory>
    requires { IsBeginning plan.now (database_of (commits_of snapshot.now)) set.now }
    ensures stands { IfOk result (λ state. Stands plan.now state
        (picked set.now (rows_of (database_of (commits_of snapshot.now)) plan.now.table))) }
    ensures steps { steps.new
        ≤ steps.old + (3 * size set.now + 3 * words_for (length set.now)) }
{
    if is_counted(plan) {
        return Ok(counted(alloc, plan, set, steps));
    }
    match summed_column(plan) {
        Some(column) => Ok(summed(alloc, plan, column, snapshot.store(), set, steps)),
        None => {
            let table = snapshot.timed(plan.table);
            let state = gathered(alloc, plan, table, set, steps)?;
            Ok(state)
        }
    }
}

/// What is kept of a plan over a snapshot. It takes the steps that it takes to find the rows that
/// stand and pass, and at most three for each of them. The error is `NoMemory`.
pub(crate) fn start<L: Ledger>(
    alloc: Global,
    snapshot: &Snapshot,
    plan: &WatchPlan,
    steps: &mut Steps<L>,
) -> Result<State, NoMemory>
    requires { IsOfQuery plan.now (database_of (commits_of snapshot.now)) }
    ensures stands { IfOk result (λ state. StandsOver (record { plan = plan.now; state = state })
        (database_of (commits_of snapshot.now))) }
    ensures steps { steps.new ≤ steps.old + start_steps snapshot.now plan.now }
{
    let _has_break = snapshot.has_break(); // says that the entries are legal
    let _rows = snapshot.store().rows(plan.table); // says that rows are few
    let set = standing_set(alloc, snapshot, plan, steps)?;
    let state = state_of(alloc, plan, snapshot, &set, steps)?;
    Ok(state)
}
