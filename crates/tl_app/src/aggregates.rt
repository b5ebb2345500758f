//! Aggregates over valid time: the events of the rows that are kept, in order, and the maximal runs
//! that one scan of them gives, of all rows together or of each group.
ghost use Rattle.std.specs.Prelude.{◌≡◌, ℕ, ◌+◌, ◌-◌, ◌*◌, ◌≤◌, ◌<ℤ◌, Some, None, length, map, IfOk};
ghost use Rattle.tl_types.specs.Entries.{commits_of};
ghost use Rattle.tl_types.specs.Checkpoints.{valid_events_in, AreEventsOf};
ghost use Rattle.tl_types.specs.History.{database_of, rows_of};
ghost use Rattle.tl_types.specs.Events.{place_of};
ghost use Rattle.tl_events.specs.Timeline.{ends_of, binary_digits};
ghost use Rattle.tl_lanes.specs.Masks.{words_for};
ghost use Rattle.tl_index.specs.Snapshots.{mark_before};
ghost use Rattle.tl_query.specs.Passing.{passes};
ghost use Rattle.tl_query.specs.declared.typed_queries.Span.TheVariants as span;
ghost use Rattle.tl_query.specs.declared.typed_queries.TypedPred.{TypedPred};
ghost use Rattle.tl_app.specs.Parts.{ArePlanned, IsPart, kept_events, planned_runs};
ghost use Rattle.tl_app.specs.Scans.{IsValidTimePlanFor, plan_rows};

use crate::groups::{KeyGroups, runs_of_groups};
use crate::kept::{events_kept_at, kept_events};
use crate::keyed::{KeyColumn, groups_of};
use crate::scans::{ValidScan, scanned_runs};
use std::alloc::Global;
use std::sync::ledger::Ledger;
use tl_bits::RowSet;
use tl_ckpt::ValidEvents;
use tl_index::Snapshot;
use tl_query::AggPlan;
use tl_store::Store;
use tl_types::{NoMemory, Run, Seq, Steps, ValidEvent};

// The events of the rows that are kept.
fn list_kept<L: Ledger>(
    alloc: Global,
    store: &Store,
    plan: &AggPlan,
    events: &ValidEvents,
    keep: &RowSet,
    steps: &mut Steps<L>,
) -> Result<Vec<ValidEvent>, NoMemory>
    requires events { AreEventsOf (plan_rows store.now plan.now) events.now }
    requires keep { length keep.now ≡ length (plan_rows store.now plan.now) }
    ensures list { IfOk result (λ list. list.items ≡ kept_events keep.now events.now) }
    ensures steps { steps.new ≤ steps.old + length events.now }
{
    let list = events.list(alloc)?;
    Ok(kept_events(list, keep, steps))
}

// The runs of all kept rows together.
fn runs_of_all<L: Ledger>(
    alloc: Global,
    scan: &ValidScan<'_>,
    from: i64,
    to: i64,
    steps: &mut Steps<L>,
) -> Result<Vec<Run>, NoMemory>
    requires plan { IsValidTimePlanFor (database_of scan.now.store.now) scan.now.plan.now }
    requires events { IsPart (plan_rows scan.now.store.now scan.now.plan.now)
        scan.now.events.now }
    requires together { scan.now.plan.now.by ≡ None }
    ensures runs { IfOk result (λ runs. ArePlanned (database_of scan.now.store.now)
        scan.now.plan.now scan.now.events.now from to runs.items) }
    ensures steps { steps.new ≤ steps.old + 2 * length scan.now.events.now }
{
    let runs = scanned_runs(alloc, scan, from, to, steps)?;
    Ok(runs)
}

// The runs of each group of kept rows, which a column separates.
fn runs_by<L: Ledger>(
    alloc: Global,
    scan: &ValidScan<'_>,
    by: u8,
    from: i64,
    to: i64,
    steps: &mut Steps<L>,
) -> Result<Vec<Run>, NoMemory>
    requires plan { IsValidTimePlanFor (database_of scan.now.store.now) scan.now.plan.now }
    requires events { IsPart (plan_rows scan.now.store.now scan.now.plan.now)
        scan.now.events.now }
    requires by { scan.now.plan.now.by ≡ Some by }
    ensures runs { IfOk result (λ runs. ArePlanned (database_of scan.now.store.now)
        scan.now.plan.now scan.now.events.now from to runs.items) }
    ensures steps { steps.new ≤ steps.old + 3 * length scan.now.events.now }
{
    let column = KeyColumn {
        store: scan.store,
        table: scan.plan.table,
        column: by,
    };
    let _ = scan.store.rows(scan.plan.table); // says that rows are few
    let groups_of_events = groups_of(alloc, &column, scan.events, steps)?;
    let groups = KeyGroups {
        store: scan.store,
        plan: scan.plan,
        groups: groups_of_events.as_slice(),
        events: scan.events.len(),
    };
    let runs = runs_of_groups(alloc, &groups, from, to, steps)?;
    Ok(runs)
}

// The runs that the plan asks for.
fn runs_of_plan<L: Ledger>(
    alloc: Global,
    scan: &ValidScan<'_>,
    from: i64,
    to: i64,
    steps: &mut Steps<L>,
) -> Result<Vec<Run>, NoMemory>
    requires plan { IsValidTimePlanFor (database_of scan.now.store.now) scan.now.plan.now }
    requires events { IsPart (plan_rows scan.now.store.now scan.now.plan.now)
        scan.now.events.now }
    ensures runs { IfOk result (λ runs. ArePlanned (database_of scan.now.store.now)
        scan.now.plan.now scan.now.events.now from to runs.items) }
    ensures steps { steps.new ≤ steps.old + 3 * length scan.now.events.now }
{
    match scan.plan.by {
        Some(by) => runs_by(alloc, scan, by, from, to, steps),
        None => runs_of_all(alloc, scan, from, to, steps),
    }
}

/// The maximal runs of an aggregate over the moments from `from` on and before `to` of valid time,
/// of the rows that are in `keep`, at the version of which `events` are the events of valid time;
/// separated by a column, those of each value that the column has, in order, where they have a row.
/// The plan is one for a table of the snapshot whose rows have valid periods.
///
/// It takes at most four steps for each event, and two more, also where it fails. The error is
/// `NoMemory`.
pub fn valid_runs<L: Ledger>(
    alloc: Global,
    snapshot: &Snapshot,
    plan: &AggPlan,
    from: i64,
    to: i64,
    events: &ValidEvents,
    keep: &RowSet,
    steps: &mut Steps<L>,
) -> Result<Seq<Run>, NoMemory>
    requires plan { IsValidTimePlanFor (database_of (commits_of snapshot.now)) plan.now }
    requires some { from <ℤ to }
    requires events { AreEventsOf (plan_rows (commits_of snapshot.now) plan.now) events.now }
    requires keep { length keep.now ≡ length (plan_rows (commits_of snapshot.now) plan.now) }
    ensures runs { (pred : TypedPred) (version : ℕ)
        → keep.now ≡ map (passes pred) (plan_rows (commits_of snapshot.now) plan.now)
        → events.now ≡ valid_events_in (plan_rows (commits_of snapshot.now) plan.now) version
        → IfOk result (λ runs. runs ≡ planned_runs (database_of (commits_of snapshot.now))
        plan.now pred (span.Valid version from to)) }
    ensures steps { steps.new ≤ steps.old + (4 * length events.now + 2) }
{
    let store = snapshot.store();
    let kept = list_kept(alloc, store, plan, events, keep, steps)?;
    let scan = ValidScan {
        store,
        plan,
        events: kept.as_slice(),
    };
    let runs = runs_of_plan(alloc, &scan, from, to, steps)?;
    Ok(Seq::from_vec(runs))
}

/// The maximal runs of an aggregate by a plan over the moments from `from` on and before `to` of
/// valid time, at a version, of the rows that are in `keep`, which has a bit for each row of the
/// plan's table; separated by a column, those of each value that the column has, in order, where
/// they have a row. The version is not after the snapshot's, and `from` is before `to`. The events
/// of rows that are not in `keep` are left out before the others are put in order, so no list of
/// all is made.
///
/// With e events from the version of the nearest mark that is not after it up to this one, w begun
/// 64s of rows, as many versions with events, and one more, as a number of s binary digits tells,
/// and n events of valid time at the version, it takes at most 3e + w + s + 3n steps, also where it
/// fails. The error is `NoMemory`.
pub fn valid_runs_at<L: Ledger>(
    alloc: Global,
    snapshot: &Snapshot,
    plan: &AggPlan,
    version: u32,
    from: i64,
    to: i64,
    keep: &RowSet,
    steps: &mut Steps<L>,
) -> Result<Seq<Run>, NoMemory>
    requires plan { IsValidTimePlanFor (database_of (commits_of snapshot.now)) plan.now }
    requires version { version ≤ (database_of (commits_of snapshot.now)).version }
    requires some { from <ℤ to }
    requires keep { length keep.now ≡ length (plan_rows (commits_of snapshot.now) plan.now) }
    ensures runs { (pred : TypedPred)
        → keep.now ≡ map (passes pred) (plan_rows (commits_of snapshot.now) plan.now)
        → IfOk result (λ runs. runs ≡ planned_runs (database_of (commits_of snapshot.now))
        plan.now pred (span.Valid version from to)) }
    ensures steps { let db = database_of (commits_of snapshot.now) in
        let table = plan.now.table in
        let rows = rows_of db table in
        let e = place_of rows version - place_of rows (mark_before snapshot.now table version) in
        let w = words_for (length rows) in
        let s = binary_digits (length (ends_of rows db.version) + 1) in
        let n = length (valid_events_in rows version) in
        steps.new ≤ steps.old + (3 * e + w + s + 3 * n) }
{
    let store = snapshot.store();
    let kept = events_kept_at(alloc, snapshot, plan.table, version, keep, steps)?;
    let scan = ValidScan {
        store,
        plan,
        events: kept.as_slice(),
    };
    let runs = runs_of_plan(alloc, &scan, from, to, steps)?;
    Ok(Seq::from_vec(runs))
}
