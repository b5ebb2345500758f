//! Aggregates over the versions of a table, of the rows that pass a predicate: which rows are kept,
//! which of these stand where a piece begins, and the runs over the piece.
ghost use Rattle.std.specs.Prelude.{◌≡◌, None, ◌+◌, ◌-◌, ◌*◌, ◌<◌, ◌≤◌, IfOk, length, map};
ghost use Rattle.tl_types.specs.Entries.{commits_of};
ghost use Rattle.tl_types.specs.History.{database_of, rows_of};
ghost use Rattle.tl_query.specs.Passing.{passes};
ghost use Rattle.tl_travel.specs.Bounds.{events_after_mark, begun_words, map_digits};
ghost use Rattle.tl_filter.specs.Selecting.{tests_in, IsTypedPredFor};
ghost use Rattle.tl_agg.specs.Kept.{size};
ghost use Rattle.tl_agg.specs.Runs.{start_set, system_runs};
ghost use Rattle.tl_exec.specs.Pieces.{CanScan};
ghost use Rattle.tl_exec.specs.Bounds.{events_inside};

use crate::sets::meet;
use std::alloc::Global;
use std::sync::ledger::Ledger;
use tl_agg::KeptRows;
use tl_bits::RowSet;
use tl_filter::select;
use tl_index::Snapshot;
use tl_query::{AggPlan, TypedPred};
use tl_travel::visible;
use tl_types::{NoMemory, Piece, Run, Seq, Steps};

/// The rows of a table that pass a predicate, visible or not. It takes at most a step for each test
/// and each begun 64 of rows. The error is out of memory.
pub(crate) fn passing_rows<L: Ledger>(
    alloc: Global,
    snapshot: &Snapshot,
    table: u16,
    pred: &TypedPred,
    steps: &mut Steps<L>,
) -> Result<RowSet, NoMemory>
    requires table { table < length (database_of (commits_of snapshot.now)).tables }
    requires typed { IsTypedPredFor (database_of (commits_of snapshot.now)) table pred.now }
    ensures set { IfOk result (λ set. set ≡ map (passes pred.now)
        (rows_of (database_of (commits_of snapshot.now)) table)) }
    ensures few { IfOk result (λ set. length set ≤ 16777216) }
    ensures steps { steps.new ≤ steps.old
        + tests_in pred.now * begun_words (database_of (commits_of snapshot.now)) table }
{
    let mut passing = RowSet::none(alloc, snapshot.store().rows(table))?;
    select(snapshot, table, pred, &mut passing, steps);
    Ok(passing)
}

// The kept rows that are visible at a version. The error is out of memory.
fn start_set<L: Ledger>(
    alloc: Global,
    snapshot: &Snapshot,
    table: u16,
    version: u32,
    keep: &RowSet,
    steps: &mut Steps<L>,
) -> Result<RowSet, NoMemory>
    requires table { table < length (database_of (commits_of snapshot.now)).tables }
    requires version { version ≤ (database_of (commits_of snapshot.now)).version }
    requires keep { length keep.now
        ≡ length (rows_of (database_of (commits_of snapshot.now)) table) }
    requires few { length keep.now ≤ 16777216 }
    ensures set { IfOk result (λ set. set
        ≡ start_set (rows_of (database_of (commits_of snapshot.now)) table) keep.now version) }
    ensures steps { let db = database_of (commits_of snapshot.now) in
        let e = events_after_mark snapshot.now table version in
        let w = begun_words db table in
        let s = map_digits db table in
        steps.new ≤ steps.old + e + 3 * w + 2 * s }
{
    let mut set = visible(alloc, snapshot, table, version, steps)?;
    meet(&mut set, keep, steps);
    Ok(set)
}

/// The maximal runs of a plan over the versions of a piece, of the rows that are kept, which were
/// counted before. The error is out of memory.
pub(crate) fn piece_runs<L: Ledger>(
    alloc: Global,
    snapshot: &Snapshot,
    plan: &AggPlan,
    piece: Piece,
    keep: &KeptRows<'_>,
    steps: &mut Steps<L>,
) -> Result<Seq<Run>, NoMemory>
    requires scan { CanScan snapshot.now plan.now keep.now piece.to }
    ensures runs { IfOk result (λ runs. runs ≡ system_runs plan.now
        (rows_of (database_of (commits_of snapshot.now)) plan.now.table) keep.now
        piece.from piece.to) }
    ensures steps { let db = database_of (commits_of snapshot.now) in
        let e0 = events_after_mark snapshot.now plan.now.table piece.from in
        let e = events_inside db plan.now.table piece.from piece.to in
        let r = size (start_set (rows_of db plan.now.table) keep.now piece.from) in
        let w = begun_words db plan.now.table in
        let s = map_digits db plan.now.table in
        steps.new ≤ steps.old + (e0 + 5 * e + 3 * r + 4 * w + 4 * s + 2) }
{
    let rows = keep.rows();
    let start = start_set(alloc, snapshot, plan.table, piece.from, rows, steps)?;
    keep.aggregate(alloc, snapshot, plan, piece, &start, steps)
}
