//! Aggregates over a range of versions, by one worker or by several. Which rows pass is found once,
//! and so is whether these are all rows.
ghost use Rattle.std.specs.Prelude.{◌≡◌, ◌+◌, ◌<◌, ◌≤◌, IfOk};
ghost use Rattle.tl_types.specs.Entries.{commits_of};
ghost use Rattle.tl_types.specs.History.{database_of};
ghost use Rattle.tl_exec.specs.Pieces.{IsAskedOf, asked_runs};
ghost use Rattle.tl_exec.specs.Bounds.{aggregate_steps};

use crate::aggregates::{passing_rows, piece_runs};
use crate::pieces::DividedScan;
use std::alloc::AllocGlobal;
use std::sync::ledger::Ledger;
use std::thread::Threads;
use tl_agg::KeptRows;
use tl_agg::laws::{kept_rows_pass, plans_suit};
use tl_device::Gate;
use tl_index::Snapshot;
use tl_query::{AggPlan, TypedPred};
use tl_types::{NoMemory, Piece, Run, Seq, Steps};

/// What is asked of a table: the runs of a plan over a range of versions, of the rows that pass a
/// predicate.
#[derive(Clone, Copy)]
pub(crate) struct AskedRuns<'a> {
    /// What is aggregated, and by which column the rows are grouped.
    pub(crate) plan: AggPlan,
    /// What the rows pass that are aggregated.
    pub(crate) pred: &'a TypedPred,
    /// The versions, from the first on and before the end.
    pub(crate) range: Piece,
}

/// The runs that are asked for. So many workers divide the range, where they are more than one;
/// else all of the work counts on `steps`. The error is out of memory.
pub(crate) fn range_runs<R: AllocGlobal + Threads + Sync, L: Ledger, G: Gate>(
    rt: &R,
    snapshot: &Snapshot,
    asked: AskedRuns<'_>,
    workers: u32,
    gate: &G,
    steps: &mut Steps<L>,
) -> Result<Seq<Run>, NoMemory>
    requires asked { IsAskedOf (database_of (commits_of snapshot.now)) asked.plan asked.pred.now
        asked.range.to }
    requires some { 0 < workers }
    requires few { workers ≤ 64 }
    ensures runs { IfOk result (λ runs. runs
        ≡ asked_runs (database_of (commits_of snapshot.now)) asked.entry.plan
        asked.entry.pred.now asked.entry.range.from asked.entry.range.to) }
    ensures steps { workers ≡ 1 → steps.new ≤ steps.old + aggregate_steps snapshot.now
        asked.entry.plan.table asked.entry.pred.now asked.entry.range.from
        asked.entry.range.to }
{
    kept_rows_pass();
    plans_suit();
    let _legal = snapshot.has_break(); // says that the entries are legal
    let alloc = rt.alloc();
    let keep = passing_rows(alloc, snapshot, asked.plan.table, asked.pred, steps)?;
    let kept = KeptRows::new(&keep, steps);
    if workers != 1 {
        let scan = DividedScan::new(alloc, snapshot, asked.plan, &kept, asked.range.to);
        return scan.runs_in_pieces(rt, asked.range.from, workers, gate);
    }
    piece_runs(alloc, snapshot, &asked.plan, asked.range, &kept, steps)
}
