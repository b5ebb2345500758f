//! Aggregates over a range of valid time at a version, of the rows that pass a predicate. The table
//! has valid periods; a version that is not there is refused.
ghost use Rattle.std.specs.Prelude.{◌≡◌, ◌+◌, ◌≤◌, IfOk};
ghost use Rattle.tl_types.specs.Entries.{commits_of};
ghost use Rattle.tl_types.specs.History.{database_of};
ghost use Rattle.tl_query.specs.declared.typed_queries.Span.TheVariants as span;
ghost use Rattle.tl_app.specs.Parts.{planned_runs};
ghost use Rattle.tl_exec.specs.Moments.{IsAskedAt};
ghost use Rattle.tl_exec.specs.Bounds.{valid_steps};

use crate::aggregates::passing_rows;
use std::alloc::Global;
use std::sync::ledger::Ledger;
use tl_app::valid_runs_at;
use tl_index::Snapshot;
use tl_query::{AggPlan, TypedPred};
use tl_types::{NoMemory, Run, Seq, Steps};

/// What is asked of a table: the runs of a plan over a range of valid time at a version, of the
/// rows that pass a predicate.
#[derive(Clone, Copy)]
pub(crate) struct AskedMoments<'a> {
    /// What is aggregated, and by which column the rows are grouped.
    pub(crate) plan: AggPlan,
    /// What the rows pass that are aggregated.
    pub(crate) pred: &'a TypedPred,
    /// The version at which the rows are visible.
    pub(crate) version: u32,
    /// The first moment of the range.
    pub(crate) from: i64,
    /// The moment that ends the range.
    pub(crate) to: i64,
}

/// The runs that are asked for. All of the work counts on `steps`. The error is out of memory.
pub(crate) fn moment_runs<L: Ledger>(
    alloc: Global,
    snapshot: &Snapshot,
    asked: AskedMoments<'_>,
    steps: &mut Steps<L>,
) -> Result<Seq<Run>, NoMemory>
    requires asked { IsAskedAt (database_of (commits_of snapshot.now)) asked.plan asked.pred.now
        asked.version asked.from asked.to }
    ensures runs { IfOk result (λ runs. runs
        ≡ planned_runs (database_of (commits_of snapshot.now)) asked.entry.plan
        asked.entry.pred.now
        (span.Valid asked.entry.version asked.entry.from asked.entry.to)) }
    ensures steps { steps.new ≤ steps.old + valid_steps snapshot.now asked.entry.plan.table
        asked.entry.pred.now asked.entry.version }
{
    let AskedMoments {
        plan,
        version,
        from,
        to,
        ..
    } = asked;
    let keep = passing_rows(alloc, snapshot, plan.table, asked.pred, steps)?;
    valid_runs_at(alloc, snapshot, &plan, version, from, to, &keep, steps)
}
