//! The answer to a query for an aggregate over time: over versions by a scan of the timeline, over
//! valid time by the events at one version. What is asked for fits its table.
ghost use Rattle.std.specs.Prelude.{◌≡◌, ◌<◌, ◌≤◌, map, IfOk};
ghost use Rattle.tl_types.specs.Entries.{commits_of};
ghost use Rattle.tl_types.specs.History.{database_of};
ghost use Rattle.tl_query.specs.Answers.{run_fields};
ghost use Rattle.tl_app.specs.Parts.{planned_runs};
ghost use Rattle.tl_exec.specs.Moments.{IsAggFor};
ghost use Rattle.tl_exec.specs.Bounds.{IsAggWithin};

use crate::moments::{AskedMoments, moment_runs};
use crate::ranges::{AskedRuns, range_runs};
use std::alloc::AllocGlobal;
use std::sync::ledger::Ledger;
use std::thread::Threads;
use tl_device::Gate;
use tl_index::Snapshot;
use tl_query::{AggPlan, Span, TypedPred};
use tl_rows::AnswerRows;
use tl_types::{NoMemory, Piece, Run, Seq, Steps};

/// What is asked of a table: the runs of a plan over a range of time, of the rows that pass a
/// predicate.
#[derive(Clone, Copy)]
pub(crate) struct AskedSpan<'a> {
    /// What is aggregated, and by which column the rows are grouped.
    pub(crate) plan: AggPlan,
    /// What the rows pass that are aggregated.
    pub(crate) pred: &'a TypedPred,
    /// Versions, or moments of valid time at a version.
    pub(crate) span: Span,
}

// The runs that are asked for. So many workers divide a range of versions. The error is out of
// memory.
fn span_runs<R: AllocGlobal + Threads + Sync, L: Ledger, G: Gate>(
    rt: &R,
    snapshot: &Snapshot,
    asked: AskedSpan<'_>,
    workers: u32,
    gate: &G,
    steps: &mut Steps<L>,
) -> Result<Seq<Run>, NoMemory>
    requires typed { IsAggFor (database_of (commits_of snapshot.now)) asked.plan asked.pred.now
        asked.span }
    requires some { 0 < workers }
    requires few { workers ≤ 64 }
    ensures runs { IfOk result (λ runs. runs
        ≡ planned_runs (database_of (commits_of snapshot.now)) asked.entry.plan
        asked.entry.pred.now asked.entry.span) }
    ensures steps { IsAggWithin snapshot.now asked.entry.plan.table asked.entry.pred.now
        asked.entry.span workers steps.old steps.new }
{
    let AskedSpan { plan, pred, span } = asked;
    match span {
        Span::System { from, to } => {
            let range = Piece { from, to };
            let asked = AskedRuns { plan, pred, range };
            range_runs(rt, snapshot, asked, workers, gate, steps)
        }
        Span::Valid { version, from, to } => {
            let asked = AskedMoments {
                plan,
                pred,
                version,
                from,
                to,
            };
            moment_runs(rt.alloc(), snapshot, asked, steps)
        }
    }
}

/// The answer to a query for an aggregate. So many workers divide a range of versions where they
/// are more than one, and then each of the pieces passes the gate. The error is `NoMemory`.
pub(crate) fn answer_aggregate<R: AllocGlobal + Threads + Sync, L: Ledger, G: Gate>(
    rt: &R,
    snapshot: &Snapshot,
    asked: AskedSpan<'_>,
    workers: u32,
    gate: &G,
    steps: &mut Steps<L>,
) -> Result<AnswerRows, NoMemory>
    requires typed { IsAggFor (database_of (commits_of snapshot.now)) asked.plan asked.pred.now
        asked.span }
    requires some { 0 < workers }
    requires few { workers ≤ 64 }
    ensures rows { IfOk result (λ a. a.rows
        ≡ map run_fields (planned_runs (database_of (commits_of snapshot.now)) asked.entry.plan
        asked.entry.pred.now asked.entry.span)) }
    ensures steps { IsAggWithin snapshot.now asked.entry.plan.table asked.entry.pred.now
        asked.entry.span workers steps.old steps.new }
{
    let runs = span_runs(rt, snapshot, asked, workers, gate, steps)?;
    Ok(AnswerRows::of_runs(runs))
}
