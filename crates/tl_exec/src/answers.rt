//! The answer to a query over a snapshot, by its kind. It is the answer of the definition for every
//! number of workers; a query that was not checked for the store of the snapshot is refused.
ghost use Rattle.std.specs.Prelude.{◌≡◌, ◌<◌, ◌≤◌, ℕ, IfOk};
ghost use Rattle.tl_types.specs.Entries.{commits_of};
ghost use Rattle.tl_types.specs.History.{database_of};
ghost use Rattle.tl_query.specs.Answers.{answer_of};
ghost use Rattle.tl_query.specs.TypedFor.{IsTypedFor};
ghost use Rattle.tl_exec.specs.Bounds.{IsWithinBound};
ghost use Rattle.tl_exec.specs.Kinds.{IsSelect, IsAgg, IsJoin};

use crate::aggregate_answers::{AskedSpan, answer_aggregate};
use crate::join_answers::{AskedPairs, answer_join};
use crate::selects::{AskedFields, select_fields};
use std::alloc::{AllocGlobal, Global};
use std::sync::ledger::Ledger;
use std::thread::Threads;
use tl_device::Gate;
use tl_index::Snapshot;
use tl_query::{AggPlan, Typed};
use tl_rows::AnswerRows;
use tl_types::{NoMemory, Steps};

// The answer to a SELECT. The error is out of memory.
fn answer_select<L: Ledger>(
    alloc: Global,
    snapshot: &Snapshot,
    query: &Typed,
    steps: &mut Steps<L>,
) -> Result<AnswerRows, NoMemory>
    requires select { IsSelect query.now }
    requires typed { IsTypedFor (database_of (commits_of snapshot.now)) query.now }
    ensures rows { IfOk result
        (λ a. a.rows ≡ answer_of (database_of (commits_of snapshot.now)) query.now) }
    ensures steps { (workers : ℕ)
        → IsWithinBound snapshot.now query.now workers steps.old steps.new }
{
    let Typed::Select {
        table,
        items,
        pred,
        valid_at,
        version,
    } = query
    else {
        unreachable!()
    };
    let asked = AskedFields {
        store: snapshot.store(),
        table: *table,
        items: items.as_slice(),
        valid_at: *valid_at,
    };
    select_fields(alloc, snapshot, asked, pred, *version, steps)
}

// The answer to a query for an aggregate. The error is out of memory.
fn answer_runs<R: AllocGlobal + Threads + Sync, L: Ledger, G: Gate>(
    rt: &R,
    snapshot: &Snapshot,
    query: &Typed,
    workers: u32,
    gate: &G,
    steps: &mut Steps<L>,
) -> Result<AnswerRows, NoMemory>
    requires agg { IsAgg query.now }
    requires typed { IsTypedFor (database_of (commits_of snapshot.now)) query.now }
    requires some { 0 < workers }
    requires few { workers ≤ 64 }
    ensures rows { IfOk result
        (λ a. a.rows ≡ answer_of (database_of (commits_of snapshot.now)) query.now) }
    ensures steps { IsWithinBound snapshot.now query.now workers steps.old steps.new }
{
    let Typed::Agg {
        table,
        kind,
        column,
        by,
        pred,
        span,
    } = query
    else {
        unreachable!()
    };
    let plan = AggPlan {
        table: *table,
        kind: *kind,
        column: *column,
        by: *by,
    };
    let asked = AskedSpan {
        plan,
        pred,
        span: *span,
    };
    answer_aggregate(rt, snapshot, asked, workers, gate, steps)
}

// The answer to a query for the pairs of a join. The error is out of memory.
fn answer_pairs<R: AllocGlobal + Threads + Sync, L: Ledger, G: Gate>(
    rt: &R,
    snapshot: &Snapshot,
    query: &Typed,
    workers: u32,
    gate: &G,
    steps: &mut Steps<L>,
) -> Result<AnswerRows, NoMemory>
    requires join { IsJoin query.now }
    requires typed { IsTypedFor (database_of (commits_of snapshot.now)) query.now }
    requires some { 0 < workers }
    requires few { workers ≤ 64 }
    ensures rows { IfOk result
        (λ a. a.rows ≡ answer_of (database_of (commits_of snapshot.now)) query.now) }
    ensures steps { IsWithinBound snapshot.now query.now workers steps.old steps.new }
{
    let Typed::Join {
        left,
        left_pred,
        right,
        right_pred,
        left_on,
        right_on,
        span,
    } = query
    else {
        unreachable!()
    };
    let asked = AskedPairs {
        left: *left,
        left_pred,
        right: *right,
        right_pred,
        left_on: *left_on,
        right_on: *right_on,
        span: *span,
    };
    answer_join(rt, snapshot, asked, workers, gate, steps)
}

/// The answer to a query over the tables of a snapshot, for whose store the query was checked. It
/// is the same for every number of workers. `workers`, from 1 to 64, is the number of threads that
/// may share the work; where they are more than one, each of the pieces that they divide it into
/// passes the gate. A SELECT is not divided, nor is what is asked over valid time. Work that is not
/// divided counts on `steps`. The error is `NoMemory`.
pub fn answer<R: AllocGlobal + Threads + Sync, L: Ledger, G: Gate>(
    rt: &R,
    snapshot: &Snapshot,
    query: &Typed,
    workers: u32,
    gate: &G,
    steps: &mut Steps<L>,
) -> Result<AnswerRows, NoMemory>
    requires typed { IsTypedFor (database_of (commits_of snapshot.now)) query.now }
    requires some { 0 < workers }
    requires few { workers ≤ 64 }
    ensures rows { IfOk result
        (λ a. a.rows ≡ answer_of (database_of (commits_of snapshot.now)) query.now) }
    ensures steps { IsWithinBound snapshot.now query.now workers steps.old steps.new }
{
    match query {
        Typed::Select { .. } => answer_select(rt.alloc(), snapshot, query, steps),
        Typed::Agg { .. } => answer_runs(rt, snapshot, query, workers, gate, steps),
        Typed::Join { .. } => answer_pairs(rt, snapshot, query, workers, gate, steps),
    }
}
