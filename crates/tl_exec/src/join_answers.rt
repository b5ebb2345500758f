//! The answer to a query for the pairs of rows of two tables that hold at one time: over versions
//! in pieces, over valid time by the events of both sides at one version.
ghost use Rattle.std.specs.Prelude.{◌≡◌, ◌+◌, ◌<◌, ◌≤◌, pos, IfOk, map};
ghost use Rattle.tl_types.specs.Entries.{commits_of};
ghost use Rattle.tl_types.specs.History.{database_of, rows_of};
ghost use Rattle.tl_query.specs.Answers.{answer_of, pair_fields};
ghost use Rattle.tl_query.specs.Joins.{joined_pairs};
ghost use Rattle.tl_query.specs.TypedFor.{IsTypedFor};
ghost use Rattle.tl_query.specs.declared.typed_queries.Span.TheVariants as span;
ghost use Rattle.tl_exec.specs.Bounds.{IsWithinBound};
ghost use Rattle.tl_exec.specs.JoinBounds.{join_steps};
ghost use Rattle.tl_exec.specs.JoinsFor.{IsJoinFor, query_of};

use crate::aggregates::passing_rows;
use crate::joins::{Join, Keeps};
use crate::moment_joins::{JoinedAt, moment_rows};
use crate::shown_pairs::rows_of_pairs;
use std::alloc::AllocGlobal;
use std::sync::ledger::Ledger;
use std::thread::Threads;
use tl_device::Gate;
use tl_index::Snapshot;
use tl_query::{JoinPlan, Span, TypedPred};
use tl_rows::AnswerRows;
use tl_types::{NoMemory, Piece, Steps};

/// What is asked of two tables: the pairs of rows with equal cells in a column of each that hold
/// together at a time of a range, of the rows of each that pass.
#[derive(Clone, Copy)]
pub(crate) struct AskedPairs<'a> {
    /// The left table's number, from 0.
    pub(crate) left: u16,
    /// What the rows of the left table pass.
    pub(crate) left_pred: &'a TypedPred,
    /// The right table's number, from 0.
    pub(crate) right: u16,
    /// What the rows of the right table pass.
    pub(crate) right_pred: &'a TypedPred,
    /// The place, from 0, of the column of the left table that is compared.
    pub(crate) left_on: u8,
    /// The place, from 0, of the column of the right table that is compared.
    pub(crate) right_on: u8,
    /// Versions, or moments of valid time at a version.
    pub(crate) span: Span,
}

/// What is joined: by which plan, over which versions, and which rows of each side.
#[derive(Clone, Copy)]
pub(crate) struct Joined<'a> {
    /// The tables, their columns, and the range.
    pub(crate) plan: JoinPlan,
    /// The versions of the range, which the plan has as moments.
    pub(crate) range: Piece,
    /// What the rows of the left table pass.
    pub(crate) left_pred: &'a TypedPred,
    /// What the rows of the right table pass.
    pub(crate) right_pred: &'a TypedPred,
}

// The pairs of a join over versions, each as a row. The error is out of memory.
fn join_rows<R: AllocGlobal + Threads + Sync, L: Ledger, G: Gate>(
    rt: &R,
    snapshot: &Snapshot,
    joined: Joined<'_>,
    workers: u32,
    gate: &G,
    steps: &mut Steps<L>,
) -> Result<AnswerRows, NoMemory>
    requires join { IsJoinFor (database_of (commits_of snapshot.now)) joined }
    requires some { 0 < workers }
    requires few { workers ≤ 64 }
    ensures rows { let db = database_of (commits_of snapshot.now) in
        let plan = joined.entry.plan in
        let from = joined.entry.range.from in
        let to = joined.entry.range.to in
        IfOk result (λ a. a.rows ≡ map (pair_fields (rows_of db plan.left) (rows_of db plan.right))
        (joined_pairs db plan.left joined.entry.left_pred.now plan.right
        joined.entry.right_pred.now plan.left_on plan.right_on (span.System from to))) }
    ensures steps { let plan = joined.entry.plan in
        let from = joined.entry.range.from in
        let to = joined.entry.range.to in
        workers ≡ 1 → steps.new ≤ steps.old + join_steps snapshot.now plan.left
        joined.entry.left_pred.now plan.right joined.entry.right_pred.now plan.left_on
        plan.right_on from to }
{
    let alloc = rt.alloc();
    let Joined { plan, range, .. } = joined;
    let lefts = passing_rows(alloc, snapshot, plan.left, joined.left_pred, steps)?;
    let rights = passing_rows(alloc, snapshot, plan.right, joined.right_pred, steps)?;
    let keeps = Keeps {
        left: &lefts,
        right: &rights,
    };
    let join = Join::new(alloc, snapshot, plan, range, keeps);
    let pairs = join.pairs(rt, workers, gate, steps)?;
    let rows = rows_of_pairs(alloc, snapshot, &plan, &pairs, steps)?;
    Ok(rows)
}

/// The answer to a query for pairs of rows. Over versions it is made of pieces for so many workers
/// where they are more than one, and then each passes the gate. The error is `NoMemory`.
pub(crate) fn answer_join<R: AllocGlobal + Threads + Sync, L: Ledger, G: Gate>(
    rt: &R,
    snapshot: &Snapshot,
    asked: AskedPairs<'_>,
    workers: u32,
    gate: &G,
    steps: &mut Steps<L>,
) -> Result<AnswerRows, NoMemory>
    requires typed { IsTypedFor (database_of (commits_of snapshot.now)) (query_of asked) }
    requires some { 0 < workers }
    requires few { workers ≤ 64 }
    ensures rows { IfOk result (λ a. a.rows
        ≡ answer_of (database_of (commits_of snapshot.now)) (query_of asked.entry)) }
    ensures steps { IsWithinBound snapshot.now (query_of asked.entry) workers steps.old steps.new }
{
    match asked.span {
        Span::System { from, to } => {
            let plan = JoinPlan {
                left: asked.left,
                right: asked.right,
                left_on: asked.left_on,
                right_on: asked.right_on,
                from: i64::from(from),
                to: i64::from(to),
            };
            let joined = Joined {
                plan,
                range: Piece { from, to },
                left_pred: asked.left_pred,
                right_pred: asked.right_pred,
            };
            join_rows(rt, snapshot, joined, workers, gate, steps)
        }
        Span::Valid { version, from, to } => {
            let plan = JoinPlan {
                left: asked.left,
                right: asked.right,
                left_on: asked.left_on,
                right_on: asked.right_on,
                from,
                to,
            };
            let joined = JoinedAt {
                plan,
                version,
                left_pred: asked.left_pred,
                right_pred: asked.right_pred,
            };
            moment_rows(rt.alloc(), snapshot, joined, steps)
        }
    }
}
