//! Joins over valid time at a version, by the events of both sides there. Both tables have valid
//! periods; a version that is not there is refused.
ghost use Rattle.std.specs.Prelude.{◌≡◌, ◌+◌, ◌≤◌, IfOk, map};
ghost use Rattle.tl_types.specs.Entries.{commits_of};
ghost use Rattle.tl_types.specs.History.{database_of, rows_of};
ghost use Rattle.tl_query.specs.Answers.{pair_fields};
ghost use Rattle.tl_query.specs.Joins.{joined_pairs};
ghost use Rattle.tl_query.specs.declared.typed_queries.Span.TheVariants as span;
ghost use Rattle.tl_exec.specs.Bounds.{valid_pairs_steps, valid_join_steps};
ghost use Rattle.tl_exec.specs.JoinsFor.{IsJoinAtFor};

use crate::aggregates::passing_rows;
use crate::shown_pairs::rows_of_pairs;
use std::alloc::Global;
use std::sync::ledger::Ledger;
use tl_app::valid_events;
use tl_index::Snapshot;
use tl_join::valid_join;
use tl_query::{JoinPlan, TypedPred};
use tl_rows::AnswerRows;
use tl_types::{NoMemory, Pair, Seq, Steps};

/// What is joined: by which plan, whose range is one of valid time, at which version, and which
/// rows of each side.
#[derive(Clone, Copy)]
pub(crate) struct JoinedAt<'a> {
    /// The tables, their columns, and the range.
    pub(crate) plan: JoinPlan,
    /// The version at which the rows of both sides are visible.
    pub(crate) version: u32,
    /// What the rows of the left table pass.
    pub(crate) left_pred: &'a TypedPred,
    /// What the rows of the right table pass.
    pub(crate) right_pred: &'a TypedPred,
}

// The pairs of a join over valid time. The error is out of memory.
fn moment_pairs<L: Ledger>(
    alloc: Global,
    snapshot: &Snapshot,
    joined: JoinedAt<'_>,
    steps: &mut Steps<L>,
) -> Result<Seq<Pair>, NoMemory>
    requires join { IsJoinAtFor (database_of (commits_of snapshot.now)) joined }
    ensures pairs { let db = database_of (commits_of snapshot.now) in
        let plan = joined.entry.plan in
        IfOk result (λ pairs. pairs ≡ joined_pairs db plan.left joined.entry.left_pred.now
        plan.right joined.entry.right_pred.now plan.left_on plan.right_on
        (span.Valid joined.entry.version plan.from plan.to)) }
    ensures steps { let plan = joined.entry.plan in
        steps.new ≤ steps.old + valid_pairs_steps snapshot.now plan.left
        joined.entry.left_pred.now plan.right joined.entry.right_pred.now joined.entry.version }
{
    let JoinedAt { plan, version, .. } = joined;
    let left_keep = passing_rows(alloc, snapshot, plan.left, joined.left_pred, steps)?;
    let right_keep = passing_rows(alloc, snapshot, plan.right, joined.right_pred, steps)?;
    let lefts = valid_events(alloc, snapshot, plan.left, version, steps)?;
    let rights = valid_events(alloc, snapshot, plan.right, version, steps)?;
    valid_join(
        alloc,
        snapshot,
        &plan,
        &lefts,
        &left_keep,
        &rights,
        &right_keep,
        steps,
    )
}

/// The pairs of a join over valid time, each as a row of an answer. All of the work counts on
/// `steps`. The error is out of memory.
pub(crate) fn moment_rows<L: Ledger>(
    alloc: Global,
    snapshot: &Snapshot,
    joined: JoinedAt<'_>,
    steps: &mut Steps<L>,
) -> Result<AnswerRows, NoMemory>
    requires join { IsJoinAtFor (database_of (commits_of snapshot.now)) joined }
    ensures rows { let db = database_of (commits_of snapshot.now) in
        let plan = joined.entry.plan in
        IfOk result (λ a. a.rows ≡ map (pair_fields (rows_of db plan.left) (rows_of db plan.right))
        (joined_pairs db plan.left joined.entry.left_pred.now plan.right
        joined.entry.right_pred.now plan.left_on plan.right_on
        (span.Valid joined.entry.version plan.from plan.to))) }
    ensures steps { let plan = joined.entry.plan in
        steps.new ≤ steps.old + valid_join_steps snapshot.now plan.left
        joined.entry.left_pred.now plan.right joined.entry.right_pred.now plan.left_on
        plan.right_on joined.entry.version plan.from plan.to }
{
    let plan = joined.plan;
    let pairs = moment_pairs(alloc, snapshot, joined, steps)?;
    let rows = rows_of_pairs(alloc, snapshot, &plan, &pairs, steps)?;
    Ok(rows)
}
