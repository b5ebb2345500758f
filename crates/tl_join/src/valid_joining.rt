//! Joins over a range of valid time: the entries of both sides, and the pairs that a walk over them
//! finds, in order. Keys have one number for both sides.
ghost use Rattle.std.specs.Prelude.{◌≡◌, ℕ, ◌+◌, ◌*◌, ◌<◌, ◌≤◌, IsTrue, length, map, IfOk};
ghost use Rattle.tl_types.specs.Checkpoints.{valid_events_in, AreEventsOf};
ghost use Rattle.tl_types.specs.Entries.{commits_of};
ghost use Rattle.tl_types.specs.History.{database_of, rows_of};
ghost use Rattle.tl_query.specs.Joins.{joined_pairs};
ghost use Rattle.tl_query.specs.Passing.{passes};
ghost use Rattle.tl_query.specs.declared.typed_queries.Span.TheVariants as span;
ghost use Rattle.tl_query.specs.declared.typed_queries.TypedPred.{TypedPred};
ghost use Rattle.tl_store.specs.Reading.{columns_of, has_periods};

use crate::sweeping::swept_pairs;
use crate::valid_sides::{side_entries, side_of};
use std::alloc::Global;
use std::sync::ledger::Ledger;
use tl_bits::RowSet;
use tl_ckpt::ValidEvents;
use tl_index::Snapshot;
use tl_keys::Keys;
use tl_query::JoinPlan;
use tl_types::{NoMemory, Pair, Seq, Steps};

/// The pairs of a join of two tables over the plan's range of valid time: the left and right rows
/// that stand at a version, pass their side's predicate and have equal cells in the plan's columns,
/// each pair with the moments that both valid periods and the range have in common, where there are
/// any; in order of their first moments, left ids and right ids. `left` and `right` are the events
/// of valid time of the two tables at the version, and `left_keep` and `right_keep` the rows that
/// pass; each set has its table's number of rows.
///
/// It takes at most four steps for each event of both tables, and two more, also where it fails.
/// The error is `NoMemory`.
pub fn valid_join<L: Ledger>(
    alloc: Global,
    snapshot: &Snapshot,
    plan: &JoinPlan,
    left: &ValidEvents,
    left_keep: &RowSet,
    right: &ValidEvents,
    right_keep: &RowSet,
    steps: &mut Steps<L>,
) -> Result<Seq<Pair>, NoMemory>
    requires left_table { IsTrue
        (has_periods (database_of (commits_of snapshot.now)) plan.now.left) }
    requires right_table { IsTrue
        (has_periods (database_of (commits_of snapshot.now)) plan.now.right) }
    requires left_column { plan.now.left_on
        < length (columns_of (database_of (commits_of snapshot.now)) plan.now.left) }
    requires right_column { plan.now.right_on
        < length (columns_of (database_of (commits_of snapshot.now)) plan.now.right) }
    requires left_events { AreEventsOf
        (rows_of (database_of (commits_of snapshot.now)) plan.now.left) left.now }
    requires right_events { AreEventsOf
        (rows_of (database_of (commits_of snapshot.now)) plan.now.right) right.now }
    requires left_keep { length left_keep.now
        ≡ length (rows_of (database_of (commits_of snapshot.now)) plan.now.left) }
    requires right_keep { length right_keep.now
        ≡ length (rows_of (database_of (commits_of snapshot.now)) plan.now.right) }
    ensures pairs { let db = database_of (commits_of snapshot.now) in
        (left_pred right_pred : TypedPred) (version : ℕ)
        → left_keep.now ≡ map (passes left_pred) (rows_of db plan.now.left)
        → right_keep.now ≡ map (passes right_pred) (rows_of db plan.now.right)
        → left.now ≡ valid_events_in (rows_of db plan.now.left) version
        → right.now ≡ valid_events_in (rows_of db plan.now.right) version
        → IfOk result (λ pairs. pairs ≡ joined_pairs db plan.now.left left_pred plan.now.right
        right_pred plan.now.left_on plan.now.right_on
        (span.Valid version plan.now.from plan.now.to)) }
    ensures steps { steps.new
        ≤ steps.old + (4 * (length left.now + length right.now) + 2) }
{
    let left_side = side_of(snapshot, plan.left, plan.left_on, left_keep);
    let right_side = side_of(snapshot, plan.right, plan.right_on, right_keep);
    let mut keys = Keys::none(alloc);
    let lefts = side_entries(alloc, &left_side, plan, left, &mut keys, steps)?;
    let rights = side_entries(alloc, &right_side, plan, right, &mut keys, steps)?;
    let pairs = swept_pairs(alloc, &lefts, &rights, keys.count(), plan.from)?;
    Ok(Seq::from_vec(pairs))
}
