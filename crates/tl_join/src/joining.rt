//! Joins over a piece of the versions: the pairs that begin in it, in order. A pair that begins in
//! an earlier piece is left out, so the pairs of pieces that follow on each other are those of the
//! whole.
ghost use Rattle.std.specs.Prelude.{◌≡◌, ◌+◌, ◌<◌, ◌≤◌, ◌≤ℤ◌, ℕ, pos, length, IfOk};
ghost use Rattle.tl_types.specs.Entries.{commits_of};
ghost use Rattle.tl_types.specs.History.{database_of, rows_of};
ghost use Rattle.tl_query.specs.declared.typed_queries.TypedPred.{TypedPred};
ghost use Rattle.tl_store.specs.Reading.{columns_of};
ghost use Rattle.tl_join.specs.Pieces.{AreOf, AreOfSome, pairs_in};
ghost use Rattle.tl_join.specs.There.{side_bound};

use crate::sides::{side_entries, side_of};
use crate::sweeping::swept_pairs;
use std::alloc::Global;
use std::sync::ledger::Ledger;
use tl_bits::RowSet;
use tl_index::Snapshot;
use tl_keys::Keys;
use tl_query::JoinPlan;
use tl_types::{NoMemory, Pair, Piece, Seq, Steps};

/// The pairs of a join over the versions of two tables that begin in a piece of them, each with its
/// whole common part with the plan's range, in order of their first versions, left ids and right
/// ids. `left_keep` and `right_keep` are the rows that pass each side's predicate, and the start
/// sets those of them that stand at the piece's first version; each set has its table's number of
/// rows. A side takes at most five steps for each event of a version behind the piece's first one
/// and before its end, four for each row of its start set, two for each begun 64 of rows, two
/// searches among the versions that have events, and two more. The error is `NoMemory`.
#[tactic(auto, using(crate::proofs::JoinLemmas::ready, crate::proofs::JoinLemmas::part_found))]
pub fn join_piece<L: Ledger>(
    alloc: Global,
    snapshot: &Snapshot,
    plan: &JoinPlan,
    piece: Piece,
    left_start: &RowSet,
    left_keep: &RowSet,
    right_start: &RowSet,
    right_keep: &RowSet,
    steps: &mut Steps<L>,
) -> Result<Seq<Pair>, NoMemory>
    requires left_table { plan.now.left
        < length (database_of (commits_of snapshot.now)).tables }
    requires right_table { plan.now.right
        < length (database_of (commits_of snapshot.now)).tables }
    requires left_column { plan.now.left_on
        < length (columns_of (database_of (commits_of snapshot.now)) plan.now.left) }
    requires right_column { plan.now.right_on
        < length (columns_of (database_of (commits_of snapshot.now)) plan.now.right) }
    requires versions { piece.to ≤ (database_of (commits_of snapshot.now)).version + 1 }
    requires after { plan.now.from ≤ℤ pos piece.from }
    requires inside { pos piece.to ≤ℤ plan.now.to }
    requires sets { AreOfSome (database_of (commits_of snapshot.now)) plan.now piece
        left_start.now left_keep.now right_start.now right_keep.now }
    ensures pairs { (left_pred right_pred : TypedPred) (a b : ℕ)
        → AreOf (database_of (commits_of snapshot.now)) plan.now piece
        left_start.now left_keep.now right_start.now right_keep.now left_pred right_pred a b
        → IfOk result (λ pairs. pairs ≡ pairs_in (database_of (commits_of snapshot.now))
        plan.now piece left_pred right_pred a b) }
    ensures steps { let db = database_of (commits_of snapshot.now) in
        steps.new ≤ steps.old
        + (side_bound (rows_of db plan.now.left) db.version piece.from piece.to
        left_start.now
        + side_bound (rows_of db plan.now.right) db.version piece.from piece.to
        right_start.now) }
{
    let left = side_of(snapshot, plan.left, plan.left_on, left_start, left_keep);
    let right = side_of(snapshot, plan.right, plan.right_on, right_start, right_keep);
    let mut keys = Keys::none(alloc);
    let lefts = side_entries(alloc, &left, plan, piece, &mut keys, steps)?;
    let rights = side_entries(alloc, &right, plan, piece, &mut keys, steps)?;
    let pairs = swept_pairs(alloc, &lefts, &rights, keys.count(), i64::from(piece.from))?;
    Ok(Seq::from_vec(pairs))
}
