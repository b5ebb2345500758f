//! Aggregates over the versions of a piece: of the kept rows of a query, which were counted before,
//! or of a set, which is counted first. A plan for another table is none for these.
ghost use Rattle.std.specs.Prelude.{◌≡◌, ◌+◌, ◌-◌, ◌*◌, ◌<◌, ◌≤◌, length, IfOk};
ghost use Rattle.tl_types.specs.Entries.{commits_of};
ghost use Rattle.tl_types.specs.Events.{place_of};
ghost use Rattle.tl_types.specs.History.{database_of, rows_of};
ghost use Rattle.tl_lanes.specs.Masks.{words_for};
ghost use Rattle.tl_agg.specs.Kept.{size};
ghost use Rattle.tl_agg.specs.Runs.{system_runs, start_set};
ghost use Rattle.tl_agg.specs.Scans.{IsSystemTimePlanFor, IsScan, scan_of, table_in};
ghost use Rattle.tl_index.specs.Tables.{rows_in, search_steps};

use crate::kept::KeptRows;
use crate::scans::Scan;
use std::alloc::Global;
use std::sync::ledger::Ledger;
use tl_bits::RowSet;
use tl_index::Snapshot;
use tl_query::AggPlan;
use tl_types::{NoMemory, Piece, Run, Seq, Steps};

impl<'a> KeptRows<'a> {
    /// The maximal runs of an aggregate of these rows over the versions of a piece. `start` is the
    /// set of those that stand at the piece's first version.
    ///
    /// With e events of the versions behind the first and before the piece's end, r members of
    /// `start`, w begun 64s of rows, and as many versions with events, and one more, as a number of
    /// s binary digits tells, it takes at most 5e + 3r + w + 2s + 1 steps, also where it fails. The
    /// error is `NoMemory`.
    pub fn aggregate<L: Ledger>(
        &self,
        alloc: Global,
        snapshot: &Snapshot,
        plan: &AggPlan,
        piece: Piece,
        start: &RowSet,
        steps: &mut Steps<L>,
    ) -> Result<Seq<Run>, NoMemory>
        requires table { plan.now.table < length (database_of (commits_of snapshot.now)).tables }
        requires scan { IsScan (scan_of (table_in snapshot.now plan.now.table) plan.now self.now
            piece.from piece.to) }
        requires start { start.now
            ≡ start_set (rows_in (table_in snapshot.now plan.now.table)) self.now piece.from }
        ensures runs { IfOk result (λ runs. runs ≡ system_runs plan.now
            (rows_in (table_in snapshot.now plan.now.table)) self.now piece.from piece.to) }
        ensures steps { let table = table_in snapshot.now plan.now.table in
            let e = place_of (rows_in table) (piece.to - 1) - place_of (rows_in table) piece.from in
            steps.new ≤ steps.old + (5 * e + 3 * size start.now + words_for (length start.now)
            + 2 * search_steps table + 1) }
    {
        let table = snapshot.timed(plan.table);
        let keep = self.share();
        let scan = Scan::new(alloc, table, *plan, keep, piece);
        let runs = scan.runs(start, steps)?;
        Ok(Seq::from_vec(runs))
    }
}

/// The maximal runs of an aggregate over the versions of a piece, of the rows that are in `keep`.
/// The plan is one for a table of the snapshot, and `start` is the set of the kept rows that stand
/// at the piece's first version.
///
/// With e events of the versions behind the first and before the piece's end, r members of `start`,
/// w begun 64s of rows, and as many versions with events, and one more, as a number of s binary
/// digits tells, it takes at most 5e + 3r + 2w + 2s + 2 steps, also where it fails. The error is
/// `NoMemory`.
pub fn aggregate<L: Ledger>(
    alloc: Global,
    snapshot: &Snapshot,
    plan: &AggPlan,
    piece: Piece,
    start: &RowSet,
    keep: &RowSet,
    steps: &mut Steps<L>,
) -> Result<Seq<Run>, NoMemory>
    requires table { plan.now.table < length (database_of (commits_of snapshot.now)).tables }
    requires plan { IsSystemTimePlanFor (record {
      db = database_of (commits_of snapshot.now);
      number = plan.now.table;
    }) plan.now }
    requires keep { length keep.now
        ≡ length (rows_of (database_of (commits_of snapshot.now)) plan.now.table) }
    requires within { piece.to ≤ (database_of (commits_of snapshot.now)).version + 1 }
    requires start { start.now ≡ start_set
        (rows_of (database_of (commits_of snapshot.now)) plan.now.table) keep.now piece.from }
    ensures runs { IfOk result (λ runs. runs ≡ system_runs plan.now
        (rows_of (database_of (commits_of snapshot.now)) plan.now.table) keep.now
        piece.from piece.to) }
    ensures steps { let rows = rows_of (database_of (commits_of snapshot.now)) plan.now.table in
        let s = search_steps (record {
          db = database_of (commits_of snapshot.now);
          number = plan.now.table;
        }) in
        let e = place_of rows (piece.to - 1) - place_of rows piece.from in
        let r = size start.now in
        steps.new
        ≤ steps.old + (5 * e + 3 * r + 2 * words_for (length start.now) + 2 * s + 2) }
{
    let kept = KeptRows::new(keep, steps);
    kept.aggregate(alloc, snapshot, plan, piece, start, steps)
}
