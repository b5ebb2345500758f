//! Aggregates over versions in pieces, each in a thread of its own, whose runs are put together in
//! order. The kept rows are counted once, before the pieces; the runs are those of one piece.
ghost use Rattle.std.specs.Prelude.{◌≡◌, ◌<◌, ◌≤◌, IfOk};
ghost use Rattle.tl_types.specs.Entries.{commits_of};
ghost use Rattle.tl_types.specs.History.{database_of, rows_of};
ghost use Rattle.tl_agg.specs.Runs.{system_runs};
ghost use Rattle.tl_exec.specs.Pieces.{CanScan, CanDivide, DividedScanOf, runs_of_scan, PutsTogether};

use crate::aggregates::piece_runs;
use std::alloc::{AllocGlobal, Global};
use std::marker::{Brand, Model};
use std::sync::ledger::{Blank, Ledger};
use std::thread::Threads;
use tl_agg::{KeptRows, seam};
use tl_device::Gate;
use tl_index::Snapshot;
use tl_query::AggPlan;
use tl_range::{PieceWork, pieces, run_pieces};
use tl_types::{NoMemory, Piece, Run, Seq, Steps};

/// A scan of the rows of a snapshot that are kept, by a plan, up to a version.
#[derive(Drop)]
pub(crate) struct DividedScan<'a> {
    alloc: Global,
    snapshot: &'a Snapshot,
    plan: AggPlan,
    keep: &'a KeptRows<'a>,
    to: u32,
}

impl<'a> Model for DividedScan<'a> {
    ghost use Rattle.tl_exec.specs.Pieces.{CanDivide, DividedScanOf};

    ghost Value = { DividedScanOf };

    ghost view = { λ s. record {
      entries = s.snapshot.now;
      plan = s.plan;
      keep = s.keep.now;
      to = s.to;
    } };

    ghost invariant = { λ s. CanDivide s.snapshot.now s.plan s.keep.now s.to };
}

impl<'a> DividedScan<'a> {
    /// The scan of the rows of a snapshot that are kept, by a plan, up to a version.
    pub(crate) fn new(
        alloc: Global,
        snapshot: &'a Snapshot,
        plan: AggPlan,
        keep: &'a KeptRows<'a>,
        to: u32,
    ) -> DividedScan<'a>
        requires { CanDivide snapshot.now plan keep.now to }
        ensures { result ≡ record {
          entries = snapshot.now;
          plan = plan;
          keep = keep.now;
          to = to;
        } }
    {
        DividedScan {
            alloc,
            snapshot,
            plan,
            keep,
            to,
        }
    }

    // The runs over a piece that ends where the scan does or before, none where it does not. The
    // error is out of memory.
    fn runs_over(&self, piece: Piece) -> Result<Seq<Run>, NoMemory>
        ensures { IfOk result
            (λ runs. piece.to ≤ self.now.to → runs ≡ runs_of_scan self.now piece.from piece.to) }
    {
        if piece.to > self.to {
            return Ok(Seq::new(self.alloc));
        }
        let blank = Blank::new(1);
        counted_runs::<Brand>(
            self.alloc,
            self.snapshot,
            &self.plan,
            piece,
            self.keep,
            blank,
        )
    }

    /// The runs over the versions from one on, divided at marks for so many workers, each piece in
    /// a thread of its own. The error is out of memory.
    pub(crate) fn runs_in_pieces<R: AllocGlobal + Threads + Sync, G: Gate>(
        &self,
        rt: &R,
        from: u32,
        workers: u32,
        gate: &G,
    ) -> Result<Seq<Run>, NoMemory>
        requires range { from < self.now.to }
        requires some { 0 < workers }
        requires few { workers ≤ 64 }
        ensures { IfOk result (λ runs. runs ≡ runs_of_scan self.now from self.now.to) }
    {
        let marks = self.snapshot.marks();
        let divided = pieces(self.alloc, marks, self.plan.table, from, self.to, workers)?;
        let parts = run_pieces(rt, &divided, self, gate)?;
        put_together(self.alloc, parts)
    }
}

impl<'a> PieceWork for DividedScan<'a> {
    ghost use Rattle.std.specs.Prelude.{◌≡◌, ◌≤◌};
    ghost use Rattle.tl_exec.specs.Pieces.{runs_of_scan};

    type Out = Seq<Run>;

    ghost gives = { λ scan number piece runs. piece.to ≤ scan.to
        → runs ≡ runs_of_scan scan piece.from piece.to };

    fn piece(&self, _number: u32, piece: Piece) -> Result<Seq<Run>, NoMemory> {
        self.runs_over(piece)
    }
}

// The runs of a plan over a piece, counted by a counter of its own. The error is out of memory.
fn counted_runs<L: Ledger>(
    alloc: Global,
    snapshot: &Snapshot,
    plan: &AggPlan,
    piece: Piece,
    keep: &KeptRows<'_>,
    blank: Blank,
) -> Result<Seq<Run>, NoMemory>
    requires name { blank.name ≡ L.name }
    requires parts { blank.parts ≡ L.parts }
    requires some { 0 < blank.parts }
    requires scan { CanScan snapshot.now plan.now keep.now piece.to }
    ensures { IfOk result (λ runs. runs ≡ system_runs plan.now
        (rows_of (database_of (commits_of snapshot.now)) plan.now.table) keep.now
        piece.from piece.to) }
{
    let mut steps = Steps::<L>::new(blank);
    piece_runs(alloc, snapshot, plan, piece, keep, &mut steps)
}

// The runs of pieces that follow on each other, put together. The error is out of memory.
fn put_together(alloc: Global, parts: Seq<Seq<Run>>) -> Result<Seq<Run>, NoMemory>
    ensures { IfOk result (λ runs. PutsTogether parts runs) }
{
    let mut whole = Seq::new(alloc);
    for part in parts.into_vec() {
        whole = seam(whole, part)?;
    }
    Ok(whole)
}
