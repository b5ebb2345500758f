//! Joins over versions: of one piece, or of pieces of which each has a thread of its own. A pair
//! stands in the piece in which it begins, so no pair comes twice.
ghost use Rattle.std.specs.Prelude.{◌≡◌, ◌+◌, ◌<◌, ◌≤◌, ◌++◌, IfOk, OnOk};
ghost use Rattle.std.specs.List.{flat_map};
ghost use Rattle.tl_query.specs.declared.typed_queries.TypedPred.{TypedPred};
ghost use Rattle.tl_exec.specs.JoinBounds.{pairs_steps};
ghost use Rattle.tl_exec.specs.Joining.{IsBetween, CanJoin, IsWithin, ArePairsOver};

use crate::sides::starting_rows;
use std::alloc::{AllocGlobal, Global};
use std::marker::{Brand, Model};
use std::sync::ledger::{Blank, Ledger};
use std::thread::Threads;
use tl_bits::RowSet;
use tl_device::Gate;
use tl_index::Snapshot;
use tl_join::join_piece;
use tl_query::JoinPlan;
use tl_range::{PieceWork, pieces, run_pieces};
use tl_types::{NoMemory, Pair, Piece, Seq, Steps};

/// The rows of each side of a join that may stand in a pair.
#[derive(Clone, Copy)]
pub(crate) struct Keeps<'a> {
    /// Those of the left table.
    pub(crate) left: &'a RowSet,
    /// Those of the right table.
    pub(crate) right: &'a RowSet,
}

/// A join of two tables of a snapshot over a range of versions.
#[derive(Drop)]
pub(crate) struct Join<'a> {
    alloc: Global,
    snapshot: &'a Snapshot,
    plan: JoinPlan,
    range: Piece,
    left_keep: &'a RowSet,
    right_keep: &'a RowSet,
}

impl<'a> Model for Join<'a> {
    ghost use Rattle.tl_exec.specs.Joining.{JoinOf, CanJoin};

    ghost Value = { JoinOf };

    ghost view = { λ j. record {
      entries = j.snapshot.now;
      plan = j.plan;
      range = j.range;
      left_keep = j.left_keep.now;
      right_keep = j.right_keep.now;
    } };

    ghost invariant = { λ j. CanJoin (record {
      entries = j.snapshot.now;
      plan = j.plan;
      range = j.range;
      left_keep = j.left_keep.now;
      right_keep = j.right_keep.now;
    }) };
}

impl<'a> Join<'a> {
    /// The join by a plan, whose range of versions is given too.
    pub(crate) fn new(
        alloc: Global,
        snapshot: &'a Snapshot,
        plan: JoinPlan,
        range: Piece,
        keeps: Keeps<'a>,
    ) -> Join<'a>
        requires { CanJoin (record {
          entries = snapshot.now;
          plan = plan;
          range = range;
          left_keep = keeps.left.now;
          right_keep = keeps.right.now;
        }) }
        ensures { result ≡ record {
          entries = snapshot.now;
          plan = plan;
          range = range;
          left_keep = keeps.entry.left.now;
          right_keep = keeps.entry.right.now;
        } }
    {
        Join {
            alloc,
            snapshot,
            plan,
            range,
            left_keep: keeps.left,
            right_keep: keeps.right,
        }
    }

    // The pairs that begin in a piece of the range. The error is out of memory.
    fn piece_pairs<L: Ledger>(
        &self,
        piece: Piece,
        steps: &mut Steps<L>,
    ) -> Result<Seq<Pair>, NoMemory>
        requires { IsWithin self.now piece }
        ensures pairs { IfOk result (ArePairsOver self.now piece) }
        ensures steps { (left_pred right_pred : TypedPred)
            → IsBetween self.now left_pred right_pred
            → steps.new ≤ steps.old + pairs_steps self.now piece left_pred right_pred }
    {
        let (left, right) = (self.plan.left, self.plan.right);
        let (alloc, snapshot) = (self.alloc, self.snapshot);
        let lefts = starting_rows(alloc, snapshot, left, piece.from, self.left_keep, steps)?;
        let rights = starting_rows(alloc, snapshot, right, piece.from, self.right_keep, steps)?;
        let pairs = join_piece(
            alloc,
            snapshot,
            &self.plan,
            piece,
            &lefts,
            self.left_keep,
            &rights,
            self.right_keep,
            steps,
        )?;
        Ok(pairs)
    }

    // The pairs that begin in a piece, counted by a counter of its own. The error is out of memory.
    fn counted_pairs<L: Ledger>(&self, piece: Piece, blank: Blank) -> Result<Seq<Pair>, NoMemory>
        requires name { blank.name ≡ L.name }
        requires parts { blank.parts ≡ L.parts }
        requires some { 0 < blank.parts }
        requires inside { IsWithin self.now piece }
        ensures { IfOk result (ArePairsOver self.now piece) }
    {
        let mut steps = Steps::<L>::new(blank);
        self.piece_pairs(piece, &mut steps)
    }

    // The pairs that begin in a piece, where it is one of the range. The error is out of memory.
    fn pairs_over(&self, piece: Piece) -> Result<Seq<Pair>, NoMemory>
        ensures { IfOk result
            (λ pairs. IsWithin self.now piece → ArePairsOver self.now piece pairs) }
    {
        if piece.from < self.range.from {
            return Ok(Seq::new(self.alloc));
        }
        if piece.to > self.range.to {
            return Ok(Seq::new(self.alloc));
        }
        self.counted_pairs::<Brand>(piece, Blank::new(1))
    }

    // The pairs of the whole range, divided at the marks of the left table for so many workers. The
    // error is out of memory.
    fn pairs_in_pieces<R: AllocGlobal + Threads + Sync, G: Gate>(
        &self,
        rt: &R,
        workers: u32,
        gate: &G,
    ) -> Result<Seq<Pair>, NoMemory>
        requires some { 1 ≤ workers }
        requires few { workers ≤ 64 }
        ensures { IfOk result (ArePairsOver self.now self.now.range) }
    {
        let marks = self.snapshot.marks();
        let Piece { from, to, .. } = self.range;
        let divided = pieces(self.alloc, marks, self.plan.left, from, to, workers)?;
        let parts = run_pieces(rt, &divided, self, gate)?;
        let pairs = put_behind(self.alloc, parts)?;
        Ok(pairs)
    }

    /// The pairs of the whole range. One worker counts on `steps`; where there are more, each piece
    /// has a counter of its own. The error is out of memory.
    pub(crate) fn pairs<R: AllocGlobal + Threads + Sync, L: Ledger, G: Gate>(
        &self,
        rt: &R,
        workers: u32,
        gate: &G,
        steps: &mut Steps<L>,
    ) -> Result<Seq<Pair>, NoMemory>
        requires some { 1 ≤ workers }
        requires few { workers ≤ 64 }
        ensures pairs { IfOk result (ArePairsOver self.now self.now.range) }
        ensures steps { workers ≡ 1 → (left_pred right_pred : TypedPred)
            → IsBetween self.now left_pred right_pred
            → steps.new ≤ steps.old + pairs_steps self.now self.now.range left_pred right_pred }
    {
        if workers == 1 {
            self.piece_pairs(self.range, steps)
        } else {
            self.pairs_in_pieces(rt, workers, gate)
        }
    }
}

impl<'a> PieceWork for Join<'a> {
    ghost use Rattle.tl_exec.specs.Joining.{IsWithin, ArePairsOver};

    type Out = Seq<Pair>;

    ghost gives = { λ join number piece pairs.
        IsWithin join piece → ArePairsOver join piece pairs };

    fn piece(&self, _number: u32, piece: Piece) -> Result<Seq<Pair>, NoMemory> {
        self.pairs_over(piece)
    }
}

// Appends pairs. The error is out of memory.
fn push_all(whole: &mut Vec<Pair>, part: &[Pair]) -> Result<(), NoMemory>
    ensures { OnOk result (whole.new.items ≡ whole.old.items ++ part.now) }
{
    for pair in part {
        whole.push(*pair)?;
    }
    Ok(())
}

// The parts behind each other. The error is out of memory.
fn put_behind(alloc: Global, parts: Seq<Seq<Pair>>) -> Result<Seq<Pair>, NoMemory>
    ensures { IfOk result (λ pairs. pairs ≡ flat_map (λ part. part) parts) }
{
    let mut whole = Vec::new(alloc);
    for part in parts.as_slice() {
        push_all(&mut whole, part.as_slice())?;
    }
    Ok(Seq::from_vec(whole))
}
