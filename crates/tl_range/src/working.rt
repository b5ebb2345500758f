//! Work over pieces, each in a thread of its own. What comes out stands in the order of the pieces;
//! where memory runs out in one of them, nothing comes out.
ghost use Rattle.std.specs.Prelude.{◌≡◌, ℕ, ◌<◌, ◌≤◌, ◌^◌, length, map, IfOk, Ok, Some, slice_get};
ghost use Rattle.tl_types.specs.declared.runs.Piece.{Piece as PlainPiece};

use std::alloc::Global;
use std::thread;
use std::thread::Threads;
use tl_device::{Gate, Place};
use tl_types::{NoMemory, Piece, Seq};

/// What is done over each piece, from any thread.
pub trait PieceWork: Sync {
    ghost use Rattle.std.specs.Prelude.{ℕ};
    ghost use Rattle.tl_types.specs.declared.runs.Piece.{Piece};

    /// What it gives for a piece.
    type Out: Send + Drop;

    // What may be given for the piece with this number.
    ghost gives: { Self → ℕ → Piece → Self.Out → Type 0 };

    /// The work over a piece, which has this number, from 0. The error is `NoMemory`.
    fn piece(&self, number: u32, piece: Piece) -> Result<Self::Out, NoMemory>
        ensures { IfOk result (λ out. gives self.now number piece out) };
}

// The work over the piece with a number, which passes the gate first.
fn run_piece<W: PieceWork, G: Gate>(
    pieces: &[Piece],
    work: &W,
    gate: &G,
    i: usize,
) -> Result<W::Out, NoMemory>
    requires few { length pieces.now < 2 ^ 32 }
    requires there { i < length pieces.now }
    ensures { IfOk result (λ out. (p : PlainPiece) → slice_get pieces.now i ≡ Some p
        → W.gives work.now i p out) }
{
    gate.pass(Place::Piece(i as u32));
    work.piece(i as u32, pieces[i])
}

// All values, or out of memory where one of them is.
fn all_ok<T: Drop>(alloc: Global, results: Vec<Result<T, NoMemory>>) -> Result<Vec<T>, NoMemory>
    ensures { IfOk result (λ outs. results.items ≡ map Ok outs.items) }
{
    let mut outs = Vec::new(alloc);
    for result in results {
        outs.push(result?)?;
    }
    Ok(outs)
}

// The work over each piece, and what it gives, in order.
fn run_slice<W: PieceWork, G: Gate, R: AllocGlobal + Threads + Sync>(
    rt: &R,
    pieces: &[Piece],
    work: &W,
    gate: &G,
) -> Result<Vec<W::Out>, NoMemory>
    requires few { length pieces.now < 2 ^ 32 }
    ensures len { IfOk result (λ outs. length outs.items ≡ length pieces.now) }
    ensures each { IfOk result (λ outs. (i : ℕ) (p : PlainPiece) (out : W.Out)
        → slice_get pieces.now i ≡ Some p → slice_get outs.items i ≡ Some out
        → W.gives work.now i p out) }
{
    let run = |i: usize| -> Result<W::Out, NoMemory>
        requires few { length pieces.now < 2 ^ 32 }
        requires there { i < length pieces.now }
        ensures { IfOk result (λ out. (p : PlainPiece) → slice_get pieces.entry.now i ≡ Some p
            → W.gives work.entry.now i p out) }
    { run_piece(pieces, work, gate, i) };
    let results = thread::map_indices(rt, rt.alloc(), pieces.len(), &run)?;
    let outs = all_ok(rt.alloc(), results)?;
    Ok(outs)
}

/// The work over each piece by fork and join, each in a thread of its own where one can be made,
/// and what it gives, in order. Each piece passes the gate with its number before it starts. The
/// error is `NoMemory`; where one piece ran out of memory it is handed on when all have ended.
pub fn run_pieces<W: PieceWork, G: Gate, R: AllocGlobal + Threads + Sync>(
    rt: &R,
    pieces: &Seq<Piece>,
    work: &W,
    gate: &G,
) -> Result<Seq<W::Out>, NoMemory>
    requires few { length pieces.now < 2 ^ 32 }
    ensures len { IfOk result (λ outs. length outs ≡ length pieces.now) }
    ensures each { IfOk result (λ outs. (i : ℕ) (p : PlainPiece) (out : W.Out)
        → slice_get pieces.now i ≡ Some p → slice_get outs i ≡ Some out
        → W.gives work.now i p out) }
{
    let outs = run_slice(rt, pieces.as_slice(), work, gate)?;
    Ok(Seq::from_vec(outs))
}
