//! A range of versions, divided at some of the versions in it. The pieces follow on each other and
//! cover the range; no more pieces are made than there are gaps between the bounds.
ghost use Rattle.std.specs.Prelude.{◌≡◌, ◌+◌, ◌-◌, ◌<◌, ◌≤◌, ◌∷◌, ◌++◌, [], length, drop, IfOk, OnOk, Some, slice_get, slice_index_or};
ghost use Rattle.tl_ckpt.specs.Marks.{marks_for};
ghost use Rattle.tl_range.specs.Dividing.{inside, bounds_of, pushed, last_pushed, Ascend, Follow, BeginInside};

use std::alloc::Global;
use tl_ckpt::Marks;
use tl_types::{NoMemory, Piece};

// Puts the version of a mark behind the bounds where it is after `after`, which stands last among
// them, and before `before`, and tells the bound that now stands last.
fn push_inside(
    bounds: &mut Vec<u32>,
    after: u32,
    version: u32,
    before: u32,
) -> Result<u32, NoMemory>
    ensures bounds { OnOk result
        (bounds.new.items ≡ pushed bounds.old.items after version before) }
    ensures last { IfOk result (λ last. last ≡ last_pushed after version before) }
{
    if after < version && version < before {
        bounds.push(version)?;
        return Ok(version);
    }
    Ok(after)
}

/// The versions at which a range may be divided: its first, those of marks of the table inside it,
/// and its end. The error is `NoMemory`.
pub(crate) fn bounds_of(
    alloc: Global,
    marks: &Marks,
    table: u16,
    from: u32,
    to: u32,
) -> Result<Vec<u32>, NoMemory>
    ensures { IfOk result
        (λ bounds. bounds.items ≡ bounds_of from to (marks_for marks.now table)) }
{
    let mut bounds = Vec::new(alloc);
    bounds.push(from)?;
    let mut last = from;
    for i in 0..marks.count(table) {
        last = push_inside(&mut bounds, last, marks.at(table, i).version(), to)?;
    }
    bounds.push(to)?;
    Ok(bounds)
}

// The piece from one bound up to a later one.
fn piece_of(bounds: &[u32], from: usize, to: usize) -> Piece
    requires ascend { Ascend bounds.now }
    requires later { from < to }
    requires there { to < length bounds.now }
    ensures from { slice_get bounds.now from ≡ Some result.from }
    ensures to { slice_get bounds.now to ≡ Some result.to }
{
    Piece {
        from: bounds[from],
        to: bounds[to],
    }
}

// How many of so many gaps between bounds the next of so many pieces takes: its share, and so that
// one is left for each other piece.
fn share_of(gaps: usize, pieces: usize) -> usize
    requires some { 0 < pieces }
    requires enough { pieces ≤ gaps }
    ensures some { 1 ≤ result }
    ensures rest { result + pieces ≤ gaps + 1 }
{
    (gaps / pieces).max(1).min(gaps - (pieces - 1))
}

/// So many pieces of the range from the first bound to the last, each of which begins at a bound.
/// The error is `NoMemory`.
pub(crate) fn divide(alloc: Global, bounds: &[u32], count: usize) -> Result<Vec<Piece>, NoMemory>
    requires ascend { Ascend bounds.now }
    requires some { 0 < count }
    requires few { count < length bounds.now }
    ensures number { IfOk result (λ pieces. length pieces.items ≡ count) }
    ensures cover { IfOk result (λ pieces. Follow (slice_index_or bounds.now 0 0)
        (slice_index_or bounds.now (length bounds.now - 1) 0) pieces.items) }
    ensures begin { IfOk result (λ pieces. BeginInside bounds.now pieces.items) }
{
    let mut pieces = Vec::new(alloc);
    let last = bounds.len() - 1;
    let mut at = 0;
    let mut left = count;
    'rest: while left > 1 {
        let next = at + share_of(last - at, left);
        pieces.push(piece_of(bounds, at, next))?;
        at = next;
        left -= 1;
    }
    pieces.push(piece_of(bounds, at, last))?;
    Ok(pieces)
}
