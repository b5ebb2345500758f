//! The pieces of a range of versions, for so many workers: as many as these and the marks inside
//! the range allow. Each begins at a mark or where the range does; an empty range is refused.
ghost use Rattle.std.specs.Prelude.{◌≡◌, ◌<◌, ◌≤◌, IfOk};
ghost use Rattle.tl_ckpt.specs.Marks.{marks_for};
ghost use Rattle.tl_range.specs.Dividing.{AreDivided};

use crate::dividing::{bounds_of, divide};
use std::alloc::Global;
use tl_ckpt::Marks;
use tl_types::{NoMemory, Piece, Seq};

/// The range of versions from `from` on and before `to`, divided for so many workers, 1 to 64: the
/// pieces follow on each other and cover the range, each but the first begins at a mark of the
/// table, and there are as many as workers, but no more than one and the versions with marks inside
/// the range. The error is `NoMemory`.
pub fn pieces(
    alloc: Global,
    marks: &Marks,
    table: u16,
    from: u32,
    to: u32,
    workers: u32,
) -> Result<Seq<Piece>, NoMemory>
    requires range { from < to }
    requires some { 1 ≤ workers }
    requires few { workers ≤ 64 }
    ensures { IfOk result
        (λ pieces. AreDivided (marks_for marks.now table) from to workers pieces) }
{
    let bounds = bounds_of(alloc, marks, table, from, to)?;
    let count = (workers as usize).min(bounds.len() - 1);
    let pieces = divide(alloc, &bounds, count)?;
    Ok(Seq::from_vec(pieces))
}
