//! What lines leave of a period: parts in order, of which none is empty. It refuses nothing but
//! memory.
ghost use Rattle.std.specs.Prelude.{◌≡◌, ◌++◌, ◌<ℤ◌, IfOk, OnOk};
ghost use Rattle.tl_batch.specs.Pieces.{part};

use smallvec::SmallVec;
use std::alloc::Global;
use tl_types::{NoMemory, Period};

/// What lines leave of a period: mostly one part or two, which take no memory of their own.
pub(crate) type Parts = SmallVec<Option<Period>, 2>;

/// The whole of a period. The error is `NoMemory`.
pub(crate) fn whole_of(alloc: Global, period: Period) -> Result<Parts, NoMemory>
    ensures some { period.from <ℤ period.to }
    ensures value { IfOk result (λ left. left.items ≡ part period.from period.to) }
{
    let mut left = Parts::new(alloc);
    push_part(&mut left, period.from(), period.to())?;
    Ok(left)
}

/// Appends the times from one on and before another, where there are any. The error is `NoMemory`.
#[inline]
pub(crate) fn push_part(parts: &mut Parts, from: i64, to: i64) -> Result<(), NoMemory>
    ensures { OnOk result (parts.new.items ≡ parts.old.items ++ part from to) }
{
    if from < to {
        parts.push(Some(Period::new(from, to)))?;
    }
    Ok(())
}
