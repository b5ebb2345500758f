//! Changes of a record: closed ids, and opened rows. Ids that do not ascend are `Bad`; however
//! great a count is, no more room is taken for it than the bytes can fill.
ghost use Rattle.std.specs.Prelude.{◌<◌, ◌^◌, length, IfOk};
ghost use Rattle.tl_record.specs.Reading.{
  Gives,
  several,
  ids_of,
  closes_at,
  row_at,
  opens_at,
  change_at,
};

use crate::faults::ReadError;
use crate::{numbers, rows};
use std::alloc::Global;
use tl_types::{Change, Opened, Seq};

// So many ids, each above the one before it, and what is left of the bytes.
fn ids_of(alloc: Global, count: u32, bytes: &[u8]) -> Result<(Vec<u32>, &[u8]), ReadError>
    ensures { Gives (λ x. (x.0.items, x.1.now)) result (ids_of count bytes.now) }
{
    let mut ids = Vec::with_capacity(alloc, (count as usize).min(bytes.len() / 4))?;
    let mut rest = bytes;
    let mut low: u64 = 0;
    let mut left = count;
    while left > 0 {
        let (id, behind) = numbers::number(low as u32, u32::MAX - (left - 1), rest)?;
        ids.push(id)?;
        rest = behind;
        low = id as u64 + 1;
        left -= 1;
    }
    Ok((ids, rest))
}

#[tactic(auto, unfolding(crate::specs::Reading::closes_at))]
fn closes(alloc: Global, bytes: &[u8]) -> Result<(Vec<u32>, &[u8]), ReadError>
    ensures { Gives (λ x. (x.0.items, x.1.now)) result (closes_at bytes.now) }
{
    let (count, rest) = numbers::number(0, u32::MAX, bytes)?;
    let (ids, rest) = ids_of(alloc, count, rest)?;
    Ok((ids, rest))
}

fn rows_of(alloc: Global, count: u32, bytes: &[u8]) -> Result<(Vec<Opened>, &[u8]), ReadError>
    ensures { Gives (λ x. (x.0.items, x.1.now)) result (several row_at count bytes.now) }
{
    let mut rows = Vec::with_capacity(alloc, (count as usize).min(bytes.len() / 5))?;
    let mut rest = bytes;
    for _ in 0..count {
        rest = rows::push_row(alloc, &mut rows, rest)?;
    }
    Ok((rows, rest))
}

#[tactic(auto, using(crate::proofs::Loops::so_many), unfolding(crate::specs::Reading::opens_at))]
fn opens(alloc: Global, bytes: &[u8]) -> Result<(Vec<Opened>, &[u8]), ReadError>
    ensures read { Gives (λ x. (x.0.items, x.1.now)) result (opens_at bytes.now) }
    ensures few { IfOk result (λ x. length x.0.items < 2 ^ 32) }
{
    let (count, rest) = numbers::number(0, u32::MAX, bytes)?;
    let (rows, rest) = rows_of(alloc, count, rest)?;
    Ok((rows, rest))
}

/// A change, and what follows it.
#[tactic(auto, using(crate::proofs::Fields::changed), unfolding(crate::specs::Reading::change_at))]
pub fn change(alloc: Global, bytes: &[u8]) -> Result<(Change, &[u8]), ReadError>
    ensures { Gives (λ x. (x.0, x.1.now)) result (change_at bytes.now) }
{
    let (table, rest) = numbers::short_number(bytes)?;
    let (closes, rest) = closes(alloc, rest)?;
    let (opens, rest) = opens(alloc, rest)?;
    let change = Change::new(table, Seq::from_vec(closes), Seq::from_vec(opens));
    Ok((change, rest))
}
