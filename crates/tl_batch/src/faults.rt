//! The first fault of lines that remove rows of a table with valid time: a line that affects no row
//! that the lines before it left. It reads rows, and keeps none.
ghost use Rattle.std.specs.Prelude.{◌≡◌, ◌+◌, ◌<◌, ◌^◌, ℤ, true, List, [], All, IfOk, length, map, slice_get};
ghost use Rattle.std.specs.List.{list_any};
ghost use Rattle.tl_types.specs.declared.cells.Cell.{Cell};
ghost use Rattle.tl_batch.specs.Covers.{Full, cover_at, is_covered};
ghost use Rattle.tl_batch.specs.Faults.{fault_from, is_at, period_of};
ghost use Rattle.tl_batch.specs.Lines.{lines_of};
ghost use Rattle.tl_batch.specs.Pieces.{affected_ids};

use crate::open_table::OpenTable;
use crate::periods_by_key::{PeriodsByKey, affects_rest};
use std::alloc::Global;
use std::sync::ledger::Ledger;
use tl_types::{BatchFault, KeyLine, NoMemory, Steps};

// The periods of some rows, by key, of which there are at most so many.
fn periods_of_rows<L: Ledger>(
    alloc: Global,
    table: &OpenTable<'_>,
    rows: &[u32],
    keys: usize,
    steps: &mut Steps<L>,
) -> Result<PeriodsByKey, NoMemory>
    requires valid { table.now.schema.valid ≡ true }
    requires rows { All (λ row. row < length table.now.rows) rows.now }
    ensures held { IfOk result (λ periods. (x : Cell) (t : ℤ) → is_covered t (cover_at x periods)
        ≡ list_any (λ row. is_at table.now.schema.key x t (slice_get table.now.rows row))
        rows.now) }
    ensures full { IfOk result (λ _. Full (map (λ row. period_of (slice_get table.now.rows row))
        rows.now)) }
{
    let mut periods = PeriodsByKey::with_room(alloc, rows.len().min(keys))?;
    for row in rows {
        let key = table.key(alloc, *row, steps)?;
        let whole = table.period(*row, steps);
        periods.add(alloc, &key, &whole)?;
    }
    Ok(periods)
}

/// The first fault of lines that remove rows of a table with valid time, none where there is none.
/// The ids of the open rows that the lines affect are given. The error is `NoMemory`.
pub(crate) fn first_fault<L: Ledger>(
    alloc: Global,
    table: &OpenTable<'_>,
    lines: &[KeyLine],
    affected: &[u32],
    steps: &mut Steps<L>,
) -> Result<Option<BatchFault>, NoMemory>
    requires valid { table.now.schema.valid ≡ true }
    requires few { length lines.now + 1 < 2 ^ 32 }
    requires affected { affected.now
        ≡ affected_ids table.now.schema (lines_of lines.now) 0 table.now.rows }
    ensures { IfOk result (λ found. found
        ≡ fault_from table.now.schema true table.now.rows 2 [] (lines_of lines.now)) }
{
    let rows = periods_of_rows(alloc, table, affected, lines.len(), steps)?;
    let mut earlier = PeriodsByKey::with_room(alloc, lines.len())?;
    for (i, line) in lines.iter().enumerate() {
        let affected = affects_rest(alloc, &earlier, &rows, &line.key, &line.period)?;
        if !affected {
            return Ok(Some(BatchFault::NoRow { rec: i as u32 + 2 }));
        }
        earlier.add(alloc, &line.key, &line.period)?;
    }
    Ok(None)
}
