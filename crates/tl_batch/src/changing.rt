//! What lines make of the rows of a table with valid time: the ids that they close, and the rows
//! that they open. A removal of which a line affects no row is refused by that line's number.
ghost use Rattle.std.specs.Prelude.{◌≡◌, ◌+◌, ◌<◌, ◌^◌, ◌++◌, List, true, IfOk, IsTrue, length};
ghost use Rattle.std.specs.List.{list_all};
ghost use Rattle.tl_types.specs.History.{matches};
ghost use Rattle.tl_types.specs.Resolving.{BatchLine, put_lines, removal_lines};
ghost use Rattle.tl_batch.specs.Covers.{HoldLines};
ghost use Rattle.tl_batch.specs.Made.{IsMade};
ghost use Rattle.tl_batch.specs.Pieces.{affected_ids, old_pieces, put_pieces};

use crate::affected::affected_rows;
use crate::faults::first_fault;
use crate::open_table::OpenTable;
use crate::opening::{PutPieces, append_back, old_pieces, pieces_behind};
use crate::periods_by_key::{PeriodsByKey, covers_of};
use std::alloc::Global;
use std::sync::ledger::{Blank, Ledger};
use tl_types::{BatchFault, KeyLine, NoMemory, Opened, Seq, Steps};

/// What lines change in a table: the ids of the rows that they close, and the rows that they open.
#[derive(Drop)]
pub(crate) struct RowChanges {
    pub(crate) closes: Seq<u32>,
    pub(crate) opens: Vec<Opened>,
}

// The ids of the open rows that lines, whose periods are given by key, affect.
fn rows_to_close<L: Ledger>(
    alloc: Global,
    table: &OpenTable<'_>,
    periods: &PeriodsByKey,
    steps: &mut Steps<L>,
) -> Result<Seq<u32>, NoMemory>
    requires valid { table.now.schema.valid ≡ true }
    ensures { IfOk result (λ closes. (lines : List BatchLine) → HoldLines periods.now lines
        → closes ≡ affected_ids table.now.schema lines 0 table.now.rows) }
{
    let affected = affected_rows(alloc, table, periods, steps)?;
    let closes = affected.listed();
    Ok(closes)
}

// What lines, whose periods are given by key, leave of the open rows that they affect, of which the
// ids are given, with room for so many rows more.
fn rows_left<L: Ledger>(
    alloc: Global,
    table: &OpenTable<'_>,
    periods: &PeriodsByKey,
    closes: &[u32],
    room: usize,
    steps: &mut Steps<L>,
) -> Result<Vec<Opened>, NoMemory>
    requires valid { table.now.schema.valid ≡ true }
    requires closes { (lines : List BatchLine) × HoldLines periods.now lines
        × (closes.now ≡ affected_ids table.now.schema lines 0 table.now.rows) }
    ensures { IfOk result (λ opens. (lines : List BatchLine) → HoldLines periods.now lines
        → closes.now ≡ affected_ids table.now.schema lines 0 table.now.rows
        → opens.items ≡ old_pieces table.now.schema lines table.now.rows) }
{
    let opens = old_pieces(alloc, table, periods, closes, room, steps)?;
    Ok(opens)
}

/// What rows that are put change in a table with valid time. The error is `NoMemory`.
pub(crate) fn put_timed<L: Ledger>(
    alloc: Global,
    table: &OpenTable<'_>,
    rows: &[Opened],
    blank: Blank,
) -> Result<RowChanges, NoMemory>
    requires name { blank.name ≡ L.name }
    requires parts { blank.parts ≡ L.parts }
    requires some { 0 < blank.parts }
    requires valid { table.now.schema.valid ≡ true }
    requires matching { IsTrue (list_all (matches table.now.schema) rows.now) }
    ensures closes { IfOk result (λ changes. changes.closes
        ≡ affected_ids table.now.schema (put_lines table.now.schema rows.now) 0 table.now.rows) }
    ensures opens { IfOk result (λ changes. changes.opens.items
        ≡ old_pieces table.now.schema (put_lines table.now.schema rows.now) table.now.rows
        ++ put_pieces table.now.schema (put_lines table.now.schema rows.now)) }
{
    let mut steps = Steps::<L>::new(blank);
    let schema = table.schema();
    let _place = schema.key(); // says that the key is one of the columns
    let PutPieces { back, periods } = pieces_behind(alloc, schema, rows)?;
    let closes = rows_to_close(alloc, table, &periods, &mut steps)?;
    let ids = closes.as_slice();
    let mut opens = rows_left(alloc, table, &periods, ids, back.len(), &mut steps)?;
    append_back(&mut opens, back)?;
    Ok(RowChanges { closes, opens })
}

/// What the lines of a removal change in a table with valid time, or their first fault. The error
/// is `NoMemory`.
pub(crate) fn remove_timed<L: Ledger>(
    alloc: Global,
    table: &OpenTable<'_>,
    lines: &[KeyLine],
    blank: Blank,
) -> Result<Result<RowChanges, BatchFault>, NoMemory>
    requires name { blank.name ≡ L.name }
    requires parts { blank.parts ≡ L.parts }
    requires some { 0 < blank.parts }
    requires valid { table.now.schema.valid ≡ true }
    requires few { length lines.now + 1 < 2 ^ 32 }
    ensures { IfOk result (IsMade true table.now.schema table.now.rows (removal_lines lines.now)) }
{
    let mut steps = Steps::<L>::new(blank);
    let periods = covers_of(alloc, lines)?;
    let closes = rows_to_close(alloc, table, &periods, &mut steps)?;
    let ids = closes.as_slice();
    let found = first_fault(alloc, table, lines, ids, &mut steps)?;
    if let Some(fault) = found {
        return Ok(Err(fault));
    }
    let opens = rows_left(alloc, table, &periods, ids, 0, &mut steps)?;
    Ok(Ok(RowChanges { closes, opens }))
}
