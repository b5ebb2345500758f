//! What lines that say all of a table make of its rows: the ids of the rows that are closed, since
//! no line is the same, and the lines that are opened, since no row is the same. What stays is not
//! copied. A line that has the key of an earlier one, and in a table with valid time a period that
//! overlaps its period, is refused. For n open rows and m lines the work grows as (n + m) log (n +
//! m), and with the length of the list of small keys, which is gone through once; ended rows are not
//! looked at.
ghost use Rattle.std.specs.Prelude.{◌≡◌, ◌+◌, ◌<◌, ◌^◌, ◌++◌, ◌∷◌, [], false, true, None, All, IfOk, OnOk, IsTrue, length, map, if◌then◌else◌};
ghost use Rattle.std.specs.List.{list_all};
ghost use Rattle.tl_types.specs.History.{matches};
ghost use Rattle.tl_types.specs.Plain as plain;
ghost use Rattle.tl_types.specs.Resolving.{ids_of, open_rows, conflict_fault, unmatched_lines, unmatched_rows};
ghost use Rattle.tl_batch.specs.Covers.{Full};
ghost use Rattle.tl_batch.specs.PutRows.{rows_put};
ghost use Rattle.tl_batch.specs.Syncing.{HaveOwnStarts, IsSynced, working_rows};

use crate::changing::RowChanges;
use crate::line_matching::LineMatching;
use crate::open_table::OpenTable;
use crate::periods_by_key::PeriodsByKey;
use crate::put_rows::PutRows;
use crate::untimed::{first_key_fault, keys_of_rows};
use std::alloc::Global;
use std::marker::Brand;
use std::sync::ledger::{Blank, Ledger};
use tl_types::{BatchFault, NoMemory, Opened, Seq, Steps};

// The first fault of lines for a table with valid time: a line whose period overlaps that of an
// earlier line of its key. The key is the cell at a place.
fn first_overlap(alloc: Global, lines: &[Opened], place: u8) -> Result<Option<BatchFault>, NoMemory>
    requires few { length lines.now + 1 < 2 ^ 32 }
    requires keyed { All (λ o. place < length o.cells) lines.now }
    ensures fault { IfOk result (λ found. (schema : plain.Schema) → schema.key ≡ place
        → schema.valid ≡ true → found ≡ conflict_fault schema 2 [] lines.now) }
    ensures full { IfOk result (λ found. found ≡ None → Full (map (λ o. o.period) lines.now)) }
{
    let mut earlier = PeriodsByKey::with_room(alloc, lines.len())?;
    for (i, line) in lines.iter().enumerate() {
        let key = &line.cells()[place as usize];
        let period = line.period();
        let cover = earlier.cover(key);
        let overlaps = cover.affects(&period);
        if overlaps {
            return Ok(Some(BatchFault::KeyTwice { rec: i as u32 + 2 }));
        }
        earlier.add(alloc, key, &period)?;
    }
    Ok(None)
}

// The first fault of lines for a table without valid time: a line that has the key of an earlier
// one.
fn first_twice(
    alloc: Global,
    table: &OpenTable<'_>,
    lines: &[Opened],
) -> Result<Option<BatchFault>, NoMemory>
    requires few { length lines.now + 1 < 2 ^ 32 }
    requires untimed { table.now.schema.valid ≡ false }
    requires keyed { All (λ o. table.now.schema.key < length o.cells) lines.now }
    ensures { IfOk result (λ found. found ≡ conflict_fault table.now.schema 2 [] lines.now) }
{
    let keys = keys_of_rows(alloc, lines, table.schema().key())?;
    let found = first_key_fault(alloc, table.index(), false, &keys)?;
    Ok(found)
}

// The first fault of lines that say all of a table.
fn first_conflict(
    alloc: Global,
    table: &OpenTable<'_>,
    lines: &[Opened],
) -> Result<Option<BatchFault>, NoMemory>
    requires few { length lines.now + 1 < 2 ^ 32 }
    requires matching { IsTrue (list_all (matches table.now.schema) lines.now) }
    ensures fault { IfOk result (λ found. found
        ≡ conflict_fault table.now.schema 2 [] lines.now) }
    ensures own { IfOk result (λ found. found ≡ None
        → HaveOwnStarts table.now.schema.key lines.now) }
{
    let schema = table.schema();
    let place = schema.key();
    if schema.valid() {
        let found = first_overlap(alloc, lines, place)?;
        return Ok(found);
    }
    let found = first_twice(alloc, table, lines)?;
    Ok(found)
}

// Adds the id of a row that is closed, where the row is not matched. The error is `NoMemory`.
fn close_unmatched(closes: &mut Vec<u32>, row: u32, matched: bool) -> Result<(), NoMemory>
    ensures { OnOk result (closes.new.items ≡ closes.old.items
        ++ (if matched then [] else row ∷ [])) }
{
    if matched {
        return Ok(());
    }
    closes.push(row)?;
    Ok(())
}

// Matches rows with lines, one after the other, and gives the ids of those that no line is matched
// with.
fn match_rows<L: Ledger>(
    alloc: Global,
    table: &OpenTable<'_>,
    lines: &mut LineMatching<'_>,
    rows: &[u32],
    steps: &mut Steps<L>,
) -> Result<Vec<u32>, NoMemory>
    requires rows { All (λ row. row < length table.now.rows) rows.now }
    requires key { lines.old.key ≡ table.now.schema.key }
    ensures closes { IfOk result (λ closes. closes.items
        ≡ ids_of (unmatched_rows (working_rows table.now.rows rows.now) lines.old.lines)) }
    ensures left { IfOk result (λ _. lines.new.lines
        ≡ unmatched_lines (working_rows table.now.rows rows.now) lines.old.lines) }
{
    let mut closes = Vec::new(alloc);
    for row in rows {
        let matched = lines.match_row(alloc, table, *row, steps)?;
        close_unmatched(&mut closes, *row, matched)?;
    }
    Ok(closes)
}

// What lines change in a table of whose open rows the ids are given. No line has the key and the
// start of an earlier one.
fn sync_rows<L: Ledger>(
    alloc: Global,
    table: &OpenTable<'_>,
    lines: &[Opened],
    rows: &[u32],
    blank: Blank,
) -> Result<RowChanges, NoMemory>
    requires name { blank.name ≡ L.name }
    requires parts { blank.parts ≡ L.parts }
    requires some { 0 < blank.parts }
    requires few { length lines.now < 2 ^ 32 }
    requires matching { IsTrue (list_all (matches table.now.schema) lines.now) }
    requires own { HaveOwnStarts table.now.schema.key lines.now }
    requires ids { working_rows table.now.rows rows.now ≡ open_rows table.now }
    requires rows { All (λ row. row < length table.now.rows) rows.now }
    ensures closes { IfOk result (λ c. c.closes
        ≡ ids_of (unmatched_rows (open_rows table.now) lines.now)) }
    ensures opens { IfOk result (λ c. c.opens.items
        ≡ unmatched_lines (open_rows table.now) lines.now) }
{
    let mut steps = Steps::<L>::new(blank);
    let mut left = LineMatching::new(alloc, lines, table.schema().key())?;
    let closes = match_rows(alloc, table, &mut left, rows, &mut steps)?;
    let opens = left.unmatched_lines(alloc)?;
    Ok(RowChanges {
        closes: Seq::from_vec(closes),
        opens,
    })
}

// What rows open that say all of a table where no row stands: all of them.
fn open_all(alloc: Global, rows: PutRows<'_>) -> Result<RowChanges, NoMemory>
    ensures closes { IfOk result (λ c. c.closes ≡ []) }
    ensures opens { IfOk result (λ c. c.opens.items ≡ rows_put rows.entry) }
{
    let opens = rows.into_vec(alloc)?;
    Ok(RowChanges {
        closes: Seq::from_vec(Vec::new(alloc)),
        opens,
    })
}

/// What rows change that say all of a table, or their first fault. The error is `NoMemory`.
pub(crate) fn sync_made(
    alloc: Global,
    table: &OpenTable<'_>,
    rows: PutRows<'_>,
) -> Result<Result<RowChanges, BatchFault>, NoMemory>
    requires few { length (rows_put rows) + 1 < 2 ^ 32 }
    requires matching { IsTrue (list_all (matches table.now.schema) (rows_put rows)) }
    ensures { IfOk result (IsSynced table.now (rows_put rows.entry)) }
{
    let lines = rows.as_slice();
    let found = first_conflict(alloc, table, lines)?;
    if let Some(fault) = found {
        return Ok(Err(fault));
    }
    let open_ids = table.open_ids(alloc)?;
    if open_ids.is_empty() {
        let changes = open_all(alloc, rows)?;
        return Ok(Ok(changes));
    }
    let ids = open_ids.as_slice();
    let changes = sync_rows::<Brand>(alloc, table, lines, ids, Blank::new(1))?;
    Ok(Ok(changes))
}
