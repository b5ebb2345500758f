//! The open rows of a table with valid time that lines affect: of each key that a line has, those
//! whose period has a moment of such a line. A stretch that stands alone is compared in a loop of
//! its own; nothing but memory is refused.
ghost use Rattle.std.specs.Prelude.{◌≡◌, ◌<◌, ◌&&◌, ◌||◌, ℕ, ℤ, List, [], ◌∷◌, Option, true, All, OnOk, IfOk, length, slice_get};
ghost use Rattle.std.specs.List.{list_any};
ghost use Rattle.tl_types.specs.Plain as plain;
ghost use Rattle.tl_types.specs.History.{has_id, is_within};
ghost use Rattle.tl_types.specs.Resolving.{BatchLine};
ghost use Rattle.tl_batch.specs.Covers.{Beyond, Full, HoldLines, before_all, is_covered};
ghost use Rattle.tl_batch.specs.Pieces.{affected_by, apart_from, is_open_affected};
ghost use Rattle.tl_batch.specs.Standing.{is_open_with};

use crate::cover::Cover;
use crate::few_periods::meets;
use crate::id_list::IdList;
use crate::open_table::OpenTable;
use crate::period_set::PeriodSet;
use crate::periods_by_key::PeriodsByKey;
use std::alloc::Global;
use std::sync::ledger::Ledger;
use tl_types::{Cell, NoMemory, Steps};

// The number of rows at the front that no line affects, where one stretch, given by its end and the
// moment where it begins, covers the moments of the lines.
#[inline(always)]
fn rows_off<L: Ledger>(
    rows: &[u32],
    end: i64,
    start: i64,
    table: &OpenTable<'_>,
    steps: &mut Steps<L>,
) -> usize
    requires valid { table.now.schema.valid ≡ true }
    requires rows { All (λ row. row < length table.now.rows) rows.now }
    requires apart { Beyond before_all ((end, start) ∷ []) }
    ensures { (lines : List (Option plain.Period)) → Full lines
        → ((t : ℤ) → is_covered t ((end, start) ∷ []) ≡ list_any (is_within t) lines)
        → result ≡ apart_from lines table.now.rows rows.now }
{
    for (i, row) in rows.iter().enumerate() {
        let period = table.period_at(*row, steps);
        let met = meets(end, start, period);
        if met {
            return i;
        }
    }
    rows.len()
}

// The number of rows at the front that no line affects, where a cover has the moments of the lines.
fn rows_beside<L: Ledger>(
    rows: &[u32],
    cover: &Cover<'_>,
    table: &OpenTable<'_>,
    steps: &mut Steps<L>,
) -> usize
    requires valid { table.now.schema.valid ≡ true }
    requires rows { All (λ row. row < length table.now.rows) rows.now }
    ensures { (lines : List (Option plain.Period)) → Full lines
        → ((t : ℤ) → is_covered t cover.now ≡ list_any (is_within t) lines)
        → result ≡ apart_from lines table.now.rows rows.now }
{
    for (i, row) in rows.iter().enumerate() {
        let whole = table.period(*row, steps);
        let met = cover.affects(&whole);
        if met {
            return i;
        }
    }
    rows.len()
}

// The same, by one stretch where one stands alone.
fn rows_apart<L: Ledger>(
    rows: &[u32],
    cover: &Cover<'_>,
    table: &OpenTable<'_>,
    steps: &mut Steps<L>,
) -> usize
    requires valid { table.now.schema.valid ≡ true }
    requires rows { All (λ row. row < length table.now.rows) rows.now }
    ensures { (lines : List (Option plain.Period)) → Full lines
        → ((t : ℤ) → is_covered t cover.now ≡ list_any (is_within t) lines)
        → result ≡ apart_from lines table.now.rows rows.now }
{
    match cover.one() {
        Some((end, start)) => rows_off(rows, end, start, table, steps),
        None => rows_beside(rows, cover, table, steps),
    }
}

// Adds the open rows of a key that a line of the key, whose moments are given, overlaps. The list
// of ids is for the rows of the key, whatever it holds.
fn add_rows<L: Ledger>(
    affected: &mut IdList,
    ids: &mut IdList,
    moments: &PeriodSet,
    key: &Cell,
    table: &OpenTable<'_>,
    steps: &mut Steps<L>,
) -> Result<(), NoMemory>
    requires valid { table.now.schema.valid ≡ true }
    ensures { OnOk result ((lines : List (Option plain.Period)) → Full lines
        → ((t : ℤ) → is_covered t moments.now ≡ list_any (is_within t) lines) → (n : ℕ)
        → has_id affected.new n
        ≡ ((is_open_with table.now.schema.key key.now (slice_get table.now.rows n)
        && affected_by true lines (slice_get table.now.rows n)) || has_id affected.old n)) }
{
    table.fill_ids(key, ids)?;
    let cover = Cover::new(Some(moments));
    let mut rest = ids.as_slice();
    let mut apart = rows_apart(rest, &cover, table, steps);
    'rows: while apart < rest.len() {
        let (_, met) = rest.split_at(apart);
        affected.add(met[0])?;
        let (_, behind) = met.split_at(1);
        rest = behind;
        apart = rows_apart(rest, &cover, table, steps);
    }
    Ok(())
}

/// The open rows of a table with valid time that lines affect, of which the periods are given by
/// key. The error is `NoMemory`.
pub(crate) fn affected_rows<L: Ledger>(
    alloc: Global,
    table: &OpenTable<'_>,
    periods: &PeriodsByKey,
    steps: &mut Steps<L>,
) -> Result<IdList, NoMemory>
    requires valid { table.now.schema.valid ≡ true }
    ensures { IfOk result (λ affected. (lines : List BatchLine) → HoldLines periods.now lines
        → (n : ℕ) → has_id affected n
        ≡ is_open_affected table.now.schema lines (slice_get table.now.rows n)) }
{
    let mut affected = IdList::new(alloc);
    let mut ids = IdList::new(alloc);
    let mut entries = periods.entries();
    'keys: while let Some((key, moments)) = entries.next() {
        add_rows(&mut affected, &mut ids, moments, key, table, steps)?;
    }
    Ok(affected)
}
