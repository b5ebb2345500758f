//! The rows that lines open in a table with valid time: what they leave of open rows, and what is
//! left of the rows that they put.
ghost use Rattle.std.specs.Prelude.{◌≡◌, ◌<◌, ◌≤◌, ◌++◌, ◌<ℤ◌, ℤ, [], ◌∷◌, List, Option, true, reverse, Some, All, OnOk, IfOk, length, slice_get, option_map};
ghost use Rattle.std.specs.List.{flat_map, list_any};
ghost use Rattle.tl_types.specs.Resolving.{BatchLine, put_lines};
ghost use Rattle.tl_types.specs.Plain as plain;
ghost use Rattle.tl_types.specs.History.{is_within};
ghost use Rattle.tl_batch.specs.Covers.{Beyond, Full, HoldLines, before_all, gaps, is_covered, stretches_or};
ghost use Rattle.tl_batch.specs.Pieces.{cuts, over, part, pieces_at, row_pieces, put_pieces};

use crate::few_periods::{end_of, start_of};
use crate::many_periods::ManyPeriods;
use crate::open_table::OpenTable;
use crate::parts::Parts;
use crate::period_set::{PeriodSet, Stretches};
use crate::periods_by_key::PeriodsByKey;
use std::alloc::Global;
use std::sync::ledger::Ledger;
use tl_types::{Cell, NoMemory, Opened, Period, Schema, SmallSeq, Steps};

// Appends a row of the cells, of which there are 1 to 16, over each of the periods.
fn push_over(
    alloc: Global,
    opens: &mut Vec<Opened>,
    cells: &[Cell],
    periods: &[Option<Period>],
) -> Result<(), NoMemory>
    requires some { 1 ≤ length cells.now }
    requires few { length cells.now ≤ 16 }
    ensures { OnOk result (opens.new.items ≡ opens.old.items ++ over cells.now periods.now) }
{
    for period in periods {
        let copy = SmallSeq::from_slice(alloc, cells)?;
        opens.push(Opened::new(copy, *period))?;
    }
    Ok(())
}

// Appends a row of the cells of a row of a table over a period.
#[inline(never)]
fn push_part<L: Ledger>(
    alloc: Global,
    opens: &mut Vec<Opened>,
    table: &OpenTable<'_>,
    row: u32,
    part: Period,
    steps: &mut Steps<L>,
) -> Result<(), NoMemory>
    requires { row < length table.now.rows }
    ensures { OnOk result ((r : plain.Row) → slice_get table.now.rows row ≡ Some r
        → opens.new.items ≡ opens.old.items ++ over r.cells (Some part ∷ [])) }
{
    let mut cells = SmallSeq::new(alloc);
    table.push_cells(alloc, &mut cells, row, steps)?;
    opens.push(Opened::new(cells, Some(part)))?;
    Ok(())
}

// Appends a row of the cells of a row of a table over the times from one on and before another,
// where there are any.
#[inline(always)]
fn push_piece<L: Ledger>(
    alloc: Global,
    opens: &mut Vec<Opened>,
    table: &OpenTable<'_>,
    row: u32,
    ends: (i64, i64),
    steps: &mut Steps<L>,
) -> Result<(), NoMemory>
    requires { row < length table.now.rows }
    ensures { OnOk result ((r : plain.Row) → slice_get table.now.rows row ≡ Some r
        → opens.new.items ≡ opens.old.items ++ over r.cells (part ends.0 ends.1)) }
{
    let (from, to) = ends;
    let some = from < to;
    if !some {
        return Ok(());
    }
    push_part(alloc, opens, table, row, Period::new(from, to), steps)?;
    Ok(())
}

// Appends what stretches leave of a row of a table with valid time.
#[inline(always)]
fn push_gaps<L: Ledger>(
    alloc: Global,
    opens: &mut Vec<Opened>,
    table: &OpenTable<'_>,
    row: u32,
    stretches: &[(i64, i64)],
    steps: &mut Steps<L>,
) -> Result<(), NoMemory>
    requires valid { table.now.schema.valid ≡ true }
    requires row { row < length table.now.rows }
    ensures gaps { OnOk result ((r : plain.Row) (p : plain.Period)
        → slice_get table.now.rows row ≡ Some r → r.period ≡ Some p
        → opens.new.items ≡ opens.old.items ++ over r.cells (gaps p.from p.to stretches.now)) }
    ensures timed { OnOk result ((r : plain.Row) → slice_get table.now.rows row ≡ Some r
        → (p : plain.Period) × ((r.period ≡ Some p) × (p.from <ℤ p.to))) }
{
    let period = table.period_at(row, steps);
    let to = period.to();
    let mut start = period.from();
    for stretch in stretches {
        if end_of(stretch) <= start {
            continue;
        }
        if start_of(stretch) >= to {
            push_piece(alloc, opens, table, row, (start, to), steps)?;
            return Ok(());
        }
        push_piece(alloc, opens, table, row, (start, start_of(stretch)), steps)?;
        start = end_of(stretch);
    }
    push_piece(alloc, opens, table, row, (start, to), steps)?;
    Ok(())
}

// Appends what lines leave of a row of a table with valid time, where stretches of a list cover the
// moments of the lines.
#[inline(always)]
fn push_few<L: Ledger>(
    alloc: Global,
    opens: &mut Vec<Opened>,
    table: &OpenTable<'_>,
    row: u32,
    stretches: &[(i64, i64)],
    steps: &mut Steps<L>,
) -> Result<(), NoMemory>
    requires valid { table.now.schema.valid ≡ true }
    requires row { row < length table.now.rows }
    requires beyond { Beyond before_all stretches.now }
    ensures { OnOk result ((r : plain.Row) → slice_get table.now.rows row ≡ Some r
        → (lines : List (Option plain.Period)) → Full lines
        → ((t : ℤ) → is_covered t stretches.now ≡ list_any (is_within t) lines)
        → opens.new.items ≡ opens.old.items ++ over r.cells (cuts true lines r.period)) }
{
    push_gaps(alloc, opens, table, row, stretches, steps)?;
    Ok(())
}

// The same, where stretches of a tree cover them.
#[inline(never)]
fn push_many<L: Ledger>(
    alloc: Global,
    opens: &mut Vec<Opened>,
    table: &OpenTable<'_>,
    row: u32,
    many: &ManyPeriods,
    steps: &mut Steps<L>,
) -> Result<(), NoMemory>
    requires valid { table.now.schema.valid ≡ true }
    requires row { row < length table.now.rows }
    ensures { OnOk result ((r : plain.Row) → slice_get table.now.rows row ≡ Some r
        → (lines : List (Option plain.Period)) → Full lines
        → ((t : ℤ) → is_covered t many.now ≡ list_any (is_within t) lines)
        → opens.new.items ≡ opens.old.items ++ over r.cells (cuts true lines r.period)) }
{
    let period = table.period_at(row, steps);
    let row_cells = table.row_cells(alloc, row, steps)?;
    let parts = many.gaps(alloc, period)?;
    push_over(alloc, opens, row_cells.as_slice(), parts.as_slice())?;
    Ok(())
}

// The same, where a set of moments covers them, or no set does and they have none.
#[inline(always)]
fn push_rest<L: Ledger>(
    alloc: Global,
    opens: &mut Vec<Opened>,
    table: &OpenTable<'_>,
    row: u32,
    moments: Option<&PeriodSet>,
    steps: &mut Steps<L>,
) -> Result<(), NoMemory>
    requires valid { table.now.schema.valid ≡ true }
    requires row { row < length table.now.rows }
    ensures { OnOk result ((r : plain.Row) → slice_get table.now.rows row ≡ Some r
        → (lines : List (Option plain.Period)) → Full lines
        → ((t : ℤ) → is_covered t (stretches_or (option_map (λ m. m.now) moments.entry))
        ≡ list_any (is_within t) lines)
        → opens.new.items ≡ opens.old.items ++ over r.cells (cuts true lines r.period)) }
{
    match moments {
        Some(set) => match set.stretches() {
            Stretches::Few(few) => {
                push_few(alloc, opens, table, row, few.as_slice(), steps)?;
                Ok(())
            }
            Stretches::Many(many) => {
                push_many(alloc, opens, table, row, many, steps)?;
                Ok(())
            }
        },
        None => {
            push_few(alloc, opens, table, row, &[], steps)?;
            Ok(())
        }
    }
}

// Appends what the lines, whose periods are given by key, leave of a row.
fn push_left<L: Ledger>(
    alloc: Global,
    opens: &mut Vec<Opened>,
    table: &OpenTable<'_>,
    periods: &PeriodsByKey,
    row: u32,
    steps: &mut Steps<L>,
) -> Result<(), NoMemory>
    requires valid { table.now.schema.valid ≡ true }
    requires row { row < length table.now.rows }
    ensures { OnOk result ((lines : List BatchLine) → HoldLines periods.now lines → opens.new.items
        ≡ opens.old.items ++ pieces_at table.now.schema lines (slice_get table.now.rows row)) }
{
    let key = table.key(alloc, row, steps)?;
    let moments = periods.moments(&key);
    push_rest(alloc, opens, table, row, moments, steps)?;
    Ok(())
}

// For how many pieces room is taken at once: lines may take rows whole, of which nothing is left.
const MOST_PIECES: usize = 4096;

/// What the lines, whose periods are given by key, leave of some rows, with room for so many rows
/// more, as far as room is taken at once. The error is `NoMemory`.
pub(crate) fn old_pieces<L: Ledger>(
    alloc: Global,
    table: &OpenTable<'_>,
    periods: &PeriodsByKey,
    rows: &[u32],
    room: usize,
    steps: &mut Steps<L>,
) -> Result<Vec<Opened>, NoMemory>
    requires valid { table.now.schema.valid ≡ true }
    requires rows { All (λ row. row < length table.now.rows) rows.now }
    ensures { IfOk result (λ opens. (lines : List BatchLine) → HoldLines periods.now lines
        → opens.items ≡ flat_map (λ row. pieces_at table.now.schema lines
        (slice_get table.now.rows row)) rows.now) }
{
    let mut opens = Vec::with_capacity(
        alloc,
        rows.len()
            .saturating_mul(2)
            .saturating_add(room)
            .min(MOST_PIECES),
    )?;
    for row in rows {
        push_left(alloc, &mut opens, table, periods, *row, steps)?;
    }
    Ok(opens)
}

// Reverses the order of parts.
fn reverse_parts(parts: &mut Parts)
    ensures { parts.new.items ≡ reverse parts.old.items }
{
    parts.as_mut_slice().reverse();
}

// Appends what the lines behind a line, whose periods are given, leave of the row that it puts, the
// last first, and periods the line too.
fn push_behind(
    alloc: Global,
    back: &mut Vec<Opened>,
    periods: &mut PeriodsByKey,
    schema: &Schema,
    line: &Opened,
) -> Result<(), NoMemory>
    requires valid { schema.now.valid ≡ true }
    requires keyed { schema.now.key < length line.now.cells }
    ensures back { OnOk result ((lines : List BatchLine) → HoldLines periods.old lines
        → reverse back.new.items ≡ row_pieces schema.now lines line.now.cells line.now.period
        ++ reverse back.old.items) }
    ensures held { OnOk result ((lines : List BatchLine) → HoldLines periods.old lines
        → HoldLines periods.new
        (record {
          key = slice_get line.now.cells schema.now.key;
          period = line.now.period;
          puts =
              Some line.now;
        } ∷ lines)) }
{
    let cells = line.cells();
    let key = &cells[schema.key() as usize];
    let whole = line.period();
    let mut parts = periods.cut(alloc, key, &whole)?;
    reverse_parts(&mut parts);
    push_over(alloc, back, cells, parts.as_slice())?;
    Ok(())
}

/// What is left of the rows that lines put, the last first, and the periods of the lines by key.
#[derive(Drop)]
pub(crate) struct PutPieces {
    pub(crate) back: Vec<Opened>,
    pub(crate) periods: PeriodsByKey,
}

/// What is left of the rows that the lines put into a table with valid time, each after the lines
/// behind its own, the last first; and the periods of the lines by key. The error is `NoMemory`.
pub(crate) fn pieces_behind(
    alloc: Global,
    schema: &Schema,
    lines: &[Opened],
) -> Result<PutPieces, NoMemory>
    requires valid { schema.now.valid ≡ true }
    requires keyed { All (λ o. schema.now.key < length o.cells) lines.now }
    ensures back { IfOk result (λ put. reverse put.back.items
        ≡ put_pieces schema.now (put_lines schema.now lines.now)) }
    ensures held { IfOk result (λ put. HoldLines put.periods (put_lines schema.now lines.now)) }
{
    let mut periods = PeriodsByKey::with_room(alloc, lines.len())?;
    let mut back = Vec::with_capacity(alloc, lines.len())?;
    let mut i = lines.len();
    'behind: while i > 0 {
        i -= 1;
        push_behind(alloc, &mut back, &mut periods, schema, &lines[i])?;
    }
    Ok(PutPieces { back, periods })
}

/// Appends rows of which the last comes first. The error is `NoMemory`.
pub(crate) fn append_back(opens: &mut Vec<Opened>, back: Vec<Opened>) -> Result<(), NoMemory>
    ensures { OnOk result (opens.new.items ≡ opens.old.items ++ reverse back.items) }
{
    let mut rows = back;
    rows.reverse();
    opens.append(&mut rows)?;
    Ok(())
}
