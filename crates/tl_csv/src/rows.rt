//! The row of a record: its cells in the order of the table, and its period. The first field that
//! is wrong is refused, and then a period that is empty.
ghost use Rattle.std.specs.Prelude.{◌≡◌, ◌≤◌, ◌<◌, ◌+◌, ◌++◌, [], length, map, drop, pos, set};
ghost use Rattle.std.specs.Prelude.{true, OnOk};
ghost use Rattle.std.specs.List.{zip};
ghost use Rattle.csv.specs.Records.{fields_of};
ghost use Rattle.tl_types.specs.declared.cells.Cell.TheVariants as cell;
ghost use Rattle.tl_csv.specs.Faults.{each_from, with_value, then_one, IsUnlessMemory};
ghost use Rattle.tl_csv.specs.Layouts.{are_distinct_places, are_in_order, are_within};
ghost use Rattle.tl_csv.specs.Layouts.{is_period_within};
ghost use Rattle.tl_csv.specs.Block.{cell_at, cell_in, period_between, period_of, row_of, row_with};
ghost use Rattle.tl_csv.specs.Block.{row_in_order};

use crate::cells::{Spot, cell_of};
use crate::faults::CsvFault;
use crate::layouts::{Layout, PeriodPlaces};
use crate::needs::FieldKind;
use crate::records::next_field;
use csv::ByteRecord;
use std::alloc::Global;
use std::mem;
use tl_types::{Cell, Limits, NoMemory, Opened, Period, SmallSeq};

// Puts the cells of the record's fields from a place on, which are of these kinds, into `cells`, in
// the order of the record.
#[tactic(auto, using(crate::proofs::FaultLemmas::behind_steps))]
#[inline(never)]
fn read_cells(
    alloc: Global,
    limits: &Limits,
    first: Spot,
    kinds: &[FieldKind],
    row: &ByteRecord,
    cells: &mut Vec<Cell>,
) -> Result<(), CsvFault>
    requires short { limits.now.text ≤ 65535 }
    requires empty { cells.old.items ≡ [] }
    ensures { IsUnlessMemory (with_value cells.new.items result)
        (each_from (cell_at limits.now first.rec) first.place
        (zip kinds.now (drop first.place (fields_of row.now)))) }
{
    let mut rest = kinds;
    let mut place = first.place;
    'fields: while let [kind, behind @ ..] = rest {
        let Some(field) = next_field(row, place) else {
            return Ok(());
        };
        cells.push(cell_of(alloc, limits, first.rec, place, *kind, field)?)?;
        rest = behind;
        place += 1;
    }
    Ok(())
}

// Puts the cells of the record's fields, which are of these kinds, in the place of those of another
// record.
#[inline(always)]
fn read_behind(
    alloc: Global,
    limits: &Limits,
    first: Spot,
    kinds: &[FieldKind],
    row: &ByteRecord,
    cells: &mut Vec<Cell>,
) -> Result<(), CsvFault>
    requires { limits.now.text ≤ 65535 }
    ensures { IsUnlessMemory (with_value cells.new.items result)
        (each_from (cell_at limits.now first.rec) first.place
        (zip kinds.now (drop first.place (fields_of row.now)))) }
{
    cells.clear();
    if kinds.is_empty() {
        return Ok(());
    }
    read_cells(alloc, limits, first, kinds, row, cells)?;
    Ok(())
}

// Puts the cells of the record's first fields, which are of these kinds, into a short list.
#[tactic(auto, using(crate::proofs::FaultLemmas::behind_steps))]
fn read_front(
    alloc: Global,
    limits: &Limits,
    rec: u32,
    kinds: &[FieldKind],
    row: &ByteRecord,
    cells: &mut SmallSeq<Cell>,
) -> Result<(), CsvFault>
    requires short { limits.now.text ≤ 65535 }
    requires empty { cells.old ≡ [] }
    ensures { IsUnlessMemory (with_value cells.new result)
        (each_from (cell_at limits.now rec) 0 (zip kinds.now (fields_of row.now))) }
{
    let mut rest = kinds;
    let mut place = 0;
    'fields: while let [kind, behind @ ..] = rest {
        let Some(field) = next_field(row, place) else {
            return Ok(());
        };
        cells.push(cell_of(alloc, limits, rec, place, *kind, field)?)?;
        rest = behind;
        place += 1;
    }
    Ok(())
}

// The cell at a place of a record.
fn cell_in(cells: &[Cell], place: usize) -> &Cell
    requires { place < length cells.now }
    ensures { result.now ≡ cell_in cells.now place }
{
    &cells[place]
}

// Takes the cell at a place out of the record's cells.
fn take_cell(cells: &mut [Cell], place: usize) -> Cell
    requires { place < length cells.old }
    ensures taken { result ≡ cell_in cells.old place }
    ensures left { cells.new ≡ set cells.old place (cell.Int (pos 0)) }
{
    mem::replace(&mut cells[place], Cell::Int(0))
}

// Takes the cells at these places out of the record's cells and puts them, in the order of the
// places, into a list that is empty.
#[tactic(auto, using(crate::proofs::RowLemmas::one_within))]
fn take_into(
    cells: &mut [Cell],
    places: &[usize],
    taken: &mut SmallSeq<Cell>,
) -> Result<(), NoMemory>
    requires empty { taken.old ≡ [] }
    requires distinct { are_distinct_places places.now ≡ true }
    requires within { are_within (length cells.old) places.now ≡ true }
    ensures { OnOk result (taken.new ≡ map (cell_in cells.old) places.now) }
{
    for place in places {
        taken.push(take_cell(cells, *place))?;
    }
    Ok(())
}

// The period between two moments, of which the first must be less than the second.
fn period_between(rec: u32, from: &Cell, to: &Cell) -> Result<Period, CsvFault>
    ensures { result ≡ period_between rec from.now to.now }
{
    match (from, to) {
        (Cell::Int(from), Cell::Int(to)) if *from < *to => Ok(Period::new(*from, *to)),
        _ => Err(CsvFault::EmptyPeriod { rec }),
    }
}

// The period of a record with these cells, where the table has valid time.
fn period_of(
    rec: u32,
    cells: &[Cell],
    period: Option<PeriodPlaces>,
) -> Result<Option<Period>, CsvFault>
    requires { is_period_within (length cells.now) period ≡ true }
    ensures { result ≡ period_of rec cells.now period }
{
    let Some(places) = period else {
        return Ok(None);
    };
    let period = period_between(rec, cell_in(cells, places.from), cell_in(cells, places.to))?;
    Ok(Some(period))
}

// The cell at a place of a record whose first cells are apart.
fn cell_beside<'a>(front: &'a [Cell], behind: &'a [Cell], place: usize) -> &'a Cell
    requires { place < length front.now + length behind.now }
    ensures { result.now ≡ cell_in (front.now ++ behind.now) place }
{
    if place < front.len() {
        return &front[place];
    }
    &behind[place - front.len()]
}

// The period of a record whose first cells are apart, where the table has valid time.
fn period_beside(
    rec: u32,
    front: &[Cell],
    behind: &[Cell],
    period: Option<PeriodPlaces>,
) -> Result<Option<Period>, CsvFault>
    requires { is_period_within (length front.now + length behind.now) period ≡ true }
    ensures { result ≡ period_of rec (front.now ++ behind.now) period }
{
    let Some(places) = period else {
        return Ok(None);
    };
    let from = cell_beside(front, behind, places.from);
    let to = cell_beside(front, behind, places.to);
    let period = period_between(rec, from, to)?;
    Ok(Some(period))
}

/// The rows of records, one for each, and room for the cells of one record.
#[derive(Drop)]
pub(crate) struct Lines {
    /// The rows of the records so far, in order.
    pub(crate) rows: Vec<Opened>,
    /// Room for cells of one record, which take the place of those of the record before.
    pub(crate) cells: Vec<Cell>,
}

// Puts the row of a record with these cells, which it takes, behind the rows. The error is that of
// the period, or `NoMemory`.
fn push_row_with(
    alloc: Global,
    layout: &Layout,
    rec: u32,
    cells: &mut [Cell],
    rows: &mut Vec<Opened>,
) -> Result<(), CsvFault>
    requires { length cells.old ≡ length layout.now.kinds }
    ensures { IsUnlessMemory (with_value rows.new.items result)
        (then_one rows.old.items (row_with layout.now rec cells.old)) }
{
    let period = period_of(rec, cells, layout.period())?;
    let mut taken = SmallSeq::new(alloc);
    take_into(cells, layout.columns(), &mut taken)?;
    rows.push(Opened::new(taken, period))?;
    Ok(())
}

// Puts the row of a record with the cells of the columns elsewhere than first behind the rows.
#[inline(never)]
fn push_in_other_order(
    alloc: Global,
    limits: &Limits,
    layout: &Layout,
    rec: u32,
    row: &ByteRecord,
    lines: &mut Lines,
) -> Result<(), CsvFault>
    requires text { limits.now.text ≤ 65535 }
    requires number { length (fields_of row.now) ≡ length layout.now.kinds }
    ensures { IsUnlessMemory (with_value lines.new.rows.items result)
        (then_one lines.old.rows.items (row_of limits.now layout.now rec (fields_of row.now))) }
{
    let first = Spot { rec, place: 0 };
    read_behind(alloc, limits, first, layout.kinds(), row, &mut lines.cells)?;
    push_row_with(
        alloc,
        layout,
        rec,
        lines.cells.as_mut_slice(),
        &mut lines.rows,
    )
}

// Puts the row of a record with the cells of the columns first, in the order of the table, behind
// the rows.
fn push_in_order(
    alloc: Global,
    limits: &Limits,
    layout: &Layout,
    rec: u32,
    row: &ByteRecord,
    lines: &mut Lines,
) -> Result<(), CsvFault>
    requires text { limits.now.text ≤ 65535 }
    requires number { length (fields_of row.now) ≡ length layout.now.kinds }
    requires order { are_in_order layout.now.columns ≡ true }
    ensures { IsUnlessMemory (with_value lines.new.rows.items result)
        (then_one lines.old.rows.items
        (row_in_order limits.now layout.now rec (fields_of row.now))) }
{
    lines.rows.reserve(1)?;
    let (front, behind) = layout.kinds().split_at(layout.columns().len());
    let mut taken = SmallSeq::new(alloc);
    read_front(alloc, limits, rec, front, row, &mut taken)?;
    let first = Spot {
        rec,
        place: layout.columns().len(),
    };
    read_behind(alloc, limits, first, behind, row, &mut lines.cells)?;
    let period = period_beside(
        rec,
        taken.as_slice(),
        lines.cells.as_slice(),
        layout.period(),
    )?;
    lines.rows.push_reserved(Opened::new(taken, period));
    Ok(())
}

/// Puts the row of the record with this number behind the rows. The error is the record's first
/// fault, or `NoMemory`.
#[tactic(auto, using(crate::proofs::RowLemmas::in_order_is))]
pub(crate) fn push_row_of(
    alloc: Global,
    limits: &Limits,
    layout: &Layout,
    rec: u32,
    row: &ByteRecord,
    lines: &mut Lines,
) -> Result<(), CsvFault>
    requires { limits.now.text ≤ 65535 }
    ensures { IsUnlessMemory (with_value lines.new.rows.items result)
        (then_one lines.old.rows.items (row_of limits.now layout.now rec (fields_of row.now))) }
{
    if row.len() != layout.kinds().len() {
        return Err(CsvFault::FieldCount { rec });
    }
    if layout.is_in_order() {
        push_in_order(alloc, limits, layout, rec, row, lines)?;
        return Ok(());
    }
    push_in_other_order(alloc, limits, layout, rec, row, lines)?;
    Ok(())
}
