//! The listing of the rows of a table: a line of CSV a row, as an answer has it. Rows are read in
//! their place and written in pieces, so that neither all rows nor the whole listing are kept.
ghost use Rattle.std.specs.Prelude.{◌≡◌, ◌++◌, ◌∷◌, ◌<◌, ◌≤◌, [], pos, IfErr, IfOk, OnErr, OnOk, Some, drop, length, slice_get, map};
ghost use Rattle.std.specs.List.{flat_map};
ghost use Rattle.tl_types.specs.declared.answers.Field.TheVariants as field;
ghost use Rattle.tl_types.specs.History.{database_of};
ghost use Rattle.tl_types.specs.Plain as plain;
ghost use Rattle.tl_query.specs.Fields.{cell_field, moment_field};
ghost use Rattle.tl_rows.specs.Fields.{field_shown};
ghost use Rattle.tl_store.specs.Reading.{cell_shown};
ghost use Rattle.tl_csv.specs.Answers.{answer_row};
ghost use Rattle.tl_device.specs.Known.{append_known};
ghost use Rattle.tl_log.specs.Rows.{cells_from, end_field, name_field, name_fields, period_fields, period_names, row_fields, row_lines, rows_text, version_names};
ghost use Rattle.tl_log.specs.Writing.{CountsWritten, Sends, WritesPart};

use crate::table_rows::TableRows;
use crate::writing::{WriteFault, write_bytes};
use std::alloc::Global;
use std::marker::Brand;
use std::sync::ledger::{Blank, Ledger};
use tl_csv::answer_bytes;
use tl_device::Sink;
use tl_rows::{FieldRef, RowsWriter};
use tl_store::{CellRef, Store};
use tl_types::{Bytes, Column, NoMemory, OPEN, Period, Schema, Steps};

// The most rows of a piece, and how many bytes of texts end one.
const MOST_ROWS: u32 = 1024;

const MOST_BYTES: usize = 65_536;

fn cell_field(cell: CellRef<'_>) -> FieldRef<'_>
    ensures { field_shown result ≡ cell_field (cell_shown cell.entry) }
{
    match cell {
        CellRef::Int(number) => FieldRef::Number(i128::from(number)),
        CellRef::Text(text) => FieldRef::Text(text.as_bytes()),
    }
}

// The number of bytes of a text, 0 of a number.
fn text_len(cell: CellRef<'_>) -> usize {
    match cell {
        CellRef::Int(_) => 0,
        CellRef::Text(text) => text.len(),
    }
}

// The end of a valid period, of which the greatest has a field of its own.
fn moment_field(moment: i64) -> FieldRef<'static>
    ensures { field_shown result ≡ moment_field moment }
{
    if moment == Period::FOREVER {
        FieldRef::Forever
    } else {
        FieldRef::Number(i128::from(moment))
    }
}

// The version that ended a row, which is empty while the row stands.
fn end_field(to: u32) -> FieldRef<'static>
    ensures { field_shown result ≡ end_field to }
{
    if to == OPEN {
        FieldRef::Empty
    } else {
        FieldRef::Number(i128::from(to))
    }
}

// Appends the id of a row, and the versions that opened and ended it.
fn push_versions<L: Ledger>(
    rows: &mut RowsWriter,
    table: &TableRows<'_>,
    row: u32,
    steps: &mut Steps<L>,
) -> Result<(), NoMemory>
    requires { row < length table.now.rows }
    ensures rows { OnOk result (rows.new.rows ≡ rows.old.rows) }
    ensures row { (r : plain.Row) → slice_get table.now.rows row ≡ Some r →
        OnOk result (rows.new.row ≡ rows.old.row ++ field.Number (pos row)
        ∷ field.Number (pos r.from) ∷ end_field r.to ∷ []) }
{
    let versions = table.versions(row, steps);
    rows.push(FieldRef::Number(i128::from(row)))?;
    rows.push(FieldRef::Number(i128::from(versions.from)))?;
    rows.push(end_field(versions.to))?;
    Ok(())
}

// Appends the ends of the valid period of a row, where the table's rows have one.
fn push_period<L: Ledger>(
    rows: &mut RowsWriter,
    table: &TableRows<'_>,
    row: u32,
    steps: &mut Steps<L>,
) -> Result<(), NoMemory>
    requires { row < length table.now.rows }
    ensures rows { OnOk result (rows.new.rows ≡ rows.old.rows) }
    ensures row { (r : plain.Row) → slice_get table.now.rows row ≡ Some r →
        OnOk result (rows.new.row
        ≡ rows.old.row ++ period_fields table.now.schema.valid r) }
{
    let is_valid = table.schema().valid();
    if !is_valid {
        return Ok(());
    }
    let period = table.period(row, steps);
    rows.push(FieldRef::Number(i128::from(period.from())))?;
    rows.push(moment_field(period.to()))?;
    Ok(())
}

// Appends the cells of a row, and answers how many bytes their texts have together.
fn push_cells<L: Ledger>(
    rows: &mut RowsWriter,
    table: &TableRows<'_>,
    row: u32,
    steps: &mut Steps<L>,
) -> Result<usize, NoMemory>
    requires { row < length table.now.rows }
    ensures rows { OnOk result (rows.new.rows ≡ rows.old.rows) }
    ensures row { (r : plain.Row) → slice_get table.now.rows row ≡ Some r →
        OnOk result (rows.new.row
        ≡ rows.old.row ++ cells_from r.cells 0 table.now.schema.columns) }
{
    let columns = table.schema().columns();
    let mut bytes = 0usize;
    for place in 0..columns.len() {
        let cell = table.cell(row, place as u8, steps);
        rows.push(cell_field(cell))?;
        bytes = bytes.saturating_add(text_len(cell));
    }
    Ok(bytes)
}

// Appends a row, and answers how many bytes its texts have together.
#[tactic(auto, using(crate::proofs::RowLemmas::row_whole))]
fn push_row<L: Ledger>(
    rows: &mut RowsWriter,
    table: &TableRows<'_>,
    row: u32,
    steps: &mut Steps<L>,
) -> Result<usize, NoMemory>
    requires row { row < length table.now.rows }
    requires between { rows.old.row ≡ [] }
    ensures rows { (r : plain.Row) → slice_get table.now.rows row ≡ Some r →
        OnOk result (rows.new.rows
        ≡ rows.old.rows ++ row_fields table.now.schema row r ∷ []) }
    ensures between { OnOk result (rows.new.row ≡ []) }
{
    push_versions(rows, table, row, steps)?;
    push_period(rows, table, row, steps)?;
    let bytes = push_cells(rows, table, row, steps)?;
    rows.end_row()?;
    Ok(bytes)
}

// Appends the rows of a piece from an id on, and answers the id of the row behind it.
fn push_piece<L: Ledger>(
    rows: &mut RowsWriter,
    table: &TableRows<'_>,
    first: u32,
    steps: &mut Steps<L>,
) -> Result<u32, NoMemory>
    requires first { first < length table.now.rows }
    requires between { rows.old.row ≡ [] }
    ensures next { IfOk result (λ next. (first < next) × (next ≤ length table.now.rows)) }
    ensures rows { IfOk result (λ next. flat_map answer_row rows.new.rows
        ++ row_lines table.now.schema next (drop next table.now.rows)
        ≡ flat_map answer_row rows.old.rows
        ++ row_lines table.now.schema first (drop first table.now.rows)) }
    ensures between { OnOk result (rows.new.row ≡ []) }
{
    let end = table.len().min(first + MOST_ROWS);
    let mut bytes = push_row(rows, table, first, steps)?;
    let mut next = first + 1;
    'piece: while next < end && bytes < MOST_BYTES {
        let more = push_row(rows, table, next, steps)?;
        bytes = bytes.saturating_add(more);
        next += 1;
    }
    Ok(next)
}

// The lines of the rows of a piece from an id on, and the id of the row behind it.
fn piece_from<L: Ledger>(
    alloc: Global,
    table: &TableRows<'_>,
    first: u32,
    steps: &mut Steps<L>,
) -> Result<(Bytes, u32), NoMemory>
    requires { first < length table.now.rows }
    ensures next { IfOk result (λ p. (first < p.1) × (p.1 ≤ length table.now.rows)) }
    ensures lines { IfOk result (λ p. p.0
        ++ row_lines table.now.schema p.1 (drop p.1 table.now.rows)
        ≡ row_lines table.now.schema first (drop first table.now.rows)) }
{
    let mut rows = RowsWriter::new(alloc);
    let next = push_piece(&mut rows, table, first, steps)?;
    let bytes = answer_bytes(alloc, &rows.finish())?;
    Ok((bytes, next))
}

// Writes the lines of the rows of a piece from an id on, and answers the id of the row behind it.
fn write_piece<K: Sink, L: Ledger>(
    alloc: Global,
    table: &TableRows<'_>,
    first: u32,
    sink: &mut K,
    steps: &mut Steps<L>,
) -> Result<u32, WriteFault>
    requires { first < length table.now.rows }
    ensures next { IfOk result (λ next. (first < next) × (next ≤ length table.now.rows)) }
    ensures sends { IfOk result (λ next. Sends
        (row_lines table.now.schema first (drop first table.now.rows))
        (row_lines table.now.schema next (drop next table.now.rows))
        (K.written sink.old) (K.written sink.new)) }
    ensures sure { OnOk result (K.faults sink.new ≡ K.faults sink.old) }
    ensures part { OnErr result (WritesPart
        (row_lines table.now.schema first (drop first table.now.rows))
        (K.written sink.old) (K.written sink.new)) }
    ensures faults { IfErr result (λ e.
        CountsWritten e (K.faults sink.old) (K.faults sink.new)) }
{
    let Ok((bytes, next)) = piece_from(alloc, table, first, steps) else {
        return Err(WriteFault::NoMemory);
    };
    match write_bytes(sink, bytes.as_slice()) {
        Ok(()) => Ok(next),
        Err(fault) => Err(fault),
    }
}

// Writes the lines of all rows.
fn write_lines<K: Sink, L: Ledger>(
    alloc: Global,
    table: &TableRows<'_>,
    sink: &mut K,
    steps: &mut Steps<L>,
) -> Result<(), WriteFault>
    ensures all { OnOk result (K.written sink.new ≡ append_known (K.written sink.old)
        (row_lines table.now.schema 0 table.now.rows)) }
    ensures sure { OnOk result (K.faults sink.new ≡ K.faults sink.old) }
    ensures part { OnErr result (WritesPart (row_lines table.now.schema 0 table.now.rows)
        (K.written sink.old) (K.written sink.new)) }
    ensures faults { IfErr result (λ e.
        CountsWritten e (K.faults sink.old) (K.faults sink.new)) }
{
    let end = table.len();
    let mut row = 0;
    'pieces: while row < end {
        match write_piece(alloc, table, row, sink, steps) {
            Ok(next) => row = next,
            Err(fault) => return Err(fault),
        }
    }
    Ok(())
}

// Appends a name.
fn push_name(rows: &mut RowsWriter, name: &str) -> Result<(), NoMemory>
    ensures rows { OnOk result (rows.new.rows ≡ rows.old.rows) }
    ensures row { OnOk result (rows.new.row ≡ rows.old.row ++ field.Text name.now ∷ []) }
{
    rows.push(FieldRef::Text(name.as_bytes()))?;
    Ok(())
}

// Appends the names of the ends of valid periods, where the table's rows have one.
fn push_period_names(rows: &mut RowsWriter, schema: &Schema) -> Result<(), NoMemory>
    ensures rows { OnOk result (rows.new.rows ≡ rows.old.rows) }
    ensures row { OnOk result (rows.new.row ≡ rows.old.row ++ period_names schema.now.valid) }
{
    let is_valid = schema.valid();
    if !is_valid {
        return Ok(());
    }
    push_name(rows, "valid_from")?;
    push_name(rows, "valid_to")?;
    Ok(())
}

// Appends the names of columns.
fn push_column_names(rows: &mut RowsWriter, columns: &[Column]) -> Result<(), NoMemory>
    ensures rows { OnOk result (rows.new.rows ≡ rows.old.rows) }
    ensures row { OnOk result (rows.new.row ≡ rows.old.row ++ map name_field columns.now) }
{
    for column in columns {
        push_name(rows, column.name.as_str())?;
    }
    Ok(())
}

// Appends the names of a row's id and of the versions that opened and ended it.
fn push_version_names(rows: &mut RowsWriter) -> Result<(), NoMemory>
    ensures rows { OnOk result (rows.new.rows ≡ rows.old.rows) }
    ensures row { OnOk result (rows.new.row ≡ rows.old.row ++ version_names) }
{
    push_name(rows, "id")?;
    push_name(rows, "from")?;
    push_name(rows, "to")?;
    Ok(())
}

// The line of names.
#[tactic(auto, using(crate::proofs::RowLemmas::one_line))]
fn names_line(alloc: Global, schema: &Schema) -> Result<Bytes, NoMemory>
    ensures { IfOk result (λ bytes. bytes ≡ answer_row (name_fields schema.now)) }
{
    let mut rows = RowsWriter::new(alloc);
    push_version_names(&mut rows)?;
    push_period_names(&mut rows, schema)?;
    push_column_names(&mut rows, schema.columns())?;
    rows.end_row()?;
    let bytes = answer_bytes(alloc, &rows.finish())?;
    Ok(bytes)
}

// Writes the line of names.
fn write_names<K: Sink>(alloc: Global, schema: &Schema, sink: &mut K) -> Result<(), WriteFault>
    ensures all { OnOk result (K.written sink.new ≡ append_known (K.written sink.old)
        (answer_row (name_fields schema.now))) }
    ensures sure { OnOk result (K.faults sink.new ≡ K.faults sink.old) }
    ensures part { OnErr result (WritesPart (answer_row (name_fields schema.now))
        (K.written sink.old) (K.written sink.new)) }
    ensures faults { IfErr result (λ e.
        CountsWritten e (K.faults sink.old) (K.faults sink.new)) }
{
    let Ok(bytes) = names_line(alloc, schema) else {
        return Err(WriteFault::NoMemory);
    };
    write_bytes(sink, bytes.as_slice())
}

// Writes the listing, whose steps are counted and not told.
fn write_table<K: Sink, L: Ledger>(
    alloc: Global,
    table: &TableRows<'_>,
    sink: &mut K,
    blank: Blank,
) -> Result<(), WriteFault>
    requires name { blank.name ≡ L.name }
    requires parts { blank.parts ≡ L.parts }
    requires some { 0 < blank.parts }
    ensures all { OnOk result (K.written sink.new ≡ append_known (K.written sink.old)
        (rows_text table.now)) }
    ensures sure { OnOk result (K.faults sink.new ≡ K.faults sink.old) }
    ensures part { OnErr result (WritesPart (rows_text table.now)
        (K.written sink.old) (K.written sink.new)) }
    ensures faults { IfErr result (λ e.
        CountsWritten e (K.faults sink.old) (K.faults sink.new)) }
{
    let mut steps = Steps::<L>::new(blank);
    if let Err(fault) = write_names(alloc, table.schema(), sink) {
        return Err(fault);
    }
    if let Err(fault) = write_lines(alloc, table, sink, &mut steps) {
        return Err(fault);
    }
    Ok(())
}

/// Writes the listing of the rows of a table of a store, by the table's number, from 0: a line of
/// names, and then a line a row in order of id, with its id, the version that opened it, the
/// version that ended it, which is empty while the row stands, the ends of its valid period where
/// the table's rows have one, and its cells. It is written in pieces. `Sink`: the sink failed;
/// `faults` is its count of faults, which rose in this call, and some first part of the listing is
/// written. `NoMemory`: memory ran out, and some first part of the listing is written.
pub fn write_rows<K: Sink>(
    alloc: Global,
    store: &Store,
    table: u16,
    sink: &mut K,
) -> Result<(), WriteFault>
    requires { table < length (database_of store.now).tables }
    ensures all { (t : plain.Table) → slice_get (database_of store.now).tables table ≡ Some t →
        OnOk result (K.written sink.new ≡ append_known (K.written sink.old) (rows_text t)) }
    ensures sure { OnOk result (K.faults sink.new ≡ K.faults sink.old) }
    ensures part { (t : plain.Table) → slice_get (database_of store.now).tables table ≡ Some t →
        OnErr result (WritesPart (rows_text t) (K.written sink.old) (K.written sink.new)) }
    ensures faults { IfErr result (λ e.
        CountsWritten e (K.faults sink.old) (K.faults sink.new)) }
{
    write_table::<K, Brand>(alloc, &TableRows::new(store, table), sink, Blank::new(1))
}
