//! The rows of an answer as CSV, as csv's default writer writes them: rows of fields as they are,
//! and runs as their group, bounds and value. It refuses nothing but memory.
ghost use Rattle.std.specs.Prelude.{◌≡◌, ℕ, List, ◌<◌, ◌++◌, ◌∷◌, [], length, map, IfOk, OnOk};
ghost use Rattle.std.specs.List.{flat_map};
ghost use Rattle.csv.specs.Writing.{default_writer, row_text};
ghost use Rattle.tl_csv.specs.Answers.{answer_row, answer_text, field_text};
ghost use Rattle.tl_csv.specs.Writing.{bytes_written, IsIdle, IsWithinRow, IsWriting, WritesField};
ghost use Rattle.tl_query.specs.Answers.{run_fields};
ghost use Rattle.tl_rows.specs.Fields.{field_shown};

use crate::bound_texts::BoundTexts;
use crate::field_texts::{FieldText, cell_text};
use csv::{Writer, WriterBuilder};
use itoa::Buffer;
use std::alloc::{AllocError, Global};
use tl_rows::{AnswerRows, FieldRef, FieldRows, RowFields, RowsRef};
use tl_types::{Bytes, NoMemory, Run};

// Writes a field of these bytes.
fn put_bytes(writer: &mut Writer<Vec<u8>>, field: &[u8]) -> Result<(), NoMemory>
    ensures { OnOk result (WritesField writer.old writer.new field.now) }
{
    let Ok(()) = writer.write_field(field) else {
        return Err(AllocError);
    };
    Ok(())
}

// Writes a field.
fn put_field(
    writer: &mut Writer<Vec<u8>>,
    text: &mut FieldText,
    field: FieldRef<'_>,
) -> Result<(), NoMemory>
    ensures { OnOk result
        (WritesField writer.old writer.new (field_text (field_shown field.entry))) }
{
    let bytes = text.of(field)?;
    put_bytes(writer, bytes)?;
    Ok(())
}

// Ends the row whose fields were written.
fn end_row(writer: &mut Writer<Vec<u8>>) -> Result<(), NoMemory>
    ensures row { OnOk result ((bytes : List ℕ) (row : List (List ℕ)) →
        IsWithinRow writer.old bytes row →
        bytes_written writer.new ≡ bytes ++ row_text default_writer row) }
    ensures writing { OnOk result ((bytes : List ℕ) (row : List (List ℕ)) →
        IsWithinRow writer.old bytes row → IsWriting writer.new) }
{
    let Ok(()) = writer.end_record() else {
        return Err(AllocError);
    };
    Ok(())
}

// Writes a row of these fields.
fn write_row(
    writer: &mut Writer<Vec<u8>>,
    text: &mut FieldText,
    row: &RowFields<'_>,
) -> Result<(), NoMemory>
    requires { IsWriting writer.old }
    ensures row { OnOk result (bytes_written writer.new
        ≡ bytes_written writer.old ++ answer_row row.now) }
    ensures writing { OnOk result (IsWriting writer.new) }
{
    for place in 0..row.len() {
        put_field(writer, text, row.at(place))?;
    }
    end_row(writer)?;
    Ok(())
}

// Writes rows of fields.
fn write_rows(
    writer: &mut Writer<Vec<u8>>,
    text: &mut FieldText,
    rows: &FieldRows,
) -> Result<(), NoMemory>
    requires { IsWriting writer.old }
    ensures rows { OnOk result (bytes_written writer.new
        ≡ bytes_written writer.old ++ answer_text rows.now) }
    ensures writing { OnOk result (IsWriting writer.new) }
{
    for row in 0..rows.len() {
        write_row(writer, text, &rows.row(row))?;
    }
    Ok(())
}

// Writes a row of the fields that have these bytes.
fn put_row(writer: &mut Writer<Vec<u8>>, fields: &[&[u8]]) -> Result<(), NoMemory>
    requires { IsWriting writer.old }
    ensures row { OnOk result (bytes_written writer.new
        ≡ bytes_written writer.old ++ row_text default_writer (map (λ f. f.now) fields.now)) }
    ensures writing { OnOk result (IsWriting writer.new) }
{
    let Ok(()) = writer.write_fields(fields) else {
        return Err(AllocError);
    };
    Ok(())
}

// Writes a row of the bounds and the value of a run.
fn put_bounds<'a>(
    writer: &mut Writer<Vec<u8>>,
    from: &'a [u8],
    to: &'a [u8],
    value: &'a [u8],
) -> Result<(), NoMemory>
    requires { IsWriting writer.old }
    ensures row { OnOk result (bytes_written writer.new ≡ bytes_written writer.old
        ++ row_text default_writer (from.now ∷ to.now ∷ value.now ∷ [])) }
    ensures writing { OnOk result (IsWriting writer.new) }
{
    let fields = [from, to, value];
    put_row(writer, fields.as_slice())?;
    Ok(())
}

// Writes a row of the group, the bounds and the value of a run.
fn put_group<'a>(
    writer: &mut Writer<Vec<u8>>,
    group: &'a [u8],
    from: &'a [u8],
    to: &'a [u8],
    value: &'a [u8],
) -> Result<(), NoMemory>
    requires { IsWriting writer.old }
    ensures row { OnOk result (bytes_written writer.new ≡ bytes_written writer.old
        ++ row_text default_writer (group.now ∷ from.now ∷ to.now ∷ value.now ∷ [])) }
    ensures writing { OnOk result (IsWriting writer.new) }
{
    let fields = [group, from, to, value];
    put_row(writer, fields.as_slice())?;
    Ok(())
}

// Writes a run as a row: its group where it has one, its bounds, its value.
fn write_run(
    writer: &mut Writer<Vec<u8>>,
    bounds: &mut BoundTexts,
    text: &mut FieldText,
    run: &Run,
) -> Result<(), NoMemory>
    requires { IsWriting writer.old }
    ensures row { OnOk result (bytes_written writer.new
        ≡ bytes_written writer.old ++ answer_row (run_fields run.now)) }
    ensures writing { OnOk result (IsWriting writer.new) }
{
    let (from, to) = bounds.of(run.from, run.to);
    let value = text.of(FieldRef::from(&run.value))?;
    match &run.group {
        Some(group) => {
            let mut group_digits = Buffer::new();
            let group = cell_text(&mut group_digits, group);
            put_group(writer, group, from, to, value)?;
            Ok(())
        }
        None => {
            put_bounds(writer, from, to, value)?;
            Ok(())
        }
    }
}

// Writes runs as rows.
fn write_runs(
    writer: &mut Writer<Vec<u8>>,
    text: &mut FieldText,
    runs: &[Run],
) -> Result<(), NoMemory>
    requires { IsWriting writer.old }
    ensures rows { OnOk result (bytes_written writer.new
        ≡ bytes_written writer.old ++ flat_map answer_row (map run_fields runs.now)) }
    ensures writing { OnOk result (IsWriting writer.new) }
{
    let mut bounds = BoundTexts::new();
    for run in runs {
        write_run(writer, &mut bounds, text, run)?;
    }
    Ok(())
}

/// Writes the rows of an answer. The error is `NoMemory`.
pub(crate) fn write_answer(
    writer: &mut Writer<Vec<u8>>,
    text: &mut FieldText,
    answer: &AnswerRows,
) -> Result<(), NoMemory>
    requires { IsWriting writer.old }
    ensures rows { OnOk result (bytes_written writer.new
        ≡ bytes_written writer.old ++ answer_text answer.now) }
    ensures writing { OnOk result (IsWriting writer.new) }
{
    match answer.lend() {
        RowsRef::Fields(rows) => {
            write_rows(writer, text, rows)?;
            Ok(())
        }
        RowsRef::Runs(runs) => {
            write_runs(writer, text, runs)?;
            Ok(())
        }
    }
}

/// A writer of rows of any length into a list without bytes. It goes into a box where it is made:
/// its buffer is 8 KB, which each function that holds a writer among its locals would clear at its
/// start. The error is `NoMemory`.
pub(crate) fn writer_of(alloc: Global, list: Vec<u8>) -> Result<Box<Writer<Vec<u8>>>, NoMemory>
    requires { list.items ≡ [] }
    ensures empty { IfOk result (λ writer. bytes_written writer.value ≡ []) }
    ensures idle { IfOk result (λ writer. IsIdle writer.value) }
{
    let writer = WriterBuilder::new().flexible(true).from_writer(list);
    Ok(Box::new(alloc, writer)?)
}

// All bytes that were written.
fn bytes_of(writer: Box<Writer<Vec<u8>>>) -> Result<Bytes, NoMemory>
    ensures { IfOk result (λ bytes. bytes ≡ bytes_written writer.value) }
{
    match Box::into_inner(writer).into_inner() {
        Ok(text) => Ok(Bytes::from_vec(text)),
        Err(_) => Err(AllocError),
    }
}

/// The rows of an answer as csv's default writer writes them: fields separated by commas, each row
/// ended by LF, and a field in double quotes where it needs them. A number is written in decimal, a
/// text as it is, a mean as its sum, `/` and its count, the value over no row as an empty field,
/// and an end that does not come as FOREVER. The error is `NoMemory`.
pub fn answer_bytes(alloc: Global, answer: &AnswerRows) -> Result<Bytes, NoMemory>
    ensures { IfOk result (λ bytes. bytes ≡ answer_text answer.now) }
{
    let mut writer = writer_of(alloc, Vec::new(alloc))?;
    let mut text = FieldText::new(alloc);
    write_answer(&mut writer, &mut text, answer)?;
    bytes_of(writer)
}
