//! Rows of answers, and their text.
ghost use Rattle.std.specs.Prelude.{◌≡◌, [], OnOk};

use std::alloc::Global;
use std::test::Fail;
use tl_csv::answer_bytes;
use tl_rows::{AnswerRows, FieldRef, RowsWriter};
use tl_types::{Cell, Field, NoMemory, Period, Run, Seq};

// Writes a row with a field of each kind.
fn write_each_kind(rows: &mut RowsWriter) -> Result<(), NoMemory>
    ensures { OnOk result (rows.new.row ≡ []) }
{
    rows.push(FieldRef::Number(-5))?;
    rows.push(FieldRef::Number(i128::MAX))?;
    rows.push(FieldRef::Text(b"a,b".as_slice()))?;
    rows.push(FieldRef::Ratio { sum: 7, count: 2 })?;
    rows.push(FieldRef::Empty)?;
    rows.push(FieldRef::Forever)?;
    rows.end_row()?;
    Ok(())
}

// Writes a row with copies of two fields.
fn write_copies(rows: &mut RowsWriter, first: &Field, second: &Field) -> Result<(), NoMemory>
    ensures { OnOk result (rows.new.row ≡ []) }
{
    rows.push(FieldRef::from(first))?;
    rows.push(FieldRef::from(second))?;
    rows.end_row()?;
    Ok(())
}

// Whether the text of rows is this one, and so many are rows.
pub(crate) fn rows_are(alloc: Global, rows: AnswerRows, count: usize, text: &str) -> bool {
    match answer_bytes(alloc, &rows) {
        Ok(bytes) => rows.len() == count && bytes.as_slice() == text.as_bytes(),
        Err(_) => false,
    }
}

// Whether the text of a row with a field of each kind is this one.
fn each_kind_is(alloc: Global, text: &str) -> bool {
    let mut rows = RowsWriter::new(alloc);
    match write_each_kind(&mut rows) {
        Ok(()) => rows_are(alloc, rows.finish(), 1, text),
        Err(_) => false,
    }
}

// Whether the text of a row with copies of two fields is this one.
fn copies_are(alloc: Global, first: &Field, second: &Field, text: &str) -> bool {
    let mut rows = RowsWriter::new(alloc);
    match write_copies(&mut rows, first, second) {
        Ok(()) => rows_are(alloc, rows.finish(), 1, text),
        Err(_) => false,
    }
}

// Whether the text of a row without fields is this one.
fn no_fields_are(alloc: Global, text: &str) -> bool {
    let mut rows = RowsWriter::new(alloc);
    match rows.end_row() {
        Ok(()) => rows_are(alloc, rows.finish(), 1, text),
        Err(_) => false,
    }
}

// Appends a run of a group, and one without a group or an end.
fn push_runs(runs: &mut Seq<Run>) -> Result<(), NoMemory> {
    runs.push(Run {
        group: Some(Cell::Int(7)),
        from: 1,
        to: 5,
        value: Field::Ratio { sum: -7, count: 2 },
    })?;
    runs.push(Run {
        group: None,
        from: -3,
        to: Period::FOREVER,
        value: Field::Empty,
    })?;
    Ok(())
}

// Whether the text of the two runs is this one.
fn runs_are(alloc: Global, text: &str) -> bool {
    let mut runs = Seq::new(alloc);
    match push_runs(&mut runs) {
        Ok(()) => rows_are(alloc, AnswerRows::of_runs(runs), 2, text),
        Err(_) => false,
    }
}

#[test]
fn fields_are_written(rt: HostRuntime) -> Result<(), Fail> {
    let alloc = rt.alloc();
    let each = "-5,170141183460469231731687303715884105727,\"a,b\",7/2,,FOREVER\n";
    assert!(rt; each_kind_is(alloc, each));
    assert!(rt; copies_are(alloc, &Field::Number(3), &Field::Forever, "3,FOREVER\n"));
    assert!(rt; no_fields_are(alloc, "\"\"\n"));
    assert!(rt; runs_are(alloc, "7,1,5,-7/2\n-3,FOREVER,\n"));
    assert!(rt; rows_are(alloc, RowsWriter::new(alloc).finish(), 0, ""));
    Ok(())
}
