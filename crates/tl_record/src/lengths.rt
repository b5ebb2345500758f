//! How long records are, and that what is in a commit has the sizes that a record has room for.
ghost use Rattle.std.specs.Prelude.{◌≡◌, ◌≤◌, ◌<◌, ◌^◌, ◌*◌, length};
ghost use Rattle.std.specs.List.{flat_map, AllByRecursion};
ghost use Rattle.tl_record.specs.Spelling.{
  number,
  kind_byte,
  flag_byte,
  column_bytes,
  schema_bytes,
  cell_bytes,
  period_bytes,
  row_bytes,
  change_bytes,
  spelling,
  IsNumber,
  IsCell,
  IsPeriod,
  IsRow,
  IsBody,
  IsCommit,
};

use tl_types::{Body, Cell, Change, Column, ColumnKind, Commit, Opened, Period, Schema};

/// What a column holds, as it is spelled.
pub fn kind_byte(kind: ColumnKind) -> u8
    ensures { result ≡ kind_byte kind }
{
    match kind {
        ColumnKind::IntKind => 1,
        ColumnKind::TextKind => 2,
    }
}

/// Yes or no, as it is spelled.
pub fn flag_byte(flag: bool) -> u8
    ensures { result ≡ flag_byte flag }
{
    if flag { 1 } else { 0 }
}

/// The number of bytes of a commit's record.
pub fn record_len(commit: &Commit) -> usize
    ensures len { result ≡ length (spelling commit.now) }
    ensures small { result < 2 ^ 60 }
    ensures fits { IsCommit commit.now }
{
    let _author = commit.author; // says that it is of 32 bits
    match &commit.body {
        Body::Create(schema) => 5 + schema_len(schema),
        Body::Change(change) => 5 + change_len(change),
        Body::Moment { moment } => {
            let _moment = *moment; // says that it is of 64 bits
            13
        }
        Body::Forget { table, floor } => {
            let _table = *table; // says that it is of 16 bits
            let _floor = *floor; // says that it is of 32 bits
            11
        }
    }
}

fn columns_len(columns: &[Column]) -> usize
    requires { length columns.now ≤ 16 }
    ensures len { result ≡ length (flat_map column_bytes columns.now) }
    ensures small { result ≤ 65537 * length columns.now }
{
    match columns {
        [] => 0,
        [first, rest @ ..] => 2 + first.name.as_bytes().len() + columns_len(rest),
    }
}

fn schema_len(schema: &Schema) -> usize
    ensures len { result ≡ length (schema_bytes schema.now) }
    ensures small { result < 2 ^ 22 }
    ensures fits { IsBody (Body.Create schema.now) }
{
    4 + schema.name().as_bytes().len() + columns_len(schema.columns())
}

fn cell_len(cell: &Cell) -> usize
    ensures len { result ≡ length (cell_bytes cell.now) }
    ensures small { result ≤ 65538 }
    ensures fits { IsCell cell.now }
{
    match cell {
        Cell::Int(value) => {
            let _value = *value; // says that it is of 64 bits
            9
        }
        Cell::Text(text) => 3 + text.as_str().len(),
    }
}

fn cells_len(cells: &[Cell]) -> usize
    requires { length cells.now ≤ 16 }
    ensures len { result ≡ length (flat_map cell_bytes cells.now) }
    ensures small { result ≤ 65538 * length cells.now }
    ensures fits { AllByRecursion IsCell cells.now }
{
    match cells {
        [] => 0,
        [first, rest @ ..] => cell_len(first) + cells_len(rest),
    }
}

fn period_len(period: Option<Period>) -> usize
    ensures len { result ≡ length (period_bytes period) }
    ensures small { result ≤ 17 }
    ensures fits { IsPeriod period }
{
    match period {
        None => 1,
        Some(period) => {
            let _from = period.from(); // says that it is of 64 bits
            let _to = period.to(); // says that it is of 64 bits
            17
        }
    }
}

fn row_len(row: &Opened) -> usize
    ensures len { result ≡ length (row_bytes row.now) }
    ensures small { result ≤ 1048626 }
    ensures fits { IsRow row.now }
{
    1 + cells_len(row.cells()) + period_len(row.period())
}

fn rows_len(rows: &[Opened]) -> usize
    requires { length rows.now < 2 ^ 32 }
    ensures len { result ≡ length (flat_map row_bytes rows.now) }
    ensures small { result ≤ 1048626 * length rows.now }
    ensures fits { AllByRecursion IsRow rows.now }
{
    let mut len = 0;
    for row in rows {
        len += row_len(row);
    }
    len
}

fn ids_len(ids: &[u32]) -> usize
    requires { length ids.now < 2 ^ 32 }
    ensures len { result ≡ length (flat_map number ids.now) }
    ensures small { result ≡ 4 * length ids.now }
    ensures fits { AllByRecursion IsNumber ids.now }
{
    4 * ids.len()
}

fn change_len(change: &Change) -> usize
    ensures len { result ≡ length (change_bytes change.now) }
    ensures small { result < 2 ^ 59 }
    ensures fits { IsBody (Body.Change change.now) }
{
    let _table = change.table(); // says that it is of 16 bits
    10 + ids_len(change.closes()) + rows_len(change.opens())
}
