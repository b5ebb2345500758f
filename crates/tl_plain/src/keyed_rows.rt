//! The rows of a table in the order of their cells in a column, so that those with a cell are found
//! at once.
ghost use Rattle.std.specs.Prelude.{◌≡◌, ◌<◌, ◌^◌, IfOk, length, map};
ghost use Rattle.std.specs.List.{filter};
ghost use Rattle.std.specs.List.Sorted.{IsSortedBy};
ghost use Rattle.std.specs.Option.{option_map};
ghost use Rattle.tl_types.specs.History.{same_cell};
ghost use Rattle.tl_query.specs.Ordered.{cell_before};
ghost use Rattle.tl_plain.specs.Keyed.{keyed, keyed_rows, row_with_key, key_before, has_key, AreByKey};

use crate::rows::Row;
use std::alloc::Global;
use tl_types::{Cell, NoMemory};

/// A row that has a cell in the column by which rows are found.
#[derive(Clone, Copy)]
pub(crate) struct KeyedRow<'a> {
    /// The row's cell in the column.
    pub key: &'a Cell,
    /// The row's id: its place among all rows of its table, from 0.
    pub id: u32,
    /// The row itself, open or ended.
    pub row: &'a Row,
}

/// Whether two cells are the same: of one kind, and equal.
#[tactic(auto, using(tl_query::proofs::CellOrder::same_cells))]
pub(crate) fn same_cell(first: &Cell, second: &Cell) -> bool
    ensures { result ≡ same_cell first.now second.now }
{
    *first == *second
}

#[tactic(auto, using(tl_query::proofs::CellOrder::cells_before))]
fn is_before(row: &KeyedRow, key: &Cell) -> bool
    ensures { result ≡ cell_before row.now.key.now key.now }
{
    *row.key < *key
}

fn has_key(row: &KeyedRow, key: &Cell) -> bool
    ensures { result ≡ has_key key.now row.now }
{
    same_cell(key, row.key)
}

fn keyed_row<'a>(column: u8, id: u32, row: &'a Row) -> Option<KeyedRow<'a>>
    ensures { option_map row_with_key result ≡ keyed column (id, row.now) }
{
    match row.cells().get(column as usize) {
        Some(key) => Some(KeyedRow { key, id, row }),
        None => None,
    }
}

// The rows that have a cell in the column, in order of id. The error is out of memory.
fn all_keyed<'a>(alloc: Global, column: u8, rows: &'a [Row]) -> Result<Vec<KeyedRow<'a>>, NoMemory>
    requires { length rows.now < 2 ^ 32 }
    ensures { IfOk result (λ all. map row_with_key all.items ≡ keyed_rows column rows.now) }
{
    let mut all = Vec::with_capacity(alloc, rows.len())?;
    for (id, row) in rows.iter().enumerate() {
        if let Some(keyed) = keyed_row(column, id as u32, row) {
            all.push(keyed)?;
        }
    }
    Ok(all)
}

/// The rows in the order of their cells in a column, those of one cell in order of id. The error is
/// out of memory.
pub(crate) fn rows_by_key<'a>(
    alloc: Global,
    column: u8,
    rows: &'a [Row],
) -> Result<Vec<KeyedRow<'a>>, NoMemory>
    requires { length rows.now < 2 ^ 32 }
    ensures { IfOk result (λ by_key. AreByKey column rows.now by_key.items) }
{
    let mut by_key = all_keyed(alloc, column, rows)?;
    by_key.sort_by(|first, second| first.key.cmp(second.key))?;
    Ok(by_key)
}

/// Of rows in order of their keys, those that have the key.
pub(crate) fn rows_with_key<'a, 'b>(by_key: &'b [KeyedRow<'a>], key: &Cell) -> &'b [KeyedRow<'a>]
    requires { IsSortedBy key_before by_key.now }
    ensures { result.now ≡ filter (has_key key.now) by_key.now }
{
    let (_, rest) = by_key.split_at(by_key.partition_point(|row| is_before(row, key)));
    let (found, _) = rest.split_at(rest.partition_point(|row| has_key(row, key)));
    found
}
