//! The values of a column in rows, in order, each once, as a sort and a `dedup` leave them. A row
//! without a cell there has none.
ghost use Rattle.std.specs.Prelude.{◌≡◌, IfOk, map};
ghost use Rattle.std.specs.List.{filter_map};
ghost use Rattle.std.specs.Option.{option_map};
ghost use Rattle.tl_types.specs.History.{cell_at};
ghost use Rattle.tl_query.specs.Ordered.{values_of};

use crate::rows::Row;
use std::alloc::Global;
use tl_types::{Cell, NoMemory};

/// The cell of a row in a column, where it has one.
pub(crate) fn cell_in(column: u8, row: &Row) -> Option<&Cell>
    ensures { option_map (λ cell. cell.now) result ≡ cell_at row.now.cells column }
{
    row.cells().get(column as usize)
}

// The cells of rows in a column, where they have one. The error is out of memory.
fn cells_of<'a>(alloc: Global, column: u8, rows: &'a [Row]) -> Result<Vec<&'a Cell>, NoMemory>
    ensures { IfOk result (λ cells. map (λ c. c.now) cells.items ≡
        filter_map (λ row. cell_at row.cells column) rows.now) }
{
    let mut cells = Vec::with_capacity(alloc, rows.len())?;
    for row in rows {
        if let Some(cell) = cell_in(column, row) {
            cells.push(cell)?;
        }
    }
    Ok(cells)
}

/// The values of a column in rows, in order, each once. The error is out of memory.
pub(crate) fn values_of<'a>(
    alloc: Global,
    column: u8,
    rows: &'a [Row],
) -> Result<Vec<&'a Cell>, NoMemory>
    ensures { IfOk result (λ values. map (λ v. v.now) values.items ≡ values_of column rows.now) }
{
    let mut values = cells_of(alloc, column, rows)?;
    values.sort()?;
    values.dedup();
    Ok(values)
}
