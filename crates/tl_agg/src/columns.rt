//! What a scan reads of the columns of its table: the numbers that are aggregated, and the values
//! that separate the rows into groups. Nothing is kept of them; a column that is not of numbers is
//! read cell by cell.
ghost use Rattle.std.specs.Prelude.{◌≡◌, ◌+◌, ◌<◌, Some, length, IfSome};
ghost use Rattle.tl_store.specs.Reading.{columns_of, IsIntColumn, cell_shown, IsShort as IsShortCell};
ghost use Rattle.tl_index.specs.Tables.{rows_in};
ghost use Rattle.tl_agg.specs.Columns.{HasKey, AreNumbers, AreKeys};

use std::sync::ledger::Ledger;
use tl_index::TimedTable;
use tl_store::{CellRef, IntsRef};
use tl_types::Steps;

/// The numbers of the rows in a column of numbers, where one is asked for.
pub fn numbers<'a>(table: &TimedTable<'a>, column: Option<u8>) -> Option<IntsRef<'a>>
    requires { IfSome column
        (λ place. IsIntColumn (columns_of table.now.db table.now.number) place) }
    ensures { AreNumbers (rows_in table.now) column result }
{
    match column {
        Some(place) => Some(table.int_column(place)),
        None => None,
    }
}

// The numbers of the rows in a column, where that is one of numbers.
fn ints_in<'a>(table: &TimedTable<'a>, place: u8) -> Option<IntsRef<'a>>
    ensures { AreKeys (rows_in table.now) (Some place) result }
{
    let is_int = table.is_int(place);
    if is_int {
        return Some(table.int_column(place));
    }
    None
}

/// The numbers of the rows in a column, where one is asked for and it is one of numbers.
pub fn int_keys<'a>(table: &TimedTable<'a>, column: Option<u8>) -> Option<IntsRef<'a>>
    ensures { AreKeys (rows_in table.now) column result }
{
    match column {
        Some(place) => ints_in(table, place),
        None => None,
    }
}

/// The value of a row in a column. It takes one step.
pub fn key_at<'a, L: Ledger>(
    table: &TimedTable<'a>,
    column: u8,
    row: u32,
    steps: &mut Steps<L>,
) -> CellRef<'a>
    requires column { column < length (columns_of table.now.db table.now.number) }
    requires row { row < length (rows_in table.now) }
    ensures key { HasKey (rows_in table.now) row column (cell_shown result) }
    ensures short { IsShortCell result }
    ensures steps { steps.new ≡ steps.old + 1 }
{
    table.cell(row, column, steps)
}
