//! Whether the rows that a commit opens are what a schema says. The kinds of a row's cells are one
//! number, a binary digit a cell, which is compared with that of the columns.
ghost use Rattle.std.specs.Prelude.{◌≡◌, ◌≤◌, length, map, if◌then◌else◌};
ghost use Rattle.std.specs.List.{list_all};
ghost use Rattle.tl_types.specs.History.{match_columns, matches};
ghost use Rattle.tl_types.specs.Kinds.{holds_texts, is_text, number_of};

use crate::cells::{Cell, ColumnKind};
use crate::rows::Opened;
use crate::schemas::{Column, Schema};

/// Whether each row has one cell for each column of the schema, of the column's kind, and a valid
/// period exactly where the schema says so.
#[inline(never)]
pub fn all_match(schema: &Schema, opens: &[Opened]) -> bool
    ensures { result ≡ list_all (matches schema.now) opens.now }
{
    let kinds = kinds_of_columns(schema.columns());
    for opened in opens {
        if !matches(schema, kinds, opened) {
            return false;
        }
    }
    true
}

// Whether a row matches the schema, whose columns' kinds have this number.
#[inline]
fn matches(schema: &Schema, kinds: u32, opened: &Opened) -> bool
    requires { kinds ≡ number_of (map holds_texts schema.now.columns) }
    ensures { result ≡ matches schema.now opened.now }
{
    match_columns(schema.columns(), kinds, opened.cells())
        && schema.valid() == opened.period().is_some()
}

// Whether there is one cell for each of the columns, whose kinds have this number, and each is what
// its column holds.
#[inline]
fn match_columns(columns: &[Column], kinds: u32, cells: &[Cell]) -> bool
    requires kinds { kinds ≡ number_of (map holds_texts columns.now) }
    requires few { length cells.now ≤ 16 }
    ensures { result ≡ match_columns columns.now cells.now }
{
    cells.len() == columns.len() && kinds_of_cells(cells) == kinds
}

// The kinds of columns as a number: a digit is 1 where the column holds texts.
fn kinds_of_columns(columns: &[Column]) -> u32
    requires { length columns.now ≤ 16 }
    ensures { result ≡ number_of (map holds_texts columns.now) }
{
    let mut kinds = 0;
    for column in columns {
        kinds = kinds * 2 + u32::from(holds_texts(column));
    }
    kinds
}

// The kinds of cells as a number: a digit is 1 where the cell is a text. Few cells need no loop.
#[inline]
fn kinds_of_cells(cells: &[Cell]) -> u32
    requires { length cells.now ≤ 16 }
    ensures { result ≡ number_of (map is_text cells.now) }
{
    match cells {
        [first, second] => digit(first) * 2 + digit(second),
        [first, second, third] => (digit(first) * 2 + digit(second)) * 2 + digit(third),
        [first, second, third, fourth] => {
            ((digit(first) * 2 + digit(second)) * 2 + digit(third)) * 2 + digit(fourth)
        }
        _ => kinds_of_many(cells),
    }
}

// The same of any cells.
#[inline]
fn kinds_of_many(cells: &[Cell]) -> u32
    requires { length cells.now ≤ 16 }
    ensures { result ≡ number_of (map is_text cells.now) }
{
    let mut kinds = 0;
    for cell in cells {
        kinds = kinds * 2 + digit(cell);
    }
    kinds
}

// 1 for a text, 0 for a number.
fn digit(cell: &Cell) -> u32
    ensures { result ≡ (if is_text cell.now then 1 else 0) }
{
    u32::from(is_text(cell))
}

// Whether the column's cells are texts.
fn holds_texts(column: &Column) -> bool
    ensures { result ≡ holds_texts column.now }
{
    match column.kind {
        ColumnKind::IntKind => false,
        ColumnKind::TextKind => true,
    }
}

// Whether the cell is a text.
fn is_text(cell: &Cell) -> bool
    ensures { result ≡ is_text cell.now }
{
    match cell {
        Cell::Int(_) => false,
        Cell::Text(_) => true,
    }
}
