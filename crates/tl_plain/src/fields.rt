//! Fields of an answer: those of a row by the items of a query, of a run, and of a pair of rows.
//! What a row lacks is an empty field.
ghost use Rattle.std.specs.Prelude.{◌≡◌, ◌++◌, IfOk, OnOk, map};
ghost use Rattle.tl_types.specs.History.{cell_at};
ghost use Rattle.tl_query.specs.Fields.{cell_field, moment_field, from_field, to_field, column_field, item_field, row_fields};

use crate::rows::Row;
use std::alloc::Global;
use tl_query::TypedItem;
use tl_types::{Cell, Field, NoMemory, Period, Seq};

/// A cell as a field. The error is out of memory.
pub(crate) fn cell_field(cell: &Cell) -> Result<Field, NoMemory>
    ensures { IfOk result (λ field. field ≡ cell_field cell.now) }
{
    match cell {
        Cell::Int(number) => Ok(Field::Number(i128::from(*number))),
        Cell::Text(text) => Ok(Field::Text(text.clone()?)),
    }
}

/// A moment as a bound: the greatest valid time is no number.
pub(crate) fn moment_field(moment: i64) -> Field
    ensures { result ≡ moment_field moment }
{
    if moment == Period::FOREVER {
        Field::Forever
    } else {
        Field::Number(i128::from(moment))
    }
}

fn from_field(period: Option<Period>) -> Field
    ensures { result ≡ from_field period }
{
    match period {
        Some(period) => Field::Number(i128::from(period.from())),
        None => Field::Empty,
    }
}

fn to_field(period: Option<Period>) -> Field
    ensures { result ≡ to_field period }
{
    match period {
        Some(period) => moment_field(period.to()),
        None => Field::Empty,
    }
}

fn column_field(cells: &[Cell], place: u8) -> Result<Field, NoMemory>
    ensures { IfOk result (λ field. field ≡ column_field (cell_at cells.now place)) }
{
    if (place as usize) < cells.len() {
        cell_field(&cells[place as usize])
    } else {
        Ok(Field::Empty)
    }
}

fn item_field(row: &Row, item: TypedItem) -> Result<Field, NoMemory>
    ensures { IfOk result (λ field. field ≡ item_field row.now item) }
{
    match item {
        TypedItem::Column(place) => column_field(row.cells(), place),
        TypedItem::ValidFrom => Ok(from_field(row.period())),
        TypedItem::ValidTo => Ok(to_field(row.period())),
    }
}

/// A row as the list of its items. The error is out of memory.
pub(crate) fn row_fields(
    alloc: Global,
    items: &[TypedItem],
    row: &Row,
) -> Result<Seq<Field>, NoMemory>
    ensures { IfOk result (λ fields. fields ≡ row_fields items.now row.now) }
{
    let mut fields = Vec::with_capacity(alloc, items.len())?;
    for item in items {
        fields.push(item_field(row, *item)?)?;
    }
    Ok(Seq::from_vec(fields))
}

/// Appends cells as fields. The error is out of memory.
pub(crate) fn add_cells(fields: &mut Vec<Field>, cells: &[Cell]) -> Result<(), NoMemory>
    ensures { OnOk result (fields.new.items ≡ fields.old.items ++ map cell_field cells.now) }
{
    for cell in cells {
        fields.push(cell_field(cell)?)?;
    }
    Ok(())
}
