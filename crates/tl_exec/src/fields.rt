//! Rows that a store keeps, as the fields of an answer: cells as they are, and the ends of valid
//! periods as moments, of which one that never comes has a field of its own.
ghost use Rattle.std.specs.Prelude.{◌≡◌, ◌+◌, ◌<◌, ◌≤◌, ◌++◌, ◌∷◌, [], OnOk, Some, length};
ghost use Rattle.tl_types.specs.History.{database_of, rows_of};
ghost use Rattle.tl_types.specs.Plain as plain;
ghost use Rattle.tl_query.specs.Fields.{cell_field, moment_field, item_field, row_fields};
ghost use Rattle.tl_rows.specs.Fields.{field_shown};
ghost use Rattle.tl_store.specs.Reading.{cell_shown, row_of};
ghost use Rattle.tl_exec.specs.Shown.{HasItem, HasItems};

use std::sync::ledger::Ledger;
use tl_query::TypedItem;
use tl_rows::{FieldRef, RowsWriter};
use tl_store::{CellRef, Store};
use tl_types::{NoMemory, Period, Steps};

/// A cell as a field of an answer: its number, or the bytes of its text.
pub(crate) fn cell_field(cell: CellRef<'_>) -> FieldRef<'_>
    ensures { field_shown result ≡ cell_field (cell_shown cell.entry) }
{
    match cell {
        CellRef::Int(number) => FieldRef::Number(i128::from(number)),
        CellRef::Text(text) => FieldRef::Text(text.as_bytes()),
    }
}

/// A moment as a bound: the greatest valid time is no number.
pub(crate) fn moment_field(moment: i64) -> FieldRef<'static>
    ensures { field_shown result ≡ moment_field moment }
{
    if moment == Period::FOREVER {
        FieldRef::Forever
    } else {
        FieldRef::Number(i128::from(moment))
    }
}

/// What a row of a table, by its id, has for an item that the table's rows have. It takes one step.
pub(crate) fn item_field<'a, L: Ledger>(
    store: &'a Store,
    table: u16,
    row: u32,
    item: TypedItem,
    steps: &mut Steps<L>,
) -> FieldRef<'a>
    requires row { row < length (rows_of (database_of store.now) table) }
    requires item { HasItem (database_of store.now) table item }
    ensures value { (r : plain.Row) → row_of (database_of store.now) table row ≡ Some r
        → field_shown result ≡ item_field r item }
    ensures steps { steps.new ≡ steps.old + 1 }
{
    match item {
        TypedItem::Column(place) => cell_field(store.cell(table, row, place, steps)),
        TypedItem::ValidFrom => {
            let period = store.valid_at(table, row, steps);
            FieldRef::Number(i128::from(period.from()))
        }
        TypedItem::ValidTo => moment_field(store.valid_at(table, row, steps).to()),
    }
}

/// Appends the items of a row of a table, by its id, to the row that is being written. It takes at
/// most a step for each. The error is out of memory.
pub(crate) fn push_items<L: Ledger>(
    rows: &mut RowsWriter,
    store: &Store,
    table: u16,
    row: u32,
    items: &[TypedItem],
    steps: &mut Steps<L>,
) -> Result<(), NoMemory>
    requires row { row < length (rows_of (database_of store.now) table) }
    requires items { HasItems (database_of store.now) table items.now }
    ensures rows { OnOk result (rows.new.rows ≡ rows.old.rows) }
    ensures value { (r : plain.Row) → row_of (database_of store.now) table row ≡ Some r
        → OnOk result (rows.new.row ≡ rows.old.row ++ row_fields items.now r) }
    ensures steps { steps.new ≤ steps.old + length items.now }
{
    for item in items {
        rows.push(item_field(store, table, row, *item, steps))?;
    }
    Ok(())
}
