//! The names of the columns of an answer, as a row of texts: of a SELECT the items as they are
//! written, of an aggregate and a join what their rows are made of. The row is ended.
ghost use Rattle.std.specs.Prelude.{◌≡◌, ◌++◌, ◌∷◌, [], codes, map, option_map, string_bytes, IfOk, OnOk};
ghost use Rattle.tl_types.specs.History.{database_of};
ghost use Rattle.tl_types.specs.declared.answers.Field.TheVariants as field;
ghost use Rattle.tl_query.specs.TypedFor.{schema_at};
ghost use Rattle.tl_asking.specs.Names.{column_name, item_name, names_under, right_name, select_names, group_names, bound_names, left_names, right_names, names_of, names_answer};

use std::alloc::Global;
use tl_query::{Typed, TypedItem};
use tl_rows::{AnswerRows, FieldRef, RowsWriter};
use tl_store::Store;
use tl_types::{Column, NoMemory, Schema};

// Appends a name to the row that is being written. The error is `NoMemory`.
fn push_name(row: &mut RowsWriter, name: &str) -> Result<(), NoMemory>
    ensures rows { OnOk result (row.new.rows ≡ row.old.rows) }
    ensures row { OnOk result (row.new.row ≡ row.old.row ++ field.Text name.now ∷ []) }
{
    row.push(FieldRef::Text(name.as_bytes()))?;
    Ok(())
}

// The name of the column at a place, where there is one.
fn column_name(schema: &Schema, place: u8) -> &str
    ensures { result.now ≡ column_name schema.now place }
{
    match schema.columns().get(place as usize) {
        Some(column) => column.name.as_str(),
        None => "",
    }
}

// The name of an item of a row.
fn item_name(schema: &Schema, item: TypedItem) -> &str
    ensures { result.now ≡ item_name schema.now item }
{
    match item {
        TypedItem::Column(place) => column_name(schema, place),
        TypedItem::ValidFrom => "valid_from",
        TypedItem::ValidTo => "valid_to",
    }
}

// Appends the names of the items of a SELECT. The error is `NoMemory`.
fn push_items(row: &mut RowsWriter, schema: &Schema, items: &[TypedItem]) -> Result<(), NoMemory>
    ensures rows { OnOk result (row.new.rows ≡ row.old.rows) }
    ensures row { OnOk result
        (row.new.row ≡ row.old.row ++ map field.Text (map (item_name schema.now) items.now)) }
{
    for item in items {
        push_name(row, item_name(schema, *item))?;
    }
    Ok(())
}

// The schema of the table with a number, where there is one.
fn schema_at(store: &Store, table: u16) -> Option<&Schema>
    ensures { option_map (λ s. s.now) result ≡ schema_at (database_of store.now) table }
{
    if table < store.tables() {
        Some(store.schema(table))
    } else {
        None
    }
}

// Appends the names of a SELECT over a table with this schema. The error is `NoMemory`.
fn push_select(
    row: &mut RowsWriter,
    schema: Option<&Schema>,
    items: &[TypedItem],
) -> Result<(), NoMemory>
    ensures rows { OnOk result (row.new.rows ≡ row.old.rows) }
    ensures row { OnOk result (row.new.row ≡ row.old.row
        ++ map field.Text (select_names items.now (option_map (λ s. s.now) schema.entry))) }
{
    let Some(schema) = schema else {
        return Ok(());
    };
    push_items(row, schema, items)?;
    Ok(())
}

// Appends the name of the column of a group, where rows are separated into groups. The error is
// `NoMemory`.
fn push_group(row: &mut RowsWriter, schema: Option<&Schema>, by: Option<u8>) -> Result<(), NoMemory>
    ensures rows { OnOk result (row.new.rows ≡ row.old.rows) }
    ensures row { OnOk result (row.new.row ≡ row.old.row
        ++ map field.Text (group_names by (option_map (λ s. s.now) schema.entry))) }
{
    let Some(place) = by else {
        return Ok(());
    };
    let Some(schema) = schema else {
        return Ok(());
    };
    push_name(row, column_name(schema, place))?;
    Ok(())
}

// Appends the names of the two bounds of a run or a pair. The error is `NoMemory`.
fn push_bounds(row: &mut RowsWriter) -> Result<(), NoMemory>
    ensures rows { OnOk result (row.new.rows ≡ row.old.rows) }
    ensures row { OnOk result (row.new.row ≡ row.old.row ++ map field.Text bound_names) }
{
    push_name(row, "from")?;
    push_name(row, "to")?;
    Ok(())
}

// Appends the name of a column after the name of a table and a point. The error is `NoMemory`.
fn push_under(
    alloc: Global,
    row: &mut RowsWriter,
    table: &str,
    column: &str,
) -> Result<(), NoMemory>
    ensures rows { OnOk result (row.new.rows ≡ row.old.rows) }
    ensures row { OnOk result
        (row.new.row ≡ row.old.row ++ field.Text (table.now ++ (codes "." ++ column.now)) ∷ []) }
{
    let name = format!(in alloc; "{table}.{column}")?;
    push_name(row, name.as_str())?;
    Ok(())
}

// Appends the names of columns, each after the name of the table. The error is `NoMemory`.
fn push_columns(
    alloc: Global,
    row: &mut RowsWriter,
    table: &str,
    columns: &[Column],
) -> Result<(), NoMemory>
    ensures rows { OnOk result (row.new.rows ≡ row.old.rows) }
    ensures row { OnOk result
        (row.new.row ≡ row.old.row ++ map field.Text (names_under table.now columns.now)) }
{
    for column in columns {
        push_under(alloc, row, table, column.name.as_str())?;
    }
    Ok(())
}

// Appends the names of the columns of the left table of a join. The error is `NoMemory`.
fn push_left(alloc: Global, row: &mut RowsWriter, schema: Option<&Schema>) -> Result<(), NoMemory>
    ensures rows { OnOk result (row.new.rows ≡ row.old.rows) }
    ensures row { OnOk result (row.new.row ≡ row.old.row
        ++ map field.Text (left_names (option_map (λ s. s.now) schema.entry))) }
{
    let Some(schema) = schema else {
        return Ok(());
    };
    push_columns(alloc, row, schema.name().as_str(), schema.columns())?;
    Ok(())
}

// The name that the right table of a join goes by, by the numbers of both. The error is
// `NoMemory`.
fn right_name(alloc: Global, left: u16, right: u16, name: &str) -> Result<String, NoMemory>
    ensures { IfOk result (λ own. string_bytes own ≡ right_name left right name.now) }
{
    if left == right {
        format!(in alloc; "{name}_2")
    } else {
        String::from_str(alloc, name)
    }
}

// Appends the names of the columns of the right table of a join, by the numbers of both. The error
// is `NoMemory`.
fn push_right(
    alloc: Global,
    row: &mut RowsWriter,
    left: u16,
    right: u16,
    schema: Option<&Schema>,
) -> Result<(), NoMemory>
    ensures rows { OnOk result (row.new.rows ≡ row.old.rows) }
    ensures row { OnOk result (row.new.row ≡ row.old.row
        ++ map field.Text (right_names left right (option_map (λ s. s.now) schema.entry))) }
{
    let Some(schema) = schema else {
        return Ok(());
    };
    let name = right_name(alloc, left, right, schema.name().as_str())?;
    push_columns(alloc, row, name.as_str(), schema.columns())?;
    Ok(())
}

// Appends the names of the columns of the answer to a checked query. The error is `NoMemory`.
fn push_names(
    alloc: Global,
    row: &mut RowsWriter,
    store: &Store,
    query: &Typed,
) -> Result<(), NoMemory>
    ensures rows { OnOk result (row.new.rows ≡ row.old.rows) }
    ensures row { OnOk result (row.new.row ≡ row.old.row
        ++ map field.Text (names_of (database_of store.now) query.now)) }
{
    match query {
        Typed::Select { table, items, .. } => {
            push_select(row, schema_at(store, *table), items.as_slice())?;
            Ok(())
        }
        Typed::Agg { table, by, .. } => {
            push_group(row, schema_at(store, *table), *by)?;
            push_bounds(row)?;
            push_name(row, "value")?;
            Ok(())
        }
        Typed::Join { left, right, .. } => {
            push_bounds(row)?;
            push_left(alloc, row, schema_at(store, *left))?;
            push_right(alloc, row, *left, *right, schema_at(store, *right))?;
            Ok(())
        }
    }
}

/// The names of the columns of the answer to a query that was checked over a store, as the one row
/// of an answer: of a SELECT those of its items, of an aggregate the column of the groups where
/// there is one, and `from`, `to` and `value`, of a join `from`, `to` and the columns of both
/// tables, each after its table's name and a point, with `_2` after the name of a right table that
/// is the left one too. The error is `NoMemory`.
pub(crate) fn names_of(alloc: Global, store: &Store, query: &Typed) -> Result<AnswerRows, NoMemory>
    ensures { IfOk result
        (λ rows. rows ≡ names_answer (names_of (database_of store.now) query.now)) }
{
    let mut row = RowsWriter::new(alloc);
    push_names(alloc, &mut row, store, query)?;
    row.end_row()?;
    Ok(row.finish())
}
