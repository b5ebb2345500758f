//! The values that a watch tells, as the rows of an answer: the group where there is one, the
//! value, and the number of rows. No row is left unended.
ghost use Rattle.std.specs.Prelude.{◌≡◌, ◌++◌, ◌∷◌, [], IfOk, OnOk};
ghost use Rattle.tl_query.specs.Answers.{group_fields};
ghost use Rattle.tl_query.specs.Fields.{cell_field};
ghost use Rattle.tl_rows.specs.Fields.{field_shown};
ghost use Rattle.tl_commands.specs.WatchRows.{standing_fields, standing_answer};

use std::alloc::Global;
use tl_rows::{AnswerRows, FieldRef, RowsWriter};
use tl_types::{Cell, NoMemory};
use tl_watch::Standing;

// A cell as a field, lent.
fn cell_field(cell: &Cell) -> FieldRef<'_>
    ensures { field_shown result ≡ cell_field cell.now }
{
    match cell {
        Cell::Int(number) => FieldRef::Number(i128::from(*number)),
        Cell::Text(text) => FieldRef::Text(text.as_bytes()),
    }
}

// Appends the value of the group, where there is one, to the row that is being written. The error
// is `NoMemory`.
fn push_group(rows: &mut RowsWriter, group: &Option<Cell>) -> Result<(), NoMemory>
    ensures rows { OnOk result (rows.new.rows ≡ rows.old.rows) }
    ensures row { OnOk result (rows.new.row ≡ rows.old.row ++ group_fields group.now) }
{
    if let Some(value) = group {
        rows.push(cell_field(value))?;
    }
    Ok(())
}

// Appends a value as a row. The error is `NoMemory`.
fn push_standing(rows: &mut RowsWriter, standing: &Standing) -> Result<(), NoMemory>
    requires between { rows.old.row ≡ [] }
    ensures rows { OnOk result
        (rows.new.rows ≡ rows.old.rows ++ standing_fields standing.now ∷ []) }
    ensures between { OnOk result (rows.new.row ≡ []) }
{
    push_group(rows, &standing.group)?;
    rows.push(FieldRef::from(&standing.value))?;
    rows.push(FieldRef::Number(i128::from(standing.count)))?;
    rows.end_row()?;
    Ok(())
}

/// The values as the rows of an answer, in order. The error is `NoMemory`.
pub(crate) fn rows_of(alloc: Global, standings: &[Standing]) -> Result<AnswerRows, NoMemory>
    ensures { IfOk result (λ rows. rows ≡ standing_answer standings.now) }
{
    let mut rows = RowsWriter::new(alloc);
    for standing in standings {
        push_standing(&mut rows, standing)?;
    }
    Ok(rows.finish())
}
