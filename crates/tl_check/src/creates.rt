//! The check of a new table: its schema, where no two of its columns have one name and its key is
//! one of them.
ghost use Rattle.std.specs.Prelude.{IfOk, ◌≡◌, ◌≤◌, length, None, IsTrue, Ok};
ghost use Rattle.std.specs.List.{list_any};
ghost use Rattle.tl_types.specs.Names.{same_bytes};
ghost use Rattle.tl_types.specs.Facts.{is_schema};
ghost use Rattle.tl_query.specs.Checking.{
  IsUnlessMemory,
  twice_at,
  twice_fault,
  columns_of,
  key_of,
  create_fault,
  checked_create,
};
ghost use Rattle.tl_query.specs.Parsed.{IsNewTable};

use crate::first_fault::earlier;
use std::alloc::Global;
use tl_query::{CheckFault, ColumnForm, CreateForm};
use tl_types::{Column, NoMemory, Schema, Seq, Text};

fn is_named_so(columns: &[ColumnForm], name: &Text) -> bool
    ensures { result ≡ list_any (λ e. same_bytes e.name.text name.now) columns.now }
{
    columns.iter().any(|column| column.name.text == *name)
}

fn twice_at(columns: &[ColumnForm], place: usize, column: &ColumnForm) -> Option<CheckFault>
    requires { place ≤ length columns.now }
    ensures { result ≡ twice_at columns.now (place, column.now) }
{
    if is_named_so(&columns[..place], &column.name.text) {
        Some(CheckFault::ColumnTwice { at: column.name.at })
    } else {
        None
    }
}

fn twice_fault(columns: &[ColumnForm]) -> Option<CheckFault>
    ensures { result ≡ twice_fault columns.now }
{
    let mut first = None;
    for (place, column) in columns.iter().enumerate() {
        first = earlier(first, twice_at(columns, place, column));
    }
    first
}

fn key_place(form: &CreateForm) -> Option<usize>
    ensures { result ≡ key_of form.now }
{
    form.columns
        .as_slice()
        .iter()
        .position(|column| column.name.text == form.key.text)
}

fn columns_of(alloc: Global, forms: &[ColumnForm]) -> Result<Seq<Column>, NoMemory>
    ensures { IfOk result (λ columns. columns ≡ columns_of forms.now) }
{
    let mut columns = Vec::with_capacity(alloc, forms.len())?;
    for form in forms {
        columns.push(Column {
            name: form.name.text.clone()?,
            kind: form.kind,
        })?;
    }
    Ok(Seq::from_vec(columns))
}

fn create_fault(form: &CreateForm) -> Option<CheckFault>
    ensures { result ≡ create_fault form.now }
{
    let key = match key_place(form) {
        Some(_) => None,
        None => Some(CheckFault::UnknownColumn { at: form.key.at }),
    };
    earlier(twice_fault(form.columns.as_slice()), key)
}

fn schema_with(name: Text, columns: Seq<Column>, key: u8, valid: bool) -> Schema
    requires { IsTrue (is_schema (record {
      name = name;
      columns = columns;
      key = key;
      valid = valid;
    })) }
    ensures { result ≡ record { name = name; columns = columns; key = key; valid = valid } }
{
    Schema::new(name, columns, key, valid).unwrap()
}

fn schema_of(alloc: Global, form: &CreateForm) -> Result<Schema, NoMemory>
    requires named { IsNewTable form.now }
    requires right { create_fault form.now ≡ None }
    ensures { IfOk result (λ schema. checked_create form.now ≡ Ok schema) }
{
    let key = key_place(form).unwrap_or(0) as u8;
    let columns = columns_of(alloc, form.columns.as_slice())?;
    Ok(schema_with(form.name.text.clone()?, columns, key, form.valid))
}

/// The schema of a new table, or its first fault: the one that stands furthest to the left.
/// `ColumnTwice` stands at the first column whose name an earlier one has, `UnknownColumn` at the
/// name after KEY where no column has it; that no table has the name of the new one is not looked
/// at here. `NoMemory` says that memory ran out.
pub fn check_create(alloc: Global, form: &CreateForm) -> Result<Schema, CheckFault>
    requires { IsNewTable form.now }
    ensures { IsUnlessMemory result (checked_create form.now) }
{
    match create_fault(form) {
        Some(fault) => Err(fault),
        None => Ok(schema_of(alloc, form)?),
    }
}
