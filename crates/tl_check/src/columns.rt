//! The tables of a store and the columns of a table that names mean, by number, and the faults at
//! names that mean none.
ghost use Rattle.std.specs.Prelude.{◌≡◌};
ghost use Rattle.tl_types.specs.History.{database_of};
ghost use Rattle.tl_query.specs.Checking.{floor_named, place_among, table_named};
ghost use Rattle.tl_query.specs.CheckingQueries.{
  column_fault,
  column_place,
  is_timeless,
  kind_of,
  known_kind,
  table_fault,
};
ghost use Rattle.tl_check.specs.Known.{known};

use tl_query::{CheckFault, Name};
use tl_store::Store;
use tl_types::{Column, ColumnKind, Schema, Text};

/// The table of a store that a name means: its number, and its schema.
pub(crate) fn table_named<'a>(store: &'a Store, name: &Name) -> Option<(u16, &'a Schema)>
    ensures { known result ≡ table_named (database_of store.now) name.now }
{
    match store.find(name.text.as_str()) {
        None => None,
        Some(number) => Some((number, store.schema(number))),
    }
}

/// The floor of the table of a store that a name means, the least version that may be asked of it:
/// 0 where the name means none.
pub(crate) fn floor_named(store: &Store, name: &Name) -> u32
    ensures { result ≡ floor_named (database_of store.now) name.now }
{
    match store.find(name.text.as_str()) {
        None => 0,
        Some(number) => store.floor(number),
    }
}

/// `UnknownTable` at the name, where it means no table.
pub(crate) fn table_fault(table: Option<(u16, &Schema)>, name: &Name) -> Option<CheckFault>
    ensures { result ≡ table_fault (known table.entry) name.now }
{
    match table {
        None => Some(CheckFault::UnknownTable { at: name.at }),
        Some(_) => None,
    }
}

/// Whether the table is known, and its rows have no valid period.
pub(crate) fn is_timeless(table: Option<(u16, &Schema)>) -> bool
    ensures { result ≡ is_timeless (known table.entry) }
{
    match table {
        None => false,
        Some((_, schema)) => !schema.valid(),
    }
}

/// The place of a name among columns, from 0.
pub(crate) fn place_among(columns: &[Column], name: &Text) -> Option<usize>
    ensures { result ≡ place_among columns.now name.now }
{
    columns.iter().position(|column| column.name == *name)
}

/// `UnknownColumn` at the name, where the table has no such column.
pub(crate) fn column_fault(schema: &Schema, name: &Name) -> Option<CheckFault>
    ensures { result ≡ column_fault schema.now name.now }
{
    match place_among(schema.columns(), &name.text) {
        Some(_) => None,
        None => Some(CheckFault::UnknownColumn { at: name.at }),
    }
}

/// The place of the column that a name means, from 0, and 0 where it means none.
pub(crate) fn column_place(schema: &Schema, name: &Name) -> u8
    ensures { result ≡ column_place schema.now name.now }
{
    match place_among(schema.columns(), &name.text) {
        Some(place) => place as u8,
        None => 0,
    }
}

/// The kind of the column that a name means.
pub(crate) fn kind_of(schema: &Schema, name: &Name) -> Option<ColumnKind>
    ensures { result ≡ kind_of schema.now name.now }
{
    let columns = schema.columns();
    match place_among(columns, &name.text) {
        Some(place) => columns.get(place).map(|column| column.kind),
        None => None,
    }
}

/// The kind of the column that a name means, where its table is known.
pub(crate) fn known_kind(table: Option<(u16, &Schema)>, name: &Name) -> Option<ColumnKind>
    ensures { result ≡ known_kind (known table.entry) name.now }
{
    match table {
        None => None,
        Some((_, schema)) => kind_of(schema, name),
    }
}
