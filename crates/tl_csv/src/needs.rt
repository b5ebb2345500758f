//! What a block has to name: the columns whose cells a batch gives, and behind them the two ends of
//! a period in a table with valid time.
ghost use Rattle.std.specs.Prelude.{◌≡◌, ◌≤◌, true, length};
ghost use Rattle.tl_types.specs.Facts.{are_distinct, names_of};
ghost use Rattle.tl_csv.specs.Header.{column_kind, columns_of, end_kind, kind_needed, period_kind};

use tl_types::{Column, ColumnKind, Schema};

/// What a block is read as.
#[derive(Clone, Copy)]
pub enum BatchKind {
    /// Rows that take the place of the open rows of their keys, in a table with valid time for
    /// their periods alone.
    PutKind,
    /// Keys whose open rows are closed, in a table with valid time for their periods alone.
    RemoveKind,
    /// Rows that are all rows of their table: open rows that are not among them are closed.
    SyncKind,
}

/// What a field of a record is.
#[derive(Clone, Copy)]
pub enum FieldKind {
    /// A cell of a column of this kind.
    Cell(ColumnKind),
    /// The first valid time of a period.
    From,
    /// The valid time at which a period has ended.
    To,
}

/// The columns whose cells a batch gives: all, or the key alone.
#[tactic(auto, using(crate::proofs::NameLemmas::distinct_names))]
pub fn columns_of(schema: &Schema, kind: BatchKind) -> &[Column]
    ensures columns { result.now ≡ columns_of schema.now kind }
    ensures some { 1 ≤ length result.now }
    ensures few { length result.now ≤ 16 }
    ensures distinct { are_distinct (names_of result.now) ≡ true }
{
    match kind {
        BatchKind::PutKind => schema.columns(),
        BatchKind::SyncKind => schema.columns(),
        BatchKind::RemoveKind => {
            let (_, behind) = schema.columns().split_at(schema.key() as usize);
            let (key, _) = behind.split_at(1);
            key
        }
    }
}

fn column_kind(columns: &[Column], name: &[u8]) -> Option<FieldKind>
    ensures { result ≡ column_kind columns.now name.now }
{
    match columns {
        [] => None,
        [first, ..] if first.name.as_bytes() == name => Some(FieldKind::Cell(first.kind)),
        [_, rest @ ..] => column_kind(rest, name),
    }
}

fn end_kind(name: &[u8]) -> Option<FieldKind>
    ensures { result ≡ end_kind name.now }
{
    if b"valid_from".as_slice() == name {
        return Some(FieldKind::From);
    }
    if b"valid_to".as_slice() == name {
        return Some(FieldKind::To);
    }
    None
}

fn period_kind(valid: bool, name: &[u8]) -> Option<FieldKind>
    ensures { result ≡ period_kind valid name.now }
{
    if valid { end_kind(name) } else { None }
}

/// What a field with the name is, where it is one that a batch of the kind needs for a table of the
/// schema.
pub fn kind_needed(schema: &Schema, kind: BatchKind, name: &[u8]) -> Option<FieldKind>
    ensures { result ≡ kind_needed schema.now kind name.now }
{
    match column_kind(columns_of(schema, kind), name) {
        Some(found) => Some(found),
        None => period_kind(schema.valid(), name),
    }
}
