//! New tables of a record: their columns, and their schema. A name twice, a key that is no column,
//! or more columns than sixteen is `Bad`.
ghost use Rattle.std.specs.Prelude.{◌≡◌, []};
ghost use Rattle.tl_record.specs.Reading.{
  Gives,
  kind_of,
  column_at,
  columns_at,
  all_columns,
  columns_and_key,
  schema_at,
};

use crate::faults::{Fault, ReadError};
use crate::{numbers, texts};
use std::alloc::Global;
use tl_types::{Column, ColumnKind, Schema, Seq};

fn kind_of(kind: u8) -> ColumnKind
    ensures { result ≡ kind_of kind }
{
    if kind == 1 {
        ColumnKind::IntKind
    } else {
        ColumnKind::TextKind
    }
}

#[tactic(auto, unfolding(crate::specs::Reading::column_at))]
fn column<'a>(
    alloc: Global,
    columns: &[Column],
    bytes: &'a [u8],
) -> Result<(Column, &'a [u8]), ReadError>
    ensures { Gives (λ x. (x.0, x.1.now)) result (column_at columns.now bytes.now) }
{
    let (name, rest) = texts::name(alloc, columns, bytes)?;
    let (kind, rest) = numbers::byte(1, 2, rest)?;
    Ok((
        Column {
            name,
            kind: kind_of(kind),
        },
        rest,
    ))
}

#[tactic(auto, using(crate::proofs::Loops::unstarted))]
fn columns_of(alloc: Global, count: u8, bytes: &[u8]) -> Result<(Vec<Column>, &[u8]), ReadError>
    ensures { Gives (λ x. (x.0.items, x.1.now)) result (columns_at [] count bytes.now) }
{
    let mut columns = Vec::with_capacity(alloc, count as usize)?;
    let mut rest = bytes;
    for _ in 0..count {
        let (column, behind) = column(alloc, &columns, rest)?;
        columns.push(column)?;
        rest = behind;
    }
    Ok((columns, rest))
}

#[tactic(auto, unfolding(crate::specs::Reading::all_columns))]
fn all_columns(alloc: Global, bytes: &[u8]) -> Result<(Vec<Column>, &[u8]), ReadError>
    ensures { Gives (λ x. (x.0.items, x.1.now)) result (all_columns bytes.now) }
{
    let (count, rest) = numbers::byte(1, 16, bytes)?;
    let (columns, rest) = columns_of(alloc, count, rest)?;
    Ok((columns, rest))
}

#[tactic(auto, using(crate::proofs::Columns::columns_some), unfolding(crate::specs::Reading::columns_and_key))]
fn columns_and_key(alloc: Global, bytes: &[u8]) -> Result<((Vec<Column>, u8), &[u8]), ReadError>
    ensures { Gives (λ x. ((x.0.0.items, x.0.1), x.1.now)) result (columns_and_key bytes.now) }
{
    let (columns, rest) = all_columns(alloc, bytes)?;
    let (key, rest) = numbers::byte(0, (columns.len() - 1) as u8, rest)?;
    Ok(((columns, key), rest))
}

/// A new table's schema, and what follows it.
#[tactic(auto, using(crate::proofs::Columns::made), unfolding(crate::specs::Reading::schema_at))]
pub fn schema(alloc: Global, bytes: &[u8]) -> Result<(Schema, &[u8]), ReadError>
    ensures { Gives (λ x. (x.0, x.1.now)) result (schema_at bytes.now) }
{
    let (name, rest) = texts::name(alloc, &[], bytes)?;
    let (valid, rest) = numbers::byte(0, 1, rest)?;
    let (parts, rest) = columns_and_key(alloc, rest)?;
    let (columns, key) = parts;
    match Schema::new(name, Seq::from_vec(columns), key, valid == 1) {
        Some(schema) => Ok((schema, rest)),
        None => Err(ReadError::Fault(Fault::Bad)),
    }
}
