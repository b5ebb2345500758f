//! What the header of a block names: each needed column once, in any order, and nothing else. It
//! gives the layout of the records behind it, or the header's first fault.
ghost use Rattle.std.specs.Prelude.{◌≡◌, ◌≤◌, ◌<◌, ◌+◌, ◌^◌, OnOk, length, take, true};
ghost use Rattle.csv.specs.Records.{fields_of};
ghost use Rattle.tl_csv.specs.Faults.{IsUnlessMemory};
ghost use Rattle.tl_types.specs.Facts.{are_distinct, names_of};
ghost use Rattle.tl_csv.specs.Header.{columns_of, is_named, kind_at, kinds_of, layout_of, not_utf8};
ghost use Rattle.tl_csv.specs.Header.{period_at, place_named, place_of, places_of};

use crate::faults::CsvFault;
use crate::layouts::{Layout, PeriodPlaces};
use crate::needs::{BatchKind, FieldKind, columns_of, kind_needed};
use crate::records::{next_field, text_of};
use csv::ByteRecord;
use std::alloc::Global;
use tl_types::{Column, Schema, Seq};

#[tactic(auto, using(crate::proofs::HeaderLemmas::fault_place))]
fn not_utf8(header: &ByteRecord) -> Option<CsvFault>
    ensures { result ≡ not_utf8 (fields_of header.now) }
{
    let mut i = 0;
    while let Some(name) = next_field(header, i) {
        if text_of(name).is_none() {
            let column = i as u64 + 1;
            return Some(CsvFault::NotUtf8 { rec: 1, column });
        }
        i += 1;
    }
    None
}

// The place (from 0) of the first field of the header with the name.
fn place_of(header: &ByteRecord, name: &[u8]) -> Option<usize>
    ensures { result ≡ place_of name.now (fields_of header.now) }
{
    let mut i = 0;
    while let Some(named) = next_field(header, i) {
        if named == name {
            return Some(i);
        }
        i += 1;
    }
    None
}

// Whether the name stands before place `i` (from 0) of the header.
#[tactic(auto, using(crate::proofs::HeaderLemmas::before_place))]
fn is_named_before(header: &ByteRecord, i: usize, name: &[u8]) -> bool
    ensures { result ≡ is_named name.now (take i (fields_of header.now)) }
{
    match place_of(header, name) {
        None => false,
        Some(place) => place < i,
    }
}

fn kind_at(
    schema: &Schema,
    kind: BatchKind,
    header: &ByteRecord,
    i: usize,
    name: &[u8],
) -> Result<FieldKind, CsvFault>
    requires { i + 1 < 2 ^ 64 }
    ensures { result ≡ kind_at schema.now kind (fields_of header.now) i name.now }
{
    let column = i as u64 + 1;
    match kind_needed(schema, kind, name) {
        None => Err(CsvFault::HeaderName { column }),
        Some(_) if is_named_before(header, i, name) => Err(CsvFault::HeaderTwice { column }),
        Some(found) => Ok(found),
    }
}

// What each field of the records is.
#[tactic(auto, using(crate::proofs::FaultLemmas::behind_steps))]
fn kinds_of(
    alloc: Global,
    schema: &Schema,
    kind: BatchKind,
    header: &ByteRecord,
) -> Result<Seq<FieldKind>, CsvFault>
    ensures { IsUnlessMemory result (kinds_of schema.now kind (fields_of header.now)) }
{
    let mut kinds = Seq::new(alloc);
    while let Some(name) = next_field(header, kinds.len()) {
        kinds.push(kind_at(schema, kind, header, kinds.len(), name)?)?;
    }
    Ok(kinds)
}

// Where the needed field with the name stands, before which `i` fields are needed.
fn place_named(header: &ByteRecord, i: usize, name: &[u8]) -> Result<usize, CsvFault>
    requires { i + 1 < 2 ^ 64 }
    ensures { result ≡ place_named (fields_of header.now) i name.now }
{
    match place_of(header, name) {
        None => Err(CsvFault::HeaderMissing {
            column: i as u64 + 1,
        }),
        Some(place) => Ok(place),
    }
}

// Where the columns stand.
#[tactic(auto, using(crate::proofs::FaultLemmas::behind_steps))]
fn places_of(alloc: Global, columns: &[Column], header: &ByteRecord) -> Result<Seq<usize>, CsvFault>
    ensures { IsUnlessMemory result (places_of (fields_of header.now) columns.now) }
{
    let mut places = Seq::new(alloc);
    let mut rest = columns;
    'columns: while let [column, behind @ ..] = rest {
        places.push(place_named(header, places.len(), column.name.as_bytes())?)?;
        rest = behind;
    }
    Ok(places)
}

// Where the ends of the period stand, before which `columns` fields are needed.
fn period_at(
    header: &ByteRecord,
    columns: usize,
    valid: bool,
) -> Result<Option<PeriodPlaces>, CsvFault>
    requires { columns ≤ 16 }
    ensures { result ≡ period_at (fields_of header.now) columns valid }
{
    if !valid {
        return Ok(None);
    }
    let from = place_named(header, columns, b"valid_from")?;
    let to = place_named(header, columns + 1, b"valid_to")?;
    Ok(Some(PeriodPlaces { from, to }))
}

/// The layout that a header gives the records behind it. The error is the header's first fault, or
/// `NoMemory`.
pub fn layout_of(
    alloc: Global,
    schema: &Schema,
    kind: BatchKind,
    header: &ByteRecord,
) -> Result<Layout, CsvFault>
    ensures layout { IsUnlessMemory result (layout_of schema.now kind (fields_of header.now)) }
    ensures some { OnOk result (1 ≤ length (columns_of schema.now kind)) }
    ensures distinct { OnOk result (are_distinct (names_of (columns_of schema.now kind)) ≡ true) }
{
    if let Some(fault) = not_utf8(header) {
        return Err(fault);
    }
    let kinds = kinds_of(alloc, schema, kind, header)?;
    let columns = places_of(alloc, columns_of(schema, kind), header)?;
    let period = period_at(header, columns.len(), schema.valid())?;
    Ok(Layout::new(kinds, columns, period))
}
