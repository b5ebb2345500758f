//! The cell of a field: a number of 64 bits, or a text in UTF-8 of limited length. What is neither
//! is refused by its place in its record.
ghost use Rattle.std.specs.Prelude.{◌≡◌, ◌≤◌, ◌<◌, ◌+◌, ◌^◌, length, Err, if◌then◌else◌};
ghost use Rattle.std.specs.Str.{is_utf8};
ghost use Rattle.tl_csv.specs.declared.faults.CsvFault.TheVariants as fault;
ghost use Rattle.tl_csv.specs.Numbers.{integer_of, end_of};
ghost use Rattle.tl_csv.specs.Faults.{IsUnlessMemory};
ghost use Rattle.tl_csv.specs.Block.{cell_of, int_cell, text_cell};

use crate::faults::CsvFault;
use crate::needs::FieldKind;
use crate::numbers::{integer_of, plain_integer};
use crate::records::text_of;
use std::alloc::Global;
use tl_types::{Cell, ColumnKind, Limits, Period, Text};

/// Where a field stands: the number of its record, and its place there, from 0.
#[derive(Clone, Copy)]
pub struct Spot {
    /// The record's number: its place behind the header, from 0, plus 2.
    pub rec: u32,
    /// The field's place in its record, from 0.
    pub place: usize,
}

fn int_cell(rec: u32, place: usize, number: Option<i64>) -> Result<Cell, CsvFault>
    requires { place + 1 < 2 ^ 64 }
    ensures { result ≡ int_cell rec place number }
{
    match number {
        Some(number) => Ok(Cell::Int(number)),
        None => Err(CsvFault::NotInt {
            rec,
            column: place as u64 + 1,
        }),
    }
}

// The cell of a field that may be no text.
#[inline(never)]
fn any_integer_cell(rec: u32, place: usize, field: &[u8]) -> Result<Cell, CsvFault>
    requires { place + 1 < 2 ^ 64 }
    ensures { result ≡ (if is_utf8 field.now then int_cell rec place (integer_of field.now)
        else Err (fault.NotUtf8 rec (place + 1))) }
{
    match text_of(field) {
        Some(text) => int_cell(rec, place, integer_of(text)),
        None => Err(CsvFault::NotUtf8 {
            rec,
            column: place as u64 + 1,
        }),
    }
}

// The cell of a number. Digits are text, so mostly one look at each byte does.
fn integer_cell(rec: u32, place: usize, field: &[u8]) -> Result<Cell, CsvFault>
    requires { place + 1 < 2 ^ 64 }
    ensures { result ≡ (if is_utf8 field.now then int_cell rec place (integer_of field.now)
        else Err (fault.NotUtf8 rec (place + 1))) }
{
    match plain_integer(field) {
        Some(number) => Ok(Cell::Int(number)),
        None => any_integer_cell(rec, place, field),
    }
}

// The cell of the end of a period.
#[tactic(auto, using(crate::proofs::NumberLemmas::forever_is_text))]
fn end_cell(rec: u32, place: usize, field: &[u8]) -> Result<Cell, CsvFault>
    requires { place + 1 < 2 ^ 64 }
    ensures { result ≡ (if is_utf8 field.now then int_cell rec place (end_of field.now)
        else Err (fault.NotUtf8 rec (place + 1))) }
{
    if field == b"FOREVER".as_slice() {
        return Ok(Cell::Int(Period::FOREVER));
    }
    integer_cell(rec, place, field)
}

// The cell of a text.
fn text_cell(
    alloc: Global,
    limits: &Limits,
    rec: u32,
    place: usize,
    field: &[u8],
) -> Result<Cell, CsvFault>
    requires short { limits.now.text ≤ 65535 }
    requires within { place + 1 < 2 ^ 64 }
    ensures { IsUnlessMemory result
        (if is_utf8 field.now then text_cell limits.now rec place field.now
        else Err (fault.NotUtf8 rec (place + 1))) }
{
    let column = place as u64 + 1;
    let Some(text) = text_of(field) else {
        return Err(CsvFault::NotUtf8 { rec, column });
    };
    if text.len() as u64 > limits.text {
        return Err(CsvFault::TextTooLong { rec, column });
    }
    Ok(Cell::Text(Text::new(alloc, text)?))
}

/// The cell of the field at a place (from 0) of a record, which is of this kind; an end of a period
/// as a number. The error is the field's fault, or `NoMemory`.
#[inline(always)]
pub fn cell_of(
    alloc: Global,
    limits: &Limits,
    rec: u32,
    place: usize,
    kind: FieldKind,
    field: &[u8],
) -> Result<Cell, CsvFault>
    requires short { limits.now.text ≤ 65535 }
    requires within { place + 1 < 2 ^ 64 }
    ensures { IsUnlessMemory result (cell_of limits.now rec place kind field.now) }
{
    match kind {
        FieldKind::From => integer_cell(rec, place, field),
        FieldKind::To => end_cell(rec, place, field),
        FieldKind::Cell(ColumnKind::IntKind) => integer_cell(rec, place, field),
        FieldKind::Cell(ColumnKind::TextKind) => text_cell(alloc, limits, rec, place, field),
    }
}
