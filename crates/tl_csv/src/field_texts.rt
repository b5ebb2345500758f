//! The texts of fields, lent: a text as it stands, and a number as digits in room that serves
//! again.
ghost use Rattle.std.specs.Prelude.{◌≡◌, ◌++◌, codes, IfOk, OnOk};
ghost use Rattle.std.specs.Fmt.{decimal, signed_decimal};
ghost use Rattle.tl_csv.specs.Answers.{field_text};
ghost use Rattle.tl_query.specs.Fields.{cell_field};
ghost use Rattle.tl_rows.specs.Fields.{field_shown};

use itoa::Buffer;
use std::alloc::Global;
use tl_rows::FieldRef;
use tl_types::{Cell, NoMemory};

/// Where the text of a field is put together.
#[derive(Drop)]
pub(crate) struct FieldText {
    digits: Buffer,
    ratio: Vec<u8>,
}

// A number of any size in decimal.
#[inline(never)]
fn wide_text(digits: &mut Buffer, number: i128) -> &[u8]
    ensures { result.now ≡ signed_decimal number }
{
    digits.format(number).as_bytes()
}

// A number in decimal. Most numbers fit 64 bits, whose digits come by shorter divisions.
fn number_text(digits: &mut Buffer, number: i128) -> &[u8]
    ensures { result.now ≡ signed_decimal number }
{
    match i64::try_from(number) {
        Ok(short) => digits.format(short).as_bytes(),
        Err(_) => wide_text(digits, number),
    }
}

// Makes `text` a sum, `/` and its count. The error is out of memory.
#[inline(never)]
fn write_ratio(text: &mut Vec<u8>, sum: i128, count: u32) -> Result<(), NoMemory>
    ensures { OnOk result
        (text.new.items ≡ signed_decimal sum ++ (codes "/" ++ decimal count)) }
{
    let mut digits = Buffer::new();
    text.clear();
    text.extend_from_slice(number_text(&mut digits, sum))?;
    text.extend_from_slice(b"/".as_slice())?;
    text.extend_from_slice(digits.format(count).as_bytes())?;
    Ok(())
}

/// A cell, in decimal where it is a number.
pub(crate) fn cell_text<'a>(digits: &'a mut Buffer, cell: &'a Cell) -> &'a [u8]
    ensures { result.now ≡ field_text (cell_field cell.now) }
{
    match cell {
        Cell::Int(number) => digits.format(*number).as_bytes(),
        Cell::Text(text) => text.as_bytes(),
    }
}

impl FieldText {
    /// A place for texts. It takes no memory yet.
    pub(crate) fn new(alloc: Global) -> FieldText {
        FieldText {
            digits: Buffer::new(),
            ratio: Vec::new(alloc),
        }
    }

    /// The text of a field. The error is out of memory.
    #[inline]
    pub(crate) fn of<'a>(&'a mut self, field: FieldRef<'a>) -> Result<&'a [u8], NoMemory>
        ensures { IfOk result (λ text. text.now ≡ field_text (field_shown field.entry)) }
    {
        match field {
            FieldRef::Number(number) => Ok(number_text(&mut self.digits, number)),
            FieldRef::Text(bytes) => Ok(bytes),
            FieldRef::Ratio { sum, count } => {
                write_ratio(&mut self.ratio, sum, count)?;
                Ok(self.ratio.as_slice())
            }
            FieldRef::Empty => Ok(b"".as_slice()),
            FieldRef::Forever => Ok(b"FOREVER".as_slice()),
        }
    }
}
