//! Rows that are lists of fields: the fields of all rows one behind the other, and the place where
//! each row ends. A row that is not there cannot be asked for.
ghost use Rattle.std.specs.Prelude.{◌≡◌, ◌<◌, length, slice_index};
ghost use Rattle.tl_rows.specs.Rows.{row_at, rows_cut, start_of, AreEnds};

use crate::packed::{PackedFields, RowFields};
use std::marker::Model;

/// Rows that are lists of fields, which stand one behind the other. A contract sees them as an
/// answer.
#[derive(Drop)]
pub struct FieldRows {
    fields: PackedFields,
    ends: Vec<usize>,
}

impl Model for FieldRows {
    ghost use Rattle.std.specs.Prelude.{length};
    ghost use Rattle.tl_types.specs.declared.answers.Answer.{Answer};
    ghost use Rattle.tl_rows.specs.Rows.{rows_cut, AreEnds};

    ghost Value = { Answer };

    ghost view = { λ a. record { rows = rows_cut 0 a.ends.items a.fields } };

    ghost invariant = { λ a. AreEnds 0 a.ends.items (length a.fields) };
}

// Where a row begins among the fields.
fn start_of(ends: &[usize], row: usize) -> usize
    requires { row < length ends.now }
    ensures { result ≡ start_of ends.now row }
{
    if row == 0 { 0 } else { ends[row - 1] }
}

// Where a row ends among the fields.
fn end_of(ends: &[usize], row: usize) -> usize
    requires { row < length ends.now }
    ensures { result ≡ slice_index ends.now row }
{
    ends[row]
}

impl FieldRows {
    // The rows that end at these places.
    pub(crate) fn new(fields: PackedFields, ends: Vec<usize>) -> FieldRows
        requires { AreEnds 0 ends.items (length fields) }
        ensures { result ≡ record { rows = rows_cut 0 ends.items fields } }
    {
        FieldRows { fields, ends }
    }

    /// The number of rows.
    pub fn len(&self) -> usize
        ensures { result ≡ length self.now.rows }
    {
        self.ends.as_slice().len()
    }

    /// The fields of a row, which is given by its place, lent.
    pub fn row(&self, row: usize) -> RowFields<'_>
        requires { row < length self.now.rows }
        ensures { result ≡ row_at self.now row }
    {
        let ends = self.ends.as_slice();
        let start = start_of(ends, row);
        let end = end_of(ends, row);
        self.fields.range(start, end)
    }
}
