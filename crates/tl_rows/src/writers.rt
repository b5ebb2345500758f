//! Rows while they are written, field by field, each ended by a call. Only whole rows come out,
//! and an error leaves what was there.
ghost use Rattle.std.specs.Prelude.{◌≡◌, ◌++◌, ◌∷◌, [], IfOk, OnErr, OnOk};
ghost use Rattle.tl_rows.specs.Fields.{field_shown};

use crate::answers::AnswerRows;
use crate::field_rows::FieldRows;
use crate::fields::FieldRef;
use crate::packed::PackedFields;
use std::alloc::Global;
use std::marker::Model;
use tl_types::NoMemory;

/// Rows that are written field by field, each ended by a call. A contract sees the rows that are
/// whole, and the fields of the row that is not ended yet.
#[derive(Drop)]
pub struct RowsWriter {
    fields: PackedFields,
    ends: Vec<usize>,
}

impl Model for RowsWriter {
    ghost use Rattle.std.specs.Prelude.{length};
    ghost use Rattle.tl_rows.specs.Rows.{rows_cut, behind_ends, AreEnds, Rows};

    ghost Value = { Rows };

    ghost view = { λ w. record {
      rows = rows_cut 0 w.ends.items w.fields;
      row = behind_ends 0 w.ends.items w.fields;
    } };

    ghost invariant = { λ w. AreEnds 0 w.ends.items (length w.fields) };
}

impl RowsWriter {
    /// No rows, and a row without fields that is not ended. It takes no memory.
    pub fn new(alloc: Global) -> RowsWriter
        ensures { result ≡ record { rows = []; row = [] } }
    {
        RowsWriter {
            fields: PackedFields::new(alloc),
            ends: Vec::new(alloc),
        }
    }

    /// No rows, and a row without fields that is not ended, with room for so many rows and so many
    /// fields of all rows together. The error is `NoMemory`.
    pub fn with_room(alloc: Global, rows: usize, fields: usize) -> Result<RowsWriter, NoMemory>
        ensures { IfOk result (λ writer. writer ≡ record { rows = []; row = [] }) }
    {
        Ok(RowsWriter {
            fields: PackedFields::with_room(alloc, fields)?,
            ends: Vec::with_capacity(alloc, rows)?,
        })
    }

    /// Appends a field to the row that is not ended. The error is `NoMemory`, and comes too where
    /// the field is a text of 2^32 bytes or more; nothing changes then.
    #[inline(always)]
    pub fn push(&mut self, field: FieldRef<'_>) -> Result<(), NoMemory>
        ensures rows { OnOk result (self.new.rows ≡ self.old.rows) }
        ensures row { OnOk result (self.new.row ≡ self.old.row ++ field_shown field.entry ∷ []) }
        ensures err { OnErr result (self.new ≡ self.old) }
    {
        self.fields.push(field)?;
        Ok(())
    }

    /// Ends the row. The error is `NoMemory`, and nothing changes then.
    pub fn end_row(&mut self) -> Result<(), NoMemory>
        ensures rows { OnOk result (self.new.rows ≡ self.old.rows ++ self.old.row ∷ []) }
        ensures row { OnOk result (self.new.row ≡ []) }
        ensures err { OnErr result (self.new ≡ self.old) }
    {
        self.ends.push(self.fields.len())?;
        Ok(())
    }

    /// The rows, none of which is unended.
    pub fn finish(self) -> AnswerRows
        requires { self.row ≡ [] }
        ensures { result ≡ record { rows = self.rows } }
    {
        let RowsWriter { fields, ends } = self;
        AnswerRows::of_fields(FieldRows::new(fields, ends))
    }
}
