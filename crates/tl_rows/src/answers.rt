//! The rows of an answer, as lists of fields or as runs of an aggregate, which are kept as they
//! are.
ghost use Rattle.std.specs.Prelude.{◌≡◌, length, map};
ghost use Rattle.tl_query.specs.Answers.{run_fields};
ghost use Rattle.tl_rows.specs.Answers.{rows_lent};

use crate::field_rows::FieldRows;
use std::marker::Model;
use tl_types::{Run, Seq};

// How rows are kept.
#[derive(Drop)]
enum Form {
    // As lists of fields.
    Fields(FieldRows),
    // As runs of an aggregate, each of which is a row.
    Runs(Seq<Run>),
}

/// Rows, lent as they are kept.
pub enum RowsRef<'a> {
    /// Rows that are lists of fields.
    Fields(&'a FieldRows),
    /// Runs of an aggregate, each of which is a row: its group where it has one, its bounds, its
    /// value.
    Runs(&'a [Run]),
}

/// The rows of an answer, in order. A contract sees them as the answer.
#[derive(Drop)]
pub struct AnswerRows {
    form: Form,
}

impl Model for AnswerRows {
    ghost use Rattle.tl_types.specs.declared.answers.Answer.{Answer};
    ghost use Rattle.tl_rows.specs.Answers.{rows_of_form};

    ghost Value = { Answer };

    ghost view = { λ a. rows_of_form a.form };
}

impl AnswerRows {
    // Rows that are lists of fields.
    pub(crate) fn of_fields(rows: FieldRows) -> AnswerRows
        ensures { result ≡ rows }
    {
        AnswerRows {
            form: Form::Fields(rows),
        }
    }

    /// The runs of an aggregate, each as a row.
    pub fn of_runs(runs: Seq<Run>) -> AnswerRows
        ensures { result ≡ record { rows = map run_fields runs } }
    {
        AnswerRows {
            form: Form::Runs(runs),
        }
    }

    /// The number of rows.
    pub fn len(&self) -> usize
        ensures { result ≡ length self.now.rows }
    {
        match &self.form {
            Form::Fields(rows) => rows.len(),
            Form::Runs(runs) => runs.len(),
        }
    }

    /// The rows, lent.
    pub fn lend(&self) -> RowsRef<'_>
        ensures { rows_lent result ≡ self.now }
    {
        match &self.form {
            Form::Fields(rows) => RowsRef::Fields(rows),
            Form::Runs(runs) => RowsRef::Runs(runs.as_slice()),
        }
    }
}
