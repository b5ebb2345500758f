//! A test of one column, made ready for scans: a text is looked up once, and each word of the mask
//! is then a comparison of numbers. No word is seen without a step.
ghost use Rattle.std.specs.Prelude.{◌≡◌, ◌+◌, map, Some};
ghost use Rattle.tl_query.specs.Passing.{cell_passes};
ghost use Rattle.tl_column.specs.Dictionary.{dictionary_of};
ghost use Rattle.tl_column.specs.Masks.{code_for};
ghost use Rattle.tl_lanes.specs.Masks.{IsWordOf};
ghost use Rattle.tl_store.specs.Columns.{cells_in};
ghost use Rattle.tl_store.specs.Ready.{passing, number_asked, text_asked};

use crate::columns::ColumnData;
use std::marker::Model;
use std::sync::ledger::Ledger;
use tl_column::TextColumn;
use tl_query::TypedTest;
use tl_types::{Cell, Cmp, Steps};

// What is asked of each cell of a column.
#[derive(Clone, Copy)]
pub(crate) enum Asked {
    // A number stands so to a bound.
    Number(Cmp, i64),
    // The code of a text is this one, or is not.
    Code(bool, u32),
    // Nothing that a cell of the column could be.
    Other,
}

/// A test of one column of a table, made ready: its text was looked up once, so that a word of its
/// mask takes no look-up. Contracts see it as the list of which rows pass, in the order of their
/// ids.
#[derive(Drop)]
pub struct ReadyTest<'a> {
    column: &'a ColumnData,
    asked: Asked,
}

impl<'a> Model for ReadyTest<'a> {
    ghost use Rattle.std.specs.Prelude.{List, Bool};
    ghost use Rattle.tl_store.specs.Ready.{passing};

    ghost Value = { List Bool };

    ghost view = { λ t. passing t.column.now t.asked };
}

impl<'a> ReadyTest<'a> {
    /// The test of a column.
    pub(crate) fn new(column: &'a ColumnData, test: &TypedTest) -> ReadyTest<'a>
        ensures { result ≡ map (λ cell. cell_passes test.now (Some cell)) (cells_in column.now) }
    {
        let asked = asked_of(column, test);
        ReadyTest { column, asked }
    }

    /// Word `i` of the mask of the rows that pass: bit j tells of the row with id 64 i + j. Bits
    /// past the rows are 0. It ticks once.
    pub fn mask_word<L: Ledger>(&self, i: u32, steps: &mut Steps<L>) -> u64
        ensures bits { IsWordOf self.now i result }
        ensures ticks { steps.new ≡ steps.old + 1 }
    {
        steps.tick();
        word_of(self.column, self.asked, i)
    }
}

// What a test asks of each number of a column.
fn number_asked(test: &TypedTest) -> Asked
    ensures { result ≡ number_asked test.now }
{
    match &test.value {
        Cell::Int(bound) => Asked::Number(test.cmp, *bound),
        Cell::Text(_) => Asked::Other,
    }
}

// What a test asks of the code of each text of a column.
fn text_asked(column: &TextColumn, test: &TypedTest) -> Asked
    ensures { result ≡ text_asked (code_for (dictionary_of column.now)) test.now }
{
    match &test.value {
        Cell::Int(_) => Asked::Other,
        Cell::Text(text) => match test.cmp {
            Cmp::Eq => Asked::Code(true, column.code_for(text.as_str())),
            Cmp::Ne => Asked::Code(false, column.code_for(text.as_str())),
            Cmp::Lt | Cmp::Le | Cmp::Gt | Cmp::Ge => Asked::Other,
        },
    }
}

// What a test asks of each cell of a column.
fn asked_of(column: &ColumnData, test: &TypedTest) -> Asked
    ensures { passing column.now result
        ≡ map (λ cell. cell_passes test.now (Some cell)) (cells_in column.now) }
{
    match column {
        ColumnData::Ints(_) => number_asked(test),
        ColumnData::Texts(texts) => text_asked(texts, test),
    }
}

// Word `i` of the mask of the cells of which what is asked is so.
fn word_of(column: &ColumnData, asked: Asked, i: u32) -> u64
    ensures { IsWordOf (passing column.now asked) i result }
{
    match column {
        ColumnData::Ints(numbers) => match asked {
            Asked::Number(cmp, bound) => numbers.mask_word(i, cmp, bound),
            Asked::Code(_, _) => 0,
            Asked::Other => 0,
        },
        ColumnData::Texts(texts) => match asked {
            Asked::Number(_, _) => 0,
            Asked::Code(equal, code) => texts.mask_word_of(i, equal, code),
            Asked::Other => 0,
        },
    }
}
