//! Whether a row passes a predicate: all tests of one of its lists, or there is no list. Texts have
//! no order, and cells of two kinds never compare.
ghost use Rattle.std.specs.Prelude.{◌≡◌, IfOk, map};
ghost use Rattle.std.specs.List.{filter, list_any};
ghost use Rattle.tl_query.specs.Passing.{compare_numbers, compare_texts, compare_cells, passes_test, passes_all, passes};
ghost use Rattle.tl_plain.specs.Choosing.{lent};

use crate::keyed_rows::KeyedRow;
use crate::rows::Row;
use std::alloc::Global;
use tl_query::{TypedPred, TypedTest};
use tl_types::{Cell, Cmp, NoMemory, Text};

fn compare_numbers(cmp: Cmp, first: i64, second: i64) -> bool
    ensures { result ≡ compare_numbers cmp first second }
{
    match cmp {
        Cmp::Eq => first == second,
        Cmp::Ne => first != second,
        Cmp::Lt => first < second,
        Cmp::Le => first <= second,
        Cmp::Gt => second < first,
        Cmp::Ge => second <= first,
    }
}

fn compare_texts(cmp: Cmp, first: &Text, second: &Text) -> bool
    ensures { result ≡ compare_texts cmp first.now second.now }
{
    let same = first.as_str() == second.as_str();
    match cmp {
        Cmp::Eq => same,
        Cmp::Ne => !same,
        Cmp::Lt => false,
        Cmp::Le => false,
        Cmp::Gt => false,
        Cmp::Ge => false,
    }
}

fn compare_cells(cmp: Cmp, first: &Cell, second: &Cell) -> bool
    ensures { result ≡ compare_cells cmp first.now second.now }
{
    match first {
        Cell::Int(first) => match second {
            Cell::Int(second) => compare_numbers(cmp, *first, *second),
            Cell::Text(_) => false,
        },
        Cell::Text(first) => match second {
            Cell::Int(_) => false,
            Cell::Text(second) => compare_texts(cmp, first, second),
        },
    }
}

fn passes_test(row: &Row, test: &TypedTest) -> bool
    ensures { result ≡ passes_test row.now test.now }
{
    match row.cells().get(test.column as usize) {
        Some(cell) => compare_cells(test.cmp, cell, &test.value),
        None => false,
    }
}

fn passes_all(row: &Row, tests: &[TypedTest]) -> bool
    ensures { result ≡ passes_all row.now tests.now }
{
    tests.iter().all(|test| passes_test(row, test))
}

fn passes_any(row: &Row, pred: &TypedPred) -> bool
    ensures { result ≡ list_any (passes_all row.now) pred.now.any }
{
    pred.any
        .as_slice()
        .iter()
        .any(|tests| passes_all(row, tests.as_slice()))
}

/// Whether a row passes all tests of one of the predicate's lists, or there is no list.
pub(crate) fn passes(pred: &TypedPred, row: &Row) -> bool
    ensures { result ≡ passes pred.now row.now }
{
    pred.any.is_empty() || passes_any(row, pred)
}

/// The rows that pass, in order. The error is out of memory.
pub(crate) fn passing_rows<'a>(
    alloc: Global,
    pred: &TypedPred,
    rows: &'a [Row],
) -> Result<Vec<&'a Row>, NoMemory>
    ensures { IfOk result (λ passing. lent passing.items ≡ filter (passes pred.now) rows.now) }
{
    let mut passing = Vec::new(alloc);
    for row in rows {
        if passes(pred, row) {
            passing.push(row)?;
        }
    }
    Ok(passing)
}

/// Of rows with their keys those that pass, in order. The error is out of memory.
pub(crate) fn passing_keyed<'a>(
    alloc: Global,
    pred: &TypedPred,
    rows: &[KeyedRow<'a>],
) -> Result<Vec<&'a Row>, NoMemory>
    ensures { IfOk result (λ passing. lent passing.items ≡
        filter (passes pred.now) (map (λ k. k.row.now) rows.now)) }
{
    let mut passing = Vec::new(alloc);
    for keyed in rows {
        if passes(pred, keyed.row) {
            passing.push(keyed.row)?;
        }
    }
    Ok(passing)
}
